//! The text of a trace, one line for each event of a history of bits: read, written, and audited in pieces.
#![tactic(auto)]

mod cuts;
mod faults;
pub mod laws;
mod reading;
mod trace_audits;
mod traces;
mod writing;

pub use faults::TraceFault;
pub use trace_audits::TraceAudit;
pub use traces::{EVENT_LIMIT, read_trace, read_trace_into};
pub use writing::{push_event, write_trace};
