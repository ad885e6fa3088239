//! The program `lamport_ring` over any arguments, reader and writers: its command line, the input
//! that it reads, its output and its exit.
#![tactic(auto)]

mod answers;
mod audits;
mod call_writing;
mod causes;
mod command_line;
mod faults;
mod inputs;
mod lines;
mod long_bits;
mod mistakes;
mod options;
mod plays;
mod program;
mod recordings;
mod registers;
mod reports;
mod run_line;
mod run_recordings;
mod runs;
mod tellings;
mod texts;
mod trace_lines;
mod why;

pub use answers::{Exit, complain, refuse};
pub use faults::{AppFault, Refusal};
pub use inputs::{INPUT_LIMIT, load};
pub use program::execute;
pub use reports::report_text;
pub use runs::{relay_report, relay_text};
pub use texts::{audit_text, verdict_text};
