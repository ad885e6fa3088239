//! Safe bits: shapes, events, lawful histories, and the audit of a recorded history.
#![tactic(auto)]

mod audits;
mod events;
mod faults;
pub mod laws;
mod marks;
mod memory;
mod oracles;
mod reasons;
mod shapes;

pub use audits::{BitAuditor, Seen, Verdict, audit_bits, audit_bits_into};
pub use events::{Access, Act, Bit, Event, Side};
pub use faults::{Kind, MemoryFault, ShapeFault};
pub use lists::{Filled, Store};
pub use memory::Memory;
pub use oracles::{Always, Flip, Oracle, Tape};
pub use reasons::{Reason, reason_behind};
pub use shapes::Shape;
