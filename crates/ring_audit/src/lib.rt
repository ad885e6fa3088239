//! The audit of programs: whether a recorded history of a ring's bits is lawful and both sides follow their programs.
#![tactic(auto)]

mod audits;
mod choices;
mod dues;
mod faults;
pub mod laws;
mod puts;
mod sides;
mod takes;

pub use audits::{Finding, Found, audit, audit_into};
pub use choices::Dues;
pub use dues::{due_behind, dues_of_both};
pub use faults::AuditFault;
