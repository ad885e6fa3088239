//! The audits of recordings for C and what calls C: that of recorded calls line by line, with its state in a struct and in
//! caller-supplied slots; and that of a register's whole history in one call. They take no memory.
#![tactic(auto)]

mod audits;
mod found;
mod hearings;
mod judges;
mod layouts;
mod registers;
mod states;

pub use audits::{ring_audit_begin, ring_audit_hear, ring_audit_report};
pub use found::HeardFound;
pub use hearings::WordLine;
pub use layouts::ring_audit_layout;
pub use registers::{EventLine, JudgeFound, ring_register_judge};
pub use states::{Audit, Calls};

#[cfg(test)]
mod tests;
