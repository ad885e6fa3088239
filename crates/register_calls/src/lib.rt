//! Recorded histories of one register with one writer and several readers (Lamport 1986): which of the classes safe,
//! regular and atomic a history has, judged event by event.
#![tactic(auto)]

mod auditors;
mod chains;
mod events;
mod faults;
mod findings;
pub mod laws;
mod reasons;
mod reports;
mod witnesses;

pub use auditors::{OpenRead, ReaderState, RegisterAuditor};
pub use chains::Chain;
pub use events::{Class, Register, RegisterEvent};
pub use faults::RegisterFault;
pub use findings::first_miss;
pub use reasons::{EarlierRead, MissReason};
pub use reports::RegisterReport;
pub use witnesses::RegisterWitness;
