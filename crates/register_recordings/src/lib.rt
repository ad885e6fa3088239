//! The text of a recorded register, read in pieces, and which classes its history has.
#![tactic(auto)]

mod faults;
mod findings;
mod recordings;
mod words;

pub use faults::RegisterTextFault;
pub use findings::{Misses, RegisterFinding, RegisterMiss, is_same_line};
pub use recordings::RegisterRecording;
