//! Scripts: one interleaving of the ring's two sides, written as a JSON object.
#![tactic(auto)]

mod borrowed;
mod faults;
mod fields;
pub mod laws;
mod schedules;
mod scripts;
mod stops;
mod stores;

pub use borrowed::{Fields, ScriptRef};
pub use faults::{Field, ScriptFault};
pub use schedules::{LETTER_LIMIT, LetterRun};
pub use scripts::{ITEM_LIMIT, Script};
pub use stops::{JsonFault, byte_of_text, json_fault};
