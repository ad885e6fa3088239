//! The player: the two sides of a script run on one memory of safe bits. It re-exports the audit of programs, for the history of a
//! play or one recorded elsewhere.
#![tactic(auto)]

mod actors;
mod faults;
pub mod laws;
mod putting;
mod taking;
mod tellings;
mod worlds;

pub use faults::PlayFault;
pub use ring_audit::{AuditFault, Finding, audit};
pub use ring_script::{Field, ITEM_LIMIT, LETTER_LIMIT, Script, ScriptFault, ScriptRef};
pub use tellings::{PlayedCall, TakenItems, play_calls};
pub use worlds::{Report, World, play, play_first};
