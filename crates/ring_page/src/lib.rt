//! What the web page calls: the proved reader, audit and player over bytes and numbers, in caller-supplied buffers.
#![tactic(auto)]

mod audits;
mod calls;
mod marks;
mod near_plays;
mod orders;
mod plays;
mod programs;
mod reasons;
mod registers;

pub use audits::{AuditTold, EVENT_ROOM, page_audit};
pub use calls::{CallsTold, Counts, page_calls};
pub use marks::Mark;
pub use near_plays::{NearPlayed, Telling, page_play_near};
pub use orders::{Came, Holds, page_order};
pub use plays::{ANSWER_ROOM, Asked, Played, RUN_ROOM, page_play};
pub use programs::{Due, Judged};
pub use queue_calls::CAUSE_WORDS;
pub use registers::{MissTold, READER_ROOM, ReadTold, RegisterCounts, RegisterTold, page_register};

#[cfg(test)]
mod call_tests;
#[cfg(test)]
mod near_tests;
#[cfg(test)]
mod register_tests;
#[cfg(test)]
mod tests;
