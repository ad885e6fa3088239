//! The sequential specification of a bounded first-in first-out queue with close; and an online check whether a
//! recorded history of calls of such a queue, by one producer and one consumer, is linearizable (Herlihy and Wing
//! 1990).
#![tactic(auto)]

mod auditors;
mod bounds;
mod capacities;
mod events;
mod faults;
mod hearings;
mod insides;
pub mod laws;
mod recordings;
mod reports;
mod storage;
mod turns;
mod witnesses;

pub use auditors::{AuditorState, CallAuditor};
pub use call_causes::{CAUSE_WORDS, Cause, Next, Offered, Said, TAKEN_LIMIT, Taken, write_cause};
pub use call_lines::{Word, allows, may_begin};
pub use capacities::{Capacity, exactly};
pub use events::{CallEvent, Event, Reply};
pub use faults::{Fault, RecordingFault};
pub use hearings::{Begun, Hearing, HearingState, begun_after, event_told};
pub use insides::Inside;
pub use lists::{Fifo, Filled, Slots, Store};
pub use recordings::{CallsFinding, Recording, RecordingIn, UNSEEN_LIMIT};
pub use reports::CallsReport;
pub use storage::{Lent, Lists, Owned, Storage};
pub use turns::{PutTurn, TakeTurn};
