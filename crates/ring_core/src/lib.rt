//! The ring: what its two counts show, the machines of its producer and its consumer, which yield
//! the accesses of their calls one by one, and the programs that these accesses follow.
#![tactic(auto)]

mod consumer_parts;
mod consumers;
mod counts;
pub mod laws;
mod producer_parts;
mod producers;
mod replies;

pub use consumer_parts::{TakeScan, TakeWord};
pub use consumers::Consumer;
pub use counts::{distance, has_item, has_room, items_shown, past_in};
pub use producer_parts::{PutScan, PutWord};
pub use producers::Producer;
pub use replies::{BatchReply, PutReply, TakeBatchReply, TakeReply};
