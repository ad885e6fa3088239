//! The counter ring for C and for what calls C: an opaque handle for each end, which any one thread at a time may use. Each end owns
//! the ring together with the other, so they may be freed in any order.
#![tactic(auto)]

mod handles;
mod opening;
mod puts;
mod raws;
mod slots;
mod takes;

pub use handles::{RingPutter, RingTaker};
pub use opening::{ring_finish, ring_free_putter, ring_free_taker, ring_open};
pub use puts::{ring_close, ring_is_closed, ring_put, ring_put_all};
pub use takes::{ring_is_told, ring_take, ring_take_all};
