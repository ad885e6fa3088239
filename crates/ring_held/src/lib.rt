//! A counter ring that its two ends own together: an end that borrows nothing, and so fits into a struct and goes to a thread of its
//! own.
#![tactic(auto)]

mod padding;
mod putters;
mod rings;
mod takers;

pub use putters::HeldPutter;
pub use rings::{finish, hold, meet};
pub use takers::HeldTaker;
