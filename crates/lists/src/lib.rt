//! Lists that grow, in memory of an allocator or in caller-supplied slots, with one implementation and one proof.
#![tactic(auto)]

mod fifos;
mod slots;
mod stores;

pub use fifos::Fifo;
pub use slots::Slots;
pub use stores::{Filled, Store};
