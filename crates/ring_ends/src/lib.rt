//! The ends of a ring, which perform their calls as steps of its seats (Lamport 1977, over the registers of 1986): the
//! flickering ring and the counter ring, the putter and the taker of each, with complete calls, and for the flickering ring
//! single steps; how the ends are made, meet and end.
#![tactic(auto)]

mod calls;
mod counter_calls;
mod counter_putters;
mod counter_rings;
mod counter_takers;
mod ends;
mod machines;
mod meetings;
mod putters;
mod resting_putters;
mod resting_takers;
mod rings;
mod takers;

pub use counter_putters::CounterPutter;
pub use counter_rings::{CounterFinished, CounterRing, CounterStart};
pub use counter_takers::CounterTaker;
pub use ends::{PutEnd, RingOf, TakeEnd};
pub use meetings::Finished;
pub use putters::Putter;
pub use resting_putters::RestingPutter;
pub use resting_takers::RestingTaker;
pub use rings::{FlickerRing, RunFault, Start, StartIn};
pub use takers::Taker;
