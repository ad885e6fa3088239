//! The running rings, of flickering bits and of whole words: one producer and one consumer in two threads, with no lock
//! (Lamport 1977, over the registers of 1986). Between any two atomic steps there is one lawful history of safe bits,
//! whose two sides are the lists of the two ends and follow the programs of the ring's two sides.
#![tactic(auto)]

mod gates;
pub mod laws;
mod recorders;
mod relays;
mod sides;

pub use gates::{FreeGate, Gate, RestGate, YieldGate};
pub use recorders::{RecordedLines, Recorder, Slot};
pub use relays::{Limits, Outcome, relay, relay_counter, relay_flicker};
pub use ring_ends::{
    CounterFinished, CounterPutter, CounterRing, CounterStart, CounterTaker, Finished, FlickerRing,
    PutEnd, Putter, RingOf, RunFault, Start, StartIn, TakeEnd, Taker,
};
pub use ring_seats::{
    CounterRule, Counting, FlickerRule, Flickering, Keeping, LastWords, Loads, RuleOf, View,
    WordKind,
};
