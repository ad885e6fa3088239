//! The seats of a ring: the rights of two ends that step over one table of atomic words, for a ring of flickering bits and
//! for one of whole words (Lamport 1977, over the registers of 1986). The rule that holds between any two atomic steps; the
//! words and what they show; the steps of a seat, each of which preserves the rule; how two seats are made, meet and are
//! joined.
#![tactic(auto)]

mod counter_steppers;
mod counter_words;
mod endings;
pub mod laws;
mod layout;
mod meetings;
mod resting_steppers;
mod steppers;
mod tables;
mod views;
mod words;

pub use counter_words::{CounterRule, Counting};
pub use endings::{LastWords, close_table};
pub use meetings::{first_steppers, join_steppers, meet_steppers};
pub use resting_steppers::RestingStepper;
pub use steppers::Stepper;
pub use tables::{NewTable, counter_table, flicker_table};
pub use views::{FlickerRule, Flickering, Keeping, Loads, RuleOf, View, WordKind};
pub use words::Words;
