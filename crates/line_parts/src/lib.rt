//! The parts of a line of text: a text at the front, a number in decimal, and its end.
#![tactic(auto)]

mod parts;

pub use parts::{after, number_at, split_line};
