//! The lines of the text of recorded calls: a word, and numbers in decimal after it.
#![tactic(auto)]

mod beginnings;
mod lines;

pub use beginnings::may_begin;
pub use lines::{Word, allows, read_line};
