//! Tests of `ring_program`, the program as a library.

mod audits;
mod expects;
mod failure_expects;
mod failures;
mod fakes;
mod plays;
mod recorded;
mod refusals;
mod registers;
mod run_words;
mod runs;
mod whys;
mod words;
mod wrong_plays;
