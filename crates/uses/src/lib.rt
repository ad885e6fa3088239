//! Example callers of the libraries: each use of a public call in a few lines, proved, and run by a test of the crate
//! `test_uses`.
#![tactic(auto)]

pub mod audits;
pub mod batches;
pub mod by_hand;
pub mod calls;
pub mod findings;
pub mod hearings;
pub mod held_ends;
pub mod oracles;
pub mod packed;
pub mod plays;
pub mod relays;
pub mod steps;
pub mod two_threads;
