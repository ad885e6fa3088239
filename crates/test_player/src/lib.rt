//! Tests of scripts and of their plays.
#![tactic(auto)]

#[cfg(test)]
mod tests;
