//! Tests of the audit of programs, on traces and on plays of scripts.
#![tactic(auto)]

#[cfg(test)]
mod tests;
