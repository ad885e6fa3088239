//! Tests of the program: what it writes and how it ends; including with readers, writers and an allocator that fail at a chosen call.
#![tactic(auto)]

#[cfg(test)]
mod tests;
