//! Tests of `bits_core`: shapes, faults, oracles and the memory, also with an allocator that refuses; the audit of recorded histories; the text of a trace.
#![tactic(auto)]

#[cfg(test)]
mod tests;
