//! Tests of the ring's two machines over a memory of safe bits: calls, puts of several items, what two counts show, and rings that are nearly right.
#![tactic(auto)]

#[cfg(test)]
mod tests;
