//! Tests of the machines of registers: alone, the accesses that they yield and the values that they read; over one memory, what they read
//! while others write.
#![tactic(auto)]

#[cfg(test)]
mod tests;
