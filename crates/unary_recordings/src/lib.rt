//! The unary register of `register_core`, recorded as any register is: its recordings are regular.
#![tactic(auto)]

pub mod laws;
