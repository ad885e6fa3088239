//! Tests of `ring_audit`.

mod dues;
mod expects;
mod growths;
mod plays;
mod slots;
mod traces;
