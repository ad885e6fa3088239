//! Tests of `register_core`.

mod driving;
mod machines;
mod memories;
mod recorded;
