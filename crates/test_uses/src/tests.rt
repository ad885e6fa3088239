//! Tests that run what `uses` proves.

mod histories;
mod machines;
mod rings;
