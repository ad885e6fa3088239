//! Tests of `bits_core` and `trace_text`.

mod audits;
mod memories;
mod shapes;
mod stores;
mod trace_audits;
mod traces;
