//! Tests of `ring_core`.

mod batches;
mod calls;
mod counts;
mod handing;
mod near_misses;
mod runs;
