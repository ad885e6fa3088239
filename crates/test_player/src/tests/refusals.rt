//! Plays in which each allocation is refused in turn.
use crate::tests::{misses, play_growths};
use std::alloc::AllocGlobal;
use std::process::Abort;

/// What is played.
#[derive(Clone, Copy)]
pub(crate) enum Played {
    Ring,
    NearMiss,
}

/// How many of the allocations are refused, each in turn, up to the first that does not exist; at most 40.
pub fn refusals(rt: &(impl Abort + AllocGlobal), played: Played) -> u64 {
    for allocations in 0..40 {
        let is_refused = match played {
            Played::Ring => play_growths::is_refused(rt, allocations),
            Played::NearMiss => misses::is_refused(rt, allocations),
        };
        if !is_refused {
            return allocations;
        }
    }
    40
}
