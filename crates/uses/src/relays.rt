//! Items through a ring between two threads.
ghost use Rattle.std.specs.Prelude.{IfOk};
ghost use Rattle.bits_core.specs.Made.{IsPrefix};
ghost use Rattle.bits_core.specs.Shape.{AllFit};

use bits_core::Shape;
use ring_run::{FreeGate, Limits, RunFault, relay_counter};
use std::alloc::Allocator;
use std::thread::Threads;

/// Puts the items into a ring in one thread and takes them in another, with at most this many calls of each: what
/// was taken is a prefix of the items.
pub fn pass_on<R: Threads, A: Allocator + Copy>(
    rt: &R,
    alloc: A,
    shape: Shape,
    items: &[u64],
    calls: u64,
) -> Result<Vec<u64, A>, RunFault>
    requires { AllFit shape items.now }
    ensures { IfOk result (λ taken. IsPrefix taken.items items.now) }
{
    let limits = Limits::both(calls);
    let outcome = relay_counter(rt, alloc, shape, items, limits, &FreeGate)?;
    Ok(outcome.taken)
}
