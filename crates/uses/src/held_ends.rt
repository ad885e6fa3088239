//! Ends that own their ring: each goes into a struct with what it works on, and the struct to a thread. What one took
//! is a prefix of what the other stored.
ghost use Rattle.std.specs.Prelude.{◌≡◌, ◌≤◌, true, [], IfOk, length, take};
ghost use Rattle.bits_core.specs.Made.{IsPrefix};
ghost use Rattle.bits_core.specs.Shape.{AllFit};
ghost use Rattle.ring_run.specs.Steppers.{IsSameEnd};
ghost use Rattle.ring_run.specs.Stored.{HasStored, HasTook};

use crate::two_threads::{put_each, take_each};
use bits_core::Shape;
use ring_held::{HeldPutter, HeldTaker, finish, hold};
use ring_run::RunFault;
use std::alloc::Allocator;
use std::thread::{Threads, join};

/// A producer: an end, and the items that it is to put.
#[derive(Drop)]
pub struct Source<'a, A: Allocator> {
    pub end: HeldPutter<A>,
    pub items: &'a [u64],
}

impl<A: Allocator> Source<'_, A> {
    /// Puts the items in order with at most `calls` puts, and closes the ring. Returns the end, and how many items were stored.
    pub fn run(self, calls: u64) -> (HeldPutter<A>, usize)
        requires fresh { self.end.list ≡ [] }
        requires fit { AllFit self.end.ring.shape self.items.now }
        ensures same { IsSameEnd self.entry.end result.0 }
        ensures few { result.1 ≤ length self.entry.items.now }
        ensures stored { HasStored result.0 (take result.1 self.entry.items.now) }
    {
        let mut end = self.end;
        let stored = put_each(&mut end, self.items, calls);
        (end, stored)
    }
}

/// A consumer: an end, and the items that it has taken.
#[derive(Drop)]
pub struct Sink<A: Allocator> {
    pub end: HeldTaker<A>,
    pub taken: Vec<u64, A>,
}

impl<A: Allocator> Sink<A> {
    /// Takes until the ring is closed, with at most `calls` takes. Returns itself with the items taken.
    pub fn run(self, calls: u64) -> Result<Sink<A>, RunFault>
        requires none { self.taken.items ≡ [] }
        requires fresh { self.end.list ≡ [] }
        ensures same { IfOk result (λ r. IsSameEnd self.end r.end) }
        ensures took { IfOk result (λ r. HasTook r.end r.taken.items) }
    {
        let Sink { mut end, mut taken } = self;
        take_each(&mut taken, &mut end, calls)?;
        Ok(Sink { end, taken })
    }
}

/// What came through.
#[derive(Drop)]
pub struct Delivered<A: Allocator> {
    /// How many items were stored.
    pub stored: usize,
    /// The items taken, in order.
    pub taken: Vec<u64, A>,
    /// Whether a take has returned Closed.
    pub told: bool,
}

/// Passes the items through a ring whose two ends each go to a thread. What was taken is a prefix of what was stored, and all of
/// it if a take has returned Closed.
pub fn deliver<R: Threads, A: Allocator + Copy + Send + Sync>(
    rt: &R,
    alloc: A,
    shape: Shape,
    items: &[u64],
    calls: u64,
) -> Result<Delivered<A>, RunFault>
    requires { AllFit shape items.now }
    ensures prefix { IfOk result (λ r. IsPrefix r.taken.items (take r.stored items.now)) }
    ensures all { IfOk result (λ r. r.told ≡ true → r.taken.items ≡ take r.stored items.now) }
{
    let (putter, taker) = hold(alloc, shape)?;
    let source = Source { end: putter, items };
    let sink = Sink {
        end: taker,
        taken: Vec::new(alloc),
    };
    let ((putter, stored), sink) = join(
        rt,
        || -> (HeldPutter<A>, usize)
            requires { (source.end.list ≡ []) × AllFit source.end.ring.shape source.items.now }
            ensures { IsSameEnd source.entry.end result.0 × HasStored result.0 (take result.1 source.entry.items.now) }
        { source.run(calls) },
        || -> Result<Sink<A>, RunFault>
            requires { (sink.taken.items ≡ []) × (sink.end.list ≡ []) }
            ensures { IfOk result (λ r. IsSameEnd sink.end r.end × HasTook r.end r.taken.items) }
        { sink.run(calls) },
    );
    let Sink { end, taken } = sink?;
    let told = finish(putter, end).told();
    Ok(Delivered {
        stored,
        taken,
        told,
    })
}
