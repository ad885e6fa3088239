//! Two threads over the ends of a ring: what one took is a prefix of what the other stored, and the ring's words show how many these
//! were.
ghost use Rattle.std.specs.Prelude.{◌≡◌, ◌≤◌, ◌%◌, true, [], IfOk, length, take};
ghost use Rattle.bits_core.specs.Made.{IsPrefix};
ghost use Rattle.bits_core.specs.Shape.{AllFit, modulus_of};
ghost use Rattle.ring_run.specs.Steppers.{IsSameEnd};
ghost use Rattle.ring_run.specs.Stored.{HasStored, HasTook};

use crate::batches::put_batch;
use bits_core::Shape;
use ring_core::TakeReply;
use ring_run::laws::counts_are_shown;
use ring_run::{CounterRing, PutEnd, RunFault, TakeEnd};
use std::alloc::Allocator;
use std::thread::{Threads, join_mut};

/// Puts the items in order, as many at a time as the shape's batch has, again while the ring is full, with at most this
/// many puts, and closes the ring. Returns how many were stored.
pub fn put_each<E: PutEnd>(putter: &mut E, items: &[u64], calls: u64) -> usize
    requires idle { E.idle putter.old }
    requires fresh { (E.end putter.old).list ≡ [] }
    requires fit { AllFit (E.end putter.old).ring.shape items.now }
    ensures idle { E.idle putter.new }
    ensures same { IsSameEnd (E.end putter.old) (E.end putter.new) }
    ensures few { result ≤ length items.now }
    ensures stored { HasStored (E.end putter.new) (take result items.now) }
{
    let shape = putter.shape();
    let mut stored = 0;
    'puts: for _ in 0..calls {
        if stored == items.len() {
            break;
        }
        let next = stored + (items.len() - stored).min(shape.batch() as usize);
        stored += put_batch(putter, &items[stored..next]);
    }
    putter.close();
    stored
}

// One take, whose item is appended to the others. Returns whether the take returned Closed.
fn take_one<A: Allocator, E: TakeEnd>(
    taken: &mut Vec<u64, A>,
    taker: &mut E,
) -> Result<bool, RunFault>
    requires idle { E.idle taker.old }
    requires took { HasTook (E.end taker.old) taken.old.items }
    ensures idle { E.idle taker.new }
    ensures same { IsSameEnd (E.end taker.old) (E.end taker.new) }
    ensures took { IfOk result (λ _. HasTook (E.end taker.new) taken.new.items) }
{
    match taker.take() {
        TakeReply::Item(item) => {
            taken.push(item)?;
            Ok(false)
        }
        TakeReply::Empty => Ok(false),
        TakeReply::Closed => Ok(true),
    }
}

/// Takes until a take returns Closed, with at most this many takes, into a list with no item yet.
pub fn take_each<A: Allocator, E: TakeEnd>(
    taken: &mut Vec<u64, A>,
    taker: &mut E,
    calls: u64,
) -> Result<(), RunFault>
    requires none { taken.old.items ≡ [] }
    requires idle { E.idle taker.old }
    requires fresh { (E.end taker.old).list ≡ [] }
    ensures idle { E.idle taker.new }
    ensures same { IsSameEnd (E.end taker.old) (E.end taker.new) }
    ensures took { IfOk result (λ _. HasTook (E.end taker.new) taken.new.items) }
{
    'takes: for _ in 0..calls {
        if take_one(taken, taker)? {
            break;
        }
    }
    Ok(())
}

// The work of both ends, at the same time.
fn work_both<R: Threads, A: Allocator, E: PutEnd + Send, F: TakeEnd + Send>(
    rt: &R,
    taken: &mut Vec<u64, A>,
    putter: &mut E,
    taker: &mut F,
    items: &[u64],
    calls: u64,
) -> (usize, Result<(), RunFault>)
    requires none { taken.old.items ≡ [] }
    requires idle { E.idle putter.old × F.idle taker.old }
    requires fresh { ((E.end putter.old).list ≡ []) × ((F.end taker.old).list ≡ []) }
    requires fit { AllFit (E.end putter.old).ring.shape items.now }
    ensures idle { E.idle putter.new × F.idle taker.new }
    ensures same { IsSameEnd (E.end putter.old) (E.end putter.new) × IsSameEnd (F.end taker.old) (F.end taker.new) }
    ensures few { result.0 ≤ length items.now }
    ensures stored { HasStored (E.end putter.new) (take result.0 items.now) }
    ensures took { IfOk result.1 (λ _. HasTook (F.end taker.new) taken.new.items) }
{
    join_mut(
        rt,
        &mut || -> usize
            requires { E.idle putter.now × ((E.end putter.now).list ≡ []) ×
                AllFit (E.end putter.now).ring.shape items.now }
            ensures { E.idle putter.exit.now × IsSameEnd (E.end putter.entry.now) (E.end putter.exit.now) ×
                (result ≤ length items.entry.now) × HasStored (E.end putter.exit.now) (take result items.entry.now) }
        { put_each(putter, items, calls) },
        &mut || -> Result<(), RunFault>
            requires { (taken.now.items ≡ []) × F.idle taker.now × ((F.end taker.now).list ≡ []) }
            ensures { F.idle taker.exit.now × IsSameEnd (F.end taker.entry.now) (F.end taker.exit.now) ×
                IfOk result (λ _. HasTook (F.end taker.exit.now) taken.exit.now.items) }
        { take_each(taken, taker, calls) },
    )
}

/// What came through a ring.
#[derive(Drop)]
pub struct Passed<A: Allocator> {
    /// How many items were stored.
    pub stored: usize,
    /// The items taken, in order.
    pub taken: Vec<u64, A>,
    /// Whether a take returned Closed.
    pub told: bool,
    /// What the words of the two counts hold at the end, the producer's and the consumer's.
    pub counts: (u64, u64),
}

/// A ring between two threads: what was taken is a prefix of what was stored, and all of it once a take has returned Closed. The
/// ring is closed after them, and its words are read: the count of each side is the number of items it stored, or took, modulo
/// the modulus.
pub fn pass_through<R: Threads, A: Allocator + Copy>(
    rt: &R,
    alloc: A,
    shape: Shape,
    items: &[u64],
    calls: u64,
) -> Result<Passed<A>, RunFault>
    requires { AllFit shape items.now }
    ensures prefix { IfOk result (λ r. IsPrefix r.taken.items (take r.stored items.now)) }
    ensures all { IfOk result (λ r. r.told ≡ true → r.taken.items ≡ take r.stored items.now) }
    ensures counts { IfOk result (λ r. (r.counts.0 ≡ r.stored % modulus_of shape) ×
        (r.counts.1 ≡ length r.taken.items % modulus_of shape)) }
{
    // a law that the proof needs
    counts_are_shown();
    let (ring, start) = CounterRing::new(alloc, shape)?;
    let (mut putter, mut taker) = ring.ends(start);
    let mut taken = Vec::new(alloc);
    let (stored, takes) = work_both(rt, &mut taken, &mut putter, &mut taker, items, calls);
    takes?;
    let finished = CounterRing::finish(putter, taker);
    let told = finished.told();
    let words = ring.close(finished);
    let counts = (words.word(1), words.word(2));
    Ok(Passed {
        stored,
        taken,
        told,
        counts,
    })
}
