//! How a held ring is made, and how its two ends meet and end.
ghost use Rattle.std.specs.Prelude.{◌≡◌, IfOk};
ghost use Rattle.bits_core.specs.declared.events.Side.TheVariants.{P, C};
ghost use Rattle.ring_core.specs.Linear.{EachReadingIsLinearizable};
ghost use Rattle.ring_seats.specs.Steppers.{StandsAs};
ghost use Rattle.ring_ends.specs.Meetings.{ClosesAre, KeepsEnd, Meets, TellsAre};
ghost use Rattle.ring_ends.specs.Stored.{TakesAreAll, TakesArePrefix};
ghost use Rattle.ring_held.specs.Held.{FreshEnds};

use crate::padding::Padding;
use crate::putters::HeldPutter;
use crate::takers::HeldTaker;
use bits_core::Shape;
use ring_ends::{CounterRing, Finished, RunFault};
use std::alloc::Allocator;
use std::sync::Arc;

/// A new counter ring of this shape, in the form of its two ends: one puts, the other takes. It takes memory for the
/// ring's words and once for the ring itself. `OutOfMemory` is returned if the allocator refused either, and then all of it is freed.
///
/// In use: `uses::held_ends::deliver`.
#[tactic(auto, using(ring_ends::proofs::StoredItems::none_stored, ring_ends::proofs::StoredItems::none_took))]
pub fn hold<A: Allocator + Copy>(
    alloc: A,
    shape: Shape,
) -> Result<(HeldPutter<A>, HeldTaker<A>), RunFault>
    ensures { IfOk result (λ r. FreshEnds shape r.0 r.1) }
{
    let (ring, start) = CounterRing::new(alloc, shape)?;
    let (putter, taker) = ring.ends(start);
    let putter = putter.rest();
    let taker = taker.rest();
    let ring = Arc::new(alloc, ring)?;
    let theirs = Arc::try_clone(&ring)?;
    Ok((
        HeldPutter {
            before: Padding::new(),
            ring,
            end: Some(putter),
            after: Padding::new(),
        },
        HeldTaker {
            before: Padding::new(),
            ring: theirs,
            end: Some(taker),
            after: Padding::new(),
        },
    ))
}

/// Both ends learn one lawful history, whose sides are their two lists and which begins with what each knew. Its calls are
/// linearizable. The ends are those of one ring; they come back with the same lists. It makes no access and takes no memory.
///
/// For example, two threads that have stopped for a moment bring their ends together, and go on with what `meet` returns.
pub fn meet<A: Allocator>(
    putter: HeldPutter<A>,
    taker: HeldTaker<A>,
) -> (HeldPutter<A>, HeldTaker<A>)
    requires ring { putter.ring ≡ taker.ring }
    ensures prefix { TakesArePrefix putter taker }
    ensures putter { KeepsEnd putter result.0 }
    ensures taker { KeepsEnd taker result.1 }
    ensures one { result.1.known ≡ result.0.known }
    ensures meets { Meets putter taker result.0.known }
    ensures linearizable { EachReadingIsLinearizable putter.ring.shape result.0.known }
    ensures lawful { StandsAs P result.0 × StandsAs C result.1 }
{
    let HeldPutter { ring, end: p, .. } = putter;
    let HeldTaker {
        ring: theirs,
        end: c,
        ..
    } = taker;
    let (Some(p), Some(c)) = (p, c) else {
        unreachable!();
    };
    let (p, c) = CounterRing::meet(p.at(&ring), c.at(&theirs));
    let (p, c) = (p.rest(), c.rest());
    (
        HeldPutter {
            before: Padding::new(),
            ring,
            end: Some(p),
            after: Padding::new(),
        },
        HeldTaker {
            before: Padding::new(),
            ring: theirs,
            end: Some(c),
            after: Padding::new(),
        },
    )
}

/// Ends the ring's run, of which one lawful history remains, whose sides are the two lists and which begins with what each end
/// knew; its calls are linearizable. The items taken are a prefix of the items stored, and all of them if a take has returned
/// Closed. The ends are those of one ring; they are consumed, and the ring with them. It makes no access and takes no memory.
///
/// In use: `uses::held_ends::deliver`.
pub fn finish<A: Allocator>(putter: HeldPutter<A>, taker: HeldTaker<A>) -> Finished
    requires ring { putter.ring ≡ taker.ring }
    ensures ring { result.id ≡ putter.ring.id }
    ensures meets { Meets putter taker result.history }
    ensures linearizable { EachReadingIsLinearizable putter.ring.shape result.history }
    ensures closed { ClosesAre putter.ring.shape putter.list result.closed }
    ensures told { TellsAre taker.ring.shape taker.list result.told }
    ensures prefix { TakesArePrefix putter taker }
    ensures all { TakesAreAll putter taker result.told }
{
    let HeldPutter { ring, end: p, .. } = putter;
    let HeldTaker { end: c, .. } = taker;
    let (Some(p), Some(c)) = (p, c) else {
        unreachable!();
    };
    CounterRing::finish(p.at(&ring), c.at(&ring))
}
