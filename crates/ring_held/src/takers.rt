//! The end that takes, with its ring.
ghost use Rattle.std.specs.Prelude.{◌≡◌, ◌≤◌, drop, length, take};
ghost use Rattle.bits_core.specs.Shape.{take_batch_of};
ghost use Rattle.bits_core.specs.declared.events.Side.TheVariants.{C};
ghost use Rattle.ring_core.specs.ConsumerCalls.{reply_items};
ghost use Rattle.ring_seats.specs.Steppers.{IsSameEnd, StandsAs};
ghost use Rattle.ring_ends.specs.Ends.{HasTaken, HasTakenAll, number_brought};
ghost use Rattle.ring_ends.specs.Meetings.{TellsAre};
ghost use Rattle.ring_ends.specs.Stored.{TakesMore};

use crate::padding::Padding;
use bits_core::Shape;
use ring_core::{TakeBatchReply, TakeReply};
use ring_ends::{CounterRing, RestingTaker, TakeEnd};
use std::alloc::Allocator;
use std::marker::Model;
use std::sync::Arc;

/// The consumer's end of a counter ring, which owns the ring together with the other end, as a
/// [`HeldPutter`](crate::HeldPutter) does. Its calls are those of [`TakeEnd`].
///
/// In use: `uses::held_ends::Sink`.
#[derive(Drop)]
#[repr(C)]
pub struct HeldTaker<A: Allocator> {
    pub(crate) before: Padding,
    pub(crate) ring: Arc<CounterRing<A>, A>,
    // (`None` only while a call is under way)
    pub(crate) end: Option<RestingTaker>,
    pub(crate) after: Padding,
}

impl<A: Allocator> Model for HeldTaker<A> {
    ghost use Rattle.std.specs.Arc.{arc_value};
    ghost use Rattle.ring_seats.specs.Ring.{RingEnd};
    ghost use Rattle.bits_core.specs.Shape.{take_batch_of};
    ghost use Rattle.bits_core.specs.declared.events.Side.TheVariants.{C};
    ghost use Rattle.ring_held.specs.Held.{held_end, IsHeldEnd};

    ghost Value = { RingEnd };

    ghost view = { λ h. held_end (arc_value h.ring) h.end };

    ghost invariant = { λ h. IsHeldEnd C (arc_value h.ring) h.end };
}

impl<A: Allocator> HeldTaker<A> {
    /// Whether a take has returned Closed: whether the last of its list of complete takes did.
    pub fn is_told(&self) -> bool
        ensures { TellsAre self.now.ring.shape self.now.list result }
    {
        let Some(end) = &self.end else {
            unreachable!();
        };
        end.is_told()
    }
}

impl<A: Allocator> TakeEnd for HeldTaker<A> {
    ghost end = { λ h. h };

    ghost idle = { λ _. Unit {0} };

    ghost answered = { λ _ _. Unit {0} };

    fn shape(&self) -> Shape {
        self.ring.shape()
    }

    /// Like each take; in terms of a queue, the items taken are those before and then the one that it returns, if it returns one.
    fn take(&mut self) -> TakeReply
        ensures same { IsSameEnd self.old self.new }
        ensures lawful { StandsAs C self.new }
        ensures phrase { HasTaken self.new.ring.shape self.old.list self.new.list result }
        ensures taken { TakesMore self.old self.new (reply_items result) }
    {
        let Some(end) = self.end.take() else {
            unreachable!();
        };
        let mut taker = end.at(&self.ring);
        let reply = taker.take();
        self.end = Some(taker.rest());
        reply
    }

    /// Like each take of several; the items taken are those before and then those in the first places, as many as its reply says.
    fn take_all(&mut self, into: &mut [u64]) -> TakeBatchReply
        requires some { 1 ≤ length into.old }
        requires few { length into.old ≤ take_batch_of self.old.ring.shape }
        ensures same { IsSameEnd self.old self.new }
        ensures lawful { StandsAs C self.new }
        ensures phrase { HasTakenAll self.new.ring.shape (length into.old) self.old.list self.new.list result into.new }
        ensures within { number_brought result ≤ length into.old }
        ensures long { length into.new ≡ length into.old }
        ensures others { drop (number_brought result) into.new ≡ drop (number_brought result) into.old }
        ensures taken { TakesMore self.old self.new (take (number_brought result) into.new) }
    {
        let Some(end) = self.end.take() else {
            unreachable!();
        };
        let mut taker = end.at(&self.ring);
        let reply = taker.take_all(into);
        self.end = Some(taker.rest());
        reply
    }
}
