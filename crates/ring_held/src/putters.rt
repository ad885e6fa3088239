//! The end that puts, with its ring.
ghost use Rattle.std.specs.Prelude.{◌<◌, ◌^◌, [], take};
ghost use Rattle.bits_core.specs.Shape.{width_of};
ghost use Rattle.bits_core.specs.declared.events.Side.TheVariants.{P};
ghost use Rattle.ring_core.specs.Puts.{IsBatch};
ghost use Rattle.ring_seats.specs.Steppers.{IsSameEnd, StandsAs};
ghost use Rattle.ring_ends.specs.Ends.{HasClosed, HasPut, HasPutAll};
ghost use Rattle.ring_ends.specs.Meetings.{ClosesAre};
ghost use Rattle.ring_ends.specs.Stored.{StoresMore, item_stored, number_stored};

use crate::padding::Padding;
use bits_core::Shape;
use ring_core::{BatchReply, PutReply};
use ring_ends::{CounterRing, PutEnd, RestingPutter};
use std::alloc::Allocator;
use std::marker::Model;
use std::sync::Arc;

/// The producer's end of a counter ring, which owns the ring together with the other end. It may be a field of a struct, and go
/// to a thread of its own; the ring's memory is freed once both ends are gone. To a contract it is an end, as a
/// [`CounterPutter`](ring_ends::CounterPutter) is, and its calls are those of [`PutEnd`].
///
/// In use: `uses::held_ends::Source`.
#[derive(Drop)]
#[repr(C)]
pub struct HeldPutter<A: Allocator> {
    pub(crate) before: Padding,
    pub(crate) ring: Arc<CounterRing<A>, A>,
    // (`None` only while a call is under way)
    pub(crate) end: Option<RestingPutter>,
    pub(crate) after: Padding,
}

impl<A: Allocator> Model for HeldPutter<A> {
    ghost use Rattle.std.specs.Arc.{arc_value};
    ghost use Rattle.ring_seats.specs.Ring.{RingEnd};
    ghost use Rattle.bits_core.specs.declared.events.Side.TheVariants.{P};
    ghost use Rattle.ring_held.specs.Held.{held_end, IsHeldEnd};

    ghost Value = { RingEnd };

    ghost view = { λ h. held_end (arc_value h.ring) h.end };

    ghost invariant = { λ h. IsHeldEnd P (arc_value h.ring) h.end };
}

impl<A: Allocator> HeldPutter<A> {
    /// Whether it has closed the ring: whether a close is in its list of complete calls.
    pub fn is_closed(&self) -> bool
        ensures { ClosesAre self.now.ring.shape self.now.list result }
    {
        let Some(end) = &self.end else {
            unreachable!();
        };
        end.is_closed()
    }
}

impl<A: Allocator> PutEnd for HeldPutter<A> {
    ghost end = { λ h. h };

    ghost idle = { λ _. Unit {0} };

    ghost answered = { λ _ _. Unit {0} };

    fn shape(&self) -> Shape {
        self.ring.shape()
    }

    /// Like each put; in terms of a queue, the items stored are those before and then this one, if it was stored.
    fn put(&mut self, item: u64) -> PutReply
        requires fits { item < 2 ^ width_of self.old.ring.shape }
        ensures same { IsSameEnd self.old self.new }
        ensures lawful { StandsAs P self.new }
        ensures phrase { HasPut self.new.ring.shape item self.old.list self.new.list result }
        ensures stored { StoresMore self.old self.new (item_stored result item) }
    {
        let Some(end) = self.end.take() else {
            unreachable!();
        };
        let mut putter = end.at(&self.ring);
        let reply = putter.put(item);
        self.end = Some(putter.rest());
        reply
    }

    /// Like each put of several; the items stored are those before and then the first of these, as many as its reply says.
    fn put_all(&mut self, items: &[u64]) -> BatchReply
        requires batch { IsBatch self.old.ring.shape items.now }
        ensures same { IsSameEnd self.old self.new }
        ensures lawful { StandsAs P self.new }
        ensures phrase { HasPutAll self.new.ring.shape items.now self.old.list self.new.list result }
        ensures stored { StoresMore self.old self.new (take (number_stored result) items.now) }
    {
        let Some(end) = self.end.take() else {
            unreachable!();
        };
        let mut putter = end.at(&self.ring);
        let reply = putter.put_all(items);
        self.end = Some(putter.rest());
        reply
    }

    /// Like each close; the items stored are the same.
    fn close(&mut self)
        ensures same { IsSameEnd self.old self.new }
        ensures lawful { StandsAs P self.new }
        ensures phrase { HasClosed self.new.ring.shape self.old.list self.new.list }
        ensures stored { StoresMore self.old self.new [] }
    {
        let Some(end) = self.end.take() else {
            unreachable!();
        };
        let mut putter = end.at(&self.ring);
        putter.close();
        self.end = Some(putter.rest());
    }
}
