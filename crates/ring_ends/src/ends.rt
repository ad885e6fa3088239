//! The two ends of a ring, as a relay and other callers use them.

use crate::meetings::Finished;
use crate::putters::Putter;
use crate::rings::FlickerRing;
use crate::takers::Taker;
use bits_core::{Oracle, Shape};
use ring_core::{BatchReply, PutReply, TakeBatchReply, TakeReply};
use std::alloc::{Allocator, Global};

/// An end that puts. To a queue's user it has stored some items, and each call says which it stores. Its meaning is the list of
/// its events: each call adds exactly its own accesses, and returns their result.
///
/// In use: `uses::batches::put_batch`.
pub trait PutEnd {
    ghost use Rattle.std.specs.Prelude.{◌≡◌, ◌^◌, ◌<◌, [], take};
    ghost use Rattle.bits_core.specs.Shape.{width_of};
    ghost use Rattle.ring_seats.specs.Ring.{RingEnd};
    ghost use Rattle.ring_seats.specs.Steppers.{IsSameEnd, StandsAs};
    ghost use Rattle.bits_core.specs.declared.events.Side.TheVariants.{P};
    ghost use Rattle.ring_core.specs.Puts.{IsBatch};
    ghost use Rattle.ring_ends.specs.Ends.{HasPut, HasPutAll, HasClosed};
    ghost use Rattle.ring_ends.specs.Stored.{StoresMore, item_stored, number_stored};

    ghost end: { Self → RingEnd };

    /// No call is under way.
    ghost idle: { Self → Type 0 };

    /// Between the first and the second each read was answered as the end's reads are.
    ghost answered: { Self → Self → Type 0 };

    /// The shape of the ring. The end's list is always one side of a lawful history whose two sides follow their
    /// programs, and which begins with what the end knows.
    fn shape(&self) -> Shape
        ensures shape { result ≡ (end self.now).ring.shape }
        ensures lawful { StandsAs P (end self.now) };

    /// Puts the item: `Stored` if there was room for it, `Full` if a scan of the consumer's count left none; then
    /// nothing is stored. After a close it returns `Closed`, with no access. The item has to fit the width.
    fn put(&mut self, item: u64) -> PutReply
        requires idle { idle self.old }
        requires fits { item < 2 ^ width_of (end self.old).ring.shape }
        ensures stored { StoresMore (end self.old) (end self.new) (item_stored result item) }
        ensures idle { idle self.new }
        ensures same { IsSameEnd (end self.old) (end self.new) }
        ensures lawful { StandsAs P (end self.new) }
        ensures phrase { HasPut (end self.new).ring.shape item (end self.old).list (end self.new).list result }
        ensures answered { answered self.old self.new };

    /// Puts the items under one count write, starting with the first, as many as there is room for: `Stored` with that
    /// number, `Full` if there is room for none. After a close it returns `Closed`, with no access. There are 1 to as
    /// many items as the shape's batch, and each has to fit the width.
    fn put_all(&mut self, items: &[u64]) -> BatchReply
        requires idle { idle self.old }
        requires batch { IsBatch (end self.old).ring.shape items.now }
        ensures stored { StoresMore (end self.old) (end self.new) (take (number_stored result) items.now) }
        ensures idle { idle self.new }
        ensures same { IsSameEnd (end self.old) (end self.new) }
        ensures lawful { StandsAs P (end self.new) }
        ensures phrase { HasPutAll (end self.new).ring.shape items.now (end self.old).list (end self.new).list result }
        ensures answered { answered self.old self.new };

    /// Closes the ring: one write of the close bit. A second close makes no access.
    fn close(&mut self)
        requires idle { idle self.old }
        ensures stored { StoresMore (end self.old) (end self.new) [] }
        ensures idle { idle self.new }
        ensures same { IsSameEnd (end self.old) (end self.new) }
        ensures lawful { StandsAs P (end self.new) }
        ensures phrase { HasClosed (end self.new).ring.shape (end self.old).list (end self.new).list }
        ensures answered { answered self.old self.new };
}

/// An end that takes. To a queue's user it has taken some items, and each call says which it takes. Its meaning is the list of
/// its events, as for an end that puts.
///
/// In use: `uses::two_threads::take_each`, and `uses::batches::take_batch` for takes of several.
pub trait TakeEnd {
    ghost use Rattle.std.specs.Prelude.{◌≡◌, ◌≤◌, length, take, drop};
    ghost use Rattle.bits_core.specs.Shape.{take_batch_of};
    ghost use Rattle.ring_seats.specs.Ring.{RingEnd};
    ghost use Rattle.ring_seats.specs.Steppers.{IsSameEnd, StandsAs};
    ghost use Rattle.bits_core.specs.declared.events.Side.TheVariants.{C};
    ghost use Rattle.ring_core.specs.ConsumerCalls.{reply_items};
    ghost use Rattle.ring_ends.specs.Ends.{HasTaken, HasTakenAll, number_brought};
    ghost use Rattle.ring_ends.specs.Stored.{TakesMore};

    ghost end: { Self → RingEnd };

    /// No take is under way.
    ghost idle: { Self → Type 0 };

    /// Between the first and the second each read was answered as the end's reads are.
    ghost answered: { Self → Self → Type 0 };

    /// The shape of the ring. The end's list is always one side of a lawful history whose two sides follow their
    /// programs, and which begins with what the end knows.
    fn shape(&self) -> Shape
        ensures shape { result ≡ (end self.now).ring.shape }
        ensures lawful { StandsAs C (end self.now) };

    /// Takes the next item: `Item`; `Empty` if a scan of the producer's count shows none and the close bit is 0;
    /// `Closed` if the close bit is 1 and a second scan shows none either. Once a take has returned `Closed` each
    /// later one does so, with no access.
    fn take(&mut self) -> TakeReply
        requires idle { idle self.old }
        ensures taken { TakesMore (end self.old) (end self.new) (reply_items result) }
        ensures idle { idle self.new }
        ensures same { IsSameEnd (end self.old) (end self.new) }
        ensures lawful { StandsAs C (end self.new) }
        ensures phrase { HasTaken (end self.new).ring.shape (end self.old).list (end self.new).list result }
        ensures answered { answered self.old self.new };

    /// Takes the next items under one count write: those that a scan of the producer's count shows, starting with the
    /// first, at most as many as there are places. `Taken` with their number, and they are in the first places, in order;
    /// `Empty` and `Closed` as for [`take`](Self::take), with no item. The other places are unchanged. There are 1 to as
    /// many places as the shape's take batch.
    fn take_all(&mut self, into: &mut [u64]) -> TakeBatchReply
        requires idle { idle self.old }
        requires some { 1 ≤ length into.old }
        requires few { length into.old ≤ take_batch_of (end self.old).ring.shape }
        ensures taken { TakesMore (end self.old) (end self.new) (take (number_brought result) into.new) }
        ensures idle { idle self.new }
        ensures same { IsSameEnd (end self.old) (end self.new) }
        ensures lawful { StandsAs C (end self.new) }
        ensures phrase { HasTakenAll (end self.new).ring.shape (length into.old) (end self.old).list (end self.new).list
            result into.new }
        ensures within { number_brought result ≤ length into.old }
        ensures long { length into.new ≡ length into.old }
        ensures others { drop (number_brought result) into.new ≡ drop (number_brought result) into.old }
        ensures answered { answered self.old self.new };
}

/// A kind of ring, by the type of its end that puts and of the one that takes: what both ends do together, with the
/// same contracts for each kind.
///
/// In use: [`relay_flicker`](crate::relay_flicker) and [`relay_counter`](crate::relay_counter), which are one relay
/// over it.
pub trait RingOf<E: PutEnd, F: TakeEnd> {
    ghost use Rattle.std.specs.Prelude.{◌≡◌};
    ghost use Rattle.bits_core.specs.declared.events.Side.TheVariants.{P, C};
    ghost use Rattle.ring_core.specs.Linear.{EachReadingIsLinearizable};
    ghost use Rattle.ring_seats.specs.Steppers.{StandsAs};
    ghost use Rattle.ring_ends.specs.Meetings.{KeepsEnd, Meets, ClosesAre, TellsAre};
    ghost use Rattle.ring_ends.specs.Stored.{TakesAreAll, TakesArePrefix};

    /// The items taken so far are a prefix of the items stored. Both ends learn one lawful history, whose sides are their two lists
    /// and which begins with what each knew. Its calls are linearizable. All later calls of both come after it. The ends are those of
    /// one ring, with no call under way; they come back with the same lists. It makes no access and takes no memory.
    fn meet(putter: E, taker: F) -> (E, F)
        requires ring { (E.end putter).ring ≡ (F.end taker).ring }
        requires idle { E.idle putter × F.idle taker }
        ensures prefix { TakesArePrefix (E.end putter) (F.end taker) }
        ensures putter { KeepsEnd (E.end putter) (E.end result.0) × E.idle result.0 }
        ensures taker { KeepsEnd (F.end taker) (F.end result.1) × F.idle result.1 }
        ensures one { (F.end result.1).known ≡ (E.end result.0).known }
        ensures meets { Meets (E.end putter) (F.end taker) (E.end result.0).known }
        ensures linearizable { EachReadingIsLinearizable (E.end putter).ring.shape (E.end result.0).known }
        ensures lawful { StandsAs P (E.end result.0) × StandsAs C (F.end result.1) };

    /// Ends the ring's run. The items taken are a prefix of the items stored, and all of them if a take has returned Closed. One
    /// lawful history remains, whose sides are the two lists and which begins with what each end knew; its calls are linearizable. The
    /// ends are those of one ring, with no call under way; they are consumed. What remains is of that ring. It makes no access and
    /// takes no memory.
    fn finish(putter: E, taker: F) -> Finished
        requires ring { (E.end putter).ring ≡ (F.end taker).ring }
        requires idle { E.idle putter × F.idle taker }
        ensures prefix { TakesArePrefix (E.end putter) (F.end taker) }
        ensures all { TakesAreAll (E.end putter) (F.end taker) result.told }
        ensures ring { result.id ≡ (E.end putter).ring.id }
        ensures meets { Meets (E.end putter) (F.end taker) result.history }
        ensures linearizable { EachReadingIsLinearizable (E.end putter).ring.shape result.history }
        ensures closed { ClosesAre (E.end putter).ring.shape (E.end putter).list result.closed }
        ensures told { TellsAre (F.end taker).ring.shape (F.end taker).list result.told };
}

impl<'a, A: Allocator, O1: Oracle + Drop, O2: Oracle + Drop> RingOf<Putter<'a, O1>, Taker<'a, O2>>
    for FlickerRing<A> {
    fn meet(putter: Putter<'a, O1>, taker: Taker<'a, O2>) -> (Putter<'a, O1>, Taker<'a, O2>) {
        FlickerRing::<Global>::meet(putter, taker)
    }

    fn finish(putter: Putter<'a, O1>, taker: Taker<'a, O2>) -> Finished {
        FlickerRing::<Global>::finish(putter, taker)
    }
}
