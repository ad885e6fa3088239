//! The counter ring: how it is made, and how its two ends are made, meet and end.
ghost use Rattle.std.specs.Prelude.{◌≡◌, ◌<◌, [], IfOk};
ghost use Rattle.ring_seats.specs.Rule.{IsWordFound};
ghost use Rattle.ring_seats.specs.Counters.{KeptWords, words_of};
ghost use Rattle.bits_core.specs.declared.events.Side.TheVariants.{P, C};
ghost use Rattle.ring_core.specs.Linear.{EachReadingIsLinearizable};
ghost use Rattle.ring_seats.specs.Steppers.{StandsAs};
ghost use Rattle.ring_ends.specs.Meetings.{KeepsEnd, Meets, ClosesAre, TellsAre};
ghost use Rattle.ring_ends.specs.Stored.{HasStored, HasTook, TakesAreAll, TakesArePrefix};

use crate::counter_calls::Counted;
use crate::counter_putters::CounterPutter;
use crate::counter_takers::CounterTaker;
use crate::ends::RingOf;
use crate::meetings::Finished;
use crate::rings::{Pad, RingIn, RunFault, StartIn};
use bits_core::Shape;
use ring_seats::{Counting, counter_table, first_steppers, join_steppers, meet_steppers};
use std::alloc::{Allocator, Global};

/// The ring with one producer and one consumer on a machine with atomic words, shared by two threads with no lock
/// (Lamport 1977).
///
/// Each count, each cell and the close bit has an atomic word of its own. A put is one load, a store of each item's
/// cell and one store; a take one load, one of the cell and one store. Each load or store represents a complete scan,
/// a complete access of a cell, a complete unary write or the close, bit by bit with nothing in between. So each call
/// adds exactly its accesses to one lawful history of safe bits, as on a [`FlickerRing`](crate::FlickerRing), and the
/// ends of the two rings are indistinguishable to their callers. No call goes through the bits: they are in the
/// contracts alone.
///
/// In use: `uses::two_threads::pass_through`.
pub type CounterRing<A> = RingIn<Counting, A>;

/// The right to make the two ends of one counter ring.
///
/// In use: `uses::two_threads::pass_through`.
pub type CounterStart = StartIn<Counting>;

/// A counter ring whose run is over: what remains of it is what remains of a flickering ring.
///
/// In use: `uses::two_threads::pass_through`.
pub type CounterFinished = Finished;

impl<A: Allocator + Copy> CounterRing<A> {
    /// A ring of this shape with nothing put, and the right to make its ends. It takes memory for one word for each
    /// cell and three more. `OutOfMemory` is returned only if the allocator refused that.
    pub fn new(alloc: A, shape: Shape) -> Result<(CounterRing<A>, CounterStart), RunFault>
        ensures { IfOk result (λ r. (r.0.shape ≡ shape) × (r.1 ≡ r.0.id)) }
    {
        let (table, seat) = counter_table(alloc, shape)?;
        Ok((RingIn::of(table, shape), StartIn::of(seat)))
    }
}

impl<A: Allocator> CounterRing<A> {
    /// Loads a word: number 0 is that of the close bit, 1 the producer's counter, 2 the consumer's, and 3 + j that of cell j. Any thread
    /// may do so at any time, whatever the two ends are doing, and it is not an event of either. A convenience for observers: the word is
    /// that of some state that satisfies the ring's rule ([`CounterRule`](ring_seats::CounterRule)). The place is below the capacity + 3.
    pub fn observe(&self, place: usize) -> u64
        requires { place < words_of self.now.shape }
        ensures { IsWordFound (KeptWords self.now.shape) place result }
    {
        self.words().find_word(place)
    }

    /// The two ends of the ring: one puts, the other takes. They have made no call and know only the empty history.
    /// The start is the one that was made with this ring; it is spent, so a ring has one pair of ends. It takes no
    /// memory.
    pub fn ends<'a>(&'a self, start: CounterStart) -> (CounterPutter<'a>, CounterTaker<'a>)
        requires { start ≡ self.now.id }
        ensures fresh { HasStored result.0 [] × HasTook result.1 [] }
        ensures putter { result.0 ≡ record { ring = self.now; side = P; list = []; known = []; loads = [] } }
        ensures taker { result.1 ≡ record { ring = self.now; side = C; list = []; known = []; loads = [] } }
        ensures lawful { StandsAs P result.0 × StandsAs C result.1 }
    {
        let (p, c) = first_steppers(self.words(), start.seat);
        (
            CounterPutter {
                before: Pad::new(),
                stepper: p,
                counted: Counted { count: 0, cell: 0 },
                closed: false,
                after: Pad::new(),
            },
            CounterTaker {
                before: Pad::new(),
                stepper: c,
                counted: Counted { count: 0, cell: 0 },
                told: false,
                after: Pad::new(),
            },
        )
    }
}

// With an allocator's name, so that `CounterRing::meet` and `CounterRing::finish` can be called without one: ends have none.
impl CounterRing<Global> {
    /// Both ends learn one lawful history, whose sides are their two lists and which begins with what each knew. Its calls are
    /// linearizable. All later calls of both come after it. The ends are those of one ring; they come back with the same lists. It makes
    /// no access and takes no memory.
    pub fn meet<'a>(
        mut putter: CounterPutter<'a>,
        mut taker: CounterTaker<'a>,
    ) -> (CounterPutter<'a>, CounterTaker<'a>)
        requires ring { putter.ring ≡ taker.ring }
        ensures prefix { TakesArePrefix putter.entry taker.entry }
        ensures putter { KeepsEnd putter.entry result.0 }
        ensures taker { KeepsEnd taker.entry result.1 }
        ensures one { result.1.known ≡ result.0.known }
        ensures meets { Meets putter.entry taker.entry result.0.known }
        ensures linearizable { EachReadingIsLinearizable putter.entry.ring.shape result.0.known }
        ensures lawful { StandsAs P result.0 × StandsAs C result.1 }
    {
        let (p, c) = meet_steppers(putter.stepper, taker.stepper);
        putter.stepper = p;
        taker.stepper = c;
        (putter, taker)
    }

    /// Ends the ring's run, of which one lawful history remains, whose sides are the two lists and which begins with what each end
    /// knew; its calls are linearizable. The ends are those of one ring; they are consumed. The ring's words are unchanged, and its
    /// `close` returns them. It makes no access and takes no memory.
    pub fn finish<'a>(putter: CounterPutter<'a>, taker: CounterTaker<'a>) -> CounterFinished
        requires ring { putter.ring ≡ taker.ring }
        ensures prefix { TakesArePrefix putter.entry taker.entry }
        ensures all { TakesAreAll putter.entry taker.entry result.told }
        ensures ring { result.id ≡ putter.entry.ring.id }
        ensures meets { Meets putter.entry taker.entry result.history }
        ensures linearizable { EachReadingIsLinearizable putter.entry.ring.shape result.history }
        ensures closed { ClosesAre putter.entry.ring.shape putter.entry.list result.closed }
        ensures told { TellsAre taker.entry.ring.shape taker.entry.list result.told }
    {
        let seat = join_steppers(putter.stepper, taker.stepper);
        Finished {
            seat,
            closed: putter.closed,
            told: taker.told,
        }
    }
}

impl<'a, A: Allocator> RingOf<CounterPutter<'a>, CounterTaker<'a>> for CounterRing<A> {
    fn meet(
        putter: CounterPutter<'a>,
        taker: CounterTaker<'a>,
    ) -> (CounterPutter<'a>, CounterTaker<'a>) {
        CounterRing::<Global>::meet(putter, taker)
    }

    fn finish(putter: CounterPutter<'a>, taker: CounterTaker<'a>) -> Finished {
        CounterRing::<Global>::finish(putter, taker)
    }
}
