//! How the two ends of a ring are made, meet, and end.
ghost use Rattle.std.specs.Prelude.{◌≡◌, false, None, []};
ghost use Rattle.bits_core.specs.declared.events.Side.TheVariants.{P, C};
ghost use Rattle.ring_core.specs.Linear.{EachReadingIsLinearizable};
ghost use Rattle.ring_seats.specs.Steppers.{StandsAs};
ghost use Rattle.ring_ends.specs.Meetings.{KeepsEnd, Meets, ClosesAre, TellsAre, closed_reply};
ghost use Rattle.ring_ends.specs.Stored.{HasStored, HasTook, TakesAreAll, TakesArePrefix};

use crate::putters::Putter;
use crate::rings::{FlickerRing, Pad, Start};
use crate::takers::Taker;
use atomic_table::Seat;
use bits_core::Oracle;
use ring_core::{Consumer, Producer, TakeReply};
use ring_seats::{View, first_steppers, join_steppers, meet_steppers};
use std::alloc::{Allocator, Global};
use std::marker::Model;

/// What remains of a ring's run, whose ends are gone. To a contract it is which ring it is of, one lawful history, whether it has
/// a close, and whether a take returned Closed.
///
/// In use: `uses::two_threads::pass_through`.
#[derive(Drop)]
pub struct Finished {
    pub(crate) seat: Seat<(), View>,
    pub(crate) closed: bool,
    pub(crate) told: bool,
}

impl Model for Finished {
    ghost use Rattle.ring_ends.specs.Meetings.{Ending};
    ghost use Rattle.ring_seats.specs.Meetings.{KnowsAll};

    ghost Value = { Ending };

    ghost view = { λ f. record {
      id = f.seat.table_id;
      history = f.seat.me.0.known;
      closed = f.closed;
      told = f.told;
    } };

    ghost invariant = { λ f. KnowsAll f.seat.me.0 };
}

impl Finished {
    /// Whether the putter's close was made.
    pub fn closed(&self) -> bool
        ensures { result ≡ self.now.closed }
    {
        self.closed
    }

    /// Whether a take returned Closed.
    pub fn told(&self) -> bool
        ensures { result ≡ self.now.told }
    {
        self.told
    }
}

impl<A: Allocator> FlickerRing<A> {
    /// The two ends of the ring: one puts, the other takes. They have made no call and know only the empty history.
    /// The start is the one that was made with this ring; it is spent, so a ring has one pair of ends. Each end has an
    /// oracle, which answers a read whose two loads do not agree. It takes no memory.
    pub fn ends<'a, O1: Oracle + Drop, O2: Oracle + Drop>(
        &'a self,
        start: Start,
        oracle_p: O1,
        oracle_c: O2,
    ) -> (Putter<'a, O1>, Taker<'a, O2>)
        requires { start ≡ self.now.id }
        ensures fresh { HasStored result.0.end [] × HasTook result.1.end [] }
        ensures putter { (result.0.end ≡ record { ring = self.now; side = P; list = []; known = []; loads = [] }) ×
            (result.0.call ≡ None) }
        ensures taker { (result.1.end ≡ record { ring = self.now; side = C; list = []; known = []; loads = [] }) ×
            (result.1.taking ≡ false) }
        ensures lawful { StandsAs P result.0.end × StandsAs C result.1.end }
        ensures oracles { (result.0.oracle ≡ oracle_p) × (result.1.oracle ≡ oracle_c) }
    {
        let shape = self.shape();
        let (p, c) = first_steppers(self.words(), start.seat);
        (
            Putter {
                before: Pad::new(),
                stepper: p,
                machine: Producer::new(shape),
                steps: 0,
                oracle: oracle_p,
                after: Pad::new(),
            },
            Taker {
                before: Pad::new(),
                stepper: c,
                machine: Consumer::new(shape),
                steps: 0,
                oracle: oracle_c,
                after: Pad::new(),
            },
        )
    }
}

// For one named allocator, so that `FlickerRing::meet` and `FlickerRing::finish` can be called without naming one: ends have none.
impl FlickerRing<Global> {
    /// Both ends learn one lawful history, whose sides are their two lists and which begins with what each knew. Its calls are
    /// linearizable. All later calls of both come after it. The ends are those of one ring, with no call under way; they come back with the
    /// same lists and the same oracles, which are not asked. It makes no access and takes no memory.
    pub fn meet<'a, O1: Oracle + Drop, O2: Oracle + Drop>(
        mut putter: Putter<'a, O1>,
        mut taker: Taker<'a, O2>,
    ) -> (Putter<'a, O1>, Taker<'a, O2>)
        requires ring { putter.end.ring ≡ taker.end.ring }
        requires idle { (putter.call ≡ None) × (taker.taking ≡ false) }
        ensures prefix { TakesArePrefix putter.entry.end taker.entry.end }
        ensures putter { KeepsEnd putter.entry.end result.0.end × (result.0.call ≡ None) }
        ensures taker { KeepsEnd taker.entry.end result.1.end × (result.1.taking ≡ false) }
        ensures one { result.1.end.known ≡ result.0.end.known }
        ensures meets { Meets putter.entry.end taker.entry.end result.0.end.known }
        ensures linearizable { EachReadingIsLinearizable putter.entry.end.ring.shape result.0.end.known }
        ensures lawful { StandsAs P result.0.end × StandsAs C result.1.end }
        ensures oracles { (result.0.oracle ≡ putter.entry.oracle) × (result.1.oracle ≡ taker.entry.oracle) }
    {
        let (p, c) = meet_steppers(putter.stepper, taker.stepper);
        putter.stepper = p;
        taker.stepper = c;
        (putter, taker)
    }

    /// Ends the ring's run, of which one lawful history remains, whose sides are the two lists and which begins with what each end knew;
    /// its calls are linearizable. The ends are those of one ring, with no call under way; they are consumed, and their oracles with them.
    /// The ring's words are unchanged, and its `close` returns them. It makes no access and takes no memory.
    pub fn finish<'a, O1: Oracle + Drop, O2: Oracle + Drop>(
        putter: Putter<'a, O1>,
        taker: Taker<'a, O2>,
    ) -> Finished
        requires ring { putter.end.ring ≡ taker.end.ring }
        requires idle { (putter.call ≡ None) × (taker.taking ≡ false) }
        ensures prefix { TakesArePrefix putter.entry.end taker.entry.end }
        ensures all { TakesAreAll putter.entry.end taker.entry.end result.told }
        ensures ring { result.id ≡ putter.entry.end.ring.id }
        ensures meets { Meets putter.entry.end taker.entry.end result.history }
        ensures linearizable { EachReadingIsLinearizable putter.entry.end.ring.shape result.history }
        ensures closed { ClosesAre putter.entry.end.ring.shape putter.entry.end.list result.closed }
        ensures told { TellsAre taker.entry.end.ring.shape taker.entry.end.list result.told }
    {
        let closed = putter.machine.is_closed();
        let told = is_closed_reply(taker.machine.reply());
        let seat = join_steppers(putter.stepper, taker.stepper);
        Finished { seat, closed, told }
    }
}

pub(crate) fn is_closed_reply(reply: Option<TakeReply>) -> bool
    ensures { result ≡ closed_reply reply }
{
    matches!(reply, Some(TakeReply::Closed))
}
