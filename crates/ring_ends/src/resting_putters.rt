//! The producer's end of a counter ring detached from its ring.
ghost use Rattle.std.specs.Prelude.{◌≡◌};
ghost use Rattle.ring_ends.specs.Meetings.{ClosesAre};

use crate::counter_calls::Counted;
use crate::counter_putters::CounterPutter;
use crate::counter_rings::CounterRing;
use crate::rings::Pad;
use ring_seats::{Counting, RestingStepper};
use std::alloc::Allocator;
use std::marker::Model;

/// A [`CounterPutter`] detached from its ring. It borrows nothing, so an owner of the ring can keep both between calls. To
/// a contract it is the same end.
///
/// For example, a `ring_held::HeldPutter` keeps one with its ring.
#[derive(Drop)]
pub struct RestingPutter {
    stepper: RestingStepper<Counting>,
    counted: Counted,
    closed: bool,
}

impl Model for RestingPutter {
    ghost use Rattle.ring_seats.specs.Ring.{RingEnd};
    ghost use Rattle.ring_ends.specs.CounterEnds.{IsPutterList};

    ghost Value = { RingEnd };

    ghost view = { λ p. p.stepper };

    ghost invariant = { λ p. IsPutterList p.stepper p.counted.count p.counted.cell p.closed };
}

impl<'a> CounterPutter<'a> {
    /// The end without its ring. It makes no access.
    pub fn rest(self) -> RestingPutter
        ensures { result ≡ self.entry }
    {
        let CounterPutter {
            stepper,
            counted,
            closed,
            ..
        } = self;
        RestingPutter {
            stepper: stepper.rest(),
            counted,
            closed,
        }
    }
}

impl RestingPutter {
    /// The end at its ring, which must be this one. It makes no access.
    pub fn at<'a, A: Allocator>(self, ring: &'a CounterRing<A>) -> CounterPutter<'a>
        requires { self.ring ≡ ring.now }
        ensures { result ≡ self }
    {
        CounterPutter {
            before: Pad::new(),
            stepper: self.stepper.at(ring.words()),
            counted: self.counted,
            closed: self.closed,
            after: Pad::new(),
        }
    }

    /// Whether it has closed the ring: whether its list of complete calls has a close.
    pub fn is_closed(&self) -> bool
        ensures { ClosesAre self.now.ring.shape self.now.list result }
    {
        self.closed
    }
}
