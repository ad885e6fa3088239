//! The consumer's end of a counter ring detached from its ring.
ghost use Rattle.std.specs.Prelude.{◌≡◌};
ghost use Rattle.ring_ends.specs.Meetings.{TellsAre};

use crate::counter_calls::Counted;
use crate::counter_rings::CounterRing;
use crate::counter_takers::CounterTaker;
use crate::rings::Pad;
use ring_seats::{Counting, RestingStepper};
use std::alloc::Allocator;
use std::marker::Model;

/// A [`CounterTaker`] detached from its ring, as a [`RestingPutter`](crate::RestingPutter) is a
/// [`CounterPutter`](crate::CounterPutter).
///
/// For example, a `ring_held::HeldTaker` keeps one with its ring.
#[derive(Drop)]
pub struct RestingTaker {
    stepper: RestingStepper<Counting>,
    counted: Counted,
    told: bool,
}

impl Model for RestingTaker {
    ghost use Rattle.ring_seats.specs.Ring.{RingEnd};
    ghost use Rattle.ring_ends.specs.CounterEnds.{IsTakerList};

    ghost Value = { RingEnd };

    ghost view = { λ t. t.stepper };

    ghost invariant = { λ t. IsTakerList t.stepper t.counted.count t.counted.cell t.told };
}

impl<'a> CounterTaker<'a> {
    /// The end without its ring. It makes no access.
    pub fn rest(self) -> RestingTaker
        ensures { result ≡ self.entry }
    {
        let CounterTaker {
            stepper,
            counted,
            told,
            ..
        } = self;
        RestingTaker {
            stepper: stepper.rest(),
            counted,
            told,
        }
    }
}

impl RestingTaker {
    /// The end at its ring, which must be this one. It makes no access.
    pub fn at<'a, A: Allocator>(self, ring: &'a CounterRing<A>) -> CounterTaker<'a>
        requires { self.ring ≡ ring.now }
        ensures { result ≡ self }
    {
        CounterTaker {
            before: Pad::new(),
            stepper: self.stepper.at(ring.words()),
            counted: self.counted,
            told: self.told,
            after: Pad::new(),
        }
    }

    /// Whether a take has returned Closed: whether the last of its list of complete takes did.
    pub fn is_told(&self) -> bool
        ensures { TellsAre self.now.ring.shape self.now.list result }
    {
        self.told
    }
}
