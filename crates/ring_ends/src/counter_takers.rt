//! The consumer's end of a counter ring.

use crate::counter_calls::{Counted, take_all_open, take_open};
use crate::ends::TakeEnd;
use crate::meetings::is_closed_reply;
use crate::rings::Pad;
use bits_core::Shape;
use ring_core::{TakeBatchReply, TakeReply};
use ring_seats::{Counting, Stepper};
use std::marker::Model;

/// The consumer's end of a counter ring. No take of it is ever under way.
///
/// In use: `uses::two_threads::take_each`.
#[derive(Drop)]
#[repr(C)]
pub struct CounterTaker<'a> {
    pub(crate) before: Pad,
    pub(crate) stepper: Stepper<'a, Counting>,
    pub(crate) counted: Counted,
    pub(crate) told: bool,
    pub(crate) after: Pad,
}

impl<'a> Model for CounterTaker<'a> {
    ghost use Rattle.ring_seats.specs.Ring.{RingEnd};
    ghost use Rattle.ring_ends.specs.CounterEnds.{IsTakerList};

    ghost Value = { RingEnd };

    ghost view = { λ t. t.stepper };

    ghost invariant = { λ t. IsTakerList t.stepper t.counted.count t.counted.cell t.told };
}

impl<'a> TakeEnd for CounterTaker<'a> {
    ghost end = { λ t. t };

    ghost idle = { λ _. Unit {0} };

    ghost answered = { λ _ _. Unit {0} };

    fn shape(&self) -> Shape {
        self.stepper.shape()
    }

    fn take(&mut self) -> TakeReply {
        if self.told {
            return TakeReply::Closed;
        }
        let reply = take_open(
            &mut self.stepper,
            &mut self.counted.count,
            &mut self.counted.cell,
        );
        self.told = is_closed_reply(Some(reply));
        reply
    }

    fn take_all(&mut self, into: &mut [u64]) -> TakeBatchReply {
        if self.told {
            return TakeBatchReply::Closed;
        }
        let reply = take_all_open(
            &mut self.stepper,
            into,
            &mut self.counted.count,
            &mut self.counted.cell,
        );
        self.told = matches!(reply, TakeBatchReply::Closed);
        reply
    }
}
