//! The producer's end of a counter ring.

use crate::counter_calls::{Counted, close_open, put_open};
use crate::ends::PutEnd;
use crate::rings::Pad;
use bits_core::Shape;
use ring_core::{BatchReply, PutReply};
use ring_seats::{Counting, Stepper};
use std::marker::Model;

/// The producer's end of a counter ring. No call of it is ever under way.
///
/// In use: `uses::two_threads::put_each`.
#[derive(Drop)]
#[repr(C)]
pub struct CounterPutter<'a> {
    pub(crate) before: Pad,
    pub(crate) stepper: Stepper<'a, Counting>,
    pub(crate) counted: Counted,
    pub(crate) closed: bool,
    pub(crate) after: Pad,
}

impl<'a> Model for CounterPutter<'a> {
    ghost use Rattle.ring_seats.specs.Ring.{RingEnd};
    ghost use Rattle.ring_ends.specs.CounterEnds.{IsPutterList};

    ghost Value = { RingEnd };

    ghost view = { λ p. p.stepper };

    ghost invariant = { λ p. IsPutterList p.stepper p.counted.count p.counted.cell p.closed };
}

impl<'a> PutEnd for CounterPutter<'a> {
    ghost end = { λ p. p };

    ghost idle = { λ _. Unit {0} };

    ghost answered = { λ _ _. Unit {0} };

    fn shape(&self) -> Shape {
        self.stepper.shape()
    }

    fn put(&mut self, item: u64) -> PutReply {
        match self.put_all(&[item]) {
            BatchReply::Stored(_) => PutReply::Stored,
            BatchReply::Full => PutReply::Full,
            BatchReply::Closed => PutReply::Closed,
        }
    }

    fn put_all(&mut self, items: &[u64]) -> BatchReply {
        if self.closed {
            return BatchReply::Closed;
        }
        match put_open(
            &mut self.stepper,
            items,
            &mut self.counted.count,
            &mut self.counted.cell,
        ) {
            0 => BatchReply::Full,
            stored => BatchReply::Stored(stored as u64),
        }
    }

    fn close(&mut self) {
        if !self.closed {
            close_open(&mut self.stepper);
            self.closed = true;
        }
    }
}
