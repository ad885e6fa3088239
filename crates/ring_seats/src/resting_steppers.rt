//! A stepper detached from the words of its ring.
ghost use Rattle.std.specs.Prelude.{◌≡◌};

use crate::steppers::Stepper;
use crate::views::{Keeping, View};
use crate::words::Words;
use atomic_table::Seat;
use bits_core::{Shape, Side};
use std::marker::Model;

/// A [`Stepper`] detached from the words of its ring. It borrows nothing, so an end that owns its ring can keep both between
/// calls. To a contract it is the same end. For example, a resting end of a counter ring has one.
#[derive(Drop)]
pub struct RestingStepper<K: Keeping> {
    seat: Seat<(), View>,
    side: Side,
    kept: K::Kept,
    shape: Shape,
}

impl<K: Keeping> Model for RestingStepper<K> {
    ghost use Rattle.std.specs.Prelude.{◌≡◌, true, false, []};
    ghost use Rattle.bits_core.specs.Bits.{other};
    ghost use Rattle.ring_seats.specs.Ring.{RingEnd};
    ghost use Rattle.ring_seats.specs.Rule.{list_of, may_step};

    ghost Value = { RingEnd };

    ghost view = { λ r. record {
      ring = record { shape = r.shape; id = r.seat.table_id };
      side = r.side;
      list = list_of r.side r.seat.me.0;
      known = r.seat.me.0.known;
      loads = r.seat.me.0.loads;
    } };

    ghost invariant = { λ r. (r.seat.me.1 ≡ []) × (may_step r.side r.seat.me.0 ≡ true) ×
        (may_step (other r.side) r.seat.me.0 ≡ false) × K.keeps r.kept r.side r.seat.me.0 };
}

impl<'a, K: Keeping> Stepper<'a, K> {
    /// The stepper without the words of its ring. It makes no access.
    pub fn rest(self) -> RestingStepper<K>
        ensures { result ≡ self.entry }
    {
        let shape = self.ring.shape();
        let Stepper {
            seat,
            side,
            kept,
            ..
        } = self;
        RestingStepper {
            seat,
            side,
            kept,
            shape,
        }
    }
}

impl<K: Keeping> RestingStepper<K> {
    /// The stepper at the words of its ring, which must be these. It makes no access.
    pub fn at<'a>(self, ring: Words<'a, K>) -> Stepper<'a, K>
        requires { ring ≡ self.ring }
        ensures { result ≡ self }
    {
        Stepper {
            ring,
            seat: self.seat,
            side: self.side,
            kept: self.kept,
        }
    }
}
