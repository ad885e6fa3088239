//! How two seats of one ring are made, meet, and are joined.
ghost use Rattle.std.specs.Prelude.{◌≡◌, true, false, []};
ghost use Rattle.bits_core.specs.Bits.{other};
ghost use Rattle.bits_core.specs.declared.events.Side.TheVariants.{P, C};
ghost use Rattle.ring_seats.specs.Rule.{IsIdle, joint, list_of, may_step};
ghost use Rattle.ring_seats.specs.Meetings.{KeepsEnd, KnowsAll, Meets};
ghost use Rattle.ring_seats.specs.Steppers.{StandsAs};

use crate::steppers::Stepper;
use crate::views::{Keeping, View};
use crate::words::Words;
use atomic_table::Seat;
use bits_core::Side;

/// The two seats of a ring, of any kind, from the seat that was made with its table: one steps for the producer, the other
/// for the consumer. They have made no step and know only the empty history. For example, the two ends of a new ring
/// step with these.
pub fn first_steppers<'a, K: Keeping>(
    ring: Words<'a, K>,
    mut seat: Seat<(), View>,
) -> (Stepper<'a, K>, Stepper<'a, K>)
    requires { (seat.table_id ≡ ring.id) × (seat.me ≡ (joint [] [] [] [], [])) }
    ensures putter { result.0 ≡ record { ring = ring.entry; side = P; list = []; known = []; loads = [] } }
    ensures taker { result.1 ≡ record { ring = ring.entry; side = C; list = []; known = []; loads = [] } }
    ensures lawful { StandsAs P result.0 × StandsAs C result.1 }
{
    let other = ring.part(&mut seat);
    let same = ring.again();
    (stepper(same, seat, Side::P), stepper(ring, other, Side::C))
}

// A seat that has no access open.
fn stepper<'a, K: Keeping>(ring: Words<'a, K>, seat: Seat<(), View>, side: Side) -> Stepper<'a, K>
    requires own { (seat.table_id ≡ ring.id) × (seat.me.1 ≡ []) }
    requires side { (may_step side seat.me.0 ≡ true) × (may_step (other side) seat.me.0 ≡ false) }
    requires idle { IsIdle side (list_of side seat.me.0) × (seat.me.0.first ≡ 0) }
    ensures { result ≡ record {
      ring = ring.entry;
      side = side;
      list = list_of side seat.me.0;
      known = seat.me.0.known;
      loads = seat.me.0.loads;
    } }
{
    Stepper {
        ring,
        seat,
        side,
        kept: K::nothing(),
    }
}

/// The two seats learn one lawful history, whose sides are their two lists and which begins with what each knew. They are those
/// of one ring, and have no access open; they keep their lists. It makes no access. For example, the ends of either ring `meet`
/// in this way.
pub fn meet_steppers<'a, K: Keeping>(
    p: Stepper<'a, K>,
    c: Stepper<'a, K>,
) -> (Stepper<'a, K>, Stepper<'a, K>)
    requires sides { (p.side ≡ P) × (c.side ≡ C) }
    requires ring { p.ring ≡ c.ring }
    requires idle { IsIdle P p.list × IsIdle C c.list }
    ensures putter { KeepsEnd p.entry result.0 }
    ensures taker { KeepsEnd c.entry result.1 }
    ensures one { result.1.known ≡ result.0.known }
    ensures meets { Meets p.entry c.entry result.0.known }
    ensures lawful { StandsAs P result.0 × StandsAs C result.1 }
{
    let Stepper { ring, mut seat, .. } = p;
    let Stepper {
        ring: same,
        seat: other,
        ..
    } = c;
    ring.rejoin(&mut seat, other);
    let other = ring.part(&mut seat);
    (stepper(ring, seat, Side::P), stepper(same, other, Side::C))
}

/// The two seats, of one ring and with no access open, become one seat of that ring that knows such a history, and whose lists
/// are its two sides. It makes no access. For example, the run of either ring is ended in this way.
pub fn join_steppers<'a, K: Keeping>(p: Stepper<'a, K>, c: Stepper<'a, K>) -> Seat<(), View>
    requires sides { (p.side ≡ P) × (c.side ≡ C) }
    requires ring { p.ring ≡ c.ring }
    requires idle { IsIdle P p.list × IsIdle C c.list }
    ensures own { result.table_id ≡ p.entry.ring.id }
    ensures meets { Meets p.entry c.entry result.me.0.known }
    ensures knows { KnowsAll result.me.0 }
{
    let Stepper { ring, mut seat, .. } = p;
    let Stepper { seat: theirs, .. } = c;
    ring.rejoin(&mut seat, theirs);
    seat
}
