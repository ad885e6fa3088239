// An application of the law of a put after a meeting.
ghost use Rattle.std.specs.Prelude.{◌≡◌, ◌^◌, ◌<◌};
ghost use Rattle.bits_core.specs.Shape.{width_of};
ghost use Rattle.test_run.specs.Room.{KnowsRoom};

use crate::tests::expects::{ONE, shape_of};
use ring_core::PutReply;
use ring_run::laws::full_after_meeting;
use ring_run::{CounterRing, PutEnd};
use std::process::Abort;

// A put by an end that knows of room: returns whether it was stored. It never returns `Full`.
fn put_into_room<E: PutEnd>(putter: &mut E, item: u64) -> bool
    requires idle { E.idle putter.old }
    requires fits { item < 2 ^ width_of (E.end putter.old).ring.shape }
    requires room { KnowsRoom (E.end putter.old) }
    ensures idle { E.idle putter.new }
{
    // a law that the proof needs
    full_after_meeting();
    match putter.put(item) {
        PutReply::Stored => true,
        PutReply::Closed => false,
        PutReply::Full => unreachable!(),
    }
}

#[test]
fn the_first_put_into_a_ring_is_stored(rt: HostRuntime) {
    let shape = shape_of(&rt, &ONE);
    let made = CounterRing::new(rt.alloc(), shape);
    let (ring, start) = made.expect(&rt, "memory for the ring");
    let (mut putter, _taker) = ring.ends(start);
    assert!(rt; shape.fits(1));
    let is_stored = put_into_room(&mut putter, 1);
    assert!(rt; is_stored);
}
