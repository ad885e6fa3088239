//! Relays with each growth refused in turn.

ghost use Rattle.bits_core.specs.Shape.{AllFit};

use crate::tests::expects::{
    ITEMS, Kind, Numbers, ONE, expect, expect_in_order, relay_between, relay_counted, shape_of,
};
use bits_core::{Flip, Shape};
use refusing::Refusing;
use ring_run::{
    CounterRing, Finished, FlickerRing, FreeGate, Limits, Outcome, RunFault, relay_counter,
    relay_flicker,
};
use std::alloc::{AllocGlobal, Allocator};
use std::process::Abort;
use std::thread::Threads;

// A relay of the items on a ring of its own.
fn relay_on<A: Allocator + Copy>(
    rt: &impl Threads,
    alloc: A,
    kind: Kind,
    shape: Shape,
    items: &[u64],
    limits: Limits,
) -> Result<Outcome<A>, RunFault>
    requires fit { AllFit shape items.now }
{
    let (p, c) = (Flip::new(), Flip::new());
    match kind {
        Kind::Flicker => relay_flicker(rt, alloc, shape, p, c, items, limits, &FreeGate),
        Kind::Counter => relay_counter(rt, alloc, shape, items, limits, &FreeGate),
    }
}

// Such a relay without the growth after this many: whether it was refused, and whether there was one to refuse.
fn expect_without(
    rt: &(impl Abort + AllocGlobal + Threads),
    kind: Kind,
    numbers: &Numbers,
    allocations: u64,
) -> (bool, bool) {
    let shape = shape_of(rt, numbers);
    assert!(rt; shape.fits_all(&ITEMS));
    let alloc = Refusing::after(rt.alloc(), allocations);
    match relay_on(rt, &alloc, kind, shape, &ITEMS, Limits::both(1000)) {
        Err(fault) => {
            assert!(rt; fault == RunFault::OutOfMemory && alloc.has_refused());
            (true, true)
        }
        Ok(outcome) => {
            expect_in_order(rt, &outcome, &ITEMS);
            (false, alloc.has_refused())
        }
    }
}

// Each growth of a relay on a ring of the kind is refused in turn, and then none.
fn expect_refused_relays(rt: &(impl Abort + AllocGlobal + Threads), kind: Kind) {
    let mut refused: u64 = 0;
    for allocations in 0..40 {
        let (is_refused, has_growth) = expect_without(rt, kind, &[3, 5, 6, 1], allocations);
        refused = refused.saturating_add(u64::from(is_refused));
        if !has_growth {
            // the words of the ring, twice, and room for the items taken
            expect(rt, 3 <= refused, "growths", kind.name());
            return;
        }
    }
    expect(rt, false, "each growth", kind.name());
}

#[test]
fn a_relay_on_its_own_ring_is_refused_at_each_growth(rt: HostRuntime) {
    expect_refused_relays(&rt, Kind::Flicker);
    expect_refused_relays(&rt, Kind::Counter);
}

// Whether the relay of one item was refused, which it was if its allocator refused.
fn expect_one<A: Allocator, B: Allocator>(
    rt: &impl Abort,
    relayed: Result<Outcome<A>, RunFault>,
    alloc: &Refusing<B>,
) -> bool {
    match relayed {
        Err(fault) => {
            assert!(rt; fault == RunFault::OutOfMemory && alloc.has_refused());
            true
        }
        Ok(outcome) => {
            assert!(rt; outcome.put == 1 && !alloc.has_refused());
            false
        }
    }
}

// The run ended with a close and no take that returned Closed, or, if the relay was refused, with no call: returns whether it was refused.
fn expect_closed(rt: &impl Abort, finished: &Finished, is_refused: bool) -> bool {
    assert!(rt; finished.closed() != is_refused && !finished.told());
    is_refused
}

// A relay of one item without the growth after this many: whether it was refused. Then the two ends are unchanged, and
// end their run as usual.
fn expect_relay_of_one(rt: &(impl Abort + AllocGlobal + Threads), allocations: u64) -> bool {
    let items = [1];
    let shape = shape_of(rt, &ONE);
    assert!(rt; shape.fits_all(&items));
    let made = FlickerRing::new(rt.alloc(), shape);
    let (ring, start) = made.expect(rt, "memory for the ring");
    let (mut putter, mut taker) = ring.ends(start, Flip::new(), Flip::new());
    let alloc = Refusing::after(rt.alloc(), allocations);
    let limits = Limits::both(1);
    let relayed = relay_between(rt, &alloc, &mut putter, &mut taker, &items, limits);
    let is_refused = expect_one(rt, relayed, &alloc);
    expect_closed(rt, &FlickerRing::finish(putter, taker), is_refused)
}

// The same on a counter ring.
fn expect_counter_relay_of_one(
    rt: &(impl Abort + AllocGlobal + Threads),
    allocations: u64,
) -> bool {
    let items = [1];
    let shape = shape_of(rt, &ONE);
    assert!(rt; shape.fits_all(&items));
    let made = CounterRing::new(rt.alloc(), shape);
    let (ring, start) = made.expect(rt, "memory for the ring");
    let (mut putter, mut taker) = ring.ends(start);
    let alloc = Refusing::after(rt.alloc(), allocations);
    let limits = Limits::both(1);
    let relayed = relay_counted(rt, &alloc, &mut putter, &mut taker, &items, limits);
    let is_refused = expect_one(rt, relayed, &alloc);
    expect_closed(rt, &CounterRing::finish(putter, taker), is_refused)
}

#[test]
fn ends_of_a_relay_that_was_refused_can_be_finished(rt: HostRuntime) {
    assert!(rt; expect_relay_of_one(&rt, 0));
    // room for the items taken is all that it takes
    assert!(rt; !expect_relay_of_one(&rt, 1));
    assert!(rt; expect_counter_relay_of_one(&rt, 0));
    assert!(rt; !expect_counter_relay_of_one(&rt, 1));
}
