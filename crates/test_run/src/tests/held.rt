//! Ends that own their ring: what goes through them in two threads, and each growth refused.

use crate::tests::expects::{ITEMS, Numbers, SHAPES, expect, expect_in_order, shape_of};
use refusing::Refusing;
use ring_held::{finish, hold, meet};
use ring_run::{FreeGate, Limits, RunFault, relay};
use std::alloc::AllocGlobal;
use std::process::Abort;
use std::thread::Threads;

// Makes a held ring of the shape, each growth refused in turn, and then none.
fn expect_refused(rt: &(impl Abort + AllocGlobal), numbers: &Numbers) {
    let shape = shape_of(rt, numbers);
    for allocations in 0..20 {
        let alloc = Refusing::after(rt.alloc(), allocations);
        let refused = hold(&alloc, shape).err();
        if !alloc.has_refused() {
            // (the words of the ring, and the ring)
            let is_made = refused.is_none() && 2 <= allocations;
            expect(rt, is_made, "the last growth", "a held ring");
            return;
        }
        let is_refused = refused == Some(RunFault::OutOfMemory);
        expect(rt, is_refused, "a growth", "a held ring");
    }
    expect(rt, false, "each growth", "a held ring");
}

#[test]
fn a_held_ring_is_refused_at_each_growth(rt: HostRuntime) {
    for numbers in SHAPES.iter() {
        expect_refused(&rt, numbers);
    }
}

// Relays items between the two ends of a held ring, which then meet and end its run.
fn expect_passed(rt: &(impl Abort + AllocGlobal + Threads), numbers: &Numbers) {
    let shape = shape_of(rt, numbers);
    assert!(rt; shape.fits_all(&ITEMS));
    let ends = hold(rt.alloc(), shape);
    let (mut putter, mut taker) = ends.expect(rt, "memory for the ring");
    let limits = Limits::both(1_000_000_000);
    let outcome = relay(
        rt,
        rt.alloc(),
        &mut putter,
        &mut taker,
        &ITEMS,
        limits,
        &FreeGate,
    );
    let outcome = outcome.expect(rt, "memory for the relay");
    expect_in_order(rt, &outcome, &ITEMS);
    let is_over = outcome.closed && putter.is_closed() && taker.is_told();
    expect(rt, is_over, "the end", "a held ring");
    let (putter, taker) = meet(putter, taker);
    let finished = finish(putter, taker);
    let is_told = finished.closed() && finished.told();
    expect(rt, is_told, "what is left", "a held ring");
}

#[test]
fn items_go_through_held_ends(rt: HostRuntime) {
    for numbers in SHAPES.iter() {
        expect_passed(&rt, numbers);
    }
}
