//! Plays with each growth refused in turn.

use crate::tests::play_scripts::{Asked, ONE, Wanted, expect_report, script_of};
use crate::tests::refusals::{Played, refusals};
use crate::tests::script_words::expect_words;
use bits_core::{Event, Side, Store};
use refusing::Refusing;
use ring_player::{PlayFault, World, play};
use ring_script::LetterRun;
use std::alloc::{AllocGlobal, Global};
use std::process::Abort;

// Wrap under an open count write.
pub const WRAP: Asked<'static> = ("[1,0,1]", 3, false, "P8C10P10C12P9C14", "01");

pub const WRAPPED: Wanted<'static> = (63, &[1, 0, 1], &[1, 0, 1], false, [0, 1, 2]);

// More allocations than any play makes.
const MANY: u64 = 1_000_000;

// What is compared of a world: its events, items put, items taken; the last one taken; Closed; full, empty, flickers.
pub(crate) type Seen = ([usize; 3], Option<u64>, bool, [u64; 3]);

pub fn seen<E: Store<Event>, T: Store<u64>>(world: &World<E, T>) -> Seen {
    (
        [
            world.history().len(),
            world.put_items().len(),
            world.taken_items().len(),
        ],
        world.taken_items().last().copied(),
        world.told(),
        [world.full(), world.empty(), world.flickers()],
    )
}

// A step whose growth is refused leaves the world unchanged, and is then made again. Returns
// whether it was refused.
fn step_again<E: Store<Event>, T: Store<u64>>(
    rt: &impl Abort,
    alloc: &Refusing<Global>,
    world: &mut World<E, T>,
    side: Side,
) -> bool {
    let before = seen(world);
    alloc.refuse_after(0);
    let step = world.step(side);
    let refused = alloc.has_refused();
    alloc.refuse_after(MANY);
    match step {
        Ok(moved) => {
            assert!(rt; moved && !refused);
            false
        }
        Err(fault) => {
            assert!(rt; fault == PlayFault::OutOfMemory && refused);
            assert!(rt; seen(world) == before);
            assert!(rt; world.step(side) == Ok(true));
            true
        }
    }
}

// Makes the steps of the schedule. Returns how many were refused first.
fn steps_again<E: Store<Event>, T: Store<u64>>(
    rt: &impl Abort,
    alloc: &Refusing<Global>,
    world: &mut World<E, T>,
    runs: &[LetterRun],
) -> u64 {
    let mut refused: u64 = 0;
    for run in runs {
        for made in 0..run.count {
            if step_again(rt, alloc, world, run.side) {
                refused = refused.saturating_add(1);
            }
        }
    }
    refused
}

#[test]
fn steps_that_were_refused_can_be_made_again(rt: HostRuntime) {
    let alloc = Refusing::after(rt.alloc(), MANY);
    let script = script_of(&rt, &alloc, &ONE, &WRAP);
    let mut world = World::new(&alloc, &script);
    // the first growths of the history and of the items taken
    assert!(rt; 2 <= steps_again(&rt, &alloc, &mut world, script.runs()));
    expect_report(&rt, "a world refused", &script, &world.report(), &WRAPPED);
}

/// Plays the wrap, with the allocation after this many refused, and returns whether one was.
pub fn is_refused(rt: &(impl Abort + AllocGlobal), allocations: u64) -> bool {
    let alloc = Refusing::after(rt.alloc(), MANY);
    let script = script_of(rt, &alloc, &ONE, &WRAP);
    alloc.refuse_after(allocations);
    match play(&alloc, &script) {
        Err(fault) => {
            assert!(rt; fault == PlayFault::OutOfMemory && alloc.has_refused());
            true
        }
        Ok(report) => {
            assert!(rt; !alloc.has_refused());
            expect_report(rt, "a play", &script, &report, &WRAPPED);
            false
        }
    }
}

#[test]
fn each_growth_of_a_play_may_be_refused(rt: HostRuntime) {
    let refused = refusals(&rt, Played::Ring);
    // the first growths of the history and of the items taken
    assert!(rt; 2 <= refused && refused < 40);
}

#[test]
fn the_fault_has_its_number_and_words(rt: HostRuntime) {
    let fault = PlayFault::OutOfMemory;
    expect_words(&rt, &fault, fault.number(), (1, "out of memory"));
}
