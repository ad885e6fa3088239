// One side stops for ever at each of its steps, or its end is dropped there, in the middle of a call; or it is far slower than the
// other. The other side's calls return, and what they return is true.
use crate::tests::expects::shape_of;
use crate::tests::steps::{Consuming, Producing, Script, begin};
use bits_core::Side;
use ring_run::FlickerRing;
use std::alloc::AllocGlobal;
use std::process::Abort;

// By their capacity, modulus, width and batch.
const SHAPES: [[u64; 4]; 3] = [[1, 3, 1, 1], [2, 5, 1, 2], [3, 7, 2, 3]];

const ITEMS: &[u64] = &[1, 0, 1, 1, 0, 0, 1];

// All items are put and the ring closed, and one more than these is asked for; with the answers of three oracles.
static SCRIPTS: [Script<'static>; 3] = [
    (ITEMS, true, 8, &[]),
    (ITEMS, true, 8, &[false, true]),
    (ITEMS, true, 8, &[true, true, false]),
];

// Steps of one side alone, enough for each of its calls that has room or an item to return.
const ALONE: u64 = 240;

// Rounds of both sides, enough for the slower one to make all its calls.
const ROUNDS: u64 = 600;

// Who stops, after how many steps of either side, and whether its end is dropped then.
type Stop = (Side, u64, bool);

// It holds; otherwise the message says what fails, after which stop.
fn expect_at(rt: &impl Abort, holds: bool, what: &str, stop: Stop) {
    assert!(rt; holds, "{what}: {stop:?}");
}

// At least this many items are taken, all that were stored, and at most this many, with those of the put that was stopped; and
// takes continue to return.
fn expect_taken(
    rt: &impl Abort,
    consuming: &mut Consuming<'_>,
    (least, most): (u64, u64),
    stop: Stop,
) {
    let empty = consuming.empty;
    for _ in 0..ALONE {
        let _made = consuming.step(rt);
    }
    let taken = consuming.taken as u64;
    let is_all = taken == ITEMS.len() as u64;
    expect_at(rt, least <= taken && taken <= most, "items taken", stop);
    expect_at(
        rt,
        empty < consuming.empty || consuming.told,
        "takes return",
        stop,
    );
    expect_at(rt, !consuming.told || is_all, "told", stop);
}

// As many items are stored as there is room for besides those that were not taken, at most one more for the take that was
// stopped; and puts continue to return.
fn expect_stored(
    rt: &impl Abort,
    producing: &mut Producing<'_>,
    taken: u64,
    capacity: u64,
    stop: Stop,
) {
    let full = producing.full;
    for _ in 0..ALONE {
        let _made = producing.step();
    }
    let stored = producing.stored;
    let room = taken.saturating_add(capacity);
    let is_all = stored == ITEMS.len() as u64;
    expect_at(rt, stored <= room.saturating_add(1), "items stored", stop);
    expect_at(rt, room <= stored || is_all, "room for items", stop);
    expect_at(rt, full < producing.full || is_all, "puts return", stop);
}

fn let_putter_go(_producing: Producing<'_>) {}

fn let_taker_go(_consuming: Consuming<'_>) {}

// Both sides make steps in turn, and then one of them none.
fn expect_stop(
    rt: &(impl Abort + AllocGlobal),
    numbers: &[u64; 4],
    script: &Script<'static>,
    stop: Stop,
) {
    let [capacity, _, _, batch] = *numbers;
    let (side, steps, drops) = stop;
    let made = FlickerRing::new(rt.alloc(), shape_of(rt, numbers));
    let (ring, start) = made.expect(rt, "memory for the ring");
    let (items, _, _, _) = *script;
    let (mut producing, mut consuming) = begin(&ring, start, *script, items);
    for _ in 0..steps {
        let _made = producing.step();
        let _made = consuming.step(rt);
    }
    match side {
        Side::P => {
            let stored = producing.stored;
            if drops {
                let_putter_go(producing);
            }
            let most = stored.saturating_add(batch);
            expect_taken(rt, &mut consuming, (stored, most), stop);
        }
        Side::C => {
            let taken = consuming.taken as u64;
            if drops {
                let_taker_go(consuming);
            }
            expect_stored(rt, &mut producing, taken, capacity, stop);
        }
    }
}

// At each of its steps, with each oracle.
fn expect_stops(rt: &(impl Abort + AllocGlobal), side: Side, drops: bool) {
    for numbers in SHAPES.iter() {
        for script in SCRIPTS.iter() {
            for steps in 0..130 {
                expect_stop(rt, numbers, script, (side, steps, drops));
            }
        }
    }
}

#[test]
fn a_side_that_stops_at_any_step_leaves_the_other_true(rt: HostRuntime) {
    expect_stops(&rt, Side::P, false);
    expect_stops(&rt, Side::C, false);
}

#[test]
fn an_end_that_is_dropped_in_a_call_leaves_the_other_true(rt: HostRuntime) {
    expect_stops(&rt, Side::P, true);
    expect_stops(&rt, Side::C, true);
}

// Rounds of a number of steps of the producer, and a number of steps of the consumer.
fn make_rounds(
    rt: &impl Abort,
    producing: &mut Producing<'_>,
    consuming: &mut Consuming<'_>,
    (puts, takes): (u64, u64),
) {
    for _ in 0..ROUNDS {
        for _ in 0..puts {
            let _made = producing.step();
        }
        for _ in 0..takes {
            let _made = consuming.step(rt);
        }
    }
}

// One side makes this many steps for each of the other's: all items come through, and a take returns Closed.
fn expect_slow(
    rt: &(impl Abort + AllocGlobal),
    numbers: &[u64; 4],
    script: &Script<'static>,
    slow: Side,
    times: u64,
) {
    let made = FlickerRing::new(rt.alloc(), shape_of(rt, numbers));
    let (ring, start) = made.expect(rt, "memory for the ring");
    let (items, _, _, _) = *script;
    let (mut producing, mut consuming) = begin(&ring, start, *script, items);
    let times_of = match slow {
        Side::P => (1, times),
        Side::C => (times, 1),
    };
    make_rounds(rt, &mut producing, &mut consuming, times_of);
    let is_all = consuming.taken == ITEMS.len() && producing.stored == ITEMS.len() as u64;
    expect_at(
        rt,
        consuming.told && is_all,
        "far slower, so many times",
        (slow, times, false),
    );
}

#[test]
fn a_side_that_is_far_slower_loses_nothing(rt: HostRuntime) {
    for numbers in SHAPES.iter() {
        for script in SCRIPTS.iter() {
            for times in [2, 31, 200] {
                expect_slow(&rt, numbers, script, Side::P, times);
                expect_slow(&rt, numbers, script, Side::C, times);
            }
        }
    }
}
