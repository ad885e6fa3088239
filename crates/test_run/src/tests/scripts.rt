// Scripts that both ends follow by single steps, and their results.
use crate::tests::expects::{expect, shape_of};
use crate::tests::steps::{Consuming, Producing, Script, begin};
use bits_core::Side;
use ring_run::FlickerRing;
use std::alloc::AllocGlobal;
use std::process::Abort;

// The expected result: the steps made, the items that puts stored, the items taken, whether Closed was returned, and how
// often full and empty.
type Wanted = (u64, u64, &'static [u64], bool, [u64; 2]);

// A name, a shape by its capacity, modulus, width and batch, a script, the steps in order, and the expected result.
type Case = (
    &'static str,
    [u64; 4],
    Script<'static>,
    &'static [(Side, u64)],
    Wanted,
);

// Makes the steps in order. Returns how many were made.
fn make_steps(
    rt: &impl Abort,
    producing: &mut Producing<'_>,
    consuming: &mut Consuming<'_>,
    steps: &[(Side, u64)],
) -> u64 {
    let mut made: u64 = 0;
    for (side, count) in steps {
        for _ in 0..*count {
            let is_made = match side {
                Side::P => producing.step(),
                Side::C => consuming.step(rt),
            };
            made = made.saturating_add(u64::from(is_made));
        }
    }
    made
}

// The steps of the script have the expected result.
fn expect_script(rt: &(impl Abort + AllocGlobal), case: &Case) {
    let (name, numbers, script, steps, wanted) = *case;
    let (events, stored, taken, told, counts) = wanted;
    let made = FlickerRing::new(rt.alloc(), shape_of(rt, &numbers));
    let (ring, start) = made.expect(rt, "memory for the ring");
    let (mut producing, mut consuming) = begin(&ring, start, script, taken);
    let made = make_steps(rt, &mut producing, &mut consuming, steps);
    expect(rt, made == events, "steps", name);
    expect(rt, producing.stored == stored, "items stored", name);
    expect(rt, consuming.taken == taken.len(), "items taken", name);
    expect(rt, consuming.told == told, "told", name);
    let found = [producing.full, consuming.empty];
    expect(rt, found == counts, "full and empty", name);
}

const P: Side = Side::P;

const C: Side = Side::C;

const ONE: [u64; 4] = [1, 3, 1, 1];

const ONE_ZERO: &[bool] = &[true, false];

const ZERO_ONE: &[bool] = &[false, true];

// A name, a shape and a script; the steps, and the expected result.
macro_rules! case {
    ($name:literal, $shape:expr, $script:expr; $steps:expr => $wanted:expr) => {
        ($name, $shape, $script, $steps, $wanted)
    };
}

static PUTS: [Case; 16] = [
    case!("the plain path", ONE, (&[1], false, 1, &[]); &[(P, 8), (C, 10)] => (18, 1, &[1], false, [0, 0])),
    case!("nothing", ONE, (&[1], false, 1, &[]); &[] => (0, 0, &[], false, [0, 0])),
    // the put's last write is open to the end
    case!("a count write open, then seen old", ONE, (&[1], false, 2, ZERO_ONE);
        &[(P, 7), (C, 14)] => (21, 0, &[1], false, [0, 1])),
    case!("a count write of the takes open", ONE, (&[1, 0, 1], false, 2, ZERO_ONE);
        &[(P, 8), (C, 9), (P, 12)] => (29, 2, &[], false, [1, 0])),
    case!("full at capacity one", ONE, (&[1, 1], false, 0, &[]); &[(P, 10)] => (10, 1, &[], false, [1, 0])),
    // the third put's last write is open to the end
    case!("a wrap under an open count write", ONE, (&[1, 0, 1], false, 3, ZERO_ONE);
        &[(P, 8), (C, 10), (P, 10), (C, 12), (P, 9), (C, 14)] => (63, 2, &[1, 0, 1], false, [0, 1])),
    case!("five items", ONE, (&[1, 0, 0, 1, 1], false, 5, &[]);
        &[(P, 8), (C, 10), (P, 10), (C, 12), (P, 10), (C, 6), (P, 8), (C, 10), (P, 8), (C, 10)] => (92, 5, &[1, 0, 0, 1, 1], false, [0, 0])),
    case!("a read that spans a put answers one", ONE, (&[1], false, 1, &[true]);
        &[(C, 1), (P, 8), (C, 13)] => (22, 1, &[1], false, [0, 1])),
    case!("a read that spans a put answers zero", ONE, (&[1], false, 1, &[false]);
        &[(C, 1), (P, 8), (C, 9)] => (18, 1, &[1], false, [0, 0])),
    case!("a second scan finds the item", ONE, (&[1], true, 2, &[]);
        &[(C, 2), (P, 10), (C, 22)] => (34, 1, &[1], true, [0, 0])),
    case!("closed while being written", ONE, (&[], true, 1, &[true]);
        &[(P, 1), (C, 6)] => (7, 0, &[], true, [0, 0])),
    case!("the close bit flickers", ONE, (&[1], true, 2, ONE_ZERO);
        &[(C, 2), (P, 9), (C, 18)] => (29, 1, &[1], false, [0, 1])),
    case!("cut before closed is told", ONE, (&[], true, 1, &[true]);
        &[(P, 1), (C, 5)] => (6, 0, &[], false, [0, 0])),
    // no step is made at the eight last letters
    case!("idle letters", ONE, (&[1], true, 2, &[]);
        &[(C, 2), (P, 10), (C, 22), (P, 3), (C, 5)] => (34, 1, &[1], true, [0, 0])),
    case!("the most bits of an item and of a count", [1, 256, 64, 1], (&[u64::MAX], false, 1, &[]);
        &[(P, 134), (C, 136)] => (270, 1, &[u64::MAX], false, [0, 0])),
    case!("two cells", [2, 4, 2, 1], (&[2, 1, 3], false, 1, &[]);
        &[(P, 22), (C, 14), (P, 12)] => (48, 3, &[2], false, [1, 0])),
];

#[test]
fn steps_that_interleave_give_what_their_script_says(rt: HostRuntime) {
    for case in PUTS.iter() {
        expect_script(&rt, case);
    }
}

static BATCHES: [Case; 2] = [
    // the write of the count is open to the end
    case!("a batch of three", [3, 7, 1, 3], (&[1, 0, 1], false, 4, &[false, false, false, true]);
        &[(P, 11), (C, 46)] => (57, 0, &[1, 0, 1], false, [0, 1])),
    case!("partial batches", [3, 6, 1, 2], (&[1, 0, 1, 1], false, 0, &[]);
        &[(P, 20)] => (20, 3, &[], false, [1, 0])),
];

#[test]
fn steps_of_batches_give_what_their_script_says(rt: HostRuntime) {
    for case in BATCHES.iter() {
        expect_script(&rt, case);
    }
}
