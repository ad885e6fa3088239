//! Plays of scripts, and their reports.

use crate::tests::play_scripts::{Asked, Case, Numbers, ONE, expect_reports, script_of};
use bits_core::{Act, Bit, Event, Side, Store};
use ring_player::{World, play};
use std::alloc::AllocGlobal;
use std::process::Abort;

// A name, a shape and what else a script says; and what its report says.
macro_rules! case {
    ($name:literal, $shape:expr, $asked:expr => $wanted:expr) => { ($name, $shape, $asked, $wanted) };
}

static WHOLE_CALLS: [Case<'static>; 6] = [
    case!("plain path", ONE, ("[1]", 1, false, "P8C10", "") => (18, &[1], &[1], false, [0, 0, 0])),
    case!("nothing", ONE, ("[1]", 1, false, "", "") => (0, &[], &[], false, [0, 0, 0])),
    case!("full at capacity one", ONE, ("[1,1]", 0, false, "P10", "") => (10, &[1], &[], false, [1, 0, 0])),
    case!("five items", ONE, ("[1,0,0,1,1]", 5, false, "P8C10P10C12P10C6P8C10P8C10", "")
        => (92, &[1, 0, 0, 1, 1], &[1, 0, 0, 1, 1], false, [0, 0, 0])),
    case!("largest shape", [1, 256, 64, 1, 1], ("[18446744073709551615]", 1, false, "P134C136", "")
        => (270, &[18446744073709551615], &[18446744073709551615], false, [0, 0, 0])),
    case!("two cells", [2, 4, 2, 1, 1], ("[2,1,3]", 1, false, "P22C14P12", "")
        => (48, &[2, 1, 3], &[2], false, [1, 0, 0])),
];

#[test]
fn whole_calls_give_their_reports(rt: HostRuntime) {
    expect_reports(&rt, &WHOLE_CALLS);
}

static OVERLAPS: [Case<'static>; 5] = [
    case!("count write open, then seen old", ONE, ("[1]", 2, false, "P7C14", "01")
        => (21, &[1], &[1], false, [0, 1, 2])),
    case!("take's count write open", ONE, ("[1,0,1]", 2, false, "P8C9P12", "01")
        => (29, &[1, 0], &[], false, [1, 0, 2])),
    case!("wrap under an open count write", ONE, ("[1,0,1]", 3, false, "P8C10P10C12P9C14", "01")
        => (63, &[1, 0, 1], &[1, 0, 1], false, [0, 1, 2])),
    case!("a read spans a put, answers one", ONE, ("[1]", 1, false, "C1P8C13", "1")
        => (22, &[1], &[1], false, [0, 1, 1])),
    case!("a read spans a put, answers zero", ONE, ("[1]", 1, false, "C1P8C9", "0")
        => (18, &[1], &[1], false, [0, 0, 1])),
];

#[test]
fn overlapped_reads_answer_as_the_oracle_says(rt: HostRuntime) {
    expect_reports(&rt, &OVERLAPS);
}

static CLOSES: [Case<'static>; 5] = [
    case!("second scan finds the item", ONE, ("[1]", 2, true, "C2P10C22", "") => (34, &[1], &[1], true, [0, 0, 0])),
    case!("idle letters", ONE, ("[1]", 2, true, "C2P10C22P3C5", "") => (34, &[1], &[1], true, [0, 0, 0])),
    case!("closed while the close bit is being written", ONE, ("[]", 1, true, "P1C6", "1")
        => (7, &[], &[], true, [0, 0, 1])),
    case!("cut before closed", ONE, ("[]", 1, true, "P1C5", "1") => (6, &[], &[], false, [0, 0, 1])),
    case!("close bit flickers", ONE, ("[1]", 2, true, "C2P9C18", "10") => (29, &[1], &[1], false, [0, 1, 2])),
];

#[test]
fn a_close_is_told_once_it_is_read(rt: HostRuntime) {
    expect_reports(&rt, &CLOSES);
}

static BATCHES: [Case<'static>; 2] = [
    case!("batch of three", [3, 7, 1, 3, 1], ("[1,0,1]", 4, false, "P11C46", "0001")
        => (57, &[1, 0, 1], &[1, 0, 1], false, [0, 1, 4])),
    case!("partial batches", [3, 6, 1, 2, 1], ("[1,0,1,1]", 0, false, "P20", "")
        => (20, &[1, 0, 1], &[], false, [1, 0, 0])),
];

#[test]
fn batches_give_their_reports(rt: HostRuntime) {
    expect_reports(&rt, &BATCHES);
}

static TAKES: [Case<'static>; 3] = [
    // a take whose count write is open while a put finds the ring full, and then both cells free
    case!("take of two", [2, 5, 1, 1, 2], ("[1,0,1]", 2, false, "P16C13P14C1", "10")
        => (44, &[1, 0, 1], &[1, 0], false, [1, 0, 2])),
    // no more than are left to take
    case!("two of three", [3, 7, 1, 3, 3], ("[1,0,1]", 2, false, "P12C20", "")
        => (28, &[1, 0, 1], &[1, 0], false, [0, 0, 0])),
    // no more than are shown
    case!("one by one", [2, 5, 2, 1, 2], ("[3,2]", 4, true, "P10C12P14C28", "")
        => (64, &[3, 2], &[3, 2], true, [0, 0, 0])),
];

#[test]
fn takes_of_several_give_their_reports(rt: HostRuntime) {
    expect_reports(&rt, &TAKES);
}

// A call of a side begins with the read of the first bit of the other side's count.
fn begins_call(event: &Event) -> bool {
    event.act == Act::ReadBegin && (event.bit == Bit::R(0) || event.bit == Bit::S(0))
}

// The calls of the play follow each other, and each has this many events.
fn expect_calls(
    rt: &(impl Abort + AllocGlobal),
    shape: &Numbers,
    asked: &Asked,
    lengths: &[usize],
) {
    let script = script_of(rt, rt.alloc(), shape, asked);
    let report = play(rt.alloc(), &script).expect(rt, "memory for the play");
    let mut made: Vec<usize, _> = Vec::new(rt.alloc());
    let mut length: usize = 0;
    for event in report.history.iter() {
        if begins_call(event) && 0 < length {
            made.push(length).expect(rt, "memory for a length");
            length = 0;
        }
        length = length.saturating_add(1);
    }
    made.push(length).expect(rt, "memory for a length");
    assert!(rt; made.as_slice() == lengths);
}

#[test]
fn calls_have_their_events(rt: HostRuntime) {
    let five = ("[1,0,0,1,1]", 5, false, "P8C10P10C12P10C6P8C10P8C10", "");
    expect_calls(&rt, &ONE, &five, &[8, 10, 10, 12, 10, 6, 8, 10, 8, 10]);
    let partial = ("[1,0,1,1]", 0, false, "P20", "");
    expect_calls(&rt, &[3, 6, 1, 2, 1], &partial, &[10, 8, 2]);
}

// The next steps of a side: this many that add an event, and then two that add none.
fn expect_steps<E: Store<Event>, T: Store<u64>>(
    rt: &impl Abort,
    world: &mut World<E, T>,
    side: Side,
    count: usize,
) {
    let before = world.history().len();
    for made in 0..count.saturating_add(2) {
        assert!(rt; world.step(side) == Ok(made < count));
    }
    assert!(rt; world.history().len() == before.saturating_add(count));
}

#[test]
fn a_side_that_is_done_adds_nothing(rt: HostRuntime) {
    let script = script_of(&rt, rt.alloc(), &ONE, &("[1]", 2, true, "", ""));
    let mut world = World::new(rt.alloc(), &script);
    expect_steps(&rt, &mut world, Side::P, 10);
    expect_steps(&rt, &mut world, Side::C, 20);
    expect_steps(&rt, &mut world, Side::P, 0);
}
