//! What a recorder records of a relay in which one side makes no call, so that its lines are the same for every schedule.
use crate::tests::expects::{Kind, Numbers, expect_relay};
use queue_calls::{Event, Reply, Word};
use ring_run::{Gate, Limits, RecordedLines, Recorder, Slot};
use std::alloc::AllocGlobal;
use std::process::Abort;
use std::thread::Threads;

/// Up to two cells, of puts of up to two items.
const TWO: Numbers = [2, 5, 8, 2];

/// The puts of five items, of which the queue holds two, and a take of a queue that holds none.
static PUTS: [(Word, &[u64]); 4] = [
    (Word::Put, &[7, 8]),
    (Word::Stored, &[]),
    (Word::Put, &[9, 10]),
    (Word::Full, &[]),
];

static PART_OF_A_PUT: [(Word, &[u64]); 4] = [
    (Word::Put, &[7]),
    (Word::Stored, &[]),
    (Word::Close, &[]),
    (Word::PutClosed, &[]),
];

static TAKES: [(Word, &[u64]); 2] = [(Word::Take, &[]), (Word::Empty, &[])];

/// The calls of both sides, one after the other: two items that are put and taken.
static BOTH: [(Word, &[u64]); 8] = [
    (Word::Put, &[7]),
    (Word::Stored, &[]),
    (Word::Take, &[]),
    (Word::Item, &[7]),
    (Word::Put, &[8]),
    (Word::Stored, &[]),
    (Word::Take, &[]),
    (Word::Item, &[8]),
];

/// This many slots.
pub fn slots(rt: &(impl Abort + AllocGlobal), room: usize) -> Vec<Slot> {
    let mut slots = Vec::new(rt.alloc());
    for _ in 0..room {
        slots.push(Slot::new()).expect(rt, "memory for the slots");
    }
    slots
}

// Whether these lines are recorded, and no more.
fn are_recorded(
    rt: &(impl Abort + AllocGlobal),
    mut lines: RecordedLines<'_>,
    expected: &[(Word, &[u64])],
) -> bool {
    let mut numbers = Vec::new(rt.alloc());
    for (word, told) in expected {
        let next = lines.next(&mut numbers).expect(rt, "memory for a line");
        if next != Some(*word) || numbers.as_slice() != *told {
            return false;
        }
    }
    let end = lines.next(&mut numbers).expect(rt, "memory for a line");
    end.is_none()
}

// With room for this many lines of either side, these lines are recorded.
fn expect_recorded(
    rt: &(impl Abort + AllocGlobal + Threads),
    room: usize,
    items: &[u64],
    limits: Limits,
    expected: &[(Word, &[u64])],
) {
    for kind in [Kind::Flicker, Kind::Counter] {
        let (puts, takes) = (slots(rt, room), slots(rt, room));
        let recorder = Recorder::new(puts.as_slice(), takes.as_slice());
        let _outcome = expect_relay(rt, kind, &TWO, items, limits, &recorder);
        let is_so = are_recorded(rt, recorder.lines(), expected);
        assert!(rt; is_so, "{}, room {room}", kind.name());
    }
}

#[test]
fn each_line_is_recorded(rt: HostRuntime) {
    let puts = Limits { puts: 2, takes: 0 };
    let takes = Limits { puts: 0, takes: 1 };
    expect_recorded(&rt, 8, &[7, 8, 9, 10, 11], puts, &PUTS);
    expect_recorded(&rt, 8, &[7], puts, &PART_OF_A_PUT);
    expect_recorded(&rt, 8, &[7], takes, &TAKES);
}

// A line for which there is no room ends the recording, and so does one of either side.
#[test]
fn a_recording_ends_where_its_room_does(rt: HostRuntime) {
    let puts = Limits { puts: 2, takes: 0 };
    let takes = Limits { puts: 0, takes: 1 };
    expect_recorded(&rt, 0, &[7, 8, 9, 10, 11], puts, &[]);
    expect_recorded(&rt, 1, &[7, 8, 9, 10, 11], puts, &[]);
    expect_recorded(&rt, 4, &[7, 8, 9, 10, 11], puts, &PUTS[..2]);
    expect_recorded(&rt, 5, &[7, 8, 9, 10, 11], puts, &PUTS[..3]);
    expect_recorded(&rt, 1, &[7], takes, &TAKES[..1]);
}

// Gives the recorder a put and a take of one of these items.
fn tell_one(recorder: &Recorder<'_>, items: &[u64]) {
    recorder.hears(Event::PutBegins(items));
    recorder.hears(Event::PutEnds(Reply::Passed(1)));
    recorder.hears(Event::TakeBegins(1));
    recorder.hears(Event::TakeEnds(Reply::Passed(items)));
}

// Gives the recorder the calls of both sides.
fn tell_both(recorder: &Recorder<'_>) {
    tell_one(recorder, &[7]);
    tell_one(recorder, &[8]);
}

// With room for this many lines of each side, these lines of both are recorded, and the recorder reports whether later ones are missing.
fn expect_both(rt: &(impl Abort + AllocGlobal), room: (usize, usize), expected: &[(Word, &[u64])]) {
    let (puts, takes) = (slots(rt, room.0), slots(rt, room.1));
    let recorder = Recorder::new(puts.as_slice(), takes.as_slice());
    tell_both(&recorder);
    let is_so = are_recorded(rt, recorder.lines(), expected)
        && recorder.is_cut() == (expected.len() < BOTH.len());
    assert!(rt; is_so, "{} lines", expected.len());
}

// If one side has no room for a line, the lines of the other that come later are left out too.
#[test]
fn a_side_with_no_room_ends_the_recording_of_both(rt: HostRuntime) {
    expect_both(&rt, (4, 4), &BOTH);
    expect_both(&rt, (3, 4), &BOTH[..5]);
    expect_both(&rt, (2, 4), &BOTH[..4]);
    expect_both(&rt, (0, 4), &[]);
    expect_both(&rt, (4, 3), &BOTH[..7]);
    expect_both(&rt, (4, 1), &BOTH[..3]);
}
