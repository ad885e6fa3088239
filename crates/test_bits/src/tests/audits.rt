//! The audit of bits on small histories.

use bits_core::{Act, Bit, Event, Kind, Shape, Side, Verdict, audit_bits};
use std::alloc::AllocGlobal;
use std::process::Abort;
use trace_text::read_trace;

// A trace, and the audit's verdict on it.
type Case<'a> = (&'a str, Verdict);

const LAWFUL: Verdict = Verdict::Lawful;

fn expect_verdict(rt: &(impl Abort + AllocGlobal), text: &str, verdict: Verdict) {
    let read = read_trace(rt.alloc(), text.as_bytes());
    let (shape, events) = read.expect(rt, "a trace");
    let found = audit_bits(&shape, events.as_slice());
    assert_eq!(rt; found, verdict, "in {text}");
}

fn expect_verdicts(rt: &(impl Abort + AllocGlobal), cases: &[Case]) {
    for (text, verdict) in cases {
        expect_verdict(rt, text, *verdict);
    }
}

#[test]
fn a_stale_read_without_cause_is_not_permitted(rt: HostRuntime) {
    expect_verdict(
        &rt,
        "shape 1 3 1\nC read s0\nC got s0 0\n",
        Verdict::Fault {
            place: 1,
            kind: Kind::NotPermitted,
        },
    );
}

// Two reads of s0 while a write of 0 to it is open, over the 1 that it holds, and a read after it: their answers.
fn expect_reads(rt: &(impl Abort + AllocGlobal), answers: [u8; 3], verdict: Verdict) {
    let [first, second, third] = answers;
    let text = format!(in rt.alloc();
        "shape 1 3 1\nP write s0 0\nC read s0\nC got s0 {first}\nC read s0\nC got s0 {second}\nP wrote s0\nC read s0\nC got s0 {third}\n"
    );
    expect_verdict(rt, text.expect(rt, "memory for the text").as_str(), verdict);
}

#[test]
fn a_new_old_inversion_is_lawful(rt: HostRuntime) {
    expect_reads(&rt, [0, 1, 0], LAWFUL);
    expect_reads(&rt, [1, 0, 0], LAWFUL);
}

const STALE: Verdict = Verdict::Fault {
    place: 7,
    kind: Kind::NotPermitted,
};

#[test]
fn the_old_value_is_stale_once_the_write_has_ended(rt: HostRuntime) {
    expect_reads(&rt, [0, 1, 1], STALE);
    expect_reads(&rt, [1, 0, 1], STALE);
}

#[test]
fn an_unchanged_write_may_flicker(rt: HostRuntime) {
    expect_verdict(
        &rt,
        "shape 1 3 1\nP write s0 1\nC read s0\nC got s0 0\n",
        LAWFUL,
    );
}

static SPANS: [Case<'static>; 2] = [
    (
        "shape 1 3 1\nC read s0\nP write s0 0\nP wrote s0\nC got s0 1\n",
        LAWFUL,
    ),
    (
        "shape 1 3 1\nC read s0\nP write s0 0\nP wrote s0\nC got s0 0\n",
        LAWFUL,
    ),
];

#[test]
fn a_read_may_span_a_whole_write(rt: HostRuntime) {
    expect_verdicts(&rt, &SPANS);
}

const OUT_OF_TURN_AT_1: Verdict = Verdict::Fault {
    place: 1,
    kind: Kind::OutOfTurn,
};

static SMALL: [Case<'static>; 9] = [
    ("shape 1 3 1\n", LAWFUL),
    ("shape 3 7 1 3\n", LAWFUL),
    (
        "shape 1 3 1\nP got r0 1\n",
        Verdict::Fault {
            place: 0,
            kind: Kind::OutOfTurn,
        },
    ),
    (
        "shape 1 3 1\nP read s0\n",
        Verdict::Fault {
            place: 0,
            kind: Kind::WrongSide,
        },
    ),
    ("shape 1 3 1\nP read r0\nP read r0\n", OUT_OF_TURN_AT_1),
    // An end is of the bit and the kind that are open.
    ("shape 1 3 1\nP write s0 0\nP wrote s1\n", OUT_OF_TURN_AT_1),
    ("shape 1 3 1\nC read s0\nC wrote r0\n", OUT_OF_TURN_AT_1),
    // The count before the cell: the bits alone are lawful.
    ("shape 1 3 1\nP read r0\nP got r0 1\nP write s1 1\n", LAWFUL),
    // Other bits have values of their own.
    (
        "shape 2 4 2\nP write c1.0 1\nP wrote c1.0\nC read c0.1\nC got c0.1 0\nC read c1.0\nC got c1.0 1\nC read x\nC got x 0\nC read s1\nC got s1 1\n",
        Verdict::Fault {
            place: 9,
            kind: Kind::NotPermitted,
        },
    ),
];

#[test]
fn small_verdicts(rt: HostRuntime) {
    expect_verdicts(&rt, &SMALL);
}

// Events that no trace of the shape 1 3 1 has.
fn expect_wrong_side(rt: &impl Abort, event: Event) {
    let shape = Shape::new(1, 3, 1).expect(rt, "a shape");
    let wrong = Verdict::Fault {
        place: 0,
        kind: Kind::WrongSide,
    };
    assert_eq!(rt; audit_bits(&shape, &[event]), wrong);
}

#[test]
fn a_bit_outside_the_shape_is_the_wrong_sides(rt: HostRuntime) {
    expect_wrong_side(
        &rt,
        Event {
            side: Side::P,
            bit: Bit::R(3),
            act: Act::ReadEnd(true),
        },
    );
    expect_wrong_side(
        &rt,
        Event {
            side: Side::P,
            bit: Bit::Cell(255, 255),
            act: Act::WriteBegin(true),
        },
    );
}
