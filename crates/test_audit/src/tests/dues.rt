//! Which events were due where a trace leaves the programs.

use bits_core::{Act, Bit, Event, Side};
use ring_audit::{Dues, due_behind, dues_of_both};
use std::alloc::AllocGlobal;
use std::process::Abort;
use std::test::Fail;
use trace_text::read_trace;

// A trace, a side, and what it may do next.
type Case<'a> = (&'a str, Side, &'a [(Bit, Act)]);

fn is_told(dues: &Dues, side: Side, due: &(Bit, Act)) -> bool {
    let event = Some(Event {
        side,
        bit: due.0,
        act: due.1,
    });
    dues.first == event || dues.second == event || dues.third == event
}

fn count_of(dues: &Dues) -> usize {
    [dues.first, dues.second, dues.third]
        .iter()
        .filter(|due| due.is_some())
        .count()
}

fn expect_dues(rt: &(impl Abort + AllocGlobal), cases: &[Case]) -> Result<(), Fail> {
    for (text, side, expected) in cases {
        let (shape, events) = read_trace(rt.alloc(), text.as_bytes())?;
        let dues = due_behind(&shape, events.as_slice(), *side);
        let (puts, takes) = dues_of_both(&shape, events.as_slice());
        assert!(rt; dues == if *side == Side::P { puts } else { takes });
        assert!(rt; count_of(&dues) == expected.len());
        for due in expected.iter() {
            assert!(rt; is_told(&dues, *side, due));
        }
    }
    Ok(())
}

static DUE: [Case<'static>; 9] = [
    // between calls: the scan's first read, or the close
    (
        "shape 1 3 1\n",
        Side::P,
        &[(Bit::R(0), Act::ReadBegin), (Bit::X, Act::WriteBegin(true))],
    ),
    ("shape 1 3 1\n", Side::C, &[(Bit::S(0), Act::ReadBegin)]),
    // an open read, and an open write
    (
        "shape 1 3 1\nP read r0\n",
        Side::P,
        &[
            (Bit::R(0), Act::ReadEnd(false)),
            (Bit::R(0), Act::ReadEnd(true)),
        ],
    ),
    (
        "shape 1 3 1\nP write x 1\n",
        Side::P,
        &[(Bit::X, Act::WriteEnd)],
    ),
    // if a count is written before the cell, the cell is due
    (
        "shape 1 3 1\nP read r0\nP got r0 1\n",
        Side::P,
        &[
            (Bit::Cell(0, 0), Act::WriteBegin(false)),
            (Bit::Cell(0, 0), Act::WriteBegin(true)),
        ],
    ),
    // the last read of a scan returns 1
    (
        "shape 1 3 1\nP read r0\nP got r0 0\nP read r1\nP got r1 0\nP read r2\n",
        Side::P,
        &[(Bit::R(2), Act::ReadEnd(true))],
    ),
    // after a whole word of a batch: the next word, or the count
    (
        "shape 2 5 1 2\nP read r0\nP got r0 1\nP write c0.0 1\nP wrote c0.0\n",
        Side::P,
        &[
            (Bit::Cell(1, 0), Act::WriteBegin(false)),
            (Bit::Cell(1, 0), Act::WriteBegin(true)),
            (Bit::S(1), Act::WriteBegin(true)),
        ],
    ),
    // the same for a take of two, of which one item is read
    (
        "shape 2 5 1 1 2\nC read s0\nC got s0 0\nC read s1\nC got s1 0\nC read s2\nC got s2 1\nC read c0.0\nC got c0.0 1\n",
        Side::C,
        &[
            (Bit::Cell(1, 0), Act::ReadBegin),
            (Bit::R(1), Act::WriteBegin(true)),
        ],
    ),
    // after a history that is not of the programs, nothing
    ("shape 1 3 1\nP write s1 1\n", Side::C, &[]),
];

#[test]
fn what_was_due_is_told(rt: HostRuntime) -> Result<(), Fail> {
    expect_dues(&rt, &DUE)
}
