//! The audit of a trace in pieces, cut anywhere.

use bits_core::{Act, Bit, BitAuditor, Event, Kind, Shape, ShapeFault, Side, Verdict};
use std::process::Abort;
use trace_text::{TraceAudit, TraceFault};

// What an audit finds in a text: a verdict, or the fault of the text.
type Found = Result<Verdict, TraceFault>;

// A text, and the finding on it.
type Case = (&'static str, Found);

// Two events of a lawful history, which do not change the outcome.
const TWO_EVENTS: &str = "P write s1 1\nP wrote s1\n";

static CASES: [Case; 12] = [
    ("shape 1 3 1\n", Ok(Verdict::Lawful)),
    (
        "shape 1 3 1\nP write s1 1\nP wrote s1\nC read s1\nC got s1 1\n",
        Ok(Verdict::Lawful),
    ),
    (
        "shape 64 256 64 2\nP write c63.63 0\nP wrote c63.63\n",
        Ok(Verdict::Lawful),
    ),
    (
        "shape 1 3 1\nP write s1 1\nP wrote s1\nC write s1 1\n",
        Ok(Verdict::Fault {
            place: 2,
            kind: Kind::WrongSide,
        }),
    ),
    (
        "shape 1 3 1\nC read s0\nC got s0 0\nP wrote s1\n",
        Ok(Verdict::Fault {
            place: 1,
            kind: Kind::NotPermitted,
        }),
    ),
    // a bad line after a fault of the history
    (
        "shape 1 3 1\nC write s1 1\nC wrote\n",
        Err(TraceFault::BadLine(3)),
    ),
    // a last line that has not ended
    ("shape 1 3 1\nP write s1 1", Err(TraceFault::BadLine(2))),
    ("shape 1 3 1", Err(TraceFault::BadLine(1))),
    (
        "shape 0 3 1\nrubbish\n",
        Err(TraceFault::BadShape(ShapeFault::Capacity)),
    ),
    // a bit that is not in the shape
    ("shape 1 3 1\nP write s3 1\n", Err(TraceFault::BadLine(2))),
    // lines that are longer than any line
    (
        "shape 1 3 1\nP write s1 1 and so on, and so on",
        Err(TraceFault::BadLine(2)),
    ),
    (
        "shape 10000 10000 10000 10000\n",
        Err(TraceFault::BadLine(1)),
    ),
];

fn found_in_two(front: &[u8], back: &[u8]) -> Found {
    let mut audit = TraceAudit::new();
    audit.read(front)?;
    audit.read(back)?;
    audit.verdict()
}

fn found_by_bytes(text: &[u8]) -> Found {
    let mut audit = TraceAudit::new();
    for byte in text {
        audit.read(&[*byte])?;
    }
    audit.verdict()
}

// The finding is the same wherever the text is cut.
fn expect_found(rt: &impl Abort, text: &[u8], found: Found) {
    for cut in 0..text.len() {
        let (front, back) = text.split_at(cut);
        assert_eq!(rt; found_in_two(front, back), found);
    }
    assert_eq!(rt; found_by_bytes(text), found);
}

#[test]
fn a_trace_is_audited_wherever_it_is_cut(rt: HostRuntime) {
    for (text, found) in CASES.iter() {
        expect_found(&rt, text.as_bytes(), *found);
    }
}

#[test]
fn no_line_is_no_trace(rt: HostRuntime) {
    assert_eq!(rt; found_by_bytes(b""), Err(TraceFault::BadLine(1)));
}

// The audit reads the piece. (A `?` is expensive to prove.)
fn expect_read(rt: &impl Abort, audit: &mut TraceAudit, piece: &str) {
    assert_eq!(rt; audit.read(piece.as_bytes()), Ok(()));
}

#[test]
fn one_piece_is_read_again_and_again(rt: HostRuntime) {
    let mut audit = TraceAudit::new();
    expect_read(&rt, &mut audit, "shape 1 3 1\n");
    for _ in 0..10_000u32 {
        expect_read(&rt, &mut audit, TWO_EVENTS);
    }
    assert_eq!(rt; audit.verdict(), Ok(Verdict::Lawful));
    expect_read(&rt, &mut audit, "C write s1 1\n");
    expect_read(&rt, &mut audit, TWO_EVENTS);
    let fault = Verdict::Fault {
        place: 20_000,
        kind: Kind::WrongSide,
    };
    assert_eq!(rt; audit.verdict(), Ok(fault));
    assert_eq!(rt; audit.read(b"no line\n"), Err(TraceFault::BadLine(20_005)));
}

// Events of s1, one after the other, and why each may not follow.
static FED: [(Side, Act, Option<Kind>); 7] = [
    (Side::P, Act::WriteBegin(true), None),
    (Side::C, Act::ReadEnd(true), Some(Kind::OutOfTurn)),
    (Side::C, Act::WriteEnd, Some(Kind::WrongSide)),
    (Side::P, Act::WriteEnd, None),
    (Side::C, Act::ReadBegin, None),
    (Side::C, Act::ReadEnd(false), Some(Kind::NotPermitted)),
    (Side::C, Act::ReadEnd(true), None),
];

#[test]
fn an_event_that_may_not_follow_is_not_heard(rt: HostRuntime) {
    let mut auditor = BitAuditor::new(&Shape::new(1, 3, 1).expect(&rt, "a shape"));
    let bit = Bit::S(1);
    for (place, (side, act, fault)) in FED.iter().enumerate() {
        let (side, act) = (*side, *act);
        let found = auditor.feed(Event { side, bit, act });
        assert_eq!(rt; found, *fault, "event {place}");
    }
}
