//! Recorded calls as a text: pieces, first lines, bad lines, faults.

use queue_calls::{CallsFinding, CallsReport, Cause, Recording, RecordingFault};
use refusing::Refusing;
use std::alloc::{AllocGlobal, Allocator};
use std::process::Abort;
use std::test::Fail;

// A queue of capacity 2: a put of two items while a take is under way, one that is full, one of which a part is stored, a take
// of several, an empty take, and the end.
pub const TEXT: &[u8] = b"queue 2
C take
P put 7 8
C item 7
P stored
P put 9 10
P stored 1
P put 11
P full
C take 3
C item 8 9
C take 3
C empty
P close
P closed
C take
C closed
";

pub const LAWFUL: CallsFinding = CallsFinding::Lawful(CallsReport {
    calls: 8,
    stored: 3,
    taken: 3,
    full: 2,
    empty: 1,
    nothing: 0,
    told: true,
    surely_inside: 2,
    perhaps_inside: 2,
    overlapped: 2,
    under_way: 0,
});

// A text whose first fault is a take of an item that was not put, and its finding.
pub const NOT_PUT: &[u8] = b"queue 8\nC take\nC item 1\nP put 1\nC take\nC item 2\n";

pub const ITEM_1_NOT_INSIDE: CallsFinding = CallsFinding::NotLinearizable {
    line: 3,
    cause: Cause::NotInside {
        item: 1,
        next: None,
    },
};

// A text that is refused, and the line at which it is.
pub static REFUSED: [(&[u8], u64); 37] = [
    (b"", 1),
    (b"\n", 1),
    (b"queue 8", 1),
    (b"queue 0\n", 1),
    (b"queue 08\n", 1),
    (b"queue 2 2\n", 1),
    (b"queue 0 0\n", 1),
    (b"queue 3 2\n", 1),
    (b"cut queue 0\n", 1),
    (b"cut\n", 1),
    (b"queue 8\ncut queue 8\n", 2),
    (b"queue 8\nP put 1\nP some\n", 3),
    (b"queue 8\nP put 1\nP some 0\n", 3),
    (b"queue 8\nP put 1\nP some 1 1\n", 3),
    (b"queue 8\nC some\n", 2),
    (b"queue 1 2 3\n", 1),
    (b"queue  8\n", 1),
    (b" queue 8\n", 1),
    (b"queue 8 \n", 1),
    (b"queue 8\r\n", 1),
    (b"queue 18446744073709551616\n", 1),
    (b"P put 1\n", 1),
    (b"queue 8\nqueue 8\n", 2),
    (b"queue 8\n\n", 2),
    (b"queue 8\nP put\n", 2),
    (b"queue 8\nP put x\n", 2),
    (b"queue 8\nP put -1\n", 2),
    (b"queue 8\nP put 1\nP stored 0\n", 3),
    (b"queue 8\nP put 1 2\nP stored 1 1\n", 3),
    (b"queue 8\nP full 1\n", 2),
    (b"queue 8\nP closes\n", 2),
    (b"queue 8\nP\n", 2),
    (b"queue 8\nC take 0\n", 2),
    (b"queue 8\nC take 1\n", 2),
    (b"queue 8\nC item\n", 2),
    (b"queue 8\nC item 1\nC close\n", 3),
    (b"queue 8\nC take", 2),
];

// The finding on a text that comes in two pieces.
fn found_in_two<A: Allocator + Copy>(
    alloc: A,
    text: &[u8],
    at: usize,
) -> Result<CallsFinding, RecordingFault> {
    let mut recording = Recording::new(alloc);
    let (front, rest) = text.split_at(at.min(text.len()));
    recording.read(front)?;
    recording.read(rest)?;
    recording.finding()
}

// The finding on a text that comes byte by byte.
fn found_by_bytes<A: Allocator + Copy>(
    alloc: A,
    text: &[u8],
) -> Result<CallsFinding, RecordingFault> {
    let mut recording = Recording::new(alloc);
    for byte in text.chunks(1) {
        recording.read(byte)?;
    }
    recording.finding()
}

#[test]
fn pieces_are_cut_anywhere(rt: HostRuntime) -> Result<(), Fail> {
    for at in 0..=TEXT.len() {
        assert!(rt; found_in_two(rt.alloc(), TEXT, at) == Ok(LAWFUL));
    }
    assert!(rt; found_by_bytes(rt.alloc(), TEXT) == Ok(LAWFUL));
    Ok(())
}

#[test]
fn other_texts_are_refused_at_their_line(rt: HostRuntime) -> Result<(), Fail> {
    for (text, line) in REFUSED.iter() {
        let refused = Err(RecordingFault::BadLine(*line));
        assert!(rt; found_in_two(rt.alloc(), text, 0) == refused);
        assert!(rt; found_by_bytes(rt.alloc(), text) == refused);
    }
    Ok(())
}

#[test]
fn a_bad_line_is_refused_behind_a_fault(rt: HostRuntime) -> Result<(), Fail> {
    let text = b"queue 8\nC take\nC item 1\nP put 01\n";
    assert!(rt; found_in_two(rt.alloc(), text, 9) == Err(RecordingFault::BadLine(4)));
    assert!(rt; found_in_two(rt.alloc(), NOT_PUT, 9) == Ok(ITEM_1_NOT_INSIDE));
    let text = b"queue 8\nC take\nC take\n";
    assert!(rt; found_in_two(rt.alloc(), text, 9) == Ok(CallsFinding::OutOfTurn { line: 3 }));
    Ok(())
}

#[test]
fn the_first_line_says_what_queue_it_is(rt: HostRuntime) -> Result<(), Fail> {
    let texts: [(&[u8], bool); 4] = [
        (b"queue 1\nP put 5\n", false),
        (b"cut queue 1\nP put 5\n", true),
        (b"cut queue 0 1\nP put 5\nP full\n", true),
        (b"cut queue\n", true),
    ];
    for (text, is_cut) in texts.iter() {
        let mut recording = Recording::new(rt.alloc());
        assert!(rt; recording.read(text).is_ok());
        assert!(rt; recording.is_cut() == *is_cut);
        assert!(rt; matches!(recording.finding(), Ok(CallsFinding::Lawful(_))));
    }
    Ok(())
}

#[test]
fn the_first_fault_is_told_with_its_line(rt: HostRuntime) -> Result<(), Fail> {
    let mut recording = Recording::new(rt.alloc());
    assert!(rt; recording.fault().is_none());
    assert!(rt; recording.read(b"queue 8\nC take\nC item 1").is_ok());
    assert!(rt; recording.fault().is_none());
    assert!(rt; recording.read(b"\nC take\nC take\n").is_ok());
    assert!(rt; recording.fault() == Some(ITEM_1_NOT_INSIDE));
    Ok(())
}

#[test]
fn a_bad_line_is_kept(rt: HostRuntime) -> Result<(), Fail> {
    let text = b"queue 8\nP stor\nP put 1\n";
    for at in 0..text.len() {
        let mut recording = Recording::new(rt.alloc());
        let (front, rest) = text.split_at(at);
        let read = recording.read(front).and_then(|()| recording.read(rest));
        assert!(rt; read == Err(RecordingFault::BadLine(2)));
        assert!(rt; recording.line() == Some(b"P stor".as_slice()));
    }
    Ok(())
}

#[test]
fn each_growth_may_be_refused(rt: HostRuntime) -> Result<(), Fail> {
    let mut refusals: u32 = 0;
    for count in 0..64 {
        let alloc = Refusing::after(rt.alloc(), count);
        let found = found_in_two(&alloc, TEXT, 20);
        if alloc.has_refused() {
            refusals = refusals.saturating_add(1);
            assert!(rt; found == Err(RecordingFault::OutOfMemory));
        } else {
            assert!(rt; found == Ok(LAWFUL));
        }
    }
    // (the line that is cut, its numbers, the items offered, those taken)
    assert!(rt; refusals >= 4);
    Ok(())
}
