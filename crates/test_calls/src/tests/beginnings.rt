//! Which bytes may begin a line of recorded calls.

use queue_calls::{Recording, RecordingFault, UNSEEN_LIMIT, may_begin};
use std::alloc::{AllocGlobal, Allocator};
use std::process::Abort;
use std::test::Fail;

// Bytes, and whether they may begin the first line, and a further one.
static BEGINNINGS: [(&[u8], bool, bool); 37] = [
    (b"", true, true),
    (b"q", true, false),
    (b"queue", true, false),
    (b"queue ", true, false),
    (b"queue 0", true, false),
    (b"queue 00", false, false),
    (b"queue 1 5", true, false),
    (b"queue 1 2 ", false, false),
    (b"queues", false, false),
    (b"cut queu", true, false),
    (b"cut queue 18446744073709551615", true, false),
    (b"cut queue 18446744073709551616", false, false),
    (b"P", false, true),
    (b"P ", false, true),
    (b"P p", false, true),
    (b"P put", false, true),
    (b"P put ", false, true),
    (b"P put  ", false, false),
    (b"P put 0", false, true),
    (b"P put 00", false, false),
    (b"P put 01", false, false),
    (b"P put 1 2 3 4 5 6 7 8 ", false, true),
    (b"P put 1 2 x", false, false),
    (b"P put\r", false, false),
    (b"P put 5\n", false, false),
    (b"P clos", false, true),
    (b"P close", false, true),
    (b"P closed", false, true),
    (b"P close ", false, false),
    (b"P stored 3", false, true),
    (b"P stored 3 ", false, false),
    (b"C take 1", false, true),
    (b"C item 7 8", false, true),
    (b"C empty 1", false, false),
    (b"C some", false, true),
    (b"C put", false, false),
    (b" ", false, false),
];

#[test]
fn what_may_begin_a_line(rt: HostRuntime) -> Result<(), Fail> {
    for (bytes, first, further) in BEGINNINGS.iter() {
        assert!(rt; may_begin(bytes, true) == *first);
        assert!(rt; may_begin(bytes, false) == *further);
    }
    Ok(())
}

// How often a piece is read after the text until it is refused, at most this often; and how many bytes are kept then.
fn refused_after<A: Allocator + Copy>(
    alloc: A,
    text: &[u8],
    piece: &[u8],
    most: usize,
) -> Result<(usize, usize), RecordingFault> {
    let mut recording = Recording::new(alloc);
    recording.read(text)?;
    for count in 0..most {
        if recording.read(piece) == Err(RecordingFault::BadLine(2)) {
            return Ok((count, recording.line().map_or(0, |line| line.len())));
        }
    }
    Ok((most, recording.line().map_or(0, |line| line.len())))
}

#[test]
fn a_line_that_can_be_none_is_not_kept(rt: HostRuntime) -> Result<(), Fail> {
    let zeros = [b'0'; 4096];
    // (the sixteenth piece makes them as many as are kept unseen)
    let found = refused_after(rt.alloc(), b"queue 8\nP put 0", &zeros, 40);
    assert!(rt; found == Ok((15, UNSEEN_LIMIT + 7)));
    // what may still become a line is kept
    let ones = *b" 1 1 1 1 1 1 1 1 1 1 1 1 1 1 1 1";
    let found = refused_after(rt.alloc(), b"queue 8\nP put", &ones, 6_000);
    assert!(rt; found == Ok((6_000, 192_005)));
    Ok(())
}
