//! What `audit --calls` prints.

use crate::tests::expects::{AUDIT_CALLS, STOP, expect_refusals, expect_run_on, expect_verdicts};
use crate::tests::failure_expects::expect_read;
use crate::tests::fakes::HaltingReader;
use std::io::ErrorKind;

const NOTHING: &str =
    "lawful\ncalls 0\nstored 0\ntaken 0\nfull 0\nempty 0\nnothing 0\ntold no\ninside 0 0\noverlapped 0\nopen 0\n";

const NOTHING_CUT: &str =
    "lawful\ncalls 0\nstored 0\ntaken 0\nfull 0\nempty 0\nnothing 0\ntold no\ninside 0 0\noverlapped 0\nopen 0\ncut yes\n";

const FAULT: &str = "fault: line 2: out of turn\n";

// Whether the reading stops at the first fault or not, the finding is the same.
static FOUND: [(&str, u8, &str); 6] = [
    ("queue 1\n", 0, NOTHING),
    ("cut queue 1\n", 0, NOTHING_CUT),
    ("cut queue\n", 0, NOTHING_CUT),
    ("cut queue 1 2\n", 0, NOTHING_CUT),
    // a fault is reported in one line
    ("queue 1\nP stored\n", 3, FAULT),
    (
        "cut queue 1\nP put 1\nP put 2\nP stored\n",
        3,
        "fault: line 3: out of turn\n",
    ),
];

#[test]
fn tells_whether_a_recording_is_cut(rt: HostRuntime) {
    expect_verdicts(&rt, AUDIT_CALLS, &FOUND);
    expect_verdicts(&rt, STOP, &FOUND);
}

// After the first fault nothing is read.
static STOPPED: [(&str, u8, &str); 4] = [
    ("queue 1\nP stored\nP storde\n", 3, FAULT),
    ("queue 1\nP stored\nP sto", 3, FAULT),
    ("queue 1\nP stored\n\n", 3, FAULT),
    ("cut queue 1\nP stored\n\u{ff}\n", 3, FAULT),
];

#[test]
fn stops_at_the_first_fault(rt: HostRuntime) {
    expect_verdicts(&rt, STOP, &STOPPED);
}

// One byte per read, and a fault of the read after this many.
fn halting(bytes: &[u8], reads_before: u64) -> HaltingReader<'_> {
    HaltingReader {
        bytes,
        reads_before,
        kind: ErrorKind::Other,
    }
}

#[test]
fn stops_wherever_the_input_is_cut(rt: HostRuntime) {
    let bytes = b"queue 1\nP stored\nP storde\n";
    expect_read(&rt, STOP, halting(bytes, 17), 3, FAULT, "");
    expect_read(
        &rt,
        STOP,
        halting(bytes, 16),
        1,
        "",
        "refused: input failed\n",
    );
    expect_read(
        &rt,
        AUDIT_CALLS,
        halting(bytes, 17),
        1,
        "",
        "refused: input failed\n",
    );
    let refused =
        "refused: calls line 3 is not a line of the format\n  line 3 is none of: P put ITEM.., P stored [COUNT], P some COUNT, P full, P short, P nothing, P close, P closed: \"P storde\"\n";
    expect_read(&rt, AUDIT_CALLS, halting(bytes, 100), 1, "", refused);
    expect_run_on(&rt, AUDIT_CALLS, &mut bytes.as_slice(), 1, "", refused);
    let bytes = b"cut queue 1\n";
    expect_read(&rt, STOP, halting(bytes, 100), 0, NOTHING_CUT, "");
    expect_read(&rt, AUDIT_CALLS, halting(bytes, 100), 0, NOTHING_CUT, "");
}

static BAD: [(&[u8], &str); 33] = [
    // no text
    (
        b"",
        "refused: calls line 1 is not a line of the format\n  there is no text: line 1 is to be: queue CAPACITY\n",
    ),
    // another text
    (
        b"shape 1 3 1\nP read r0\n",
        "refused: calls line 1 is not a line of the format\n  it looks like a trace: lamport_ring audit reads it\n",
    ),
    (
        b" {\"capacity\":1}",
        "refused: calls line 1 is not a line of the format\n  it looks like a script: lamport_ring play reads it\n",
    ),
    // a further line is not one
    (
        b"queue 1\nshape 1 3 1\n",
        "refused: calls line 2 is not a line of the format\n  line 2 begins with neither P nor C: \"shape 1 3 1\"\n",
    ),
    (
        b"queue 1\n{",
        "refused: calls line 2 is not a line of the format\n  line 2 has no line feed at its end: \"{\"\n",
    ),
    // the ends of a line
    (
        b"\xef\xbb\xbfqueue 1\n",
        "refused: calls line 1 is not a line of the format\n  line 1 begins with a byte order mark: \"\\xef\\xbb\\xbfqueue 1\"\n",
    ),
    (
        b"queue 1\r\n",
        "refused: calls line 1 is not a line of the format\n  line 1 ends in a carriage return: \"queue 1\\r\"\n",
    ),
    (
        b"\n",
        "refused: calls line 1 is not a line of the format\n  line 1 is empty: \"\"\n",
    ),
    (
        b"queue 1\n\nP put 1\n",
        "refused: calls line 2 is not a line of the format\n  line 2 is empty: \"\"\n",
    ),
    (
        b"queue 1\nP put 1 \n",
        "refused: calls line 2 is not a line of the format\n  line 2 ends in a space: \"P put 1 \"\n",
    ),
    (
        b"queue 1\n P put 1\n",
        "refused: calls line 2 is not a line of the format\n  line 2 begins with a space: \" P put 1\"\n",
    ),
    (
        b"queue 1",
        "refused: calls line 1 is not a line of the format\n  line 1 has no line feed at its end: \"queue 1\"\n",
    ),
    (
        b"queue 1\nP put 1\nP stored",
        "refused: calls line 3 is not a line of the format\n  line 3 has no line feed at its end: \"P stored\"\n",
    ),
    // numbers
    (
        b"queue 1\nP put 05\n",
        "refused: calls line 2 is not a line of the format\n  line 2 has a number that is not from 0 to 18446744073709551615, or begins with 0: \"P put 05\"\n",
    ),
    (
        b"queue 18446744073709551616\n",
        "refused: calls line 1 is not a line of the format\n  line 1 has a number that is not from 0 to 18446744073709551615, or begins with 0: \"queue 18446744073709551616\"\n",
    ),
    // words of no line
    (
        b"queue 0\n",
        "refused: calls line 1 is not a line of the format\n  line 1 has a capacity of 0: it is from 1: \"queue 0\"\n",
    ),
    (
        b"cut queue 0\n",
        "refused: calls line 1 is not a line of the format\n  line 1 has a capacity of 0: it is from 1: \"cut queue 0\"\n",
    ),
    (
        b"queue 3 2\n",
        "refused: calls line 1 is not a line of the format\n  line 1 has two numbers of which the first is not below the second: \"queue 3 2\"\n",
    ),
    (
        b"queue 3 3\n",
        "refused: calls line 1 is not a line of the format\n  line 1 has two numbers of which the first is not below the second: \"queue 3 3\"\n",
    ),
    (
        b"queue 1 2 3\n",
        "refused: calls line 1 is not a line of the format\n  line 1 is none of: [cut] queue, [cut] queue B, [cut] queue A B: \"queue 1 2 3\"\n",
    ),
    (
        b"queue 1\nC take 1\n",
        "refused: calls line 2 is not a line of the format\n  line 2 asks for fewer than 2 items: Q of C take Q is from 2, and C take alone asks for one: \"C take 1\"\n",
    ),
    (
        b"queue 1\nP stored 0\n",
        "refused: calls line 2 is not a line of the format\n  line 2 has a count of 0: it is from 1: \"P stored 0\"\n",
    ),
    (
        b"queue 1\nP some 0\n",
        "refused: calls line 2 is not a line of the format\n  line 2 has a count of 0: it is from 1: \"P some 0\"\n",
    ),
    (
        b"queue 1\nP\n",
        "refused: calls line 2 is not a line of the format\n  line 2 is none of: P put ITEM.., P stored [COUNT], P some COUNT, P full, P short, P nothing, P close, P closed: \"P\"\n",
    ),
    (
        b"queue 1\nC\n",
        "refused: calls line 2 is not a line of the format\n  line 2 is none of: C take [COUNT], C item ITEM.., C some ITEM.., C empty, C short, C nothing, C closed: \"C\"\n",
    ),
    (
        b"queue 1\nPut 1\n",
        "refused: calls line 2 is not a line of the format\n  line 2 begins with neither P nor C: \"Put 1\"\n",
    ),
    (
        b"queue 1\nP put 1\x0c\n",
        "refused: calls line 2 is not a line of the format\n  line 2 has a tab or another control character: between two words stands one space: \"P put 1\\x0c\"\n",
    ),
    (
        b"P put 1\n",
        "refused: calls line 1 is not a line of the format\n  line 1 is none of: [cut] queue, [cut] queue B, [cut] queue A B: \"P put 1\"\n",
    ),
    (
        b"queue 1\nP put\n",
        "refused: calls line 2 is not a line of the format\n  line 2 is none of: P put ITEM.., P stored [COUNT], P some COUNT, P full, P short, P nothing, P close, P closed: \"P put\"\n",
    ),
    (
        b"queue 1\nC item\n",
        "refused: calls line 2 is not a line of the format\n  line 2 is none of: C take [COUNT], C item ITEM.., C some ITEM.., C empty, C short, C nothing, C closed: \"C item\"\n",
    ),
    (
        b"queue 1\ncut queue 1\n",
        "refused: calls line 2 is not a line of the format\n  line 2 begins with neither P nor C: \"cut queue 1\"\n",
    ),
    // bytes that are not printed unchanged
    (
        b"queue 1\nP\tput \"\\\x1b\x7f\xc3\xa9\n",
        "refused: calls line 2 is not a line of the format\n  line 2 has a tab or another control character: between two words stands one space: \"P\\tput \\\"\\\\\\x1b\\x7f\\xc3\\xa9\"\n",
    ),
    // more of a line than is shown
    (
        b"queue 1\naaaaaaaaaaaaaaaaaaaaaaaaaaaaaaaaaaaaaaaaaaaaaaaaaaaaaaaaaaaaaaaaaaaaaaaaaaaaaaaaa\n",
        "refused: calls line 2 is not a line of the format\n  line 2 begins with neither P nor C: \"aaaaaaaaaaaaaaaaaaaaaaaaaaaaaaaaaaaaaaaaaaaaaaaaaaaaaaaaaaaaaaaaaaaaaaaaaaaaaaaa\"..\n",
    ),
];

#[test]
fn says_what_is_wrong_in_recorded_calls(rt: HostRuntime) {
    expect_refusals(&rt, &[AUDIT_CALLS, STOP], &BAD);
}
