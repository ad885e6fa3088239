//! Failed reads, writes and growths.

use crate::tests::expects::{AUDIT, AUDIT_CALLS, BITS, CALLS, PLAY, TRACE};
use crate::tests::failure_expects::{
    Growing, Told, Unheard, expect_failed_reads, expect_failed_writes, expect_read,
    expect_refused_finding, expect_refused_growths, expect_refused_load, expect_refused_or_right,
    expect_refused_report, expect_refused_text, expect_refused_trace, expect_told_at_each_growth,
    expect_unflushed, expect_unheard, expect_written,
};
use crate::tests::fakes::{HaltingReader, HaltingWriter};
use crate::tests::plays::{PLAIN_REPORT, PLAIN_TRACE};
use crate::tests::words::{INVERSION, STALE};
use bits_core::{Kind, Verdict};
use std::io::ErrorKind;

const PLAIN: &str =
    "{\"capacity\":1,\"modulus\":3,\"width\":1,\"items\":[1],\"takes\":1,\"close\":false,\"schedule\":\"P8C10\",\"oracle\":\"1\"}";

const PLAIN_CALLS: &str = "queue 1\nP put 1\nP stored\nC take\nC item 1\n";

// A run whose result does not depend on the schedule of its threads: no call is made.
const HELD: &[&str] = &[
    "lamport_ring",
    "run",
    "--capacity=1",
    "--modulus=3",
    "--width=1",
    "--count=3",
    "--limit=0",
];

// One that takes until a take returns Closed.
const RELAY: &[&str] = &[
    "lamport_ring",
    "run",
    "--capacity=1",
    "--modulus=3",
    "--width=6",
    "--count=8",
    "--limit=1000000000",
];

// One with numbers that make no shape.
const RUN_OF_NO_RING: &[&str] = &[
    "lamport_ring",
    "run",
    "--capacity=0",
    "--modulus=3",
    "--width=1",
    "--count=3",
    "--limit=0",
];

const HELP: &[&str] = &["lamport_ring", "--help"];

const VERSION: &[&str] = &["lamport_ring", "--version"];

#[test]
fn stops_at_a_failed_read(rt: HostRuntime) {
    let trace = INVERSION.as_bytes();
    expect_failed_reads(&rt, BITS, trace, ErrorKind::Other, "lawful\n");
    expect_failed_reads(&rt, BITS, trace, ErrorKind::Interrupted, "lawful\n");
    let script = PLAIN.as_bytes();
    let found = "lawful\nput 1\ntaken 1\ntold no\n";
    expect_failed_reads(&rt, AUDIT, PLAIN_TRACE.as_bytes(), ErrorKind::Other, found);
    expect_failed_reads(&rt, PLAY, script, ErrorKind::Other, PLAIN_REPORT);
}

#[test]
fn stops_at_a_failed_write_or_flush(rt: HostRuntime) {
    let stale = STALE.as_bytes();
    expect_failed_writes(&rt, BITS, stale, 3, "fault: line 3: not permitted\n".len());
    let found = "lawful\nput 1\ntaken 1\ntold no\n".len();
    expect_failed_writes(&rt, AUDIT, PLAIN_TRACE.as_bytes(), 0, found);
    expect_failed_writes(&rt, PLAY, PLAIN.as_bytes(), 0, PLAIN_REPORT.len());
    expect_failed_writes(&rt, TRACE, PLAIN.as_bytes(), 0, PLAIN_TRACE.len());
    expect_failed_writes(&rt, CALLS, PLAIN.as_bytes(), 0, PLAIN_CALLS.len());
    expect_failed_writes(&rt, RELAY, b"", 0, "put 8\ntaken 8\nclosed yes\n".len());
    expect_failed_writes(&rt, VERSION, b"", 0, "lamport_ring 0.1.0\n".len());
    expect_written(&rt, HELP, b"", HaltingWriter::after(100), 1, 100);
}

#[test]
fn reads_nothing_where_nothing_is_asked(rt: HostRuntime) {
    let input = HaltingReader {
        bytes: b"",
        reads_before: 0,
        kind: ErrorKind::Other,
    };
    expect_read(&rt, VERSION, input, 0, "lamport_ring 0.1.0\n", "");
    let input = HaltingReader {
        bytes: b"",
        reads_before: 0,
        kind: ErrorKind::Other,
    };
    expect_read(&rt, RELAY, input, 0, "put 8\ntaken 8\nclosed yes\n", "");
}

static UNHEARD: [Unheard; 7] = [
    (AUDIT, STALE, 3, ""),
    (
        AUDIT,
        "x",
        1,
        "refused: trace line 1 is not a line of the format\n  line 1 has no line feed at its end: \"x\"\n",
    ),
    (PLAY, PLAIN, 0, ""),
    (
        PLAY,
        "",
        1,
        "refused: script is not JSON\n  there is no text: a script is a JSON object, lamport_ring play --help shows one\n",
    ),
    (
        &["lamport_ring", "audit", "--bits", "--calls"],
        "",
        2,
        "error: an audit is of bits or of calls: --bits and --calls do not go together\n\nFor more information, try '--help'.\n",
    ),
    (
        RUN_OF_NO_RING,
        "",
        1,
        "refused: capacity must be from 1 to 64\n",
    ),
    (HELD, "", 1, "refused: limit reached\n"),
];

#[test]
fn says_that_standard_error_failed(rt: HostRuntime) {
    // at the first byte, at the last of the shortest line, after it, at the first of the line with the cause, and within it
    expect_unheard(&rt, 0, &UNHEARD);
    expect_unheard(&rt, 22, &UNHEARD);
    expect_unheard(&rt, 23, &UNHEARD);
    expect_unheard(&rt, 50, &UNHEARD);
    expect_unheard(&rt, 60, &UNHEARD);
    expect_unheard(&rt, 1000, &UNHEARD);
    expect_unflushed(&rt, &UNHEARD[5]);
    expect_unflushed(&rt, &UNHEARD[6]);
}

static TOLD: [Told; 4] = [
    (
        AUDIT_CALLS,
        "queue 1\nP put 1",
        "refused: calls line 2 is not a line of the format\n  line 2 has no line feed at its end: \"P put 1\"\n",
    ),
    (
        AUDIT,
        "shape 1 3 1\nP read r0\nP got r0\n",
        "refused: trace line 3 is not a line of the format\n  line 3 is none of: S read BIT, S got BIT V, S write BIT V, S wrote BIT: \"P got r0\"\n",
    ),
    (
        PLAY,
        "{",
        "refused: script is not JSON\n  EOF while parsing at line 1 column 1\n",
    ),
    (
        TRACE,
        "{\"capacity\":1,\"modulus\":3,\"width\":1,\"items\":[1],\"takes\":1,\"close\":false,\"schedule\":\"P8C10\",\"oracle\":\"1x\"}",
        "refused: oracle is wrong at byte 1\n  byte 1 of oracle is \"x\"\n",
    ),
];

#[test]
fn a_cause_takes_no_status_away(rt: HostRuntime) {
    expect_told_at_each_growth(&rt, &TOLD);
}

static GROWING: [Growing; 5] = [
    // the input, the events and the text
    (BITS, STALE, 3, 3),
    (BITS, INVERSION, 0, 3),
    // the input, the events, the items put, the items taken and the text
    (AUDIT, PLAIN_TRACE, 0, 5),
    (AUDIT, STALE, 3, 3),
    // the text of help
    (HELP, "", 0, 1),
];

#[test]
fn the_program_refuses_at_each_growth(rt: HostRuntime) {
    expect_refused_growths(&rt, &GROWING);
}

#[test]
fn a_play_is_refused_or_right_at_each_growth(rt: HostRuntime) {
    // the input, the items, the letters, the oracle, the events, the items taken and the text
    expect_refused_or_right(&rt, PLAY, PLAIN.as_bytes(), PLAIN_REPORT, 7);
    expect_refused_or_right(&rt, TRACE, PLAIN.as_bytes(), PLAIN_TRACE, 7);
    // the input, the items, the letters, the recorded calls and the text
    expect_refused_or_right(&rt, CALLS, PLAIN.as_bytes(), PLAIN_CALLS, 5);
}

#[test]
fn a_run_is_refused_or_right_at_each_growth(rt: HostRuntime) {
    // the items, the words of the ring, the items taken and the text
    expect_refused_or_right(&rt, RELAY, b"", "put 8\ntaken 8\nclosed yes\n", 4);
}

#[test]
fn each_call_refuses_at_each_growth(rt: HostRuntime) {
    expect_refused_load(&rt, STALE.as_bytes());
    expect_refused_trace(&rt, INVERSION.as_bytes());
    let kind = Kind::NotPermitted;
    expect_refused_report(&rt, &[1, 0, u64::MAX]);
    expect_refused_text(&rt, &Verdict::Fault { place: 7, kind });
    expect_refused_finding(&rt, &[1, 0], &[u64::MAX]);
}
