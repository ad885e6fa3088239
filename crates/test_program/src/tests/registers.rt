//! What `audit --register` prints.

use crate::tests::expects::{expect_refusals, expect_run_on, expect_verdicts};
use crate::tests::failure_expects::expect_read;
use crate::tests::fakes::HaltingReader;
use std::io::ErrorKind;

const REGISTER: &[&str] = &["lamport_ring", "audit", "--register"];

const STOP: &[&str] = &["lamport_ring", "audit", "--register", "--stop"];

const REPORT: &[&str] = &["lamport_ring", "audit", "--register", "--report"];

const REGULAR: &[&str] = &[
    "lamport_ring",
    "audit",
    "--register",
    "--at-least",
    "regular",
];

const SAFE: &[&str] = &["lamport_ring", "audit", "--register", "--at-least=safe"];

const BY_READER: &[&str] = &[
    "lamport_ring",
    "audit",
    "--register",
    "--at-least",
    "atomic-by-reader",
];

const BACK: &str = "register 0 4\nW write 1\nR1 read\nR1 got 1\nR1 read\nR1 got 0\n";

const BACK_FOUND: &str =
    "regular\nnot atomic: line 6: R1 got 0, but a read of R1 that ended at line 4 gave the later value 1, of line 2\n";

const TWO: &str = "register 0\nW write 1\nR1 read\nR1 got 1\nR2 read\nR2 got 0\n";

const TWO_FOUND: &str =
    "atomic by reader\nnot atomic: line 6: R2 got 0, but a read of R1 that ended at line 4 gave the later value 1, of line 2\n";

// By whether the reading stops at the first line at which the history is not atomic or not, the finding is the same.
static FOUND: [(&str, u8, &str); 12] = [
    ("register 0\n", 0, "atomic\n"),
    ("cut register 0 1\n", 0, "atomic\ncut yes\n"),
    (
        "register 0\nW write 7\nR64 read\nR64 got 7\n",
        0,
        "atomic\n",
    ),
    (BACK, 3, BACK_FOUND),
    (TWO, 3, TWO_FOUND),
    (
        "register 0\nR1 read\nR1 got 3\n",
        3,
        "not safe\nnot safe: line 3: R1 got 3, but no write overlapped the read, and the register held 0 since the start\n",
    ),
    (
        "register 0\nW write 4\nW wrote\nR2 read\nR2 got 0\n",
        3,
        "not safe\nnot safe: line 5: R2 got 0, but no write overlapped the read, and the register held 4 since line 3\n",
    ),
    (
        "cut register 0 4\nW write 1\nR1 read\nR1 got 7\n",
        3,
        "not safe\nnot safe: line 4: R1 got 7, which is no value of the register\ncut yes\n",
    ),
    (
        "register 0 4\nW write 1\nR1 read\nR1 got 3\n",
        3,
        "safe\nnot regular: line 4: R1 got 3, but neither the last write before the read nor one that overlapped it wrote 3\n",
    ),
    // a value that was written twice: two reads show why the first one is of no earlier write
    (
        "register 0\nW write 1\nR1 read\nR1 got 1\nR2 read\nW wrote\nW write 0\nR2 got 0\nR3 read\nR3 got 1\n",
        3,
        "atomic by reader\nnot atomic: line 10: R3 got 1, but a read of R2 that ended at line 8 gave the later value 0, of line 7; for the read of R1 that ended at line 4 can be of no write before that of line 2\n",
    ),
    ("register 0\nW wrote\n", 3, "fault: line 2: out of turn\n"),
    (
        "cut register 0\nR1 read\nR1 read\n",
        3,
        "fault: line 3: out of turn\n",
    ),
];

#[test]
fn judges_recorded_registers(rt: HostRuntime) {
    expect_verdicts(&rt, REGISTER, &FOUND);
    expect_verdicts(&rt, STOP, &FOUND);
}

// Each class has its own line, if it is missed at another one.
static ALL_MISSED: [(&str, u8, &str); 1] = [(
    "register 0 4\nW write 1\nR1 read\nR1 got 1\nR2 read\nR2 got 0\nR1 read\nR1 got 0\nR1 read\nR1 got 3\nW wrote\nR1 read\nR1 got 2\n",
    3,
    "not safe\nnot safe: line 13: R1 got 2, but no write overlapped the read, and the register held 1 since line 11\nnot regular: line 10: R1 got 3, but neither the last write before the read nor one that overlapped it wrote 3\nnot atomic by reader: line 8: R1 got 0, but a read of R1 that ended at line 4 gave the later value 1, of line 2\nnot atomic: line 6: R2 got 0, but a read of R1 that ended at line 4 gave the later value 1, of line 2\n",
)];

#[test]
fn says_of_each_class_where_it_is_missed(rt: HostRuntime) {
    expect_verdicts(&rt, REGISTER, &ALL_MISSED);
}

#[test]
fn ends_by_the_class_that_is_asked_for(rt: HostRuntime) {
    expect_verdicts(&rt, REGULAR, &[(BACK, 0, BACK_FOUND), (TWO, 0, TWO_FOUND)]);
    expect_verdicts(
        &rt,
        SAFE,
        &[
            (BACK, 0, BACK_FOUND),
            ("register 0\nW wrote\n", 3, "fault: line 2: out of turn\n"),
        ],
    );
    expect_verdicts(
        &rt,
        BY_READER,
        &[(BACK, 3, BACK_FOUND), (TWO, 0, TWO_FOUND)],
    );
}

const REPORTED: &str = "atomic\nwrites 1\nreads 2\noverlapped 2\nby several 0\ncould invert 1\n";

const REPORTED_NONE: &str =
    "atomic\nwrites 0\nreads 1\noverlapped 0\nby several 0\ncould invert 0\nthis recording cannot tell a regular register from an atomic one\ncut yes\n";

#[test]
fn reports_what_a_recording_could_have_shown(rt: HostRuntime) {
    expect_verdicts(
        &rt,
        REPORT,
        &[
            (
                "register 0\nW write 1\nR1 read\nR1 got 1\nR2 read\nR2 got 1\n",
                0,
                REPORTED,
            ),
            ("cut register 0\nR1 read\nR1 got 0\n", 0, REPORTED_NONE),
        ],
    );
}

// After the first line at which the history is not atomic nothing is read.
static STOPPED: [(&str, u8, &str); 3] = [
    (
        "register 0 4\nW write 1\nR1 read\nR1 got 1\nR1 read\nR1 got 0\nnonsense\n",
        3,
        BACK_FOUND,
    ),
    (
        "register 0 4\nW write 1\nR1 read\nR1 got 1\nR1 read\nR1 got 0\nW wro",
        3,
        BACK_FOUND,
    ),
    (
        "register 0\nW wrote\n\u{ff}\n",
        3,
        "fault: line 2: out of turn\n",
    ),
];

#[test]
fn stops_at_the_first_line_that_misses_the_class(rt: HostRuntime) {
    expect_verdicts(&rt, STOP, &STOPPED);
}

#[test]
fn reads_no_more_than_it_has_to(rt: HostRuntime) {
    let bytes = b"register 0\nW wrote\nnonsense\n";
    let halting = HaltingReader {
        bytes,
        reads_before: 19,
        kind: ErrorKind::Other,
    };
    expect_read(&rt, STOP, halting, 3, "fault: line 2: out of turn\n", "");
    expect_run_on(
        &rt,
        REGISTER,
        &mut bytes.as_slice(),
        1,
        "",
        "refused: register line 3 is not a line of the format\n  line 3 begins with neither W nor R: \"nonsense\"\n",
    );
}

static BAD: [(&[u8], &str); 14] = [
    (
        b"",
        "refused: register line 1 is not a line of the format\n  there is no text: line 1 is to be: register FIRST\n",
    ),
    (
        b"shape 1 3 1\n",
        "refused: register line 1 is not a line of the format\n  it looks like a trace: lamport_ring audit reads it\n",
    ),
    (
        b"queue 1\n",
        "refused: register line 1 is not a line of the format\n  it looks like recorded calls: lamport_ring audit --calls reads them\n",
    ),
    (
        b"{}",
        "refused: register line 1 is not a line of the format\n  it looks like a script: lamport_ring play reads it\n",
    ),
    (
        b"register 3 3\n",
        "refused: register line 1 is not a line of the format\n  line 1 has a first value that is not below the number of values: \"register 3 3\"\n",
    ),
    (
        b"register\n",
        "refused: register line 1 is not a line of the format\n  line 1 is none of: [cut] register FIRST, [cut] register FIRST VALUES: \"register\"\n",
    ),
    (
        b"register 0 4\nW write 4\n",
        "refused: register line 2 is not a line of the format\n  line 2 writes a number that is no value of the register: \"W write 4\"\n",
    ),
    (
        b"register 0\nW writes 4\n",
        "refused: register line 2 is not a line of the format\n  line 2 is none of: W write V, W wrote: \"W writes 4\"\n",
    ),
    (
        b"register 0\nR65 read\n",
        "refused: register line 2 is not a line of the format\n  line 2 is none of: Ri read, Ri got V, with i from 1 to 64: \"R65 read\"\n",
    ),
    (
        b"register 0\nR1 got 00\n",
        "refused: register line 2 is not a line of the format\n  line 2 has a number that is not from 0 to 18446744073709551615, or begins with 0: \"R1 got 00\"\n",
    ),
    (
        b"register 0\nP put 1\n",
        "refused: register line 2 is not a line of the format\n  line 2 begins with neither W nor R: \"P put 1\"\n",
    ),
    (
        b"register 0\nR1 read",
        "refused: register line 2 is not a line of the format\n  line 2 has no line feed at its end: \"R1 read\"\n",
    ),
    (
        b"register 0\r\n",
        "refused: register line 1 is not a line of the format\n  line 1 ends in a carriage return: \"register 0\\r\"\n",
    ),
    (
        b"register 0\nW wrote\nR1 reads\n",
        "refused: register line 3 is not a line of the format\n  line 3 is none of: Ri read, Ri got V, with i from 1 to 64: \"R1 reads\"\n",
    ),
];

#[test]
fn says_what_is_wrong_in_a_recorded_register(rt: HostRuntime) {
    expect_refusals(&rt, &[REGISTER], &BAD);
}
