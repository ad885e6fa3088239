//! The command line, help, version, and the words of verdicts and faults.

use crate::tests::expects::{
    BITS, LONG, expect_faults, expect_of, expect_run_on, expect_statuses, expect_texts,
    expect_verdicts, expect_words, run_in,
};
use bits_core::Kind;
use ring_program::AppFault;

pub const INVERSION: &str =
    "shape 1 3 1\nP write s0 0\nC read s0\nC got s0 1\nC read s0\nC got s0 0\nP wrote s0\nC read s0\nC got s0 0\n";

pub const STALE: &str = "shape 1 3 1\nC read s0\nC got s0 0\n";

static VERDICTS: [(&str, u8, &str); 11] = [
    // a stale read without cause
    (STALE, 3, "fault: line 3: not permitted\n"),
    // two reads during a write: new and then old, old and then new; then each with a stale read
    (INVERSION, 0, "lawful\n"),
    (
        "shape 1 3 1\nP write s0 0\nC read s0\nC got s0 0\nC read s0\nC got s0 1\nP wrote s0\nC read s0\nC got s0 0\n",
        0,
        "lawful\n",
    ),
    (
        "shape 1 3 1\nP write s0 0\nC read s0\nC got s0 0\nC read s0\nC got s0 1\nP wrote s0\nC read s0\nC got s0 1\n",
        3,
        "fault: line 9: not permitted\n",
    ),
    (
        "shape 1 3 1\nP write s0 0\nC read s0\nC got s0 1\nC read s0\nC got s0 0\nP wrote s0\nC read s0\nC got s0 1\n",
        3,
        "fault: line 9: not permitted\n",
    ),
    // an unchanged write flickers
    (
        "shape 1 3 1\nP write s0 1\nC read s0\nC got s0 0\n",
        0,
        "lawful\n",
    ),
    // the count before the cell, for the bits alone
    (
        "shape 1 3 1\nP read r0\nP got r0 1\nP write s1 1\n",
        0,
        "lawful\n",
    ),
    (
        "shape 1 3 1\nP got r0 1\n",
        3,
        "fault: line 2: out of turn\n",
    ),
    ("shape 1 3 1\nP read s0\n", 3, "fault: line 2: wrong side\n"),
    ("shape 1 3 1\n", 0, "lawful\n"),
    (
        "shape 1 3 1\nP read r0\nP read r0\n",
        3,
        "fault: line 3: out of turn\n",
    ),
];

#[test]
fn tells_the_verdict_also_of_a_trace_of_any_length(rt: HostRuntime) {
    for words in [BITS, LONG] {
        expect_verdicts(&rt, words, &VERDICTS);
    }
}

// What the words ask for decides the status.
static STATUSES: [(&str, u8); 31] = [
    ("lamport_ring audit --long", 2),
    ("lamport_ring audit --calls --long", 2),
    ("lamport_ring audit --bits --calls --long", 2),
    ("lamport_ring audit --bits --bits", 2),
    ("lamport_ring audit --stop", 2),
    ("lamport_ring audit --bits --stop", 2),
    ("lamport_ring audit --calls --stop --why", 2),
    ("lamport_ring audit --calls --stop=true", 2),
    ("lamport_ring audit --bits=true", 2),
    ("lamport_ring audit x", 2),
    ("lamport_ring audit --trace", 2),
    ("lamport_ring audit --version", 2),
    ("lamport_ring play --bits", 2),
    ("lamport_ring play --trace --trace", 2),
    ("lamport_ring play --trace=true", 2),
    ("lamport_ring play --calls --calls", 2),
    ("lamport_ring play --calls=true", 2),
    ("lamport_ring play --trace --calls", 2),
    ("lamport_ring play --calls --trace", 2),
    ("lamport_ring play x.json", 2),
    ("lamport_ring go", 2),
    ("lamport_ring", 2),
    ("lamport_ring --help", 0),
    ("lamport_ring -h", 0),
    ("lamport_ring help", 0),
    ("lamport_ring help audit", 0),
    ("lamport_ring audit -h", 0),
    ("lamport_ring help play", 0),
    ("lamport_ring play -h", 0),
    ("lamport_ring --version", 0),
    ("lamport_ring -V", 0),
];

#[test]
fn reads_the_command_line(rt: HostRuntime) {
    expect_statuses(&rt, &STATUSES);
    // not even the program's name
    let ended = run_in(&rt, rt.alloc(), &[], &mut b"".as_slice());
    let is_told = ended.out.is_empty() && !ended.err.is_empty();
    expect_of(&rt, ended.status == 2 && is_told, &[]);
}

const HELP: &str = "lamport_ring --help";

const AUDIT_HELP: &str = "lamport_ring audit --help";

const PLAY_HELP: &str = "lamport_ring play --help";

const EXAMPLE: &str = "  lamport_ring audit --bits < examples/new_old_inversion.trace\n";

const AUDIT_EXAMPLE: &str = "  lamport_ring audit < examples/plain_path.trace\n";

const PLAY_EXAMPLE: &str = "  lamport_ring play < examples/plain_path.json\n";

const CALLS_EXAMPLE: &str =
    "  lamport_ring play --calls < examples/plain_path.json | lamport_ring audit --calls\n";

static WORDS: [(&str, u8, &[&str]); 12] = [
    (
        HELP,
        0,
        &[
            EXAMPLE,
            PLAY_EXAMPLE,
            AUDIT_EXAMPLE,
            "  0  done: a script was played, a history is lawful, a run is complete, or the\n     help or the version was printed\n",
            "  1  refused, for the reason on standard error\n",
            "  2  the command line is wrong\n",
            "  3  the audit found a fault\n",
        ],
    ),
    (
        AUDIT_HELP,
        0,
        &[
            EXAMPLE,
            AUDIT_EXAMPLE,
            "Usage: lamport_ring audit [--bits] [--why] < TRACE\n",
            "       lamport_ring audit --calls [--stop] < CALLS\n",
            "With --stop a fault is reported as soon as its line is\nread, and nothing is read after it.",
            "from standard input\n",
            "       lamport_ring audit --register [--at-least CLASS] [--report] [--stop] < REGISTER\n",
            "  2  the command line is wrong\n",
            "  3  the audit found a fault, or the history misses the class\n",
        ],
    ),
    // the name of a file: its trace has to come on standard input
    (
        "lamport_ring audit x.trace",
        2,
        &[
            "error: unexpected argument 'x.trace' found\n\nUsage: lamport_ring audit [--bits] [--why] < TRACE\n",
        ],
    ),
    (
        "lamport_ring go",
        2,
        &["error: unrecognized subcommand 'go'\n"],
    ),
    // bytes that a terminal may take for commands
    (
        "lamport_ring \x1b[31mgo\x07",
        2,
        &["error: unrecognized subcommand '\\x1b[31mgo\\x07'\n"],
    ),
    (
        PLAY_HELP,
        0,
        &[
            PLAY_EXAMPLE,
            "Usage: lamport_ring play [--trace|--calls] < SCRIPT\n",
            CALLS_EXAMPLE,
            "Print the calls as recorded calls instead of the report\n",
            "from standard input\n",
            "  0  the script was played\n",
            "  1  refused: the input is not a script or could not be read, or the output\n     failed\n",
            "  2  the command line is wrong\n",
        ],
    ),
    // the name of a file: its script has to come on standard input
    (
        "lamport_ring play x.json",
        2,
        &[
            "error: unexpected argument 'x.json' found\n\nUsage: lamport_ring play [--trace|--calls] < SCRIPT\n",
        ],
    ),
    (
        "lamport_ring play --trace --calls",
        2,
        &["error: a play prints a trace or its calls: --trace and --calls do not go together\n"],
    ),
    (
        "lamport_ring audit --bits --calls",
        2,
        &["error: an audit is of bits or of calls: --bits and --calls do not go together\n"],
    ),
    (
        "lamport_ring audit --long",
        2,
        &["error: a trace of any length is audited for its bits alone: --long goes with --bits\n"],
    ),
    ("lamport_ring", 2, &["Usage: lamport_ring <COMMAND>\n"]),
    ("lamport_ring -V", 0, &["lamport_ring 0.1.0\n"]),
];

#[test]
fn help_and_complaints_have_their_words(rt: HostRuntime) {
    expect_words(&rt, &WORDS);
}

#[test]
fn tells_its_version(rt: HostRuntime) {
    let words = ["lamport_ring", "--version"];
    expect_run_on(
        &rt,
        &words,
        &mut b"".as_slice(),
        0,
        "lamport_ring 0.1.0\n",
        "",
    );
}

static TEXTS: [(usize, Kind, &str); 5] = [
    (0, Kind::WrongSide, "fault: line 2: wrong side\n"),
    (0, Kind::OutOfTurn, "fault: line 2: out of turn\n"),
    (0, Kind::NotPermitted, "fault: line 2: not permitted\n"),
    (0, Kind::NotProgram, "fault: line 2: not of the program\n"),
    (
        usize::MAX,
        Kind::OutOfTurn,
        "fault: line 18446744073709551617: out of turn\n",
    ),
];

#[test]
fn verdicts_have_their_texts(rt: HostRuntime) {
    expect_texts(&rt, &TEXTS);
}

static FAULTS: [(AppFault, u8, &str); 4] = [
    (AppFault::ReadFailed, 1, "input failed"),
    (AppFault::TooLarge, 2, "input is too large"),
    (AppFault::WriteFailed, 3, "output failed"),
    (AppFault::OutOfMemory, 4, "out of memory"),
];

#[test]
fn faults_have_their_numbers_and_words(rt: HostRuntime) {
    expect_faults(&rt, &FAULTS);
}
