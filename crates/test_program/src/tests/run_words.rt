//! The command line of `run`, and its help.

use crate::tests::expects::{
    expect_refused_runs, expect_statuses, expect_unread, expect_words, expect_wrong, words_of,
};
use std::alloc::AllocGlobal;
use std::process::Abort;
use std::thread::Threads;
use std::time::Clock;

static STATUSES: [(&str, u8); 8] = [
    ("lamport_ring run", 2),
    (
        "lamport_ring run --capacity 1 --modulus 3 --width 1 --count 1",
        2,
    ),
    (
        "lamport_ring run --capacity 1 --modulus 3 --width 1 --count 1000001 --limit 1",
        2,
    ),
    (
        "lamport_ring run --capacity x --modulus 3 --width 1 --count 1 --limit 1",
        2,
    ),
    (
        "lamport_ring run --capacity 18446744073709551616 --modulus 3 --width 1 --count 1 --limit 1",
        2,
    ),
    (
        "lamport_ring run --capacity 1 --capacity 1 --modulus 3 --width 1 --count 1 --limit 1",
        2,
    ),
    ("lamport_ring run -h", 0),
    ("lamport_ring help run", 0),
];

#[test]
fn reads_the_options_of_run(rt: HostRuntime) {
    expect_statuses(&rt, &STATUSES);
}

const RUN_HELP: &str = "lamport_ring run --help";

const EXAMPLE: &str =
    "  lamport_ring run --capacity 1 --modulus 3 --width 6 --count 64 \\\n    --limit 1000000000\n";

const REQUIRED: &str = "error: the following required arguments were not provided:\n";

static WORDS: [(&str, u8, &[&str]); 3] = [
    ("lamport_ring --help", 0, &[EXAMPLE]),
    (
        RUN_HELP,
        0,
        &[
            EXAMPLE,
            "Usage: lamport_ring run --capacity B --modulus M --width W --count N --limit L\n       [--takes T] [--batch G] [--take-batch H] [--ring RING]\n       [--report | --record]\n",
            "  M  the modulus of its counts, at least B + G + 1 and B + H + 1, at most 256\n",
            "Every call of put or take counts towards its limit, also one that finds the ring\nfull or empty; a take that returns several items counts once for each.",
            "  0  a take returned Closed: all items were put and taken\n",
            "  2  the command line is wrong\n",
        ],
    ),
    ("lamport_ring run", 2, &[REQUIRED]),
];

#[test]
fn help_of_run_has_its_words(rt: HostRuntime) {
    expect_words(&rt, &WORDS);
}

// What follows a count and a limit, and why it is refused.
static SHAPELESS: [(&str, &str); 3] = [
    (
        "--capacity 1 --modulus 2 --width 6",
        "refused: modulus must be from capacity + batch + 1 to 256\n",
    ),
    (
        "--capacity 18446744073709551615 --modulus 2 --width 6",
        "refused: capacity must be from 1 to 64\n",
    ),
    (
        "--capacity 1 --modulus 3 --width 0",
        "refused: width must be from 1 to 64\n",
    ),
];

#[test]
fn refuses_numbers_of_no_shape(rt: HostRuntime) {
    expect_refused_runs(&rt, "lamport_ring run --count 1 --limit 1", &SHAPELESS);
}

const FRONT: &str = "lamport_ring run --modulus=3 --width=1 --count=1 --limit=1";

// What follows, and how the ring is printed.
static NO_RINGS: [(&str, &str); 6] = [
    ("--capacity=1 --ring torus", "torus"),
    ("--ring=Flicker --capacity=1", "Flicker"),
    // and what is not, with escapes
    (
        "--ring a\tring\u{e9}\u{1f40c}\u{1b}[31m --capacity=1",
        "a\\tring\\u{e9}\\u{1f40c}\\u{1b}[31m",
    ),
    // 80 characters, and one more
    (
        "--ring 01234567890123456789012345678901234567890123456789012345678901234567890123456789 --capacity=1",
        "01234567890123456789012345678901234567890123456789012345678901234567890123456789",
    ),
    (
        "--ring 012345678901234567890123456789012345678901234567890123456789012345678901234567890 --capacity=1",
        "01234567890123456789012345678901234567890123456789012345678901234567890123456789..",
    ),
    // an escape is not cut
    (
        "--ring 0123456789012345678901234567890123456789012345678901234567890123456789012345678\n --capacity=1",
        "0123456789012345678901234567890123456789012345678901234567890123456789012345678..",
    ),
];

// The ring that these words ask for does not exist, and is printed like this.
fn expect_no_ring(
    rt: &(impl Abort + AllocGlobal + Threads + Clock),
    more: &[&'static str],
    named: &str,
) {
    let told = format!(in rt.alloc();
        "error: no ring is called '{named}': a ring is flicker or counter\n\nFor more information, try '--help'.\n"
    );
    let text = told.expect(rt, "memory for the text");
    expect_unread(rt, FRONT, more, 2, "", text.as_str());
}

#[test]
fn names_a_ring_that_there_is_not(rt: HostRuntime) {
    for (more, named) in NO_RINGS.iter() {
        let words = words_of(&rt, more);
        expect_no_ring(&rt, words.as_slice(), named);
    }
    // a word that has no character, or spaces: printable ASCII as it is
    for ring in ["", "it's a \\ ring"] {
        expect_no_ring(&rt, &["--ring", ring, "--capacity=1"], ring);
    }
}

// What follows, and the complaint.
static SIGNED: [(&str, &str); 6] = [
    (
        "--capacity -1",
        "invalid value '-1' for '--capacity <B>': a number has no minus sign",
    ),
    (
        "--capacity=1 --takes -18446744073709551616",
        "invalid value '-18446744073709551616' for '--takes <T>': a number has no minus sign",
    ),
    (
        "--capacity=1 --batch -0\u{7}",
        "invalid value '-0\\u{7}' for '--batch <G>': a number has no minus sign",
    ),
    // the parser's own words
    (
        "--capacity=-1",
        "invalid value '-1' for '--capacity <B>': invalid digit found in string",
    ),
    (
        "--capacity 18446744073709551616",
        "invalid value '18446744073709551616' for '--capacity <B>': number too large to fit in target type",
    ),
    (
        "--capacity x",
        "invalid value 'x' for '--capacity <B>': invalid digit found in string",
    ),
];

#[test]
fn names_a_number_that_is_none(rt: HostRuntime) {
    for (more, complaint) in SIGNED.iter() {
        expect_wrong(&rt, FRONT, more, complaint);
    }
}
