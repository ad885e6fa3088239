//! What `run` prints.

use crate::tests::expects::{
    Reported, expect_relay_reports, expect_relay_text, expect_reported_runs, expect_runs,
};

const ALL: &str = "put 64\ntaken 64\nclosed yes\n";

const LIMIT: &str = "refused: limit reached\n";

// What follows the options of the shape, the status, the output and the standard error.
static RUNS: [(&str, u8, &str, &str); 13] = [
    ("--count 64 --limit 1000000000", 0, ALL, ""),
    ("--count 64 --limit 1000000000 --ring flicker", 0, ALL, ""),
    (
        "--count 64 --limit 18446744073709551615 --ring=counter",
        0,
        ALL,
        "",
    ),
    (
        "--count 2 --limit 5 --takes 0 --ring counter",
        1,
        "put 1\ntaken 0\nclosed no\n",
        LIMIT,
    ),
    // no put and no take
    (
        "--count 3 --limit 0",
        1,
        "put 0\ntaken 0\nclosed no\n",
        LIMIT,
    ),
    // the putter closes, and the taker makes no call
    (
        "--count 0 --limit 0",
        1,
        "put 0\ntaken 0\nclosed no\n",
        LIMIT,
    ),
    // one item is put, and the ring stays full
    (
        "--count 2 --limit 5 --takes 0",
        1,
        "put 1\ntaken 0\nclosed no\n",
        LIMIT,
    ),
    // the taker has finished, so the putter ends, with more calls allowed than a test makes
    (
        "--count 2 --limit 18446744073709551615 --takes 0",
        1,
        "put 1\ntaken 0\nclosed no\n",
        LIMIT,
    ),
    // no item, and takes until the close is seen
    (
        "--count 0 --limit 0 --takes 1000000000",
        0,
        "put 0\ntaken 0\nclosed yes\n",
        "",
    ),
    (
        "--count 1 --limit 1 --batch 0",
        1,
        "",
        "refused: batch must be from 1 to capacity\n",
    ),
    (
        "--count 1 --limit 1 --batch=2",
        1,
        "",
        "refused: batch must be from 1 to capacity\n",
    ),
    (
        "--count 1 --limit 1 --take-batch=2",
        1,
        "",
        "refused: take batch must be from 1 to capacity\n",
    ),
    (
        "--count 1 --limit 1 --take-batch 0",
        1,
        "",
        "refused: take batch must be from 1 to capacity\n",
    ),
];

#[test]
fn relays_items_through_two_threads(rt: HostRuntime) {
    expect_runs(
        &rt,
        "lamport_ring run --capacity 1 --modulus 3 --width 6",
        &RUNS,
    );
}

static BATCHED_RUNS: [(&str, u8, &str, &str); 5] = [
    ("--count 64 --limit 1000000000", 0, ALL, ""),
    (
        "--count 64 --limit 18446744073709551615 --ring counter",
        0,
        ALL,
        "",
    ),
    // takes of several, on both rings
    ("--count=64 --limit=1000000000 --take-batch=3", 0, ALL, ""),
    (
        "--count=64 --limit=1000000000 --take-batch=2 --ring=counter",
        0,
        ALL,
        "",
    ),
    // a limit of takes counts the items that they bring
    (
        "--count=3 --limit=1000000000 --takes=0 --take-batch=3",
        1,
        "put 3\ntaken 0\nclosed no\n",
        LIMIT,
    ),
];

#[test]
fn relays_batches(rt: HostRuntime) {
    expect_runs(
        &rt,
        "lamport_ring run --capacity 3 --modulus 7 --width 6 --batch 3",
        &BATCHED_RUNS,
    );
}

// Each of the widest items is its number.
static WIDE_RUNS: [(&str, u8, &str, &str); 1] = [(
    "--count 20 --limit 1000000000",
    0,
    "put 20\ntaken 20\nclosed yes\n",
    "",
)];

#[test]
fn relays_the_widest_items(rt: HostRuntime) {
    expect_runs(
        &rt,
        "lamport_ring run --capacity 2 --modulus 4 --width 64",
        &WIDE_RUNS,
    );
}

#[test]
fn relays_have_their_text(rt: HostRuntime) {
    expect_relay_text(
        &rt,
        u64::MAX,
        &[],
        false,
        "put 18446744073709551615\ntaken 0\nclosed no\n",
    );
    expect_relay_text(&rt, 2, &[5, 6], true, "put 2\ntaken 2\nclosed yes\n");
}

// The result of a relay, the time that it took, and the text.
macro_rules! reported {
    (put $put:literal, calls $calls:literal, full $full:literal, taken $taken:expr, empty $empty:literal,
     closed $closed:literal, $nanos:expr; $text:literal) => {
        Reported {
            put: $put,
            calls: $calls,
            full: $full,
            taken: &$taken,
            empty: $empty,
            closed: $closed,
            nanos: $nanos,
            text: $text,
        }
    };
}

static REPORTS: [Reported; 6] = [
    reported!(put 3, calls 10, full 7, taken [5, 6, 5], empty 4, closed true, Some(2_000_000_000);
        "put 3\ntaken 3\nclosed yes\ncalls 10\nfull 7\nempty 4\nitems a second 1\n"),
    reported!(put 2, calls 1, full 0, taken [5], empty 0, closed false, Some(1);
        "put 2\ntaken 1\nclosed no\ncalls 1\nfull 0\nempty 0\nitems a second 1000000000\n"),
    reported!(put 2, calls 2, full 0, taken [5, 6], empty 9, closed true, Some(3);
        "put 2\ntaken 2\nclosed yes\ncalls 2\nfull 0\nempty 9\nitems a second 666666666\n"),
    reported!(put 18446744073709551615, calls 18446744073709551614, full 18446744073709551613, taken [], empty 18446744073709551612, closed false, Some(18446744073709551615);
        "put 18446744073709551615\ntaken 0\nclosed no\ncalls 18446744073709551614\nfull 18446744073709551613\nempty 18446744073709551612\nitems a second 0\n"),
    // no time passed
    reported!(put 1, calls 1, full 0, taken [1], empty 0, closed true, Some(0);
        "put 1\ntaken 1\nclosed yes\ncalls 1\nfull 0\nempty 0\nitems a second unknown\n"),
    // the clock returned none
    reported!(put 1, calls 1, full 0, taken [1], empty 0, closed true, None;
        "put 1\ntaken 1\nclosed yes\ncalls 1\nfull 0\nempty 0\nitems a second unknown\n"),
];

#[test]
fn reports_of_relays_have_their_text(rt: HostRuntime) {
    expect_relay_reports(&rt, &REPORTS);
}

const COUNTS: &[&str] = &["calls", "full", "empty", "items a second"];

static REPORTED: [(&str, u8, &str, &[&str]); 3] = [
    (
        "lamport_ring run --capacity=3 --modulus=7 --width=6 --batch=3 --count=64 --limit=1000000000 --report",
        0,
        ALL,
        COUNTS,
    ),
    (
        "lamport_ring run --report --ring=counter --capacity=3 --modulus=5 --width=6 --count=64 --limit=1000000000",
        0,
        ALL,
        COUNTS,
    ),
    // one item is put, the other put finds the ring full, and no take is made
    (
        "lamport_ring run --report --capacity=1 --modulus=3 --width=6 --count=2 --limit=2 --takes=0",
        1,
        "put 1\ntaken 0\nclosed no\ncalls 2\nfull 1\nempty 0\n",
        &["items a second"],
    ),
];

#[test]
fn runs_tell_their_report(rt: HostRuntime) {
    expect_reported_runs(&rt, &REPORTED);
}
