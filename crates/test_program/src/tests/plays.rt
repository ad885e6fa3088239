//! What `play` prints.

use crate::tests::expects::{
    expect_calls, expect_lawful_plays, expect_plays, expect_refusal_words, expect_report,
};
use bits_core::ShapeFault;
use ring_player::ScriptFault;
use ring_program::{AppFault, Refusal};

const PLAIN: &str =
    "{\"capacity\":1,\"modulus\":3,\"width\":1,\"items\":[1],\"takes\":1,\"close\":false,\"schedule\":\"P8C10\",\"oracle\":\"\"}";

pub const PLAIN_REPORT: &str = "events 18\nput 1\ntaken 1\ntold no\nfull 0\nempty 0\nflicker 0\n";

pub const PLAIN_TRACE: &str =
    "shape 1 3 1\nP read r0\nP got r0 1\nP write c0.0 1\nP wrote c0.0\nP write s1 1\nP wrote s1\nP write s0 0\nP wrote s0\nC read s0\nC got s0 0\nC read s1\nC got s1 1\nC read c0.0\nC got c0.0 1\nC write r1 1\nC wrote r1\nC write r0 0\nC wrote r0\n";

const SEEN_OLD: &str =
    "{\"capacity\":1,\"modulus\":3,\"width\":1,\"items\":[1],\"takes\":2,\"close\":false,\"schedule\":\"P7C14\",\"oracle\":\"01\"}";

const SEEN_OLD_TRACE: &str =
    "shape 1 3 1\nP read r0\nP got r0 1\nP write c0.0 1\nP wrote c0.0\nP write s1 1\nP wrote s1\nP write s0 0\nC read s0\nC got s0 0\nC read s1\nC got s1 1\nC read c0.0\nC got c0.0 1\nC write r1 1\nC wrote r1\nC write r0 0\nC wrote r0\nC read s0\nC got s0 1\nC read x\nC got x 0\n";

const BATCH: &str =
    "{\"capacity\":3,\"modulus\":7,\"width\":1,\"items\":[1,0,1],\"takes\":4,\"close\":false,\"schedule\":\"P11C46\",\"oracle\":\"0001\",\"batch\":3}";

const CLOSED: &str =
    "{\"capacity\":1,\"modulus\":3,\"width\":1,\"items\":[1],\"takes\":2,\"close\":true,\"schedule\":\"C2P10C22\",\"oracle\":\"\"}";

static PLAYS: [(&str, &str, Option<&str>); 9] = [
    (PLAIN, PLAIN_REPORT, Some(PLAIN_TRACE)),
    // a script without a batch has a batch of 1
    (
        "{\"capacity\":1,\"modulus\":3,\"width\":1,\"items\":[1],\"takes\":1,\"close\":false,\"schedule\":\"P8C10\",\"oracle\":\"\",\"batch\":1}",
        PLAIN_REPORT,
        Some(PLAIN_TRACE),
    ),
    // a count write is open to the end: the first scan sees the new count, a later one the old
    (
        SEEN_OLD,
        "events 21\nput 1\ntaken 1\ntold no\nfull 0\nempty 1\nflicker 2\n",
        Some(SEEN_OLD_TRACE),
    ),
    // no letter: no event, and empty lists
    (
        "{\"capacity\":1,\"modulus\":3,\"width\":1,\"items\":[1],\"takes\":1,\"close\":false,\"schedule\":\"\",\"oracle\":\"\"}",
        "events 0\nput\ntaken\ntold no\nfull 0\nempty 0\nflicker 0\n",
        Some("shape 1 3 1\n"),
    ),
    (
        "{\"capacity\":1,\"modulus\":3,\"width\":1,\"items\":[1,1],\"takes\":0,\"close\":false,\"schedule\":\"P10\",\"oracle\":\"\"}",
        "events 10\nput 1\ntaken\ntold no\nfull 1\nempty 0\nflicker 0\n",
        None,
    ),
    // Closed, after the item that the second scan found
    (
        CLOSED,
        "events 34\nput 1\ntaken 1\ntold yes\nfull 0\nempty 0\nflicker 0\n",
        None,
    ),
    // a third put finds two cells full, and stores once an item has been taken
    (
        "{\"capacity\":2,\"modulus\":4,\"width\":2,\"items\":[2,1,3],\"takes\":1,\"close\":false,\"schedule\":\"P22C14P12\",\"oracle\":\"\"}",
        "events 48\nput 2 1 3\ntaken 2\ntold no\nfull 1\nempty 0\nflicker 0\n",
        None,
    ),
    // three items under one count write
    (
        BATCH,
        "events 57\nput 1 0 1\ntaken 1 0 1\ntold no\nfull 0\nempty 1\nflicker 4\n",
        None,
    ),
    // the side that is done makes no event
    (
        "{\"capacity\":1,\"modulus\":3,\"width\":1,\"items\":[1],\"takes\":2,\"close\":true,\"schedule\":\"C2P10C22P3C5\",\"oracle\":\"\"}",
        "events 34\nput 1\ntaken 1\ntold yes\nfull 0\nempty 0\nflicker 0\n",
        None,
    ),
];

#[test]
fn tells_the_report_and_the_trace_of_a_play(rt: HostRuntime) {
    expect_plays(&rt, &PLAYS);
}

static CALLS: [(&str, &str); 10] = [
    (PLAIN, "queue 1\nP put 1\nP stored\nC take\nC item 1\n"),
    // no letter: no call
    (
        "{\"capacity\":1,\"modulus\":3,\"width\":1,\"items\":[1],\"takes\":1,\"close\":false,\"schedule\":\"\",\"oracle\":\"\"}",
        "queue 1\n",
    ),
    // a put is under way to the end: its item is taken, and then a take finds none
    (
        SEEN_OLD,
        "queue 1\nP put 1\nC take\nC item 1\nC take\nC empty\n",
    ),
    // a put finds the ring full
    (
        "{\"capacity\":1,\"modulus\":3,\"width\":1,\"items\":[1,1],\"takes\":0,\"close\":false,\"schedule\":\"P10\",\"oracle\":\"\"}",
        "queue 1\nP put 1\nP stored\nP put 1\nP full\n",
    ),
    // a batch that is stored, one that is cut short, and one that finds the ring full: it offers what is left
    (
        "{\"capacity\":3,\"modulus\":6,\"width\":1,\"items\":[1,0,1,1],\"takes\":0,\"close\":false,\"schedule\":\"P20\",\"oracle\":\"\",\"batch\":2}",
        "queue 3\nP put 1 0\nP stored\nP put 1 1\nP stored 1\nP put 1\nP full\n",
    ),
    // a take of two items, a put that finds the ring full during it, and one that finds both cells free
    (
        "{\"capacity\":2,\"modulus\":5,\"width\":1,\"items\":[1,0,1],\"takes\":2,\"close\":false,\"schedule\":\"P16C13P14C1\",\"oracle\":\"10\",\"take_batch\":2}",
        "queue 2\nP put 1\nP stored\nP put 0\nP stored\nC take 2\nP put 1\nP full\nP put 1\nP stored\nC item 1 0\n",
    ),
    // a batch whose put does not end
    (
        BATCH,
        "queue 3\nP put 1 0 1\nC take\nC item 1\nC take\nC item 0\nC take\nC item 1\nC take\nC empty\n",
    ),
    // a take that begins before the put, and one that returns Closed
    (
        CLOSED,
        "queue 1\nC take\nP put 1\nP stored\nP close\nP closed\nC item 1\nC take\nC closed\n",
    ),
    // a close that does not end, and a take that is cut
    (
        "{\"capacity\":1,\"modulus\":3,\"width\":1,\"items\":[],\"takes\":1,\"close\":true,\"schedule\":\"P1C5\",\"oracle\":\"1\"}",
        "queue 1\nP close\nC take\n",
    ),
    // a take that is cut when its item is gone: the next put finds room
    (
        "{\"capacity\":1,\"modulus\":3,\"width\":1,\"items\":[1,0,1],\"takes\":2,\"close\":false,\"schedule\":\"P8C9P12\",\"oracle\":\"01\"}",
        "queue 1\nP put 1\nP stored\nC take\nP put 0\nP stored\nP put 1\nP full\n",
    ),
];

#[test]
fn tells_the_calls_of_a_play(rt: HostRuntime) {
    expect_calls(&rt, &CALLS);
}

static FOUND: [(&str, &str); 4] = [
    (PLAIN, "lawful\nput 1\ntaken 1\ntold no\n"),
    (SEEN_OLD, "lawful\nput 1\ntaken 1\ntold no\n"),
    (BATCH, "lawful\nput 1 0 1\ntaken 1 0 1\ntold no\n"),
    (CLOSED, "lawful\nput 1\ntaken 1\ntold yes\n"),
];

#[test]
fn the_trace_of_a_play_is_lawful(rt: HostRuntime) {
    expect_lawful_plays(&rt, &FOUND);
}

#[test]
fn reports_have_their_text(rt: HostRuntime) {
    let text = "events 0\nput\ntaken\ntold no\nfull 0\nempty 0\nflicker 0\n";
    expect_report(&rt, &[], false, (0, 0, 0), text);
    let text =
        "events 0\nput 0 18446744073709551615\ntaken 0 18446744073709551615\ntold yes\nfull 18446744073709551615\nempty 1\nflicker 20\n";
    expect_report(&rt, &[0, u64::MAX], true, (u64::MAX, 1, 20), text);
}

static WORDS: [(Refusal, &str); 4] = [
    (
        Refusal::Script(ScriptFault::BadSchedule(7)),
        "schedule is wrong at byte 7",
    ),
    (Refusal::App(AppFault::OutOfMemory), "out of memory"),
    (
        Refusal::Shape(ShapeFault::Width),
        "width must be from 1 to 64",
    ),
    (Refusal::NoSecondThread, "no second thread"),
];

#[test]
fn refusals_have_the_words_of_their_faults(rt: HostRuntime) {
    expect_refusal_words(&rt, &WORDS);
}
