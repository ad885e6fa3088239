//! Plays of near misses: items lost, doubled, or reported too soon.

use crate::tests::play_scripts::{Asked, Numbers, ONE, expect, script_of};
use crate::tests::refusals::{Played, refusals};
use bits_core::{Verdict, audit_bits};
use near_misses::{NearCall, NearFault, NearMiss, play_near};
use queue_calls::Reply;
use refusing::Refusing;
use ring_player::play;
use std::alloc::{AllocGlobal, Global};
use std::process::Abort;

// What a near miss should record of a script, and the items taken.
type Near<'a> = (NearMiss, Numbers, Asked<'a>, &'a [NearCall], &'a [u64]);

// What is recorded, with its reply if it ends a put or a take, and a number in brackets.
macro_rules! call {
    ($call:ident $(($number:literal))?) => {
        NearCall::$call $(($number))?
    };
    ($call:ident $reply:ident $(($number:literal))?) => {
        NearCall::$call(Reply::$reply $(($number))?)
    };
}

// A near miss and a script; what is recorded; and the items taken.
macro_rules! near {
    ($miss:ident, $shape:expr, $asked:expr; $($call:ident $($reply:ident)? $(($number:literal))?),*; $taken:expr) => {
        (NearMiss::$miss, $shape, $asked, &[$(call!($call $($reply)? $(($number))?)),*], $taken)
    };
}

// Two are put and taken, and C's write of 0 to r0 is open. Two more are put by the new count, and the fifth put sees the old one: modulo
// 4 the ring looks empty, and two digits of the fifth item are written over the third when C takes.
const OVERWRITTEN: Asked<'static> = ("[1,2,3,5,4]", 4, false, "P24C21P36C27", "001");

static CASES: [Near<'static>; 9] = [
    // The count write spans the take, which reads the cell before the item is there: 0 for 1.
    near!(CountBeforeCell, ONE, ("[1]", 1, false, "P5C10", "");
        PutBegins(0), TakeBegins(1), TakeEnds Passed(1); &[0]),
    // Item 1 is stored, and the take that began before returns Closed.
    near!(NoSecondScan, ONE, ("[1]", 2, true, "C2P10C2", "");
        TakeBegins(1), PutBegins(0), PutEnds Passed(1), CloseBegins, CloseEnds, TakeEnds Shut; &[]),
    // The count write is open: it is seen new, and then old, which looks like one more round, and item 1 is taken twice.
    near!(SmallModulus, [1, 3, 2, 1, 1], ("[1,2,3]", 3, false, "P9C20", "01");
        PutBegins(0), TakeBegins(1), TakeEnds Passed(1), TakeBegins(1), TakeEnds Passed(1); &[1, 1]),
    // The fifth put has cleared s0 and not yet set s1, so a scan finds s3, which was set a round ago: Empty, with the fourth item inside.
    near!(ClearsFirst, [2, 4, 2, 1, 1], ("[1,2,3,1,2]", 5, false, "P10C12P12C14P14C16P27C10", "");
        PutBegins(0), PutEnds Passed(1), TakeBegins(1), TakeEnds Passed(1), PutBegins(1), PutEnds Passed(1), TakeBegins(1),
        TakeEnds Passed(1), PutBegins(2), PutEnds Passed(1), TakeBegins(1), TakeEnds Passed(1), PutBegins(3), PutEnds Passed(1),
        PutBegins(4), TakeBegins(1), TakeEnds Lacked; &[1, 2, 3]),
    // If nothing overlaps, it is as with a ring: a batch of two, of which the second put finds room for one.
    near!(ClearsUpwards, [3, 6, 2, 2, 1], ("[1,2,3,1]", 1, false, "P26", "");
        PutBegins(0), PutEnds Passed(2), PutBegins(2), PutEnds Passed(1), PutBegins(3), PutEnds Lacked; &[]),
    near!(SmallModulus, [2, 5, 3, 1, 2], OVERWRITTEN;
        PutBegins(0), PutEnds Passed(1), PutBegins(1), PutEnds Passed(1), TakeBegins(2), PutBegins(2), PutEnds Passed(1),
        PutBegins(3), PutEnds Passed(1), PutBegins(4), TakeEnds Passed(2), TakeBegins(2), TakeEnds Passed(2); &[1, 2, 0, 5]),
    // One item is there, of two that the take asks for, and then none: a take that finds the ring empty uses up one of three, and the last
    // one asks for what is left.
    near!(ClearsUpwards, [2, 5, 1, 1, 2], ("[1,0]", 3, false, "P8C16P10C12", "");
        PutBegins(0), PutEnds Passed(1), TakeBegins(2), TakeEnds Passed(1), TakeBegins(2), TakeEnds Lacked, PutBegins(1),
        PutEnds Passed(1), TakeBegins(1), TakeEnds Passed(1); &[1, 0]),
    // The last event of the count write is missing, so the take has not ended, and its items are not recorded.
    near!(CountBeforeCell, [2, 5, 1, 1, 2], ("[1,1]", 2, false, "P16C13", "");
        PutBegins(0), PutEnds Passed(1), PutBegins(1), PutEnds Passed(1), TakeBegins(2); &[]),
    // With its last event it has.
    near!(CountBeforeCell, [2, 5, 1, 1, 2], ("[1,1]", 2, false, "P16C14", "");
        PutBegins(0), PutEnds Passed(1), PutBegins(1), PutEnds Passed(1), TakeBegins(2), TakeEnds Passed(2); &[1, 1]),
];

fn expect_told(rt: &(impl Abort + AllocGlobal), cases: &[Near]) {
    for (miss, shape, asked, wanted, taken) in cases {
        let script = script_of(rt, rt.alloc(), shape, asked);
        let played = play_near(rt.alloc(), *miss, &script).expect(rt, "memory for the play");
        expect(
            rt,
            played.told.as_slice() == *wanted,
            "what is told",
            miss.name(),
        );
        expect(
            rt,
            played.taken.as_slice() == *taken,
            "the items taken",
            miss.name(),
        );
        let verdict = audit_bits(&script.shape(), played.history.as_slice());
        expect(rt, verdict == Verdict::Lawful, "history", miss.name());
    }
}

#[test]
fn near_misses_lose_double_and_tell_too_soon(rt: HostRuntime) {
    expect_told(&rt, &CASES);
}

#[test]
fn the_ring_itself_takes_several_in_order(rt: HostRuntime) {
    let script = script_of(&rt, rt.alloc(), &[2, 5, 3, 1, 2], &OVERWRITTEN);
    let report = play(rt.alloc(), &script).expect(&rt, "memory for the play");
    assert!(rt; report.taken.as_slice() == [1, 2, 3, 5].as_slice() && report.full == 1);
}

#[test]
fn near_misses_have_their_names(rt: HostRuntime) {
    for (miss, name) in [
        (NearMiss::CountBeforeCell, "count-before-cell"),
        (NearMiss::NoSecondScan, "no-second-scan"),
        (NearMiss::SmallModulus, "small-modulus"),
        (NearMiss::ClearsFirst, "clears-first"),
        (NearMiss::ClearsUpwards, "clears-upwards"),
    ] {
        assert!(rt; miss.name() == name && NearMiss::named(name) == Some(miss));
    }
    assert!(rt; NearMiss::named("torus").is_none());
}

// More allocations than any play makes.
const MANY: u64 = 1_000_000;

/// Whether the play was refused, if the allocation after this many is.
pub fn is_refused(rt: &(impl Abort + AllocGlobal), allocations: u64) -> bool {
    let alloc: Refusing<Global> = Refusing::after(rt.alloc(), MANY);
    let (miss, shape, asked, wanted, taken) = &CASES[2];
    let script = script_of(rt, &alloc, shape, asked);
    alloc.refuse_after(allocations);
    let (is_right, is_refused) = match play_near(&alloc, *miss, &script) {
        Err(fault) => (fault == NearFault::OutOfMemory && fault.number() == 1, true),
        Ok(played) => (
            played.told.as_slice() == *wanted && played.taken.as_slice() == *taken,
            false,
        ),
    };
    assert!(rt; is_right && is_refused == alloc.has_refused());
    is_refused
}

#[test]
fn each_growth_of_a_near_miss_may_be_refused(rt: HostRuntime) {
    let refused = refusals(&rt, Played::NearMiss);
    // the first growths of the history, of the recorded calls and of the items taken
    assert!(rt; 3 <= refused && refused < 40);
}
