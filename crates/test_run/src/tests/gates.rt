//! Gates that make one side of a relay wait for the other, for at most this many looks, and what gates receive.
use crate::tests::expects::{
    ITEMS, Kind, Numbers, ONE, ORACLES, Oracles, SHAPES, expect, expect_relay, expect_under,
    shape_of,
};
use bits_core::Side;
use queue_calls::{Event, Reply};
use ring_run::{Gate, Limits, Outcome, RestGate, YieldGate};
use std::alloc::{AllocGlobal, Allocator};
use std::hint::spin_loop;
use std::process::Abort;
use std::sync::atomic::{AtomicBool, AtomicU64, Ordering};
use std::thread::{Threads, yield_now};

// Each side waits before its first call until the other one is there.
#[derive(Drop)]
struct Meeting {
    putter: AtomicBool,
    taker: AtomicBool,
    ran_out: AtomicBool,
}

impl Gate for Meeting {
    fn pass(&self, side: Side, count: u64) {
        if count > 0 {
            return;
        }
        let (own, other) = match side {
            Side::P => (&self.putter, &self.taker),
            Side::C => (&self.taker, &self.putter),
        };
        own.store(true, Ordering::SeqCst);
        for _ in 0..100_000_000 {
            if other.load(Ordering::SeqCst) {
                return;
            }
            spin_loop();
        }
        self.ran_out.store(true, Ordering::SeqCst);
    }
}

fn expect_meeting(rt: &(impl Abort + AllocGlobal + Threads), kind: Kind) {
    let gate = Meeting {
        putter: AtomicBool::new(false),
        taker: AtomicBool::new(false),
        ran_out: AtomicBool::new(false),
    };
    let outcome = expect_relay(rt, kind, &ONE, &[1], Limits::both(1), &gate);
    let have_met = gate.putter.load(Ordering::SeqCst) && gate.taker.load(Ordering::SeqCst);
    let is_met = have_met && !gate.ran_out.load(Ordering::SeqCst);
    expect(rt, is_met, "the meeting", kind.name());
    assert!(rt; outcome.put == 1 && outcome.calls == 1 && outcome.full == 0);
}

#[test]
fn both_sides_run_at_the_same_time(rt: HostRuntime) {
    expect_meeting(&rt, Kind::Flicker);
    expect_meeting(&rt, Kind::Counter);
}

// The taker waits before its fourth take until the putter has made 100 puts. Keeps the number that each side last passed.
#[derive(Drop)]
struct Held {
    puts: AtomicU64,
    takes: AtomicU64,
    ran_out: AtomicBool,
}

impl Gate for Held {
    fn pass(&self, side: Side, count: u64) {
        match side {
            Side::P => self.puts.store(count, Ordering::SeqCst),
            Side::C => {
                self.takes.store(count, Ordering::SeqCst);
                if count == 3 {
                    self.hold();
                }
            }
        }
    }
}

impl Held {
    fn hold(&self) {
        for _ in 0..1_000_000 {
            if self.puts.load(Ordering::SeqCst) >= 100 {
                return;
            }
            spin_loop();
        }
        self.ran_out.store(true, Ordering::SeqCst);
    }
}

impl Held {
    fn new() -> Held {
        Held {
            puts: AtomicU64::new(0),
            takes: AtomicU64::new(0),
            ran_out: AtomicBool::new(false),
        }
    }

    // Of 100 puts before the fourth take no more than the 3 items taken and the 3 in the ring were stored. The last put and
    // the last take have passed the gate.
    fn expect_full<A: Allocator>(&self, rt: &impl Abort, outcome: &Outcome<A>) {
        assert!(rt; self.ran_out.load(Ordering::SeqCst) || outcome.full >= 94);
        let items = (outcome.taken.len() as u64).saturating_add(u64::from(outcome.closed));
        let takes = outcome.empty.saturating_add(items);
        assert_eq!(rt;
            Some(self.puts.load(Ordering::SeqCst)),
            outcome.calls.checked_sub(1)
        );
        assert_eq!(rt;
            Some(self.takes.load(Ordering::SeqCst)),
            takes.checked_sub(1)
        );
    }
}

fn expect_held(rt: &(impl Abort + AllocGlobal + Threads), numbers: &Numbers, oracles: Oracles) {
    let gate = Held::new();
    let outcome = expect_under(rt, oracles, numbers, Limits::both(1_000_000), &gate);
    gate.expect_full(rt, &outcome);
}

fn expect_held_counter(rt: &(impl Abort + AllocGlobal + Threads), numbers: &Numbers) {
    let gate = Held::new();
    let limits = Limits::both(1_000_000);
    let outcome = expect_relay(rt, Kind::Counter, numbers, &ITEMS, limits, &gate);
    gate.expect_full(rt, &outcome);
}

#[test]
fn a_taker_that_is_held_leaves_the_ring_full(rt: HostRuntime) {
    for numbers in SHAPES.iter() {
        for oracles in ORACLES {
            expect_held(&rt, numbers, oracles);
        }
        expect_held_counter(&rt, numbers);
    }
}

// Once the first put is stored, all others find the ring full, if nothing is taken; the taker finishes at once, so the
// putter may end before its limit. With no such limit the whole relay ends.
fn expect_unchanged<G: Gate + Sync>(
    rt: &(impl Abort + AllocGlobal + Threads),
    kind: Kind,
    gate: &G,
) {
    let limits = Limits {
        puts: 1000,
        takes: 0,
    };
    let outcome = expect_relay(rt, kind, &ONE, &[1, 0], limits, gate);
    assert!(rt; outcome.put == 1 && (2..=1000).contains(&outcome.calls));
    assert!(rt; Some(outcome.full) == outcome.calls.checked_sub(1));
    let limits = Limits::both(u64::MAX);
    let outcome = expect_relay(rt, kind, &SHAPES[0], &ITEMS, limits, gate);
    assert!(rt; outcome.closed);
}

#[test]
fn a_gate_that_yields_changes_nothing(rt: HostRuntime) {
    expect_unchanged(&rt, Kind::Flicker, &YieldGate);
    expect_unchanged(&rt, Kind::Counter, &YieldGate);
}

#[test]
fn a_gate_that_rests_changes_nothing(rt: HostRuntime) {
    for rests in [0, 1, u64::MAX] {
        let gate = RestGate { hints: 3, rests };
        expect_unchanged(&rt, Kind::Flicker, &gate);
        expect_unchanged(&rt, Kind::Counter, &gate);
    }
}

// A pause in a ring of this many cells has this many hints, and there are this many in a row.
#[test]
fn a_rest_grows_with_the_ring(rt: HostRuntime) {
    for [capacity, hints, rests] in [
        [1, 4, 16],
        [3, 12, 5],
        [8, 32, 2],
        [16, 64, 1],
        [64, 256, 1],
    ] {
        let gate = RestGate::for_ring(&shape_of(&rt, &[capacity, 256, 1, 1]));
        assert!(rt; gate == RestGate { hints, rests });
    }
}

// The side that goes ahead makes this many calls, and then waits until the first call of the other side is over, which begins
// after these. The other side's next call begins once the first side's wait was called four times. Keeps the numbers passed when
// it had to wait, a decimal digit each.
#[derive(Drop)]
struct InTurn {
    ahead: Side,
    calls: u64,
    has_come: AtomicBool,
    is_over: AtomicBool,
    told: AtomicU64,
    is_told: AtomicBool,
    ran_out: AtomicBool,
}

impl InTurn {
    fn new(ahead: Side, calls: u64) -> InTurn {
        InTurn {
            ahead,
            calls,
            has_come: AtomicBool::new(false),
            is_over: AtomicBool::new(false),
            told: AtomicU64::new(0),
            is_told: AtomicBool::new(false),
            ran_out: AtomicBool::new(false),
        }
    }

    fn hold(&self, until: &AtomicBool) {
        for _ in 0..1_000_000 {
            if until.load(Ordering::SeqCst) {
                return;
            }
            yield_now();
        }
        self.ran_out.store(true, Ordering::SeqCst);
    }

    fn ended(&self, side: Side) {
        if side != self.ahead {
            self.is_over.store(true, Ordering::SeqCst);
        }
    }
}

impl Gate for InTurn {
    fn pass(&self, side: Side, count: u64) {
        if side == self.ahead && count == self.calls {
            self.has_come.store(true, Ordering::SeqCst);
            self.hold(&self.is_over);
        }
        if side != self.ahead {
            self.hold(if count == 0 {
                &self.has_come
            } else {
                &self.is_told
            });
        }
    }

    fn hears(&self, event: Event<'_>) {
        match event {
            Event::PutEnds(Reply::Passed(_) | Reply::Lacked) => self.ended(Side::P),
            Event::TakeEnds(Reply::Passed(_) | Reply::Lacked | Reply::Shut) => self.ended(Side::C),
            _ => {}
        }
    }

    fn wait(&self, side: Side, times: u64) {
        if side == self.ahead {
            let told = self.told.load(Ordering::SeqCst);
            let more = told.wrapping_mul(10).wrapping_add(times);
            self.told.store(more, Ordering::SeqCst);
            self.is_told.store(more >= 1000, Ordering::SeqCst);
        }
    }
}

fn expect_in_turn(
    rt: &(impl Abort + AllocGlobal + Threads),
    kind: Kind,
    gate: &InTurn,
    limits: Limits,
) {
    let _outcome = expect_relay(rt, kind, &ONE, &[1, 0, 1], limits, gate);
    let is_told = gate.told.load(Ordering::SeqCst) == 1212;
    let holds = is_told || gate.ran_out.load(Ordering::SeqCst);
    expect(rt, holds, "what a side is told", kind.name());
}

// A put is stored and two find the one cell full; after a take the same again. Two takes find it empty; after a put one has an
// item, and two find it empty again.
#[test]
fn a_side_is_told_how_often_in_a_row_it_had_to_wait(rt: HostRuntime) {
    for kind in [Kind::Flicker, Kind::Counter] {
        let limits = Limits { puts: 6, takes: 2 };
        expect_in_turn(&rt, kind, &InTurn::new(Side::P, 3), limits);
        let limits = Limits { puts: 2, takes: 5 };
        expect_in_turn(&rt, kind, &InTurn::new(Side::C, 2), limits);
    }
}

// The replies of one side's calls, and how often its wait was called for them.
#[derive(Drop)]
struct Row {
    // How many in a row found the ring full, or empty.
    times: AtomicU64,
    // Whether a wait is due before its next call.
    is_due: AtomicBool,
    // How often wait was called.
    told: AtomicU64,
}

impl Row {
    fn new() -> Row {
        Row {
            times: AtomicU64::new(0),
            is_due: AtomicBool::new(false),
            told: AtomicU64::new(0),
        }
    }

    fn ended(&self, waits: bool) {
        let times = self.times.load(Ordering::SeqCst).saturating_add(1);
        self.times
            .store(if waits { times } else { 0 }, Ordering::SeqCst);
        self.is_due.store(waits, Ordering::SeqCst);
    }

    // Returns whether this was due.
    fn wait(&self, times: u64) -> bool {
        let told = self.told.load(Ordering::SeqCst).saturating_add(1);
        self.told.store(told, Ordering::SeqCst);
        let was_due = self.is_due.load(Ordering::SeqCst);
        self.is_due.store(false, Ordering::SeqCst);
        was_due && times == self.times.load(Ordering::SeqCst)
    }
}

// For both sides `wait` is called once after each such call, and after no other.
#[derive(Drop)]
struct Telling {
    putter: Row,
    taker: Row,
    is_wrong: AtomicBool,
}

impl Telling {
    fn row(&self, side: Side) -> &Row {
        match side {
            Side::P => &self.putter,
            Side::C => &self.taker,
        }
    }
}

impl Gate for Telling {
    fn pass(&self, side: Side, count: u64) {
        YieldGate.pass(side, count);
        if self.row(side).is_due.load(Ordering::SeqCst) {
            self.is_wrong.store(true, Ordering::SeqCst);
        }
    }

    fn hears(&self, event: Event<'_>) {
        match event {
            Event::PutEnds(Reply::Passed(_)) => self.putter.ended(false),
            Event::PutEnds(Reply::Lacked) => self.putter.ended(true),
            Event::TakeEnds(Reply::Passed(_) | Reply::Shut) => self.taker.ended(false),
            Event::TakeEnds(Reply::Lacked) => self.taker.ended(true),
            _ => {}
        }
    }

    fn wait(&self, side: Side, times: u64) {
        if !self.row(side).wait(times) {
            self.is_wrong.store(true, Ordering::SeqCst);
        }
    }
}

fn expect_told(rt: &(impl Abort + AllocGlobal + Threads), kind: Kind, numbers: &Numbers) {
    let gate = Telling {
        putter: Row::new(),
        taker: Row::new(),
        is_wrong: AtomicBool::new(false),
    };
    let outcome = expect_relay(rt, kind, numbers, &ITEMS, Limits::both(100_000), &gate);
    let is_wrong = gate.is_wrong.load(Ordering::SeqCst);
    let full = gate.putter.told.load(Ordering::SeqCst);
    let empty = gate.taker.told.load(Ordering::SeqCst);
    let is_told = !is_wrong && full == outcome.full && empty == outcome.empty;
    expect(rt, is_told, "what a side is told", kind.name());
}

#[test]
fn a_side_is_told_once_of_each_call_behind_which_it_waits(rt: HostRuntime) {
    for numbers in SHAPES.iter() {
        expect_told(&rt, Kind::Flicker, numbers);
        expect_told(&rt, Kind::Counter, numbers);
    }
}
