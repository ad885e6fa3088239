//! What is recorded of relays whose two sides both run, and the words of a ring when a gate is called. It holds for every
//! schedule.
ghost use Rattle.std.specs.Prelude.{◌<◌};

use crate::tests::expects::{ITEMS, KINDS, Kind, Numbers, SHAPES, expect, expect_relay, shape_of};
use crate::tests::recordings::slots;
use bits_core::Side;
use queue_calls::{CallAuditor, Event, Reply, Word, exactly};
use ring_run::{CounterRing, Gate, Limits, Outcome, Recorder, YieldGate, relay};
use std::alloc::{AllocGlobal, Global};
use std::process::Abort;
use std::sync::atomic::{AtomicBool, AtomicU64, Ordering};
use std::thread::Threads;

// The event of a line, if the put before it offered this many items.
fn event_of(word: Word, numbers: &[u64], offered: usize) -> Event<'_> {
    match word {
        Word::Put => Event::PutBegins(numbers),
        Word::Stored => Event::PutEnds(Reply::Passed(
            numbers.first().map_or(offered, |it| *it as usize),
        )),
        Word::Full => Event::PutEnds(Reply::Lacked),
        Word::Close => Event::CloseBegins,
        Word::PutClosed => Event::CloseEnds,
        Word::Take => Event::TakeBegins(1),
        Word::Item => Event::TakeEnds(Reply::Passed(numbers)),
        Word::Empty => Event::TakeEnds(Reply::Lacked),
        _ => Event::TakeEnds(Reply::Shut),
    }
}

// How many lines of each kind there are, and how many items were stored. The items taken are 0, 1, ..
#[derive(Clone, Copy, PartialEq, Eq, Debug)]
struct Tally {
    puts: u64,
    stored: u64,
    full: u64,
    takes: u64,
    taken: u64,
    empty: u64,
    closes: u64,
    told: u64,
}

const NONE: Tally = Tally {
    puts: 0,
    stored: 0,
    full: 0,
    takes: 0,
    taken: 0,
    empty: 0,
    closes: 0,
    told: 0,
};

impl Tally {
    // Counts the event; returns whether an item that it took is the next one.
    fn count(&mut self, event: Event<'_>) -> bool {
        let one = |count: &mut u64| *count = count.saturating_add(1);
        match event {
            Event::PutBegins(_) => one(&mut self.puts),
            Event::PutEnds(Reply::Passed(more)) => self.stored = self
                .stored
                .saturating_add(more as u64),
            Event::PutEnds(Reply::Lacked) => one(&mut self.full),
            Event::CloseEnds => one(&mut self.closes),
            Event::TakeBegins(_) => one(&mut self.takes),
            Event::TakeEnds(Reply::Passed(items)) => {
                let is_next = items.len() == 1 && items.first() == Some(&self.taken);
                one(&mut self.taken);
                return is_next;
            }
            Event::TakeEnds(Reply::Lacked) => one(&mut self.empty),
            Event::TakeEnds(Reply::Shut) => one(&mut self.told),
            _ => {}
        }
        true
    }

    // What a relay must have recorded.
    fn of(outcome: &Outcome<Global>) -> Tally {
        let taken = outcome.taken.len() as u64;
        let told = u64::from(outcome.closed);
        Tally {
            puts: outcome.calls,
            stored: outcome.put,
            full: outcome.full,
            takes: taken.saturating_add(outcome.empty).saturating_add(told),
            taken,
            empty: outcome.empty,
            closes: u64::from(outcome.put == ITEMS.len() as u64),
            told,
        }
    }
}

// The recording of a relay is linearizable, and has each of its calls with its items, once.
fn expect_all_recorded(rt: &(impl Abort + AllocGlobal + Threads), kind: Kind, numbers: &Numbers) {
    let (puts, takes) = (slots(rt, 20_000), slots(rt, 20_000));
    let recorder = Recorder::new(puts.as_slice(), takes.as_slice());
    let outcome = expect_relay(rt, kind, numbers, &ITEMS, Limits::both(5_000), &recorder);
    let capacity = numbers[0] as usize;
    assert!(rt; capacity > 0);
    let mut auditor = CallAuditor::new(rt.alloc(), exactly(capacity));
    let (mut tally, mut offered, mut is_so) = (NONE, 0, true);
    let mut lines = recorder.lines();
    let mut row = Vec::new(rt.alloc());
    for _ in 0..100_000 {
        let next = lines.next(&mut row).expect(rt, "memory for a line");
        let Some(word) = next else {
            break;
        };
        if matches!(word, Word::Put) {
            offered = row.len();
        }
        let event = event_of(word, row.as_slice(), offered);
        is_so = is_so && tally.count(event) && auditor.feed(event).is_ok();
    }
    is_so = is_so && tally == Tally::of(&outcome);
    expect(rt, is_so, "a recording of both sides", kind.name());
}

#[test]
fn a_recording_has_all_calls_of_both_sides(rt: HostRuntime) {
    for numbers in SHAPES.iter() {
        for kind in KINDS {
            expect_all_recorded(&rt, kind, numbers);
        }
    }
}

// Checks a counter ring when it is called: before a call the word of its side's count shows the calls before it, and after it
// that one too; the close word is 1 after the close and not before.
#[derive(Drop)]
struct Watch<'a> {
    ring: &'a CounterRing<Global>,
    modulus: u64,
    stored: AtomicU64,
    taken: AtomicU64,
    begun: AtomicU64,
    ended: AtomicU64,
    is_wrong: AtomicBool,
}

const CLOSE_WORD: usize = 0;

const PUT_WORD: usize = 1;

const TAKE_WORD: usize = 2;

fn add(count: &AtomicU64, more: u64) {
    let sum = count.load(Ordering::SeqCst).saturating_add(more);
    count.store(sum, Ordering::SeqCst);
}

impl Watch<'_> {
    fn expect_word(&self, place: usize, value: u64)
        requires { place < 3 }
    {
        if self.ring.observe(place) != value {
            self.is_wrong.store(true, Ordering::SeqCst);
        }
    }

    fn expect_count(&self, place: usize, count: &AtomicU64)
        requires { place < 3 }
    {
        let count = count.load(Ordering::SeqCst);
        self.expect_word(place, count.checked_rem(self.modulus).unwrap_or(0));
    }
}

impl Watch<'_> {
    fn hears_put(&self, event: Event<'_>) {
        match event {
            Event::PutBegins(items) => {
                add(&self.begun, 1);
                let first = self.stored.load(Ordering::SeqCst);
                if items.first() != Some(&first) {
                    self.is_wrong.store(true, Ordering::SeqCst);
                }
                self.expect_word(CLOSE_WORD, 0);
            }
            Event::CloseBegins => {
                add(&self.begun, 1);
                self.expect_word(CLOSE_WORD, 0);
            }
            Event::CloseEnds => {
                add(&self.ended, 1);
                self.expect_word(CLOSE_WORD, 1);
            }
            Event::PutEnds(Reply::Passed(count)) => {
                add(&self.ended, 1);
                add(&self.stored, count as u64);
            }
            _ => add(&self.ended, 1),
        }
        self.expect_count(PUT_WORD, &self.stored);
    }

    fn hears_take(&self, event: Event<'_>) {
        match event {
            Event::TakeEnds(Reply::Passed(items)) => {
                let next = self.taken.load(Ordering::SeqCst);
                if items != [next].as_slice() {
                    self.is_wrong.store(true, Ordering::SeqCst);
                }
                add(&self.taken, 1);
            }
            Event::TakeEnds(Reply::Shut) => self.expect_word(CLOSE_WORD, 1),
            _ => {}
        }
        self.expect_count(TAKE_WORD, &self.taken);
    }
}

impl Gate for Watch<'_> {
    fn pass(&self, side: Side, count: u64) {
        YieldGate.pass(side, count);
    }

    fn hears(&self, event: Event<'_>) {
        if event.is_of_producer() {
            self.hears_put(event);
        } else {
            self.hears_take(event);
        }
    }
}

fn expect_watched(rt: &(impl Abort + AllocGlobal + Threads), numbers: &Numbers) {
    let shape = shape_of(rt, numbers);
    let made = CounterRing::new(rt.alloc(), shape);
    let (ring, start) = made.expect(rt, "memory for the ring");
    let (mut putter, mut taker) = ring.ends(start);
    let gate = Watch {
        ring: &ring,
        modulus: numbers[1],
        stored: AtomicU64::new(0),
        taken: AtomicU64::new(0),
        begun: AtomicU64::new(0),
        ended: AtomicU64::new(0),
        is_wrong: AtomicBool::new(false),
    };
    assert!(rt; shape.fits_all(&ITEMS));
    let limits = Limits::both(100_000);
    let relayed = relay(
        rt,
        rt.alloc(),
        &mut putter,
        &mut taker,
        &ITEMS,
        limits,
        &gate,
    );
    let outcome = relayed.expect(rt, "memory for the relay");
    let closes = u64::from(outcome.put == ITEMS.len() as u64);
    let calls = outcome.calls.saturating_add(closes);
    let is_told = gate.begun.load(Ordering::SeqCst) == calls
        && gate.ended.load(Ordering::SeqCst) == calls
        && gate.stored.load(Ordering::SeqCst) == outcome.put
        && gate.taken.load(Ordering::SeqCst) == outcome.taken.len() as u64;
    assert!(rt; is_told && !gate.is_wrong.load(Ordering::SeqCst));
}

#[test]
fn a_gate_is_told_where_calls_begin_and_end(rt: HostRuntime) {
    for numbers in SHAPES.iter() {
        expect_watched(&rt, numbers);
    }
}
