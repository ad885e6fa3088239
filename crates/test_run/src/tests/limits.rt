//! Relays with limits on calls.

ghost use Rattle.std.specs.Prelude.{◌≡◌, ◌∷◌, []};
ghost use Rattle.bits_core.specs.Shape.{AllFit};
ghost use Rattle.ring_run.specs.Steppers.{IsSameEnd};

use crate::tests::expects::{ITEMS, KINDS, Kind, Numbers, ONE, expect, expect_relay, shape_of};
use bits_core::{Flip, Shape};
use ring_run::{CounterRing, FlickerRing, FreeGate, Limits, Outcome, PutEnd, relay};
use std::alloc::{AllocGlobal, Allocator, Global};
use std::process::Abort;
use std::thread::Threads;

// The result of a relay: items put, puts made, items taken, closed, and how often full and empty.
type Wanted = (u64, u64, &'static [u64], bool, [u64; 2]);

// A name, a shape, the items, the most puts and the most takes, and all its possible results.
type Case = (
    &'static str,
    Numbers,
    &'static [u64],
    (u64, u64),
    &'static [Wanted],
);

// Whether the result is one of these.
fn is_one_of<A: Allocator>(outcome: &Outcome<A>, wanted: &[Wanted]) -> bool {
    for (put, calls, taken, closed, counts) in wanted {
        if (outcome.put, outcome.calls, outcome.closed) == (*put, *calls, *closed)
            && outcome.taken.as_slice() == *taken
            && [outcome.full, outcome.empty] == *counts
        {
            return true;
        }
    }
    false
}

// Each relay on a ring of the kind has one of its possible results.
fn expect_cases(rt: &(impl Abort + AllocGlobal + Threads), kind: Kind, cases: &[Case]) {
    for (name, numbers, items, (puts, takes), wanted) in cases {
        let limits = Limits {
            puts: *puts,
            takes: *takes,
        };
        let outcome = expect_relay(rt, kind, numbers, items, limits, &FreeGate);
        expect(rt, is_one_of(&outcome, wanted), name, kind.name());
    }
}

// One cell of six bits.
const SIX: Numbers = [1, 3, 6, 1];

// A name, a shape, items, the most puts and takes, and its results.
macro_rules! case {
    ($name:literal, $numbers:expr, $items:expr, $limits:expr => $wanted:expr) => { ($name, $numbers, $items, $limits, $wanted) };
}

static LIMITED: [Case; 6] = [
    case!("no call", SIX, &[0, 1, 2], (0, 0) => &[(0, 0, &[], false, [0, 0])]),
    case!("no call but the close, as there is no item", SIX, &[], (0, 0) => &[(0, 0, &[], false, [0, 0])]),
    case!("a take before the put, or after it", SIX, &ITEMS, (1, 1)
        => &[(1, 1, &[0], false, [0, 0]), (1, 1, &[], false, [0, 1])]),
    case!("takes alone", ONE, &[1, 0, 1], (0, 3)
        => &[(0, 0, &[], false, [0, 1]), (0, 0, &[], false, [0, 2]), (0, 0, &[], false, [0, 3])]),
    case!("puts alone", ONE, &[1, 0], (3, 0)
        => &[(1, 2, &[], false, [1, 0]), (1, 3, &[], false, [2, 0])]),
    case!("a take before the close, or after it", ONE, &[], (0, 1)
        => &[(0, 0, &[], true, [0, 0]), (0, 0, &[], false, [0, 1])]),
];

#[test]
fn a_relay_stops_at_its_limits(rt: HostRuntime) {
    for kind in KINDS {
        expect_cases(&rt, kind, &LIMITED);
    }
}

// A relay of three items whose one side has this limit and whose other side has none: with more calls than a test makes.
fn expect_one_limited(
    rt: &(impl Abort + AllocGlobal + Threads),
    kind: Kind,
    limits: Limits,
) -> Outcome<Global> {
    let outcome = expect_relay(rt, kind, &SIX, &ITEMS[..3], limits, &FreeGate);
    expect(rt, !outcome.closed, "an end before the close", kind.name());
    outcome
}

// A side that has finished ends the other, even if that may make more calls than a test can.
#[test]
fn a_side_that_is_over_ends_the_other(rt: HostRuntime) {
    for kind in KINDS {
        for most in [0, 1] {
            let puts = Limits {
                puts: u64::MAX,
                takes: most,
            };
            let outcome = expect_one_limited(&rt, kind, puts);
            let used = outcome.empty.saturating_add(outcome.taken.len() as u64);
            assert!(rt; used == most && outcome.full > 0 && outcome.put < 3);
            let takes = Limits {
                puts: most,
                takes: u64::MAX,
            };
            let outcome = expect_one_limited(&rt, kind, takes);
            let is_all = outcome.taken.len() as u64 == outcome.put;
            assert!(rt;
                outcome.calls == most && outcome.put == most && is_all && outcome.empty > 0
            );
        }
    }
}

#[test]
fn limits_may_be_the_same_for_both(rt: HostRuntime) {
    for n in [0, 1, u64::MAX] {
        let limits = Limits { puts: n, takes: n };
        assert!(rt; Limits::both(n) == limits);
    }
}

fn expect_all(rt: &(impl Abort + AllocGlobal + Threads), kind: Kind) {
    let limits = Limits::both(u64::MAX);
    let outcome = expect_relay(rt, kind, &SIX, &ITEMS, limits, &FreeGate);
    let is_whole = outcome.put == 64 && outcome.closed;
    let is_all = is_whole && outcome.taken.as_slice() == ITEMS.as_slice();
    expect(rt, is_all, "all items", kind.name());
}

#[test]
fn all_items_go_through_one_cell(rt: HostRuntime) {
    expect_all(&rt, Kind::Flicker);
    expect_all(&rt, Kind::Counter);
}

// The result of two items put by the end of one ring while an end of another, closed and empty, takes.
fn expect_apart<A: Allocator>(rt: &impl Abort, outcome: &Outcome<A>) {
    assert!(rt; outcome.put == 2 && outcome.calls == 2 && outcome.full == 0);
    assert!(rt; outcome.taken.is_empty() && outcome.empty == 0 && outcome.closed);
}

// Puts two items with this end, with the taker of another ring, which was closed before.
fn relay_apart<E: PutEnd + Send>(rt: &(impl Abort + AllocGlobal + Threads), putter: &mut E)
    requires idle { E.idle putter.old }
    requires fresh { (E.end putter.old).list ≡ [] }
    requires wide { AllFit (E.end putter.old).ring.shape (0 ∷ 1 ∷ []) }
    ensures idle { E.idle putter.new }
    ensures same { IsSameEnd (E.end putter.old) (E.end putter.new) }
{
    let made = FlickerRing::new(rt.alloc(), shape_of(rt, &ONE));
    let (other, start) = made.expect(rt, "memory for the ring");
    let (mut closer, mut told) = other.ends(start, Flip::new(), Flip::new());
    closer.close();
    let limits = Limits::both(5);
    let outcome = relay(
        rt,
        rt.alloc(),
        putter,
        &mut told,
        &[0, 1],
        limits,
        &FreeGate,
    );
    expect_apart(rt, &outcome.expect(rt, "memory for the relay"));
    let ended = FlickerRing::finish(closer, told);
    assert!(rt; ended.closed() && ended.told());
}

// Two cells of one bit.
fn two_cells(rt: &impl Abort) -> Shape
    ensures { AllFit result (0 ∷ 1 ∷ []) }
{
    Shape::new(2, 4, 1).expect(rt, "a shape")
}

// The putter of one ring and the taker of another.
#[test]
fn ends_of_two_rings_are_worked_alike(rt: HostRuntime) {
    let made = FlickerRing::new(rt.alloc(), two_cells(&rt));
    let (ring, start) = made.expect(&rt, "memory for the ring");
    let (mut putter, taker) = ring.ends(start, Flip::new(), Flip::new());
    relay_apart(&rt, &mut putter);
    let ended = FlickerRing::finish(putter, taker);
    assert!(rt; ended.closed() && !ended.told());
}

// The putter of a counter ring and the taker of a flickering ring.
#[test]
fn ends_of_rings_of_both_kinds_are_worked_alike(rt: HostRuntime) {
    let made = CounterRing::new(rt.alloc(), two_cells(&rt));
    let (ring, start) = made.expect(&rt, "memory for the ring");
    let (mut putter, taker) = ring.ends(start);
    relay_apart(&rt, &mut putter);
    let ended = CounterRing::finish(putter, taker);
    assert!(rt; ended.closed() && !ended.told());
}
