//! The results of relays.
ghost use Rattle.std.specs.Prelude.{◌≡◌, None, false, []};
ghost use Rattle.bits_core.specs.Shape.{AllFit};
ghost use Rattle.ring_run.specs.Steppers.{IsSameEnd};

use bits_core::{Always, Flip, Oracle, Shape, Tape};
use ring_run::{
    CounterPutter, CounterTaker, FreeGate, Gate, Limits, Outcome, Putter, RunFault, Taker, relay,
    relay_counter, relay_flicker,
};
use std::alloc::{AllocGlobal, Allocator, Global};
use std::process::Abort;
use std::thread::Threads;

/// The items 0 to 63.
pub const ITEMS: [u64; 64] = [
    0, 1, 2, 3, 4, 5, 6, 7, 8, 9, 10, 11, 12, 13, 14, 15, 16, 17, 18, 19, 20, 21, 22, 23, 24, 25,
    26, 27, 28, 29, 30, 31, 32, 33, 34, 35, 36, 37, 38, 39, 40, 41, 42, 43, 44, 45, 46, 47, 48, 49,
    50, 51, 52, 53, 54, 55, 56, 57, 58, 59, 60, 61, 62, 63,
];

/// A shape: capacity, modulus, width, batch.
pub(crate) type Numbers = [u64; 4];

/// One cell of one bit.
pub const ONE: Numbers = [1, 3, 1, 1];

/// Up to three cells of six bits, each with its smallest modulus, and puts of up to three items.
pub const SHAPES: [Numbers; 4] = [[1, 3, 6, 1], [2, 4, 6, 1], [3, 5, 6, 1], [3, 7, 6, 3]];

// Answers of an oracle.
const TAPE: &[bool] = &[false, true, true, false, true, false, false];

/// It holds; otherwise the message says what fails in which case. (A message is expensive to prove, so this one serves all.)
pub fn expect(rt: &impl Abort, holds: bool, what: &str, case: &str) {
    assert!(rt; holds, "{what} of {case}");
}

/// The items taken are the first that were put, and if a take returned Closed they are all.
pub fn expect_in_order<A: Allocator>(rt: &impl Abort, outcome: &Outcome<A>, items: &[u64]) {
    let taken = outcome.taken.as_slice();
    assert!(rt; taken.len() as u64 <= outcome.put && outcome.put <= items.len() as u64);
    for (place, item) in taken.iter().enumerate() {
        assert!(rt; items.get(place) == Some(item), "item {place}");
    }
    assert!(rt; !outcome.closed || taken.len() == items.len());
}

/// The shape with these numbers. (A `?` is expensive to prove, so what fails only if memory or a shape is lacking ends the test.)
pub fn shape_of(rt: &impl Abort, numbers: &Numbers) -> Shape {
    let [capacity, modulus, width, batch] = *numbers;
    Shape::with_batch(capacity, modulus, width, batch).expect(rt, "a shape")
}

/// A ring of either kind.
#[derive(Clone, Copy)]
pub(crate) enum Kind {
    Flicker,
    Counter,
}

/// Both of them.
pub const KINDS: [Kind; 2] = [Kind::Flicker, Kind::Counter];

impl Kind {
    pub fn name(self) -> &'static str {
        match self {
            Kind::Flicker => "a flickering ring",
            Kind::Counter => "a counter ring",
        }
    }
}

/// A relay of the items on a ring of the kind: its items are in order.
pub fn expect_relay<G: Gate + Sync>(
    rt: &(impl Abort + AllocGlobal + Threads),
    kind: Kind,
    numbers: &Numbers,
    items: &[u64],
    limits: Limits,
    gate: &G,
) -> Outcome<Global> {
    if matches!(kind, Kind::Flicker) {
        let oracles = (Flip::new(), Flip::new());
        return expect_flicker(rt, numbers, oracles, items, limits, gate);
    }
    let shape = shape_of(rt, numbers);
    assert!(rt; shape.fits_all(items));
    let outcome = relay_counter(rt, rt.alloc(), shape, items, limits, gate);
    let outcome = outcome.expect(rt, "memory for the relay");
    expect_in_order(rt, &outcome, items);
    outcome
}

/// A relay of the items on a flickering ring, with these oracles: its items are in order.
pub fn expect_flicker<O: Oracle + Drop + Send, G: Gate + Sync>(
    rt: &(impl Abort + AllocGlobal + Threads),
    numbers: &Numbers,
    oracles: (O, O),
    items: &[u64],
    limits: Limits,
    gate: &G,
) -> Outcome<Global> {
    let shape = shape_of(rt, numbers);
    assert!(rt; shape.fits_all(items));
    let (oracle_p, oracle_c) = oracles;
    let outcome = relay_flicker(
        rt,
        rt.alloc(),
        shape,
        oracle_p,
        oracle_c,
        items,
        limits,
        gate,
    );
    let outcome = outcome.expect(rt, "memory for the relay");
    expect_in_order(rt, &outcome, items);
    outcome
}

/// What both ends of a flickering ring ask if reads and writes overlap.
#[derive(Clone, Copy)]
pub(crate) enum Oracles {
    Zeros,
    Ones,
    Flips,
    Tapes,
}

/// Each of them.
pub const ORACLES: [Oracles; 4] = [
    Oracles::Zeros,
    Oracles::Ones,
    Oracles::Flips,
    Oracles::Tapes,
];

/// A relay of all items on a flickering ring under these oracles: they are in order.
pub fn expect_under<G: Gate + Sync>(
    rt: &(impl Abort + AllocGlobal + Threads),
    oracles: Oracles,
    numbers: &Numbers,
    limits: Limits,
    gate: &G,
) -> Outcome<Global> {
    match oracles {
        Oracles::Zeros => {
            expect_flicker(
                rt,
                numbers,
                (Always(false), Always(false)),
                &ITEMS,
                limits,
                gate,
            )
        }
        Oracles::Ones => {
            expect_flicker(
                rt,
                numbers,
                (Always(true), Always(true)),
                &ITEMS,
                limits,
                gate,
            )
        }
        Oracles::Flips => {
            expect_flicker(
                rt,
                numbers,
                (Flip::new(), Flip::new()),
                &ITEMS,
                limits,
                gate,
            )
        }
        Oracles::Tapes => {
            expect_flicker(
                rt,
                numbers,
                (Tape::new(TAPE), Tape::new(TAPE)),
                &ITEMS,
                limits,
                gate,
            )
        }
    }
}

/// A relay between these ends, which have made no call.
pub fn relay_between<A: Allocator + Copy, O: Oracle + Drop + Send>(
    rt: &impl Threads,
    alloc: A,
    putter: &mut Putter<'_, O>,
    taker: &mut Taker<'_, O>,
    items: &[u64],
    limits: Limits,
) -> Result<Outcome<A>, RunFault>
    requires idle { (putter.old.call ≡ None) × (taker.old.taking ≡ false) }
    requires fresh { (putter.old.end.list ≡ []) × (taker.old.end.list ≡ []) }
    requires fit { AllFit putter.old.end.ring.shape items.now }
    ensures idle { (putter.new.call ≡ None) × (taker.new.taking ≡ false) }
    ensures same { IsSameEnd putter.old.end putter.new.end × IsSameEnd taker.old.end taker.new.end }
{
    relay(rt, alloc, putter, taker, items, limits, &FreeGate)
}

/// The same between the two ends of counter rings.
pub fn relay_counted<A: Allocator + Copy>(
    rt: &impl Threads,
    alloc: A,
    putter: &mut CounterPutter<'_>,
    taker: &mut CounterTaker<'_>,
    items: &[u64],
    limits: Limits,
) -> Result<Outcome<A>, RunFault>
    requires fresh { (putter.old.list ≡ []) × (taker.old.list ≡ []) }
    requires fit { AllFit putter.old.ring.shape items.now }
    ensures same { IsSameEnd putter.old putter.new × IsSameEnd taker.old taker.new }
{
    relay(rt, alloc, putter, taker, items, limits, &FreeGate)
}
