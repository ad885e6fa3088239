//! The instrumentation hook that a relay calls before each put and each take, and with the start and the end of each call.
ghost use Rattle.std.specs.Prelude.{◌≡◌, ◌*◌, ◌/◌, max};
ghost use Rattle.bits_core.specs.Shape.{capacity_of};

use bits_core::{Shape, Side};
use queue_calls::Event;
use std::{hint, thread};

/// A gate that each side of a relay passes before each of its puts or takes, and that receives the start and the end of
/// each call. Both sides may call it at the same time, and it returns. A gate that does not need these events leaves
/// that out.
///
/// In use: the tests of `test_run`, which hold one side of a relay back.
pub trait Gate {
    /// The side has made `count` puts or takes so far, and is about to make one more.
    fn pass(&self, side: Side, count: u64);

    /// Receives the start of a call that is about to begin, or the end of one that is over.
    fn hears(&self, _event: Event<'_>) {}

    /// The side's last `times` calls, and no more, were puts that found the ring full, or takes that found it empty. It is
    /// called after each such call and before the next one, so `times` counts up from 1.
    fn wait(&self, _side: Side, _times: u64) {}
}

/// A gate that does nothing.
///
/// In use: `uses::relays::pass_on`.
#[derive(Clone, Copy, PartialEq, Eq, Debug)]
pub struct FreeGate;

impl Gate for FreeGate {
    fn pass(&self, _side: Side, _count: u64) {}
}

/// How many puts or takes a side makes between two that yield.
const TURN: u64 = 256;

// Without this gate 10,000 items through one cell took 46 seconds on one core, by time slices; with it they take 0.3.
/// A gate at which each side lets another thread run, on every 256th of its puts or takes. It is for a machine with
/// fewer free processors than threads, where a side that finds the ring full, or empty, would otherwise call in vain
/// until its time slice is used up. It is a hint to the scheduler: no progress of either side is guaranteed.
///
/// In use: by [`RestGate`] and [`Recorder`](crate::Recorder).
#[derive(Clone, Copy, PartialEq, Eq, Debug)]
pub struct YieldGate;

impl Gate for YieldGate {
    fn pass(&self, _side: Side, count: u64) {
        if count % TURN == TURN - 1 {
            thread::yield_now();
        }
    }
}

/// A gate that yields as a `YieldGate` does, and at which each side pauses briefly after a put that found the ring full, or a take
/// that found it empty. So the other side gets some items ahead; two sides that come close to each other wait for each other's
/// words at every item. A side that has paused `rests` times in a row, and still has to wait, lets another thread run instead, as
/// there may be fewer free processors than threads. The length of a pause depends on the processor, and no progress of either side
/// is guaranteed.
///
/// In use: `lamport_ring run`.
#[derive(Clone, Copy, PartialEq, Eq, Debug)]
pub struct RestGate {
    /// The number of hints in a pause, each of which says to the processor that the side waits.
    pub hints: u64,
    /// How many times in a row a side pauses.
    pub rests: u64,
}

impl RestGate {
    // A hint takes 6 ns here and seven times that on some processors: there 4 hints took up to 2.0 times as long as no rest, 10 hints 3.1.
    /// The gate for a ring of this shape: a pause is 4 hints for each cell, and a side pauses as often in a row as makes at most
    /// 64 hints, but at least once.
    pub fn for_ring(shape: &Shape) -> RestGate
        ensures hints { result.hints ≡ 4 * capacity_of shape.now }
        ensures rests { result.rests ≡ max (16 / capacity_of shape.now) 1 }
    {
        let capacity = shape.capacity();
        RestGate {
            hints: 4 * capacity,
            rests: (16 / capacity).max(1),
        }
    }
}

impl Gate for RestGate {
    fn pass(&self, side: Side, count: u64) {
        YieldGate.pass(side, count);
    }

    fn wait(&self, _side: Side, times: u64) {
        if times > self.rests {
            thread::yield_now();
        } else {
            for _ in 0..self.hints {
                hint::spin_loop();
            }
        }
    }
}
