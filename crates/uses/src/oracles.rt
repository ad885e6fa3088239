//! A custom oracle: a flickering ring whose overlapped reads are answered by a linear congruential generator.
ghost use Rattle.std.specs.Prelude.{◌≡◌, ◌<◌, ◌%◌, IfOk};
ghost use Rattle.bits_core.specs.Made.{IsPrefix};
ghost use Rattle.bits_core.specs.Shape.{AllFit};

use bits_core::{Oracle, Shape};
use ring_run::{FreeGate, Limits, RunFault, relay_flicker};
use std::alloc::Allocator;
use std::thread::Threads;

/// Answers with the generator of Park, Miller and Stockmeyer (1993): the next number is 48271 times the last one
/// modulo 2^31 - 1, and its answer is whether it is in the upper half. Starting from 0 it always answers 0.
#[derive(Clone, Copy, PartialEq, Eq, Debug)]
pub struct Minstd {
    /// The last number.
    pub number: u64,
    ghost below: { number < 2147483647 },
}

impl Minstd {
    /// The generator that starts with this number, modulo 2^31 - 1.
    pub fn new(seed: u64) -> Minstd
        ensures { result.number ≡ seed % 2147483647 }
    {
        Minstd {
            number: seed % 2_147_483_647,
        }
    }
}

impl Oracle for Minstd {
    ghost use Rattle.uses.specs.Minstd.{answer_at};

    ghost answers = { λ m i. answer_at m.number i };

    fn answer(&mut self) -> bool {
        let next = self.number * 48_271 % 2_147_483_647;
        self.number = next;
        1_073_741_823 < next
    }
}

/// The items through a ring over words that flicker, whose overlapped reads are answered in this way: what was taken is a
/// prefix of the items, whatever the seed.
pub fn pass_flickering<R: Threads, A: Allocator + Copy>(
    rt: &R,
    alloc: A,
    shape: Shape,
    items: &[u64],
    calls: u64,
    seed: u64,
) -> Result<Vec<u64, A>, RunFault>
    requires { AllFit shape items.now }
    ensures { IfOk result (λ taken. IsPrefix taken.items items.now) }
{
    let limits = Limits::both(calls);
    let ours = Minstd::new(seed);
    let outcome = relay_flicker(rt, alloc, shape, ours, ours, items, limits, &FreeGate)?;
    Ok(outcome.taken)
}
