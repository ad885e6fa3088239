//! Items that are not numbers: packed into one number each, or represented by the places at which the caller keeps them.
ghost use Rattle.std.specs.Prelude.{◌≡◌, ℕ, ◌^◌, ◌<◌, ◌≤◌, IfOk, length, slice_index, map};
ghost use Rattle.bits_core.specs.Made.{IsPrefix};
ghost use Rattle.bits_core.specs.Shape.{AllFit, width_of};
ghost use Rattle.uses.specs.Reading.{unpacked};

use crate::relays::pass_on;
use bits_core::Shape;
use ring_run::RunFault;
use std::alloc::{AllocError, Allocator};
use std::thread::Threads;

/// A reading of two sensors, and whether it is the last.
#[derive(Clone, Copy, PartialEq, Eq, Debug)]
pub struct Reading {
    pub left: u16,
    pub right: u16,
    pub last: bool,
}

impl Reading {
    /// The reading as an item of 33 binary digits.
    pub fn pack(&self) -> u64
        ensures unpacks { unpacked result ≡ self.now }
        ensures fits { result < 2 ^ 33 }
    {
        u64::from(self.left) + u64::from(self.right) * 65_536 + u64::from(self.last) * 4_294_967_296
    }

    /// The reading that such an item has.
    pub fn unpack(item: u64) -> Reading
        ensures { result ≡ unpacked item }
    {
        Reading {
            left: (item % 65_536) as u16,
            right: (item / 65_536 % 65_536) as u16,
            last: item / 4_294_967_296 % 2 == 1,
        }
    }
}

// The readings as items of a shape that is wide enough.
fn pack_all<A: Allocator>(
    alloc: A,
    shape: &Shape,
    readings: &[Reading],
) -> Result<Vec<u64, A>, AllocError>
    requires wide { 33 ≤ width_of shape.now }
    ensures unpack { IfOk result (λ items. map unpacked items.items ≡ readings.now) }
    ensures fit { IfOk result (λ items. AllFit shape.now items.items) }
{
    let mut items = Vec::new(alloc);
    'readings: for reading in readings {
        items.push(reading.pack())?;
    }
    Ok(items)
}

fn unpack_all<A: Allocator>(alloc: A, items: &[u64]) -> Result<Vec<Reading, A>, AllocError>
    ensures { IfOk result (λ readings. readings.items ≡ map unpacked items.now) }
{
    let mut readings = Vec::new(alloc);
    'items: for item in items {
        readings.push(Reading::unpack(*item))?;
    }
    Ok(readings)
}

/// The readings through a ring between two threads: what was taken is a prefix of them.
pub fn pass_readings<R: Threads, A: Allocator + Copy>(
    rt: &R,
    alloc: A,
    shape: Shape,
    readings: &[Reading],
    calls: u64,
) -> Result<Vec<Reading, A>, RunFault>
    requires { 33 ≤ width_of shape }
    ensures { IfOk result (λ taken. IsPrefix taken.items readings.now) }
{
    let items = pack_all(alloc, &shape, readings)?;
    let taken = pass_on(rt, alloc, shape, items.as_slice(), calls)?;
    let readings = unpack_all(alloc, taken.as_slice())?;
    Ok(readings)
}

fn places<A: Allocator>(alloc: A, shape: &Shape, count: usize) -> Result<Vec<u64, A>, AllocError>
    requires { count ≤ 2 ^ width_of shape.now }
    ensures places { IfOk result (λ all. (length all.items ≡ count) ×
        ((k : ℕ) → k < count → slice_index all.items k ≡ k)) }
    ensures fit { IfOk result (λ all. AllFit shape.now all.items) }
{
    let mut all = Vec::new(alloc);
    'places: for place in 0..count {
        all.push(place as u64)?;
    }
    Ok(all)
}

/// Things of any kind stay where they are, and their places go through a ring: what was taken are the places of the first
/// ones, in order, so each is one of the slice.
pub fn pass_places<T, R: Threads, A: Allocator + Copy>(
    rt: &R,
    alloc: A,
    shape: Shape,
    things: &[T],
    calls: u64,
) -> Result<Vec<u64, A>, RunFault>
    requires { length things.now ≤ 2 ^ width_of shape }
    ensures { IfOk result (λ taken. (k : ℕ) → k < length taken.items → (slice_index taken.items k ≡ k) ×
        (k < length things.now)) }
{
    let all = places(alloc, &shape, things.len())?;
    let taken = pass_on(rt, alloc, shape, all.as_slice(), calls)?;
    Ok(taken)
}
