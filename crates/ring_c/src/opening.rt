//! How a ring is made for C, ended and freed.
ghost use Rattle.std.specs.Prelude.{◌≡◌};
ghost use Rattle.ring_c.specs.Calls.{Finishes, FinishesBy, OfOneRing, OpensBy, shape_number};

use crate::handles::{RingPutter, RingTaker};
use bits_core::{Shape, ShapeFault};
use ring_held::{HeldPutter, HeldTaker, finish, hold};
use std::alloc::Global;

// The number of a fault.
fn fault_number(fault: ShapeFault) -> u32
    ensures { result ≡ shape_number fault }
{
    match fault {
        ShapeFault::Capacity => 1,
        ShapeFault::Batch => 2,
        ShapeFault::TakeBatch => 3,
        ShapeFault::Modulus | ShapeFault::ModulusOfBatches => 4,
        ShapeFault::Width => 5,
    }
}

/// Makes a ring with nothing put, in the form of its two ends. 0: done. 1 to 5: the capacity, the batch, the take
/// batch, the modulus or the width is out of range. 6: there is not enough memory. 7: a handle has an end already. Unless it is 0, nothing is changed.
#[unsafe(no_mangle)]
pub extern "C" fn ring_open(
    alloc: Global,
    putter: &mut RingPutter,
    taker: &mut RingTaker,
    capacity: u64,
    modulus: u64,
    width: u64,
    batch: u64,
    take_batch: u64,
) -> u32
    ensures { OpensBy capacity modulus width batch take_batch result putter.old.slot.value putter.new.slot.value
        taker.old.slot.value taker.new.slot.value }
{
    if putter.is_open() || taker.is_open() {
        return 7;
    }
    let shape = match Shape::with_batches(capacity, modulus, width, batch, take_batch) {
        Ok(shape) => shape,
        Err(fault) => return fault_number(fault),
    };
    let Ok((p, c)) = hold(alloc, shape) else {
        return 6;
    };
    let (Ok(p), Ok(c)) = (Box::new(alloc, p), Box::new(alloc, c)) else {
        return 6;
    };
    putter.keep(p);
    taker.keep(c);
    0
}

// Ends the run of a ring, of which these are the two ends.
fn finish_by(putter: HeldPutter<Global>, taker: HeldTaker<Global>)
    requires { putter.ring ≡ taker.ring }
    ensures { Finishes putter taker }
{
    // what remains of the run is not needed
    let _finished = finish(putter, taker);
}

/// Ends the run of a ring, of which these are the two ends: both are gone, and its memory is freed. If a handle has no end,
/// nothing is changed. Returns whether both had one.
#[unsafe(no_mangle)]
pub extern "C" fn ring_finish(alloc: Global, putter: &mut RingPutter, taker: &mut RingTaker) -> bool
    requires { OfOneRing putter.old.slot.value taker.old.slot.value }
    ensures { FinishesBy putter.old.slot.value putter.new.slot.value taker.old.slot.value taker.new.slot.value result }
{
    if !putter.is_open() || !taker.is_open() {
        return false;
    }
    let (Some(p), Some(c)) = (putter.take(alloc), taker.take(alloc)) else {
        return false;
    };
    finish_by(Box::into_inner(p), Box::into_inner(c));
    true
}

/// Releases the end, if the handle has one. The ring's memory is freed once both ends are gone.
#[unsafe(no_mangle)]
pub extern "C" fn ring_free_putter(alloc: Global, putter: &mut RingPutter)
    ensures { putter.new.slot.value ≡ None }
{
    // dropping the end frees it
    let _end = putter.take(alloc);
}

/// Releases the end, in the same way.
#[unsafe(no_mangle)]
pub extern "C" fn ring_free_taker(alloc: Global, taker: &mut RingTaker)
    ensures { taker.new.slot.value ≡ None }
{
    // dropping the end frees it
    let _end = taker.take(alloc);
}
