//! The calls of the producer.
ghost use Rattle.ring_c.specs.Calls.{ClosesBy, ReportsClosed, PutsAllBy, PutsAllOr, PutsBy, PutsOr};

use crate::handles::RingPutter;
use ring_core::{BatchReply, PutReply};
use ring_ends::PutEnd;
use ring_held::HeldPutter;
use std::alloc::Global;

// A put, with its reply as a number.
#[inline(always)]
fn put_by(end: &mut HeldPutter<Global>, item: u64) -> u32
    ensures { PutsOr end.old end.new item result }
{
    if !end.shape().fits(item) {
        return 3;
    }
    match end.put(item) {
        PutReply::Stored => 0,
        PutReply::Full => 1,
        PutReply::Closed => 2,
    }
}

// A put of several items, with its reply as numbers: the reply's, and how many were stored.
#[inline(always)]
fn put_all_by(end: &mut HeldPutter<Global>, items: &[u64]) -> (u32, usize)
    ensures { PutsAllOr end.old end.new items.now result.0 result.1 }
{
    let shape = end.shape();
    if items.is_empty() || items.len() as u64 > shape.batch() || !shape.fits_all(items) {
        return (3, 0);
    }
    match end.put_all(items) {
        BatchReply::Stored(count) => (0, count as usize),
        BatchReply::Full => (1, 0),
        BatchReply::Closed => (2, 0),
    }
}

/// Puts the item. 0: it is stored. 1: the ring is full. 2: the ring is closed. 3: refused, because the handle has no end or
/// the item does not fit the width; then nothing is changed.
#[unsafe(no_mangle)]
pub extern "C" fn ring_put(alloc: Global, putter: &mut RingPutter, item: u64) -> u32
    ensures { PutsBy putter.old.slot.value putter.new.slot.value item result }
{
    let Some(mut end) = putter.take(alloc) else {
        return 3;
    };
    let code = put_by(&mut end, item);
    putter.keep(end);
    code
}

/// Puts the items, starting with the first, as many as there is room for, under one count write, and reports their number.
/// The numbers are those of [`ring_put`]. It is refused too if there is no item, or if there are more than the shape's batch.
#[unsafe(no_mangle)]
pub extern "C" fn ring_put_all(
    alloc: Global,
    putter: &mut RingPutter,
    items: &[u64],
    stored: &mut usize,
) -> u32
    ensures { PutsAllBy putter.old.slot.value putter.new.slot.value items.now result stored.new }
{
    let Some(mut end) = putter.take(alloc) else {
        *stored = 0;
        return 3;
    };
    let (code, count) = put_all_by(&mut end, items);
    putter.keep(end);
    *stored = count;
    code
}

/// Closes the ring. A second close changes nothing. Returns whether the handle has an end.
#[unsafe(no_mangle)]
pub extern "C" fn ring_close(alloc: Global, putter: &mut RingPutter) -> bool
    ensures { ClosesBy putter.old.slot.value putter.new.slot.value result }
{
    let Some(mut end) = putter.take(alloc) else {
        return false;
    };
    end.close();
    putter.keep(end);
    true
}

/// Returns whether the handle has an end that has closed the ring. It makes no access.
#[unsafe(no_mangle)]
pub extern "C" fn ring_is_closed(alloc: Global, putter: &mut RingPutter) -> bool
    ensures { ReportsClosed putter.old.slot.value putter.new.slot.value result }
{
    let Some(end) = putter.take(alloc) else {
        return false;
    };
    let closed = end.is_closed();
    putter.keep(end);
    closed
}
