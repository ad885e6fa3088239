//! The calls of the consumer.
ghost use Rattle.ring_c.specs.Calls.{ReportsTold, TakesAllBy, TakesAllOr, TakesAs, TakesBy};

use crate::handles::RingTaker;
use ring_core::{TakeBatchReply, TakeReply};
use ring_ends::TakeEnd;
use ring_held::HeldTaker;
use std::alloc::Global;

// A take, with its reply as numbers: the reply's, and what is then at the item's place.
#[inline(always)]
fn take_by(end: &mut HeldTaker<Global>, before: u64) -> (u32, u64)
    ensures { TakesAs end.old end.new result.0 before result.1 }
{
    match end.take() {
        TakeReply::Item(item) => (0, item),
        TakeReply::Empty => (1, before),
        TakeReply::Closed => (2, before),
    }
}

// A take of several items, with its reply as numbers: the reply's, and how many were taken.
#[inline(always)]
fn take_all_by(end: &mut HeldTaker<Global>, into: &mut [u64]) -> (u32, usize)
    ensures { TakesAllOr end.old end.new result.0 into.old into.new result.1 }
{
    if into.is_empty() || into.len() as u64 > end.shape().take_batch() {
        return (3, 0);
    }
    match end.take_all(into) {
        TakeBatchReply::Taken(count) => (0, count as usize),
        TakeBatchReply::Empty => (1, 0),
        TakeBatchReply::Closed => (2, 0),
    }
}

/// Takes the next item. 0: it is in `item`, which is otherwise unchanged. 1: the ring is empty. 2: it is closed, and all that
/// was put has been taken. 3: refused, because the handle has no end.
#[unsafe(no_mangle)]
pub extern "C" fn ring_take(alloc: Global, taker: &mut RingTaker, item: &mut u64) -> u32
    ensures { TakesBy taker.old.slot.value taker.new.slot.value result item.old item.new }
{
    let Some(mut end) = taker.take(alloc) else {
        return 3;
    };
    let (code, found) = take_by(&mut end, *item);
    taker.keep(end);
    *item = found;
    code
}

/// Takes the next items under one count write, at most as many as there are places, and reports their number. They are in the
/// first places, in order; the others are unchanged. The numbers are those of [`ring_take`]. It is refused too if there is no
/// place, or if there are more than the shape's take batch.
#[unsafe(no_mangle)]
pub extern "C" fn ring_take_all(
    alloc: Global,
    taker: &mut RingTaker,
    into: &mut [u64],
    taken: &mut usize,
) -> u32
    ensures { TakesAllBy taker.old.slot.value taker.new.slot.value result into.old into.new taken.new }
{
    let Some(mut end) = taker.take(alloc) else {
        *taken = 0;
        return 3;
    };
    let (code, count) = take_all_by(&mut end, into);
    taker.keep(end);
    *taken = count;
    code
}

/// Returns whether the handle has an end of which a take has returned Closed. It makes no access.
#[unsafe(no_mangle)]
pub extern "C" fn ring_is_told(alloc: Global, taker: &mut RingTaker) -> bool
    ensures { ReportsTold taker.old.slot.value taker.new.slot.value result }
{
    let Some(end) = taker.take(alloc) else {
        return false;
    };
    let told = end.is_told();
    taker.keep(end);
    told
}
