//! The complete calls of a counter ring, by its seats.
ghost use Rattle.std.specs.Prelude.{◌≡◌, ◌⊎◌, ℕ, ◌<◌, ◌≤◌, true, false, Some, [], ◌∷◌, length, drop};
ghost use Rattle.bits_core.specs.Shape.{modulus_of, take_batch_of};
ghost use Rattle.bits_core.specs.declared.events.Side.TheVariants.{P};
ghost use Rattle.ring_core.specs.declared.replies.TakeReply.TheVariants.{Item};
ghost use Rattle.ring_core.specs.Puts.{Puts, IsBatch};
ghost use Rattle.ring_core.specs.Takes.{Takes, Open};
ghost use Rattle.ring_core.specs.ProducerCalls.{and_close, room_in};
ghost use Rattle.ring_core.specs.ConsumerCalls.{take_batch_reply, items_reply, reply_items};
ghost use Rattle.ring_seats.specs.Calls.{HasPuts};
ghost use Rattle.ring_ends.specs.CounterEnds.{PutterList, PutKept, TakerList, TakeKept, TakeAllKept, LookMade, HasLooked, number_brought};
ghost use Rattle.ring_seats.specs.Ring.{RingEnd};
ghost use Rattle.ring_seats.specs.Steppers.{IsSameEnd, StandsAs};

use bits_core::Shape;
use ring_core::{TakeBatchReply, TakeReply, distance, has_item, items_shown, past_in};
use ring_seats::{Counting, Stepper};

/// What an end of a counter ring has counted: its own counter, and the number of the next cell.
#[derive(Drop)]
pub(crate) struct Counted {
    pub(crate) count: u64,
    pub(crate) cell: u64,
}

// How many of `offered` items a producer that has put `n` stores, if it read the consumer's count `seen`.
fn fitting(shape: &Shape, n: u64, seen: u64, offered: usize) -> usize
    requires n { n < modulus_of shape.now }
    requires seen { seen < modulus_of shape.now }
    ensures few { result ≤ offered }
    ensures room { result ≤ room_in shape.now n seen }
    ensures all { (result ≡ offered) ⊎ (result ≡ room_in shape.now n seen) }
{
    let ahead = distance(n, seen, shape.modulus());
    if ahead >= shape.capacity() {
        return 0;
    }
    let room = (shape.capacity() - ahead) as usize;
    if room < offered { room } else { offered }
}

/// A put to a ring that is not closed: one load and, if there is room, a store for each item that fits and one more store. The
/// count and the cell are those of the puts that the seat has made, and advance by the items. Returns how many were stored,
/// starting with the first, or 0 if the ring was full. There are 1 to as many items as the shape's batch, and each has to fit
/// the width. For example, a putter of a counter ring puts in this way.
pub(crate) fn put_open<'a>(
    stepper: &mut Stepper<'a, Counting>,
    items: &[u64],
    count: &mut u64,
    cell: &mut u64,
) -> usize
    requires at { (calls : Puts) × PutterList stepper.old count.old cell.old calls × (calls.closes ≡ false) }
    requires batch { IsBatch stepper.old.ring.shape items.now }
    ensures { (calls : Puts) → PutterList stepper.old count.old cell.old calls → calls.closes ≡ false →
        PutKept stepper.old stepper.new count.new cell.new calls items.now result }
{
    let shape = stepper.shape();
    let seen = stepper.scan(); // (how far the takes have come)
    let most = fitting(&shape, *count, seen, items.len());
    if most == 0 {
        return 0;
    }
    stepper.write_items(*cell, &items[..most]);
    *count = past_in(*count, most as u64, shape.modulus());
    stepper.write_count(*count); // (after the cells)
    *cell = past_in(*cell, most as u64, shape.capacity());
    most
}

/// A close of a ring that is not closed: one store. For example, a putter of a counter ring closes in this way.
pub(crate) fn close_open<'a>(stepper: &mut Stepper<'a, Counting>)
    requires at { (calls : Puts) × (stepper.old.side ≡ P) × HasPuts stepper.old.ring.shape stepper.old.list calls ×
        (calls.closes ≡ false) }
    ensures same { IsSameEnd stepper.old stepper.new }
    ensures stands { StandsAs P stepper.new }
    ensures has { (calls : Puts) → HasPuts stepper.old.ring.shape stepper.old.list calls → calls.closes ≡ false →
        HasPuts stepper.new.ring.shape stepper.new.list (and_close calls) }
{
    stepper.write_close();
}

// The result of the scans of a take.
#[derive(Clone, Copy)]
enum Scanned {
    // It takes this many items.
    Shows(usize),
    // It is over, with this reply.
    Over(TakeReply),
}

// The scans of a take of at most `wanted` items. One load and, if it shows no item, one of the close word; if that is 1, one
// more load.
fn look<'a>(stepper: &mut Stepper<'a, Counting>, count: u64, cell: u64, wanted: usize) -> Scanned
    requires at { (calls : Takes) × TakerList stepper.old count cell calls × (calls.end ≡ Open) }
    requires some { 1 ≤ wanted }
    ensures { (calls : Takes) → TakerList stepper.old count cell calls → calls.end ≡ Open →
        LookMade stepper.old stepper.new calls wanted result }
{
    let shape = stepper.shape();
    let seen = stepper.scan();
    if has_item(&shape, seen, count) {
        return Scanned::Shows(items_shown(&shape, seen, count, wanted));
    }
    if !stepper.read_close() {
        return Scanned::Over(TakeReply::Empty);
    }
    let again = stepper.scan();
    if has_item(&shape, again, count) {
        return Scanned::Shows(items_shown(&shape, again, count, wanted));
    }
    Scanned::Over(TakeReply::Closed)
}

// After the scans of a take of one that found an item: one load of its cell, and one store of the count.
fn fetch<'a>(stepper: &mut Stepper<'a, Counting>, count: &mut u64, cell: &mut u64) -> u64
    requires at { (before : RingEnd) × (calls : Takes) × HasLooked before stepper.old count.old cell.old calls 1 1 }
    ensures { (before : RingEnd) (calls : Takes) → HasLooked before stepper.old count.old cell.old calls 1 1 →
        TakeKept before stepper.new count.new cell.new calls 1 (Item result) (result ∷ []) }
{
    let shape = stepper.shape();
    let item = stepper.read_cell(*cell);
    *count = past_in(*count, 1, shape.modulus());
    stepper.write_count(*count);
    *cell = past_in(*cell, 1, shape.capacity());
    item
}

/// A take by a seat that has not returned Closed: one load, and with an item one of its cell and one store; without one, a load
/// of the close word, and if that is 1, one more load. The count and the cell are those of the takes that the seat has made, and
/// advance by the item. For example, a taker of a counter ring takes in this way.
pub(crate) fn take_open<'a>(
    stepper: &mut Stepper<'a, Counting>,
    count: &mut u64,
    cell: &mut u64,
) -> TakeReply
    requires at { (calls : Takes) × TakerList stepper.old count.old cell.old calls × (calls.end ≡ Open) }
    ensures { (calls : Takes) → TakerList stepper.old count.old cell.old calls → calls.end ≡ Open →
        TakeKept stepper.old stepper.new count.new cell.new calls 1 result (reply_items result) }
{
    match look(stepper, *count, *cell, 1) {
        Scanned::Over(reply) => reply,
        Scanned::Shows(_) => TakeReply::Item(fetch(stepper, count, cell)),
    }
}

// After the scans of a take that found as many items as there are places: a load of the cell of each, and one store of the
// count.
fn fetch_all<'a>(
    stepper: &mut Stepper<'a, Counting>,
    count: &mut u64,
    cell: &mut u64,
    into: &mut [u64],
)
    requires at { (before : RingEnd) × (calls : Takes) × (wanted : ℕ) ×
        HasLooked before stepper.old count.old cell.old calls wanted (length into.old) }
    ensures long { length into.new ≡ length into.old }
    ensures kept { (before : RingEnd) (calls : Takes) (wanted : ℕ) →
        HasLooked before stepper.old count.old cell.old calls wanted (length into.old) →
        TakeKept before stepper.new count.new cell.new calls wanted (items_reply into.new) into.new }
{
    let shape = stepper.shape();
    stepper.read_items(*cell, into);
    *count = past_in(*count, into.len() as u64, shape.modulus());
    stepper.write_count(*count); // (after the loads)
    *cell = past_in(*cell, into.len() as u64, shape.capacity());
}

// The reply of a take that brought no item, with its number of items.
fn of_none(reply: TakeReply) -> TakeBatchReply
    ensures reply { Some result ≡ take_batch_reply (Some reply) [] }
    ensures none { number_brought result ≡ 0 }
{
    match reply {
        TakeReply::Item(_) => TakeBatchReply::Taken(0),
        TakeReply::Empty => TakeBatchReply::Empty,
        TakeReply::Closed => TakeBatchReply::Closed,
    }
}

/// A take of several items under one count write, by a seat that has not returned Closed: one load, and with items one of
/// the cell of each and one store; without one, a load of the close word, and if that is 1, one more load. It takes those
/// that the producer's count shows, starting with the first, at most as many as there are places, and returns how many;
/// they are in the first places, and the others are unchanged. There are 1 to as many places as the shape's take batch. The
/// count and the cell are those of the takes that the seat has made, and advance by the items. For example, a taker of a
/// counter ring takes several items in this way.
pub(crate) fn take_all_open<'a>(
    stepper: &mut Stepper<'a, Counting>,
    into: &mut [u64],
    count: &mut u64,
    cell: &mut u64,
) -> TakeBatchReply
    requires at { (calls : Takes) × TakerList stepper.old count.old cell.old calls × (calls.end ≡ Open) }
    requires some { 1 ≤ length into.old }
    requires few { length into.old ≤ take_batch_of stepper.old.ring.shape }
    ensures long { length into.new ≡ length into.old }
    ensures others { drop (number_brought result) into.new ≡ drop (number_brought result) into.old }
    ensures taken { (calls : Takes) → TakerList stepper.old count.old cell.old calls → calls.end ≡ Open →
        TakeAllKept stepper.old stepper.new count.new cell.new calls (length into.old) result into.new }
{
    match look(stepper, *count, *cell, into.len()) {
        Scanned::Over(reply) => of_none(reply),
        Scanned::Shows(most) => {
            fetch_all(stepper, count, cell, &mut into[..most]);
            TakeBatchReply::Taken(most as u64)
        }
    }
}
