// Complete calls of both ends in one thread, in a given order, on a ring of either kind.
ghost use Rattle.std.specs.Prelude.{◌≡◌};

use crate::tests::expects::shape_of;
use bits_core::{Flip, Shape};
use ring_core::{BatchReply, PutReply, TakeBatchReply, TakeReply};
use ring_run::{CounterRing, FlickerRing, PutEnd, RingOf, TakeEnd};
use std::alloc::AllocGlobal;
use std::process::Abort;

// A call, and its reply.
#[derive(Clone, Copy)]
pub(crate) enum Call {
    Put(u64, PutReply),
    PutAll(&'static [u64], BatchReply),
    Close,
    Take(TakeReply),
    // of at most this many items; and what it brings
    TakeAll(usize, TakeBatchReply, &'static [u64]),
    Meet,
}

// A shape, by its capacity, modulus, width and batch; calls in order; and at the end: whether the ring is closed, and whether Closed was returned.
struct Case {
    shape: [u64; 4],
    closed: bool,
    told: bool,
    calls: &'static [Call],
}

// A shape, whether the ring is closed at the end, whether Closed was returned, and the calls.
macro_rules! case {
    ($shape:expr, closed $closed:literal, told $told:literal; $($call:ident $(($($part:expr),*))?),*) => {
        Case {
            shape: $shape,
            closed: $closed,
            told: $told,
            calls: &[$(Call::$call $(($($part),*))?),*],
        }
    };
}

// The put of this item, or of it and more, has the expected reply.
fn expect_reply(rt: &impl Abort, is_wanted: bool, item: u64) {
    assert!(rt; is_wanted, "put {item}");
}

// The take of at most this many items has this reply and brings these; the other places are unchanged.
fn expect_taken<T: TakeEnd>(
    rt: &impl Abort,
    taker: &mut T,
    wanted: usize,
    reply: TakeBatchReply,
    items: &[u64],
)
    requires idle { T.idle taker.old }
    ensures idle { T.idle taker.new }
    ensures taker { (T.end taker.new).ring ≡ (T.end taker.old).ring }
{
    let shape = taker.shape();
    assert!(rt; 1 <= wanted && wanted <= 64);
    assert!(rt; wanted as u64 <= shape.take_batch());
    let mut room = [77; 64];
    let told = taker.take_all(&mut room[..wanted]);
    assert!(rt; told == reply);
    assert!(rt; room.get(..items.len()) == Some(items));
    let others = room.get(items.len()..).unwrap_or(&[]);
    assert!(rt; others.iter().all(|place| *place == 77));
}

// The call has this reply. It is not a meeting.
fn expect_answer<P: PutEnd, T: TakeEnd>(rt: &impl Abort, putter: &mut P, taker: &mut T, call: &Call)
    requires idle { P.idle putter.old × T.idle taker.old }
    ensures idle { P.idle putter.new × T.idle taker.new }
    ensures putter { (P.end putter.new).ring ≡ (P.end putter.old).ring }
    ensures taker { (T.end taker.new).ring ≡ (T.end taker.old).ring }
{
    let shape = putter.shape();
    match *call {
        Call::Put(item, wanted) => {
            assert!(rt; shape.fits(item));
            let reply = putter.put(item);
            expect_reply(rt, reply == wanted, item);
        }
        Call::PutAll(items, wanted) => {
            assert!(rt; !items.is_empty() && items.len() as u64 <= shape.batch());
            assert!(rt; shape.fits_all(items));
            let reply = putter.put_all(items);
            expect_reply(rt, reply == wanted, items[0]);
        }
        Call::Close => putter.close(),
        Call::Take(wanted) => {
            assert!(rt; taker.take() == wanted);
        }
        Call::TakeAll(wanted, reply, items) => expect_taken(rt, taker, wanted, reply, items),
        Call::Meet => {}
    }
}

/// The calls have these replies. None of them is a meeting.
pub fn expect_each<P: PutEnd, T: TakeEnd>(
    rt: &impl Abort,
    putter: &mut P,
    taker: &mut T,
    calls: &[Call],
)
    requires idle { P.idle putter.old × T.idle taker.old }
    ensures idle { P.idle putter.new × T.idle taker.new }
    ensures putter { (P.end putter.new).ring ≡ (P.end putter.old).ring }
    ensures taker { (T.end taker.new).ring ≡ (T.end taker.old).ring }
{
    for call in calls {
        expect_answer(rt, putter, taker, call);
    }
}

// The call has this reply, or the ends of one ring meet.
fn expect_call<K: RingOf<P, T>, P: PutEnd, T: TakeEnd>(
    rt: &impl Abort,
    _ring: &K,
    ends: (P, T),
    call: &Call,
) -> (P, T)
    requires ring { (P.end ends.0).ring ≡ (T.end ends.1).ring }
    requires idle { P.idle ends.0 × T.idle ends.1 }
    ensures ring { (P.end result.0).ring ≡ (T.end result.1).ring }
    ensures idle { P.idle result.0 × T.idle result.1 }
{
    let (mut putter, mut taker) = ends;
    if matches!(call, Call::Meet) {
        return K::meet(putter, taker);
    }
    expect_answer(rt, &mut putter, &mut taker, call);
    (putter, taker)
}

// The calls have these replies, and then the run ends.
fn expect_run<K: RingOf<P, T>, P: PutEnd, T: TakeEnd>(
    rt: &impl Abort,
    ring: &K,
    first: (P, T),
    case: &Case,
)
    requires ring { (P.end first.0).ring ≡ (T.end first.1).ring }
    requires idle { P.idle first.0 × T.idle first.1 }
{
    let mut ends = first;
    for call in case.calls {
        ends = expect_call(rt, ring, ends, call);
    }
    let (putter, taker) = ends;
    let finished = K::finish(putter, taker);
    assert_eq!(rt;
        (finished.closed(), finished.told()),
        (case.closed, case.told)
    );
}

fn expect_flicker(rt: &(impl Abort + AllocGlobal), shape: Shape, case: &Case) {
    let made = FlickerRing::new(rt.alloc(), shape);
    let (ring, start) = made.expect(rt, "memory for the ring");
    let (putter, taker) = ring.ends(start, Flip::new(), Flip::new());
    expect_run(rt, &ring, (putter, taker), case);
}

fn expect_counter(rt: &(impl Abort + AllocGlobal), shape: Shape, case: &Case) {
    let made = CounterRing::new(rt.alloc(), shape);
    let (ring, start) = made.expect(rt, "memory for the ring");
    let (putter, taker) = ring.ends(start);
    expect_run(rt, &ring, (putter, taker), case);
}

// The same on a ring of either kind.
fn expect_calls(rt: &(impl Abort + AllocGlobal), case: &Case) {
    let shape = shape_of(rt, &case.shape);
    expect_flicker(rt, shape, case);
    expect_counter(rt, shape, case);
}

// Ends of one ring of this kind meet, a take finds the ring empty, and then the run ends.
fn expect_empty<K: RingOf<P, T>, P: PutEnd, T: TakeEnd>(
    rt: &impl Abort,
    _ring: &K,
    putter: P,
    taker: T,
)
    requires ring { (P.end putter).ring ≡ (T.end taker).ring }
    requires idle { P.idle putter × T.idle taker }
{
    let (mut putter, mut taker) = K::meet(putter, taker);
    expect_answer(rt, &mut putter, &mut taker, &Call::Take(TakeReply::Empty));
    let finished = K::finish(putter, taker);
    assert!(rt; !finished.closed() && !finished.told());
}

#[test]
fn ends_of_either_kind_meet_and_end_alike(rt: HostRuntime) {
    let shape = shape_of(&rt, &[1, 3, 1, 1]);
    let made = FlickerRing::new(rt.alloc(), shape);
    let (ring, start) = made.expect(&rt, "memory for the ring");
    let (putter, taker) = ring.ends(start, Flip::new(), Flip::new());
    expect_empty(&rt, &ring, putter, taker);
    let made = CounterRing::new(rt.alloc(), shape);
    let (ring, start) = made.expect(&rt, "memory for the ring");
    let (putter, taker) = ring.ends(start);
    expect_empty(&rt, &ring, putter, taker);
}

static MEETING: Case = case!([1, 3, 1, 1], closed true, told true;
    Put(1, PutReply::Stored), Meet, Take(TakeReply::Item(1)), Take(TakeReply::Empty), Close, Meet,
    Take(TakeReply::Closed), Take(TakeReply::Closed));

#[test]
fn ends_that_meet_between_their_calls_hand_items_over(rt: HostRuntime) {
    expect_calls(&rt, &MEETING);
}

static UNMET: Case = case!([1, 3, 1, 1], closed true, told true;
    Put(1, PutReply::Stored), Put(0, PutReply::Full), Take(TakeReply::Item(1)), Take(TakeReply::Empty),
    Put(0, PutReply::Stored), Take(TakeReply::Item(0)), Close, Take(TakeReply::Closed));

#[test]
fn ends_that_never_meet_hand_items_over(rt: HostRuntime) {
    expect_calls(&rt, &UNMET);
}

static ENDINGS: [Case; 5] = [
    // no call at all
    case!([1, 3, 1, 1], closed false, told false;),
    case!([1, 3, 1, 1], closed false, told false;
        Put(1, PutReply::Stored), Take(TakeReply::Item(1)), Take(TakeReply::Empty)),
    // a close without a take that returns Closed
    case!([1, 3, 1, 1], closed true, told false; Close),
    case!([1, 3, 1, 1], closed true, told false;
        Take(TakeReply::Empty), Put(0, PutReply::Stored), Close, Take(TakeReply::Item(0))),
    case!([1, 3, 1, 1], closed true, told true; Close, Take(TakeReply::Closed)),
];

#[test]
fn a_run_ends_closed_and_told_as_it_was(rt: HostRuntime) {
    for case in ENDINGS.iter() {
        expect_calls(&rt, case);
    }
}

static ALONE: Case = case!([2, 4, 2, 1], closed true, told false;
    Put(2, PutReply::Stored), Put(1, PutReply::Stored), Put(3, PutReply::Full), Close,
    Put(0, PutReply::Closed), PutAll(&[0], BatchReply::Closed), Close);

#[test]
fn a_putter_alone_fills_the_ring_and_closes_it(rt: HostRuntime) {
    expect_calls(&rt, &ALONE);
}

static PARTIAL: Case = case!([3, 6, 1, 2], closed false, told false;
    PutAll(&[1, 0], BatchReply::Stored(2)), PutAll(&[1, 1], BatchReply::Stored(1)),
    PutAll(&[1], BatchReply::Full));

#[test]
fn a_batch_is_stored_as_far_as_there_is_room(rt: HostRuntime) {
    expect_calls(&rt, &PARTIAL);
}

// Takes of up to two items, from a ring of three cells.
static TAKES: Case = case!([3, 7, 3, 3], closed true, told true;
    TakeAll(2, TakeBatchReply::Empty, &[]), PutAll(&[1, 2, 3], BatchReply::Stored(3)),
    TakeAll(2, TakeBatchReply::Taken(2), &[1, 2]), PutAll(&[4, 5, 6], BatchReply::Stored(2)),
    TakeAll(2, TakeBatchReply::Taken(2), &[3, 4]), Take(TakeReply::Item(5)), Meet,
    TakeAll(2, TakeBatchReply::Empty, &[]), Put(6, PutReply::Stored),
    TakeAll(2, TakeBatchReply::Taken(1), &[6]), PutAll(&[7, 0], BatchReply::Stored(2)), Close,
    TakeAll(1, TakeBatchReply::Taken(1), &[7]), TakeAll(2, TakeBatchReply::Taken(1), &[0]),
    TakeAll(2, TakeBatchReply::Closed, &[]), Take(TakeReply::Closed),
    TakeAll(1, TakeBatchReply::Closed, &[]));

#[test]
fn a_take_brings_as_many_items_as_are_shown_and_there_are_places(rt: HostRuntime) {
    let shape = Shape::with_batches(3, 7, 3, 3, 2).expect(&rt, "a shape");
    expect_flicker(&rt, shape, &TAKES);
    expect_counter(&rt, shape, &TAKES);
}
