//! The two ends of a ring running in two threads.
ghost use Rattle.std.specs.Prelude.{◌≡◌, ◌⊎◌, ℕ, ◌+◌, ◌<◌, ◌≤◌, ◌==◌, true, false, [], ◌∷◌, ◌++◌, IfOk, IfErr, OnOk, OnErr, length, min, take, vec_capacity};
ghost use Rattle.ring_seats.specs.Steppers.{IsSameEnd};
ghost use Rattle.bits_core.specs.Made.{IsPrefix};
ghost use Rattle.bits_core.specs.Shape.{AllFit, batch_of, capacity_of, take_batch_of};
ghost use Rattle.ring_ends.specs.Ends.{HasTakenAll, number_brought};
ghost use Rattle.ring_run.specs.Relays.{HasMadePuts, HasRelayedPuts, HasRelayedTakes, HasTakenMore, IsRelayed};

use crate::gates::Gate;
use crate::sides::{Stage, Watch};
use bits_core::{Oracle, Shape, Side};
use queue_calls::{Event, Reply};
use ring_core::{BatchReply, TakeBatchReply, TakeReply};
use ring_ends::{CounterRing, FlickerRing, PutEnd, RingOf, RunFault, TakeEnd};
use std::alloc::{AllocError, Allocator};
use std::thread::{Threads, join_mut};

/// How many puts and takes a relay makes at most.
///
/// In use: `uses::relays::pass_on`.
#[derive(Clone, Copy, PartialEq, Eq, Debug)]
pub struct Limits {
    /// The most puts.
    pub puts: u64,
    /// The most takes; one that brings several items counts once for each.
    pub takes: u64,
}

impl Limits {
    /// The same for both.
    pub fn both(n: u64) -> Limits
        ensures { (result.puts ≡ n) × (result.takes ≡ n) }
    {
        Limits { puts: n, takes: n }
    }
}

// How many of the items left one put is offered: a batch, or all if fewer are left.
fn next_batch(shape: &Shape, left: usize) -> usize
    requires some { 0 < left }
    ensures some { 0 < result }
    ensures few { result ≤ batch_of shape.now }
    ensures left { result ≤ left }
    ensures most { (result ≡ batch_of shape.now) ⊎ ((result ≡ left) × (left ≤ batch_of shape.now)) }
{
    let batch = shape.batch() as usize;
    if left < batch { left } else { batch }
}

// Puts the items in order, as many at a time as the shape's batch has, each again while the ring is full, and
// closes after the last. It ends as well with a put that found the ring full and began when the taker was seen to have
// finished. Returns how many items were stored, how many puts were made, and how many found the ring full.
#[tactic(auto, using(ring_core::proofs::LawLemmas::puts_are_read))]
fn put_in_order<E: PutEnd, G: Gate>(
    putter: &mut E,
    items: &[u64],
    limit: u64,
    gate: &G,
    taker: &mut Watch<'_>,
) -> (u64, u64, u64)
    requires first { (taker.old.waited ≡ 0) × (taker.old.vain ≡ 0) }
    requires idle { E.idle putter.old }
    requires fresh { (E.end putter.old).list ≡ [] }
    requires fit { AllFit (E.end putter.old).ring.shape items.now }
    ensures idle { E.idle putter.new }
    ensures same { IsSameEnd (E.end putter.old) (E.end putter.new) }
    ensures puts { HasRelayedPuts (E.end putter.new).ring.shape (E.end putter.new).list items.now limit result.0
        result.1 result.2 }
    ensures ends { (result.0 ≡ length items.now) ⊎ ((result.1 ≡ limit) ⊎ (taker.new.vain ≡ 1)) }
    ensures once { taker.new.vain ≤ 1 }
    ensures full { result.2 ≡ taker.new.waited }
{
    let shape = putter.shape();
    let mut put = 0;
    let mut made = 0;
    let mut full = 0;
    let mut waits = 0;
    'puts: while put < items.len() && made < limit && taker.vain == 0 {
        gate.pass(Side::P, made);
        taker.look(waits);
        let next = put + next_batch(&shape, items.len() - put);
        gate.hears(Event::PutBegins(&items[put..next]));
        let reply = putter.put_all(&items[put..next]);
        match reply {
            BatchReply::Stored(stored) => {
                gate.hears(Event::PutEnds(Reply::Passed(stored as usize)));
                put += stored as usize;
                waits = 0;
            }
            BatchReply::Full => {
                gate.hears(Event::PutEnds(Reply::Lacked));
                taker.waits();
                full += 1;
                waits += 1;
                gate.wait(Side::P, waits);
            }
            BatchReply::Closed => unreachable!(),
        }
        made += 1;
    }
    if put == items.len() {
        gate.hears(Event::CloseBegins);
        putter.close();
        gate.hears(Event::CloseEnds);
    }
    (put as u64, made, full)
}

// How many items one take asks for: a take batch, or all if fewer are left.
fn next_take(shape: &Shape, left: u64) -> usize
    requires some { 0 < left }
    ensures lesser { result ≡ min (take_batch_of shape.now) left }
    ensures some { 0 < result }
    ensures few { result ≤ 64 }
{
    // only for the proof: gives the bounds of the capacity, which bound the take batch
    let _capacity = shape.capacity();
    shape.take_batch().min(left) as usize
}

// A take of one item, into this place.
#[inline(always)]
fn take_one<E: TakeEnd>(taker: &mut E, place: &mut u64) -> TakeBatchReply
    requires idle { E.idle taker.old }
    ensures idle { E.idle taker.new }
    ensures same { IsSameEnd (E.end taker.old) (E.end taker.new) }
    ensures phrase { HasTakenAll (E.end taker.new).ring.shape 1
        (E.end taker.old).list (E.end taker.new).list result (place.new ∷ []) }
    ensures within { number_brought result ≤ 1 }
{
    match taker.take() {
        TakeReply::Item(item) => {
            *place = item;
            TakeBatchReply::Taken(1)
        }
        TakeReply::Empty => TakeBatchReply::Empty,
        TakeReply::Closed => TakeBatchReply::Closed,
    }
}

// Takes into these places; a single one is filled by a take of one, which is cheaper.
#[inline(always)]
fn take_into<E: TakeEnd>(taker: &mut E, into: &mut [u64]) -> TakeBatchReply
    requires idle { E.idle taker.old }
    requires some { 1 ≤ length into.old }
    requires few { length into.old ≤ take_batch_of (E.end taker.old).ring.shape }
    ensures idle { E.idle taker.new }
    ensures same { IsSameEnd (E.end taker.old) (E.end taker.new) }
    ensures phrase { HasTakenAll (E.end taker.new).ring.shape (length into.old)
        (E.end taker.old).list (E.end taker.new).list result into.new }
    ensures within { number_brought result ≤ length into.old }
    ensures long { length into.new ≡ length into.old }
{
    match into {
        [place] => take_one(taker, place),
        _ => taker.take_all(into),
    }
}

// Appends the items to the list; if room for them is refused it is unchanged.
#[inline(always)]
fn append<A: Allocator>(items: &mut Vec<u64, A>, more: &[u64]) -> Result<(), AllocError>
    ensures items { OnOk result (items.new.items ≡ items.old.items ++ more.now) }
    ensures full { OnErr result (vec_capacity items.old < length items.old.items + length more.now) }
    ensures capacity { vec_capacity items.old ≤ vec_capacity items.new }
{
    let [item] = more else {
        return items.extend_from_slice(more);
    };
    match items.push(*item) {
        Ok(()) => Ok(()),
        Err(_refused) => Err(AllocError),
    }
}

// Takes until the ring is closed, into a list with no item yet, as many items at a time as the shape's take batch, but no more than
// are left of the limit. It ends as well with a take that found the ring empty and began when the putter was seen to
// have finished. Returns how many takes were made, how many found the ring empty, and whether one returned Closed. If
// the list has no room for the items of a take, and can get none, they are lost, and no more takes are made.
fn take_all<A: Allocator, E: TakeEnd, G: Gate>(
    items: &mut Vec<u64, A>,
    taker: &mut E,
    limit: u64,
    gate: &G,
    putter: &mut Watch<'_>,
) -> Result<(u64, u64, bool), RunFault>
    requires first { (putter.old.waited ≡ 0) × (putter.old.vain ≡ 0) }
    requires none { items.old.items ≡ [] }
    requires idle { E.idle taker.old }
    requires fresh { (E.end taker.old).list ≡ [] }
    ensures idle { E.idle taker.new }
    ensures same { IsSameEnd (E.end taker.old) (E.end taker.new) }
    ensures takes { IfOk result (λ t. HasRelayedTakes (E.end taker.new).ring.shape (E.end taker.new).list limit
        items.new.items t.0 t.1 t.2) }
    ensures fault { IfErr result (λ _. HasTakenMore (E.end taker.new).ring.shape (E.end taker.new).list limit
        (vec_capacity items.old)) }
    ensures ends { IfOk result (λ t. (t.2 ≡ true) ⊎
        ((length items.new.items + t.1 ≡ limit) ⊎ (putter.new.vain ≡ 1))) }
    ensures once { putter.new.vain ≤ 1 }
    ensures empty { IfOk result (λ t. t.1 ≡ putter.new.waited) }
{
    let shape = taker.shape();
    let mut room = [0; 64];
    let mut made = 0;
    let mut empty = 0;
    let mut closed = false;
    let mut waits = 0;
    'takes: while !closed && items.len() as u64 + empty < limit && putter.vain == 0 {
        gate.pass(Side::C, made);
        putter.look(waits);
        made += 1;
        let wanted = next_take(&shape, limit - (items.len() as u64 + empty));
        gate.hears(Event::TakeBegins(wanted));
        let into = &mut room[..wanted];
        match take_into(taker, into) {
            TakeBatchReply::Taken(count) => {
                let taken = &into[..count as usize];
                gate.hears(Event::TakeEnds(Reply::Passed(taken)));
                append(items, taken)?;
                waits = 0;
            }
            TakeBatchReply::Empty => {
                gate.hears(Event::TakeEnds(Reply::Lacked));
                putter.waits();
                empty += 1;
                waits += 1;
                gate.wait(Side::C, waits);
            }
            TakeBatchReply::Closed => {
                gate.hears(Event::TakeEnds(Reply::Shut));
                closed = true;
            }
        }
    }
    Ok((made, empty, closed))
}

/// The result of a relay.
///
/// In use: `uses::relays::pass_on`.
#[derive(Drop)]
pub struct Outcome<A: Allocator> {
    /// How many items were stored.
    pub put: u64,
    /// How many puts were made.
    pub calls: u64,
    /// The items taken, in order.
    pub taken: Vec<u64, A>,
    /// How many takes were made.
    pub takes: u64,
    /// Whether a take returned Closed.
    pub closed: bool,
    /// How many puts found the ring full.
    pub full: u64,
    /// How many takes found the ring empty.
    pub empty: u64,
}

// Room for as many items as can be taken if no more are taken than were put.
fn room_for<A: Allocator>(alloc: A, items: &[u64], limits: Limits) -> Result<Vec<u64, A>, RunFault>
    ensures { IfOk result (λ v. (v.items ≡ []) × (min (length items.now) limits.takes ≤ vec_capacity v)) }
{
    let room = (items.len() as u64).min(limits.takes);
    let taken = Vec::with_capacity(alloc, room as usize)?;
    Ok(taken)
}

// The side that puts: lets the other one see when it begins and when it has finished.
fn work_putter<E: PutEnd, G: Gate>(
    putter: &mut E,
    items: &[u64],
    limit: u64,
    gate: &G,
    own: &Stage,
    other: &Stage,
) -> (u64, u64, u64)
    requires idle { E.idle putter.old }
    requires fresh { (E.end putter.old).list ≡ [] }
    requires fit { AllFit (E.end putter.old).ring.shape items.now }
    ensures idle { E.idle putter.new }
    ensures same { IsSameEnd (E.end putter.old) (E.end putter.new) }
    ensures puts { HasRelayedPuts (E.end putter.new).ring.shape (E.end putter.new).list items.now limit result.0
        result.1 result.2 }
{
    own.begin();
    let made = put_in_order(putter, items, limit, gate, &mut Watch::of(other));
    own.end();
    made
}

// The side that takes, which does the same.
fn work_taker<A: Allocator, E: TakeEnd, G: Gate>(
    items: &mut Vec<u64, A>,
    taker: &mut E,
    limit: u64,
    gate: &G,
    own: &Stage,
    other: &Stage,
) -> Result<(u64, u64, bool), RunFault>
    requires none { items.old.items ≡ [] }
    requires idle { E.idle taker.old }
    requires fresh { (E.end taker.old).list ≡ [] }
    ensures idle { E.idle taker.new }
    ensures same { IsSameEnd (E.end taker.old) (E.end taker.new) }
    ensures takes { IfOk result (λ t. HasRelayedTakes (E.end taker.new).ring.shape (E.end taker.new).list limit
        items.new.items t.0 t.1 t.2) }
    ensures fault { IfErr result (λ _. HasTakenMore (E.end taker.new).ring.shape (E.end taker.new).list limit
        (vec_capacity items.old)) }
{
    own.begin();
    let made = take_all(items, taker, limit, gate, &mut Watch::of(other));
    own.end();
    made
}

// A relay with the list that the items taken come into.
fn relay_into<R: Threads, A: Allocator, E: PutEnd + Send, F: TakeEnd + Send, G: Gate + Sync>(
    rt: &R,
    mut taken: Vec<u64, A>,
    putter: &mut E,
    taker: &mut F,
    items: &[u64],
    limits: Limits,
    gate: &G,
) -> Result<Outcome<A>, RunFault>
    requires room { (taken.items ≡ []) × (min (length items.now) limits.takes ≤ vec_capacity taken) }
    requires puts { E.idle putter.old × ((E.end putter.old).list ≡ []) ×
        AllFit (E.end putter.old).ring.shape items.now }
    requires takes { F.idle taker.old × ((F.end taker.old).list ≡ []) }
    ensures idle { E.idle putter.new × F.idle taker.new }
    ensures same { IsSameEnd (E.end putter.old) (E.end putter.new) × IsSameEnd (F.end taker.old) (F.end taker.new) }
    ensures puts { IfOk result (λ r. HasRelayedPuts (E.end putter.new).ring.shape (E.end putter.new).list items.now
        limits.puts r.put r.calls r.full) }
    ensures takes { IfOk result (λ r. HasRelayedTakes (F.end taker.new).ring.shape (F.end taker.new).list limits.takes
        r.taken.items r.takes r.empty r.closed) }
    ensures fault { IfErr result (λ _. HasMadePuts (E.end putter.new).ring.shape (E.end putter.new).list items.now
        limits.puts × HasTakenMore (F.end taker.new).ring.shape (F.end taker.new).list limits.takes
        (length items.now)) }
{
    let (puts, takes) = (Stage::new(), Stage::new());
    let (puts, takes) = (&puts, &takes);
    let into = &mut taken;
    let ((put, calls, full), outcome) = join_mut(
        rt,
        &mut || -> (u64, u64, u64)
            requires { E.idle putter.now × ((E.end putter.now).list ≡ []) ×
                AllFit (E.end putter.now).ring.shape items.now }
            ensures { E.idle putter.exit.now × IsSameEnd (E.end putter.entry.now) (E.end putter.exit.now) ×
                HasRelayedPuts (E.end putter.exit.now).ring.shape (E.end putter.exit.now).list items.entry.now
                limits.puts result.0 result.1 result.2 }
        { work_putter(putter, items, limits.puts, gate, puts, takes) },
        &mut || -> Result<(u64, u64, bool), RunFault>
            requires { (into.now.items ≡ []) × F.idle taker.now × ((F.end taker.now).list ≡ []) }
            ensures { F.idle taker.exit.now × IsSameEnd (F.end taker.entry.now) (F.end taker.exit.now) ×
                IfOk result (λ t. HasRelayedTakes (F.end taker.exit.now).ring.shape (F.end taker.exit.now).list
                limits.takes into.exit.now.items t.0 t.1 t.2) ×
                IfErr result (λ _. HasTakenMore (F.end taker.exit.now).ring.shape (F.end taker.exit.now).list
                limits.takes (vec_capacity into.entry.now)) }
        { work_taker(into, taker, limits.takes, gate, takes, puts) },
    );
    let (takes, empty, closed) = outcome?;
    Ok(Outcome {
        put,
        calls,
        taken,
        takes,
        closed,
        full,
        empty,
    })
}

/// Works the two ends at the same time, in two threads. One side puts the items in order, as many at a time as the
/// shape's batch has, continues after those that were stored, and closes after the last; so a put that found the ring
/// full is made again. The other side takes as many items at a time as the shape's take batch, but no more than are
/// left of its limit, until a take returns Closed. Neither makes more puts or takes than its limit (the close is not
/// counted, and a take that brings several items counts once for each), and each passes the gate before each of them,
/// with the number that it has made. The gate receives the start and the end of each put, of each take and of the
/// close, from the thread that makes it; and after each put that found the ring full, and each take that found it empty, how many have in a row.
///
/// A side that has finished ends the other: a put that found the ring full, or a take that found it empty, is the last
/// if it began after the first side had finished, as nothing can change for the next. The same applies if the first
/// side has not begun while the other's calls were in vain 16,777,216 times in a row, as when no second thread can be
/// started. If no take returned Closed, and neither side has used up its limit, one of them had not begun when the
/// other ended. No progress is guaranteed.
///
/// The ends have made no call yet, and every item has to fit the width. It takes memory for the items that are taken:
/// before any call it makes room for as many as there are items, or takes by the limit if these are fewer.
/// `OutOfMemory` is returned only if the allocator refused some. If it refused that room, no call was made and both
/// ends are unchanged. The ends of two different rings may bring more items than were put; if it refused room for one
/// of these, no more takes are made, and both ends keep the complete calls that they have made. In a relay through
/// one ring that does not occur.
///
/// In use: by [`relay_counter`](crate::relay_counter), over the ends of a new ring.
pub fn relay<R: Threads, A: Allocator + Copy, E: PutEnd + Send, F: TakeEnd + Send, G: Gate + Sync>(
    rt: &R,
    alloc: A,
    putter: &mut E,
    taker: &mut F,
    items: &[u64],
    limits: Limits,
    gate: &G,
) -> Result<Outcome<A>, RunFault>
    requires idle { E.idle putter.old × F.idle taker.old }
    requires fresh { ((E.end putter.old).list ≡ []) × ((F.end taker.old).list ≡ []) }
    requires fit { AllFit (E.end putter.old).ring.shape items.now }
    ensures idle { E.idle putter.new × F.idle taker.new }
    ensures same { IsSameEnd (E.end putter.old) (E.end putter.new) × IsSameEnd (F.end taker.old) (F.end taker.new) }
    ensures puts { IfOk result (λ r. HasRelayedPuts (E.end putter.new).ring.shape (E.end putter.new).list items.now
        limits.puts r.put r.calls r.full) }
    ensures takes { IfOk result (λ r. HasRelayedTakes (F.end taker.new).ring.shape (F.end taker.new).list limits.takes
        r.taken.items r.takes r.empty r.closed) }
    ensures fault { IfErr result (λ _. ((putter.new ≡ putter.old) × (taker.new ≡ taker.old)) ⊎
        (HasMadePuts (E.end putter.new).ring.shape (E.end putter.new).list items.now limits.puts ×
        HasTakenMore (F.end taker.new).ring.shape (F.end taker.new).list limits.takes (length items.now))) }
{
    let taken = room_for(alloc, items, limits)?;
    relay_into(rt, taken, putter, taker, items, limits, gate)
}

// A relay through the two ends of one ring of this kind, whose run it ends. It cannot run out of memory: there is room for
// all items taken, since by the law of the ring they are no more than were put.
fn relay_through<
    K: RingOf<E, F>,
    R: Threads,
    A: Allocator,
    E: PutEnd + Send,
    F: TakeEnd + Send,
    G: Gate + Sync,
>(
    _ring: &K,
    rt: &R,
    taken: Vec<u64, A>,
    mut putter: E,
    mut taker: F,
    items: &[u64],
    limits: Limits,
    gate: &G,
) -> Outcome<A>
    requires room { (taken.items ≡ []) × (min (length items.now) limits.takes ≤ vec_capacity taken) }
    requires ring { (E.end putter).ring ≡ (F.end taker).ring }
    requires idle { E.idle putter × F.idle taker }
    requires fresh { ((E.end putter).list ≡ []) × ((F.end taker).list ≡ []) }
    requires fit { AllFit (E.end putter).ring.shape items.now }
    ensures counted { IsRelayed (E.end putter).ring.shape items.now limits.puts limits.takes result.put result.calls
        result.full result.taken.items result.takes result.empty result.closed }
    ensures prefix { IsPrefix result.taken.items (take result.put items.now) }
    ensures all { result.closed ≡ true → (result.put ≡ length items.now) × (result.taken.items ≡ items.now) }
    ensures within { result.put ≤ length result.taken.items + capacity_of (E.end putter).ring.shape }
{
    let outcome = relay_into(rt, taken, &mut putter, &mut taker, items, limits, gate);
    // ends the run; by its contract the outcome is that of one lawful history
    let _finished = K::finish(putter, taker);
    match outcome {
        Ok(outcome) => outcome,
        Err(_) => unreachable!(),
    }
}

/// Makes a ring and its ends, relays, and ends the ring's run. Its outcome is counted in one lawful history of safe
/// bits whose two sides follow their programs, so by the law of the ring (Lamport 1977) the items taken are the first
/// of those that were stored; if a take returned Closed, all items were stored and taken; and no more were stored and
/// not taken than the ring has cells.
///
/// Every item has to fit the width. It takes memory for the words of the ring and, before the first put, for all items
/// that can be taken. `OutOfMemory` is returned only if the allocator refused some: all memory is taken before the ends
/// are made, so no call was made then, no item put or taken, and no oracle asked.
///
/// In use: `uses::oracles::pass_flickering`.
pub fn relay_flicker<
    R: Threads,
    A: Allocator + Copy,
    O1: Oracle + Drop + Send,
    O2: Oracle + Drop + Send,
    G: Gate + Sync,
>(
    rt: &R,
    alloc: A,
    shape: Shape,
    oracle_p: O1,
    oracle_c: O2,
    items: &[u64],
    limits: Limits,
    gate: &G,
) -> Result<Outcome<A>, RunFault>
    requires fit { AllFit shape items.now }
    ensures counted { IfOk result (λ r. IsRelayed shape items.now limits.puts limits.takes r.put r.calls r.full
        r.taken.items r.takes r.empty r.closed) }
    ensures prefix { IfOk result (λ r. IsPrefix r.taken.items (take r.put items.now)) }
    ensures all { IfOk result (λ r. r.closed ≡ true → (r.put ≡ length items.now) × (r.taken.items ≡ items.now)) }
    ensures within { IfOk result (λ r. r.put ≤ length r.taken.items + capacity_of shape) }
{
    let (ring, start) = FlickerRing::new(alloc, shape)?;
    let taken = room_for(alloc, items, limits)?;
    let (putter, taker) = ring.ends(start, oracle_p, oracle_c);
    Ok(relay_through(&ring, rt, taken, putter, taker, items, limits, gate))
}

/// Makes a counter ring and its ends, relays, and ends the ring's run. Its outcome is counted in one lawful history of
/// safe bits whose two sides follow their programs, so by the law of the ring (Lamport 1977) the items taken are the
/// first of those that were stored; if a take returned Closed, all items were put and taken; and no more were stored
/// and not taken than the ring has cells.
///
/// Every item has to fit the width. It takes memory for the words of the ring and, before the first put, for all items
/// that can be taken. `OutOfMemory` is returned only if the allocator refused some: all memory is taken before the ends
/// are made, so no call was made then, and no item put or taken.
///
/// In use: `uses::relays::pass_on`.
pub fn relay_counter<R: Threads, A: Allocator + Copy, G: Gate + Sync>(
    rt: &R,
    alloc: A,
    shape: Shape,
    items: &[u64],
    limits: Limits,
    gate: &G,
) -> Result<Outcome<A>, RunFault>
    requires fit { AllFit shape items.now }
    ensures counted { IfOk result (λ r. IsRelayed shape items.now limits.puts limits.takes r.put r.calls r.full
        r.taken.items r.takes r.empty r.closed) }
    ensures prefix { IfOk result (λ r. IsPrefix r.taken.items (take r.put items.now)) }
    ensures all { IfOk result (λ r. r.closed ≡ true → (r.put ≡ length items.now) × (r.taken.items ≡ items.now)) }
    ensures within { IfOk result (λ r. r.put ≤ length r.taken.items + capacity_of shape) }
{
    let (ring, start) = CounterRing::new(alloc, shape)?;
    let taken = room_for(alloc, items, limits)?;
    let (putter, taker) = ring.ends(start);
    Ok(relay_through(&ring, rt, taken, putter, taker, items, limits, gate))
}
