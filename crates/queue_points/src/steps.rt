//! The states of the sides of a history, and the operations that lead from one to another.
ghost use Rattle.std.specs.Prelude.{◌≡◌, ◌<◌, ◌≤◌, ◌↔◌, ℕ, List, [], IfSome, IsNone, IsTrue, get_or, length, suc};
ghost use Rattle.queue_calls.specs.Queue.{Dequeue};
ghost use Rattle.queue_calls.specs.Calls as calls;
ghost use Rattle.queue_calls.specs.Calls.{Happens, Effect, Producer, Consumer, PutEnd, TakeEnd, ProducerStep, ConsumerStep, passed, short_of};
ghost use Rattle.queue_points.specs.Steps.{EndsOpen, IsNoItem, began_at, consumer_of, done, producer_of, stretch};
ghost use Rattle.queue_calls.specs.Told.{reply_by, told};

use queue_calls::{Event, Reply};

/// What an operation of a queue does.
///
/// For example, `Operation::FindNoRoom(1)` is that of a put that finds the queue full.
#[derive(Clone, Copy, PartialEq, Eq, Debug)]
pub enum Operation {
    /// It puts the item in.
    Enqueue(u64),
    /// It finds no room for this many items.
    FindNoRoom(usize),
    /// A put finds the queue closed.
    FindShut,
    /// It closes the queue.
    Close,
    /// It takes the item out.
    Dequeue(u64),
    /// It finds fewer than this many items, and more may come.
    FindFewer(usize),
    /// A take finds the queue empty and closed.
    FindClosed,
}

// The producer's state, as in `specs/Calls`.
#[derive(Clone, Copy)]
pub(crate) enum PutStand<'a> {
    Idle,
    // how many items it found no room for, how many are stored, and all that it offers
    Putting(usize, usize, &'a [u64]),
    FoundShut,
    Closing(bool),
}

// The consumer's state.
#[derive(Clone, Copy)]
pub(crate) enum TakeStand {
    Resting,
    // how many items it found fewer than, the place in the row at which it began, and how many more it may take
    Taking(usize, usize, usize),
    FoundClosed,
}

// Whether this number is the reason for which a call passed `count` items and left others: one more than it passed, if it left some
// and says why.
fn is_short_of(lacked: usize, why: bool, count: usize, left: usize) -> bool
    ensures { IsTrue result ↔ (lacked ≡ short_of why count left) }
{
    if left == 0 || !why {
        lacked == 0
    } else {
        lacked > 0 && lacked - 1 == count
    }
}

// Whether a call that found the queue open may end with this reply, by the number for which it found no room or no items, how many
// items it passed and how many it left.
fn may_end<N>(reply: &Reply<N>, lacked: usize, done: usize, left: usize) -> bool
    ensures put { (what : N → ℕ) → done ≡ passed 0 (reply_by what reply.now) →
        IsTrue result ↔ EndsOpen (reply_by what reply.now) lacked done left }
    ensures take { (what : N → List ℕ) → done ≡ length (passed [] (reply_by what reply.now)) →
        IsTrue result ↔ EndsOpen (reply_by what reply.now) lacked done left }
{
    match reply {
        Reply::Passed(_) => done > 0 && is_short_of(lacked, true, done, left),
        Reply::PassedSome(_) => done > 0 && is_short_of(lacked, false, done, left),
        Reply::Lacked => lacked == 1,
        Reply::Short => left > 1 && lacked == left,
        Reply::Nothing => lacked == 0,
        Reply::Shut => false,
    }
}

// Whether the producer's put ends with this reply.
fn put_ends(put: PutStand<'_>, reply: Reply<usize>) -> bool
    ensures { IsTrue result ↔ ProducerStep (producer_of put.entry)
        (Happens (PutEnd (reply_by (λ count. count) reply))) calls.Idle }
{
    match put {
        PutStand::Putting(lacked, stored, items) => {
            let left = items.len().saturating_sub(stored);
            stored == reply.count() && may_end(&reply, lacked, stored, left)
        }
        PutStand::FoundShut => matches!(reply, Reply::Shut),
        PutStand::Idle | PutStand::Closing(_) => false,
    }
}

// The producer's state after an event.
pub fn put_event<'a>(put: PutStand<'a>, event: Event<'a>) -> Option<PutStand<'a>>
    ensures step { IfSome result (λ after. ProducerStep (producer_of put.entry) (Happens (told event.entry))
        (producer_of after)) }
    ensures exact { IsNone result → (after : Producer) →
        ¬ ProducerStep (producer_of put.entry) (Happens (told event.entry)) after }
{
    match (event, put) {
        (Event::PutBegins(items), PutStand::Idle) if !items.is_empty() => Some(PutStand::Putting(
            0, 0, items,
        )),
        (Event::PutEnds(reply), _) if put_ends(put, reply) => Some(PutStand::Idle),
        (Event::CloseBegins, PutStand::Idle) => Some(PutStand::Closing(false)),
        (Event::CloseEnds, PutStand::Closing(true)) => Some(PutStand::Idle),
        _ if !event.is_of_producer() => Some(put),
        _ => None,
    }
}

// The producer's state after an operation.
pub fn put_effect(put: PutStand<'_>, does: Operation) -> Option<PutStand<'_>>
    ensures step { IfSome result (λ after. ProducerStep (producer_of put.entry) (Effect (done does))
        (producer_of after)) }
    ensures exact { IsNone result → (after : Producer) →
        ¬ ProducerStep (producer_of put.entry) (Effect (done does)) after }
{
    match (does, put) {
        (Operation::Enqueue(item), PutStand::Putting(lacked, stored, items))
            if items.get(stored) == Some(&item) => Some(PutStand::Putting(
            lacked,
            stored + 1,
            items,
        )),
        (Operation::FindNoRoom(count), PutStand::Putting(0, 0, items)) => Some(PutStand::Putting(
            count, 0, items,
        )),
        (Operation::FindShut, PutStand::Putting(0, 0, _)) => Some(PutStand::FoundShut),
        (Operation::Close, PutStand::Closing(false)) => Some(PutStand::Closing(true)),
        (Operation::Dequeue(_) | Operation::FindFewer(_) | Operation::FindClosed, _) => Some(put),
        _ => None,
    }
}

// The items of a row from one place up to another.
pub fn stretch(row: &[u64], from: usize, to: usize) -> &[u64]
    requires order { from ≤ to }
    requires within { to ≤ length row.now }
    ensures { result.now ≡ stretch row.now from to }
{
    &row[from..to]
}

// Whether the consumer's take ends with this reply, with `head` items of the row taken out.
fn take_ends(row: &[u64], head: usize, take: TakeStand, reply: Reply<&[u64]>) -> bool
    requires began { began_at take ≤ head }
    requires within { head ≤ length row.now }
    ensures { IsTrue result ↔ ConsumerStep (consumer_of row.now head take)
        (Happens (TakeEnd (reply_by (λ items. items.now) reply.entry))) calls.Resting }
{
    match take {
        TakeStand::Taking(lacked, from, left) => {
            let items = reply.items();
            stretch(row, from, head) == items && may_end(&reply, lacked, items.len(), left)
        }
        TakeStand::FoundClosed => matches!(reply, Reply::Shut),
        TakeStand::Resting => false,
    }
}

// The consumer's state after an event, with `head` items of the row taken out.
pub fn take_event(row: &[u64], head: usize, take: TakeStand, event: Event<'_>) -> Option<TakeStand>
    requires began { began_at take ≤ head }
    requires within { head ≤ length row.now }
    ensures step { IfSome result (λ after. ConsumerStep (consumer_of row.now head take) (Happens (told event.entry))
        (consumer_of row.now head after)) }
    ensures exact { IsNone result → (after : Consumer) →
        ¬ ConsumerStep (consumer_of row.now head take) (Happens (told event.entry)) after }
    ensures began { IfSome result (λ after. began_at after ≤ head) }
{
    match (event, take) {
        (Event::TakeBegins(wanted), TakeStand::Resting) if wanted > 0 => Some(TakeStand::Taking(
            0, head, wanted,
        )),
        (Event::TakeEnds(reply), _) if take_ends(row, head, take, reply) => {
            Some(TakeStand::Resting)
        }
        _ if event.is_of_producer() => Some(take),
        _ => None,
    }
}

// The consumer's state after its take has taken one more item, the one at the head.
pub fn take_one(row: &[u64], head: usize, take: TakeStand) -> Option<TakeStand>
    requires began { began_at take ≤ head }
    requires within { head < length row.now }
    ensures step { IfSome result (λ after. ConsumerStep (consumer_of row.now head take)
        (Effect (Dequeue (get_or row.now head 0))) (consumer_of row.now (suc head) after)) }
    ensures exact { IsNone result → (after : Consumer) →
        ¬ ConsumerStep (consumer_of row.now head take) (Effect (Dequeue (get_or row.now head 0))) after }
    ensures began { IfSome result (λ after. began_at after ≤ suc head) }
{
    match take {
        TakeStand::Taking(lacked, from, left) if left > 0 => {
            Some(TakeStand::Taking(lacked, from, left - 1))
        }
        _ => None,
    }
}

// The consumer's state after an operation that takes no item.
pub fn take_effect(row: &[u64], head: usize, take: TakeStand, does: Operation) -> Option<TakeStand>
    requires began { began_at take ≤ head }
    requires within { head ≤ length row.now }
    ensures step { IfSome result (λ after. ConsumerStep (consumer_of row.now head take) (Effect (done does))
        (consumer_of row.now head after)) }
    ensures exact { IsNone result → IsNoItem does → (after : Consumer) →
        ¬ ConsumerStep (consumer_of row.now head take) (Effect (done does)) after }
    ensures began { IfSome result (λ after. began_at after ≤ head) }
{
    match (does, take) {
        (Operation::FindFewer(count), TakeStand::Taking(0, from, left))
            if stretch(row, from, head).is_empty() => { Some(TakeStand::Taking(count, from, left)) }
        (Operation::FindClosed, TakeStand::Taking(0, from, _))
            if stretch(row, from, head).is_empty() => Some(TakeStand::FoundClosed),
        (
            Operation::Enqueue(_)
            | Operation::FindNoRoom(_)
            | Operation::FindShut
            | Operation::Close,
            _,
        ) => Some(take),
        _ => None,
    }
}
