//! A batch: several items under one count write.
ghost use Rattle.std.specs.Prelude.{◌≡◌, ℕ, List, ◌≤◌, ◌++◌, length, take, drop};
ghost use Rattle.bits_core.specs.Shape.{take_batch_of};
ghost use Rattle.ring_core.specs.Puts.{IsBatch};
ghost use Rattle.ring_run.specs.Steppers.{IsSameEnd};
ghost use Rattle.ring_run.specs.Ends.{HasPutAll, HasTakenAll, number_brought};
ghost use Rattle.ring_run.specs.Stored.{HasStored, HasTook, number_stored};

use ring_core::{BatchReply, TakeBatchReply};
use ring_run::{PutEnd, TakeEnd};

// How many items a put stored.
fn stored_by(reply: BatchReply) -> usize
    ensures { result ≡ number_stored reply }
{
    match reply {
        BatchReply::Stored(stored) => stored as usize,
        _ => 0,
    }
}

// How many items a take took.
fn taken_by(reply: TakeBatchReply) -> usize
    ensures { result ≡ number_brought reply }
{
    match reply {
        TakeBatchReply::Taken(taken) => taken as usize,
        _ => 0,
    }
}

/// Puts the items under one count write, starting with the first, as many as there is room for: returns how many
/// were stored, none if the ring is full or closed.
pub fn put_batch<E: PutEnd>(putter: &mut E, items: &[u64]) -> usize
    requires idle { E.idle putter.old }
    requires batch { IsBatch (E.end putter.old).ring.shape items.now }
    ensures idle { E.idle putter.new }
    ensures same { IsSameEnd (E.end putter.old) (E.end putter.new) }
    ensures made { (reply : BatchReply) ×
        HasPutAll (E.end putter.new).ring.shape items.now (E.end putter.old).list (E.end putter.new).list reply ×
        (result ≡ number_stored reply) }
    ensures few { result ≤ length items.now }
    ensures stored { (before : List ℕ) → HasStored (E.end putter.old) before →
        HasStored (E.end putter.new) (before ++ take result items.now) }
{
    stored_by(putter.put_all(items))
}

/// Takes the next items under one count write, those that the producer's count shows, at most as many as there are places: returns
/// how many were taken, none if the ring is empty or closed. They are in the first places, in order.
pub fn take_batch<E: TakeEnd>(taker: &mut E, into: &mut [u64]) -> usize
    requires idle { E.idle taker.old }
    requires some { 1 ≤ length into.old }
    requires few { length into.old ≤ take_batch_of (E.end taker.old).ring.shape }
    ensures idle { E.idle taker.new }
    ensures same { IsSameEnd (E.end taker.old) (E.end taker.new) }
    ensures made { (reply : TakeBatchReply) ×
        HasTakenAll (E.end taker.new).ring.shape (length into.old) (E.end taker.old).list (E.end taker.new).list reply
        into.new × (result ≡ number_brought reply) }
    ensures few { result ≤ length into.old }
    ensures others { (length into.new ≡ length into.old) × (drop result into.new ≡ drop result into.old) }
    ensures took { (before : List ℕ) → HasTook (E.end taker.old) before →
        HasTook (E.end taker.new) (before ++ take result into.new) }
{
    taken_by(taker.take_all(into))
}
