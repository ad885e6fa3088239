//! The producer's side of a script.
ghost use Rattle.std.specs.Prelude.{◌≡◌, ◌<◌, Option, None, Some, List, [], length, take, drop};
ghost use Rattle.bits_core.specs.declared.events.Side.TheVariants as side_is;
ghost use Rattle.bits_core.specs.Made.{Made, events_of};
ghost use Rattle.ring_core.specs.ProducerState.{call_of};
ghost use Rattle.bits_core.specs.declared.events.Access.{Access};
ghost use Rattle.ring_core.specs.ProducerState.{due_put};
ghost use Rattle.ring_player.specs.Actors.{HasWritten, PutActorStands, digits_by, full_in_reply, put_once, so_far, stored_in_reply};
ghost use Rattle.ring_player.specs.SoFar.{PutSoFar};
ghost use Rattle.ring_player.specs.Plays.{IsDoneAfter};
ghost use Rattle.ring_script.specs.Borrowed.{content_of};

use crate::actors::Actor;
use crate::faults::PlayFault;
use bits_core::{Access, Bit};
use ring_core::{BatchReply, Producer};
use ring_script::ScriptRef;

/// The next items, at most this many.
fn next_items(items: &[u64], stored: usize, most: u64) -> &[u64]
    requires { stored < length items.now }
    ensures { result.now ≡ take most (drop stored items.now) }
{
    let left = &items[stored..];
    if most < left.len() as u64 {
        &left[..most as usize]
    } else {
        left
    }
}

/// How many items a put stored, by its reply.
fn stored_by(reply: Option<BatchReply>) -> usize
    ensures { result ≡ stored_in_reply reply }
{
    match reply {
        Some(BatchReply::Stored(count)) => count as usize,
        _ => 0,
    }
}

/// How many puts found the ring full, by its reply.
fn full_by(reply: Option<BatchReply>) -> u64
    ensures { result ≡ full_in_reply reply }
{
    match reply {
        Some(BatchReply::Full) => 1,
        _ => 0,
    }
}

/// How many digits of cells the access writes.
fn digits_of(access: Option<Access>) -> u64
    ensures { result ≡ digits_by access }
{
    match access {
        Some(Access::Write(Bit::Cell(_, _), _)) => 1,
        _ => 0,
    }
}

/// How many items are put once the access has begun: a count write counts all written before it.
fn put_by(access: Option<Access>, written: u64, put: u64) -> u64
    ensures { result ≡ put_once access written put }
{
    match access {
        Some(Access::Write(Bit::S(_), _)) => written,
        _ => put,
    }
}

/// Puts the items of a script in order, and then closes if the script says so.
#[derive(Drop)]
pub(crate) struct PutActor<'a> {
    script: ScriptRef<'a>,
    producer: Producer,
    // how many items the puts that are over have stored, and how many puts found the ring full
    pub(crate) stored: usize,
    pub(crate) full: u64,
    digits: u64,
    put: u64,
    pub ghost same_shape: { producer.shape ≡ (content_of script).shape },
}

impl<'a> PutActor<'a> {
    /// An actor that has made no access.
    pub fn new(script: ScriptRef<'a>) -> Self
        ensures script { content_of result.script ≡ content_of script.entry }
        ensures stands { PutActorStands (content_of script.entry) result.producer
            (record { stored = result.stored; full = result.full }) [] None }
        ensures written { HasWritten (content_of script.entry) result.digits result.put [] None }
    {
        PutActor {
            script,
            producer: Producer::new(script.shape()),
            stored: 0,
            full: 0,
            digits: 0,
            put: 0,
        }
    }

    /// The items put so far: those whose count write has begun.
    pub fn put(&self) -> &'a [u64]
        ensures { result.now ≡ take self.now.put (content_of self.now.script).items }
    {
        let items = self.script.items();
        if self.put < items.len() as u64 {
            &items[..self.put as usize]
        } else {
            items
        }
    }

    /// What the accesses so far have put.
    pub fn look(&self)
        ensures { (list : List Made) (opened : Option Access) →
            PutActorStands (content_of self.now.script) self.now.producer
            (record { stored = self.now.stored; full = self.now.full }) list opened →
            HasWritten (content_of self.now.script) self.now.digits self.now.put list opened →
            ((a : Access) → opened ≡ Some a → due_put self.now.producer ≡ Some a) →
            PutSoFar (content_of self.now.script).shape (so_far side_is.P list opened)
            (take self.now.put (content_of self.now.script).items)
            (record { stored = self.now.stored; full = self.now.full }) }
    {
        self.producer.next();
    }

    /// Begins the next call, if none is under way and the script requests one.
    fn begin_call(&mut self)
        ensures script { content_of self.new.script ≡ content_of self.old.script }
        ensures counts { (self.new.digits ≡ self.old.digits) × (self.new.put ≡ self.old.put) }
        ensures stands { (list : List Made) →
            PutActorStands (content_of self.old.script) self.old.producer
            (record { stored = self.old.stored; full = self.old.full }) list None →
            PutActorStands (content_of self.new.script) self.new.producer
            (record { stored = self.new.stored; full = self.new.full }) list None }
        ensures done { call_of self.new.producer ≡ None → (list : List Made) →
            PutActorStands (content_of self.old.script) self.old.producer
            (record { stored = self.old.stored; full = self.old.full }) list None →
            IsDoneAfter (content_of self.old.script) side_is.P (events_of side_is.P list) }
    {
        if self.producer.next().is_some() {
            return;
        }
        let items = self.script.items();
        if self.stored < items.len() {
            let batch = self.script.shape().batch();
            self.producer.put_all(next_items(items, self.stored, batch));
        } else if self.script.closes() && !self.producer.is_closed() {
            self.producer.close();
        }
    }
}

impl<'a> Actor for PutActor<'a> {
    ghost use Rattle.bits_core.specs.declared.events.Side.TheVariants as side_is;
    ghost use Rattle.ring_core.specs.ProducerState.{due_put};
    ghost use Rattle.ring_player.specs.Actors.{HasWritten, PutActorStands};
    ghost use Rattle.ring_script.specs.Borrowed.{content_of};

    ghost script = { λ a. content_of a.script };

    ghost side = { λ a. side_is.P };

    ghost due = { λ a. due_put a.producer };

    ghost stands = { λ a list opened. PutActorStands (content_of a.script) a.producer
        (record { stored = a.stored; full = a.full }) list opened ×
        HasWritten (content_of a.script) a.digits a.put list opened };

    ghost ready = { λ a. Unit {0} };

    ghost kept = { λ a. 0 };

    ghost wants = { λ a. 0 };

    ghost room = { λ a. 1 };

    fn next(&mut self) -> Option<Access> {
        self.begin_call();
        self.producer.next()
    }

    fn begin(&mut self) {
        let due = self.producer.next();
        let written = self.digits / self.script.shape().width();
        self.put = put_by(due, written, self.put);
    }

    fn reserve(&mut self) -> Result<(), PlayFault> {
        Ok(())
    }

    fn last_bit(&self) {
        self.producer.expects_one();
    }

    fn end(&mut self, answer: bool) {
        // only for the proof: gives the limits of the items
        let _items = self.script.items();
        let due = self.producer.next();
        self.digits += digits_of(due);
        self.producer.feed(answer);
        self.producer.next();
        let reply = self.producer.batch_reply();
        self.stored += stored_by(reply);
        self.full += full_by(reply);
    }
}
