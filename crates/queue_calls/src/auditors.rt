//! The auditor of a history.
ghost use Rattle.std.specs.Prelude.{◌≡◌, ◌<◌, suc, ◌+◌, ◌++◌, ◌↔◌, IsTrue, true, false, ℕ, List, [], if◌then◌else◌, length, take, drop, map, ◌-◌};

use crate::capacities::Capacity;
use crate::events::{Event, Reply};
use crate::faults::Fault;
use crate::insides::Inside;
use crate::turns::{PutTurn, TakeTurn};
use std::alloc::Allocator;
use std::collections::VecDeque;

/// An auditor of a recorded history of calls of a first-in first-out queue that can be closed, with one producer and
/// one consumer, whatever queue it is: bounded or not, with its capacity known exactly or as a range.
///
/// It reads the history event by event. It accepts an event if the history up to and including it is linearizable, and
/// refuses it otherwise, so the first event that it refuses is the first place at which the history is not
/// linearizable; nothing after it can repair that
/// ([`beginning_is_linearizable`](crate::laws::beginning_is_linearizable)). A put of several items stores them one by
/// one, and a take of several takes them one by one; a second close changes nothing. A put that stores fewer items
/// than it offered found no room for one more before it stored the first, and a take that takes fewer than it asked for
/// found no more than these before it took the first; unless they report no reason.
///
/// An event takes constant time, amortized, for each item of the event, and the memory is that of the items
/// inside and of those offered by the put under way: from an allocator, or in slots supplied by the caller.
///
/// In use: `uses::calls::first_at_fault`.
#[derive(Drop)]
pub struct CallAuditor<Q: Inside> {
    pub(crate) capacity: Capacity,
    // the items stored or offered and not yet taken, in order
    pub(crate) inside: Q,
    pub(crate) put: PutTurn,
    pub(crate) take: TakeTurn,
    // a close has ended, or a take has returned Closed
    pub(crate) shut: bool,
}

/// What an auditor keeps besides its list.
///
/// For example, `CallAuditor::resume` continues from it, as `queue_calls_c` does between two calls of C.
#[derive(Clone, Copy, PartialEq, Eq, Debug)]
pub struct AuditorState {
    /// How many items the queue may hold.
    pub capacity: Capacity,
    /// What the producer has under way.
    pub put: PutTurn,
    /// What the consumer has under way.
    pub take: TakeTurn,
    /// A close has ended, or a take has returned Closed.
    pub shut: bool,
}

impl<A: Allocator> CallAuditor<VecDeque<u64, A>> {
    ghost use Rattle.queue_calls.specs.State.{IsProper};
    ghost use Rattle.queue_calls.specs.Audits.{Audits};
    ghost use Rattle.queue_calls.specs.Told.{meant};

    /// An auditor of a queue of this capacity that has read no event yet. For a capacity between two numbers, the second
    /// must be at least 1, and the first at most the second.
    pub fn new(alloc: A, capacity: Capacity) -> CallAuditor<VecDeque<u64, A>>
        requires { IsProper (meant capacity) }
        ensures capacity { result.capacity ≡ capacity }
        ensures reads { Audits (λ q. q.items) result [] }
    {
        CallAuditor::with(VecDeque::new(alloc), capacity)
    }
}

impl<Q: Inside> CallAuditor<Q> {
    ghost use Rattle.queue_calls.specs.Calls as calls;
    ghost use Rattle.queue_calls.specs.Calls.{IsLinearizable, PutBegin, PutEnd, CloseBegin, CloseEnd, TakeBegin, TakeEnd, Shut};
    ghost use Rattle.queue_calls.specs.State.{IsProper, offered_by, asked_by, AreNext, CanEndPut, CanEndTake};
    ghost use Rattle.queue_calls.specs.Audits.{Audits, Reads};
    ghost use Rattle.queue_calls.specs.Hearings.{auditor_of};
    ghost use Rattle.queue_calls.specs.Insides.{MovesEntries};
    ghost use Rattle.queue_calls.specs.Deciding.{Decides};
    ghost use Rattle.queue_calls.specs.Told.{meant, reply_by, told};
    ghost use Rattle.queue_calls.specs.declared.turns.PutTurn.TheVariants.{Free, Offers};
    ghost use Rattle.queue_calls.specs.declared.turns.TakeTurn.TheVariants.{Rests};

    /// Like [`new`](CallAuditor::new), with a list supplied by the caller to keep the items in, which may be in slots. Its
    /// contents are removed.
    pub fn with(list: Q, capacity: Capacity) -> CallAuditor<Q>
        requires { IsProper (meant capacity) }
        ensures capacity { result.capacity ≡ capacity }
        ensures reads { Audits Q.items result [] }
        ensures entries { Q.entries result.inside ≡ [] }
        ensures room { Q.room result.inside ≡ Q.room list }
    {
        let mut inside = list;
        inside.truncate(0);
        CallAuditor {
            capacity,
            inside,
            put: PutTurn::Free,
            take: TakeTurn::Rests,
            shut: false,
        }
    }

    /// Forgets what it has read, and audits a history of a queue of this capacity from its start, in the same list.
    pub fn restart(&mut self, capacity: Capacity)
        requires { IsProper (meant capacity) }
        ensures capacity { self.new.capacity ≡ capacity }
        ensures reads { Audits Q.items self.new [] }
        ensures entries { Q.entries self.new.inside ≡ [] }
        ensures room { Q.room self.new.inside ≡ Q.room self.old.inside }
    {
        self.inside.truncate(0);
        self.capacity = capacity;
        self.put = PutTurn::Free;
        self.take = TakeTurn::Rests;
        self.shut = false;
    }

    /// An auditor that continues from what another kept, and from the contents of its list then.
    pub fn resume(state: AuditorState, inside: Q) -> CallAuditor<Q>
        ensures { result ≡ auditor_of state inside }
    {
        CallAuditor {
            capacity: state.capacity,
            inside,
            put: state.put,
            take: state.take,
            shut: state.shut,
        }
    }

    /// What it keeps besides its list, and the list.
    pub fn keep(self) -> (AuditorState, Q)
        ensures { self ≡ auditor_of result.0 result.1 }
    {
        let state = AuditorState {
            capacity: self.capacity,
            put: self.put,
            take: self.take,
            shut: self.shut,
        };
        (state, self.inside)
    }

    /// What it has read is linearizable.
    pub fn has_read(&self)
        ensures { (h : List calls.Event) → Audits Q.items self.now h → IsLinearizable (meant self.now.capacity) h }
    {}

    /// Reads the next event of the history. It returns `OutOfTurn` if the event starts a call while one of its side is under way,
    /// ends a call that is not, or has a number out of range; otherwise `NotLinearizable` if the history with it is not
    /// linearizable; and `OutOfMemory` if a put starts and its items do not fit after those inside: then the history with it is
    /// linearizable, and at each point to which it can lead there are more items than the list has room for. A refused event
    /// changes nothing.
    pub fn feed(&mut self, event: Event<'_>) -> Result<(), Fault>
        ensures reads { Reads Q.items Q.room self.old (told event.entry) result self.new }
        ensures room { Q.room self.new.inside ≡ Q.room self.old.inside }
    {
        self.feed_at(0, event)
    }

    // Like `feed`, for an event on this line, which is kept with each item that the event offers.
    pub(crate) fn feed_at(&mut self, line: u64, event: Event<'_>) -> Result<(), Fault>
        ensures decides { Decides Q.items Q.room self.old (told event.entry) result self.new }
        ensures room { Q.room self.new.inside ≡ Q.room self.old.inside }
        ensures entries { MovesEntries Q.entries (λ item. Q.entry item line) self.old (told event.entry) result
            self.new }
    {
        match event {
            Event::PutBegins(items) => self.put_begins(line, items),
            Event::PutEnds(reply) => self.put_ends(reply),
            Event::CloseBegins => self.close_begins(),
            Event::CloseEnds => self.close_ends(),
            Event::TakeBegins(wanted) => self.take_begins(wanted),
            Event::TakeEnds(reply) => self.take_ends(reply),
        }
    }

    // A put of these items begins; there must be at least one.
    fn put_begins(&mut self, line: u64, items: &[u64]) -> Result<(), Fault>
        ensures decides { Decides Q.items Q.room self.old (PutBegin items.now) result self.new }
        ensures room { Q.room self.new.inside ≡ Q.room self.old.inside }
        ensures entries { MovesEntries Q.entries (λ item. Q.entry item line) self.old (PutBegin items.now) result
            self.new }
    {
        match self.put {
            PutTurn::Free => {}
            PutTurn::Offers { .. } | PutTurn::Late { .. } | PutTurn::Closes { .. } => return Err(
                Fault::OutOfTurn,
            ),
        }
        if items.is_empty() {
            return Err(Fault::OutOfTurn);
        }
        if self.shut {
            self.put = PutTurn::Late {
                offered: items.len(),
            };
            return Ok(());
        }
        let before = self.inside.len();
        if !self.holds(line, items) {
            return Err(Fault::OutOfMemory);
        }
        self.put = PutTurn::Offers {
            offered: items.len(),
            before,
        };
        Ok(())
    }

    // Appends the items to those inside, or none of them if memory ran out.
    fn holds(&mut self, line: u64, items: &[u64]) -> bool
        ensures full { result ≡ false → Q.room self.old.inside < length (Q.items self.old.inside) + length items.now }
        ensures room { Q.room self.new.inside ≡ Q.room self.old.inside }
        ensures inside { Q.items self.new.inside ≡ (if result then (Q.items self.old.inside) ++ items.now else
            (Q.items self.old.inside)) }
        ensures entries { Q.entries self.new.inside ≡ (if result then Q.entries self.old.inside ++ map
            (λ item. Q.entry item line) items.now else Q.entries self.old.inside) }
        ensures capacity { self.new.capacity ≡ self.old.capacity }
        ensures put { self.new.put ≡ self.old.put }
        ensures take { self.new.take ≡ self.old.take }
        ensures shut { self.new.shut ≡ self.old.shut }
    {
        let before = self.inside.len();
        for item in items {
            if self.inside.push_back(*item, line).is_err() {
                self.inside.truncate(before);
                return false;
            }
        }
        true
    }

    // The put ends with this reply.
    #[inline(always)]
    fn put_ends(&mut self, reply: Reply<usize>) -> Result<(), Fault>
        ensures decides { Decides Q.items Q.room self.old (PutEnd (reply_by (λ count. count) reply)) result self.new }
        ensures room { Q.room self.new.inside ≡ Q.room self.old.inside }
        ensures entries { MovesEntries Q.entries (λ item. Q.entry item 0) self.old
            (PutEnd (reply_by (λ count. count) reply)) result self.new }
    {
        let stored = reply.count();
        match self.put {
            PutTurn::Offers { offered, before } => {
                let Some(lacked) = reply.lacked(stored, offered) else {
                    return Err(Fault::OutOfTurn);
                };
                if reply.is_shut() {
                    return Err(Fault::NotLinearizable);
                }
                if lacked > 0 && !self.may_lack(before, lacked) {
                    return Err(Fault::NotLinearizable);
                }
                if !self.ends_put(offered - stored) {
                    return Err(Fault::NotLinearizable);
                }
                Ok(())
            }
            PutTurn::Late { offered } => {
                let Some(lacked) = reply.lacked(stored, offered) else {
                    return Err(Fault::OutOfTurn);
                };
                if stored > 0 || lacked > 0 {
                    return Err(Fault::NotLinearizable);
                }
                self.put = PutTurn::Free;
                Ok(())
            }
            PutTurn::Free | PutTurn::Closes { .. } => Err(Fault::OutOfTurn),
        }
    }

    // Ends the put without its last `rest` items, if that is possible.
    #[inline(always)]
    fn ends_put(&mut self, rest: usize) -> bool
        ensures room { Q.room self.new.inside ≡ Q.room self.old.inside }
        ensures ends { IsTrue result ↔
            CanEndPut (meant self.old.capacity) (length (Q.items self.old.inside)) (asked_by self.old.take) rest }
        ensures inside { Q.items self.new.inside ≡ (if result then take (length (Q.items self.old.inside) - rest)
            (Q.items self.old.inside) else (Q.items self.old.inside)) }
        ensures entries { Q.entries self.new.inside ≡ (if result then take (length (Q.entries self.old.inside) - rest)
            (Q.entries self.old.inside) else Q.entries self.old.inside) }
        ensures put { self.new.put ≡ (if result then Free else self.old.put) }
        ensures capacity { self.new.capacity ≡ self.old.capacity }
        ensures take { self.new.take ≡ self.old.take }
        ensures shut { self.new.shut ≡ self.old.shut }
    {
        if self.inside.len() < rest {
            return false;
        }
        let kept = self.inside.len() - rest;
        if !self.may_hold(kept.saturating_sub(self.asked())) {
            return false;
        }
        self.inside.truncate(kept);
        self.put = PutTurn::Free;
        true
    }

    // A close begins.
    fn close_begins(&mut self) -> Result<(), Fault>
        ensures decides { Decides Q.items Q.room self.old CloseBegin result self.new }
        ensures room { Q.room self.new.inside ≡ Q.room self.old.inside }
        ensures entries { MovesEntries Q.entries (λ item. Q.entry item 0) self.old CloseBegin result self.new }
    {
        match self.put {
            PutTurn::Free => {
                self.put = PutTurn::Closes { again: self.shut };
                Ok(())
            }
            PutTurn::Offers { .. } | PutTurn::Late { .. } | PutTurn::Closes { .. } => Err(
                Fault::OutOfTurn,
            ),
        }
    }

    // The close ends.
    fn close_ends(&mut self) -> Result<(), Fault>
        ensures decides { Decides Q.items Q.room self.old CloseEnd result self.new }
        ensures room { Q.room self.new.inside ≡ Q.room self.old.inside }
        ensures entries { MovesEntries Q.entries (λ item. Q.entry item 0) self.old CloseEnd result self.new }
    {
        match self.put {
            PutTurn::Closes { .. } => {
                self.put = PutTurn::Free;
                self.shut = true;
                Ok(())
            }
            PutTurn::Free | PutTurn::Offers { .. } | PutTurn::Late { .. } => Err(Fault::OutOfTurn),
        }
    }

    // A take of up to `wanted` items begins; there must be at least one.
    fn take_begins(&mut self, wanted: usize) -> Result<(), Fault>
        ensures decides { Decides Q.items Q.room self.old (TakeBegin wanted) result self.new }
        ensures room { Q.room self.new.inside ≡ Q.room self.old.inside }
        ensures entries { MovesEntries Q.entries (λ item. Q.entry item 0) self.old (TakeBegin wanted) result self.new }
    {
        match self.take {
            TakeTurn::Rests => {
                if wanted == 0 {
                    return Err(Fault::OutOfTurn);
                }
                let before = self.inside.len().saturating_sub(self.offered());
                self.take = TakeTurn::Waits {
                    wanted,
                    before,
                    ended: self.shut,
                };
                Ok(())
            }
            TakeTurn::Waits { .. } => Err(Fault::OutOfTurn),
        }
    }

    // The take ends with this reply.
    #[inline(always)]
    fn take_ends(&mut self, reply: Reply<&[u64]>) -> Result<(), Fault>
        ensures decides { Decides Q.items Q.room self.old (TakeEnd (reply_by (λ items. items.now) reply.entry)) result
            self.new }
        ensures room { Q.room self.new.inside ≡ Q.room self.old.inside }
        ensures entries { MovesEntries Q.entries (λ item. Q.entry item 0) self.old
            (TakeEnd (reply_by (λ items. items.now) reply.entry)) result self.new }
    {
        let TakeTurn::Waits {
            wanted,
            before,
            ended,
        } = self.take
        else {
            return Err(Fault::OutOfTurn);
        };
        let items = reply.items();
        let Some(lacked) = reply.lacked(items.len(), wanted) else {
            return Err(Fault::OutOfTurn);
        };
        if reply.is_shut() {
            return self.take_closed();
        }
        if lacked > 0 && lacked <= before {
            return Err(Fault::NotLinearizable);
        }
        // (it found none after a close had ended)
        if lacked > 0 && items.is_empty() && ended && before == 0 {
            return Err(Fault::NotLinearizable);
        }
        if !self.are_next(items) || !self.ends_take(items.len()) {
            return Err(Fault::NotLinearizable);
        }
        Ok(())
    }

    // Whether these items are the next ones to be taken.
    fn are_next(&self, items: &[u64]) -> bool
        ensures { IsTrue result ↔ AreNext items.now (Q.items self.now.inside) }
    {
        for (index, item) in items.iter().enumerate() {
            match self.inside.item(index) {
                Some(next) => {
                    if next != *item {
                        return false;
                    }
                }
                None => return false,
            }
        }
        true
    }

    // Ends the take with this many items, the next ones, if that is possible.
    fn ends_take(&mut self, count: usize) -> bool
        ensures room { Q.room self.new.inside ≡ Q.room self.old.inside }
        ensures ends { IsTrue result ↔
            CanEndTake (meant self.old.capacity) (length (Q.items self.old.inside)) (offered_by self.old.put) count }
        ensures inside { Q.items self.new.inside ≡ (if result then drop count (Q.items self.old.inside) else
            (Q.items self.old.inside)) }
        ensures entries { Q.entries self.new.inside ≡ (if result then drop count (Q.entries self.old.inside) else
            Q.entries self.old.inside) }
        ensures take { self.new.take ≡ (if result then Rests else self.old.take) }
        ensures capacity { self.new.capacity ≡ self.old.capacity }
        ensures put { self.new.put ≡ self.old.put }
        ensures shut { self.new.shut ≡ self.old.shut }
    {
        let rest = self.inside.len().saturating_sub(count);
        if !self.may_hold(rest.saturating_sub(self.offered())) {
            return false;
        }
        for _ in 0..count {
            self.inside.pop_front();
        }
        self.take = TakeTurn::Rests;
        true
    }

    // The take ends: the queue was empty and closed.
    fn take_closed(&mut self) -> Result<(), Fault>
        ensures decides { Decides Q.items Q.room self.old (TakeEnd Shut) result self.new }
        ensures room { Q.room self.new.inside ≡ Q.room self.old.inside }
        ensures entries { MovesEntries Q.entries (λ item. Q.entry item 0) self.old (TakeEnd Shut) result self.new }
    {
        match self.take {
            TakeTurn::Rests => Err(Fault::OutOfTurn),
            TakeTurn::Waits { .. } => {
                if self.inside.len() > 0 || !self.is_closed() {
                    return Err(Fault::NotLinearizable);
                }
                self.shut = true;
                self.take = TakeTurn::Rests;
                Ok(())
            }
        }
    }
}
