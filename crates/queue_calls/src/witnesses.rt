//! What is kept of a history to judge the next event, and to report what contradicts it.
ghost use Rattle.std.specs.Prelude.{◌≡◌, ℕ, Bool, ◌<◌, ◌≤◌, ◌+◌, ◌++◌, ◌∷◌, [], List, IfErr, OnOk, Some, length, map, drop, reverse, unwrap_or};
ghost use Rattle.queue_calls.specs.Queue as queues;
ghost use Rattle.queue_calls.specs.Calls as calls;
ghost use Rattle.queue_calls.specs.Calls.{PutEnd, TakeEnd, Passed, Shut, IsLinearizable};
ghost use Rattle.queue_calls.specs.InTurn.{APut, ATake, CallsAreInTurn, MovesSides, Sides};
ghost use Rattle.queue_calls.specs.State.{IsProper, call_of_put, call_of_take, sides_of};
ghost use Rattle.queue_calls.specs.Told.{meant, reply_by, told};
ghost use Rattle.queue_calls.specs.Reasons.{IsCause, at, cause_of, coming, empty_cause, fewer_cause, full_cause, gone_cause, items_cause, last_in, last_of, not_taken_cause, put_short_cause, stored_cause, take_short_cause, taken_at};
ghost use Rattle.queue_calls.specs.Witnesses.{Remembers, RefusesNext, agreed, comes, last_taken_of, mark_last};
ghost use Rattle.queue_calls.specs.declared.faults.Fault.TheVariants.{OutOfMemory};

use crate::auditors::CallAuditor;
use crate::capacities::Capacity;
use crate::events::{Event, Reply};
use crate::faults::Fault;
use crate::insides::{Inside, Lined};
use crate::storage::Storage;
use crate::turns::{PutTurn, TakeTurn};
use call_causes::{Cause, Offered, Taken};
use lists::Fifo;

// A history of a queue, with the lines of its events.
#[derive(Drop)]
pub(crate) struct Witness<S: Storage> {
    pub(crate) auditor: CallAuditor<Lined<S::Offered>>,
    // the items taken last, and how many of them are kept
    pub(crate) taken: S::Taken,
    pub(crate) limit: usize,
    // the last one, kept in any case; if none was taken, item 0 of line 0
    pub(crate) last_taken: Taken,
    // the lines that ended the first close, and the first take that returned Closed
    pub(crate) ended_at: Option<u64>,
    pub(crate) told_at: Option<u64>,
    // those that began the last put, and ended the last one that stored items; if there was none, the first line of an event
    pub(crate) put_at: u64,
    pub(crate) stored_at: u64,
}

impl<S: Storage> Witness<S> {
    // Nothing, for a queue whose capacity is not known yet. This many of the items taken last are kept.
    pub fn new(offered: S::Offered, taken: S::Taken, limit: usize) -> Witness<S>
        ensures limit { result.limit ≡ limit }
        ensures rooms { (S.Offered.room result.auditor.inside.list ≡ S.Offered.room offered) ×
            (S.Taken.room result.taken ≡ S.Taken.room taken) }
    {
        Witness {
            auditor: CallAuditor::with(Lined { list: offered }, Capacity::Unbounded),
            taken,
            limit,
            last_taken: Taken {
                item: 0,
                taken_at: 0,
            },
            ended_at: None,
            told_at: None,
            put_at: 2,
            stored_at: 2,
        }
    }

    // Forgets all, and starts with a queue of this capacity.
    pub fn restart(&mut self, capacity: Capacity)
        requires { IsProper (meant capacity) }
        ensures limit { self.new.limit ≡ self.old.limit }
        ensures kept { Remembers S.Offered.items S.Taken.items self.new (meant capacity) [] }
        ensures rooms { (S.Offered.room self.new.auditor.inside.list ≡ S.Offered.room self.old.auditor.inside.list) ×
            (S.Taken.room self.new.taken ≡ S.Taken.room self.old.taken) }
    {
        self.auditor.restart(capacity);
        self.taken.truncate(0);
        self.last_taken = Taken {
            item: 0,
            taken_at: 0,
        };
        self.ended_at = None;
        self.told_at = None;
        self.put_at = 2;
        self.stored_at = 2;
    }

    // Reads the next event, at this line, or refuses it.
    pub fn hear(&mut self, line: u64, event: Event<'_>) -> Result<(), Fault>
        ensures kept { OnOk result ((capacity : queues.Capacity) (events : List calls.Event) →
            Remembers S.Offered.items S.Taken.items self.old capacity events → length events + 2 ≡ line →
            Remembers S.Offered.items S.Taken.items self.new capacity (events ++ told event.entry ∷ [])) }
        ensures refused { IfErr result (λ fault. (capacity : queues.Capacity) (events : List calls.Event) →
            Remembers S.Offered.items S.Taken.items self.old capacity events →
            RefusesNext S.Offered.items S.Taken.items (S.Offered.room self.old.auditor.inside.list)
            (S.Taken.room self.old.taken) self.new capacity events (told event.entry) fault) }
        ensures limit { self.new.limit ≡ self.old.limit }
        ensures rooms { (S.Offered.room self.new.auditor.inside.list ≡ S.Offered.room self.old.auditor.inside.list) ×
            (S.Taken.room self.new.taken ≡ S.Taken.room self.old.taken) }
    {
        self.auditor.feed_at(line, event)?;
        match event {
            Event::PutBegins(_) => self.put_at = line,
            Event::PutEnds(reply) => self.stores(line, reply.count()),
            Event::CloseEnds => self.ended_at = self.ended_at.or(Some(line)),
            Event::TakeEnds(reply) => {
                if !reply.is_shut() {
                    return self.takes(line, reply.items());
                }
                self.told_at = self.told_at.or(Some(line));
            }
            Event::CloseBegins | Event::TakeBegins(_) => {}
        }
        Ok(())
    }

    // This line stored the last `count` of the items inside, or none.
    fn stores(&mut self, line: u64, count: usize)
        ensures inside { S.Offered.items self.new.auditor.inside.list ≡ mark_last line count
            (S.Offered.items self.old.auditor.inside.list) }
        ensures auditor { (self.new.auditor.capacity ≡ self.old.auditor.capacity) ×
            (self.new.auditor.put ≡ self.old.auditor.put) × (self.new.auditor.take ≡ self.old.auditor.take) ×
            (self.new.auditor.shut ≡ self.old.auditor.shut) }
        ensures stored { (0 < count → self.new.stored_at ≡ line) ×
            (count ≡ 0 → self.new.stored_at ≡ self.old.stored_at) }
        ensures lines { (self.new.ended_at ≡ self.old.ended_at) × (self.new.told_at ≡ self.old.told_at) ×
            (self.new.put_at ≡ self.old.put_at) }
        ensures taken { (self.new.taken ≡ self.old.taken) × (self.new.limit ≡ self.old.limit) ×
            (self.new.last_taken ≡ self.old.last_taken) }
        ensures room { S.Offered.room self.new.auditor.inside.list ≡ S.Offered.room self.old.auditor.inside.list }
    {
        let inside = self.auditor.inside.len();
        for place in inside.saturating_sub(count)..inside {
            let entry = self.at(place);
            let stored = Offered {
                item: entry.item,
                offered_at: entry.offered_at,
                stored_at: line,
            };
            self.auditor.inside.list.set(place, stored);
        }
        if count > 0 {
            self.stored_at = line;
        }
    }

    // This line took these items.
    fn takes(&mut self, line: u64, items: &[u64]) -> Result<(), Fault>
        ensures taken { OnOk result ((earlier : List Taken) →
            S.Taken.items self.old.taken ≡ last_of self.old.limit earlier →
            S.Taken.items self.new.taken ≡ last_of self.old.limit (earlier ++ map (taken_at line) items.now)) }
        ensures last { (earlier : List Taken) → self.old.last_taken ≡ last_in earlier →
            self.new.last_taken ≡ last_in (earlier ++ map (taken_at line) items.now) }
        ensures full { IfErr result (λ fault. (fault ≡ OutOfMemory) ×
            ((earlier : List Taken) → S.Taken.items self.old.taken ≡ last_of self.old.limit earlier →
            (S.Taken.room self.old.taken < self.old.limit) ×
            (S.Taken.room self.old.taken < length earlier + length items.now))) }
        ensures others { (self.new.auditor ≡ self.old.auditor) × (self.new.limit ≡ self.old.limit) ×
            (self.new.ended_at ≡ self.old.ended_at) × (self.new.told_at ≡ self.old.told_at) ×
            (self.new.put_at ≡ self.old.put_at) × (self.new.stored_at ≡ self.old.stored_at) }
        ensures room { S.Taken.room self.new.taken ≡ S.Taken.room self.old.taken }
    {
        self.last_taken = match items.last() {
            Some(item) => Taken {
                item: *item,
                taken_at: line,
            },
            None => self.last_taken,
        };
        if self.limit == 0 {
            return Ok(());
        }
        for item in items {
            if self.limit <= self.taken.len() {
                // the removed item is not needed
                let _ = self.taken.pop_front();
            }
            let taken = Taken {
                item: *item,
                taken_at: line,
            };
            if self.taken.push_back(taken).is_err() {
                return Err(Fault::OutOfMemory);
            }
        }
        Ok(())
    }

    // The entry at this place among those inside.
    fn at(&self, place: usize) -> Offered
        ensures { result ≡ at (S.Offered.items self.now.auditor.inside.list) place }
    {
        match self.auditor.inside.list.get(place) {
            Some(entry) => *entry,
            None => Offered {
                item: 0,
                offered_at: 0,
                stored_at: 0,
            },
        }
    }

    // What contradicts an event on this line that comes in turn, and at which the history is not linearizable.
    pub fn cause(&self, line: u64, event: Event<'_>) -> Cause
        ensures { (capacity : queues.Capacity) (events : List calls.Event) →
            Remembers S.Offered.items S.Taken.items self.now capacity events → length events + 2 ≡ line →
            CallsAreInTurn (events ++ told event.entry ∷ []) →
            ¬ IsLinearizable capacity (events ++ told event.entry ∷ []) →
            IsCause self.now.limit capacity events (told event.entry) result }
    {
        match event {
            Event::PutEnds(reply) => self.put_cause(reply),
            Event::TakeEnds(reply) => self.take_cause(line, reply),
            // A call that begins takes nothing back, and a close may always end: nothing contradicts these.
            Event::PutBegins(_) | Event::CloseBegins | Event::CloseEnds | Event::TakeBegins(_) =>
                Cause::ClosedBeforeClose,
        }
    }

    // What contradicts the end of a put.
    fn put_cause(&self, reply: Reply<usize>) -> Cause
        ensures { (capacity : queues.Capacity) (events : List calls.Event) (cause : Cause) (t : Sides) →
            Remembers S.Offered.items S.Taken.items self.now capacity events →
            MovesSides (sides_of self.now.auditor.put self.now.auditor.take)
            (PutEnd (reply_by (λ count. count) reply)) t →
            cause_of self.now.limit capacity (PutEnd (reply_by (λ count. count) reply)) (reverse events) ≡ Some cause →
            result ≡ cause }
    {
        match reply {
            Reply::Passed(count) => self.stored_cause(count, true),
            Reply::PassedSome(count) => self.stored_cause(count, false),
            Reply::Lacked => self.full_cause(),
            Reply::Short => self.put_short_cause(),
            Reply::Nothing => Cause::NotStoredButTaken(self.last_taken),
            Reply::Shut => Cause::ClosedWithoutClose,
        }
    }

    // What contradicts the end of a take on this line.
    fn take_cause(&self, line: u64, reply: Reply<&[u64]>) -> Cause
        ensures { (capacity : queues.Capacity) (events : List calls.Event) (cause : Cause) (t : Sides) →
            Remembers S.Offered.items S.Taken.items self.now capacity events → length events + 2 ≡ line →
            MovesSides (sides_of self.now.auditor.put self.now.auditor.take)
            (TakeEnd (reply_by (λ items. items.now) reply.entry)) t →
            cause_of self.now.limit capacity (TakeEnd (reply_by (λ items. items.now) reply.entry)) (reverse events) ≡
            Some cause → result ≡ cause }
    {
        match reply {
            Reply::Passed(items) => self.items_cause(line, items, true),
            Reply::PassedSome(items) => self.items_cause(line, items, false),
            Reply::Lacked => self.empty_cause(),
            Reply::Short => self.take_short_cause(),
            Reply::Nothing => self.not_taken_cause(0),
            Reply::Shut => self.closed_cause(),
        }
    }

    // The line that ended the first close.
    fn ended_line(&self) -> u64
        ensures { result ≡ unwrap_or self.now.ended_at 0 }
    {
        self.ended_at.unwrap_or(0)
    }

    fn stored_cause(&self, count: usize, why: bool) -> Cause
        ensures { (capacity : queues.Capacity) (events : List calls.Event) (cause : Cause) →
            Remembers S.Offered.items S.Taken.items self.now capacity events → (n : ℕ) →
            call_of_put self.now.auditor.put ≡ APut n → count ≤ n →
            stored_cause capacity count why (reverse events) ≡ Some cause → result ≡ cause }
    {
        let PutTurn::Offers { offered, before } = self.auditor.put else {
            return Cause::StoredAfterClose(self.ended_line());
        };
        let rest = offered.saturating_sub(count);
        let inside = self.auditor.inside.len();
        if inside < rest {
            return Cause::OnlySomeStored {
                count,
                taken: self.last_taken,
            };
        }
        let least = (inside - rest).saturating_sub(self.auditor.asked());
        if !self.auditor.may_hold(least) {
            return Cause::StoredTooMany(least);
        }
        Cause::OnlySomeWithRoom {
            count,
            inside: before,
            since: self.put_at,
        }
    }

    fn full_cause(&self) -> Cause
        ensures { (capacity : queues.Capacity) (events : List calls.Event) (cause : Cause) →
            Remembers S.Offered.items S.Taken.items self.now capacity events → (n : ℕ) →
            call_of_put self.now.auditor.put ≡ APut n → full_cause capacity (reverse events) ≡ Some cause →
            result ≡ cause }
    {
        let PutTurn::Offers { offered, before } = self.auditor.put else {
            return Cause::FullAfterClose(self.ended_line());
        };
        if self.auditor.inside.len() < offered {
            return Cause::NotStoredButTaken(self.last_taken);
        }
        Cause::FullWithRoom {
            inside: before,
            since: self.put_at,
        }
    }

    fn put_short_cause(&self) -> Cause
        ensures { (capacity : queues.Capacity) (events : List calls.Event) (cause : Cause) →
            Remembers S.Offered.items S.Taken.items self.now capacity events → (n : ℕ) →
            call_of_put self.now.auditor.put ≡ APut n → put_short_cause capacity (reverse events) ≡ Some cause →
            result ≡ cause }
    {
        let PutTurn::Offers { offered, before } = self.auditor.put else {
            return Cause::ShortAfterClose(self.ended_line());
        };
        if self.auditor.inside.len() < offered {
            return Cause::NotStoredButTaken(self.last_taken);
        }
        Cause::ShortWithRoom {
            offered,
            inside: before,
            since: self.put_at,
        }
    }

    fn items_cause(&self, line: u64, items: &[u64], why: bool) -> Cause
        ensures { (capacity : queues.Capacity) (events : List calls.Event) (cause : Cause) →
            Remembers S.Offered.items S.Taken.items self.now capacity events → length events + 2 ≡ line → (n : ℕ) →
            call_of_take self.now.auditor.take ≡ ATake n →
            cause_of self.now.limit capacity (TakeEnd (Passed items.now why)) (reverse events) ≡ Some cause →
            result ≡ cause }
    {
        if let Some(told) = self.told_at {
            return Cause::ItemAfterTold(told);
        }
        let place = self.next_ones(items);
        match items.get(place) {
            Some(item) => self.astray_cause(line, &items[..place], *item),
            None => self.fewer_cause(items.len(), why),
        }
    }

    // How many of the first of these items are the next ones.
    fn next_ones(&self, items: &[u64]) -> usize
        ensures { result ≡ agreed items.now (S.Offered.items self.now.auditor.inside.list) }
    {
        for (place, item) in items.iter().enumerate() {
            match self.auditor.inside.list.get(place) {
                Some(next) => {
                    if next.item != *item {
                        return place;
                    }
                }
                None => return place,
            }
        }
        items.len()
    }

    // The cause for an item that is not the next after these, which are.
    fn astray_cause(&self, line: u64, first: &[u64], item: u64) -> Cause
        ensures { (capacity : queues.Capacity) (events : List calls.Event) (cause : Cause) (items : List ℕ)
            (why : Bool) → Remembers S.Offered.items S.Taken.items self.now capacity events → length events + 2 ≡ line →
            agreed (item ∷ []) (drop (length first.now) (coming (reverse events))) ≡ 0 →
            items_cause self.now.limit capacity why (reverse events) first.now (item ∷ items)
            (drop (length first.now) (coming (reverse events))) ≡ Some cause → result ≡ cause }
    {
        match self.auditor.inside.list.get(first.len()) {
            Some(next) => {
                let next = *next;
                if self.comes_from(first.len().saturating_add(1), item) {
                    return Cause::NotNext { item, next };
                }
                self.gone_cause(line, first, item, Some(next))
            }
            None => self.gone_cause(line, first, item, None),
        }
    }

    // Whether an item is to come from this place on.
    fn comes_from(&self, place: usize, item: u64) -> bool
        ensures { result ≡ comes item (drop place (S.Offered.items self.now.auditor.inside.list)) }
    {
        for index in place..self.auditor.inside.len() {
            if self.at(index).item == item {
                return true;
            }
        }
        false
    }

    // The cause for an item that does not come any more.
    fn gone_cause(&self, line: u64, first: &[u64], item: u64, next: Option<Offered>) -> Cause
        ensures { (capacity : queues.Capacity) (events : List calls.Event) →
            Remembers S.Offered.items S.Taken.items self.now capacity events → length events + 2 ≡ line →
            result ≡ gone_cause self.now.limit (reverse events) first.now item next }
    {
        if first.contains(&item) {
            return Cause::ComesAgain {
                taken: Taken {
                    item,
                    taken_at: line,
                },
                next,
            };
        }
        match self.last_taken_of(item) {
            Some(taken) => Cause::ComesAgain { taken, next },
            None => Cause::NotInside { item, next },
        }
    }

    // The item among those taken last, with its last take, if it is there.
    fn last_taken_of(&self, item: u64) -> Option<Taken>
        ensures { result ≡ last_taken_of item (S.Taken.items self.now.taken) }
    {
        for place in (0..self.taken.len()).rev() {
            if let Some(taken) = self.taken.get(place) {
                if taken.item == item {
                    return Some(*taken);
                }
            }
        }
        None
    }

    // The cause for a take that took the next `count` items, and may say why they are not more.
    fn fewer_cause(&self, count: usize, why: bool) -> Cause
        ensures { (capacity : queues.Capacity) (events : List calls.Event) (cause : Cause) →
            Remembers S.Offered.items S.Taken.items self.now capacity events → (n : ℕ) →
            call_of_take self.now.auditor.take ≡ ATake n →
            fewer_cause capacity count why (reverse events) ≡ Some cause → result ≡ cause }
    {
        let TakeTurn::Waits { wanted, before, .. } = self.auditor.take else {
            return self.not_taken_cause(count);
        };
        if why && count < wanted && count < before {
            return Cause::NoMoreWhileInside(self.at(count));
        }
        self.not_taken_cause(count)
    }

    // The cause for a take that took too few: `count`.
    fn not_taken_cause(&self, count: usize) -> Cause
        ensures { (capacity : queues.Capacity) (events : List calls.Event) (cause : Cause) →
            Remembers S.Offered.items S.Taken.items self.now capacity events →
            not_taken_cause capacity count (reverse events) ≡ Some cause → result ≡ cause }
    {
        Cause::NotTaken {
            inside: self
                .auditor
                .inside
                .len()
                .saturating_sub(count)
                .saturating_sub(self.auditor.offered()),
            since: self.stored_at,
        }
    }

    fn empty_cause(&self) -> Cause
        ensures { (capacity : queues.Capacity) (events : List calls.Event) (cause : Cause) →
            Remembers S.Offered.items S.Taken.items self.now capacity events → (n : ℕ) →
            call_of_take self.now.auditor.take ≡ ATake n → empty_cause capacity (reverse events) ≡ Some cause →
            result ≡ cause }
    {
        if let Some(told) = self.told_at {
            return Cause::EmptyAfterTold(told);
        }
        let TakeTurn::Waits { before, ended, .. } = self.auditor.take else {
            return self.not_taken_cause(0);
        };
        if before > 0 {
            return Cause::EmptyWhileInside(self.at(0));
        }
        if ended {
            return Cause::EmptyAfterClose(self.ended_line());
        }
        self.not_taken_cause(0)
    }

    fn take_short_cause(&self) -> Cause
        ensures { (capacity : queues.Capacity) (events : List calls.Event) (cause : Cause) →
            Remembers S.Offered.items S.Taken.items self.now capacity events → (n : ℕ) →
            call_of_take self.now.auditor.take ≡ ATake n → 0 < n →
            take_short_cause capacity (reverse events) ≡ Some cause → result ≡ cause }
    {
        if let Some(told) = self.told_at {
            return Cause::ShortAfterTold(told);
        }
        let TakeTurn::Waits {
            wanted,
            before,
            ended,
        } = self.auditor.take
        else {
            return self.not_taken_cause(0);
        };
        if wanted <= before {
            return Cause::ShortWhileInside(self.at(wanted.saturating_sub(1)));
        }
        if ended && self.auditor.inside.len() == 0 {
            return Cause::ShortAfterClose(self.ended_line());
        }
        self.not_taken_cause(0)
    }

    fn closed_cause(&self) -> Cause
        ensures { (capacity : queues.Capacity) (events : List calls.Event) (cause : Cause) →
            Remembers S.Offered.items S.Taken.items self.now capacity events →
            cause_of self.now.limit capacity (TakeEnd Shut) (reverse events) ≡ Some cause → result ≡ cause }
    {
        if self.auditor.is_closed() {
            Cause::ClosedWhileInside(self.at(0))
        } else {
            Cause::ClosedBeforeClose
        }
    }
}
