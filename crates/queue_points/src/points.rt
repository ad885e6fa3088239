//! Histories whose operations take effect at given moments.
ghost use Rattle.std.specs.Prelude.{◌≡◌, ◌≤◌, ◌-◌, ◌↔◌, [], IfSome, IsNone, IsTrue, List, length};
ghost use Rattle.queue_points.specs.Steps.{began_at};

use crate::steps::{
    Operation, PutStand, TakeStand, put_effect, put_event, stretch, take_effect, take_event,
    take_one,
};
use queue_calls::{Capacity, Event};

/// A history of calls, and the moments at which the operations of its calls take effect: its linearization points.
///
/// It is fed one after the other: an event, or that an operation takes effect. It keeps the queue that results from the operations and
/// the state of each side, and refuses what cannot come next. If it has accepted all, the history of the events is linearizable, with
/// exactly these moments.
///
/// For example, after `happens(Event::PutBegins(&[5]))`, `takes_effect(Operation::Enqueue(5))` and
/// `happens(Event::PutEnds(Reply::Passed(1)))` the queue holds 5.
#[derive(Drop)]
pub struct LinearizationPoints<'a> {
    capacity: Capacity,
    // the items, in the order in which they are put in
    row: &'a [u64],
    // how many of them were taken out, and put in
    head: usize,
    tail: usize,
    closed: bool,
    put: PutStand<'a>,
    take: TakeStand,
    ghost out: { head ≤ tail },
    ghost within: { tail ≤ length row.now },
    ghost began: { began_at take ≤ head },
}

impl<'a> LinearizationPoints<'a> {
    ghost use Rattle.queue_calls.specs.Queue.{HasRoom, LacksRoom, Queue, Step, queue};
    ghost use Rattle.queue_calls.specs.Calls.{Mark, Happens, Effect, IsLinearizable, events_among};
    ghost use Rattle.queue_points.specs.Points.{Accepts, HasFollowed};
    ghost use Rattle.queue_points.specs.Steps.{IsNoItem, done, stretch};
    ghost use Rattle.queue_calls.specs.Told.{meant, told};

    /// Nothing has come yet, for a queue of this capacity. The row has the items in the order in which they will be put in; it may
    /// have more.
    pub fn new(capacity: Capacity, row: &'a [u64]) -> LinearizationPoints<'a>
        ensures capacity { result.capacity ≡ capacity }
        ensures row { (result.row.now ≡ row.entry.now) × (result.tail ≡ 0) }
        ensures none { HasFollowed result [] }
    {
        LinearizationPoints {
            capacity,
            row,
            head: 0,
            tail: 0,
            closed: false,
            put: PutStand::Idle,
            take: TakeStand::Resting,
        }
    }

    /// The events that have come are a linearizable history.
    pub fn has_followed(&self)
        ensures { (marks : List Mark) → HasFollowed self.now marks →
            IsLinearizable (meant self.now.capacity) (events_among marks) }
    {}

    // The items inside.
    fn inside(&self) -> &[u64]
        ensures { result.now ≡ stretch self.now.row.now self.now.head self.now.tail }
    {
        stretch(self.row, self.head, self.tail)
    }

    // Whether there is room for one more.
    fn has_room(&self) -> bool
        ensures { IsTrue result ↔
            HasRoom (meant self.now.capacity) (length (stretch self.now.row.now self.now.head self.now.tail)) }
    {
        match self.capacity {
            Capacity::Unbounded => true,
            Capacity::Between { full: _, most } => self.inside().len() < most,
        }
    }

    // Whether the queue may report that it has no room for this many more.
    fn lacks_room(&self, count: usize) -> bool
        ensures { IsTrue result ↔
            LacksRoom (meant self.now.capacity) (length (stretch self.now.row.now self.now.head self.now.tail)) count }
    {
        let inside = self.inside().len();
        match self.capacity {
            Capacity::Unbounded => false,
            Capacity::Between { full, most: _ } => full < inside || full - inside < count,
        }
    }

    // Whether the queue is closed after an operation that leaves the items unchanged, if it finds the queue as it has to be.
    fn closed_behind(&self, does: Operation) -> Option<bool>
        ensures step { IfSome result (λ closed. Step (meant self.now.capacity)
            (queue (stretch self.now.row.now self.now.head self.now.tail) self.now.closed) (done does)
            (queue (stretch self.now.row.now self.now.head self.now.tail) closed)) }
        ensures exact { IsNone result → IsNoItem does → (after : Queue) →
            ¬ Step (meant self.now.capacity) (queue (stretch self.now.row.now self.now.head self.now.tail)
            self.now.closed) (done does) after }
    {
        let inside = self.inside();
        match does {
            Operation::FindNoRoom(count) if !self.closed && self.lacks_room(count) => Some(false),
            Operation::FindShut if self.closed => Some(true),
            Operation::Close => Some(true),
            Operation::FindFewer(count)
                if inside.len() < count && !(self.closed && inside.is_empty()) => Some(self.closed),
            Operation::FindClosed if self.closed && inside.is_empty() => Some(true),
            _ => None,
        }
    }

    /// An event comes. Returns whether it can: it is the next of its side, and a call that ends has taken effect with this result. What
    /// cannot come changes nothing.
    pub fn happens(&mut self, event: Event<'a>) -> bool
        ensures { Accepts self.old (Happens (told event.entry)) result self.new }
    {
        let Some(put) = put_event(self.put, event) else {
            return false;
        };
        let Some(take) = take_event(self.row, self.head, self.take, event) else {
            return false;
        };
        self.put = put;
        self.take = take;
        true
    }

    // The item is put in.
    fn enqueue(&mut self, item: u64) -> bool
        ensures { Accepts self.old (Effect (done (Operation.Enqueue item))) result self.new }
    {
        if self.closed || !self.has_room() {
            return false;
        }
        if self.tail == self.row.len() || self.row[self.tail] != item {
            return false;
        }
        let Some(put) = put_effect(self.put, Operation::Enqueue(item)) else {
            return false;
        };
        self.tail += 1;
        self.put = put;
        true
    }

    // The item is taken out.
    fn dequeue(&mut self, item: u64) -> bool
        ensures { Accepts self.old (Effect (done (Operation.Dequeue item))) result self.new }
    {
        if self.head == self.tail || self.row[self.head] != item {
            return false;
        }
        let Some(take) = take_one(self.row, self.head, self.take) else {
            return false;
        };
        self.head += 1;
        self.take = take;
        true
    }

    // The operation leaves the items unchanged.
    fn finds_so(&mut self, does: Operation) -> bool
        requires { IsNoItem does }
        ensures { Accepts self.old (Effect (done does)) result self.new }
    {
        let Some(closed) = self.closed_behind(does) else {
            return false;
        };
        let Some(put) = put_effect(self.put, does) else {
            return false;
        };
        let Some(take) = take_effect(self.row, self.head, self.take, does) else {
            return false;
        };
        self.closed = closed;
        self.put = put;
        self.take = take;
        true
    }

    /// An operation takes effect. Returns whether it can: its side's call is under way and does this next, and the queue is as it finds
    /// it. What cannot come changes nothing.
    pub fn takes_effect(&mut self, does: Operation) -> bool
        ensures { Accepts self.old (Effect (done does)) result self.new }
    {
        match does {
            Operation::Enqueue(item) => self.enqueue(item),
            Operation::Dequeue(item) => self.dequeue(item),
            Operation::FindNoRoom(_)
            | Operation::FindShut
            | Operation::Close
            | Operation::FindFewer(_)
            | Operation::FindClosed => self.finds_so(does),
        }
    }
}
