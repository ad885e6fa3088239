//! What an auditor knows about the calls under way, and about how many items may be inside.
ghost use Rattle.std.specs.Prelude.{◌≡◌, ◌↔◌, IsTrue, length};

use crate::auditors::CallAuditor;
use crate::capacities::Capacity;
use crate::insides::Inside;
use crate::turns::{PutTurn, TakeTurn};

impl<Q: Inside> CallAuditor<Q> {
    ghost use Rattle.queue_calls.specs.Queue.{LacksRoom};
    ghost use Rattle.queue_calls.specs.State.{MayHold, offered_by, asked_by, has_closed};
    ghost use Rattle.queue_calls.specs.Counting.{kept_by};
    ghost use Rattle.queue_calls.specs.Tallying.{least_kept, most_kept, has_put, has_take};
    ghost use Rattle.queue_calls.specs.Told.{meant};

    // Whether a queue with this many items inside may report that it has no room for `count` more.
    pub(crate) fn may_lack(&self, inside: usize, count: usize) -> bool
        ensures { IsTrue result ↔ LacksRoom (meant self.now.capacity) inside count }
    {
        match self.capacity {
            Capacity::Unbounded => false,
            Capacity::Between { full, most: _ } => full < inside || full - inside < count,
        }
    }

    // Whether a queue may have this many items inside.
    pub(crate) fn may_hold(&self, inside: usize) -> bool
        ensures { IsTrue result ↔ MayHold (meant self.now.capacity) inside }
    {
        match self.capacity {
            Capacity::Unbounded => true,
            Capacity::Between { full: _, most } => inside <= most,
        }
    }

    // Whether a close has begun.
    pub(crate) fn is_closed(&self) -> bool
        ensures { result ≡ has_closed self.now.put self.now.shut }
    {
        match self.put {
            PutTurn::Closes { .. } => true,
            PutTurn::Free | PutTurn::Offers { .. } | PutTurn::Late { .. } => self.shut,
        }
    }

    // How many items the put under way offered, if it began before a close had ended.
    pub(crate) fn offered(&self) -> usize
        ensures { result ≡ offered_by self.now.put }
    {
        match self.put {
            PutTurn::Offers { offered, .. } => offered,
            PutTurn::Free | PutTurn::Late { .. } | PutTurn::Closes { .. } => 0,
        }
    }

    // Whether the producer has a call under way; the consumer.
    pub(crate) fn is_putting(&self) -> bool
        ensures { result ≡ has_put self.now.put }
    {
        !matches!(self.put, PutTurn::Free)
    }

    pub(crate) fn is_taking(&self) -> bool
        ensures { result ≡ has_take self.now.take }
    {
        !matches!(self.take, TakeTurn::Rests)
    }

    // How many items are inside whatever the calls under way have done; and at most how many.
    pub(crate) fn least_inside(&self) -> usize
        ensures { result ≡ least_kept (kept_by Q.items self.now) }
    {
        self.inside
            .len()
            .saturating_sub(self.offered())
            .saturating_sub(self.asked())
    }

    pub(crate) fn most_inside(&self) -> usize
        ensures { result ≡ most_kept (meant self.now.capacity) (kept_by Q.items self.now) }
    {
        match self.capacity {
            Capacity::Unbounded => self.inside.len(),
            Capacity::Between { full: _, most } => self.inside.len().min(most),
        }
    }

    // How many items the take under way may have taken.
    pub(crate) fn asked(&self) -> usize
        ensures { result ≡ asked_by self.now.take }
    {
        match self.take {
            TakeTurn::Rests => 0,
            TakeTurn::Waits { wanted, .. } => wanted,
        }
    }
}
