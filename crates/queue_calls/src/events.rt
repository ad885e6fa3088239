//! The events of a history.
ghost use Rattle.std.specs.Prelude.{◌≡◌, ◌↔◌, IsTrue, ℕ, List, [], length};
ghost use Rattle.queue_calls.specs.Calls.{Passed, is_shut, passed};
ghost use Rattle.queue_calls.specs.Deciding.{IsLackOf};
ghost use Rattle.queue_calls.specs.Order.{P as producer, side_of};
ghost use Rattle.queue_calls.specs.Tellings.{line_of};
ghost use Rattle.queue_calls.specs.Told.{event_by, reply_by};
ghost use Rattle.queue_calls.specs.declared.hearings.Begun.{Begun};

use call_lines::Word;

/// The reply with which a call ends. An `N` represents the items that it passed: of a put how many, of a take the items.
///
/// For example, `Reply::Passed(2)` at the end of a put is `P stored 2` in a recording.
#[derive(Clone, Copy, PartialEq, Eq, Debug)]
pub enum Reply<N> {
    /// The call passed these items: the first of those that the put offered, or the next ones in the queue. If they are fewer
    /// than it offered or asked for, the queue had no room for one more than these, or no more than these, before the first of them.
    Passed(N),
    /// The call passed these items; if they are fewer than it offered or asked for, no reason is reported.
    PassedSome(N),
    /// None was passed: the queue had no room for one item, or it had no item and was not closed.
    Lacked,
    /// None of several was passed: the queue had no room for all that were offered; or it had fewer than the take asked for, though it
    /// was not empty and closed.
    Short,
    /// None was passed, and no reason is reported.
    Nothing,
    /// None was passed: the queue was closed, and empty if the call is a take.
    Shut,
}

impl Reply<usize> {
    /// How many items the put stored.
    ///
    /// For example, `Reply::Passed(2).count()` is 2, and `Reply::Lacked.count()` is 0. In use: `queue_points`.
    #[inline(always)]
    pub fn count(self) -> usize
        ensures { result ≡ passed 0 (reply_by (λ count. count) self) }
    {
        match self {
            Reply::Passed(count) | Reply::PassedSome(count) => count,
            Reply::Lacked | Reply::Short | Reply::Nothing | Reply::Shut => 0,
        }
    }
}

impl<'a> Reply<&'a [u64]> {
    /// The items that the take took.
    ///
    /// For example, `Reply::Passed(&[5, 6]).items()` is `[5, 6]`, and `Reply::Lacked.items()` is empty. In use: `queue_points`.
    #[inline(always)]
    pub fn items(self) -> &'a [u64]
        ensures { result.now ≡ passed [] (reply_by (λ items. items.now) self.entry) }
    {
        match self {
            Reply::Passed(items) | Reply::PassedSome(items) => items,
            Reply::Lacked | Reply::Short | Reply::Nothing | Reply::Shut => &[],
        }
    }
}

// The number for which a call of at most `most` items reports that there was no room or were no items, if it passed this many, and says
// why they are no more or does not. `None` if it cannot have passed them.
#[inline(always)]
fn passed(why: bool, count: usize, most: usize) -> Option<usize>
    ensures { IsLackOf (Passed count why) count most result }
{
    if count == 0 || most < count {
        return None;
    }
    if why && count < most {
        Some(count + 1)
    } else {
        Some(0)
    }
}

impl<N> Reply<N> {
    // Whether the queue was closed.
    #[inline(always)]
    pub(crate) fn is_shut(&self) -> bool
        ensures put { (what : N → ℕ) → result ≡ is_shut (reply_by what self.now) }
        ensures take { (what : N → List ℕ) → result ≡ is_shut (reply_by what self.now) }
    {
        matches!(self, Reply::Shut)
    }

    // The number for which a call of at most `most` items that passed this many reports that there was no room or were no items, 0 if it
    // reports none; `None` if such a call cannot end so.
    #[inline(always)]
    pub(crate) fn lacked(&self, count: usize, most: usize) -> Option<usize>
        ensures put { (what : N → ℕ) → count ≡ passed 0 (reply_by what self.now) →
            IsLackOf (reply_by what self.now) count most result }
        ensures take { (what : N → List ℕ) → count ≡ length (passed [] (reply_by what self.now)) →
            IsLackOf (reply_by what self.now) count most result }
    {
        match self {
            Reply::Passed(_) => passed(true, count, most),
            Reply::PassedSome(_) => passed(false, count, most),
            Reply::Lacked => Some(1),
            Reply::Short => {
                if most <= 1 {
                    return None;
                }
                Some(most)
            }
            Reply::Nothing | Reply::Shut => Some(0),
        }
    }
}

/// An event of a history of calls: a call begins, or it ends with a reply. A `P` represents the items that a put offers, and a `T`
/// those that a take took.
///
/// For example, `CallEvent::TakeBegins(2)` is `C take 2` in a recording.
#[derive(Clone, Copy, PartialEq, Eq, Debug)]
pub enum CallEvent<P, T> {
    /// A put of these items begins.
    PutBegins(P),
    /// The put ends.
    PutEnds(Reply<usize>),
    /// A close begins.
    CloseBegins,
    /// The close ends.
    CloseEnds,
    /// A take of up to this many items begins.
    TakeBegins(usize),
    /// The take ends.
    TakeEnds(Reply<T>),
}

/// An event of a history of calls, with its items.
///
/// For example, `Event::PutBegins(&[5, 6])` is `P put 5 6` in a recording. In use:
/// `uses::calls::first_at_fault`.
pub type Event<'a> = CallEvent<&'a [u64], &'a [u64]>;

impl<P, T> CallEvent<P, T> {
    /// The word of its line in a recording.
    ///
    /// For example, that of `CallEvent::CloseEnds` is `P closed`, as it is that of `CallEvent::PutEnds(Reply::Shut)`.
    pub fn word(&self) -> Word
        ensures { (offers : P → List ℕ) (took : T → List ℕ) (b : Begun) →
            result ≡ (line_of b (event_by offers took self.now)).word }
    {
        match self {
            CallEvent::PutBegins(_) => Word::Put,
            CallEvent::PutEnds(Reply::Passed(_)) => Word::Stored,
            CallEvent::PutEnds(Reply::PassedSome(_)) => Word::PutSome,
            CallEvent::PutEnds(Reply::Lacked) => Word::Full,
            CallEvent::PutEnds(Reply::Short) => Word::Short,
            CallEvent::PutEnds(Reply::Nothing) => Word::PutNothing,
            CallEvent::PutEnds(Reply::Shut) | CallEvent::CloseEnds => Word::PutClosed,
            CallEvent::CloseBegins => Word::Close,
            CallEvent::TakeBegins(_) => Word::Take,
            CallEvent::TakeEnds(Reply::Passed(_)) => Word::Item,
            CallEvent::TakeEnds(Reply::PassedSome(_)) => Word::TakeSome,
            CallEvent::TakeEnds(Reply::Lacked) => Word::Empty,
            CallEvent::TakeEnds(Reply::Short) => Word::TakeShort,
            CallEvent::TakeEnds(Reply::Nothing) => Word::TakeNothing,
            CallEvent::TakeEnds(Reply::Shut) => Word::TakeClosed,
        }
    }

    /// Whether it is of the producer.
    pub fn is_of_producer(&self) -> bool
        ensures { (offers : P → List ℕ) (took : T → List ℕ) → IsTrue result ↔
            (side_of (event_by offers took self.now) ≡ producer) }
    {
        !matches!(self, CallEvent::TakeBegins(_) | CallEvent::TakeEnds(_))
    }
}
