//! The consumer's events, read as its takes.
ghost use Rattle.std.specs.Prelude.{◌≡◌, ◌≢◌, ◌≤◌, ◌++◌, ◌∷◌, [], ℕ, List, None, Some, Bool, true, false};
ghost use Rattle.bits_core.specs.declared.events.Bit.TheVariants.{R};
ghost use Rattle.bits_core.specs.declared.events.Side.TheVariants.{C};
ghost use Rattle.bits_core.specs.Made.{answered, end_event, opening_event};
ghost use Rattle.ring_core.specs.ConsumerState.{IsBetweenWords, due_take};
ghost use Rattle.bits_core.specs.Shape.{take_batch_of};
ghost use Rattle.ring_core.specs.GoingOn.{WritesTakeCount};
ghost use Rattle.ring_audit.specs.Sides.{AreOfTakes};
ghost use Rattle.ring_audit.specs.Dues.{AreInOrder, IsNoneOf};
ghost use Rattle.ring_audit.specs.TakeReading.{TakesStand, HasReadTake, WereTaken, step_by, tells_closed};

use crate::choices::{Dues, ends, only, opening};
use crate::sides::{answer_to, begun_by, is_same};
use bits_core::{Access, Event, Shape, Side};
use ring_core::{Consumer, TakeReply};
use std::marker::Model;

/// The meaning of an event of the consumer.
#[derive(Clone, Copy)]
pub(crate) enum TakeStep {
    /// It is not the next event of any takes.
    Stops,
    /// It is, and ends no take of items.
    GoesOn,
    /// It ends a take of the items that [`TakeReader::items`] returns.
    Takes,
}

/// Reads the events of a consumer as its takes: it drives a consumer through the same takes, whose number of items it
/// derives from their count write. It takes no memory.
#[derive(Drop)]
pub(crate) struct TakeReader {
    consumer: Consumer,
    most: u64,
    open_access: Option<Access>,
}

impl Model for TakeReader {
    ghost use Rattle.std.specs.Prelude.{◌≡◌, ◌≤◌};
    ghost use Rattle.bits_core.specs.Shape.{take_batch_of};
    ghost use Rattle.ring_audit.specs.TakeReading.{TakeReading, IsTakeReading};

    ghost Value = { TakeReading };

    ghost view = { λ r. record { consumer = r.consumer; open_access = r.open_access } };

    ghost invariant = { λ r. IsTakeReading (record { consumer = r.consumer; open_access = r.open_access }) ×
        (r.most ≡ take_batch_of r.consumer.shape) × (1 ≤ r.most) };
}

impl TakeReader {
    /// A reader that has read no event.
    pub fn new(shape: &Shape) -> Self
        ensures shape { result.consumer.shape ≡ shape.now }
        ensures stands { TakesStand shape.now result [] [] }
    {
        TakeReader {
            consumer: Consumer::new(*shape),
            most: shape.take_batch(),
            open_access: None,
        }
    }

    /// A copy of this reader.
    pub fn again(&self) -> Self
        ensures { result ≡ self.now }
    {
        TakeReader {
            consumer: self.consumer.clone().unwrap(),
            ..*self
        }
    }

    /// Reads the consumer's next event. Once it has stopped, nothing is guaranteed.
    pub fn read(&mut self, event: Event) -> TakeStep
        requires { event.side ≡ C }
        ensures shape { self.new.consumer.shape ≡ self.old.consumer.shape }
        ensures read { HasReadTake self.old.consumer.shape self.old self.new event result }
    {
        match begun_by(event) {
            Some(access) => {
                if self.begin(access) {
                    TakeStep::GoesOn
                } else {
                    TakeStep::Stops
                }
            }
            None => match self.open_access {
                Some(access) => match answer_to(access, event) {
                    Some(answer) => self.finish(access, answer),
                    None => TakeStep::Stops,
                },
                None => TakeStep::Stops,
            },
        }
    }

    // An access begins: whether it is one that may begin.
    fn begin(&mut self, access: Access) -> bool
        ensures shape { self.new.consumer.shape ≡ self.old.consumer.shape }
        ensures goes_on { result ≡ true → (es : List Event) (items : List ℕ) →
            TakesStand self.old.consumer.shape self.old es items →
            TakesStand self.old.consumer.shape self.new (es ++ opening_event C access ∷ []) items }
        ensures stops { result ≡ false → (es : List Event) (items : List ℕ) →
            TakesStand self.old.consumer.shape self.old es items →
            ¬ AreOfTakes self.old.consumer.shape (es ++ opening_event C access ∷ []) }
    {
        match self.open_access {
            Some(_) => false,
            None => {
                if is_same(self.due(), access) {
                    self.open_access = Some(access);
                    true
                } else if self.consumer.is_between_words() {
                    if is_same(self.count(), access) {
                        self.open_access = Some(access);
                        true
                    } else {
                        false
                    }
                } else {
                    false
                }
            }
        }
    }

    // The access that is due, once a take has been started if none was under way, of as many items as may be taken. Another
    // access may begin only after a complete word: the first write of the count.
    fn due(&mut self) -> Option<Access>
        requires { self.old.open_access ≡ None }
        ensures shape { self.new.consumer.shape ≡ self.old.consumer.shape }
        ensures due { result ≡ due_take self.new.consumer }
        ensures open_access { self.new.open_access ≡ None }
        ensures stands { (es : List Event) (items : List ℕ) → TakesStand self.old.consumer.shape self.old es items →
            TakesStand self.old.consumer.shape self.new es items }
        ensures only { (es : List Event) (items : List ℕ) (access : Access) →
            TakesStand self.old.consumer.shape self.old es items → result ≢ Some access →
            AreOfTakes self.old.consumer.shape (es ++ opening_event C access ∷ [])
            → IsBetweenWords self.new.consumer × WritesTakeCount access }
    {
        match self.consumer.next() {
            Some(access) => Some(access),
            None => {
                self.consumer.take_all(self.most);
                self.consumer.next()
            }
        }
    }

    // After a whole word: the first write of the count, if the take under way takes no more. No other of these
    // writes may begin.
    fn count(&mut self) -> Option<Access>
        requires none { self.old.open_access ≡ None }
        requires between { IsBetweenWords self.old.consumer }
        ensures shape { self.new.consumer.shape ≡ self.old.consumer.shape }
        ensures due { result ≡ due_take self.new.consumer }
        ensures open_access { self.new.open_access ≡ None }
        ensures write { (i : ℕ) × (v : Bool) × (result ≡ Some (Access.Write (R i) v)) }
        ensures stands { (es : List Event) (items : List ℕ) (access : Access) →
            TakesStand self.old.consumer.shape self.old es items → result ≡ Some access
            → TakesStand self.old.consumer.shape (record self.new { open_access = Some access })
            (es ++ opening_event C access ∷ []) items }
        ensures only { (es : List Event) (items : List ℕ) (access : Access) →
            TakesStand self.old.consumer.shape self.old es items → result ≢ Some access → WritesTakeCount access
            → ¬ AreOfTakes self.old.consumer.shape (es ++ opening_event C access ∷ []) }
    {
        self.consumer.count_now();
        self.consumer.next()
    }

    // The open access ends with this answer.
    fn finish(&mut self, access: Access, answer: bool) -> TakeStep
        requires { self.old.open_access ≡ Some access }
        ensures shape { self.new.consumer.shape ≡ self.old.consumer.shape }
        ensures read { HasReadTake self.old.consumer.shape self.old self.new (end_event C (answered access answer))
            result }
    {
        if self.consumer.expects_one() && !answer {
            return TakeStep::Stops;
        }
        self.open_access = None;
        self.consumer.feed(answer);
        step_of(self.consumer.reply())
    }

    /// The items that the last take took, in order, or during a take those that it has read so far.
    pub fn items(&self) -> &[u64]
        ensures { result.now ≡ self.now.consumer.items }
    {
        self.consumer.items()
    }

    /// The events, one of which has to be the next of any takes. Nothing else is guaranteed of the reader then.
    pub fn candidates(&mut self) -> Dues
        ensures only { (es : List Event) (items : List ℕ) (e : Event) →
            TakesStand self.old.consumer.shape self.old es items → e.side ≡ C → IsNoneOf result e →
            ¬ AreOfTakes self.old.consumer.shape (es ++ e ∷ []) }
        ensures order { AreInOrder result }
    {
        match self.open_access {
            Some(access) => ends(Side::C, access),
            None => self.openings(),
        }
    }

    // While no access is open: the starts, one of which has to be the next.
    fn openings(&mut self) -> Dues
        requires { self.old.open_access ≡ None }
        ensures only { (es : List Event) (items : List ℕ) (access : Access) →
            TakesStand self.old.consumer.shape self.old es items → IsNoneOf result (opening_event C access) →
            ¬ AreOfTakes self.old.consumer.shape (es ++ opening_event C access ∷ []) }
        ensures order { AreInOrder result }
    {
        let word = opening(Side::C, self.due());
        if self.consumer.is_between_words() {
            Dues {
                first: word,
                second: opening(Side::C, self.count()),
                third: None,
            }
        } else {
            only(word)
        }
    }

    /// Whether a take returned Closed, and what was read so far.
    pub fn told(&self) -> bool
        ensures { (es : List Event) (items : List ℕ) → TakesStand self.now.consumer.shape self.now es items →
            WereTaken self.now.consumer.shape es items result }
    {
        // only for the proof: gives the contract of `next` for the consumer
        let _due = self.consumer.next();
        was_told(self.consumer.reply())
    }
}

// The meaning of an access that ended, by the reply.
fn step_of(reply: Option<TakeReply>) -> TakeStep
    ensures { result ≡ step_by reply }
{
    match reply {
        Some(TakeReply::Item(_)) => TakeStep::Takes,
        _ => TakeStep::GoesOn,
    }
}

// Whether the reply is Closed.
fn was_told(reply: Option<TakeReply>) -> bool
    ensures { result ≡ tells_closed reply }
{
    match reply {
        Some(TakeReply::Closed) => true,
        _ => false,
    }
}
