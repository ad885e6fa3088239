//! A history of calls that comes event by event or line by line, and what is found so far.
ghost use Rattle.std.specs.Prelude.{◌≡◌, ℕ, ◌+◌, ◌∷◌, ◌++◌, [], List, IfErr, IfOk, IfSome, None, OnErr, OnOk, length, option_map};
ghost use Rattle.queue_calls.specs.Calls as calls;
ghost use Rattle.queue_calls.specs.Hearings.{HasHeardAll, HearsLine, HearsNext, IsNotLawful, hearing_of};
ghost use Rattle.call_lines.specs.Lines.{AllowsQueue};
ghost use Rattle.queue_calls.specs.Noting.{OutgrowsLists};
ghost use Rattle.queue_calls.specs.Queue as queues;
ghost use Rattle.queue_calls.specs.Recordings.{IsFoundWithin, begun_after, capacity_told, event_told, some_told, stored_told, wanted_told};
ghost use Rattle.queue_calls.specs.RecordingStates.{HasHeard};
ghost use Rattle.queue_calls.specs.Told.{meant, told};

use crate::auditors::{AuditorState, CallAuditor};
use crate::capacities::{Capacity, exactly};
use crate::events::{Event, Reply};
use crate::faults::{Fault, RecordingFault};
use crate::insides::Lined;
use crate::recordings::CallsFinding;
use crate::reports::{CallsReport, Tally};
use crate::storage::Storage;
use crate::witnesses::Witness;
use call_causes::Taken;
use call_lines::{Word, allows};

/// What the producer began last: it distinguishes the two ends `P closed`, and gives the number of items of `P stored`.
///
/// For example, after `P put 5 6` it is `Begun::Put(2)`, and still so after `P stored`.
#[derive(Clone, Copy, PartialEq, Eq, Debug)]
pub enum Begun {
    /// Nothing so far.
    Nothing,
    /// A put of this many items.
    Put(usize),
    /// A close.
    Close,
}

/// A history of calls, with what is found about it so far: a recording that comes line by line, not as one text.
///
/// It keeps the items inside, and as many of the items taken last as requested at its start, in lists of an allocator or supplied by the
/// caller.
///
/// In use: `uses::hearings::of_queue`.
#[derive(Drop)]
pub struct Hearing<S: Storage> {
    pub(crate) witness: Witness<S>,
    pub(crate) tally: Tally,
    pub(crate) begun: Begun,
    // the first fault
    pub(crate) fault: Option<CallsFinding>,
}

/// What is kept of a hearing that has found no fault, besides its lists.
///
/// For example, after `queue 8` and `P put 5` the last put began at line 2, and `auditor` has it under way.
#[derive(Clone, Copy, PartialEq, Eq, Debug)]
pub struct HearingState {
    /// What its auditor keeps.
    pub auditor: AuditorState,
    /// How many of the items taken last are kept.
    pub limit: usize,
    /// The item taken last, with the line that ended its take; if none was taken, item 0 of line 0.
    pub last_taken: Taken,
    /// The line that ended the first close.
    pub ended_at: Option<u64>,
    /// The line of the first take that returned Closed.
    pub told_at: Option<u64>,
    /// The line that began the last put.
    pub put_at: u64,
    /// The line that ended the last put that stored items.
    pub stored_at: u64,
    /// The report so far, except for the calls under way.
    pub report: CallsReport,
    /// Whether the last call of the producer has overlapped one of the consumer.
    pub put_overlaps: bool,
    /// Whether the last call of the consumer has overlapped one of the producer.
    pub take_overlaps: bool,
    /// What the producer began last.
    pub begun: Begun,
}

// The capacity that the first line states.
fn capacity_told(numbers: &[u64]) -> Capacity
    ensures { meant result ≡ capacity_told numbers.now }
{
    match numbers {
        [] => Capacity::Unbounded,
        [full] => exactly(*full as usize),
        [full, most, ..] => Capacity::Between {
            full: *full as usize,
            most: *most as usize,
        },
    }
}

/// The event of a line after the first, if the producer began this last.
///
/// For example, `P closed` is the end of a put, or after `P close` that of the close.
pub fn event_told(begun: Begun, word: Word, numbers: &[u64]) -> Option<Event<'_>>
    ensures { option_map told result ≡ event_told begun word numbers.now }
{
    Some(match word {
        Word::Queue | Word::Cut => return None,
        Word::Put => Event::PutBegins(numbers),
        Word::Stored => Event::PutEnds(Reply::Passed(stored_told(begun, numbers))),
        Word::PutSome => Event::PutEnds(Reply::PassedSome(some_told(numbers))),
        Word::Full => Event::PutEnds(Reply::Lacked),
        Word::Short => Event::PutEnds(Reply::Short),
        Word::PutNothing => Event::PutEnds(Reply::Nothing),
        Word::PutClosed => match begun {
            Begun::Close => Event::CloseEnds,
            Begun::Nothing | Begun::Put(_) => Event::PutEnds(Reply::Shut),
        },
        Word::Close => Event::CloseBegins,
        Word::Take => Event::TakeBegins(wanted_told(numbers)),
        Word::Item => Event::TakeEnds(Reply::Passed(numbers)),
        Word::TakeSome => Event::TakeEnds(Reply::PassedSome(numbers)),
        Word::Empty => Event::TakeEnds(Reply::Lacked),
        Word::TakeShort => Event::TakeEnds(Reply::Short),
        Word::TakeNothing => Event::TakeEnds(Reply::Nothing),
        Word::TakeClosed => Event::TakeEnds(Reply::Shut),
    })
}

// How many items were stored: all that the put offered, or fewer; a number that is not less than those offered is out of turn, as 0 is.
fn stored_told(begun: Begun, numbers: &[u64]) -> usize
    ensures { result ≡ stored_told begun numbers.now }
{
    let offered = match begun {
        Begun::Put(offered) => offered,
        Begun::Nothing | Begun::Close => 0,
    };
    match numbers.first() {
        None => offered,
        Some(number) if (*number as usize) < offered => *number as usize,
        Some(_) => 0,
    }
}

// How many items a put stored that does not say whether these are all.
fn some_told(numbers: &[u64]) -> usize
    ensures { result ≡ some_told numbers.now }
{
    match numbers.first() {
        None => 0,
        Some(number) => *number as usize,
    }
}

// How many items a take asks for: 1 if the line has no number.
fn wanted_told(numbers: &[u64]) -> usize
    ensures { result ≡ wanted_told numbers.now }
{
    match numbers.first() {
        None => 1,
        Some(number) => *number as usize,
    }
}

/// What the producer began last, after this line.
///
/// For example, `Begun::Close` after `P close`.
pub fn begun_after(begun: Begun, word: Word, numbers: &[u64]) -> Begun
    ensures { result ≡ begun_after begun word numbers.now }
{
    match word {
        Word::Put => Begun::Put(numbers.len()),
        Word::Close => Begun::Close,
        _ => begun,
    }
}

impl<S: Storage> Hearing<S> {
    ghost use Rattle.queue_calls.specs.declared.hearings.Begun.TheVariants.{Nothing};
    ghost use Rattle.queue_calls.specs.declared.recordings.CallsFinding.TheVariants.{Lawful};
    ghost use Rattle.queue_calls.specs.declared.faults.RecordingFault.TheVariants.{OutOfMemory};

    /// Nothing has been heard, and the queue's capacity is not known yet. The contents of the lists are removed.
    ///
    /// The last `limit` items taken are kept, and searched for one that comes again: if it is not among them, and was not taken
    /// earlier in the same line, it is reported as one that was not inside. With 0 none is kept, and `taken` needs no room.
    pub fn new(offered: S::Offered, taken: S::Taken, limit: usize) -> Hearing<S>
        ensures no_fault { result.fault ≡ None }
        ensures limit { result.witness.limit ≡ limit }
        ensures rooms { (S.Offered.room result.witness.auditor.inside.list ≡ S.Offered.room offered) ×
            (S.Taken.room result.witness.taken ≡ S.Taken.room taken) }
    {
        Hearing {
            witness: Witness::new(offered, taken, limit),
            tally: Tally::new(),
            begun: Begun::Nothing,
            fault: None,
        }
    }

    /// Forgets all, and starts a queue of the capacity in these numbers of a first line.
    pub fn begins(&mut self, numbers: &[u64])
        requires { AllowsQueue numbers.now }
        ensures heard { HasHeard S.Offered.items S.Taken.items self.new (capacity_told numbers.now) [] }
        ensures no_fault { self.new.fault ≡ None }
        ensures begun { self.new.begun ≡ Nothing }
        ensures limit { self.new.witness.limit ≡ self.old.witness.limit }
        ensures rooms { (S.Offered.room self.new.witness.auditor.inside.list ≡ S.Offered.room
            self.old.witness.auditor.inside.list) ×
            (S.Taken.room self.new.witness.taken ≡ S.Taken.room self.old.witness.taken) }
    {
        self.witness.restart(capacity_told(numbers));
        self.tally = Tally::new();
        self.begun = Begun::Nothing;
        self.fault = None;
    }

    // Hears the event of a line; after a fault it is ignored.
    pub(crate) fn hear(&mut self, line: u64, event: Event<'_>) -> Result<(), RecordingFault>
        ensures heard { OnOk result ((capacity : queues.Capacity) (events : List calls.Event) →
            HasHeard S.Offered.items S.Taken.items self.old capacity events → length events + 2 ≡ line
            → HasHeard S.Offered.items S.Taken.items self.new capacity (events ++ told event.entry ∷ [])) }
        ensures refused { IfErr result (λ e. e ≡ OutOfMemory) }
        ensures begun { self.new.begun ≡ self.old.begun }
        ensures limit { self.new.witness.limit ≡ self.old.witness.limit }
        ensures full { IfErr result (λ e. (capacity : queues.Capacity) (events : List calls.Event) →
            HasHeard S.Offered.items S.Taken.items self.old capacity events
            → OutgrowsLists self.old.witness.limit (S.Offered.room self.old.witness.auditor.inside.list)
            (S.Taken.room self.old.witness.taken) capacity (events ++ told event.entry ∷ [])) }
        ensures rooms { (S.Offered.room self.new.witness.auditor.inside.list ≡ S.Offered.room
            self.old.witness.auditor.inside.list) ×
            (S.Taken.room self.new.witness.taken ≡ S.Taken.room self.old.witness.taken) }
    {
        if self.fault.is_some() {
            return Ok(());
        }
        self.next(line, event)
    }

    // Hears the event of a line, if there is no fault yet: it is heard, or it is the first at fault, which is kept, and all else is
    // unchanged.
    #[inline(always)]
    fn next(&mut self, line: u64, event: Event<'_>) -> Result<(), RecordingFault>
        ensures heard { OnOk result (self.old.fault ≡ None →
            HearsNext S.Offered.items S.Taken.items self.old line (told event.entry) self.new.fault self.new) }
        ensures refused { IfErr result (λ e. e ≡ OutOfMemory) }
        ensures full { IfErr result (λ e. (capacity : queues.Capacity) (events : List calls.Event) →
            HasHeardAll S.Offered.items S.Taken.items self.old capacity events
            → OutgrowsLists self.old.witness.limit (S.Offered.room self.old.witness.auditor.inside.list)
            (S.Taken.room self.old.witness.taken) capacity (events ++ told event.entry ∷ [])) }
        ensures at_fault { self.old.fault ≡ None → IfSome self.new.fault IsNotLawful }
        ensures fault_kept { OnErr result (self.new.fault ≡ self.old.fault) }
        ensures begun { self.new.begun ≡ self.old.begun }
        ensures limit { self.new.witness.limit ≡ self.old.witness.limit }
        ensures rooms { (S.Offered.room self.new.witness.auditor.inside.list ≡ S.Offered.room
            self.old.witness.auditor.inside.list) ×
            (S.Taken.room self.new.witness.taken ≡ S.Taken.room self.old.witness.taken) }
    {
        let offered = self.witness.auditor.offered();
        match self.witness.hear(line, event) {
            Ok(()) => {
                self.tally.count(event, offered, &self.witness.auditor);
                Ok(())
            }
            Err(Fault::OutOfTurn) => {
                self.fault = Some(CallsFinding::OutOfTurn { line });
                Ok(())
            }
            Err(Fault::NotLinearizable) => {
                let cause = self.witness.cause(line, event);
                self.fault = Some(CallsFinding::NotLinearizable { line, cause });
                Ok(())
            }
            Err(Fault::OutOfMemory) => Err(RecordingFault::OutOfMemory),
        }
    }

    /// Hears the next line, number `line`, after those of a recording in which no fault was found. Returns the fault
    /// that the recording has with this line; the line is then not kept.
    ///
    /// `BadLine` if a line with this word and these numbers cannot come there; it is not kept either. `OutOfMemory` if room was
    /// refused for the items inside or for those taken last; then the hearing is of no further use.
    pub fn hear_line(
        &mut self,
        line: u64,
        word: Word,
        numbers: &[u64],
    ) -> Result<Option<CallsFinding>, RecordingFault>
        ensures heard { HearsLine S.Offered.items S.Taken.items (S.Offered.room self.old.witness.auditor.inside.list)
            (S.Taken.room self.old.witness.taken) self.old line word numbers.now result self.new }
        ensures at_fault { self.old.fault ≡ None → (self.new.fault ≡ None) ×
            IfOk result (λ found. IfSome found IsNotLawful) }
        ensures limit { self.new.witness.limit ≡ self.old.witness.limit }
        ensures rooms { (S.Offered.room self.new.witness.auditor.inside.list ≡ S.Offered.room
            self.old.witness.auditor.inside.list) ×
            (S.Taken.room self.new.witness.taken ≡ S.Taken.room self.old.witness.taken) }
    {
        if !allows(word, numbers) {
            return Err(RecordingFault::BadLine(line));
        }
        let Some(event) = event_told(self.begun, word, numbers) else {
            return Err(RecordingFault::BadLine(line));
        };
        match self.next(line, event) {
            Ok(()) => {}
            Err(fault) => return Err(fault),
        }
        match self.fault {
            None => {
                self.begun = begun_after(self.begun, word, numbers);
                Ok(None)
            }
            Some(fault) => {
                self.fault = None;
                Ok(Some(fault))
            }
        }
    }

    /// A hearing that continues from what another kept, and from the contents of its lists then.
    pub fn resume(state: HearingState, offered: S::Offered, taken: S::Taken) -> Hearing<S>
        ensures { result ≡ hearing_of state offered taken }
    {
        Hearing {
            witness: Witness {
                auditor: CallAuditor::resume(state.auditor, Lined { list: offered }),
                taken,
                limit: state.limit,
                last_taken: state.last_taken,
                ended_at: state.ended_at,
                told_at: state.told_at,
                put_at: state.put_at,
                stored_at: state.stored_at,
            },
            tally: Tally {
                report: state.report,
                put_overlaps: state.put_overlaps,
                take_overlaps: state.take_overlaps,
            },
            begun: state.begun,
            fault: None,
        }
    }

    /// What is kept of it besides its lists, and these. A fault that it has found is not kept.
    pub fn keep(self) -> (HearingState, S::Offered, S::Taken)
        ensures kept { self.fault ≡ None → self ≡ hearing_of result.0 result.1 result.2 }
        ensures lists { (result.1 ≡ self.witness.auditor.inside.list) × (result.2 ≡ self.witness.taken) }
    {
        let witness = self.witness;
        let (auditor, inside) = witness.auditor.keep();
        let state = HearingState {
            auditor,
            limit: witness.limit,
            last_taken: witness.last_taken,
            ended_at: witness.ended_at,
            told_at: witness.told_at,
            put_at: witness.put_at,
            stored_at: witness.stored_at,
            report: self.tally.report,
            put_overlaps: self.tally.put_overlaps,
            take_overlaps: self.tally.take_overlaps,
            begun: self.begun,
        };
        (state, inside.list, witness.taken)
    }

    /// The finding on what was heard.
    pub fn finding(&self) -> CallsFinding
        ensures { (capacity : queues.Capacity) (events : List calls.Event) →
            HasHeard S.Offered.items S.Taken.items self.now capacity events →
            IsFoundWithin self.now.witness.limit capacity events result }
    {
        match self.fault {
            Some(fault) => fault,
            None => CallsFinding::Lawful(self.report()),
        }
    }

    /// The report on what was heard, if no fault was found.
    pub fn report(&self) -> CallsReport
        ensures { (capacity : queues.Capacity) (events : List calls.Event) →
            HasHeardAll S.Offered.items S.Taken.items self.now capacity events →
            IsFoundWithin self.now.witness.limit capacity events (Lawful result) }
    {
        self.tally.report(&self.witness.auditor)
    }
}
