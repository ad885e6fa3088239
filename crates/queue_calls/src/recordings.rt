//! The text of recorded calls, read in pieces, and the finding.
ghost use Rattle.std.specs.Prelude.{◌≡◌, ◌≢◌, ◌+◌, ◌⊎◌, List, [], ◌∷◌, ℕ, ◌++◌, None, IfErr, IfOk, OnOk, MatchOption, IfSome, ◌↔◌, true};
ghost use Rattle.queue_calls.specs.Calls as calls;
ghost use Rattle.queue_calls.specs.Queue as queues;
ghost use Rattle.queue_calls.specs.Told.{told};
ghost use Rattle.queue_calls.specs.Recordings.{IsFaultOf, IsFindingOf, IsRecording, Line, RefusesText, lines_text};
ghost use Rattle.line_parts.specs.LineEnds.{HasNoFeed};
ghost use Rattle.queue_calls.specs.RecordingStates.{ContinuesLines, HasLines, HasRead, RefusesLine};
ghost use Rattle.call_lines.specs.Lines.{BeginsWithNumbers};
ghost use Rattle.queue_calls.specs.Rooms.{AreTooShort, HasLongHistory, rooms_in, rooms_of};
ghost use Rattle.call_causes.specs.declared.entries.TheConstants.{TAKEN_LIMIT};

use crate::faults::RecordingFault;
use crate::hearings::{Hearing, begun_after, event_told};
use crate::reports::CallsReport;
use crate::storage::{Lists, Owned, Storage};
use call_causes::{Cause, TAKEN_LIMIT};
use call_lines::{Word, may_begin, read_line};
use line_parts::split_line;
use lists::Store;
use std::alloc::Allocator;
use std::collections::VecDeque;

/// The finding on a recording.
///
/// In use: `uses::findings::line_at_fault`.
#[derive(Clone, Copy, PartialEq, Eq, Debug)]
pub enum CallsFinding {
    /// The history is linearizable.
    Lawful(CallsReport),
    /// The event of this line, counted from 1, is out of turn: a call begins while one of its side is under way; or one ends that
    /// is not under way, or with more items than it offered or asked for.
    OutOfTurn { line: u64 },
    /// With the event of this line the history stops being linearizable.
    NotLinearizable { line: u64, cause: Cause },
}

/// How many bytes of a line that has not ended are kept before the recording checks whether they may begin a line.
///
/// It checks again when the line has grown to twice the length found to begin one, plus this number.
///
/// In use: the tests of recordings in pieces.
pub const UNSEEN_LIMIT: usize = 65_536;

// The lines that have ended.
#[derive(Drop)]
struct Lines<S: Storage> {
    // the numbers of the last one
    numbers: S::Numbers,
    // how many there are
    count: u64,
    // whether the first one says that later calls are missing
    lacks_calls: bool,
    // what was heard of those after the first one, which states the queue's capacity
    hearing: Hearing<S>,
}

impl<S: Storage> Lines<S> {
    ghost use Rattle.queue_calls.specs.declared.faults.RecordingFault.TheVariants.{OutOfMemory};

    // Reads one more line, without its line feed.
    fn read(&mut self, line: &[u8]) -> Result<(), RecordingFault>
        ensures read { OnOk result ((before : List Line) → HasLines S.Offered.items S.Taken.items self.old before →
            (l : Line) × ContinuesLines before line.now l ×
            HasLines S.Offered.items S.Taken.items self.new (before ++ l ∷ [])) }
        ensures refused { IfErr result (λ e. (before : List Line) →
            HasLines S.Offered.items S.Taken.items self.old before → RefusesLine e before line.now) }
        ensures full { IfErr result (λ e. e ≡ OutOfMemory → (before : List Line) →
            HasLines S.Offered.items S.Taken.items self.old before
            → HasLongHistory TAKEN_LIMIT (S.Offered.room self.old.hearing.witness.auditor.inside.list)
            (S.Taken.room self.old.hearing.witness.taken) (lines_text before ++ (line.now ++ 10 ∷ [])) ⊎
            BeginsWithNumbers (S.Numbers.room self.old.numbers) line.now) }
        ensures rooms { (S.Offered.room self.new.hearing.witness.auditor.inside.list ≡ S.Offered.room
            self.old.hearing.witness.auditor.inside.list) ×
            (S.Taken.room self.new.hearing.witness.taken ≡ S.Taken.room self.old.hearing.witness.taken) ×
            (S.Numbers.room self.new.numbers ≡ S.Numbers.room self.old.numbers) }
    {
        let Some(count) = self.count.checked_add(1) else {
            return Err(RecordingFault::TooLong);
        };
        self.count = count;
        let Some(word) = read_line(line, &mut self.numbers)? else {
            return Err(RecordingFault::BadLine(count));
        };
        let numbers = self.numbers.as_slice();
        if count == 1 {
            if word != Word::Queue && word != Word::Cut {
                return Err(RecordingFault::BadLine(count));
            }
            self.lacks_calls = word == Word::Cut;
            self.hearing.begins(numbers);
            return Ok(());
        }
        let Some(event) = event_told(self.hearing.begun, word, numbers) else {
            return Err(RecordingFault::BadLine(count));
        };
        self.hearing.begun = begun_after(self.hearing.begun, word, numbers);
        self.hearing.hear(count, event)
    }
}

/// A recording of the calls of a queue, as far as it was read.
///
/// The text comes in pieces, cut anywhere, and is not kept: the memory is that of the items inside, of the longest line and of the
/// last [`TAKEN_LIMIT`](crate::TAKEN_LIMIT) items taken; in lists of an allocator, or supplied by the caller. Of a line that has not
/// ended, less than twice as many bytes as begin a line plus [`UNSEEN_LIMIT`](crate::UNSEEN_LIMIT) are kept. The pieces of a text
/// take time linear in its bytes.
///
/// In use: `uses::findings::found_in`.
#[derive(Drop)]
pub struct RecordingIn<S: Storage> {
    lines: Lines<S>,
    // the bytes of a line that has not ended
    cut: S::Bytes,
    // how many of these were found to begin a line
    begun: usize,
    // whether there was no room for a bad line, so that it cannot be shown
    is_lost: bool,
}

/// A recording in memory of an allocator.
///
/// In use: `uses::findings::found_in`.
pub type Recording<A> = RecordingIn<Owned<A>>;

impl<A: Allocator + Copy> RecordingIn<Owned<A>> {
    /// A recording of which nothing has been read.
    pub fn new(alloc: A) -> Recording<A>
        ensures { HasRead (λ q. q.items) (λ q. q.items) (λ v. v.items) result [] }
    {
        RecordingIn::within(Lists {
            offered: VecDeque::new(alloc),
            taken: VecDeque::new(alloc),
            numbers: Vec::new(alloc),
            bytes: Vec::new(alloc),
        })
    }
}

impl<S: Storage> RecordingIn<S> {
    ghost use Rattle.queue_calls.specs.declared.faults.RecordingFault.TheVariants.{OutOfMemory};

    /// A recording of which nothing has been read, with these lists to read it in. Their contents are removed.
    pub fn within(lists: Lists<S>) -> RecordingIn<S>
        ensures read { HasRead S.Offered.items S.Taken.items S.Bytes.items result [] }
        ensures rooms { rooms_in S.Offered.room S.Taken.room S.Numbers.room S.Bytes.room result ≡ rooms_of
            S.Offered.room S.Taken.room S.Numbers.room S.Bytes.room lists.offered lists.taken lists.numbers
            lists.bytes }
    {
        let Lists {
            offered,
            taken,
            numbers,
            bytes,
        } = lists;
        let mut cut = bytes;
        cut.clear();
        RecordingIn {
            lines: Lines {
                numbers,
                count: 0,
                lacks_calls: false,
                hearing: Hearing::new(offered, taken, TAKEN_LIMIT),
            },
            cut,
            begun: 0,
            is_lost: false,
        }
    }

    /// Reads the next piece of the text.
    ///
    /// `BadLine` at the first line that is not in the format, whatever comes after it, even if the history has a fault
    /// before it: at its end, or before its end if it outgrew what is kept of a line that has not ended; `TooLong`
    /// after 2^64 - 1 lines; `OutOfMemory` if a growth was refused, or a list in slots is too short: for the items that
    /// are inside or offered, for the last [`TAKEN_LIMIT`](crate::TAKEN_LIMIT) taken, for the numbers of a line, or for
    /// its bytes. A recording that has returned one of these is of no further use.
    pub fn read(&mut self, piece: &[u8]) -> Result<(), RecordingFault>
        ensures read { OnOk result ((bytes : List ℕ) →
            HasRead S.Offered.items S.Taken.items S.Bytes.items self.old bytes →
            HasRead S.Offered.items S.Taken.items S.Bytes.items self.new (bytes ++ piece.now)) }
        ensures refused { IfErr result (λ e. (bytes more : List ℕ) →
            HasRead S.Offered.items S.Taken.items S.Bytes.items self.old bytes →
            RefusesText e (bytes ++ (piece.now ++ more))) }
        ensures full { IfErr result (λ e. e ≡ OutOfMemory → (bytes : List ℕ) →
            HasRead S.Offered.items S.Taken.items S.Bytes.items self.old bytes →
            AreTooShort (rooms_in S.Offered.room S.Taken.room S.Numbers.room S.Bytes.room self.old)
            (bytes ++ piece.now)) }
        ensures rooms { rooms_in S.Offered.room S.Taken.room S.Numbers.room S.Bytes.room self.new ≡ rooms_in
            S.Offered.room S.Taken.room S.Numbers.room S.Bytes.room self.old }
    {
        let mut rest = piece;
        while let Some((end, more)) = split_line(rest) {
            self.read_end(end)?;
            rest = more;
        }
        self.keep(rest)
    }

    // Keeps the bytes of a line that has not ended. If it has grown to twice what was found to begin a line, plus UNSEEN_LIMIT,
    // checks whether all of it begins one.
    fn keep(&mut self, bytes: &[u8]) -> Result<(), RecordingFault>
        requires { HasNoFeed bytes.now }
        ensures read { OnOk result ((text : List ℕ) →
            HasRead S.Offered.items S.Taken.items S.Bytes.items self.old text →
            HasRead S.Offered.items S.Taken.items S.Bytes.items self.new (text ++ bytes.now)) }
        ensures refused { IfErr result (λ e. (text more : List ℕ) →
            HasRead S.Offered.items S.Taken.items S.Bytes.items self.old text →
            RefusesText e (text ++ (bytes.now ++ more))) }
        ensures full { IfErr result (λ e. e ≡ OutOfMemory → (text : List ℕ) →
            HasRead S.Offered.items S.Taken.items S.Bytes.items self.old text →
            AreTooShort (rooms_in S.Offered.room S.Taken.room S.Numbers.room S.Bytes.room self.old)
            (text ++ bytes.now)) }
        ensures rooms { (S.Offered.room self.new.lines.hearing.witness.auditor.inside.list ≡ S.Offered.room
            self.old.lines.hearing.witness.auditor.inside.list) ×
            (S.Taken.room self.new.lines.hearing.witness.taken ≡ S.Taken.room self.old.lines.hearing.witness.taken) ×
            (S.Numbers.room self.new.lines.numbers ≡ S.Numbers.room self.old.lines.numbers) ×
            (S.Bytes.room self.new.cut ≡ S.Bytes.room self.old.cut) }
    {
        self.cut.extend_from_slice(bytes)?;
        let length = self.cut.as_slice().len();
        if length.saturating_sub(self.begun) < self.begun.saturating_add(UNSEEN_LIMIT) {
            return Ok(());
        }
        if may_begin(self.cut.as_slice(), self.lines.count == 0) {
            self.begun = length;
            return Ok(());
        }
        match self.lines.count.checked_add(1) {
            Some(number) => Err(RecordingFault::BadLine(number)),
            None => Err(RecordingFault::TooLong),
        }
    }

    // Reads the end of a line, without its line feed.
    fn read_end(&mut self, end: &[u8]) -> Result<(), RecordingFault>
        requires { HasNoFeed end.now }
        ensures read { OnOk result ((bytes : List ℕ) →
            HasRead S.Offered.items S.Taken.items S.Bytes.items self.old bytes →
            HasRead S.Offered.items S.Taken.items S.Bytes.items self.new (bytes ++ end.now ++ 10 ∷ [])) }
        ensures refused { IfErr result (λ e. (bytes more : List ℕ) →
            HasRead S.Offered.items S.Taken.items S.Bytes.items self.old bytes →
            RefusesText e (bytes ++ (end.now ++ 10 ∷ more))) }
        ensures full { IfErr result (λ e. e ≡ OutOfMemory → (bytes : List ℕ) →
            HasRead S.Offered.items S.Taken.items S.Bytes.items self.old bytes →
            AreTooShort (rooms_in S.Offered.room S.Taken.room S.Numbers.room S.Bytes.room self.old)
            (bytes ++ (end.now ++ 10 ∷ []))) }
        ensures rooms { (S.Offered.room self.new.lines.hearing.witness.auditor.inside.list ≡ S.Offered.room
            self.old.lines.hearing.witness.auditor.inside.list) ×
            (S.Taken.room self.new.lines.hearing.witness.taken ≡ S.Taken.room self.old.lines.hearing.witness.taken) ×
            (S.Numbers.room self.new.lines.numbers ≡ S.Numbers.room self.old.lines.numbers) ×
            (S.Bytes.room self.new.cut ≡ S.Bytes.room self.old.cut) }
    {
        if self.cut.is_empty() {
            return match self.lines.read(end) {
                Ok(()) => Ok(()),
                Err(fault) => {
                    // (kept to be shown, if there is room)
                    self.is_lost = self.cut.extend_from_slice(end).is_err();
                    Err(fault)
                }
            };
        }
        self.cut.extend_from_slice(end)?;
        self.lines.read(self.cut.as_slice())?;
        self.cut.clear();
        self.begun = 0;
        Ok(())
    }

    /// The bytes of the line that has not ended; after a `BadLine` those of the bad line, or `None` if there was no room for them.
    pub fn line(&self) -> Option<&[u8]>
        ensures kept { IfSome result (λ line. line.now ≡ S.Bytes.items self.now.cut) }
        ensures lost { (result ≡ None) ↔ (self.now.is_lost ≡ true) }
    {
        if self.is_lost {
            return None;
        }
        Some(self.cut.as_slice())
    }

    /// Whether its first line says that the calls after the last line are missing, because a log was full. Meaningful for a text that
    /// has a first line.
    pub fn is_cut(&self) -> bool
        ensures { (bytes : List ℕ) → HasRead S.Offered.items S.Taken.items S.Bytes.items self.now bytes →
            (capacity : queues.Capacity) (events : List calls.Event) (is : IsRecording bytes capacity events) →
            result ≡ is.is_cut }
    {
        self.lines.lacks_calls
    }

    /// The first fault of the lines that have ended, if there is one.
    pub fn fault(&self) -> Option<CallsFinding>
        ensures { (bytes : List ℕ) → HasRead S.Offered.items S.Taken.items S.Bytes.items self.now bytes →
            (ended : List ℕ) × (rest : List ℕ) × (bytes ≡ ended ++ rest) × HasNoFeed rest × IsFaultOf ended result }
    {
        self.lines.hearing.fault
    }

    /// The finding if the text ends here: `BadLine` if its last line has not ended, or there is none. No memory is taken.
    pub fn finding(&self) -> Result<CallsFinding, RecordingFault>
        ensures found { IfOk result (λ finding. (bytes : List ℕ) →
            HasRead S.Offered.items S.Taken.items S.Bytes.items self.now bytes → IsFindingOf bytes finding) }
        ensures refused { IfErr result (λ e. (bytes : List ℕ) →
            HasRead S.Offered.items S.Taken.items S.Bytes.items self.now bytes → RefusesText e bytes) }
        ensures takes_no_memory { IfErr result (λ e. e ≢ OutOfMemory) }
    {
        if self.lines.count > 0 && self.cut.is_empty() {
            return Ok(self.lines.hearing.finding());
        }
        match self.lines.count.checked_add(1) {
            Some(line) => Err(RecordingFault::BadLine(line)),
            None => Err(RecordingFault::TooLong),
        }
    }
}
