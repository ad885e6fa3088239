//! The producer's events, read as its puts.
ghost use Rattle.std.specs.Prelude.{◌≡◌, ◌≢◌, ◌≤◌, ◌<◌, ◌↔◌, ◌⊎◌, ◌++◌, ◌∷◌, [], ℕ, List, None, Some, Bool, true, false, IsTrue};
ghost use Rattle.bits_core.specs.declared.events.Side.TheVariants.{P};
ghost use Rattle.bits_core.specs.declared.events.Bit.TheVariants.{Cell};
ghost use Rattle.bits_core.specs.Made.{answered, end_event, opening_event};
ghost use Rattle.bits_core.specs.Shape.{modulus_of, batch_of};
ghost use Rattle.ring_core.specs.Counts.{LeavesRoom, LeavesRoomFor};
ghost use Rattle.ring_audit.specs.Sides.{AreOfPuts};
ghost use Rattle.ring_audit.specs.Dues.{AreInOrder, IsNoneOf};
ghost use Rattle.ring_audit.specs.PutReading.{IsAtStage, PutsStand, HasReadPut, WerePut};

use crate::choices::{Dues, ends, only, opening, writes};
use crate::sides::{answer_to, begun_by, is_same, told_by, writes_next};
use bits_core::{Access, Bit, Event, Shape, Side};
use register_core::{UnaryScan, UnaryWriter, WordReader};
use ring_core::{distance, has_room};
use std::marker::Model;

/// The meaning of an event of the producer.
#[derive(Clone, Copy)]
pub(crate) enum PutStep {
    /// It is not the next event of any puts.
    Stops,
    /// It is.
    GoesOn,
    /// It is, and ends the word of this item.
    Stores(u64),
    /// It is, and begins the count write of the items stored since the last one.
    Counts,
}

/// How far the put under way has come.
#[derive(Clone, Copy)]
enum Stage {
    Resting,
    Scanning,
    Choosing,
    Storing,
    Counting,
    Closing,
    Closed,
}

/// Reads the events of a producer as its puts, whose items it derives from the digits written, and their
/// number from the count write. It takes no memory.
#[derive(Drop)]
pub(crate) struct PutReader {
    shape: Shape,
    count: u64,
    next: u64,
    cell: u64,
    stage: Stage,
    scan: UnaryScan,
    word: WordReader,
    room: u64,
    some: bool,
    row: UnaryWriter,
    open_access: Option<Access>,
}

impl Model for PutReader {
    ghost use Rattle.ring_audit.specs.PutReading.{PutReading, IsPutReading};

    ghost Value = { PutReading };

    ghost use Rattle.ring_audit.specs.Insides.{put_reading_of};

    ghost view = { put_reading_of };

    ghost invariant = { λ r. IsPutReading (put_reading_of r) };
}

// The most items that may be stored after a scan of this value, if one may.
fn most_items(shape: &Shape, count: u64, seen: u64) -> u64
    requires count { count < modulus_of shape.now }
    requires seen { seen < modulus_of shape.now }
    requires room { LeavesRoom shape.now count seen }
    ensures some { 1 ≤ result }
    ensures room { LeavesRoomFor shape.now count seen result }
    ensures few { result ≤ batch_of shape.now }
    ensures most { (k : ℕ) → LeavesRoomFor shape.now count seen k → k ≤ batch_of shape.now → k ≤ result }
{
    let room = shape.capacity() - distance(count, seen, shape.modulus());
    let batch = shape.batch();
    if room < batch { room } else { batch }
}

impl PutReader {
    ghost use Rattle.ring_audit.specs.declared.puts.Stage.TheVariants.{Resting, Scanning, Choosing, Storing, Counting};

    /// A reader that has read no event.
    pub fn new(shape: &Shape) -> Self
        ensures shape { result.shape ≡ shape.now }
        ensures stands { PutsStand shape.now result [] [] [] }
    {
        PutReader {
            shape: *shape,
            count: 0,
            next: 0,
            cell: 0,
            stage: Stage::Resting,
            scan: UnaryScan::new(shape, Side::P),
            word: WordReader::new(shape, 0),
            room: 0,
            some: false,
            row: UnaryWriter::new(shape, Side::P),
            open_access: None,
        }
    }

    /// A copy of this reader.
    pub fn again(&self) -> Self
        ensures { result ≡ self.now }
    {
        PutReader {
            row: self.row.clone().unwrap(),
            ..*self
        }
    }

    /// Reads the producer's next event. Once it has stopped, nothing is guaranteed.
    pub fn read(&mut self, event: Event) -> PutStep
        requires { event.side ≡ P }
        ensures shape { self.new.shape ≡ self.old.shape }
        ensures read { HasReadPut self.old.shape self.old self.new event result }
    {
        match begun_by(event) {
            Some(access) => match self.open_access {
                Some(_) => PutStep::Stops,
                None => self.begin(access),
            },
            None => match self.open_access {
                Some(access) => match answer_to(access, event) {
                    Some(answer) => self.finish(access, answer),
                    None => PutStep::Stops,
                },
                None => PutStep::Stops,
            },
        }
    }

    // An access begins while none is open.
    fn begin(&mut self, access: Access) -> PutStep
        requires { self.old.open_access ≡ None }
        ensures shape { self.new.shape ≡ self.old.shape }
        ensures read { HasReadPut self.old.shape self.old self.new (opening_event P access) result }
    {
        match self.stage {
            Stage::Resting => self.begin_call(access),
            Stage::Scanning => self.begin_next(access),
            Stage::Choosing => self.begin_word(access),
            Stage::Storing => self.begin_next(access),
            Stage::Counting => self.begin_next(access),
            Stage::Closing => PutStep::Stops,
            Stage::Closed => PutStep::Stops,
        }
    }

    // Between calls: a scan begins, or the close.
    fn begin_call(&mut self, access: Access) -> PutStep
        requires at { IsAtStage self.old Resting None }
        ensures shape { self.new.shape ≡ self.old.shape }
        ensures read { HasReadPut self.old.shape self.old self.new (opening_event P access) result }
    {
        if is_same(Some(Access::Write(Bit::X, true)), access) {
            self.stage = Stage::Closing;
            self.open_access = Some(access);
            PutStep::GoesOn
        } else {
            self.scan = UnaryScan::new(&self.shape, Side::P);
            if is_same(self.scan.next(), access) {
                self.stage = Stage::Scanning;
                self.open_access = Some(access);
                PutStep::GoesOn
            } else {
                PutStep::Stops
            }
        }
    }

    // In a scan, a word or a count write: its next access begins.
    fn begin_next(&mut self, access: Access) -> PutStep
        requires none { self.old.open_access ≡ None }
        requires stage { (self.old.stage ≡ Scanning) ⊎ ((self.old.stage ≡ Storing) ⊎ (self.old.stage ≡ Counting)) }
        ensures shape { self.new.shape ≡ self.old.shape }
        ensures read { HasReadPut self.old.shape self.old self.new (opening_event P access) result }
    {
        let is_next = match self.stage {
            Stage::Scanning => is_same(self.scan.next(), access),
            Stage::Storing => writes_next(self.word.next(), access),
            _ => is_same(self.row.next(), access),
        };
        if is_next {
            self.open_access = Some(access);
            PutStep::GoesOn
        } else {
            PutStep::Stops
        }
    }

    // After a scan that found room, or a whole word: the next word begins, or the count write.
    fn begin_word(&mut self, access: Access) -> PutStep
        requires at { IsAtStage self.old Choosing None }
        ensures shape { self.new.shape ≡ self.old.shape }
        ensures read { HasReadPut self.old.shape self.old self.new (opening_event P access) result }
    {
        if self.room > 0 && writes_next(WordReader::new(&self.shape, self.cell).next(), access) {
            self.word = WordReader::new(&self.shape, self.cell);
            self.stage = Stage::Storing;
            self.open_access = Some(access);
            PutStep::GoesOn
        } else if self.some {
            self.begin_count(access)
        } else {
            PutStep::Stops
        }
    }

    // After a whole word: the count write begins, if the access is not a write of the next word.
    fn begin_count(&mut self, access: Access) -> PutStep
        requires at { IsAtStage self.old Choosing None }
        requires some { self.old.some ≡ true }
        requires no_word { (v : Bool) → 0 < self.old.room → access ≢ Access.Write (Cell self.old.cell 0) v }
        ensures shape { self.new.shape ≡ self.old.shape }
        ensures read { HasReadPut self.old.shape self.old self.new (opening_event P access) result }
    {
        self.row.write(self.next);
        if is_same(self.row.next(), access) {
            self.stage = Stage::Counting;
            self.open_access = Some(access);
            PutStep::Counts
        } else {
            // it has stopped, with a row that is no longer at rest
            self.stage = Stage::Closed;
            PutStep::Stops
        }
    }

    // The open access ends with this answer.
    fn finish(&mut self, access: Access, answer: bool) -> PutStep
        requires { self.old.open_access ≡ Some access }
        ensures shape { self.new.shape ≡ self.old.shape }
        ensures read { HasReadPut self.old.shape self.old self.new (end_event P (answered access answer)) result }
    {
        match self.stage {
            Stage::Scanning => self.finish_read(access, answer),
            Stage::Storing => self.finish_digit(access, answer),
            Stage::Counting => self.finish_bit(access, answer),
            Stage::Closing => {
                self.open_access = None;
                self.stage = Stage::Closed;
                PutStep::GoesOn
            }
            Stage::Resting | Stage::Choosing | Stage::Closed => PutStep::Stops,
        }
    }

    // A read of a scan ends.
    fn finish_read(&mut self, access: Access, answer: bool) -> PutStep
        requires at { IsAtStage self.old Scanning (Some access) }
        ensures shape { self.new.shape ≡ self.old.shape }
        ensures read { HasReadPut self.old.shape self.old self.new (end_event P (answered access answer)) result }
    {
        if self.scan.expects_one() && !answer {
            return PutStep::Stops;
        }
        self.open_access = None;
        self.scan.feed(answer);
        match self.scan.value() {
            None => {}
            Some(seen) => {
                if has_room(&self.shape, self.count, seen) {
                    self.room = most_items(&self.shape, self.count, seen);
                    self.next = self.count;
                    self.some = false;
                    self.stage = Stage::Choosing;
                } else {
                    self.stage = Stage::Resting;
                }
            }
        }
        PutStep::GoesOn
    }

    // A write of a digit ends.
    fn finish_digit(&mut self, access: Access, answer: bool) -> PutStep
        requires at { IsAtStage self.old Storing (Some access) }
        ensures shape { self.new.shape ≡ self.old.shape }
        ensures read { HasReadPut self.old.shape self.old self.new (end_event P (answered access answer)) result }
    {
        self.open_access = None;
        self.word.feed(told_by(access, answer));
        match self.word.value() {
            None => PutStep::GoesOn,
            Some(item) => {
                self.cell = (self.cell + 1) % self.shape.capacity();
                self.next = (self.next + 1) % self.shape.modulus();
                self.room -= 1;
                self.some = true;
                self.stage = Stage::Choosing;
                PutStep::Stores(item)
            }
        }
    }

    // A bit write of the count ends.
    fn finish_bit(&mut self, access: Access, answer: bool) -> PutStep
        requires at { IsAtStage self.old Counting (Some access) }
        ensures shape { self.new.shape ≡ self.old.shape }
        ensures read { HasReadPut self.old.shape self.old self.new (end_event P (answered access answer)) result }
    {
        self.open_access = None;
        self.row.feed(answer);
        if self.row.next().is_none() {
            self.count = self.next;
            self.stage = Stage::Resting;
        }
        PutStep::GoesOn
    }

    /// The events, one of which has to be the next of any puts. Nothing else is guaranteed of the reader then.
    pub fn candidates(&mut self) -> Dues
        ensures only { (es : List Event) (items stored : List ℕ) (e : Event) →
            PutsStand self.old.shape self.old es items stored → e.side ≡ P → IsNoneOf result e →
            ¬ AreOfPuts self.old.shape (es ++ e ∷ []) }
        ensures order { AreInOrder result }
    {
        match self.open_access {
            Some(access) => ends(Side::P, access),
            None => self.openings(),
        }
    }

    // While no access is open: the starts, one of which has to be the next.
    fn openings(&mut self) -> Dues
        requires { self.old.open_access ≡ None }
        ensures only { (es : List Event) (items stored : List ℕ) (access : Access) →
            PutsStand self.old.shape self.old es items stored → IsNoneOf result (opening_event P access) →
            ¬ AreOfPuts self.old.shape (es ++ opening_event P access ∷ []) }
        ensures order { AreInOrder result }
    {
        match self.stage {
            Stage::Resting => Dues {
                first: opening(Side::P, Some(Access::Read(Bit::R(0)))),
                second: opening(Side::P, Some(Access::Write(Bit::X, true))),
                third: None,
            },
            Stage::Scanning => only(opening(Side::P, self.scan.next())),
            Stage::Choosing => self.word_or_count(),
            Stage::Storing => writes(self.word.next(), None),
            Stage::Counting => only(opening(Side::P, self.row.next())),
            Stage::Closing => only(None),
            Stage::Closed => only(None),
        }
    }

    // After a scan that found room, or a whole word: the start of the next word, and of the count write.
    fn word_or_count(&mut self) -> Dues
        requires at { IsAtStage self.old Choosing None }
        ensures only { (es : List Event) (items stored : List ℕ) (access : Access) →
            PutsStand self.old.shape self.old es items stored → IsNoneOf result (opening_event P access) →
            ¬ AreOfPuts self.old.shape (es ++ opening_event P access ∷ []) }
        ensures order { AreInOrder result }
    {
        let word = WordReader::new(&self.shape, self.cell).next();
        self.row.write(self.next);
        // it has stopped, with a row that is no longer at rest
        self.stage = Stage::Closed;
        writes(word, opening(Side::P, self.row.next()))
    }

    /// What was read so far is a prefix of the events of puts.
    pub fn follow(&self)
        ensures { (es : List Event) (items stored : List ℕ) → PutsStand self.now.shape self.now es items stored →
            WerePut self.now.shape es items }
    {
        // only for the proof: gives the invariant of the reader
        let _due = self.word.next();
    }
}
