//! The auditor of a register's history.
ghost use Rattle.std.specs.Prelude.{◌≡◌, true, ◌<◌, ◌≤◌, ◌+◌, suc, ◌-◌, ◌↔◌, ◌⊎◌, ℕ, List, [], ◌∷◌, ◌++◌, if◌then◌else◌, length, drop, IsTrue, IfOk, IfErr, OnOk, OnErr, MatchOption, MatchResult, Some, None, slice_get, unwrap_or};
ghost use Rattle.register_calls.specs.Histories.{IsValue};
ghost use Rattle.register_calls.specs.Classes.{IsStrongest, HasClass};
ghost use Rattle.register_calls.specs.Judging.{FindsFirst, IsFirstPlace, IsFrom, IsGreater, IsOlder, IsRaised, still};
ghost use Rattle.register_calls.specs.Audits.{AuditsRegister, StartsRead, EndsRead, FindsWrites, HearsEvent, IsOldest, IsOldestKept, fresh_reader, reader_at};
ghost use Rattle.register_calls.specs.declared.events.RegisterEvent.{RegisterEvent};
ghost use Rattle.register_calls.specs.declared.events.RegisterEvent.TheVariants.{WriteBegins, WriteEnds, ReadBegins, ReadEnds};

use crate::events::{Class, Register, RegisterEvent};
use crate::faults::RegisterFault;
use lists::Fifo;
use std::alloc::{AllocError, Allocator};
use std::collections::VecDeque;

/// A read under way, as an auditor keeps it: numbers of writes.
#[derive(Clone, Copy, PartialEq, Eq, Debug)]
pub struct OpenRead {
    // how many writes had ended when it began
    pub(crate) before: usize,
    // the least write that it may be of if all readers together see the writes in order, and if each does so alone
    pub(crate) low: usize,
    pub(crate) own_low: usize,
}

/// What an auditor keeps of a reader.
#[derive(Clone, Copy, PartialEq, Eq, Debug)]
pub struct ReaderState {
    // the least write that its next read may be of, according to its own reads
    pub(crate) own: usize,
    pub(crate) reading: Option<OpenRead>,
}

// The writes that a read under way may be of, if it ends with a value: their numbers.
#[derive(Clone, Copy)]
pub(crate) struct FoundWrites {
    pub(crate) read: OpenRead,
    // the first write of the value from when the read began; and from its lows, by the reads of its reader and by those of all
    pub(crate) of_any: Option<usize>,
    pub(crate) of_own: Option<usize>,
    pub(crate) of_all: Option<usize>,
}

/// An auditor of a recorded history of one register, with one writer and any number of readers.
///
/// It reads the history event by event, and returns the strongest class that the history has so far. It never revises a choice: it
/// gives each read the least write that the read may be of and that is not before one given to an earlier read, and no other
/// choice does better.
///
/// It keeps the writes that a read under way may be of, or one that begins now, and a few numbers of each reader: in lists of an
/// allocator, or in slots supplied by the caller. A read is compared with each write that it may be of, once in most cases and
/// at most three times.
#[derive(Drop)]
pub struct RegisterAuditor<W: Fifo<u64>, R: Fifo<ReaderState>> {
    pub(crate) register: Register,
    // the values of the writes from this number on
    pub(crate) window: W,
    pub(crate) base: usize,
    // how many writes have begun, and whether the last one has not ended
    pub(crate) begun: usize,
    pub(crate) is_writing: bool,
    pub(crate) readers: R,
    // the least write that a read which begins now may be of, according to the reads that have ended
    pub(crate) floor: usize,
    // the classes that the history has
    pub(crate) is_safe: bool,
    pub(crate) is_regular: bool,
    pub(crate) is_by_reader: bool,
    pub(crate) is_atomic: bool,
}

impl ReaderState {
    /// The state of a reader that has not read yet: for slots that an auditor will use.
    pub fn new() -> ReaderState
        ensures { result ≡ fresh_reader }
    {
        ReaderState {
            own: 0,
            reading: None,
        }
    }

    // The lesser of a number and of the writes that had ended when the read under way began, if there is one.
    fn older(self, number: usize) -> usize
        ensures { IsOlder self.reading number result }
    {
        match self.reading {
            Some(read) => {
                if read.before < number {
                    read.before
                } else {
                    number
                }
            }
            None => number,
        }
    }
}

// The greater of two numbers.
fn greater(a: usize, b: usize) -> usize
    ensures { IsGreater a b result }
{
    if a < b { b } else { a }
}

// Whether what held still holds, for a read that has such a write or none.
fn still(held: bool, number: Option<usize>) -> bool
    ensures { result ≡ still held number }
{
    match number {
        Some(_) => held,
        None => false,
    }
}

// Whether what was found from a number on, which is kept, is also the result from a later one on.
fn serves(base: usize, before: usize, from: usize, earlier: Option<usize>) -> bool
    ensures { IsTrue result → ((base ≤ before) × (before ≤ from) × IsFrom from earlier) }
{
    match earlier {
        Some(number) => base <= before && before <= from && from <= number,
        None => base <= before && before <= from,
    }
}

// Whether what held holds now, if it held.
fn is_kept(held: bool, holds: bool) -> bool
    ensures { result ≡ (if held then holds else true) }
{
    if held { holds } else { true }
}

// Whether both hold.
fn both(one: bool, other: bool) -> bool
    ensures { IsTrue result ↔ (IsTrue one × IsTrue other) }
{
    one && other
}

// A floor, raised to a number if there is one.
fn raised(floor: usize, number: Option<usize>) -> usize
    ensures { IsRaised floor number result }
{
    match number {
        Some(number) => greater(floor, number),
        None => floor,
    }
}

// Removes items from the front of a list: as many as the count.
fn drop_front<W: Fifo<u64>>(list: &mut W, count: usize)
    ensures items { W.items list.new ≡ drop count (W.items list.old) }
    ensures room { W.room list.new ≡ W.room list.old }
{
    for _index in 0..count {
        // the removed item is not needed
        let _ = list.pop_front();
    }
}

// Makes a list of readers long enough for this one.
fn reach<R: Fifo<ReaderState>>(readers: &mut R, reader: usize) -> Result<(), AllocError>
    ensures within { OnOk result (reader < length (R.items readers.new)) }
    ensures full { OnErr result (R.room readers.old ≤ reader) }
    ensures states { (i : ℕ) → reader_at (R.items readers.new) i ≡ reader_at (R.items readers.old) i }
    ensures room { R.room readers.new ≡ R.room readers.old }
{
    while readers.len() <= reader {
        readers.push_back(ReaderState::new())?;
    }
    Ok(())
}

impl<A: Allocator + Copy> RegisterAuditor<VecDeque<u64, A>, VecDeque<ReaderState, A>> {
    /// An auditor of a register that has read no event yet. The first value of the register is one of its values.
    pub fn new(
        alloc: A,
        register: Register,
    ) -> Result<RegisterAuditor<VecDeque<u64, A>, VecDeque<ReaderState, A>>, AllocError>
        requires { IsValue register register.first }
        ensures register { IfOk result (λ a. a.register ≡ register) }
        ensures audits { IfOk result (λ a. AuditsRegister (λ q. q.items) (λ q. q.items) a []) }
    {
        RegisterAuditor::with(VecDeque::new(alloc), VecDeque::new(alloc), register)
    }
}

impl<W: Fifo<u64>, R: Fifo<ReaderState>> RegisterAuditor<W, R> {
    /// Like [`new`](RegisterAuditor::new), with lists supplied by the caller, which may be in slots. Their contents are removed.
    ///
    /// It is an error if the list of writes has no room for one number.
    pub fn with(
        window: W,
        readers: R,
        register: Register,
    ) -> Result<RegisterAuditor<W, R>, AllocError>
        requires { IsValue register register.first }
        ensures register { IfOk result (λ a. a.register ≡ register) }
        ensures audits { IfOk result (λ a. AuditsRegister W.items R.items a []) }
        ensures rooms { IfOk result (λ a. (W.room a.window ≡ W.room window) × (R.room a.readers ≡ R.room readers)) }
        ensures full { OnErr result (W.room window ≡ 0) }
    {
        let mut writes = window;
        writes.truncate(0);
        writes.push_back(register.first)?;
        let mut states = readers;
        states.truncate(0);
        Ok(RegisterAuditor {
            register,
            window: writes,
            base: 0,
            begun: 0,
            is_writing: false,
            readers: states,
            floor: 0,
            is_safe: true,
            is_regular: true,
            is_by_reader: true,
            is_atomic: true,
        })
    }

    /// Forgets what it has read, and audits a history of this register from its start, in the same lists. The first value of the
    /// register is one of its values.
    ///
    /// It is an error if the list of writes has no room for one number; it is of no further use then.
    pub fn restart(&mut self, register: Register) -> Result<(), AllocError>
        requires { IsValue register register.first }
        ensures register { OnOk result (self.new.register ≡ register) }
        ensures audits { OnOk result (AuditsRegister W.items R.items self.new []) }
        ensures rooms { (W.room self.new.window ≡ W.room self.old.window) ×
            (R.room self.new.readers ≡ R.room self.old.readers) }
        ensures full { OnErr result (W.room self.old.window ≡ 0) }
    {
        self.window.truncate(0);
        self.window.push_back(register.first)?;
        self.readers.truncate(0);
        self.register = register;
        self.base = 0;
        self.begun = 0;
        self.is_writing = false;
        self.floor = 0;
        self.is_safe = true;
        self.is_regular = true;
        self.is_by_reader = true;
        self.is_atomic = true;
        Ok(())
    }

    /// The register whose history it audits.
    pub fn register(&self) -> Register
        ensures { result ≡ self.now.register }
    {
        self.register
    }

    // How many writes have ended.
    pub(crate) fn ended(&self) -> usize
        ensures { result ≡ (if self.now.is_writing then self.now.begun - 1 else self.now.begun) }
    {
        if self.is_writing {
            self.begun.saturating_sub(1)
        } else {
            self.begun
        }
    }

    // The state of a reader.
    pub(crate) fn reader(&self, reader: usize) -> ReaderState
        ensures { result ≡ reader_at (R.items self.now.readers) reader }
    {
        match self.readers.get(reader) {
            Some(state) => *state,
            None => ReaderState::new(),
        }
    }

    // The first place of the value among the writes that are kept, from the write with this number on.
    fn place(&self, from: usize, value: u64) -> Option<usize>
        ensures { IsFirstPlace (W.items self.now.window) (from - self.now.base) value result }
    {
        for place in from.saturating_sub(self.base)..self.window.len() {
            if let Some(written) = self.window.get(place) {
                if *written == value {
                    return Some(place);
                }
            }
        }
        None
    }

    // The first number of a write from this one on that wrote the value.
    fn least(&self, from: usize, value: u64) -> Option<usize>
        ensures { (written : List ℕ) → W.items self.now.window ≡ drop self.now.base written → self.now.base ≤ from →
            length written ≡ suc self.now.begun → IsFirstPlace written from value result }
    {
        // (the number of a write that has begun fits a usize)
        let _begun = self.begun;
        match self.place(from, value) {
            Some(place) => Some(self.base.saturating_add(place)),
            None => None,
        }
    }

    // The same, if this is the first one from a number before it: it is searched again only if that one is not right.
    fn least_later(
        &self,
        from: usize,
        value: u64,
        before: usize,
        earlier: Option<usize>,
    ) -> Option<usize>
        ensures { FindsFirst (W.items self.now.window) self.now.base self.now.begun before value earlier →
            FindsFirst (W.items self.now.window) self.now.base self.now.begun from value result }
    {
        if serves(self.base, before, from, earlier) {
            earlier
        } else {
            self.least(from, value)
        }
    }

    // The least number of a write that a read under way may be of, or one that begins now.
    fn oldest(&self) -> usize
        ensures { IsOldestKept (if self.now.is_writing then self.now.begun - 1 else self.now.begun)
            (R.items self.now.readers) result }
    {
        let mut oldest = self.ended();
        for index in 0..self.readers.len() {
            oldest = self.reader(index).older(oldest);
        }
        oldest
    }

    // Forgets the writes that no read can be of any more.
    fn forget(&mut self)
        ensures others { (self.new.register ≡ self.old.register) × (self.new.begun ≡ self.old.begun) ×
            (self.new.is_writing ≡ self.old.is_writing) × (self.new.readers ≡ self.old.readers) ×
            (self.new.floor ≡ self.old.floor) }
        ensures up { (h : List RegisterEvent) → AuditsRegister W.items R.items self.old h →
            self.old.base ≤ self.new.base }
        ensures base { (h : List RegisterEvent) → AuditsRegister W.items R.items self.old h → IsOldest h self.new.base }
        ensures audits { (h : List RegisterEvent) → AuditsRegister W.items R.items self.old h →
            AuditsRegister W.items R.items self.new h }
        ensures room { W.room self.new.window ≡ W.room self.old.window }
    {
        let oldest = self.oldest();
        drop_front(&mut self.window, oldest.saturating_sub(self.base));
        self.base = oldest;
    }

    // A write begins.
    pub(crate) fn write_begins(&mut self, value: u64) -> Result<(), RegisterFault>
        ensures hears { HearsEvent W.items R.items W.room R.room usize.MAX self.old (WriteBegins value) result self.new }
        ensures up { (h : List RegisterEvent) → AuditsRegister W.items R.items self.old h →
            self.old.base ≤ self.new.base }
        ensures others { (R.items self.new.readers ≡ R.items self.old.readers) × (self.new.floor ≡ self.old.floor) }
        ensures rooms { (W.room self.new.window ≡ W.room self.old.window) ×
            (R.room self.new.readers ≡ R.room self.old.readers) }
    {
        if !self.register.has_value(value) {
            return Err(RegisterFault::NoValue);
        }
        if self.is_writing {
            return Err(RegisterFault::OutOfTurn);
        }
        let Some(begun) = self.begun.checked_add(1) else {
            return Err(RegisterFault::TooMany);
        };
        self.forget();
        match self.window.push_back(value) {
            Ok(()) => {}
            Err(_) => return Err(RegisterFault::OutOfMemory),
        }
        self.begun = begun;
        self.is_writing = true;
        Ok(())
    }

    // The write ends.
    pub(crate) fn write_ends(&mut self) -> Result<(), RegisterFault>
        ensures hears { HearsEvent W.items R.items W.room R.room usize.MAX self.old WriteEnds result self.new }
        ensures others { (self.new.base ≡ self.old.base) × (R.items self.new.readers ≡ R.items self.old.readers) ×
            (self.new.floor ≡ self.old.floor) }
        ensures rooms { (W.room self.new.window ≡ W.room self.old.window) ×
            (R.room self.new.readers ≡ R.room self.old.readers) }
    {
        if !self.is_writing {
            return Err(RegisterFault::OutOfTurn);
        }
        self.is_writing = false;
        Ok(())
    }

    // A read begins.
    pub(crate) fn read_begins(&mut self, reader: usize) -> Result<(), RegisterFault>
        ensures hears { HearsEvent W.items R.items W.room R.room usize.MAX self.old (ReadBegins reader) result self.new }
        ensures readers { MatchResult result (λ _. StartsRead (if self.old.is_writing then self.old.begun - 1 else
            self.old.begun) self.old.floor (R.items self.old.readers) (R.items self.new.readers) reader)
            (λ _. (i : ℕ) → reader_at (R.items self.new.readers) i ≡ reader_at (R.items self.old.readers) i) }
        ensures others { (self.new.base ≡ self.old.base) × (self.new.floor ≡ self.old.floor) }
        ensures rooms { (W.room self.new.window ≡ W.room self.old.window) ×
            (R.room self.new.readers ≡ R.room self.old.readers) }
    {
        let state = self.reader(reader);
        match state.reading {
            Some(_) => return Err(RegisterFault::OutOfTurn),
            None => {}
        }
        match reach(&mut self.readers, reader) {
            Ok(()) => {}
            Err(_) => return Err(RegisterFault::OutOfMemory),
        }
        let before = self.ended();
        let read = OpenRead {
            before,
            low: greater(before, self.floor),
            own_low: greater(before, state.own),
        };
        let begun = ReaderState {
            own: state.own,
            reading: Some(read),
        };
        self.readers.set(reader, begun);
        Ok(())
    }

    // Whether the history is safe with a read of this value: how many writes had ended when the read began, and the number of a write
    // that it may be of, if there is one.
    fn is_safe_still(&self, before: usize, value: u64, number: Option<usize>) -> bool
        ensures { (result ≡ true) ↔ ((self.now.is_safe ≡ true) × IsValue self.now.register value ×
            ((before < self.now.begun) ⊎ (still true number ≡ true))) }
    {
        self.is_safe && self.register.has_value(value) && (before < self.begun || number.is_some())
    }

    // What the read under way of this reader may be of, if it ends with this value; `None` if it has none.
    pub(crate) fn found(&self, reader: usize, value: u64) -> Option<FoundWrites>
        ensures { MatchOption result ((reader_at (R.items self.now.readers) reader).reading ≡ None)
            (λ found. ((reader_at (R.items self.now.readers) reader).reading ≡ Some found.read) ×
            FindsWrites (W.items self.now.window) self.now.base self.now.begun value found) }
    {
        let state = self.reader(reader);
        match state.reading {
            Some(read) => {
                let of_any = self.least(read.before, value);
                let of_own = self.least_later(read.own_low, value, read.before, of_any);
                let of_all = self.least_later(read.low, value, read.before, of_any);
                Some(FoundWrites {
                    read,
                    of_any,
                    of_own,
                    of_all,
                })
            }
            None => None,
        }
    }

    // Whether the history has the class if a read under way ends with this value, by what the read may be of.
    pub(crate) fn has_with(&self, class: Class, value: u64, found: &FoundWrites) -> bool
        ensures { (i : ℕ) (h : List RegisterEvent) → AuditsRegister W.items R.items self.now h →
            (reader_at (R.items self.now.readers) i).reading ≡ Some found.now.read →
            FindsWrites (W.items self.now.window) self.now.base self.now.begun value found.now →
            IsTrue result ↔ HasClass class self.now.register (ReadEnds i value ∷ h) }
    {
        let is_safe = self.is_safe_still(found.read.before, value, found.of_any);
        match class {
            Class::Safe => is_safe,
            Class::Regular => still(self.is_regular, found.of_any),
            Class::AtomicByReader => still(self.is_by_reader, found.of_own),
            Class::Atomic => still(self.is_atomic, found.of_all),
        }
    }

    // Whether the history keeps each class that it has so far if a read under way ends with this value, by what the read may be of.
    pub(crate) fn keeps_with(&self, value: u64, found: &FoundWrites) -> bool
        ensures { (i : ℕ) (h : List RegisterEvent) → AuditsRegister W.items R.items self.now h →
            (reader_at (R.items self.now.readers) i).reading ≡ Some found.now.read →
            FindsWrites (W.items self.now.window) self.now.base self.now.begun value found.now →
            IsTrue result ↔ ((class : Class) → HasClass class self.now.register h →
            HasClass class self.now.register (ReadEnds i value ∷ h)) }
    {
        let is_safe = self.is_safe_still(found.read.before, value, found.of_any);
        let safe = is_kept(self.is_safe, is_safe);
        let regular = is_kept(self.is_regular, still(self.is_regular, found.of_any));
        let by_reader = is_kept(self.is_by_reader, still(self.is_by_reader, found.of_own));
        let atomic = is_kept(self.is_atomic, still(self.is_atomic, found.of_all));
        both(both(safe, regular), both(by_reader, atomic))
    }

    // The read under way of this reader ends with this value, by what it may be of.
    pub(crate) fn end_read(&mut self, reader: usize, value: u64, found: FoundWrites)
        requires reading { (reader_at (R.items self.old.readers) reader).reading ≡ Some found.read }
        requires found { FindsWrites (W.items self.old.window) self.old.base self.old.begun value found }
        ensures register { self.new.register ≡ self.old.register }
        ensures audits { (h : List RegisterEvent) → AuditsRegister W.items R.items self.old h →
            AuditsRegister W.items R.items self.new (ReadEnds reader value ∷ h) }
        ensures ends { EndsRead found (R.items self.old.readers) (R.items self.new.readers) reader self.old.floor
            self.new.floor }
        ensures base { self.new.base ≡ self.old.base }
        ensures begun { self.new.begun ≡ self.old.begun }
        ensures rooms { (W.room self.new.window ≡ W.room self.old.window) ×
            (R.room self.new.readers ≡ R.room self.old.readers) }
    {
        let state = self.reader(reader);
        let ended = ReaderState {
            own: raised(state.own, found.of_own),
            reading: None,
        };
        self.readers.set(reader, ended);
        self.floor = raised(self.floor, found.of_all);
        self.is_safe = self.is_safe_still(found.read.before, value, found.of_any);
        self.is_regular = still(self.is_regular, found.of_any);
        self.is_by_reader = still(self.is_by_reader, found.of_own);
        self.is_atomic = still(self.is_atomic, found.of_all);
    }

    // A read ends, and returned this value.
    fn read_ends(&mut self, reader: usize, value: u64) -> Result<(), RegisterFault>
        ensures hears { HearsEvent W.items R.items W.room R.room usize.MAX self.old (ReadEnds reader value) result
            self.new }
        ensures rooms { (W.room self.new.window ≡ W.room self.old.window) ×
            (R.room self.new.readers ≡ R.room self.old.readers) }
    {
        match self.found(reader, value) {
            Some(found) => {
                self.end_read(reader, value, found);
                Ok(())
            }
            None => Err(RegisterFault::OutOfTurn),
        }
    }

    // Reads the next event.
    fn hear(&mut self, event: RegisterEvent) -> Result<(), RegisterFault>
        ensures hears { HearsEvent W.items R.items W.room R.room usize.MAX self.old event result self.new }
        ensures rooms { (W.room self.new.window ≡ W.room self.old.window) ×
            (R.room self.new.readers ≡ R.room self.old.readers) }
    {
        match event {
            RegisterEvent::WriteBegins(value) => self.write_begins(value),
            RegisterEvent::WriteEnds => self.write_ends(),
            RegisterEvent::ReadBegins(reader) => self.read_begins(reader),
            RegisterEvent::ReadEnds(reader, value) => self.read_ends(reader, value),
        }
    }

    /// Reads the next event of the history, and returns the strongest class of the history up to and including it, or `None` if the
    /// history is not safe.
    ///
    /// It returns `NoValue` if the event begins a write of a number that is not a value of the register; otherwise `OutOfTurn` if it
    /// begins an operation while one of its side is under way, or ends one that is not; otherwise `TooMany` if it begins a write and
    /// `usize::MAX` writes have begun; and `OutOfMemory` if the list of writes has no room for those that a read may be of and this
    /// one, or that of readers has none for this reader. A refused event changes nothing.
    pub fn feed(&mut self, event: RegisterEvent) -> Result<Option<Class>, RegisterFault>
        ensures hears { HearsEvent W.items R.items W.room R.room usize.MAX self.old event result self.new }
        ensures class { IfOk result (λ class. (h : List RegisterEvent) → AuditsRegister W.items R.items self.new h →
            IsStrongest class self.new.register h) }
        ensures rooms { (W.room self.new.window ≡ W.room self.old.window) ×
            (R.room self.new.readers ≡ R.room self.old.readers) }
    {
        match self.hear(event) {
            Ok(()) => Ok(self.class()),
            Err(fault) => Err(fault),
        }
    }

    /// The strongest class of the history that it has read, or `None` if the history is not safe.
    pub fn class(&self) -> Option<Class>
        ensures { (h : List RegisterEvent) → AuditsRegister W.items R.items self.now h →
            IsStrongest result self.now.register h }
    {
        if self.is_atomic {
            Some(Class::Atomic)
        } else if self.is_by_reader {
            Some(Class::AtomicByReader)
        } else if self.is_regular {
            Some(Class::Regular)
        } else if self.is_safe {
            Some(Class::Safe)
        } else {
            None
        }
    }

    /// Whether the history that it has read has the class.
    pub fn has(&self, class: Class) -> bool
        ensures { (h : List RegisterEvent) → AuditsRegister W.items R.items self.now h →
            IsTrue result ↔ HasClass class self.now.register h }
    {
        match class {
            Class::Safe => self.is_safe,
            Class::Regular => self.is_regular,
            Class::AtomicByReader => self.is_by_reader,
            Class::Atomic => self.is_atomic,
        }
    }
}
