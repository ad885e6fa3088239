//! What is kept of a register's history, besides its classes, to report why it lacks one.
ghost use Rattle.std.specs.Prelude.{◌≡◌, ◌-◌, ◌<◌, ◌↔◌, ℕ, suc, List, [], ◌∷◌, IsTrue, IfOk, OnOk, length, drop, take, slice_index_or};
ghost use Rattle.register_calls.specs.Histories.{IsValue, IsWellFormed};
ghost use Rattle.register_calls.specs.Classes.{HasClass, IsStrongest};
ghost use Rattle.register_calls.specs.Audits.{FindsWrites, reader_at};
ghost use Rattle.register_calls.specs.Reports.{report_of};
ghost use Rattle.register_calls.specs.Chains.{chain_at};
ghost use Rattle.register_calls.specs.Witnesses.{HearsAndRemembers, IsRaisingLink, IsShownReason, RemembersEvent, RemembersRegister, link_of, low_chain};
ghost use Rattle.register_calls.specs.declared.events.RegisterEvent.{RegisterEvent};
ghost use Rattle.register_calls.specs.declared.events.RegisterEvent.TheVariants.{WriteBegins, WriteEnds, ReadBegins, ReadEnds};

use crate::auditors::{FoundWrites, ReaderState, RegisterAuditor};
use crate::chains::{Chain, chain_of, keep_chain, keep_own, leans, raise_floor, raise_own};
use crate::events::{Class, Register, RegisterEvent};
use crate::faults::RegisterFault;
use crate::reasons::{EarlierRead, MissReason};
use crate::reports::{RegisterReport, RegisterTally};
use lists::Fifo;
use std::alloc::AllocError;

/// An auditor of a register's history that can report why the history lacks a class.
///
/// It keeps, besides what a [`RegisterAuditor`] keeps, the places where the writes that are kept began, and for each reader the first 8 of
/// the reads that bound its next one.
#[derive(Drop)]
pub struct RegisterWitness<W: Fifo<u64>, R: Fifo<ReaderState>, P: Fifo<usize>, C: Fifo<Chain>> {
    pub(crate) auditor: RegisterAuditor<W, R>,
    // where the writes that are kept began
    pub(crate) places: P,
    // of each reader, the reads that bound its next read, by its own reads
    pub(crate) own: C,
    // for its read under way, those that bound it, by the reads of all readers and by its own, if these do not let it be of the last
    // write that had ended when it began
    pub(crate) low: C,
    pub(crate) own_low: C,
    // the reads that bound each read that begins now
    pub(crate) floor: Chain,
    // how many events were read, and the place where the last write ended
    pub(crate) count: usize,
    pub(crate) ended: Option<usize>,
    // how much the history could have shown
    pub(crate) tally: RegisterTally,
}

// Removes places from the front of a list: as many as the count.
fn drop_places<P: Fifo<usize>>(places: &mut P, count: usize)
    ensures { P.items places.new ≡ drop count (P.items places.old) }
{
    for _index in 0..count {
        // the removed item is not needed
        let _ = places.pop_front();
    }
}

// Keeps the first places, as many as the count, and then removes some from the front.
fn keep_places<P: Fifo<usize>>(places: &mut P, count: usize, dropped: usize)
    ensures { P.items places.new ≡ drop dropped (take count (P.items places.old)) }
{
    places.truncate(count);
    drop_places(places, dropped);
}

// Makes a list of chains long enough for this reader.
fn reach_chains<C: Fifo<Chain>>(chains: &mut C, reader: usize) -> Result<(), AllocError>
    ensures within { OnOk result (reader < length (C.items chains.new)) }
    ensures same { (i : ℕ) → chain_at (C.items chains.new) i ≡ chain_at (C.items chains.old) i }
{
    while chains.len() <= reader {
        chains.push_back(Chain::new())?;
    }
    Ok(())
}

impl<W: Fifo<u64>, R: Fifo<ReaderState>, P: Fifo<usize>, C: Fifo<Chain>> RegisterWitness<
    W,
    R,
    P,
    C,
> {
    /// A witness of a register that has read no event yet, with these lists. Their contents are removed.
    ///
    /// It is an error if the list of writes or that of places has no room for one number.
    pub fn with(
        window: W,
        readers: R,
        places: P,
        own: C,
        low: C,
        own_low: C,
        register: Register,
    ) -> Result<RegisterWitness<W, R, P, C>, AllocError>
        requires { IsValue register register.first }
        ensures register { IfOk result (λ w. w.auditor.register ≡ register) }
        ensures remembers { IfOk result (λ w. RemembersRegister W.items R.items P.items C.items w []) }
    {
        let mut begun = places;
        begun.truncate(0);
        begun.push_back(0)?;
        let mut owns = own;
        owns.truncate(0);
        let mut lows = low;
        lows.truncate(0);
        let mut own_lows = own_low;
        own_lows.truncate(0);
        let auditor = RegisterAuditor::with(window, readers, register)?;
        let floor = Chain::new();
        let tally = RegisterTally::new();
        Ok(RegisterWitness {
            auditor,
            places: begun,
            own: owns,
            low: lows,
            own_low: own_lows,
            floor,
            count: 0,
            ended: None,
            tally,
        })
    }

    /// Forgets what it has read, and audits a history of this register from its beginning, in the same lists. The first value of the
    /// register is one of its values.
    ///
    /// It is an error if the list of writes or that of places has no room for one number; it is of no further use then.
    pub fn restart(&mut self, register: Register) -> Result<(), AllocError>
        requires { IsValue register register.first }
        ensures register { OnOk result (self.new.auditor.register ≡ register) }
        ensures remembers { OnOk result (RemembersRegister W.items R.items P.items C.items self.new []) }
    {
        self.places.truncate(0);
        self.places.push_back(0)?;
        self.own.truncate(0);
        self.low.truncate(0);
        self.own_low.truncate(0);
        self.auditor.restart(register)?;
        self.floor = Chain::new();
        self.count = 0;
        self.ended = None;
        self.tally = RegisterTally::new();
        Ok(())
    }

    /// The register whose history it audits.
    pub fn register(&self) -> Register
        ensures { result ≡ self.now.auditor.register }
    {
        self.auditor.register()
    }

    // The place where the write with this number began, of those kept.
    fn place(&self, number: usize) -> usize
        ensures { result ≡ slice_index_or (P.items self.now.places) (number - self.now.auditor.base) 0 }
    {
        match self.places.get(number.saturating_sub(self.auditor.base)) {
            Some(place) => *place,
            None => 0,
        }
    }

    // The read that ends now, as a read of the write with this number.
    fn link(&self, reader: usize, value: u64, number: usize) -> EarlierRead
        ensures { result ≡ link_of (P.items self.now.places) self.now.auditor.base self.now.count reader value number }
    {
        let written = self.place(number);
        EarlierRead {
            reader,
            ended: self.count,
            value,
            written,
        }
    }

    // The read that ends now, as a read of the write with this number, if there is one and it raises the floor.
    fn raising_link(
        &self,
        floor: usize,
        number: Option<usize>,
        reader: usize,
        value: u64,
    ) -> Option<EarlierRead>
        ensures { IsRaisingLink floor number (link_of (P.items self.now.places) self.now.auditor.base self.now.count
            reader value) result }
    {
        match number {
            Some(first) => {
                if floor < first {
                    Some(self.link(reader, value, first))
                } else {
                    None
                }
            }
            None => None,
        }
    }

    // A write begins. With it, this many events have been read.
    fn write_begins(&mut self, value: u64, count: usize) -> Result<(), RegisterFault>
        requires { count ≡ suc self.old.count }
        ensures { RemembersEvent W.items R.items P.items C.items usize.MAX self.old (WriteBegins value) result
            self.new }
    {
        let base = self.auditor.base;
        let length = self.places.len();
        match self.places.push_back(self.count) {
            Ok(()) => {}
            Err(_) => return Err(RegisterFault::OutOfMemory),
        }
        match self.auditor.write_begins(value) {
            Ok(()) => {
                let gone = self.auditor.base.saturating_sub(base);
                drop_places(&mut self.places, gone);
                self.tally.write_begins(value);
                self.count = count;
                Ok(())
            }
            Err(fault) => {
                let dropped = self.auditor.base.saturating_sub(base);
                keep_places(&mut self.places, length, dropped);
                Err(fault)
            }
        }
    }

    // The write ends.
    fn write_ends(&mut self, count: usize) -> Result<(), RegisterFault>
        requires { count ≡ suc self.old.count }
        ensures { RemembersEvent W.items R.items P.items C.items usize.MAX self.old WriteEnds result self.new }
    {
        match self.auditor.write_ends() {
            Ok(()) => {
                self.ended = Some(self.count);
                self.tally.write_ends();
                self.count = count;
                Ok(())
            }
            Err(fault) => Err(fault),
        }
    }

    // A read begins of a reader for which the lists of chains are long enough.
    fn begin_read(&mut self, reader: usize, count: usize) -> Result<(), RegisterFault>
        requires low { reader < length (C.items self.old.low) }
        requires own_low { reader < length (C.items self.old.own_low) }
        requires count { count ≡ suc self.old.count }
        ensures { RemembersEvent W.items R.items P.items C.items usize.MAX self.old (ReadBegins reader) result
            self.new }
    {
        match self.auditor.read_begins(reader) {
            Ok(()) => {
                let ended = self.auditor.ended();
                let state = self.auditor.reader(reader);
                keep_chain(
                    &mut self.low,
                    reader,
                    ended,
                    self.auditor.floor,
                    &self.floor,
                );
                keep_own(&mut self.own_low, &self.own, reader, ended, state.own);
                self.tally.read_begins();
                self.count = count;
                Ok(())
            }
            Err(fault) => Err(fault),
        }
    }

    // A read begins.
    fn read_begins(&mut self, reader: usize, count: usize) -> Result<(), RegisterFault>
        requires { count ≡ suc self.old.count }
        ensures { RemembersEvent W.items R.items P.items C.items usize.MAX self.old (ReadBegins reader) result
            self.new }
    {
        match reach_chains(&mut self.low, reader) {
            Ok(()) => {}
            Err(_) => return Err(RegisterFault::OutOfMemory),
        }
        match reach_chains(&mut self.own_low, reader) {
            Ok(()) => self.begin_read(reader, count),
            Err(_) => Err(RegisterFault::OutOfMemory),
        }
    }

    // The read under way of a reader for which the list of chains is long enough ends, by what it may be of.
    fn end_read(
        &mut self,
        reader: usize,
        value: u64,
        found: FoundWrites,
        count: usize,
    ) -> Result<(), RegisterFault>
        requires within { reader < length (C.items self.old.own) }
        requires count { count ≡ suc self.old.count }
        requires reading { (reader_at (R.items self.old.auditor.readers) reader).reading ≡ Some found.read }
        requires found { FindsWrites (W.items self.old.auditor.window) self.old.auditor.base self.old.auditor.begun value
            found }
        ensures { RemembersEvent W.items R.items P.items C.items usize.MAX self.old (ReadEnds reader value) result
            self.new }
    {
        let state = self.auditor.reader(reader);
        let by_own = leans(found.of_any, found.read.own_low);
        let own = self.raising_link(state.own, found.of_own, reader, value);
        let by_all = leans(found.of_any, found.read.low);
        let all = self.raising_link(self.auditor.floor, found.of_all, reader, value);
        raise_own(&mut self.own, &self.own_low, reader, by_own, own);
        raise_floor(&mut self.floor, &self.low, reader, by_all, all);
        self.auditor.end_read(reader, value, found);
        self.tally
            .read_ends(found.read.before, self.auditor.begun, value);
        self.count = count;
        Ok(())
    }

    // A read ends, and returned this value.
    fn read_ends(&mut self, reader: usize, value: u64, count: usize) -> Result<(), RegisterFault>
        requires { count ≡ suc self.old.count }
        ensures { RemembersEvent W.items R.items P.items C.items usize.MAX self.old (ReadEnds reader value) result
            self.new }
    {
        let Some(found) = self.auditor.found(reader, value) else {
            return Err(RegisterFault::OutOfTurn);
        };
        match reach_chains(&mut self.own, reader) {
            Ok(()) => self.end_read(reader, value, found, count),
            Err(_) => Err(RegisterFault::OutOfMemory),
        }
    }

    // Reads the next event.
    fn hear(&mut self, event: RegisterEvent) -> Result<(), RegisterFault>
        ensures { RemembersEvent W.items R.items P.items C.items usize.MAX self.old event result self.new }
    {
        let Some(count) = self.count.checked_add(1) else {
            return Err(RegisterFault::TooMany);
        };
        match event {
            RegisterEvent::WriteBegins(value) => self.write_begins(value, count),
            RegisterEvent::WriteEnds => self.write_ends(count),
            RegisterEvent::ReadBegins(reader) => self.read_begins(reader, count),
            RegisterEvent::ReadEnds(reader, value) => self.read_ends(reader, value, count),
        }
    }

    /// Reads the next event of the history, and returns the strongest class of the history with it, as [`RegisterAuditor::feed`] does.
    ///
    /// It returns `NoValue` only if the event begins a write of a number that is not a value of the register; `OutOfTurn` only if it
    /// writes no other number and begins an operation while one of its side is under way, or ends one that is not; `TooMany` only after
    /// `usize::MAX` events; and `OutOfMemory` if any of its lists has no room. A refused event changes nothing.
    pub fn feed(&mut self, event: RegisterEvent) -> Result<Option<Class>, RegisterFault>
        ensures hears { HearsAndRemembers W.items R.items P.items C.items usize.MAX self.old event result self.new }
    {
        match self.hear(event) {
            Ok(()) => Ok(self.auditor.class()),
            Err(fault) => Err(fault),
        }
    }

    /// Whether the history that it has read has the class.
    pub fn has(&self, class: Class) -> bool
        ensures { (h : List RegisterEvent) → RemembersRegister W.items R.items P.items C.items self.now h →
            IsTrue result ↔ HasClass class self.now.auditor.register h }
    {
        self.auditor.has(class)
    }

    /// The strongest class of the history that it has read, or `None` if the history is not safe.
    pub fn class(&self) -> Option<Class>
        ensures { (h : List RegisterEvent) → RemembersRegister W.items R.items P.items C.items self.now h →
            IsStrongest result self.now.auditor.register h }
    {
        self.auditor.class()
    }

    /// How much the history that it has read could have shown.
    pub fn report(&self) -> RegisterReport
        ensures { (h : List RegisterEvent) → RemembersRegister W.items R.items P.items C.items self.now h →
            result ≡ report_of h }
    {
        self.tally.report
    }

    /// Whether the history has the class, if this reader ends its read now with this value.
    pub fn has_with(&self, class: Class, reader: usize, value: u64) -> bool
        ensures { (h : List RegisterEvent) → RemembersRegister W.items R.items P.items C.items self.now h →
            IsWellFormed self.now.auditor.register (ReadEnds reader value ∷ h) →
            IsTrue result ↔ HasClass class self.now.auditor.register (ReadEnds reader value ∷ h) }
    {
        match self.auditor.found(reader, value) {
            Some(found) => self.auditor.has_with(class, value, &found),
            None => true,
        }
    }

    /// Whether the history keeps each class that it has so far with the end of this read.
    pub fn keeps_classes(&self, reader: usize, value: u64) -> bool
        ensures { (h : List RegisterEvent) → RemembersRegister W.items R.items P.items C.items self.now h →
            IsWellFormed self.now.auditor.register (ReadEnds reader value ∷ h) →
            IsTrue result ↔ ((class : Class) → HasClass class self.now.auditor.register h →
            HasClass class self.now.auditor.register (ReadEnds reader value ∷ h)) }
    {
        match self.auditor.found(reader, value) {
            Some(found) => self.auditor.keeps_with(value, &found),
            None => true,
        }
    }

    // The value that the register holds, if no write is under way.
    fn held(&self) -> u64
        ensures { result ≡ slice_index_or (W.items self.now.auditor.window) (self.now.auditor.begun - self.now.auditor.base) 0 }
    {
        match self
            .auditor
            .window
            .get(self.auditor.begun.saturating_sub(self.auditor.base))
        {
            Some(value) => *value,
            None => 0,
        }
    }

    // The reads that bound the read under way: by the reads of all readers for the class atomic, otherwise by its own.
    fn low_of(&self, class: Class, reader: usize) -> Chain
        ensures { result ≡ low_chain class (chain_at (C.items self.now.low) reader)
            (chain_at (C.items self.now.own_low) reader) }
    {
        match class {
            Class::Safe => chain_of(&self.own_low, reader),
            Class::Regular => chain_of(&self.own_low, reader),
            Class::AtomicByReader => chain_of(&self.own_low, reader),
            Class::Atomic => chain_of(&self.low, reader),
        }
    }

    // What contradicts the class, if the read under way of this reader ends now with this value of the register, by what it may be of.
    fn found_reason(
        &self,
        class: Class,
        reader: usize,
        value: u64,
        found: FoundWrites,
    ) -> MissReason<Chain>
        requires reading { (reader_at (R.items self.now.auditor.readers) reader).reading ≡ Some found.read }
        requires found { FindsWrites (W.items self.now.auditor.window) self.now.auditor.base self.now.auditor.begun value
            found }
        requires value { IsValue self.now.auditor.register value }
        ensures { (h : List RegisterEvent) → RemembersRegister W.items R.items P.items C.items self.now h →
            HasClass class self.now.auditor.register h →
            (HasClass class self.now.auditor.register (ReadEnds reader value ∷ h) → ⊥) →
            IsShownReason class self.now.auditor.register h reader value result }
    {
        match found.of_any {
            Some(_) => { MissReason::Inverted(self.low_of(class, reader)) }
            None => {
                if found.read.before == self.auditor.begun {
                    MissReason::Held {
                        value: self.held(),
                        since: self.ended,
                    }
                } else {
                    MissReason::NotWritten
                }
            }
        }
    }

    /// What contradicts the class, if this reader ends its read now with this value, and the history has the class so far and would
    /// then lose it.
    ///
    /// In the order of [`MissReason`], the first reason that there is.
    pub fn reason(&self, class: Class, reader: usize, value: u64) -> MissReason<Chain>
        ensures { (h : List RegisterEvent) → RemembersRegister W.items R.items P.items C.items self.now h →
            IsWellFormed self.now.auditor.register (ReadEnds reader value ∷ h) →
            HasClass class self.now.auditor.register h →
            (HasClass class self.now.auditor.register (ReadEnds reader value ∷ h) → ⊥) →
            IsShownReason class self.now.auditor.register h reader value result }
    {
        if !self.auditor.register.has_value(value) {
            return MissReason::NoValue;
        }
        match self.auditor.found(reader, value) {
            Some(found) => self.found_reason(class, reader, value, found),
            None => MissReason::NotWritten,
        }
    }
}
