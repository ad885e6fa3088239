//! A memory of safe bits.
ghost use Rattle.std.specs.Prelude.{◌≡◌, ◌≤◌, ◌↔◌, ℕ, ◌+◌, Bool, true, false, if◌then◌else◌, OnOk, OnErr, IfOk, IfSome, IsSome, None, [], length, unwrap_or};
ghost use Rattle.bits_core.specs.Bits.{reader, writer};
ghost use Rattle.bits_core.specs.Shape.{AreOfShape, belongs};
ghost use Rattle.bits_core.specs.History.{open_access, is_overlapped, held_at_begin};
ghost use Rattle.bits_core.specs.Lawful.{IsLawful};
ghost use Rattle.bits_core.specs.Memory.{EndsOverlappedRead, ends_read, flicker_count, held_for_read, is_read_overlapped, open_bit, unused, with_answer, with_event};
ghost use Rattle.bits_core.specs.Open.{IsOpenRight, IsReading, IsWriting};
ghost use Rattle.bits_core.specs.Steps.{MayFollow};

use crate::events::{Access, Act, Bit, Event, Side};
use crate::faults::MemoryFault;
use crate::marks::Marks;
use crate::oracles::Oracle;
use crate::shapes::Shape;
use lists::Store;
use std::alloc::Allocator;
use std::fmt;
use std::marker::Model;

/// The safe bits of a shape, with the recorded history of the accesses to them (Lamport, 1986).
///
/// Two sides begin and end reads and writes. A read that a write of its bit overlaps returns whatever
/// an oracle says; any other read returns the value that the bit held when it began. Each history that
/// a memory makes is lawful. The value of each bit and every overlap are known from marks, which are
/// updated with each event. The history is kept in a store that the caller chooses.
///
/// In use: `uses::by_hand::put_by_hand`.
#[derive(Drop)]
pub struct Memory<S: Store<Event>> {
    shape: Shape,
    events: S,
    marks: Marks,
    flickers: u64,
}

impl<S: Store<Event>> Model for Memory<S> {
    ghost use Rattle.bits_core.specs.Marks.{AreMarks};
    ghost use Rattle.bits_core.specs.Memory.{MemoryState, IsRecord};

    ghost Value = { MemoryState };

    ghost view = { λ m. record {
      shape = m.shape;
      events = S.items m.events;
      flickers = m.flickers;
      room = S.room m.events;
    } };

    ghost invariant = { λ m. IsRecord m.shape (S.items m.events) m.flickers ×
        AreMarks m.shape (S.items m.events) m.marks };
}

impl<S: Store<Event>> fmt::Debug for Memory<S> {
    /// The shape, the history and the number of flickers.
    fn fmt<W: fmt::Write>(&self, f: &mut fmt::Formatter<W>) -> fmt::Result {
        let shape = self.shape;
        let events = self.events.as_slice();
        let flickers = self.flickers;
        write!(
            f,
            "Memory {{ shape: {shape:?}, events: {events:?}, flickers: {flickers} }}"
        )
    }
}

impl<A: Allocator> Memory<Vec<Event, A>> {
    /// A memory with no event yet. It takes memory from this allocator, none of it at first.
    pub fn new(alloc: A, shape: Shape) -> Memory<Vec<Event, A>>
        ensures { result ≡ unused shape 0 }
    {
        Memory::over(Vec::new(alloc), shape)
    }
}

impl<S: Store<Event>> Memory<S> {
    /// A memory with no event yet, whose history grows in this store, which is empty.
    pub fn over(events: S, shape: Shape) -> Memory<S>
        requires { S.items events ≡ [] }
        ensures { result ≡ unused shape (S.room events) }
    {
        Memory {
            shape,
            events,
            marks: Marks::new(),
            flickers: 0,
        }
    }

    /// The shape whose bits these are.
    pub fn shape(&self) -> Shape
        ensures { result ≡ self.now.shape }
    {
        self.shape
    }

    /// The history so far.
    pub fn events(&self) -> &[Event]
        ensures events { result.now ≡ self.now.events }
        ensures lawful { IsLawful self.now.shape self.now.events }
        ensures of_shape { AreOfShape self.now.shape result.now }
    {
        self.events.as_slice()
    }

    /// The history. It takes no memory.
    pub fn into_events(self) -> S
        ensures events { S.items result ≡ self.events }
        ensures lawful { IsLawful self.shape self.events }
        ensures of_shape { AreOfShape self.shape (S.items result) }
    {
        let Memory {
            shape: _,
            events,
            marks: _,
            flickers: _,
        } = self;
        events
    }

    /// The access that the side has open. It is of a bit of the shape, and the side is its reader or writer.
    pub fn pending(&self, side: Side) -> Option<Access>
        ensures access { result ≡ open_access side self.now.events }
        ensures right { IfSome result (IsOpenRight self.now.shape side) }
    {
        self.marks.open_access(side)
    }

    /// How many reads that a write overlapped have ended, which is how many answers were asked of oracles.
    pub fn flickers(&self) -> u64
        ensures value { result ≡ self.now.flickers }
        ensures counted { result ≡ flicker_count self.now.events }
    {
        self.flickers
    }

    // Adds an event that ends no read.
    fn record(&mut self, side: Side, bit: Bit, act: Act) -> Result<(), MemoryFault>
        requires follows { MayFollow self.old.shape self.old.events (record { side = side; bit = bit; act = act }) }
        requires quiet { ends_read act ≡ false }
        ensures ok { OnOk result (self.new ≡ with_event self.old side bit act) }
        ensures err { OnErr result (self.new ≡ self.old) }
        ensures full { OnErr result (self.old.room ≤ length self.old.events) }
    {
        let event = Event { side, bit, act };
        self.events.reserve()?;
        self.events.add(event);
        self.marks.record(event);
        Ok(())
    }

    /// Begins a read of a bit of the shape by its reader, which has no access open.
    ///
    /// `OutOfMemory` leaves everything unchanged.
    pub fn begin_read(&mut self, side: Side, bit: Bit) -> Result<(), MemoryFault>
        requires in_shape { belongs self.old.shape bit ≡ true }
        requires by_reader { side ≡ reader bit }
        requires none_open { open_access side self.old.events ≡ None }
        ensures ok { OnOk result (self.new ≡ with_event self.old side bit Act.ReadBegin) }
        ensures err { OnErr result (self.new ≡ self.old) }
        ensures full { OnErr result (self.old.room ≤ length self.old.events) }
    {
        self.record(side, bit, Act::ReadBegin)
    }

    /// Begins a write of a value to a bit of the shape by its writer, which has no access open. The
    /// bit holds the value when the write has ended.
    ///
    /// `OutOfMemory` leaves everything unchanged.
    pub fn begin_write(&mut self, side: Side, bit: Bit, value: bool) -> Result<(), MemoryFault>
        requires in_shape { belongs self.old.shape bit ≡ true }
        requires by_writer { side ≡ writer bit }
        requires none_open { open_access side self.old.events ≡ None }
        ensures ok { OnOk result (self.new ≡ with_event self.old side bit (Act.WriteBegin value)) }
        ensures err { OnErr result (self.new ≡ self.old) }
        ensures full { OnErr result (self.old.room ≤ length self.old.events) }
    {
        self.record(side, bit, Act::WriteBegin(value))
    }

    /// Ends the write that the side has open.
    ///
    /// `OutOfMemory` leaves everything unchanged, and the write open.
    pub fn end_write(&mut self, side: Side) -> Result<(), MemoryFault>
        requires open { IsWriting (open_access side self.old.events) }
        ensures ok { OnOk result (self.new ≡ with_event self.old side (open_bit side self.old.events) Act.WriteEnd) }
        ensures err { OnErr result (self.new ≡ self.old) }
        ensures full { OnErr result (self.old.room ≤ length self.old.events) }
    {
        match self.pending(side) {
            Some(Access::Write(bit, _)) => self.record(side, bit, Act::WriteEnd),
            _ => unreachable!(),
        }
    }

    /// Ends the read that the side has open, and returns its answer.
    ///
    /// If a write of the bit overlapped the read, the oracle is asked once and its answer returned.
    /// Otherwise the answer is the value that the bit held when the read began, and the oracle is
    /// not asked. `OutOfMemory` leaves everything unchanged, the read open and the oracle not
    /// asked.
    pub fn end_read<O: Oracle>(&mut self, side: Side, oracle: &mut O) -> Result<bool, MemoryFault>
        requires open { IsReading (open_access side self.old.events) }
        ensures ok { IfOk result (λ v. self.new ≡ with_answer self.old side v) }
        ensures answer { IfOk result (λ v. v ≡ (if is_read_overlapped side self.old.events then O.answers oracle.old 0
            else held_for_read side self.old.events)) }
        ensures asked { OnOk result (is_read_overlapped side self.old.events ≡ true → (i : ℕ) →
            O.answers oracle.new i ≡ O.answers oracle.old (i + 1)) }
        ensures not_asked { is_read_overlapped side self.old.events ≡ false → oracle.new ≡ oracle.old }
        // It was overlapped exactly when the read that ends here was, by the intervals of the history.
        ensures overlap { OnOk result ((is_read_overlapped side self.old.events ≡ true) ↔
            EndsOverlappedRead self.new.events (length self.old.events)) }
        ensures err { OnErr result ((self.new ≡ self.old) × (oracle.new ≡ oracle.old)) }
        ensures full { OnErr result (self.old.room ≤ length self.old.events) }
    {
        match self.pending(side) {
            Some(Access::Read(bit)) => {
                self.events.reserve()?;
                let settled = self.marks.settled(side, bit);
                let answer = read_answer(settled, oracle);
                let event = Event {
                    side,
                    bit,
                    act: Act::ReadEnd(answer),
                };
                self.events.add(event);
                self.marks.record(event);
                event_count(&self.events);
                self.flickers += u64::from(settled.is_none());
                Ok(answer)
            }
            _ => unreachable!(),
        }
    }
}

// The number of events, which is therefore less than a `usize` can hold.
fn event_count<S: Store<Event>>(events: &S) -> usize
    ensures { result ≡ length (S.items events.now) }
{
    events.as_slice().len()
}

// The answer of a read: the settled one, or if there is none, the oracle's.
fn read_answer<O: Oracle>(settled: Option<bool>, oracle: &mut O) -> bool
    ensures value { result ≡ unwrap_or settled (O.answers oracle.old 0) }
    ensures asked { settled ≡ None → (i : ℕ) → O.answers oracle.new i ≡ O.answers oracle.old (i + 1) }
    ensures not_asked { IsSome settled → oracle.new ≡ oracle.old }
{
    match settled {
        Some(held) => held,
        None => oracle.answer(),
    }
}
