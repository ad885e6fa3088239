//! A register, the events of its history, and the classes that a history may have.
ghost use Rattle.std.specs.Prelude.{◌≡◌, ◌↔◌, IsTrue};
ghost use Rattle.register_calls.specs.Histories.{IsValue};
ghost use Rattle.register_calls.specs.Findings.{is_at_least};

/// A register: what it holds before the first write, and how many values it has.
///
/// For example, `register 0 4` in a recording is a register of the values 0 to 3 that initially holds 0.
#[derive(Clone, Copy, PartialEq, Eq, Debug)]
pub struct Register {
    /// What it holds before the first write.
    pub first: u64,
    /// Its values are the numbers below this; `None` if every number is a value.
    pub values: Option<u64>,
}

impl Register {
    /// Whether the number is a value of the register.
    pub fn has_value(&self, value: u64) -> bool
        ensures { IsTrue result ↔ IsValue self.now value }
    {
        match self.values {
            None => true,
            Some(values) => value < values,
        }
    }
}

/// An event of a history of a register: the writer begins or ends a write, or a reader begins or ends a read. The readers are
/// numbered.
///
/// For example, `RegisterEvent::ReadEnds(0, 7)` is what `R1 got 7` records: the first reader is number 0 here.
#[derive(Clone, Copy, PartialEq, Eq, Debug)]
pub enum RegisterEvent {
    /// A write of this value begins.
    WriteBegins(u64),
    /// The write ends.
    WriteEnds,
    /// A read by this reader begins.
    ReadBegins(usize),
    /// The read by this reader ends, and returned this value.
    ReadEnds(usize, u64),
}

/// A class of registers, from the weakest to the strongest (Lamport 1986). A history has a class if a register of the class may
/// have it.
#[derive(Clone, Copy, PartialEq, Eq, Debug)]
pub enum Class {
    /// Each read returns a value of the register, and one that no write overlaps returns the value of the last write.
    Safe,
    /// Each read returns the value of the last write before it, or of one that overlaps it.
    Regular,
    /// Moreover each reader alone sees the writes in order. This is not a class of Lamport's: it is what a test with one reader
    /// can see of an atomic register.
    AtomicByReader,
    /// Moreover all readers together see the writes in order: of two reads, one of which ended before the other began, the later
    /// one returns the value of the same write or of a later one.
    Atomic,
}

impl Class {
    /// Whether it is the other class, or a stronger one.
    pub fn is_at_least(self, other: Class) -> bool
        ensures { result ≡ is_at_least self other }
    {
        match (self, other) {
            (_, Class::Safe) => true,
            (Class::Safe, _) => false,
            (_, Class::Regular) => true,
            (Class::Regular, _) => false,
            (_, Class::AtomicByReader) => true,
            (Class::AtomicByReader, Class::Atomic) => false,
            (Class::Atomic, Class::Atomic) => true,
        }
    }
}
