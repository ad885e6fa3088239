//! Sides, bits, and the events of a history.

/// The two users of the bits: the producer `P` and the consumer `C`.
///
/// For example, `Bit::X` is written by `Side::P` and read by `Side::C`.
#[derive(Clone, Copy, PartialEq, Eq, Debug)]
pub enum Side {
    P,
    C,
}

/// A safe bit of a ring with one producer and one consumer.
///
/// Each bit has one writer and one reader. `S(i)` and `X` are written by the producer and read by
/// the consumer, and so is each `Cell(j, i)`; `R(i)` is written by the consumer and read by the
/// producer. At first `S(0)` and `R(0)` are 1, and all other bits are 0.
///
/// For example, in a trace `Bit::S(1)` is `s1`, and `Bit::Cell(0, 2)`, digit 2 of cell 0, is `c0.2`.
#[derive(Clone, Copy, PartialEq, Eq, Debug)]
pub enum Bit {
    /// Bit `i` of the producer's count.
    S(u8),
    /// Bit `i` of the consumer's count.
    R(u8),
    /// The close bit.
    X,
    /// `Cell(j, i)` is binary digit `i` of cell `j`, where digit 0 is the lowest.
    Cell(u8, u8),
}

impl Bit {
    ghost use Rattle.std.specs.Prelude.{◌≡◌};
    ghost use Rattle.bits_core.specs.Bits.{first_value, reader, writer};

    /// The one side that writes the bit: the consumer for `R`, else the producer.
    pub fn writer(self) -> Side
        ensures { result ≡ writer self }
    {
        match self {
            Bit::R(_) => Side::C,
            Bit::S(_) | Bit::X | Bit::Cell(_, _) => Side::P,
        }
    }

    /// The one side that reads the bit: the producer for `R`, else the consumer.
    pub fn reader(self) -> Side
        ensures { result ≡ reader self }
    {
        match self.writer() {
            Side::P => Side::C,
            Side::C => Side::P,
        }
    }

    /// The bit's value before any write: 1 for `S(0)` and `R(0)`, else 0.
    pub fn first_value(self) -> bool
        ensures { result ≡ first_value self }
    {
        match self {
            Bit::S(i) | Bit::R(i) => i == 0,
            Bit::X | Bit::Cell(_, _) => false,
        }
    }
}

/// What an event does to its bit.
///
/// For example, in a trace `WriteBegin(true)` is `write` with the value `1`, `ReadEnd(false)` is `got` with the
/// answer `0`.
#[derive(Clone, Copy, PartialEq, Eq, Debug)]
pub enum Act {
    /// A read begins.
    ReadBegin,
    /// The read ends with this answer.
    ReadEnd(bool),
    /// A write of this value begins.
    WriteBegin(bool),
    /// The write ends.
    WriteEnd,
}

/// The start or the end of one access to one bit by one side.
///
/// For example, `C got s1 0` in a trace is `Event { side: Side::C, bit: Bit::S(1), act: Act::ReadEnd(false) }`.
#[derive(Clone, Copy, PartialEq, Eq, Debug)]
pub struct Event {
    pub side: Side,
    pub bit: Bit,
    pub act: Act,
}

/// What an access does: it reads a bit, or writes a value to it.
///
/// For example, `Access::Write(Bit::S(1), true).opening(Side::P)` is the event `P write s1 1`.
#[derive(Clone, Copy, PartialEq, Eq, Debug)]
pub enum Access {
    Read(Bit),
    Write(Bit, bool),
}

impl Access {
    ghost use Rattle.std.specs.Prelude.{◌≡◌};
    ghost use Rattle.bits_core.specs.Made.{opening_event};

    /// The event with which a side begins the access.
    pub fn opening(self, side: Side) -> Event
        ensures { result ≡ opening_event side self }
    {
        match self {
            Access::Read(bit) => Event {
                side,
                bit,
                act: Act::ReadBegin,
            },
            Access::Write(bit, value) => Event {
                side,
                bit,
                act: Act::WriteBegin(value),
            },
        }
    }
}
