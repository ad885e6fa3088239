//! What is known about a history so far, updated event by event.
ghost use Rattle.std.specs.Prelude.{◌≡◌, ℕ, ◌+◌, ◌<◌, ◌||◌, Bool, false, List, [], ◌∷◌, ◌++◌, Some, length, is_some, slice_index_or};
ghost use Rattle.bits_core.specs.declared.events.Bit.{Bit};
ghost use Rattle.bits_core.specs.declared.events.Event.{Event};
ghost use Rattle.bits_core.specs.declared.events.Access.TheVariants.{Read};
ghost use Rattle.bits_core.specs.declared.shapes.Shape.{Shape};
ghost use Rattle.bits_core.specs.Bits.{same_bit, first_value, value_written};
ghost use Rattle.bits_core.specs.History.{held, open_access};
ghost use Rattle.bits_core.specs.Steps.{MayFollow};
ghost use Rattle.bits_core.specs.Seen.{clashes, is_clash};
ghost use Rattle.bits_core.specs.Marks.{AreMarks, IsInTable, beside, is_read_of, side_mark, table_place, seat_of, settled, value_ended, with_mark, with_value};

use crate::events::{Access, Act, Bit, Event, Side};

/// The bits of the largest shape: 256 of each count, the close bit, and 64 cells of 64 digits.
const BIT_COUNT: usize = 4_609;

/// What is kept about a side: the access that it has open, and whether a write has overlapped it.
#[derive(Clone, Copy)]
pub(crate) struct SideMark {
    opened: Option<Access>,
    overlapped: bool,
}

/// What is kept of a history so far: the value of each bit, and a mark of each side. The value that
/// is being written to a bit is in the mark of its writer.
///
/// From them it is decided in constant time what may follow. They take no memory.
#[derive(Drop)]
pub(crate) struct Marks {
    values: [bool; BIT_COUNT],
    sides: [SideMark; 2],
}

// The mark of a side with nothing open.
const IDLE: SideMark = SideMark {
    opened: None,
    overlapped: false,
};

// The position of a bit's value in the table.
fn place(bit: Bit) -> usize
    requires { IsInTable bit }
    ensures at { result ≡ table_place bit }
    ensures within { result < BIT_COUNT }
{
    match bit {
        Bit::S(i) => usize::from(i),
        Bit::R(i) => 256 + usize::from(i),
        Bit::X => 512,
        Bit::Cell(j, i) => 513 + 64 * usize::from(j) + usize::from(i),
    }
}

// A table with no bit set.
fn no_values() -> [bool; BIT_COUNT]
    ensures size { length result ≡ BIT_COUNT }
    ensures unset { (k : ℕ) → k < BIT_COUNT → slice_index_or result k false ≡ false }
{
    [false; BIT_COUNT]
}

// The values before any event.
fn first_values() -> [bool; BIT_COUNT]
    ensures size { length result ≡ BIT_COUNT }
    ensures first { (b : Bit) → IsInTable b → slice_index_or result (table_place b) false ≡ first_value b }
{
    let mut values = no_values();
    values[0] = true;
    values[256] = true;
    values
}

// Gives the bit a value, if there is one.
fn write_value(values: &mut [bool; BIT_COUNT], bit: Bit, value: Option<bool>)
    requires { IsInTable bit }
    ensures { values.new ≡ with_value values.old bit value }
{
    match value {
        Some(value) => values[place(bit)] = value,
        None => {}
    }
}

// Whether the two bits are the same.
pub fn same_bit(a: Bit, b: Bit) -> bool
    ensures { result ≡ same_bit a b }
{
    match (a, b) {
        (Bit::S(i), Bit::S(j)) => i == j,
        (Bit::R(i), Bit::R(j)) => i == j,
        (Bit::X, Bit::X) => true,
        (Bit::Cell(j, i), Bit::Cell(l, k)) => j == l && i == k,
        _ => false,
    }
}

// The value that the access writes.
fn value_open(access: Option<Access>) -> Option<bool>
    ensures { result ≡ value_ended Act.WriteEnd access }
{
    match access {
        Some(Access::Write(_, value)) => Some(value),
        _ => None,
    }
}

// Whether the access is a write of the bit.
fn is_write_of(bit: Bit, access: Option<Access>) -> bool
    ensures { result ≡ is_some (value_written bit access) }
{
    match access {
        Some(Access::Write(written, _)) => same_bit(bit, written),
        _ => false,
    }
}

// Whether the access is a read of the bit.
fn is_read_of(bit: Bit, access: Option<Access>) -> bool
    ensures { result ≡ is_read_of bit access }
{
    match access {
        Some(Access::Read(read)) => same_bit(read, bit),
        _ => false,
    }
}

// Whether the two accesses are a read and a write of one bit.
fn is_clash(a: Option<Access>, b: Option<Access>) -> bool
    ensures { result ≡ is_clash a b }
{
    match (a, b) {
        (Some(Access::Read(read)), Some(Access::Write(written, _)))
        | (Some(Access::Write(written, _)), Some(Access::Read(read))) => same_bit(read, written),
        _ => false,
    }
}

impl SideMark {
    // The mark after the other side begins a write of the bit.
    fn beside(self, bit: Bit) -> SideMark
        ensures { result ≡ beside self bit }
    {
        SideMark {
            opened: self.opened,
            overlapped: self.overlapped || is_read_of(bit, self.opened),
        }
    }
}

// The index of a side's mark.
fn seat(side: Side) -> usize
    ensures at { result ≡ seat_of side }
    ensures within { result < 2 }
{
    match side {
        Side::P => 0,
        Side::C => 1,
    }
}

impl Marks {
    /// The marks of the history with no event.
    pub fn new() -> Marks
        ensures { (shape : Shape) → AreMarks shape [] result }
    {
        Marks {
            values: first_values(),
            sides: [IDLE, IDLE],
        }
    }

    // The mark of a side.
    fn of(&self, side: Side) -> SideMark
        ensures { result ≡ side_mark side self.now }
    {
        self.sides[seat(side)]
    }

    // Changes the mark of a side.
    fn set(&mut self, side: Side, mark: SideMark)
        ensures { self.new ≡ with_mark self.old side mark }
    {
        self.sides[seat(side)] = mark;
    }

    /// The access that the side has open.
    pub fn open_access(&self, side: Side) -> Option<Access>
        ensures mark { result ≡ (side_mark side self.now).opened }
        ensures access { (shape : Shape) (past : List Event) → AreMarks shape past self.now →
            result ≡ open_access side past }
    {
        self.of(side).opened
    }

    /// What the side's open read of the bit has to answer: what the bit held when the read began,
    /// or `None` if a write overlaps the read, since then it may answer anything.
    pub fn settled(&self, side: Side, bit: Bit) -> Option<bool>
        requires { IsInTable bit }
        ensures { (shape : Shape) (past : List Event) → AreMarks shape past self.now →
            open_access side past ≡ Some (Read bit) → result ≡ settled side bit past }
    {
        if self.of(side).overlapped {
            None
        } else {
            Some(self.values[place(bit)])
        }
    }

    /// What the bit holds: the value of the last write of it that ended, or if none has, its first value.
    pub fn held(&self, bit: Bit) -> bool
        requires { IsInTable bit }
        ensures { (shape : Shape) (past : List Event) → AreMarks shape past self.now → result ≡ held bit past }
    {
        self.values[place(bit)]
    }

    /// Whether one side has a read open, and the other a write of the same bit.
    pub fn clashes(&self) -> bool
        ensures { (shape : Shape) (past : List Event) → AreMarks shape past self.now → result ≡ clashes past }
    {
        is_clash(self.open_access(Side::P), self.open_access(Side::C))
    }

    /// Records one more event, which may follow.
    pub fn record(&mut self, event: Event)
        requires { IsInTable event.bit }
        ensures { (shape : Shape) (past : List Event) → AreMarks shape past self.old → MayFollow shape past event →
            AreMarks shape (past ++ event ∷ []) self.new }
    {
        let Event { side, bit, act } = event;
        match act {
            Act::ReadBegin => {
                let overlapped = is_write_of(bit, self.open_access(bit.writer()));
                self.set(
                    side,
                    SideMark {
                        opened: Some(Access::Read(bit)),
                        overlapped,
                    },
                );
            }
            Act::ReadEnd(_) => self.set(side, IDLE),
            Act::WriteBegin(value) => {
                let reader = bit.reader();
                self.set(reader, self.of(reader).beside(bit));
                self.set(
                    side,
                    SideMark {
                        opened: Some(Access::Write(bit, value)),
                        overlapped: false,
                    },
                );
            }
            Act::WriteEnd => {
                let value = value_open(self.open_access(side));
                write_value(&mut self.values, bit, value);
                self.set(side, IDLE);
            }
        }
    }
}
