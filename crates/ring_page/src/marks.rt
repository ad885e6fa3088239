//! Events as numbers.
ghost use Rattle.std.specs.Prelude.{◌≡◌, ℕ, ◌<◌, ◌≤◌, List, length, Some, slice_get};
ghost use Rattle.bits_core.specs.declared.events.Event.{Event};
ghost use Rattle.bits_core.specs.declared.audits.Seen.{Seen};
ghost use Rattle.ring_page.specs.Marks.{ArePut, act_number, bit_number, digit_of, index_of, mark_of, row_of, side_number, value_of};

use bits_core::{Act, Bit, Event, Seen, Side};

/// An event, and what is seen there.
#[repr(C)]
#[derive(Clone, Copy, PartialEq, Eq, Debug)]
pub struct Mark {
    /// 0 for the producer, 1 for the consumer.
    pub side: u8,
    /// 0 for the bits s, 1 for r, 2 for x, 3 for those of cells.
    pub row: u8,
    /// The number of the bit in its row, or of its cell.
    pub index: u8,
    /// The digit of the cell.
    pub digit: u8,
    /// 0 a read begins, 1 it ends, 2 a write begins, 3 it ends.
    pub act: u8,
    /// The answer, or the value that is written.
    pub value: bool,
    /// What the bit holds just after the event.
    pub held: bool,
    /// A read ends here that a write of its bit overlapped, so any answer was permitted.
    pub overlapped: bool,
    /// Just after the event one side has a read open, and the other a write of the same bit.
    pub clashes: bool,
}

fn side_number(side: Side) -> u8
    ensures { result ≡ side_number side }
{
    match side {
        Side::P => 0,
        Side::C => 1,
    }
}

/// The number of the bit's row.
pub fn row_of(bit: Bit) -> u8
    ensures { result ≡ row_of bit }
{
    match bit {
        Bit::S(_) => 0,
        Bit::R(_) => 1,
        Bit::X => 2,
        Bit::Cell(_, _) => 3,
    }
}

/// The number of the bit in its row.
pub fn index_of(bit: Bit) -> u8
    ensures { result ≡ index_of bit }
{
    match bit {
        Bit::S(i) | Bit::R(i) => i,
        Bit::X => 0,
        Bit::Cell(j, _) => j,
    }
}

/// The digit, for a cell's bit.
pub fn digit_of(bit: Bit) -> u8
    ensures { result ≡ digit_of bit }
{
    match bit {
        Bit::Cell(_, i) => i,
        Bit::S(_) | Bit::R(_) | Bit::X => 0,
    }
}

/// The number of the act.
pub fn act_number(act: Act) -> u8
    ensures { result ≡ act_number act }
{
    match act {
        Act::ReadBegin => 0,
        Act::ReadEnd(_) => 1,
        Act::WriteBegin(_) => 2,
        Act::WriteEnd => 3,
    }
}

/// Its value.
pub fn value_of(act: Act) -> bool
    ensures { result ≡ value_of act }
{
    match act {
        Act::ReadEnd(value) | Act::WriteBegin(value) => value,
        Act::ReadBegin | Act::WriteEnd => false,
    }
}

/// 1 for true.
pub fn bit_number(value: bool) -> u64
    ensures { result ≡ bit_number value }
{
    if value { 1 } else { 0 }
}

fn mark_of(event: Event, seen: Seen) -> Mark
    ensures { result ≡ mark_of event seen }
{
    Mark {
        side: side_number(event.side),
        row: row_of(event.bit),
        index: index_of(event.bit),
        digit: digit_of(event.bit),
        act: act_number(event.act),
        value: value_of(event.act),
        held: seen.held,
        overlapped: seen.overlapped,
        clashes: seen.clashes,
    }
}

/// Writes the marks of the events, as many as there is room for.
pub fn put_marks(events: &[Event], seen: &[Seen], marks: &mut [Mark])
    requires { length events.now ≤ length seen.now }
    ensures { ArePut events.now seen.now marks.new }
{
    for i in 0..events.len().min(marks.len()) {
        marks[i] = mark_of(events[i], seen[i]);
    }
}
