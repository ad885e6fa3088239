//! Writing the text of a trace.
ghost use Rattle.std.specs.Prelude.{◌≡◌, ◌≤◌, ◌++◌, OnOk, IfOk, IfErr, codes, decimal, length, string_bytes};
ghost use Rattle.std.specs.List.{flat_map};
ghost use Rattle.bits_core.specs.Shape.{AreOfShape, batch_of, capacity_of, modulus_of, take_batch_of, width_of};
ghost use Rattle.trace_text.specs.Trace.{IsTrace};
ghost use Rattle.trace_text.specs.TraceText.{act_text, batch_text, batches_text, bit_text, event_line, shape_line, side_text, trace_text, value_text};

use crate::faults::TraceFault;
use crate::traces::EVENT_LIMIT;
use bits_core::{Act, Bit, Event, Shape, Side};
use itoa::Buffer;
use std::alloc::Allocator;

fn side_word(side: Side) -> &'static str
    ensures { result.now ≡ side_text side }
{
    match side {
        Side::P => "P ",
        Side::C => "C ",
    }
}

fn act_word(act: Act) -> &'static str
    ensures { result.now ≡ act_text act }
{
    match act {
        Act::ReadBegin => "read ",
        Act::ReadEnd(_) => "got ",
        Act::WriteBegin(_) => "write ",
        Act::WriteEnd => "wrote ",
    }
}

// The value that an act returns or writes, after a space, if it has one.
fn value_word(act: Act) -> &'static str
    ensures { result.now ≡ value_text act }
{
    match act {
        Act::ReadBegin | Act::WriteEnd => "",
        Act::ReadEnd(value) | Act::WriteBegin(value) => { if value { " 1" } else { " 0" } }
    }
}

// Appends a word to a text; running out of memory is a fault of the trace's text.
fn push_text<A: Allocator>(text: &mut String<A>, word: &str) -> Result<(), TraceFault>
    ensures ok { OnOk result (string_bytes text.new ≡ string_bytes text.old ++ word.now) }
    ensures err { IfErr result (λ e. e ≡ TraceFault.OutOfMemory) }
{
    Ok(text.push_str(word)?)
}

// A text, and a number after it.
fn push_numbered<A: Allocator>(
    text: &mut String<A>,
    word: &str,
    number: u64,
) -> Result<(), TraceFault>
    ensures ok { OnOk result (string_bytes text.new ≡ string_bytes text.old ++ (word.now ++ decimal number)) }
    ensures err { IfErr result (λ e. e ≡ TraceFault.OutOfMemory) }
{
    push_text(text, word)?;
    let mut buffer = Buffer::new();
    push_text(text, buffer.format(number))
}

fn push_bit<A: Allocator>(text: &mut String<A>, bit: Bit) -> Result<(), TraceFault>
    ensures ok { OnOk result (string_bytes text.new ≡ string_bytes text.old ++ bit_text bit) }
    ensures err { IfErr result (λ e. e ≡ TraceFault.OutOfMemory) }
{
    match bit {
        Bit::S(index) => push_numbered(text, "s", u64::from(index)),
        Bit::R(index) => push_numbered(text, "r", u64::from(index)),
        Bit::X => push_text(text, "x"),
        Bit::Cell(cell, digit) => {
            push_numbered(text, "c", u64::from(cell))?;
            push_numbered(text, ".", u64::from(digit))
        }
    }
}

/// Appends the line of an event to a text, such as `P write c0.1 1` and a line feed.
///
/// The only fault is `OutOfMemory`; a prefix of the line may then have been appended.
///
/// In use: `lamport_ring audit --why`, which prints the events that were due.
pub fn push_event<A: Allocator>(text: &mut String<A>, event: Event) -> Result<(), TraceFault>
    ensures ok { OnOk result (string_bytes text.new ≡ string_bytes text.old ++ event_line event) }
    ensures err { IfErr result (λ e. e ≡ TraceFault.OutOfMemory) }
{
    push_text(text, side_word(event.side))?;
    push_text(text, act_word(event.act))?;
    push_bit(text, event.bit)?;
    push_text(text, value_word(event.act))?;
    push_text(text, "\n")
}

// A batch after a space, if it is not 1.
#[tactic(auto, unfolding(crate::specs::TraceText::batch_text))]
fn push_batch<A: Allocator>(text: &mut String<A>, batch: u64) -> Result<(), TraceFault>
    ensures ok { OnOk result (string_bytes text.new ≡ string_bytes text.old ++ batch_text batch) }
    ensures err { IfErr result (λ e. e ≡ TraceFault.OutOfMemory) }
{
    if batch == 1 {
        return Ok(());
    }
    push_numbered(text, " ", batch)
}

// Both batches, each after a space, if the take batch is not 1; otherwise the batch alone, if it is not 1.
#[tactic(auto, unfolding(crate::specs::TraceText::batches_text))]
fn push_batches<A: Allocator>(
    text: &mut String<A>,
    batch: u64,
    take_batch: u64,
) -> Result<(), TraceFault>
    ensures ok { OnOk result (string_bytes text.new ≡ string_bytes text.old ++ batches_text batch take_batch) }
    ensures err { IfErr result (λ e. e ≡ TraceFault.OutOfMemory) }
{
    if take_batch == 1 {
        return push_batch(text, batch);
    }
    push_numbered(text, " ", batch)?;
    push_numbered(text, " ", take_batch)
}

// Both batches, and the end of the line.
fn push_last<A: Allocator>(
    text: &mut String<A>,
    batch: u64,
    take_batch: u64,
) -> Result<(), TraceFault>
    ensures ok { OnOk result (string_bytes text.new ≡ string_bytes
        text.old ++ (batches_text batch take_batch ++ codes "\n")) }
    ensures err { IfErr result (λ e. e ≡ TraceFault.OutOfMemory) }
{
    push_batches(text, batch, take_batch)?;
    push_text(text, "\n")
}

fn push_shape<A: Allocator>(text: &mut String<A>, shape: &Shape) -> Result<(), TraceFault>
    ensures ok { OnOk result (string_bytes text.new ≡ string_bytes text.old ++ shape_line (capacity_of shape.now)
        (modulus_of shape.now) (width_of shape.now) (batch_of shape.now) (take_batch_of shape.now)) }
    ensures err { IfErr result (λ e. e ≡ TraceFault.OutOfMemory) }
{
    push_numbered(text, "shape ", shape.capacity())?;
    push_numbered(text, " ", shape.modulus())?;
    push_numbered(text, " ", shape.width())?;
    push_last(text, shape.batch(), shape.take_batch())
}

/// The text of a trace: the line of the shape, and the line of each event, whose bits are all of
/// the shape (`Shape::has`).
///
/// The only fault is `OutOfMemory`. A text of at most `EVENT_LIMIT` events is read again as this
/// shape and these events, and the text that is written for what was read is the text that was read.
///
/// In use: `lamport_ring play --trace`.
pub fn write_trace<A: Allocator>(
    alloc: A,
    shape: &Shape,
    events: &[Event],
) -> Result<String<A>, TraceFault>
    requires of_shape { AreOfShape shape.now events.now }
    ensures text { IfOk result (λ text. string_bytes text ≡ trace_text shape.now events.now) }
    ensures again { IfOk result (λ text. length events.now ≤ EVENT_LIMIT →
        IsTrace (string_bytes text) shape.now events.now) }
    ensures memory { IfErr result (λ e. e ≡ TraceFault.OutOfMemory) }
{
    let mut text = String::new(alloc);
    push_shape(&mut text, shape)?;
    for event in events {
        push_event(&mut text, *event)?;
    }
    Ok(text)
}
