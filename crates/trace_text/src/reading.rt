//! The parts of a trace's lines, each read from the front of the bytes.
ghost use Rattle.std.specs.Prelude.{◌≡◌, option_map};
ghost use Rattle.trace_text.specs.TraceReading.{act_at, batches_at, bit_at, cell_at, digit_at, event_at, index_at, shape_at, short_number_at, side_at, take_batch_at, word_at};

use bits_core::{Act, Bit, Event, Side};
use line_parts::{after, number_at};

/// What the word of a line says of the access.
#[derive(Clone, Copy)]
pub(crate) enum ActWord {
    Read,
    Got,
    Write,
    Wrote,
}

/// The numbers of a trace's first line; each batch is 1 if the line names none.
#[derive(Clone, Copy)]
pub(crate) struct Numbers {
    pub capacity: u64,
    pub modulus: u64,
    pub width: u64,
    pub batch: u64,
    pub take_batch: u64,
}

fn side_at(bytes: &[u8]) -> Option<(Side, &[u8])>
    ensures { option_map (λ x. (x.0, x.1.now)) result ≡ side_at bytes.now }
{
    if let Some(rest) = after(bytes, "P ") {
        return Some((Side::P, rest));
    }
    let rest = after(bytes, "C ")?;
    Some((Side::C, rest))
}

fn word_at(bytes: &[u8]) -> Option<(ActWord, &[u8])>
    ensures { option_map (λ x. (x.0, x.1.now)) result ≡ word_at bytes.now }
{
    if let Some(rest) = after(bytes, "read ") {
        return Some((ActWord::Read, rest));
    }
    if let Some(rest) = after(bytes, "got ") {
        return Some((ActWord::Got, rest));
    }
    if let Some(rest) = after(bytes, "write ") {
        return Some((ActWord::Write, rest));
    }
    let rest = after(bytes, "wrote ")?;
    Some((ActWord::Wrote, rest))
}

fn digit_at(bytes: &[u8]) -> Option<(bool, &[u8])>
    ensures { option_map (λ x. (x.0, x.1.now)) result ≡ digit_at bytes.now }
{
    if let Some(rest) = after(bytes, " 0") {
        return Some((false, rest));
    }
    let rest = after(bytes, " 1")?;
    Some((true, rest))
}

// A number of at most four digits, in its one form.
#[tactic(auto, unfolding(crate::specs::TraceReading::short_number_at))]
fn short_number_at(bytes: &[u8]) -> Option<(u64, &[u8])>
    ensures { option_map (λ x. (x.0, x.1.now)) result ≡ short_number_at bytes.now }
{
    let (number, rest) = number_at(bytes)?;
    if number < 10_000 {
        Some((number, rest))
    } else {
        None
    }
}

#[tactic(auto, unfolding(crate::specs::TraceReading::index_at))]
fn index_at(bytes: &[u8]) -> Option<(u8, &[u8])>
    ensures { option_map (λ x. (x.0, x.1.now)) result ≡ index_at bytes.now }
{
    let (number, rest) = number_at(bytes)?;
    match u8::try_from(number) {
        Ok(index) => Some((index, rest)),
        Err(_) => None,
    }
}

#[tactic(auto, unfolding(crate::specs::TraceReading::cell_at))]
fn cell_at(bytes: &[u8]) -> Option<(Bit, &[u8])>
    ensures { option_map (λ x. (x.0, x.1.now)) result ≡ cell_at bytes.now }
{
    let (cell, rest) = index_at(bytes)?;
    let rest = after(rest, ".")?;
    let (digit, rest) = index_at(rest)?;
    Some((Bit::Cell(cell, digit), rest))
}

#[tactic(auto, unfolding(crate::specs::TraceReading::bit_at))]
fn bit_at(bytes: &[u8]) -> Option<(Bit, &[u8])>
    ensures { option_map (λ x. (x.0, x.1.now)) result ≡ bit_at bytes.now }
{
    let (letter, rest) = bytes.split_first()?;
    match *letter {
        b's' => {
            let (index, rest) = index_at(rest)?;
            Some((Bit::S(index), rest))
        }
        b'r' => {
            let (index, rest) = index_at(rest)?;
            Some((Bit::R(index), rest))
        }
        b'x' => Some((Bit::X, rest)),
        b'c' => cell_at(rest),
        _ => None,
    }
}

#[tactic(auto, unfolding(crate::specs::TraceReading::act_at))]
fn act_at(word: ActWord, bytes: &[u8]) -> Option<(Act, &[u8])>
    ensures { option_map (λ x. (x.0, x.1.now)) result ≡ act_at word bytes.now }
{
    match word {
        ActWord::Read => Some((Act::ReadBegin, bytes)),
        ActWord::Got => {
            let (value, rest) = digit_at(bytes)?;
            Some((Act::ReadEnd(value), rest))
        }
        ActWord::Write => {
            let (value, rest) = digit_at(bytes)?;
            Some((Act::WriteBegin(value), rest))
        }
        ActWord::Wrote => Some((Act::WriteEnd, bytes)),
    }
}

/// The event whose line is at the front, and the bytes after the line.
#[tactic(auto, unfolding(crate::specs::TraceReading::event_at))]
pub fn event_at(bytes: &[u8]) -> Option<(Event, &[u8])>
    ensures { option_map (λ x. (x.0, x.1.now)) result ≡ event_at bytes.now }
{
    let (side, rest) = side_at(bytes)?;
    let (word, rest) = word_at(rest)?;
    let (bit, rest) = bit_at(rest)?;
    let (act, rest) = act_at(word, rest)?;
    let rest = after(rest, "\n")?;
    Some((Event { side, bit, act }, rest))
}

// The take batch and the end of the first line, after the batch: 1 if the line ends, and then the batch is not 1;
// otherwise a number other than 1.
#[tactic(auto, unfolding(crate::specs::TraceReading::take_batch_at))]
fn take_batch_at(batch: u64, bytes: &[u8]) -> Option<(u64, &[u8])>
    ensures { option_map (λ x. (x.0, x.1.now)) result ≡ take_batch_at batch bytes.now }
{
    if let Some(rest) = after(bytes, "\n") {
        if batch != 1 {
            return Some((1, rest));
        }
    }
    let rest = after(bytes, " ")?;
    let (take_batch, rest) = short_number_at(rest)?;
    let rest = after(rest, "\n")?;
    if take_batch == 1 {
        None
    } else {
        Some((take_batch, rest))
    }
}

// Both batches and the end of the first line: 1 and 1 if the line ends.
#[tactic(auto, unfolding(crate::specs::TraceReading::batches_at))]
fn batches_at(bytes: &[u8]) -> Option<((u64, u64), &[u8])>
    ensures { option_map (λ x. (x.0, x.1.now)) result ≡ batches_at bytes.now }
{
    if let Some(rest) = after(bytes, "\n") {
        return Some(((1, 1), rest));
    }
    let rest = after(bytes, " ")?;
    let (batch, rest) = short_number_at(rest)?;
    let (take_batch, rest) = take_batch_at(batch, rest)?;
    Some(((batch, take_batch), rest))
}

/// The numbers of the first line, and the bytes after it.
#[tactic(auto, unfolding(crate::specs::TraceReading::shape_at))]
pub fn shape_at(bytes: &[u8]) -> Option<(Numbers, &[u8])>
    ensures { option_map (λ x. (x.0, x.1.now)) result ≡ shape_at bytes.now }
{
    let rest = after(bytes, "shape ")?;
    let (capacity, rest) = short_number_at(rest)?;
    let rest = after(rest, " ")?;
    let (modulus, rest) = short_number_at(rest)?;
    let rest = after(rest, " ")?;
    let (width, rest) = short_number_at(rest)?;
    let ((batch, take_batch), rest) = batches_at(rest)?;
    let numbers = Numbers {
        capacity,
        modulus,
        width,
        batch,
        take_batch,
    };
    Some((numbers, rest))
}
