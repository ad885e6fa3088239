//! A line of the text of a recorded register.
ghost use Rattle.std.specs.Prelude.{◌≡◌, ◌↔◌, ◌≤◌, IsTrue, None, IfSome, length};
ghost use Rattle.register_lines.specs.Lines.{AllowsNumbers, IsRegisterLine};
ghost use Rattle.register_lines.specs.LineReading.{line_at, reader_line, writer_line, register_line, cut_register_line, register_numbers, last_number};
ghost use Rattle.register_lines.specs.declared.lines.RegisterLine.{RegisterLine};
ghost use Rattle.register_lines.specs.declared.lines.TheConstants.{LINE_LIMIT};

use line_parts::{after, number_at};

/// How many readers there may be: they are numbered from 1 to this.
pub const READERS: u64 = 64;

/// How many bytes a line has at most, without its line feed.
///
/// A reader of pieces needs to keep no more of a line that has not ended.
pub const LINE_LIMIT: usize = 54;

/// A line of the text of a recorded register.
///
/// For example, `RegisterLine::Got(1, 0)` is the line `R1 got 0`.
#[derive(Clone, Copy, PartialEq, Eq, Debug)]
pub enum RegisterLine {
    /// `register FIRST`: what the register holds before the first write.
    Register(u64),
    /// `register FIRST VALUES`: the same, and its values are the numbers below VALUES.
    Valued(u64, u64),
    /// `cut register FIRST`: as `register FIRST`, in a recording that lacks the later operations.
    Cut(u64),
    /// `cut register FIRST VALUES`.
    CutValued(u64, u64),
    /// `W write V`: the writer begins to write V.
    Write(u64),
    /// `W wrote`: the write ends.
    Wrote,
    /// `Ri read`: reader i begins to read.
    Read(u64),
    /// `Ri got V`: the read ends, and returned V.
    Got(u64, u64),
}

/// Reads one line, without its line feed. `None` if the bytes are not a line of the format.
///
/// For example, `R1 got 0` is a line, and `R0 got 0`, `R1 got 00` and `register 3 3` are not. It takes time linear in the bytes that it
/// examines, at most [`LINE_LIMIT`] + 1.
pub fn read_register_line(bytes: &[u8]) -> Option<RegisterLine>
    ensures line { IfSome result (λ line. IsRegisterLine bytes.now line) }
    ensures none { result ≡ None → (line : RegisterLine) → ¬ IsRegisterLine bytes.now line }
    ensures limit { (line : RegisterLine) → IsRegisterLine bytes.now line → length bytes.now ≤ LINE_LIMIT }
{
    let line = line_at(bytes)?;
    if allows_numbers(line) {
        Some(line)
    } else {
        None
    }
}

// The line with this text, whatever its numbers are.
fn line_at(bytes: &[u8]) -> Option<RegisterLine>
    ensures { result ≡ line_at bytes.now }
{
    if let Some(rest) = after(bytes, "R") {
        return reader_line(rest);
    }
    if let Some(rest) = after(bytes, "W ") {
        return writer_line(rest);
    }
    if let Some(rest) = after(bytes, "register ") {
        return register_line(rest);
    }
    let rest = after(bytes, "cut register ")?;
    cut_register_line(rest)
}

// The line of a reader after its `R`: the number of the reader is at the front.
#[tactic(auto, unfolding(crate::specs::LineReading::reader_line))]
fn reader_line(bytes: &[u8]) -> Option<RegisterLine>
    ensures { result ≡ reader_line bytes.now }
{
    let (reader, rest) = number_at(bytes)?;
    if let Some(digits) = after(rest, " got ") {
        let value = last_number(digits)?;
        return Some(RegisterLine::Got(reader, value));
    }
    let rest = after(rest, " read")?;
    if rest.is_empty() {
        Some(RegisterLine::Read(reader))
    } else {
        None
    }
}

// The line of the writer after its `W `.
#[tactic(auto, unfolding(crate::specs::LineReading::writer_line))]
fn writer_line(bytes: &[u8]) -> Option<RegisterLine>
    ensures { result ≡ writer_line bytes.now }
{
    if let Some(digits) = after(bytes, "write ") {
        let value = last_number(digits)?;
        return Some(RegisterLine::Write(value));
    }
    let rest = after(bytes, "wrote")?;
    if rest.is_empty() {
        Some(RegisterLine::Wrote)
    } else {
        None
    }
}

// The first line of a recording after its `register `.
#[tactic(auto, unfolding(crate::specs::LineReading::register_line))]
fn register_line(bytes: &[u8]) -> Option<RegisterLine>
    ensures { result ≡ register_line bytes.now }
{
    let (first, values) = register_numbers(bytes)?;
    match values {
        None => Some(RegisterLine::Register(first)),
        Some(values) => Some(RegisterLine::Valued(first, values)),
    }
}

// The first line of a recording after its `cut register `.
#[tactic(auto, unfolding(crate::specs::LineReading::cut_register_line))]
fn cut_register_line(bytes: &[u8]) -> Option<RegisterLine>
    ensures { result ≡ cut_register_line bytes.now }
{
    let (first, values) = register_numbers(bytes)?;
    match values {
        None => Some(RegisterLine::Cut(first)),
        Some(values) => Some(RegisterLine::CutValued(first, values)),
    }
}

// The first value, and the number of values if it is given after a space. Nothing else is left.
#[tactic(auto, unfolding(crate::specs::LineReading::register_numbers))]
fn register_numbers(bytes: &[u8]) -> Option<(u64, Option<u64>)>
    ensures { result ≡ register_numbers bytes.now }
{
    let (first, rest) = number_at(bytes)?;
    if let Some(digits) = after(rest, " ") {
        let values = last_number(digits)?;
        return Some((first, Some(values)));
    }
    if rest.is_empty() {
        Some((first, None))
    } else {
        None
    }
}

// The number at the front, if nothing is left after it.
#[tactic(auto, unfolding(crate::specs::LineReading::last_number))]
fn last_number(bytes: &[u8]) -> Option<u64>
    ensures { result ≡ last_number bytes.now }
{
    let (number, rest) = number_at(bytes)?;
    if rest.is_empty() { Some(number) } else { None }
}

// Whether a line of the format may have these numbers.
fn allows_numbers(line: RegisterLine) -> bool
    ensures { IsTrue result ↔ AllowsNumbers line }
{
    match line {
        RegisterLine::Valued(first, values) | RegisterLine::CutValued(first, values) => {
            first < values
        }
        RegisterLine::Read(reader) | RegisterLine::Got(reader, _) => {
            1 <= reader && reader <= READERS
        }
        _ => true,
    }
}
