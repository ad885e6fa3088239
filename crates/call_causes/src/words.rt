//! The text of a cause, if there is no memory for it.
ghost use Rattle.std.specs.Prelude.{◌≡◌, ℕ, ◌≤◌, List, ◌++◌, decimal, length, min};
ghost use Rattle.call_causes.specs.Causes.{cause_words, next_words, said_words};
ghost use Rattle.call_causes.specs.Words.{AreWritten, written};

use crate::causes::{Cause, Said};
use crate::entries::Offered;
use itoa::Buffer;

/// How many bytes hold the text of any cause.
///
/// In use: `ring_page::page_calls`, `queue_calls_c::ring_audit_hear`.
pub const CAUSE_WORDS: usize = 256;

// Writes a text after the first `used` bytes, as much of it as there is room for, and returns how many bytes are used then.
fn write(slots: &mut [u8], used: usize, text: &str) -> usize
    requires { used ≤ length slots.old }
    ensures written { (words before : List ℕ) → AreWritten words before slots.old used →
        AreWritten (words ++ text.now) before slots.new result }
    ensures within { result ≤ length slots.new }
{
    let count = text.len().min(slots.len() - used);
    let end = used + count;
    slots[used..end].copy_from_slice(&text.as_bytes()[..count]);
    end
}

// The same for a number, and a text after it.
fn write_number(slots: &mut [u8], used: usize, number: u64, text: &str) -> usize
    requires { used ≤ length slots.old }
    ensures written { (words before : List ℕ) → AreWritten words before slots.old used →
        AreWritten (words ++ (decimal number ++ text.now)) before slots.new result }
    ensures within { result ≤ length slots.new }
{
    let mut buffer = Buffer::new();
    let end = write(slots, used, buffer.format(number));
    write(slots, end, text)
}

// The same for the next item.
fn write_next(slots: &mut [u8], used: usize, next: Option<Offered>) -> usize
    requires { used ≤ length slots.old }
    ensures written { (words before : List ℕ) → AreWritten words before slots.old used →
        AreWritten (words ++ next_words next) before slots.new result }
    ensures within { result ≤ length slots.new }
{
    match next {
        Some(next) => {
            let end = write(slots, used, "item ");
            let end = write_number(slots, end, next.item, " of line ");
            write_number(slots, end, next.offered_at, " is next")
        }
        None => write(slots, used, "none is next"),
    }
}

// Writes the text of a cause to the front, as much of it as there is room for, and returns how many bytes were written.
fn write_said(slots: &mut [u8], said: Said) -> usize
    ensures { AreWritten (said_words said) slots.old slots.new result }
{
    match said {
        Said::Words(a) => write(slots, 0, a),
        Said::One(a, n, b) => {
            let end = write(slots, 0, a);
            write_number(slots, end, n, b)
        }
        Said::Two(a, n, b, m, c) => {
            let end = write(slots, 0, a);
            let end = write_number(slots, end, n, b);
            write_number(slots, end, m, c)
        }
        Said::Three(a, n, b, m, c, k, d) => {
            let end = write(slots, 0, a);
            let end = write_number(slots, end, n, b);
            let end = write_number(slots, end, m, c);
            write_number(slots, end, k, d)
        }
        Said::Lost(a, n, next) => {
            let end = write(slots, 0, a);
            let end = write_number(slots, end, n, " was not inside; ");
            write_next(slots, end, next.0)
        }
        Said::Again(a, n, b, m, next) => {
            let end = write(slots, 0, a);
            let end = write_number(slots, end, n, b);
            let end = write_number(slots, end, m, "; ");
            write_next(slots, end, next.0)
        }
    }
}

/// Writes the text of a cause to the front, as much of it as there is room for, and returns how many bytes were written.
///
/// In use: `ring_page::page_calls`, `queue_calls_c::ring_audit_hear`.
pub fn write_cause(slots: &mut [u8], cause: Cause) -> usize
    ensures words { slots.new ≡ written (cause_words cause) slots.old }
    ensures count { result ≡ min (length (cause_words cause)) (length slots.old) }
    ensures enough { length (cause_words cause) ≤ CAUSE_WORDS }
{
    write_said(slots, cause.said())
}
