//! Answers, and how they and refusals are reported.
ghost use Rattle.std.specs.Prelude.{◌≡◌, ◌⊎◌, ◌≤◌, ℕ, true, IfErr, IfOk, IfSome, OnErr, OnOk, length, take};
ghost use Rattle.std.specs.Fmt.InlineText.{inline_text};
ghost use Rattle.std.specs.Io.KnownBytes.{Appends};
ghost use Rattle.ring_program.specs.Answers.{Delivers, ending_words, status_of};
ghost use Rattle.ring_program.specs.Faults.{Gains, refusal_line};

use crate::faults::{AppFault, Refusal};
use std::alloc::Allocator;
use std::fmt::{Display, InlineText, Write as _};
use std::io;
use std::io::Write;

/// The most bytes of a line that reports a refusal; none is that long.
const LINE: usize = 128;

/// How the program ends.
///
/// For example, `main` of `lamport_ring` ends its process with the status.
#[derive(Clone, Copy, Debug, PartialEq, Eq)]
pub struct Exit {
    /// The exit status.
    pub status: u8,
    /// Whether everything for standard error was written, which holds too if there was nothing.
    pub is_told: bool,
}

/// How a command that answered ends.
#[derive(Clone, Copy)]
pub(crate) enum Ending {
    /// The work was done: a script was played, a history is lawful, or a relay's take returned Closed.
    Done,
    /// A relay reached a limit before a take returned Closed.
    LimitReached,
    /// The audit found a fault.
    FaultFound,
}

impl Ending {
    /// The exit status: 0 if the work was done, 1 if a limit was reached, 3 if the audit found a fault.
    pub fn status(self) -> u8
        ensures { result ≡ status_of self }
    {
        match self {
            Ending::Done => 0,
            Ending::LimitReached => 1,
            Ending::FaultFound => 3,
        }
    }
}

/// The answer of a command: the complete text for the output, and how the program ends.
#[derive(Drop)]
pub(crate) struct Answer<A: Allocator> {
    pub text: String<A>,
    pub ending: Ending,
}

/// Writes all of the text. Any fault of the writer ends it.
pub fn write_whole<W: Write>(out: &mut W, text: &[u8]) -> Result<(), AppFault>
    ensures whole { OnOk result (Appends (W.contents out.old) (W.contents out.new) text.now) }
    ensures front { OnErr result ((count : ℕ) ×
        Appends (W.contents out.old) (W.contents out.new) (take count text.now)) }
    ensures fault { IfErr result (λ e. e ≡ AppFault.WriteFailed) }
{
    let mut count = 0;
    while count < text.len() {
        match out.write(&text[count..]) {
            Ok(0) => return Err(AppFault::WriteFailed),
            Ok(more) => count += more,
            Err(_) => return Err(AppFault::WriteFailed),
        }
    }
    match out.flush() {
        Ok(()) => Ok(()),
        Err(_) => Err(AppFault::WriteFailed),
    }
}

// Whether a terminal may interpret the byte as a command, and not as a letter or the end of a line.
fn is_command(byte: u8) -> bool {
    byte.is_ascii_control() && byte != b'\n'
}

// The bytes before the first that is a command.
fn plain_front(bytes: &[u8]) -> &[u8]
    ensures { length result.now ≤ length bytes.now }
{
    match bytes.iter().position(|byte| is_command(*byte)) {
        Some(end) => &bytes[..end],
        None => bytes,
    }
}

// A writer for words from the command line: a byte that is a command is written escaped, as `\x1b`. Any fault ends the text: an
// interrupted write is not retried.
#[derive(Drop)]
struct Unretried<'a, W> {
    inner: &'a mut W,
}

impl<W: Write> Unretried<'_, W> {
    fn write_plain(&mut self, bytes: &[u8]) -> io::Result<usize>
        ensures { IfOk result (λ count. count ≤ length bytes.now) }
    {
        match self.inner.write(bytes) {
            Ok(count) => Ok(count),
            Err(_) => Err(io::Error::from(io::ErrorKind::Other)),
        }
    }

    fn write_command(&mut self, byte: u8) -> io::Result<()> {
        for letter in byte.escape_ascii() {
            match self.inner.write(&[letter]) {
                Ok(1) => {}
                _ => return Err(io::Error::from(io::ErrorKind::Other)),
            }
        }
        Ok(())
    }
}

impl<W: Write> Write for Unretried<'_, W> {
    fn write(&mut self, buf: &[u8]) -> io::Result<usize> {
        match buf {
            [byte, ..] if is_command(*byte) => {
                self.write_command(*byte)?;
                Ok(1)
            }
            _ => self.write_plain(plain_front(buf)),
        }
    }

    fn flush(&mut self) -> io::Result<()> {
        self.inner.flush()
    }
}

/// Writes the text to standard error, and returns whether all of it was written.
///
/// In use: `lamport_ring`, for words that are not text.
pub fn complain<E: Write, D: Display + Drop>(err: &mut E, text: D) -> bool {
    Unretried { inner: err }.write_fmt(text).is_ok()
}

/// Writes the text to standard error, and returns whether all of it was written.
pub fn tell<E: Write>(err: &mut E, text: &[u8]) -> bool
    ensures { Gains (E.contents err.old) (E.contents err.new) result text.now }
{
    write_whole(err, text).is_ok()
}

// The line that reports a refusal.
#[tactic(auto, using(crate::proofs::InlineLines::written))]
fn line_of(refusal: Refusal) -> Option<InlineText<LINE>>
    ensures { IfSome result (λ line. inline_text line ≡ refusal_line refusal) }
{
    let mut line = InlineText::<LINE>::new();
    match line.write_fmt(format_args!("refused: {refusal}\n")) {
        Ok(()) => Some(line),
        Err(_) => None,
    }
}

/// Reports why the program refuses.
///
/// In use: `lamport_ring`.
pub fn refuse<E: Write>(refusal: Refusal, err: &mut E) -> Exit
    ensures status { result.status ≡ 1 }
    ensures told { Gains (E.contents err.old) (E.contents err.new) result.is_told (refusal_line refusal) }
{
    match line_of(refusal) {
        Some(line) => Exit {
            status: 1,
            is_told: tell(err, line.as_str().as_bytes()),
        },
        None => Exit {
            status: 1,
            is_told: false,
        },
    }
}

// Reports on standard error that a limit was reached, if that is the ending, and returns whether it was written.
fn tell_ending<E: Write>(ending: Ending, err: &mut E) -> bool
    ensures told { Gains (E.contents err.old) (E.contents err.new) result (ending_words ending) }
    ensures quiet { (ending ≡ Ending.LimitReached) ⊎ ((err.new ≡ err.old) × (result ≡ true)) }
{
    match ending {
        Ending::Done => true,
        Ending::LimitReached => tell(err, b"refused: limit reached\n"),
        Ending::FaultFound => true,
    }
}

// How the program ends after an answer, with what is written to standard error.
fn finish<E: Write>(ending: Ending, err: &mut E) -> Exit
    ensures status { result.status ≡ status_of ending }
    ensures told { Gains (E.contents err.old) (E.contents err.new) result.is_told (ending_words ending) }
    ensures quiet { (result.status ≡ 1) ⊎ ((err.new ≡ err.old) × (result.is_told ≡ true)) }
{
    let is_told = tell_ending(ending, err);
    Exit {
        status: ending.status(),
        is_told,
    }
}

/// Writes a text completely, and reports on standard error how the program ends.
pub fn give<O: Write, E: Write>(text: &[u8], ending: Ending, out: &mut O, err: &mut E) -> Exit
    ensures delivered { Delivers text.now ending (O.contents out.old) (O.contents out.new)
        (Gains (E.contents err.old) (E.contents err.new) result.is_told) result.status }
    ensures quiet { (result.status ≡ 1) ⊎ ((err.new ≡ err.old) × (result.is_told ≡ true)) }
{
    match write_whole(out, text) {
        Ok(()) => finish(ending, err),
        Err(fault) => refuse(Refusal::App(fault), err),
    }
}
