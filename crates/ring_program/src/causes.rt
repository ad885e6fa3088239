//! What is wrong in a refused text, printed next to the refusal for somebody who has to repair it.
ghost use Rattle.std.specs.Prelude.{IfSome};
ghost use Rattle.ring_program.specs.Faults.{IsInText};

use crate::faults::Refusal;
use crate::trace_lines::{
    LineFault, Shown, TextLine, fault_of_call, fault_of_line, fault_of_register, line_at,
    looks_like_calls, looks_like_register, looks_like_script, looks_like_trace,
};
use queue_calls::RecordingFault;
use register_recordings::RegisterTextFault;
use ring_script::{Field, JsonFault, ScriptFault, byte_of_text, json_fault};
use std::alloc::Global;
use std::fmt;
use trace_text::TraceFault;

/// What is wrong in the text of a trace, of recorded calls, of a recorded register or of a script. It is printed in one line, with no line feed.
#[derive(Drop)]
pub(crate) enum TextCause<'a> {
    /// The text of the trace is empty.
    NoTrace,
    /// The text of the recorded calls is empty.
    NoCalls,
    /// The text of the recorded register is empty.
    NoRegister,
    /// The text should be another kind, and looks like a script.
    LooksLikeScript,
    /// The text should be another kind, and looks like a trace.
    LooksLikeTrace,
    /// The text should be another kind, and looks like recorded calls.
    LooksLikeCalls,
    /// The text should be another kind, and looks like a recorded register.
    LooksLikeRegister,
    /// This line of the text has this fault.
    Line(u64, LineFault, Shown<'a>),
    /// The text of the script is empty.
    NoScript,
    /// The script is not JSON.
    NotJson(JsonFault),
    /// The script has an unknown field.
    UnknownField,
    /// The value of this field has the wrong kind.
    WrongKind(Field),
    /// The byte at this place of the field's text cannot come there.
    StrayByte(Field, u64, u8),
}

impl fmt::Display for TextCause<'_> {
    fn fmt<W: fmt::Write>(&self, f: &mut fmt::Formatter<W>) -> fmt::Result {
        match self {
            TextCause::NoTrace => {
                f.write_str("there is no text: line 1 is to be: shape CAPACITY MODULUS WIDTH")
            }
            TextCause::NoCalls => f.write_str("there is no text: line 1 is to be: queue CAPACITY"),
            TextCause::NoRegister => {
                f.write_str("there is no text: line 1 is to be: register FIRST")
            }
            TextCause::LooksLikeScript => {
                f.write_str("it looks like a script: lamport_ring play reads it")
            }
            TextCause::LooksLikeTrace => {
                f.write_str("it looks like a trace: lamport_ring audit reads it")
            }
            TextCause::LooksLikeCalls => {
                f.write_str("it looks like recorded calls: lamport_ring audit --calls reads them")
            }
            TextCause::LooksLikeRegister => f.write_str(
                "it looks like a recorded register: lamport_ring audit --register reads it",
            ),
            TextCause::Line(number, fault, shown) => write!(f, "line {number} {fault}: {shown}"),
            TextCause::NoScript => f.write_str(
                "there is no text: a script is a JSON object, lamport_ring play --help shows one",
            ),
            TextCause::NotJson(fault) => write!(f, "{fault}"),
            TextCause::UnknownField => f.write_str(
                "the fields are capacity, modulus, width, items, takes, close, schedule, oracle, batch and take_batch",
            ),
            TextCause::WrongKind(field) => write!(f, "{field} is {}", kind_words(*field)),
            TextCause::StrayByte(field, place, byte) => {
                write!(f, "byte {place} of {field} is \"{}\"", byte.escape_ascii())
            }
        }
    }
}

// What the value of a field must be.
fn kind_words(field: Field) -> &'static str {
    match field {
        Field::Capacity
        | Field::Modulus
        | Field::Width
        | Field::Takes
        | Field::Batch
        | Field::TakeBatch => {
            "a whole number from 0 to 18446744073709551615, with no sign, fraction or exponent"
        }
        Field::Items => "an array of whole numbers, each from 0 to 18446744073709551615",
        Field::Close => "true or false",
        Field::Schedule => "a text of letters P and C with counts, as \"P8C10\"",
        Field::Oracle => "a text of 0 and 1",
    }
}

// What is wrong in a trace whose line with this number is bad.
fn cause_in_trace(bytes: &[u8], number: u64) -> TextCause<'_> {
    if bytes.is_empty() {
        return TextCause::NoTrace;
    }
    if number == 1 && looks_like_script(bytes) {
        return TextCause::LooksLikeScript;
    }
    if number == 1 && looks_like_calls(bytes) {
        return TextCause::LooksLikeCalls;
    }
    if number == 1 && looks_like_register(bytes) {
        return TextCause::LooksLikeRegister;
    }
    let line = line_at(bytes, number);
    let fault = fault_of_line(&line, number == 1);
    TextCause::Line(number, fault, Shown { line: line.text })
}

// What is wrong in recorded calls whose line with this number is bad.
fn cause_in_calls(line: TextLine<'_>, number: u64) -> TextCause<'_> {
    if number == 1 {
        if line.text.is_empty() && !line.has_feed {
            return TextCause::NoCalls;
        }
        if looks_like_script(line.text) {
            return TextCause::LooksLikeScript;
        }
        if looks_like_trace(line.text) {
            return TextCause::LooksLikeTrace;
        }
        if looks_like_register(line.text) {
            return TextCause::LooksLikeRegister;
        }
    }
    let fault = fault_of_call(&line, number == 1);
    TextCause::Line(number, fault, Shown { line: line.text })
}

// What is wrong in a recorded register whose line with this number is bad.
fn cause_in_register(line: TextLine<'_>, number: u64) -> TextCause<'_> {
    if number == 1 {
        if line.text.is_empty() && !line.has_feed {
            return TextCause::NoRegister;
        }
        if looks_like_script(line.text) {
            return TextCause::LooksLikeScript;
        }
        if looks_like_trace(line.text) {
            return TextCause::LooksLikeTrace;
        }
        if looks_like_calls(line.text) {
            return TextCause::LooksLikeCalls;
        }
    }
    let fault = fault_of_register(&line, number == 1);
    TextCause::Line(number, fault, Shown { line: line.text })
}

// What is wrong in bytes that are not JSON.
fn cause_in_json<'a>(json: Global, bytes: &'a [u8]) -> Option<TextCause<'a>> {
    if bytes.is_empty() {
        return Some(TextCause::NoScript);
    }
    if looks_like_trace(bytes) {
        return Some(TextCause::LooksLikeTrace);
    }
    if looks_like_calls(bytes) {
        return Some(TextCause::LooksLikeCalls);
    }
    if looks_like_register(bytes) {
        return Some(TextCause::LooksLikeRegister);
    }
    Some(TextCause::NotJson(json_fault(json, bytes)?))
}

// What is wrong in the text of a field at a place.
fn cause_in_text<'a>(
    json: Global,
    bytes: &'a [u8],
    field: Field,
    place: u64,
) -> Option<TextCause<'a>> {
    let byte = byte_of_text(json, bytes, field, place)?;
    Some(TextCause::StrayByte(field, place, byte))
}

// What is wrong in a script that has this fault.
fn cause_in_script<'a>(json: Global, bytes: &'a [u8], fault: ScriptFault) -> Option<TextCause<'a>> {
    match fault {
        ScriptFault::NotJson => cause_in_json(json, bytes),
        ScriptFault::UnknownField => Some(TextCause::UnknownField),
        ScriptFault::WrongKind(field) => Some(TextCause::WrongKind(field)),
        ScriptFault::BadSchedule(place) => cause_in_text(json, bytes, Field::Schedule, place),
        ScriptFault::BadOracle(place) => cause_in_text(json, bytes, Field::Oracle, place),
        _ => None,
    }
}

/// What is known about a refused text.
#[derive(Clone, Copy)]
pub(crate) enum Source<'a> {
    /// All of it.
    Input(&'a [u8]),
    /// The bad line of a recording, which is not kept.
    Line(TextLine<'a>),
    /// Nothing: it is not kept, or there was none.
    Unkept,
}

impl<'a> Source<'a> {
    /// The bad line of a recording, if it was kept.
    pub fn of_line(text: Option<&'a [u8]>, has_feed: bool) -> Source<'a> {
        match text {
            Some(text) => Source::Line(TextLine { text, has_feed }),
            None => Source::Unkept,
        }
    }
}

/// What is wrong in the text refused for this cause. `None` if the refusal already says it, if this is not the
/// refused text, or if memory ran out.
pub fn cause_of<'a>(json: Global, source: Source<'a>, refusal: Refusal) -> Option<TextCause<'a>>
    // The refusal is of the text.
    ensures { IfSome result (λ _. IsInText refusal) }
{
    match (source, refusal) {
        (Source::Input(bytes), Refusal::Trace(TraceFault::BadLine(number))) => {
            Some(cause_in_trace(bytes, number))
        }
        (Source::Input(bytes), Refusal::Script(fault)) => cause_in_script(json, bytes, fault),
        (Source::Line(line), Refusal::Calls(RecordingFault::BadLine(number))) => {
            Some(cause_in_calls(line, number))
        }
        (Source::Line(line), Refusal::Register(RegisterTextFault::BadLine(number))) => {
            Some(cause_in_register(line, number))
        }
        _ => None,
    }
}
