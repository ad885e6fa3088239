//! The lines of a text that is not a trace, not recorded calls or not a recorded register, and what is wrong with one of them.

use std::fmt;
use thiserror::Error;

/// The most characters of a line that are shown.
const SHOWN_LIMIT: usize = 80;

/// A line of a text without its line feed, and whether it has one.
#[derive(Clone, Copy)]
pub(crate) struct TextLine<'a> {
    pub text: &'a [u8],
    pub has_feed: bool,
}

/// What is wrong with a line of a trace, of recorded calls or of a recorded register.
#[derive(Clone, Copy, Debug, Error)]
pub(crate) enum LineFault {
    #[error("begins with a byte order mark")]
    ByteOrderMark,
    #[error("is UTF-16 text")]
    Utf16,
    #[error("ends in a carriage return")]
    CarriageReturn,
    #[error("is empty")]
    Empty,
    #[error("ends in a space")]
    SpaceAtEnd,
    #[error("begins with a space")]
    SpaceAtFront,
    #[error("has no line feed at its end")]
    NoLineFeed,
    #[error("has a tab or another control character: between two words stands one space")]
    ControlCharacter,
    #[error("names a bit that is not in the shape")]
    BitOfNoShape,
    #[error("ends in a batch of 1, which is left out")]
    BatchOfOne,
    #[error("is not: shape CAPACITY MODULUS WIDTH [BATCH [TAKE_BATCH]], in numbers of at most 4 digits")]
    NoShape,
    #[error("is none of: S read BIT, S got BIT V, S write BIT V, S wrote BIT")]
    NoEvent,
    #[error("is none of: [cut] queue, [cut] queue B, [cut] queue A B")]
    NoQueue,
    #[error("has a capacity of 0: it is from 1")]
    CapacityOfZero,
    #[error("has two numbers of which the first is not below the second")]
    BoundsOutOfOrder,
    #[error("has a number that is not from 0 to 18446744073709551615, or begins with 0")]
    BadNumber,
    #[error("has a count of 0: it is from 1")]
    CountOfZero,
    #[error("asks for fewer than 2 items: Q of C take Q is from 2, and C take alone asks for one")]
    TakeOfOne,
    #[error("is none of: P put ITEM.., P stored [COUNT], P some COUNT, P full, P short, P nothing, P close, P closed")]
    NoPut,
    #[error("is none of: C take [COUNT], C item ITEM.., C some ITEM.., C empty, C short, C nothing, C closed")]
    NoTake,
    #[error("begins with neither P nor C")]
    NoSide,
    #[error("is none of: [cut] register FIRST, [cut] register FIRST VALUES")]
    NoRegister,
    #[error("has a first value that is not below the number of values")]
    FirstIsNoValue,
    #[error("is none of: W write V, W wrote")]
    NoWrite,
    #[error("writes a number that is no value of the register")]
    WritesNoValue,
    #[error("is none of: Ri read, Ri got V, with i from 1 to 64")]
    NoRead,
    #[error("begins with neither W nor R")]
    NoRegisterSide,
}

/// A line as it is shown: between quotes, each byte that is not printable ASCII escaped, and cut after
/// `SHOWN_LIMIT` characters, with two dots where it was cut.
#[derive(Clone, Copy)]
pub(crate) struct Shown<'a> {
    pub line: &'a [u8],
}

impl fmt::Display for Shown<'_> {
    fn fmt<W: fmt::Write>(&self, f: &mut fmt::Formatter<W>) -> fmt::Result {
        let front = shown_front(self.line);
        let dots = if front.len() < self.line.len() {
            ".."
        } else {
            ""
        };
        write!(f, "\"{}\"{dots}", front.escape_ascii())
    }
}

// The part of a line that is shown: as many bytes as have room, each escaped.
fn shown_front(line: &[u8]) -> &[u8] {
    let mut room = SHOWN_LIMIT;
    for (place, byte) in line.iter().enumerate() {
        let length = byte.escape_ascii().len();
        if room < length {
            return &line[..place];
        }
        room -= length;
    }
    line
}

// The bytes from the line with this number on, counted from 1. None if there are fewer lines.
fn from_line(bytes: &[u8], number: u64) -> &[u8] {
    let mut rest = bytes;
    for _ in 1..number {
        match rest.iter().position(|byte| *byte == b'\n') {
            Some(end) => rest = &rest[end + 1..],
            None => return &[],
        }
    }
    rest
}

/// The line with this number, counted from 1. It is empty and has no line feed if there are fewer lines.
pub fn line_at(bytes: &[u8], number: u64) -> TextLine<'_> {
    let rest = from_line(bytes, number);
    match rest.iter().position(|byte| *byte == b'\n') {
        Some(end) => TextLine {
            text: &rest[..end],
            has_feed: true,
        },
        None => TextLine {
            text: rest,
            has_feed: false,
        },
    }
}

/// Whether the first byte that is not white space begins a JSON object.
pub fn looks_like_script(bytes: &[u8]) -> bool {
    bytes.trim_ascii_start().starts_with(b"{")
}

/// Whether the text begins as a trace does.
pub fn looks_like_trace(bytes: &[u8]) -> bool {
    bytes.starts_with(b"shape ")
}

/// Whether the text begins as recorded calls do.
pub fn looks_like_calls(bytes: &[u8]) -> bool {
    bytes.starts_with(b"queue") || bytes.starts_with(b"cut queue")
}

/// Whether the text begins as a recorded register does.
pub fn looks_like_register(bytes: &[u8]) -> bool {
    bytes.starts_with(b"register ") || bytes.starts_with(b"cut register ")
}

// What is wrong with the ends of a line, the first line or a further one.
fn fault_of_ends(line: &TextLine<'_>, is_first: bool) -> Option<LineFault> {
    let text = line.text;
    if is_first && text.starts_with(b"\xef\xbb\xbf") {
        Some(LineFault::ByteOrderMark)
    } else if is_first && (text.starts_with(b"\xff\xfe") || text.starts_with(b"\xfe\xff")) {
        Some(LineFault::Utf16)
    } else if text.ends_with(b"\r") {
        Some(LineFault::CarriageReturn)
    } else if text.is_empty() {
        Some(LineFault::Empty)
    } else if text.ends_with(b" ") {
        Some(LineFault::SpaceAtEnd)
    } else if text.starts_with(b" ") {
        Some(LineFault::SpaceAtFront)
    } else if !line.has_feed {
        Some(LineFault::NoLineFeed)
    } else if text.iter().any(|byte| byte.is_ascii_control()) {
        Some(LineFault::ControlCharacter)
    } else {
        None
    }
}

/// What is wrong with a line that is not one of a trace, the first line or a further one.
pub fn fault_of_line(line: &TextLine<'_>, is_first: bool) -> LineFault {
    if let Some(fault) = fault_of_ends(line, is_first) {
        return fault;
    }
    if is_first {
        if has_batch_of_one(line.text) {
            LineFault::BatchOfOne
        } else {
            LineFault::NoShape
        }
    } else if has_event_words(line.text) {
        LineFault::BitOfNoShape
    } else {
        LineFault::NoEvent
    }
}

/// What is wrong with a line that is not one of recorded calls, the first line or a further one.
pub fn fault_of_call(line: &TextLine<'_>, is_first: bool) -> LineFault {
    if let Some(fault) = fault_of_ends(line, is_first) {
        return fault;
    }
    if has_bad_number(line.text) {
        LineFault::BadNumber
    } else if is_first {
        fault_of_queue(line.text)
    } else if is_of_side(line.text, b'P') {
        fault_of_put(line.text)
    } else if is_of_side(line.text, b'C') {
        fault_of_take(line.text)
    } else {
        LineFault::NoSide
    }
}

/// What is wrong with a line that may not come in a recorded register, the first line or a further one.
pub fn fault_of_register(line: &TextLine<'_>, is_first: bool) -> LineFault {
    if let Some(fault) = fault_of_ends(line, is_first) {
        return fault;
    }
    if has_bad_number(line.text) {
        LineFault::BadNumber
    } else if is_first {
        fault_of_first_value(line.text)
    } else if is_of_side(line.text, b'W') {
        fault_of_writer(line.text)
    } else if line.text.starts_with(b"R") {
        LineFault::NoRead
    } else {
        LineFault::NoRegisterSide
    }
}

// What is wrong with a first line of a recorded register whose numbers are well-formed.
fn fault_of_first_value(text: &[u8]) -> LineFault {
    let line = text.strip_prefix(b"cut ").unwrap_or(text);
    let mut words = line.split(|byte| *byte == b' ');
    match (words.next(), words.next(), words.next(), words.next()) {
        (Some(b"register"), Some(first), Some(values), None)
            if is_index(first) && is_index(values) => LineFault::FirstIsNoValue,
        _ => LineFault::NoRegister,
    }
}

// What is wrong with a line of the writer whose numbers are well-formed.
fn fault_of_writer(text: &[u8]) -> LineFault {
    match text.strip_prefix(b"W write ") {
        Some(value) if is_index(value) => LineFault::WritesNoValue,
        _ => LineFault::NoWrite,
    }
}

// What is wrong with a first line of recorded calls whose numbers are well-formed.
fn fault_of_queue(text: &[u8]) -> LineFault {
    let line = text.strip_prefix(b"cut ").unwrap_or(text);
    let mut words = line.split(|byte| *byte == b' ');
    match (words.next(), words.next(), words.next(), words.next()) {
        (Some(b"queue"), Some(b"0"), None, None) => LineFault::CapacityOfZero,
        (Some(b"queue"), Some(full), Some(most), None) if is_index(full) && is_index(most) => {
            LineFault::BoundsOutOfOrder
        }
        _ => LineFault::NoQueue,
    }
}

// What is wrong with a line of the producer whose numbers are well-formed.
fn fault_of_put(text: &[u8]) -> LineFault {
    match text {
        b"P stored 0" | b"P some 0" => LineFault::CountOfZero,
        _ => LineFault::NoPut,
    }
}

// What is wrong with a line of the consumer whose numbers are well-formed.
fn fault_of_take(text: &[u8]) -> LineFault {
    match text {
        b"C take 0" | b"C take 1" => LineFault::TakeOfOne,
        _ => LineFault::NoTake,
    }
}

// Whether the first word is the side.
fn is_of_side(text: &[u8], side: u8) -> bool {
    match text.split_first() {
        Some((first, rest)) => *first == side && (rest.is_empty() || rest.starts_with(b" ")),
        None => false,
    }
}

// Whether the words are those of a shape with a batch, or with both, of which the last is 1.
fn has_batch_of_one(text: &[u8]) -> bool {
    let Some(numbers) = text.strip_prefix(b"shape ") else {
        return false;
    };
    let count = numbers.split(|byte| *byte == b' ').count();
    (count == 4 || count == 5)
        && numbers.split(|byte| *byte == b' ').all(is_index)
        && numbers.ends_with(b" 1")
}

// Whether a word has only digits, and is not a number as written.
fn has_bad_number(text: &[u8]) -> bool {
    text.split(|byte| *byte == b' ').any(is_bad_number)
}

fn is_bad_number(word: &[u8]) -> bool {
    let is_number = !word.is_empty() && word.iter().all(|digit| digit.is_ascii_digit());
    is_number && !(is_index(word) && is_small(word))
}

// Whether digits are a number of 64 bits.
fn is_small(digits: &[u8]) -> bool {
    match std::str::from_utf8(digits) {
        Ok(text) => text.parse::<u64>().is_ok(),
        Err(_) => false,
    }
}

// Whether the words are those of an event, of any bit.
fn has_event_words(text: &[u8]) -> bool {
    let mut words = text.split(|byte| *byte == b' ');
    let (Some(side), Some(word), Some(bit)) = (words.next(), words.next(), words.next()) else {
        return false;
    };
    let (value, more) = (words.next(), words.next());
    is_side(side) && is_act(word, value) && is_bit(bit) && more.is_none()
}

fn is_side(word: &[u8]) -> bool {
    match word {
        b"P" | b"C" => true,
        _ => false,
    }
}

// Whether the word and the value, if there is one, are those of an event.
fn is_act(word: &[u8], value: Option<&[u8]>) -> bool {
    match (word, value) {
        (b"read" | b"wrote", None) => true,
        (b"got" | b"write", Some(b"0" | b"1")) => true,
        _ => false,
    }
}

// Whether the word is the name of a bit, of any shape or of none.
fn is_bit(word: &[u8]) -> bool {
    match word.split_first() {
        Some((b's' | b'r', index)) => is_index(index),
        Some((b'c', indices)) => is_pair(indices),
        _ => false,
    }
}

// Whether the word is two numbers with a dot between them.
fn is_pair(word: &[u8]) -> bool {
    let mut numbers = word.split(|byte| *byte == b'.');
    match (numbers.next(), numbers.next(), numbers.next()) {
        (Some(cell), Some(digit), None) => is_index(cell) && is_index(digit),
        _ => false,
    }
}

// Whether the word is a number without a leading zero.
fn is_index(word: &[u8]) -> bool {
    match word.split_first() {
        Some((b'0', more)) => more.is_empty(),
        Some((first, more)) => first.is_ascii_digit()
            && more.iter().all(|digit| digit.is_ascii_digit()),
        None => false,
    }
}
