//! The whole history of a register, judged for C in one call.
ghost use Rattle.std.specs.Prelude.{◌≡◌, ◌<◌, IfSome, length};
ghost use Rattle.register_calls.specs.Histories.{IsValue};
ghost use Rattle.queue_calls_c.specs.Registers.{IsWithinReaders, JudgesRegister, class_number, line_event, reader_of, refused_as, register_found, register_of};

use crate::judges::{JudgeFault, JudgedHistory, judge};
use register_calls::{Class, Register, RegisterEvent};

/// How many readers a register may have.
pub const READERS: usize = 64;

/// An event of a register. The readers are numbered from 1 to 64.
#[repr(C)]
#[derive(Clone, Copy, PartialEq, Eq, Debug)]
pub struct EventLine {
    /// 0: a write of the value begins; 1: it ends; 2: a read of the reader begins; 3: it ends, and returned the value.
    pub kind: u32,
    pub reader: u32,
    pub value: u64,
}

/// The finding on a history, as numbers. Lines are counted from 1 including the one that gives the register; 0 is none.
#[repr(C)]
#[derive(Clone, Copy, PartialEq, Eq, Debug)]
pub struct JudgeFound {
    /// The line that is refused.
    pub line: u64,
    /// The first line at which the history is not safe, not regular, not atomic by reader, and not atomic.
    pub not_safe: u64,
    pub not_regular: u64,
    pub not_by_reader: u64,
    pub not_atomic: u64,
    /// The strongest class of the history: 0 if it is not safe, 1 safe, 2 regular, 3 atomic by reader, 4 atomic.
    pub class: u32,
    /// 0: the history is judged. 1: the event of the line is out of turn; 2: the line may not come there; 3: there are too few slots
    /// for the write of the line.
    pub verdict: u32,
}

// The register that the numbers of a first line give, if they are allowed there.
pub fn register_of(numbers: &[u64]) -> Option<Register>
    ensures register { result ≡ register_of numbers.now }
    ensures value { IfSome result (λ r. IsValue r r.first) }
{
    match numbers {
        [first] => Some(Register {
            first: *first,
            values: None,
        }),
        [first, values] => {
            if *first < *values {
                Some(Register {
                    first: *first,
                    values: Some(*values),
                })
            } else {
                None
            }
        }
        _ => None,
    }
}

// The reader of a number from 1 to 64, counted from 0.
fn reader_of(number: u32) -> Option<usize>
    ensures reader { result ≡ reader_of number }
    ensures within { IfSome result (λ reader. reader < 64) }
{
    if 0 < number {
        if READERS < number as usize {
            None
        } else {
            Some(number as usize - 1)
        }
    } else {
        None
    }
}

// The event that a line represents, if it represents one.
pub fn line_event(line: &EventLine) -> Option<RegisterEvent>
    ensures event { result ≡ line_event line.now }
    ensures reader { IfSome result IsWithinReaders }
{
    match line.kind {
        0 => Some(RegisterEvent::WriteBegins(line.value)),
        1 => Some(RegisterEvent::WriteEnds),
        2 => match reader_of(line.reader) {
            Some(reader) => Some(RegisterEvent::ReadBegins(reader)),
            None => None,
        },
        3 => match reader_of(line.reader) {
            Some(reader) => Some(RegisterEvent::ReadEnds(reader, line.value)),
            None => None,
        },
        _ => None,
    }
}

// The number of a class, or of none.
fn class_number(class: Option<Class>) -> u32
    ensures { result ≡ class_number class }
{
    match class {
        None => 0,
        Some(Class::Safe) => 1,
        Some(Class::Regular) => 2,
        Some(Class::AtomicByReader) => 3,
        Some(Class::Atomic) => 4,
    }
}

// A refusal, as numbers.
fn refused_as(verdict: u32, line: u64) -> JudgeFound
    ensures { result ≡ refused_as verdict line }
{
    JudgeFound {
        line,
        not_safe: 0,
        not_regular: 0,
        not_by_reader: 0,
        not_atomic: 0,
        class: 0,
        verdict,
    }
}

// A finding, as numbers.
fn register_found(judgement: Result<JudgedHistory, JudgeFault>) -> JudgeFound
    ensures { result ≡ register_found judgement }
{
    match judgement {
        Ok(judged) => JudgeFound {
            line: 0,
            not_safe: judged.lost.safe,
            not_regular: judged.lost.regular,
            not_by_reader: judged.lost.by_reader,
            not_atomic: judged.lost.atomic,
            class: class_number(judged.class),
            verdict: 0,
        },
        Err(JudgeFault::OutOfTurn(line)) => refused_as(1, line),
        Err(JudgeFault::BadLine(line)) => refused_as(2, line),
        Err(JudgeFault::TooFewSlots(line)) => refused_as(3, line),
    }
}

/// Judges the history of a register: of a first line with these numbers, the first value and perhaps the bound that the values are below,
/// and of further lines, each of which represents an event. The slots are for writes: as many as a history has, and one more, are enough.
///
/// It finds the strongest class of the history, and for each class the first line at which the history lacks it. Or it refuses the
/// first line that may not be there, whose event is out of turn, or for whose write there is no slot. The contents of the slots after
/// that are unspecified.
#[unsafe(no_mangle)]
pub extern "C" fn ring_register_judge(
    numbers: &[u64],
    lines: &[EventLine],
    window: &mut [u64],
    found: &mut JudgeFound,
)
    ensures judges { JudgesRegister numbers.now lines.now (length window.old) found.new }
{
    *found = register_found(judge(numbers, lines, window));
}
