//! The audit of a recorded register.
ghost use Rattle.std.specs.Prelude.{◌≡◌, ◌++◌, List, [], ℕ, IfOk, IfErr, IfSome, MatchOption, OnOk, string_bytes, true};
ghost use Rattle.register_recordings.specs.Reading.{HasReadRegister};
ghost use Rattle.line_parts.specs.LineEnds.{HasNoFeed};
ghost use Rattle.register_recordings.specs.Recordings.{KeepsClass, RefusesRegisterText, falls_short};
ghost use Rattle.ring_program.specs.Answers.{Answers, IsRegisterCause, IsTrueCause, MayEnd};
ghost use Rattle.ring_program.specs.declared.command_line.Request.TheVariants as Request;
ghost use Rattle.ring_program.specs.Readings.{HoldsOfLines};
ghost use Rattle.ring_program.specs.Registers.{IsRegisterFoundBy, IsRegisterFoundIn, IsShortAhead, class_line, class_words, miss_line, misses_text_of, register_ending_of, register_report_text_of, register_text_of, report_if, none_inverts_line};

use crate::answers::{Answer, Ending};
use crate::command_line::RegisterQuestion;
use crate::faults::{AppFault, Refusal};
use crate::lines::push_count;
use crate::recordings::{cut_words, first_line};
use register_calls::{Chain, Class, ReaderState, RegisterReport};
use register_recordings::{
    Misses, RegisterFinding, RegisterMiss, RegisterRecording, RegisterTextFault, is_same_line,
};
use std::alloc::{AllocError, Allocator};
use std::collections::VecDeque;
use std::io::Read;

// How many bytes are read at once.
const PIECE: usize = 65_536;

/// A recording of a register in memory of an allocator.
pub(crate) type Recorded<A> = RegisterRecording<
    VecDeque<u64, A>,
    VecDeque<ReaderState, A>,
    VecDeque<usize, A>,
    VecDeque<Chain, A>,
    Vec<u8, A>,
>;

// The finding on a recording, and whether it says that later operations are missing.
#[derive(Clone, Copy)]
struct FoundRegister {
    finding: RegisterFinding,
    is_cut: bool,
}

/// A recording of which nothing has been read.
pub(crate) fn new_recording<A: Allocator + Copy>(alloc: A) -> Result<Recorded<A>, AllocError>
    ensures { IfOk result (λ recording. HasReadRegister (λ q. q.items) (λ q. q.items) (λ q. q.items) (λ q. q.items)
        (λ v. v.items) recording []) }
{
    RegisterRecording::within(
        VecDeque::new(alloc),
        VecDeque::new(alloc),
        VecDeque::new(alloc),
        VecDeque::new(alloc),
        VecDeque::new(alloc),
        VecDeque::new(alloc),
        Vec::new(alloc),
    )
}

// The finding on the lines that have ended, if they fall short of the class.
fn shortfall<A: Allocator + Copy>(recording: &Recorded<A>, class: Class) -> Option<FoundRegister>
    ensures { (bytes : List ℕ) → HasReadRegister (λ q. q.items) (λ q. q.items) (λ q. q.items) (λ q. q.items)
        (λ v. v.items) recording.now bytes →
        MatchOption result (HoldsOfLines (KeepsClass class) bytes)
        (λ found. (ended : List ℕ) × (rest : List ℕ) × (bytes ≡ ended ++ rest) × HasNoFeed rest ×
        IsRegisterFoundIn ended found.is_cut found.finding × (falls_short class found.finding ≡ true)) }
{
    match recording.shortfall(class) {
        Some(finding) => Some(FoundRegister {
            finding,
            is_cut: recording.is_cut(),
        }),
        None => None,
    }
}

// Reads a piece line by line, to the first line at which the class is missed.
fn read_register_lines<A: Allocator + Copy>(
    recording: &mut Recorded<A>,
    class: Class,
    piece: &[u8],
) -> Result<Option<FoundRegister>, RegisterTextFault>
    ensures read { IfOk result (λ found. MatchOption found
        (((bytes : List ℕ) → HasReadRegister (λ q. q.items) (λ q. q.items) (λ q. q.items) (λ q. q.items)
        (λ v. v.items) recording.old bytes →
        HasReadRegister (λ q. q.items) (λ q. q.items) (λ q. q.items) (λ q. q.items) (λ v. v.items) recording.new
        (bytes ++ piece.now))
        × ((bytes : List ℕ) → HasReadRegister (λ q. q.items) (λ q. q.items) (λ q. q.items) (λ q. q.items)
        (λ v. v.items) recording.old bytes → HoldsOfLines (KeepsClass class) bytes →
        HoldsOfLines (KeepsClass class) (bytes ++ piece.now)))
        (λ f. (bytes more : List ℕ) → HasReadRegister (λ q. q.items) (λ q. q.items) (λ q. q.items) (λ q. q.items)
        (λ v. v.items) recording.old bytes → HoldsOfLines (KeepsClass class) bytes →
        IsShortAhead class (bytes ++ (piece.now ++ more)) f.is_cut f.finding)) }
    ensures refused { IfErr result (λ e. (bytes more : List ℕ) → HasReadRegister (λ q. q.items) (λ q. q.items)
        (λ q. q.items) (λ q. q.items) (λ v. v.items) recording.old bytes →
        RefusesRegisterText e (bytes ++ (piece.now ++ more))) }
{
    let mut rest = piece;
    while !rest.is_empty() {
        let (line, more) = first_line(rest);
        recording.read(line)?;
        if let Some(found) = shortfall(recording, class) {
            return Ok(Some(found));
        }
        rest = more;
    }
    Ok(None)
}

// Reads a piece; if it should stop there, only to the first line at which the class is missed.
#[tactic(auto, using(crate::proofs::ReadingLemmas::with_stop))]
fn read_register_piece<A: Allocator + Copy>(
    recording: &mut Recorded<A>,
    class: Class,
    stop: bool,
    piece: &[u8],
) -> Result<Option<FoundRegister>, RegisterTextFault>
    ensures read { IfOk result (λ found. MatchOption found
        (((bytes : List ℕ) → HasReadRegister (λ q. q.items) (λ q. q.items) (λ q. q.items) (λ q. q.items)
        (λ v. v.items) recording.old bytes →
        HasReadRegister (λ q. q.items) (λ q. q.items) (λ q. q.items) (λ q. q.items) (λ v. v.items) recording.new
        (bytes ++ piece.now))
        × (stop ≡ true → (bytes : List ℕ) → HasReadRegister (λ q. q.items) (λ q. q.items) (λ q. q.items)
        (λ q. q.items) (λ v. v.items) recording.old bytes → HoldsOfLines (KeepsClass class) bytes →
        HoldsOfLines (KeepsClass class) (bytes ++ piece.now)))
        (λ f. (stop ≡ true) ×
        ((bytes more : List ℕ) → HasReadRegister (λ q. q.items) (λ q. q.items) (λ q. q.items) (λ q. q.items)
        (λ v. v.items) recording.old bytes → HoldsOfLines (KeepsClass class) bytes →
        IsShortAhead class (bytes ++ (piece.now ++ more)) f.is_cut f.finding))) }
    ensures refused { IfErr result (λ e. (bytes more : List ℕ) → HasReadRegister (λ q. q.items) (λ q. q.items)
        (λ q. q.items) (λ q. q.items) (λ v. v.items) recording.old bytes →
        RefusesRegisterText e (bytes ++ (piece.now ++ more))) }
{
    if stop {
        return read_register_lines(recording, class, piece);
    }
    recording.read(piece)?;
    Ok(None)
}

// The finding on a recording whose text ends here.
fn found_at_end<A: Allocator + Copy>(
    recording: &Recorded<A>,
) -> Result<FoundRegister, RegisterTextFault>
    ensures found { IfOk result (λ found. (bytes : List ℕ) → HasReadRegister (λ q. q.items) (λ q. q.items)
        (λ q. q.items) (λ q. q.items) (λ v. v.items) recording.now bytes →
        IsRegisterFoundIn bytes found.is_cut found.finding) }
    ensures refused { IfErr result (λ e. (bytes : List ℕ) → HasReadRegister (λ q. q.items) (λ q. q.items)
        (λ q. q.items) (λ q. q.items) (λ v. v.items) recording.now bytes → RefusesRegisterText e bytes) }
{
    let finding = recording.finding()?;
    Ok(FoundRegister {
        finding,
        is_cut: recording.is_cut(),
    })
}

// Reads the input in pieces and returns the finding: it reads to the end or, with `stop`, to the first line at which
// the class is missed. It records whether it reaches the end.
#[tactic(auto, unfolding(crate::specs::Answers::IsRegisterCause))]
fn read_register<A: Allocator + Copy, I: Read>(
    recording: &mut Recorded<A>,
    at_end: &mut bool,
    class: Class,
    stop: bool,
    input: &mut I,
) -> Result<FoundRegister, Refusal>
    requires begins { HasReadRegister (λ q. q.items) (λ q. q.items) (λ q. q.items) (λ q. q.items) (λ v. v.items)
        recording.old [] }
    ensures found { IfSome (I.remaining input.old) (λ bytes.
        IfOk result (λ found. IsRegisterFoundBy stop class bytes found.is_cut found.finding)) }
    ensures refused { IfSome (I.remaining input.old) (λ bytes. IfErr result (IsRegisterCause bytes)) }
{
    let mut piece = [0u8; PIECE];
    for _ in 0..u64::MAX {
        let count = match input.read(&mut piece) {
            Ok(count) => count,
            Err(_) => return Err(Refusal::App(AppFault::ReadFailed)),
        };
        if count == 0 {
            *at_end = true;
            return Ok(found_at_end(recording)?);
        }
        if let Some(found) = read_register_piece(recording, class, stop, &piece[..count])? {
            return Ok(found);
        }
    }
    Err(Refusal::Register(RegisterTextFault::TooLong))
}

// A class by its name.
fn class_words(class: Class) -> &'static str
    ensures { result.now ≡ class_words class }
{
    match class {
        Class::Safe => "safe",
        Class::Regular => "regular",
        Class::AtomicByReader => "atomic by reader",
        Class::Atomic => "atomic",
    }
}

// The line of the strongest class.
fn push_class<A: Allocator>(text: &mut String<A>, class: Option<Class>) -> Result<(), AppFault>
    ensures text { OnOk result (string_bytes text.new ≡ string_bytes text.old ++ class_line class) }
    ensures memory { IfErr result (λ e. e ≡ AppFault.OutOfMemory) }
{
    match class {
        Some(class) => {
            text.push_str(class_words(class))?;
            Ok(text.push_str("\n")?)
        }
        None => Ok(text.push_str("not safe\n")?),
    }
}

// The line of a class that is missed, if it is, and is not left out.
fn push_miss<A: Allocator + Copy>(
    alloc: A,
    text: &mut String<A>,
    class: Class,
    is_left_out: bool,
    miss: &Option<RegisterMiss>,
) -> Result<(), AppFault>
    ensures text { OnOk result (string_bytes text.new ≡ string_bytes text.old ++ miss_line class is_left_out miss.now) }
    ensures memory { IfErr result (λ e. e ≡ AppFault.OutOfMemory) }
{
    if is_left_out {
        return Ok(());
    }
    match *miss {
        Some(miss) => {
            let class = class_words(class);
            let line = format!(in alloc; "not {class}: {miss}\n")?;
            Ok(text.push_str(line.as_str())?)
        }
        None => Ok(()),
    }
}

// The lines of the classes that are missed.
fn push_misses<A: Allocator + Copy>(
    alloc: A,
    text: &mut String<A>,
    misses: &Misses,
) -> Result<(), AppFault>
    ensures text { OnOk result (string_bytes text.new ≡ string_bytes text.old ++ misses_text_of misses.now) }
    ensures memory { IfErr result (λ e. e ≡ AppFault.OutOfMemory) }
{
    push_miss(alloc, text, Class::Safe, false, &misses.safe)?;
    let regular = is_same_line(&misses.regular, &misses.safe);
    push_miss(alloc, text, Class::Regular, regular, &misses.regular)?;
    let by_reader = is_same_line(&misses.by_reader, &misses.regular)
        || is_same_line(&misses.by_reader, &misses.atomic);
    push_miss(
        alloc,
        text,
        Class::AtomicByReader,
        by_reader,
        &misses.by_reader,
    )?;
    let atomic = is_same_line(&misses.atomic, &misses.regular);
    push_miss(alloc, text, Class::Atomic, atomic, &misses.atomic)
}

// The line which says that no read could invert, if none could.
fn none_inverts_words(count: usize) -> &'static str
    ensures { result.now ≡ none_inverts_line count }
{
    if count == 0 {
        "this recording cannot tell a regular register from an atomic one\n"
    } else {
        ""
    }
}

// The lines of a report.
fn push_report<A: Allocator>(text: &mut String<A>, report: &RegisterReport) -> Result<(), AppFault>
    ensures text { OnOk result (string_bytes text.new ≡ string_bytes text.old ++ register_report_text_of report.now) }
    ensures memory { IfErr result (λ e. e ≡ AppFault.OutOfMemory) }
{
    push_count(text, "writes", report.writes as u64)?;
    push_count(text, "reads", report.reads as u64)?;
    push_count(text, "overlapped", report.overlapped as u64)?;
    push_count(text, "by several", report.by_several as u64)?;
    push_count(text, "could invert", report.could_invert as u64)?;
    Ok(text.push_str(none_inverts_words(report.could_invert))?)
}

// The lines of a report, if requested.
fn push_report_if<A: Allocator>(
    text: &mut String<A>,
    is_asked: bool,
    report: &RegisterReport,
) -> Result<(), AppFault>
    ensures text { OnOk result (string_bytes text.new ≡ string_bytes text.old ++ report_if is_asked report.now) }
    ensures memory { IfErr result (λ e. e ≡ AppFault.OutOfMemory) }
{
    if is_asked {
        push_report(text, report)
    } else {
        Ok(())
    }
}

/// The text of a finding: the strongest class, a line for each class that is missed, a report if requested, and a line if the
/// recording says that later operations are missing; or the one line of an event that is out of turn.
pub(crate) fn register_text<A: Allocator + Copy>(
    alloc: A,
    report: bool,
    is_cut: bool,
    finding: &RegisterFinding,
) -> Result<String<A>, AppFault>
    ensures text { IfOk result (λ text. string_bytes text ≡ register_text_of report is_cut finding.now) }
    ensures memory { IfErr result (λ e. e ≡ AppFault.OutOfMemory) }
{
    match finding {
        RegisterFinding::Judged {
            class,
            misses,
            report: counts,
        } => {
            let mut text = String::new(alloc);
            push_class(&mut text, *class)?;
            push_misses(alloc, &mut text, misses)?;
            push_report_if(&mut text, report, counts)?;
            text.push_str(cut_words(is_cut))?;
            Ok(text)
        }
        RegisterFinding::OutOfTurn { line } => {
            Ok(format!(in alloc; "fault: line {line}: out of turn\n")?)
        }
    }
}

// How an audit with this finding ends, if the class is requested.
fn register_ending(class: Class, finding: &RegisterFinding) -> Ending
    ensures { result ≡ register_ending_of class finding.now }
{
    if finding.falls_short(class) {
        Ending::FaultFound
    } else {
        Ending::Done
    }
}

/// The answer of `audit --register`, by a recording that has read nothing yet. It records whether it reaches the end of the input.
#[tactic(auto, unfolding(crate::specs::Answers::IsRegisterCause))]
pub(crate) fn register_answer<A: Allocator + Copy, I: Read>(
    alloc: A,
    recording: &mut Recorded<A>,
    at_end: &mut bool,
    question: RegisterQuestion,
    input: &mut I,
) -> Result<Answer<A>, Refusal>
    requires begins { HasReadRegister (λ q. q.items) (λ q. q.items) (λ q. q.items) (λ q. q.items) (λ v. v.items)
        recording.old [] }
    ensures answered { IfSome (I.remaining input.old) (λ bytes. IfOk result (λ answer.
        Answers (Request.Register question) bytes (string_bytes answer.text) answer.ending)) }
    ensures refused { IfSome (I.remaining input.old) (λ bytes. IfErr result (IsTrueCause (Request.Register question) bytes)) }
    ensures ends { IfOk result (λ answer. MayEnd (Request.Register question) answer.ending) }
{
    let found = read_register(recording, at_end, question.at_least, question.stop, input)?;
    let text = register_text(alloc, question.report, found.is_cut, &found.finding)?;
    let ending = register_ending(question.at_least, &found.finding);
    Ok(Answer { text, ending })
}
