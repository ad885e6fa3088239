//! The audit of recorded calls.
ghost use Rattle.std.specs.Prelude.{◌≡◌, ◌≢◌, ◌⊎◌, ◌<◌, ◌++◌, List, [], ◌∷◌, ℕ, IfOk, IfErr, IfSome, MatchOption, length, string_bytes, true};
ghost use Rattle.call_causes.specs.Causes.{cause_words};
ghost use Rattle.queue_calls.specs.RecordingStates.{HasRead};
ghost use Rattle.queue_calls.specs.Recordings.{RefusesText};
ghost use Rattle.ring_program.specs.Answers.{Answers, IsCallsCause, IsTrueCause, MayEnd};
ghost use Rattle.ring_program.specs.declared.command_line.Request.TheVariants as Request;
ghost use Rattle.ring_program.specs.Readings.{IsFaultAhead, IsFaultless, IsFoundBy, IsFoundIn, IsOneLine, calls_ending_of};
ghost use Rattle.ring_program.specs.Texts.{calls_report_text_of, calls_text_of, cut_line};

use crate::answers::{Answer, Ending};
use crate::faults::{AppFault, Refusal};
use crate::lines::{push_count, push_list, told_words};
use line_parts::split_line;
use queue_calls::{CallsFinding, CallsReport, Recording, RecordingFault};
use std::alloc::Allocator;
use std::io::Read;

// How many bytes are read at once.
const PIECE: usize = 65_536;

// The finding on a recording, and whether it says that the later calls are missing; for one with a fault that is not reported.
#[derive(Clone, Copy)]
struct CallsFound {
    finding: CallsFinding,
    is_cut: bool,
}

/// The bytes to the first line feed, including it, and those after it.
pub fn first_line(bytes: &[u8]) -> (&[u8], &[u8])
    ensures parts { bytes.now ≡ result.0.now ++ result.1.now }
    ensures line { IsOneLine result.0.now }
    ensures less { bytes.now ≢ [] → length result.1.now < length bytes.now }
{
    match split_line(bytes) {
        Some((front, _)) => bytes.split_at(front.len() + 1),
        None => (bytes, &[]),
    }
}

// Reads a piece line by line, to the first fault.
fn read_lines<A: Allocator + Copy>(
    recording: &mut Recording<A>,
    piece: &[u8],
) -> Result<Option<CallsFinding>, RecordingFault>
    ensures read { IfOk result (λ fault. MatchOption fault
        (((bytes : List ℕ) → HasRead (λ q. q.items) (λ q. q.items) (λ v. v.items) recording.old bytes →
        HasRead (λ q. q.items) (λ q. q.items) (λ v. v.items) recording.new (bytes ++ piece.now))
        × ((bytes : List ℕ) → HasRead (λ q. q.items) (λ q. q.items) (λ v. v.items) recording.old bytes →
        IsFaultless bytes → IsFaultless (bytes ++ piece.now)))
        (λ found. (bytes more : List ℕ) → HasRead (λ q. q.items) (λ q. q.items) (λ v. v.items) recording.old bytes →
        IsFaultless bytes → IsFaultAhead (bytes ++ (piece.now ++ more)) found)) }
    ensures refused { IfErr result (λ e. (bytes more : List ℕ) →
        HasRead (λ q. q.items) (λ q. q.items) (λ v. v.items) recording.old bytes →
        RefusesText e (bytes ++ (piece.now ++ more))) }
{
    let mut rest = piece;
    while !rest.is_empty() {
        let (line, more) = first_line(rest);
        recording.read(line)?;
        if let Some(fault) = recording.fault() {
            return Ok(Some(fault));
        }
        rest = more;
    }
    Ok(None)
}

// Reads a piece; if it should stop there, only up to the first fault.
#[tactic(auto, using(crate::proofs::ReadingLemmas::with_stop))]
fn read_piece<A: Allocator + Copy>(
    recording: &mut Recording<A>,
    stop: bool,
    piece: &[u8],
) -> Result<Option<CallsFinding>, RecordingFault>
    ensures read { IfOk result (λ fault. MatchOption fault
        (((bytes : List ℕ) → HasRead (λ q. q.items) (λ q. q.items) (λ v. v.items) recording.old bytes →
        HasRead (λ q. q.items) (λ q. q.items) (λ v. v.items) recording.new (bytes ++ piece.now))
        × (stop ≡ true → (bytes : List ℕ) → HasRead (λ q. q.items) (λ q. q.items) (λ v. v.items) recording.old bytes →
        IsFaultless bytes → IsFaultless (bytes ++ piece.now)))
        (λ found. (stop ≡ true) ×
        ((bytes more : List ℕ) → HasRead (λ q. q.items) (λ q. q.items) (λ v. v.items) recording.old bytes →
        IsFaultless bytes → IsFaultAhead (bytes ++ (piece.now ++ more)) found))) }
    ensures refused { IfErr result (λ e. (bytes more : List ℕ) →
        HasRead (λ q. q.items) (λ q. q.items) (λ v. v.items) recording.old bytes →
        RefusesText e (bytes ++ (piece.now ++ more))) }
{
    if stop {
        return read_lines(recording, piece);
    }
    recording.read(piece)?;
    Ok(None)
}

// The finding on a recording whose text ends here.
fn found_at_end<A: Allocator + Copy>(recording: &Recording<A>) -> Result<CallsFound, RecordingFault>
    ensures found { IfOk result (λ found. (bytes : List ℕ) →
        HasRead (λ q. q.items) (λ q. q.items) (λ v. v.items) recording.now bytes →
        IsFoundIn bytes found.is_cut found.finding) }
    ensures refused { IfErr result (λ e. (bytes : List ℕ) →
        HasRead (λ q. q.items) (λ q. q.items) (λ v. v.items) recording.now bytes → RefusesText e bytes) }
{
    let finding = recording.finding()?;
    Ok(CallsFound {
        finding,
        is_cut: recording.is_cut(),
    })
}

// Reads the input in pieces, to its end, or if it should stop there, to the first fault; and returns the finding. It records
// whether it reaches the end.
#[tactic(auto, unfolding(crate::specs::Answers::IsCallsCause))]
fn read_calls<A: Allocator + Copy, I: Read>(
    recording: &mut Recording<A>,
    at_end: &mut bool,
    stop: bool,
    input: &mut I,
) -> Result<CallsFound, Refusal>
    requires begins { HasRead (λ q. q.items) (λ q. q.items) (λ v. v.items) recording.old [] }
    ensures found { IfSome (I.remaining input.old) (λ bytes.
        IfOk result (λ found. IsFoundBy stop bytes found.is_cut found.finding)) }
    ensures refused { IfSome (I.remaining input.old) (λ bytes. IfErr result (IsCallsCause bytes)) }
{
    let mut piece = [0u8; PIECE];
    for _ in 0..u64::MAX {
        let count = match input.read(&mut piece) {
            Ok(count) => count,
            Err(_) => return Err(Refusal::App(AppFault::ReadFailed)),
        };
        if count == 0 {
            *at_end = true;
            return Ok(found_at_end(recording)?);
        }
        if let Some(finding) = read_piece(recording, stop, &piece[..count])? {
            return Ok(CallsFound {
                finding,
                is_cut: false,
            });
        }
    }
    Err(Refusal::Calls(RecordingFault::TooLong))
}

// The text of a report.
#[tactic(auto, using(std::proofs::Common::codes, crate::proofs::TextLemmas::behind))]
fn report_text<A: Allocator>(alloc: A, report: &CallsReport) -> Result<String<A>, AppFault>
    ensures text { IfOk result (λ text. string_bytes text ≡ calls_report_text_of report.now) }
    ensures memory { IfErr result (λ e. e ≡ AppFault.OutOfMemory) }
{
    let mut text = String::from_str(alloc, "lawful\n")?;
    push_count(&mut text, "calls", report.calls as u64)?;
    push_count(&mut text, "stored", report.stored as u64)?;
    push_count(&mut text, "taken", report.taken as u64)?;
    push_count(&mut text, "full", report.full as u64)?;
    push_count(&mut text, "empty", report.empty as u64)?;
    push_count(&mut text, "nothing", report.nothing as u64)?;
    text.push_str(told_words(report.told))?;
    let inside = [report.surely_inside as u64, report.perhaps_inside as u64];
    push_list(&mut text, "inside", &inside)?;
    push_count(&mut text, "overlapped", report.overlapped as u64)?;
    push_count(&mut text, "open", report.under_way as u64)?;
    Ok(text)
}

/// The line that says that what comes later is missing, if it is.
pub fn cut_words(is_cut: bool) -> &'static str
    ensures { result.now ≡ cut_line is_cut }
{
    if is_cut { "cut yes\n" } else { "" }
}

// The text of a report, and whether the later calls are missing.
fn lawful_text<A: Allocator>(
    alloc: A,
    is_cut: bool,
    report: &CallsReport,
) -> Result<String<A>, AppFault>
    ensures text { IfOk result (λ text. string_bytes text ≡ calls_report_text_of report.now ++ cut_line is_cut) }
    ensures memory { IfErr result (λ e. e ≡ AppFault.OutOfMemory) }
{
    let mut text = report_text(alloc, report)?;
    text.push_str(cut_words(is_cut))?;
    Ok(text)
}

/// The text of a finding: `lawful`, with a line for each number of the report, and one if the recording says that the later calls
/// are missing; or the one line of the fault.
pub fn calls_text<A: Allocator>(
    alloc: A,
    is_cut: bool,
    finding: &CallsFinding,
) -> Result<String<A>, AppFault>
    ensures text { IfOk result (λ text. string_bytes text ≡ calls_text_of is_cut finding.now) }
    ensures memory { IfErr result (λ e. e ≡ AppFault.OutOfMemory) }
{
    match *finding {
        CallsFinding::Lawful(report) => lawful_text(alloc, is_cut, &report),
        CallsFinding::OutOfTurn { line } => {
            Ok(format!(in alloc; "fault: line {line}: out of turn\n")?)
        }
        CallsFinding::NotLinearizable { line, cause } => {
            Ok(format!(in alloc; "fault: line {line}: {cause}\n")?)
        }
    }
}

// How an audit with this finding ends.
fn calls_ending(finding: &CallsFinding) -> Ending
    ensures { result ≡ calls_ending_of finding.now }
{
    match finding {
        CallsFinding::Lawful(_) => Ending::Done,
        CallsFinding::OutOfTurn { .. } | CallsFinding::NotLinearizable { .. } => Ending::FaultFound,
    }
}

/// The answer of `audit --calls`, by a recording that has read nothing yet. It records whether it reaches the end of the input.
#[tactic(auto, unfolding(crate::specs::Answers::IsCallsCause))]
pub fn calls_answer<A: Allocator + Copy, I: Read>(
    alloc: A,
    recording: &mut Recording<A>,
    at_end: &mut bool,
    stop: bool,
    input: &mut I,
) -> Result<Answer<A>, Refusal>
    requires begins { HasRead (λ q. q.items) (λ q. q.items) (λ v. v.items) recording.old [] }
    ensures answered { IfSome (I.remaining input.old) (λ bytes. IfOk result (λ answer.
        Answers (Request.Calls stop) bytes (string_bytes answer.text) answer.ending)) }
    ensures refused { IfSome (I.remaining input.old) (λ bytes. IfErr result (IsTrueCause (Request.Calls stop) bytes)) }
    ensures ends { IfOk result (λ answer. MayEnd (Request.Calls stop) answer.ending) }
{
    let found = read_calls(recording, at_end, stop, input)?;
    let text = calls_text(alloc, found.is_cut, &found.finding)?;
    let ending = calls_ending(&found.finding);
    Ok(Answer { text, ending })
}
