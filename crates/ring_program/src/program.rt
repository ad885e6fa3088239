//! The program over a reader and two writers.
ghost use Rattle.std.specs.Prelude.{◌≡◌, ◌≤◌, ◌⊎◌, [], List, ℕ, Some, true, IfOk, IfErr, IfSome, IfNone, MatchResult, length, map, string_bytes};
ghost use Rattle.clap.specs.Words.{fault_of, kind_of};
ghost use Rattle.ring_program.specs.Answers.{Answers, AsksNoInput, Declines, Delivers, Ends, EndsUnasked, Explains, IsStatus, IsTrueCause};
ghost use Rattle.ring_program.specs.Faults.{Gains, IsInText, SaysRefusal};
ghost use Rattle.ring_program.specs.declared.inputs.TheConstants.{INPUT_LIMIT};
ghost use Rattle.register_recordings.specs.Reading.{HasReadRegister};
ghost use Rattle.ring_program.specs.CommandLine.{application, request_of};

use crate::answers::{Answer, Ending, Exit, give, refuse, tell};
use crate::audits::audit_answer;
use crate::causes::{Source, cause_of};
use crate::command_line::{Question, RegisterQuestion, Request, read_words};
use crate::faults::{AppFault, Refusal};
use crate::inputs::load;
use crate::long_bits::long_bits_answer;
use crate::mistakes::{tell_mistake, unnamed};
use crate::plays::play_answer;
use crate::recordings::calls_answer;
use crate::registers::{Recorded, new_recording, register_answer};
use crate::runs::run_answer;
use clap::Error;
use clap::error::ErrorKind;
use queue_calls::Recording;
use std::alloc::{AllocGlobal, Allocator, Global};
use std::fmt::InlineText;
use std::io::{Read, Write};
use std::thread::Threads;
use std::time::Clock;

/// The most bytes of the line that reports what is wrong in a text; none is that long.
const CAUSE_LINE: usize = 512;

// The answer to a question on an input.
fn answer_to<A: Allocator + Copy>(
    alloc: A,
    json: Global,
    question: Question,
    input: &[u8],
) -> Result<Answer<A>, Refusal>
    requires within { length input.now ≤ INPUT_LIMIT }
    ensures answered { IfOk result (λ answer.
        Answers (Request.OnInput question) input.now (string_bytes answer.text) answer.ending) }
    ensures refused { IfErr result (IsTrueCause (Request.OnInput question) input.now) }
{
    match question {
        Question::Audit { what, why } => audit_answer(alloc, what, why, input),
        Question::Play(shows) => play_answer(alloc, json, shows, input),
    }
}

// Reports what is wrong in a refused text, if there is something to report, and returns whether that was written.
fn tell_cause<E: Write>(json: Global, source: Source<'_>, refusal: Refusal, err: &mut E) -> bool
    ensures { (more : List ℕ) × ((more ≡ []) ⊎ IsInText refusal)
        × Gains (E.contents err.old) (E.contents err.new) result more }
{
    match cause_of(json, source, refusal) {
        Some(cause) => {
            let line = InlineText::<CAUSE_LINE>::of(format_args!("  {cause}\n"));
            tell(err, line.as_str().as_bytes())
        }
        None => true,
    }
}

// Reports why a request is refused, and what is wrong in its text.
fn refuse_on<E: Write>(json: Global, source: Source<'_>, refusal: Refusal, err: &mut E) -> Exit
    ensures status { result.status ≡ 1 }
    ensures told { SaysRefusal (Gains (E.contents err.old) (E.contents err.new) result.is_told) refusal }
{
    let exit = refuse(refusal, err);
    if !exit.is_told {
        return exit;
    }
    Exit {
        status: 1,
        is_told: tell_cause(json, source, refusal, err),
    }
}

/// Writes an answer completely, and reports on standard error how the program ends, or why the request is refused.
pub fn deliver<A: Allocator, O: Write, E: Write>(
    json: Global,
    source: Source<'_>,
    answered: Result<Answer<A>, Refusal>,
    out: &mut O,
    err: &mut E,
) -> Exit
    ensures delivered { MatchResult answered
        (λ answer. Delivers (string_bytes answer.text) answer.ending (O.contents out.old) (O.contents out.new)
        (Gains (E.contents err.old) (E.contents err.new) result.is_told) result.status)
        (λ e. Declines e (O.contents out.old) (O.contents out.new)
        (Gains (E.contents err.old) (E.contents err.new) result.is_told) result.status) }
    ensures quiet { (result.status ≡ 1) ⊎ ((err.new ≡ err.old) × (result.is_told ≡ true)) }
{
    match answered {
        Ok(answer) => give(answer.text.as_bytes(), answer.ending, out, err),
        Err(refusal) => refuse_on(json, source, refusal, err),
    }
}

// Reads the whole input, and answers the question about it.
fn answer_input<A: Allocator + Copy, I: Read, O: Write, E: Write>(
    alloc: A,
    json: Global,
    question: Question,
    input: &mut I,
    out: &mut O,
    err: &mut E,
) -> Exit
    ensures asked { Ends (Request.OnInput question) (I.remaining input.old) (O.contents out.old) (O.contents out.new)
        (Gains (E.contents err.old) (E.contents err.new) result.is_told) result.status }
    ensures quiet { (result.status ≡ 1) ⊎ ((err.new ≡ err.old) × (result.is_told ≡ true)) }
    ensures statuses { IsStatus (Some (Request.OnInput question)) result.status }
{
    match load(alloc, input) {
        Ok(bytes) => {
            let answered = answer_to(alloc, json, question, bytes.as_slice());
            deliver(json, Source::Input(bytes.as_slice()), answered, out, err)
        }
        Err(fault) => refuse(Refusal::App(fault), err),
    }
}

// Reads recorded calls in pieces, and writes the answer.
fn answer_calls<A: Allocator + Copy, I: Read, O: Write, E: Write>(
    alloc: A,
    json: Global,
    stop: bool,
    input: &mut I,
    out: &mut O,
    err: &mut E,
) -> Exit
    ensures asked { Ends (Request.Calls stop) (I.remaining input.old) (O.contents out.old) (O.contents out.new)
        (Gains (E.contents err.old) (E.contents err.new) result.is_told) result.status }
    ensures quiet { (result.status ≡ 1) ⊎ ((err.new ≡ err.old) × (result.is_told ≡ true)) }
    ensures statuses { IsStatus (Some (Request.Calls stop)) result.status }
{
    let mut recording = Recording::new(alloc);
    let mut at_end = false;
    let answered = calls_answer(alloc, &mut recording, &mut at_end, stop, input);
    let source = Source::of_line(recording.line(), !at_end);
    deliver(json, source, answered, out, err)
}

// Reads a recorded register in pieces, by a recording that has read nothing yet, and returns the answer.
fn answer_recorded<A: Allocator + Copy, I: Read, O: Write, E: Write>(
    alloc: A,
    json: Global,
    question: RegisterQuestion,
    unread: Recorded<A>,
    input: &mut I,
    out: &mut O,
    err: &mut E,
) -> Exit
    requires begins { HasReadRegister (λ q. q.items) (λ q. q.items) (λ q. q.items) (λ q. q.items) (λ v. v.items)
        unread [] }
    ensures asked { Ends (Request.Register question) (I.remaining input.old) (O.contents out.old) (O.contents out.new)
        (Gains (E.contents err.old) (E.contents err.new) result.is_told) result.status }
    ensures quiet { (result.status ≡ 1) ⊎ ((err.new ≡ err.old) × (result.is_told ≡ true)) }
    ensures statuses { IsStatus (Some (Request.Register question)) result.status }
{
    let mut recording = unread;
    let mut at_end = false;
    let answered = register_answer(alloc, &mut recording, &mut at_end, question, input);
    let source = Source::of_line(recording.line(), !at_end);
    deliver(json, source, answered, out, err)
}

// Reads a recorded register in pieces, and writes the answer.
fn answer_register<A: Allocator + Copy, I: Read, O: Write, E: Write>(
    alloc: A,
    json: Global,
    question: RegisterQuestion,
    input: &mut I,
    out: &mut O,
    err: &mut E,
) -> Exit
    ensures asked { Ends (Request.Register question) (I.remaining input.old) (O.contents out.old) (O.contents out.new)
        (Gains (E.contents err.old) (E.contents err.new) result.is_told) result.status }
    ensures quiet { (result.status ≡ 1) ⊎ ((err.new ≡ err.old) × (result.is_told ≡ true)) }
    ensures statuses { IsStatus (Some (Request.Register question)) result.status }
{
    match new_recording(alloc) {
        Ok(unread) => answer_recorded(alloc, json, question, unread, input, out, err),
        Err(_) => refuse(Refusal::App(AppFault::OutOfMemory), err),
    }
}

/// The program for a request: answers it, and writes the answer once it is complete.
pub fn respond<R: AllocGlobal + Threads + Clock, A: Allocator + Copy, I: Read, O: Write, E: Write>(
    rt: &R,
    alloc: A,
    request: Request,
    input: &mut I,
    out: &mut O,
    err: &mut E,
) -> Exit
    // The cause of a refusal is true, and the output is unchanged, unless a write failed.
    ensures asked { Ends request (I.remaining input.old) (O.contents out.old) (O.contents out.new)
        (Gains (E.contents err.old) (E.contents err.new) result.is_told) result.status }
    ensures unread { AsksNoInput (Some request) → input.new ≡ input.old }
    ensures quiet { (result.status ≡ 1) ⊎ ((err.new ≡ err.old) × (result.is_told ≡ true)) }
    ensures statuses { IsStatus (Some request) result.status }
{
    let json = rt.alloc();
    match request {
        Request::OnInput(question) => answer_input(alloc, json, question, input, out, err),
        Request::Calls { stop } => answer_calls(alloc, json, stop, input, out, err),
        Request::Register(question) => { answer_register(alloc, json, question, input, out, err) }
        Request::LongBits => {
            let answered = long_bits_answer(alloc, input);
            deliver(json, Source::Unkept, answered, out, err)
        }
        Request::Run(run) => {
            let answered = run_answer(rt, alloc, run);
            deliver(json, Source::Unkept, answered, out, err)
        }
    }
}

// Requested help goes to the output, and a fault of the command line to standard error.
fn explain<A: Allocator, O: Write, E: Write>(
    alloc: A,
    words: &[&str],
    error: &Error,
    out: &mut O,
    err: &mut E,
) -> Exit
    ensures explained { Explains (kind_of error.now) (O.contents out.old) (O.contents out.new)
        (Gains (E.contents err.old) (E.contents err.new) result.is_told) result.status }
    ensures quiet { (result.status ≡ 1) ⊎ ((result.status ≡ 2) ⊎ ((err.new ≡ err.old) × (result.is_told ≡ true))) }
{
    if error.kind() == ErrorKind::OutOfMemory {
        return refuse(Refusal::App(AppFault::OutOfMemory), err);
    }
    if error.use_stderr() {
        return Exit {
            status: 2,
            is_told: tell_mistake(words, error, err),
        };
    }
    let Ok(text) = error.to_string(alloc) else {
        return refuse(Refusal::App(AppFault::OutOfMemory), err);
    };
    give(text.as_bytes(), Ending::Done, out, err)
}

/// The whole program: `words` are its name and its arguments, and the answer is the exit status, with whether everything for
/// `err` was written.
///
/// It reads the command line, then the whole input, then works, and writes the answer to `out` once it is complete; recorded
/// calls, a recorded register and a trace of any length are read in pieces, and not kept; a run has no input, and none is read
/// for it. Status 0 says that it is done, and 3 that the audit found a fault. With status 1 it refuses and reports why on
/// `err`; then nothing was written to `out`, unless a write failed, or a run reached a limit, whose text is written all the
/// same. With status 2 the command line is wrong. If the words ask for help or the version, that is written to `out`, and
/// nothing is read. A fault of `err` itself changes no status: it ends what is reported, and the result says so.
///
/// In use: `main` of `lamport_ring` passes it the words and the streams of the process.
pub fn execute<
    'a,
    R: AllocGlobal + Threads + Clock,
    A: Allocator + Copy,
    I: Read,
    O: Write,
    E: Write,
>(rt: &R, alloc: A, words: &'a [&'a str], input: &mut I, out: &mut O, err: &mut E) -> Exit
    // By `Gains`: standard error gained the text of this cause, or, if not all was written, a prefix of it.
    ensures asked { IfSome (request_of (map (λ w. w.now) words.entry.now)) (λ request.
        Ends request (I.remaining input.old) (O.contents out.old) (O.contents out.new)
        (Gains (E.contents err.old) (E.contents err.new) result.is_told) result.status) }
    ensures unasked { IfNone (request_of (map (λ w. w.now) words.entry.now))
        (EndsUnasked (fault_of application (map (λ w. w.now) words.entry.now)) (O.contents out.old) (O.contents out.new)
        (Gains (E.contents err.old) (E.contents err.new) result.is_told) result.status) }
    // If nothing is asked about an input, nothing is read.
    ensures unread { AsksNoInput (request_of (map (λ w. w.now) words.entry.now)) → input.new ≡ input.old }
    // Nothing is written to standard error, and nothing had to be, unless the program refuses or the command line is wrong.
    ensures quiet { (result.status ≡ 1) ⊎ ((result.status ≡ 2) ⊎ ((err.new ≡ err.old) × (result.is_told ≡ true))) }
    // Whatever the reader and the writers do.
    ensures statuses { IsStatus (request_of (map (λ w. w.now) words.entry.now)) result.status }
{
    match read_words(rt.alloc(), words) {
        Ok(Some(request)) => respond(rt, alloc, request, input, out, err),
        Ok(None) => unnamed(words, err),
        Err(error) => explain(alloc, words, &error, out, err),
    }
}
