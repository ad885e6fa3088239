//! The play of a script.
ghost use Rattle.std.specs.Prelude.{◌≤◌, ◌⊎◌, IfErr, IfOk, None, Some, length, string_bytes};
ghost use Rattle.trace_text.specs.declared.traces.TheConstants.{EVENT_LIMIT};
ghost use Rattle.ring_program.specs.Answers.{IsOutOfMemory, PlaysScript, RefusesScript, ShowsPlay};

use crate::answers::{Answer, Ending};
use crate::command_line::PlayText;
use crate::faults::Refusal;
use crate::reports::report_text;
use crate::tellings::{calls_text, near_text};
use near_misses::{NearMiss, play_near};
use ring_player::{Script, play, play_calls};
use std::alloc::{Allocator, Global};
use trace_text::write_trace;

// The report of a play.
#[tactic(auto, unfolding(crate::specs::Answers::IsOutOfMemory))]
fn report<A: Allocator + Copy>(alloc: A, script: &Script<A>) -> Result<String<A>, Refusal>
    ensures told { IfOk result (λ text. ShowsPlay PlayText.Report script.now (string_bytes text)) }
    ensures memory { IfErr result IsOutOfMemory }
{
    let report = play(alloc, script)?;
    Ok(report_text(alloc, &report)?)
}

// The trace of a play.
#[tactic(auto, unfolding(crate::specs::Answers::IsOutOfMemory))]
fn trace<A: Allocator + Copy>(alloc: A, script: &Script<A>) -> Result<String<A>, Refusal>
    requires short { length script.now.letters ≤ EVENT_LIMIT }
    ensures told { IfOk result (λ text. ShowsPlay (PlayText.Trace None) script.now (string_bytes text)) }
    ensures memory { IfErr result IsOutOfMemory }
{
    let report = play(alloc, script)?;
    Ok(write_trace(alloc, &script.shape(), report.history.as_slice())?)
}

// The calls of a play.
#[tactic(auto, unfolding(crate::specs::Answers::IsOutOfMemory))]
fn calls<A: Allocator + Copy>(alloc: A, script: &Script<A>) -> Result<String<A>, Refusal>
    ensures told { IfOk result (λ text. ShowsPlay (PlayText.Calls None) script.now (string_bytes text)) }
    ensures memory { IfErr result IsOutOfMemory }
{
    let told = play_calls(alloc, script)?;
    Ok(calls_text(alloc, script, told.as_slice())?)
}

// The trace of a play by a near miss.
#[tactic(auto, unfolding(crate::specs::Answers::IsOutOfMemory))]
fn wrong_trace<A: Allocator + Copy>(
    alloc: A,
    miss: NearMiss,
    script: &Script<A>,
) -> Result<String<A>, Refusal>
    ensures told { IfOk result (λ text. ShowsPlay (PlayText.Trace (Some miss)) script.now (string_bytes text)) }
    ensures memory { IfErr result IsOutOfMemory }
{
    let play = play_near(alloc, miss, script)?;
    Ok(write_trace(alloc, &script.shape(), play.history.as_slice())?)
}

// The calls of a play by a near miss.
#[tactic(auto, unfolding(crate::specs::Answers::IsOutOfMemory))]
fn wrong_calls<A: Allocator + Copy>(
    alloc: A,
    miss: NearMiss,
    script: &Script<A>,
) -> Result<String<A>, Refusal>
    ensures told { IfOk result (λ text. ShowsPlay (PlayText.Calls (Some miss)) script.now (string_bytes text)) }
    ensures memory { IfErr result IsOutOfMemory }
{
    let play = play_near(alloc, miss, script)?;
    Ok(near_text(alloc, script, play.told.as_slice(), play.taken.as_slice())?)
}

// The text of a play.
fn play_text<A: Allocator + Copy>(
    alloc: A,
    shows: PlayText,
    script: &Script<A>,
) -> Result<String<A>, Refusal>
    requires short { length script.now.letters ≤ EVENT_LIMIT }
    ensures told { IfOk result (λ text. ShowsPlay shows script.now (string_bytes text)) }
    ensures memory { IfErr result IsOutOfMemory }
{
    match shows {
        PlayText::Report => report(alloc, script),
        PlayText::Trace(None) => trace(alloc, script),
        PlayText::Calls(None) => calls(alloc, script),
        PlayText::Trace(Some(miss)) => wrong_trace(alloc, miss, script),
        PlayText::Calls(Some(miss)) => wrong_calls(alloc, miss, script),
    }
}

/// The answer of `play` on an input.
#[tactic(auto, unfolding(crate::specs::Answers::IsOutOfMemory))]
pub fn play_answer<A: Allocator + Copy>(
    alloc: A,
    json: Global,
    shows: PlayText,
    input: &[u8],
) -> Result<Answer<A>, Refusal>
    ensures answered { IfOk result (λ answer. PlaysScript shows input.now (string_bytes answer.text) answer.ending) }
    ensures refused { IfErr result (λ e. IsOutOfMemory e ⊎ RefusesScript input.now e) }
{
    let script = Script::read_in(alloc, json, input)?;
    let text = play_text(alloc, shows, &script)?;
    Ok(Answer {
        text,
        ending: Ending::Done,
    })
}
