//! The audit of a trace kept in memory.
ghost use Rattle.std.specs.Prelude.{◌≡◌, ◌⊎◌, IfErr, IfOk, OnOk, string_bytes};
ghost use Rattle.trace_text.specs.Trace.{IsTrace};
ghost use Rattle.ring_program.specs.Answers.{AuditsTrace, IsJudged, IsOutOfMemory, RefusesTrace, TellsJudged, verdict_ending_of};
ghost use Rattle.ring_program.specs.Why.{IsFaultThere};

use crate::answers::{Answer, Ending};
use crate::command_line::Audited;
use crate::faults::{AppFault, Refusal};
use crate::texts::{audit_text, verdict_text};
use crate::why::{push_why, verdict_of};
use bits_core::{Event, Shape, Verdict, audit_bits};
use ring_audit::audit;
use std::alloc::Allocator;
use trace_text::read_trace;

/// How an audit with this verdict ends.
pub fn verdict_ending(verdict: Verdict) -> Ending
    ensures { result ≡ verdict_ending_of verdict }
{
    match verdict {
        Verdict::Lawful => Ending::Done,
        Verdict::Fault { .. } => Ending::FaultFound,
    }
}

// The finding on the events, and the verdict in it.
#[tactic(auto, unfolding(crate::specs::Answers::IsOutOfMemory))]
fn judge<A: Allocator + Copy>(
    alloc: A,
    what: Audited,
    shape: &Shape,
    events: &[Event],
) -> Result<(String<A>, Verdict), Refusal>
    ensures judged { IfOk result (λ judged. IsJudged what shape.now events.now (string_bytes judged.0) judged.1) }
    ensures memory { IfErr result IsOutOfMemory }
{
    match what {
        Audited::Programs => {
            let finding = audit(alloc, shape, events)?;
            let text = audit_text(alloc, &finding)?;
            Ok((text, verdict_of(&finding)))
        }
        Audited::Bits => {
            let verdict = audit_bits(shape, events);
            let text = verdict_text(alloc, &verdict)?;
            Ok((text, verdict))
        }
    }
}

// Appends the lines with the reason for the event at fault, if they are requested.
fn push_asked<A: Allocator>(
    text: &mut String<A>,
    why: bool,
    shape: &Shape,
    events: &[Event],
    verdict: Verdict,
) -> Result<(), AppFault>
    requires there { IsFaultThere shape.now events.now verdict }
    ensures told { OnOk result
        (TellsJudged why shape.now events.now verdict (string_bytes text.old) (string_bytes text.new)) }
    ensures err { IfErr result (λ e. e ≡ AppFault.OutOfMemory) }
{
    if why {
        push_why(text, shape, events, verdict)
    } else {
        Ok(())
    }
}

/// The answer of `audit` on an input.
#[tactic(auto, unfolding(crate::specs::Answers::IsOutOfMemory))]
pub fn audit_answer<A: Allocator + Copy>(
    alloc: A,
    what: Audited,
    why: bool,
    input: &[u8],
) -> Result<Answer<A>, Refusal>
    ensures answered { IfOk result (λ answer.
        AuditsTrace IsTrace what why input.now (string_bytes answer.text) answer.ending) }
    ensures refused { IfErr result (λ e. IsOutOfMemory e ⊎ RefusesTrace input.now e) }
{
    let (shape, events) = read_trace(alloc, input)?;
    let (mut text, verdict) = judge(alloc, what, &shape, events.as_slice())?;
    push_asked(&mut text, why, &shape, events.as_slice(), verdict)?;
    let ending = verdict_ending(verdict);
    Ok(Answer { text, ending })
}
