//! The audit of the bits of a trace of any length.
ghost use Rattle.std.specs.Prelude.{List, IfOk, IfErr, IfSome, string_bytes};
ghost use Rattle.bits_core.specs.Audit.{IsVerdict};
ghost use Rattle.trace_text.specs.Trace.{IsTraceText};
ghost use Rattle.bits_core.specs.declared.events.Event.{Event};
ghost use Rattle.bits_core.specs.declared.shapes.Shape.{Shape};
ghost use Rattle.ring_program.specs.Answers.{Answers, IsLongBitsCause, IsTrueCause, MayEnd};
ghost use Rattle.ring_program.specs.declared.command_line.Request.TheVariants as Request;

use crate::answers::Answer;
use crate::audits::verdict_ending;
use crate::faults::{AppFault, Refusal};
use crate::texts::verdict_text;
use bits_core::Verdict;
use std::alloc::Allocator;
use std::io::Read;
use trace_text::{TraceAudit, TraceFault};

// How many bytes are read at once.
const PIECE: usize = 65_536;

// Reads the input to its end, in pieces, and returns the verdict on its bits.
#[tactic(auto, unfolding(crate::specs::Answers::IsLongBitsCause))]
fn read_long_bits<I: Read>(input: &mut I) -> Result<Verdict, Refusal>
    ensures told { IfSome (I.remaining input.old) (λ bytes. IfOk result (λ verdict.
        (shape : Shape) × (events : List Event) × IsTraceText bytes shape events × IsVerdict shape events verdict)) }
    ensures refused { IfSome (I.remaining input.old) (λ bytes. IfErr result (IsLongBitsCause bytes)) }
{
    let mut audit = TraceAudit::new();
    let mut piece = [0u8; PIECE];
    for _ in 0..u64::MAX {
        let count = match input.read(&mut piece) {
            Ok(count) => count,
            Err(_) => return Err(Refusal::App(AppFault::ReadFailed)),
        };
        if count == 0 {
            return Ok(audit.verdict()?);
        }
        audit.read(&piece[..count])?;
    }
    Err(Refusal::Trace(TraceFault::TooLong))
}

/// The answer of `audit --bits --long`.
#[tactic(auto, unfolding(crate::specs::Answers::IsLongBitsCause))]
pub fn long_bits_answer<A: Allocator + Copy, I: Read>(
    alloc: A,
    input: &mut I,
) -> Result<Answer<A>, Refusal>
    ensures answered { IfSome (I.remaining input.old) (λ bytes. IfOk result (λ answer.
        Answers Request.LongBits bytes (string_bytes answer.text) answer.ending)) }
    ensures refused { IfSome (I.remaining input.old) (λ bytes. IfErr result (IsTrueCause Request.LongBits bytes)) }
    ensures ends { IfOk result (λ answer. MayEnd Request.LongBits answer.ending) }
{
    let verdict = read_long_bits(input)?;
    let text = verdict_text(alloc, &verdict)?;
    let ending = verdict_ending(verdict);
    Ok(Answer { text, ending })
}
