//! The texts of the audits' answers.
ghost use Rattle.std.specs.Prelude.{◌≡◌, IfOk, IfErr, string_bytes};
ghost use Rattle.ring_audit.specs.Audit.{statement};
ghost use Rattle.ring_program.specs.Texts.{audit_text_of, fault_line, lists_text_of, verdict_text_of};

use crate::faults::AppFault;
use crate::lines::{push_list, told_words};
use bits_core::{Kind, Verdict};
use ring_audit::Finding;
use std::alloc::Allocator;

// The line of the fault at a place.
fn fault_text<A: Allocator>(alloc: A, place: usize, kind: Kind) -> Result<String<A>, AppFault>
    ensures text { IfOk result (λ text. string_bytes text ≡ fault_line place kind) }
    ensures memory { IfErr result (λ e. e ≡ AppFault.OutOfMemory) }
{
    let line = place as u128 + 2;
    Ok(format!(in alloc; "fault: line {line}: {kind}\n")?)
}

/// The text of a verdict, one line.
///
/// In use: `lamport_ring audit --bits`.
pub fn verdict_text<A: Allocator>(alloc: A, verdict: &Verdict) -> Result<String<A>, AppFault>
    ensures text { IfOk result (λ text. string_bytes text ≡ verdict_text_of verdict.now) }
    ensures memory { IfErr result (λ e. e ≡ AppFault.OutOfMemory) }
{
    match *verdict {
        Verdict::Lawful => Ok(String::from_str(alloc, "lawful\n")?),
        Verdict::Fault { place, kind } => fault_text(alloc, place, kind),
    }
}

// The lines of a history that is lawful and of the programs.
#[tactic(auto, using(std::proofs::Common::codes, crate::proofs::TextLemmas::behind))]
fn lists_text<A: Allocator>(
    alloc: A,
    put: &[u64],
    taken: &[u64],
    told: bool,
) -> Result<String<A>, AppFault>
    ensures text { IfOk result (λ text. string_bytes text ≡ lists_text_of put.now taken.now told) }
    ensures memory { IfErr result (λ e. e ≡ AppFault.OutOfMemory) }
{
    let mut text = String::from_str(alloc, "lawful\n")?;
    push_list(&mut text, "put", put)?;
    push_list(&mut text, "taken", taken)?;
    text.push_str(told_words(told))?;
    Ok(text)
}

/// The text of a finding: `lawful`, with the items put, the items taken and whether a take returned Closed, a line
/// each; or the one line of the fault.
///
/// In use: `lamport_ring audit`.
pub fn audit_text<A: Allocator, B: Allocator>(
    alloc: A,
    finding: &Finding<B>,
) -> Result<String<A>, AppFault>
    ensures text { IfOk result (λ text. string_bytes text ≡ audit_text_of (statement finding.now)) }
    ensures memory { IfErr result (λ e. e ≡ AppFault.OutOfMemory) }
{
    match finding {
        Finding::Lawful { put, taken, told } => {
            lists_text(alloc, put.as_slice(), taken.as_slice(), *told)
        }
        Finding::Fault { place, kind } => fault_text(alloc, *place, *kind),
    }
}
