//! The text of a report.
ghost use Rattle.std.specs.Prelude.{◌≡◌, IfOk, IfErr, string_bytes};
ghost use Rattle.ring_program.specs.Texts.{report_text_of, summary_of};

use crate::faults::AppFault;
use crate::lines::{push_count, push_list, told_words};
use bits_core::Event;
use ring_player::Report;
use std::alloc::Allocator;

/// The text of a report: a line each for the number of events, the items put, the items taken, whether
/// a take returned Closed, and how many puts found the ring full, takes found it empty, and reads were
/// overlapped by a write.
///
/// In use: `lamport_ring play`.
#[tactic(auto, using(std::proofs::Common::codes, crate::proofs::TextLemmas::behind))]
pub fn report_text<A: Allocator, B: Allocator>(
    alloc: A,
    report: &Report<'_, Vec<Event, B>, Vec<u64, B>>,
) -> Result<String<A>, AppFault>
    ensures text { IfOk result (λ text. string_bytes text ≡ report_text_of (summary_of report.now)) }
    ensures memory { IfErr result (λ e. e ≡ AppFault.OutOfMemory) }
{
    let mut text = String::new(alloc);
    push_count(&mut text, "events", report.history.len() as u64)?;
    push_list(&mut text, "put", report.put)?;
    push_list(&mut text, "taken", report.taken.as_slice())?;
    text.push_str(told_words(report.told))?;
    push_count(&mut text, "full", report.full)?;
    push_count(&mut text, "empty", report.empty)?;
    push_count(&mut text, "flicker", report.flicker)?;
    Ok(text)
}
