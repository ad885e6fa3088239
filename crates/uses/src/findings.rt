//! Findings of audits, as they are read: how many items are still inside, a sentence, and the finding on a text that comes in pieces.
ghost use Rattle.std.specs.Prelude.{◌≡◌, ◌↔◌, IfErr, IfOk, IfSome, IsSome, flat_map, string_bytes};
ghost use Rattle.ring_audit.specs.Audit.{IsOfPrograms, statement};
ghost use Rattle.queue_calls.specs.Recordings.{IsFindingOf, RefusesText};
ghost use Rattle.uses.specs.Findings.{HasLeft, fault_words, history_words, sentence};
ghost use Rattle.uses.specs.Judged.{JudgesLine};

use bits_core::{Event, Kind, Shape};
use queue_calls::{CallsFinding, Lent, Lists, Recording, RecordingFault, RecordingIn};
use ring_audit::{AuditFault, Finding, audit};
use std::alloc::{AllocError, Allocator};

/// How many items of a history of the ring were put and not taken. `None` if the history is not one.
pub fn left_inside<A: Allocator + Copy>(
    alloc: A,
    shape: &Shape,
    events: &[Event],
) -> Result<Option<usize>, AuditFault>
    ensures found { IfOk result (λ left. IsSome left ↔ IsOfPrograms shape.now events.now) }
    ensures left { IfOk result (λ left. IfSome left (HasLeft shape.now events.now)) }
{
    match audit(alloc, shape, events)? {
        Finding::Lawful {
            put,
            taken,
            told: _,
        } => Ok(Some(put.len() - taken.len())),
        Finding::Fault { place: _, kind: _ } => Ok(None),
    }
}

// For a history of the ring: how many items were put and taken, and how it ends.
fn history_words<A: Allocator>(
    alloc: A,
    put: usize,
    taken: usize,
    end: &str,
) -> Result<String<A>, AllocError>
    ensures { IfOk result (λ text. string_bytes text ≡ history_words put taken end.now) }
{
    Ok(format!(in alloc; "a history of the ring: {put} put, {taken} taken, {end}")?)
}

// For a fault.
fn fault_words<A: Allocator>(alloc: A, place: usize, kind: Kind) -> Result<String<A>, AllocError>
    ensures { IfOk result (λ text. string_bytes text ≡ fault_words place kind) }
{
    Ok(format!(in alloc; "event {place} is at fault: {kind}")?)
}

/// The finding as text.
pub fn sentence_of<A: Allocator, B: Allocator>(
    alloc: A,
    finding: &Finding<B>,
) -> Result<String<A>, AllocError>
    ensures { IfOk result (λ text. string_bytes text ≡ sentence (statement finding.now)) }
{
    match finding {
        Finding::Lawful { put, taken, told } => {
            let end = if *told { "closed" } else { "open" };
            history_words(alloc, put.len(), taken.len(), end)
        }
        Finding::Fault { place, kind } => fault_words(alloc, *place, *kind),
    }
}

/// The finding on a text of recorded calls that comes in pieces, cut anywhere.
pub fn found_in<A: Allocator + Copy>(
    alloc: A,
    pieces: &[&[u8]],
) -> Result<CallsFinding, RecordingFault>
    ensures found { IfOk result (IsFindingOf (flat_map (λ piece. piece.now) pieces.now)) }
    ensures refused { IfErr result (λ e. RefusesText e (flat_map (λ piece. piece.now) pieces.now)) }
{
    let mut recording = Recording::new(alloc);
    'pieces: for piece in pieces {
        recording.read(piece)?;
    }
    recording.finding()
}

/// The finding on a text, with no memory but these lists in caller-supplied slots.
pub fn found_in_slots(lists: Lists<Lent<'_>>, text: &[u8]) -> Result<CallsFinding, RecordingFault>
    ensures found { IfOk result (IsFindingOf text.now) }
    ensures refused { IfErr result (λ e. RefusesText e text.now) }
{
    let mut recording = RecordingIn::within(lists);
    recording.read(text)?;
    recording.finding()
}

/// The line at which the history of such a text stops being linearizable, counted from 1; `None` if it never does.
pub fn line_at_fault<A: Allocator + Copy>(
    alloc: A,
    pieces: &[&[u8]],
) -> Result<Option<u64>, RecordingFault>
    ensures judged { IfOk result (JudgesLine (flat_map (λ piece. piece.now) pieces.now)) }
    ensures refused { IfErr result (λ e. RefusesText e (flat_map (λ piece. piece.now) pieces.now)) }
{
    match found_in(alloc, pieces)? {
        CallsFinding::Lawful(_) => Ok(None),
        CallsFinding::OutOfTurn { line } => Ok(Some(line)),
        CallsFinding::NotLinearizable { line, cause: _ } => Ok(Some(line)),
    }
}
