//! The lines with the reason for the event at fault.
ghost use Rattle.std.specs.Prelude.{◌≡◌, ◌++◌, ℕ, List, IfErr, OnOk, string_bytes};
ghost use Rattle.bits_core.specs.Lawful.{IsLawful};
ghost use Rattle.bits_core.specs.Steps.{MayFollow};
ghost use Rattle.trace_text.specs.TraceText.{digit_text, event_line};
ghost use Rattle.ring_audit.specs.Audit.{statement};
ghost use Rattle.ring_program.specs.Why.{AreDues, IsFaultThere, TellsReason, TellsWhy, due_line, due_lines, held_line, line_words, only_line, open_line, reason_line, side_letter, since_words, verdict_in};

use crate::faults::AppFault;
use bits_core::{Access, Event, Kind, Reason, Shape, Side, Verdict, reason_behind};
use itoa::Buffer;
use ring_audit::{Dues, Finding, due_behind};
use std::alloc::Allocator;
use trace_text::push_event;

// The line of an event, after a text.
fn push_line<A: Allocator>(text: &mut String<A>, event: Event) -> Result<(), AppFault>
    ensures ok { OnOk result (string_bytes text.new ≡ string_bytes text.old ++ event_line event) }
    ensures err { IfErr result (λ e. e ≡ AppFault.OutOfMemory) }
{
    match push_event(text, event) {
        Ok(()) => Ok(()),
        Err(_) => Err(AppFault::OutOfMemory),
    }
}

fn push_due<A: Allocator>(text: &mut String<A>, event: Option<Event>) -> Result<(), AppFault>
    ensures ok { OnOk result (string_bytes text.new ≡ string_bytes text.old ++ due_line event) }
    ensures err { IfErr result (λ e. e ≡ AppFault.OutOfMemory) }
{
    match event {
        None => Ok(()),
        Some(event) => {
            text.push_str("due: ")?;
            push_line(text, event)
        }
    }
}

fn push_dues<A: Allocator>(text: &mut String<A>, dues: &Dues) -> Result<(), AppFault>
    ensures ok { OnOk result (string_bytes text.new ≡ string_bytes text.old ++ due_lines dues.now) }
    ensures err { IfErr result (λ e. e ≡ AppFault.OutOfMemory) }
{
    match (dues.first, dues.second, dues.third) {
        (None, None, None) => Ok(text.push_str("due: nothing\n")?),
        (first, second, third) => {
            push_due(text, first)?;
            push_due(text, second)?;
            push_due(text, third)
        }
    }
}

// The line of the event at a place.
fn push_place<A: Allocator>(text: &mut String<A>, place: usize) -> Result<(), AppFault>
    ensures ok { OnOk result (string_bytes text.new ≡ string_bytes text.old ++ line_words place) }
    ensures err { IfErr result (λ e. e ≡ AppFault.OutOfMemory) }
{
    let mut buffer = Buffer::new();
    text.push_str(" line ")?;
    Ok(text.push_str(buffer.format(place as u128 + 2))?)
}

fn push_since<A: Allocator>(text: &mut String<A>, since: Option<usize>) -> Result<(), AppFault>
    ensures ok { OnOk result (string_bytes text.new ≡ string_bytes text.old ++ since_words since) }
    ensures err { IfErr result (λ e. e ≡ AppFault.OutOfMemory) }
{
    match since {
        None => Ok(text.push_str(" since the start")?),
        Some(place) => {
            text.push_str(" since")?;
            push_place(text, place)
        }
    }
}

fn letter_of(side: Side) -> &'static str
    ensures { result.now ≡ side_letter side }
{
    match side {
        Side::P => "P",
        Side::C => "C",
    }
}

fn digit_of(value: bool) -> &'static str
    ensures { result.now ≡ digit_text value }
{
    if value { " 1" } else { " 0" }
}

// That only this side may do it.
fn push_doer<A: Allocator>(text: &mut String<A>, doer: Side) -> Result<(), AppFault>
    ensures ok { OnOk result (string_bytes text.new ≡ string_bytes text.old ++ only_line doer) }
    ensures err { IfErr result (λ e. e ≡ AppFault.OutOfMemory) }
{
    text.push_str("only by: ")?;
    text.push_str(letter_of(doer))?;
    Ok(text.push_str("\n")?)
}

// That the side has this access open, since the event at a place.
fn push_open<A: Allocator>(
    text: &mut String<A>,
    side: Side,
    access: Access,
    begun: usize,
) -> Result<(), AppFault>
    ensures ok { OnOk result (string_bytes text.new ≡ string_bytes text.old ++ open_line side access begun) }
    ensures err { IfErr result (λ e. e ≡ AppFault.OutOfMemory) }
{
    text.push_str("open since")?;
    push_place(text, begun)?;
    text.push_str(": ")?;
    push_line(text, access.opening(side))
}

// What the bit held, since when, and where the read began.
#[tactic(auto, using(std::proofs::Common::codes, crate::proofs::TextLemmas::behind))]
fn push_held<A: Allocator>(
    text: &mut String<A>,
    value: bool,
    since: Option<usize>,
    begun: usize,
) -> Result<(), AppFault>
    ensures ok { OnOk result (string_bytes text.new ≡ string_bytes text.old ++ held_line value since begun) }
    ensures err { IfErr result (λ e. e ≡ AppFault.OutOfMemory) }
{
    text.push_str("held:")?;
    text.push_str(digit_of(value))?;
    push_since(text, since)?;
    text.push_str(", where the read began at")?;
    push_place(text, begun)?;
    Ok(text.push_str("\n")?)
}

// The line of a reason why an event of the side may not follow.
fn push_reason<A: Allocator>(
    text: &mut String<A>,
    side: Side,
    reason: Reason,
) -> Result<(), AppFault>
    ensures ok { OnOk result (string_bytes text.new ≡ string_bytes text.old ++ reason_line side reason) }
    ensures err { IfErr result (λ e. e ≡ AppFault.OutOfMemory) }
{
    match reason {
        Reason::NotInShape => Ok(text.push_str("outside: no bit of the shape\n")?),
        Reason::OnlyBy(doer) => push_doer(text, doer),
        Reason::StillOpen { access, begun } => push_open(text, side, access, begun),
        Reason::NothingOpen => Ok(text.push_str("open: nothing\n")?),
        Reason::Held {
            value,
            since,
            begun,
        } => push_held(text, value, since, begun),
    }
}

// Why the bits do not permit the event after these.
fn push_fault<A: Allocator>(
    text: &mut String<A>,
    shape: &Shape,
    past: &[Event],
    event: Event,
) -> Result<(), AppFault>
    requires lawful { IsLawful shape.now past.now }
    requires faulty { ¬ MayFollow shape.now past.now event }
    ensures told { OnOk result ((more : List ℕ) × (string_bytes text.new ≡ string_bytes text.old ++ more) ×
        TellsReason shape.now past.now event more) }
    ensures err { IfErr result (λ e. e ≡ AppFault.OutOfMemory) }
{
    match reason_behind(shape, past, event) {
        Some(reason) => push_reason(text, event.side, reason),
        // (there is one, as the event may not follow)
        None => Ok(()),
    }
}

// The events of the side that continue the programs after these.
fn push_instead<A: Allocator>(
    text: &mut String<A>,
    shape: &Shape,
    past: &[Event],
    side: Side,
) -> Result<(), AppFault>
    ensures told { OnOk result ((more : List ℕ) × (string_bytes text.new ≡ string_bytes text.old ++ more) ×
        (dues : Dues) × AreDues shape.now past.now side dues × (more ≡ due_lines dues)) }
    ensures err { IfErr result (λ e. e ≡ AppFault.OutOfMemory) }
{
    let dues = due_behind(shape, past, side);
    push_dues(text, &dues)
}

/// Appends the lines with the reason for the event at fault, if there is one.
pub fn push_why<A: Allocator>(
    text: &mut String<A>,
    shape: &Shape,
    events: &[Event],
    verdict: Verdict,
) -> Result<(), AppFault>
    requires there { IsFaultThere shape.now events.now verdict }
    ensures told { OnOk result ((more : List ℕ) × (string_bytes text.new ≡ string_bytes text.old ++ more) ×
        TellsWhy shape.now events.now verdict more) }
    ensures err { IfErr result (λ e. e ≡ AppFault.OutOfMemory) }
{
    match verdict {
        Verdict::Lawful => Ok(()),
        Verdict::Fault { place, kind } => {
            let event = events[place];
            match kind {
                Kind::NotProgram => push_instead(text, shape, &events[..place], event.side),
                Kind::WrongSide => push_fault(text, shape, &events[..place], event),
                Kind::OutOfTurn => push_fault(text, shape, &events[..place], event),
                Kind::NotPermitted => push_fault(text, shape, &events[..place], event),
            }
        }
    }
}

/// The verdict that is in a finding.
pub fn verdict_of<A: Allocator>(finding: &Finding<A>) -> Verdict
    ensures { result ≡ verdict_in (statement finding.now) }
{
    match finding {
        Finding::Lawful { .. } => Verdict::Lawful,
        Finding::Fault { place, kind } => Verdict::Fault {
            place: *place,
            kind: *kind,
        },
    }
}
