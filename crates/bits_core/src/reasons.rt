//! Why an event may not follow the events before it.
ghost use Rattle.std.specs.Prelude.{◌≡◌, ◌≢◌, ℕ, false, List, MatchOption, Some, IfSome};
ghost use Rattle.std.specs.List.{list_any};
ghost use Rattle.bits_core.specs.History.{IsLastPlace, has_event};
ghost use Rattle.bits_core.specs.Lawful.{IsLawful};
ghost use Rattle.bits_core.specs.Marks.{AreMarks, IsInTable};
ghost use Rattle.bits_core.specs.Reasons.{IsLastWritten, IsReasonBehind, ends_write};
ghost use Rattle.bits_core.specs.Shape.{IsByRightSide};
ghost use Rattle.bits_core.specs.Steps.{IsInTurn, IsPermitted, MayFollow};

use crate::audits::{doer, fault_of, is_by_right_side, is_in_turn, is_permitted};
use crate::events::{Access, Act, Bit, Event, Side};
use crate::marks::{Marks, same_bit};
use crate::shapes::Shape;

/// Why an event may not follow the events before it. Places are counted from 0.
///
/// For example, `Held { value: true, since: None, begun: 0 }` if the first event began a read of s0, which holds 1
/// from the start, and the next ends it with the answer 0.
#[derive(Clone, Copy, PartialEq, Eq, Debug)]
pub enum Reason {
    /// The bit is not in the shape.
    NotInShape,
    /// Only this side may do this to the bit.
    OnlyBy(Side),
    /// The side has this access open, which began at the place `begun`.
    StillOpen {
        access: Access,
        begun: usize,
    },
    /// The side has no access open.
    NothingOpen,
    /// No write overlapped the read, which began at the place `begun`. At that place the bit held `value`, since
    /// the place `since` at which the last write of it ended, or from the start.
    Held {
        value: bool,
        since: Option<usize>,
        begun: usize,
    },
}

// The place of the side's last event.
fn last_place(events: &[Event], side: Side) -> Option<usize>
    ensures { MatchOption result (has_event side events.now ≡ false) (IsLastPlace side events.now) }
{
    for place in (0..events.len()).rev() {
        if events[place].side == side {
            return Some(place);
        }
    }
    None
}

// Whether the event ends a write of the bit.
fn ends_write(bit: Bit, event: Event) -> bool
    ensures { result ≡ ends_write bit event }
{
    match event.act {
        Act::WriteEnd => same_bit(bit, event.bit),
        _ => false,
    }
}

// The place at which a write of the bit last ended.
fn last_written(events: &[Event], bit: Bit) -> Option<usize>
    ensures { MatchOption result (list_any (ends_write bit) events.now ≡ false) (IsLastWritten bit events.now) }
{
    for place in (0..events.len()).rev() {
        if ends_write(bit, events[place]) {
            return Some(place);
        }
    }
    None
}

// The marks of these events, if they are lawful.
fn marks_of(shape: &Shape, events: &[Event]) -> Option<Marks>
    ensures { MatchOption result (¬ IsLawful shape.now events.now) (AreMarks shape.now events.now) }
{
    let mut marks = Marks::new();
    for (place, event) in events.iter().enumerate() {
        match fault_of(shape, &marks, *event) {
            Some(_) => return None,
            None => marks.record(*event),
        }
    }
    Some(marks)
}

// Why the event is not by the right side.
fn side_reason(shape: &Shape, event: Event) -> Reason
    requires { ¬ IsByRightSide shape.now event }
    ensures { (past : List Event) → IsReasonBehind shape.now past event result }
{
    if shape.has(event.bit) {
        Reason::OnlyBy(doer(event.bit, event.act))
    } else {
        Reason::NotInShape
    }
}

// Why the event is not in turn.
fn turn_reason(shape: &Shape, marks: &Marks, past: &[Event], event: Event) -> Option<Reason>
    requires marks { AreMarks shape.now past.now marks.now }
    requires right_side { IsByRightSide shape.now event }
    requires not_in_turn { ¬ IsInTurn past.now event }
    ensures { MatchOption result (¬ IsLawful shape.now past.now) (IsReasonBehind shape.now past.now event) }
{
    match marks.open_access(event.side) {
        None => Some(Reason::NothingOpen),
        Some(access) => {
            let begun = last_place(past, event.side)?;
            Some(Reason::StillOpen { access, begun })
        }
    }
}

// Why the read's answer is not permitted.
fn answer_reason(shape: &Shape, marks: &Marks, past: &[Event], event: Event) -> Option<Reason>
    requires marks { AreMarks shape.now past.now marks.now }
    requires in_table { IsInTable event.bit }
    requires right_side { IsByRightSide shape.now event }
    requires in_turn { IsInTurn past.now event }
    requires not_permitted { ¬ IsPermitted past.now event }
    ensures { MatchOption result (¬ IsLawful shape.now past.now) (IsReasonBehind shape.now past.now event) }
{
    let value = marks.settled(event.side, event.bit)?;
    let begun = last_place(past, event.side)?;
    let since = last_written(&past[..begun], event.bit);
    Some(Reason::Held {
        value,
        since,
        begun,
    })
}

// Why the event may not follow these, whose marks these are.
pub fn reason_by(shape: &Shape, marks: &Marks, past: &[Event], event: Event) -> Option<Reason>
    requires marks { AreMarks shape.now past.now marks.now }
    ensures none { result ≡ None → MayFollow shape.now past.now event }
    ensures reason { IfSome result (λ reason. (¬ MayFollow shape.now past.now event) ×
        IsReasonBehind shape.now past.now event reason) }
{
    if !is_by_right_side(shape, event) {
        return Some(side_reason(shape, event));
    }
    if !is_in_turn(marks, event) {
        return turn_reason(shape, marks, past, event);
    }
    if is_permitted(marks, event) {
        return None;
    }
    answer_reason(shape, marks, past, event)
}

/// Why the event may not follow these, in terms that can be looked up in them. `None` if it may follow, or if these
/// are not lawful.
///
/// If an audit reports a fault at a place, other than `NotProgram`, pass the events before that place, and the event
/// there. It goes over them at most twice and takes no memory.
///
/// In use: `lamport_ring audit --why`, which prints it.
pub fn reason_behind(shape: &Shape, past: &[Event], event: Event) -> Option<Reason>
    ensures none { result ≡ None → IsLawful shape.now past.now → MayFollow shape.now past.now event }
    ensures reason { IfSome result (λ reason. IsLawful shape.now past.now × (¬ MayFollow shape.now past.now event) ×
        IsReasonBehind shape.now past.now event reason) }
{
    let marks = marks_of(shape, past)?;
    reason_by(shape, &marks, past, event)
}
