//! The audit of a recorded history of safe bits.
ghost use Rattle.std.specs.Prelude.{◌≡◌, ℕ, ◌↔◌, IsTrue, List, [], ◌∷◌, ◌++◌, IfNone, MatchOption, slice_set};
ghost use Rattle.bits_core.specs.declared.events.Event.{Event};
ghost use Rattle.bits_core.specs.declared.shapes.Shape.{Shape};
ghost use Rattle.bits_core.specs.Bits.{doer};
ghost use Rattle.bits_core.specs.Shape.{IsByRightSide};
ghost use Rattle.bits_core.specs.Steps.{FitsOpen, IsInTurn, IsPermitted, MayFollow};
ghost use Rattle.bits_core.specs.Lawful.{IsLawful};
ghost use Rattle.bits_core.specs.Audit.{IsFaultAfter, IsVerdict};
ghost use Rattle.bits_core.specs.Marks.{AreMarks, IsInTable};
ghost use Rattle.bits_core.specs.Memory.{is_flicker};
ghost use Rattle.bits_core.specs.Reasons.{HasReason};
ghost use Rattle.bits_core.specs.Seen.{AreSeen, IsSeen, sound_count};

use crate::events::{Access, Act, Bit, Event, Side};
use crate::faults::Kind;
use crate::marks::Marks;
use crate::reasons::{Reason, reason_by};
use crate::shapes::Shape;

/// What an audit of a history reports.
///
/// In use: `uses::audits::is_lawful`.
#[derive(Clone, Copy, PartialEq, Eq, Debug)]
pub enum Verdict {
    /// The history is lawful.
    Lawful,
    /// The event at `place`, counted from 0, is the first that is at fault.
    Fault { place: usize, kind: Kind },
}

/// What is seen at an event of a lawful history.
///
/// For example, at `C got s0 0` during a write of s0 it is `overlapped`. In use: the page, which draws what was
/// seen.
#[derive(Clone, Copy, PartialEq, Eq, Debug)]
pub struct Seen {
    /// What the event's bit holds just after the event: the value of the last write of it that
    /// ended, or if none has, its first value.
    pub held: bool,
    /// The event ends a read that a write of its bit overlapped, so any answer was permitted.
    pub overlapped: bool,
    /// Just after the event one side has a read open, and the other a write of the same bit.
    pub clashes: bool,
}

// The side that may do this to the bit.
pub fn doer(bit: Bit, act: Act) -> Side
    ensures { result ≡ doer bit act }
{
    match act {
        Act::ReadBegin | Act::ReadEnd(_) => bit.reader(),
        Act::WriteBegin(_) | Act::WriteEnd => bit.writer(),
    }
}

// Whether the event's bit is in the shape, and its side may do this to it.
pub fn is_by_right_side(shape: &Shape, event: Event) -> bool
    ensures { IsTrue result ↔ IsByRightSide shape.now event }
{
    shape.has(event.bit) && event.side == doer(event.bit, event.act)
}

// Whether the act begins an access while none is open, or ends the open one.
fn fits_open(bit: Bit, act: Act, opened: Option<Access>) -> bool
    ensures { IsTrue result ↔ FitsOpen bit act opened }
{
    match act {
        Act::ReadBegin | Act::WriteBegin(_) => opened.is_none(),
        Act::ReadEnd(_) => opened == Some(Access::Read(bit)),
        Act::WriteEnd => match opened {
            Some(Access::Write(written, _)) => written == bit,
            _ => false,
        },
    }
}

// Whether the event is in turn: it begins an access while none is open, or ends the open one.
pub fn is_in_turn(marks: &Marks, event: Event) -> bool
    ensures { (shape : Shape) (past : List Event) → AreMarks shape past marks.now → IsTrue result ↔
        IsInTurn past event }
{
    fits_open(event.bit, event.act, marks.open_access(event.side))
}

// Whether the answer is permitted, if the event ends a read in turn.
pub fn is_permitted(marks: &Marks, event: Event) -> bool
    requires { IsInTable event.bit }
    ensures { (shape : Shape) (past : List Event) → AreMarks shape past marks.now → IsInTurn past event →
        IsTrue result ↔ IsPermitted past event }
{
    match event.act {
        Act::ReadEnd(value) => match marks.settled(event.side, event.bit) {
            Some(held) => value == held,
            None => true,
        },
        _ => true,
    }
}

// What is wrong with an event after the events before it.
pub fn fault_of(shape: &Shape, marks: &Marks, event: Event) -> Option<Kind>
    ensures found { (past : List Event) → AreMarks shape.now past marks.now →
        MatchOption result (MayFollow shape.now past event) (IsFaultAfter shape.now past event) }
    ensures in_table { IfNone result (IsInTable event.bit) }
{
    if !is_by_right_side(shape, event) {
        return Some(Kind::WrongSide);
    }
    if !is_in_turn(marks, event) {
        return Some(Kind::OutOfTurn);
    }
    if !is_permitted(marks, event) {
        return Some(Kind::NotPermitted);
    }
    None
}

/// The audit of [`audit_bits`], of events fed one by one. It takes no memory, whatever their number.
///
/// For example, a new one of the shape `1 3 1` accepts `P write s1 1`, and after it refuses `C got s1 0`
/// as `OutOfTurn`: C has no read open.
#[derive(Drop)]
pub struct BitAuditor {
    shape: Shape,
    marks: Marks,
}

impl BitAuditor {
    ghost use Rattle.std.specs.Prelude.{None, IfNone, IfSome};
    ghost use Rattle.bits_core.specs.Auditors.{HeardEvents};

    /// An auditor of this shape, which has been fed no event.
    pub fn new(shape: &Shape) -> BitAuditor
        ensures { HeardEvents result shape.now [] }
    {
        BitAuditor {
            shape: *shape,
            marks: Marks::new(),
        }
    }

    /// Feeds it the next event. `None` says that it may follow the events accepted so far, so that together they are a lawful
    /// history. Otherwise the first kind of fault that applies to it is returned, and the auditor is unchanged.
    pub fn feed(&mut self, event: Event) -> Option<Kind>
        // It is accepted exactly when it may follow.
        ensures accepts { (shape : Shape) (past : List Event) → HeardEvents self.old shape past → (result ≡ None) ↔
            MayFollow shape past event }
        ensures kind { (shape : Shape) (past : List Event) → HeardEvents self.old shape past →
            IfSome result (IsFaultAfter shape past event) }
        ensures heard { IfNone result ((shape : Shape) (past : List Event) → HeardEvents self.old shape past →
            HeardEvents self.new shape (past ++ event ∷ [])) }
        ensures unchanged { IfSome result (λ kind. self.new ≡ self.old) }
    {
        match fault_of(&self.shape, &self.marks, event) {
            Some(kind) => Some(kind),
            None => {
                self.marks.record(event);
                None
            }
        }
    }
}

/// Whether the events are a lawful history of safe bits of the shape (Lamport, 1986), and if not,
/// the first event at fault and the first kind that applies to it.
///
/// A read that a write of its bit overlaps may answer anything, even if the write does not change
/// the bit; any other read answers the value that the bit held when the read began. An access may
/// be open at the end. One pass over a slice of any length, with no memory taken.
///
/// In use: `uses::audits::is_lawful`.
pub fn audit_bits(shape: &Shape, events: &[Event]) -> Verdict
    ensures verdict { IsVerdict shape.now events.now result }
    ensures lawful { (result ≡ Verdict.Lawful) ↔ IsLawful shape.now events.now }
{
    let mut auditor = BitAuditor::new(shape);
    for (place, event) in events.iter().enumerate() {
        match auditor.feed(*event) {
            Some(kind) => return Verdict::Fault { place, kind },
            None => {}
        }
    }
    Verdict::Lawful
}

// Whether the event, which may follow, ends a read that a write overlapped.
fn ends_overlapped(marks: &Marks, event: Event) -> bool
    requires { IsInTable event.bit }
    ensures { (shape : Shape) (past : List Event) → AreMarks shape past marks.now → MayFollow shape past event →
        result ≡ is_flicker past event }
{
    match event.act {
        Act::ReadEnd(_) => marks.settled(event.side, event.bit).is_none(),
        _ => false,
    }
}

// Records one more event, which may follow, and returns what is seen there.
fn see(marks: &mut Marks, event: Event) -> Seen
    requires { IsInTable event.bit }
    ensures marks { (shape : Shape) (past : List Event) → AreMarks shape past marks.old → MayFollow shape past event →
        AreMarks shape (past ++ event ∷ []) marks.new }
    ensures seen { (shape : Shape) (past : List Event) → AreMarks shape past marks.old → MayFollow shape past event →
        IsSeen past event result }
{
    let overlapped = ends_overlapped(marks, event);
    marks.record(event);
    Seen {
        held: marks.held(event.bit),
        overlapped,
        clashes: marks.clashes(),
    }
}

// Stores what is seen at this place, if there is room for it.
fn tell(seen: &mut [Seen], place: usize, found: Seen)
    ensures { seen.new ≡ slice_set seen.old place found }
{
    if place < seen.len() {
        seen[place] = found;
    }
}

/// The audit of [`audit_bits`], which also returns why the event at fault may not follow those before it, and what is seen
/// at each event before it (at each event, if none is at fault), in order, for as many as there is room for. The rest of
/// the room is unchanged. It takes no memory.
///
/// In use: the page, which has a buffer of fixed size and no allocator.
pub fn audit_bits_into(
    shape: &Shape,
    events: &[Event],
    seen: &mut [Seen],
) -> (Verdict, Option<Reason>)
    ensures verdict { IsVerdict shape.now events.now result.0 }
    ensures why { HasReason shape.now events.now result.0 result.1 }
    ensures seen { AreSeen events.now (sound_count events.now result.0) seen.old seen.new }
{
    let mut marks = Marks::new();
    for (place, event) in events.iter().enumerate() {
        if let Some(kind) = fault_of(shape, &marks, *event) {
            let why = reason_by(shape, &marks, &events[..place], *event);
            return (Verdict::Fault { place, kind }, why);
        }
        tell(seen, place, see(&mut marks, *event));
    }
    (Verdict::Lawful, None)
}
