//! Reading the text of a trace.
ghost use Rattle.std.specs.Prelude.{◌≡◌, ◌<◌, ◌≤◌, ◌⊎◌, ℕ, List, [], IfOk, IfErr, MatchOption, MatchResult, length, take};
ghost use Rattle.bits_core.specs.declared.events.Event.{Event};
ghost use Rattle.bits_core.specs.declared.shapes.Shape.{Shape};
ghost use Rattle.trace_text.specs.Trace.{BeginsWithEvent, BeginsWithMore, BeginsWithShape, HasBadShape, HasMore, HasNoEvent, HasShapeLine, IsTrace, IsTraceFault};

use crate::faults::TraceFault;
use crate::reading::{event_at, shape_at};
use bits_core::{Event, Shape, ShapeFault};
use lists::{Filled, Store};
use std::alloc::Allocator;

/// The most events that a trace may have.
///
/// For example, `lamport_ring audit` refuses a trace of one more event as `trace has too many events`.
pub const EVENT_LIMIT: usize = 1_000_000;

/// The shape of the first line, if one is at the front, and the bytes after it.
pub fn first_shape(bytes: &[u8]) -> Result<Option<(Shape, &[u8])>, ShapeFault>
    ensures read { IfOk result (λ found. MatchOption found
        ((capacity modulus width batch take_batch : ℕ) →
        ¬ HasShapeLine bytes.now capacity modulus width batch take_batch)
        (λ x. BeginsWithShape bytes.now x.0 x.1.now)) }
    ensures refused { IfErr result (HasBadShape bytes.now) }
{
    let Some((numbers, rest)) = shape_at(bytes) else {
        return Ok(None);
    };
    match Shape::with_batches(
        numbers.capacity,
        numbers.modulus,
        numbers.width,
        numbers.batch,
        numbers.take_batch,
    ) {
        Ok(shape) => Ok(Some((shape, rest))),
        Err(fault) => Err(fault),
    }
}

// The shape of the first line, and the bytes after the line.
fn read_shape(bytes: &[u8]) -> Result<(Shape, &[u8]), TraceFault>
    ensures read { IfOk result (λ x. BeginsWithShape bytes.now x.0 x.1.now) }
    ensures refused { IfErr result (IsTraceFault bytes.now) }
{
    match first_shape(bytes) {
        Ok(Some(found)) => Ok(found),
        Ok(None) => Err(TraceFault::BadLine(1)),
        Err(fault) => Err(TraceFault::BadShape(fault)),
    }
}

/// The event of the shape whose line is at the front, and the bytes after the line.
pub fn read_event<'a>(shape: &Shape, bytes: &'a [u8]) -> Option<(Event, &'a [u8])>
    ensures { MatchOption result (HasNoEvent shape.now bytes.now)
        (λ x. BeginsWithEvent shape.now bytes.now x.0 x.1.now) }
{
    let (event, rest) = event_at(bytes)?;
    if shape.has(event.bit) {
        Some((event, rest))
    } else {
        None
    }
}

// The shape of the first line, and the event of each further line in an empty store, or the first fault.
fn read_lines<S: Store<Event>>(store: &mut S, bytes: &[u8]) -> Result<Shape, TraceFault>
    requires empty { S.items store.old ≡ [] }
    ensures read { IfOk result (λ shape. IsTrace bytes.now shape (S.items store.new)) }
    ensures refused { IfErr result (λ e. ((e ≡ TraceFault.OutOfMemory) × S.refuses store.new ×
        HasMore bytes.now (S.items store.new)) ⊎ IsTraceFault bytes.now e) }
    ensures slots { (first : S) → S.same_slots first store.old → S.same_slots first store.new }
{
    let (shape, mut rest) = read_shape(bytes)?;
    while !rest.is_empty() {
        let count = store.as_slice().len();
        if count == EVENT_LIMIT {
            return Err(TraceFault::TooLong);
        }
        let Some((event, others)) = read_event(&shape, rest) else {
            return Err(TraceFault::BadLine(count as u64 + 2));
        };
        store.reserve()?;
        store.add(event);
        rest = others;
    }
    Ok(shape)
}

/// Reads a trace: the shape of line 1, and the event of each further line, all of the bytes.
///
/// The first fault in the order of the lines is returned: line 1 is not of its form, then its numbers
/// make no shape; for a further line, it is one more event than a trace may have, then it is
/// unfinished, not of its form, or names a bit that is not in the shape. Neither sides nor turns are
/// checked: that is the audit's work. Memory is needed only for the events, and out of memory is
/// reported if a growth was refused.
///
/// For example, the text `shape 1 3 1` with its line feed is a trace with no event.
pub fn read_trace<A: Allocator>(
    alloc: A,
    bytes: &[u8],
) -> Result<(Shape, Vec<Event, A>), TraceFault>
    // What is read is a trace.
    ensures read { IfOk result (λ trace. IsTrace bytes.now trace.0 trace.1.items) }
    // A trace is read, unless memory runs out.
    ensures only { (shape : Shape) (events : List Event) → IsTrace bytes.now shape events
        → MatchResult result (λ trace. (trace.0 ≡ shape) × (trace.1.items ≡ events)) (λ e. e ≡ TraceFault.OutOfMemory) }
    // The fault is the first one.
    ensures refused { IfErr result (λ e. (e ≡ TraceFault.OutOfMemory) ⊎ IsTraceFault bytes.now e) }
{
    let mut events = Vec::new(alloc);
    let shape = read_lines(&mut events, bytes)?;
    Ok((shape, events))
}

// The shape of the first line, and the event of each further line in an empty list of slots, or the first fault.
fn read_filled(filled: &mut Filled<'_, Event>, bytes: &[u8]) -> Result<Shape, TraceFault>
    requires empty { filled.old.used ≡ 0 }
    ensures read { IfOk result (λ shape. IsTrace bytes.now shape (take filled.new.used filled.new.slots.now)) }
    ensures only { (shape : Shape) (all : List Event) → IsTrace bytes.now shape all
        → MatchResult result (λ s. (s ≡ shape) × (take filled.new.used filled.new.slots.now ≡ all))
        (λ e. (e ≡ TraceFault.OutOfMemory) × (length filled.new.slots.now < length all)) }
    ensures refused { IfErr result (λ e. (e ≡ TraceFault.OutOfMemory) ⊎ IsTraceFault bytes.now e) }
    ensures full { IfErr result (λ e. e ≡ TraceFault.OutOfMemory →
        BeginsWithMore bytes.now (length filled.new.slots.now)) }
    ensures slots { filled.new.slots.ghost_name ≡ filled.old.slots.ghost_name }
{
    read_lines(filled, bytes)
}

/// Reads a trace as [`read_trace`] does, into the first slots of a caller-supplied slice, and returns
/// the shape and how many events there are. It takes no memory.
///
/// `OutOfMemory` means that the slice has no slot left for an event whose line is right, as are all
/// before it: no fault was found before the slots ended. Whatever the fault, the first slots may hold the
/// events of the lines before it.
///
/// In use: the page, which reads into slots of its own.
pub fn read_trace_into(bytes: &[u8], events: &mut [Event]) -> Result<(Shape, usize), TraceFault>
    // What is read is a trace.
    ensures read { IfOk result (λ trace. IsTrace bytes.now trace.0 (take trace.1 events.new)) }
    // There are no more events than slots.
    ensures within { IfOk result (λ trace. trace.1 ≤ length events.new) }
    // A trace is read, unless it has more events than there are slots.
    ensures only { (shape : Shape) (all : List Event) → IsTrace bytes.now shape all
        → MatchResult result (λ trace. (trace.0 ≡ shape) × (take trace.1 events.new ≡ all))
        (λ e. (e ≡ TraceFault.OutOfMemory) × (length events.new < length all)) }
    // The fault is the first one.
    ensures refused { IfErr result (λ e. (e ≡ TraceFault.OutOfMemory) ⊎ IsTraceFault bytes.now e) }
    // The slots are too few only if the text begins with a trace of more events.
    ensures full { IfErr result (λ e. e ≡ TraceFault.OutOfMemory → BeginsWithMore bytes.now (length events.new)) }
{
    let mut filled = Filled::new(events);
    let shape = read_filled(&mut filled, bytes)?;
    Ok((shape, filled.len()))
}
