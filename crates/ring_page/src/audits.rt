//! The audit of a trace.
ghost use Rattle.std.specs.Prelude.{◌≡◌, ◌≤◌, ◌⊎◌, ℕ, length};
ghost use Rattle.bits_core.specs.Shape.{batch_of, capacity_of, modulus_of, take_batch_of, width_of};
ghost use Rattle.trace_text.specs.Trace.{IsTraceFault};
ghost use Rattle.ring_page.specs.Audit.{IsNothingSeen, TellsText, TellsFault, TellsShape, TellsVerdict};

use crate::marks::{Mark, put_marks};
use crate::programs::{Judged, tell_programs, unjudged};
use crate::reasons::since_when;
use bits_core::{Act, Bit, Event, Seen, Shape, Side, Verdict, audit_bits_into};
use trace_text::{TraceFault, read_trace_into};

/// The most events that a page reads or plays.
pub const EVENT_ROOM: usize = 10_000;

/// The result for a text, as numbers.
#[repr(C)]
#[derive(Clone, Copy, PartialEq, Eq, Debug)]
pub struct AuditTold {
    /// 0 lawful, 1 a fault of the history, 2 not a trace.
    pub outcome: u64,
    /// The number of the kind of the fault, or of the trace's fault.
    pub number: u64,
    /// The place of the event at fault, from 0; for a bad line its number, from 1.
    pub place: u64,
    /// The number of the shape's fault, if line 1 makes no shape.
    pub shape_fault: u64,
    /// How many events the trace has.
    pub count: u64,
    /// The numbers of the shape.
    pub capacity: u64,
    pub modulus: u64,
    pub width: u64,
    pub batch: u64,
    pub take_batch: u64,
    /// For an answer that is not permitted: after how many events the last write of its bit had ended; 0 if none had.
    pub since: u64,
    /// The result of the audit of programs.
    pub programs: Judged,
}

fn told_verdict(
    verdict: Verdict,
    shape: &Shape,
    count: usize,
    since: usize,
    programs: Judged,
) -> AuditTold
    ensures verdict { TellsVerdict verdict result }
    ensures shape { TellsShape shape.now result }
    ensures count { result.count ≡ count }
    ensures since { result.since ≡ since }
    ensures programs { result.programs ≡ programs }
{
    let (outcome, number, place) = match verdict {
        Verdict::Lawful => (0, 0, 0),
        Verdict::Fault { place, kind } => (1, u64::from(kind.number()), place as u64),
    };
    AuditTold {
        outcome,
        number,
        place,
        shape_fault: 0,
        count: count as u64,
        capacity: shape.capacity(),
        modulus: shape.modulus(),
        width: shape.width(),
        batch: shape.batch(),
        take_batch: shape.take_batch(),
        since: since as u64,
        programs,
    }
}

fn told_fault(fault: TraceFault) -> AuditTold
    ensures { TellsFault fault result }
{
    let (place, shape_fault) = match fault {
        TraceFault::BadLine(line) => (line, 0),
        TraceFault::BadShape(shape_fault) => (0, u64::from(shape_fault.number())),
        TraceFault::TooLong | TraceFault::OutOfMemory => (0, 0),
    };
    AuditTold {
        outcome: 2,
        number: u64::from(fault.number()),
        place,
        shape_fault,
        count: 0,
        capacity: 0,
        modulus: 0,
        width: 0,
        batch: 0,
        take_batch: 0,
        since: 0,
        programs: unjudged(),
    }
}

// The result for the text, with the marks of its events.
fn audited(
    text: &[u8],
    events: &mut [Event],
    seen: &mut [Seen],
    marks: &mut [Mark],
    put: &mut [u64],
    taken: &mut [u64],
) -> AuditTold
    requires room { length events.old ≡ EVENT_ROOM }
    requires seen { (length seen.old ≡ EVENT_ROOM) × IsNothingSeen seen.old }
    ensures { TellsText text.now marks.new put.new taken.new result }
{
    match read_trace_into(text, events) {
        Ok((shape, count)) => {
            let read = &events[..count];
            let (verdict, why) = audit_bits_into(&shape, read, seen);
            put_marks(read, seen, marks);
            let since = since_when(why);
            let programs = tell_programs(&shape, read, put, taken);
            told_verdict(verdict, &shape, count, since, programs)
        }
        Err(fault) => told_fault(fault),
    }
}

/// Room for the events.
pub fn no_events() -> [Event; EVENT_ROOM]
    ensures { length result ≡ EVENT_ROOM }
{
    let blank = Event {
        side: Side::P,
        bit: Bit::X,
        act: Act::ReadBegin,
    };
    [blank; EVENT_ROOM]
}

/// Room for what is seen at these events, with nothing seen yet.
pub fn nothing_seen() -> [Seen; EVENT_ROOM]
    ensures size { length result ≡ EVENT_ROOM }
    ensures nothing { IsNothingSeen result }
{
    let nothing = Seen {
        held: false,
        overlapped: false,
        clashes: false,
    };
    [nothing; EVENT_ROOM]
}

/// Returns the verdict on the trace in the text, with the marks of its events, as many as there is room for, and the finding of
/// the audit of programs, with the items put and taken in the first slots of two slices; or why the text is not a trace, or
/// that it begins with a trace of more events than `EVENT_ROOM`, so that no fault was found before the room ended. As many
/// slots as there are events are enough. It takes no memory.
#[unsafe(no_mangle)]
pub extern "C" fn page_audit(
    text: &[u8],
    marks: &mut [Mark],
    put: &mut [u64],
    taken: &mut [u64],
    told: &mut AuditTold,
)
    ensures { TellsText text.now marks.new put.new taken.new told.new }
{
    let mut events = no_events();
    let mut seen = nothing_seen();
    *told = audited(text, &mut events, &mut seen, marks, put, taken);
}
