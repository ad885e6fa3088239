//! The audit of the bits of a trace of any length, whose text is read in pieces.
ghost use Rattle.std.specs.Prelude.{◌≡◌, ◌+◌, ◌-◌, ◌^◌, ◌≤◌, ℕ, List, [], ◌∷◌, ◌++◌, None, IfErr, IfOk, OnOk, MatchOption};
ghost use Rattle.bits_core.specs.Audit.{IsVerdict};
ghost use Rattle.trace_text.specs.Trace.{IsTraceText, RefusesTraceText};
ghost use Rattle.trace_text.specs.TraceAudits.{BeginsWithNoLine, HasEnded, HasReadTrace, HeardTrace, IsFaultBehind};
ghost use Rattle.line_parts.specs.LineEnds.{EndsAtFeed, HasNoFeed};

use crate::cuts::LineFront;
use crate::faults::TraceFault;
use crate::traces::{first_shape, read_event};
use bits_core::{BitAuditor, Event, Shape, Verdict};

// The events of the lines that have ended, with the finding on them so far.
#[derive(Drop)]
struct TraceHearing {
    shape: Shape,
    auditor: BitAuditor,
    // how many there are
    count: u64,
    // the first fault of the history
    verdict: Verdict,
}

impl TraceHearing {
    fn new(shape: Shape) -> TraceHearing
        ensures { HeardTrace result shape [] }
    {
        TraceHearing {
            shape,
            auditor: BitAuditor::new(&shape),
            count: 0,
            verdict: Verdict::Lawful,
        }
    }

    // Hears the event of the next line. After a fault the auditor is not asked.
    fn hear(&mut self, event: Event) -> Result<(), TraceFault>
        ensures heard { OnOk result ((shape : Shape) (events : List Event) → HeardTrace self.old shape events →
            HeardTrace self.new shape (events ++ event ∷ [])) }
        ensures refused { IfErr result (λ e. (e ≡ TraceFault.TooLong) × (self.old.count ≡ 2 ^ 64 - 1)) }
    {
        let Some(count) = self.count.checked_add(1) else {
            return Err(TraceFault::TooLong);
        };
        let place = self.count as usize;
        self.count = count;
        match self.verdict {
            Verdict::Fault { .. } => return Ok(()),
            Verdict::Lawful => {}
        }
        match self.auditor.feed(event) {
            Some(kind) => {
                self.verdict = Verdict::Fault { place, kind };
                Ok(())
            }
            None => Ok(()),
        }
    }
}

// The fault of what follows this many events and is not the line of one.
fn fault_behind(count: u64) -> TraceFault
    ensures { IsFaultBehind count result }
{
    match count.checked_add(2) {
        Some(line) => TraceFault::BadLine(line),
        None => TraceFault::TooLong,
    }
}

// The fault of what follows the lines that have ended and is not a line.
fn next_fault(hearing: &Option<TraceHearing>) -> TraceFault
    ensures { (text rest : List ℕ) → HasEnded hearing.now text → BeginsWithNoLine hearing.now rest →
        (rest ≡ [] → hearing.now ≡ None) → RefusesTraceText (text ++ rest) result }
{
    match hearing {
        None => TraceFault::BadLine(1),
        Some(heard) => fault_behind(heard.count),
    }
}

// The first line, with its line feed, and the bytes after it; `None` if it has not ended.
fn split_line(bytes: &[u8]) -> Option<(&[u8], &[u8])>
    ensures { MatchOption result (HasNoFeed bytes.now) (λ x. EndsAtFeed x.0.now × (bytes.now ≡ x.0.now ++ x.1.now)) }
{
    for (place, byte) in bytes.iter().enumerate() {
        if *byte == b'\n' {
            return Some((&bytes[..place + 1], &bytes[place + 1..]));
        }
    }
    None
}

// For bytes that start with no line: `Ok` if their first line has not ended, otherwise the fault.
fn unread(bytes: &[u8], fault: TraceFault) -> Result<(), TraceFault>
    ensures unended { OnOk result (HasNoFeed bytes.now) }
    ensures refused { IfErr result (λ e. (line : List ℕ) × (rest : List ℕ) × (e ≡ fault) × EndsAtFeed line ×
        (bytes.now ≡ line ++ rest)) }
{
    match split_line(bytes) {
        None => Ok(()),
        Some(_) => Err(fault),
    }
}

// Reads the line at the front of the bytes and returns those after it; `None` if it has not ended.
fn read_line<'a>(
    hearing: &mut Option<TraceHearing>,
    bytes: &'a [u8],
) -> Result<Option<&'a [u8]>, TraceFault>
    ensures read { IfOk result (λ found. MatchOption found (HasNoFeed bytes.now × (hearing.new ≡ hearing.old))
        (λ rest. (line : List ℕ) × EndsAtFeed line × (bytes.now ≡ line ++ rest.now) ×
        ((text : List ℕ) → HasEnded hearing.old text → HasEnded hearing.new (text ++ line)))) }
    ensures refused { IfErr result (λ e. (text more : List ℕ) → HasEnded hearing.old text →
        RefusesTraceText (text ++ (bytes.now ++ more)) e) }
{
    match hearing {
        None => match first_shape(bytes) {
            Ok(Some((shape, rest))) => {
                *hearing = Some(TraceHearing::new(shape));
                Ok(Some(rest))
            }
            Ok(None) => {
                unread(bytes, TraceFault::BadLine(1))?;
                Ok(None)
            }
            Err(fault) => Err(TraceFault::BadShape(fault)),
        },
        Some(heard) => match read_event(&heard.shape, bytes) {
            Some((event, rest)) => {
                heard.hear(event)?;
                Ok(Some(rest))
            }
            None => {
                unread(bytes, fault_behind(heard.count))?;
                Ok(None)
            }
        },
    }
}

// Reads the lines that end in the bytes and returns the bytes after them.
fn read_lines<'a>(
    hearing: &mut Option<TraceHearing>,
    bytes: &'a [u8],
) -> Result<&'a [u8], TraceFault>
    ensures read { IfOk result (λ rest. HasNoFeed rest.now ×
        ((ended : List ℕ) × (bytes.now ≡ ended ++ rest.now) ×
        ((text : List ℕ) → HasEnded hearing.old text → HasEnded hearing.new (text ++ ended)))) }
    ensures refused { IfErr result (λ e. (text more : List ℕ) → HasEnded hearing.old text →
        RefusesTraceText (text ++ (bytes.now ++ more)) e) }
{
    let mut rest = bytes;
    loop {
        match read_line(hearing, rest)? {
            Some(more) => rest = more,
            None => return Ok(rest),
        }
    }
}

/// The audit of the bits of a trace, as far as its text has been read: [`audit_bits`](bits_core::audit_bits) of a trace of any length.
///
/// The text comes in pieces, cut anywhere, and neither it nor its events are kept. No memory is taken. A piece takes time linear
/// in its bytes.
///
/// In use: `lamport_ring audit --bits --long`. `uses::findings::found_in` reads a recording of calls in pieces in
/// the same way.
#[derive(Drop)]
pub struct TraceAudit {
    // nothing before the first line
    hearing: Option<TraceHearing>,
    // the bytes of a line that has not ended
    cut: LineFront,
}

impl TraceAudit {
    /// An audit of which nothing has been read.
    pub fn new() -> TraceAudit
        ensures { HasReadTrace result [] }
    {
        TraceAudit {
            hearing: None,
            cut: LineFront::new(),
        }
    }

    /// Reads the next piece of the text.
    ///
    /// `BadShape` if the numbers of line 1 make no shape; `BadLine` at the first line that is not in the format or
    /// names a bit that is not in the shape, whatever follows, and even if the history has a fault before it; `TooLong`
    /// after 2^64 - 1 lines; never `OutOfMemory`. An audit that has returned one of these is of no further use.
    pub fn read(&mut self, piece: &[u8]) -> Result<(), TraceFault>
        ensures read { OnOk result ((bytes : List ℕ) → HasReadTrace self.old bytes →
            HasReadTrace self.new (bytes ++ piece.now)) }
        ensures refused { IfErr result (λ e. (bytes more : List ℕ) → HasReadTrace self.old bytes →
            RefusesTraceText (bytes ++ (piece.now ++ more)) e) }
    {
        if self.cut.is_empty() {
            return self.read_on(piece);
        }
        match split_line(piece) {
            Some((end, rest)) => {
                self.read_end(end)?;
                self.read_on(rest)
            }
            None => self.keep(piece),
        }
    }

    // Reads bytes when the last line has ended.
    fn read_on(&mut self, bytes: &[u8]) -> Result<(), TraceFault>
        requires { self.old.cut ≡ [] }
        ensures read { OnOk result ((before : List ℕ) → HasReadTrace self.old before →
            HasReadTrace self.new (before ++ bytes.now)) }
        ensures refused { IfErr result (λ e. (before more : List ℕ) → HasReadTrace self.old before →
            RefusesTraceText (before ++ (bytes.now ++ more)) e) }
    {
        let rest = read_lines(&mut self.hearing, bytes)?;
        self.keep(rest)
    }

    // Reads the end of the line that was cut, with its line feed.
    fn read_end(&mut self, end: &[u8]) -> Result<(), TraceFault>
        requires { EndsAtFeed end.now }
        ensures read { OnOk result ((before : List ℕ) → HasReadTrace self.old before →
            HasReadTrace self.new (before ++ end.now)) }
        ensures ended { OnOk result (self.new.cut ≡ []) }
        ensures refused { IfErr result (λ e. (before more : List ℕ) → HasReadTrace self.old before →
            RefusesTraceText (before ++ (end.now ++ more)) e) }
    {
        if !self.cut.push(end) {
            return Err(next_fault(&self.hearing));
        }
        read_line(&mut self.hearing, self.cut.bytes())?;
        self.cut.clear();
        Ok(())
    }

    // Keeps the bytes of a line that has not ended, unless no line is that long.
    fn keep(&mut self, rest: &[u8]) -> Result<(), TraceFault>
        requires { HasNoFeed rest.now }
        ensures read { OnOk result ((before : List ℕ) → HasReadTrace self.old before →
            HasReadTrace self.new (before ++ rest.now)) }
        ensures refused { IfErr result (λ e. (before more : List ℕ) → HasReadTrace self.old before →
            RefusesTraceText (before ++ (rest.now ++ more)) e) }
    {
        if self.cut.push(rest) {
            Ok(())
        } else {
            Err(next_fault(&self.hearing))
        }
    }

    /// The verdict on the events if the text ends here: `BadLine` if its last line has not ended, or there is none.
    pub fn verdict(&self) -> Result<Verdict, TraceFault>
        ensures told { IfOk result (λ verdict. (bytes : List ℕ) → HasReadTrace self.now bytes → (shape : Shape) ×
            (events : List Event) × IsTraceText bytes shape events × IsVerdict shape events verdict) }
        ensures refused { IfErr result (λ e. (bytes : List ℕ) → HasReadTrace self.now bytes →
            RefusesTraceText bytes e) }
    {
        match &self.hearing {
            Some(heard) if self.cut.is_empty() => Ok(heard.verdict),
            _ => Err(next_fault(&self.hearing)),
        }
    }
}
