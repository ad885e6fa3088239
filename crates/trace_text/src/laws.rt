//! The laws of trace text, for code that reads a trace: a text has one reading, and bytes are a trace or have one fault. Each
//! is the contract of a function that does nothing: a body calls it to have the statement in its proof.
ghost use Rattle.trace_text.specs.Laws.{FaultyIsNoTrace, OneFault, OneReading, OneTextReading, RefusedIsNoText, TraceIsText, TraceOrFault};

/// A text is that of one shape and one list of events.
pub fn one_reading()
    ensures { OneReading }
{}

/// Bytes are a trace or have a fault.
pub fn trace_or_fault()
    ensures { TraceOrFault }
{}

/// Bytes with a fault are not a trace.
pub fn faulty_is_no_trace()
    ensures { FaultyIsNoTrace }
{}

/// Bytes have at most one fault.
pub fn one_fault()
    ensures { OneFault }
{}

/// A trace is a trace of any length of at most [`EVENT_LIMIT`](crate::EVENT_LIMIT) events, and vice versa.
pub fn trace_is_text()
    ensures { TraceIsText }
{}

/// A text of any length is that of one shape and one list of events.
pub fn one_text_reading()
    ensures { OneTextReading }
{}

/// Bytes that are refused as a trace of any length are not one, unless they are too many to be counted.
pub fn refused_is_no_text()
    ensures { RefusedIsNoText }
{}
