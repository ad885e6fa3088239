//! The laws of histories that the layers above use. Each is the contract of a function that does
//! nothing: a body calls it to have the statement in its proof.
//!
//! - About a history with one more event: `lawful_by_one_more`, `open_changes`, `subhistory_changes`. For code that
//!   maintains something event by event, as `uses::by_hand` does.
//! - About intervals: `open_is_by_interval`, `held_is_by_interval`, `overlap_is_by_interval`, `flicker_is_by_interval`.
//!   For statements about a history that do not mention the functions that a proof computes with.
//! - About a side's own events and accesses: `open_from_own`, `made_leave_none_open`. For code with a machine that makes them.
//! - About verdicts: `one_verdict`, `fault_breaks`. For code that reads a verdict.
//!
//! Proofs cite the lemmas of the same names, which `proofs/LawLemmas.antt` has, with some that only proofs need.
ghost use Rattle.bits_core.specs.Laws.{BeginningIsLawful, EmptyIsLawful, FaultBreaks, FlickerIsByInterval, HeldIsByInterval, LawfulByOneMore, MadeLeaveNoneOpen, OneVerdict, OpenChanges, OpenFromOwn, OpenIsByInterval, OverlapIsByInterval, OverlapIsDecidable, SubhistoryChanges};

/// The history with no event is lawful.
pub fn empty_is_lawful()
    ensures { EmptyIsLawful }
{}

/// A prefix of a lawful history is lawful.
pub fn beginning_is_lawful()
    ensures { BeginningIsLawful }
{}

/// A history with one more event is lawful if it is lawful without it and the event may follow.
pub fn lawful_by_one_more()
    ensures { LawfulByOneMore }
{}

/// The access that a side has open, by its interval.
pub fn open_is_by_interval()
    ensures { OpenIsByInterval }
{}

/// What a bit holds, by the intervals of its writes.
pub fn held_is_by_interval()
    ensures { HeldIsByInterval }
{}

/// Whether a write overlaps a read, by their intervals.
pub fn overlap_is_by_interval()
    ensures { OverlapIsByInterval }
{}

/// How the open access of a side changes with one more event.
pub fn open_changes()
    ensures { OpenChanges }
{}

/// Whether a write of a bit overlaps an access is decidable.
pub fn overlap_is_decidable()
    ensures { OverlapIsDecidable }
{}

/// A history has one verdict.
pub fn one_verdict()
    ensures { OneVerdict }
{}

/// The events before the first fault of a history are lawful; with it they are not.
pub fn fault_breaks()
    ensures { FaultBreaks }
{}

/// The ended reads that count as flickers are those that a write overlaps.
pub fn flicker_is_by_interval()
    ensures { FlickerIsByInterval }
{}

/// How a side's own events change with one more event.
pub fn subhistory_changes()
    ensures { SubhistoryChanges }
{}

/// The open access of a side follows from its own events.
pub fn open_from_own()
    ensures { OpenFromOwn }
{}

/// Complete accesses leave none open.
pub fn made_leave_none_open()
    ensures { MadeLeaveNoneOpen }
{}
