//! What follows from the queue and from histories of its calls. Each law is the contract of a function that does
//! nothing: a body calls it to have the statement in its proof.
//!
//! - `moments_are_orders`, `counts_are_exact`, `counted_is_linearizable`: linearizability in three forms. For a proof that the
//!   calls of a queue are linearizable: the counting rules need neither moments nor an order to be found.
//! - `beginning_is_linearizable`, `linearizable_is_in_turn`, `operations_lead_one_way`: for code that reads a finding.
//! - `cause_is_reason`, `fault_has_a_cause`: what a reported cause implies about the history, and that there is one.
//! - `history_has_a_recording` and the laws of the text: for code that writes recordings.
ghost use Rattle.queue_calls.specs.RecordingLaws.{RecordingHasNoBadLine, RecordingIsOne};
ghost use Rattle.queue_calls.specs.Counting.{CountedIsLinearizable, CountsAreExact};
ghost use Rattle.queue_calls.specs.Tellings.{HistoryHasARecording, LinearizableIsInTurn};
ghost use Rattle.queue_calls.specs.Reasons.{CauseIsReason, FaultHasACause};
ghost use Rattle.queue_calls.specs.Laws.{BeginningIsLinearizable, MomentsAreOrders, OperationsLeadOneWay};

/// An operation results in one queue: the sequential specification either allows it or not, and leaves no other
/// choice. So operations that come one after the other determine what is in the queue after each of them.
pub fn operations_lead_one_way()
    ensures { OperationsLeadOneWay }
{}

/// A history is linearizable if it is with one more event: an event at which it is not is the
/// first such, and nothing after it can repair that.
pub fn beginning_is_linearizable()
    ensures { BeginningIsLinearizable }
{}

/// Two forms of linearizability agree: each operation of a call takes effect at a moment between
/// its start and its end, or (Herlihy and Wing 1990) all operations have an order that is legal and
/// respects real time.
pub fn moments_are_orders()
    ensures { MomentsAreOrders }
{}

/// A history whose events can be counted one after the other is linearizable: the rules by which an auditor decides, stated
/// for histories, with no moments or orders to be found.
pub fn counted_is_linearizable()
    ensures { CountedIsLinearizable }
{}

/// The events of a history can be counted one after the other exactly when it is linearizable: the rules refuse no history that
/// has moments at which its operations can take effect.
pub fn counts_are_exact()
    ensures { CountsAreExact }
{}

/// A text is the recording of one history, of a queue of one capacity.
pub fn recording_is_one()
    ensures { RecordingIsOne }
{}

/// A recording has no bad line: no text is both read and refused.
pub fn recording_has_no_bad_line()
    ensures { RecordingHasNoBadLine }
{}

/// A linearizable history is well formed.
pub fn linearizable_is_in_turn()
    ensures { LinearizableIsInTurn }
{}

/// Each well-formed history has a recording: the lines of its events, after that of the capacity.
pub fn history_has_a_recording()
    ensures { HistoryHasARecording }
{}

/// A cause is a reason: the history with the event that it contradicts is not linearizable, however many of the items taken last
/// are searched.
pub fn cause_is_reason()
    ensures { CauseIsReason }
{}

/// If a history stops being linearizable at an event that comes in turn, there is a cause: something contradicts the event,
/// however many of the items taken last are searched.
pub fn fault_has_a_cause()
    ensures { FaultHasACause }
{}
