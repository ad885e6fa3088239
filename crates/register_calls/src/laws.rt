//! What follows from the classes of a history. Each law is the contract of a function that does nothing: a body calls it to have
//! the statement in its proof.
ghost use Rattle.register_calls.specs.Findings.{BeginningHasClass, OneFirstMiss, StrongerHasWeaker};
ghost use Rattle.register_calls.specs.Reasons.{ReasonIsFact};
ghost use Rattle.register_calls.specs.Reports.{NoneInvertsIsAtomic};
ghost use Rattle.register_calls.specs.Linearizations.{AtomicIsLinearizable};
ghost use Rattle.register_calls.specs.Intervals.{OrderIsByIntervals, RegularIsByIntervals, SafeIsByIntervals};

/// A well-formed history has each class that is weaker than one that it has: what is atomic is regular, and what is regular is safe.
pub fn stronger_has_weaker()
    ensures { StrongerHasWeaker }
{}

/// A history has each class that it has with one more event: no event repairs what an earlier one broke.
pub fn beginning_has_class()
    ensures { BeginningHasClass }
{}

/// There is one first event at which a history lacks a class, and none if it has the class.
pub fn one_first_miss()
    ensures { OneFirstMiss }
{}

/// A well-formed history is safe exactly when it is safe by intervals: each read returns a value, and one that no write overlaps returns
/// that of the last write before it.
pub fn safe_is_by_intervals()
    ensures { SafeIsByIntervals }
{}

/// A well-formed history is regular exactly when it is regular by intervals: each read is of a write that overlaps it, or of the last one
/// before it.
pub fn regular_is_by_intervals()
    ensures { RegularIsByIntervals }
{}

/// A well-formed history is atomic exactly when it is atomic by intervals: each read can be given a write that overlaps it, or the last one
/// before it, so that of two reads, one after the other, the later one has no earlier write. The same holds for each reader alone.
pub fn order_is_by_intervals()
    ensures { OrderIsByIntervals }
{}

/// A well-formed history is atomic exactly when it is linearizable as Herlihy and Wing define it (1990): its operations have an order that
/// is legal for a register and respects real time.
pub fn atomic_is_linearizable()
    ensures { AtomicIsLinearizable }
{}

/// A reason is a fact: if one contradicts the read that ends, the history with it lacks the class, whatever write each read is of.
pub fn reason_is_fact()
    ensures { ReasonIsFact }
{}

/// A well-formed regular history is atomic if no read in it began while a write was under way whose value had been returned since it began:
/// such a history cannot tell a regular register from an atomic one.
pub fn none_inverts_is_atomic()
    ensures { NoneInvertsIsAtomic }
{}
