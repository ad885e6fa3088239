//! What holds for every finding. The law is the contract of a function that does nothing: a body calls it to have the statement
//! in its proof. For code that compares two findings of one history.
ghost use Rattle.ring_audit.specs.Audit.{OneFinding};

/// A history has one finding.
pub fn one_finding()
    ensures { OneFinding }
{}
