//! The finding on a recording of a register.
ghost use Rattle.std.specs.Prelude.{◌≡◌, None};
ghost use Rattle.register_recordings.specs.Misses.{is_same_line};
ghost use Rattle.register_recordings.specs.Recordings.{falls_short};

use register_calls::{Chain, Class, MissReason, RegisterReport};

/// The first read at which a history lacks a class, and what contradicts it.
///
/// For example, it is printed as `line 7: R1 got 0, but a read of R1 that ended at line 5 gave the later value 1, of line 2`.
#[derive(Clone, Copy, PartialEq, Eq, Debug)]
pub struct RegisterMiss {
    /// The line that ends the read, counted from 1.
    pub line: u64,
    /// Its reader, from 0.
    pub reader: usize,
    /// What it returned.
    pub value: u64,
    /// What contradicts it. The event at place *i*, from 0, is on line *i* + 2.
    pub reason: MissReason<Chain>,
}

/// For each class that a history lacks, the first read at which it lacks the class.
#[derive(Clone, Copy, PartialEq, Eq, Debug)]
pub struct Misses {
    /// The read at which it stops being safe.
    pub safe: Option<RegisterMiss>,
    /// The read at which it stops being regular.
    pub regular: Option<RegisterMiss>,
    /// The read at which the reads of some reader alone stop being atomic.
    pub by_reader: Option<RegisterMiss>,
    /// The read at which it stops being atomic.
    pub atomic: Option<RegisterMiss>,
}

/// The finding on a recording of a register.
#[derive(Clone, Copy, PartialEq, Eq, Debug)]
pub enum RegisterFinding {
    /// The strongest class of the history, or `None` if it is not safe; the reads at which it stops having the others; and how much
    /// it could have shown.
    Judged {
        class: Option<Class>,
        misses: Misses,
        report: RegisterReport,
    },
    /// The event of this line, counted from 1, is the first that is out of turn: it begins an operation while one of its side is under
    /// way, or ends one that is not.
    OutOfTurn {
        line: u64,
    },
}

impl RegisterFinding {
    /// Whether an event is out of turn, or the history lacks the class.
    pub fn falls_short(&self, class: Class) -> bool
        ensures { result ≡ falls_short class self.now }
    {
        match self {
            RegisterFinding::Judged {
                class: Some(found),
                ..
            } => !found.is_at_least(class),
            RegisterFinding::Judged { class: None, .. } => true,
            RegisterFinding::OutOfTurn { .. } => true,
        }
    }
}

impl Misses {
    // No class is missed.
    pub(crate) fn none() -> Misses
        ensures { result ≡ record { safe = None; regular = None; by_reader = None; atomic = None } }
    {
        Misses {
            safe: None,
            regular: None,
            by_reader: None,
            atomic: None,
        }
    }
}

/// Whether two classes are both missed, and at the same line.
pub fn is_same_line(one: &Option<RegisterMiss>, other: &Option<RegisterMiss>) -> bool
    ensures { result ≡ is_same_line one.now other.now }
{
    match (one, other) {
        (Some(a), Some(b)) => a.line == b.line,
        _ => false,
    }
}
