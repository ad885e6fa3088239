//! Why bytes are not a trace.
ghost use Rattle.std.specs.Prelude.{◌≡◌, Some};

use bits_core::ShapeFault;
use std::alloc::{AllocError, AllocFailed};
use std::error::Error;
use std::fmt;

/// Why bytes are not a trace.
///
/// For example, it is printed as `trace line 3 is not a line of the format`.
#[derive(Clone, Copy, PartialEq, Eq, Debug)]
pub enum TraceFault {
    /// The numbers of line 1 make no shape.
    BadShape(ShapeFault),
    /// This line, counted from 1, is missing or unfinished, or not in the format, or names a bit
    /// that is not in the shape.
    BadLine(u64),
    /// More events come than a trace may have.
    TooLong,
    /// Memory ran out.
    OutOfMemory,
}

impl fmt::Display for TraceFault {
    ghost use Rattle.trace_text.specs.Faults.{trace_fault_words};

    ghost output = { λ fault. Some (trace_fault_words fault) };

    /// The text of the fault.
    fn fmt<W: fmt::Write>(&self, f: &mut fmt::Formatter<W>) -> fmt::Result {
        match self {
            TraceFault::BadShape(fault) => write!(f, "{fault}"),
            TraceFault::BadLine(line) => write!(f, "trace line {line} is not a line of the format"),
            TraceFault::TooLong => f.write_str("trace has too many events"),
            TraceFault::OutOfMemory => f.write_str("out of memory"),
        }
    }
}

impl Error for TraceFault {}

impl TraceFault {
    ghost use Rattle.trace_text.specs.Faults.{trace_fault_number};

    /// The number of the fault: 1 `BadShape`, 2 `BadLine`, 3 `TooLong`, 4 `OutOfMemory`.
    pub fn number(&self) -> u8
        ensures { result ≡ trace_fault_number self.now }
    {
        match self {
            TraceFault::BadShape(_) => 1,
            TraceFault::BadLine(_) => 2,
            TraceFault::TooLong => 3,
            TraceFault::OutOfMemory => 4,
        }
    }
}

impl From<AllocError> for TraceFault {
    ghost use Rattle.trace_text.specs.declared.faults.TraceFault.TheVariants.{OutOfMemory};

    ghost from_gives = { λ _ e. e ≡ OutOfMemory };

    fn from(_error: AllocError) -> TraceFault {
        TraceFault::OutOfMemory
    }
}

impl<T: Drop> From<AllocFailed<T>> for TraceFault {
    ghost use Rattle.trace_text.specs.declared.faults.TraceFault.TheVariants.{OutOfMemory};

    ghost from_gives = { λ _ e. e ≡ OutOfMemory };

    fn from(_error: AllocFailed<T>) -> TraceFault {
        TraceFault::OutOfMemory
    }
}
