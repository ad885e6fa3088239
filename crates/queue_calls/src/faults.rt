//! Why an auditor refuses an event, and why bytes are not a recording.
ghost use Rattle.std.specs.Prelude.{◌≡◌, Some};

use std::alloc::AllocError;
use std::fmt;
use thiserror::Error;

/// Why an auditor refuses an event.
///
/// In use: `uses::calls::first_at_fault`.
#[derive(Clone, Copy, PartialEq, Eq, Debug, Error)]
pub enum Fault {
    /// A call begins while one of its side is under way, or a call ends that is not under way.
    #[error("out of turn")]
    OutOfTurn = 1,
    /// With this event the history is not linearizable.
    #[error("not linearizable")]
    NotLinearizable,
    /// Memory for the items inside ran out.
    #[error("out of memory")]
    OutOfMemory,
}

impl Fault {
    ghost use Rattle.queue_calls.specs.Faults.{number_of};

    /// The number of the fault: 1 `OutOfTurn`, 2 `NotLinearizable`, 3 `OutOfMemory`.
    pub fn number(&self) -> u8
        ensures { result ≡ number_of self.now }
    {
        *self as u8
    }
}

/// Why bytes are not a recording.
///
/// In use: `uses::findings::found_in`.
#[derive(Clone, Copy, PartialEq, Eq, Debug)]
pub enum RecordingFault {
    /// This line, counted from 1, is missing or unfinished, or not in the format.
    BadLine(u64),
    /// There are more lines than a number of 64 bits counts.
    TooLong,
    /// Memory ran out.
    OutOfMemory,
}

impl RecordingFault {
    ghost use Rattle.queue_calls.specs.Faults.{recording_fault_number};

    /// The number of the fault: 1 `BadLine`, 2 `TooLong`, 3 `OutOfMemory`.
    pub fn number(&self) -> u8
        ensures { result ≡ recording_fault_number self.now }
    {
        match self {
            RecordingFault::BadLine(_) => 1,
            RecordingFault::TooLong => 2,
            RecordingFault::OutOfMemory => 3,
        }
    }
}

impl fmt::Display for RecordingFault {
    ghost use Rattle.queue_calls.specs.Faults.{recording_fault_words};

    ghost output = { λ fault. Some (recording_fault_words fault) };

    /// The words of the fault.
    fn fmt<W: fmt::Write>(&self, f: &mut fmt::Formatter<W>) -> fmt::Result {
        match self {
            RecordingFault::BadLine(line) => write!(
                f,
                "calls line {line} is not a line of the format"
            ),
            RecordingFault::TooLong => f.write_str("calls have too many lines"),
            RecordingFault::OutOfMemory => f.write_str("out of memory"),
        }
    }
}

impl std::error::Error for RecordingFault {}

impl From<AllocError> for RecordingFault {
    ghost use Rattle.queue_calls.specs.declared.faults.RecordingFault.TheVariants.{OutOfMemory};

    ghost from_gives = { λ _ e. e ≡ OutOfMemory };

    fn from(_error: AllocError) -> RecordingFault {
        RecordingFault::OutOfMemory
    }
}
