//! Why bytes are not a recording of a register.
ghost use Rattle.std.specs.Prelude.{◌≡◌, Some};

use std::alloc::AllocError;
use std::fmt;

/// Why bytes are not a recording of a register.
///
/// For example, it is printed as `register line 5 is not a line of the format`.
#[derive(Clone, Copy, PartialEq, Eq, Debug)]
pub enum RegisterTextFault {
    /// This line, counted from 1, is missing or unfinished, or may not be there.
    BadLine(u64),
    /// There are more lines than a number of 64 bits can count.
    TooLong,
    /// Memory ran out.
    OutOfMemory,
}

impl RegisterTextFault {
    ghost use Rattle.register_recordings.specs.Faults.{register_fault_number};

    /// The number of the fault: 1 `BadLine`, 2 `TooLong`, 3 `OutOfMemory`.
    pub fn number(&self) -> u8
        ensures { result ≡ register_fault_number self.now }
    {
        match self {
            RegisterTextFault::BadLine(_) => 1,
            RegisterTextFault::TooLong => 2,
            RegisterTextFault::OutOfMemory => 3,
        }
    }
}

impl fmt::Display for RegisterTextFault {
    ghost use Rattle.register_recordings.specs.Faults.{register_fault_words};

    ghost output = { λ fault. Some (register_fault_words fault) };

    /// The text of the fault.
    fn fmt<W: fmt::Write>(&self, f: &mut fmt::Formatter<W>) -> fmt::Result {
        match self {
            RegisterTextFault::BadLine(line) => write!(
                f,
                "register line {line} is not a line of the format"
            ),
            RegisterTextFault::TooLong => f.write_str("register has too many lines"),
            RegisterTextFault::OutOfMemory => f.write_str("out of memory"),
        }
    }
}

impl std::error::Error for RegisterTextFault {}

impl From<AllocError> for RegisterTextFault {
    ghost use Rattle.register_recordings.specs.declared.faults.RegisterTextFault.TheVariants.{OutOfMemory};

    ghost from_gives = { λ _ e. e ≡ OutOfMemory };

    fn from(_error: AllocError) -> RegisterTextFault {
        RegisterTextFault::OutOfMemory
    }
}
