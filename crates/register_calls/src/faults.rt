//! Why an auditor of a register refuses an event.

use std::alloc::AllocError;

/// Why an auditor refuses an event.
#[derive(Clone, Copy, PartialEq, Eq, Debug)]
pub enum RegisterFault {
    /// It begins a write of a number that is not a value of the register.
    NoValue,
    /// It begins an operation while one of its side is under way, or ends one that is not.
    OutOfTurn,
    /// It begins a write, and `usize::MAX` writes have begun.
    TooMany,
    /// There is no room for one more write or for one more reader.
    OutOfMemory,
}

impl From<AllocError> for RegisterFault {
    ghost use Rattle.std.specs.Prelude.{◌≡◌};
    ghost use Rattle.register_calls.specs.declared.faults.RegisterFault.TheVariants.{OutOfMemory};

    ghost from_gives = { λ _ e. e ≡ OutOfMemory };

    fn from(_error: AllocError) -> RegisterFault {
        RegisterFault::OutOfMemory
    }
}
