//! Why the program refuses.
ghost use Rattle.std.specs.Prelude.{◌≡◌, Some};

use bits_core::{MemoryFault, ShapeFault};
use queue_calls::RecordingFault;
use register_recordings::RegisterTextFault;
use ring_script::ScriptFault;
use std::alloc::AllocError;
use std::error::Error;
use std::fmt;
use trace_text::TraceFault;

/// A fault of the program's surroundings.
///
/// For example, it is printed as `input is too large`.
#[derive(Clone, Copy, Debug, PartialEq, Eq)]
pub enum AppFault {
    /// A read of the input failed.
    ReadFailed = 1,
    /// The input has more bytes than allowed.
    TooLarge,
    /// A write of the output failed.
    WriteFailed,
    /// Memory ran out.
    OutOfMemory,
    /// The recording of a run does not have its calls.
    NotOfRun,
}

impl fmt::Display for AppFault {
    ghost use Rattle.ring_program.specs.Faults.{app_fault_words};

    ghost output = { λ fault. Some (app_fault_words fault) };

    /// The words of the fault.
    fn fmt<W: fmt::Write>(&self, f: &mut fmt::Formatter<W>) -> fmt::Result {
        f.write_str(match self {
            AppFault::ReadFailed => "input failed",
            AppFault::TooLarge => "input is too large",
            AppFault::WriteFailed => "output failed",
            AppFault::OutOfMemory => "out of memory",
            AppFault::NotOfRun => "recording is not of the run",
        })
    }
}

impl Error for AppFault {}

impl AppFault {
    ghost use Rattle.ring_program.specs.Faults.{app_fault_number};

    /// The number of the fault: 1 `ReadFailed`, 2 `TooLarge`, 3 `WriteFailed`, 4 `OutOfMemory`, 5 `NotOfRun`.
    pub fn number(&self) -> u8
        ensures { result ≡ app_fault_number self.now }
    {
        *self as u8
    }
}

impl From<AllocError> for AppFault {
    ghost use Rattle.ring_program.specs.declared.faults.AppFault.TheVariants.{OutOfMemory};

    ghost from_gives = { λ _ e. e ≡ OutOfMemory };

    fn from(_error: AllocError) -> AppFault {
        AppFault::OutOfMemory
    }
}

/// Why a command returned no answer.
///
/// For example, it is printed as the fault that it holds: `trace line 3 is not a line of the format`; a run with no second
/// thread as `no second thread`.
#[derive(Clone, Copy, Debug, PartialEq, Eq)]
pub enum Refusal {
    /// A fault of the program's surroundings.
    App(AppFault),
    /// The input is not a trace.
    Trace(TraceFault),
    /// The input is not a recording of calls.
    Calls(RecordingFault),
    /// The input is not a recording of a register.
    Register(RegisterTextFault),
    /// The input is not a script.
    Script(ScriptFault),
    /// The numbers of a run make no shape.
    Shape(ShapeFault),
    /// A run had no second thread.
    NoSecondThread,
}

impl fmt::Display for Refusal {
    ghost use Rattle.ring_program.specs.Faults.{refusal_words};

    ghost output = { λ refusal. Some (refusal_words refusal) };

    /// The words of the fault that it holds, if it holds one.
    fn fmt<W: fmt::Write>(&self, f: &mut fmt::Formatter<W>) -> fmt::Result {
        match self {
            Refusal::App(fault) => write!(f, "{fault}"),
            Refusal::Trace(fault) => write!(f, "{fault}"),
            Refusal::Calls(fault) => write!(f, "{fault}"),
            Refusal::Register(fault) => write!(f, "{fault}"),
            Refusal::Script(fault) => write!(f, "{fault}"),
            Refusal::Shape(fault) => write!(f, "{fault}"),
            Refusal::NoSecondThread => f.write_str("no second thread"),
        }
    }
}

impl Error for Refusal {}

impl From<AppFault> for Refusal {
    ghost use Rattle.ring_program.specs.declared.faults.Refusal.TheVariants.{App};

    ghost from_gives = { λ fault e. e ≡ App fault };

    fn from(fault: AppFault) -> Refusal {
        Refusal::App(fault)
    }
}

impl From<TraceFault> for Refusal {
    ghost use Rattle.ring_program.specs.declared.faults.Refusal.TheVariants.{Trace};

    ghost from_gives = { λ fault e. e ≡ Trace fault };

    fn from(fault: TraceFault) -> Refusal {
        Refusal::Trace(fault)
    }
}

impl From<MemoryFault> for Refusal {
    ghost use Rattle.ring_program.specs.declared.faults.AppFault.TheVariants.{OutOfMemory};
    ghost use Rattle.ring_program.specs.declared.faults.Refusal.TheVariants.{App};

    ghost from_gives = { λ _ e. e ≡ App OutOfMemory };

    // (an audit, a play and a run have no other fault)
    fn from(_fault: MemoryFault) -> Refusal {
        Refusal::App(AppFault::OutOfMemory)
    }
}

impl From<RecordingFault> for Refusal {
    ghost use Rattle.ring_program.specs.declared.faults.Refusal.TheVariants.{Calls};

    ghost from_gives = { λ fault e. e ≡ Calls fault };

    fn from(fault: RecordingFault) -> Refusal {
        Refusal::Calls(fault)
    }
}

impl From<RegisterTextFault> for Refusal {
    ghost use Rattle.ring_program.specs.declared.faults.Refusal.TheVariants.{Register};

    ghost from_gives = { λ fault e. e ≡ Register fault };

    fn from(fault: RegisterTextFault) -> Refusal {
        Refusal::Register(fault)
    }
}

impl From<ScriptFault> for Refusal {
    ghost use Rattle.ring_program.specs.declared.faults.Refusal.TheVariants.{Script};

    ghost from_gives = { λ fault e. e ≡ Script fault };

    fn from(fault: ScriptFault) -> Refusal {
        Refusal::Script(fault)
    }
}

impl From<ShapeFault> for Refusal {
    ghost use Rattle.ring_program.specs.declared.faults.Refusal.TheVariants.{Shape};

    ghost from_gives = { λ fault e. e ≡ Shape fault };

    fn from(fault: ShapeFault) -> Refusal {
        Refusal::Shape(fault)
    }
}
