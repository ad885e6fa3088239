//! Why numbers make no shape, what is wrong with an event, and why a memory made no event.
ghost use Rattle.std.specs.Prelude.{◌≡◌, Some, codes};

use std::alloc::{AllocError, AllocFailed};
use std::error::Error;
use std::fmt;

/// Why numbers make no shape.
///
/// For example, `Shape::new(1, 2, 1)` is refused by `ShapeFault::Modulus`: with one cell a count needs three
/// values.
#[derive(Clone, Copy, PartialEq, Eq, Debug)]
pub enum ShapeFault {
    Capacity = 1,
    Modulus,
    Width,
    Batch,
    TakeBatch,
    /// The modulus, if the take batch is over 1.
    ModulusOfBatches,
}

impl fmt::Display for ShapeFault {
    ghost use Rattle.bits_core.specs.Faults.{shape_fault_words};

    ghost output = { λ fault. Some (shape_fault_words fault) };

    /// The words of the fault.
    fn fmt<W: fmt::Write>(&self, f: &mut fmt::Formatter<W>) -> fmt::Result {
        f.write_str(match self {
            ShapeFault::Capacity => "capacity must be from 1 to 64",
            ShapeFault::Modulus => "modulus must be from capacity + batch + 1 to 256",
            ShapeFault::Width => "width must be from 1 to 64",
            ShapeFault::Batch => "batch must be from 1 to capacity",
            ShapeFault::TakeBatch => "take batch must be from 1 to capacity",
            ShapeFault::ModulusOfBatches => {
                "modulus must be from capacity + the larger batch + 1 to 256"
            }
        })
    }
}

impl Error for ShapeFault {}

impl ShapeFault {
    ghost use Rattle.bits_core.specs.Faults.{shape_fault_number};

    /// The number of the fault: 1 `Capacity`, 2 `Modulus`, 3 `Width`, 4 `Batch`, 5 `TakeBatch`, 6 `ModulusOfBatches`.
    pub fn number(&self) -> u8
        ensures { result ≡ shape_fault_number self.now }
    {
        *self as u8
    }
}

/// What is wrong with an event. If several kinds apply, the first is reported.
///
/// For example, it is printed as `not permitted`. In use: `uses::audits::is_lawful`, whose audit reports it.
#[derive(Clone, Copy, PartialEq, Eq, Debug)]
pub enum Kind {
    /// The bit is not in the shape, or the side is not its reader or writer, as this act needs.
    WrongSide = 1,
    /// A start while the side has an access open, or an end when it has no access of this bit and
    /// kind open.
    OutOfTurn,
    /// A read's answer that a safe bit may not give.
    NotPermitted,
    /// Not the next event of its side's program. An audit of the bits alone never reports it.
    NotProgram,
}

impl Kind {
    ghost use Rattle.bits_core.specs.Faults.{kind_number};

    /// The number of the kind: 1 `WrongSide`, 2 `OutOfTurn`, 3 `NotPermitted`, 4 `NotProgram`.
    pub fn number(&self) -> u8
        ensures { result ≡ kind_number self.now }
    {
        *self as u8
    }
}

impl fmt::Display for Kind {
    ghost use Rattle.bits_core.specs.Faults.{kind_words};

    ghost output = { λ k. Some (kind_words k) };

    /// The words of the kind.
    fn fmt<W: fmt::Write>(&self, f: &mut fmt::Formatter<W>) -> fmt::Result {
        f.write_str(match self {
            Kind::WrongSide => "wrong side",
            Kind::OutOfTurn => "out of turn",
            Kind::NotPermitted => "not permitted",
            Kind::NotProgram => "not of the program",
        })
    }
}

/// Why a memory added no event.
///
/// In use: `uses::by_hand::step_producer`.
#[derive(Clone, Copy, PartialEq, Eq, Debug)]
pub enum MemoryFault {
    /// Memory for the history ran out.
    OutOfMemory,
}

impl fmt::Display for MemoryFault {
    ghost output = { λ _. Some (codes "out of memory") };

    /// The words of the fault.
    fn fmt<W: fmt::Write>(&self, f: &mut fmt::Formatter<W>) -> fmt::Result {
        match self {
            MemoryFault::OutOfMemory => f.write_str("out of memory"),
        }
    }
}

impl Error for MemoryFault {}

impl MemoryFault {
    /// The number of the fault: 1 `OutOfMemory`.
    pub fn number(&self) -> u8
        ensures { result ≡ 1 }
    {
        match self {
            MemoryFault::OutOfMemory => 1,
        }
    }
}

impl From<AllocError> for MemoryFault {
    fn from(_error: AllocError) -> MemoryFault {
        MemoryFault::OutOfMemory
    }
}

impl<T: Drop> From<AllocFailed<T>> for MemoryFault {
    fn from(_error: AllocFailed<T>) -> MemoryFault {
        MemoryFault::OutOfMemory
    }
}
