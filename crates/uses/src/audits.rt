//! An audit of a history that other code made.
ghost use Rattle.std.specs.Prelude.{IfOk, ◌↔◌, IsTrue};
ghost use Rattle.bits_core.specs.Lawful.{IsLawful};
ghost use Rattle.ring_audit.specs.Audit.{IsOfPrograms};

use bits_core::{Event, Shape, Verdict, audit_bits};
use ring_audit::{AuditFault, Finding, audit};
use std::alloc::Allocator;

/// Whether the events are a lawful history of safe bits.
pub fn is_lawful(shape: &Shape, events: &[Event]) -> bool
    ensures { IsTrue result ↔ IsLawful shape.now events.now }
{
    match audit_bits(shape, events) {
        Verdict::Lawful => true,
        Verdict::Fault { place: _, kind: _ } => false,
    }
}

/// Whether they are, and both sides follow the programs of the ring.
pub fn is_of_ring<A: Allocator + Copy>(
    alloc: A,
    shape: &Shape,
    events: &[Event],
) -> Result<bool, AuditFault>
    ensures { IfOk result (λ is. IsTrue is ↔ IsOfPrograms shape.now events.now) }
{
    match audit(alloc, shape, events)? {
        Finding::Lawful {
            put: _,
            taken: _,
            told: _,
        } => Ok(true),
        Finding::Fault { place: _, kind: _ } => Ok(false),
    }
}
