//! The first event at which a whole history lacks a class.
ghost use Rattle.std.specs.Prelude.{◌≡◌, IfOk, IfErr, reverse};
ghost use Rattle.register_calls.specs.Histories.{IsValue, IsWellFormed};
ghost use Rattle.register_calls.specs.Findings.{IsMiss, FaultSays};

use crate::auditors::RegisterAuditor;
use crate::events::{Class, Register, RegisterEvent};
use crate::faults::RegisterFault;
use std::alloc::Allocator;

/// The place, from 0, of the first event at which a history lacks the class; `None` if the history has it. The first value of the
/// register is one of its values.
///
/// `NoValue` and `OutOfTurn` are returned only for a history that is not well formed: at the first event that begins a write of a
/// number that is not a value of the register, begins an operation while one of its side is under way, or ends one that is not. Events
/// after the place that it returns are not examined. It takes memory from the allocator for the writes that a read under way may be of,
/// and for the readers.
pub fn first_miss<A: Allocator + Copy>(
    alloc: A,
    register: Register,
    class: Class,
    events: &[RegisterEvent],
) -> Result<Option<usize>, RegisterFault>
    requires { IsValue register register.first }
    ensures miss { IfOk result (IsMiss class register events.now) }
    ensures ill_formed { IfErr result (λ fault. FaultSays fault register (reverse events.now)) }
{
    let mut auditor = RegisterAuditor::new(alloc, register)?;
    for (place, event) in events.iter().enumerate() {
        match auditor.feed(*event) {
            Ok(_) => {
                if !auditor.has(class) {
                    return Ok(Some(place));
                }
            }
            Err(fault) => return Err(fault),
        }
    }
    Ok(None)
}
