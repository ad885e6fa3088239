//! An auditor of recorded calls, fed event by event.
ghost use Rattle.std.specs.Prelude.{◌≡◌, ◌≤◌, [], IfErr, IfOk, OnErr, length, map};
ghost use Rattle.queue_calls.specs.Audits.{Audits};
ghost use Rattle.queue_calls.specs.Queue.{exactly};
ghost use Rattle.queue_calls.specs.Told.{meant, told};
ghost use Rattle.queue_calls.specs.declared.faults.Fault.TheVariants.{OutOfMemory};
ghost use Rattle.uses.specs.Judged.{IsFaultFound, JudgesCalls, OutgrowsSlots};

use queue_calls::{CallAuditor, Event, Fault, Fifo, Slots, exactly};
use std::alloc::Allocator;

// The number of the first event, from 0, at which the history is not linearizable, from an auditor that has read nothing.
fn first_of<Q: Fifo<u64>>(
    auditor: &mut CallAuditor<Q>,
    events: &[Event<'_>],
) -> Result<Option<usize>, Fault>
    ensures judged { Audits Q.items auditor.old [] →
        IfOk result (JudgesCalls (meant auditor.old.capacity) (map told events.now)) }
    ensures refused { IfErr result (λ fault. fault ≡ OutOfMemory) }
    ensures full { Audits Q.items auditor.old [] →
        OnErr result (OutgrowsSlots (Q.room auditor.old.inside) (meant auditor.old.capacity) (map told events.now)) }
{
    auditor.has_read();
    for (number, event) in events.iter().enumerate() {
        match auditor.feed(*event) {
            Ok(()) => {}
            Err(Fault::OutOfTurn) => return Ok(Some(number)),
            Err(Fault::NotLinearizable) => return Ok(Some(number)),
            Err(Fault::OutOfMemory) => return Err(Fault::OutOfMemory),
        }
    }
    Ok(None)
}

/// The number of the first event, from 0, at which the history is not linearizable as one of a queue of this capacity; `None` if
/// it is.
pub fn first_at_fault<A: Allocator + Copy>(
    alloc: A,
    capacity: usize,
    events: &[Event<'_>],
) -> Result<Option<usize>, Fault>
    requires { 1 ≤ capacity }
    ensures judged { IsFaultFound (exactly capacity) (map told events.now) result }
{
    first_of(&mut CallAuditor::new(alloc, exactly(capacity)), events)
}

/// The same with no memory but these slots; refused only if there are more items inside, with those that a put offers, than slots.
pub fn first_at_fault_in_slots(
    slots: &mut [u64],
    capacity: usize,
    events: &[Event<'_>],
) -> Result<Option<usize>, Fault>
    requires { 1 ≤ capacity }
    ensures judged { IsFaultFound (exactly capacity) (map told events.now) result }
    ensures full { OnErr result (OutgrowsSlots (length slots.old) (exactly capacity) (map told events.now)) }
{
    let list = Slots::new(slots);
    first_of(&mut CallAuditor::with(list, exactly(capacity)), events)
}
