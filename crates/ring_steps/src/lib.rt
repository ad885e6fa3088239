//! One step of a side over a memory of safe bits: for code that drives a machine of the ring by hand.
//!
//! A machine, such as `ring_core`'s `Producer`, yields the access that is due. Each step here begins it, or ends the one that
//! is open and returns its answer, which is then fed to the machine; steps of the two sides may be interleaved freely. The
//! crate `uses` has a complete put made in this way.
#![tactic(auto)]

ghost use Rattle.std.specs.Prelude.{◌≡◌, ◌+◌, ◌≤◌, ℕ, true, false, if◌then◌else◌, length, IfOk, OnOk, OnErr};
ghost use Rattle.ring_steps.specs.Steps.{HasMadeStep, asks_oracle};

use bits_core::{Access, Event, Memory, MemoryFault, Oracle, Side, Store};

/// What a step of a side was.
#[derive(Clone, Copy, PartialEq, Eq, Debug)]
pub enum Step {
    /// No access is open, and none is due that the side may make.
    Nothing,
    /// The due access was begun.
    Begin,
    /// The open access has ended: what a read returned, and false for a write.
    End(bool),
}

/// The side's next event: the end of the access that it has open, or the start of the one that is due. A due access is begun only
/// if it is of a bit of the memory's shape and by the side that may make it. The oracle is asked once if an overlapped read ends,
/// and otherwise not at all.
///
/// `OutOfMemory` is returned only if the history has as many events as there is room for; it leaves everything unchanged.
pub fn next_event<S: Store<Event>, O: Oracle>(
    memory: &mut Memory<S>,
    side: Side,
    due: Option<Access>,
    oracle: &mut O,
) -> Result<Step, MemoryFault>
    ensures shape { memory.new.shape ≡ memory.old.shape }
    ensures step { IfOk result (HasMadeStep side due (O.answers oracle.old 0) memory.old memory.new) }
    ensures asked { OnOk result (asks_oracle side memory.old.events ≡ true → (i : ℕ) →
        O.answers oracle.new i ≡ O.answers oracle.old (i + 1)) }
    ensures not_asked { asks_oracle side memory.old.events ≡ false → oracle.new ≡ oracle.old }
    ensures flickers { OnOk result (memory.new.flickers ≡ memory.old.flickers + (if asks_oracle side memory.old.events
        then 1 else 0)) }
    ensures room { memory.new.room ≡ memory.old.room }
    ensures fault { OnErr result ((memory.new ≡ memory.old) × (oracle.new ≡ oracle.old)) }
    ensures full { OnErr result (memory.old.room ≤ length memory.old.events) }
{
    match memory.pending(side) {
        Some(Access::Read(_)) => return Ok(Step::End(memory.end_read(side, oracle)?)),
        Some(Access::Write(_, _)) => {
            memory.end_write(side)?;
            return Ok(Step::End(false));
        }
        None => {}
    }
    match due {
        Some(Access::Read(bit)) if memory.shape().has(bit) && side == bit.reader() => {
            memory.begin_read(side, bit)?;
            Ok(Step::Begin)
        }
        Some(Access::Write(bit, value)) if memory.shape().has(bit) && side == bit.writer() => {
            memory.begin_write(side, bit, value)?;
            Ok(Step::Begin)
        }
        _ => Ok(Step::Nothing),
    }
}
