//! One side of the world running.
ghost use Rattle.std.specs.Prelude.{◌≡◌, ◌≢◌, ◌<◌, ◌≤◌, ◌⊎◌, ℕ, ◌+◌, Bool, true, false, Some, None, List, [], ◌∷◌, ◌++◌, OnErr, OnOk, IfOk, length};
ghost use Rattle.bits_core.specs.Bits.{other};
ghost use Rattle.bits_core.specs.History.{open_access};
ghost use Rattle.bits_core.specs.Made.{subhistory, opening_event};
ghost use Rattle.bits_core.specs.Open.{IsOpenRight};
ghost use Rattle.ring_player.specs.Actors.{IsAtTurn, IsMove, IsPlaying};
ghost use Rattle.ring_player.specs.Plays.{IsProgram};

use crate::faults::PlayFault;
use bits_core::{Access, Event, Memory, Oracle, Side, Store};

/// What makes the calls of one side: its machine, and what the script requests.
pub(crate) trait Actor {
    ghost use Rattle.std.specs.Prelude.{◌≡◌, ◌≢◌, ℕ, ◌+◌, ◌<◌, ◌≤◌, ◌^◌, true, Option, Some, None, List, [], ◌∷◌, ◌++◌, OnErr, OnOk, length};
    ghost use Rattle.bits_core.specs.declared.events.Access.{Access};
    ghost use Rattle.bits_core.specs.declared.events.Side.{Side};
    ghost use Rattle.bits_core.specs.Made.{Made, answered, events_of};
    ghost use Rattle.bits_core.specs.Open.{IsOpenRight};
    ghost use Rattle.ring_core.specs.Calls.{LastBitIsDue, EndsInZeros};
    ghost use Rattle.ring_player.specs.Plays.{IsDoneAfter};
    ghost use Rattle.ring_script.specs.Content.{Content};

    ghost script: { Self → Content };

    ghost side: { Self → Side };

    ghost due: { Self → Option Access };

    ghost stands: { Self → List Made → Option Access → Type 0 };

    ghost ready: { Self → Type 0 };

    // How many items it keeps, how many more the end of one access may add, and for how many in all it surely has room.
    ghost kept: { Self → ℕ };

    ghost wants: { Self → ℕ };

    ghost room: { Self → ℕ };

    /// Starts the next call if none is under way, and returns the access that is due, if any.
    fn next(&mut self) -> Option<Access>
        ensures due { result ≡ due self.new }
        ensures script { script self.new ≡ script self.old }
        ensures side { side self.new ≡ side self.old }
        ensures room { room self.new ≡ room self.old }
        ensures kept { kept self.new ≡ kept self.old }
        ensures stands { (list : List Made) → stands self.old list None → stands self.new list None }
        ensures done { result ≡ None → (list : List Made) → stands self.old list None →
            IsDoneAfter (script self.old) (side self.old) (events_of (side self.old) list) }
        ensures unfinished { (access : Access) → result ≡ Some access → (list : List Made) → stands self.old list None →
            ¬ IsDoneAfter (script self.old) (side self.old) (events_of (side self.old) list) }
        ensures right { (access : Access) → result ≡ Some access → (list : List Made) → stands self.old list None →
            IsOpenRight (script self.old).shape (side self.old) access };

    /// Records that the due access has begun.
    fn begin(&mut self)
        requires due { due self.old ≢ None }
        ensures due { due self.new ≡ due self.old }
        ensures script { script self.new ≡ script self.old }
        ensures side { side self.new ≡ side self.old }
        ensures room { room self.new ≡ room self.old }
        ensures kept { kept self.new ≡ kept self.old }
        ensures stands { (list : List Made) (access : Access) → due self.old ≡ Some access → stands self.old list None →
            stands self.new list (Some access) };

    /// Makes room for what the end of an access adds.
    fn reserve(&mut self) -> Result<(), PlayFault>
        ensures due { due self.new ≡ due self.old }
        ensures script { script self.new ≡ script self.old }
        ensures side { side self.new ≡ side self.old }
        ensures room { room self.new ≡ room self.old }
        ensures kept { kept self.new ≡ kept self.old }
        ensures stands { (list : List Made) (opened : Option Access) → stands self.old list opened →
            stands self.new list opened }
        ensures ready { OnOk result (ready self.new) }
        ensures full { OnErr result (room self.old < kept self.old + wants self.old) };

    /// What is known when the last bit of a count is due.
    fn last_bit(&self)
        ensures { LastBitIsDue (script self.now).shape (side self.now) (due self.now) →
            (list : List Made) (opened : Option Access) → stands self.now list opened →
            EndsInZeros (script self.now).shape (side self.now) list };

    /// Records that the due access, which had begun, has ended with this answer.
    fn end(&mut self, answer: bool)
        requires there { (list : List Made) × (access : Access) × (due self.old ≡ Some access) ×
            stands self.old list (Some access) × (length list < 2 ^ 63) }
        requires one { LastBitIsDue (script self.old).shape (side self.old) (due self.old) → answer ≡ true }
        requires ready { ready self.old }
        ensures script { script self.new ≡ script self.old }
        ensures side { side self.new ≡ side self.old }
        ensures room { room self.new ≡ room self.old }
        ensures stands { (list : List Made) (access : Access) → due self.old ≡ Some access →
            stands self.old list (Some access) → stands self.new (list ++ answered access answer ∷ []) None };
}

/// Begins the access.
fn begin<M: Store<Event>>(
    memory: &mut Memory<M>,
    side: Side,
    access: Access,
) -> Result<(), PlayFault>
    requires right { IsOpenRight memory.old.shape side access }
    requires none_open { open_access side memory.old.events ≡ None }
    ensures shape { memory.new.shape ≡ memory.old.shape }
    ensures ok { OnOk result (memory.new.events ≡ memory.old.events ++ opening_event side access ∷ []) }
    ensures err { OnErr result (memory.new ≡ memory.old) }
    ensures room { memory.new.room ≡ memory.old.room }
    ensures full { OnErr result (memory.old.room ≤ length memory.old.events) }
{
    match access {
        Access::Read(bit) => memory.begin_read(side, bit)?,
        Access::Write(bit, value) => memory.begin_write(side, bit, value)?,
    }
    Ok(())
}

/// The number of events that the memory has recorded, which is therefore less than a `usize` can hold.
fn event_count<M: Store<Event>>(memory: &Memory<M>) -> usize
    ensures { result ≡ length memory.now.events }
{
    memory.events().len()
}

/// One step of the side: it ends the access that it has open, or begins the next one, or is done. Returns whether it made an event.
#[tactic(auto, using(bits_core::proofs::LawLemmas::open_changes, bits_core::proofs::LawLemmas::subhistory_changes))]
pub fn advance<M: Store<Event>, A: Actor, O: Oracle>(
    memory: &mut Memory<M>,
    actor: &mut A,
    oracle: &mut O,
    side: Side,
) -> Result<bool, PlayFault>
    requires playing { IsPlaying side memory.old.events (A.due actor.old) (A.stands actor.old) }
    requires side { A.side actor.old ≡ side }
    requires shape { memory.old.shape ≡ (A.script actor.old).shape }
    requires other { IsProgram (A.script actor.old) (other side) (subhistory (other side) memory.old.events) }
    ensures shape { memory.new.shape ≡ memory.old.shape }
    ensures script { A.script actor.new ≡ A.script actor.old }
    ensures side { A.side actor.new ≡ A.side actor.old }
    ensures playing { IsPlaying side memory.new.events (A.due actor.new) (A.stands actor.new) }
    ensures ok { IfOk result (λ moved. IsMove (A.script actor.old) side moved memory.old.events memory.new.events) }
    ensures err { OnErr result (memory.new.events ≡ memory.old.events) }
    ensures rooms { (memory.new.room ≡ memory.old.room) × (A.room actor.new ≡ A.room actor.old) }
    ensures full { OnErr result ((memory.old.room ≤ length memory.old.events) ⊎
        (A.room actor.old < A.kept actor.old + A.wants actor.old)) }
    ensures kept { OnErr result (A.kept actor.new ≡ A.kept actor.old) }
    ensures turns { (turns : ℕ → Bool) → IsAtTurn turns memory.old.events (O.answers oracle.old) →
        IsAtTurn turns memory.new.events (O.answers oracle.new) }
{
    match memory.pending(side) {
        Some(Access::Read(_)) => {
            event_count(memory);
            actor.reserve()?;
            actor.last_bit();
            let answer = memory.end_read(side, oracle)?;
            memory.events();
            actor.end(answer);
            Ok(true)
        }
        Some(Access::Write(_, _)) => {
            event_count(memory);
            actor.reserve()?;
            memory.end_write(side)?;
            actor.end(true);
            Ok(true)
        }
        None => match actor.next() {
            None => Ok(false),
            Some(access) => {
                begin(memory, side, access)?;
                actor.begin();
                Ok(true)
            }
        },
    }
}
