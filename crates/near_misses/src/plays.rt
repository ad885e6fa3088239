//! A script, played by a near miss.
ghost use Rattle.std.specs.Prelude.{◌≡◌, ◌⊎◌, ℕ, ◌+◌, ◌<◌, ◌≤◌, Bool, true, false, Some, None, List, [], ◌∷◌, ◌++◌, IfOk, OnErr, OnOk, length, min, replicate, take};
ghost use Rattle.bits_core.specs.History.{open_access};
ghost use Rattle.bits_core.specs.Lawful.{IsLawful};
ghost use Rattle.bits_core.specs.Made.{opening_event};
ghost use Rattle.bits_core.specs.Open.{IsOpenRight};
ghost use Rattle.bits_core.specs.Shape.{AreOfShape};
ghost use Rattle.bits_core.specs.declared.events.Side.TheVariants.{P, C};
ghost use Rattle.near_misses.specs.NearPlays.{IsNearPlay, NearAsked, items_told};
ghost use Rattle.near_misses.specs.NearSides.{IsInOpenCall, IsNearReady, IsOpenDue, NearHas, NearMoves, ended_event, items_held};
ghost use Rattle.ring_player.specs.Actors.{IsAtTurn};
ghost use Rattle.ring_player.specs.Tellings.{listed};
ghost use Rattle.ring_script.specs.Borrowed.{content_of};

use crate::misses::NearMiss;
use crate::putting::NearPutter;
use crate::sides::NearSide;
use crate::taking::NearTaker;
use bits_core::{Access, Event, Memory, MemoryFault, Oracle, Side, Store, Tape};
use queue_calls::{CallEvent, Reply};
use ring_script::{Script, ScriptRef};
use std::alloc::Allocator;

/// Why a script was not played: `OutOfMemory`, if memory ran out. Its number is 1.
///
/// In use: `lamport_ring play --wrong`.
pub type NearFault = MemoryFault;

/// What an event of a play by a near miss records of a call: the start of a put has how many items of the script were stored before it,
/// the start of a take how many it asks for, and the end of one that took some how many.
///
/// For example, `CallEvent::TakeEnds(Reply::Passed(1))` is `C item 5` in a recording, and the item 5 is among those of all takes.
pub type NearCall = CallEvent<usize, usize>;

/// What was played: the history of the bits, the starts and ends of the calls, and the items of the takes that have ended, in order.
///
/// In use: `lamport_ring play --wrong`.
#[derive(Drop)]
pub struct NearPlay<E: Store<Event>, T: Store<NearCall>, I: Store<u64>> {
    pub history: E,
    pub told: T,
    pub taken: I,
}

// Begins the access, if it is of a bit of the shape by the side that may make it. (No near miss requests another; that is checked at
// run time, and not proved.)
fn begin<E: Store<Event>>(
    memory: &mut Memory<E>,
    side: Side,
    access: Access,
) -> Result<bool, NearFault>
    requires { open_access side memory.old.events ≡ None }
    ensures shape { memory.new.shape ≡ memory.old.shape }
    ensures began { IfOk result (λ began. began ≡ true →
        memory.new.events ≡ memory.old.events ++ opening_event side access ∷ []) }
    ensures refused { IfOk result (λ began. began ≡ false → (memory.new ≡ memory.old) ×
        ¬ IsOpenRight memory.old.shape side access) }
    ensures room { memory.new.room ≡ memory.old.room }
    ensures few { length memory.new.events ≤ length memory.old.events + 1 }
    ensures full { OnErr result (memory.old.room ≤ length memory.old.events) }
{
    match access {
        Access::Read(bit) => {
            if !memory.shape().has(bit) || bit.reader() != side {
                return Ok(false);
            }
            memory.begin_read(side, bit)?;
        }
        Access::Write(bit, value) => {
            if !memory.shape().has(bit) || bit.writer() != side {
                return Ok(false);
            }
            memory.begin_write(side, bit, value)?;
        }
    }
    Ok(true)
}

// Ends this access, which the side has open. A write has no answer, returned as 0.
#[tactic(auto, using(ring_player::proofs::LawLemmas::turns_go_on))]
fn end<E: Store<Event>, O: Oracle>(
    memory: &mut Memory<E>,
    side: Side,
    access: Access,
    oracle: &mut O,
) -> Result<bool, NearFault>
    requires { open_access side memory.old.events ≡ Some access }
    ensures shape { memory.new.shape ≡ memory.old.shape }
    ensures ended { IfOk result (λ answer. memory.new.events ≡ memory.old.events ++ ended_event side access
        answer ∷ []) }
    ensures room { memory.new.room ≡ memory.old.room }
    ensures few { length memory.new.events ≤ length memory.old.events + 1 }
    ensures full { OnErr result (memory.old.room ≤ length memory.old.events) }
    ensures turns { OnOk result ((turns : ℕ → Bool) → IsAtTurn turns memory.old.events (O.answers oracle.old) →
        IsAtTurn turns memory.new.events (O.answers oracle.new)) }
{
    match access {
        Access::Read(_) => Ok(memory.end_read(side, oracle)?),
        Access::Write(_, _) => {
            memory.end_write(side)?;
            Ok(false)
        }
    }
}

// One step of a side, and what its event records, if anything: it begins the next access, or ends the one that is open, or stops.
#[tactic(auto, using(bits_core::proofs::LawLemmas::open_changes, ring_player::proofs::LawLemmas::turns_go_on))]
fn step<E: Store<Event>, S: NearSide, O: Oracle>(
    memory: &mut Memory<E>,
    machine: &mut S,
    oracle: &mut O,
    side: Side,
) -> Result<Option<NearCall>, NearFault>
    requires side { (S.side machine.old ≡ side) × (S.shape machine.old ≡ memory.old.shape) }
    requires open { IsInOpenCall side memory.old.events (S.stand machine.old) }
    requires due { IsOpenDue side memory.old.events (S.due machine.old) }
    ensures shape { memory.new.shape ≡ memory.old.shape }
    ensures side { (S.side machine.new ≡ side) × (S.shape machine.new ≡ memory.new.shape) }
    ensures due { OnOk result (IsOpenDue side memory.new.events (S.due machine.new)) }
    ensures asked { (a : NearAsked) → S.asked machine.old a → S.asked machine.new a }
    ensures moves { IfOk result (λ told. (a : NearAsked) → S.asked machine.old a →
        NearMoves a side memory.old.events (S.stand machine.old) told memory.new.events (S.stand machine.new)) }
    ensures turns { OnOk result ((turns : ℕ → Bool) → IsAtTurn turns memory.old.events (O.answers oracle.old) →
        IsAtTurn turns memory.new.events (O.answers oracle.new)) }
    ensures room { memory.new.room ≡ memory.old.room }
    ensures few { length memory.new.events ≤ length memory.old.events + 1 }
    ensures full { OnErr result (memory.old.room ≤ length memory.old.events) }
{
    let Some(access) = memory.pending(side) else {
        let Some((access, told)) = machine.next() else {
            machine.stop();
            return Ok(None);
        };
        if begin(memory, side, access)? {
            return Ok(told);
        }
        machine.stop();
        return Ok(None);
    };
    let answer = end(memory, side, access, oracle)?;
    Ok(machine.end(access, answer))
}

// Appends what an event records, if anything.
fn tell<T: Store<NearCall>>(told: &mut T, event: Option<NearCall>) -> Result<(), NearFault>
    ensures told { OnOk result (T.items told.new ≡ T.items told.old ++ listed event) }
    ensures room { T.room told.new ≡ T.room told.old }
    ensures few { OnOk result (length (T.items told.new) ≤ length (T.items told.old) + 1) }
    ensures full { OnErr result (T.room told.old ≤ length (T.items told.old)) }
{
    match event {
        Some(event) => {
            told.reserve()?;
            told.add(event);
            Ok(())
        }
        None => Ok(()),
    }
}

// Keeps the items of an event, for a take that has read these.
fn keep<I: Store<u64>>(
    taken: &mut I,
    event: Option<NearCall>,
    items: &[u64],
) -> Result<(), NearFault>
    ensures taken { OnOk result (I.items taken.new ≡ I.items taken.old ++ items_told event items.now) }
    ensures room { I.room taken.new ≡ I.room taken.old }
    ensures full { OnErr result (I.room taken.old < length (I.items taken.old) + length (items_told event items.now)) }
{
    match event {
        Some(NearCall::TakeEnds(Reply::Passed(_))) => {
            taken.extend_from_slice(items)?;
            Ok(())
        }
        _ => Ok(()),
    }
}

// Both sides running on one memory.
#[derive(Drop)]
struct NearWorld<'a, E: Store<Event>, T: Store<NearCall>, I: Store<u64>> {
    memory: Memory<E>,
    putter: NearPutter<'a>,
    taker: NearTaker,
    oracle: Tape<'a>,
    told: T,
    taken: I,
}

impl<E: Store<Event>, T: Store<NearCall>, I: Store<u64>> NearWorld<'_, E, T, I> {
    // Makes one step of a side.
    fn step(&mut self, side: Side) -> Result<(), NearFault>
        requires { IsNearReady self.old }
        ensures ready { OnOk result (IsNearReady self.new) }
        ensures shape { self.new.memory.shape ≡ self.old.memory.shape }
        ensures has { OnOk result ((a : NearAsked) (letters : List Side) (oracle : List Bool) →
            NearHas T.items I.items a letters oracle self.old →
            NearHas T.items I.items a (letters ++ side ∷ []) oracle self.new) }
        ensures rooms { (self.new.memory.room ≡ self.old.memory.room) × (T.room self.new.told ≡ T.room self.old.told) ×
            (I.room self.new.taken ≡ I.room self.old.taken) }
        ensures few { OnOk result ((length self.new.memory.events ≤ length self.old.memory.events + 1) ×
            (length (T.items self.new.told) ≤ length (T.items self.old.told) + 1) ×
            (items_held I.items self.new ≤ items_held I.items self.old + 1)) }
        ensures full { OnErr result ((self.old.memory.room ≤ length self.old.memory.events) ⊎
            ((T.room self.old.told ≤ length (T.items self.old.told)) ⊎
            (I.room self.old.taken ≤ items_held I.items self.old))) }
    {
        match side {
            Side::P => {
                let event = step(
                    &mut self.memory,
                    &mut self.putter,
                    &mut self.oracle,
                    Side::P,
                )?;
                tell(&mut self.told, event)?;
                Ok(())
            }
            Side::C => {
                let event = step(&mut self.memory, &mut self.taker, &mut self.oracle, Side::C)?;
                tell(&mut self.told, event)?;
                keep(&mut self.taken, event, self.taker.items())?;
                Ok(())
            }
        }
    }

    // Makes this many steps of one side.
    fn repeat(&mut self, side: Side, count: u64) -> Result<(), NearFault>
        requires { IsNearReady self.old }
        ensures ready { OnOk result (IsNearReady self.new) }
        ensures shape { self.new.memory.shape ≡ self.old.memory.shape }
        ensures has { OnOk result ((a : NearAsked) (letters : List Side) (oracle : List Bool) →
            NearHas T.items I.items a letters oracle self.old →
            NearHas T.items I.items a (letters ++ replicate count side) oracle self.new) }
        ensures rooms { (self.new.memory.room ≡ self.old.memory.room) × (T.room self.new.told ≡ T.room self.old.told) ×
            (I.room self.new.taken ≡ I.room self.old.taken) }
        ensures few { OnOk result ((length self.new.memory.events ≤ length self.old.memory.events + count) ×
            (length (T.items self.new.told) ≤ length (T.items self.old.told) + count) ×
            (items_held I.items self.new ≤ items_held I.items self.old + count)) }
        ensures full { OnErr result ((self.old.memory.room < length self.old.memory.events + count) ⊎
            ((T.room self.old.told < length (T.items self.old.told) + count) ⊎
            (I.room self.old.taken < items_held I.items self.old + count))) }
    {
        for _ in 0..count {
            self.step(side)?;
        }
        Ok(())
    }
}

// Makes one step for each of the first `most` letters of the script's schedule, or for each letter if there are fewer.
fn run_first<E: Store<Event>, T: Store<NearCall>, I: Store<u64>>(
    world: &mut NearWorld<'_, E, T, I>,
    script: ScriptRef<'_>,
    letters: u64,
) -> Result<(), NearFault>
    requires ready { IsNearReady world.old }
    requires new { (world.old.memory.events ≡ []) × (T.items world.old.told ≡ []) × (items_held I.items world.old ≡ 0) }
    ensures shape { world.new.memory.shape ≡ world.old.memory.shape }
    ensures has { OnOk result ((a : NearAsked) (oracle : List Bool) → NearHas T.items I.items a [] oracle world.old →
        NearHas T.items I.items a (take letters (content_of script.entry).letters) oracle world.new) }
    ensures few { OnOk result ((length world.new.memory.events ≤ min letters
        (length (content_of script.entry).letters)) ×
        (length (T.items world.new.told) ≤ min letters (length (content_of script.entry).letters)) ×
        (items_held I.items world.new ≤ min letters (length (content_of script.entry).letters))) }
    ensures full { OnErr result ((world.old.memory.room < min letters (length (content_of script.entry).letters)) ⊎
        ((T.room world.old.told < min letters (length (content_of script.entry).letters)) ⊎
        (I.room world.old.taken < min letters (length (content_of script.entry).letters)))) }
{
    let mut left = letters;
    for run in script.runs() {
        let count = run.count.min(left);
        world.repeat(run.side, count)?;
        left -= count;
    }
    Ok(())
}

/// Plays a script by a near miss: one step for each letter of its schedule, by a side that has not stopped. The history
/// of the bits is lawful, as a memory of safe bits makes it, and each read that a write overlaps has the oracle's next
/// answer. Each start and end of a call is recorded at the event that is its first or its last, and the items of a take
/// are those of the digits that it read; nothing more is guaranteed about the items put and taken.
///
/// `OutOfMemory`: memory ran out.
///
/// In use: `lamport_ring play --wrong`.
pub fn play_near<A: Allocator + Copy, B: Allocator>(
    alloc: A,
    miss: NearMiss,
    script: &Script<B>,
) -> Result<NearPlay<Vec<Event, A>, Vec<NearCall, A>, Vec<u64, A>>, NearFault>
    ensures plays { IfOk result (λ play. IsNearPlay miss script.now script.now.letters play.history.items
        play.told.items play.taken.items) }
    ensures of_shape { IfOk result (λ play. AreOfShape script.now.shape play.history.items) }
{
    let letters = script.len();
    play_near_first(
        miss,
        script.as_ref(),
        letters,
        Vec::new(alloc),
        Vec::new(alloc),
        Vec::new(alloc),
    )
}

/// Plays the first `most` letters of a script by a near miss, or all of them if there are fewer, as [`play_near`] does. The history,
/// the recorded calls and the items taken are added to these stores, which are empty.
///
/// `OutOfMemory`: one of the stores had no room for as many as letters are played.
///
/// In use: the page, which shows a play up to a letter.
pub fn play_near_first<E: Store<Event>, T: Store<NearCall>, I: Store<u64>>(
    miss: NearMiss,
    script: ScriptRef<'_>,
    letters: u64,
    events: E,
    told: T,
    taken: I,
) -> Result<NearPlay<E, T, I>, NearFault>
    requires no_events { E.items events ≡ [] }
    requires none_told { T.items told ≡ [] }
    requires none_taken { I.items taken ≡ [] }
    ensures plays { IfOk result (λ play. IsNearPlay miss (content_of script.entry)
        (take letters (content_of script.entry).letters) (E.items play.history) (T.items play.told)
        (I.items play.taken)) }
    ensures of_shape { IfOk result (λ play. AreOfShape (content_of script.entry).shape (E.items play.history)) }
    // A letter makes at most one event, one start or end of a call, and one item.
    ensures few { IfOk result (λ play. (length (E.items play.history) ≤ min letters
        (length (content_of script.entry).letters)) ×
        (length (T.items play.told) ≤ min letters (length (content_of script.entry).letters)) ×
        (length (I.items play.taken) ≤ min letters (length (content_of script.entry).letters))) }
    ensures refused { OnErr result ((E.room events < min letters (length (content_of script.entry).letters)) ⊎
        ((T.room told < min letters (length (content_of script.entry).letters)) ⊎
        (I.room taken < min letters (length (content_of script.entry).letters)))) }
{
    let shape = script.shape();
    let mut world = NearWorld {
        memory: Memory::over(events, shape),
        putter: NearPutter::new(miss, shape, script.items(), script.closes()),
        taker: NearTaker::new(miss, shape, script.takes()),
        oracle: Tape::new(script.oracle()),
        told,
        taken,
    };
    run_first(&mut world, script, letters)?;
    let NearWorld {
        memory,
        putter: _,
        taker: _,
        oracle: _,
        told,
        taken,
    } = world;
    Ok(NearPlay {
        history: memory.into_events(),
        told,
        taken,
    })
}
