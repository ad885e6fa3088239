//! The calls of a play, one after the other, as a recorder would record them.
ghost use Rattle.std.specs.Prelude.{◌≡◌, ◌↔◌, true, IfOk, OnOk, List, [], ◌∷◌, ◌++◌, length, replicate};
ghost use Rattle.bits_core.specs.declared.events.Side.{Side};
ghost use Rattle.bits_core.specs.declared.events.Side.TheVariants as side_is;
ghost use Rattle.queue_calls.specs.Calls as calls;
ghost use Rattle.ring_core.specs.Items.{ToldIn, all_taken};
ghost use Rattle.ring_core.specs.Over.{empties, fulls, puts_over_in, takes_over_in};
ghost use Rattle.ring_core.specs.Puts.{FollowsPuts, Puts, stored_in};
ghost use Rattle.ring_core.specs.Takes.{FollowsTakes, Takes};
ghost use Rattle.ring_player.specs.Headline.{IsPlayOf};
ghost use Rattle.ring_player.specs.Plays.{Plays};
ghost use Rattle.ring_player.specs.Tellings.{AreAt, RecordsPlay, SaysPut, SaysTake, TellsCalls, call_events, listed, told_in};

use crate::faults::PlayFault;
use crate::worlds::World;
use bits_core::{Event, Side, Store};
use queue_calls::{CallEvent, Reply};
use ring_script::Script;
use std::alloc::{AllocError, Allocator};

/// The items that a take of a play took: `count` of the script's, after the `before` taken earlier.
///
/// For example, for a script whose items are 5 and 6, `TakenItems { before: 1, count: 1 }` are the item 6.
#[derive(Clone, Copy, PartialEq, Eq, Debug)]
pub struct TakenItems {
    pub before: usize,
    pub count: usize,
}

/// What an event of a play records of a call: its start, with the first of its own events, or its end, with the last.
/// The start of a put has how many items of the script were stored before it: it is offered those that follow, as many
/// as a batch may have. The start of a take has how many items it asks for, and its end which it took, if any.
///
/// In use: `lamport_ring play --calls`.
pub type PlayedCall = CallEvent<usize, TakenItems>;

// The producer's state: between two calls, in a put, in the close, after it.
#[derive(Clone, Copy)]
pub(crate) enum PutStage {
    Between,
    Putting,
    Closing,
    Closed,
}

// The consumer's state: between two calls, in a take, after one that returned Closed.
#[derive(Clone, Copy)]
pub(crate) enum TakeStage {
    Between,
    Taking,
    Told,
}

// What was counted about the puts that are over: the items that they stored, and how many found the ring full.
#[derive(Clone, Copy)]
struct PutCount {
    stored: usize,
    full: u64,
}

// The stage after an event of the producer and what the event records, by the stage before it and the counts before it and with it, for
// a script of this many items.
fn put_says(
    stage: PutStage,
    items: usize,
    before: PutCount,
    now: PutCount,
) -> (PutStage, Option<PlayedCall>)
    ensures { SaysPut stage items (record { stored = before.stored; full = before.full })
        (record { stored = now.stored; full = now.full }) result.0 result.1 }
{
    match stage {
        PutStage::Between => {
            if before.stored < items {
                (
                    PutStage::Putting,
                    Some(PlayedCall::PutBegins(before.stored)),
                )
            } else {
                (PutStage::Closing, Some(PlayedCall::CloseBegins))
            }
        }
        PutStage::Putting => {
            if before.stored < now.stored {
                (
                    PutStage::Between,
                    Some(PlayedCall::PutEnds(Reply::Passed(now.stored - before.stored))),
                )
            } else if before.full < now.full {
                (PutStage::Between, Some(PlayedCall::PutEnds(Reply::Lacked)))
            } else {
                (PutStage::Putting, None)
            }
        }
        PutStage::Closing => (PutStage::Closed, Some(PlayedCall::CloseEnds)),
        PutStage::Closed => (PutStage::Closed, None),
    }
}

// What was counted about the takes that are over: the items that they took, how many found the ring empty, and whether one returned Closed.
#[derive(Clone, Copy)]
struct TakeCount {
    taken: usize,
    empty: u64,
    told: bool,
}

// The stage after an event of the consumer and what the event records, by the stage before it, how many items the next take asked for, and
// the counts before it and with it.
fn take_says(
    stage: TakeStage,
    wanted: usize,
    before: TakeCount,
    now: TakeCount,
) -> (TakeStage, Option<PlayedCall>)
    ensures { SaysTake stage wanted (record { taken = before.taken; empty = before.empty; told = before.told })
        (record { taken = now.taken; empty = now.empty; told = now.told }) result.0 result.1 }
{
    match stage {
        TakeStage::Between => (TakeStage::Taking, Some(PlayedCall::TakeBegins(wanted))),
        TakeStage::Taking => {
            if before.taken < now.taken {
                let taken = TakenItems {
                    before: before.taken,
                    count: now.taken - before.taken,
                };
                (
                    TakeStage::Between,
                    Some(PlayedCall::TakeEnds(Reply::Passed(taken))),
                )
            } else if before.empty < now.empty {
                (
                    TakeStage::Between,
                    Some(PlayedCall::TakeEnds(Reply::Lacked)),
                )
            } else if now.told {
                (TakeStage::Told, Some(PlayedCall::TakeEnds(Reply::Shut)))
            } else {
                (TakeStage::Taking, None)
            }
        }
        TakeStage::Told => (TakeStage::Told, None),
    }
}

// The stages of both sides.
#[derive(Clone, Copy)]
struct Stages {
    put: PutStage,
    take: TakeStage,
}

// What was counted about the puts that are over.
fn put_count<E: Store<Event>, T: Store<u64>>(world: &World<'_, E, T>) -> PutCount
    ensures stored { (puts : Puts) → FollowsPuts world.now.script.shape world.now.history puts →
        result.stored ≡ stored_in 0 (puts_over_in world.now.script.shape world.now.history puts) }
    ensures full { (puts : Puts) → FollowsPuts world.now.script.shape world.now.history puts →
        result.full ≡ fulls (puts_over_in world.now.script.shape world.now.history puts) }
{
    PutCount {
        stored: world.stored(),
        full: world.full(),
    }
}

// What was counted about the takes that are over.
fn take_count<E: Store<Event>, T: Store<u64>>(world: &World<'_, E, T>) -> TakeCount
    ensures taken { (takes : Takes) → FollowsTakes world.now.script.shape world.now.history takes →
        result.taken ≡ length (all_taken (takes_over_in world.now.script.shape world.now.history takes)) }
    ensures empty { (takes : Takes) → FollowsTakes world.now.script.shape world.now.history takes →
        result.empty ≡ empties (takes_over_in world.now.script.shape world.now.history takes) }
    ensures told { (takes : Takes) → FollowsTakes world.now.script.shape world.now.history takes →
        (result.told ≡ true) ↔ ToldIn world.now.script.shape world.now.history takes }
{
    TakeCount {
        taken: world.ended_items().len(),
        empty: world.empty(),
        told: world.told(),
    }
}

// One step of a side, and what its event records, if anything.
fn step_told<E: Store<Event>, T: Store<u64>>(
    world: &mut World<'_, E, T>,
    at: &mut Stages,
    side: Side,
    items: usize,
) -> Result<Option<PlayedCall>, PlayFault>
    requires items { items ≡ length world.old.script.items }
    requires at { AreAt at.old.put at.old.take world.old.script world.old.history }
    ensures script { world.new.script ≡ world.old.script }
    ensures at { OnOk result (AreAt at.new.put at.new.take world.new.script world.new.history) }
    ensures told { IfOk result (λ told. (events : List calls.Event) →
        TellsCalls world.old.script world.old.history events →
        TellsCalls world.new.script world.new.history (events ++ told_in world.old.script told)) }
    ensures letters { OnOk result ((letters : List Side) → Plays world.old.script letters world.old.history →
        Plays world.new.script (letters ++ side ∷ []) world.new.history) }
{
    match side {
        Side::P => {
            let before = put_count(world);
            let moved = world.step(Side::P)?;
            if !moved {
                return Ok(None);
            }
            let now = put_count(world);
            let said = put_says(at.put, items, before, now);
            at.put = said.0;
            Ok(said.1)
        }
        Side::C => {
            let wanted = world.wanted() as usize;
            let before = take_count(world);
            let moved = world.step(Side::C)?;
            if !moved {
                return Ok(None);
            }
            world.ended_items();
            let now = take_count(world);
            let said = take_says(at.take, wanted, before, now);
            at.take = said.0;
            Ok(said.1)
        }
    }
}

// Appends what was recorded, if anything.
fn add<A: Allocator>(
    told: &mut Vec<PlayedCall, A>,
    event: Option<PlayedCall>,
) -> Result<(), AllocError>
    ensures { OnOk result (told.new.items ≡ told.old.items ++ listed event) }
{
    match event {
        Some(event) => Ok(told.push(event)?),
        None => Ok(()),
    }
}

// Makes this many steps of one side, and records what their events record.
fn repeat_told<E: Store<Event>, T: Store<u64>, A: Allocator>(
    world: &mut World<'_, E, T>,
    at: &mut Stages,
    told: &mut Vec<PlayedCall, A>,
    side: Side,
    count: u64,
    items: usize,
) -> Result<(), PlayFault>
    requires items { items ≡ length world.old.script.items }
    requires at { AreAt at.old.put at.old.take world.old.script world.old.history }
    requires told { TellsCalls world.old.script world.old.history (call_events world.old.script told.old.items) }
    ensures script { world.new.script ≡ world.old.script }
    ensures at { OnOk result (AreAt at.new.put at.new.take world.new.script world.new.history) }
    ensures told { OnOk result (TellsCalls world.new.script world.new.history
        (call_events world.new.script told.new.items)) }
    ensures letters { OnOk result ((letters : List Side) → Plays world.old.script letters world.old.history →
        Plays world.old.script (letters ++ replicate count side) world.new.history) }
{
    for made in 0..count {
        let event = step_told(world, at, side, items)?;
        add(told, event)?;
    }
    Ok(())
}

/// Plays a script, and returns the start and the end of each call: a call that is cut has begun and has not ended. This is the
/// recording of the play's calls, whichever calls its events are read as, and a linearizable history of a queue of the ring's
/// capacity.
///
/// `OutOfMemory`: memory ran out.
///
/// In use: `lamport_ring play --calls`.
pub fn play_calls<A: Allocator + Copy, B: Allocator>(
    alloc: A,
    script: &Script<B>,
) -> Result<Vec<PlayedCall, A>, PlayFault>
    ensures { IfOk result (λ told. (h : List Event) × IsPlayOf script.now script.now.letters h ×
        RecordsPlay script.now h told.items) }
{
    let mut world = World::new(alloc, script);
    let mut at = Stages {
        put: PutStage::Between,
        take: TakeStage::Between,
    };
    let mut told = Vec::new(alloc);
    let script = script.as_ref();
    let items = script.items().len();
    world.history();
    for run in script.runs() {
        repeat_told(&mut world, &mut at, &mut told, run.side, run.count, items)?;
    }
    world.history();
    Ok(told)
}
