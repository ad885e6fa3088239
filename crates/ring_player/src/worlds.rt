//! The world that plays a script.
ghost use Rattle.std.specs.Prelude.{◌≡◌, ◌↔◌, ◌⊎◌, ◌<◌, ◌≤◌, ℕ, ◌+◌, Bool, true, List, [], ◌∷◌, ◌++◌, IfOk, OnErr, OnOk, length, min, replicate, take};
ghost use Rattle.bits_core.specs.declared.events.Side.{Side};
ghost use Rattle.bits_core.specs.Memory.{flicker_count};
ghost use Rattle.bits_core.specs.Made.{IsPrefix};
ghost use Rattle.bits_core.specs.Shape.{take_batch_of};
ghost use Rattle.ring_core.specs.Items.{ToldIn, all_taken, items_put_in, items_taken_in};
ghost use Rattle.ring_core.specs.Linear.{EachReadingIsLinearizable};
ghost use Rattle.ring_core.specs.Over.{empties, fulls, puts_over_in, takes_over_in};
ghost use Rattle.ring_core.specs.Puts.{FollowsPuts, Puts, stored_in};
ghost use Rattle.ring_core.specs.Takes.{FollowsTakes, Takes};
ghost use Rattle.ring_player.specs.Actors.{IsMove};
ghost use Rattle.ring_player.specs.Headline.{IsPlayOf};
ghost use Rattle.ring_player.specs.Plays.{HasFlickers, Plays, event_sides};
ghost use Rattle.ring_player.specs.Wants.{wanted_at};
ghost use Rattle.ring_player.specs.Worlds.{PlayedOn};
ghost use Rattle.ring_script.specs.Borrowed.{content_of};

use crate::actors::advance;
use crate::faults::PlayFault;
use crate::putting::PutActor;
use crate::taking::TakeActor;
use bits_core::{Event, Memory, Side, Store, Tape};
use ring_script::{Script, ScriptRef};
use std::alloc::Allocator;
use std::marker::Model;

/// The two sides of a script running on one memory. The history and the items taken are kept in stores that
/// the caller chooses.
///
/// For example, [`play`] makes a new one, and one step for each letter.
#[derive(Drop)]
pub struct World<'a, E: Store<Event>, T: Store<u64>> {
    script: ScriptRef<'a>,
    memory: Memory<E>,
    producer: PutActor<'a>,
    consumer: TakeActor<'a, T>,
    oracle: Tape<'a>,
}

impl<'a, E: Store<Event>, T: Store<u64>> Model for World<'a, E, T> {
    ghost use Rattle.bits_core.specs.Oracle.{tape_answer};
    ghost use Rattle.ring_core.specs.ConsumerState.{due_take};
    ghost use Rattle.ring_core.specs.ProducerState.{due_put};
    ghost use Rattle.ring_player.specs.Actors.{HasWritten, PutActorStands, TakeActorStands};
    ghost use Rattle.ring_player.specs.Worlds.{Played, IsWorld};
    ghost use Rattle.ring_script.specs.Borrowed.{content_of};
    ghost use Rattle.std.specs.Prelude.{length};

    ghost Value = { Played };

    ghost view = { λ w. record {
      script = content_of w.script;
      history = w.memory.events;
      taken = length (T.items w.consumer.taken);
      event_room = w.memory.room;
      item_room = T.room w.consumer.taken;
    } };

    ghost invariant = { λ w. IsWorld (content_of w.script) w.memory (content_of w.producer.script)
        (content_of w.consumer.script) (due_put w.producer.producer) (due_take w.consumer.consumer)
        (λ list opened. PutActorStands (content_of w.producer.script) w.producer.producer
        (record { stored = w.producer.stored; full = w.producer.full }) list opened ×
        HasWritten (content_of w.producer.script) w.producer.digits w.producer.put list opened)
        (TakeActorStands (content_of w.consumer.script) w.consumer.consumer (T.items w.consumer.taken) w.consumer.told
        w.consumer.empty)
        (tape_answer w.oracle) };
}

impl<'a, A: Allocator + Copy> World<'a, Vec<Event, A>, Vec<u64, A>> {
    /// A world that has made no step. It takes memory from this allocator, none of it at first.
    pub fn new<B: Allocator>(alloc: A, script: &'a Script<B>) -> Self
        ensures script { result.script ≡ script.now }
        ensures empty { result.history ≡ [] }
    {
        World::over(script.as_ref(), Vec::new(alloc), Vec::new(alloc))
    }
}

impl<'a, E: Store<Event>, T: Store<u64>> World<'a, E, T> {
    /// A world that has made no step. Its history and the items taken are added to these stores, which are empty.
    pub fn over(script: ScriptRef<'a>, events: E, taken: T) -> Self
        requires no_events { E.items events ≡ [] }
        requires none_taken { T.items taken ≡ [] }
        ensures script { result.script ≡ content_of script.entry }
        ensures empty { result.history ≡ [] }
        ensures rooms { (result.event_room ≡ E.room events) × (result.item_room ≡ T.room taken) }
    {
        World {
            script,
            memory: Memory::over(events, script.shape()),
            producer: PutActor::new(script),
            consumer: TakeActor::new(taken, script),
            oracle: Tape::new(script.oracle()),
        }
    }

    /// The history so far: the play of the script by the sides of its own events. The main theorem holds for it, and its calls
    /// are linearizable.
    pub fn history(&self) -> &[Event]
        ensures history { result.now ≡ self.now.history }
        ensures plays { IsPlayOf self.now.script (event_sides self.now.history) self.now.history }
        ensures linearizable { EachReadingIsLinearizable self.now.script.shape self.now.history }
    {
        self.memory.events()
    }

    /// The items put so far: those of the puts whose count write has begun.
    #[tactic(auto, using(ring_core::proofs::LawLemmas::items_put_are_read))]
    pub fn put_items(&self) -> &'a [u64]
        ensures { (puts : Puts) → FollowsPuts self.now.script.shape self.now.history puts →
            result.now ≡ items_put_in self.now.script.shape self.now.history puts }
    {
        self.producer.look();
        self.producer.put()
    }

    /// The items taken so far: those of the takes that have ended.
    pub fn taken_items(&self) -> &[u64]
        ensures { (takes : Takes) → FollowsTakes self.now.script.shape self.now.history takes →
            result.now ≡ items_taken_in self.now.script.shape self.now.history takes }
    {
        self.consumer.look();
        self.consumer.taken()
    }

    /// Whether a take returned Closed.
    pub fn told(&self) -> bool
        ensures { (takes : Takes) → FollowsTakes self.now.script.shape self.now.history takes → (result ≡ true) ↔
            ToldIn self.now.script.shape self.now.history takes }
    {
        self.consumer.look();
        self.consumer.told
    }

    /// How many reads that a write overlapped have ended.
    pub fn flickers(&self) -> u64
        ensures { result ≡ flicker_count self.now.history }
    {
        self.memory.flickers()
    }

    // The producer, which has counted the puts that have ended.
    #[tactic(auto, using(ring_core::proofs::LawLemmas::calls_over_are_read_puts))]
    fn puts(&self) -> &PutActor<'a>
        ensures stored { (puts : Puts) → FollowsPuts self.now.script.shape self.now.history puts →
            result.now.stored ≡ stored_in 0 (puts_over_in self.now.script.shape self.now.history puts) }
        ensures full { (puts : Puts) → FollowsPuts self.now.script.shape self.now.history puts →
            result.now.full ≡ fulls (puts_over_in self.now.script.shape self.now.history puts) }
    {
        self.producer.look();
        &self.producer
    }

    /// How many items the puts that have ended stored.
    pub fn stored(&self) -> usize
        ensures { (puts : Puts) → FollowsPuts self.now.script.shape self.now.history puts →
            result ≡ stored_in 0 (puts_over_in self.now.script.shape self.now.history puts) }
    {
        self.puts().stored
    }

    /// The items that the takes that have ended took: the first ones of the script.
    pub fn ended_items(&self) -> &[u64]
        ensures items { (takes : Takes) → FollowsTakes self.now.script.shape self.now.history takes →
            result.now ≡ all_taken (takes_over_in self.now.script.shape self.now.history takes) }
        ensures first { IsPrefix result.now self.now.script.items }
    {
        self.history();
        self.producer.look();
        self.consumer.look();
        self.consumer.taken()
    }

    /// How many puts have ended that found the ring full.
    pub fn full(&self) -> u64
        ensures { (puts : Puts) → FollowsPuts self.now.script.shape self.now.history puts →
            result ≡ fulls (puts_over_in self.now.script.shape self.now.history puts) }
    {
        self.puts().full
    }

    /// How many takes have ended that found the ring empty.
    #[tactic(auto, using(ring_core::proofs::LawLemmas::calls_over_are_read_takes))]
    pub fn empty(&self) -> u64
        ensures { (takes : Takes) → FollowsTakes self.now.script.shape self.now.history takes →
            result ≡ empties (takes_over_in self.now.script.shape self.now.history takes) }
    {
        self.consumer.look();
        self.consumer.empty
    }

    /// How many items the next take asks for: as many as one count write may count, or as many as are left to take.
    pub fn wanted(&self) -> u64
        ensures wanted { (takes : Takes) → FollowsTakes self.now.script.shape self.now.history takes →
            result ≡ wanted_at self.now.script (length (all_taken
            (takes_over_in self.now.script.shape self.now.history takes))) }
        ensures small { result ≤ 64 }
    {
        self.consumer.look();
        self.consumer.wanted()
    }

    // At most as many items were taken as the script has, and as it takes.
    #[tactic(auto, using(crate::proofs::WorldParts::first_few, crate::proofs::WorldParts::taken_first, crate::proofs::TakesSoFar::taken_few))]
    fn few_taken(&self)
        ensures items { self.now.taken ≤ length self.now.script.items }
        ensures takes { self.now.taken ≤ self.now.script.takes }
    {
        self.history();
        self.producer.look();
        self.consumer.look();
    }

    /// The report on what was played. It takes no memory.
    pub fn report(self) -> Report<'a, E, T>
        ensures history { E.items result.history ≡ self.entry.history }
        ensures plays { IsPlayOf self.entry.script (event_sides self.entry.history) (E.items result.history) }
        ensures put { (puts : Puts) → FollowsPuts self.entry.script.shape self.entry.history puts →
            result.put.now ≡ items_put_in self.entry.script.shape self.entry.history puts }
        ensures taken { (takes : Takes) → FollowsTakes self.entry.script.shape self.entry.history takes →
            T.items result.taken ≡ items_taken_in self.entry.script.shape self.entry.history takes }
        ensures told { (takes : Takes) → FollowsTakes self.entry.script.shape self.entry.history takes →
            (result.told ≡ true) ↔ ToldIn self.entry.script.shape self.entry.history takes }
        ensures full { (puts : Puts) → FollowsPuts self.entry.script.shape self.entry.history puts →
            result.full ≡ fulls (puts_over_in self.entry.script.shape self.entry.history puts) }
        ensures empty { (takes : Takes) → FollowsTakes self.entry.script.shape self.entry.history takes →
            result.empty ≡ empties (takes_over_in self.entry.script.shape self.entry.history takes) }
        ensures flicker { result.flicker ≡ flicker_count self.entry.history }
    {
        self.history();
        self.consumer.look();
        let put = self.put_items();
        let told = self.told();
        let full = self.full();
        let empty = self.empty();
        let flicker = self.memory.flickers();
        let World {
            script: _,
            memory,
            producer: _,
            consumer,
            oracle: _,
        } = self;
        Report {
            history: memory.into_events(),
            put,
            taken: consumer.into_taken(),
            told,
            full,
            empty,
            flicker,
        }
    }

    /// One step of a side: true if it made its next event, false if it is done.
    ///
    /// `OutOfMemory` leaves everything unchanged: the history had no room for the event, or the items taken had none for
    /// as many more as the take asks for, which is requested whenever an access of the consumer ends.
    pub fn step(&mut self, side: Side) -> Result<bool, PlayFault>
        ensures script { self.new.script ≡ self.old.script }
        ensures ok { IfOk result (λ moved. IsMove self.old.script side moved self.old.history self.new.history) }
        ensures err { OnErr result (self.new ≡ self.old) }
        ensures rooms { (self.new.event_room ≡ self.old.event_room) × (self.new.item_room ≡ self.old.item_room) }
        ensures full { OnErr result ((self.old.event_room ≤ length self.old.history) ⊎
            (self.old.item_room < self.old.taken + wanted_at self.old.script self.old.taken)) }
        ensures few { length self.new.history ≤ length self.old.history + 1 }
        ensures letters { OnOk result ((letters : List Side) → Plays self.old.script letters self.old.history →
            Plays self.new.script (letters ++ side ∷ []) self.new.history) }
        ensures plays { IsPlayOf self.new.script (event_sides self.new.history) self.new.history }
    {
        let moved = self.step_side(side);
        self.history();
        moved
    }

    // The same, without what it implies about the history.
    fn step_side(&mut self, side: Side) -> Result<bool, PlayFault>
        ensures { PlayedOn side self.old self.new result }
    {
        match side {
            Side::P => advance(
                &mut self.memory,
                &mut self.producer,
                &mut self.oracle,
                Side::P,
            ),
            Side::C => advance(
                &mut self.memory,
                &mut self.consumer,
                &mut self.oracle,
                Side::C,
            ),
        }
    }
}

/// Makes this many steps of one side.
fn repeat<E: Store<Event>, T: Store<u64>>(
    world: &mut World<'_, E, T>,
    side: Side,
    count: u64,
) -> Result<(), PlayFault>
    ensures script { world.new.script ≡ world.old.script }
    ensures plays { OnOk result ((letters : List Side) → Plays world.old.script letters world.old.history →
        Plays world.old.script (letters ++ replicate count side) world.new.history) }
    ensures rooms { (world.new.event_room ≡ world.old.event_room) × (world.new.item_room ≡ world.old.item_room) }
    ensures few { OnOk result (length world.new.history ≤ length world.old.history + count) }
    ensures full { OnErr result (((world.new.event_room ≤ length world.new.history) ⊎
        (world.new.item_room < world.new.taken + wanted_at world.new.script world.new.taken)) ×
        (length world.new.history < length world.old.history + count)) }
{
    for made in 0..count {
        world.step(side)?;
    }
    Ok(())
}

/// Makes one step for each of the first `most` letters of the script's schedule, or for each letter if there are fewer.
fn run_first<E: Store<Event>, T: Store<u64>>(
    world: &mut World<'_, E, T>,
    script: ScriptRef<'_>,
    letters: u64,
) -> Result<(), PlayFault>
    requires of_script { world.old.script ≡ content_of script }
    requires new { world.old.history ≡ [] }
    ensures script { world.new.script ≡ content_of script.entry }
    ensures plays { OnOk result (Plays (content_of script.entry) (take letters (content_of script.entry).letters)
        world.new.history) }
    ensures rooms { (world.new.event_room ≡ world.old.event_room) × (world.new.item_room ≡ world.old.item_room) }
    ensures few { OnOk result (length world.new.history ≤ min letters (length (content_of script.entry).letters)) }
    ensures full { OnErr result (((world.new.event_room ≤ length world.new.history) ⊎
        (world.new.item_room < world.new.taken + wanted_at world.new.script world.new.taken)) ×
        (length world.new.history < min letters (length (content_of script.entry).letters))) }
{
    world.history();
    let mut left = letters;
    for run in script.runs() {
        let count = run.count.min(left);
        repeat(world, run.side, count)?;
        left -= count;
    }
    world.history();
    Ok(())
}

/// What was played: the history; the items put, which are the script's; the items taken; whether a take returned
/// Closed; how many puts ended that found the ring full, and takes that found it empty; and how many overlapped reads
/// ended.
///
/// In use: `uses::plays::left_inside`.
#[derive(Debug, Drop)]
pub struct Report<'a, E: Store<Event>, T: Store<u64>> {
    pub history: E,
    pub put: &'a [u64],
    pub taken: T,
    pub told: bool,
    pub full: u64,
    pub empty: u64,
    pub flicker: u64,
}

/// Plays a script: a new world, one step for each letter of its schedule, and the report on it.
///
/// In use: `uses::plays::takes_of`.
pub fn play<'a, A: Allocator + Copy, B: Allocator>(
    alloc: A,
    script: &'a Script<B>,
) -> Result<Report<'a, Vec<Event, A>, Vec<u64, A>>, PlayFault>
    ensures plays { IfOk result (λ r. IsPlayOf script.now script.now.letters r.history.items) }
    ensures linearizable { IfOk result (λ r. EachReadingIsLinearizable script.now.shape r.history.items) }
    ensures put { IfOk result (λ r. (puts : Puts) → FollowsPuts script.now.shape r.history.items puts →
        r.put.now ≡ items_put_in script.now.shape r.history.items puts) }
    ensures taken { IfOk result (λ r. (takes : Takes) → FollowsTakes script.now.shape r.history.items takes →
        r.taken.items ≡ items_taken_in script.now.shape r.history.items takes) }
    ensures told { IfOk result (λ r. (takes : Takes) → FollowsTakes script.now.shape r.history.items takes →
        (r.told ≡ true) ↔ ToldIn script.now.shape r.history.items takes) }
    ensures full { IfOk result (λ r. (puts : Puts) → FollowsPuts script.now.shape r.history.items puts →
        r.full ≡ fulls (puts_over_in script.now.shape r.history.items puts)) }
    ensures empty { IfOk result (λ r. (takes : Takes) → FollowsTakes script.now.shape r.history.items takes →
        r.empty ≡ empties (takes_over_in script.now.shape r.history.items takes)) }
    ensures flicker { IfOk result (λ r. HasFlickers r.history.items r.flicker) }
{
    let letters = script.len();
    play_first(script.as_ref(), letters, Vec::new(alloc), Vec::new(alloc))
}

/// Plays the first `most` letters of a script, or all of them if there are fewer: a new world, one step for each of
/// these letters, and the report on it. The history and the items taken are added to these stores, which are empty.
///
/// `OutOfMemory`: one of the stores had no room, the history for an event, or the items taken for as many more as a take
/// asks for, which is requested whenever an access of the consumer ends.
///
/// In use: the page, which shows a play up to a letter.
pub fn play_first<'a, E: Store<Event>, T: Store<u64>>(
    script: ScriptRef<'a>,
    letters: u64,
    events: E,
    taken: T,
) -> Result<Report<'a, E, T>, PlayFault>
    requires no_events { E.items events ≡ [] }
    requires none_taken { T.items taken ≡ [] }
    ensures plays { IfOk result (λ r. IsPlayOf (content_of script.entry)
        (take letters (content_of script.entry).letters) (E.items r.history)) }
    ensures linearizable { IfOk result (λ r. EachReadingIsLinearizable (content_of script.entry).shape
        (E.items r.history)) }
    ensures put { IfOk result (λ r. (puts : Puts) →
        FollowsPuts (content_of script.entry).shape (E.items r.history) puts →
        r.put.now ≡ items_put_in (content_of script.entry).shape (E.items r.history) puts) }
    ensures taken { IfOk result (λ r. (takes : Takes) →
        FollowsTakes (content_of script.entry).shape (E.items r.history) takes →
        T.items r.taken ≡ items_taken_in (content_of script.entry).shape (E.items r.history) takes) }
    ensures told { IfOk result (λ r. (takes : Takes) →
        FollowsTakes (content_of script.entry).shape (E.items r.history) takes → (r.told ≡ true) ↔
        ToldIn (content_of script.entry).shape (E.items r.history) takes) }
    ensures full { IfOk result (λ r. (puts : Puts) →
        FollowsPuts (content_of script.entry).shape (E.items r.history) puts →
        r.full ≡ fulls (puts_over_in (content_of script.entry).shape (E.items r.history) puts)) }
    ensures empty { IfOk result (λ r. (takes : Takes) →
        FollowsTakes (content_of script.entry).shape (E.items r.history) takes →
        r.empty ≡ empties (takes_over_in (content_of script.entry).shape (E.items r.history) takes)) }
    ensures flicker { IfOk result (λ r. HasFlickers (E.items r.history) r.flicker) }
    // A letter makes at most one event.
    ensures few { IfOk result (λ r. length (E.items r.history) ≤ min letters
        (length (content_of script.entry).letters)) }
    // It is refused only if the history has no room for as many events as letters are played, or the items taken have none for as many
    // as the script takes, nor for as many more than it has, less one, as a take may take.
    ensures refused { OnErr result ((E.room events < min letters (length (content_of script.entry).letters)) ⊎
        ((T.room taken < (content_of script.entry).takes) ×
        (T.room taken < length (content_of script.entry).items + take_batch_of (content_of script.entry).shape))) }
{
    let mut world = World::over(script, events, taken);
    let played = run_first(&mut world, script, letters);
    world.few_taken();
    played?;
    Ok(world.report())
}
