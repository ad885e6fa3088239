//! The consumer's side of a script.
ghost use Rattle.std.specs.Prelude.{◌≡◌, ◌<◌, ◌≤◌, Bool, false, Option, None, Some, List, [], ◌++◌, length};
ghost use Rattle.bits_core.specs.declared.events.Access.{Access};
ghost use Rattle.bits_core.specs.declared.events.Side.TheVariants as side_is;
ghost use Rattle.bits_core.specs.Made.{Made, events_of};
ghost use Rattle.bits_core.specs.Shape.{take_batch_of};
ghost use Rattle.ring_core.specs.ConsumerState.{due_take, is_taking};
ghost use Rattle.ring_player.specs.Actors.{TakeActorStands, so_far};
ghost use Rattle.ring_player.specs.SoFar.{TakenSoFar};
ghost use Rattle.ring_player.specs.Plays.{IsDoneAfter};
ghost use Rattle.ring_player.specs.Wants.{wanted_at};
ghost use Rattle.ring_script.specs.Borrowed.{content_of};

use crate::actors::Actor;
use crate::faults::PlayFault;
use bits_core::{Access, Store};
use ring_core::{Consumer, TakeBatchReply};
use ring_script::ScriptRef;

/// Appends the items.
fn add_all<T: Store<u64>>(store: &mut T, items: &[u64])
    requires { length items.now ≤ T.spare store.old }
    ensures items { T.items store.new ≡ T.items store.old ++ items.now }
    ensures room { T.room store.new ≡ T.room store.old }
{
    for each in items {
        store.add(*each);
    }
}

/// Takes as many items as a script asks for, or until a take returns Closed.
#[derive(Drop)]
pub(crate) struct TakeActor<'a, T: Store<u64>> {
    script: ScriptRef<'a>,
    consumer: Consumer,
    taken: T,
    // whether a take has returned Closed, and how many takes found the ring empty
    pub(crate) told: bool,
    pub(crate) empty: u64,
    pub ghost same_shape: { consumer.shape ≡ (content_of script).shape },
}

impl<'a, T: Store<u64>> TakeActor<'a, T> {
    /// An actor that has made no access. What it takes is added to this store, which is empty.
    pub fn new(taken: T, script: ScriptRef<'a>) -> Self
        requires { T.items taken ≡ [] }
        ensures script { content_of result.script ≡ content_of script.entry }
        ensures room { T.room result.taken ≡ T.room taken }
        ensures stands { TakeActorStands (content_of script.entry) result.consumer (T.items result.taken) result.told
            result.empty [] None }
    {
        TakeActor {
            script,
            consumer: Consumer::new(script.shape()),
            taken,
            told: false,
            empty: 0,
        }
    }

    /// The items taken so far.
    pub fn taken(&self) -> &[u64]
        ensures { result.now ≡ T.items self.now.taken }
    {
        self.taken.as_slice()
    }

    /// The items taken. It takes no memory.
    pub fn into_taken(self) -> T
        ensures { T.items result ≡ T.items self.entry.taken }
    {
        let TakeActor {
            script: _,
            consumer: _,
            taken,
            told: _,
            empty: _,
        } = self;
        taken
    }

    /// What the accesses so far have taken, and whether a take has returned Closed.
    pub fn look(&self)
        ensures { (list : List Made) (opened : Option Access) →
            TakeActorStands (content_of self.now.script) self.now.consumer (T.items self.now.taken) self.now.told
            self.now.empty list opened → ((a : Access) → opened ≡ Some a → due_take self.now.consumer ≡ Some a) →
            TakenSoFar (content_of self.now.script).shape (so_far side_is.C list opened) (T.items self.now.taken)
            self.now.told self.now.empty }
    {
        self.consumer.next();
    }

    /// How many items the next take asks for: as many as one count write may count, or as many as are left to take.
    pub fn wanted(&self) -> u64
        ensures value { result ≡ wanted_at (content_of self.now.script) (length (T.items self.now.taken)) }
        ensures few { result ≤ take_batch_of (content_of self.now.script).shape }
        ensures small { result ≤ 64 }
    {
        let shape = self.script.shape();
        // only for the proof: gives the bounds of the capacity, which bound the take batch
        let _capacity = shape.capacity();
        let taken = self.taken().len() as u64;
        shape
            .take_batch()
            .min(self.script.takes().saturating_sub(taken))
    }

    /// Begins the next take, if none is under way and the script asks for one.
    fn begin_take(&mut self)
        ensures script { content_of self.new.script ≡ content_of self.old.script }
        ensures taken { (T.items self.new.taken ≡ T.items self.old.taken) ×
            (T.room self.new.taken ≡ T.room self.old.taken) }
        ensures stands { (list : List Made) →
            TakeActorStands (content_of self.old.script) self.old.consumer (T.items self.old.taken) self.old.told
            self.old.empty list None →
            TakeActorStands (content_of self.new.script) self.new.consumer (T.items self.new.taken) self.new.told
            self.new.empty list None }
        ensures done { is_taking self.new.consumer ≡ false → (list : List Made) →
            TakeActorStands (content_of self.old.script) self.old.consumer (T.items self.old.taken) self.old.told
            self.old.empty list None → IsDoneAfter (content_of self.old.script) side_is.C (events_of side_is.C list) }
    {
        if self.consumer.next().is_some() {
            return;
        }
        let wanted = self.wanted();
        if !self.told && wanted > 0 {
            self.consumer.take_all(wanted);
        }
    }
}

impl<'a, T: Store<u64>> Actor for TakeActor<'a, T> {
    ghost use Rattle.bits_core.specs.declared.events.Side.TheVariants as side_is;
    ghost use Rattle.ring_core.specs.ConsumerState.{due_take};
    ghost use Rattle.ring_player.specs.Actors.{TakeActorStands};
    ghost use Rattle.ring_player.specs.Wants.{wanted_at};
    ghost use Rattle.ring_script.specs.Borrowed.{content_of};
    ghost use Rattle.std.specs.Prelude.{◌≤◌, length};

    ghost script = { λ a. content_of a.script };

    ghost side = { λ a. side_is.C };

    ghost due = { λ a. due_take a.consumer };

    ghost stands = { λ a list opened. TakeActorStands (content_of a.script) a.consumer (T.items a.taken) a.told a.empty
        list opened };

    ghost ready = { λ a. wanted_at (content_of a.script) (length (T.items a.taken)) ≤ T.spare a.taken };

    ghost kept = { λ a. length (T.items a.taken) };

    ghost wants = { λ a. wanted_at (content_of a.script) (length (T.items a.taken)) };

    ghost room = { λ a. T.room a.taken };

    fn next(&mut self) -> Option<Access> {
        self.begin_take();
        self.consumer.next()
    }

    fn begin(&mut self) {
        self.consumer.next();
    }

    fn reserve(&mut self) -> Result<(), PlayFault> {
        let wanted = self.wanted();
        self.taken.reserve_many(wanted as usize)?;
        Ok(())
    }

    fn last_bit(&self) {
        self.consumer.expects_one();
    }

    fn end(&mut self, answer: bool) {
        self.consumer.next();
        self.consumer.feed(answer);
        self.consumer.next();
        match self.consumer.batch_reply() {
            Some(TakeBatchReply::Taken(_)) => add_all(&mut self.taken, self.consumer.items()),
            Some(TakeBatchReply::Closed) => self.told = true,
            Some(TakeBatchReply::Empty) => self.empty += 1,
            None => {}
        }
    }
}
