//! Two ends of a ring that are driven by single steps.
ghost use Rattle.std.specs.Prelude.{◌≡◌, ◌^◌, ◌<◌};
ghost use Rattle.bits_core.specs.Shape.{width_of};
ghost use Rattle.ring_core.specs.Puts.{IsBatch};
ghost use Rattle.test_run.specs.declared.tests.steps.Duty.TheVariants.{Put, PutAll};

use bits_core::{Shape, Tape};
use ring_core::{BatchReply, PutReply, TakeReply};
use ring_run::{FlickerRing, Putter, Start, Taker};
use std::alloc::Global;
use std::marker::Model;
use std::process::Abort;

// What a putter is doing.
#[derive(Clone, Copy, PartialEq, Eq)]
enum Duty {
    // a put of one item
    Put,
    // a put of items under one count write
    PutAll,
    Close,
    // all is done
    Rest,
}

/// Puts the items in order, each again while the ring is full, and closes after the last if requested.
#[derive(Drop)]
pub(crate) struct Producing<'a> {
    putter: Putter<'a, Tape<'a>>,
    shape: Shape,
    // not stored yet
    items: &'a [u64],
    closes: bool,
    duty: Duty,
    item: u64,
    batch: &'a [u64],
    /// The items that puts stored.
    pub stored: u64,
    /// The puts that found the ring full.
    pub full: u64,
}

impl<'a> Model for Producing<'a> {
    ghost use Rattle.std.specs.Prelude.{◌≡◌, ◌⊎◌, ◌^◌, ◌<◌, None, Some, [], ◌∷◌, true, false};
    ghost use Rattle.bits_core.specs.Shape.{width_of};
    ghost use Rattle.ring_core.specs.Puts.{IsBatch};
    ghost use Rattle.ring_core.specs.ProducerState as producer;
    ghost use Rattle.test_run.specs.declared.tests.steps.Duty.TheVariants.{Put, PutAll, Close, Rest};

    ghost Value = { Unit {0} };

    ghost view = { λ _. tt };

    ghost invariant = { λ p. (p.putter.end.ring.shape ≡ p.shape) ×
        (p.duty ≡ Put → (p.item < 2 ^ width_of p.shape) ×
        ((p.putter.call ≡ None) ⊎ (p.putter.call ≡ Some (producer.Put (p.item ∷ []))) × (p.putter.batched ≡ false))) ×
        (p.duty ≡ PutAll → IsBatch p.shape p.batch.now ×
        ((p.putter.call ≡ None) ⊎ (p.putter.call ≡ Some (producer.Put p.batch.now)) × (p.putter.batched ≡ true))) ×
        (p.duty ≡ Close → (p.putter.call ≡ None) ⊎ (p.putter.call ≡ Some producer.Close)) ×
        (p.duty ≡ Rest → p.putter.call ≡ None) };
}

// What comes next, with its item or its items: a put, or after the last item the close.
fn next_duty<'a>(shape: &Shape, items: &'a [u64], closes: bool) -> (Duty, u64, &'a [u64])
    ensures item { result.0 ≡ Put → result.1 < 2 ^ width_of shape.now }
    ensures batch { result.0 ≡ PutAll → IsBatch shape.now result.2.now }
{
    let batch = items.get(..shape.batch() as usize).unwrap_or(items);
    if batch.is_empty() {
        (if closes { Duty::Close } else { Duty::Rest }, 0, batch)
    } else if shape.batch() == 1 && shape.fits(batch[0]) {
        (Duty::Put, batch[0], batch)
    } else if batch.len() as u64 <= shape.batch() && shape.fits_all(batch) {
        (Duty::PutAll, 0, batch)
    } else {
        (Duty::Rest, 0, batch)
    }
}

impl<'a> Producing<'a> {
    // If it rests, continues with what comes next.
    fn go_on(&mut self) {
        if let Duty::Rest = self.duty {
            let (duty, item, batch) = next_duty(&self.shape, self.items, self.closes);
            self.duty = duty;
            self.item = item;
            self.batch = batch;
        }
    }

    fn has_stored(&mut self, stored: u64) {
        self.stored = self.stored.saturating_add(stored);
        self.items = self.items.get(stored as usize..).unwrap_or(&[]);
        self.go_on();
    }

    /// One step, if not all is done. Returns whether one was made.
    pub fn step(&mut self) -> bool {
        match self.duty {
            Duty::Put => match self.putter.step_put(self.item) {
                Some(PutReply::Stored) => {
                    self.duty = Duty::Rest;
                    self.has_stored(1);
                }
                Some(PutReply::Full) => self.full = self.full.saturating_add(1),
                Some(PutReply::Closed) => self.duty = Duty::Rest,
                None => {}
            },
            Duty::PutAll => match self.putter.step_put_all(self.batch) {
                Some(BatchReply::Stored(stored)) => {
                    self.duty = Duty::Rest;
                    self.has_stored(stored);
                }
                Some(BatchReply::Full) => self.full = self.full.saturating_add(1),
                Some(BatchReply::Closed) => self.duty = Duty::Rest,
                None => {}
            },
            Duty::Close => {
                if self.putter.step_close() {
                    self.duty = Duty::Rest;
                }
            }
            Duty::Rest => return false,
        }
        true
    }
}

/// Takes until it has this many items, or until a take returns Closed.
#[derive(Drop)]
pub(crate) struct Consuming<'a> {
    taker: Taker<'a, Tape<'a>>,
    // the items that are expected
    wanted: &'a [u64],
    takes: usize,
    /// How many items were taken.
    pub taken: usize,
    /// The takes that found the ring empty.
    pub empty: u64,
    /// Whether a take returned Closed.
    pub told: bool,
}

impl<'a> Consuming<'a> {
    /// One step, if not all is done. Returns whether one was made.
    pub fn step(&mut self, rt: &impl Abort) -> bool {
        if self.taken >= self.takes || self.told {
            return false;
        }
        match self.taker.step_take() {
            Some(TakeReply::Item(item)) => {
                assert_eq!(rt; Some(item), self.wanted.get(self.taken).copied());
                self.taken = self.taken.saturating_add(1);
            }
            Some(TakeReply::Empty) => self.empty = self.empty.saturating_add(1),
            Some(TakeReply::Closed) => self.told = true,
            None => {}
        }
        true
    }
}

/// What two ends should do: the items to put, whether to close after them, how many items to take, and the oracle of each.
pub(crate) type Script<'a> = (&'a [u64], bool, usize, &'a [bool]);

/// The two ends of the ring, at the start of the script. These items are expected to be taken.
pub fn begin<'a>(
    ring: &'a FlickerRing<Global>,
    start: Start,
    script: Script<'a>,
    wanted: &'a [u64],
) -> (Producing<'a>, Consuming<'a>)
    requires { start ≡ ring.now.id }
{
    let (items, closes, takes, oracle) = script;
    let shape = ring.shape();
    let (putter, taker) = ring.ends(start, Tape::new(oracle), Tape::new(oracle));
    let mut producing = Producing {
        putter,
        shape,
        items,
        closes,
        duty: Duty::Rest,
        item: 0,
        batch: &[],
        stored: 0,
        full: 0,
    };
    producing.go_on();
    let consuming = Consuming {
        taker,
        wanted,
        takes,
        taken: 0,
        empty: 0,
        told: false,
    };
    (producing, consuming)
}
