//! The words of a ring as its ends access them.
ghost use Rattle.std.specs.Prelude.{◌≡◌, ◌<◌, true, []};
ghost use mathlib.Core.Option.{none};
ghost use Rattle.atomic_table.specs.Table.{Allows, step};
ghost use Rattle.bits_core.specs.declared.events.Side.TheVariants.{P, C};
ghost use Rattle.bits_core.specs.Shape.{belongs};
ghost use Rattle.ring_seats.specs.Rule.{KeepsFlickerRule, KeptBy, Learned, Holds, IsWordFound, IsIdle, joint, joined, putter_of, taker_of};
ghost use Rattle.ring_seats.specs.Words.{word_place};

use crate::layout::place_of;
use crate::views::{Both, Flickering, Halves, RuleOf, View, WordKind};
use atomic_table::{Play, Seat, Shared};
use bits_core::{Bit, Shape};
use std::marker::{Brand, Model};

/// The words of a ring, with which a seat steps. To a contract they are that ring. For example,
/// each end of a ring has them in its [`Stepper`](crate::Stepper).
#[derive(Drop)]
pub struct Words<'a, K: WordKind> {
    pub(crate) shared: &'a Shared<(), View, Shape, RuleOf<K>>,
    shape: Shape,
}

impl<'a, K: WordKind> Model for Words<'a, K> {
    ghost use Rattle.std.specs.Prelude.{◌≡◌, ◌<◌};
    ghost use Rattle.ring_seats.specs.Ring.{Ring};

    ghost Value = { Ring };

    ghost view = { λ w. record { shape = w.shape; id = w.shared.now.table_id } };

    ghost invariant = { λ w. (w.shared.now.key ≡ w.shape) × (w.shared.now.table_id.words ≡ K.count w.shape) ×
        (0 < K.count w.shape) };
}

impl<'a, K: WordKind> Words<'a, K> {
    /// The words of a table whose key is the shape, which has as many words as a ring of this kind and shape.
    pub fn of(shared: &'a Shared<(), View, Shape, RuleOf<K>>, shape: Shape) -> Words<'a, K>
        requires { (shared.now.key ≡ shape) × (shared.now.table_id.words ≡ K.count shape) × (0 < K.count shape) }
        ensures { result ≡ record { shape = shape; id = shared.now.table_id } }
    {
        Words { shared, shape }
    }

    // A copy of these words, for an access that keeps them at hand.
    #[inline(always)]
    pub(crate) fn again(&self) -> Words<'a, K>
        ensures { result ≡ self.now }
    {
        Words {
            shared: self.shared,
            shape: self.shape,
        }
    }

    // The shape of the ring.
    pub(crate) fn shape(&self) -> Shape
        ensures { result ≡ self.now.shape }
    {
        self.shape
    }

    // A load by no end.
    pub(crate) fn find(&self, word: usize) -> u64
        requires { word < K.count self.now.shape }
        ensures { IsWordFound (KeptBy K.count K.shows self.now.shape) word result }
    {
        let (found, _seat) = self.shared.load_new_seat::<Brand>(word);
        found
    }

    // A load by a seat, and what the proof of its call chooses for it to report. That may mention `about`.
    #[inline(always)]
    pub(crate) fn load<N: Play<(), View>, T>(
        &self,
        seat: &mut Seat<(), View>,
        word: usize,
        about: &T,
    ) -> u64
        requires own { (seat.old.table_id ≡ self.now.id) × (word < K.count self.now.shape) }
        requires rule { Allows (KeptBy K.count K.shows self.now.shape) self.now.id.slots seat.old.id seat.old.me word
            (λ n. n) (N.then (step self.now.id.slots word 0 0 none) seat.old.me) }
        ensures same { (seat.new.table_id ≡ seat.old.table_id) × (seat.new.id ≡ seat.old.id) }
        ensures told { N.then (step self.now.id.slots word 0 0 none) seat.old.me result seat.new.me }
    {
        self.shared.load::<N>(seat, word)
    }

    // A store by a seat, in the same way.
    #[inline(always)]
    pub(crate) fn store<N: Play<(), View>, T>(
        &self,
        seat: &mut Seat<(), View>,
        word: usize,
        about: &T,
        new: u64,
    )
        requires own { (seat.old.table_id ≡ self.now.id) × (word < K.count self.now.shape) }
        requires rule { Allows (KeptBy K.count K.shows self.now.shape) self.now.id.slots seat.old.id seat.old.me word
            (λ _. new) (λ _. N.then (step self.now.id.slots word new 0 none) seat.old.me new) }
        ensures same { (seat.new.table_id ≡ seat.old.table_id) × (seat.new.id ≡ seat.old.id) }
        ensures told { N.then (step self.now.id.slots word new 0 none) seat.old.me new seat.new.me }
    {
        self.shared.store::<N>(seat, word, new);
    }

    // Splits the joint seat in two.
    pub(crate) fn part(&self, seat: &mut Seat<(), View>) -> Seat<(), View>
        requires own { (seat.old.table_id ≡ self.now.id) × (seat.old.me.0.puts ≡ true) × (seat.old.me.0.takes ≡ true) }
        ensures putter { (seat.new.table_id ≡ seat.old.table_id) ×
            (seat.new.me ≡ (putter_of seat.old.me.0, seat.old.me.1)) }
        ensures taker { (result.table_id ≡ seat.old.table_id) × (result.me ≡ (taker_of seat.old.me.0, [])) }
    {
        self.shared.split_seat::<Halves>(seat)
    }

    // The joint seat learns the history.
    pub(crate) fn learn(&self, seat: &mut Seat<(), View>)
        requires own { (seat.old.table_id ≡ self.now.id) × (seat.old.me.0.puts ≡ true) × (seat.old.me.0.takes ≡ true) }
        requires idle { IsIdle P seat.old.me.0.put × IsIdle C seat.old.me.0.taken }
        ensures { (seat.new.table_id ≡ seat.old.table_id) × Learned self.now.shape seat.old.me seat.new.me }
    {
        // the load is made for its step alone: with it the seat learns the history
        let _ = self.shared.load::<Brand>(seat, 0);
    }

    // Joins the two seats, and the joint seat learns the history.
    pub(crate) fn rejoin(&self, seat: &mut Seat<(), View>, other: Seat<(), View>)
        requires own { (seat.old.table_id ≡ self.now.id) × (other.table_id ≡ self.now.id) × (other.me.1 ≡ []) }
        requires sides { (seat.old.me.0.puts ≡ true) × (other.me.0.takes ≡ true) }
        requires idle { IsIdle P seat.old.me.0.put × IsIdle C other.me.0.taken }
        ensures same { (seat.new.table_id ≡ seat.old.table_id) × (seat.new.me.1 ≡ seat.old.me.1) }
        ensures view { seat.new.me.0 ≡ joint seat.old.me.0.put other.me.0.taken seat.new.me.0.known
            seat.new.me.0.known }
        ensures holds { Holds self.now.shape seat.new.me.0.known (joined seat.old.me.0 other.me.0) }
    {
        self.shared.join_seat::<Both>(seat, other);
        self.learn(seat);
    }
}

impl<'a> Words<'a, Flickering> {
    ghost use Rattle.ring_seats.specs.Words.{word_count};

    // The place of the bit's word.
    #[inline(always)]
    pub(crate) fn word_of(&self, bit: Bit) -> usize
        requires { belongs self.now.shape bit ≡ true }
        ensures place { result ≡ word_place self.now.shape bit }
        ensures below { result < word_count self.now.shape }
    {
        place_of(&self.shape, bit)
    }

    /// Loads the word of a bit of the ring's shape, for neither end. It is that of a state that satisfies the ring's rule.
    pub fn find_bit(&self, bit: Bit) -> u64
        requires { belongs self.now.shape bit ≡ true }
        ensures { IsWordFound (KeepsFlickerRule self.now.shape) (word_place self.now.shape bit) result }
    {
        let place = self.word_of(bit);
        self.find(place)
    }
}
