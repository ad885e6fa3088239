//! The four steps of an end, for either side.
ghost use Rattle.std.specs.Prelude.{◌≡◌, ℕ, ◌+◌, ◌⊎◌, Bool, true, false, [], ◌∷◌, ◌++◌, Some, IfSome, IfNone};
ghost use Rattle.bits_core.specs.declared.events.Access.TheVariants.{Read, Write};
ghost use Rattle.bits_core.specs.Shape.{belongs};
ghost use Rattle.bits_core.specs.Bits.{reader, writer};
ghost use Rattle.bits_core.specs.Open.{IsOpenRight};
ghost use Rattle.bits_core.specs.History.{open_access};
ghost use Rattle.ring_seats.specs.Words.{value_word, agrees, answer_of};
ghost use Rattle.ring_seats.specs.Programs.{Follows, GoesOn, begin_of, ending_event};
ghost use Rattle.ring_seats.specs.Rule.{IsIdle};
ghost use Rattle.ring_seats.specs.Steppers.{AreAnswered, Grows, CanMake, CanStep, HasMade, HasStepped, IsAskedOnce};

use crate::views::{Flickering, Keeping, View};
use crate::words::Words;
use atomic_table::Seat;
use bits_core::{Access, Bit, Oracle, Shape, Side};
use std::marker::{Brand, Model};

/// A seat of one side, with what the kind of ring keeps of the open access. To a contract it is an end: its ring, its side,
/// its list of events, what it knows, and what the loads of its reads found. For example, each end of a ring has one, with
/// which it makes its steps.
#[derive(Drop)]
pub struct Stepper<'a, K: Keeping> {
    pub(crate) ring: Words<'a, K>,
    pub(crate) seat: Seat<(), View>,
    pub(crate) side: Side,
    pub(crate) kept: K::Kept,
}

impl<'a, K: Keeping> Model for Stepper<'a, K> {
    ghost use Rattle.std.specs.Prelude.{◌≡◌, true, false, []};
    ghost use Rattle.bits_core.specs.Bits.{other};
    ghost use Rattle.ring_seats.specs.Ring.{RingEnd};
    ghost use Rattle.ring_seats.specs.Rule.{list_of, may_step};

    ghost Value = { RingEnd };

    ghost view = { λ h. record {
      ring = h.ring;
      side = h.side;
      list = list_of h.side h.seat.me.0;
      known = h.seat.me.0.known;
      loads = h.seat.me.0.loads;
    } };

    ghost invariant = { λ h. (h.seat.table_id ≡ h.ring.id) × (h.seat.me.1 ≡ []) × (may_step h.side h.seat.me.0 ≡ true) ×
        (may_step (other h.side) h.seat.me.0 ≡ false) × K.keeps h.kept h.side h.seat.me.0 };
}

impl<'a, K: Keeping> Stepper<'a, K> {
    /// The shape of the ring.
    pub fn shape(&self) -> Shape
        ensures { result ≡ self.now.ring.shape }
    {
        self.ring.shape()
    }

    /// Its words, for a caller that keeps them between accesses.
    #[inline(always)]
    pub fn words(&self) -> Words<'a, K>
        ensures { result ≡ self.now.ring }
    {
        self.ring.again()
    }
}

impl<'a> Stepper<'a, Flickering> {
    // The first load of a read, or the store of a 2.
    fn begin(&mut self, access: Access)
        requires right { IsOpenRight self.old.ring.shape self.old.side access }
        requires idle { IsIdle self.old.side self.old.list }
        requires program { Follows self.old.ring.shape self.old.side
            (self.old.list ++ begin_of self.old.side access ∷ []) }
        ensures grows { Grows self.old self.new (begin_of self.old.side access) }
        ensures quiet { (said : ℕ → Bool) → AreAnswered self.old self.new said said }
    {
        let side = self.side;
        self.kept.access = Some(access);
        match access {
            Access::Read(bit) => {
                let word = self.ring.word_of(bit);
                self.kept.first = self
                    .ring
                    .load::<Brand, _>(&mut self.seat, word, &(side, bit));
            }
            Access::Write(bit, value) => {
                let word = self.ring.word_of(bit);
                self.ring
                    .store::<Brand, _>(&mut self.seat, word, &(side, bit, value), 2);
            }
        }
    }

    // The second load of a read, and the answer from both, or the store of the value. The oracle is asked at most once.
    fn end<O: Oracle>(&mut self, access: Access, oracle: &mut O) -> bool
        requires right { IsOpenRight self.old.ring.shape self.old.side access }
        requires at { open_access self.old.side self.old.list ≡ Some access }
        requires program { GoesOn self.old.ring.shape self.old.side access self.old.list }
        ensures grows { Grows self.old self.new (ending_event self.old.side access result) }
        ensures oracle { IsAskedOnce O.answers oracle.old oracle.new }
        ensures answered { AreAnswered self.old self.new (O.answers oracle.old) (O.answers oracle.new) }
    {
        let side = self.side;
        self.kept.access = None;
        match access {
            Access::Read(bit) => {
                let word = self.ring.word_of(bit);
                let found = self
                    .ring
                    .load::<Brand, _>(&mut self.seat, word, &(side, bit, &*oracle));
                answer(self.kept.first, found, oracle)
            }
            Access::Write(bit, value) => {
                let word = self.ring.word_of(bit);
                let new = word_of(value);
                self.ring
                    .store::<Brand, _>(&mut self.seat, word, &(side, bit), new);
                value
            }
        }
    }

    // The two loads of a read, and the answer from both. The oracle is asked at most once. The words are the stepper's
    // own, held by the caller, so that they are at hand between accesses.
    #[inline(always)]
    fn read<O: Oracle>(&mut self, ring: &Words<'a, Flickering>, bit: Bit, oracle: &mut O) -> bool
        requires ring { ring.now ≡ self.old.ring }
        requires bit { (belongs self.old.ring.shape bit ≡ true) × (self.old.side ≡ reader bit) }
        requires can { CanMake self.old (Read bit) }
        ensures made { HasMade self.old self.new (Read bit) result }
        ensures oracle { IsAskedOnce O.answers oracle.old oracle.new }
        ensures answered { AreAnswered self.old self.new (O.answers oracle.old) (O.answers oracle.new) }
    {
        let side = self.side;
        let word = ring.word_of(bit);
        let first = ring.load::<Brand, _>(&mut self.seat, word, &(side, bit));
        let again = ring.load::<Brand, _>(&mut self.seat, word, &(side, bit, &*oracle));
        self.kept.first = first;
        answer(first, again, oracle)
    }

    // The two stores of a write.
    #[inline(always)]
    fn write(&mut self, ring: &Words<'a, Flickering>, bit: Bit, value: bool)
        requires ring { ring.now ≡ self.old.ring }
        requires bit { (belongs self.old.ring.shape bit ≡ true) × (self.old.side ≡ writer bit) }
        requires can { CanMake self.old (Write bit value) }
        ensures made { HasMade self.old self.new (Write bit value) value }
        ensures quiet { (said : ℕ → Bool) → AreAnswered self.old self.new said said }
    {
        let side = self.side;
        let word = ring.word_of(bit);
        let new = word_of(value);
        ring.store::<Brand, _>(&mut self.seat, word, &(side, bit, value), 2);
        ring.store::<Brand, _>(&mut self.seat, word, &(side, bit), new);
    }

    /// The complete access, which can be made now, and its answer: for a read that of its two loads, or of the oracle, which is
    /// asked at most once; for a write the value written. The words are the seat's own, from [`words`](Stepper::words).
    #[inline(always)]
    pub fn make<O: Oracle>(
        &mut self,
        ring: &Words<'a, Flickering>,
        access: Access,
        oracle: &mut O,
    ) -> bool
        requires ring { ring.now ≡ self.old.ring }
        requires right { IsOpenRight self.old.ring.shape self.old.side access }
        requires can { CanMake self.old access }
        ensures made { HasMade self.old self.new access result }
        ensures oracle { IsAskedOnce O.answers oracle.old oracle.new }
        ensures answered { AreAnswered self.old self.new (O.answers oracle.old) (O.answers oracle.new) }
    {
        match access {
            Access::Read(bit) => self.read(ring, bit, oracle),
            Access::Write(bit, value) => {
                self.write(ring, bit, value);
                value
            }
        }
    }

    /// One step: the access begins, or, if it is open, it ends with the answer. The oracle is asked at most once.
    pub fn step<O: Oracle>(&mut self, access: Access, oracle: &mut O) -> Option<bool>
        requires right { IsOpenRight self.old.ring.shape self.old.side access }
        requires can { CanStep self.old access }
        ensures stepped { HasStepped self.old self.new access result }
        ensures oracle { IsAskedOnce O.answers oracle.old oracle.new }
        ensures answered { AreAnswered self.old self.new (O.answers oracle.old) (O.answers oracle.new) }
    {
        match self.kept.access {
            None => {
                self.begin(access);
                None
            }
            Some(_) => Some(self.end(access, oracle)),
        }
    }
}

// The answer of a read from the words that its two loads found: if both are 0, or both 1, it is that, and the oracle is
// not asked; otherwise the oracle is asked once.
#[inline(always)]
fn answer<O: Oracle>(first: u64, found: u64, oracle: &mut O) -> bool
    ensures answer { result ≡ answer_of first found (O.answers oracle.old 0) }
    ensures agree { agrees first found ≡ true → oracle.new ≡ oracle.old }
    ensures asks { agrees first found ≡ false → (i : ℕ) → O.answers oracle.new i ≡ O.answers oracle.old (i + 1) }
{
    if first == found && found < 2 {
        found == 1
    } else {
        oracle.answer()
    }
}

#[inline(always)]
fn word_of(value: bool) -> u64
    ensures { result ≡ value_word value }
{
    if value { 1 } else { 0 }
}
