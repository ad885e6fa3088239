//! The steps of an end of a counter ring.
ghost use Rattle.std.specs.Prelude.{◌≡◌, ℕ, ◌+◌, ◌%◌, ◌^◌, ◌<◌, ◌≤◌, Bool, true, false, List, [], ◌∷◌, ◌++◌, length};
ghost use Rattle.bits_core.specs.declared.events.Side.TheVariants.{P, C};
ghost use Rattle.bits_core.specs.declared.events.Bit.TheVariants.{X};
ghost use Rattle.bits_core.specs.Shape.{AllFit, capacity_of, modulus_of, width_of};
ghost use Rattle.bits_core.specs.Made.{events_of, Read, Write};
ghost use Rattle.register_core.specs.Phrases.{word_write, word_read, scan_phrase, row_read_by};
ghost use Rattle.ring_core.specs.Puts.{words_phrase};
ghost use Rattle.ring_core.specs.Takes.{words_read};
ghost use Rattle.ring_seats.specs.Steppers.{StandsAs};
ghost use Rattle.ring_seats.specs.Programs.{Follows};
ghost use Rattle.ring_seats.specs.Counters.{GrowsBy, unary_over, count_place, their_place};

use crate::counter_words::Counting;
use crate::steppers::Stepper;
use bits_core::Side;
use ring_core::past_in;
use std::marker::Brand;

impl<'a> Stepper<'a, Counting> {
    /// One load: a complete scan of the other side's count.
    pub fn scan(&mut self) -> u64
        requires program { (c : ℕ) → c < modulus_of self.old.ring.shape →
            Follows self.old.ring.shape self.old.side (self.old.list ++ events_of self.old.side
            (scan_phrase (row_read_by self.old.side) c)) }
        ensures grows { GrowsBy self.old self.new (scan_phrase (row_read_by self.old.side) result) }
        ensures below { result < modulus_of self.old.ring.shape }
    {
        let side = self.side;
        self.ring
            .load::<Brand, _>(&mut self.seat, theirs(side), &side)
    }

    /// One store: a complete unary write of the side's own count.
    pub fn write_count(&mut self, new: u64)
        requires below { new < modulus_of self.old.ring.shape }
        requires program { Follows self.old.ring.shape self.old.side
            (self.old.list ++ events_of self.old.side (unary_over self.old.side self.old.list new)) }
        ensures { GrowsBy self.old self.new (unary_over self.old.side self.old.list new) }
    {
        let side = self.side;
        self.ring
            .store::<Brand, _>(&mut self.seat, ours(side), &side, new);
    }

    /// One store: a complete word write.
    pub fn write_cell(&mut self, cell: u64, item: u64)
        requires side { self.old.side ≡ P }
        requires below { (cell < capacity_of self.old.ring.shape) × (item < 2 ^ width_of self.old.ring.shape) }
        requires program { Follows self.old.ring.shape P (self.old.list ++ events_of P
            (word_write (width_of self.old.ring.shape) cell item)) }
        ensures { GrowsBy self.old self.new (word_write (width_of self.old.ring.shape) cell item) }
    {
        let word = 3 + cell as usize;
        self.ring
            .store::<Brand, _>(&mut self.seat, word, &cell, item);
    }

    /// A store for each item, to consecutive cells from this one on: their word writes.
    pub fn write_items(&mut self, cell: u64, items: &[u64])
        requires stands { StandsAs P self.old × (self.old.side ≡ P) }
        requires below { cell < capacity_of self.old.ring.shape }
        requires fit { AllFit self.old.ring.shape items.now }
        requires program { Follows self.old.ring.shape P (self.old.list ++ events_of P
            (words_phrase self.old.ring.shape cell items.now)) }
        ensures { GrowsBy self.old self.new (words_phrase self.old.ring.shape cell items.now) }
    {
        let capacity = self.ring.shape().capacity();
        let mut index = 0;
        let mut place = cell;
        'stores: while index < items.len() {
            self.write_cell(place, items[index]);
            place = past_in(place, 1, capacity);
            index += 1;
        }
    }

    /// One store: the close.
    pub fn write_close(&mut self)
        requires side { self.old.side ≡ P }
        requires program { Follows self.old.ring.shape P (self.old.list ++ events_of P (Write X true ∷ [])) }
        ensures { GrowsBy self.old self.new (Write X true ∷ []) }
    {
        self.ring.store::<Brand, _>(&mut self.seat, 0, &(), 1);
    }

    /// One load: a complete word read.
    pub fn read_cell(&mut self, cell: u64) -> u64
        requires side { self.old.side ≡ C }
        requires below { cell < capacity_of self.old.ring.shape }
        requires program { (item : ℕ) → item < 2 ^ width_of self.old.ring.shape →
            Follows self.old.ring.shape C (self.old.list ++ events_of C
            (word_read (width_of self.old.ring.shape) cell item)) }
        ensures grows { GrowsBy self.old self.new (word_read (width_of self.old.ring.shape) cell result) }
        ensures fits { result < 2 ^ width_of self.old.ring.shape }
    {
        let word = 3 + cell as usize;
        self.ring.load::<Brand, _>(&mut self.seat, word, &cell)
    }

    /// A load for each place, of consecutive cells from this one on: their word reads.
    pub fn read_items(&mut self, cell: u64, into: &mut [u64])
        requires stands { StandsAs C self.old × (self.old.side ≡ C) }
        requires below { cell < capacity_of self.old.ring.shape }
        requires program { (items : List ℕ) → length items ≡ length into.old → AllFit self.old.ring.shape items →
            Follows self.old.ring.shape C (self.old.list ++ events_of C (words_read self.old.ring.shape cell items)) }
        ensures long { length into.new ≡ length into.old }
        ensures fit { AllFit self.old.ring.shape into.new }
        ensures grows { GrowsBy self.old self.new (words_read self.old.ring.shape cell into.new) }
    {
        let capacity = self.ring.shape().capacity();
        let mut index = 0;
        let mut place = cell;
        'loads: while index < into.len() {
            into[index] = self.read_cell(place);
            place = past_in(place, 1, capacity);
            index += 1;
        }
    }

    /// One load: a read of the close bit.
    pub fn read_close(&mut self) -> bool
        requires side { self.old.side ≡ C }
        requires program { (v : Bool) → Follows self.old.ring.shape C (self.old.list ++ events_of C (Read X v ∷ [])) }
        ensures { GrowsBy self.old self.new (Read X result ∷ []) }
    {
        let found = self.ring.load::<Brand, _>(&mut self.seat, 0, &());
        found == 1
    }
}

// The word of the side's own count, and of the other's.
fn ours(side: Side) -> usize
    ensures { result ≡ count_place side }
{
    match side {
        Side::P => 1,
        Side::C => 2,
    }
}

fn theirs(side: Side) -> usize
    ensures { result ≡ their_place side }
{
    match side {
        Side::P => 2,
        Side::C => 1,
    }
}
