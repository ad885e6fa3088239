//! Unary writes to a count.
ghost use Rattle.std.specs.Prelude.{◌≡◌, ◌≢◌, ℕ, suc, ◌<◌, ◌≤◌, true, false, Some, None, List, [], ◌∷◌, ◌++◌, slice_index_or, ⊤};
ghost use Rattle.bits_core.specs.Shape.{modulus_of};
ghost use Rattle.bits_core.specs.Made.{Made, answered};
ghost use Rattle.register_core.specs.Machine.{IsNext};
ghost use Rattle.register_core.specs.Row.{RowWrite, row_bit};
ghost use Rattle.register_core.specs.Unary.{count_writes};

use bits_core::{Access, Bit, Shape, Side};
use std::alloc::AllocError;
use std::marker::Model;

/// Writes values to a side's own count: it sets the value's bit if that is clear, and then clears
/// the set bits below it, from the highest down. It remembers the bits.
///
/// For example, from 1 to 2 it sets s2 and clears s1. In use: the count that a `ring_core::Producer` writes.
#[derive(Debug, Drop)]
pub struct UnaryWriter {
    side: Side,
    modulus: u64,
    bits: [bool; 256],
    value: usize,
    place: usize,
}

impl Model for UnaryWriter {
    ghost use Rattle.register_core.specs.UnaryState.{UnaryState, IsClearDownTo};

    ghost Value = { UnaryState };

    ghost view = { λ w. record { side = w.side; modulus = w.modulus; bits = w.bits; value = w.value } };

    // The bits from the place up to the value are clear, and the one below the place is set.
    ghost invariant = { λ w. IsClearDownTo w.modulus w.bits w.value w.place };
}

// Written by hand: a derived one clones each field, which makes the proof ten times as expensive.
impl Clone for UnaryWriter {
    ghost is_clone = { λ x y. y ≡ x };

    ghost is_infallible = { λ _. ⊤ };

    fn clone(&self) -> Result<Self, AllocError> {
        Ok(UnaryWriter { ..*self })
    }
}

/// The place down to which the bits below `from` are clear.
#[inline(always)]
fn clear_down(bits: &[bool; 256], from: usize) -> usize
    requires { from ≤ 256 }
    ensures within { result ≤ from }
    ensures clear { (k : ℕ) → result ≤ k → k < from → slice_index_or bits.now k false ≡ false }
    ensures set { (k : ℕ) → result ≡ suc k → slice_index_or bits.now k false ≡ true }
{
    for j in (0..from).rev() {
        if bits[j] {
            return j + 1;
        }
    }
    0
}

impl UnaryWriter {
    ghost use Rattle.register_core.specs.UnaryState.{new_row, due_writes, due_unary, row_fed, UnaryStands, IsSameRow};

    /// The writer of a side's count, of value 0: side P writes the bits `S`, and side C the bits `R`.
    /// No access is due.
    pub fn new(shape: &Shape, side: Side) -> Self
        ensures state { result ≡ new_row side (modulus_of shape.now) }
        ensures stands { UnaryStands result [] [] }
    {
        let mut bits = [false; 256];
        bits[0] = true;
        UnaryWriter {
            side,
            modulus: shape.modulus(),
            bits,
            value: 0,
            place: 0,
        }
    }

    /// Begins a unary write of a value below the modulus. No access may be due.
    #[inline(always)]
    pub fn write(&mut self, value: u64)
        requires below { value < self.old.modulus }
        requires idle { due_unary self.old ≡ None }
        ensures state { self.new ≡ record self.old { value = value } }
        ensures stands { (values : List ℕ) (made : List Made) → UnaryStands self.old values made →
            UnaryStands self.new (values ++ value ∷ []) made }
    {
        self.value = value as usize;
        self.place = clear_down(&self.bits, self.value);
    }

    /// The bit write that is due, or `None` once the value is written.
    #[inline(always)]
    pub fn next(&self) -> Option<Access>
        ensures due { result ≡ due_unary self.now }
        ensures stands { (values : List ℕ) (made : List Made) → UnaryStands self.now values made →
            IsNext (count_writes self.now.side values) made result }
    {
        if !self.bits[self.value] {
            Some(write_to(self.side, self.value as u8, true))
        } else if self.place > 0 {
            Some(write_to(self.side, (self.place - 1) as u8, false))
        } else {
            None
        }
    }

    /// Records that the due write was made. Its answer is ignored.
    #[inline(always)]
    pub fn feed(&mut self, answer: bool)
        requires { due_unary self.old ≢ None }
        ensures state { self.new ≡ row_fed self.old }
        ensures kept { IsSameRow self.old self.new }
        ensures left { (x : RowWrite) (rest : List RowWrite) → due_writes self.old ≡ x ∷ rest →
            due_writes self.new ≡ rest }
        ensures stands { (values : List ℕ) (made : List Made) (access : Access) → UnaryStands self.old values made →
            due_unary self.old ≡ Some access → UnaryStands self.new values (made ++ answered access answer ∷ []) }
    {
        let _ = answer;
        if !self.bits[self.value] {
            self.bits[self.value] = true;
        } else {
            self.bits[self.place - 1] = false;
            self.place = clear_down(&self.bits, self.place - 1);
        }
    }
}

/// A write of a value to a bit of the side's own count.
#[inline(always)]
fn write_to(side: Side, bit: u8, value: bool) -> Access
    ensures { result ≡ Access.Write (row_bit side bit) value }
{
    match side {
        Side::P => Access::Write(Bit::S(bit), value),
        Side::C => Access::Write(Bit::R(bit), value),
    }
}
