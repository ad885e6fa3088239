//! Logical writes of one bit.
ghost use Rattle.std.specs.Prelude.{◌≡◌, ◌≢◌, Some, None, Bool, List, [], ◌∷◌, ◌++◌, ⊤};
ghost use Rattle.bits_core.specs.Made.{Made, answered};
ghost use Rattle.register_core.specs.Machine.{IsNext};

use bits_core::{Access, Bit};
use std::alloc::AllocError;
use std::marker::Model;

/// Writes values to a bit: one write if the value changes, otherwise none. It remembers the bit.
///
/// In use: `ring_core::Producer` closes with one, the bit `X`.
#[derive(Debug, Drop)]
pub struct BitWriter {
    bit: Bit,
    held: bool,
    wanted: bool,
}

impl Model for BitWriter {
    ghost use Rattle.register_core.specs.BitState.{BitState};

    ghost Value = { BitState };

    ghost view = { λ w. record { bit = w.bit; held = w.held; wanted = w.wanted } };

    ghost invariant = { λ w. Unit {0} };
}

// Written by hand: a derived one clones each field, which makes the proof ten times as expensive.
impl Clone for BitWriter {
    ghost is_clone = { λ x y. y ≡ x };

    ghost is_infallible = { λ _. ⊤ };

    fn clone(&self) -> Result<Self, AllocError> {
        Ok(BitWriter { ..*self })
    }
}

impl BitWriter {
    ghost use Rattle.register_core.specs.BitState.{new_bit, due_change, bit_writes, BitStands};

    /// The writer of a bit that holds `first` now. No access is due.
    pub fn new(bit: Bit, first: bool) -> Self
        ensures state { result ≡ new_bit bit first }
        ensures stands { BitStands result first [] [] }
    {
        BitWriter {
            bit,
            held: first,
            wanted: first,
        }
    }

    /// Begins a logical write of the value. No access may be due.
    pub fn write(&mut self, value: bool)
        requires { due_change self.old ≡ None }
        ensures state { self.new ≡ record self.old { wanted = value } }
        ensures stands { (first : Bool) (values : List Bool) (made : List Made) → BitStands self.old first values made →
            BitStands self.new first (values ++ value ∷ []) made }
    {
        self.wanted = value;
    }

    /// The write that is due, or `None` if the bit holds the value requested.
    pub fn next(&self) -> Option<Access>
        ensures due { result ≡ due_change self.now }
        ensures stands { (first : Bool) (values : List Bool) (made : List Made) → BitStands self.now first values made →
            IsNext (bit_writes self.now.bit first values) made result }
    {
        if self.held == self.wanted {
            None
        } else {
            Some(Access::Write(self.bit, self.wanted))
        }
    }

    /// Records that the due write was made. Its answer is ignored.
    pub fn feed(&mut self, answer: bool)
        requires { due_change self.old ≢ None }
        ensures state { self.new ≡ record self.old { held = self.old.wanted } }
        ensures stands { (first : Bool) (values : List Bool) (made : List Made) (access : Access) →
            BitStands self.old first values made → due_change self.old ≡ Some access →
            BitStands self.new first values (made ++ answered access answer ∷ []) }
    {
        let _ = answer;
        self.held = self.wanted;
    }
}
