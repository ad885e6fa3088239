//! Scans of a unary register.
ghost use Rattle.std.specs.Prelude.{◌≡◌, ◌≢◌, ℕ, ◌<◌, true, false, Some, None, List, [], ◌∷◌, ◌++◌, ◌↔◌, IsTrue, if◌then◌else◌};
ghost use Rattle.bits_core.specs.Shape.{modulus_of};
ghost use Rattle.bits_core.specs.Made.{Made, answered};

use bits_core::{Access, Bit, Shape, Side};
use std::marker::Model;

/// Reads the bits of the other side's count from number 0 upwards, until one returns 1.
///
/// For example, with s0 clear and s1 set it reads s0, then s1, and returns 1. In use: each put and take
/// of `ring_core` starts with one.
#[derive(Clone, Copy, Debug)]
pub struct UnaryScan {
    modulus: u64,
    zeros: u64,
    // next to each other: a scan is copied in each call, and padding between its fields would be copied too
    side: Side,
    found: bool,
}

impl Model for UnaryScan {
    ghost use Rattle.std.specs.Prelude.{◌<◌, ◌≤◌};
    ghost use Rattle.register_core.specs.ScanState.{ScanState};

    ghost Value = { ScanState };

    ghost view = { λ s. record { side = s.side; modulus = s.modulus; zeros = s.zeros; found = s.found } };

    ghost inverse = { λ d. record { side = d.side; modulus = d.modulus; zeros = d.zeros; found = d.found } };

    ghost invariant = { λ s. (s.zeros < s.modulus) × (s.modulus ≤ 256) };
}

impl UnaryScan {
    ghost use Rattle.register_core.specs.ScanState.{new_scan, due_scan, scan_read, row_read_by, ScanStands, LastIsDue, IsNextScan, IsValueRead};

    /// A scan by a side: side C scans the bits `S`, and side P the bits `R`.
    #[inline(always)]
    pub fn new(shape: &Shape, side: Side) -> Self
        ensures state { result ≡ new_scan side (modulus_of shape.now) }
        ensures stands { ScanStands result [] }
    {
        UnaryScan {
            side,
            modulus: shape.modulus(),
            zeros: 0,
            found: false,
        }
    }

    /// A scan by a side after this many bits were read as 0, which is less than the modulus.
    #[inline(always)]
    pub fn at(shape: &Shape, side: Side, zeros: u64) -> Self
        requires { zeros < modulus_of shape.now }
        ensures { result ≡ record { side = side; modulus = modulus_of shape.now; zeros = zeros; found = false } }
    {
        UnaryScan {
            side,
            modulus: shape.modulus(),
            zeros,
            found: false,
        }
    }

    /// How many bits were read as 0.
    #[inline(always)]
    pub fn zeros(&self) -> u64
        ensures { result ≡ self.now.zeros }
    {
        self.zeros
    }

    /// The bit read that is due, or `None` once one returned 1.
    #[inline(always)]
    pub fn next(&self) -> Option<Access>
        ensures due { result ≡ due_scan self.now }
        ensures stands { (made : List Made) → ScanStands self.now made →
            IsNextScan (row_read_by self.now.side) self.now.modulus made result }
    {
        if self.found {
            return None;
        }
        let number = self.zeros as u8;
        match self.side {
            Side::P => Some(Access::Read(Bit::R(number))),
            Side::C => Some(Access::Read(Bit::S(number))),
        }
    }

    /// Records that the due read was made and returned `answer`. If [`expects_one`](Self::expects_one), that must be 1.
    #[inline(always)]
    pub fn feed(&mut self, answer: bool)
        requires due { due_scan self.old ≢ None }
        requires one { LastIsDue self.old → answer ≡ true }
        ensures state { self.new ≡ scan_read self.old answer }
        ensures stands { (made : List Made) (access : Access) → ScanStands self.old made →
            due_scan self.old ≡ Some access → ScanStands self.new (made ++ answered access answer ∷ []) }
    {
        if answer {
            self.found = true;
        } else {
            self.zeros += 1;
        }
    }

    /// The value once a bit has been read as 1, `None` before.
    #[inline(always)]
    pub fn value(&self) -> Option<u64>
        ensures state { result ≡ (if self.now.found then Some self.now.zeros else None) }
        ensures stands { (made : List Made) → ScanStands self.now made →
            IsValueRead (row_read_by self.now.side) self.now.modulus made result }
    {
        if self.found { Some(self.zeros) } else { None }
    }

    /// Whether the last bit of the count is due. If the count is written by unary writes of values below
    /// the modulus, this bit returns 1, as all others returned 0 (law `unary_has_one`).
    #[inline(always)]
    pub fn expects_one(&self) -> bool
        ensures { IsTrue result ↔ LastIsDue self.now }
    {
        !self.found && self.zeros + 1 == self.modulus
    }
}
