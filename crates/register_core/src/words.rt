//! Words: items that are written to a cell, or read from it, digit by digit.
ghost use Rattle.std.specs.Prelude.{◌≡◌, ◌≢◌, ℕ, suc, ◌+◌, ◌^◌, ◌<◌, ◌≤◌, Some, None, List, [], ◌∷◌, ◌++◌, nat_lt, ◌↔◌, IsTrue, if◌then◌else◌};
ghost use Rattle.bits_core.specs.Shape.{capacity_of, width_of};
ghost use Rattle.bits_core.specs.Made.{Made, answered};
ghost use Rattle.register_core.specs.Machine.{IsNext};
ghost use Rattle.register_core.specs.Word.{word_write};

use bits_core::{Access, Bit, Shape};
use std::marker::Model;

/// Writes an item to a cell, every digit from number 0 upwards, whether it changes or not.
///
/// For example, for item 5 in three digits it writes 1, 0 and 1. In use: a put of `ring_core::Producer`.
#[derive(Clone, Copy, Debug)]
pub struct WordWriter {
    width: u64,
    cell: u64,
    item: u64,
    written: u64,
}

impl Model for WordWriter {
    ghost use Rattle.std.specs.Prelude.{◌<◌, ◌≤◌};
    ghost use Rattle.register_core.specs.WordState.{WriterState};

    ghost Value = { WriterState };

    ghost view = { λ w. record { width = w.width; cell = w.cell; item = w.item; written = w.written } };

    ghost inverse = { λ d. record { width = d.width; cell = d.cell; item = d.item; written = d.written } };

    ghost invariant = { λ w. (w.cell < 64) × (w.width ≤ 64) × (w.written ≤ w.width) };
}

impl WordWriter {
    ghost use Rattle.register_core.specs.WordState.{due_write, WriterStands};

    /// A word write of an item that fits the shape, to a cell below the capacity.
    #[inline(always)]
    pub fn new(shape: &Shape, cell: u64, item: u64) -> Self
        requires in_shape { cell < capacity_of shape.now }
        requires fits { item < 2 ^ width_of shape.now }
        ensures state { result ≡ record { width = width_of shape.now; cell = cell; item = item; written = 0 } }
        ensures stands { WriterStands result [] }
    {
        WordWriter {
            width: shape.width(),
            cell,
            item,
            written: 0,
        }
    }

    /// The digit write that is due, or `None` once all have been made.
    #[inline(always)]
    pub fn next(&self) -> Option<Access>
        ensures due { result ≡ due_write self.now }
        ensures stands { (made : List Made) → WriterStands self.now made →
            IsNext (word_write self.now.width self.now.cell self.now.item) made result }
    {
        if self.written < self.width {
            let value = (self.item >> self.written) % 2 == 1;
            Some(Access::Write(Bit::Cell(self.cell as u8, self.written as u8), value))
        } else {
            None
        }
    }

    /// Whether the digit write that is due is the last.
    #[inline(always)]
    pub fn is_last(&self) -> bool
        ensures { IsTrue result ↔ (suc self.now.written ≡ self.now.width) }
    {
        self.written + 1 == self.width
    }

    /// Records that the due write was made. Its answer is ignored.
    #[inline(always)]
    pub fn feed(&mut self, answer: bool)
        requires { due_write self.old ≢ None }
        ensures state { self.new ≡ record self.old { written = suc self.old.written } }
        ensures stands { (made : List Made) (access : Access) → WriterStands self.old made →
            due_write self.old ≡ Some access → WriterStands self.new (made ++ answered access answer ∷ []) }
    {
        let _ = answer;
        self.written += 1;
    }
}

/// Reads an item from a cell, every digit from number 0 upwards.
///
/// For example, from three digits read as 1, 0 and 1 it returns 5. In use: a take of `ring_core::Consumer`.
#[derive(Clone, Copy, Debug)]
pub struct WordReader {
    width: u64,
    cell: u64,
    read: u64,
    value: u64,
}

impl Model for WordReader {
    ghost use Rattle.std.specs.Prelude.{◌^◌, ◌<◌, ◌≤◌};
    ghost use Rattle.register_core.specs.WordState.{ReaderState};

    ghost Value = { ReaderState };

    ghost view = { λ r. record { width = r.width; cell = r.cell; read = r.read; value = r.value } };

    ghost inverse = { λ d. record { width = d.width; cell = d.cell; read = d.read; value = d.value } };

    ghost invariant = { λ r. (r.cell < 64) × (r.width ≤ 64) × (r.read ≤ r.width) × (r.value < 2 ^ r.read) };
}

impl WordReader {
    ghost use Rattle.register_core.specs.WordState.{due_read, read_digit, ReaderStands, IsNextRead, IsItemRead};

    /// A word read of a cell below the capacity.
    #[inline(always)]
    pub fn new(shape: &Shape, cell: u64) -> Self
        requires { cell < capacity_of shape.now }
        ensures state { result ≡ record { width = width_of shape.now; cell = cell; read = 0; value = 0 } }
        ensures stands { ReaderStands result [] }
    {
        WordReader {
            width: shape.width(),
            cell,
            read: 0,
            value: 0,
        }
    }

    /// The digit read that is due, or `None` once all have been made.
    #[inline(always)]
    pub fn next(&self) -> Option<Access>
        ensures due { result ≡ due_read self.now }
        ensures stands { (made : List Made) → ReaderStands self.now made →
            IsNextRead self.now.width self.now.cell made result }
    {
        if self.read < self.width {
            Some(Access::Read(Bit::Cell(self.cell as u8, self.read as u8)))
        } else {
            None
        }
    }

    /// Whether the digit read that is due is the last.
    #[inline(always)]
    pub fn is_last(&self) -> bool
        ensures { IsTrue result ↔ (suc self.now.read ≡ self.now.width) }
    {
        self.read + 1 == self.width
    }

    /// Records that the due read was made and returned `answer`.
    #[inline(always)]
    pub fn feed(&mut self, answer: bool)
        requires { due_read self.old ≢ None }
        ensures state { self.new ≡ read_digit self.old answer }
        ensures stands { (made : List Made) (access : Access) → ReaderStands self.old made →
            due_read self.old ≡ Some access → ReaderStands self.new (made ++ answered access answer ∷ []) }
    {
        if answer {
            self.value += 1 << self.read;
        }
        self.read += 1;
    }

    /// The item once every digit has been read, `None` before.
    #[inline(always)]
    pub fn value(&self) -> Option<u64>
        ensures state { result ≡ (if nat_lt self.now.read self.now.width then None else Some self.now.value) }
        ensures stands { (made : List Made) → ReaderStands self.now made →
            IsItemRead self.now.width self.now.cell made result }
    {
        if self.read == self.width {
            Some(self.value)
        } else {
            None
        }
    }
}
