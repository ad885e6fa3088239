//! Where the words of a ring's bits are.
ghost use Rattle.std.specs.Prelude.{◌≡◌, ◌≤◌, true};
ghost use Rattle.bits_core.specs.Shape.{belongs};
ghost use Rattle.ring_seats.specs.Words as words;

use bits_core::{Bit, Shape};

// How many words of no bit come after those of the close bit, of each count and of each cell. They fill two cache lines,
// because processors fetch lines in pairs: so an end that writes to a cell or a count takes no line away from the other
// end, which reads another one.
pub(crate) const APART: usize = 16;

// The place of the producer's count.
pub(crate) const FIRST_S: usize = 1 + APART;

// The place of the consumer's count.
#[inline(always)]
pub(crate) fn first_r(shape: &Shape) -> usize
    ensures place { result ≡ words.first_r shape.now }
    ensures few { result ≤ 289 }
{
    FIRST_S + shape.modulus() as usize + APART
}

// The place of the first cell.
#[inline(always)]
fn first_cell(shape: &Shape) -> usize
    ensures place { result ≡ words.first_cell shape.now }
    ensures few { result ≤ 561 }
{
    first_r(shape) + shape.modulus() as usize + APART
}

// How many words there are from one cell to the next.
#[inline(always)]
fn cell_words(shape: &Shape) -> usize
    ensures words { result ≡ words.cell_words shape.now }
    ensures few { result ≤ 80 }
{
    shape.width() as usize + APART
}

// The place of a bit's word.
#[inline(always)]
pub(crate) fn place_of(shape: &Shape, bit: Bit) -> usize
    requires { belongs shape.now bit ≡ true }
    ensures { result ≡ words.word_place shape.now bit }
{
    match bit {
        Bit::X => 0,
        Bit::S(i) => FIRST_S + i as usize,
        Bit::R(i) => first_r(shape) + i as usize,
        Bit::Cell(j, i) => first_cell(shape) + (j as usize * cell_words(shape) + i as usize),
    }
}

// How many words there are.
pub(crate) fn word_count(shape: &Shape) -> usize
    ensures { result ≡ words.word_count shape.now }
{
    first_cell(shape) + shape.capacity() as usize * cell_words(shape)
}
