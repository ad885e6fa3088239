//! How the table of a ring's words is made, with the seat that steps for both its sides.
ghost use Rattle.std.specs.Prelude.{◌≡◌, IfOk};
ghost use Rattle.ring_seats.specs.Counters.{first_counts, words_of};
ghost use Rattle.ring_seats.specs.Rule.{IsNewTable};
ghost use Rattle.ring_seats.specs.Words.{first_words, word_count as count_of_words};

use crate::counter_words::Counting;
use crate::layout::{FIRST_S, first_r, word_count};
use crate::views::{Flickering, RuleOf, View};
use atomic_table::{Seat, Table};
use bits_core::Shape;
use std::alloc::{AllocError, Allocator};

/// A table of a kind of ring with its one seat, or an error if the allocator refused memory. For example, see [`flicker_table`].
pub type NewTable<K, A> = Result<
    (Table<(), View, Shape, RuleOf<K>, A>, Seat<(), View>),
    AllocError,
>;

/// The table of the words of a ring's bits, and its one seat, with nothing put. It takes memory for one word for each bit, and
/// for 16 words after the close bit, each count and each cell, which keep these apart. An error is returned only if the
/// allocator refused that. For example, a new `FlickerRing` is this table.
pub fn flicker_table<A: Allocator + Copy>(alloc: A, shape: Shape) -> NewTable<Flickering, A>
    ensures { IfOk result (λ t. IsNewTable shape (count_of_words shape) t.0.shared.key t.0.shared.table_id
        t.1.table_id t.1.me) }
{
    let words = starting_words(alloc, shape)?;
    Table::of_words(alloc, words.as_slice(), &shape)
}

/// The table of a counter ring's words, and its one seat, with nothing put. It takes memory for one word for each cell and three
/// more. An error is returned only if the allocator refused that. For example, a new `CounterRing` is this table.
pub fn counter_table<A: Allocator + Copy>(alloc: A, shape: Shape) -> NewTable<Counting, A>
    ensures { IfOk result (λ t. IsNewTable shape (words_of shape) t.0.shared.key t.0.shared.table_id t.1.table_id
        t.1.me) }
{
    let words = starting_counts(alloc, shape)?;
    Table::of_words(alloc, words.as_slice(), &shape)
}

// The words of bits that hold their first values.
fn starting_words<A: Allocator>(alloc: A, shape: Shape) -> Result<Vec<u64, A>, AllocError>
    ensures { IfOk result (λ v. v.items ≡ first_words shape) }
{
    let mut words = vec![in alloc; 0u64; word_count(&shape)]?;
    words[FIRST_S] = 1;
    words[first_r(&shape)] = 1;
    Ok(words)
}

// The words of a counter ring before any step.
fn starting_counts<A: Allocator>(alloc: A, shape: Shape) -> Result<Vec<u64, A>, AllocError>
    ensures { IfOk result (λ v. v.items ≡ first_counts shape) }
{
    let words = vec![in alloc; 0u64; 3 + shape.capacity() as usize]?;
    Ok(words)
}
