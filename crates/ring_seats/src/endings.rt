//! The words of a ring whose run is over.
ghost use Rattle.std.specs.Prelude.{◌≡◌, ◌<◌, length, slice_index};
ghost use Rattle.ring_seats.specs.Meetings.{KnowsAll};

use crate::views::{RuleOf, View, WordKind};
use atomic_table::{Closed, Seat, Table};
use bits_core::Shape;
use std::alloc::Allocator;
use std::marker::Model;

/// The words of a ring whose run is over, as they are. To a contract they are the list of the words.
///
/// In use: `uses::two_threads::pass_through`.
pub struct LastWords<A: Allocator> {
    closed: Closed<(), A>,
}

impl<A: Allocator> Model for LastWords<A> {
    ghost use Rattle.std.specs.Prelude.{◌≡◌, ℕ, List};
    ghost use Rattle.std.specs.Slots.{IsFull, slots_items, slots_len};

    ghost Value = { List ℕ };

    ghost view = { λ l. slots_items l.closed.words };

    ghost invariant = { λ l. IsFull l.closed.words × (slots_len l.closed.slots ≡ 0) };
}

impl<A: Allocator> LastWords<A> {
    /// How many words there are.
    pub fn len(&self) -> usize
        ensures { result ≡ length self.now }
    {
        self.closed.words.len()
    }

    /// The word at a place, which is below their number. Their arrangement depends on the kind of ring ([`WordKind`]).
    #[tactic(auto, using(crate::proofs::LastStates::found_at))]
    pub fn word(&self, place: usize) -> u64
        requires { place < length self.now }
        ensures { result ≡ slice_index self.now place }
    {
        self.closed.word(place)
    }
}

impl<A: Allocator> Drop for LastWords<A> {
    fn drop(self) {
        let LastWords { closed } = self;
        closed.free();
    }
}

/// The words of a table as they are, if the seat may step for both sides and knows the whole history: they show that
/// history. The table is consumed, and the seat with it. It makes no access and takes no memory. For example, a ring
/// whose run is over is closed in this way.
pub fn close_table<K: WordKind, A: Allocator>(
    table: Table<(), View, Shape, RuleOf<K>, A>,
    seat: Seat<(), View>,
) -> LastWords<A>
    requires own { (seat.table_id ≡ table.shared.table_id) × (table.shared.table_id.slots ≡ 0) }
    requires knows { KnowsAll seat.me.0 }
    ensures count { length result ≡ K.count table.shared.key }
    ensures shows { K.shows table.shared.key result seat.me.0.known }
{
    let closed = table.close_with(seat);
    LastWords { closed }
}
