//! The items inside a queue that is audited, each with what has to be known about it.
ghost use Rattle.std.specs.Prelude.{map};

use call_causes::Offered;
use lists::Fifo;
use std::alloc::AllocError;

/// The items inside a queue, in order, each kept as an entry: a list of items, as each [`Fifo`] of them is, or one that keeps more
/// of an item, such as the line that offered it.
///
/// In use: `uses::calls::first_at_fault`.
pub trait Inside: Drop {
    ghost use Rattle.std.specs.Prelude.{◌≡◌, ◌≤◌, ℕ, List, [], ◌∷◌, ◌++◌, OnErr, length, take, drop, is_ok, if◌then◌else◌, slice_get};

    /// What is kept of an item.
    type Entry: Copy;

    // The entries, that of the front first.
    ghost entries: { Self → List Self.Entry };

    // The entry of an item that this line offered.
    ghost entry: { ℕ → ℕ → Self.Entry };

    // The items.
    ghost items: { Self → List ℕ };

    // For how many items in all it surely has room. Nothing is known about an allocator: 0.
    ghost room: { Self → ℕ };

    /// How many items it holds.
    fn len(&self) -> usize
        ensures items { result ≡ length (items self.now) }
        ensures entries { result ≡ length (entries self.now) };

    /// The item at this place, counted from the front; `None` past the end.
    fn item(&self, index: usize) -> Option<u64>
        ensures { result ≡ slice_get (items self.now) index };

    /// Adds an item, which this line offered, at the back. If room for it is refused everything is unchanged.
    fn push_back(&mut self, item: u64, line: u64) -> Result<(), AllocError>
        ensures items { items self.new ≡ (if is_ok result then items self.old ++ item ∷ [] else items self.old) }
        ensures entries { entries self.new ≡ (if is_ok result then entries self.old ++ entry item line ∷ [] else entries
            self.old) }
        ensures full { OnErr result (room self.old ≤ length (items self.old)) }
        ensures kept { room self.new ≡ room self.old };

    /// Removes the item at the front, if there is one.
    fn pop_front(&mut self)
        ensures items { items self.new ≡ drop 1 (items self.old) }
        ensures entries { entries self.new ≡ drop 1 (entries self.old) }
        ensures kept { room self.new ≡ room self.old };

    /// Keeps this many items from the front, or all if there are no more.
    fn truncate(&mut self, count: usize)
        ensures items { items self.new ≡ take count (items self.old) }
        ensures entries { entries self.new ≡ take count (entries self.old) }
        ensures kept { room self.new ≡ room self.old };
}

impl<Q: Fifo<u64>> Inside for Q {
    ghost use Rattle.std.specs.Prelude.{};

    type Entry = u64;

    ghost entries = { Q.items };

    ghost entry = { λ item line. item };

    ghost items = { Q.items };

    ghost room = { Q.room };

    fn len(&self) -> usize {
        Fifo::len(self)
    }

    fn item(&self, index: usize) -> Option<u64> {
        self.get(index).copied()
    }

    fn push_back(&mut self, item: u64, _line: u64) -> Result<(), AllocError> {
        Fifo::push_back(self, item)
    }

    fn pop_front(&mut self) {
        // the removed item is not needed
        let _item = Fifo::pop_front(self);
    }

    fn truncate(&mut self, count: usize) {
        Fifo::truncate(self, count);
    }
}

// Items with the lines of their puts.
#[derive(Drop)]
pub(crate) struct Lined<O: Fifo<Offered>> {
    pub(crate) list: O,
}

impl<O: Fifo<Offered>> Inside for Lined<O> {
    ghost use Rattle.std.specs.Prelude.{map, List, ℕ};

    type Entry = Offered;

    ghost entries = { λ q. O.items q.list };

    ghost entry = { λ item line. record { item = item; offered_at = line; stored_at = 0 } };

    ghost items = { λ q. map (λ o. o.item) (O.items q.list) };

    ghost room = { λ q. O.room q.list };

    fn len(&self) -> usize {
        self.list.len()
    }

    fn item(&self, index: usize) -> Option<u64> {
        Some(self.list.get(index)?.item)
    }

    fn push_back(&mut self, item: u64, line: u64) -> Result<(), AllocError> {
        self.list.push_back(Offered {
            item,
            offered_at: line,
            stored_at: 0,
        })
    }

    fn pop_front(&mut self) {
        // the removed item is not needed
        let _item = self.list.pop_front();
    }

    fn truncate(&mut self, count: usize) {
        self.list.truncate(count);
    }
}
