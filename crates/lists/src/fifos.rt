//! First-in first-out lists, in memory of an allocator or in caller-supplied slots.
use std::alloc::{AllocError, Allocator};
use std::collections::VecDeque;

/// A first-in first-out list: a `VecDeque`, or [`Slots`](crate::Slots) supplied by the caller.
///
/// In use: `uses::calls::first_at_fault_in_slots`.
pub trait Fifo<T: Copy>: Drop {
    ghost use Rattle.std.specs.Prelude.{◌≡◌, ◌<◌, ◌≤◌, ◌==◌, ℕ, List, [], ◌∷◌, ◌++◌, OnErr, length, take, drop, slice_get, slice_set, is_ok, if◌then◌else◌};
    ghost use Rattle.std.specs.Slice.{IsItemAt};

    // The list, its front first.
    ghost items: { Self → List T };

    // For how many items in all it surely has room. Nothing is known about an allocator: 0.
    ghost room: { Self → ℕ };

    /// How many items it holds.
    fn len(&self) -> usize
        ensures { result ≡ length (items self.now) };

    /// Whether it holds none.
    fn is_empty(&self) -> bool
        ensures { result ≡ (length (items self.now) == 0) }
    {
        self.len() == 0
    }

    /// The item at this index, counted from the front; `None` past the end.
    fn get(&self, index: usize) -> Option<&T>
        ensures { IsItemAt (items self.now) index result };

    /// Replaces the item at this index.
    fn set(&mut self, index: usize, item: T)
        requires { index < length (items self.old) }
        ensures items { items self.new ≡ slice_set (items self.old) index item }
        ensures kept { room self.new ≡ room self.old };

    /// Adds an item at the back. If room for it is refused the list is unchanged.
    fn push_back(&mut self, item: T) -> Result<(), AllocError>
        ensures items { items self.new ≡ (if is_ok result then items self.old ++ item ∷ [] else items self.old) }
        ensures full { OnErr result (room self.old ≤ length (items self.old)) }
        ensures kept { room self.new ≡ room self.old };

    /// Removes the item at the front and returns it; `None` if the list is empty.
    fn pop_front(&mut self) -> Option<T>
        ensures value { result ≡ slice_get (items self.old) 0 }
        ensures rest { items self.new ≡ drop 1 (items self.old) }
        ensures kept { room self.new ≡ room self.old };

    /// Keeps this many items from the front, or all if there are no more.
    fn truncate(&mut self, count: usize)
        ensures items { items self.new ≡ take count (items self.old) }
        ensures kept { room self.new ≡ room self.old };
}

impl<T: Copy, A: Allocator> Fifo<T> for VecDeque<T, A> {
    ghost items = { λ q. q.items };

    ghost room = { λ _. 0 };

    fn len(&self) -> usize {
        VecDeque::len(self)
    }

    fn get(&self, index: usize) -> Option<&T> {
        VecDeque::get(self, index)
    }

    fn set(&mut self, index: usize, item: T) {
        self[index] = item;
    }

    fn push_back(&mut self, item: T) -> Result<(), AllocError> {
        match VecDeque::push_back(self, item) {
            Ok(()) => Ok(()),
            Err(_refused) => Err(AllocError),
        }
    }

    fn pop_front(&mut self) -> Option<T> {
        VecDeque::pop_front(self)
    }

    fn truncate(&mut self, count: usize) {
        VecDeque::truncate(self, count);
    }
}
