//! First-in first-out lists in caller-supplied slots. They take no memory.
ghost use Rattle.std.specs.Prelude.{◌≡◌, ◌≤◌, ◌<◌, ◌⊎◌, [], IfSome, IsNone, length};

use crate::fifos::Fifo;
use std::alloc::AllocError;

/// A first-in first-out list in a caller-supplied slice, used as a circular buffer.
///
/// It holds as many items as the slice has slots. One more is refused, as `AllocError`, and changes nothing.
///
/// In use: `uses::calls::first_at_fault_in_slots`.
#[derive(Drop)]
pub struct Slots<'a, T: Copy> {
    slots: &'a mut [T],
    // the slot of the front
    first: usize,
    used: usize,
    pub ghost begins: { first ≤ length slots.now },
    pub ghost within: { used ≤ length slots.now },
}

impl<'a, T: Copy> Slots<'a, T> {
    ghost use Rattle.lists.specs.Rings.{from_place, ring_items};

    /// An empty list in these slots. There may be none.
    pub fn new(slots: &'a mut [T]) -> Self
        ensures empty { ring_items result ≡ [] }
        ensures slots { result.slots.now ≡ slots.old }
    {
        Slots {
            slots,
            first: 0,
            used: 0,
        }
    }

    /// The list that these slots held before: `used` items, from slot `first` on. `None` if that is more than the slots.
    pub fn resume(slots: &'a mut [T], first: usize, used: usize) -> Option<Self>
        ensures some { IfSome result (λ list. (list.slots.now ≡ slots.old) × (list.first ≡ first) ×
            (list.used ≡ used)) }
        ensures none { IsNone result → (length slots.old < first) ⊎ (length slots.old < used) }
    {
        if first <= slots.len() && used <= slots.len() {
            Some(Slots { slots, first, used })
        } else {
            None
        }
    }

    /// The slots with their contents, the slot of the front, and how many are used.
    pub fn keep(self) -> (&'a mut [T], usize, usize)
        ensures kept { (result.0.now ≡ self.entry.slots.now) × (result.1 ≡ self.entry.first) ×
            (result.2 ≡ self.entry.used) }
        ensures within { (result.1 ≤ length result.0.now) × (result.2 ≤ length result.0.now) }
    {
        (self.slots, self.first, self.used)
    }

    // The slot of the item at this index.
    fn slot_of(&self, index: usize) -> usize
        requires { index < length self.now.slots.now }
        ensures place { result ≡ from_place (length self.now.slots.now) self.now.first index }
        ensures within { result < length self.now.slots.now }
    {
        let behind = self.slots.len() - self.first;
        if index < behind {
            self.first + index
        } else {
            index - behind
        }
    }
}

impl<'a, T: Copy> Fifo<T> for Slots<'a, T> {
    ghost use Rattle.std.specs.Prelude.{◌≡◌, ◌≤◌, ◌↔◌, IsErr, OnErr, ◌∷◌, ◌++◌, [], length, is_ok, if◌then◌else◌};
    ghost use Rattle.lists.specs.Rings.{ring_items};

    ghost items = { ring_items };

    ghost room = { λ s. length s.slots.now };

    fn len(&self) -> usize {
        self.used
    }

    fn get(&self, index: usize) -> Option<&T> {
        if index < self.used {
            let slot = self.slot_of(index);
            let slots = &*self.slots;
            Some(&slots[slot])
        } else {
            None
        }
    }

    fn set(&mut self, index: usize, item: T) {
        let slot = self.slot_of(index);
        self.slots[slot] = item;
    }

    fn push_back(&mut self, item: T) -> Result<(), AllocError>
        ensures items { ring_items self.new ≡ (if is_ok result then ring_items self.old ++ item ∷ [] else ring_items
            self.old) }
        ensures full { OnErr result (length self.old.slots.now ≤ length (ring_items self.old)) }
        ensures refused { IsErr result ↔ (length (ring_items self.old) ≡ length self.old.slots.now) }
        ensures kept { length self.new.slots.now ≡ length self.old.slots.now }
    {
        if self.used == self.slots.len() {
            return Err(AllocError);
        }
        let used = self.used;
        let back = self.slot_of(used);
        self.slots[back] = item;
        self.used += 1;
        Ok(())
    }

    fn pop_front(&mut self) -> Option<T> {
        if self.used == 0 {
            return None;
        }
        let slot = self.slot_of(0);
        let item = self.slots[slot];
        self.first = slot + 1;
        self.used -= 1;
        Some(item)
    }

    fn truncate(&mut self, count: usize) {
        if count < self.used {
            self.used = count;
        }
    }
}
