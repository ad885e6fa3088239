//! Lists that grow at their end, in memory of an allocator or of the caller.
ghost use Rattle.std.specs.Prelude.{◌≡◌, ◌≤◌, length, take};

use std::alloc::{AllocError, Allocator};
use std::fmt;

/// A list that grows at its end: a `Vec`, or the front of a caller-supplied slice, [`Filled`].
///
/// In use: `uses::by_hand::put_by_hand`, `uses::findings::found_in_slots`.
pub trait Store<T: Copy>: Drop {
    ghost use Rattle.std.specs.Prelude.{◌≡◌, ◌<◌, ◌≤◌, ◌==◌, ℕ, ◌+◌, List, [], ◌∷◌, ◌++◌, OnErr, OnOk, is_ok, length, if◌then◌else◌};

    // The list.
    ghost items: { Self → List T };

    // For how many more items there is room.
    ghost spare: { Self → ℕ };

    // For how many items in all it surely has room. Nothing is known about an allocator: 0.
    ghost room: { Self → ℕ };

    // What is known if room was refused.
    ghost refuses: { Self → Type 0 };

    // The second is stored where the first was.
    ghost same_slots: { Self → Self → Type 0 };

    /// Makes room for one more item. The list is unchanged, even if room is refused.
    fn reserve(&mut self) -> Result<(), AllocError>
        ensures items { items self.new ≡ items self.old }
        ensures room { OnOk result (0 < spare self.new) }
        ensures refused { OnErr result (refuses self.new) }
        ensures full { OnErr result (room self.old ≤ length (items self.old)) }
        ensures kept { room self.new ≡ room self.old }
        ensures slots { (first : Self) → same_slots first self.old → same_slots first self.new };

    /// Makes room for `count` more items. The list is unchanged, even if room is refused.
    fn reserve_many(&mut self, count: usize) -> Result<(), AllocError>
        ensures items { items self.new ≡ items self.old }
        ensures room { OnOk result (count ≤ spare self.new) }
        ensures full { OnErr result (room self.old < length (items self.old) + count) }
        ensures kept { room self.new ≡ room self.old }
        ensures slots { (first : Self) → same_slots first self.old → same_slots first self.new };

    /// Adds an item at the end, for which there is room.
    fn add(&mut self, item: T)
        requires { 0 < spare self.old }
        ensures items { items self.new ≡ items self.old ++ item ∷ [] }
        ensures spare { spare self.old ≤ spare self.new + 1 }
        ensures kept { room self.new ≡ room self.old }
        ensures slots { (first : Self) → same_slots first self.old → same_slots first self.new };

    /// Adds an item at the end. If room for it is refused the list is unchanged.
    fn push(&mut self, item: T) -> Result<(), AllocError>
        ensures items { items self.new ≡ (if is_ok result then items self.old ++ item ∷ [] else items self.old) }
        ensures full { OnErr result (room self.old ≤ length (items self.old)) }
        ensures kept { room self.new ≡ room self.old }
        ensures slots { (first : Self) → same_slots first self.old → same_slots first self.new };

    /// Adds items at the end. If room for them is refused the list is unchanged.
    fn extend_from_slice(&mut self, more: &[T]) -> Result<(), AllocError>
        ensures items { items self.new ≡ (if is_ok result then items self.old ++ more.now else items self.old) }
        ensures full { OnErr result (room self.old < length (items self.old) + length more.now) }
        ensures kept { room self.new ≡ room self.old }
        ensures slots { (first : Self) → same_slots first self.old → same_slots first self.new };

    /// Removes all items.
    fn clear(&mut self)
        ensures items { items self.new ≡ [] }
        ensures kept { room self.new ≡ room self.old }
        ensures slots { (first : Self) → same_slots first self.old → same_slots first self.new };

    /// The items, in order.
    fn as_slice(&self) -> &[T]
        ensures { result.now ≡ items self.now };

    /// Whether it holds none.
    fn is_empty(&self) -> bool
        ensures { result ≡ (length (items self.now) == 0) }
    {
        self.as_slice().is_empty()
    }
}

impl<T: Copy, A: Allocator> Store<T> for Vec<T, A> {
    ghost use Rattle.std.specs.Prelude.{◌-◌};
    ghost use Rattle.std.specs.Vec.{vec_len, vec_capacity};

    ghost items = { λ v. v.items };

    ghost spare = { λ v. vec_capacity v - vec_len v };

    ghost room = { λ _. 0 };

    ghost refuses = { λ v. Unit {0} };

    ghost same_slots = { λ first v. Unit {0} };

    fn reserve(&mut self) -> Result<(), AllocError> {
        Vec::reserve(self, 1)
    }

    fn reserve_many(&mut self, count: usize) -> Result<(), AllocError> {
        Vec::reserve(self, count)
    }

    fn add(&mut self, item: T) {
        self.push_reserved(item);
    }

    fn push(&mut self, item: T) -> Result<(), AllocError> {
        match Vec::push(self, item) {
            Ok(()) => Ok(()),
            Err(_refused) => Err(AllocError),
        }
    }

    fn extend_from_slice(&mut self, more: &[T]) -> Result<(), AllocError> {
        if more.is_empty() {
            return Ok(());
        }
        Vec::extend_from_slice(self, more)
    }

    fn clear(&mut self) {
        Vec::clear(self);
    }

    fn as_slice(&self) -> &[T] {
        Vec::as_slice(self)
    }
}

/// A list in a caller-supplied slice: its first slots hold the items, and their number is kept.
///
/// It takes no memory. There is room as long as a slot is left; more items than slots are refused, as `AllocError`, and change nothing.
///
/// In use: the page, whose events are in its own memory; `uses::findings::found_in_slots`.
#[derive(Drop)]
pub struct Filled<'a, T: Copy> {
    slots: &'a mut [T],
    used: usize,
    pub ghost within: { used ≤ length slots.now },
}

impl<'a, T: Copy> Filled<'a, T> {
    /// An empty list with these slots. There may be none.
    pub fn new(slots: &'a mut [T]) -> Self
        ensures empty { result.used ≡ 0 }
        ensures slots { result.slots.now ≡ slots.old }
        ensures same_slots { result.slots.ghost_name ≡ slots.entry.ghost_name }
    {
        Filled { slots, used: 0 }
    }

    /// The items, for as long as the slots are lent.
    pub fn into_slice(self) -> &'a [T]
        ensures { result.now ≡ take self.entry.used self.entry.slots.now }
    {
        let Filled { slots, used } = self;
        &slots[..used]
    }

    /// How many slots are in use.
    pub fn len(&self) -> usize
        ensures value { result ≡ self.now.used }
        ensures within { result ≤ length self.now.slots.now }
    {
        self.used
    }
}

impl<'a, T: Copy> Store<T> for Filled<'a, T> {
    ghost use Rattle.std.specs.Prelude.{◌≡◌, ◌≤◌, ◌<◌, ◌+◌, ◌-◌, ◌↔◌, IsErr, OnErr, ◌∷◌, ◌++◌, [], length, is_ok, if◌then◌else◌};
    ghost use Rattle.lists.specs.Fronts.{front_of};

    ghost items = { front_of };

    ghost spare = { λ f. length f.slots.now - f.used };

    ghost room = { λ f. length f.slots.now };

    ghost refuses = { λ f. length f.slots.now ≤ f.used };

    ghost same_slots = { λ first f. f.slots.ghost_name ≡ first.slots.ghost_name };

    fn reserve(&mut self) -> Result<(), AllocError> {
        if self.used < self.slots.len() {
            Ok(())
        } else {
            Err(AllocError)
        }
    }

    fn reserve_many(&mut self, count: usize) -> Result<(), AllocError> {
        if count <= self.slots.len() - self.used {
            Ok(())
        } else {
            Err(AllocError)
        }
    }

    fn add(&mut self, item: T) {
        self.slots[self.used] = item;
        self.used += 1;
    }

    fn push(&mut self, item: T) -> Result<(), AllocError>
        ensures items { front_of self.new ≡ (if is_ok result then front_of self.old ++ item ∷ [] else front_of
            self.old) }
        ensures full { OnErr result (length self.old.slots.now ≤ length (front_of self.old)) }
        ensures refused { IsErr result ↔ (self.old.used ≡ length self.old.slots.now) }
        ensures kept { length self.new.slots.now ≡ length self.old.slots.now }
        ensures slots { (first : Filled T) → self.old.slots.ghost_name ≡ first.slots.ghost_name →
            self.new.slots.ghost_name ≡ first.slots.ghost_name }
    {
        if self.used == self.slots.len() {
            return Err(AllocError);
        }
        self.add(item);
        Ok(())
    }

    fn extend_from_slice(&mut self, more: &[T]) -> Result<(), AllocError>
        ensures items { front_of self.new ≡ (if is_ok result then front_of self.old ++ more.now else front_of
            self.old) }
        ensures full { OnErr result (length self.old.slots.now < length (front_of self.old) + length more.now) }
        ensures refused { IsErr result ↔ (length self.old.slots.now < self.old.used + length more.now) }
        ensures kept { length self.new.slots.now ≡ length self.old.slots.now }
        ensures slots { (first : Filled T) → self.old.slots.ghost_name ≡ first.slots.ghost_name →
            self.new.slots.ghost_name ≡ first.slots.ghost_name }
    {
        if self.slots.len() - self.used < more.len() {
            return Err(AllocError);
        }
        let end = self.used + more.len();
        self.slots[self.used..end].copy_from_slice(more);
        self.used = end;
        Ok(())
    }

    fn clear(&mut self) {
        self.used = 0;
    }

    fn as_slice(&self) -> &[T] {
        &self.slots[..self.used]
    }
}

impl<'a, T: Copy + fmt::Debug> fmt::Debug for Filled<'a, T> {
    /// The items.
    fn fmt<W: fmt::Write>(&self, f: &mut fmt::Formatter<W>) -> fmt::Result {
        let items = self.as_slice();
        write!(f, "{items:?}")
    }
}
