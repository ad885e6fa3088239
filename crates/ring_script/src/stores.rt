//! Items at the end of a store.
ghost use Rattle.std.specs.Prelude.{◌≡◌, ◌≤◌, ◌∷◌, ◌++◌, [], OnErr, OnOk, length};

use bits_core::Store;
use std::alloc::AllocError;

// Appends an item, if room is made for it.
pub(crate) fn push<T: Copy, S: Store<T>>(store: &mut S, item: T) -> Result<(), AllocError>
    ensures items { OnOk result (S.items store.new ≡ S.items store.old ++ item ∷ []) }
    ensures full { OnErr result (S.room store.old ≤ length (S.items store.old)) }
    ensures kept { S.room store.new ≡ S.room store.old }
{
    store.reserve()?;
    store.add(item);
    Ok(())
}
