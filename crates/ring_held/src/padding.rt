//! What keeps an end off the cache lines of its neighbours.

// 64 unused bytes. A held end is written to at each call; if two of them shared a cache line, as two boxes of one allocator may, an item
// would take up to a third longer.
#[derive(Drop)]
pub(crate) struct Padding([u64; 8]);

impl Padding {
    pub(crate) fn new() -> Padding {
        Padding([0; 8])
    }
}
