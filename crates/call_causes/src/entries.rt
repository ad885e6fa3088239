//! What is kept of items, with the lines that name them.

/// How many of the items taken last are searched for one that comes again, in a recording of text.
///
/// For example, if this many others were taken in between, an item that comes again is reported as one that was not inside.
pub const TAKEN_LIMIT: usize = 65_536;

/// An item that was offered and not taken, with the lines that began and ended its put; the latter is 0 until it comes.
///
/// In use: `uses::findings::found_in_slots`.
#[repr(C)]
#[derive(Clone, Copy, PartialEq, Eq, Debug)]
pub struct Offered {
    pub item: u64,
    pub offered_at: u64,
    pub stored_at: u64,
}

/// An item that was taken, with the line that ended its take.
///
/// In use: `uses::findings::found_in_slots`.
#[repr(C)]
#[derive(Clone, Copy, PartialEq, Eq, Debug)]
pub struct Taken {
    pub item: u64,
    pub taken_at: u64,
}
