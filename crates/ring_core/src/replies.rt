//! The replies of the calls of the two sides.

/// The reply of a put.
///
/// In use: `uses::by_hand::put_by_hand`.
#[derive(Clone, Copy, PartialEq, Eq, Debug)]
pub enum PutReply {
    /// The item was stored.
    Stored,
    /// The ring was full.
    Full,
    /// The producer had closed the ring.
    Closed,
}

/// The reply of a put of several items.
///
/// In use: `uses::batches::put_batch`.
#[derive(Clone, Copy, PartialEq, Eq, Debug)]
pub enum BatchReply {
    /// This many items were stored, starting with the first.
    Stored(u64),
    /// The ring was full.
    Full,
    /// The producer had closed the ring.
    Closed,
}

/// The reply of a take.
///
/// In use: `uses::steps::take_amid_put`.
#[derive(Clone, Copy, PartialEq, Eq, Debug)]
pub enum TakeReply {
    /// This item was taken.
    Item(u64),
    /// The ring was empty.
    Empty,
    /// The ring is closed, and every item put was taken.
    Closed,
}

/// The reply of a take of several items.
///
/// In use: the reply of a take of several of a counter ring.
#[derive(Clone, Copy, PartialEq, Eq, Debug)]
pub enum TakeBatchReply {
    /// This many items were taken; [`Consumer::items`](crate::Consumer::items) returns them.
    Taken(u64),
    /// The ring was empty.
    Empty,
    /// The ring is closed, and every item put was taken.
    Closed,
}
