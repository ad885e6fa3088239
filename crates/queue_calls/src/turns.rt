//! What an auditor keeps of the calls under way.

/// The producer's call under way.
///
/// For example, after `P put 5 6` on an empty queue it is `PutTurn::Offers { offered: 2, before: 0 }`.
#[derive(Clone, Copy, PartialEq, Eq, Debug)]
pub enum PutTurn {
    /// No call.
    Free,
    /// A put of `offered` items, before which `before` were inside.
    Offers { offered: usize, before: usize },
    /// A put of this many items that began after a close had ended.
    Late { offered: usize },
    /// A close, the first one or again.
    Closes { again: bool },
}

/// The consumer's call under way.
///
/// For example, after `C take` on an empty queue it is `TakeTurn::Waits { wanted: 1, before: 0, ended: false }`.
#[derive(Clone, Copy, PartialEq, Eq, Debug)]
pub enum TakeTurn {
    /// No call.
    Rests,
    /// A take of up to `wanted` items, before which `before` were inside, not counting those of a put under way, and whether
    /// a close had ended then.
    Waits {
        wanted: usize,
        before: usize,
        ended: bool,
    },
}
