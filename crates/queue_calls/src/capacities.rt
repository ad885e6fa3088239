//! How many items a queue may hold.
ghost use Rattle.std.specs.Prelude.{◌≡◌};
ghost use Rattle.queue_calls.specs.declared.capacities.Capacity.TheVariants.{Between};

/// How many items a queue may hold.
///
/// For example, `exactly(8)` is `queue 8` in a recording; `queue 2 4` is a queue that may report full from 2 items
/// on, and holds at most 4; `queue 0 4` one that may do so at any time.
#[derive(Clone, Copy, PartialEq, Eq, Debug)]
pub enum Capacity {
    /// Any number: it never lacks room.
    Unbounded,
    /// Never more than `most`; from `full` items on it may report that it has no room for one more. This is for
    /// queues whose capacity is known only as a range; `full` is at most `most`, which is at least 1.
    Between { full: usize, most: usize },
}

/// The capacity of a queue that holds exactly this many items.
///
/// In use: `uses::calls::first_at_fault`.
pub fn exactly(capacity: usize) -> Capacity
    ensures { result ≡ Between capacity capacity }
{
    Capacity::Between {
        full: capacity,
        most: capacity,
    }
}
