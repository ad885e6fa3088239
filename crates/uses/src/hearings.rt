//! Recorded calls that come line by line, not as one text.
ghost use Rattle.std.specs.Prelude.{◌∷◌, [], IfSome};
ghost use Rattle.queue_calls.specs.Queue.{exactly};
ghost use Rattle.queue_calls.specs.RecordingStates.{HasHeard};

use queue_calls::{Hearing, Owned, TAKEN_LIMIT, Word, allows};
use std::alloc::Allocator;
use std::collections::VecDeque;

/// A hearing that has heard the first line of a recording, for a queue that holds this many items; `None` if that is 0.
/// Its further lines are read by [`hear_line`](queue_calls::Hearing::hear_line).
pub fn of_queue<A: Allocator + Copy>(alloc: A, capacity: u64) -> Option<Hearing<Owned<A>>>
    ensures { IfSome result (λ hearing. HasHeard (λ q. q.items) (λ q. q.items) hearing (exactly capacity) []) }
{
    let numbers = [capacity];
    if !allows(Word::Queue, &numbers) {
        return None;
    }
    let mut hearing = Hearing::new(VecDeque::new(alloc), VecDeque::new(alloc), TAKEN_LIMIT);
    hearing.begins(&numbers);
    Some(hearing)
}
