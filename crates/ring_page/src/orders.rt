//! The order in which the operations of recorded calls take effect.
ghost use Rattle.std.specs.Prelude.{◌≡◌, ◌∷◌, ◌++◌, ℕ, List, [], IsTrue, Some, true, false, if◌then◌else◌, option_map};
ghost use Rattle.queue_calls.specs.Calls as calls;
ghost use Rattle.queue_calls.specs.Calls.{Happens};
ghost use Rattle.call_lines.specs.Lines.{word_of};
ghost use Rattle.queue_points.specs.Points.{Accepts, point_of};
ghost use Rattle.queue_calls.specs.Queue as queues;
ghost use Rattle.queue_calls.specs.Recordings.{begun_after, event_told, line};
ghost use Rattle.queue_points.specs.Steps.{done};
ghost use Rattle.queue_calls.specs.Told.{meant};
ghost use Rattle.ring_page.specs.declared.orders.Came.{Came};
ghost use Rattle.ring_page.specs.Order.{HaveCome, LeadsNowhere, TellsOrder, capacity_in, does_in, line_in, listed_in};

use queue_calls::{Begun, Capacity, Word, begun_after, event_told};
use queue_points::{LinearizationPoints, Operation};

/// A mark of a history of calls, as numbers: a line of recorded calls, or that an operation takes effect.
#[repr(C)]
#[derive(Clone, Copy, PartialEq, Eq, Debug)]
pub struct Came {
    /// From 0 to 14 a line, by the number of its word (`queue_calls::Word`); from 17 to 23 an operation, in the order of
    /// `queue_points::Operation`.
    pub kind: u64,
    /// The item of an operation; for a line, where its numbers begin in the list.
    pub value: u64,
    /// How many numbers the line has; for an operation, for how many items it found no room, or fewer than how many it found.
    pub count: u64,
}

/// The capacity of a queue, as numbers.
#[repr(C)]
#[derive(Clone, Copy, PartialEq, Eq, Debug)]
pub struct Holds {
    /// 0 for a queue that holds any number.
    pub bounded: u64,
    /// How many items are inside when it may report that it is full, and how many at most.
    pub full: u64,
    pub most: u64,
}

fn capacity_in(holds: &Holds) -> Capacity
    ensures { meant result ≡ capacity_in holds.now }
{
    if holds.bounded == 0 {
        Capacity::Unbounded
    } else {
        Capacity::Between {
            full: holds.full as usize,
            most: holds.most as usize,
        }
    }
}

// The word with this number.
fn word_of(number: u64) -> Option<Word>
    ensures { result ≡ word_of number }
{
    if number > 16 {
        return None;
    }
    Word::of_number(number as u32)
}

// The numbers of a line.
fn listed_in<'a>(numbers: &'a [u64], came: &Came) -> Option<&'a [u64]>
    ensures { option_map (λ told. told.now) result ≡ listed_in numbers.entry.now came.now }
{
    let (from, count) = (came.value as usize, came.count as usize);
    if from > numbers.len() || count > numbers.len() - from {
        return None;
    }
    Some(&numbers[from..from + count])
}

// The line of recorded calls with these numbers.
fn line_in<'a>(numbers: &'a [u64], came: &Came) -> Option<(Word, &'a [u64])>
    ensures { option_map (λ l. line l.0 l.1.now) result ≡ line_in numbers.entry.now came.now }
{
    let word = word_of(came.kind)?;
    let told = listed_in(numbers, came)?;
    Some((word, told))
}

// The operation with these numbers.
fn does_in(came: &Came) -> Option<Operation>
    ensures { option_map done result ≡ does_in came.now }
{
    let count = came.count as usize;
    match came.kind {
        17 => Some(Operation::Enqueue(came.value)),
        18 => Some(Operation::FindNoRoom(count)),
        19 => Some(Operation::FindShut),
        20 => Some(Operation::Close),
        21 => Some(Operation::Dequeue(came.value)),
        22 => Some(Operation::FindFewer(count)),
        23 => Some(Operation::FindClosed),
        _ => None,
    }
}

// The event of a line comes next, if the producer began this last. Returns whether it can.
fn follow_line<'a>(
    points: &mut LinearizationPoints<'a>,
    begun: &mut Begun,
    word: Word,
    told: &'a [u64],
) -> bool
    ensures followed { IsTrue result → (event : calls.Event) × (event_told begun.old word told.entry.now ≡ Some event) ×
        Accepts points.old (Happens event) true points.new }
    ensures begun { begun.new ≡ (if result then begun_after begun.old word told.entry.now else begun.old) }
    ensures not { result ≡ false → (event : calls.Event) → event_told begun.old word told.entry.now ≡ Some event →
        Accepts points.old (Happens event) false points.new }
    ensures same { result ≡ false → points.new ≡ points.old }
{
    let Some(event) = event_told(*begun, word, told) else {
        return false;
    };
    if !points.happens(event) {
        return false;
    }
    *begun = begun_after(*begun, word, told);
    true
}

// The next mark comes, if the producer began this last. Returns whether it can.
fn follow<'a>(
    points: &mut LinearizationPoints<'a>,
    begun: &mut Begun,
    numbers: &'a [u64],
    came: &Came,
) -> bool
    ensures came { (items : List ℕ) (before : List Came) (capacity : queues.Capacity) →
        HaveCome numbers.entry.now items before capacity points.old begun.old →
        IsTrue result → HaveCome numbers.entry.now items (before ++ came.now ∷ []) capacity points.new begun.new }
    ensures not { result ≡ false →
        LeadsNowhere begun.old numbers.entry.now points.old.row.now came.now (meant points.old.capacity)
        (point_of points.old) points.old.tail }
    ensures same { result ≡ false → (points.new ≡ points.old) × (begun.new ≡ begun.old) }
{
    if let Some((word, told)) = line_in(numbers, came) {
        return follow_line(points, begun, word, told);
    }
    match does_in(came) {
        Some(does) => points.takes_effect(does),
        None => false,
    }
}

/// Returns how many of the first marks of a history of calls can come one after the other, for a queue of this capacity, and no more. If
/// these are all, the history of the events among them is linearizable, and the operations take effect at the points at which they are.
///
/// The items are those that the operations put in, in order: an operation that puts in an item other than the next one is not counted
/// either. The numbers are those of the lines. It takes no memory.
#[unsafe(no_mangle)]
pub extern "C" fn page_order(
    holds: &Holds,
    items: &[u64],
    numbers: &[u64],
    marks: &[Came],
    count: &mut u64,
)
    ensures { TellsOrder numbers.now items.now marks.now (capacity_in holds.now) count.new }
{
    let mut points = LinearizationPoints::new(capacity_in(holds), items);
    let mut begun = Begun::Nothing;
    for place in 0..marks.len() {
        if !follow(&mut points, &mut begun, numbers, &marks[place]) {
            *count = place as u64;
            return;
        }
    }
    *count = marks.len() as u64;
}
