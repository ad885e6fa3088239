//! Histories of calls, and the verdict on each.
use queue_calls::{Capacity, Event, Fault, Reply};

/// A history of a queue of this capacity, and the fault of its last event, if it is refused.
pub(crate) struct Case {
    pub name: &'static str,
    pub capacity: Capacity,
    pub fault: Option<Fault>,
    pub events: &'static [Event<'static>],
}

// An event, with its reply if it ends a put or a take, and a number in round brackets or items in square ones.
macro_rules! event {
    ($event:ident $(($number:literal))? $([$($item:literal),*])?) => {
        Event::$event $(($number))? $((&[$($item),*]))?
    };
    ($event:ident $reply:ident $(($number:literal))? $([$($item:literal),*])?) => {
        Event::$event(Reply::$reply $(($number))? $((&[$($item),*]))?)
    };
}

// A name, a capacity and the verdict; and the events.
macro_rules! case {
    ($name:literal, $capacity:expr, $fault:expr; $($event:ident $($reply:ident)? $(($number:literal))? $([$($item:literal),*])?),*) => {
        Case {
            name: $name,
            capacity: $capacity,
            fault: $fault,
            events: &[$(event!($event $($reply)? $(($number))? $([$($item),*])?)),*],
        }
    };
}

const LAWFUL: Option<Fault> = None;

const NOT_LINEARIZABLE: Option<Fault> = Some(Fault::NotLinearizable);

const OUT_OF_TURN: Option<Fault> = Some(Fault::OutOfTurn);

const UNBOUNDED: Capacity = Capacity::Unbounded;

const ONE: Capacity = Capacity::Between { full: 1, most: 1 };

const TWO: Capacity = Capacity::Between { full: 2, most: 2 };

const THREE: Capacity = Capacity::Between { full: 3, most: 3 };

// A queue that may report that it is full with 2 items inside, and may hold 3.
const TWO_OR_THREE: Capacity = Capacity::Between { full: 2, most: 3 };

// A queue that may report at any time that it is full, and holds at most one item.
const NONE_OR_ONE: Capacity = Capacity::Between { full: 0, most: 1 };

/// Each with its events in order.
pub static CASES: [Case; 45] = [
    // One item is put and taken; the queue is then found empty, closed, and found closed, by the consumer and by the producer.
    case!("all answers", ONE, LAWFUL;
        PutBegins[7], PutEnds Passed(1), PutBegins[8], PutEnds Lacked, PutBegins[8], PutEnds Nothing, PutBegins[8, 9], PutEnds Short,
        TakeBegins(2), TakeEnds Passed[7], TakeBegins(1), TakeEnds Lacked, TakeBegins(2), TakeEnds Short, TakeBegins(1),
        TakeEnds Nothing, CloseBegins, TakeBegins(1), TakeEnds Shut, CloseEnds, PutBegins[9], PutEnds Shut, PutBegins[9],
        PutEnds Nothing),
    // The take may have taken the first item when the second was stored, and then reports that the queue was empty.
    case!("empty of full", ONE, NOT_LINEARIZABLE;
        TakeBegins(1), PutBegins[1], PutEnds Passed(1), PutBegins[2], PutEnds Passed(1), TakeEnds Lacked),
    // The item was stored before the take began.
    case!("empty of one", TWO, NOT_LINEARIZABLE; PutBegins[1], PutEnds Passed(1), TakeBegins(1), TakeEnds Lacked),
    // A put of two reports that one was stored, and the second was taken.
    case!("taken not stored", ONE, NOT_LINEARIZABLE;
        PutBegins[1, 2], TakeBegins(1), TakeEnds Passed[1], TakeBegins(1), TakeEnds Passed[2], PutEnds Passed(1)),
    // One item was inside, of two.
    case!("full of one", TWO, NOT_LINEARIZABLE; PutBegins[1], PutEnds Passed(1), PutBegins[2], PutEnds Lacked),
    // The second item before the first.
    case!("other item", TWO, NOT_LINEARIZABLE; PutBegins[1, 2], TakeBegins(1), TakeEnds Passed[2]),
    // A take returns Closed, and then one returns Empty.
    case!("empty after end", TWO, NOT_LINEARIZABLE; CloseBegins, TakeBegins(1), TakeEnds Shut, TakeBegins(1), TakeEnds Lacked),
    case!("two takes", ONE, OUT_OF_TURN; TakeBegins(1), TakeBegins(1)),
    case!("answer to close", ONE, OUT_OF_TURN; CloseBegins, PutEnds Shut),
    // ---- unbounded, and of a capacity known only as a range
    // A queue with no bound holds them all, and reports that it is full.
    case!("full with no bound", UNBOUNDED, NOT_LINEARIZABLE; PutBegins[1, 2, 3, 4], PutEnds Passed(4), PutBegins[5], PutEnds Lacked),
    case!("no room with no bound", UNBOUNDED, NOT_LINEARIZABLE; PutBegins[1, 2], PutEnds Short),
    case!("some stored with no bound", UNBOUNDED, NOT_LINEARIZABLE; PutBegins[1, 2], PutEnds Passed(1)),
    // With two inside it may report that it is full, and hold a third one.
    case!("full or not", TWO_OR_THREE, LAWFUL;
        PutBegins[1, 2], PutEnds Passed(2), PutBegins[3], PutEnds Lacked, PutBegins[3], PutEnds Passed(1), PutBegins[4],
        PutEnds Lacked),
    case!("full too early", TWO_OR_THREE, NOT_LINEARIZABLE; PutBegins[1], PutEnds Passed(1), PutBegins[2], PutEnds Lacked),
    case!("four in three", TWO_OR_THREE, NOT_LINEARIZABLE; PutBegins[1, 2, 3, 4], PutEnds Passed(4)),
    // ---- several items at once, and the reasons why not all
    // One was taken while the put was under way, which found room for two of three at its start.
    case!("some stored", THREE, LAWFUL;
        PutBegins[1], PutEnds Passed(1), PutBegins[2, 3, 4], TakeBegins(2), TakeEnds Passed[1, 2], PutEnds Passed(2),
        TakeBegins(3), TakeEnds Passed[3]),
    // There was room for all three.
    case!("some stored of room", THREE, NOT_LINEARIZABLE; PutBegins[1, 2, 3], PutEnds Passed(2)),
    // The reason holds at the put's start: the item taken since makes no room that counts.
    case!("some stored before a take", TWO, LAWFUL;
        PutBegins[1], PutEnds Passed(1), PutBegins[2, 3], TakeBegins(1), TakeEnds Passed[1], PutEnds Passed(1)),
    case!("short with room", TWO, NOT_LINEARIZABLE; PutBegins[1, 2], PutEnds Short),
    case!("short of one", ONE, OUT_OF_TURN; PutBegins[1], PutEnds Passed(1), PutBegins[2], PutEnds Short),
    // An item of the put was taken.
    case!("nothing but taken", TWO, NOT_LINEARIZABLE; PutBegins[1, 2], TakeBegins(1), TakeEnds Passed[1], PutEnds Nothing),
    // Two were inside before the take, which asked for two and took one.
    case!("fewer than inside", TWO, NOT_LINEARIZABLE; PutBegins[1, 2], PutEnds Passed(2), TakeBegins(2), TakeEnds Passed[1]),
    // One was inside before the take, and the second came while it was under way.
    case!("fewer than came", TWO, LAWFUL;
        PutBegins[1], PutEnds Passed(1), TakeBegins(2), PutBegins[2], PutEnds Passed(1), TakeEnds Passed[1], TakeBegins(1),
        TakeEnds Passed[2]),
    // A take of three takes more than a capacity of one.
    case!("more than a capacity", ONE, LAWFUL; TakeBegins(3), PutBegins[1, 2, 3, 4], PutEnds Passed(4), TakeEnds Passed[1, 2, 3]),
    case!("too short with two", TWO, NOT_LINEARIZABLE; PutBegins[1, 2], PutEnds Passed(2), TakeBegins(2), TakeEnds Short),
    // One is inside a closed queue: fewer than two, and not the end.
    case!("short after close", TWO, LAWFUL;
        PutBegins[1], PutEnds Passed(1), CloseBegins, CloseEnds, TakeBegins(2), TakeEnds Short, TakeBegins(2),
        TakeEnds Passed[1], TakeBegins(2), TakeEnds Shut),
    // None is inside a closed queue.
    case!("short at the end", TWO, NOT_LINEARIZABLE; CloseBegins, CloseEnds, TakeBegins(2), TakeEnds Short),
    case!("short take of one", TWO, OUT_OF_TURN; TakeBegins(1), TakeEnds Short),
    // It may have taken one of them, and reports that it took none.
    case!("nothing of too many", ONE, NOT_LINEARIZABLE;
        TakeBegins(1), PutBegins[1], PutEnds Passed(1), PutBegins[2], PutEnds Passed(1), TakeEnds Nothing),
    // ---- numbers out of range
    case!("no item", ONE, OUT_OF_TURN; PutBegins[]),
    case!("none stored", ONE, OUT_OF_TURN; PutBegins[1], PutEnds Passed(0)),
    case!("more stored", ONE, OUT_OF_TURN; PutBegins[1], PutEnds Passed(2)),
    case!("more stored late", ONE, OUT_OF_TURN; CloseBegins, CloseEnds, PutBegins[1], PutEnds Passed(2)),
    case!("stored late", ONE, NOT_LINEARIZABLE; CloseBegins, CloseEnds, PutBegins[1], PutEnds Passed(1)),
    case!("wants none", ONE, OUT_OF_TURN; TakeBegins(0)),
    case!("takes none", ONE, OUT_OF_TURN; TakeBegins(1), TakeEnds Passed[]),
    case!("takes more", TWO, OUT_OF_TURN; PutBegins[1, 2], PutEnds Passed(2), TakeBegins(1), TakeEnds Passed[1, 2]),
    // ---- calls that report no reason for not passing more
    // With room for more, and with more inside: neither call reports why it does not pass more.
    case!("some", THREE, LAWFUL;
        PutBegins[1, 2], PutEnds PassedSome(1), PutBegins[2, 3], PutEnds PassedSome(2), TakeBegins(3), TakeEnds PassedSome[1], TakeBegins(2),
        TakeEnds PassedSome[2, 3]),
    case!("some of too many", ONE, NOT_LINEARIZABLE; PutBegins[1, 2], PutEnds PassedSome(2)),
    case!("some of none", ONE, OUT_OF_TURN; PutBegins[1], PutEnds PassedSome(0)),
    case!("some more", TWO, OUT_OF_TURN; PutBegins[1], PutEnds PassedSome(2)),
    case!("takes some other", TWO, NOT_LINEARIZABLE; PutBegins[1, 2], PutEnds Passed(2), TakeBegins(2), TakeEnds PassedSome[2]),
    case!("takes some more", TWO, OUT_OF_TURN; PutBegins[1, 2], PutEnds Passed(2), TakeBegins(1), TakeEnds PassedSome[1, 2]),
    case!("full from none", NONE_OR_ONE, LAWFUL; PutBegins[1], PutEnds Lacked, PutBegins[1], PutEnds Passed(1)),
    case!("two in none or one", NONE_OR_ONE, NOT_LINEARIZABLE; PutBegins[1, 2], PutEnds Passed(2)),
];
