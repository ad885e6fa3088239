//! The auditor of calls over slots, and with too few of them.

use crate::tests::recordings::{ITEM_1_NOT_INSIDE, LAWFUL, NOT_PUT, REFUSED, TEXT};
use queue_calls::{
    CallAuditor, CallsFinding, Event, Fault, Filled, Lent, Lists, Offered, RecordingFault,
    RecordingIn, Reply, Slots, Taken, exactly,
};
use std::process::Abort;
use std::test::Fail;

// Events, over two slots, and the result of each: if there is no slot, the auditor is unchanged.
static FED: [(Event<'static>, Result<(), Fault>); 11] = [
    (Event::PutBegins(&[1, 2, 3]), Err(Fault::OutOfMemory)),
    (Event::PutBegins(&[1, 2]), Ok(())),
    (Event::PutEnds(Reply::Passed(2)), Ok(())),
    (Event::PutBegins(&[3]), Err(Fault::OutOfMemory)),
    (Event::TakeBegins(1), Ok(())),
    (Event::TakeEnds(Reply::Passed(&[1])), Ok(())),
    (Event::PutBegins(&[3]), Ok(())),
    (Event::PutEnds(Reply::Passed(1)), Ok(())),
    (Event::TakeBegins(2), Ok(())),
    (
        Event::TakeEnds(Reply::Passed(&[2, 4])),
        Err(Fault::NotLinearizable),
    ),
    (Event::TakeEnds(Reply::Passed(&[2, 3])), Ok(())),
];

#[test]
fn too_few_slots_leave_the_auditor(rt: HostRuntime) -> Result<(), Fail> {
    let mut slots = [0; 2];
    let mut auditor = CallAuditor::with(Slots::new(&mut slots), exactly(4));
    for (event, answer) in FED.iter() {
        assert!(rt; auditor.feed(*event) == *answer);
    }
    Ok(())
}

#[test]
fn many_items_go_round_the_slots(rt: HostRuntime) -> Result<(), Fail> {
    let mut slots = [0; 3];
    let mut auditor = CallAuditor::with(Slots::new(&mut slots), exactly(3));
    for turn in 0..40 {
        let items = [turn, turn + 100, turn + 200];
        for event in [
            Event::PutBegins(&items[..2]),
            Event::PutEnds(Reply::Passed(2)),
            Event::TakeBegins(1),
            Event::TakeEnds(Reply::Passed(&items[..1])),
            Event::PutBegins(&items[2..]),
            Event::PutEnds(Reply::Passed(1)),
            Event::TakeBegins(2),
            Event::TakeEnds(Reply::Passed(&items[1..])),
        ] {
            assert!(rt; auditor.feed(event) == Ok(()));
        }
    }
    Ok(())
}

// How many slots there are of each kind.
#[derive(Clone, Copy)]
struct Room {
    offered: usize,
    taken: usize,
    numbers: usize,
    bytes: usize,
}

// Exactly enough for the text: 2 items inside and 2 of a put, 3 taken, a line of 2 numbers, and one of 10 bytes that is cut.
const ENOUGH: Room = Room {
    offered: 3,
    taken: 3,
    numbers: 2,
    bytes: 10,
};

// The finding on a text that comes in pieces of this many bytes, with this many slots.
fn found(text: &[u8], size: usize, room: Room) -> Result<CallsFinding, RecordingFault> {
    let blank = Offered {
        item: 9,
        offered_at: 9,
        stored_at: 9,
    };
    let gone = Taken {
        item: 9,
        taken_at: 9,
    };
    let mut offered = [blank; 8];
    let mut taken = [gone; 8];
    let mut numbers = [9; 8];
    let mut bytes = [9; 40];
    let lists: Lists<Lent<'_>> = Lists {
        offered: Slots::new(&mut offered[..room.offered.min(8)]),
        taken: Slots::new(&mut taken[..room.taken.min(8)]),
        numbers: Filled::new(&mut numbers[..room.numbers.min(8)]),
        bytes: Filled::new(&mut bytes[..room.bytes.min(40)]),
    };
    let mut recording = RecordingIn::within(lists);
    for piece in text.chunks(size.max(1)) {
        recording.read(piece)?;
    }
    recording.finding()
}

#[test]
fn a_text_is_read_in_slots(rt: HostRuntime) -> Result<(), Fail> {
    for size in 1..=TEXT.len() {
        assert!(rt; found(TEXT, size, ENOUGH) == Ok(LAWFUL));
    }
    assert!(rt; found(NOT_PUT, 9, ENOUGH) == Ok(ITEM_1_NOT_INSIDE));
    Ok(())
}

#[test]
fn other_texts_are_refused_in_slots(rt: HostRuntime) -> Result<(), Fail> {
    let room = Room {
        numbers: 8,
        bytes: 40,
        ..ENOUGH
    };
    for (text, line) in REFUSED.iter() {
        let refused = Err(RecordingFault::BadLine(*line));
        assert!(rt; found(text, 1, room) == refused);
        assert!(rt; found(text, 40, room) == refused);
    }
    Ok(())
}

#[test]
fn one_slot_too_few_is_want_of_memory(rt: HostRuntime) -> Result<(), Fail> {
    let rooms = [
        Room {
            offered: 2,
            ..ENOUGH
        },
        Room { taken: 2, ..ENOUGH },
        Room {
            numbers: 1,
            ..ENOUGH
        },
        Room { bytes: 9, ..ENOUGH },
    ];
    for room in rooms {
        assert!(rt; found(TEXT, 1, room) == Err(RecordingFault::OutOfMemory));
    }
    Ok(())
}
