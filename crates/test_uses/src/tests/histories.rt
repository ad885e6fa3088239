//! Uses of plays, of histories that are audited, and of recorded calls.
use bits_core::{Act, Bit, Event, Shape, Side};
use queue_calls::{
    CallsFinding, Event as Call, Filled, Lent, Lists, Offered, Reply, Slots, Taken, Word,
};
use ring_audit::audit;
use std::alloc::AllocGlobal;
use std::rt::HostRuntime;
use std::test::Fail;
use uses::audits::{is_lawful, is_of_ring};
use uses::calls::{first_at_fault, first_at_fault_in_slots};
use uses::findings::{found_in_slots, line_at_fault, sentence_of};
use uses::hearings::of_queue;
use uses::plays::takes_of;
use uses::{findings, plays};

const SCRIPT: &[u8] =
    br#"{"capacity":1, "modulus":3, "width":1, "items":[1], "takes":2, "close":true, "schedule":"C2P10C22", "oracle":""}"#;

// The same without the consumer's last steps.
const CUT: &[u8] =
    br#"{"capacity":1, "modulus":3, "width":1, "items":[1], "takes":2, "close":true, "schedule":"C2P10", "oracle":""}"#;

#[test]
fn a_script_is_played(rt: HostRuntime) -> Result<(), Fail> {
    assert_eq!(rt; takes_of(rt.alloc(), SCRIPT)?, (1, true));
    assert_eq!(rt; plays::left_inside(rt.alloc(), SCRIPT)?, (0, 0));
    assert_eq!(rt; plays::left_inside(rt.alloc(), CUT)?, (1, 0));
    Ok(())
}

// A producer that writes its count at once.
fn count_first() -> [Event; 4] {
    let event = |bit, act| Event {
        side: Side::P,
        bit,
        act,
    };
    [
        event(Bit::R(0), Act::ReadBegin),
        event(Bit::R(0), Act::ReadEnd(true)),
        event(Bit::S(1), Act::WriteBegin(true)),
        event(Bit::S(1), Act::WriteEnd),
    ]
}

#[test]
fn a_history_is_audited(rt: HostRuntime) -> Result<(), Fail> {
    let shape = Shape::new(1, 3, 1)?;
    let events = count_first();
    assert!(rt; is_lawful(&shape, &events));
    assert!(rt; !is_of_ring(rt.alloc(), &shape, &events)?);
    assert!(rt; is_of_ring(rt.alloc(), &shape, &events[..2])?);
    assert_eq!(rt; findings::left_inside(rt.alloc(), &shape, &events)?, None);
    assert_eq!(rt;
        findings::left_inside(rt.alloc(), &shape, &events[..2])?,
        Some(0)
    );
    Ok(())
}

#[test]
fn a_finding_is_told_in_words(rt: HostRuntime) -> Result<(), Fail> {
    let shape = Shape::new(1, 3, 1)?;
    let events = count_first();
    let fault = sentence_of(rt.alloc(), &audit(rt.alloc(), &shape, &events)?)?;
    assert_eq!(rt; fault.as_str(), "event 2 is at fault: not of the program");
    let lawful = sentence_of(rt.alloc(), &audit(rt.alloc(), &shape, &events[..2])?)?;
    assert_eq!(rt;
        lawful.as_str(),
        "a history of the ring: 0 put, 0 taken, open"
    );
    Ok(())
}

#[test]
fn calls_are_audited(rt: HostRuntime) -> Result<(), Fail> {
    let calls = [
        Call::PutBegins(&[5]),
        Call::PutEnds(Reply::Passed(1)),
        Call::TakeBegins(1),
        Call::TakeEnds(Reply::Lacked),
    ];
    assert_eq!(rt; first_at_fault(rt.alloc(), 8, &calls)?, Some(3));
    assert_eq!(rt; first_at_fault(rt.alloc(), 8, &calls[..3])?, None);
    assert_eq!(rt; first_at_fault_in_slots(&mut [0], 8, &calls)?, Some(3));
    Ok(())
}

#[test]
fn a_recording_is_read_in_slots(rt: HostRuntime) -> Result<(), Fail> {
    let text = b"queue 8\nP put 12\nP stored\nC take\nC item 12\n";
    let mut offered = [Offered {
        item: 0,
        offered_at: 0,
        stored_at: 0,
    }];
    let mut taken = [Taken {
        item: 0,
        taken_at: 0,
    }];
    let mut numbers = [0];
    let lists: Lists<Lent<'_>> = Lists {
        offered: Slots::new(&mut offered),
        taken: Slots::new(&mut taken),
        numbers: Filled::new(&mut numbers),
        bytes: Filled::new(&mut []),
    };
    assert!(rt; matches!(found_in_slots(lists, text), Ok(CallsFinding::Lawful(_))));
    Ok(())
}

#[test]
fn a_recording_is_read_in_pieces(rt: HostRuntime) -> Result<(), Fail> {
    let pieces: [&[u8]; 3] = [b"queue 8\nP put 12\nP sto", b"red\nC ta", b"ke\nC empty\n"];
    assert_eq!(rt; line_at_fault(rt.alloc(), &pieces)?, Some(5));
    let lawful: [&[u8]; 2] = [b"queue 8\nP put 12\nP stored\nC take\n", b"C item 12\n"];
    assert_eq!(rt; line_at_fault(rt.alloc(), &lawful)?, None);
    Ok(())
}

#[test]
fn a_hearing_is_told_line_by_line(rt: HostRuntime) {
    assert!(rt; of_queue(rt.alloc(), 0).is_none());
    let mut hearing = of_queue(rt.alloc(), 8).expect(&rt, "a queue of 8");
    assert!(rt; matches!(hearing.hear_line(2, Word::Put, &[12]), Ok(None)));
    assert!(rt; matches!(hearing.hear_line(3, Word::Stored, &[]), Ok(None)));
    assert!(rt; matches!(hearing.hear_line(4, Word::Take, &[]), Ok(None)));
    let fault = hearing.hear_line(5, Word::Empty, &[]);
    assert!(rt;
        matches!(
            fault,
            Ok(Some(CallsFinding::NotLinearizable { line: 5, .. }))
        )
    );
    // nothing of the line at fault is kept
    assert!(rt; matches!(hearing.hear_line(5, Word::Item, &[12]), Ok(None)));
}
