//! `page_calls`: recorded calls, lawful, at fault, refused, and with no room.

use crate::tests::numbers;
use crate::{CAUSE_WORDS, CallsTold, Counts, page_calls};
use queue_calls::{Offered, Taken};

const NO_COUNTS: Counts = numbers!(Counts:
    calls 0, stored 0, taken 0, full 0, empty 0, nothing 0, told 0, surely_inside 0, perhaps_inside 0,
    overlapped 0, under_way 0);

// The result for a lawful recording with no calls.
const NO_CALLS: CallsTold = numbers!(CallsTold:
    outcome 0, number 0, line 0, against 0, words 0, cut 0, counts NO_COUNTS);

// The result for a text with this many slots of each kind, and the slots for text, which held 7s.
fn calls_with(text: &str, room: usize, word_room: usize) -> (CallsTold, [u8; CAUSE_WORDS]) {
    let blank = numbers!(Offered: item 7, offered_at 7, stored_at 7);
    let gone = numbers!(Taken: item 7, taken_at 7);
    let room = room.min(8);
    let mut offered = [blank; 8];
    let mut taken = [gone; 8];
    let mut numbers = [7; 8];
    let mut bytes = [7; 8];
    let mut words = [7; CAUSE_WORDS];
    let mut told = numbers!(CallsTold:
        outcome 9, number 9, line 9, against 9, words 9, cut 9, counts NO_COUNTS);
    page_calls(
        text.as_bytes(),
        &mut offered[..room],
        &mut taken[..room],
        &mut numbers[..room],
        &mut bytes[..room],
        &mut words[..word_room.min(CAUSE_WORDS)],
        &mut told,
    );
    (told, words)
}

// The result for a text that has no cause.
fn calls(text: &str, room: usize) -> CallsTold {
    let (told, _) = calls_with(text, room, CAUSE_WORDS);
    told
}

#[test]
fn a_lawful_recording_is_told_with_its_report(rt: HostRuntime) {
    let text =
        "queue 2\nC take\nP put 7 8\nC item 7\nP stored\nP put 9 10\nP stored 1\nP put 11\nP full\nC take 3\n\
        C item 8 9\nC take 3\nC empty\nP close\nP closed\nC take\nC closed\n";
    let told = CallsTold {
        counts: numbers!(Counts:
            calls 8, stored 3, taken 3, full 2, empty 1, nothing 0, told 1, surely_inside 2,
            perhaps_inside 2, overlapped 2, under_way 0),
        ..NO_CALLS
    };
    assert!(rt; calls(text, 8) == told);
    assert!(rt; calls(text, 3) == told);
    assert!(rt; calls("queue\n", 0).outcome == 0);
}

// A text, the line at fault, the one that contradicts it, and the text of the cause.
static CAUSES: [(&str, u64, u64, &str); 6] = [
    (
        "queue 8\nP put 12\nP stored\nC take\nC empty\n",
        5,
        3,
        "empty, but item 12 was inside since line 3",
    ),
    (
        "queue 8\nP put 1 2\nP stored\nC take\nC item 2\n",
        5,
        2,
        "item 2, but item 1 of line 2 is next",
    ),
    (
        "queue 2\nP put 1\nP stored\nP put 2\nP full\n",
        5,
        4,
        "full, but at most 1 inside since line 4",
    ),
    (
        "queue 8\nP close\nP closed\nP put 1\nP stored\n",
        5,
        3,
        "stored, but closed at line 3",
    ),
    (
        "queue 8\nC take\nC closed\n",
        3,
        0,
        "closed, but no close has begun",
    ),
    (
        "queue 8\nP put 18446744073709551615\nP stored\nC take\nC item 18446744073709551615\nP put 18446744073709551614\nC take\n\
        C item 18446744073709551615\n",
        8,
        5,
        "item 18446744073709551615 comes again, it was taken at line 5; item 18446744073709551614 of line 6 is next",
    ),
];

// The slots have this many of the first bytes of the words, and after them what they held.
fn are_words(slots: &[u8; CAUSE_WORDS], words: &str, count: usize) -> bool {
    let count = count.min(words.len()).min(CAUSE_WORDS);
    let (front, behind) = slots.split_at(count);
    front == &words.as_bytes()[..count] && behind.iter().all(|slot| *slot == 7)
}

#[test]
fn a_fault_of_a_recording_is_told_with_its_cause(rt: HostRuntime) {
    for (text, line, against, words) in CAUSES.iter() {
        for room in [CAUSE_WORDS, 20, 0] {
            let (told, slots) = calls_with(text, 8, room);
            let count = words.len().min(room);
            let wanted = numbers!(CallsTold:
                outcome 1, number 2, line *line, against *against, words count as u64; NO_CALLS);
            assert!(rt; told == wanted);
            assert!(rt; are_words(&slots, words, count));
        }
    }
}

#[test]
fn no_cause_has_no_words(rt: HostRuntime) {
    let out_of_turn = numbers!(CallsTold: outcome 1, number 1, line 3; NO_CALLS);
    let (told, slots) = calls_with("queue 8\nC take\nC take\n", 8, CAUSE_WORDS);
    assert!(rt; told == out_of_turn);
    assert!(rt; are_words(&slots, "", 0));
    let (_, slots) = calls_with("queue 8\nC take", 8, CAUSE_WORDS);
    assert!(rt; are_words(&slots, "", 0));
}

#[test]
fn no_recording_and_no_room_are_told(rt: HostRuntime) {
    let refused = |number, line| CallsTold {
        outcome: 2,
        number,
        line,
        ..NO_CALLS
    };
    assert!(rt; calls("", 8) == refused(1, 1));
    assert!(rt; calls("queue 8\nP put 01\n", 8) == refused(1, 2));
    assert!(rt; calls("queue 8\nC take", 8) == refused(1, 2));
    assert!(rt; calls("queue 8\nC take", 5) == refused(3, 0));
    assert!(rt; calls("queue 8\nP put 1 2 3\n", 2) == refused(3, 0));
}

#[test]
fn calls_that_do_not_say_why_not_more_are_told(rt: HostRuntime) {
    let text = "queue 0 8\nP put 5 6 7\nP some 2\nC take 3\nC some 5\nC take 3\nC some 6\n";
    let told = CallsTold {
        counts: numbers!(Counts:
            calls 3, stored 2, taken 2, surely_inside 2, perhaps_inside 3; NO_COUNTS),
        ..NO_CALLS
    };
    assert!(rt; calls(text, 8) == told);
    let (told, slots) = calls_with(
        "queue 8\nP put 1 2\nP some 1\nC take 2\nC some 2\n",
        8,
        CAUSE_WORDS,
    );
    assert_eq!(rt; (told.outcome, told.line, told.against), (1, 5, 2));
    assert!(rt;
        are_words(
            &slots,
            "item 2 was not inside; item 1 of line 2 is next",
            CAUSE_WORDS
        )
    );
}

// A recording whose first line says that later calls are missing, and the outcome, the number and the line that are returned.
static CUT: [(&str, u64, u64, u64); 4] = [
    ("cut queue 2\nP put 1\n", 0, 0, 0),
    ("cut queue\n", 0, 0, 0),
    ("cut queue 2\nC take\nC take\n", 1, 1, 3),
    ("cut queue 2\nC take\nC closed\n", 1, 2, 3),
];

#[test]
fn that_later_calls_are_missing_is_told(rt: HostRuntime) {
    for (text, outcome, number, line) in CUT.iter() {
        let told = calls(text, 8);
        assert!(rt; (told.outcome, told.number, told.line) == (*outcome, *number, *line));
        assert!(rt; told.cut == 1);
        // the same without the word `cut`
        let (_, whole) = text.split_at(4);
        assert!(rt; calls(whole, 8) == CallsTold { cut: 0, ..told });
    }
    let told = calls("cut queue 2\nP put 01\n", 8);
    assert_eq!(rt; (told.outcome, told.line, told.cut), (2, 2, 0));
    assert!(rt; calls("cut queue 2\nC take", 5).cut == 0);
}
