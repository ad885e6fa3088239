//! `page_audit` and `page_play`: traces and scripts, as the page passes them.

use crate::{
    ANSWER_ROOM, Asked, AuditTold, Due, EVENT_ROOM, Judged, Mark, Played, RUN_ROOM, page_audit,
    page_play,
};
use std::alloc::AllocGlobal;
use std::process::Abort;

// A row of numbers, each after its name; the others are those of another row.
macro_rules! numbers {
    ($kind:ident: $($name:ident $number:expr),*; $others:expr) => {
        $kind { $($name: $number,)* ..$others }
    };
    ($kind:ident: $($name:ident $number:expr),*) => {
        $kind { $($name: $number),* }
    };
}

pub(crate) use numbers;

pub const NO_MARK: Mark = numbers!(Mark:
    side 9, row 9, index 9, digit 9, act 9, value true, held true, overlapped true, clashes true);

const NO_DUE: Due = numbers!(Due: is_due 0, row 0, index 0, digit 0, act 0, value 0);

const UNJUDGED: Judged = numbers!(Judged:
    outcome 2, number 0, place 0, put 0, taken 0, told 0, may_close 0, may_scan 0, first NO_DUE,
    second NO_DUE, third NO_DUE);

// What is returned before anything is played.
const NOTHING_TOLD: AuditTold = numbers!(AuditTold:
    outcome 9, number 9, place 9, shape_fault 9, count 9, capacity 9, modulus 9, width 9, batch 9,
    take_batch 9, since 9, programs UNJUDGED);

// The result, with the first items put and taken.
fn audit_with_items(text: &str, marks: &mut [Mark]) -> (AuditTold, [u64; 4], [u64; 4]) {
    let mut told = NOTHING_TOLD;
    let mut put = [7; 4];
    let mut taken = [7; 4];
    page_audit(text.as_bytes(), marks, &mut put, &mut taken, &mut told);
    (told, put, taken)
}

fn audit(text: &str, marks: &mut [Mark]) -> AuditTold {
    let (told, _, _) = audit_with_items(text, marks);
    told
}

// The result of the audit of programs, with the first items put and taken.
fn judge(text: &str) -> (Judged, [u64; 4], [u64; 4]) {
    let (told, put, taken) = audit_with_items(text, &mut []);
    (told.programs, put, taken)
}

// It holds; otherwise the message says what fails for which text. (A message is expensive to prove, so this one serves all.)
fn expect(rt: &impl Abort, holds: bool, what: &str, text: &str) {
    assert!(rt; holds, "{what} of {text}");
}

// The numbers of a mark, and what it shows: held, overlapped, clashes.
type Row = ([u8; 5], bool, [bool; 3]);

fn row_of(mark: Mark) -> Row {
    (
        [mark.side, mark.row, mark.index, mark.digit, mark.act],
        mark.value,
        [mark.held, mark.overlapped, mark.clashes],
    )
}

fn expect_rows(rt: &impl Abort, marks: &[Mark], rows: &[Row]) {
    for (place, row) in rows.iter().enumerate() {
        if place < marks.len() {
            assert_eq!(rt; row_of(marks[place]), *row, "mark {place}");
        }
    }
}

const INVERSION: &str =
    "shape 1 3 1\nP write s0 0\nC read s0\nC got s0 0\nC read s0\nC got s0 1\nP wrote s0\nC read s0\nC got s0 0\n";

static INVERSION_ROWS: [Row; 8] = [
    ([0, 0, 0, 0, 2], false, [true, false, false]),
    ([1, 0, 0, 0, 0], false, [true, false, true]),
    ([1, 0, 0, 0, 1], false, [true, true, false]),
    ([1, 0, 0, 0, 0], false, [true, false, true]),
    ([1, 0, 0, 0, 1], true, [true, true, false]),
    ([0, 0, 0, 0, 3], false, [false, false, false]),
    ([1, 0, 0, 0, 0], false, [false, false, false]),
    ([1, 0, 0, 0, 1], false, [false, false, false]),
];

#[test]
fn a_lawful_trace_is_told_with_its_marks(rt: HostRuntime) {
    let mut marks = [NO_MARK; 9];
    let told = audit(INVERSION, &mut marks);
    assert_eq!(rt;
        told,
        numbers!(AuditTold:
            outcome 0, number 0, place 0, shape_fault 0, count 8, capacity 1, modulus 3, width 1,
            batch 1, take_batch 1, since 0, programs told.programs)
    );
    expect_rows(&rt, &marks, &INVERSION_ROWS);
    assert_eq!(rt; marks[8], NO_MARK);
}

#[test]
fn as_many_marks_are_told_as_there_is_room_for(rt: HostRuntime) {
    let mut marks = [NO_MARK; 3];
    assert_eq!(rt; audit(INVERSION, &mut marks).count, 8);
    expect_rows(&rt, &marks, &INVERSION_ROWS);
}

#[test]
fn marks_show_nothing_from_the_fault_on(rt: HostRuntime) {
    let mut marks = [NO_MARK; 4];
    let told = audit(
        "shape 2 7 3 2\nP write c1.2 1\nC read c1.2\nP wrote c1.2\nP wrote c1.2\n",
        &mut marks,
    );
    assert_eq!(rt;
        told,
        numbers!(AuditTold:
            outcome 1, number 2, place 3, shape_fault 0, count 4, capacity 2, modulus 7, width 3,
            batch 2, take_batch 1, since 0, programs told.programs)
    );
    expect_rows(
        &rt,
        &marks,
        &[
            ([0, 3, 1, 2, 2], true, [false, false, false]),
            ([1, 3, 1, 2, 0], false, [false, false, true]),
            ([0, 3, 1, 2, 3], false, [true, false, false]),
            ([0, 3, 1, 2, 3], false, [false, false, false]),
        ],
    );
}

const PUT: &str = "shape 1 3 1\nP read r0\nP got r0 1\nP write c0.0 1\nP wrote c0.0\n";

#[test]
fn what_the_programs_have_done_is_told(rt: HostRuntime) {
    let (judged, put, _) = judge(PUT);
    assert_eq!(rt; judged, numbers!(Judged: outcome 0, may_scan 1; UNJUDGED));
    assert_eq!(rt; put[0], 1);
    let (judged, _, _) = judge("shape 1 3 1\nP read r0\nP got r0 1\n");
    assert_eq!(rt;
        [judged.outcome, judged.may_close, judged.may_scan],
        [0, 0, 1]
    );
    let (judged, _, _) = judge("shape 1 3 1\nC read s0\nC got s0 1\n");
    assert_eq!(rt;
        [judged.outcome, judged.may_close, judged.may_scan],
        [0, 1, 0]
    );
}

#[test]
fn what_was_due_is_told(rt: HostRuntime) {
    // the count before the cell
    let (judged, _, _) = judge("shape 1 3 1\nP read r0\nP got r0 1\nP write s1 1\n");
    let cell = numbers!(Due: is_due 1, row 3, act 2; NO_DUE);
    let mut dues = [judged.first, judged.second, judged.third];
    if dues[0].value == 1 {
        dues = [dues[1], dues[0], dues[2]];
    }
    assert_eq!(rt; [judged.outcome, judged.number, judged.place], [1, 4, 2]);
    assert_eq!(rt; dues, [cell, Due { value: 1, ..cell }, NO_DUE]);
    // none is returned for a fault of the bits
    let (judged, _, _) = judge("shape 1 3 1\nC write s0 1\n");
    assert_eq!(rt; judged, numbers!(Judged: outcome 1, number 1; UNJUDGED));
}

#[test]
fn since_when_a_bit_holds_its_value_is_told(rt: HostRuntime) {
    let mut marks = [NO_MARK; 1];
    let told = audit("shape 1 3 1\nC read s0\nC got s0 0\n", &mut marks);
    assert_eq!(rt; [told.number, told.place, told.since], [3, 1, 0]);
    let text = "shape 1 3 1\nP write s0 0\nP wrote s0\nP write s1 1\nC read s0\nC got s0 1\n";
    let told = audit(text, &mut marks);
    assert_eq!(rt; [told.number, told.place, told.since], [3, 4, 2]);
}

// Two items put, and slots for one.
#[test]
fn too_few_slots_are_told(rt: HostRuntime) {
    let mut told = NOTHING_TOLD;
    let mut taken = [7; 4];
    page_audit(PUT.as_bytes(), &mut [], &mut [], &mut taken, &mut told);
    assert_eq!(rt; (told.outcome, told.programs), (0, UNJUDGED));
}

// A text that is not a trace, with the number of its fault, its place, and the number of the shape's fault.
type Refusal<'a> = (&'a str, [u64; 3]);

static REFUSALS: [Refusal<'static>; 7] = [
    ("", [2, 1, 0]),
    ("shape 1 3 1\nP write s3 0\n", [2, 2, 0]),
    ("shape 0 3 1\n", [1, 0, 1]),
    ("shape 1 2 1\n", [1, 0, 2]),
    ("shape 1 3 65\n", [1, 0, 3]),
    ("shape 3 7 1 1 4\n", [1, 0, 5]),
    ("shape 3 6 1 1 3\n", [1, 0, 6]),
];

#[test]
fn a_text_that_is_no_trace_is_refused(rt: HostRuntime) {
    for (text, numbers) in REFUSALS.iter() {
        let mut marks = [NO_MARK; 1];
        let told = audit(text, &mut marks);
        let found = [told.number, told.place, told.shape_fault];
        expect(&rt, found == *numbers, "numbers", text);
        let found = [told.outcome, told.count, told.batch];
        expect(&rt, found == [2, 0, 0], "outcome", text);
    }
}

// The consumer reads r2 in a row, started this many times. (A `?` is expensive to prove, so if memory is lacking the test ends here.)
fn reads(rt: &(impl Abort + AllocGlobal), begun: usize) -> String {
    let made = String::from_str(rt.alloc(), "shape 1 3 1\n");
    let mut text = made.expect(rt, "memory for the text");
    for place in 0..begun {
        let line = if place % 2 == 0 {
            "P read r2\n"
        } else {
            "P got r2 0\n"
        };
        text.push_str(line).expect(rt, "memory for the text");
    }
    text
}

#[test]
fn a_trace_of_more_events_than_there_is_room_for_is_refused(rt: HostRuntime) {
    let mut marks = [NO_MARK; 1];
    let most = reads(&rt, EVENT_ROOM);
    let told = audit(most.as_str(), &mut marks);
    assert_eq!(rt; (told.outcome, told.count), (0, 10_000));
    let more = reads(&rt, EVENT_ROOM + 1);
    let told = audit(more.as_str(), &mut marks);
    assert_eq!(rt; (told.outcome, told.number, told.count), (2, 4, 0));
}

// As many events as there is room for, then something that is not a line; and one more event before it.
#[test]
fn a_fault_is_told_where_it_comes_before_the_room_ends(rt: HostRuntime) {
    let mut marks = [NO_MARK; 1];
    for (begun, number, place) in [(EVENT_ROOM, 2, 10_002), (EVENT_ROOM + 1, 4, 0)] {
        let mut text = reads(&rt, begun);
        text.push_str("no event\n")
            .expect(&rt, "memory for the text");
        let told = audit(text.as_str(), &mut marks);
        assert_eq!(rt; (told.outcome, told.number, told.place), (2, number, place));
    }
}

// Two items of three digits through two cells, one put after the other, and a close; three takes.
const ASKED: Asked = numbers!(Asked:
    capacity 2, modulus 4, width 3, batch 1, take_batch 1, takes 3, closes 1, letters 1_000);

const NOTHING_PLAYED: Played = numbers!(Played:
    outcome 9, number 9, place 9, shape_fault 9, count 9, put 9, taken 9, told 9, full 9, empty 9,
    flickers 9, all_letters 9);

// The play of the script with these items and this schedule, in room for three items in each list.
fn play(
    asked: &Asked,
    items: &[u64],
    schedule: &str,
    oracle: &str,
) -> (Played, [u64; 3], [u64; 3]) {
    let mut played = NOTHING_PLAYED;
    let mut marks = [NO_MARK; 2];
    let mut put = [7; 3];
    let mut taken = [7; 3];
    page_play(
        asked,
        items,
        schedule.as_bytes(),
        oracle.as_bytes(),
        &mut marks,
        &mut put,
        &mut taken,
        &mut played,
    );
    (played, put, taken)
}

#[test]
fn a_play_is_told(rt: HostRuntime) {
    let (played, put, taken) = play(&ASKED, &[5, 2], "P100C100", "");
    assert_eq!(rt; (put, taken), ([5, 2, 7], [5, 2, 7]));
    assert_eq!(rt;
        [played.outcome, played.put, played.taken, played.told],
        [0, 2, 2, 1]
    );
    assert_eq!(rt; [played.full, played.empty, played.flickers], [0, 0, 0]);
    assert_eq!(rt; played.all_letters, 200);
}

#[test]
fn the_first_letters_are_played(rt: HostRuntime) {
    let none = numbers!(Asked: letters 0; ASKED);
    let (played, put, taken) = play(&none, &[5, 2], "P100C100", "");
    assert_eq!(rt; (played.count, played.put, played.taken), (0, 0, 0));
    assert_eq!(rt; (put, taken), ([7; 3], [7; 3]));
    let eleven = numbers!(Asked: letters 11; ASKED);
    let (played, put, _) = play(&eleven, &[5, 2], "P100C100", "");
    assert_eq!(rt; (played.count, played.put, put), (11, 1, [5, 7, 7]));
    assert_eq!(rt; (played.told, played.all_letters), (0, 200));
}

#[test]
fn an_empty_ring_and_a_full_one_are_told(rt: HostRuntime) {
    let narrow = numbers!(Asked: capacity 1, modulus 3; ASKED);
    let (played, _, taken) = play(&narrow, &[5, 2], "C4P20P4C200P200C200", "");
    assert_eq!(rt;
        (played.full > 0, played.empty > 0, played.told),
        (true, true, 1)
    );
    assert_eq!(rt; (taken, played.taken), ([5, 2, 7], 2));
}

// Puts into a full ring, as many events as there is room for, and one more.
#[test]
fn a_play_fills_the_room_for_events(rt: HostRuntime) {
    let most = numbers!(Asked: capacity 1, modulus 3, letters 10_000; ASKED);
    let (played, _, _) = play(&most, &[5, 2], "P10001", "");
    assert_eq!(rt; [played.outcome, played.count, played.put], [0, 10_000, 1]);
    let more = numbers!(Asked: letters 10_001; most);
    let (played, _, _) = play(&more, &[5, 2], "P10001", "");
    assert_eq!(rt; [played.outcome, played.number, played.count], [2, 12, 0]);
}

#[test]
fn an_overlapped_read_has_the_oracles_answer(rt: HostRuntime) {
    // s0 is being written while the consumer reads it twice: with the answers 0 and 1 the first scan continues to s1.
    let (played, _, taken) = play(&ASKED, &[5, 2], "P11C2P1C20", "0");
    assert_eq!(rt; (played.flickers, played.taken, taken), (1, 1, [5, 7, 7]));
    let (played, _, taken) = play(&ASKED, &[5, 2], "P11C2P1C20", "1");
    assert_eq!(rt; (played.flickers, played.empty, taken), (1, 1, [5, 7, 7]));
}

// What is not a script: the items, the schedule, the oracle; the numbers of the fault and of its place.
type Stray<'a> = (&'a [u64], &'a str, &'a str, [u64; 2]);

static STRAYS: [Stray<'static>; 4] = [
    (&[1, 8], "PC", "", [8, 1]),
    (&[1], "PCx", "", [9, 2]),
    (&[1], "P1000001", "", [10, 0]),
    (&[1], "PC", "012", [11, 2]),
];

#[test]
fn what_is_no_script_is_refused(rt: HostRuntime) {
    for (items, schedule, oracle, numbers) in STRAYS.iter() {
        let (played, put, taken) = play(&ASKED, items, schedule, oracle);
        let found = [played.number, played.place];
        expect(&rt, found == *numbers, "numbers", schedule);
        let found = [played.outcome, played.count];
        expect(&rt, found == [2, 0], "outcome", schedule);
        let found = [put, taken];
        expect(&rt, found == [[7; 3]; 2], "items", schedule);
    }
    let flat = Asked { width: 0, ..ASKED };
    let (played, _, _) = play(&flat, &[1], "PC", "");
    assert_eq!(rt;
        [played.outcome, played.number, played.shape_fault],
        [2, 6, 3]
    );
}

// A text of this many parts.
fn repeated(rt: &(impl Abort + AllocGlobal), part: &str, count: usize) -> String {
    let made = String::from_str(rt.alloc(), "");
    let mut text = made.expect(rt, "memory for the text");
    for _ in 0..count {
        text.push_str(part).expect(rt, "memory for the text");
    }
    text
}

#[test]
fn a_script_of_more_than_there_is_room_for_is_refused(rt: HostRuntime) {
    let runs = repeated(&rt, "P", RUN_ROOM);
    let (played, _, _) = play(&ASKED, &[1], runs.as_str(), "");
    assert_eq!(rt; (played.outcome, played.all_letters), (0, 1_000));
    let runs = repeated(&rt, "P", RUN_ROOM + 1);
    let (played, _, _) = play(&ASKED, &[1], runs.as_str(), "");
    assert_eq!(rt; (played.outcome, played.number), (2, 12));
    let answers = repeated(&rt, "0", ANSWER_ROOM + 1);
    let (played, _, _) = play(&ASKED, &[1], "PC", answers.as_str());
    assert_eq!(rt; (played.outcome, played.number), (2, 12));
}
