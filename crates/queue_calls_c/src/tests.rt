//! The audit in process, by calls as C makes them: findings, words, slots that are too few.

use crate::states::{Audit, Calls};
use crate::{
    EventLine, HeardFound, JudgeFound, WordLine, ring_audit_begin, ring_audit_hear,
    ring_audit_layout, ring_audit_report, ring_register_judge,
};
use queue_calls::{CAUSE_WORDS, CallsReport, Offered, Taken};
use std::process::Abort;

// A row of numbers, each after its name.
macro_rules! numbers {
    ($kind:ident: $($name:ident $number:expr),*) => {
        $kind { $($name: $number),* }
    };
}

const NO_ENTRY: Offered = numbers!(Offered: item 7, offered_at 7, stored_at 7);

const NOT_TAKEN: Taken = numbers!(Taken: item 7, taken_at 7);

const NO_REPORT: CallsReport = numbers!(CallsReport:
    calls 0, stored 0, taken 0, full 0, empty 0, nothing 0, told false, surely_inside 0,
    perhaps_inside 0, overlapped 0, under_way 0);

const NO_CALLS: Calls = numbers!(Calls:
    full 0, most 0, offered 0, before_put 0, wanted 0, before_take 0, begun_items 0, put 0, begun 0,
    bounded false, again false, take false, ended false, shut false);

const NOTHING_FOUND: HeardFound = numbers!(HeardFound: line 0, against 0, words 0, verdict 0);

// An audit as C has it before it begins.
fn zeroed<'a>(offered: &'a mut [Offered], taken: &'a mut [Taken]) -> Audit<'a> {
    Audit {
        offered,
        taken,
        offered_first: 0,
        offered_used: 0,
        taken_first: 0,
        taken_used: 0,
        limit: 0,
        last_taken: numbers!(Taken: item 0, taken_at 0),
        line: 0,
        ended_at: 0,
        told_at: 0,
        put_at: 0,
        stored_at: 0,
        calls: NO_CALLS,
        report: NO_REPORT,
        has_ended: false,
        has_told: false,
        put_overlaps: false,
        take_overlaps: false,
    }
}

// The same, begun with these numbers.
fn begun<'a>(
    rt: &impl Abort,
    offered: &'a mut [Offered],
    taken: &'a mut [Taken],
    numbers: &[u64],
) -> Audit<'a> {
    let mut audit = zeroed(offered, taken);
    assert!(rt; ring_audit_begin(&mut audit, numbers));
    audit
}

const fn line(word: u32, count: u32) -> WordLine {
    WordLine { word, count }
}

const PUT: WordLine = WordLine { word: 0, count: 1 };

const CLOSE: WordLine = WordLine { word: 1, count: 0 };

const TAKE: WordLine = WordLine { word: 2, count: 0 };

const STORED: WordLine = WordLine { word: 3, count: 0 };

const FULL: WordLine = WordLine { word: 5, count: 0 };

const CLOSED: WordLine = WordLine { word: 8, count: 0 };

const ITEM: WordLine = WordLine { word: 9, count: 1 };

const EMPTY: WordLine = WordLine { word: 11, count: 0 };

const TOLD: WordLine = WordLine { word: 14, count: 0 };

// How many of the lines are heard, the finding on the next one, and its text.
fn heard(
    audit: &mut Audit<'_>,
    lines: &[WordLine],
    numbers: &[u64],
) -> (usize, HeardFound, [u8; CAUSE_WORDS]) {
    let mut words = [7; CAUSE_WORDS];
    let mut found = numbers!(HeardFound: line 9, against 9, words 9, verdict 9);
    let count = ring_audit_hear(audit, lines, numbers, &mut words, &mut found);
    (count, found, words)
}

#[test]
fn a_lawful_history_is_heard_in_several_calls(rt: HostRuntime) {
    let mut offered = [NO_ENTRY; 2];
    let mut taken = [NOT_TAKEN; 2];
    let mut audit = begun(&rt, &mut offered, &mut taken, &[1]);
    let (count, found, words) = heard(&mut audit, &[PUT, STORED, TAKE, ITEM], &[5, 5]);
    assert_eq!(rt; (count, found), (4, NOTHING_FOUND));
    assert!(rt; words == [7; CAUSE_WORDS]);
    for item in 6..9 {
        let (count, found, _) = heard(&mut audit, &[PUT], &[item]);
        assert_eq!(rt; (count, found), (1, NOTHING_FOUND));
        let (count, found, _) = heard(&mut audit, &[STORED, TAKE, ITEM], &[item]);
        assert_eq!(rt; (count, found), (3, NOTHING_FOUND));
    }
    let last = [
        PUT, STORED, PUT, FULL, CLOSE, CLOSED, TAKE, ITEM, TAKE, TOLD,
    ];
    let (count, found, _) = heard(&mut audit, &last, &[9, 10, 9]);
    assert_eq!(rt; (count, found), (10, NOTHING_FOUND));
    let mut report = NO_REPORT;
    assert!(rt; ring_audit_report(&mut audit, &mut report));
    assert_eq!(rt;
        report,
        numbers!(CallsReport:
            calls 13, stored 5, taken 5, full 1, empty 0, nothing 0, told true, surely_inside 1,
            perhaps_inside 1, overlapped 0, under_way 0)
    );
    assert_eq!(rt; audit.line, 27);
}

// The fault, its line and the one that contradicts it.
const fn fault(verdict: u32, line: u64, against: u64, words: u64) -> HeardFound {
    HeardFound {
        line,
        against,
        words,
        verdict,
    }
}

#[test]
fn a_fault_is_told_in_words_and_not_kept(rt: HostRuntime) {
    let mut offered = [NO_ENTRY; 2];
    let mut taken = [NOT_TAKEN; 2];
    let mut audit = begun(&rt, &mut offered, &mut taken, &[8]);
    let lines = [PUT, STORED, TAKE, EMPTY, TAKE];
    let text = "empty, but item 12 was inside since line 3";
    let (count, found, words) = heard(&mut audit, &lines, &[12]);
    assert_eq!(rt; (count, found), (3, fault(2, 5, 3, text.len() as u64)));
    assert!(rt; words.starts_with(text.as_bytes()));
    // the take is still under way
    let (count, found, _) = heard(&mut audit, &[TAKE], &[]);
    assert_eq!(rt; (count, found), (0, fault(1, 5, 0, 0)));
    let (count, found, _) = heard(&mut audit, &[ITEM, TAKE, EMPTY], &[12]);
    assert_eq!(rt; (count, found), (3, NOTHING_FOUND));
}

#[test]
fn the_words_are_cut_where_there_is_no_room(rt: HostRuntime) {
    let mut offered = [NO_ENTRY; 2];
    let mut audit = begun(&rt, &mut offered, &mut [], &[]);
    let mut words = [7; 5];
    let mut found = NOTHING_FOUND;
    let lines = [TAKE, ITEM];
    let count = ring_audit_hear(&mut audit, &lines, &[1], &mut words, &mut found);
    assert_eq!(rt; (count, found), (1, fault(2, 3, 0, 5)));
    assert!(rt; words == *b"item ");
}

#[test]
fn what_cannot_stand_there_is_refused(rt: HostRuntime) {
    let mut offered = [NO_ENTRY; 2];
    let mut taken = [NOT_TAKEN; 2];
    let mut audit = zeroed(&mut offered, &mut taken);
    assert!(rt; !ring_audit_begin(&mut audit, &[0]));
    assert!(rt; !ring_audit_begin(&mut audit, &[2, 1]));
    assert!(rt; !ring_audit_begin(&mut audit, &[1, 2, 3]));
    assert!(rt; ring_audit_begin(&mut audit, &[1, 2]));
    // a put of nothing, a first line, a word that does not exist, one number too many
    for bad in [line(0, 0), line(15, 0), line(17, 0), line(11, 1)] {
        let (count, found, _) = heard(&mut audit, &[bad, TAKE], &[1]);
        assert_eq!(rt; (count, found), (0, fault(3, 2, 0, 0)));
    }
    // numbers that do not exist are not heard
    let (count, found, _) = heard(&mut audit, &[line(0, 3)], &[4, 5]);
    assert_eq!(rt; (count, found), (1, NOTHING_FOUND));
    let (count, found, _) = heard(&mut audit, &[STORED, TAKE, line(9, 1)], &[4]);
    assert_eq!(rt; (count, found), (3, NOTHING_FOUND));
}

#[test]
fn an_item_comes_again_among_those_that_are_kept(rt: HostRuntime) {
    let again = "item 1 comes again, it was taken at line 5; none is next";
    let lost = "item 1 was not inside; none is next";
    for limit in 0..2 {
        let mut offered = [NO_ENTRY; 2];
        let mut taken = [NOT_TAKEN; 1];
        let mut audit = begun(&rt, &mut offered, &mut taken[..limit], &[]);
        let lines = [PUT, STORED, TAKE, ITEM, TAKE, ITEM];
        let (count, found, words) = heard(&mut audit, &lines, &[1, 1, 1]);
        let (text, against) = if limit == 1 { (again, 5) } else { (lost, 0) };
        assert_eq!(rt;
            (count, found),
            (5, fault(2, 7, against, text.len() as u64))
        );
        assert!(rt; words.starts_with(text.as_bytes()));
    }
}

#[test]
fn too_few_slots_are_told(rt: HostRuntime) {
    let mut offered = [NO_ENTRY; 1];
    let mut taken = [NOT_TAKEN; 1];
    let mut audit = begun(&rt, &mut offered, &mut taken, &[]);
    let (count, found, _) = heard(&mut audit, &[PUT, STORED, PUT], &[1, 2]);
    assert_eq!(rt; (count, found), (2, fault(4, 0, 0, 0)));
}

#[test]
fn a_state_of_another_is_refused_and_kept(rt: HostRuntime) {
    let mut offered = [NO_ENTRY; 3];
    let mut taken = [NOT_TAKEN; 2];
    let mut audit = zeroed(&mut offered, &mut taken);
    audit.taken_used = 3;
    let (count, found, words) = heard(&mut audit, &[TAKE], &[]);
    assert_eq!(rt; (count, found), (0, fault(6, 0, 0, 0)));
    assert!(rt; words == [7; CAUSE_WORDS]);
    assert_eq!(rt;
        (audit.offered.len(), audit.taken.len(), audit.taken_used),
        (3, 2, 3)
    );
    audit.taken_used = 0;
    audit.offered_first = 4;
    let mut report = NO_REPORT;
    assert!(rt; !ring_audit_report(&mut audit, &mut report));
    assert_eq!(rt; report, NO_REPORT);
    assert_eq!(rt;
        (audit.offered.len(), audit.taken.len(), audit.offered_first),
        (3, 2, 4)
    );
}

const fn event(kind: u32, reader: u32, value: u64) -> EventLine {
    EventLine {
        kind,
        reader,
        value,
    }
}

const WRITE: EventLine = numbers!(EventLine: kind 0, reader 0, value 1);

const WROTE: EventLine = numbers!(EventLine: kind 1, reader 0, value 0);

const READ: EventLine = numbers!(EventLine: kind 2, reader 1, value 0);

const GOT: EventLine = numbers!(EventLine: kind 3, reader 1, value 1);

// The finding on the history of a register, with this many slots for its writes.
fn judged(numbers: &[u64], lines: &[EventLine], slots: usize) -> JudgeFound {
    let mut window = [7; 4];
    let room = slots.min(window.len());
    let mut found = numbers!(JudgeFound:
        line 9, not_safe 9, not_regular 9, not_by_reader 9, not_atomic 9, class 9, verdict 9);
    ring_register_judge(numbers, lines, &mut window[..room], &mut found);
    found
}

const fn refused(verdict: u32, line: u64) -> JudgeFound {
    numbers!(JudgeFound:
        line line, not_safe 0, not_regular 0, not_by_reader 0, not_atomic 0, class 0, verdict verdict)
}

const ATOMIC: JudgeFound = numbers!(JudgeFound:
    line 0, not_safe 0, not_regular 0, not_by_reader 0, not_atomic 0, class 4, verdict 0);

#[test]
fn each_class_is_lost_with_its_line(rt: HostRuntime) {
    let second = event(2, 64, 0);
    let lines = [
        WRITE,
        READ,
        GOT,
        second,
        event(3, 64, 0),
        READ,
        event(3, 1, 0),
        second,
        event(3, 64, 2),
        WROTE,
        READ,
        event(3, 1, 0),
    ];
    let found = judged(&[0, 4], &lines, 2);
    let wanted = numbers!(JudgeFound:
        line 0, not_safe 13, not_regular 10, not_by_reader 8, not_atomic 6, class 0, verdict 0);
    assert_eq!(rt; found, wanted);
    assert_eq!(rt; judged(&[0, 4], &lines[..3], 2), ATOMIC);
    assert_eq!(rt; judged(&[0], &[], 1), ATOMIC);
}

#[test]
fn what_cannot_be_in_a_history_is_refused(rt: HostRuntime) {
    assert_eq!(rt; judged(&[], &[], 1), refused(2, 1));
    assert_eq!(rt; judged(&[1, 1], &[], 1), refused(2, 1));
    assert_eq!(rt; judged(&[0, 1, 2], &[], 1), refused(2, 1));
    for bad in [
        event(4, 1, 0),
        event(2, 0, 0),
        event(3, 65, 0),
        event(0, 0, 4),
    ] {
        assert_eq!(rt; judged(&[0, 4], &[READ, bad], 4), refused(2, 3));
    }
    for early in [READ, WROTE, event(3, 2, 0)] {
        assert_eq!(rt; judged(&[0], &[READ, early, WRITE], 4), refused(1, 3));
    }
}

#[test]
fn a_slot_is_needed_for_each_write_that_a_read_may_be_of(rt: HostRuntime) {
    let lines = [READ, WRITE, WROTE, WRITE, WROTE, GOT];
    assert_eq!(rt; judged(&[0], &lines, 3), ATOMIC);
    assert_eq!(rt; judged(&[0], &lines, 2), refused(3, 5));
    assert_eq!(rt; judged(&[0], &lines[1..5], 2), ATOMIC);
    assert_eq!(rt; judged(&[0], &[], 0), refused(3, 1));
}

#[test]
fn the_sizes_are_those_of_c(rt: HostRuntime) {
    let mut sizes = [7; 9];
    ring_audit_layout(&mut sizes);
    assert!(rt; sizes == [296, 24, 16, 8, 88, 32, 16, 48, 7]);
    let mut few = [7; 1];
    ring_audit_layout(&mut few);
    assert!(rt; few == [296]);
}
