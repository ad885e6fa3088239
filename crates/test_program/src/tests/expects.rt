//! Runs of the program, with what they must write and how they must end.
use bits_core::{Kind, Verdict};
use ring_audit::Finding;
use ring_player::Report;
use ring_program::{
    AppFault, Refusal, audit_text, execute, relay_report, relay_text, report_text, verdict_text,
};
use ring_run::Outcome;
use std::alloc::{AllocGlobal, Allocator, Global};
use std::io::Read;
use std::process::Abort;
use std::thread::Threads;
use std::time::{Clock, Duration};

pub const BITS: &[&str] = &["lamport_ring", "audit", "--bits"];

pub const LONG: &[&str] = &["lamport_ring", "audit", "--bits", "--long"];

pub const AUDIT: &[&str] = &["lamport_ring", "audit"];

pub const AUDIT_CALLS: &[&str] = &["lamport_ring", "audit", "--calls"];

pub const STOP: &[&str] = &["lamport_ring", "audit", "--calls", "--stop"];

pub const PLAY: &[&str] = &["lamport_ring", "play"];

pub const TRACE: &[&str] = &["lamport_ring", "play", "--trace"];

pub const CALLS: &[&str] = &["lamport_ring", "play", "--calls"];

/// The result of a run: its status, whether everything for standard error was written, and the texts that it has written.
#[derive(Drop)]
pub(crate) struct Ended {
    pub status: u8,
    pub is_told: bool,
    pub out: Vec<u8>,
    pub err: Vec<u8>,
}

impl Ended {
    /// Whether it is this, with everything for standard error written.
    pub fn is(&self, status: u8, out: &str, err: &str) -> bool {
        let is_written = self.out.as_slice() == out.as_bytes()
            && self.err.as_slice() == err.as_bytes();
        self.status == status && self.is_told && is_written
    }
}

/// A run on the reader, whose allocations are of this allocator.
pub fn run_in<A: Allocator + Copy, R: Read>(
    rt: &(impl Abort + AllocGlobal + Threads + Clock),
    alloc: A,
    words: &[&str],
    input: &mut R,
) -> Ended {
    let mut out = Vec::new(rt.alloc());
    let mut err = Vec::new(rt.alloc());
    let exit = execute(rt, alloc, words, input, &mut out, &mut err);
    Ended {
        status: exit.status,
        is_told: exit.is_told,
        out,
        err,
    }
}

/// It holds for these words. (A message is expensive to prove, so this one serves all.)
pub fn expect_of(rt: &impl Abort, holds: bool, words: &[&str]) {
    assert!(rt; holds, "{words:?}");
}

/// A run on the reader ends with this status, and has written these texts.
pub fn expect_run_on<R: Read>(
    rt: &(impl Abort + AllocGlobal + Threads + Clock),
    words: &[&str],
    input: &mut R,
    status: u8,
    out: &str,
    err: &str,
) {
    let ended = run_in(rt, rt.alloc(), words, input);
    expect_of(rt, ended.is(status, out, err), words);
}

/// The words of a command line, separated by spaces.
pub fn words_of(rt: &(impl Abort + AllocGlobal), line: &'static str) -> Vec<&'static str> {
    let mut words = Vec::new(rt.alloc());
    for word in line.split(' ') {
        if words.push(word).is_err() {
            expect_of(rt, false, &[word]);
        }
    }
    words
}

/// Each run with these words and more has this status and these texts. It reads nothing.
pub fn expect_runs(
    rt: &(impl Abort + AllocGlobal + Threads + Clock),
    front: &'static str,
    rows: &[(&'static str, u8, &'static str, &'static str)],
) {
    for (more, status, out, err) in rows {
        let more = words_of(rt, more);
        expect_unread(rt, front, more.as_slice(), *status, out, err);
    }
}

/// A run with these words and more has this status and these texts. It reads nothing.
pub fn expect_unread(
    rt: &(impl Abort + AllocGlobal + Threads + Clock),
    front: &'static str,
    more: &[&'static str],
    status: u8,
    out: &str,
    err: &str,
) {
    let mut words = words_of(rt, front);
    words.extend_from_slice(more).expect(rt, "memory for words");
    let mut input = b"unread".as_slice();
    expect_run_on(rt, words.as_slice(), &mut input, status, out, err);
    assert!(rt; input == b"unread".as_slice());
}

/// The words of a run are wrong, with this complaint on standard error. It reads nothing.
pub fn expect_wrong(
    rt: &(impl Abort + AllocGlobal + Threads + Clock),
    front: &'static str,
    more: &'static str,
    complaint: &str,
) {
    let told = format!(in rt.alloc();
        "error: {complaint}\n\nFor more information, try '--help'.\n"
    );
    let text = told.expect(rt, "memory for the text");
    let words = words_of(rt, more);
    expect_unread(rt, front, words.as_slice(), 2, "", text.as_str());
}

/// Each run with these words and more is refused, with this text. It reads nothing.
pub fn expect_refused_runs(
    rt: &(impl Abort + AllocGlobal + Threads + Clock),
    front: &'static str,
    rows: &[(&'static str, &'static str)],
) {
    for (more, err) in rows {
        expect_runs(rt, front, &[(*more, 1, "", *err)]);
    }
}

/// The items in a list.
pub fn listed(rt: &(impl Abort + AllocGlobal), items: &[u64]) -> Vec<u64> {
    items.to_vec(rt.alloc()).expect(rt, "memory for the items")
}

fn expect_text(rt: &impl Abort, told: &str, text: &str) {
    assert!(rt; told == text, "{told}");
}

/// The text of a relay with this result.
pub fn expect_relay_text(
    rt: &(impl Abort + AllocGlobal),
    put: u64,
    taken: &[u64],
    closed: bool,
    text: &str,
) {
    let outcome = Outcome {
        put,
        calls: put,
        taken: listed(rt, taken),
        takes: taken.len() as u64,
        closed,
        full: 0,
        empty: 0,
    };
    let told = relay_text(rt.alloc(), &outcome);
    expect_text(rt, &told.expect(rt, "memory for the text"), text);
}

/// A relay with some resulting numbers, the time that it took, and the text of its report.
pub(crate) struct Reported {
    pub put: u64,
    pub calls: u64,
    pub full: u64,
    pub taken: &'static [u64],
    pub empty: u64,
    pub closed: bool,
    pub nanos: Option<u64>,
    pub text: &'static str,
}

/// The report of each of these relays has its text.
pub fn expect_relay_reports(rt: &(impl Abort + AllocGlobal), rows: &[Reported]) {
    for row in rows {
        let outcome = Outcome {
            put: row.put,
            calls: row.calls,
            taken: listed(rt, row.taken),
            takes: row.taken.len() as u64,
            closed: row.closed,
            full: row.full,
            empty: row.empty,
        };
        let told = relay_report(rt.alloc(), &outcome, row.nanos.map(Duration::from_nanos));
        expect_text(rt, &told.expect(rt, "memory for the text"), row.text);
    }
}

// After the word comes a space and a number, or `unknown` if allowed.
fn tells_number(line: &str, word: &str, may_be_unknown: bool) -> bool {
    match line.strip_prefix(word) {
        Some(" unknown") => may_be_unknown,
        Some(rest) => rest
            .strip_prefix(" ")
            .is_some_and(|digits| digits.parse::<u64>().is_ok()),
        None => false,
    }
}

/// The run has this status and this text in front, and after it a line with a number for each of these words.
pub fn expect_reported_runs(
    rt: &(impl Abort + AllocGlobal + Threads + Clock),
    rows: &[(&'static str, u8, &'static str, &'static [&'static str])],
) {
    for (line, status, front, counts) in rows {
        let words = words_of(rt, line);
        let ended = run_in(rt, rt.alloc(), words.as_slice(), &mut b"".as_slice());
        let text = text_in(rt, ended.out.as_slice());
        let has_counts = text
            .strip_prefix(*front)
            .is_some_and(|rest| tells(rest, counts));
        expect_of(rt, ended.status == *status && has_counts, words.as_slice());
    }
}

// Whether each line has its word and a number.
fn tells(text: &str, counts: &[&str]) -> bool {
    let mut lines = text.lines();
    for word in counts {
        let line = lines.next().unwrap_or("");
        if !tells_number(line, word, *word == "items a second") {
            return false;
        }
    }
    lines.next().is_none()
}

fn text_in<'a>(rt: &impl Abort, bytes: &'a [u8]) -> &'a str {
    std::str::from_utf8(bytes).expect(rt, "a text")
}

/// Each input has this status and this text on the output, with this command.
pub fn expect_verdicts(
    rt: &(impl Abort + AllocGlobal + Threads + Clock),
    words: &[&str],
    rows: &[(&'static str, u8, &'static str)],
) {
    for (input, status, out) in rows {
        let mut bytes = input.as_bytes();
        expect_run_on(rt, words, &mut bytes, *status, out, "");
    }
}

/// Each input has this text on the output, with these commands, with the status of a fault if it reports one.
pub fn expect_whys(
    rt: &(impl Abort + AllocGlobal + Threads + Clock),
    commands: &[&[&str]],
    rows: &[(&'static str, &'static str)],
) {
    for (input, out) in rows {
        let status = if out.starts_with("fault") { 3 } else { 0 };
        for words in commands {
            expect_run_on(rt, words, &mut input.as_bytes(), status, out, "");
        }
    }
}

/// Each input is refused by these commands, with this text.
pub fn expect_refusals(
    rt: &(impl Abort + AllocGlobal + Threads + Clock),
    commands: &[&[&str]],
    rows: &[(&'static [u8], &'static str)],
) {
    for (input, err) in rows {
        for words in commands {
            let mut bytes = *input;
            expect_run_on(rt, words, &mut bytes, 1, "", err);
        }
    }
}

/// Each script has this report and, if one is given, this trace.
pub fn expect_plays(
    rt: &(impl Abort + AllocGlobal + Threads + Clock),
    rows: &[(&'static str, &'static str, Option<&'static str>)],
) {
    for (script, report, trace) in rows {
        let mut bytes = script.as_bytes();
        expect_run_on(rt, PLAY, &mut bytes, 0, report, "");
        if let Some(trace) = trace {
            let mut bytes = script.as_bytes();
            expect_run_on(rt, TRACE, &mut bytes, 0, trace, "");
        }
    }
}

/// The calls of each script's play are these.
pub fn expect_calls(
    rt: &(impl Abort + AllocGlobal + Threads + Clock),
    rows: &[(&'static str, &'static str)],
) {
    for (script, calls) in rows {
        expect_run_on(rt, CALLS, &mut script.as_bytes(), 0, calls, "");
    }
}

/// The trace of each script is lawful, with this finding of the audit of programs.
pub fn expect_lawful_plays(
    rt: &(impl Abort + AllocGlobal + Threads + Clock),
    rows: &[(&'static str, &'static str)],
) {
    for (script, found) in rows {
        let play = run_in(rt, rt.alloc(), TRACE, &mut script.as_bytes());
        expect_of(rt, play.status == 0, TRACE);
        expect_run_on(rt, BITS, &mut play.out.as_slice(), 0, "lawful\n", "");
        expect_run_on(rt, AUDIT, &mut play.out.as_slice(), 0, found, "");
    }
}

/// The report of these items and numbers, of a history with no event, has this text.
pub fn expect_report(
    rt: &(impl Abort + AllocGlobal),
    put: &[u64],
    told: bool,
    counts: (u64, u64, u64),
    text: &str,
) {
    let report = Report {
        history: Vec::new(rt.alloc()),
        put,
        taken: listed(rt, put),
        told,
        full: counts.0,
        empty: counts.1,
        flicker: counts.2,
    };
    let told = report_text(rt.alloc(), &report);
    expect_text(rt, &told.expect(rt, "memory for the text"), text);
}

/// Each refusal has this text.
pub fn expect_refusal_words(rt: &(impl Abort + AllocGlobal), rows: &[(Refusal, &'static str)]) {
    for (refusal, words) in rows {
        expect_refusal_text(rt, refusal, words);
    }
}

fn expect_refusal_text(rt: &(impl Abort + AllocGlobal), refusal: &Refusal, words: &str) {
    let told = refusal.to_string(rt.alloc());
    expect_text(rt, &told.expect(rt, "memory for the words"), words);
}

/// Each command line has this status: with 0 there is a text on the output only, with 2 on standard
/// error only.
pub fn expect_statuses(
    rt: &(impl Abort + AllocGlobal + Threads + Clock),
    rows: &[(&'static str, u8)],
) {
    for (line, status) in rows {
        let words = words_of(rt, line);
        let ended = run_in(rt, rt.alloc(), words.as_slice(), &mut b"".as_slice());
        expect_of(rt, ended.status == *status, words.as_slice());
        expect_of(rt, ended.out.is_empty() == (*status == 2), words.as_slice());
        expect_of(rt, ended.err.is_empty() == (*status == 0), words.as_slice());
    }
}

/// Each command line ends with the status, and its one text has these pieces.
pub fn expect_words(
    rt: &(impl Abort + AllocGlobal + Threads + Clock),
    rows: &[(&'static str, u8, &'static [&'static str])],
) {
    for (line, status, pieces) in rows {
        let words = words_of(rt, line);
        let ended = run_in(rt, rt.alloc(), words.as_slice(), &mut b"".as_slice());
        expect_of(rt, ended.status == *status, words.as_slice());
        for piece in pieces.iter() {
            let is_there = if *status == 0 {
                text_in(rt, ended.out.as_slice()).contains(*piece)
            } else {
                text_in(rt, ended.err.as_slice()).contains(*piece)
            };
            expect_of(rt, is_there, &[line, piece]);
        }
    }
}

fn expect_verdict(rt: &(impl Abort + AllocGlobal), verdict: &Verdict, text: &str) {
    let told = verdict_text(rt.alloc(), verdict);
    expect_text(rt, &told.expect(rt, "memory for the text"), text);
}

/// Each fault has this text, and so has the lawful verdict.
pub fn expect_texts(rt: &(impl Abort + AllocGlobal), rows: &[(usize, Kind, &'static str)]) {
    for (place, kind, text) in rows {
        let verdict = Verdict::Fault {
            place: *place,
            kind: *kind,
        };
        expect_verdict(rt, &verdict, text);
    }
    expect_verdict(rt, &Verdict::Lawful, "lawful\n");
}

// What an audit found has this text.
fn expect_finding(rt: &(impl Abort + AllocGlobal), finding: &Finding<Global>, text: &str) {
    let told = audit_text(rt.alloc(), finding);
    expect_text(rt, &told.expect(rt, "memory for the text"), text);
}

/// A fault that an audit found has this text, and so have these lists.
pub fn expect_finding_texts(
    rt: &(impl Abort + AllocGlobal),
    fault: (usize, Kind, &str),
    lists: (&[u64], &[u64], bool, &str),
) {
    let (place, kind, text) = fault;
    expect_finding(rt, &Finding::Fault { place, kind }, text);
    let (put, taken, told, text) = lists;
    let finding = Finding::Lawful {
        put: listed(rt, put),
        taken: listed(rt, taken),
        told,
    };
    expect_finding(rt, &finding, text);
}

/// Each fault has this number and this text, even as a refusal.
pub fn expect_faults(rt: &(impl Abort + AllocGlobal), rows: &[(AppFault, u8, &'static str)]) {
    for (fault, number, words) in rows {
        assert!(rt; fault.number() == *number);
        let told = fault.to_string(rt.alloc());
        expect_text(rt, &told.expect(rt, "memory for the words"), words);
        expect_refusal_text(rt, &Refusal::App(*fault), words);
    }
}
