//! Runs of the program in which a call fails, with what they must write and how they must end.
use crate::tests::expects::{expect_of, expect_run_on, listed, run_in};
use crate::tests::fakes::{HaltingReader, HaltingWriter};
use bits_core::Verdict;
use refusing::Refusing;
use ring_audit::Finding;
use ring_player::Report;
use ring_program::{AppFault, audit_text, execute, load, report_text, verdict_text};
use std::alloc::{AllocGlobal, Allocator};
use std::io::ErrorKind;
use std::process::Abort;
use std::thread::Threads;
use std::time::Clock;
use trace_text::{TraceFault, read_trace};

// Refuses each growth in turn, until the body says that there was none to refuse.
macro_rules! each_growth {
    ($rt:expr, $most:literal, |$allocations:ident| $has_growth:expr) => {
        let mut is_whole = false;
        for $allocations in 0..$most {
            if !$has_growth {
                is_whole = true;
                break;
            }
        }
        assert!($rt; is_whole, "a growth was refused each time");
    };
}

/// A run on a reader that fails after this many reads ends with this status and these texts.
pub fn expect_read(
    rt: &(impl Abort + AllocGlobal + Threads + Clock),
    words: &[&str],
    mut input: HaltingReader<'_>,
    status: u8,
    out: &str,
    err: &str,
) {
    expect_run_on(rt, words, &mut input, status, out, err);
}

/// Each read of the input failing in turn, and none.
pub fn expect_failed_reads(
    rt: &(impl Abort + AllocGlobal + Threads + Clock),
    words: &[&str],
    bytes: &[u8],
    kind: ErrorKind,
    out: &str,
) {
    let reads = (bytes.len() as u64).saturating_add(1);
    for reads_before in 0..reads {
        let input = HaltingReader {
            bytes,
            reads_before,
            kind,
        };
        expect_read(rt, words, input, 1, "", "refused: input failed\n");
    }
    let input = HaltingReader {
        bytes,
        reads_before: reads,
        kind,
    };
    expect_read(rt, words, input, 0, out, "");
}

/// A run with this writer ends with the status, and has written this many bytes.
pub fn expect_written(
    rt: &(impl Abort + AllocGlobal + Threads + Clock),
    words: &[&str],
    bytes: &[u8],
    mut output: HaltingWriter,
    status: u8,
    taken: usize,
) {
    let mut input = bytes;
    let mut errors = Vec::new(rt.alloc());
    let exit = execute(rt, rt.alloc(), words, &mut input, &mut output, &mut errors);
    let err = if status == 1 {
        "refused: output failed\n"
    } else {
        ""
    };
    let is_told = exit.is_told && errors.as_slice() == err.as_bytes();
    expect_of(
        rt,
        exit.status == status && output.taken == taken && is_told,
        words,
    );
}

/// Each write of the output failing in turn, then none, and then the flush.
pub fn expect_failed_writes(
    rt: &(impl Abort + AllocGlobal + Threads + Clock),
    words: &[&str],
    bytes: &[u8],
    status: u8,
    length: usize,
) {
    for taken in 0..length {
        expect_written(
            rt,
            words,
            bytes,
            HaltingWriter::after(taken as u64),
            1,
            taken,
        );
    }
    let whole = HaltingWriter::after(length as u64);
    expect_written(rt, words, bytes, whole, status, length);
    expect_written(rt, words, bytes, HaltingWriter::unflushed(), 1, length);
}

/// A command line, an input, the status of a run on them, and the text for standard error.
pub(crate) type Unheard = (&'static [&'static str], &'static str, u8, &'static str);

/// A standard error that fails after this many writes changes no status, has a prefix of its text, and is reported as
/// written exactly when that was all.
pub fn expect_unheard(
    rt: &(impl Abort + AllocGlobal + Threads + Clock),
    writes_before: u64,
    rows: &[Unheard],
) {
    for (words, input, status, err) in rows {
        let mut bytes = input.as_bytes();
        let mut output = Vec::new(rt.alloc());
        let mut errors = HaltingWriter::after(writes_before);
        let exit = execute(rt, rt.alloc(), words, &mut bytes, &mut output, &mut errors);
        let told = err.len() as u64;
        let is_right = exit.is_told == (told <= writes_before)
            && errors.taken as u64 == told.min(writes_before);
        expect_of(rt, exit.status == *status && is_right, words);
    }
}

/// A standard error that takes every byte and fails at each flush is reported as not written if there was a refusal.
pub fn expect_unflushed(rt: &(impl Abort + AllocGlobal + Threads + Clock), row: &Unheard) {
    let (words, input, status, err) = row;
    let mut bytes = input.as_bytes();
    let mut output = Vec::new(rt.alloc());
    let mut errors = HaltingWriter::unflushed();
    let exit = execute(rt, rt.alloc(), words, &mut bytes, &mut output, &mut errors);
    let is_right = exit.status == *status && !exit.is_told && errors.taken == err.len();
    expect_of(rt, is_right, words);
}

/// A command line and an input, the status of a run on them, and how many growths it has at least.
pub(crate) type Growing = (&'static [&'static str], &'static str, u8, u64);

// A run without the growth after this many: whether there was one to refuse.
fn expect_growth(
    rt: &(impl Abort + AllocGlobal + Threads + Clock),
    row: &Growing,
    allocations: u64,
) -> bool {
    let (words, input, status, least) = row;
    let alloc = Refusing::after(rt.alloc(), allocations);
    let ended = run_in(rt, &alloc, words, &mut input.as_bytes());
    if !alloc.has_refused() {
        expect_of(rt, ended.status == *status && *least <= allocations, words);
        return false;
    }
    expect_of(rt, ended.is(1, "", "refused: out of memory\n"), words);
    true
}

/// Each growth of each run refused in turn, and none.
pub fn expect_refused_growths(rt: &(impl Abort + AllocGlobal + Threads + Clock), rows: &[Growing]) {
    for row in rows {
        each_growth!(rt, 100, |allocations| expect_growth(rt, row, allocations));
    }
}

// A run without the growth after this many: whether it was refused, and whether there was one to refuse.
fn expect_ended(
    rt: &(impl Abort + AllocGlobal + Threads + Clock),
    words: &[&str],
    script: &[u8],
    out: &str,
    allocations: u64,
) -> (bool, bool) {
    let alloc = Refusing::after(rt.alloc(), allocations);
    let mut input = script;
    let ended = run_in(rt, &alloc, words, &mut input);
    let is_refused = ended.status != 0;
    let is_right = if is_refused {
        ended.is(1, "", "refused: out of memory\n")
    } else {
        ended.is(0, out, "")
    };
    expect_of(rt, is_right, words);
    (is_refused, alloc.has_refused())
}

/// Each growth of a run refused in turn, and none: it is refused, or a vector makes do with a
/// smaller growth and the output is right. At least this many are refused.
pub fn expect_refused_or_right(
    rt: &(impl Abort + AllocGlobal + Threads + Clock),
    words: &[&str],
    script: &[u8],
    out: &str,
    least: u64,
) {
    let mut refused: u64 = 0;
    for allocations in 0..100 {
        let (is_refused, has_growth) = expect_ended(rt, words, script, out, allocations);
        if !has_growth {
            assert!(rt; !is_refused);
            assert!(rt; least <= refused);
            return;
        }
        refused = refused.saturating_add(u64::from(is_refused));
    }
    assert!(rt; false, "a growth was refused each time");
}

/// A command line, an input that is refused, and the text on standard error.
pub(crate) type Told = (&'static [&'static str], &'static str, &'static str);

// A run without the growth after this many: whether there was one to refuse. Standard error says that memory ran out,
// or why the input is refused.
fn expect_told(
    rt: &(impl Abort + AllocGlobal + Threads + Clock),
    row: &Told,
    allocations: u64,
) -> bool {
    let (words, input, err) = row;
    let alloc = Refusing::after(rt.alloc(), allocations);
    let ended = run_in(rt, &alloc, words, &mut input.as_bytes());
    let is_short = ended.is(1, "", "refused: out of memory\n") && alloc.has_refused();
    expect_of(rt, is_short || ended.is(1, "", err), words);
    alloc.has_refused()
}

/// Each growth of each run refused in turn, and none.
pub fn expect_told_at_each_growth(
    rt: &(impl Abort + AllocGlobal + Threads + Clock),
    rows: &[Told],
) {
    for row in rows {
        each_growth!(rt, 100, |allocations| expect_told(rt, row, allocations));
    }
}

// Whether there was a growth to refuse, if the one after this many is: it was refused in this way, otherwise none was.
fn expect_growth_refused<F: PartialEq + Copy, A: Allocator>(
    rt: &impl Abort,
    fault: Option<F>,
    short: F,
    alloc: &Refusing<A>,
    allocations: u64,
) -> bool {
    let is_right = if alloc.has_refused() {
        fault == Some(short)
    } else {
        fault.is_none() && 1 <= allocations
    };
    assert!(rt; is_right);
    alloc.has_refused()
}

/// `load`, each growth refused in turn, and none.
pub fn expect_refused_load(rt: &(impl Abort + AllocGlobal), bytes: &[u8]) {
    each_growth!(rt, 20, |allocations| {
        let alloc = Refusing::after(rt.alloc(), allocations);
        let mut input = bytes;
        let fault = load(&alloc, &mut input).err();
        expect_growth_refused(rt, fault, AppFault::OutOfMemory, &alloc, allocations)
    });
}

/// `read_trace`, each growth refused in turn, and none.
pub fn expect_refused_trace(rt: &(impl Abort + AllocGlobal), bytes: &[u8]) {
    each_growth!(rt, 20, |allocations| {
        let alloc = Refusing::after(rt.alloc(), allocations);
        let fault = read_trace(&alloc, bytes).err();
        expect_growth_refused(rt, fault, TraceFault::OutOfMemory, &alloc, allocations)
    });
}

/// `verdict_text`, each growth refused in turn, and none.
pub fn expect_refused_text(rt: &(impl Abort + AllocGlobal), verdict: &Verdict) {
    each_growth!(rt, 20, |allocations| {
        let alloc = Refusing::after(rt.alloc(), allocations);
        let fault = verdict_text(&alloc, verdict).err();
        expect_growth_refused(rt, fault, AppFault::OutOfMemory, &alloc, allocations)
    });
}

/// `audit_text`, each growth refused in turn, and none.
pub fn expect_refused_finding(rt: &(impl Abort + AllocGlobal), put: &[u64], taken: &[u64]) {
    let finding = Finding::Lawful {
        put: listed(rt, put),
        taken: listed(rt, taken),
        told: true,
    };
    each_growth!(rt, 20, |allocations| {
        let alloc = Refusing::after(rt.alloc(), allocations);
        let fault = audit_text(&alloc, &finding).err();
        expect_growth_refused(rt, fault, AppFault::OutOfMemory, &alloc, allocations)
    });
}

/// `report_text`, each growth refused in turn, and none.
pub fn expect_refused_report(rt: &(impl Abort + AllocGlobal), put: &[u64]) {
    let report = Report {
        history: Vec::new(rt.alloc()),
        put,
        taken: Vec::new(rt.alloc()),
        told: true,
        full: 0,
        empty: 0,
        flicker: 0,
    };
    each_growth!(rt, 20, |allocations| {
        let alloc = Refusing::after(rt.alloc(), allocations);
        let fault = report_text(&alloc, &report).err();
        expect_growth_refused(rt, fault, AppFault::OutOfMemory, &alloc, allocations)
    });
}
