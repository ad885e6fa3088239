//! Recorded registers as a text: verdicts, reports, refused growths.

ghost use Rattle.std.specs.Prelude.{◌≤◌};

use refusing::Refusing;
use register_calls::{Chain, Class, ReaderState, RegisterReport};
use register_recordings::{
    Misses, RegisterFinding, RegisterMiss, RegisterRecording, RegisterTextFault,
};
use std::alloc::{AllocError, AllocGlobal, Allocator};
use std::collections::VecDeque;
use std::process::Abort;
use std::test::Fail;

type Recorded<A> = RegisterRecording<
    VecDeque<u64, A>,
    VecDeque<ReaderState, A>,
    VecDeque<usize, A>,
    VecDeque<Chain, A>,
    Vec<u8, A>,
>;

// The lines of the misses.
#[derive(Clone, Copy, PartialEq, Eq, Debug)]
struct MissLines {
    safe: Option<u64>,
    regular: Option<u64>,
    by_reader: Option<u64>,
    atomic: Option<u64>,
}

// The finding on a text: the strongest class, and the lines of the misses; or the line that is out of turn; or why it is refused.
#[derive(Clone, Copy, PartialEq, Eq, Debug)]
enum Found {
    Judged(Option<Class>, MissLines),
    OutOfTurn(u64),
    Refused(RegisterTextFault),
}

const NO_MISSES: MissLines = MissLines {
    safe: None,
    regular: None,
    by_reader: None,
    atomic: None,
};

macro_rules! judged {
    ($class:expr, $misses:expr) => {
        Found::Judged($class, $misses)
    };
}

macro_rules! missed {
    ($safe:expr, $regular:expr, $by_reader:expr, $atomic:expr) => {
        MissLines {
            safe: $safe,
            regular: $regular,
            by_reader: $by_reader,
            atomic: $atomic,
        }
    };
}

macro_rules! bad {
    ($line:literal) => {
        Found::Refused(RegisterTextFault::BadLine($line))
    };
}

fn new_recording<A: Allocator + Copy>(alloc: A) -> Result<Recorded<A>, AllocError> {
    RegisterRecording::within(
        VecDeque::new(alloc),
        VecDeque::new(alloc),
        VecDeque::new(alloc),
        VecDeque::new(alloc),
        VecDeque::new(alloc),
        VecDeque::new(alloc),
        Vec::new(alloc),
    )
}

// Texts, and the finding on each.
static TEXTS: &[(&str, Found)] = &[
    ("register 0\n", judged!(Some(Class::Atomic), NO_MISSES)),
    (
        "register 0 2\nW write 1\nR1 read\nR1 got 1\nW wrote\nR64 read\nR64 got 1\n",
        judged!(Some(Class::Atomic), NO_MISSES),
    ),
    (
        "cut register 3 4\nW write 0\nR2 read\n",
        judged!(Some(Class::Atomic), NO_MISSES),
    ),
    (
        "register 0\nW write 1\nR1 read\nR1 got 1\nR2 read\nR2 got 0\nW wrote\n",
        judged!(
            Some(Class::AtomicByReader),
            missed!(None, None, None, Some(6))
        ),
    ),
    (
        "register 0\nW write 1\nR1 read\nR1 got 1\nR1 read\nR1 got 0\n",
        judged!(Some(Class::Regular), missed!(None, None, Some(6), Some(6))),
    ),
    (
        "register 0\nW write 1\nR1 read\nR1 got 7\n",
        judged!(Some(Class::Safe), missed!(None, Some(4), Some(4), Some(4))),
    ),
    (
        "register 0 7\nW write 1\nR1 read\nR1 got 7\n",
        judged!(None, missed!(Some(4), Some(4), Some(4), Some(4))),
    ),
    (
        "register 5\nR1 read\nR1 got 4\nR1 read\nR1 got 3\n",
        judged!(None, missed!(Some(3), Some(3), Some(3), Some(3))),
    ),
    ("register 0\nW wrote\n", Found::OutOfTurn(2)),
    (
        "register 0\nR1 read\nW write 1\nR1 read\nR1 got 9\n",
        Found::OutOfTurn(4),
    ),
    ("", bad!(1)),
    ("register 0", bad!(1)),
    ("\n", bad!(1)),
    ("W wrote\n", bad!(1)),
    ("register 0\nregister 0\n", bad!(2)),
    ("register 0\ncut register 0\n", bad!(2)),
    ("register 0 2\nR1 read\nW write 2\n", bad!(3)),
    ("register 0\nR1 read\nR1 got 0", bad!(3)),
    ("register 0\nW wrote\nW writ 1\n", bad!(3)),
    ("register 0 2\nW wrote\nW write 3\n", bad!(3)),
    ("register 0\r\n", bad!(1)),
    (
        "register 0\nR1 got 0000000000000000000000000000000000000000000000000",
        bad!(2),
    ),
];

fn line_of(miss: &Option<RegisterMiss>) -> Option<u64> {
    match miss {
        Some(miss) => Some(miss.line),
        None => None,
    }
}

fn lines_of(misses: &Misses) -> MissLines {
    MissLines {
        safe: line_of(&misses.safe),
        regular: line_of(&misses.regular),
        by_reader: line_of(&misses.by_reader),
        atomic: line_of(&misses.atomic),
    }
}

// A recording that has read a text, in pieces of this many bytes.
fn read<A: Allocator + Copy>(
    alloc: A,
    text: &[u8],
    piece: usize,
) -> Result<Recorded<A>, RegisterTextFault>
    requires { 1 ≤ piece }
{
    let Ok(recording) = new_recording(alloc) else {
        return Err(RegisterTextFault::OutOfMemory);
    };
    let mut recording = recording;
    for part in text.chunks(piece) {
        match recording.read(part) {
            Ok(()) => {}
            Err(fault) => return Err(fault),
        }
    }
    Ok(recording)
}

// The finding on a text that is read in pieces of this many bytes.
fn found_in<A: Allocator + Copy>(alloc: A, text: &[u8], piece: usize) -> Found
    requires { 1 ≤ piece }
{
    let finding = match read(alloc, text, piece) {
        Ok(recording) => recording.finding(),
        Err(fault) => Err(fault),
    };
    match finding {
        Ok(RegisterFinding::Judged { class, misses, .. }) => {
            Found::Judged(class, lines_of(&misses))
        }
        Ok(RegisterFinding::OutOfTurn { line }) => Found::OutOfTurn(line),
        Err(fault) => Found::Refused(fault),
    }
}

fn is_found(rt: &HostRuntime, text: &str, wanted: Found) -> bool {
    found_in(rt.alloc(), text.as_bytes(), 1000) == wanted
        && found_in(rt.alloc(), text.as_bytes(), 1) == wanted
        && found_in(rt.alloc(), text.as_bytes(), 7) == wanted
}

#[test]
fn each_text_of_a_register_is_judged(rt: HostRuntime) -> Result<(), Fail> {
    for (text, wanted) in TEXTS {
        assert!(rt; is_found(&rt, text, *wanted), "{text}");
    }
    Ok(())
}

// A line that does not end is refused as soon as it is longer than any line.
#[test]
fn an_endless_line_is_not_kept(rt: HostRuntime) -> Result<(), Fail> {
    match new_recording(rt.alloc()) {
        Ok(recording) => {
            let mut recording = recording;
            assert!(rt; recording.read(b"register 0\nR1 got ") == Ok(()));
            assert!(rt; recording.read(&[b'1'; 47]) == Ok(()));
            assert!(rt; recording.read(b"1") == Err(RegisterTextFault::BadLine(2)));
            // the start of the bad line, to be shown
            assert!(rt;
                recording.line() == Some(b"R1 got 111111111111111111111111111111111111111111111111")
            );
        }
        Err(_) => assert!(rt; false),
    }
    Ok(())
}

const GROWS: &str =
    "register 0 2\nR1 read\nW write 1\nW wrote\nW write 0\nW wrote\nR9 read\nR9 got 0\nR1 got 1\n";

#[test]
fn each_growth_of_a_recorded_register_is_refused(rt: HostRuntime) -> Result<(), Fail> {
    for allocations in 0..20 {
        let alloc = Refusing::after(rt.alloc(), allocations);
        match found_in(&alloc, GROWS.as_bytes(), 5) {
            Found::Refused(RegisterTextFault::OutOfMemory) => {
                assert!(rt; alloc.has_refused());
            }
            Found::Judged(..) => assert!(rt; !alloc.has_refused() && 5 <= allocations),
            _ => assert!(rt; false),
        }
    }
    Ok(())
}

macro_rules! report {
    ($writes:literal, $reads:literal, $overlapped:literal, $by_several:literal, $could_invert:literal) => {
        RegisterReport {
            writes: $writes,
            reads: $reads,
            overlapped: $overlapped,
            by_several: $by_several,
            could_invert: $could_invert,
        }
    };
}

// Texts, each with how much its history could have shown.
static REPORTS: &[(&str, RegisterReport)] = &[
    ("register 0\n", report!(0, 0, 0, 0, 0)),
    // the write is under way at the end, and so is a read
    (
        "register 0\nW write 1\nR1 read\nR1 got 0\nR2 read\n",
        report!(1, 1, 1, 0, 0),
    ),
    // R1 has returned the value that is being written: R2 could return the older one
    (
        "register 0\nW write 1\nR1 read\nR1 got 1\nR2 read\nR2 got 1\nW wrote\n",
        report!(1, 2, 2, 0, 1),
    ),
    // the write has ended: no read can return an older one
    (
        "register 0\nW write 1\nR1 read\nR1 got 1\nW wrote\nR2 read\nR2 got 1\n",
        report!(1, 2, 1, 0, 0),
    ),
    // two writes overlap one read
    (
        "register 0\nR1 read\nW write 1\nW wrote\nW write 2\nR1 got 2\n",
        report!(2, 1, 1, 1, 0),
    ),
];

fn has_report(rt: &HostRuntime, text: &str, wanted: &RegisterReport) -> bool {
    match read(rt.alloc(), text.as_bytes(), 1000) {
        Ok(recording) => match recording.finding() {
            Ok(RegisterFinding::Judged { report, .. }) => report == *wanted,
            _ => false,
        },
        Err(_) => false,
    }
}

#[test]
fn each_history_says_what_it_could_have_shown(rt: HostRuntime) -> Result<(), Fail> {
    for (text, wanted) in REPORTS {
        assert!(rt; has_report(&rt, text, wanted), "{text}");
    }
    Ok(())
}

// Texts, a class, and whether their lines fall short of it.
const SHORT: &[(&str, Class, bool)] = &[
    ("", Class::Atomic, false),
    ("register 0", Class::Atomic, false),
    (
        "register 0\nW write 1\nR1 read\nR1 got 1\nR1 read\nR1 got 0",
        Class::Atomic,
        false,
    ),
    (
        "register 0\nW write 1\nR1 read\nR1 got 1\nR1 read\nR1 got 0\n",
        Class::Atomic,
        true,
    ),
    (
        "register 0\nW write 1\nR1 read\nR1 got 1\nR1 read\nR1 got 0\n",
        Class::AtomicByReader,
        true,
    ),
    (
        "register 0\nW write 1\nR1 read\nR1 got 1\nR1 read\nR1 got 0\n",
        Class::Regular,
        false,
    ),
    ("register 0\nR1 read\nR1 got 1\n", Class::Safe, true),
    ("register 0\nW wrote\nR1", Class::Safe, true),
];

fn falls_short(rt: &HostRuntime, text: &str, class: Class) -> Option<bool> {
    match read(rt.alloc(), text.as_bytes(), 9) {
        Ok(recording) => match recording.shortfall(class) {
            Some(finding) => Some(finding.falls_short(class)),
            None => Some(false),
        },
        Err(_) => None,
    }
}

#[test]
fn lines_fall_short_of_a_class(rt: HostRuntime) -> Result<(), Fail> {
    for (text, class, wanted) in SHORT {
        assert!(rt; falls_short(&rt, text, *class) == Some(*wanted), "{text}");
    }
    Ok(())
}
