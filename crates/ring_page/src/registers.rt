//! The audit of a recorded register.
ghost use Rattle.std.specs.Prelude.{◌≡◌, IfErr, IfOk};
ghost use Rattle.register_recordings.specs.Recordings.{RefusesRegisterText};
ghost use Rattle.ring_page.specs.Registers.{IsRegisterFindingIn, ReportsRegister, chain_told, class_told, miss_told, plain_miss, read_told, register_counts, told_of_register_finding, told_of_register_refusal};

use crate::marks::bit_number;
use lists::{Filled, Slots};
use register_calls::{Chain, Class, EarlierRead, MissReason, ReaderState, RegisterReport};
use register_recordings::{RegisterFinding, RegisterMiss, RegisterRecording, RegisterTextFault};

/// How many readers a register may have.
pub const READER_ROOM: usize = 64;

// How many bytes a line has at most.
const LINE_ROOM: usize = 64;

/// An earlier read that a reason reports; all is 0 if there is none.
#[repr(C)]
#[derive(Clone, Copy, Default, PartialEq, Eq, Debug)]
pub struct ReadTold {
    /// 1 if there is one.
    pub is_there: u64,
    /// Its reader, from 0.
    pub reader: u64,
    /// The place of the event with which it ended, from 0; that event is two lines further on, counted from 1.
    pub ended: u64,
    /// What it returned.
    pub value: u64,
    /// The place of the event with which the earliest write that it can be of began.
    pub written: u64,
}

/// The first read at which a class is missed, and why; all is 0 if the class is not missed.
#[repr(C)]
#[derive(Clone, Copy, Default, PartialEq, Eq, Debug)]
pub struct MissTold {
    /// The line that ends the read, from 1.
    pub line: u64,
    /// Its reader, from 0.
    pub reader: u64,
    /// What it returned.
    pub value: u64,
    /// Why: 1 not a value of the register, 2 the register held another value, 3 none of the writes that it may be of wrote the
    /// value, 4 earlier reads are of a later write.
    pub reason: u64,
    /// The value that the register held.
    pub held: u64,
    /// 1 if it held that since an event, whose place follows; otherwise since the start.
    pub is_since: u64,
    pub since: u64,
    /// The earlier reads, the first eight of them.
    pub first: ReadTold,
    pub second: ReadTold,
    pub third: ReadTold,
    pub fourth: ReadTold,
    pub fifth: ReadTold,
    pub sixth: ReadTold,
    pub seventh: ReadTold,
    pub eighth: ReadTold,
    /// 1 if there are more.
    pub is_cut: u64,
}

/// The numbers of the report on a history; all is 0 if none is judged.
#[repr(C)]
#[derive(Clone, Copy, Default, PartialEq, Eq, Debug)]
pub struct RegisterCounts {
    pub writes: u64,
    pub reads: u64,
    pub overlapped: u64,
    pub by_several: u64,
    pub could_invert: u64,
}

/// The finding on a text of a recorded register, as numbers; those that it does not use are 0.
#[repr(C)]
#[derive(Clone, Copy, Default, PartialEq, Eq, Debug)]
pub struct RegisterTold {
    /// 0 a history that is judged, 1 one with an event out of turn, 2 not a recording, or one for which there is no room.
    pub outcome: u64,
    /// If not a recording: 1 a bad line, 2 too many lines, 3 no room.
    pub number: u64,
    /// The line that is out of turn, or the bad one, from 1.
    pub line: u64,
    /// The strongest class of the history: 0 none, 1 safe, 2 regular, 3 atomic by reader, 4 atomic.
    pub class: u64,
    /// 1 if the first line says that later operations are missing.
    pub cut: u64,
    /// How much the history could have shown.
    pub counts: RegisterCounts,
    /// For each class the first read at which the history lacks it.
    pub safe: MissTold,
    pub regular: MissTold,
    pub by_reader: MissTold,
    pub atomic: MissTold,
}

fn class_number(class: Option<Class>) -> u64
    ensures { result ≡ class_told class }
{
    match class {
        None => 0,
        Some(Class::Safe) => 1,
        Some(Class::Regular) => 2,
        Some(Class::AtomicByReader) => 3,
        Some(Class::Atomic) => 4,
    }
}

fn counts_of(report: &RegisterReport) -> RegisterCounts
    ensures { result ≡ register_counts report.now }
{
    RegisterCounts {
        writes: report.writes as u64,
        reads: report.reads as u64,
        overlapped: report.overlapped as u64,
        by_several: report.by_several as u64,
        could_invert: report.could_invert as u64,
    }
}

fn read_told(read: Option<EarlierRead>) -> ReadTold
    ensures { result ≡ read_told read }
{
    match read {
        None => ReadTold::default(),
        Some(read) => ReadTold {
            is_there: 1,
            reader: read.reader as u64,
            ended: read.ended as u64,
            value: read.value,
            written: read.written as u64,
        },
    }
}

// A miss with this reason, without details.
fn plain_miss(miss: &RegisterMiss, reason: u64) -> MissTold
    ensures { result ≡ plain_miss miss.now reason }
{
    MissTold {
        line: miss.line,
        reader: miss.reader as u64,
        value: miss.value,
        reason,
        ..MissTold::default()
    }
}

// A miss that earlier reads contradict.
fn inverted(miss: &RegisterMiss, chain: &Chain) -> MissTold
    ensures { result ≡ chain_told miss.now chain.now }
{
    MissTold {
        first: read_told(chain.read(0)),
        second: read_told(chain.read(1)),
        third: read_told(chain.read(2)),
        fourth: read_told(chain.read(3)),
        fifth: read_told(chain.read(4)),
        sixth: read_told(chain.read(5)),
        seventh: read_told(chain.read(6)),
        eighth: read_told(chain.read(7)),
        is_cut: bit_number(chain.is_cut()),
        ..plain_miss(miss, 4)
    }
}

fn miss_told(miss: &Option<RegisterMiss>) -> MissTold
    ensures { result ≡ miss_told miss.now }
{
    let Some(miss) = miss else {
        return MissTold::default();
    };
    match miss.reason {
        MissReason::NoValue => plain_miss(miss, 1),
        MissReason::Held { value, since } => {
            let (is_since, place) = match since {
                None => (0, 0),
                Some(place) => (1, place as u64),
            };
            MissTold {
                held: value,
                is_since,
                since: place,
                ..plain_miss(miss, 2)
            }
        }
        MissReason::NotWritten => plain_miss(miss, 3),
        MissReason::Inverted(chain) => inverted(miss, &chain),
    }
}

// The finding, and whether later operations are missing, as numbers.
fn finding_told(finding: &RegisterFinding, is_cut: bool) -> RegisterTold
    ensures { result ≡ told_of_register_finding finding.now is_cut }
{
    match finding {
        RegisterFinding::Judged {
            class,
            misses,
            report,
        } => RegisterTold {
            class: class_number(*class),
            cut: bit_number(is_cut),
            counts: counts_of(report),
            safe: miss_told(&misses.safe),
            regular: miss_told(&misses.regular),
            by_reader: miss_told(&misses.by_reader),
            atomic: miss_told(&misses.atomic),
            ..RegisterTold::default()
        },
        RegisterFinding::OutOfTurn { line } => RegisterTold {
            outcome: 1,
            line: *line,
            cut: bit_number(is_cut),
            ..RegisterTold::default()
        },
    }
}

fn refusal_told(fault: RegisterTextFault) -> RegisterTold
    ensures { result ≡ told_of_register_refusal fault }
{
    let (number, line) = match fault {
        RegisterTextFault::BadLine(line) => (1, line),
        RegisterTextFault::TooLong => (2, 0),
        RegisterTextFault::OutOfMemory => (3, 0),
    };
    RegisterTold {
        outcome: 2,
        number,
        line,
        ..RegisterTold::default()
    }
}

// The finding on the text in slots for writes, and whether its first line says that later operations are missing.
fn found_in(
    text: &[u8],
    window: &mut [u64],
    places: &mut [usize],
) -> Result<(RegisterFinding, bool), RegisterTextFault>
    ensures found { IfOk result (λ x. IsRegisterFindingIn text.now x.0 x.1) }
    ensures refused { IfErr result (λ e. RefusesRegisterText e text.now) }
{
    let mut readers = [ReaderState::new(); READER_ROOM];
    let mut own = [Chain::new(); READER_ROOM];
    let mut low = [Chain::new(); READER_ROOM];
    let mut own_low = [Chain::new(); READER_ROOM];
    let mut line = [0; LINE_ROOM];
    let mut recording = RegisterRecording::within(
        Slots::new(window),
        Slots::new(&mut readers),
        Slots::new(places),
        Slots::new(&mut own),
        Slots::new(&mut low),
        Slots::new(&mut own_low),
        Filled::new(&mut line),
    )?;
    recording.read(text)?;
    let finding = recording.finding()?;
    Ok((finding, recording.is_cut()))
}

/// Returns what `audit --register` finds in the text of a recorded register: its strongest class; for each class that it lacks, the first
/// read at which it lacks the class, and why; and the report. Or it returns the event that is out of turn, or why the text is not a
/// recording. It takes no memory.
///
/// The slots are for writes: one more in each than a recording has writes is enough. It reports that there is no room for a recording with
/// more writes in use at a time than that, or with more than [`READER_ROOM`] readers. The contents of the slots before the call do not
/// matter, and after it they may hold anything.
#[unsafe(no_mangle)]
pub extern "C" fn page_register(
    text: &[u8],
    window: &mut [u64],
    places: &mut [usize],
    told: &mut RegisterTold,
)
    ensures { ReportsRegister text.now told.new }
{
    *told = match found_in(text, window, places) {
        Ok((finding, is_cut)) => finding_told(&finding, is_cut),
        Err(fault) => refusal_told(fault),
    };
}
