//! The audit of recorded calls.
ghost use Rattle.std.specs.Prelude.{◌≡◌, IfErr, IfOk, length};
ghost use Rattle.queue_calls.specs.Recordings.{RefusesText};
ghost use Rattle.queue_calls.specs.Rooms.{AreTooShort};
ghost use Rattle.queue_calls.specs.declared.faults.RecordingFault.TheVariants.{OutOfMemory};
ghost use Rattle.ring_page.specs.Calls.{HasShortWords, IsFindingIn, TellsRecording, slots_for, counts_of, told_of_finding, told_of_refusal, words_told};

use crate::marks::bit_number;
use queue_calls::{
    CallsFinding, CallsReport, Filled, Lent, Lists, Offered, RecordingFault, RecordingIn, Slots,
    Taken, write_cause,
};

/// The numbers of the report on a lawful recording; otherwise all 0.
#[repr(C)]
#[derive(Clone, Copy, Default, PartialEq, Eq, Debug)]
pub struct Counts {
    pub calls: u64,
    pub stored: u64,
    pub taken: u64,
    pub full: u64,
    pub empty: u64,
    pub nothing: u64,
    /// 1 if a take returned Closed.
    pub told: u64,
    pub surely_inside: u64,
    pub perhaps_inside: u64,
    pub overlapped: u64,
    pub under_way: u64,
}

/// The result for a text of recorded calls, as numbers; those that it does not use are 0.
#[repr(C)]
#[derive(Clone, Copy, PartialEq, Eq, Debug)]
pub struct CallsTold {
    /// 0 lawful, 1 a fault of the history, 2 not a recording, or one for which there is no room.
    pub outcome: u64,
    /// For a fault of the history: 1 out of turn, 2 not linearizable. If not a recording: 1 a bad line, 2 too many lines, 3 no room.
    pub number: u64,
    /// The line at fault, or the bad one, from 1.
    pub line: u64,
    /// The line that contradicts the one at fault, from 1; 0 if none does.
    pub against: u64,
    /// How many bytes the text of the cause has.
    pub words: u64,
    /// 1 if the first line says that later calls are missing, for a recording that is lawful or has a fault of the history.
    pub cut: u64,
    /// The report.
    pub counts: Counts,
}

// The numbers of a report.
fn counts_of(report: &CallsReport) -> Counts
    ensures { result ≡ counts_of report.now }
{
    Counts {
        calls: report.calls as u64,
        stored: report.stored as u64,
        taken: report.taken as u64,
        full: report.full as u64,
        empty: report.empty as u64,
        nothing: report.nothing as u64,
        told: bit_number(report.told),
        surely_inside: report.surely_inside as u64,
        perhaps_inside: report.perhaps_inside as u64,
        overlapped: report.overlapped as u64,
        under_way: report.under_way as u64,
    }
}

// The result for a finding, and whether later calls are missing, with the text of its cause at the front of the slots.
fn told_finding(finding: CallsFinding, is_cut: bool, words: &mut [u8]) -> CallsTold
    ensures told { result ≡ told_of_finding (length words.old) finding is_cut }
    ensures words { words.new ≡ words_told finding words.old }
    ensures enough { HasShortWords finding }
{
    let (outcome, number, line, against, count, counts) = match finding {
        CallsFinding::Lawful(report) => (0, 0, 0, 0, 0, counts_of(&report)),
        CallsFinding::OutOfTurn { line } => (1, 1, line, 0, 0, Counts::default()),
        CallsFinding::NotLinearizable { line, cause } => {
            let against = cause.line().unwrap_or(0);
            (
                1,
                2,
                line,
                against,
                write_cause(words, cause),
                Counts::default(),
            )
        }
    };
    CallsTold {
        outcome,
        number,
        line,
        against,
        words: count as u64,
        cut: bit_number(is_cut),
        counts,
    }
}

fn told_refusal(fault: RecordingFault) -> CallsTold
    ensures { result ≡ told_of_refusal fault }
{
    let (number, line) = match fault {
        RecordingFault::BadLine(line) => (1, line),
        RecordingFault::TooLong => (2, 0),
        RecordingFault::OutOfMemory => (3, 0),
    };
    CallsTold {
        outcome: 2,
        number,
        line,
        against: 0,
        words: 0,
        cut: 0,
        counts: Counts::default(),
    }
}

// The finding on the text, in these lists, and whether its first line says that later calls are missing.
fn found_in(text: &[u8], lists: Lists<Lent<'_>>) -> Result<(CallsFinding, bool), RecordingFault>
    ensures found { IfOk result (λ x. IsFindingIn text.now x.0 x.1) }
    ensures refused { IfErr result (λ e. RefusesText e text.now) }
    ensures full { IfErr result (λ e. e ≡ OutOfMemory →
        AreTooShort (slots_for (length lists.entry.offered.slots.now) (length lists.entry.taken.slots.now)
        (length lists.entry.numbers.slots.now) (length lists.entry.bytes.slots.now)) text.now) }
{
    let mut recording = RecordingIn::within(lists);
    recording.read(text)?;
    let finding = recording.finding()?;
    Ok((finding, recording.is_cut()))
}

/// Returns the finding on the text of recorded calls, which is that of `audit --calls`, with the text of the cause, and whether later
/// calls are missing; or why the text is not a recording, or that one of the lists has too few slots. It takes no memory.
///
/// These are enough: for `offered` as many as there ever are items inside, with those that a put offers; for `taken` as many as are taken,
/// or [`TAKEN_LIMIT`](queue_calls::TAKEN_LIMIT); for `numbers` as many as a line has; for `bytes` as many as come after the last line feed;
/// and for `words` [`CAUSE_WORDS`](queue_calls::CAUSE_WORDS); with fewer a prefix of the text is written. The contents of the slots before
/// the call do not matter; after it the slots of `words` without text are unchanged, and the others may hold anything.
#[unsafe(no_mangle)]
pub extern "C" fn page_calls(
    text: &[u8],
    offered: &mut [Offered],
    taken: &mut [Taken],
    numbers: &mut [u64],
    bytes: &mut [u8],
    words: &mut [u8],
    told: &mut CallsTold,
)
    ensures { TellsRecording (slots_for (length offered.old) (length taken.old) (length numbers.old) (length bytes.old))
        text.now words.old words.new told.new }
{
    let lists = Lists {
        offered: Slots::new(offered),
        taken: Slots::new(taken),
        numbers: Filled::new(numbers),
        bytes: Filled::new(bytes),
    };
    *told = match found_in(text, lists) {
        Ok((finding, is_cut)) => told_finding(finding, is_cut, words),
        Err(fault) => told_refusal(fault),
    };
}
