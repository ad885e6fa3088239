//! The command `run` of the command line.
ghost use Rattle.std.specs.Prelude.{◌≡◌, IfOk, Some, codes, false, option_map};
ghost use Rattle.clap.specs.Words.{first_of, found_of, rows_of, rule_of};
ghost use Rattle.ring_program.specs.CommandLine.{HasOption, IsCommand, batch_rule, largest, number_rule, required_rule, ring_given, ring_in, ring_rule, run_application, run_in, run_required, take_batch_rule, text_asked, text_given};

use crate::options::{is_given, new_command, number_found, value_option, with_flag};
use clap::builder::ValueParser;
use clap::{Arg, ArgMatches, Command};
use ring_run::Limits;
use std::alloc::{AllocError, Global};

/// The most items that a run may put.
pub const ITEM_LIMIT: u64 = 1_000_000;

// The usage, on several lines.
const RUN_USAGE: &str = "\
lamport_ring run --capacity B --modulus M --width W --count N --limit L
       [--takes T] [--batch G] [--take-batch H] [--ring RING]
       [--report | --record]";

const RUN_HELP: &str = "\
Two threads share a ring with no lock. One puts N items, the numbers 0, 1, ..
modulo 2^W, trying again while the ring is full, and closes after the last; the
other takes until a take returns Closed. The answer says how many items were put
and taken, and whether a take returned Closed. The flickering ring has a word
for each bit, which shows when the bit is being written; the counter ring has a
word for each counter and each cell, and is faster. Both promise the same.
\nThe numbers are whole numbers in decimal digits:
  B  how many cells the ring has, from 1 to 64
  M  the modulus of its counts, at least B + G + 1 and B + H + 1, at most 256
  W  how many binary digits an item has, from 1 to 64
  N  how many items to put, from 0 to 1000000
  L  the most calls of put, and of take, from 0 to 2^64 - 1
  T  the most calls of take, from 0 to 2^64 - 1; by default L
  G  how many items a put has at most, from 1 to B; by default 1
  H  how many items a take has at most, from 1 to B; by default 1
\nEvery call of put or take counts towards its limit, also one that finds the ring
full or empty; a take that returns several items counts once for each. The close
does not count. A side that has reached its limit makes no more calls, and the
other side stops as soon as it finds the ring full, or empty, after that. If no
take has returned Closed by then, the text is printed all the same, standard
error says `refused: limit reached`, and the status is 1.
\nWith --report four lines follow: `calls`, how many puts were made; `full`, how
many of them found the ring full; `empty`, how many takes found it empty; and
`items a second`, the items taken per second from just before the run to just
after it, or `unknown` if the clock gave no time.
\nWith --record the text is a recording of the calls of both sides, which
`lamport_ring audit --calls` judges. It ends before the first line for which a
side has no room left, which is after some 2 million lines of either side.
\nExamples:
  lamport_ring run --ring counter --capacity 8 --modulus 10 --width 16 \\
    --count 1000 --limit 1000000000
  lamport_ring run --capacity 1 --modulus 3 --width 6 --count 64 \\
    --limit 1000000000
\nExit status:
  0  a take returned Closed: all items were put and taken
  1  refused: a limit was reached before that, no ring has these numbers, there
     is no second thread, or the output failed
  2  the command line is wrong";

/// The ring that a run uses.
#[derive(Clone, Copy)]
pub(crate) enum RingKind {
    /// A word for each bit, which flickers while it is written.
    Flicker,
    /// A word for each counter, each cell and the close bit.
    Counter,
}

/// What the text of a run contains.
#[derive(Clone, Copy)]
pub(crate) enum RunText {
    /// How many items were put and taken, and whether a take returned Closed.
    Totals,
    /// That, and what was counted and timed.
    Report,
    /// The calls of both sides.
    Recording,
}

/// What is requested of `run`.
#[derive(Clone, Copy)]
pub(crate) struct Run {
    pub ring: RingKind,
    /// The numbers of the ring's shape.
    pub capacity: u64,
    pub modulus: u64,
    pub width: u64,
    pub batch: u64,
    pub take_batch: u64,
    /// How many items to put.
    pub count: u64,
    /// The most puts and takes.
    pub limits: Limits,
    /// What its text contains.
    pub text: RunText,
}

// An option whose value is a number up to a maximum.
fn number_option<'a>(alloc: Global, id: &'a str, name: &'a str, most: u64, help: &'a str) -> Arg<'a>
    ensures rule { rule_of result ≡ number_rule id.entry.now most }
    ensures local { result.global ≡ false }
{
    value_option(alloc, id, name, help).value_parser(ValueParser::unsigned(0, most))
}

// The command with a number that is required.
fn with_required<'a>(
    alloc: Global,
    command: Command<'a>,
    id: &'a str,
    name: &'a str,
    most: u64,
    help: &'a str,
) -> Result<Command<'a>, AllocError>
    ensures { IfOk result (HasOption (required_rule id.entry.now most) command.entry) }
{
    command.arg(number_option(alloc, id, name, most, help).required(true))
}

// The command with the limit of takes.
#[tactic(auto, using(crate::proofs::CommandLemmas::if_ok, crate::proofs::CommandLemmas::adds_option, std::proofs::Common::rules))]
fn with_takes<'a>(alloc: Global, command: Command<'a>) -> Result<Command<'a>, AllocError>
    ensures { IfOk result (HasOption (number_rule (codes "takes") largest) command.entry) }
{
    let help = "The most takes [default: L]";
    command.arg(number_option(alloc, "takes", "T", u64::MAX, help))
}

// The command with the batch, which may be left out, and is then 1.
#[tactic(auto, using(crate::proofs::CommandLemmas::if_ok, crate::proofs::CommandLemmas::adds_option, std::proofs::Common::rules))]
fn with_batch<'a>(alloc: Global, command: Command<'a>) -> Result<Command<'a>, AllocError>
    ensures { IfOk result (HasOption batch_rule command.entry) }
{
    let help = "The most items of a put";
    let batch = number_option(alloc, "batch", "G", u64::MAX, help);
    command.arg(batch.default_value("1"))
}

// The command with the take batch, in the same way.
fn with_take_batch<'a>(alloc: Global, command: Command<'a>) -> Result<Command<'a>, AllocError>
    ensures { IfOk result (HasOption take_batch_rule command.entry) }
{
    let help = "The most items of a take";
    let batch = number_option(alloc, "take-batch", "H", u64::MAX, help);
    command.arg(batch.default_value("1"))
}

// The command with the ring, which is `flicker` if left out.
#[tactic(auto, using(crate::proofs::CommandLemmas::if_ok, crate::proofs::CommandLemmas::adds_option, std::proofs::Common::rules))]
fn with_ring<'a>(alloc: Global, command: Command<'a>) -> Result<Command<'a>, AllocError>
    ensures { IfOk result (HasOption ring_rule command.entry) }
{
    let ring = value_option(alloc, "ring", "RING", "flicker or counter");
    command.arg(ring.default_value("flicker"))
}

// The command with the options that are required.
fn required_part<'a>(alloc: Global) -> Result<Command<'a>, AllocError>
    ensures { IfOk result (λ command. IsCommand command run_required) }
{
    let about = "Relay items through a ring, in two threads";
    let command = new_command(alloc, "run", about, RUN_USAGE, RUN_HELP);
    let command = with_required(alloc, command, "capacity", "B", u64::MAX, "How many cells")?;
    let command = with_required(
        alloc,
        command,
        "modulus",
        "M",
        u64::MAX,
        "Modulus of the counts",
    )?;
    let command = with_required(
        alloc,
        command,
        "width",
        "W",
        u64::MAX,
        "Binary digits of an item",
    )?;
    let command = with_required(
        alloc,
        command,
        "count",
        "N",
        ITEM_LIMIT,
        "How many items to put",
    )?;
    with_required(
        alloc,
        command,
        "limit",
        "L",
        u64::MAX,
        "The most puts, and takes",
    )
}

/// The command.
pub fn run_command<'a>(alloc: Global) -> Result<Command<'a>, AllocError>
    ensures { IfOk result (λ command. IsCommand command run_application) }
{
    let command = required_part(alloc)?;
    let command = with_takes(alloc, command)?;
    let command = with_batch(alloc, command)?;
    let command = with_take_batch(alloc, command)?;
    let command = with_ring(alloc, command)?;
    let help = "Report the calls, and the items per second";
    let command = with_flag(alloc, command, "report", help)?;
    let help = "Print a recording of the calls instead of the text";
    with_flag(alloc, command, "record", help)
}

// The ring of this name.
fn ring_of(name: &str) -> Option<RingKind>
    ensures { result ≡ ring_in name.now }
{
    if name == "flicker" {
        Some(RingKind::Flicker)
    } else if name == "counter" {
        Some(RingKind::Counter)
    } else {
        None
    }
}

// The requested ring.
fn ring_found(matches: &ArgMatches<'_>) -> Option<RingKind>
    ensures { result ≡ ring_given (rows_of (found_of matches.now)) }
{
    match matches.get_str("ring") {
        Some(name) => ring_of(name),
        None => None,
    }
}

// The text, by whether a report and a recording were requested; `None` if both were.
fn text_asked(report: bool, recording: bool) -> Option<RunText>
    ensures { result ≡ text_asked report recording }
{
    match (report, recording) {
        (true, true) => None,
        (true, false) => Some(RunText::Report),
        (false, true) => Some(RunText::Recording),
        (false, false) => Some(RunText::Totals),
    }
}

// The requested text.
fn text_found(matches: &ArgMatches<'_>) -> Option<RunText>
    ensures { result ≡ text_given (rows_of (found_of matches.now)) }
{
    text_asked(is_given(matches, "report"), is_given(matches, "record"))
}

/// What the options ask for.
pub fn run_found(matches: &ArgMatches<'_>) -> Option<Run>
    ensures { result ≡ run_in (rows_of (found_of matches.now)) }
{
    let text = text_found(matches)?;
    let ring = ring_found(matches)?;
    let capacity = number_found(matches, "capacity")?;
    let modulus = number_found(matches, "modulus")?;
    let width = number_found(matches, "width")?;
    let batch = number_found(matches, "batch")?;
    let take_batch = number_found(matches, "take-batch")?;
    let count = number_found(matches, "count")?;
    let puts = number_found(matches, "limit")?;
    let takes = match number_found(matches, "takes") {
        Some(takes) => takes,
        None => puts,
    };
    Some(Run {
        ring,
        capacity,
        modulus,
        width,
        batch,
        take_batch,
        count,
        limits: Limits { puts, takes },
        text,
    })
}
