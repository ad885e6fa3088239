//! The command line.
ghost use Rattle.std.specs.Prelude.{◌≡◌, ◌⊎◌, ◌∷◌, ◌++◌, ℕ, List, Some, codes, true, false, [], IfOk, IfErr, OnOk, None, map, option_map};
ghost use Rattle.clap.specs.Words.{HasKind, app_of, fault_of, found_of, kind_of, rows_of, subcommand_of, subcommand_rows_of};
ghost use Rattle.ring_program.specs.declared.run_line.RingKind.TheVariants as kind;
ghost use Rattle.near_misses.specs.declared.misses.NearMiss.TheVariants as miss;
ghost use Rattle.register_calls.specs.declared.events.Class.TheVariants as class;
ghost use Rattle.ring_program.specs.CommandLine.{Asks, HasOption, IsCommand, application, at_least_rule, audit_command, audit_request, audit_request_of, class_asked, class_in, play_asked, play_command, play_request_of, program_alone, register_asked, register_request, request_in, request_of, run_of_numbers, wrong_rule};

use crate::options::{is_given, new_command, value_option, with_flag};
use crate::run_line::{Run, RunText, run_command, run_found};
use clap::error::ErrorKind;
use clap::{ArgMatches, Command, Error};
use near_misses::NearMiss;
use register_calls::Class;
use std::alloc::{AllocError, Global};

/// The program's version, which `--version` prints after its name.
const VERSION: &str = "0.1.0";

// The usage, which is also printed if a word of `audit` is wrong, such as the name of a file.
const AUDIT_USAGE: &str = "lamport_ring audit [--bits] [--why] < TRACE
       lamport_ring audit --bits --long < TRACE
       lamport_ring audit --calls [--stop] < CALLS
       lamport_ring audit --register [--at-least CLASS] [--report] [--stop] < REGISTER";

const AUDIT_HELP: &str = "\
A trace begins with a line `shape CAPACITY MODULUS WIDTH`, to which the batch is
added if it is over 1, and the batch and the take batch if the latter is over 1.
Then it has a line for each event of the history:
\n  P write s1 1    side P begins to write 1 to bit s1
  P wrote s1      its write ends
  C read s1       side C begins to read bit s1
  C got s1 0      its read ends and returns 0
\nBits are s0, s1, .. and r0, r1, .., x, and cJ.I for digit I of cell J.
\nThe answer is `lawful` if each read returned what a safe bit may return and both
sides follow the programs of the ring; then it has the items put, the items
taken and whether a take returned Closed. Otherwise it is the first line at
fault and the kind of the fault. With --bits the audit checks the bits alone,
and reports no items; with --bits --long it reads the trace in pieces, so that
the trace may have any length. With --why a fault has further lines:
\n  due: P write c0.0 1           what this side's program does next; or
  due: nothing                  that it has made its last call
  held: 0 since line 5, where the read began at line 6
                                what the bit held, which no write overlapped
  open since line 5: P write s1 1
                                the access that this side has not ended
  open: nothing                 or that it has none to end
  only by: P                    the only side that may do this to the bit
\nWith --calls the input is a recording of the calls of any queue with one
producer and one consumer: a line `queue CAPACITY`, and then a line for the
start of each call and one for its end, in the order in which they happened:
\n  P put 5         side P begins to put item 5, or several: P put 5 6 7
  P stored        its put ends, stored; or P full, or P closed
  C take          side C begins to take an item, or up to Q: C take Q
  C item 5        its take ends with item 5; or C empty, or C closed
  P close         side P begins to close; P closed ends it
\nThe answer is `lawful` if the history is linearizable, with how far it came;
otherwise it is the first line with which it is not, and the evidence. The input
may have any length. With --stop a fault is reported as soon as its line is
read, and nothing is read after it. docs/FORMATS.md has the whole format.
\nWith --register the input is a recording of the reads and writes of any
register with one writer W and readers R1 to R64: a line `register FIRST` with
its initial value, or `register FIRST VALUES` if its values are 0 to VALUES - 1,
and then a line for the start of each operation and one for its end:
\n  W write 5       the writer begins to write 5; W wrote ends it
  R1 read         reader R1 begins to read
  R1 got 5        its read ends, and returned 5
\nThe answer is the strongest class that the history meets: `atomic`, `atomic by
reader`, `regular`, `safe` or `not safe`; and for each class that it misses the
first line with which it misses it, and the evidence. --at-least gives the class
that is required: safe, regular, atomic-by-reader or atomic (the default). With
--report further lines say how much the recording could have shown. With --stop
nothing is read after the first line with which the required class is missed.
\nExamples:
  lamport_ring audit < examples/plain_path.trace
  lamport_ring audit --bits < examples/new_old_inversion.trace
  lamport_ring audit --why < examples/count_before_cell.trace
  lamport_ring audit --calls < examples/calls/plain.calls
  lamport_ring audit --register --at-least regular < examples/registers/unary.reg
\nExit status:
  0  the history is lawful, or meets the class
  1  refused: the input is not in the format or could not be read, or the
     output failed
  2  the command line is wrong
  3  the audit found a fault, or the history misses the class";

const PLAY_USAGE: &str = "lamport_ring play [--trace|--calls] < SCRIPT
       lamport_ring play --wrong NAME --trace|--calls < SCRIPT";

const PLAY_HELP: &str = "\
A script is a JSON object:
\n  capacity, modulus, width  the shape of the ring, whole numbers
  items     the items to put, in order
  takes     how many items the consumer asks for
  close     true or false: whether the producer closes after the last item
  schedule  whose event comes next: letters P and C with counts, such as P8C10
  oracle    what overlapped reads return, in turn, such as 01
  batch     the most items that one put may store; by default 1
  take_batch  the most items that one take may take; by default 1
\n  {\"capacity\":1, \"modulus\":3, \"width\":1, \"items\":[1], \"takes\":1,
   \"close\":false, \"schedule\":\"P8C10\", \"oracle\":\"\"}
\nThe answer says how many events there were, which items were put and taken,
whether a take returned Closed, how many puts found the ring full, how many
takes found it empty, and how many reads were overlapped by a write.
\nWith --wrong the script is played by a ring that is nearly right: it breaks one
rule. Its bits are lawful; nothing is promised about its items:
\n  count-before-cell  a put writes its count before the item's cell
  no-second-scan     a take that reads the close bit as 1 does not scan again
  small-modulus      the counts wrap around one too soon
  clears-first       a count write clears the bits below before it sets its own
  clears-upwards     a count write clears the bits below from the lowest up
\nExamples:
  lamport_ring play < examples/plain_path.json
  lamport_ring play --trace < examples/plain_path.json | lamport_ring audit
  lamport_ring play --calls < examples/plain_path.json | lamport_ring audit --calls
  lamport_ring play --wrong no-second-scan --calls \\
    < examples/wrong/no_second_scan.json
\nExit status:
  0  the script was played
  1  refused: the input is not a script or could not be read, or the output
     failed
  2  the command line is wrong";

const PROGRAM_HELP: &str = "\
Examples:
  lamport_ring play < examples/plain_path.json
  lamport_ring audit < examples/plain_path.trace
  lamport_ring audit --bits < examples/new_old_inversion.trace
  lamport_ring audit --calls < examples/calls/plain.calls
  lamport_ring run --capacity 1 --modulus 3 --width 6 --count 64 \\
    --limit 1000000000
\nExit status:
  0  done: a script was played, a history is lawful, a run is complete, or the
     help or the version was printed
  1  refused, for the reason on standard error
  2  the command line is wrong
  3  the audit found a fault";

/// What an audit looks at in a trace.
#[derive(Clone, Copy)]
pub(crate) enum Audited {
    /// The bits, and the programs of the two sides.
    Programs,
    /// `--bits`: the bits alone.
    Bits,
}

/// What the text of a play contains.
#[derive(Clone, Copy)]
pub(crate) enum PlayText {
    /// The numbers of events and items.
    Report,
    /// `--trace`: the whole history; of a play by a near miss, if `--wrong` names one.
    Trace(Option<NearMiss>),
    /// `--calls`: the calls, in the same way.
    Calls(Option<NearMiss>),
}

/// What the words ask about an input that is kept.
#[derive(Clone, Copy)]
pub(crate) enum Question {
    /// `audit`, of a trace; with `--why` it prints what was due at a fault.
    Audit { what: Audited, why: bool },
    /// `play`, of a script.
    Play(PlayText),
}

/// What the words ask about a recorded register.
#[derive(Clone, Copy)]
pub(crate) struct RegisterQuestion {
    /// `--at-least`: the class that it should have.
    pub at_least: Class,
    /// `--report`: whether to report how much the recording could have shown.
    pub report: bool,
    /// `--stop`: whether to read only up to the first line at which it lacks the class.
    pub stop: bool,
}

/// What the words ask for.
#[derive(Clone, Copy)]
pub(crate) enum Request {
    /// To read a complete input, and to answer a question about it.
    OnInput(Question),
    /// `audit --calls`, which reads its input in pieces; with `--stop` only up to the first fault.
    Calls { stop: bool },
    /// `audit --register`, which reads its input in pieces.
    Register(RegisterQuestion),
    /// `audit --bits --long`, which reads its input in pieces.
    LongBits,
    /// `run`, which reads no input.
    Run(Run),
}

// The command with the class that a register is to have.
#[tactic(auto, using(crate::proofs::CommandLemmas::if_ok, crate::proofs::CommandLemmas::adds_option, std::proofs::Common::rules))]
fn with_at_least<'a>(alloc: Global, command: Command<'a>) -> Result<Command<'a>, AllocError>
    ensures { IfOk result (HasOption at_least_rule command.entry) }
{
    let help = "With --register: the class that is required [default: atomic]";
    command.arg(value_option(alloc, "at-least", "CLASS", help))
}

fn audit<'a>(alloc: Global) -> Result<Command<'a>, AllocError>
    ensures { IfOk result (λ command. IsCommand command audit_command) }
{
    let about =
        "Audit a trace of a ring's accesses to safe bits, recorded calls or a recorded register, from standard input";
    let command = new_command(alloc, "audit", about, AUDIT_USAGE, AUDIT_HELP);
    let help = "Check the bits alone, not the programs of the two sides";
    let command = with_flag(alloc, command, "bits", help)?;
    let help = "With --bits: read a trace of any length, in pieces";
    let command = with_flag(alloc, command, "long", help)?;
    let help = "Audit a recording of the calls of any queue";
    let command = with_flag(alloc, command, "calls", help)?;
    let help = "Audit a recording of the reads and writes of any register";
    let command = with_flag(alloc, command, "register", help)?;
    let command = with_at_least(alloc, command)?;
    let help = "With --register: report how much the recording could have shown";
    let command = with_flag(alloc, command, "report", help)?;
    let help = "With --calls or --register: stop at the first fault, and read no further";
    let command = with_flag(alloc, command, "stop", help)?;
    let help = "Say in further lines what was due instead of a fault";
    with_flag(alloc, command, "why", help)
}

// The command with the near miss.
#[tactic(auto, using(crate::proofs::CommandLemmas::if_ok, crate::proofs::CommandLemmas::adds_option, std::proofs::Common::rules))]
fn with_wrong<'a>(alloc: Global, command: Command<'a>) -> Result<Command<'a>, AllocError>
    ensures { IfOk result (HasOption wrong_rule command.entry) }
{
    let help = "Play by the ring of this name, which breaks one rule";
    command.arg(value_option(alloc, "wrong", "NAME", help))
}

fn play<'a>(alloc: Global) -> Result<Command<'a>, AllocError>
    ensures { IfOk result (λ command. IsCommand command play_command) }
{
    let about = "Play a script of the ring's two sides, from standard input";
    let command = new_command(alloc, "play", about, PLAY_USAGE, PLAY_HELP);
    let help = "Print the whole history as a trace instead of the report";
    let command = with_flag(alloc, command, "trace", help)?;
    let help = "Print the calls as recorded calls instead of the report";
    let command = with_flag(alloc, command, "calls", help)?;
    with_wrong(alloc, command)
}

// The program with no commands yet.
fn bare_program<'a>(alloc: Global) -> Command<'a>
    ensures { app_of result ≡ program_alone }
{
    let about =
        "A producer-consumer ring from safe bits: plays of scripts, audits of recorded histories, two threads";
    let command = Command::new(alloc, "lamport_ring").about(about);
    let command = command.version(VERSION).after_help(PROGRAM_HELP);
    command.subcommand_required(true)
}

fn program<'a>(alloc: Global) -> Result<Command<'a>, AllocError>
    ensures { IfOk result (λ command. app_of command ≡ application) }
{
    let command = bare_program(alloc);
    let audit = audit(alloc)?;
    let command = command.subcommand(audit)?;
    let play = play(alloc)?;
    let command = command.subcommand(play)?;
    let run = run_command(alloc)?;
    command.subcommand(run)
}

// The matches of the words, if the program accepts them.
fn parse<'a>(alloc: Global, words: &'a [&'a str]) -> Result<ArgMatches<'a>, Error>
    ensures taken { OnOk result (fault_of application (map (λ w. w.now) words.entry.now) ≡ []) }
    ensures found { IfOk result (λ matches.
        subcommand_rows_of matches ≡ subcommand_of application (map (λ w. w.now) words.entry.now)) }
    ensures kinds { IfErr result (HasKind (fault_of application (map (λ w. w.now) words.entry.now))) }
{
    let command = program(alloc)?;
    command.try_get_matches_from(words)
}

// The command that was named, with its own matches.
fn named<'m, 'a>(matches: &'m ArgMatches<'a>) -> Option<(&'a str, &'m ArgMatches<'a>)>
    ensures { option_map (λ found. (found.0.now, rows_of (found_of found.1.now))) result
        ≡ subcommand_rows_of matches.now }
{
    matches.subcommand()
}

// The class of this name.
fn class_in(name: &str) -> Option<Class>
    ensures { result ≡ class_in name.now }
{
    if name == "safe" {
        Some(Class::Safe)
    } else if name == "regular" {
        Some(Class::Regular)
    } else if name == "atomic-by-reader" {
        Some(Class::AtomicByReader)
    } else if name == "atomic" {
        Some(Class::Atomic)
    } else {
        None
    }
}

// The class that a register should have; nothing if no class has this name.
fn class_asked(name: Option<&str>) -> Option<Class>
    ensures { result ≡ class_asked (option_map (λ n. n.now) name.entry) }
{
    match name {
        None => Some(Class::Atomic),
        Some(name) => class_in(name),
    }
}

// What is requested of an audit of a register; `None` if the flags do not go together, or no class has this name.
fn register_request(
    bits: bool,
    long: bool,
    calls: bool,
    why: bool,
    name: Option<&str>,
    report: bool,
    stop: bool,
) -> Option<Request>
    ensures { result ≡ register_request bits long calls why (option_map (λ n. n.now) name.entry) report stop }
{
    match (bits, long, calls, why) {
        (false, false, false, false) => {
            let at_least = class_asked(name)?;
            Some(Request::Register(RegisterQuestion {
                at_least,
                report,
                stop,
            }))
        }
        _ => None,
    }
}

// What is requested of `audit`; `None` if its options do not go together, or no class has this name.
fn audit_request(matches: &ArgMatches<'_>) -> Option<Request>
    ensures { result ≡ audit_request_of (rows_of (found_of matches.now)) }
{
    let bits = is_given(matches, "bits");
    let long = is_given(matches, "long");
    let calls = is_given(matches, "calls");
    let stop = is_given(matches, "stop");
    let why = is_given(matches, "why");
    let report = is_given(matches, "report");
    let name = matches.get_str("at-least");
    if is_given(matches, "register") {
        return register_request(bits, long, calls, why, name, report, stop);
    }
    match name {
        Some(_) => None,
        None => {
            if report {
                return None;
            }
            trace_request(bits, long, calls, stop, why)
        }
    }
}

// What is requested of an audit of a trace or of calls; `None` if the flags do not go together.
fn trace_request(bits: bool, long: bool, calls: bool, stop: bool, why: bool) -> Option<Request>
    ensures { result ≡ audit_request bits long calls stop why }
{
    match (bits, long, calls, stop, why) {
        (true, true, false, false, false) => Some(Request::LongBits),
        (false, false, true, stop, false) => Some(Request::Calls { stop }),
        (true, false, false, false, why) => Some(Request::OnInput(Question::Audit {
            what: Audited::Bits,
            why,
        })),
        (false, false, false, false, why) => Some(Request::OnInput(Question::Audit {
            what: Audited::Programs,
            why,
        })),
        _ => None,
    }
}

// What is requested of `play`, by a near miss or by none; `None` if the flags do not go together.
fn play_asked(trace: bool, calls: bool, miss: Option<NearMiss>) -> Option<Request>
    ensures { result ≡ play_asked trace calls miss }
{
    match (trace, calls, miss) {
        (true, false, miss) => Some(Request::OnInput(Question::Play(PlayText::Trace(miss)))),
        (false, true, miss) => Some(Request::OnInput(Question::Play(PlayText::Calls(miss)))),
        (false, false, None) => Some(Request::OnInput(Question::Play(PlayText::Report))),
        _ => None,
    }
}

// What is requested of `play`; `None` if its options do not go together, or no near miss has this name.
fn play_request(matches: &ArgMatches<'_>) -> Option<Request>
    ensures { result ≡ play_request_of (rows_of (found_of matches.now)) }
{
    let trace = is_given(matches, "trace");
    let calls = is_given(matches, "calls");
    match matches.get_str("wrong") {
        None => play_asked(trace, calls, None),
        Some(name) => play_asked(trace, calls, Some(NearMiss::named(name)?)),
    }
}

fn request_found(matches: &ArgMatches<'_>) -> Option<Request>
    ensures { result ≡ request_in (subcommand_rows_of matches.now) }
{
    let (name, inner) = named(matches)?;
    if name == "audit" {
        audit_request(inner)
    } else if name == "play" {
        play_request(inner)
    } else if name == "run" {
        Some(Request::Run(run_found(inner)?))
    } else {
        None
    }
}

/// What the words ask for, the program's name first. An `Err` if they are not a command line of
/// this program, if they ask for help or the version, or if memory ran out.
pub fn read_words<'a>(alloc: Global, words: &'a [&'a str]) -> Result<Option<Request>, Error>
    ensures asked { IfOk result (λ request. request ≡ request_of (map (λ w. w.now) words.entry.now)) }
    ensures taken { OnOk result (fault_of application (map (λ w. w.now) words.entry.now) ≡ []) }
    ensures refused { IfErr result (λ e. (kind_of e ≡ ErrorKind.OutOfMemory)
        ⊎ (request_of (map (λ w. w.now) words.entry.now) ≡ None)) }
    ensures kinds { IfErr result (HasKind (fault_of application (map (λ w. w.now) words.entry.now))) }
{
    match parse(alloc, words) {
        Ok(matches) => Ok(request_found(&matches)),
        Err(error) => Err(error),
    }
}

/// The command lines of the program, by its name and their words.
#[tactic(auto, unfolding(clap::proofs::OnLiterals::clap_on_literals, crate::specs::CommandLine::application, crate::specs::CommandLine::request_of))]
pub fn command_lines()
    ensures audit { Asks (codes "audit") (Some (Request.OnInput (Question.Audit Audited.Programs false))) }
    ensures audit_bits { Asks (codes "audit --bits") (Some (Request.OnInput (Question.Audit Audited.Bits false))) }
    ensures audit_calls { Asks (codes "audit --calls") (Some (Request.Calls false)) }
    ensures calls_stop { Asks (codes "audit --calls --stop") (Some (Request.Calls true)) }
    ensures stop_alone { Asks (codes "audit --stop") None }
    ensures bits_stop { Asks (codes "audit --bits --stop") None }
    ensures stop_why { Asks (codes "audit --calls --stop --why") None }
    ensures audit_both { Asks (codes "audit --bits --calls") None }
    ensures audit_long { Asks (codes "audit --bits --long") (Some Request.LongBits) }
    ensures long_alone { Asks (codes "audit --long") None }
    ensures long_calls { Asks (codes "audit --calls --long") None }
    ensures audit_why { Asks (codes "audit --why") (Some (Request.OnInput (Question.Audit Audited.Programs true))) }
    ensures audit_bits_why { Asks (codes "audit --bits --why")
        (Some (Request.OnInput (Question.Audit Audited.Bits true))) }
    ensures long_why { Asks (codes "audit --bits --long --why") None }
    ensures calls_why { Asks (codes "audit --calls --why") None }
    ensures twice { Asks (codes "audit --bits --bits") None }
    ensures register { Asks (codes "audit --register") (Some (register_asked class.Atomic false false)) }
    ensures register_with_all { Asks (codes "audit --register --at-least regular --report --stop")
        (Some (register_asked class.Regular true true)) }
    ensures register_safe { Asks (codes "audit --at-least=safe --register") (Some (register_asked class.Safe false false)) }
    ensures register_by_reader { Asks (codes "audit --register --at-least atomic-by-reader")
        (Some (register_asked class.AtomicByReader false false)) }
    ensures register_class { Asks (codes "audit --register --at-least best") None }
    ensures register_calls { Asks (codes "audit --register --calls") None }
    ensures register_bits { Asks (codes "audit --register --bits") None }
    ensures register_why { Asks (codes "audit --register --why") None }
    ensures class_alone { Asks (codes "audit --at-least safe") None }
    ensures report_alone { Asks (codes "audit --calls --report") None }
    ensures play { Asks (codes "play") (Some (Request.OnInput (Question.Play PlayText.Report))) }
    ensures play_trace { Asks (codes "play --trace") (Some (Request.OnInput (Question.Play (PlayText.Trace None)))) }
    ensures play_calls { Asks (codes "play --calls") (Some (Request.OnInput (Question.Play (PlayText.Calls None)))) }
    ensures play_both { Asks (codes "play --trace --calls") None }
    ensures wrong_trace { Asks (codes "play --wrong small-modulus --trace")
        (Some (Request.OnInput (Question.Play (PlayText.Trace (Some miss.SmallModulus))))) }
    ensures wrong_calls { Asks (codes "play --wrong=count-before-cell --calls")
        (Some (Request.OnInput (Question.Play (PlayText.Calls (Some miss.CountBeforeCell))))) }
    ensures wrong_report { Asks (codes "play --wrong clears-first") None }
    ensures wrong_name { Asks (codes "play --wrong right --calls") None }
    ensures run { Asks (codes "run --capacity 1 --modulus 3 --width 6 --count 64 --limit 9")
        (Some (Request.Run (run_of_numbers kind.Flicker 1 3 6 1 1 64 9 9 RunText.Totals))) }
    ensures run_with_all { Asks (codes "run --ring counter --batch=3 --take-batch 2 --takes 8"
        ++ codes " --capacity 3 --modulus=7 --width 6 --count=64 --limit 9")
        (Some (Request.Run (run_of_numbers kind.Counter 3 7 6 3 2 64 9 8 RunText.Totals))) }
    ensures run_with_report { Asks (codes "run --capacity 1 --modulus 3 --width 6 --count 64 --limit 9 --report")
        (Some (Request.Run (run_of_numbers kind.Flicker 1 3 6 1 1 64 9 9 RunText.Report))) }
    ensures run_with_record { Asks (codes "run --capacity 1 --modulus 3 --width 6 --count 64 --limit 9 --record")
        (Some (Request.Run (run_of_numbers kind.Flicker 1 3 6 1 1 64 9 9 RunText.Recording))) }
    ensures run_with_both { Asks (codes "run --capacity 1 --modulus 3 --width 6 --count 64 --limit 9 --report --record")
        None }
    ensures lacking { Asks (codes "run") None }
    ensures too_many { Asks (codes "run --capacity 1 --modulus 3 --width 6 --count 1000001 --limit 9") None }
    ensures torus { Asks (codes "run --capacity 1 --modulus 3 --width 6 --count 64 --limit 9 --ring torus") None }
    ensures nothing { (name : List ℕ) → request_of (name ∷ []) ≡ None }
{}
