//! Messages for words that name no ring, or that have a number with a minus sign.
ghost use Rattle.std.specs.Prelude.{◌≡◌};

use crate::answers::{Exit, complain};
use clap::Error;
use std::fmt;
use std::fmt::{Display, Formatter};
use std::io::Write;

/// The most characters of a word that are printed.
const TOLD: usize = 80;

/// The number options of `run`, as its help names them.
const NUMBERS: [(&str, &str); 8] = [
    ("--capacity", "--capacity <B>"),
    ("--modulus", "--modulus <M>"),
    ("--width", "--width <W>"),
    ("--count", "--count <N>"),
    ("--limit", "--limit <L>"),
    ("--takes", "--takes <T>"),
    ("--batch", "--batch <G>"),
    ("--take-batch", "--take-batch <H>"),
];

// A word from the command line, as it is printed: unchanged, if it is short and has only printable ASCII; otherwise with
// escapes, and `..` in place of what goes beyond the most characters.
#[derive(Clone, Copy, Drop)]
struct Quoted<'a>(&'a str);

impl Quoted<'_> {
    fn is_plain(&self) -> bool {
        self.0.len() <= TOLD && self.0.bytes().all(|byte| (b' '..=b'~').contains(&byte))
    }
}

impl Display for Quoted<'_> {
    fn fmt<W: fmt::Write>(&self, f: &mut Formatter<W>) -> fmt::Result {
        if self.is_plain() {
            return f.write_str(self.0);
        }
        let mut room = TOLD;
        for letter in self.0.chars() {
            let escaped = letter.escape_default();
            let length = escaped.len();
            if room < length {
                return f.write_str("..");
            }
            room -= length;
            write!(f, "{escaped}")?;
        }
        Ok(())
    }
}

// What follows an option, after a space or `=`.
fn value_of<'a>(words: &[&'a str], option: &str) -> Option<&'a str> {
    let (_program, words) = words.split_first()?;
    for (place, word) in words.iter().enumerate() {
        if *word == option {
            return words.get(place + 1).copied();
        }
        match word.strip_prefix(option) {
            Some(rest) => match rest.strip_prefix("=") {
                Some(value) => return Some(value),
                None => {}
            },
            None => {}
        }
    }
    None
}

// The words name this command.
fn names(words: &[&str], command: &str) -> bool {
    match words.get(1) {
        Some(word) => *word == command,
        None => false,
    }
}

// This word is among them.
fn gives(words: &[&str], option: &str) -> bool {
    words.iter().any(|word| *word == option)
}

// The words ask for an audit of bits and of calls at once.
fn asks_two_audits(words: &[&str]) -> bool {
    names(words, "audit") && gives(words, "--bits") && gives(words, "--calls")
}

// The words ask for a long audit, but not of bits.
fn asks_long_alone(words: &[&str]) -> bool {
    names(words, "audit") && gives(words, "--long") && !gives(words, "--bits")
}

// The words ask for the trace and the calls of one play.
fn asks_two_plays(words: &[&str]) -> bool {
    names(words, "play") && gives(words, "--trace") && gives(words, "--calls")
}

// The words ask why, in an audit that keeps no trace.
fn asks_why_of_pieces(words: &[&str]) -> bool {
    names(words, "audit")
        && gives(words, "--why")
        && (gives(words, "--long") || gives(words, "--calls"))
}

// The words ask to stop at the first fault, but not for recorded calls or a recorded register.
fn asks_stop_alone(words: &[&str]) -> bool {
    names(words, "audit")
        && gives(words, "--stop")
        && !gives(words, "--calls")
        && !gives(words, "--register")
}

// The words ask for an audit of a register, and for what does not go with it.
fn asks_register_and_more(words: &[&str]) -> bool {
    names(words, "audit")
        && gives(words, "--register")
        && (gives(words, "--bits")
            || gives(words, "--long")
            || gives(words, "--calls")
            || gives(words, "--why"))
}

// The words ask for a class or a report, but not for a register.
fn asks_class_alone(words: &[&str]) -> bool {
    names(words, "audit")
        && !gives(words, "--register")
        && (value_of(words, "--at-least").is_some() || gives(words, "--report"))
}

// The words ask for a play by a near miss, but not for exactly one of its texts.
fn asks_wrong_alone(words: &[&str]) -> bool {
    names(words, "play")
        && value_of(words, "--wrong").is_some()
        && gives(words, "--trace") == gives(words, "--calls")
}

// The words ask for a report and a recording of one run.
fn asks_two_texts(words: &[&str]) -> bool {
    names(words, "run") && gives(words, "--report") && gives(words, "--record")
}

// The message for words that ask for things that do not go together.
fn clash(words: &[&str]) -> Option<&'static str> {
    if asks_two_texts(words) {
        return Some(
            "a run prints a report or a recording: --report and --record do not go together",
        );
    }
    if asks_wrong_alone(words) {
        return Some(
            "a play by a near miss prints its trace or its calls: --wrong goes with --trace or with --calls",
        );
    }
    if asks_two_plays(words) {
        return Some("a play prints a trace or its calls: --trace and --calls do not go together");
    }
    if asks_register_and_more(words) {
        return Some(
            "an audit of a register goes with --at-least, --report and --stop alone: not with --bits, --long, --calls or --why",
        );
    }
    if asks_class_alone(words) {
        return Some(
            "a class and a report are asked of a recorded register: --at-least and --report go with --register",
        );
    }
    if asks_two_audits(words) {
        return Some("an audit is of bits or of calls: --bits and --calls do not go together");
    }
    if asks_long_alone(words) {
        return Some("a trace of any length is audited for its bits alone: --long goes with --bits");
    }
    if asks_why_of_pieces(words) {
        return Some(
            "--why goes with a trace that is kept, so neither with --long nor with --calls",
        );
    }
    if asks_stop_alone(words) {
        return Some(
            "an audit of recorded calls or of a recorded register may stop at the first fault: --stop goes with --calls or --register",
        );
    }
    None
}

// Prints what is wrong with the words.
fn complain_of<E: Write, D: Display + Drop>(what: D, err: &mut E) -> bool {
    complain(
        err,
        format_args!("error: {what}\n\nFor more information, try '--help'.\n"),
    )
}

// The words name no such near miss.
fn tell_miss<E: Write>(name: &str, err: &mut E) -> bool {
    let name = Quoted(name);
    complain_of(
        format_args!(
            "no near miss is called '{name}': there are count-before-cell, no-second-scan, small-modulus, clears-first and clears-upwards"
        ),
        err,
    )
}

// The words name no such class.
fn tell_class<E: Write>(name: &str, err: &mut E) -> bool {
    let name = Quoted(name);
    complain_of(
        format_args!(
            "no class is called '{name}': there are safe, regular, atomic-by-reader and atomic"
        ),
        err,
    )
}

// The words name no such ring.
fn tell_ring<E: Write>(name: &str, err: &mut E) -> bool {
    let name = Quoted(name);
    complain_of(
        format_args!("no ring is called '{name}': a ring is flicker or counter"),
        err,
    )
}

// Reports words that were accepted, and name no command, no ring, no near miss, or options that do not go together.
fn tell_unnamed<E: Write>(words: &[&str], err: &mut E) -> bool {
    if let Some(text) = clash(words) {
        return complain_of(text, err);
    }
    if let Some(name) = value_of(words, "--wrong") {
        return tell_miss(name, err);
    }
    if let Some(name) = value_of(words, "--at-least") {
        return tell_class(name, err);
    }
    if let Some(name) = value_of(words, "--ring") {
        return tell_ring(name, err);
    }
    complain_of(
        "no such command, or no such ring: a ring is flicker or counter",
        err,
    )
}

/// The words were accepted, and name no command, no ring, no near miss, or options that do not go together. Reports
/// this, with status 2.
pub fn unnamed<E: Write>(words: &[&str], err: &mut E) -> Exit
    ensures { result.status ≡ 2 }
{
    Exit {
        status: 2,
        is_told: tell_unnamed(words, err),
    }
}

// The help's name for the number option of this name.
fn number_option(name: &str) -> Option<&'static str> {
    for (option, told) in NUMBERS {
        if option == name {
            return Some(told);
        }
    }
    None
}

// A minus sign and a digit begin the word.
fn is_signed(word: &str) -> bool {
    match word.as_bytes() {
        [b'-', digit, ..] => digit.is_ascii_digit(),
        _ => false,
    }
}

// The first number with a minus sign after an option of `run`, with that option.
fn signed_number<'a>(words: &[&'a str]) -> Option<(&'static str, &'a str)> {
    if !names(words, "run") {
        return None;
    }
    for pair in words.windows(2) {
        if is_signed(pair[1]) {
            if let Some(option) = number_option(pair[0]) {
                return Some((option, pair[1]));
            }
        }
    }
    None
}

/// Reports a fault of the command line. A number with a minus sign has a message of our own, since the parser takes it for
/// an option.
pub fn tell_mistake<E: Write>(words: &[&str], error: &Error, err: &mut E) -> bool {
    match signed_number(words) {
        Some((option, number)) => {
            let number = Quoted(number);
            complain_of(
                format_args!("invalid value '{number}' for '{option}': a number has no minus sign"),
                err,
            )
        }
        None => complain(err, error),
    }
}
