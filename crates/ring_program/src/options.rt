//! Commands and their options, and what the words say about one option.
ghost use Rattle.std.specs.Prelude.{◌≡◌, IfOk, Some, false};
ghost use Rattle.clap.specs.Words.{found_of, new_app, new_rule, rows_of, rule_of};
ghost use Rattle.ring_program.specs.CommandLine.{HasOption, IsCommand, flag_rule, is_flag_given, number_given, number_in, value_rule};

use clap::{Arg, ArgAction, ArgMatches, Command};
use std::alloc::{AllocError, Global};

/// A command of this name with no options yet, and its texts.
pub fn new_command<'a>(
    alloc: Global,
    name: &'a str,
    about: &'a str,
    usage: &'a str,
    help: &'a str,
) -> Command<'a>
    ensures { IsCommand result (new_app name.entry.now) }
{
    let command = Command::new(alloc, name).about(about);
    command.override_usage(usage).after_help(help)
}

// An option of this name.
fn named_option<'a>(alloc: Global, id: &'a str, help: &'a str) -> Arg<'a>
    ensures rule { rule_of result ≡ record (new_rule id.entry.now) { long = Some id.entry.now } }
    ensures local { result.global ≡ false }
{
    Arg::new(alloc, id).long(id).help(help)
}

// Each option is added in a call of ours: five calls of the kit's builder in a row cost a minute of proof, one or two a few seconds.
/// The command with one more option of this name, which is given or not.
pub fn with_flag<'a>(
    alloc: Global,
    command: Command<'a>,
    id: &'a str,
    help: &'a str,
) -> Result<Command<'a>, AllocError>
    ensures { IfOk result (HasOption (flag_rule id.entry.now) command.entry) }
{
    command.arg(named_option(alloc, id, help).action(ArgAction::SetTrue))
}

/// An option of this name, with a value, which the help calls by this name.
pub fn value_option<'a>(alloc: Global, id: &'a str, name: &'a str, help: &'a str) -> Arg<'a>
    ensures rule { rule_of result ≡ value_rule id.entry.now }
    ensures local { result.global ≡ false }
{
    let option = named_option(alloc, id, help).value_name(name);
    option.action(ArgAction::Set)
}

/// Whether the flag of this id was given.
pub fn is_given(matches: &ArgMatches<'_>, id: &str) -> bool
    ensures { result ≡ is_flag_given id.now (rows_of (found_of matches.now)) }
{
    match matches.get_str(id) {
        Some(value) => value == "true",
        None => false,
    }
}

// The number that a text writes in decimal.
fn number_of(text: &str) -> Option<u64>
    ensures { result ≡ number_in text.now }
{
    match text.parse::<u64>() {
        Ok(number) => Some(number),
        Err(_) => None,
    }
}

/// The number that the option of this id was given.
pub fn number_found(matches: &ArgMatches<'_>, id: &str) -> Option<u64>
    ensures { result ≡ number_given id.now (rows_of (found_of matches.now)) }
{
    match matches.get_str(id) {
        Some(text) => number_of(text),
        None => None,
    }
}
