// The words as clap reads them.
ghost use Rattle.std.specs.Prelude.{◌≡◌, ◌≢◌, true, [], IfOk, OnOk, Err, map, string_bytes};
ghost use Rattle.clap.specs.Words.{app_of, fault_of, found_of, is_simple, is_simple_and_free, kind_of, matches_of, rows_of, with_rule};
ghost use Rattle.command_line.specs.Parser.{app_for, bare_app, flag_rule, option_rule, other_rule, with_rules};

use crate::fault::WordsFault;
use crate::row::Row;
use clap::error::ErrorKind;
use clap::{Arg, ArgAction, ArgMatches, Command, Error};
use std::alloc::{AllocError, Global};

/// The entries of the words, by clap's account of them.
pub fn entries<'a>(
    alloc: Global,
    row: &Row,
    words: &'a [String],
) -> Result<ArgMatches<'a>, WordsFault>
    ensures rows { IfOk result (λ m. rows_of (found_of m) ≡
        matches_of (app_for row.now) (map string_bytes words.entry.now)) }
    ensures accepted { OnOk result (fault_of (app_for row.now) (map string_bytes words.entry.now) ≡
        []) }
    ensures usage { result ≡ Err WordsFault.Usage →
        fault_of (app_for row.now) (map string_bytes words.entry.now) ≢ [] }
{
    let command = command_for(alloc, row)?;
    matched(command, words)
}

// The entries of the words of a command of clap, by its account of them.
fn matched<'a>(command: Command<'a>, words: &'a [String]) -> Result<ArgMatches<'a>, WordsFault>
    requires simple { is_simple (app_of command) ≡ true }
    requires free { is_simple_and_free (app_of command) ≡ true }
    ensures rows { IfOk result (λ m. rows_of (found_of m) ≡
        matches_of (app_of command.entry) (map string_bytes words.entry.now)) }
    ensures accepted { OnOk result
        (fault_of (app_of command.entry) (map string_bytes words.entry.now) ≡ []) }
    ensures usage { result ≡ Err WordsFault.Usage →
        fault_of (app_of command.entry) (map string_bytes words.entry.now) ≢ [] }
{
    match command.try_get_matches_from(words) {
        Ok(matches) => Ok(matches),
        Err(error) => Err(fault_from(&error)),
    }
}

// Running out of memory where clap tells it, and else usage.
fn fault_from(error: &Error) -> WordsFault
    ensures usage { result ≡ WordsFault.Usage → kind_of error.now ≢ ErrorKind.OutOfMemory }
    ensures memory { result ≡ WordsFault.Memory → kind_of error.now ≡ ErrorKind.OutOfMemory }
{
    if error.kind() == ErrorKind::OutOfMemory {
        WordsFault::Memory
    } else {
        WordsFault::Usage
    }
}

// The command of clap that reads the words of a row.
fn command_for<'a>(alloc: Global, row: &Row) -> Result<Command<'a>, AllocError>
    ensures app { IfOk result (λ c. app_of c ≡ app_for row.now) }
{
    let needed = with_options(alloc, bare(alloc), row.needed)?;
    let optional = with_options(alloc, needed, row.optional)?;
    let flagged = with_flags(alloc, optional, row.flags)?;
    with_others(alloc, flagged, row.other)
}

fn bare<'a>(alloc: Global) -> Command<'a>
    ensures { app_of result ≡ bare_app }
{
    Command::new(alloc, "desk")
        .no_binary_name(true)
        .disable_help_flag(true)
        .disable_version_flag(true)
}

// The command with these options.
fn with_options<'a>(
    alloc: Global,
    command: Command<'a>,
    names: &[&'static str],
) -> Result<Command<'a>, AllocError>
    ensures app { IfOk result (λ c. app_of c ≡
        with_rules (app_of command.entry) (map option_rule (map (λ n. n.now) names.now))) }
{
    let mut built = command;
    for name in names {
        built = with_option(alloc, built, name)?;
    }
    Ok(built)
}

// The command with these flags.
fn with_flags<'a>(
    alloc: Global,
    command: Command<'a>,
    names: &[&'static str],
) -> Result<Command<'a>, AllocError>
    ensures app { IfOk result (λ c. app_of c ≡
        with_rules (app_of command.entry) (map flag_rule (map (λ n. n.now) names.now))) }
{
    let mut built = command;
    for name in names {
        built = with_flag(alloc, built, name)?;
    }
    Ok(built)
}

// The command with one more option, whose values are kept.
fn with_option<'a>(
    alloc: Global,
    command: Command<'a>,
    name: &'a str,
) -> Result<Command<'a>, AllocError>
    ensures app { IfOk result (λ c. app_of c ≡
        with_rule (app_of command.entry) (option_rule name.entry.now)) }
{
    command.arg(Arg::new(alloc, name).long(name).action(ArgAction::Append))
}

// The command with one more flag, each use of which is kept as one text.
fn with_flag<'a>(
    alloc: Global,
    command: Command<'a>,
    name: &'a str,
) -> Result<Command<'a>, AllocError>
    ensures app { IfOk result (λ c. app_of c ≡
        with_rule (app_of command.entry) (flag_rule name.entry.now)) }
{
    command.arg(
        Arg::new(alloc, name)
            .long(name)
            .action(ArgAction::Append)
            .num_args(0)
            .default_missing_value("given"),
    )
}

// The command with an entry of this name for the words of no option.
fn with_others<'a>(
    alloc: Global,
    command: Command<'a>,
    name: &'a str,
) -> Result<Command<'a>, AllocError>
    ensures app { IfOk result (λ c. app_of c ≡
        with_rule (app_of command.entry) (other_rule name.entry.now)) }
{
    command.arg(Arg::new(alloc, name).action(ArgAction::Append))
}
