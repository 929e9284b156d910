//! Options that several subcommands have.

ghost use Rattle.std.specs.Prelude.{◌≡◌, is_some, false, IfOk, IfErr, Some};
ghost use Rattle.clap.specs.Words.{App, Rule, app_of, first_of, found_of, new_app, new_rule, rows_of, rule_of};
ghost use Rattle.clap.specs.Words.{with_rule};
ghost use Rattle.clap.specs.declared.builder.ArgAction.TheVariants.{Set};
ghost use Rattle.clap.specs.declared.builder.command.Command.TheViews.{out-Command};
ghost use Rattle.njh_arguments.specs.Arguments.{IsFlag, IsUnasked, SpellsNumber, flag_rule, spool_rule, tables_rule};
ghost use Rattle.njh_arguments.specs.Commands.{is_set_in};

use crate::serve_options::Unasked;
use clap::{Arg, ArgAction, ArgMatches, Command};
use std::alloc::{AllocError, Global};

/// A subcommand with one more option, unless memory was refused for it.
pub(crate) fn with_option<'a>(
    command: Result<Command<'a>, AllocError>,
    option: Arg<'a>,
) -> Result<Command<'a>, AllocError>
    requires { option.global ≡ false }
    ensures app { (app : App) (rule : Rule) → IfOk command.entry (λ c. app_of c ≡ app)
        → rule_of option.entry ≡ rule → IfOk result (λ c. app_of c ≡ with_rule app rule) }
    ensures local { IfOk command.entry (λ c. (out-Command c).has_globals ≡ false)
        → IfOk result (λ c. (out-Command c).has_globals ≡ false) }
{
    match command {
        Ok(command) => command.arg(option),
        Err(refused) => Err(refused),
    }
}

/// A subcommand without options, with what its help says of it and ends with.
pub(crate) fn described_command<'a>(
    alloc: Global,
    name: &'a str,
    about: &'a str,
    example: &'a str,
) -> Command<'a>
    ensures app { app_of result ≡ new_app name.now }
    ensures local { (out-Command result).has_globals ≡ false }
{
    Command::new(alloc, name).about(about).after_help(example)
}

/// An option that takes a value, as `--tables F`.
pub(crate) fn valued_option<'a>(
    alloc: Global,
    name: &'a str,
    value: &'a str,
    help: &'a str,
) -> Arg<'a>
    ensures rule { rule_of result
        ≡ record (new_rule name.now) { long = Some name.now; value_names = 1; action = Some Set } }
    ensures local { result.global ≡ false }
{
    Arg::new(alloc, name)
        .long(name)
        .value_name(value)
        .help(help)
        .action(ArgAction::Set)
}

/// `--tables F`.
pub(crate) fn tables_option<'a>(alloc: Global) -> Arg<'a>
    ensures rule { rule_of result ≡ tables_rule }
    ensures local { result.global ≡ false }
{
    valued_option(
        alloc,
        "tables",
        "F",
        "The table file; replay has built-in tables where none is named",
    )
}

/// `--spool FILE`.
pub(crate) fn spool_option<'a>(alloc: Global, help: &'a str) -> Arg<'a>
    ensures rule { rule_of result ≡ spool_rule }
    ensures local { result.global ≡ false }
{
    valued_option(alloc, "spool", "FILE", help)
}

/// A flag, as `--quiet`.
pub(crate) fn flag<'a>(alloc: Global, name: &'a str, help: &'a str) -> Arg<'a>
    ensures rule { rule_of result ≡ flag_rule name.now }
    ensures local { result.global ≡ false }
{
    Arg::new(alloc, name)
        .long(name)
        .help(help)
        .action(ArgAction::SetTrue)
}

/// Whether an option of this name is given.
pub(crate) fn is_given(options: &ArgMatches<'_>, name: &str) -> bool
    ensures { result ≡ is_some (first_of name.now (rows_of (found_of options.now))) }
{
    options.get_str(name).is_some()
}

/// Whether a flag is set.
pub(crate) fn is_set(options: &ArgMatches<'_>, flag: &str) -> bool
    ensures flag { IsFlag flag.now (rows_of (found_of options.now)) result }
    ensures value { result ≡ is_set_in flag.now (rows_of (found_of options.now)) }
{
    match options.get_str(flag) {
        Some(text) => text == "true",
        None => false,
    }
}

/// The number that an option of this name has, if there is one.
pub(crate) fn number_of<'a>(
    options: &ArgMatches<'a>,
    name: &str,
) -> Result<Option<u32>, Unasked<'a>>
    ensures asked { IfOk result (SpellsNumber (first_of name.now (rows_of (found_of options.now)))) }
    ensures refused { IfErr result (IsUnasked (rows_of (found_of options.now))) }
{
    match options.get_str(name) {
        Some(text) => match text.parse::<u32>() {
            Ok(number) => Ok(Some(number)),
            Err(_) => Err(Unasked::Missing),
        },
        None => Ok(None),
    }
}
