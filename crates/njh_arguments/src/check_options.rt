//! The options of `check`.

ghost use Rattle.std.specs.Prelude.{◌≡◌, codes, false, None, IfOk, IfErr};
ghost use Rattle.clap.specs.Words.{app_of, first_of, found_of, new_app, rows_of, rule_of};
ghost use Rattle.clap.specs.declared.builder.command.Command.TheViews.{out-Command};
ghost use Rattle.njh_arguments.specs.Arguments.{AsksFor, IsUnasked, check_app, script_rule};

use crate::arguments::{Request, Task};
use crate::options::{described_command, tables_option, valued_option, with_option};
use crate::serve_options::Unasked;
use clap::{Arg, ArgMatches, Command};
use std::alloc::{AllocError, Global};

/// What the options of `check` ask for.
pub(crate) fn checked_in<'a>(options: &ArgMatches<'a>) -> Result<Request<'a>, Unasked<'a>>
    ensures asked { IfOk result (AsksFor (codes "check", rows_of (found_of options.now))) }
    ensures refused { IfErr result (IsUnasked (rows_of (found_of options.now))) }
{
    let Some(file) = options.get_str("script") else {
        return tables_in(options);
    };
    Ok(Request::Task(Task::CheckScript {
        tables: options.get_str("tables"),
        file,
    }))
}

/// What they ask for if no script is named.
fn tables_in<'a>(options: &ArgMatches<'a>) -> Result<Request<'a>, Unasked<'a>>
    requires { first_of (codes "script") (rows_of (found_of options.now)) ≡ None }
    ensures asked { IfOk result (AsksFor (codes "check", rows_of (found_of options.now))) }
    ensures refused { IfErr result (IsUnasked (rows_of (found_of options.now))) }
{
    match options.get_str("tables") {
        Some(tables) => Ok(Request::Task(Task::CheckTables { tables })),
        None => Err(Unasked::Nothing),
    }
}

/// `check`, with its options.
pub(crate) fn check_command<'a>(alloc: Global) -> Result<Command<'a>, AllocError>
    ensures app { IfOk result (λ command. app_of command ≡ check_app) }
    ensures local { IfOk result (λ command. (out-Command command).has_globals ≡ false) }
{
    let bare = Ok(bare_check(alloc));
    let checking = with_option(bare, tables_option(alloc));
    with_option(checking, script_option(alloc))
}

/// What the help of `check` ends with.
fn check_example<'a>() -> &'a str {
    "Of tables it prints customers, lines, routes and quotas, or the first fault and where it is, as
  K3 BadValue: customer 2 (BOLT), line 1 (b1), block: 100 isn't 300 to 4096
Of a script it prints the number of its events, or the first bad line and why it is one, as
  line 3: no line b9
With both it looks at the tables first: of a fault in them it prints that alone, and else of the
script. A script without tables is checked by the built-in tables.

Examples:
  njehub check --tables tables.toml
  njehub check --tables tables.toml --script script"
}

/// `check` without its options.
fn bare_check<'a>(alloc: Global) -> Command<'a>
    ensures app { app_of result ≡ new_app (codes "check") }
    ensures local { (out-Command result).has_globals ≡ false }
{
    described_command(
        alloc,
        "check",
        "Says what a table file has or its first fault, or whether a script is right",
        check_example(),
    )
}

/// `--script F`.
fn script_option<'a>(alloc: Global) -> Arg<'a>
    ensures rule { rule_of result ≡ script_rule }
    ensures local { result.global ≡ false }
{
    valued_option(
        alloc,
        "script",
        "F",
        "The script that is checked in place of the tables",
    )
}
