//! The options of `ctl`.

ghost use Rattle.std.specs.Prelude.{◌≡◌, codes, false, IfOk, IfErr};
ghost use Rattle.clap.specs.Words.{app_of, found_of, kind_of, new_app, rows_of, rule_of};
ghost use Rattle.clap.specs.declared.builder.command.Command.TheViews.{out-Command};
ghost use Rattle.njh_arguments.specs.Arguments.{AsksFor, IsUnasked, command_rule, connecting_app, console_rule};
ghost use Rattle.njh_arguments.specs.Arguments.{ctl_app, choosing_app, filtering_app, flagged_app, kind_rule};
ghost use Rattle.njh_arguments.specs.Arguments.{node_rule, older_rule, owner_rule, owning_app, state_rule};
ghost use Rattle.njh_arguments.specs.Choices.{given_of};
ghost use Rattle.njh_arguments.specs.Commands.{given_in};

use crate::arguments::Request;
use crate::console_words::{CommandOptions, command_in};
use crate::options::{described_command, flag, is_set, valued_option, with_option};
use crate::serve_options::Unasked;
use clap::error::ErrorKind;
use clap::{Arg, ArgAction, ArgMatches, Command, Error};
use std::alloc::{AllocError, Global};

/// What the options of `ctl` ask for.
pub(crate) fn controlled_in<'a>(options: &ArgMatches<'a>) -> Result<Request<'a>, Unasked<'a>>
    ensures asked { IfOk result (AsksFor (codes "ctl", rows_of (found_of options.now))) }
    ensures refused { IfErr result (IsUnasked (rows_of (found_of options.now))) }
{
    let Some(words) = options.get_strs("command") else {
        return Err(Unasked::Missing);
    };
    match command_in(words, given_in(options)) {
        Some(command) => Ok(Request::Control {
            console: options.get_str("console"),
            json: is_set(options, "json"),
            command,
        }),
        None => Err(Unasked::NoCommand(first_word(words))),
    }
}

/// The first of the words, or nothing.
fn first_word<'a>(words: &[&'a str]) -> &'a str {
    match words.first() {
        Some(word) => word,
        None => "",
    }
}

/// The options beside the words.
fn given_in<'a>(options: &ArgMatches<'a>) -> CommandOptions<'a>
    ensures { given_of result ≡ given_in (rows_of (found_of options.now)) }
{
    CommandOptions {
        owner: options.get_str("owner"),
        node: options.get_str("node"),
        state: options.get_str("state"),
        kind: options.get_str("kind"),
        older: options.get_str("older"),
        when_idle: is_set(options, "when-idle"),
        dry_run: is_set(options, "dry-run"),
        quiet: is_set(options, "quiet"),
    }
}

/// The refusal of words that are no command, of which the first is this: it has the usage of the
/// command of that word, or of all if there is none.
pub(crate) fn no_command(alloc: Global, word: &str) -> Result<Error, AllocError>
    ensures { IfOk result (λ error. kind_of error ≡ ErrorKind.InvalidSubcommand) }
{
    match usage_of(word) {
        Some(usage) => {
            let message = format!(in alloc; "'{word}' has other names or options")?;
            refusal_with(alloc, usage, message.as_str())
        }
        None => {
            let message = format!(in alloc; "there is no command '{word}'")?;
            refusal_with(alloc, "njehub ctl [OPTIONS] <COMMAND>...", message.as_str())
        }
    }
}

/// A refusal with a usage.
fn refusal_with(alloc: Global, usage: &str, message: &str) -> Result<Error, AllocError>
    ensures { IfOk result (λ error. kind_of error ≡ ErrorKind.InvalidSubcommand) }
{
    let mut ctl = Command::new(alloc, "ctl").override_usage(usage);
    ctl.error(ErrorKind::InvalidSubcommand, message)
}

/// How the command is written of which the first word is this.
fn usage_of(word: &str) -> Option<&'static str> {
    match word {
        "status" => Some("njehub ctl status [--quiet]"),
        "customers" => Some("njehub ctl customers"),
        "lines" => Some("njehub ctl lines [CUSTOMER|LINE]"),
        "messages" => Some("njehub ctl messages LINE"),
        "files" => Some(
            "njehub ctl files [CUSTOMER] [--owner NODE.USER] [--node N] \
             [--state ready|held|refused|sending] [--kind in|out] [--older 7d]",
        ),
        "hold" => Some("njehub ctl hold CUSTOMER FILE [--owner NODE.USER], or a choice of files"),
        "release" => Some(
            "njehub ctl release CUSTOMER FILE [--owner NODE.USER], or a choice of files",
        ),
        "cancel" => Some(
            "njehub ctl cancel CUSTOMER FILE [--owner NODE.USER], or a choice of files",
        ),
        "reroute" => Some(
            "njehub ctl reroute CUSTOMER FILE NODE [--owner NODE.USER], or a choice of files",
        ),
        "tell" => Some("njehub ctl tell CUSTOMER NODE USER TEXT, with TEXT as one word in quotes"),
        "order" => Some("njehub ctl order NAME"),
        "stop" => Some("njehub ctl stop LINE [--when-idle]"),
        "start" => Some("njehub ctl start LINE"),
        "shutdown" => Some("njehub ctl shutdown [--when-idle]"),
        "reload" => Some("njehub ctl reload"),
        "diff" => Some("njehub ctl diff NEW"),
        _ => None,
    }
}

/// `ctl`, with its options and the words of a command.
pub(crate) fn ctl_command<'a>(alloc: Global) -> Result<Command<'a>, AllocError>
    ensures app { IfOk result (λ command. app_of command ≡ ctl_app) }
    ensures local { IfOk result (λ command. (out-Command command).has_globals ≡ false) }
{
    let when_idle = flag(
        alloc,
        "when-idle",
        "With stop and shutdown: once no file is on a stream",
    );
    let timed = with_option(flagged_command(alloc), when_idle);
    with_option(timed, command_words(alloc))
}

/// `ctl`, with all that takes a value, and its dry-run and quiet.
fn flagged_command<'a>(alloc: Global) -> Result<Command<'a>, AllocError>
    ensures app { IfOk result (λ command. app_of command ≡ flagged_app) }
    ensures local { IfOk result (λ command. (out-Command command).has_globals ≡ false) }
{
    let dry_run = flag(
        alloc,
        "dry-run",
        "With a choice of files: only says what would be ordered",
    );
    let flagged = with_option(choosing_command(alloc), dry_run);
    let quiet = flag(
        alloc,
        "quiet",
        "With status: prints nothing, and ends with 3 if something is wrong",
    );
    with_option(flagged, quiet)
}

/// `ctl`, with its console, json, owner, node, state, kind and older.
fn choosing_command<'a>(alloc: Global) -> Result<Command<'a>, AllocError>
    ensures app { IfOk result (λ command. app_of command ≡ choosing_app) }
    ensures local { IfOk result (λ command. (out-Command command).has_globals ≡ false) }
{
    let choosing = with_option(filtering_command(alloc), kind_option(alloc));
    with_option(choosing, older_option(alloc))
}

/// `ctl`, with its console, json, owner, node and state.
fn filtering_command<'a>(alloc: Global) -> Result<Command<'a>, AllocError>
    ensures app { IfOk result (λ command. app_of command ≡ filtering_app) }
    ensures local { IfOk result (λ command. (out-Command command).has_globals ≡ false) }
{
    let filtering = with_option(owning_command(alloc), node_option(alloc));
    with_option(filtering, state_option(alloc))
}

/// `ctl`, with its console, json and owner.
fn owning_command<'a>(alloc: Global) -> Result<Command<'a>, AllocError>
    ensures app { IfOk result (λ command. app_of command ≡ owning_app) }
    ensures local { IfOk result (λ command. (out-Command command).has_globals ≡ false) }
{
    with_option(connecting_command(alloc), owner_option(alloc))
}

/// `ctl`, with its console and json.
fn connecting_command<'a>(alloc: Global) -> Result<Command<'a>, AllocError>
    ensures app { IfOk result (λ command. app_of command ≡ connecting_app) }
    ensures local { IfOk result (λ command. (out-Command command).has_globals ≡ false) }
{
    let console = console_option(alloc, "The hub's Unix socket, as serve has it");
    let connecting = with_option(Ok(bare_ctl(alloc)), console);
    let json = flag(
        alloc,
        "json",
        "Prints the answers as they came, an object of JSON a line",
    );
    with_option(connecting, json)
}

/// What the help of `ctl` ends with.
fn ctl_example<'a>() -> &'a str {
    "Commands:
  status [--quiet]                How the hub is, and what is wrong now, in one line each
  customers                       Quota and blocks in use, and files by state, a customer a line
  lines [CUSTOMER|LINE]           How lines are: their sites, connections, sessions and streams
  messages LINE                   For whom messages wait on the line, and since when
  files [CUSTOMER] [CHOICE]       The files, of all owners
  hold CUSTOMER FILE              Holds the owner's files of this name, as LYON.42
  release CUSTOMER FILE           Lets them go on
  cancel CUSTOMER FILE            Removes them
  reroute CUSTOMER FILE NODE      Sends them to another node
  tell CUSTOMER NODE USER TEXT    Tells a user something
  order NAME                      Says what came of an order, by its name or its number
  stop LINE [--when-idle]         Ends the line's connection, and lets none in
  start LINE                      Lets it have connections again
  shutdown [--when-idle]          Ends the service, with status 0
  reload                          Has the table file read now, and tells what changes by it
  diff NEW                        Tells what the table file NEW would change, and changes nothing

CHOICE is one or more of --owner, --node, --state, --kind and --older, and may stand in the place of
FILE: then the command is given for each name of the files that are chosen, in the name of their
owner. Such an order is for all files of the owner that have the name, so a name of which some
aren't chosen is passed over and told. With --dry-run nothing is ordered.

PATH is that of serve --console. Without --console it is what the environment has as
NJEHUB_CONSOLE, and without that /run/njehub/console. If files of the name FILE have several owners
hold, release, cancel and reroute want to know whose with --owner NODE.USER.

An order is done within four seconds, or not at all. Then ctl prints done behind the hub's replies;
or it says on standard error that it isn't done, or not for all, and ends with status 1. If it can't
know that it says how to ask, and ends with status 2, as if there is no console.

Examples:
  njehub ctl status
  njehub ctl files ACME --state held
  njehub ctl hold ACME LYON.42
  njehub ctl cancel ACME --state held --older 7d --dry-run
  njehub ctl tell ACME LYON ANNA SOON
  njehub ctl --console /run/njehub/console stop a1 --when-idle"
}

/// `ctl` without its options.
fn bare_ctl<'a>(alloc: Global) -> Command<'a>
    ensures app { app_of result ≡ new_app (codes "ctl") }
    ensures local { (out-Command result).has_globals ≡ false }
{
    described_command(
        alloc,
        "ctl",
        "Asks a hub that runs how it is, or gives it an order, by its console",
        ctl_example(),
    )
}

/// `--console PATH`.
pub(crate) fn console_option<'a>(alloc: Global, help: &'a str) -> Arg<'a>
    ensures rule { rule_of result ≡ console_rule }
    ensures local { result.global ≡ false }
{
    valued_option(alloc, "console", "PATH", help)
}

/// `--owner NODE.USER`.
fn owner_option<'a>(alloc: Global) -> Arg<'a>
    ensures rule { rule_of result ≡ owner_rule }
    ensures local { result.global ≡ false }
{
    valued_option(alloc, "owner", "NODE.USER", "The files of this owner")
}

/// `--node N`.
fn node_option<'a>(alloc: Global) -> Arg<'a>
    ensures rule { rule_of result ≡ node_rule }
    ensures local { result.global ≡ false }
{
    valued_option(alloc, "node", "N", "The files for this node")
}

/// `--state STATE`.
fn state_option<'a>(alloc: Global) -> Arg<'a>
    ensures rule { rule_of result ≡ state_rule }
    ensures local { result.global ≡ false }
{
    valued_option(
        alloc,
        "state",
        "STATE",
        "The files that are ready, held, refused or sending",
    )
}

/// `--kind KIND`.
fn kind_option<'a>(alloc: Global) -> Arg<'a>
    ensures rule { rule_of result ≡ kind_rule }
    ensures local { result.global ≡ false }
{
    valued_option(
        alloc,
        "kind",
        "KIND",
        "The files that are in (jobs) or out (output)",
    )
}

/// `--older TIME`.
fn older_option<'a>(alloc: Global) -> Arg<'a>
    ensures rule { rule_of result ≡ older_rule }
    ensures local { result.global ≡ false }
{
    valued_option(
        alloc,
        "older",
        "TIME",
        "The files that came so long ago or longer, as 7d (d, h, m or s)",
    )
}

/// The words of a command.
fn command_words<'a>(alloc: Global) -> Arg<'a>
    ensures rule { rule_of result ≡ command_rule }
    ensures local { result.global ≡ false }
{
    Arg::new(alloc, "command")
        .value_name("COMMAND")
        .help("A command and its names, in this order")
        .required(true)
        .action(ArgAction::Append)
}
