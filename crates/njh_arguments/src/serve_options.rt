//! The options of `serve`.

ghost use Rattle.std.specs.Prelude.{◌≡◌, codes, false, Some, IfOk, IfErr};
ghost use Rattle.clap.specs.Words.{app_of, first_of, found_of, new_app, rows_of, rule_of};
ghost use Rattle.clap.specs.declared.builder.command.Command.TheViews.{out-Command};
ghost use Rattle.njh_arguments.specs.Arguments.{AsksFor, IsUnasked, ListensAt, addressed_app, bounded_serve_app};
ghost use Rattle.njh_arguments.specs.Arguments.{is_json_by, keeping_app, listen_rule, listening_app, log_rule};
ghost use Rattle.njh_arguments.specs.Arguments.{serve_app, turns_rule};

use crate::arguments::Request;
use crate::ctl_options::console_option;
use crate::options::{
    described_command, flag, is_set, number_of, spool_option, tables_option, valued_option,
    with_option,
};
use clap::builder::ValueParser;
use clap::{Arg, ArgAction, ArgMatches, Command};
use std::alloc::{AllocError, Global};
use std::net::IpAddr;

/// Why a parse asks for nothing.
#[derive(Clone, Copy)]
pub(crate) enum Unasked<'a> {
    /// It has no subcommand, or lacks what `clap` sees to.
    Missing,
    /// Nothing is named that is to be checked.
    Nothing,
    /// The text of `--listen` is no address.
    NoAddress(&'a str),
    /// The text of `--log` is no format.
    NoFormat(&'a str),
    /// The words behind `ctl`, of which the first is this, are no command.
    NoCommand(&'a str),
    /// Files are to be copied, and which or where to isn't clear, or other options beside that.
    Unclear,
}

/// What the options of `serve` ask for.
pub(crate) fn served_in<'a>(options: &ArgMatches<'a>) -> Result<Request<'a>, Unasked<'a>>
    ensures asked { IfOk result (AsksFor (codes "serve", rows_of (found_of options.now))) }
    ensures refused { IfErr result (IsUnasked (rows_of (found_of options.now))) }
{
    let Some(tables) = options.get_str("tables") else {
        return Err(Unasked::Missing);
    };
    let turns = number_of(options, "turns")?;
    let listen = address_in(options)?;
    let json = is_json_in(options)?;
    Ok(Request::Serve {
        tables,
        turns,
        listen,
        strict: is_set(options, "strict"),
        quiet: is_set(options, "quiet"),
        spool: options.get_str("spool"),
        console: options.get_str("console"),
        json,
    })
}

/// Whether the log is to be in JSON.
fn is_json_in<'a>(options: &ArgMatches<'a>) -> Result<bool, Unasked<'a>>
    ensures asked { IfOk result (λ json. is_json_by (first_of (codes "log") (rows_of (found_of options.now)))
        ≡ Some json) }
    ensures refused { IfErr result (IsUnasked (rows_of (found_of options.now))) }
{
    match options.get_str("log") {
        Some(text) => match is_json_by(text) {
            Some(json) => Ok(json),
            None => Err(Unasked::NoFormat(text)),
        },
        None => Ok(false),
    }
}

/// Whether a text names JSON; none where it is no format.
fn is_json_by(text: &str) -> Option<bool>
    ensures { result ≡ is_json_by (Some text.now) }
{
    if text == "text" {
        Some(false)
    } else if text == "json" {
        Some(true)
    } else {
        None
    }
}

/// Where lines are to listen.
fn address_in<'a>(options: &ArgMatches<'a>) -> Result<IpAddr, Unasked<'a>>
    ensures asked { IfOk result (λ listen. ListensAt
        (first_of (codes "listen") (rows_of (found_of options.now))) listen) }
    ensures refused { IfErr result (IsUnasked (rows_of (found_of options.now))) }
{
    match options.get_str("listen") {
        Some(text) => match text.parse::<IpAddr>() {
            Ok(address) => Ok(address),
            Err(_) => Err(Unasked::NoAddress(text)),
        },
        None => Err(Unasked::Missing),
    }
}

/// `serve`, with its options.
pub(crate) fn serve_command<'a>(alloc: Global) -> Result<Command<'a>, AllocError>
    ensures app { IfOk result (λ command. app_of command ≡ serve_app) }
    ensures local { IfOk result (λ command. (out-Command command).has_globals ≡ false) }
{
    let console = console_option(
        alloc,
        "Listens for njehub ctl on this Unix socket, whose folder has to have mode 0700",
    );
    let controlled = with_option(keeping_command(alloc), console);
    with_option(controlled, log_option(alloc))
}

/// `serve`, with its tables, turns, address, strict, quiet and spool file.
fn keeping_command<'a>(alloc: Global) -> Result<Command<'a>, AllocError>
    ensures app { IfOk result (λ command. app_of command ≡ keeping_app) }
    ensures local { IfOk result (λ command. (out-Command command).has_globals ≡ false) }
{
    let spool = spool_option(
        alloc,
        "Keeps whole files in this file, and opens the hub with those that are there",
    );
    with_option(listening_command(alloc), spool)
}

/// `serve`, with its tables, turns, address, strict and quiet.
fn listening_command<'a>(alloc: Global) -> Result<Command<'a>, AllocError>
    ensures app { IfOk result (λ command. app_of command ≡ listening_app) }
    ensures local { IfOk result (λ command. (out-Command command).has_globals ≡ false) }
{
    let quiet = flag(alloc, "quiet", "No log on standard error");
    with_option(addressed_command(alloc), quiet)
}

/// `serve`, with its tables, turns, address and strict.
fn addressed_command<'a>(alloc: Global) -> Result<Command<'a>, AllocError>
    ensures app { IfOk result (λ command. app_of command ≡ addressed_app) }
    ensures local { IfOk result (λ command. (out-Command command).has_globals ≡ false) }
{
    let listening = with_option(bounded_command(alloc), listen_option(alloc));
    let strict = flag(
        alloc,
        "strict",
        "Doesn't start if a port can't be listened on or a file put back; else each is tried again",
    );
    with_option(listening, strict)
}

/// `serve`, with its tables and turns.
fn bounded_command<'a>(alloc: Global) -> Result<Command<'a>, AllocError>
    ensures app { IfOk result (λ command. app_of command ≡ bounded_serve_app) }
    ensures local { IfOk result (λ command. (out-Command command).has_globals ≡ false) }
{
    let tables = tables_option(alloc).required(true);
    let bounded = with_option(Ok(bare_serve(alloc)), tables);
    with_option(bounded, turns_option(alloc))
}

/// What the help of `serve` ends with.
fn serve_example<'a>() -> &'a str {
    "It looks at the table file once a second for routes that changed, and writes its log to
standard error.

Example:
  njehub serve --tables tables.toml 2>> njehub.log"
}

/// `serve` without its options.
fn bare_serve<'a>(alloc: Global) -> Command<'a>
    ensures app { app_of result ≡ new_app (codes "serve") }
    ensures local { (out-Command result).has_globals ≡ false }
{
    described_command(
        alloc,
        "serve",
        "Serves the lines that have a port or a peer on sockets of this machine, until it is ended",
        serve_example(),
    )
}

/// `--turns N`.
fn turns_option<'a>(alloc: Global) -> Arg<'a>
    ensures rule { rule_of result ≡ turns_rule }
    ensures local { result.global ≡ false }
{
    Arg::new(alloc, "turns")
        .long("turns")
        .value_name("N")
        .help("Ends after so many turns, 1 to 1000000; in each turn each line is read once at most")
        .action(ArgAction::Set)
        .value_parser(ValueParser::Signed(1, 1_000_000))
}

/// `--listen ADDRESS`.
fn listen_option<'a>(alloc: Global) -> Arg<'a>
    ensures rule { rule_of result ≡ listen_rule }
    ensures local { result.global ≡ false }
{
    valued_option(
        alloc,
        "listen",
        "ADDRESS",
        "The IP address on whose ports the lines listen",
    )
    .default_value("127.0.0.1")
}

/// `--log FORMAT`.
fn log_option<'a>(alloc: Global) -> Arg<'a>
    ensures rule { rule_of result ≡ log_rule }
    ensures local { result.global ≡ false }
{
    valued_option(
        alloc,
        "log",
        "FORMAT",
        "The log as text, or as json: an object of JSON a line",
    )
    .default_value("text")
}
