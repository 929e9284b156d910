//! The options of `files`.

ghost use Rattle.std.specs.Prelude.{◌≡◌, codes, true, false, None, IfOk, IfErr};
ghost use Rattle.clap.specs.Words.{app_of, first_of, found_of, new_app, rows_of, rule_of};
ghost use Rattle.clap.specs.declared.builder.command.Command.TheViews.{out-Command};
ghost use Rattle.njh_arguments.specs.Arguments.{AsksFor, IsUnasked, customer_rule, export_rule, files_app};
ghost use Rattle.njh_arguments.specs.Arguments.{IsTarget, PrintsNothing, compact_rule, exporting_app, into_rule};
ghost use Rattle.njh_arguments.specs.Arguments.{listing_app, number_rule, printing_app};

use crate::arguments::Request;
use crate::options::{
    described_command, flag, is_given, is_set, number_of, spool_option, valued_option, with_option,
};
use crate::serve_options::Unasked;
use clap::builder::ValueParser;
use clap::{Arg, ArgAction, ArgMatches, Command};
use std::alloc::{AllocError, Global};

/// What the help says of `--number`.
const NUMBER_HELP: &str =
    "With --export: the number of its line in what files prints of all files, or of the \
     customer's, counted from 1; the list of several shows it";

/// What the options of `files` ask for.
pub(crate) fn files_in<'a>(options: &ArgMatches<'a>) -> Result<Request<'a>, Unasked<'a>>
    ensures asked { IfOk result (AsksFor (codes "files", rows_of (found_of options.now))) }
    ensures refused { IfErr result (IsUnasked (rows_of (found_of options.now))) }
{
    let Some(into) = options.get_str("into") else {
        return compacted_in(options);
    };
    if !is_given(options, "customer") || is_given(options, "compact") || is_printing(options) {
        return Err(Unasked::Unclear);
    }
    copied_in(options, into, false)
}

/// What they ask for if no customer's files are copied.
fn compacted_in<'a>(options: &ArgMatches<'a>) -> Result<Request<'a>, Unasked<'a>>
    requires { first_of (codes "into") (rows_of (found_of options.now)) ≡ None }
    ensures asked { IfOk result (AsksFor (codes "files", rows_of (found_of options.now))) }
    ensures refused { IfErr result (IsUnasked (rows_of (found_of options.now))) }
{
    let Some(into) = options.get_str("compact") else {
        return printed_in(options);
    };
    if is_printing(options) {
        return Err(Unasked::Unclear);
    }
    copied_in(options, into, true)
}

/// What they ask for if files are copied.
fn copied_in<'a>(
    options: &ArgMatches<'a>,
    into: &'a str,
    is_new: bool,
) -> Result<Request<'a>, Unasked<'a>>
    requires { IsTarget (rows_of (found_of options.now)) into.now is_new }
    ensures asked { IfOk result (AsksFor (codes "files", rows_of (found_of options.now))) }
    ensures refused { IfErr result (IsUnasked (rows_of (found_of options.now))) }
{
    let Some(spool) = options.get_str("spool") else {
        return Err(Unasked::Missing);
    };
    Ok(Request::Copy {
        spool,
        customer: options.get_str("customer"),
        into,
        is_new,
    })
}

/// Whether a file is to be printed.
fn is_printing(options: &ArgMatches<'_>) -> bool
    ensures nothing { result ≡ false → PrintsNothing (rows_of (found_of options.now)) }
    ensures something { result ≡ true → ¬ PrintsNothing (rows_of (found_of options.now)) }
{
    is_given(options, "export") || is_given(options, "number") || is_set(options, "raw")
}

/// What they ask for if none is copied.
fn printed_in<'a>(options: &ArgMatches<'a>) -> Result<Request<'a>, Unasked<'a>>
    requires into { first_of (codes "into") (rows_of (found_of options.now)) ≡ None }
    requires compact { first_of (codes "compact") (rows_of (found_of options.now)) ≡ None }
    ensures asked { IfOk result (AsksFor (codes "files", rows_of (found_of options.now))) }
    ensures refused { IfErr result (IsUnasked (rows_of (found_of options.now))) }
{
    let Some(spool) = options.get_str("spool") else {
        return Err(Unasked::Missing);
    };
    let number = number_of(options, "number")?;
    Ok(Request::Files {
        spool,
        customer: options.get_str("customer"),
        file: options.get_str("export"),
        number,
        raw: is_set(options, "raw"),
    })
}

/// `files`, with its options.
pub(crate) fn files_command<'a>(alloc: Global) -> Result<Command<'a>, AllocError>
    ensures app { IfOk result (λ command. app_of command ≡ files_app) }
    ensures local { IfOk result (λ command. (out-Command command).has_globals ≡ false) }
{
    let copying = with_option(printing_command(alloc), into_option(alloc));
    with_option(copying, compact_option(alloc))
}

/// `files`, with what it prints and how.
fn printing_command<'a>(alloc: Global) -> Result<Command<'a>, AllocError>
    ensures app { IfOk result (λ command. app_of command ≡ printing_app) }
    ensures local { IfOk result (λ command. (out-Command command).has_globals ≡ false) }
{
    let raw = flag(
        alloc,
        "raw",
        "With --export: the bytes of all records, one after the other",
    );
    with_option(exporting_command(alloc), raw)
}

/// `files`, with its spool file, its customer, and a file's name and number.
fn exporting_command<'a>(alloc: Global) -> Result<Command<'a>, AllocError>
    ensures app { IfOk result (λ command. app_of command ≡ exporting_app) }
    ensures local { IfOk result (λ command. (out-Command command).has_globals ≡ false) }
{
    let exporting = with_option(listing_command(alloc), export_option(alloc));
    with_option(exporting, number_option(alloc))
}

/// `files`, with its spool file and its customer.
fn listing_command<'a>(alloc: Global) -> Result<Command<'a>, AllocError>
    ensures app { IfOk result (λ command. app_of command ≡ listing_app) }
    ensures local { IfOk result (λ command. (out-Command command).has_globals ≡ false) }
{
    let spool = spool_option(alloc, "The spool file").required(true);
    let listing = with_option(Ok(bare_files(alloc)), spool);
    with_option(listing, customer_option(alloc))
}

/// What the help of `files` ends with.
fn files_example<'a>() -> &'a str {
    "It prints a line for each whole file: the customers in the order of their first files, and each
customer's in their order of arrival. It reads a spool file that no hub has open, and leaves it as
it is. With --into it copies a customer's files, with --compact all or a customer's, and then
prints a line for each of them there.

Examples:
  njehub files --spool hub.spool --customer ACME
  njehub files --spool hub.spool --customer ACME --export LYON.42 > listing
  njehub files --spool hub.spool --customer ACME --into other.spool
  njehub files --spool hub.spool --compact small.spool"
}

/// `files` without its options.
fn bare_files<'a>(alloc: Global) -> Command<'a>
    ensures app { app_of result ≡ new_app (codes "files") }
    ensures local { (out-Command result).has_globals ≡ false }
{
    described_command(
        alloc,
        "files",
        "Prints the whole files that a spool file holds, or a file's records",
        files_example(),
    )
}

/// `--customer NAME`.
fn customer_option<'a>(alloc: Global) -> Arg<'a>
    ensures rule { rule_of result ≡ customer_rule }
    ensures local { result.global ≡ false }
{
    valued_option(
        alloc,
        "customer",
        "NAME",
        "The files of this customer alone",
    )
}

/// `--export NAME`.
fn export_option<'a>(alloc: Global) -> Arg<'a>
    ensures rule { rule_of result ≡ export_rule }
    ensures local { result.global ≡ false }
{
    valued_option(
        alloc,
        "export",
        "NAME",
        "Writes the data of the file of this name, as LYON.42, in characters, a line a record",
    )
}

/// `--number N`.
fn number_option<'a>(alloc: Global) -> Arg<'a>
    ensures rule { rule_of result ≡ number_rule }
    ensures local { result.global ≡ false }
{
    Arg::new(alloc, "number")
        .long("number")
        .value_name("N")
        .help(NUMBER_HELP)
        .action(ArgAction::Set)
        .value_parser(ValueParser::Signed(1, 1_000_000))
}

/// `--into FILE`.
fn into_option<'a>(alloc: Global) -> Arg<'a>
    ensures rule { rule_of result ≡ into_rule }
    ensures local { result.global ≡ false }
{
    valued_option(
        alloc,
        "into",
        "FILE",
        "Copies the customer's files into this spool file, which has none of that customer",
    )
}

/// `--compact NEW`.
fn compact_option<'a>(alloc: Global) -> Arg<'a>
    ensures rule { rule_of result ≡ compact_rule }
    ensures local { result.global ≡ false }
{
    valued_option(
        alloc,
        "compact",
        "NEW",
        "Copies the files into a new spool file, which has nothing of files that are gone",
    )
}
