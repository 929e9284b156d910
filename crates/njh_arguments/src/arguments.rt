//! The arguments of the command line.

ghost use Rattle.std.specs.Prelude.{◌≡◌, ◌≢◌, [], ◌∷◌, false, map, codes, IfOk, IfErr, OnOk};
ghost use Rattle.clap.specs.Words.{App, app_of, fault_of, found_of, kind_of, rows_of, subcommand_of};
ghost use Rattle.clap.specs.Words.{subcommand_rows_of};
ghost use Rattle.clap.specs.Words.{HasKind, with_subcommand};
ghost use Rattle.clap.specs.declared.builder.command.Command.TheViews.{out-Command};
ghost use Rattle.njh_arguments.specs.Arguments.{AreRefusedBy, Asks, AsksFor, AsksIn, IsRefusalOf, IsUnasked};
ghost use Rattle.njh_arguments.specs.Arguments.{IsUnaskedBy};
ghost use Rattle.njh_arguments.specs.Arguments.{bare_app, checking_app, decoding_app, encoding_app, filing_app};
ghost use Rattle.njh_arguments.specs.Arguments.{program_app, replaying_app, serving_app};

use crate::check_options::{check_command, checked_in};
use crate::console_command::ConsoleCommand;
use crate::ctl_options::{controlled_in, ctl_command, no_command};
use crate::decode_options::{decode_command, decoded_in};
use crate::encode_options::encode_command;
use crate::files_options::{files_command, files_in};
use crate::replay_options::{replay_command, replayed_in};
use crate::serve_options::{Unasked, serve_command, served_in};
use crate::shown::VERSION;
use clap::error::ErrorKind;
use clap::{ArgMatches, Command, Error};
use std::alloc::{AllocError, Global};
use std::convert::AsStr;
use std::net::IpAddr;

/// What the arguments ask for.
#[derive(Clone, Copy)]
pub enum Request<'a> {
    /// What needs no socket and no spool file.
    Task(Task<'a>),
    /// To serve lines on sockets.
    Serve {
        /// The table file.
        tables: &'a str,
        /// For how many turns, if they end.
        turns: Option<u32>,
        /// Where lines listen.
        listen: IpAddr,
        /// Only if each port can be listened on.
        strict: bool,
        /// Without a log.
        quiet: bool,
        /// The spool file that keeps whole files, if there is one.
        spool: Option<&'a str>,
        /// Where the operator's console is, if there is one.
        console: Option<&'a str>,
        /// With a log in JSON.
        json: bool,
    },
    /// To print what a spool file holds.
    Files {
        /// The spool file.
        spool: &'a str,
        /// Whose files; all customers' if none is named.
        customer: Option<&'a str>,
        /// The file whose records are written; if none is named the files are listed.
        file: Option<&'a str>,
        /// Which of these files it is, counted from 1.
        number: Option<u32>,
        /// All records as they are.
        raw: bool,
    },
    /// To copy whole files of a spool file into another.
    Copy {
        /// The spool file.
        spool: &'a str,
        /// Whose files; all customers' if none is named.
        customer: Option<&'a str>,
        /// The other spool file.
        into: &'a str,
        /// Whether the other one is to be made, and isn't there yet.
        is_new: bool,
    },
    /// A command to a hub that runs.
    Control {
        /// Where its console is, if that is said.
        console: Option<&'a str>,
        /// To print the answers as they came.
        json: bool,
        /// The command.
        command: ConsoleCommand<'a>,
    },
}

/// What is asked for that needs no socket and no spool file.
#[derive(Clone, Copy)]
pub enum Task<'a> {
    /// To replay a script.
    Replay {
        /// The table file; the built-in tables if none is named.
        tables: Option<&'a str>,
        /// With its output in words.
        in_words: bool,
    },
    /// To say a trace in words.
    Decode {
        /// With bytes in hex beside the words.
        hex: bool,
    },
    /// To make a script of lines in words.
    Encode,
    /// To check a table file.
    CheckTables {
        /// The table file.
        tables: &'a str,
    },
    /// To check a script.
    CheckScript {
        /// The table file; the built-in tables if none is named.
        tables: Option<&'a str>,
        /// The file with the script.
        file: &'a str,
    },
}

/// What the arguments ask for, of which the first is the program's name. A refusal has the text for
/// the user; `--help` and `--version` are refusals too, of which `is_shown` says which are none to
/// the user. Both are as `clap`'s definitions say of this program.
pub fn request_of<'a, S: AsStr>(alloc: Global, arguments: &'a [S]) -> Result<Request<'a>, Error>
    ensures asked { IfOk result (Asks (map S.text arguments.entry.now)) }
    ensures taken { OnOk result (fault_of program_app (map S.text arguments.entry.now) ≡ []) }
    // Out of memory, or of a kind that these arguments give.
    ensures refused { IfErr result (AreRefusedBy (map S.text arguments.entry.now)) }
{
    let mut program = program_command(alloc)?;
    request_by(alloc, &mut program, arguments)
}

/// What the arguments ask of the program.
fn request_by<'a, S: AsStr>(
    alloc: Global,
    program: &mut Command<'a>,
    arguments: &'a [S],
) -> Result<Request<'a>, Error>
    requires { app_of program.old ≡ program_app }
    ensures asked { IfOk result (Asks (map S.text arguments.entry.now)) }
    ensures taken { OnOk result (fault_of program_app (map S.text arguments.entry.now) ≡ []) }
    ensures refused { IfErr result (AreRefusedBy (map S.text arguments.entry.now)) }
{
    let found = matches_of(program, arguments)?;
    match request_in(&found) {
        Ok(request) => Ok(request),
        Err(why) => Err(refusal_of(alloc, program, why)?),
    }
}

/// The refusal of arguments that are no UTF-8.
pub fn not_utf8(alloc: Global) -> Result<Error, AllocError>
    ensures { IfOk result (λ error. kind_of error ≡ ErrorKind.InvalidValue) }
{
    let mut program = program_command(alloc)?;
    program.error(ErrorKind::InvalidValue, "an argument is not UTF-8")
}

/// What `clap` reads in the arguments.
fn matches_of<'a, S: AsStr>(
    program: &mut Command<'a>,
    arguments: &'a [S],
) -> Result<ArgMatches<'a>, Error>
    requires { app_of program.old ≡ program_app }
    ensures asked { IfOk result (λ found. subcommand_rows_of found
        ≡ subcommand_of program_app (map S.text arguments.entry.now)) }
    ensures taken { OnOk result (fault_of program_app (map S.text arguments.entry.now) ≡ []) }
    ensures refused { IfErr result (HasKind (fault_of program_app (map S.text arguments.entry.now))) }
{
    program.try_get_matches_from_mut(arguments)
}

/// What a parse asks for.
fn request_in<'a>(found: &ArgMatches<'a>) -> Result<Request<'a>, Unasked<'a>>
    ensures asked { IfOk result (AsksIn (subcommand_rows_of found.now)) }
    ensures refused { IfErr result (IsUnaskedBy (subcommand_rows_of found.now)) }
{
    match found.subcommand() {
        Some((name, options)) => request_named(name, options),
        None => Err(Unasked::Missing),
    }
}

/// What the options of the subcommand of this name ask for.
fn request_named<'a>(name: &str, options: &ArgMatches<'a>) -> Result<Request<'a>, Unasked<'a>>
    ensures asked { IfOk result (AsksFor (name.now, rows_of (found_of options.now))) }
    ensures refused { IfErr result (IsUnasked (rows_of (found_of options.now))) }
{
    match name {
        "replay" => Ok(replayed_in(options)),
        "serve" => served_in(options),
        "decode" => Ok(decoded_in(options)),
        "encode" => Ok(Request::Task(Task::Encode)),
        "check" => checked_in(options),
        "files" => files_in(options),
        "ctl" => controlled_in(options),
        _ => Err(Unasked::Missing),
    }
}

/// The refusal of a parse that asks for nothing.
fn refusal_of(
    alloc: Global,
    program: &mut Command<'_>,
    why: Unasked<'_>,
) -> Result<Error, AllocError>
    ensures { IfOk result (IsRefusalOf why.entry) }
{
    match why {
        Unasked::Missing => program.error(ErrorKind::MissingSubcommand, "no subcommand"),
        Unasked::Nothing => program.error(
            ErrorKind::MissingRequiredArgument,
            "nothing to check: name --tables F, --script F or both",
        ),
        Unasked::NoAddress(text) => no_address(alloc, program, text),
        Unasked::NoFormat(text) => no_format(alloc, program, text),
        Unasked::NoCommand(word) => no_command(alloc, word),
        Unasked::Unclear => program.error(
            ErrorKind::ArgumentConflict,
            "to copy files: --customer NAME --into FILE, or --compact NEW, without --export, \
             --number and --raw",
        ),
    }
}

/// The refusal of a text of `--listen` that is no address.
fn no_address(alloc: Global, program: &mut Command<'_>, text: &str) -> Result<Error, AllocError>
    ensures { IfOk result (λ error. kind_of error ≡ ErrorKind.ValueValidation) }
{
    let message = format!(in alloc;
        "invalid value '{text}' for '--listen <ADDRESS>': invalid IP address syntax"
    )?;
    program.error(ErrorKind::ValueValidation, message.as_str())
}

/// The refusal of a text of `--log` that is no format.
fn no_format(alloc: Global, program: &mut Command<'_>, text: &str) -> Result<Error, AllocError>
    ensures { IfOk result (λ error. kind_of error ≡ ErrorKind.ValueValidation) }
{
    let message = format!(in alloc;
        "invalid value '{text}' for '--log <FORMAT>': it is text or json"
    )?;
    program.error(ErrorKind::ValueValidation, message.as_str())
}

/// The program and its subcommands.
fn program_command<'a>(alloc: Global) -> Result<Command<'a>, AllocError>
    ensures { IfOk result (λ command. app_of command ≡ program_app) }
{
    with_subcommand(filing_command(alloc), ctl_command(alloc))
}

/// The program and its first six subcommands.
fn filing_command<'a>(alloc: Global) -> Result<Command<'a>, AllocError>
    ensures { IfOk result (λ command. app_of command ≡ filing_app) }
{
    with_subcommand(checking_command(alloc), files_command(alloc))
}

/// The program and its first five subcommands.
fn checking_command<'a>(alloc: Global) -> Result<Command<'a>, AllocError>
    ensures { IfOk result (λ command. app_of command ≡ checking_app) }
{
    with_subcommand(encoding_command(alloc), check_command(alloc))
}

/// The program and its first four subcommands.
fn encoding_command<'a>(alloc: Global) -> Result<Command<'a>, AllocError>
    ensures { IfOk result (λ command. app_of command ≡ encoding_app) }
{
    with_subcommand(decoding_command(alloc), Ok(encode_command(alloc)))
}

/// The program and its first three subcommands.
fn decoding_command<'a>(alloc: Global) -> Result<Command<'a>, AllocError>
    ensures { IfOk result (λ command. app_of command ≡ decoding_app) }
{
    with_subcommand(serving_command(alloc), decode_command(alloc))
}

/// The program and its first two subcommands.
fn serving_command<'a>(alloc: Global) -> Result<Command<'a>, AllocError>
    ensures { IfOk result (λ command. app_of command ≡ serving_app) }
{
    with_subcommand(replaying_command(alloc), serve_command(alloc))
}

/// The program and its first subcommand.
fn replaying_command<'a>(alloc: Global) -> Result<Command<'a>, AllocError>
    ensures { IfOk result (λ command. app_of command ≡ replaying_app) }
{
    with_subcommand(Ok(bare_command(alloc)), replay_command(alloc))
}

/// The program with one more subcommand, unless memory was refused for either.
fn with_subcommand<'a>(
    program: Result<Command<'a>, AllocError>,
    subcommand: Result<Command<'a>, AllocError>,
) -> Result<Command<'a>, AllocError>
    ensures { (app sub : App) → IfOk program.entry (λ c. app_of c ≡ app)
        → IfOk subcommand.entry (λ c. app_of c ≡ sub)
        → IfOk subcommand.entry (λ c. (out-Command c).has_globals ≡ false)
        → IfOk result (λ c. app_of c ≡ with_subcommand app sub.top) }
{
    match subcommand {
        Ok(subcommand) => with_whole(program, subcommand),
        Err(refused) => Err(refused),
    }
}

/// The program with one more subcommand, unless memory was refused for the program.
fn with_whole<'a>(
    program: Result<Command<'a>, AllocError>,
    subcommand: Command<'a>,
) -> Result<Command<'a>, AllocError>
    ensures { (app sub : App) → IfOk program.entry (λ c. app_of c ≡ app) → app_of subcommand.entry ≡ sub
        → (out-Command subcommand.entry).has_globals ≡ false
        → IfOk result (λ c. app_of c ≡ with_subcommand app sub.top) }
{
    match program {
        Ok(program) => program.subcommand(subcommand),
        Err(refused) => Err(refused),
    }
}

/// The program without its subcommands, one of which is to be named.
fn bare_command<'a>(alloc: Global) -> Command<'a>
    ensures { app_of result ≡ bare_app }
{
    Command::new(alloc, "njehub")
        .version(VERSION)
        .about("A store-and-forward hub for NJE networks over bisync lines")
        .subcommand_required(true)
        .disable_help_subcommand(true)
}
