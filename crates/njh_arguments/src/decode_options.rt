//! The option of `decode`.

ghost use Rattle.std.specs.Prelude.{◌≡◌, codes, false, IfOk};
ghost use Rattle.clap.specs.Words.{app_of, found_of, new_app, rows_of};
ghost use Rattle.clap.specs.declared.builder.command.Command.TheViews.{out-Command};
ghost use Rattle.njh_arguments.specs.Arguments.{AsksFor, decode_app};

use crate::arguments::{Request, Task};
use crate::options::{described_command, flag, is_set, with_option};
use clap::{ArgMatches, Command};
use std::alloc::{AllocError, Global};

/// What the help of `decode` ends with.
const DECODE_EXAMPLE: &str =
    "It reads a script, or what replay prints, or bare hexadecimal digits, a piece of bytes a line.

Example:
  njehub replay --tables tables.toml < script | njehub decode";

/// What the option of `decode` asks for.
pub(crate) fn decoded_in<'a>(options: &ArgMatches<'a>) -> Request<'a>
    ensures { AsksFor (codes "decode", rows_of (found_of options.now)) result }
{
    Request::Task(Task::Decode {
        hex: is_set(options, "hex"),
    })
}

/// `decode`, with its one option.
pub(crate) fn decode_command<'a>(alloc: Global) -> Result<Command<'a>, AllocError>
    ensures app { IfOk result (λ command. app_of command ≡ decode_app) }
    ensures local { IfOk result (λ command. (out-Command command).has_globals ≡ false) }
{
    let hex = flag(
        alloc,
        "hex",
        "Prints each line of bytes as it stands before its words, and the bytes of compressed \
         records beside them",
    );
    with_option(Ok(bare_decode(alloc)), hex)
}

/// `decode` without its option.
fn bare_decode<'a>(alloc: Global) -> Command<'a>
    ensures app { app_of result ≡ new_app (codes "decode") }
    ensures local { (out-Command result).has_globals ≡ false }
{
    described_command(
        alloc,
        "decode",
        "Says in words what the frames of a trace on standard input say",
        DECODE_EXAMPLE,
    )
}
