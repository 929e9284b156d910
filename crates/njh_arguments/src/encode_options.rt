//! The subcommand `encode`, which has no option.

ghost use Rattle.std.specs.Prelude.{◌≡◌, false};
ghost use Rattle.clap.specs.Words.{app_of};
ghost use Rattle.clap.specs.declared.builder.command.Command.TheViews.{out-Command};
ghost use Rattle.njh_arguments.specs.Arguments.{encode_app};

use crate::options::described_command;
use clap::Command;
use std::alloc::Global;

/// What the help of `encode` ends with.
const ENCODE_EXAMPLE: &str =
    "It reads lines in words and writes lines of a script, with the counts of the blocks kept
for each line. Three lines in words:
  a1: contact
  a1: sign on as LYON block 1024
  a1: command from LYON ANNA to BUREAU: LIST

Example:
  njehub encode < words | njehub replay --tables tables.toml --decode";

/// `encode`.
pub(crate) fn encode_command<'a>(alloc: Global) -> Command<'a>
    ensures app { app_of result ≡ encode_app }
    ensures local { (out-Command result).has_globals ≡ false }
{
    described_command(
        alloc,
        "encode",
        "Makes lines of a script of lines in words on standard input",
        ENCODE_EXAMPLE,
    )
}
