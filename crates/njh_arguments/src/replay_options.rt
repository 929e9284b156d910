//! The options of `replay`.

ghost use Rattle.std.specs.Prelude.{◌≡◌, codes, false, IfOk};
ghost use Rattle.clap.specs.Words.{app_of, found_of, new_app, rows_of};
ghost use Rattle.clap.specs.declared.builder.command.Command.TheViews.{out-Command};
ghost use Rattle.njh_arguments.specs.Arguments.{AsksFor, replay_app};

use crate::arguments::{Request, Task};
use crate::options::{described_command, flag, is_set, tables_option, with_option};
use clap::{ArgMatches, Command};
use std::alloc::{AllocError, Global};

/// What the help of `replay` ends with.
const REPLAY_EXAMPLE: &str = "A script of three lines, for the built-in tables:
  BYTES a1 012d
  TICK a1
  LOST a1

Example:
  njehub replay --tables tables.toml < script";

/// What the options of `replay` ask for.
pub(crate) fn replayed_in<'a>(options: &ArgMatches<'a>) -> Request<'a>
    ensures { AsksFor (codes "replay", rows_of (found_of options.now)) result }
{
    Request::Task(Task::Replay {
        tables: options.get_str("tables"),
        in_words: is_set(options, "decode"),
    })
}

/// `replay`, with its options.
pub(crate) fn replay_command<'a>(alloc: Global) -> Result<Command<'a>, AllocError>
    ensures app { IfOk result (λ command. app_of command ≡ replay_app) }
    ensures local { IfOk result (λ command. (out-Command command).has_globals ≡ false) }
{
    let in_words = flag(
        alloc,
        "decode",
        "Prints each frame in words, as decode does, when the run is over",
    );
    let bare = Ok(bare_replay(alloc));
    let replaying = with_option(bare, tables_option(alloc));
    with_option(replaying, in_words)
}

/// `replay` without its options.
fn bare_replay<'a>(alloc: Global) -> Command<'a>
    ensures app { app_of result ≡ new_app (codes "replay") }
    ensures local { (out-Command result).has_globals ≡ false }
{
    described_command(
        alloc,
        "replay",
        "Runs a script of events from standard input, and prints the frames that the hub sends \
         and the files that it then has",
        REPLAY_EXAMPLE,
    )
}
