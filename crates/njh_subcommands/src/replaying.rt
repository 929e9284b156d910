//! Replays a script.

ghost use Rattle.std.specs.Prelude.{◌≡◌, ◌⊎◌, false, Err, IfErr, OnOk, OnErr};
ghost use Rattle.std.specs.Io.KnownBytes.{Keeps};
ghost use Rattle.njh_arguments.specs.declared.arguments.Task.TheVariants as task;
ghost use Rattle.njh_encode.specs.declared.fault.EncodeEnd.TheVariants.{BadLine};
ghost use Rattle.njh_encode.specs.declared.fault.EncodeFault.{EncodeFault};
ghost use Rattle.njh_subcommands.specs.Status.{ComesFirst};
ghost use Rattle.njh_subcommands.specs.Tasks.{FindsFault, HasBadWords, IsBegunAs, IsDone, IsDoneInPart, IsFailed};
ghost use Rattle.njh_subcommands.specs.Tasks.{IsReplayedAs, IsReplayRefusedAs};

use crate::failure::Failure;
use crate::table_file::tables_of;
use crate::words::replay_in_words;
use njh_replay::replay;
use njh_table::Tables;
use std::alloc::Global;
use std::io::{Read, Write};
use std::rt::Files;

/// Replays a script by the tables of a file, or by the base tables if none is named, with its
/// output in words or not.
pub(crate) fn replay_by<F: Files + AllocGlobal, R: Read, W: Write>(
    rt: &F,
    tables: Option<&str>,
    in_words: bool,
    script: &mut R,
    out: &mut W,
) -> Result<(), Failure>
    ensures done { OnOk result (IsDone (task.Replay tables.entry in_words) (R.remaining script.old) (W.contents out.old)
        (W.contents out.new)) }
    ensures failed { IfErr result (IsFailed (task.Replay tables.entry in_words) (R.remaining script.old)) }
    ensures bad { (fault : EncodeFault) → result ≡ Err (Failure.Encode (BadLine fault))
        → HasBadWords (task.Replay tables.entry in_words) fault
        (R.remaining script.old) (W.contents out.old) (W.contents out.new) }
    ensures found { result ≡ Err Failure.Found
        → FindsFault (task.Replay tables.entry in_words) (W.contents out.old) (W.contents out.new) }
    ensures begun { OnErr result (Keeps (W.contents out.old) (W.contents out.new)
        ⊎ IsDoneInPart (task.Replay tables.entry in_words) (R.remaining script.old) (W.contents out.old)
        (W.contents out.new)) }
    ensures silent { IfErr result (λ failure. ComesFirst failure → Keeps (W.contents out.old) (W.contents out.new)) }
{
    match tables_of(rt, tables) {
        Ok(tables) => replay_as(rt.alloc(), tables, in_words, script, out),
        Err(failure) => Err(failure),
    }
}

/// Replays a script by these tables.
fn replay_as<R: Read, W: Write>(
    alloc: Global,
    tables: Tables,
    in_words: bool,
    script: &mut R,
    out: &mut W,
) -> Result<(), Failure>
    ensures done { OnOk result (IsReplayedAs in_words tables (R.remaining script.old) (W.contents out.old)
        (W.contents out.new)) }
    ensures refused { IfErr result (IsReplayRefusedAs in_words tables (R.remaining script.old)) }
    ensures begun { OnErr result (Keeps (W.contents out.old) (W.contents out.new)
        ⊎ IsBegunAs in_words tables (R.remaining script.old) (W.contents out.old) (W.contents out.new)) }
    ensures silent { IfErr result (λ failure. ComesFirst failure → Keeps (W.contents out.old) (W.contents out.new)) }
{
    if in_words {
        replay_in_words(alloc, tables, script, out)
    } else {
        replay_plainly(alloc, tables, script, out)
    }
}

/// Replays a script, and prints what the run prints.
fn replay_plainly<R: Read, W: Write>(
    alloc: Global,
    tables: Tables,
    script: &mut R,
    out: &mut W,
) -> Result<(), Failure>
    ensures done { OnOk result (IsReplayedAs false tables (R.remaining script.old) (W.contents out.old)
        (W.contents out.new)) }
    ensures refused { IfErr result (IsReplayRefusedAs false tables (R.remaining script.old)) }
    ensures begun { OnErr result (Keeps (W.contents out.old) (W.contents out.new)
        ⊎ IsBegunAs false tables (R.remaining script.old) (W.contents out.old) (W.contents out.new)) }
    ensures silent { IfErr result (λ failure. ComesFirst failure → Keeps (W.contents out.old) (W.contents out.new)) }
{
    match replay(alloc, tables, script, out) {
        Ok(()) => Ok(()),
        Err(fault) => Err(Failure::Replay(fault)),
    }
}
