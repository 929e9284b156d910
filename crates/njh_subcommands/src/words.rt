//! A replay whose output is printed in words.

ghost use Rattle.std.specs.Prelude.{◌⊎◌, IfErr, OnOk, OnErr};
ghost use Rattle.std.specs.Io.KnownBytes.{Keeps};
ghost use Rattle.njh_subcommands.specs.Tasks.{IsBegunInWords, IsReplayedInWords, IsReplayRefused};
ghost use Rattle.njh_subcommands.specs.Status.{ComesFirst};

use crate::failure::Failure;
use njh_replay::{ReplayFault, replay};
use njh_table::Tables;
use njh_trace::decode_trace;
use std::alloc::Global;
use std::io::{Read, Write};

/// Room for the first of what a replay prints, which has more than any of its lines: 64 kB.
const FIRST_ROOM: usize = 65_536;

/// Replays a script, and prints what `decode` says of that, after the run is over.
pub(crate) fn replay_in_words<R: Read, W: Write>(
    alloc: Global,
    tables: Tables,
    script: &mut R,
    out: &mut W,
) -> Result<(), Failure>
    ensures done { OnOk result (IsReplayedInWords tables (R.remaining script.old) (W.contents out.old)
        (W.contents out.new)) }
    ensures refused { IfErr result (IsReplayRefused tables (R.remaining script.old)) }
    ensures begun { OnErr result (Keeps (W.contents out.old) (W.contents out.new)
        ⊎ IsBegunInWords tables (R.remaining script.old) (W.contents out.old) (W.contents out.new)) }
    ensures silent { IfErr result (λ failure. ComesFirst failure → Keeps (W.contents out.old) (W.contents out.new)) }
{
    let mut text = Vec::with_capacity(alloc, FIRST_ROOM)?;
    match replay(alloc, tables, script, &mut text) {
        Ok(()) => {
            decode_trace(alloc, &mut text.as_slice(), out, false)?;
            Ok(())
        }
        // A list takes what is written to it as long as there is memory, and its first room holds
        // the first line.
        Err(ReplayFault::Device) if !text.is_empty() => Err(Failure::Memory),
        Err(fault) => Err(Failure::Replay(fault)),
    }
}
