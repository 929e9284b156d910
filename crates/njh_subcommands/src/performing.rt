//! Does what needs no socket and no spool file.

ghost use Rattle.std.specs.Prelude.{◌≡◌, ◌⊎◌, Err, IfErr, OnOk, OnErr};
ghost use Rattle.std.specs.Io.KnownBytes.{Keeps};
ghost use Rattle.njh_encode.specs.declared.fault.EncodeEnd.TheVariants.{BadLine};
ghost use Rattle.njh_encode.specs.declared.fault.EncodeFault.{EncodeFault};
ghost use Rattle.njh_subcommands.specs.Status.{ComesFirst};
ghost use Rattle.njh_subcommands.specs.Tasks.{FindsFault, HasBadWords, IsDone, IsDoneInPart, IsFailed};

use crate::checking::check_script_file;
use crate::encoding::encode_lines;
use crate::failure::Failure;
use crate::replaying::replay_by;
use crate::table_check::check_tables_file;
use crate::tracing::tell_trace;
use njh_arguments::Task;
use std::io::{Read, Write};
use std::rt::Files;

/// Does what a task asks for: its tables are checked first, then the script. `script` is what it is
/// given to read: a script, for `Decode` a trace, for `Encode` lines in words.
pub fn perform<F: Files + AllocGlobal, R: Read, W: Write>(
    rt: &F,
    task: Task<'_>,
    script: &mut R,
    out: &mut W,
) -> Result<(), Failure>
    ensures done { OnOk result (IsDone task.entry (R.remaining script.old) (W.contents out.old)
        (W.contents out.new)) }
    ensures failed { IfErr result (IsFailed task.entry (R.remaining script.old)) }
    ensures bad { (fault : EncodeFault) → result ≡ Err (Failure.Encode (BadLine fault)) → HasBadWords task.entry fault
        (R.remaining script.old) (W.contents out.old) (W.contents out.new) }
    ensures found { result ≡ Err Failure.Found → FindsFault task.entry (W.contents out.old) (W.contents out.new) }
    ensures begun { OnErr result (Keeps (W.contents out.old) (W.contents out.new)
        ⊎ IsDoneInPart task.entry (R.remaining script.old) (W.contents out.old) (W.contents out.new)) }
    ensures silent { IfErr result (λ failure. ComesFirst failure → Keeps (W.contents out.old) (W.contents out.new)) }
{
    match task {
        Task::Replay { tables, in_words } => replay_by(rt, tables, in_words, script, out),
        Task::Decode { hex } => tell_trace(rt.alloc(), hex, script, out),
        Task::Encode => encode_lines(rt, script, out),
        Task::CheckTables { tables } => check_tables_file(rt, tables, out),
        Task::CheckScript { tables, file } => check_script_file(rt, tables, file, out),
    }
}
