//! Makes a script of lines in words.

ghost use Rattle.std.specs.Prelude.{◌≡◌, ◌⊎◌, Err, IfErr, OnOk, OnErr};
ghost use Rattle.std.specs.Io.KnownBytes.{Keeps};
ghost use Rattle.njh_arguments.specs.declared.arguments.Task.TheVariants.{Encode};
ghost use Rattle.njh_encode.specs.declared.fault.EncodeEnd.TheVariants.{BadLine};
ghost use Rattle.njh_encode.specs.declared.fault.EncodeFault.{EncodeFault};
ghost use Rattle.njh_subcommands.specs.Status.{ComesFirst};
ghost use Rattle.njh_subcommands.specs.Tasks.{FindsFault, HasBadWords, IsDone, IsDoneInPart, IsFailed};

use crate::failure::Failure;
use crate::letters::FileLetters;
use njh_encode::encode_script;
use std::io::{Read, Write};
use std::rt::Files;

/// Makes a script of lines in words.
pub(crate) fn encode_lines<F: Files + AllocGlobal, R: Read, W: Write>(
    rt: &F,
    script: &mut R,
    out: &mut W,
) -> Result<(), Failure>
    ensures done { OnOk result (IsDone Encode (R.remaining script.old) (W.contents out.old)
        (W.contents out.new)) }
    ensures failed { IfErr result (IsFailed Encode (R.remaining script.old)) }
    ensures bad { (fault : EncodeFault) → result ≡ Err (Failure.Encode (BadLine fault)) → HasBadWords Encode fault
        (R.remaining script.old) (W.contents out.old) (W.contents out.new) }
    ensures found { result ≡ Err Failure.Found → FindsFault Encode (W.contents out.old) (W.contents out.new) }
    ensures begun { OnErr result (Keeps (W.contents out.old) (W.contents out.new)
        ⊎ IsDoneInPart Encode (R.remaining script.old) (W.contents out.old) (W.contents out.new)) }
    ensures silent { IfErr result (λ failure. ComesFirst failure → Keeps (W.contents out.old) (W.contents out.new)) }
{
    match encode_script(rt.alloc(), script, &FileLetters::new(rt), out) {
        Ok(()) => Ok(()),
        Err(end) => Err(Failure::Encode(end)),
    }
}
