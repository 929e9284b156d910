//! Says a trace in words.

ghost use Rattle.std.specs.Prelude.{◌≡◌, ◌⊎◌, Err, IfErr, OnOk, OnErr};
ghost use Rattle.std.specs.Io.KnownBytes.{Keeps};
ghost use Rattle.njh_arguments.specs.declared.arguments.Task.TheVariants.{Decode};
ghost use Rattle.njh_encode.specs.declared.fault.EncodeEnd.TheVariants.{BadLine};
ghost use Rattle.njh_encode.specs.declared.fault.EncodeFault.{EncodeFault};
ghost use Rattle.njh_subcommands.specs.Status.{ComesFirst};
ghost use Rattle.njh_subcommands.specs.Tasks.{FindsFault, HasBadWords, IsDone, IsDoneInPart, IsFailed};

use crate::failure::Failure;
use njh_trace::decode_trace;
use std::alloc::Global;
use std::io::{Read, Write};

/// Says a trace in words.
pub(crate) fn tell_trace<R: Read, W: Write>(
    alloc: Global,
    hex: bool,
    script: &mut R,
    out: &mut W,
) -> Result<(), Failure>
    ensures done { OnOk result (IsDone (Decode hex) (R.remaining script.old) (W.contents out.old)
        (W.contents out.new)) }
    ensures failed { IfErr result (IsFailed (Decode hex) (R.remaining script.old)) }
    ensures bad { (fault : EncodeFault) → result ≡ Err (Failure.Encode (BadLine fault)) → HasBadWords (Decode hex) fault
        (R.remaining script.old) (W.contents out.old) (W.contents out.new) }
    ensures found { result ≡ Err Failure.Found → FindsFault (Decode hex) (W.contents out.old) (W.contents out.new) }
    ensures begun { OnErr result (Keeps (W.contents out.old) (W.contents out.new)
        ⊎ IsDoneInPart (Decode hex) (R.remaining script.old) (W.contents out.old) (W.contents out.new)) }
    ensures silent { IfErr result (λ failure. ComesFirst failure → Keeps (W.contents out.old) (W.contents out.new)) }
{
    match decode_trace(alloc, script, out, hex) {
        Ok(()) => Ok(()),
        Err(fault) => Err(Failure::Trace(fault)),
    }
}
