//! What becomes of arguments that ask for nothing to be done.

ghost use Rattle.std.specs.Prelude.{◌⊎◌, map, IfErr, OnOk, OnErr};
ghost use Rattle.std.specs.Io.KnownBytes.{Keeps};
ghost use Rattle.njh_arguments.specs.Arguments.{AreRefusedBy};
ghost use Rattle.njh_program.specs.ProgramOutcome.{IsOfDevices};
ghost use Rattle.njh_program.specs.ShownText.{IsTextBegun, IsTextPrinted, IsTextShown, IsWordsEnd};
ghost use Rattle.njh_subcommands.specs.Status.{ComesFirst};

use clap::Error;
use njh_arguments::is_shown;
use njh_io::write_bytes;
use njh_subcommands::Failure;
use std::alloc::Global;
use std::convert::AsStr;
use std::io::Write;

/// Prints the version or the help that the arguments ask for, as `clap` says of them, or refuses
/// them.
pub(crate) fn show_or_refuse<S: AsStr, W: Write>(
    alloc: Global,
    arguments: &[S],
    refusal: Error,
    out: &mut W,
) -> Result<(), Failure>
    requires { AreRefusedBy (map S.text arguments.now) refusal }
    ensures shown { OnOk result (IsTextShown (map S.text arguments.now) (W.contents out.old) (W.contents out.new)) }
    ensures failed { IfErr result (IsWordsEnd (map S.text arguments.now)) }
    ensures begun { OnErr result (Keeps (W.contents out.old) (W.contents out.new)
        ⊎ IsTextBegun (W.contents out.old) (W.contents out.new)) }
    ensures silent { IfErr result (λ failure. ComesFirst failure → Keeps (W.contents out.old) (W.contents out.new)) }
{
    if is_shown(arguments, &refusal) {
        print_text(alloc, &refusal, out)
    } else {
        Err(Failure::from(refusal))
    }
}

/// Prints the text of a refusal that is none to the user.
fn print_text<W: Write>(alloc: Global, refusal: &Error, out: &mut W) -> Result<(), Failure>
    ensures printed { OnOk result (IsTextPrinted (W.contents out.old) (W.contents out.new)) }
    ensures failed { IfErr result IsOfDevices }
    ensures begun { OnErr result (Keeps (W.contents out.old) (W.contents out.new)
        ⊎ IsTextBegun (W.contents out.old) (W.contents out.new)) }
{
    let text = refusal.to_string(alloc)?;
    // Where memory was refused for a text, `clap` may have left it out.
    if text.is_empty() {
        return Err(Failure::Memory);
    }
    if write_bytes(out, text.as_bytes()).is_err() {
        return Err(Failure::Device);
    }
    match out.flush() {
        Ok(()) => Ok(()),
        Err(_) => Err(Failure::Device),
    }
}
