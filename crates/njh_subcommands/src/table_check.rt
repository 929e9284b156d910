//! Checks a table file, and says what it has or what is wrong with it.

ghost use Rattle.std.specs.Prelude.{◌≡◌, ◌⊎◌, true, false, Err, IfErr, OnOk, OnErr};
ghost use Rattle.std.specs.Io.KnownBytes.{Appends, Keeps};
ghost use Rattle.njh_io.specs.Written.{AppendsBeginning};
ghost use Rattle.njh_subcommands.specs.TableChecks.{no_text_words, IsTablesBegun, IsTablesEnd, IsTablesTold, IsToldOf};
ghost use Rattle.njh_subcommands.specs.TableChecks.{MayTell};
ghost use Rattle.njh_subcommands.specs.Status.{ComesFirst};

use crate::failure::Failure;
use crate::table_file::table_bytes;
use njh_check::{CheckFault, check};
use njh_io::write_bytes;
use std::alloc::Global;
use std::io::Write;
use std::rt::Files;

/// What is said of a file that is no text.
const NO_TEXT: &[u8] = b"K1 BadToml: not UTF-8\n";

/// Checks a table file: says its customers, lines, routes and quotas, or its first fault and where
/// it is. A file with a fault is `Found`.
pub(crate) fn check_tables_file<R: Files + AllocGlobal, W: Write>(
    rt: &R,
    path: &str,
    out: &mut W,
) -> Result<(), Failure>
    ensures right { OnOk result (IsTablesTold true (W.contents out.old) (W.contents out.new)) }
    ensures found { result ≡ Err Failure.Found → IsTablesTold false (W.contents out.old) (W.contents out.new) }
    ensures failed { IfErr result IsTablesEnd }
    ensures begun { OnErr result (Keeps (W.contents out.old) (W.contents out.new)
        ⊎ IsTablesBegun (W.contents out.old) (W.contents out.new)) }
    ensures silent { IfErr result (λ failure. ComesFirst failure → Keeps (W.contents out.old) (W.contents out.new)) }
{
    let bytes = table_bytes(rt, path)?;
    tell_tables(rt.alloc(), &bytes, out)
}

/// Says what the bytes of a table file have, or their first fault.
pub(crate) fn tell_tables<W: Write>(alloc: Global, bytes: &[u8], out: &mut W) -> Result<(), Failure>
    ensures right { OnOk result (IsToldOf true bytes.now (W.contents out.old) (W.contents out.new)) }
    ensures found { result ≡ Err Failure.Found → IsToldOf false bytes.now (W.contents out.old) (W.contents out.new) }
    ensures failed { IfErr result MayTell }
    ensures begun { OnErr result (Keeps (W.contents out.old) (W.contents out.new)
        ⊎ IsTablesBegun (W.contents out.old) (W.contents out.new)) }
{
    match str::from_utf8(bytes) {
        Ok(text) => match check(alloc, text, out) {
            Ok(None) => Ok(()),
            Ok(Some(_)) => Err(Failure::Found),
            Err(CheckFault::Memory) => Err(Failure::Memory),
            Err(CheckFault::Device) => Err(Failure::Device),
        },
        Err(_) => tell_no_text(out),
    }
}

/// Says that a file is no text.
fn tell_no_text<W: Write>(out: &mut W) -> Result<(), Failure>
    ensures found { result ≡ Err Failure.Found → Appends (W.contents out.old) (W.contents out.new) no_text_words }
    ensures failed { IfErr result MayTell }
    ensures fault { OnErr result (AppendsBeginning (W.contents out.old) (W.contents out.new) no_text_words) }
    ensures bad { OnOk result ⊥ }
{
    if write_bytes(out, NO_TEXT).is_err() {
        return Err(Failure::Device);
    }
    match out.flush() {
        Ok(()) => Err(Failure::Found),
        Err(_) => Err(Failure::Device),
    }
}
