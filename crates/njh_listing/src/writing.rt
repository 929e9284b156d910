//! Writes a whole text.

ghost use Rattle.std.specs.Prelude.{IfErr, OnErr, OnOk};
ghost use Rattle.std.specs.Io.KnownBytes.{Appends};
ghost use Rattle.njh_listing.specs.Faults.{IsOfSpool};
ghost use Rattle.njh_io.specs.Written.{AppendsBeginning};

use crate::fault::FilesFault;
use njh_io::write_bytes;
use std::io::Write;

/// Writes a whole text. After a fault a beginning of it was written.
pub(crate) fn write_text<W: Write>(out: &mut W, text: &[u8]) -> Result<(), FilesFault>
    ensures ok { OnOk result (Appends (W.contents out.old) (W.contents out.new) text.now) }
    ensures err { OnErr result (AppendsBeginning (W.contents out.old) (W.contents out.new) text.now) }
    ensures fault { IfErr result IsOfSpool }
{
    if write_bytes(out, text).is_err() {
        return Err(FilesFault::Device);
    }
    match out.flush() {
        Ok(()) => Ok(()),
        Err(_) => Err(FilesFault::Device),
    }
}
