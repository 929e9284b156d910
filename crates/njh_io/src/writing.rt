//! Writes bytes to their end.

ghost use Rattle.std.specs.Prelude.{OnOk, OnErr};
ghost use Rattle.std.specs.Io.KnownBytes.{Appends};
ghost use Rattle.njh_io.specs.Written.{AppendsBeginning};

use crate::fault::WriteFault;
use std::io::{ErrorKind, Write};

/// Writes all of the bytes. After a fault a beginning of them was written.
pub fn write_bytes<W: Write>(out: &mut W, bytes: &[u8]) -> Result<(), WriteFault>
    ensures ok { OnOk result (Appends (W.contents out.old) (W.contents out.new) bytes.now) }
    ensures err { OnErr result (AppendsBeginning (W.contents out.old) (W.contents out.new) bytes.now) }
{
    let mut rest = bytes;
    for _ in 0..u64::MAX {
        if rest.is_empty() {
            return Ok(());
        }
        match out.write(rest) {
            Ok(0) => return Err(WriteFault),
            Ok(count) => {
                let (_, after) = rest.split_at(count);
                rest = after;
            }
            Err(error) if error.kind() == ErrorKind::Interrupted => {}
            Err(_) => return Err(WriteFault),
        }
    }
    Err(WriteFault)
}
