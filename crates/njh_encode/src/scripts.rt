//! Encodes a text in words from wherever it comes to wherever it goes.

ghost use Rattle.std.specs.Prelude.{◌≡◌, ℕ, [], ◌++◌, List, OnOk, OnErr, IfErr, IfSome};
ghost use Rattle.std.specs.Prelude.{Err, Some, None};
ghost use Rattle.std.specs.Io.KnownBytes.{Appends};
ghost use Rattle.njh_io.specs.Written.{AppendsBeginning};
ghost use Rattle.njh_encode.specs.Scripts.{IsEncodedInPart, IsEncodedTo};
ghost use Rattle.njh_encode.specs.code.Reading.{EndsBad, IsWritten, IsWrittenInPart, Takes};

use crate::fault::{EncodeEnd, EncodeFault};
use crate::letters::Letters;
use crate::reading::Reading;
use njh_io::{read_piece, write_bytes};
use std::alloc::Global;
use std::io::{Read, Write};

/// How many bytes are asked for at once: 64 kB.
const PIECE: usize = 65_536;

/// Writes the lines of a script that lines of words become, up to the first bad one. What the lines
/// of a piece become is written before the next piece is read.
///
/// A line has 1,048,576 bytes at most. A read or a write that was only interrupted is tried again.
/// A text of more lines than a number of 64 bits can count is a `Device`.
pub fn encode_script<R: Read, L: Letters, W: Write>(
    alloc: Global,
    input: &mut R,
    letters: &L,
    out: &mut W,
) -> Result<(), EncodeEnd>
    // No line of all that the reader had is bad, and what they become is written.
    ensures done { OnOk result (IfSome (R.remaining input.old)
        (IsEncodedTo (L.texts letters.now) None (W.contents out.old) (W.contents out.new))) }

    // This is the first bad line, and what those before it become is written.
    ensures bad { (fault : EncodeFault) → result ≡ Err (EncodeEnd.BadLine fault) → IfSome (R.remaining input.old)
        (IsEncodedTo (L.texts letters.now) (Some fault) (W.contents out.old) (W.contents out.new)) }

    // However it ends early, a beginning of the same script is written.
    ensures begun { OnErr result (IfSome (R.remaining input.old)
        (IsEncodedInPart (L.texts letters.now) (W.contents out.old) (W.contents out.new))) }
{
    let mut reading = Reading::new(alloc);
    let mut script = Vec::new(alloc);
    encode_all(&mut reading, &mut script, input, letters, out)
}

/// Writes what all becomes that a reader has, of which nothing was read. `script` is room for that.
fn encode_all<R: Read, L: Letters, W: Write>(
    reading: &mut Reading,
    script: &mut Vec<u8>,
    input: &mut R,
    letters: &L,
    out: &mut W,
) -> Result<(), EncodeEnd>
    requires none { reading.old ≡ record { states = []; number = 1; front = [] } }
    requires empty { script.old.items ≡ [] }
    ensures done { OnOk result (IfSome (R.remaining input.old)
        (IsEncodedTo (L.texts letters.now) None (W.contents out.old) (W.contents out.new))) }
    ensures bad { (fault : EncodeFault) → result ≡ Err (EncodeEnd.BadLine fault) → IfSome (R.remaining input.old)
        (IsEncodedTo (L.texts letters.now) (Some fault) (W.contents out.old) (W.contents out.new)) }
    ensures begun { OnErr result (IfSome (R.remaining input.old)
        (IsEncodedInPart (L.texts letters.now) (W.contents out.old) (W.contents out.new))) }
{
    let mut piece = [0; PIECE];
    for _ in 0..u64::MAX {
        match read_piece(input, &mut piece)? {
            None => return encode_end(reading, letters, script, out),
            Some(count) => {
                let (front, _) = piece.split_at(count);
                encode_piece(reading, front, letters, script, out)?;
            }
        }
    }
    Err(EncodeEnd::Device)
}

/// Takes a piece, and writes what each line becomes that ends in it, up to a bad one. `script` is
/// room for that.
fn encode_piece<L: Letters, W: Write>(
    reading: &mut Reading,
    piece: &[u8],
    letters: &L,
    script: &mut Vec<u8>,
    out: &mut W,
) -> Result<(), EncodeEnd>
    requires { script.old.items ≡ [] }
    ensures taken { OnOk result ((lines : List ℕ) × Appends (W.contents out.old) (W.contents out.new) lines
        × Takes (L.texts letters.now) reading.old piece.now lines reading.new) }
    ensures empty { OnOk result (script.new.items ≡ []) }
    ensures bad { (fault : EncodeFault) → result ≡ Err (EncodeEnd.BadLine fault)
        → (lines : List ℕ) × Appends (W.contents out.old) (W.contents out.new) lines
        × EndsBad (L.texts letters.now) reading.old piece.now (record { script = lines; bad = Some fault }) }
    ensures begun { OnErr result ((more : List ℕ) → IsWrittenInPart (L.texts letters.now) reading.old
        (W.contents out.old) (W.contents out.new) (piece.now ++ more)) }
{
    match reading.take(piece, letters, script) {
        Ok(()) => {
            write_bytes(out, script)?;
            script.clear();
            Ok(())
        }
        Err(EncodeEnd::BadLine(fault)) => {
            write_last(out, script)?;
            Err(EncodeEnd::BadLine(fault))
        }
        Err(EncodeEnd::Device) => Err(EncodeEnd::Device),
        Err(EncodeEnd::Memory) => Err(EncodeEnd::Memory),
    }
}

/// Writes what the last line becomes, if it has no end of its own.
fn encode_end<L: Letters, W: Write>(
    reading: &mut Reading,
    letters: &L,
    script: &mut Vec<u8>,
    out: &mut W,
) -> Result<(), EncodeEnd>
    requires { script.old.items ≡ [] }
    ensures done { OnOk result (IsWritten (L.texts letters.now) None reading.old (W.contents out.old)
        (W.contents out.new)) }
    ensures bad { (fault : EncodeFault) → result ≡ Err (EncodeEnd.BadLine fault)
        → IsWritten (L.texts letters.now) (Some fault) reading.old (W.contents out.old) (W.contents out.new) }
    ensures begun { OnErr result (IsWrittenInPart (L.texts letters.now) reading.old (W.contents out.old)
        (W.contents out.new) []) }
{
    match reading.end(letters, script) {
        Ok(()) => write_last(out, script),
        Err(EncodeEnd::BadLine(fault)) => {
            write_last(out, script)?;
            Err(EncodeEnd::BadLine(fault))
        }
        Err(EncodeEnd::Device) => Err(EncodeEnd::Device),
        Err(EncodeEnd::Memory) => Err(EncodeEnd::Memory),
    }
}

/// Writes the last bytes.
fn write_last<W: Write>(out: &mut W, bytes: &[u8]) -> Result<(), EncodeEnd>
    ensures ok { OnOk result (Appends (W.contents out.old) (W.contents out.new) bytes.now) }
    ensures err { OnErr result (AppendsBeginning (W.contents out.old) (W.contents out.new) bytes.now) }
    ensures device { IfErr result (λ end. end ≡ EncodeEnd.Device) }
{
    write_bytes(out, bytes)?;
    match out.flush() {
        Ok(()) => Ok(()),
        Err(_) => Err(EncodeEnd::Device),
    }
}
