//! Tells a trace from wherever it comes to wherever it goes.

ghost use Rattle.std.specs.Prelude.{◌≡◌, ◌≢◌, ℕ, [], ◌++◌, List, true, false, OnOk, OnErr, IfSome, Err};
ghost use Rattle.std.specs.Io.KnownBytes.{Appends};
ghost use Rattle.std.specs.List.{list_any};
ghost use Rattle.njh_io.specs.Written.{AppendsBeginning};
ghost use Rattle.njh_io.specs.Lines.{is_long_line, lines_from};
ghost use Rattle.njh_trace.specs.Trace.{has_long_line, trace_told};
ghost use Rattle.njh_trace.specs.code.Reading.{told_behind, Takes};

use crate::fault::TraceFault;
use crate::reading::Reading;
use njh_io::{read_piece, write_bytes};
use std::alloc::Global;
use std::io::{Read, Write};

/// How many bytes are asked for at once: 64 kB.
const PIECE: usize = 65_536;

/// Writes what a trace says, line by line: a line that gives bytes becomes the words of the frames
/// that end in them, and any other line stays as it is. What the lines of a piece say is written
/// before the next piece is read.
///
/// It keeps 512 sources and a line of 1,048,576 bytes at most; of a longer line, and of what comes
/// after it in the trace, nothing is told. A read or a write that was only interrupted is tried
/// again.
pub fn decode_trace<R: Read, W: Write>(
    alloc: Global,
    input: &mut R,
    out: &mut W,
    hex: bool,
) -> Result<(), TraceFault>
    // All that the reader had is told.
    ensures told { OnOk result (IfSome (R.remaining input.old)
        (λ text. Appends (W.contents out.old) (W.contents out.new) (trace_told hex text))) }

    // A line is too long, or none is.
    ensures short { OnOk result (IfSome (R.remaining input.old) (λ text. has_long_line text ≡ false)) }
    ensures long { result ≡ Err TraceFault.TooLong
        → IfSome (R.remaining input.old) (λ text. has_long_line text ≡ true) }

    // If it ends early, a beginning of the same text is written.
    ensures begun { OnErr result (IfSome (R.remaining input.old)
        (λ text. AppendsBeginning (W.contents out.old) (W.contents out.new) (trace_told hex text))) }
{
    let mut reading = Reading::new(alloc);
    let mut lines = Vec::new(alloc);
    tell_all(&mut reading, hex, &mut lines, input, out)
}

/// Writes what all says that a reader has, of which nothing was read. `lines` is room for that.
fn tell_all<R: Read, W: Write>(
    reading: &mut Reading,
    hex: bool,
    lines: &mut Vec<u8>,
    input: &mut R,
    out: &mut W,
) -> Result<(), TraceFault>
    requires none { reading.old ≡ record { sources = []; front = [] } }
    requires empty { lines.old.items ≡ [] }
    ensures told { OnOk result (IfSome (R.remaining input.old)
        (λ text. Appends (W.contents out.old) (W.contents out.new) (trace_told hex text))) }
    ensures short { OnOk result (IfSome (R.remaining input.old) (λ text. has_long_line text ≡ false)) }
    ensures long { result ≡ Err TraceFault.TooLong
        → IfSome (R.remaining input.old) (λ text. has_long_line text ≡ true) }
    ensures begun { OnErr result (IfSome (R.remaining input.old)
        (λ text. AppendsBeginning (W.contents out.old) (W.contents out.new) (trace_told hex text))) }
{
    let mut piece = [0; PIECE];
    for _ in 0..u64::MAX {
        match read_piece(input, &mut piece)? {
            None => return tell_end(reading, hex, lines, out),
            Some(count) => {
                let (front, _) = piece.split_at(count);
                tell_piece(reading, front, hex, lines, out)?;
            }
        }
    }
    Err(TraceFault::Device)
}

/// Takes a piece, and writes what each line says that ends in it. `lines` is room for that.
fn tell_piece<W: Write>(
    reading: &mut Reading,
    piece: &[u8],
    hex: bool,
    lines: &mut Vec<u8>,
    out: &mut W,
) -> Result<(), TraceFault>
    requires { lines.old.items ≡ [] }
    ensures taken { OnOk result ((told : List ℕ) × Appends (W.contents out.old) (W.contents out.new) told
        × Takes hex reading.old piece.now told reading.new) }
    ensures empty { OnOk result (lines.new.items ≡ []) }
    ensures long { result ≡ Err TraceFault.TooLong → (more : List ℕ)
        → list_any is_long_line (lines_from reading.old.front (piece.now ++ more)) ≡ true }
    ensures begun { OnErr result ((more : List ℕ) → AppendsBeginning (W.contents out.old) (W.contents out.new)
        (told_behind hex reading.old (piece.now ++ more))) }
{
    reading.take(piece, hex, lines)?;
    write_bytes(out, lines)?;
    lines.clear();
    Ok(())
}

/// Writes what the last line says, if it has no end of its own.
fn tell_end<W: Write>(
    reading: &mut Reading,
    hex: bool,
    lines: &mut Vec<u8>,
    out: &mut W,
) -> Result<(), TraceFault>
    requires { lines.old.items ≡ [] }
    ensures told { OnOk result (Appends (W.contents out.old) (W.contents out.new) (told_behind hex reading.old [])) }
    ensures short { OnOk result (list_any is_long_line (lines_from reading.old.front []) ≡ false) }
    ensures not_long { result ≢ Err TraceFault.TooLong }
    ensures begun { OnErr result (AppendsBeginning (W.contents out.old) (W.contents out.new)
        (told_behind hex reading.old [])) }
{
    reading.end(hex, lines)?;
    write_bytes(out, lines)?;
    match out.flush() {
        Ok(()) => Ok(()),
        Err(_) => Err(TraceFault::Device),
    }
}
