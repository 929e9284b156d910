//! Pieces of a text, as a reader gives them.

ghost use Rattle.std.specs.Prelude.{◌<◌, ◌≤◌, length, take, IfOk, IfSome, MatchOption};
ghost use Rattle.std.specs.Io.KnownBytes.{Consumes, IsAtEnd};

use crate::fault::PieceFault;
use std::io::{ErrorKind, Read};

/// Reads a piece, and answers how many bytes it has, at least one; nothing at the end.
///
/// A read that fails is the only refusal, unless it was only interrupted: then it is tried again.
pub fn read_piece<R: Read>(input: &mut R, piece: &mut [u8]) -> Result<Option<usize>, PieceFault>
    requires { 0 < length piece.old }
    ensures taken { IfOk result (λ read. MatchOption read (IsAtEnd (R.remaining input.old)) (λ count.
        (count ≤ length piece.new)
        × Consumes (R.remaining input.old) (R.remaining input.new) (take count piece.new))) }
    ensures some { IfOk result (λ read. IfSome read (λ count. 0 < count)) }
{
    for _ in 0..u64::MAX {
        match input.read(piece) {
            Ok(0) => return Ok(None),
            Ok(count) => return Ok(Some(count)),
            Err(error) if error.kind() == ErrorKind::Interrupted => {}
            Err(_) => return Err(PieceFault),
        }
    }
    Err(PieceFault)
}
