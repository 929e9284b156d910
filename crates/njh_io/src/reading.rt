//! Reads a text up to a limit from wherever it comes.

ghost use Rattle.std.specs.Prelude.{◌≡◌, ◌<◌, ◌≤◌, length, vec_len, IfOk, IfSome, OnOk, ◌++◌, ◌+◌, ◌↔◌};

use crate::fault::ReadFault;
use std::alloc::Global;
use std::io::{ErrorKind, Read};

/// How many bytes are asked for at once: 64 kB.
const PIECE: usize = 65_536;

/// All that a reader has left, which is at most so many bytes.
///
/// One byte more is `TooLong`. A read that fails is `Device`, unless it was only interrupted.
pub fn read_text<R: Read>(alloc: Global, limit: usize, reader: &mut R) -> Result<Vec<u8>, ReadFault>
    ensures text { IfOk result (λ text. IfSome (R.remaining reader.old) (λ left. text.items ≡ left)) }
    ensures within { IfOk result (λ text. vec_len text ≤ limit) }
    ensures long { result ≡ Err ReadFault.TooLong → IfSome (R.remaining reader.old) (λ left. limit < length left) }
{
    let mut text = Vec::new(alloc);
    let mut piece = [0; PIECE];
    for _ in 0..u64::MAX {
        match reader.read(&mut piece) {
            Ok(0) => return Ok(text),
            Ok(count) => add_piece(&mut text, limit, &piece[..count])?,
            Err(error) if error.kind() == ErrorKind::Interrupted => {}
            Err(_) => return Err(ReadFault::Device),
        }
    }
    Err(ReadFault::Device)
}

/// Adds a piece to a text, if the limit isn't passed.
fn add_piece(text: &mut Vec<u8>, limit: usize, piece: &[u8]) -> Result<(), ReadFault>
    requires { vec_len text.old ≤ limit }
    ensures ok { OnOk result (text.new.items ≡ text.old.items ++ piece.now) }
    ensures within { OnOk result (vec_len text.new ≤ limit) }
    ensures long { (result ≡ Err ReadFault.TooLong) ↔ (limit < vec_len text.old + length piece.now) }
{
    if limit - text.len() < piece.len() {
        return Err(ReadFault::TooLong);
    }
    text.extend_from_slice(piece)?;
    Ok(())
}
