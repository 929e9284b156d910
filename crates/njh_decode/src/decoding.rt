//! What the bytes of a line say.

ghost use Rattle.std.specs.Prelude.{◌≡◌, ℕ, ◌<◌, ◌≤◌, List, ◌++◌, length, drop, IfOk, IfSome, OnOk, option_map};
ghost use Rattle.njh_bisync.specs.Frames.{IsShort, Received};
ghost use Rattle.njh_bisync.specs.LentFrames.{received_of};
ghost use Rattle.njh_bisync.specs.Reading.{Reads, frame_list};
ghost use Rattle.njh_bisync.specs.ByteSteps.{frames_after, rest_after};
ghost use Rattle.njh_decode.specs.Frames.{lines_of};

use crate::frames::put_frame;
use njh_bisync::{Deframer, Frame};
use std::alloc::AllocError;

/// Appends the lines of each frame (IBM GA27-3004) that ends in a piece of a line's bytes, in
/// order, none left out: those that `put_frame` has for it. Bytes that belong to no frame have no
/// words.
///
/// The deframer is that of one line in one direction, and keeps what has come of a frame that isn't
/// whole; `Deframer::reset` drops that, as after a loss. Want of memory is the only refusal. Then
/// some of the frames are not told, and the deframer may have taken them.
pub fn decode(
    deframer: &mut Deframer,
    piece: &[u8],
    hex: bool,
    lines: &mut Vec<u8>,
) -> Result<(), AllocError>
    ensures lines { OnOk result
        (lines.new.items ≡ lines.old.items ++ lines_of hex (frames_after deframer.old piece.now)) }
    ensures rest { OnOk result (deframer.new ≡ rest_after deframer.old piece.now) }

    // By the grammar these are the frames of the piece, whatever came before it.
    ensures grammar { (seen : List ℕ) (frames : List Received) → Reads seen frames deframer.old
        → Reads (seen ++ piece.now) (frames ++ frames_after deframer.old piece.now)
        (rest_after deframer.old piece.now) }
{
    let mut left = piece;
    while !left.is_empty() {
        let taken = put_first_frame(deframer, left, hex, lines)?;
        let (_, after) = left.split_at(taken);
        left = after;
    }
    Ok(())
}

/// Appends the lines of the first frame that a piece ends, and says how much of the piece it took.
fn put_first_frame(
    deframer: &mut Deframer,
    piece: &[u8],
    hex: bool,
    lines: &mut Vec<u8>,
) -> Result<usize, AllocError>
    ensures within { IfOk result (λ taken. taken ≤ length piece.now) }
    ensures progress { IfOk result (λ taken. 0 < length piece.now → 0 < taken) }
    ensures lines { IfOk result (λ taken.
        lines.new.items ++ lines_of hex (frames_after deframer.new (drop taken piece.now))
        ≡ lines.old.items ++ lines_of hex (frames_after deframer.old piece.now)) }
    ensures rest { IfOk result (λ taken. rest_after deframer.new (drop taken piece.now)
        ≡ rest_after deframer.old piece.now) }
{
    let (taken, frame) = deframer.feed(piece);
    put_any_frame(lines, frame, hex)?;
    Ok(taken)
}

/// Appends the lines of a frame, if there is one.
fn put_any_frame(lines: &mut Vec<u8>, frame: Option<Frame<'_>>, hex: bool) -> Result<(), AllocError>
    requires { IfSome frame (λ frame. IsShort (received_of frame)) }
    ensures { OnOk result (lines.new.items
        ≡ lines.old.items ++ lines_of hex (frame_list (option_map received_of frame.entry))) }
{
    match frame {
        Some(frame) => put_frame(lines, frame, hex),
        None => Ok(()),
    }
}
