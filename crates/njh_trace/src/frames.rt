//! What the frames of one source say.

ghost use Rattle.std.specs.Prelude.{◌≡◌, ◌<◌, ◌≤◌, ◌++◌, length, drop, IfOk, IfSome, OnOk, option_map};
ghost use Rattle.njh_bisync.specs.Frames.{IsShort};
ghost use Rattle.njh_bisync.specs.LentFrames.{received_of};
ghost use Rattle.njh_bisync.specs.Reading.{frame_list};
ghost use Rattle.njh_bisync.specs.ByteSteps.{frames_after, rest_after};
ghost use Rattle.njh_trace.specs.Trace.{frames_told};

use njh_bisync::{Deframer, Frame};
use njh_decode::put_frame;
use std::alloc::AllocError;

/// Appends what each frame says that ends in a piece of a source's bytes, after the mark of the
/// source.
pub(crate) fn put_frames(
    lines: &mut Vec<u8>,
    deframer: &mut Deframer,
    piece: &[u8],
    mark: &[u8],
    hex: bool,
) -> Result<(), AllocError>
    ensures lines { OnOk result
        (lines.new.items ≡ lines.old.items ++ frames_told hex mark.now (frames_after deframer.old piece.now)) }
    ensures rest { OnOk result (deframer.new ≡ rest_after deframer.old piece.now) }
{
    let mut left = piece;
    while !left.is_empty() {
        let taken = put_first_frame(lines, deframer, left, mark, hex)?;
        let (_, after) = left.split_at(taken);
        left = after;
    }
    Ok(())
}

/// Appends what the first frame says that a piece ends, and answers how much of the piece it took.
fn put_first_frame(
    lines: &mut Vec<u8>,
    deframer: &mut Deframer,
    piece: &[u8],
    mark: &[u8],
    hex: bool,
) -> Result<usize, AllocError>
    ensures within { IfOk result (λ taken. taken ≤ length piece.now) }
    ensures progress { IfOk result (λ taken. 0 < length piece.now → 0 < taken) }
    ensures lines { IfOk result (λ taken.
        lines.new.items ++ frames_told hex mark.now (frames_after deframer.new (drop taken piece.now))
        ≡ lines.old.items ++ frames_told hex mark.now (frames_after deframer.old piece.now)) }
    ensures rest { IfOk result (λ taken. rest_after deframer.new (drop taken piece.now)
        ≡ rest_after deframer.old piece.now) }
{
    let (taken, frame) = deframer.feed(piece);
    put_any_frame(lines, frame, mark, hex)?;
    Ok(taken)
}

/// Appends what a frame says, if there is one.
fn put_any_frame(
    lines: &mut Vec<u8>,
    frame: Option<Frame<'_>>,
    mark: &[u8],
    hex: bool,
) -> Result<(), AllocError>
    requires { IfSome frame (λ frame. IsShort (received_of frame)) }
    ensures { OnOk result (lines.new.items
        ≡ lines.old.items ++ frames_told hex mark.now (frame_list (option_map received_of frame.entry))) }
{
    match frame {
        Some(frame) => {
            lines.extend_from_slice(mark)?;
            put_frame(lines, frame, hex)
        }
        None => Ok(()),
    }
}
