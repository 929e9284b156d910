//! What is printed.

ghost use Rattle.std.specs.Prelude.{◌≡◌, ◌+◌, ◌*◌, length, OnOk, OnErr};
ghost use Rattle.std.specs.Io.KnownBytes.{Appends};
ghost use Rattle.hex.specs.Hex.{encode_lower};
ghost use Rattle.njh_io.specs.Written.{AppendsBeginning};
ghost use Rattle.njh_replay.specs.Printed.{frame_text};

use njh_io::{WriteFault, write_bytes};
use std::io::Write;

/// How many bytes become hex at once, and how many digits they are.
const PIECE: usize = 2048;

const DIGITS: usize = 2 * PIECE;

/// The longest name of a line that is printed with its frame at once.
const NAME: usize = 254;

/// How many bytes such a name takes with such a frame, a blank between them and the line's end.
const LINE: usize = NAME + DIGITS + 2;

/// Room for the text of a frame. It is kept from frame to frame, since making it clears it.
#[derive(Drop)]
pub struct FrameRoom {
    text: [u8; LINE],
}

impl FrameRoom {
    /// Room that nothing was printed in.
    pub(crate) fn new() -> FrameRoom {
        FrameRoom { text: [0; LINE] }
    }
}

/// Prints a frame that goes out on a line of this name, by one write if it has the room. It
/// takes no memory. After a fault a beginning of it was printed.
pub fn print_frame<W: Write>(
    out: &mut W,
    name: &str,
    frame: &[u8],
    room: &mut FrameRoom,
) -> Result<(), WriteFault>
    ensures ok { OnOk result (Appends (W.contents out.old) (W.contents out.new) (frame_text name.now frame.now)) }
    ensures err { OnErr result (AppendsBeginning (W.contents out.old) (W.contents out.new)
        (frame_text name.now frame.now)) }
{
    if name.len() <= NAME && frame.len() <= PIECE {
        let len = name.len() + 1 + 2 * frame.len() + 1;
        let text = &mut room.text[..len];
        put_frame(name.as_bytes(), frame, text);
        return write_bytes(out, text);
    }
    print_parts(out, name, frame, &mut room.text)
}

/// Puts the text of a frame into room of its length.
fn put_frame(name: &[u8], frame: &[u8], text: &mut [u8])
    requires { length text.old ≡ length name.now + 1 + 2 * length frame.now + 1 }
    ensures { text.new ≡ frame_text name.now frame.now }
{
    let (front, rest) = text.split_at_mut(name.len());
    front.copy_from_slice(name);
    let (blank, rest) = rest.split_at_mut(1);
    blank.copy_from_slice(b" ");
    let (digits, end) = rest.split_at_mut(2 * frame.len());
    hex::encode_to_slice(frame, digits).unwrap();
    end.copy_from_slice(b"\n");
}

/// The same as `print_frame`, part by part.
fn print_parts<W: Write>(
    out: &mut W,
    name: &str,
    frame: &[u8],
    digits: &mut [u8; LINE],
) -> Result<(), WriteFault>
    ensures ok { OnOk result (Appends (W.contents out.old) (W.contents out.new) (frame_text name.now frame.now)) }
    ensures err { OnErr result (AppendsBeginning (W.contents out.old) (W.contents out.new)
        (frame_text name.now frame.now)) }
{
    write_bytes(out, name.as_bytes())?;
    write_bytes(out, b" ")?;
    print_hex(out, frame, digits)?;
    write_bytes(out, b"\n")
}

/// Prints bytes in lower-case hex. After a fault a beginning of it was printed.
fn print_hex<W: Write>(out: &mut W, bytes: &[u8], digits: &mut [u8; LINE]) -> Result<(), WriteFault>
    ensures ok { OnOk result (Appends (W.contents out.old) (W.contents out.new) (encode_lower bytes.now)) }
    ensures err { OnErr result (AppendsBeginning (W.contents out.old) (W.contents out.new) (encode_lower bytes.now)) }
{
    let mut rest = bytes;
    while !rest.is_empty() {
        let (piece, after) = rest.split_at(rest.len().min(PIECE));
        let text = &mut digits[..2 * piece.len()];
        hex::encode_to_slice(piece, text).unwrap();
        write_bytes(out, text)?;
        rest = after;
    }
    Ok(())
}
