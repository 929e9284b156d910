//! Frames written: as TTBs for the connection, and as bytes for the line.
ghost use Rattle.std.specs.Prelude.{◌≡◌, ◌+◌, ◌<◌, ◌≤◌, ◌^◌, ◌++◌, ◌∷◌, length, IsOk, OnOk, OnErr, vec_len};
ghost use Rattle.std.specs.Prelude.{vec_capacity};
ghost use Rattle.byteorder.specs.Endian.{big_bytes};
ghost use Rattle.njh_bisync.specs.Limits.{longest_frame, longest_text};
ghost use Rattle.njh_tcp.specs.Carried.{IsShort};
ghost use Rattle.njh_tcp.specs.LentFrames.{carried_of};
ghost use Rattle.njh_tcp.specs.Written.{framed, line_bytes, ttb_bytes};

use crate::frame::TcpFrame;
use crate::heads::{SHORTEST_TTB, TTR_HEAD};
use crate::ttr_byte::{ACK_0, DLE, ENQ, SOH, STX};
use byteorder::{BigEndian, ByteOrder};
use njh_bisync::{Control, put_control, put_text};
use std::alloc::AllocError;

/// The most bytes of a TTB that is written: that of the longest text.
pub const LONGEST_TTB: usize = 4_114;

/// Appends a TTB with one TTR, which carries this frame; what isn't looked at in it is 0 (NJE over
/// TCP/IP).
///
/// Where `out` has the room for it no memory is asked for.
#[tactic(auto, using(crate::proofs::WrittenLaws::length_framed))]
pub fn put_ttb(frame: TcpFrame<'_>, out: &mut Vec<u8>) -> Result<(), AllocError>
    requires { IsShort (carried_of frame) }
    ensures ok { OnOk result (out.new.items ≡ out.old.items ++ ttb_bytes (carried_of frame.entry)) }
    ensures err { OnErr result (out.new.items ≡ out.old.items) }
    ensures in_place { vec_len out.old + length (ttb_bytes (carried_of frame.entry)) ≤ vec_capacity out.old
        → IsOk result }
    ensures capacity { vec_capacity out.old ≤ vec_capacity out.new }
    ensures longest { length (ttb_bytes (carried_of frame.entry)) ≤ LONGEST_TTB }
{
    match frame {
        TcpFrame::Enquiry => put_ttr(SOH, ENQ, &[], out),
        TcpFrame::Ack0 => put_ttr(DLE, ACK_0, &[], out),
        TcpFrame::Text(text) => put_ttr(DLE, STX, text, out),
    }
}

/// Appends a frame as it is on a bisync line: in a text each DLE is doubled, and it ends in DLE ETB
/// (IBM GA27-3004, transparent text).
///
/// Where `out` has the room for it no memory is asked for.
pub fn put_line_bytes(frame: TcpFrame<'_>, out: &mut Vec<u8>) -> Result<(), AllocError>
    requires { IsShort (carried_of frame) }
    ensures ok { OnOk result (out.new.items ≡ out.old.items ++ line_bytes (carried_of frame.entry)) }
    ensures err { OnErr result (out.new.items ≡ out.old.items) }
    ensures in_place { vec_len out.old + length (line_bytes (carried_of frame.entry)) ≤ vec_capacity out.old
        → IsOk result }
    ensures capacity { vec_capacity out.old ≤ vec_capacity out.new }
    ensures longest { length (line_bytes (carried_of frame.entry)) ≤ longest_frame }
{
    match frame {
        TcpFrame::Enquiry => put_control(Control::Enquiry, out),
        TcpFrame::Ack0 => put_control(Control::Ack0, out),
        TcpFrame::Text(text) => put_text(text, out),
    }
}

/// Appends a TTB with one TTR, whose data are two bytes and then others.
#[tactic(auto, using(crate::proofs::WrittenLaws::length_framed))]
fn put_ttr(first: u8, second: u8, text: &[u8], out: &mut Vec<u8>) -> Result<(), AllocError>
    requires { length text.now ≤ longest_text }
    ensures ok { OnOk result (out.new.items ≡ out.old.items ++ framed (first ∷ second ∷ text.now)) }
    ensures err { OnErr result (out.new.items ≡ out.old.items) }
    ensures in_place { vec_len out.old + length (framed (first ∷ second ∷ text.now)) ≤ vec_capacity out.old
        → IsOk result }
    ensures capacity { vec_capacity out.old ≤ vec_capacity out.new }
{
    let size = 2 + text.len();
    let whole = SHORTEST_TTB + TTR_HEAD + size;
    out.reserve(whole)?;
    put_head(whole, out);
    put_bytes(&[0; 4], out);
    put_head(size, out);
    put_bytes(&[first, second], out);
    put_bytes(text, out);
    put_bytes(&[0; TTR_HEAD], out);
    Ok(())
}

/// Appends two bytes that aren't looked at, and a length.
fn put_head(size: usize, out: &mut Vec<u8>)
    requires small { size < 2 ^ 16 }
    requires room { vec_len out.old + 4 ≤ vec_capacity out.old }
    ensures items { out.new.items ≡ out.old.items ++ (0 ∷ 0 ∷ big_bytes 2 size) }
    ensures capacity { vec_capacity out.old ≤ vec_capacity out.new }
{
    let mut head = [0; TTR_HEAD];
    BigEndian::write_u16(&mut head[2..], size as u16);
    put_bytes(&head, out);
}

/// Appends bytes, in room that is there.
fn put_bytes(bytes: &[u8], out: &mut Vec<u8>)
    requires { vec_len out.old + length bytes.now ≤ vec_capacity out.old }
    ensures items { out.new.items ≡ out.old.items ++ bytes.now }
    ensures capacity { vec_capacity out.old ≤ vec_capacity out.new }
{
    out.extend_from_slice(bytes).unwrap();
}
