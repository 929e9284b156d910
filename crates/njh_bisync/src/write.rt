//! Frames written.
ghost use Rattle.std.specs.Prelude.{◌≡◌, ◌+◌, ◌*◌, ◌≤◌, ◌++◌, ◌∷◌, [], length, flat_map, IsOk, OnOk, OnErr, vec_len};
ghost use Rattle.std.specs.Prelude.{vec_capacity};
ghost use Rattle.njh_bisync.specs.Limits.{longest_frame, longest_text};
ghost use Rattle.njh_bisync.specs.Written.{bytes_of_data, text_bytes, control_bytes};

use crate::frame::Control;
use crate::line_byte::{ACK_0, DLE, ENQ, ETB, NAK, SOH, STX};
use crate::plain::plain_len;
use std::alloc::AllocError;
use std::mem;

/// How many bytes there are around the data of a text.
const FRAMING: usize = 4;

/// Appends a text of these 0 to 4,096 bytes, each DLE doubled (IBM GA27-3004, transparent text).
///
/// It ends in DLE ETB. Where `out` has the room for it no memory is asked for.
#[tactic(auto, using(crate::proofs::WrittenLaws::lengths), unfolding(crate::specs::Written::text_bytes))]
pub fn put_text(data: &[u8], out: &mut Vec<u8>) -> Result<(), AllocError>
    requires { length «data».now ≤ longest_text }
    ensures ok { OnOk result (out.new.items ≡ out.old.items ++ text_bytes «data».now) }
    ensures err { OnErr result
        ((out.new.items ≡ out.old.items) × (vec_capacity out.new ≡ vec_capacity out.old)) }
    ensures in_place { vec_len out.old + length (text_bytes «data».now) ≤ vec_capacity out.old
        → IsOk result × (vec_capacity out.new ≡ vec_capacity out.old) }
    ensures capacity { vec_capacity out.old ≤ vec_capacity out.new }
    ensures short { length (text_bytes «data».now) ≤ 4 + 2 * length «data».now }
    ensures longest { length (text_bytes «data».now) ≤ longest_frame }
{
    make_text_room(data, out)?;
    put_bytes(&[DLE, STX], out);
    put_data(data, out);
    put_bytes(&[DLE, ETB], out);
    Ok(())
}

/// Appends a control frame, of at most 2 bytes. Where `out` has the room for it no memory is asked
/// for.
pub fn put_control(control: Control, out: &mut Vec<u8>) -> Result<(), AllocError>
    ensures ok { OnOk result (out.new.items ≡ out.old.items ++ control_bytes control) }
    ensures err { OnErr result
        ((out.new.items ≡ out.old.items) × (vec_capacity out.new ≡ vec_capacity out.old)) }
    ensures in_place { vec_len out.old + length (control_bytes control) ≤ vec_capacity out.old
        → IsOk result × (vec_capacity out.new ≡ vec_capacity out.old) }
    ensures capacity { vec_capacity out.old ≤ vec_capacity out.new }
    ensures short { length (control_bytes control) ≤ 2 }
{
    match control {
        Control::Enquiry => put_pair(SOH, ENQ, out),
        Control::Ack0 => put_pair(DLE, ACK_0, out),
        Control::Nak => put_one(NAK, out),
    }
}

/// Appends two bytes. Where `out` has the room for them no memory is asked for.
fn put_pair(first: u8, second: u8, out: &mut Vec<u8>) -> Result<(), AllocError>
    ensures ok { OnOk result (out.new.items ≡ out.old.items ++ first ∷ second ∷ []) }
    ensures err { OnErr result
        ((out.new.items ≡ out.old.items) × (vec_capacity out.new ≡ vec_capacity out.old)) }
    ensures in_place { vec_len out.old + 2 ≤ vec_capacity out.old
        → IsOk result × (vec_capacity out.new ≡ vec_capacity out.old) }
    ensures capacity { vec_capacity out.old ≤ vec_capacity out.new }
{
    make_room(out, 2)?;
    out.push_reserved(first);
    out.push_reserved(second);
    Ok(())
}

/// Appends a byte. Where `out` has the room for it no memory is asked for.
fn put_one(byte: u8, out: &mut Vec<u8>) -> Result<(), AllocError>
    ensures ok { OnOk result (out.new.items ≡ out.old.items ++ byte ∷ []) }
    ensures err { OnErr result
        ((out.new.items ≡ out.old.items) × (vec_capacity out.new ≡ vec_capacity out.old)) }
    ensures in_place { vec_len out.old + 1 ≤ vec_capacity out.old
        → IsOk result × (vec_capacity out.new ≡ vec_capacity out.old) }
    ensures capacity { vec_capacity out.old ≤ vec_capacity out.new }
{
    make_room(out, 1)?;
    out.push_reserved(byte);
    Ok(())
}

/// How many bytes `put_text` appends.
#[tactic(auto, using(crate::proofs::WrittenLaws::lengths))]
fn text_len(data: &[u8]) -> usize
    requires { length «data».now ≤ longest_text }
    ensures exact { result ≡ length (text_bytes «data».now) }
    ensures short { result ≤ 4 + 2 * length «data».now }
{
    let doubled = data.iter().filter(|byte| **byte == DLE).count();
    FRAMING + data.len() + doubled
}

/// Makes room for a text, whose bytes are counted only if the room for as many DLE might be
/// missing.
#[tactic(auto, using(crate::proofs::WrittenLaws::lengths))]
fn make_text_room(data: &[u8], out: &mut Vec<u8>) -> Result<(), AllocError>
    requires { length «data».now ≤ longest_text }
    ensures items { out.new.items ≡ out.old.items }
    ensures room { OnOk result (vec_len out.new + length (text_bytes «data».now) ≤ vec_capacity out.new) }
    ensures err { OnErr result (vec_capacity out.new ≡ vec_capacity out.old) }
    ensures in_place { vec_len out.old + length (text_bytes «data».now) ≤ vec_capacity out.old
        → IsOk result × (vec_capacity out.new ≡ vec_capacity out.old) }
    ensures capacity { vec_capacity out.old ≤ vec_capacity out.new }
    ensures short { length (text_bytes «data».now) ≤ 4 + 2 * length «data».now }
{
    if FRAMING + 2 * data.len() <= out.capacity() - out.len() {
        return Ok(());
    }
    make_room(out, text_len(data))
}

/// Asks for memory only if the room is missing.
fn make_room(out: &mut Vec<u8>, count: usize) -> Result<(), AllocError>
    ensures items { out.new.items ≡ out.old.items }
    ensures room { OnOk result (vec_len out.new + count ≤ vec_capacity out.new) }
    ensures err { OnErr result (vec_capacity out.new ≡ vec_capacity out.old) }
    ensures in_place { vec_len out.old + count ≤ vec_capacity out.old
        → IsOk result × (vec_capacity out.new ≡ vec_capacity out.old) }
    ensures capacity { vec_capacity out.old ≤ vec_capacity out.new }
{
    if count <= out.capacity() - out.len() {
        return Ok(());
    }
    out.reserve(count)
}

/// Appends bytes as they are, in room that is there.
fn put_bytes(bytes: &[u8], out: &mut Vec<u8>)
    requires { vec_len out.old + length bytes.now ≤ vec_capacity out.old }
    ensures items { out.new.items ≡ out.old.items ++ bytes.now }
    ensures capacity { vec_capacity out.new ≡ vec_capacity out.old }
{
    // While it is filled it is a value of its own, so that no byte that is written can change its
    // length or its place.
    let mut filled = mem::replace(out, Vec::new(*out.allocator()));
    for byte in bytes {
        filled.push_reserved(*byte);
    }
    *out = filled;
}

/// Appends bytes with each DLE doubled, in room that is there.
fn put_data(data: &[u8], out: &mut Vec<u8>)
    requires { vec_len out.old + length (flat_map bytes_of_data «data».now) ≤ vec_capacity out.old }
    ensures items { out.new.items ≡ out.old.items ++ flat_map bytes_of_data «data».now }
    ensures capacity { vec_capacity out.new ≡ vec_capacity out.old }
{
    let mut rest = data;
    loop {
        let (run, after) = rest.split_at(plain_len(rest));
        put_bytes(run, out);
        let Some((byte, after)) = after.split_first() else {
            return;
        };
        put_bytes(&[DLE, *byte], out);
        rest = after;
    }
}
