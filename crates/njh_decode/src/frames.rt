//! The lines of a frame.

ghost use Rattle.std.specs.Prelude.{◌≡◌, ◌≤◌, ◌++◌, ◌∷◌, [], length, OnOk};
ghost use Rattle.njh_bisync.specs.LentFrames.{received_of};
ghost use Rattle.njh_bisync.specs.Frames.{IsShort};
ghost use Rattle.njh_block.specs.ItemViews.{given_item};
ghost use Rattle.njh_decode.specs.Words.{label};
ghost use Rattle.njh_decode.specs.Frames as frames;

use crate::faults::block_fault_words;
use crate::heads::put_head;
use crate::places::{fault_place, unread_count};
use crate::records::put_record;
use crate::words::{put, put_number, put_numbered, put_words};
use njh_bisync::Frame;
use njh_block::{Block, BlockFault, Item};
use njh_record::Record;
use std::alloc::AllocError;

/// Appends the lines of a frame, in UTF-8, each ended by 0A. Of a text that is a block (IBM
/// SC23-0070, "Multileaving") these are one for its head, one for each record, and one for bytes
/// after its end, if there are any. Of a text that is none the one line tells its first fault
/// (B1 to B5) and the place of that, in bytes from 0. A text has at most 4,096 bytes, as each that
/// a `Deframer` gives.
///
/// `hex` puts the bytes of a compressed record beside its words, uncompressed and in hexadecimal.
/// The passwords of a sign-on are never told. Want of memory is the only refusal; then a part of
/// the lines may have been appended.
#[tactic(auto, unfolding(crate::specs::Frames::frame_lines))]
pub fn put_frame(lines: &mut Vec<u8>, frame: Frame<'_>, hex: bool) -> Result<(), AllocError>
    requires { IsShort (received_of frame) }
    ensures { OnOk result (lines.new.items ≡ lines.old.items ++ frames.frame_lines hex (received_of frame.entry)) }
{
    match frame {
        Frame::Enquiry => put_line(lines, "ENQ"),
        Frame::Ack0 => put_line(lines, "ACK0"),
        Frame::Nak => put_line(lines, "NAK"),
        Frame::Eot => put_line(lines, "EOT"),
        Frame::Text(text) => put_block_or_fault(lines, text, hex),
        Frame::Spoiled => put_line(lines, "spoiled"),
    }
}

/// Appends the lines of a text.
#[tactic(auto, unfolding(crate::specs::Frames::text_lines))]
fn put_block_or_fault(lines: &mut Vec<u8>, text: &[u8], hex: bool) -> Result<(), AllocError>
    requires { length text.now ≤ 4096 }
    ensures { OnOk result (lines.new.items ≡ lines.old.items ++ frames.text_lines hex text.now) }
{
    match Block::read(text) {
        Ok(mut block) => {
            put_block(lines, &mut block, hex)?;
            put_unread(lines, unread_count(text))
        }
        Err(fault) => put_fault(lines, text, fault),
    }
}

/// Appends why a text is no block, and where.
#[tactic(auto, unfolding(crate::specs::Frames::fault_line))]
fn put_fault(lines: &mut Vec<u8>, text: &[u8], fault: BlockFault) -> Result<(), AllocError>
    requires { length text.now ≤ 4096 }
    ensures { OnOk result (lines.new.items ≡ lines.old.items ++ frames.fault_line text.now fault) }
{
    put_words(lines, "no block: ")?;
    put_words(lines, block_fault_words(fault))?;
    put_words(lines, " at ")?;
    put_number(lines, fault_place(text, fault) as u16)?;
    put(lines, b"\n")
}

/// Appends how many bytes come after the end of a block, if there are any.
#[tactic(auto, unfolding(crate::specs::Frames::unread_line))]
fn put_unread(lines: &mut Vec<u8>, count: usize) -> Result<(), AllocError>
    requires { count ≤ 4096 }
    ensures { OnOk result (lines.new.items ≡ lines.old.items ++ frames.unread_line count) }
{
    if count == 0 {
        return Ok(());
    }
    put_unread_count(lines, count as u16)?;
    put(lines, b"\n")
}

/// Appends how many bytes come after the end of a block.
#[tactic(auto, unfolding(crate::specs::Frames::unread_words))]
fn put_unread_count(lines: &mut Vec<u8>, count: u16) -> Result<(), AllocError>
    ensures { OnOk result (lines.new.items ≡ lines.old.items ++ frames.unread_words count) }
{
    put_numbered(lines, "  unread bytes: ", count)
}

/// Appends the lines of a block.
#[tactic(auto, unfolding(crate::specs::Frames::block_lines))]
fn put_block(lines: &mut Vec<u8>, block: &mut Block<'_>, hex: bool) -> Result<(), AllocError>
    ensures { OnOk result (lines.new.items ≡ lines.old.items ++ frames.block_lines hex block.old) }
{
    put_head(lines, block.bcb(), block.fcs())?;
    put(lines, b"\n")?;
    put_records(lines, block, hex)
}

/// Appends a line for each record that is left.
fn put_records(lines: &mut Vec<u8>, block: &mut Block<'_>, hex: bool) -> Result<(), AllocError>
    ensures { OnOk result (lines.new.items ≡ lines.old.items ++ frames.record_lines hex block.old.items) }
{
    let mut bytes = Record::new();
    while let Some(item) = block.next(&mut bytes) {
        put_record_line(lines, item, &bytes, hex)?;
    }
    Ok(())
}

/// Appends the line of a record, whose bytes are these.
#[tactic(auto, unfolding(crate::specs::Frames::record_line))]
fn put_record_line(
    lines: &mut Vec<u8>,
    item: Item<'_>,
    bytes: &[u8],
    hex: bool,
) -> Result<(), AllocError>
    requires { length bytes.now ≤ 256 }
    ensures { OnOk result
        (lines.new.items ≡ lines.old.items ++ frames.record_line hex (given_item bytes.now item.entry)) }
{
    put_words(lines, "  ")?;
    put_record(lines, item, bytes, hex)?;
    put(lines, b"\n")
}

/// Appends a line of words.
fn put_line(lines: &mut Vec<u8>, words: &str) -> Result<(), AllocError>
    ensures { OnOk result (lines.new.items ≡ lines.old.items ++ label words.now ++ 10 ∷ []) }
{
    put_words(lines, words)?;
    put(lines, b"\n")
}
