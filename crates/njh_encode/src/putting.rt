//! Lines of a script.

ghost use Rattle.std.specs.Prelude.{◌≡◌, ◌++◌, ◌∷◌, [], OnOk, length, ◌≤◌, codes};
ghost use Rattle.njh_bisync.specs.Limits.{longest_text};
ghost use Rattle.njh_bisync.specs.Written.{control_frame, text_bytes};
ghost use Rattle.njh_bisync.specs.Frames.{Eot};
ghost use Rattle.njh_block.specs.ItemViews.{IsWritable, outgoing_item};
ghost use Rattle.njh_encode.specs.Encoded.{ReadsBlock, ReadsFrame, block_with, bytes_line, bytes_of_frame, digits_line};
ghost use Rattle.njh_encode.specs.Encoded.{frame_of_block, label, script_line};

use njh_bisync::{Control, put_control, put_text};
use njh_block::{Bcb, BlockWriter, Fcs, Out};
use std::alloc::AllocError;

/// EOT.
const EOT: u8 = 0x37;

/// The most bytes that a text may have.
const LONGEST_BLOCK: usize = 4096;

/// Appends bytes.
fn put(script: &mut Vec<u8>, bytes: &[u8]) -> Result<(), AllocError>
    ensures { OnOk result (script.new.items ≡ script.old.items ++ bytes.now) }
{
    script.extend_from_slice(bytes)
}

/// Appends words.
#[tactic(auto, unfolding(crate::specs::Encoded::label))]
fn put_words(script: &mut Vec<u8>, words: &str) -> Result<(), AllocError>
    ensures { OnOk result (script.new.items ≡ script.old.items ++ label words.now) }
{
    put(script, words.as_bytes())
}

/// Appends a line as it is.
pub(crate) fn put_line(script: &mut Vec<u8>, line: &str) -> Result<(), AllocError>
    ensures { OnOk result (script.new.items ≡ script.old.items ++ (line.now ++ 10 ∷ [])) }
{
    put(script, line.as_bytes())?;
    put(script, b"\n")
}

/// Appends a line of a word, a name, and what follows it.
#[tactic(auto, unfolding(crate::specs::Encoded::script_line))]
pub(crate) fn put_script_line(
    script: &mut Vec<u8>,
    word: &str,
    name: &str,
    rest: &[u8],
) -> Result<(), AllocError>
    ensures { OnOk result (script.new.items ≡ script.old.items ++ script_line word.now name.now rest.now) }
{
    put_words(script, word)?;
    put(script, name.as_bytes())?;
    put(script, rest)?;
    put(script, b"\n")
}

/// Appends a line of digits.
#[tactic(auto, unfolding(crate::specs::Encoded::digits_line, crate::specs::Encoded::script_line))]
pub(crate) fn put_digits(script: &mut Vec<u8>, name: &str, digits: &[u8]) -> Result<(), AllocError>
    ensures { OnOk result (script.new.items ≡ script.old.items ++ digits_line name.now digits.now) }
{
    put_words(script, "BYTES ")?;
    put(script, name.as_bytes())?;
    put(script, b" ")?;
    put(script, digits)?;
    put(script, b"\n")
}

/// Appends the line of a frame.
#[tactic(auto, unfolding(crate::specs::Encoded::bytes_line))]
pub(crate) fn put_frame(script: &mut Vec<u8>, name: &str, frame: &[u8]) -> Result<(), AllocError>
    ensures { OnOk result (script.new.items ≡ script.old.items ++ bytes_line name.now frame.now) }
{
    let digits = hex::encode(*script.allocator(), frame)?;
    put_digits(script, name, digits.as_bytes())
}

/// Appends the line of a control frame.
#[tactic(auto, using(crate::proofs::FrameLaws::control_same, crate::proofs::FrameLaws::control_reads))]
pub(crate) fn put_control_frame(
    script: &mut Vec<u8>,
    name: &str,
    control: Control,
) -> Result<(), AllocError>
    ensures line { OnOk result (script.new.items
        ≡ script.old.items ++ bytes_line name.now (bytes_of_frame (control_frame control))) }
    ensures reads { ReadsFrame (control_frame control) }
{
    let mut frame = Vec::new(*script.allocator());
    put_control(control, &mut frame)?;
    put_frame(script, name, &frame)
}

/// Appends the line of EOT.
pub(crate) fn put_end(script: &mut Vec<u8>, name: &str) -> Result<(), AllocError>
    ensures line { OnOk result (script.new.items
        ≡ script.old.items ++ bytes_line name.now (bytes_of_frame Eot)) }
    ensures reads { ReadsFrame Eot }
{
    put_frame(script, name, &[EOT])
}

/// Appends the line of a block's text.
pub(crate) fn put_block_text(
    script: &mut Vec<u8>,
    name: &str,
    text: &[u8],
) -> Result<(), AllocError>
    requires { length text.now ≤ longest_text }
    ensures { OnOk result (script.new.items ≡ script.old.items ++ bytes_line name.now (text_bytes text.now)) }
{
    let mut frame = Vec::new(*script.allocator());
    put_text(text, &mut frame)?;
    put_frame(script, name, &frame)
}

/// Appends the line of a block of one record, which suspends nothing.
#[tactic(auto, using(crate::proofs::FrameLaws::is_written))]
pub(crate) fn put_block(
    script: &mut Vec<u8>,
    name: &str,
    bcb: Bcb,
    out: Out<'_>,
) -> Result<(), AllocError>
    requires { IsWritable out }
    ensures line { OnOk result (script.new.items ≡ script.old.items
        ++ bytes_line name.now (bytes_of_frame (frame_of_block (block_with bcb (outgoing_item out.entry))))) }
    ensures reads { ReadsBlock (block_with bcb (outgoing_item out.entry)) }
{
    let mut writer = BlockWriter::new(LONGEST_BLOCK, bcb, Fcs::nothing_suspended());
    let fits = writer.fits(&out);
    prove!(fits);
    writer.add(out);
    put_block_text(script, name, writer.text())
}
