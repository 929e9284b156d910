//! Laws of the definitions. Each function does nothing: its contract is the law.

ghost use Rattle.std.specs.Prelude.{◌≡◌, ℕ, List, Ok, Err, IsTrue, ◌↔◌};
ghost use Rattle.njh_record.specs.Bytes.{AreBytes};
ghost use Rattle.njh_block.specs.Blocks.{Block, Item, read_block, is_bcb, is_fcs, text_of};
ghost use Rattle.njh_block.specs.Writing.{AreWritten, read_back};
ghost use Rattle.njh_block.specs.Grammar.{IsBlock, IsFault};

use crate::fault::BlockFault;

/// Reading gives exactly the block that a text is by the grammar, or the first fault from the left.
/// So a text has one reading.
pub fn one_reading()
    ensures block { (text : List ℕ) (b : Block) → AreBytes text → (read_block text ≡ Ok b) ↔ IsBlock text b }
    ensures fault { (text : List ℕ) (f : BlockFault) → AreBytes text → (read_block text ≡ Err f) ↔ IsFault text f }
    ensures one { (text : List ℕ) (b c : Block) → IsBlock text b → IsBlock text c → b ≡ c }
{}

/// What is written is read back as the items that were written; a general one has taken the closing
/// 00 too.
pub fn reads_back()
    ensures { (bcb : ℕ) (fcs : ℕ × ℕ) (items : List Item) → IsTrue (is_bcb bcb) → IsTrue (is_fcs fcs) → AreWritten items
        → read_block (text_of bcb fcs items) ≡ Ok (record { bcb = bcb; fcs = fcs; items = read_back items }) }
{}
