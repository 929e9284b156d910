//! Laws of the definitions. Each function does nothing: its contract is the law.

ghost use Rattle.std.specs.Prelude.{◌≡◌, ℕ, [], All, List, Option, Some, false};
ghost use Rattle.njh_block.specs.Blocks.{Item};
ghost use Rattle.njh_io.specs.Lines.{lines_of};
ghost use Rattle.njh_encode.specs.Packing.{IsData, ReadsAsFrame, ReadsItself, items_of_blocks, packed};
ghost use Rattle.njh_encode.specs.Posted.{is_of_file};
ghost use Rattle.njh_encode.specs.Scripts.{Becomes, Encoding, Texts, encoding_of};
ghost use Rattle.njh_encode.specs.declared.line_states.LineState as declared;

/// The records of packed blocks are those that were packed, in order, none left out.
pub fn packed_in_order()
    ensures { (state : declared.LineState) (items : List Item) → items_of_blocks (packed state [] items) ≡ items }
{}

/// Each packed block's text reads as that block and nothing else, by the grammar of blocks.
pub fn packed_reads_back()
    ensures { (state : declared.LineState) (items : List Item) → All IsData items
        → All ReadsItself (packed state [] items) }
{}

/// The bytes of each packed block's frame read as that frame and nothing else, by the grammar of
/// frames.
pub fn packed_frames_read_back()
    ensures { (state : declared.LineState) (items : List Item) → All IsData items
        → All ReadsAsFrame (packed state [] items) }
{}

/// What a text becomes is one thing if it is known what each name gives.
pub fn known_texts_settle()
    ensures { (texts : Texts) (text : List ℕ) (encoding : Encoding) → Becomes (Some texts) text encoding
        → encoding ≡ encoding_of texts text }
{}

/// What a text becomes is one thing if none of its lines says a file.
pub fn no_file_settles()
    ensures { (known : Option Texts) (texts : Texts) (text : List ℕ) (encoding : Encoding)
        → All (λ line. is_of_file line ≡ false) (lines_of text) → Becomes known text encoding
        → encoding ≡ encoding_of texts text }
{}
