//! Whole texts are read up to a limit, texts in pieces line by line, and bytes are written to their
//! end.
#![tactic(auto)]

mod fault;
mod lines;
mod pieces;
mod reading;
mod writing;

pub use fault::{PieceFault, ReadFault, WriteFault};
pub use lines::{LineReader, MAX_LINE_BYTES, next_line};
pub use pieces::read_piece;
pub use reading::read_text;
pub use writing::write_bytes;
