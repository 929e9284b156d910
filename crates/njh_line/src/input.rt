//! What comes to a line.

use njh_block::{Bcb, Fcs};

/// A frame, a tick of the clock, or a word of the adapter.
#[derive(Clone, Copy, Debug)]
pub enum Input<'a> {
    /// ENQ came.
    Enquiry,
    /// ACK0 came.
    Ack0,
    /// NAK came.
    Nak,
    /// EOT came.
    Eot,
    /// The adapter lost the line.
    Lost,
    /// Nothing came for a while.
    Tick,
    /// A block came whose check failed.
    Garbled,
    /// A text came that is to be disregarded.
    Spoiled,
    /// A text came that is no block.
    Bad,
    /// A text came that is a block.
    Block {
        /// Its block control byte.
        bcb: Bcb,
        /// Its function control sequence.
        fcs: Fcs,
        /// Its first record where that is a general one: the SRCB, and the rest of the text behind
        /// it.
        first: Option<(u8, &'a [u8])>,
    },
}
