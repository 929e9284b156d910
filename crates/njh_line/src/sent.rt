//! What was sent.

use njh_block::Fcs;

/// What the hub sent where a line's verdict asked for something. Frames have at most 8,196 bytes.
#[derive(Clone, Copy, Debug)]
pub enum Sent<'a> {
    /// Nothing, and so the turn is the hub's.
    Nothing,
    /// A NAK, which isn't sent again.
    Nak,
    /// The last transmission again.
    Again,
    /// A block of the hub's own count.
    Block {
        /// The frame of its text.
        frame: &'a [u8],
        /// Its function control sequence.
        fcs: Fcs,
    },
    /// Another frame: a control frame, or an I or a J block.
    Frame(&'a [u8]),
}
