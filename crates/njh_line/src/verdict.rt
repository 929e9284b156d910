//! What an input does.

use crate::opening::Opening;
use njh_bisync::Control;
use njh_block::Bcb;

/// What is sent.
#[derive(Clone, Copy, Debug, PartialEq, Eq)]
pub enum LineReply {
    /// Nothing.
    Nothing,
    /// A control frame.
    Control(Control),
    /// The last transmission again.
    Again,
    /// An I or a J block.
    SignOn(Opening),
    /// A block that tells which count was expected.
    Sequence {
        /// A BCB of that count, which is checked.
        expected: Bcb,
    },
    /// The next block.
    Next {
        /// Where there is none, whether ACK0 is sent in its place; otherwise nothing is, and the
        /// turn is the hub's.
        or_ack0: bool,
    },
}

/// What an input does.
#[derive(Clone, Copy, Debug, PartialEq, Eq)]
pub struct Verdict {
    /// Whether a session is over that was up, or tried too often, or lost the sequence of its
    /// blocks.
    pub ended: bool,
    /// Whether the block's records act.
    pub acts: bool,
    /// What is sent.
    pub reply: LineReply,
}
