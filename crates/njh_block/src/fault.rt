//! Why a text is no block.

use thiserror::Error;

/// Why a text is no block: the first fault from the left, the lengths before all.
#[derive(Clone, Copy, Debug, PartialEq, Eq, Error)]
pub enum BlockFault {
    /// The text has under three bytes.
    #[error("B1 TooShort")]
    TooShort,
    /// The first byte is no block control byte.
    #[error("B2 BadBcb")]
    BadBcb,
    /// The next two bytes are no function control sequence.
    #[error("B3 BadFcs")]
    BadFcs,
    /// A byte 01 to 7F is in the place of an RCB.
    #[error("B4 BadRcb")]
    BadRcb,
    /// After an RCB comes no record: no SRCB, or no whole spelling.
    #[error("B5 BadRecord")]
    BadRecord,
}
