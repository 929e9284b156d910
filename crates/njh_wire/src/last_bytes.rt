//! The bytes that came last on a wire.

/// The last two bytes that came, of whatever frames: 0 for one that didn't come yet.
#[derive(Clone, Copy, Debug, PartialEq, Eq)]
pub struct LastBytes {
    /// The last but one.
    pub before: u8,
    /// The last.
    pub last: u8,
}
