//! How long nothing comes on a wire.

use crate::last_bytes::LastBytes;

/// Since when nothing comes on a wire, when that is a quiet, and what came last.
#[derive(Clone, Copy, Debug, PartialEq, Eq)]
pub(crate) struct Silence {
    /// When it began, or the last quiet or prompt came, in milliseconds.
    pub(crate) begun: u64,
    /// How many milliseconds of it are a quiet.
    pub(crate) quiet: u64,
    /// When bytes last came, or the connection did.
    pub(crate) heard: u64,
    /// The last two bytes that came.
    pub(crate) last_bytes: LastBytes,
}
