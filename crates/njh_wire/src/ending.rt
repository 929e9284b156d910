//! How the connection of a wire ended.

use crate::end::{ConnectionEnd, Parting};

/// What a wire is to tell of its last connection. A struct of its own: each field of a type with a
/// parameter costs proofs.
#[derive(Clone, Copy, Debug, PartialEq, Eq)]
pub(crate) struct Ending {
    /// What the next read answers in place of reading.
    pub(crate) parting: Option<Parting>,
    /// Why it ended.
    pub(crate) end: Option<ConnectionEnd>,
}
