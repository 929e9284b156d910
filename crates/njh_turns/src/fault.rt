//! Why turns of wires end early.

use crate::keeper::KeepFault;
use thiserror::Error;

/// Why turns of wires ended early.
#[derive(Clone, Copy, Debug, PartialEq, Eq, Error)]
pub enum TurnsFault {
    /// There was no memory; nothing was read then.
    #[error("U3 Memory")]
    Memory,
    /// The keeper failed.
    #[error("{0}")]
    Keeper(KeepFault),
}
