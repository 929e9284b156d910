//! Faults of nodal message records.

use thiserror::Error;

/// Why a record is no nodal message. The first in this order is told.
#[derive(Clone, Copy, Debug, PartialEq, Eq, Error)]
pub enum NmrFault {
    /// The record has under 30 bytes.
    #[error("N1 TooShort")]
    TooShort,
    /// The message has over `LONGEST_MESSAGE` bytes, or reaches past the record's end.
    #[error("N2 BadLength")]
    BadLength,
    /// The node that it goes to, or the one that it comes from, is no name.
    #[error("N3 BadName")]
    BadName,
}
