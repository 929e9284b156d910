//! Why a whole file isn't put back.

use thiserror::Error;

/// Why a whole file isn't put back. Nothing has changed then.
#[derive(Clone, Copy, Debug, PartialEq, Eq, Error)]
pub enum RestoreFault {
    /// The customer's files would take more blocks than its quota.
    #[error("O1 QuotaOver")]
    QuotaOver,
    /// The customer has as many files as it may have.
    #[error("O2 FilesOver")]
    FilesOver,
    /// A header of the file doesn't read, so it has no name, no owner or no destination (IBM
    /// SC23-0070).
    #[error("O3 BadHeader")]
    BadHeader,
}
