//! Why no header or sign-on was read.

use thiserror::Error;

/// Why a record is no header, or no sign-on. Of a header they come in the order of its bytes, and
/// `BadName` last.
#[derive(Clone, Copy, Debug, PartialEq, Eq, Error)]
pub enum HeaderFault {
    /// The record or its general section is too short.
    #[error("H1 TooShort")]
    TooShort,
    /// The record ends before a general section.
    #[error("H2 NoGeneralSection")]
    NoGeneralSection,
    /// A node is no name.
    #[error("H3 BadName")]
    BadName,
    /// A section ends past the record, or is shorter than its own head.
    #[error("H4 SectionOverrun")]
    SectionOverrun,
}
