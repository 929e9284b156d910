//! Records of an NJE file: how a record is spelled by string control bytes (IBM SC23-0070,
//! "Compression"), and what a file is made of.
#![tactic(auto)]

mod bytes;
mod item;
mod laws;
mod scb;
mod unspelling;
mod writing;

use arrayvec::ArrayVec;
pub use bytes::{field_at, put_bytes};
pub use laws::{
    no_proper_prefix, one_answer, one_reading, one_spelling, reads_back, reads_spellings,
    rest_behind, spelling_bounds,
};
pub use scb::ABORT;
use thiserror::Error;
pub use unspelling::{skip, unspell};
pub use writing::{add_spelling, spelled_len};

/// The bytes of one record, at most 256.
pub type Record = ArrayVec<u8, 256>;

/// What ends a spelling.
#[derive(Clone, Copy, Debug, PartialEq, Eq)]
pub enum End {
    /// The record is whole.
    Record,
    /// The sender gives it up.
    Abort,
}

/// Why no record was read.
#[derive(Clone, Copy, Debug, PartialEq, Eq, Error)]
pub enum RecordFault {
    /// A byte is in the place of a string control byte and is none: 01 to 3F and 41 to 7F.
    #[error("C1 BadScb")]
    BadScb,
    /// The bytes end before the spelling does.
    #[error("C2 Truncated")]
    Truncated,
    /// A good spelling ends a record of more than 256 bytes.
    #[error("C3 TooLong {{ used: {used} }}")]
    TooLong {
        /// How many bytes the spelling takes.
        used: usize,
    },
}

/// What kind of file a stream carries.
#[derive(Clone, Copy, Debug, PartialEq, Eq)]
pub enum Kind {
    /// SYSIN: a job to be run.
    In,
    /// SYSOUT: what a job printed or punched.
    Out,
}
