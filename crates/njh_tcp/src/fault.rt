//! Why a connection can't go on.

use std::fmt;
use thiserror::Error;

/// How the data of a TTR begin.
#[derive(Clone, Copy, Debug, PartialEq, Eq)]
pub struct TtrStart {
    /// The first byte.
    pub first: Option<u8>,
    /// The second.
    pub second: Option<u8>,
    /// Whether there are more.
    pub more: bool,
}

/// What is wrong with a TTB or a TTR. Its text is what an operator reads.
#[derive(Clone, Copy, Debug, PartialEq, Eq, Error)]
pub enum TtbFault {
    /// A TTB tells fewer bytes than the 12 that each has.
    #[error("a TTB of {size}", size = Bytes(*.0))]
    ShortTtb(usize),
    /// The end comes, and so many bytes of the TTB are behind it.
    #[error("a TTB's end with {left} left", left = Bytes(*.0))]
    EarlyEnd(usize),
    /// A TTR tells more data than 10 02 and the longest text have.
    #[error("a TTR of {size}", size = Bytes(*.0))]
    LongTtr(usize),
    /// A TTR tells so many data, for which the TTB has so many bytes left before its end.
    #[error("a TTR of {size} with {left} left", size = Bytes(*.0), left = Bytes(*.1))]
    PastEnd(usize, usize),
    /// The data of a TTR are no text and no contact, or a contact where none may be.
    #[error("a TTR {0}")]
    StrangeTtr(TtrStart),
}

/// The first two bytes in hexadecimal digits, and dots if there are more.
impl fmt::Display for TtrStart {
    fn fmt<W: fmt::Write>(&self, f: &mut fmt::Formatter<W>) -> fmt::Result {
        if let Some(first) = self.first {
            write!(f, "{first:02X}")?;
        }
        if let Some(second) = self.second {
            write!(f, " {second:02X}")?;
        }
        if self.more {
            f.write_str(" ..")?;
        }
        Ok(())
    }
}

/// A number of bytes, in words: below a million.
#[derive(Clone, Copy)]
struct Bytes(usize);

impl fmt::Display for Bytes {
    fn fmt<W: fmt::Write>(&self, f: &mut fmt::Formatter<W>) -> fmt::Result {
        let Bytes(count) = *self;
        if count == 1 {
            return f.write_str("1 byte");
        }
        if count < 1_000 {
            return write!(f, "{count} bytes");
        }
        let thousands = count / 1_000;
        let rest = count % 1_000;
        write!(f, "{thousands},{rest:03} bytes")
    }
}
