//! Why a link can't go on.

use njh_tcp::TtbFault;
use thiserror::Error;

/// What ends a link. Its text is what an operator reads.
#[derive(Clone, Copy, Debug, PartialEq, Eq, Error)]
pub enum LinkFault {
    /// A TTB or a TTR is wrong.
    #[error("{0}")]
    Refused(TtbFault),
    /// The line said NAK to a text, and TCP brings nothing again.
    #[error("a block that doesn't read")]
    BadBlock,
}
