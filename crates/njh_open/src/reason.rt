//! Why a NAK came.

use njh_tcp::{BOTH_OPEN, LINK_ACTIVE, NO_LINK, NOT_NOW};
use std::fmt;

/// The reason in a NAK.
#[derive(Clone, Copy, Debug, PartialEq, Eq)]
pub struct NakReason(pub u8);

/// As the log says it: `NAK 2 (the link is active)`.
impl fmt::Display for NakReason {
    fn fmt<W: fmt::Write>(&self, f: &mut fmt::Formatter<W>) -> fmt::Result {
        let NakReason(reason) = *self;
        write!(f, "NAK {reason}")?;
        match reason {
            NO_LINK => f.write_str(" (it knows no link with these names)"),
            LINK_ACTIVE => f.write_str(" (the link is active)"),
            BOTH_OPEN => f.write_str(" (both ends open)"),
            NOT_NOW => f.write_str(" (not now)"),
            _ => Ok(()),
        }
    }
}
