//! The records of a block.

use crate::rcb::{ControlRcb, Rcb};

/// A record of a block that was read.
#[derive(Clone, Copy, Debug)]
pub enum Item<'a> {
    /// A record of a stream or a nodal message. Its bytes are in the record that was read into.
    Data {
        /// Its RCB.
        rcb: Rcb,
        /// Its SRCB.
        srcb: u8,
    },
    /// A record that its sender gave up.
    Abort {
        /// Its RCB.
        rcb: Rcb,
        /// Its SRCB.
        srcb: u8,
    },
    /// A record of more than 256 bytes.
    Long {
        /// Its RCB.
        rcb: Rcb,
        /// Its SRCB.
        srcb: u8,
    },
    /// A two-byte record.
    Control {
        /// What it says.
        rcb: ControlRcb,
        /// Its SRCB.
        srcb: u8,
    },
    /// A general control record.
    General {
        /// Its SRCB.
        srcb: u8,
        /// The rest of the text, after the SRCB.
        rest: &'a [u8],
    },
}
