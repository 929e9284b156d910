//! What a block is made of.

use crate::rcb::{ControlRcb, Rcb};

/// A record to be written. Its bytes are lent.
#[derive(Clone, Copy, Debug)]
pub enum Out<'a> {
    /// A record of a stream or a nodal message.
    Data {
        /// Its RCB.
        rcb: Rcb,
        /// Its SRCB.
        srcb: u8,
        /// Its bytes, at most 256.
        bytes: &'a [u8],
    },
    /// A record that is given up.
    Abort {
        /// Its RCB.
        rcb: Rcb,
        /// Its SRCB.
        srcb: u8,
    },
    /// A two-byte record.
    Control {
        /// What it says.
        rcb: ControlRcb,
        /// Its SRCB.
        srcb: u8,
    },
    /// A general control record, after which nothing has room.
    General {
        /// Its SRCB.
        srcb: u8,
        /// What goes as it is after the SRCB, at most 41 bytes.
        bytes: &'a [u8],
    },
}
