//! What comes in for a file, and from where.

use crate::receiver::Progress;
use njh_record::Kind;
use njh_spool::FileId;
use njh_table::{LineId, NamedCustomer};

/// A record on a stream.
#[derive(Clone, Copy)]
pub(crate) struct StreamRecord<'a> {
    pub srcb: u8,
    pub bytes: &'a [u8],
}

/// A file that comes in: its number, its kind, and how far it has come.
#[derive(Clone, Copy)]
pub(crate) struct ComingFile {
    pub number: FileId,
    pub kind: Kind,
    pub progress: Progress,
}

/// Where it comes from: a line, and its customer in the tables.
#[derive(Clone, Copy)]
pub(crate) struct Origin<'a> {
    pub id: LineId,
    pub customer: &'a NamedCustomer,
}
