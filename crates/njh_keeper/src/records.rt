//! The records of a whole file that was read from a spool file.

ghost use Rattle.std.specs.Prelude.{◌≡◌, map, MatchOption, None, Some};
ghost use Rattle.njh_keeper.specs.Opened.{are_records_from, is_record_at, whole_records};
ghost use Rattle.njh_spoolfile.specs.Kept.{contents_of, file_of};

use njh_header::FileRecords;
use njh_record::{Kind, Record, put_bytes};
use njh_spoolfile::{FileRow, StoredRecord, send_records};
use std::marker::Model;

/// All records of a file, as a hub has them.
#[derive(Drop)]
pub(crate) struct FileContents {
    records: Vec<StoredRecord>,
}

impl Model for FileContents {
    ghost use Rattle.std.specs.Prelude.{◌<◌, ◌^◌, List, length, map};
    ghost use Rattle.njh_record.specs.Stored.{Stored};
    ghost use Rattle.njh_spoolfile.specs.Kept.{contents_of};
    ghost use Rattle.njh_spoolfile.specs.Sent.{as_stored};
    ghost use Rattle.njh_keeper.specs.code.Restoring.{HaveRoom};

    ghost Value = { List Stored };

    ghost view = { λ x. map as_stored (map contents_of x.records.items) };

    ghost invariant = { λ x. (length x.records.items < 2 ^ 32) × HaveRoom x.records.items };
}

impl FileContents {
    /// The records that were read of a file of this kind, as they are now; none if they aren't all of
    /// its own, or if it was sent to what is no name.
    pub(crate) fn of(kind: Kind, file: &FileRow, records: Vec<StoredRecord>) -> Option<FileContents>
        ensures { MatchOption result (whole_records kind (file_of file.now) (map contents_of records.items) ≡ None)
            (λ contents. whole_records kind (file_of file.now) (map contents_of records.items) ≡ Some contents) }
    {
        let mut records = records;
        if records.len() != file.records as usize || !are_records(records.as_slice()) {
            return None;
        }
        if !send_records(kind, file.to_node.as_str(), &mut records) {
            return None;
        }
        Some(FileContents { records })
    }
}

/// Whether these are the records of the places from 0 on, each as a hub has records.
fn are_records(records: &[StoredRecord]) -> bool
    ensures { result ≡ are_records_from 0 (map contents_of records.now) }
{
    for (place, stored) in records.iter().enumerate() {
        if !is_record_at(place, stored) {
            return false;
        }
    }
    true
}

/// Whether this is the record of this place, as a hub has records.
fn is_record_at(place: usize, stored: &StoredRecord) -> bool
    ensures { result ≡ is_record_at place (contents_of stored.now) }
{
    stored.place as usize == place && stored.srcb < 256 && stored.bytes.len() <= 256
}

impl FileRecords for FileContents {
    ghost records = { λ records. records };

    fn count(&self) -> u32 {
        self.records.len() as u32
    }

    fn copy_to(&self, n: u32, into: &mut Record) -> u8 {
        let record = &self.records[n as usize];
        into.clear();
        put_bytes(into, record.bytes.as_slice());
        record.srcb as u8
    }
}
