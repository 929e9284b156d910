//! What the headers say of a file.

ghost use Rattle.std.specs.Prelude.{◌≡◌, ◌+◌, ◌<◌, ◌≤◌, List, length, Some, IfSome, slice_get};
ghost use Rattle.njh_record.specs.Stored.{Stored};
ghost use Rattle.njh_header.specs.FileHeaders as headers;

use crate::data_set_header::DataSetHeader;
use crate::file_name::FileName;
use crate::job_header::JobHeader;
use crate::srcb;
use crate::user::{Destination, User};
use njh_record::{Kind, Record};

/// A file whose records are read one by one.
pub trait FileRecords {
    ghost records: { Self → List Stored };

    /// How many records the file has.
    fn count(&self) -> u32
        ensures { result ≡ length (records self.now) };

    /// Puts the bytes of the n-th record, counted from 0, in place of what `into` held, and gives
    /// its SRCB.
    fn copy_to(&self, n: u32, into: &mut Record) -> u8
        requires { n < length (records self.now) }
        ensures { slice_get (records self.now) n ≡ Some (record { srcb = result; bytes = into.new.items }) };
}

/// The job header of a file: its first record, if that reads.
pub fn job_header_of<F: FileRecords>(file: &F) -> Option<JobHeader>
    ensures { result ≡ headers.job_header_of (F.records file.now) }
{
    if file.count() == 0 {
        return None;
    }
    let mut record = Record::new();
    match file.copy_to(0, &mut record) {
        srcb::JOB_HEADER => JobHeader::read(&record).ok(),
        _ => None,
    }
}

/// The first data set header of a file: the first record after its job header and the
/// continuations of that, if it reads.
pub fn data_set_header_of<F: FileRecords>(file: &F) -> Option<DataSetHeader>
    ensures { result ≡ headers.data_set_header_of (F.records file.now) }
{
    let mut record = Record::new();
    for n in 0..file.count() {
        match file.copy_to(n, &mut record) {
            srcb::JOB_HEADER => {}
            srcb::DATA_SET_HEADER => return DataSetHeader::read(&record).ok(),
            _ => return None,
        }
    }
    None
}

/// What a file is called.
pub fn name_of<F: FileRecords>(file: &F) -> Option<FileName>
    ensures { result ≡ headers.name_of (F.records file.now) }
{
    job_header_of(file).map(|header| header.file_name())
}

/// Whose a file is.
pub fn owner_of<F: FileRecords>(file: &F) -> Option<User>
    ensures { result ≡ headers.file_owner (F.records file.now) }
{
    job_header_of(file).map(|header| header.owner())
}

/// Where a file goes: a job by its job header, output by its first data set header.
pub fn destination_of<F: FileRecords>(file: &F, kind: Kind) -> Option<Destination>
    ensures { result ≡ headers.destination_of kind (F.records file.now) }
{
    match kind {
        Kind::In => job_header_of(file).map(|header| header.destination()),
        Kind::Out => data_set_header_of(file).map(|header| header.destination()),
    }
}
