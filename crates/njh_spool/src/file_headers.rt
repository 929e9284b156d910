//! What the headers of a file say of it.

ghost use Rattle.std.specs.Prelude.{◌≡◌, ◌<◌, ◌≤◌, length};
ghost use Rattle.std.specs.Option.{option_map};
ghost use Rattle.njh_header.specs.Headers.{job_name};
ghost use Rattle.njh_header.specs.FileHeaders.{job_header_of, data_set_header_of};
ghost use Rattle.njh_spool.specs.code.Chains.{chain_at};
ghost use Rattle.njh_spool.specs.Headers.{by_headers, kept_headers, reach_of};
ghost use Rattle.njh_spool.specs.code.Packing.{unpacked_records};
ghost use Rattle.njh_spool.specs.code.Slots.{IsFile};

use crate::State;
use crate::file_id::FileId;
use crate::file_slot::FileSlot;
use crate::record_reader::RecordReader;
use crate::store::BlockStore;
use njh_header::{DataSetHeader, Destination, FileName, JobHeader, User, srcb};
use njh_record::{Kind, Record};

/// What the headers of a whole file say of it, where they read.
#[derive(Clone, Copy, Debug, PartialEq, Eq)]
pub struct FileHeaders {
    /// What it is called, by its job header.
    pub name: Option<FileName>,
    /// Whose it is, by its job header.
    pub owner: Option<User>,
    /// Where it goes: a job by its job header, output by its first data set header.
    pub destination: Option<Destination>,
}

/// The same, and how many records from the file's first on say it.
#[derive(Clone, Copy)]
pub struct KeptHeaders {
    pub said: FileHeaders,
    pub count: u32,
}

impl KeptHeaders {
    /// Those of a slot without a whole file.
    pub const NONE: KeptHeaders = KeptHeaders {
        said: FileHeaders {
            name: None,
            owner: None,
            destination: None,
        },
        count: 0,
    };
}

/// What is known of a whole file without a look at its records.
#[derive(Clone, Copy, Debug, PartialEq, Eq)]
pub struct FileSummary {
    /// Its number.
    pub id: FileId,
    /// Whether it is a job or output.
    pub kind: Kind,
    /// What it waits for.
    pub state: State,
    /// How many records it has.
    pub records: u32,
    /// What its headers say.
    pub headers: FileHeaders,
}

/// The job header of a file, whose records are read from the first on.
fn read_job_header(records: &mut RecordReader<'_>) -> Option<JobHeader>
    ensures { result ≡ job_header_of records.old }
{
    let mut record = Record::new();
    match records.next(&mut record) {
        Some(srcb::JOB_HEADER) => JobHeader::read(&record).ok(),
        _ => None,
    }
}

/// The first data set header of a file of so many records, which are read from the first on, and
/// how many were read for it.
fn read_data_set_header(records: &mut RecordReader<'_>, count: u32) -> (Option<DataSetHeader>, u32)
    requires { length records.old ≡ count }
    ensures header { result.0 ≡ data_set_header_of records.old }
    ensures count { result.1 ≡ reach_of records.old }
{
    let mut record = Record::new();
    for n in 0..count {
        match records.next(&mut record) {
            Some(srcb::JOB_HEADER) => {}
            Some(srcb::DATA_SET_HEADER) => return (DataSetHeader::read(&record).ok(), n + 1),
            Some(_) => return (None, n + 1),
            None => return (None, n),
        }
    }
    (None, count)
}

fn name_by(job: &Option<JobHeader>) -> Option<FileName>
    ensures { result ≡ option_map job_name job.now }
{
    match job {
        Some(header) => Some(header.file_name()),
        None => None,
    }
}

fn owner_by(job: &Option<JobHeader>) -> Option<User>
    ensures { result ≡ option_map (λ h. h.origin) job.now }
{
    match job {
        Some(header) => Some(header.owner()),
        None => None,
    }
}

/// What a file's job header says of it, beside its destination.
fn headers_by(job: &Option<JobHeader>, destination: Option<Destination>) -> FileHeaders
    ensures { result ≡ by_headers job.now destination }
{
    FileHeaders {
        name: name_by(job),
        owner: owner_by(job),
        destination,
    }
}

fn execution_by(job: &Option<JobHeader>) -> Option<Destination>
    ensures { result ≡ option_map (λ h. h.execution) job.now }
{
    match job {
        Some(header) => Some(header.destination()),
        None => None,
    }
}

/// What the headers of a file say of it: its first record and, where it is output, those up to its
/// first data set header.
pub fn read_headers(store: &BlockStore, at: u32, slot: &FileSlot) -> KeptHeaders
    requires range { at < length store.now.chains }
    requires file { IsFile slot.now (chain_at at store.now) }
    ensures { result ≡ kept_headers slot.now.kind (unpacked_records slot.now.count (chain_at at store.now).bytes) }
{
    let job = read_job_header(&mut RecordReader::of(store, at, *slot));
    match slot.kind {
        Kind::In => KeptHeaders {
            said: headers_by(&job, execution_by(&job)),
            count: 1,
        },
        Kind::Out => {
            let mut records = RecordReader::of(store, at, *slot);
            let (data_set, count) = read_data_set_header(&mut records, slot.count);
            KeptHeaders {
                said: headers_by(&job, data_set.map(|header| header.destination())),
                count,
            }
        }
    }
}

/// What the headers of a file say of it when its n-th record was rewritten: they are read again,
/// where it is one of them.
pub fn headers_behind(store: &BlockStore, at: u32, slot: &FileSlot, n: u32) -> KeptHeaders
    requires range { at < length store.now.chains }
    requires file { IsFile slot.now (chain_at at store.now) }
    ensures read { n < slot.now.headers.count → result
        ≡ kept_headers slot.now.kind (unpacked_records slot.now.count (chain_at at store.now).bytes) }
    ensures same { slot.now.headers.count ≤ n → result ≡ slot.now.headers }
{
    if n < slot.headers.count {
        read_headers(store, at, slot)
    } else {
        slot.headers
    }
}
