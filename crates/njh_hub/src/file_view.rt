//! What a customer is shown of its whole files.

ghost use Rattle.std.specs.Prelude.{◌≡◌, ◌<◌, ◌≤◌, length, IfOk, OnErr, Err};
ghost use Rattle.njh_command.specs.Files.{file_at};
ghost use Rattle.njh_spool.specs.Spools.{spool_at};
ghost use Rattle.njh_stream.specs.SpoolFiles.{records_in};
ghost use Rattle.njh_stream.specs.WholeFiles.{HaveHeaders};
ghost use Rattle.njh_hub.specs.Files.{files_of, printed_file_line, view_of_file};

use crate::fault::HubFault;
use njh_command::number_of;
use njh_header::{Destination, FileName, FileRecords, User, destination_of, name_of, owner_of};
use njh_record::{Kind, Record, put_bytes};
use njh_spool::{FileId, RecordReader, Spool, State};
use njh_texts::{MessageText, file_text};
use std::alloc::{AllocError, Global};
use std::marker::Model;

/// A record of a file: its subrecord control byte, and its bytes.
#[derive(Drop)]
pub struct FileRecord {
    srcb: u8,
    bytes: Vec<u8>,
}

impl Model for FileRecord {
    ghost use Rattle.std.specs.Prelude.{◌≤◌, length};
    ghost use Rattle.njh_record.specs.Stored.{Stored};

    ghost Value = { Stored };

    ghost view = { λ r. record { srcb = r.srcb; bytes = r.bytes.items } };

    ghost invariant = { λ r. length r.bytes.items ≤ 256 };
}

impl FileRecord {
    /// A copy of a record. Out of memory is the only refusal.
    fn of(alloc: Global, srcb: u8, bytes: &[u8]) -> Result<FileRecord, AllocError>
        requires { length bytes.now ≤ 256 }
        ensures { IfOk result (λ r. r ≡ record { srcb = srcb; bytes = bytes.now }) }
    {
        Ok(FileRecord {
            srcb,
            bytes: Vec::from_slice(alloc, bytes)?,
        })
    }

    /// The subrecord control byte.
    pub fn srcb(&self) -> u8
        ensures { result ≡ self.now.srcb }
    {
        self.srcb
    }

    /// The bytes, at most 256.
    pub fn bytes(&self) -> &[u8]
        ensures bytes { result.now ≡ self.now.bytes }
        ensures few { length result.now ≤ 256 }
    {
        self.bytes.as_slice()
    }
}

/// The records of a file, copied from the spool.
#[derive(Drop)]
struct Records {
    items: Vec<FileRecord>,
}

impl Model for Records {
    ghost use Rattle.std.specs.Prelude.{◌<◌, ◌^◌, List, length};
    ghost use Rattle.njh_record.specs.Stored.{Stored};

    ghost Value = { List Stored };

    ghost view = { λ records. records.items.items };

    ghost invariant = { λ records. length records.items.items < 2 ^ 32 };
}

impl Records {
    /// The records of the file of a number, whole or partial; none where there is no such file. Out
    /// of memory is the only refusal.
    fn of(alloc: Global, spool: &Spool, customer: u16, file: FileId) -> Result<Records, AllocError>
        requires { customer < length spool.now }
        ensures { IfOk result (λ records. records ≡ records_in file (spool_at customer spool.now)) }
    {
        let count = spool.records(customer, file).unwrap_or(0);
        let items = match spool.read_all(customer, file) {
            Ok(reader) => copy_records(alloc, reader, count)?,
            Err(_) => Vec::new(alloc),
        };
        Ok(Records { items })
    }
}

/// Copies of the records that a reader has left, of which there are so many. Out of memory is the
/// only refusal.
fn copy_records(
    alloc: Global,
    mut reader: RecordReader<'_>,
    count: u32,
) -> Result<Vec<FileRecord>, AllocError>
    requires { length reader ≡ count }
    ensures { IfOk result (λ records. records.items ≡ reader.entry) }
{
    let mut records = Vec::with_capacity(alloc, count as usize)?;
    let mut bytes = Record::new();
    while let Some(srcb) = reader.next(&mut bytes) {
        records.push_reserved(FileRecord::of(alloc, srcb, &bytes)?);
    }
    Ok(records)
}

impl FileRecords for Records {
    ghost records = { λ records. records };

    fn count(&self) -> u32 {
        self.items.len() as u32
    }

    fn copy_to(&self, n: u32, into: &mut Record) -> u8 {
        let record = &self.items[n as usize];
        into.clear();
        put_bytes(into, record.bytes());
        record.srcb()
    }
}

/// A whole file, as its customer is shown it.
#[derive(Drop)]
pub struct FileView {
    name: FileName,
    owner: User,
    kind: Kind,
    destination: Destination,
    state: State,
    records: Records,
}

impl Model for FileView {
    ghost use Rattle.njh_hub.specs.Files as files;

    ghost Value = { files.FileView };

    ghost view = { λ f. record {
      name = f.name;
      owner = f.owner;
      kind = f.kind;
      destination = f.destination;
      state = f.state;
      records = f.records;
    } };
}

impl FileView {
    /// The node that it comes from, and its job number there.
    pub fn name(&self) -> FileName
        ensures { result ≡ self.now.name }
    {
        self.name
    }

    /// Whose it is: the node that it comes from, and the user there.
    pub fn owner(&self) -> User
        ensures { result ≡ self.now.owner }
    {
        self.owner
    }

    /// SYSIN or SYSOUT.
    pub fn kind(&self) -> Kind
        ensures { result ≡ self.now.kind }
    {
        self.kind
    }

    /// The node that it goes to, and the user there.
    pub fn destination(&self) -> Destination
        ensures { result ≡ self.now.destination }
    {
        self.destination
    }

    /// What it waits for.
    pub fn state(&self) -> State
        ensures { result ≡ self.now.state }
    {
        self.state
    }

    /// Its records, from the first to the last.
    pub fn records(&self) -> &[FileRecord]
        ensures { result.now ≡ self.now.records }
    {
        self.records.items.as_slice()
    }

    /// What NJH001 says of it behind its number, in EBCDIC.
    pub fn line(&self) -> MessageText
        ensures { result.items ≡ printed_file_line self.now }
    {
        file_text(
            Some(self.name),
            Some(self.destination),
            self.kind,
            self.records.count(),
            self.state,
        )
    }
}

/// The file at a place in the order of arrival. Out of memory is the only refusal.
fn view_of(alloc: Global, spool: &Spool, customer: u16, index: u32) -> Result<FileView, AllocError>
    requires range { customer < length spool.now }
    requires within { index < length (spool_at customer spool.now).whole }
    requires headers { HaveHeaders (spool_at customer spool.now).whole }
    ensures { IfOk result (λ view. view ≡ view_of_file (file_at index (spool_at customer spool.now))) }
{
    let file = number_of(spool, customer, index);
    let kind = spool.kind(customer, file).unwrap_or(Kind::In);
    let records = Records::of(alloc, spool, customer, file)?;
    Ok(FileView {
        name: name_of(&records).unwrap(),
        owner: owner_of(&records).unwrap(),
        kind,
        destination: destination_of(&records, kind).unwrap(),
        state: spool.state(customer, file).unwrap_or(State::Ready),
        records,
    })
}

/// A customer's whole files in order of arrival. Out of memory is the only refusal.
pub(crate) fn files_of(
    alloc: Global,
    spool: &Spool,
    customer: u16,
) -> Result<Vec<FileView>, HubFault>
    requires range { customer < length spool.now }
    requires headers { HaveHeaders (spool_at customer spool.now).whole }
    ensures files { IfOk result (λ files. files.items ≡ files_of (spool_at customer spool.now)) }
    ensures memory { OnErr result (result ≡ Err HubFault.Memory) }
{
    let count = spool.files(customer);
    let mut files = Vec::with_capacity(alloc, count as usize)?;
    for index in 0..count {
        files.push_reserved(view_of(alloc, spool, customer, index)?);
    }
    Ok(files)
}
