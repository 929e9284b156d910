//! A file and a record as they are kept.

ghost use Rattle.std.specs.Prelude.{◌≡◌, ◌<◌, ◌≤◌, ◌^◌, pos, [], ◌∷◌, OnErr, OnOk};
ghost use Rattle.sqlite_value.specs.declared.value.Value.TheVariants.{Int};
ghost use Rattle.sqlite.specs.Values.{bound};
ghost use Rattle.njh_spoolfile.specs.Kept.{file_of, file_values, record_of, record_values, record_number};

use sqlite::types::ValueRef;
use sqlite::{Error, ErrorCode};

/// The greatest number that a row may have.
pub const GREATEST_ID: u64 = (1 << 63) - 1;

/// A whole file without its records. Names are in characters, as users see them.
#[derive(Debug, Drop)]
pub struct FileRow {
    /// The customer's name in the table file.
    pub customer: String,
    /// The number under which its records were added, which is no other file's.
    pub key: u32,
    /// Which kind of file it is, in a word.
    pub kind: String,
    /// The job's name (IBM SC23-0070, job header).
    pub job: String,
    /// The original job number.
    pub number: u32,
    /// The node that it comes from.
    pub owner_node: String,
    /// The user there; empty where there is none.
    pub owner_user: String,
    /// The node that it goes to.
    pub to_node: String,
    /// The user there; empty where there is none.
    pub to_user: String,
    /// Whether it is Held.
    pub held: bool,
    /// How many records it has.
    pub records: u32,
    /// How many blocks of a spool it takes.
    pub blocks: u32,
    /// When it became whole, in seconds since 1970.
    pub came: u32,
}

/// A row of records of the file of this key: one, or several in a `Pack`.
#[derive(Debug, Drop)]
pub struct RecordRow<'a> {
    /// The file's key.
    pub key: u32,
    /// The place in the file of the first of them, below 8,388,608.
    pub place: u32,
    /// The subrecord control byte, or `SEVERAL`.
    pub srcb: u16,
    /// The bytes, or those of the `Pack`.
    pub bytes: &'a [u8],
}

/// A whole file under its number, which says where it stands in the order of arrival.
#[derive(Debug, Drop)]
pub struct StoredFile {
    /// The number, below 2^63.
    pub id: u64,
    /// What is known of it.
    pub file: FileRow,
}

/// A record as it is read back.
#[derive(Debug, Drop)]
pub struct StoredRecord {
    /// Its place in the file.
    pub place: u32,
    /// The subrecord control byte, or what else the file has there.
    pub srcb: u32,
    /// The bytes.
    pub bytes: Vec<u8>,
}

/// Whether a row may have this number: there are none from 2^63 on.
pub(crate) fn check_id(id: u64) -> Result<(), Error>
    ensures low { OnOk result (id < 2 ^ 63) }
    ensures high { OnErr result (2 ^ 63 ≤ id) }
{
    if id > GREATEST_ID {
        return Err(Error::SqliteFailure(ErrorCode::DiskFull));
    }
    Ok(())
}

/// A row's number as a database has it.
fn number_of_row(id: u64) -> i64
    requires { id < 2 ^ 63 }
    ensures { result ≡ pos id }
{
    id as i64
}

/// The values of a file's row, in the order of the columns.
pub(crate) fn values_of_file(id: u64, file: &FileRow) -> [ValueRef<'_>; 14]
    requires { id < 2 ^ 63 }
    ensures { bound result ≡ file_values id (file_of file.now) }
{
    [
        ValueRef::Int(number_of_row(id)),
        ValueRef::Text(file.customer.as_bytes()),
        ValueRef::Int(i64::from(file.key)),
        ValueRef::Text(file.kind.as_bytes()),
        ValueRef::Text(file.job.as_bytes()),
        ValueRef::Int(i64::from(file.number)),
        ValueRef::Text(file.owner_node.as_bytes()),
        ValueRef::Text(file.owner_user.as_bytes()),
        ValueRef::Text(file.to_node.as_bytes()),
        ValueRef::Text(file.to_user.as_bytes()),
        ValueRef::Int(if file.held { 1 } else { 0 }),
        ValueRef::Int(i64::from(file.records)),
        ValueRef::Int(i64::from(file.blocks)),
        ValueRef::Int(i64::from(file.came)),
    ]
}

/// The number under which the record at this place of the file of this key stands.
pub(crate) fn number_of_record(key: u32, place: u32) -> i64
    requires { place ≤ 2 ^ 23 }
    ensures { result ≡ pos (record_number key place) }
{
    i64::from(key) * 8_388_608 + i64::from(place)
}

/// The values of a record's row, in the order of the columns.
pub(crate) fn values_of_record<'a>(kept: &RecordRow<'a>) -> [ValueRef<'a>; 5]
    requires { kept.now.place < 2 ^ 23 }
    ensures { bound result ≡ record_values (record_number kept.now.key kept.now.place) (record_of kept.now) }
{
    [
        ValueRef::Int(number_of_record(kept.key, kept.place)),
        ValueRef::Int(i64::from(kept.key)),
        ValueRef::Int(i64::from(kept.place)),
        ValueRef::Int(i64::from(kept.srcb)),
        ValueRef::Blob(kept.bytes),
    ]
}

/// The number of a row, as the value of a statement.
pub(crate) fn values_of_number(id: u64) -> [ValueRef<'static>; 1]
    requires { id < 2 ^ 63 }
    ensures { bound result ≡ Int (pos id) ∷ [] }
{
    [ValueRef::Int(number_of_row(id))]
}

/// The numbers of a file's records at places from `first` on and before `end`.
pub(crate) fn values_of_places(key: u32, first: u32, end: u32) -> [ValueRef<'static>; 2]
    requires { (first ≤ 2 ^ 23) × (end ≤ 2 ^ 23) }
    ensures { bound result ≡ Int (pos (record_number key first)) ∷ Int (pos (record_number key end)) ∷ [] }
{
    [
        ValueRef::Int(number_of_record(key, first)),
        ValueRef::Int(number_of_record(key, end)),
    ]
}
