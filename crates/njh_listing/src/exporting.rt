//! Writes the records of a file.

ghost use Rattle.std.specs.Prelude.{◌≡◌, ◌++◌, ◌⊎◌, List, map, true, false, IfErr, IfOk, OnErr, OnOk};
ghost use Rattle.std.specs.Prelude.{flat_map, option_map};
ghost use Rattle.std.specs.Io.KnownBytes.{Appends, Keeps};
ghost use Rattle.njh_listing.specs.Asked.{IsRefusedOf};
ghost use Rattle.njh_listing.specs.Exported.{IsExported, IsExportedInPart, export_text, is_header};
ghost use Rattle.njh_listing.specs.Exported.{IsExportedOf, IsTextOf, record_line, records_by_row, records_by_rows};
ghost use Rattle.njh_listing.specs.Faults.{IsOfSpool};
ghost use Rattle.njh_record.specs.Stored.{Stored};
ghost use Rattle.njh_spoolfile.specs.Kept.{Holds, SpoolContents, contents_of, entry_of, file_of};
ghost use Rattle.njh_spoolfile.specs.Sent.{as_stored};
ghost use Rattle.njh_spoolfile.specs.Shelf.{shown};
ghost use Rattle.njh_spoolfile.specs.Steps.{Stays};
ghost use Rattle.sqlite.specs.State.{HasCleanDisk, Survives};

use crate::fault::FilesFault;
use crate::finding::{Asked, key_of};
use crate::writing::write_text;
use njh_ebcdic::put_characters;
use njh_header::srcb::{DATA_SET_HEADER, JOB_HEADER, JOB_TRAILER};
use njh_spoolfile::{FileRow, Store, StoredFile, StoredRecord, kind_of_word, send_records};
use sqlite::Alter;
use std::alloc::{AllocError, Global};
use std::io::Write;

/// A file has fewer records than this.
const PLACES: u32 = 1 << 23;

/// A data set trailer.
const DATA_SET_TRAILER: u8 = 0xf0;

/// Whether a record is a header or a trailer, by its SRCB.
#[tactic(auto, unfolding(crate::specs::Exported::is_header))]
fn is_header(srcb: u32) -> bool
    ensures { result ≡ is_header srcb }
{
    srcb == u32::from(JOB_HEADER)
        || srcb == u32::from(JOB_TRAILER)
        || srcb == u32::from(DATA_SET_HEADER)
        || srcb == u32::from(DATA_SET_TRAILER)
}

/// Appends a record as a line of text, if it is data.
#[tactic(auto, unfolding(crate::specs::Exported::record_line))]
fn put_line(text: &mut Vec<u8>, stored: &StoredRecord) -> Result<(), AllocError>
    ensures { OnOk result (text.new.items ≡ text.old.items ++ record_line (as_stored (contents_of stored.now))) }
{
    if is_header(stored.srcb) {
        return Ok(());
    }
    put_characters(text, &stored.bytes)?;
    text.push(b'\n')?;
    Ok(())
}

/// The records of data as lines of text.
fn lines_of(alloc: Global, records: &[StoredRecord]) -> Result<Vec<u8>, AllocError>
    ensures { IfOk result (λ text. text.items ≡ flat_map (λ s. record_line (as_stored (contents_of s))) records.now) }
{
    let mut text = Vec::new(alloc);
    for stored in records {
        put_line(&mut text, stored)?;
    }
    Ok(text)
}

/// The bytes of all records.
fn bytes_of(alloc: Global, records: &[StoredRecord]) -> Result<Vec<u8>, AllocError>
    ensures { IfOk result (λ text. text.items ≡ flat_map (λ s. s.bytes.items) records.now) }
{
    let mut text = Vec::new(alloc);
    for stored in records {
        text.extend_from_slice(&stored.bytes)?;
    }
    Ok(text)
}

/// What is written of records.
fn export_text(alloc: Global, raw: bool, records: &[StoredRecord]) -> Result<Vec<u8>, AllocError>
    ensures { IfOk result (λ text. text.items ≡ export_text raw
        (map as_stored (map contents_of records.now))) }
{
    if raw {
        bytes_of(alloc, records)
    } else {
        lines_of(alloc, records)
    }
}

/// Makes of the records of a file those that they are now, by its row.
fn send_by_row(file: &FileRow, records: &mut Vec<StoredRecord>)
    ensures { map as_stored (map contents_of records.new.items)
        ≡ records_by_row (file_of file.now) (map as_stored (map contents_of records.old.items)) }
{
    if let Some(kind) = kind_of_word(file.kind.as_str()) {
        let _is_sent = send_records(kind, file.to_node.as_str(), records);
    }
}

/// The same by the first of these rows that has the records' key.
fn send_by_rows(key: u32, files: &[StoredFile], records: &mut Vec<StoredRecord>)
    ensures { map as_stored (map contents_of records.new.items)
        ≡ records_by_rows key (map entry_of files.now) (map as_stored (map contents_of records.old.items)) }
{
    for stored in files {
        if stored.file.key == key {
            send_by_row(&stored.file, records);
            return;
        }
    }
}

/// What is written of the file that is asked for.
fn export<S: Alter>(
    alloc: Global,
    store: &mut Store<S>,
    asked: &Asked<'_>,
    name: &str,
) -> Result<Vec<u8>, FilesFault>
    ensures kept { HasCleanDisk (shown S.Store store.new) → IfOk result (λ text. (spool : SpoolContents)
        → Holds spool (shown S.Store store.old).now.trees → IsTextOf (option_map (λ c. c.now) asked.now.customer)
        asked.now.number name.now asked.now.raw spool text.items) }
    ensures refused { HasCleanDisk (shown S.Store store.new) → IfErr result (λ fault. (spool : SpoolContents)
        → Holds spool (shown S.Store store.old).now.trees → IsRefusedOf (option_map (λ c. c.now) asked.now.customer)
        asked.now.number name.now spool.files fault) }
    ensures some { IfOk result (λ text. (records : List Stored)
        × (text.items ≡ export_text asked.now.raw records)) }
    ensures same { HasCleanDisk (shown S.Store store.new) → OnOk result (Stays (shown S.Store store.old)
        (shown S.Store store.new)) }
    ensures crash { Survives (shown S.Store store.old) (shown S.Store store.new) (λ _. ⊥) }
{
    let files = store.files(alloc)?;
    let key = key_of(alloc, files.as_slice(), asked, name)?;
    let mut records = store.records(alloc, key, 0, PLACES)?;
    send_by_rows(key, files.as_slice(), &mut records);
    Ok(export_text(alloc, asked.raw, records.as_slice())?)
}

/// Writes the records of a customer's file: those of data as characters of code page 37, a line a
/// record, or all records as they are. If the customer has no such file, or several and no
/// number is asked for, nothing was written; after another fault a beginning of them was.
pub(crate) fn export_file<S: Alter, W: Write>(
    alloc: Global,
    store: &mut Store<S>,
    asked: &Asked<'_>,
    name: &str,
    out: &mut W,
) -> Result<(), FilesFault>
    ensures kept { HasCleanDisk (shown S.Store store.new) → OnOk result ((spool : SpoolContents)
        → Holds spool (shown S.Store store.old).now.trees → IsExportedOf (option_map (λ c. c.now) asked.now.customer)
        asked.now.number name.now asked.now.raw spool (W.contents out.old) (W.contents out.new)) }
    ensures refused { HasCleanDisk (shown S.Store store.new) → IfErr result (λ fault. (spool : SpoolContents)
        → Holds spool (shown S.Store store.old).now.trees → IsRefusedOf (option_map (λ c. c.now) asked.now.customer)
        asked.now.number name.now spool.files fault) }
    ensures done { OnOk result (IsExported asked.now.raw (W.contents out.old) (W.contents out.new)) }
    ensures begun { OnErr result (Keeps (W.contents out.old) (W.contents out.new)
        ⊎ IsExportedInPart asked.now.raw (W.contents out.old) (W.contents out.new)) }
    ensures same { HasCleanDisk (shown S.Store store.new) → OnOk result (Stays (shown S.Store store.old)
        (shown S.Store store.new)) }
    ensures crash { Survives (shown S.Store store.old) (shown S.Store store.new) (λ _. ⊥) }
    ensures silent { IfErr result (λ fault. Keeps (W.contents out.old) (W.contents out.new) ⊎ IsOfSpool fault) }
{
    let text = export(alloc, store, asked, name)?;
    write_text(out, &text)
}
