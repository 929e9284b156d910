//! The records of a hub's file, as they are written into a spool file.

ghost use Rattle.std.specs.Prelude.{◌≡◌, ◌≤◌, ◌<◌, ◌-◌, true, false, [], length, IsSome, OnOk, Some, None};
ghost use Rattle.std.specs.List.{AllByRecursion};
ghost use Rattle.sqlite.specs.State.{HasCleanDisk, Survives};
ghost use Rattle.njh_stream.specs.SpoolFiles.{records_in};
ghost use Rattle.njh_hub.specs.WholeHub.{part};
ghost use Rattle.njh_spoolfile.specs.Shelf.{shown};
ghost use Rattle.njh_keeper.specs.code.Counting.{CountsMore};
ghost use Rattle.njh_keeper.specs.code.Gathering.{Writes};
ghost use Rattle.njh_keeper.specs.code.Leading.{Leads};
ghost use Rattle.njh_keeper.specs.code.Mirrored.{FitsHub};
ghost use Rattle.njh_keeper.specs.code.Nodes.{AreOne, named_node, named_nodes, with_first};

use crate::next_row::NextRow;
use crate::own_files::HubFile;
use crate::writer::{PLACES, SpoolWriter, astray};
use njh_ebcdic::Name;
use njh_header::{DataSetHeader, JobHeader, srcb};
use njh_hub::Hub;
use njh_record::Record;
use njh_spool::RecordReader;
use sqlite::{Alter, Error};

/// Blanks, if a field has nothing.
const BLANKS: [u8; 8] = [0x40; 8];

/// Writes the records of a file of which the first so many stand there as they are.
pub(crate) fn write_rest<S: Alter + Drop>(
    writer: &mut SpoolWriter<S>,
    hub: &Hub,
    file: &HubFile,
    key: u32,
    written: u32,
) -> Result<(), Error>
    ensures led { HasCleanDisk (shown S.Store writer.new.store) → OnOk result (Leads (Writes key written
        (records_in file.now.number (part file.now.customer hub.now).customer.spool))
        (shown S.Store writer.old.store) (shown S.Store writer.new.store)) }
    ensures others { OnOk result (writer.new
        ≡ record writer.old { store = writer.new.store; waiting = writer.new.waiting }) }
    ensures counted { OnOk result (CountsMore
        (length (records_in file.now.number (part file.now.customer hub.now).customer.spool) - written)
        writer.old writer.new) }
    ensures crash { Survives (shown S.Store writer.old.store) (shown S.Store writer.new.store) (λ _. ⊥) }
{
    let count = hub.record_count(file.customer, file.number);
    if written >= count {
        return Ok(());
    }
    if count > PLACES {
        return Err(astray());
    }
    let Some(mut records) = hub.read_file_from(file.customer, file.number, written) else {
        return Err(astray());
    };
    let mut row = NextRow::new(key, written);
    let mut record = Record::new();
    for _ in written..count {
        let Some(srcb) = records.next(&mut record) else {
            return Err(astray());
        };
        let bytes: &[u8] = &record;
        row.add(writer, srcb, bytes)?;
    }
    row.write(writer)
}

/// A spool file can give each record of a hub's file back.
pub(crate) fn see_storable(hub: &Hub, file: &HubFile)
    ensures { AllByRecursion FitsHub
        (records_in file.now.number (part file.now.customer hub.now).customer.spool) }
{
    if let Some(records) = hub.read_file(file.customer, file.number) {
        records.records_are_storable();
    }
}

/// Whether a file's data set headers name more than one node.
pub(crate) fn is_mixed(hub: &Hub, file: &HubFile) -> bool
    ensures one { result ≡ false
        → AreOne (named_nodes None (records_in file.now.number (part file.now.customer hub.now).customer.spool)) }
    ensures several { result ≡ true
        → ¬ AreOne (named_nodes None (records_in file.now.number (part file.now.customer hub.now).customer.spool)) }
{
    let count = hub.record_count(file.customer, file.number);
    match hub.read_file(file.customer, file.number) {
        Some(records) => are_mixed(records, count),
        None => false,
    }
}

/// Whether the data set headers among so many records at most name more than one node.
fn are_mixed(mut records: RecordReader<'_>, count: u32) -> bool
    requires { length records ≤ count }
    ensures one { result ≡ false → AreOne (named_nodes None records.entry) }
    ensures several { result ≡ true → ¬ AreOne (named_nodes None records.entry) }
{
    let mut before = 0;
    let Some(first) = next_node(&mut records, &mut before, count) else {
        return false;
    };
    for _ in 0..count {
        match next_node(&mut records, &mut before, count) {
            Some(node) => {
                if node != first {
                    return true;
                }
            }
            None => return false,
        }
    }
    false
}

/// The node that the next data set header names, of those records that are left, so many at most.
/// One directly after another goes on with that, and names none. The SRCB of the record before is
/// given, and that of the header is left in its place. Behind the last header it looks at none.
fn next_node(records: &mut RecordReader<'_>, before: &mut u8, count: u32) -> Option<Name>
    requires { length records.old ≤ count }
    ensures nodes { named_nodes (Some before.old) records.old
        ≡ with_first result (named_nodes (Some before.new) records.new) }
    ensures none { result ≡ None → named_nodes (Some before.new) records.new ≡ [] }
    ensures fewer { length records.new ≤ length records.old }
    ensures fewer_where { IsSome result → length records.new < length records.old }
{
    let mut record = Record::new();
    for _ in 0..count {
        if !records.has_headers() {
            return None;
        }
        let srcb = records.next_header(&mut record)?;
        let node = node_of(*before, srcb, &record);
        *before = srcb;
        if node.is_some() {
            return node;
        }
    }
    None
}

/// The node that a record names, after one with an SRCB, if it is a data set header that reads.
fn node_of(before: u8, srcb: u8, bytes: &[u8]) -> Option<Name>
    ensures { result ≡ named_node (Some before) (record { srcb = srcb; bytes = bytes.now }) }
{
    if srcb != srcb::DATA_SET_HEADER || before == srcb::DATA_SET_HEADER {
        return None;
    }
    match DataSetHeader::read(bytes) {
        Ok(header) => Some(header.destination_node()),
        Err(_) => None,
    }
}

/// The job's name, as a file's job header has it; blanks if it doesn't read.
pub(crate) fn job_of(hub: &Hub, file: &HubFile) -> [u8; 8] {
    let Some(mut records) = hub.read_file(file.customer, file.number) else {
        return BLANKS;
    };
    let mut record = Record::new();
    match records.next(&mut record) {
        Some(srcb::JOB_HEADER) => match JobHeader::read(&record) {
            Ok(header) => header.name(),
            Err(_) => BLANKS,
        },
        _ => BLANKS,
    }
}
