//! The whole files of a hub beside those of another one.

use njh_ebcdic::text_of;
use njh_hub::{FileSummaryView, Hub};
use njh_record::Record;
use njh_spool::{RecordReader, State};
use std::alloc::Global;
use std::test::Fail;

/// A file has fewer records than this.
const PLACES: u32 = 1 << 23;

/// Checks that a customer has the same whole files on a hub that was opened from what is kept, in
/// the same order.
pub(crate) fn check_same(kept: &Hub, hub: &Hub, customer: u16, moment: &str) -> Result<(), Fail> {
    let count = hub.file_count(customer);
    let found = kept.file_count(customer);
    if found != count {
        return Err(Fail::new(format_args!(
            "{found} of the {count} files of {customer} are kept: {moment}"
        )));
    }
    for index in 0..count {
        let wanted = hub.summary_at(customer, index);
        let found = kept.summary_at(customer, index);
        if let Some(what) = difference(&found, &wanted) {
            return Err(Fail::new(format_args!(
                "file {index} of {customer} has another {what}: {moment}"
            )));
        }
        let number = hub.number_at(customer, index);
        let kept_number = kept.number_at(customer, index);
        let (Some(wanted), Some(found)) = (
            hub.read_file(customer, number),
            kept.read_file(customer, kept_number),
        ) else {
            return Err("a whole file isn't read".into());
        };
        if let Some(place) = other_record(wanted, found) {
            return Err(Fail::new(format_args!(
                "file {index} of {customer} has another record {place}: {moment}"
            )));
        }
    }
    Ok(())
}

/// What is another in a file that is kept. It is Held where the file is, and nothing else of its
/// state is kept.
fn difference(found: &FileSummaryView, wanted: &FileSummaryView) -> Option<&'static str> {
    if found.name != wanted.name || found.owner != wanted.owner || found.kind != wanted.kind {
        return Some("name, owner or kind");
    }
    if found.destination != wanted.destination {
        return Some("destination");
    }
    if (found.state == State::Held) != (wanted.state == State::Held) {
        return Some("state");
    }
    if found.records != wanted.records || found.blocks != wanted.blocks {
        return Some("size");
    }
    None
}

/// The place of the first record that is another; none where all are alike.
fn other_record(wanted: RecordReader<'_>, found: RecordReader<'_>) -> Option<u32> {
    let mut wanted = wanted;
    let mut found = found;
    let mut record = Record::new();
    let mut other = Record::new();
    for place in 0..PLACES {
        let srcb = wanted.next(&mut record);
        if srcb != found.next(&mut other) {
            return Some(place);
        }
        if srcb.is_none() {
            return None;
        }
        if record.as_slice() != other.as_slice() {
            return Some(place);
        }
    }
    Some(PLACES)
}

/// What LIST would say of a customer's whole files, one after the other with a comma between.
pub(crate) fn listing(alloc: Global, hub: &Hub, customer: u16) -> Result<String, Fail> {
    let mut text = String::new(alloc);
    for index in 0..hub.file_count(customer) {
        if index > 0 {
            text.push_str(", ")?;
        }
        for byte in &hub.summary_at(customer, index).line() {
            text.push(text_of(*byte))?;
        }
    }
    Ok(text)
}
