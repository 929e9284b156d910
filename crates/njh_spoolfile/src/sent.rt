//! The mark of a file that was sent to another node, before that node's name, and the file's
//! records as they are then.

ghost use Rattle.std.specs.Prelude.{◌≡◌, ◌==◌, ◌+◌, ◌≤◌, Bool, true, false, None, length, map, string_bytes, IfOk};
ghost use Rattle.std.specs.Option.{option_map};
ghost use Rattle.njh_header.specs.Redirecting as redirecting;
ghost use Rattle.njh_header.specs.Redirecting.{records_to_node, redirected_record};
ghost use Rattle.njh_record.specs.Bytes.{with_field};
ghost use Rattle.njh_spoolfile.specs.Kept.{contents_of};
ghost use Rattle.njh_spoolfile.specs.Sent.{as_stored, is_sent, records_now, with_mark, without_mark};
ghost use Rattle.njh_spoolfile.specs.code.Sending.{short_srcb};

use crate::kept::StoredRecord;
use njh_ebcdic::Name;
use njh_header::{destination_place, srcb};
use njh_record::Kind;
use std::alloc::{AllocError, Global};

/// It is in no name.
const MARK: char = '>';

/// Whether the text that a file's row has for its node has the mark.
pub fn is_sent(to_node: &str) -> bool
    ensures { result ≡ is_sent to_node.now }
{
    to_node.strip_prefix(MARK).is_some()
}

/// The node's text without the mark.
pub fn without_mark(to_node: &str) -> &str
    ensures { result.now ≡ without_mark to_node.now }
{
    match to_node.strip_prefix(MARK) {
        Some(node) => node,
        None => to_node,
    }
}

/// The node's text, with the mark if the file was sent there.
pub fn with_mark(alloc: Global, is_sent: bool, node: String) -> Result<String, AllocError>
    ensures { IfOk result (λ text. string_bytes text ≡ with_mark is_sent (string_bytes node)) }
{
    if !is_sent {
        return Ok(node);
    }
    let mut marked = String::from_str(alloc, ">")?;
    marked.push_str(node.as_str())?;
    Ok(marked)
}

/// Makes of the records of a file as they stand those that they are now, by the text that its row
/// has for its node. It doesn't if the text has the mark and no name behind it.
pub fn send_records(kind: Kind, to_node: &str, records: &mut Vec<StoredRecord>) -> bool
    ensures sent { result ≡ true → records_now kind to_node.now (map as_stored (map contents_of records.old.items))
        ≡ Some (map as_stored (map contents_of records.new.items)) }
    ensures none { result ≡ false
        → records_now kind to_node.now (map as_stored (map contents_of records.old.items)) ≡ None }
    ensures same { result ≡ false → records.new ≡ records.old }
    ensures long { length records.new.items ≡ length records.old.items }
{
    let Some(node) = to_node.strip_prefix(MARK) else {
        return true;
    };
    match Name::of_text(node) {
        Ok(node) => {
            redirect(kind, node, records);
            true
        }
        Err(_) => false,
    }
}

/// Puts a node into each header that names the file's destination.
fn redirect(kind: Kind, node: Name, records: &mut Vec<StoredRecord>)
    ensures sent { map as_stored (map contents_of records.new.items)
        ≡ records_to_node kind node None (map as_stored (map contents_of records.old.items)) }
    ensures long { length records.new.items ≡ length records.old.items }
{
    let mut before = None;
    for n in 0..records.len() {
        before = Some(redirect_one(kind, node, before, &mut records[n]));
    }
}

/// Puts a node into a record, if it is such a header, and gives what counts of its SRCB.
fn redirect_one(kind: Kind, node: Name, before: Option<u8>, stored: &mut StoredRecord) -> u8
    ensures srcb { result ≡ short_srcb stored.old.srcb }
    ensures record { as_stored (contents_of stored.new) ≡ redirected_record node
        (redirecting.destination_place kind before (as_stored (contents_of stored.old)))
        (as_stored (contents_of stored.old)) }
{
    let srcb = short_srcb(stored.srcb);
    if let Some(place) = destination_place(kind, before, srcb, stored.bytes.as_slice()) {
        put_node(stored.bytes.as_mut_slice(), place, node.bytes());
    }
    srcb
}

/// A record's SRCB if it is a data set header's, and else 0.
fn short_srcb(srcb: u32) -> u8
    ensures { result ≡ short_srcb srcb }
{
    if srcb == u32::from(srcb::DATA_SET_HEADER) {
        srcb::DATA_SET_HEADER
    } else {
        0
    }
}

/// Puts a node at a place of a record.
fn put_node(bytes: &mut [u8], place: usize, node: [u8; 8])
    requires { place + 8 ≤ length bytes.old }
    ensures { bytes.new ≡ with_field place node bytes.old }
{
    bytes[place..place + 8].copy_from_slice(&node);
}
