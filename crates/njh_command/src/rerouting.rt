//! Another destination node for a file.

ghost use Rattle.std.specs.Prelude.{◌≡◌, ◌<◌, length, slice_set, None};
ghost use Rattle.njh_spool.specs.Spools.{spool_at};
ghost use Rattle.njh_header.specs.Redirecting.{records_to_node};
ghost use Rattle.njh_command.specs.Commands.{with_new_destination, state_after_reroute, file_in_state};
ghost use Rattle.njh_command.specs.code.Looking.{looked_at, may_name};
ghost use Rattle.njh_command.specs.Files.{file_at, stored_at, with_file, with_records, with_redirected};

use crate::files::{RecordAt, count_records, kind_of, set_state, state_of};
use njh_ebcdic::Name;
use njh_header::{destination_place, srcb};
use njh_record::{Kind, Record};
use njh_spool::{Spool, State};

/// Where a file goes.
#[derive(Clone, Copy, Debug, PartialEq, Eq)]
struct Redirection {
    kind: Kind,
    node: Name,
}

/// The file at a place goes to another node: its headers say so, and it is Ready where it was
/// Refused.
pub(crate) fn reroute(node: Name, spool: &mut Spool, customer: u16, index: u32)
    requires range { customer < length spool.old }
    requires within { index < length (spool_at customer spool.old).whole }
    ensures { spool.new ≡ slice_set spool.old customer
        (with_file index (with_new_destination node (file_at index (spool_at customer spool.old)))
        (spool_at customer spool.old)) }
{
    redirect(node, spool, customer, index);
    try_again(spool, customer, index);
}

/// The headers of the file at a place name another node. Each record is gone past by its SRCB, in
/// order.
fn redirect(node: Name, spool: &mut Spool, customer: u16, index: u32)
    requires range { customer < length spool.old }
    requires within { index < length (spool_at customer spool.old).whole }
    ensures { spool.new ≡ slice_set spool.old customer (with_file index
        (with_records (records_to_node (file_at index (spool_at customer spool.old)).kind node None
        (file_at index (spool_at customer spool.old)).records)
        (file_at index (spool_at customer spool.old))) (spool_at customer spool.old)) }
{
    let kind = kind_of(spool, customer, index);
    let to = Redirection { kind, node };
    let mut before = None;
    for n in 0..count_looked_at(kind, spool, customer, index) {
        let at = RecordAt { customer, index, n };
        before = Some(redirect_by_srcb(&to, before, spool, at));
    }
}

/// How many of the file's records are looked at: of a job's file its first, of an output file all.
fn count_looked_at(kind: Kind, spool: &Spool, customer: u16, index: u32) -> u32
    requires range { customer < length spool.now }
    requires within { index < length (spool_at customer spool.now).whole }
    ensures { result ≡ looked_at kind (length (file_at index (spool_at customer spool.now)).records) }
{
    match (kind, count_records(spool, customer, index)) {
        (Kind::In, 0) => 0,
        (Kind::In, _) => 1,
        (Kind::Out, count) => count,
    }
}

/// A record names another node, where it names one. It gives the record's SRCB, and reads the
/// record itself only where its SRCB is that of such a header.
fn redirect_by_srcb(to: &Redirection, before: Option<u8>, spool: &mut Spool, at: RecordAt) -> u8
    requires range { at.customer < length spool.old }
    requires within { at.index < length (spool_at at.customer spool.old).whole }
    requires known { at.n < length (file_at at.index (spool_at at.customer spool.old)).records }
    ensures srcb { result ≡ (stored_at at.n (file_at at.index (spool_at at.customer spool.old)).records).srcb }
    ensures spool { spool.new ≡ slice_set spool.old at.customer (with_file at.index
        (with_records (with_redirected to.now.kind before to.now.node at.n
        (file_at at.index (spool_at at.customer spool.old)).records)
        (file_at at.index (spool_at at.customer spool.old))) (spool_at at.customer spool.old)) }
{
    let srcb = at.read_srcb(spool);
    if may_name_node(to.kind, before, srcb) {
        redirect_record(to, before, spool, at);
    }
    srcb
}

/// Whether a record may name the file's destination, by its SRCB and that of the record before it.
fn may_name_node(kind: Kind, before: Option<u8>, srcb: u8) -> bool
    ensures { result ≡ may_name kind before srcb }
{
    match (kind, before) {
        (Kind::In, None) => true,
        (Kind::In, Some(_)) | (Kind::Out, Some(srcb::DATA_SET_HEADER)) => false,
        (Kind::Out, _) => srcb == srcb::DATA_SET_HEADER,
    }
}

/// A record names another node, where it names one.
fn redirect_record(to: &Redirection, before: Option<u8>, spool: &mut Spool, at: RecordAt)
    requires range { at.customer < length spool.old }
    requires within { at.index < length (spool_at at.customer spool.old).whole }
    requires known { at.n < length (file_at at.index (spool_at at.customer spool.old)).records }
    ensures spool { spool.new ≡ slice_set spool.old at.customer (with_file at.index
        (with_records (with_redirected to.now.kind before to.now.node at.n
        (file_at at.index (spool_at at.customer spool.old)).records)
        (file_at at.index (spool_at at.customer spool.old))) (spool_at at.customer spool.old)) }
{
    let mut record = Record::new();
    let srcb = at.read(spool, &mut record);
    if let Some(place) = destination_place(to.kind, before, srcb, &record) {
        at.rewrite(spool, place, to.node.bytes());
    }
}

/// The file at a place is Ready where it was Refused.
fn try_again(spool: &mut Spool, customer: u16, index: u32)
    requires range { customer < length spool.old }
    requires within { index < length (spool_at customer spool.old).whole }
    ensures { spool.new ≡ slice_set spool.old customer (with_file index
        (file_in_state (state_after_reroute (file_at index (spool_at customer spool.old)).state)
        (file_at index (spool_at customer spool.old)))
        (spool_at customer spool.old)) }
{
    match state_of(spool, customer, index) {
        State::Refused => set_state(spool, customer, index, State::Ready),
        State::Ready | State::Held | State::Sending => {}
    }
}
