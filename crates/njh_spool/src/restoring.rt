//! A whole file that was kept elsewhere is put back.

mod fault;

ghost use Rattle.std.specs.Prelude.{◌≡◌, ◌<◌, ◌≤◌, length, slice_set, Err};
ghost use Rattle.std.specs.Prelude.{MatchOption, IfOk, OnOk, OnErr, IsOk, IsSome};
ghost use Rattle.std.specs.Bool.{OnTrue, OnFalse};
ghost use Rattle.njh_spool.specs.CustomerSpool.{next_number, partial_numbered, used_blocks};
ghost use Rattle.njh_spool.specs.Spools.{spool_at};
ghost use Rattle.njh_spool.specs.Restoring.{has_headers, kept, limits_fault, restore_fault, with_restored};
ghost use Rattle.njh_spool.specs.code.Growing.{limit_of, with_begun, with_more, IsGrownInPart};

use crate::file_id::FileId;
use crate::spool::Spool;
use crate::{SpoolFault, State};
pub use fault::RestoreFault;
use njh_header::{FileRecords, destination_of, name_of, owner_of};
use njh_record::{Kind, Record};

/// Puts a whole file back, last in its customer's order of arrival and under the least number that
/// no file of the customer has. One that was Held is Held again, and any other is Ready.
///
/// `BadHeader` comes first; then `FilesOver`; then `QuotaOver`. After each the spool is as it was.
pub fn restore<F: FileRecords>(
    spool: &mut Spool,
    customer: u16,
    kind: Kind,
    held: bool,
    file: &F,
) -> Result<(), RestoreFault>
    requires { customer < length spool.old }
    ensures fault { MatchOption (restore_fault (kept kind held (F.records file.now)) (spool_at customer spool.old))
        (IsOk result) (λ fault. result ≡ Err fault) }
    ensures ok { OnOk result (spool.new ≡ slice_set spool.old customer
        (with_restored (kept kind held (F.records file.now)) (spool_at customer spool.old))) }
    ensures err { OnErr result (spool.new ≡ spool.old) }
{
    if !has_headers(kind, file) {
        return Err(RestoreFault::BadHeader);
    }
    let id = begin_whole(spool, customer, kind, file)?;
    spool.finish(customer, id).ok();
    if held {
        spool.set_state(customer, id, State::Held).ok();
    }
    Ok(())
}

/// Whether a file's headers read.
fn has_headers<F: FileRecords>(kind: Kind, file: &F) -> bool
    ensures { result ≡ has_headers kind (F.records file.now) }
{
    name_of(file).is_some() && owner_of(file).is_some() && destination_of(file, kind).is_some()
}

/// A new partial file with all records of a file.
fn begin_whole<F: FileRecords>(
    spool: &mut Spool,
    customer: u16,
    kind: Kind,
    file: &F,
) -> Result<FileId, RestoreFault>
    requires range { customer < length spool.old }
    requires some { 0 < length (F.records file.now) }
    ensures fault { MatchOption (limits_fault (F.records file.now) (spool_at customer spool.old))
        (IsOk result) (λ fault. result ≡ Err fault) }
    ensures number { IfOk result (λ id. id ≡ next_number (spool_at customer spool.old)) }
    ensures ok { OnOk result (spool.new ≡ slice_set spool.old customer
        (with_begun kind (F.records file.now) (spool_at customer spool.old))) }
    ensures err { OnErr result (spool.new ≡ spool.old) }
{
    let id = match spool.begin(customer, kind) {
        Ok(id) => id,
        Err(fault) => return Err(limit_of(fault)),
    };
    if append_all(spool, customer, id, file) {
        return Ok(id);
    }
    spool.abandon(customer, id).ok();
    Err(RestoreFault::QuotaOver)
}

/// The limit that a spool's refusal tells of.
fn limit_of(fault: SpoolFault) -> RestoreFault
    ensures { result ≡ limit_of fault }
{
    match fault {
        SpoolFault::TooManyFiles => RestoreFault::FilesOver,
        SpoolFault::QuotaFull | SpoolFault::NoSuchFile | SpoolFault::Memory =>
            RestoreFault::QuotaOver,
    }
}

/// Puts all records of a file last in a partial file, as long as the customer's quota has room.
/// Says whether all had.
fn append_all<F: FileRecords>(spool: &mut Spool, customer: u16, id: FileId, file: &F) -> bool
    requires range { customer < length spool.old }
    requires there { IsSome (partial_numbered id (spool_at customer spool.old)) }
    ensures all { OnTrue result (spool.new ≡ slice_set spool.old customer
        (with_more id (F.records file.now) (spool_at customer spool.old))) }
    ensures within { OnTrue result (used_blocks (with_more id (F.records file.now) (spool_at customer spool.old))
        ≤ (spool_at customer spool.old).quota) }
    ensures part { OnFalse result (IsGrownInPart customer id (F.records file.now) spool.old spool.new) }
{
    let mut record = Record::new();
    for n in 0..file.count() {
        let srcb = file.copy_to(n, &mut record);
        if spool.append(customer, id, srcb, &record).is_err() {
            return false;
        }
    }
    spool.quota_holds(customer);
    true
}
