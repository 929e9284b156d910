//! The whole files of a spool file, put back into a hub one after the other.

ghost use Rattle.std.specs.Prelude.{◌≡◌, ◌<◌, ◌≤◌, ◌^◌, ◌++◌, [], length, map, slice_set, true, false, IsOk, IfErr};
ghost use Rattle.std.specs.Prelude.{IfOk};
ghost use Rattle.std.specs.Prelude.{MatchOption, OnErr, OnOk, Err, None, option_map};
ghost use Rattle.std.specs.List.{cons_option};
ghost use Rattle.sqlite.specs.State.{HasCleanDisk, Survives};
ghost use Rattle.njh_hub.specs.WholeHub.{SameLines, part};
ghost use Rattle.njh_keeper.specs.Faults.{IsNoFile};
ghost use Rattle.njh_keeper.specs.Opened.{file_fault, hub_with, with_file};
ghost use Rattle.njh_keeper.specs.Refusal.{refusal_of};
ghost use Rattle.njh_keeper.specs.SetAside.{file_aside, file_taken_up, refusal, tried};
ghost use Rattle.njh_keeper.specs.code.Opening.{entries};
ghost use Rattle.njh_keeper.specs.code.Restoring.{AreTried, ComesTo, IsTried, KeepsCommit, LeavesRow, StopsAt};
ghost use Rattle.njh_keeper.specs.code.Restoring.{StopsOn, wholes};
ghost use Rattle.njh_spoolfile.specs.Kept.{File, SpoolContents, Holds, contents_of, entry_of, file_of, whole_in};
ghost use Rattle.njh_spoolfile.specs.Shelf.{shown};
ghost use Rattle.njh_spoolfile.specs.Steps.{Stays};

use crate::aside::{is_aside, row_aside, row_taken_up, taken_up};
use crate::fault::{FileFault, OpeningFault, RefusedFile};
use crate::names::number_of;
use crate::records::FileContents;
use njh_ebcdic::Name;
use njh_hub::Hub;
use njh_spoolfile::{FileRow, Store, StoredFile, StoredRecord, kind_of_word};
use sqlite::{Alter, Error};
use std::alloc::{AllocError, Global};

/// A file has fewer records than this.
const PLACES: u32 = 1 << 23;

/// What comes of a whole file that is tried: it is no customer's of the tables, it is put back, or
/// it can't be.
#[derive(Clone, Copy, Debug, PartialEq, Eq)]
pub(crate) enum Outcome {
    Foreign,
    Back,
    Fails(FileFault),
}

/// Puts a whole file back that was read with its records.
fn put_back(
    hub: &mut Hub,
    customer: u16,
    file: &FileRow,
    records: Vec<StoredRecord>,
) -> Result<(), FileFault>
    requires { customer < length hub.old }
    ensures fault { MatchOption (file_fault (part customer hub.old) (file_of file.now) (map contents_of records.items))
        (IsOk result) (λ fault. result ≡ Err fault) }
    ensures ok { OnOk result (hub.new ≡ slice_set hub.old customer
        (with_file (part customer hub.old) (file_of file.now) (map contents_of records.items))) }
    ensures err { OnErr result (hub.new ≡ hub.old) }
    ensures lines { SameLines hub.old hub.new }
{
    let Some(kind) = kind_of_word(file.kind.as_str()) else {
        return Err(FileFault::BadFile);
    };
    let Some(contents) = FileContents::of(kind, file, records) else {
        return Err(FileFault::BadFile);
    };
    match hub.restore(customer, kind, file.held, &contents) {
        Ok(()) => Ok(()),
        Err(fault) => Err(FileFault::Refused(fault)),
    }
}

/// Puts a whole file of a spool file back to its customer, mark or no mark, if that is one of
/// these. Its records alone are read.
fn restore_one<S: Alter>(
    alloc: Global,
    store: &mut Store<S>,
    hub: &mut Hub,
    names: &[Name],
    stored: &StoredFile,
) -> Result<Outcome, Error>
    requires same { length hub.old ≡ length names.now }
    requires few { length names.now ≤ 2 ^ 16 }
    ensures count { length hub.new ≡ length hub.old }
    ensures lines { SameLines hub.old hub.new }
    ensures ok { HasCleanDisk (shown S.Store store.new) → IfOk result (λ outcome. (spool : SpoolContents)
        → Holds spool (shown S.Store store.old).now.trees
        → (hub.new ≡ hub_with names.now hub.old (tried names.now hub.old (whole_in spool (entry_of stored.now))))
        × ComesTo names.now hub.old (whole_in spool (entry_of stored.now)) outcome) }
    ensures same { HasCleanDisk (shown S.Store store.new) → OnOk result (Stays (shown S.Store store.old)
        (shown S.Store store.new)) }
    ensures crash { Survives (shown S.Store store.old) (shown S.Store store.new) (λ _. ⊥) }
{
    let Some(customer) = number_of(names, taken_up(stored.file.customer.as_str())) else {
        return Ok(Outcome::Foreign);
    };
    let records = store.records(alloc, stored.file.key, 0, PLACES)?;
    match put_back(hub, customer, &stored.file, records) {
        Ok(()) => Ok(Outcome::Back),
        Err(fault) => Ok(Outcome::Fails(fault)),
    }
}

/// Puts a row in the place of a whole file's.
fn write_row<S: Alter>(store: &mut Store<S>, id: u64, row: FileRow) -> Result<(), Error>
    ensures left { HasCleanDisk (shown S.Store store.new) → OnOk result ((before : File) → (spool : SpoolContents)
        → Holds spool (shown S.Store store.old).now.trees
        → LeavesRow id before (file_of row) spool (shown S.Store store.new)) }
    ensures keeps { HasCleanDisk (shown S.Store store.new) → OnOk result (KeepsCommit (shown S.Store store.old)
        (shown S.Store store.new)) }
    ensures crash { Survives (shown S.Store store.old) (shown S.Store store.new) (λ _. ⊥) }
{
    let changed = store.change_file(id, &row);
    drop(row);
    changed
}

/// Takes the mark, if there is one, from the row of a whole file that was put back.
fn take_up<S: Alter>(
    alloc: Global,
    store: &mut Store<S>,
    stored: &StoredFile,
) -> Result<(), OpeningFault>
    ensures left { HasCleanDisk (shown S.Store store.new) → OnOk result ((spool : SpoolContents)
        → Holds spool (shown S.Store store.old).now.trees → LeavesRow stored.now.id (file_of stored.now.file)
        (file_taken_up (file_of stored.now.file)) spool (shown S.Store store.new)) }
    ensures keeps { HasCleanDisk (shown S.Store store.new) → OnOk result (KeepsCommit (shown S.Store store.old)
        (shown S.Store store.new)) }
    ensures told { IfErr result IsNoFile }
    ensures crash { Survives (shown S.Store store.old) (shown S.Store store.new) (λ _. ⊥) }
{
    if !is_aside(stored.file.customer.as_str()) {
        return Ok(());
    }
    let row = row_taken_up(alloc, &stored.file)?;
    write_row(store, stored.id, row)?;
    Ok(())
}

/// Marks the row of a whole file that can't be put back, unless it has the mark.
fn set_aside<S: Alter>(
    alloc: Global,
    store: &mut Store<S>,
    stored: &StoredFile,
) -> Result<(), OpeningFault>
    ensures left { HasCleanDisk (shown S.Store store.new) → OnOk result ((spool : SpoolContents)
        → Holds spool (shown S.Store store.old).now.trees → LeavesRow stored.now.id (file_of stored.now.file)
        (file_aside (file_of stored.now.file)) spool (shown S.Store store.new)) }
    ensures keeps { HasCleanDisk (shown S.Store store.new) → OnOk result (KeepsCommit (shown S.Store store.old)
        (shown S.Store store.new)) }
    ensures told { IfErr result IsNoFile }
    ensures crash { Survives (shown S.Store store.old) (shown S.Store store.new) (λ _. ⊥) }
{
    if is_aside(stored.file.customer.as_str()) {
        return Ok(());
    }
    let row = row_aside(alloc, &stored.file)?;
    write_row(store, stored.id, row)?;
    Ok(())
}

/// What is told of a whole file that can't be put back.
fn refused_file(
    alloc: Global,
    stored: &StoredFile,
    fault: FileFault,
) -> Result<RefusedFile, AllocError>
    ensures { IfOk result (λ refused. refusal_of refused ≡ record {
      id = stored.now.id;
      file = file_taken_up (file_of stored.now.file);
      fault = fault;
    }) }
{
    let file = StoredFile {
        id: stored.id,
        file: row_taken_up(alloc, &stored.file)?,
    };
    Ok(RefusedFile { file, fault })
}

/// Tries a whole file: it is put back without the mark, or set aside with it and told. If that is
/// `is_strict`, it stays as it is and is the fault.
fn try_one<S: Alter>(
    alloc: Global,
    store: &mut Store<S>,
    hub: &mut Hub,
    names: &[Name],
    stored: &StoredFile,
    is_strict: bool,
) -> Result<Option<RefusedFile>, OpeningFault>
    requires same { length hub.old ≡ length names.now }
    requires few { length names.now ≤ 2 ^ 16 }
    ensures count { length hub.new ≡ length hub.old }
    ensures lines { SameLines hub.old hub.new }
    ensures ok { HasCleanDisk (shown S.Store store.new) → IfOk result (λ told. (spool : SpoolContents)
        → Holds spool (shown S.Store store.old).now.trees
        → IsTried names.now hub.old hub.new stored.now told spool (shown S.Store store.new)) }
    ensures keeps { HasCleanDisk (shown S.Store store.new) → OnOk result (KeepsCommit (shown S.Store store.old)
        (shown S.Store store.new)) }
    ensures fault { HasCleanDisk (shown S.Store store.new) → IfErr result (λ fault. (spool : SpoolContents)
        → Holds spool (shown S.Store store.old).now.trees
        → StopsAt (refusal names.now hub.old (whole_in spool (entry_of stored.now))) fault) }
    ensures strict { is_strict ≡ true → IfOk result (λ told. told ≡ None) }
    ensures lenient { is_strict ≡ false → IfErr result IsNoFile }
    ensures crash { Survives (shown S.Store store.old) (shown S.Store store.new) (λ _. ⊥) }
{
    match restore_one(alloc, store, hub, names, stored)? {
        Outcome::Foreign => Ok(None),
        Outcome::Back => {
            take_up(alloc, store, stored)?;
            Ok(None)
        }
        Outcome::Fails(fault) => {
            let refused = refused_file(alloc, stored, fault)?;
            if is_strict {
                return Err(OpeningFault::File(refused));
            }
            match set_aside(alloc, store, stored) {
                Ok(()) => Ok(Some(refused)),
                Err(fault) => {
                    drop(refused);
                    Err(fault)
                }
            }
        }
    }
}

/// Puts whole files of a spool file back, one after the other. Those that can't be are set aside
/// and told, in their order; if that is `is_strict`, the first of them is the fault.
pub(crate) fn restore_all<S: Alter>(
    alloc: Global,
    store: &mut Store<S>,
    hub: &mut Hub,
    names: &[Name],
    files: &[StoredFile],
    is_strict: bool,
) -> Result<Vec<RefusedFile>, OpeningFault>
    requires same { length hub.old ≡ length names.now }
    requires few { length names.now ≤ 2 ^ 16 }
    ensures ok { HasCleanDisk (shown S.Store store.new) → IfOk result (λ refused. (spool : SpoolContents)
        → Holds spool (shown S.Store store.old).now.trees → entries files.now ≡ spool.files
        → AreTried names.now hub.old hub.new files.now [] (map refusal_of refused.items) spool
        (shown S.Store store.new)) }
    ensures keeps { HasCleanDisk (shown S.Store store.new) → OnOk result (KeepsCommit (shown S.Store store.old)
        (shown S.Store store.new)) }
    ensures fault { HasCleanDisk (shown S.Store store.new) → IfErr result (λ fault. (spool : SpoolContents)
        → Holds spool (shown S.Store store.old).now.trees → entries files.now ≡ spool.files
        → StopsOn names.now hub.old (wholes spool files.now) fault) }
    ensures strict { is_strict ≡ true → IfOk result (λ refused. refused.items ≡ []) }
    ensures lenient { is_strict ≡ false → IfErr result IsNoFile }
    ensures lines { SameLines hub.old hub.new }
    ensures crash { Survives (shown S.Store store.old) (shown S.Store store.new) (λ _. ⊥) }
{
    let mut refused = Vec::new(alloc);
    for at in 0..files.len() {
        match try_one(alloc, store, hub, names, &files[at], is_strict) {
            Ok(told) => add_told(&mut refused, told)?,
            Err(fault) => {
                drop(refused);
                return Err(fault);
            }
        }
    }
    Ok(refused)
}

/// Adds what is told of a whole file, if anything is.
fn add_told(refused: &mut Vec<RefusedFile>, told: Option<RefusedFile>) -> Result<(), AllocError>
    ensures ok { OnOk result (map refusal_of refused.new.items
        ≡ map refusal_of refused.old.items ++ cons_option (option_map refusal_of told) []) }
    ensures none { told ≡ None → OnOk result (refused.new.items ≡ refused.old.items) }
{
    if let Some(file) = told {
        refused.push(file)?;
    }
    Ok(())
}
