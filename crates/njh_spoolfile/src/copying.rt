//! Whole files are copied from one spool file into another.

ghost use Rattle.std.specs.Prelude.{◌≡◌, ◌⊎◌, ◌+◌, ◌<◌, ◌≤◌, ◌^◌, ℕ, [], ◌∷◌, length, map, option_map};
ghost use Rattle.std.specs.Prelude.{IfErr, IfOk, IfSome, None, OnOk};
ghost use Rattle.std.specs.List.{AllByRecursion, list_any};
ghost use Rattle.sqlite.specs.State.{HasCleanDisk, Survives};
ghost use Rattle.njh_spoolfile.specs.Kept.{SpoolContents, Holds, as_stands, contents_of, entry_of, file_of, kept};
ghost use Rattle.njh_spoolfile.specs.Kept.{records_of, whole_in, with_record};
ghost use Rattle.njh_spoolfile.specs.Copies.{AreBelow, FitsFault, HaveControlBytes, IsCopied, IsCopiedInto, asked};
ghost use Rattle.njh_spoolfile.specs.Copies.{is_asked};
ghost use Rattle.njh_spoolfile.specs.Shelf.{shown};
ghost use Rattle.njh_spoolfile.specs.Steps.{Changes, Stays};
ghost use Rattle.njh_spoolfile.specs.code.CopySteps.{Adds, AddsAsked, Fills, FillsEmpty, FitsFiles, FitsStep, IsBehind};
ghost use Rattle.njh_spoolfile.specs.code.CopySteps.{LacksRoom, LeadsTo, asked_of, record_under};

use crate::kept::{FileRow, GREATEST_ID, RecordRow, StoredFile, StoredRecord};
use crate::packing::SEVERAL;
use crate::store::Store;
use sqlite::{Alter, Error};
use std::alloc::Global;

/// A file has fewer records than this.
const PLACES: u32 = 1 << 23;

/// Why files aren't copied into another spool file.
#[derive(Clone, Copy, Debug, PartialEq, Eq)]
pub enum CopyFault {
    /// One of the spool files can't be read or written, or memory was refused, and why.
    Database(Error),
    /// A record has no subrecord control byte: the first file is damaged.
    Damaged,
    /// The other spool file has whole files of the customer, or any if none is named.
    Taken,
    /// The other spool file has no numbers left.
    Full,
}

impl From<Error> for CopyFault {
    ghost use Rattle.std.specs.Prelude.{◌≡◌};
    ghost use Rattle.njh_spoolfile.specs.declared.copying.CopyFault.TheVariants.{Database};

    ghost from_gives = { λ error fault. fault ≡ Database error };

    fn from(error: Error) -> CopyFault {
        CopyFault::Database(error)
    }
}

/// The numbers of the next file that is copied.
#[derive(Clone, Copy)]
struct Numbers {
    /// Its row's number.
    id: u64,
    /// The number that its records stand under.
    key: u32,
}

/// Whether a file is of the customer, if one is named.
fn is_asked(file: &FileRow, customer: Option<&str>) -> bool
    ensures { result ≡ is_asked (option_map (λ c. c.now) customer.entry) (file_of file.now) }
{
    match customer {
        Some(customer) => file.customer.as_str() == customer,
        None => true,
    }
}

/// Whether one of these files is of the customer, or there is any if none is named.
fn has_asked(files: &[StoredFile], customer: Option<&str>) -> bool
    ensures { result ≡ list_any (λ f. is_asked (option_map (λ c. c.now) customer.entry) (file_of f.file)) files.now }
{
    for stored in files {
        if is_asked(&stored.file, customer) {
            return true;
        }
    }
    false
}

/// The number behind this one of a row, if there is one.
fn id_behind(id: u64) -> Option<u64>
    ensures behind { IfSome result (λ next. (next ≡ id + 1) × (next < 2 ^ 63)) }
    ensures none { result ≡ None → 2 ^ 63 ≤ id + 1 }
{
    if id >= GREATEST_ID {
        return None;
    }
    Some(id + 1)
}

/// The numbers above these and those of one more file, if there are any.
fn above(next: Numbers, stored: &StoredFile) -> Option<Numbers>
    ensures above { IfSome result (λ after. (next.id ≤ after.id) × (next.key ≤ after.key)
        × (stored.now.id < after.id) × (stored.now.file.key < after.key)) }
    ensures least { IfSome result (λ after. (id key : ℕ) → next.id ≤ id → next.key ≤ key → stored.now.id < id
        → stored.now.file.key < key → (after.id ≤ id) × (after.key ≤ key)) }
    ensures low { IfSome result (λ after. next.id < 2 ^ 63 → after.id < 2 ^ 63) }
    ensures none { result ≡ None → (id key : ℕ) → stored.now.id < id → stored.now.file.key < key
        → (2 ^ 63 ≤ id) ⊎ (2 ^ 32 ≤ key) }
{
    let id = id_behind(stored.id)?;
    let key = stored.file.key.checked_add(1)?;
    Some(Numbers {
        id: if id > next.id { id } else { next.id },
        key: if key > next.key { key } else { next.key },
    })
}

/// The least numbers behind those of these files, if there are any.
fn numbers_behind(files: &[StoredFile]) -> Option<Numbers>
    ensures behind { IfSome result (λ first. AllByRecursion (λ f. (f.id < first.id) × (f.file.key < first.key))
        files.now) }
    ensures least { IfSome result (λ first. (id key : ℕ) → (0 < id) × (0 < key)
        → AllByRecursion (λ f. (f.id < id) × (f.file.key < key)) files.now → (first.id ≤ id) × (first.key ≤ key)) }
    ensures low { IfSome result (λ first. first.id < 2 ^ 63) }
    ensures none { result ≡ None → (id key : ℕ) → AllByRecursion (λ f. (f.id < id) × (f.file.key < key)) files.now
        → (2 ^ 63 ≤ id) ⊎ (2 ^ 32 ≤ key) }
{
    let mut next = Numbers { id: 1, key: 1 };
    for stored in files {
        next = above(next, stored)?;
    }
    Some(next)
}

/// The numbers of the first file that is copied into a spool file that has none of the customer's.
fn first_numbers<T: Alter>(
    alloc: Global,
    into: &mut Store<T>,
    customer: Option<&str>,
) -> Result<Numbers, CopyFault>
    ensures behind { HasCleanDisk (shown T.Store into.new) → IfOk result (λ first. (before : SpoolContents)
        → Holds before (shown T.Store into.old).now.trees → AreBelow first.id first.key (kept before)
        × (asked (option_map (λ c. c.now) customer.entry) before ≡ [])) }
    ensures least { HasCleanDisk (shown T.Store into.new) → IfOk result (λ first. (before : SpoolContents)
        → Holds before (shown T.Store into.old).now.trees → (id key : ℕ) → (0 < id) × (0 < key)
        → AreBelow id key (kept before) → (first.id ≤ id) × (first.key ≤ key)) }
    ensures low { IfOk result (λ first. first.id < 2 ^ 63) }
    ensures fault { HasCleanDisk (shown T.Store into.new) → IfErr result (λ fault. (spool before : SpoolContents)
        → Holds before (shown T.Store into.old).now.trees
        → FitsFault (option_map (λ c. c.now) customer.entry) spool before fault) }
    ensures same { HasCleanDisk (shown T.Store into.new) → OnOk result (Stays (shown T.Store into.old)
        (shown T.Store into.new)) }
    ensures crash { Survives (shown T.Store into.old) (shown T.Store into.new) (λ _. ⊥) }
{
    let files = into.files(alloc)?;
    if has_asked(files.as_slice(), customer) {
        return Err(CopyFault::Taken);
    }
    match numbers_behind(files.as_slice()) {
        Some(first) => Ok(first),
        None => Err(CopyFault::Full),
    }
}

/// Adds a row of records as it was read under another key.
fn add_one<T: Alter>(into: &mut Store<T>, key: u32, stored: &StoredRecord) -> Result<(), CopyFault>
    ensures added { HasCleanDisk (shown T.Store into.new) → OnOk result (Changes
        (with_record (record_under key (contents_of stored.now))) (shown T.Store into.old) (shown T.Store into.new)) }
    ensures place { OnOk result (stored.now.place < 2 ^ 23) }
    ensures fault { IfErr result (FitsStep ⊥ (stored.now.place < 2 ^ 23 → ¬ (stored.now.srcb ≤ 256))) }
    ensures crash { Survives (shown T.Store into.old) (shown T.Store into.new) (λ _. ⊥) }
{
    if stored.srcb > u32::from(SEVERAL) || stored.place >= PLACES {
        return Err(CopyFault::Damaged);
    }
    let place = stored.place;
    let srcb = stored.srcb as u16;
    let bytes = stored.bytes.as_slice();
    let kept = RecordRow {
        key,
        place,
        srcb,
        bytes,
    };
    into.add_record(&kept)?;
    Ok(())
}

/// Adds rows of records as they were read under another key, under which there are none.
fn add_records<T: Alter>(
    into: &mut Store<T>,
    key: u32,
    records: &[StoredRecord],
) -> Result<(), CopyFault>
    ensures added { HasCleanDisk (shown T.Store into.new) → OnOk result (LeadsTo
        (FillsEmpty key (map contents_of records.now) (map contents_of records.now)) (shown T.Store into.old)
        (shown T.Store into.new)) }
    ensures fault { IfErr result (FitsStep ⊥ (¬ AllByRecursion (λ r. (r.0 < 2 ^ 23) × (r.1 ≤ 256))
        (map contents_of records.now))) }
    ensures crash { Survives (shown T.Store into.old) (shown T.Store into.new) (λ _. ⊥) }
{
    for stored in records {
        add_one(into, key, stored)?;
    }
    Ok(())
}

/// Copies the records of the file of one key under another. What stood there of files that were
/// given up is dropped.
fn copy_records<S: Alter, T: Alter>(
    alloc: Global,
    from: &mut Store<S>,
    into: &mut Store<T>,
    key: u32,
    new_key: u32,
) -> Result<(), CopyFault>
    ensures copied { HasCleanDisk (shown S.Store from.new) → HasCleanDisk (shown T.Store into.new)
        → OnOk result ((spool : SpoolContents) → Holds spool (shown S.Store from.old).now.trees
        → LeadsTo (Fills new_key (map as_stands (records_of key spool))) (shown T.Store into.old)
        (shown T.Store into.new)) }
    ensures same { HasCleanDisk (shown S.Store from.new) → OnOk result (Stays (shown S.Store from.old)
        (shown S.Store from.new)) }
    ensures fault { HasCleanDisk (shown S.Store from.new) → IfErr result (λ fault. (spool : SpoolContents)
        → Holds spool (shown S.Store from.old).now.trees
        → FitsStep ⊥ (¬ AllByRecursion (λ r. r.1 ≤ 256) (map as_stands (records_of key spool))) fault) }
    ensures crash_from { Survives (shown S.Store from.old) (shown S.Store from.new) (λ _. ⊥) }
    ensures crash { Survives (shown T.Store into.old) (shown T.Store into.new) (λ _. ⊥) }
{
    let records = from.rows(alloc, key, 0, PLACES)?;
    into.drop_records(new_key, 0, PLACES)?;
    add_records(into, new_key, records.as_slice())
}

/// The same row with another key.
fn with_key(alloc: Global, file: &FileRow, key: u32) -> Result<FileRow, Error>
    ensures { IfOk result (λ row. file_of row ≡ record (file_of file.now) { key = key }) }
{
    Ok(FileRow {
        customer: String::from_str(alloc, file.customer.as_str())?,
        key,
        kind: String::from_str(alloc, file.kind.as_str())?,
        job: String::from_str(alloc, file.job.as_str())?,
        number: file.number,
        owner_node: String::from_str(alloc, file.owner_node.as_str())?,
        owner_user: String::from_str(alloc, file.owner_user.as_str())?,
        to_node: String::from_str(alloc, file.to_node.as_str())?,
        to_user: String::from_str(alloc, file.to_user.as_str())?,
        held: file.held,
        records: file.records,
        blocks: file.blocks,
        came: file.came,
    })
}

/// Copies a whole file under these numbers.
fn copy_one<S: Alter, T: Alter>(
    alloc: Global,
    from: &mut Store<S>,
    into: &mut Store<T>,
    stored: &StoredFile,
    next: Numbers,
) -> Result<(), CopyFault>
    ensures copied { HasCleanDisk (shown S.Store from.new) → HasCleanDisk (shown T.Store into.new)
        → OnOk result ((spool : SpoolContents) → Holds spool (shown S.Store from.old).now.trees
        → LeadsTo (Adds next.id next.key spool (entry_of stored.now ∷ [])) (shown T.Store into.old)
        (shown T.Store into.new)) }
    ensures same { HasCleanDisk (shown S.Store from.new) → OnOk result (Stays (shown S.Store from.old)
        (shown S.Store from.new)) }
    ensures fault { HasCleanDisk (shown S.Store from.new) → IfErr result (λ fault. (spool : SpoolContents)
        → Holds spool (shown S.Store from.old).now.trees
        → FitsStep ⊥ (¬ HaveControlBytes (whole_in spool (entry_of stored.now) ∷ [])) fault) }
    ensures crash_from { Survives (shown S.Store from.old) (shown S.Store from.new) (λ _. ⊥) }
    ensures crash { Survives (shown T.Store into.old) (shown T.Store into.new) (λ _. ⊥) }
{
    copy_records(alloc, from, into, stored.file.key, next.key)?;
    let row = with_key(alloc, &stored.file, next.key)?;
    into.add_file(next.id, &row)?;
    Ok(())
}

/// Copies a whole file under these numbers if it is asked for, and says which are next.
fn copy_asked<S: Alter, T: Alter>(
    alloc: Global,
    from: &mut Store<S>,
    into: &mut Store<T>,
    customer: Option<&str>,
    stored: &StoredFile,
    next: Numbers,
) -> Result<Numbers, CopyFault>
    ensures copied { HasCleanDisk (shown S.Store from.new) → HasCleanDisk (shown T.Store into.new)
        → OnOk result ((spool : SpoolContents) → Holds spool (shown S.Store from.old).now.trees
        → LeadsTo (Adds next.id next.key spool
        (asked_of (option_map (λ c. c.now) customer.entry) (entry_of stored.now ∷ []))) (shown T.Store into.old)
        (shown T.Store into.new)) }
    ensures counted { IfOk result (λ after. IsBehind next
        (asked_of (option_map (λ c. c.now) customer.entry) (entry_of stored.now ∷ [])) after) }
    ensures low { IfOk result (λ after. next.id < 2 ^ 63 → after.id < 2 ^ 63) }
    ensures same { HasCleanDisk (shown S.Store from.new) → OnOk result (Stays (shown S.Store from.old)
        (shown S.Store from.new)) }
    ensures fault { HasCleanDisk (shown S.Store from.new) → IfErr result (λ fault. (spool : SpoolContents)
        → Holds spool (shown S.Store from.old).now.trees → FitsFiles next spool
        (asked_of (option_map (λ c. c.now) customer.entry) (entry_of stored.now ∷ [])) fault) }
    ensures crash_from { Survives (shown S.Store from.old) (shown S.Store from.new) (λ _. ⊥) }
    ensures crash { Survives (shown T.Store into.old) (shown T.Store into.new) (λ _. ⊥) }
{
    if !is_asked(&stored.file, customer) {
        return Ok(next);
    }
    if next.id >= GREATEST_ID || next.key == u32::MAX {
        return Err(CopyFault::Full);
    }
    copy_one(alloc, from, into, stored, next)?;
    Ok(Numbers {
        id: next.id + 1,
        key: next.key + 1,
    })
}

/// Copies those of these whole files that are asked for, the first of them under these numbers, and
/// says which are next.
fn copy_each<S: Alter, T: Alter>(
    alloc: Global,
    from: &mut Store<S>,
    into: &mut Store<T>,
    customer: Option<&str>,
    files: &[StoredFile],
    first: Numbers,
) -> Result<Numbers, CopyFault>
    ensures copied { HasCleanDisk (shown S.Store from.new) → HasCleanDisk (shown T.Store into.new)
        → OnOk result ((spool : SpoolContents) → Holds spool (shown S.Store from.old).now.trees
        → LeadsTo (Adds first.id first.key spool
        (asked_of (option_map (λ c. c.now) customer.entry) (map entry_of files.now))) (shown T.Store into.old)
        (shown T.Store into.new)) }
    ensures counted { IfOk result (λ after. IsBehind first
        (asked_of (option_map (λ c. c.now) customer.entry) (map entry_of files.now)) after) }
    ensures low { IfOk result (λ after. first.id < 2 ^ 63 → after.id < 2 ^ 63) }
    ensures same { HasCleanDisk (shown S.Store from.new) → OnOk result (Stays (shown S.Store from.old)
        (shown S.Store from.new)) }
    ensures fault { HasCleanDisk (shown S.Store from.new) → IfErr result (λ fault. (spool : SpoolContents)
        → Holds spool (shown S.Store from.old).now.trees → FitsFiles first spool
        (asked_of (option_map (λ c. c.now) customer.entry) (map entry_of files.now)) fault) }
    ensures crash_from { Survives (shown S.Store from.old) (shown S.Store from.new) (λ _. ⊥) }
    ensures crash { Survives (shown T.Store into.old) (shown T.Store into.new) (λ _. ⊥) }
{
    let mut next = first;
    for stored in files {
        next = copy_asked(alloc, from, into, customer, stored, next)?;
    }
    Ok(next)
}

/// Copies the whole files that are asked for behind those below these numbers, and says how many.
fn copy_behind<S: Alter, T: Alter>(
    alloc: Global,
    from: &mut Store<S>,
    into: &mut Store<T>,
    customer: Option<&str>,
    first: Numbers,
) -> Result<u32, CopyFault>
    ensures copied { HasCleanDisk (shown S.Store from.new) → HasCleanDisk (shown T.Store into.new)
        → IfOk result (λ count. (spool : SpoolContents) → Holds spool (shown S.Store from.old).now.trees
        → (count ≡ length (asked (option_map (λ c. c.now) customer.entry) spool))
        × LeadsTo (AddsAsked first.id first.key (asked (option_map (λ c. c.now) customer.entry) spool))
        (shown T.Store into.old) (shown T.Store into.new)) }
    ensures room { IfOk result (λ count. first.id < 2 ^ 63
        → (first.id + count < 2 ^ 63) × (first.key + count < 2 ^ 32)) }
    ensures same { HasCleanDisk (shown S.Store from.new) → OnOk result (Stays (shown S.Store from.old)
        (shown S.Store from.new)) }
    ensures fault { HasCleanDisk (shown S.Store from.new) → IfErr result (λ fault. (spool : SpoolContents)
        → Holds spool (shown S.Store from.old).now.trees → FitsStep
        (LacksRoom first (length (asked (option_map (λ c. c.now) customer.entry) spool)))
        (¬ HaveControlBytes (asked (option_map (λ c. c.now) customer.entry) spool)) fault) }
    ensures crash_from { Survives (shown S.Store from.old) (shown S.Store from.new) (λ _. ⊥) }
    ensures crash { Survives (shown T.Store into.old) (shown T.Store into.new) (λ _. ⊥) }
{
    let files = from.files(alloc)?;
    let after = copy_each(alloc, from, into, customer, files.as_slice(), first)?;
    Ok(after.key - first.key)
}

/// Copies whole files with all their records behind those of another spool file, in their order,
/// and commits once: a customer's, or all if none is named. Says how many. After a fault nothing of
/// it is committed, unless it is the commit itself that failed; drop the other spool file then, for
/// what was written still waits there.
pub fn copy_files<S: Alter, T: Alter>(
    alloc: Global,
    from: &mut Store<S>,
    into: &mut Store<T>,
    customer: Option<&str>,
) -> Result<u32, CopyFault>
    ensures copied { HasCleanDisk (shown S.Store from.new) → HasCleanDisk (shown T.Store into.new)
        → IfOk result (λ count. (spool before : SpoolContents) → Holds spool (shown S.Store from.old).now.trees
        → Holds before (shown T.Store into.old).now.trees
        → IsCopiedInto (option_map (λ c. c.now) customer.entry) count spool before (shown T.Store into.new)) }
    ensures fault { HasCleanDisk (shown S.Store from.new) → HasCleanDisk (shown T.Store into.new)
        → IfErr result (λ fault. (spool before : SpoolContents) → Holds spool (shown S.Store from.old).now.trees
        → Holds before (shown T.Store into.old).now.trees
        → FitsFault (option_map (λ c. c.now) customer.entry) spool before fault) }
    ensures same { HasCleanDisk (shown S.Store from.new) → OnOk result (Stays (shown S.Store from.old)
        (shown S.Store from.new)) }
    ensures crash_from { Survives (shown S.Store from.old) (shown S.Store from.new) (λ _. ⊥) }
    ensures crash { Survives (shown T.Store into.old) (shown T.Store into.new)
        (λ trees. HasCleanDisk (shown S.Store from.new) → (spool before : SpoolContents)
        → Holds spool (shown S.Store from.old).now.trees → Holds before (shown T.Store into.old).now.trees
        → (after : SpoolContents) × Holds after trees
        × IsCopied (option_map (λ c. c.now) customer.entry) spool before after) }
{
    let first = first_numbers(alloc, into, customer)?;
    let count = copy_behind(alloc, from, into, customer, first)?;
    into.commit()?;
    Ok(count)
}
