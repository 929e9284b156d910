//! What a spool has, read back.

ghost use Rattle.std.specs.Prelude.{◌≡◌, ◌≤◌, ◌^◌, ℕ, List, pos, Bool};
ghost use Rattle.std.specs.Prelude.{map, string_bytes, IfOk, OnOk};
ghost use Rattle.sqlite_value.specs.declared.value.Value.TheVariants.{Int, Text, Blob};
ghost use Rattle.sqlite.specs.Order.{column};
ghost use Rattle.sqlite.specs.State.{HasCleanDisk, Survives};
ghost use Rattle.sqlite.specs.Held.{state};
ghost use Rattle.njh_spoolfile.specs.Kept.{SpoolContents, Holds, File, Record, file_shown, record_shown, flag};
ghost use Rattle.njh_spoolfile.specs.Kept.{entry_of};
ghost use Rattle.njh_spoolfile.specs.Kept.{as_stands, contents_of, contents_in, records_between};
ghost use Rattle.njh_spoolfile.specs.Steps.{IsReady, Stays};

use crate::kept::{FileRow, StoredFile, StoredRecord, values_of_places};
use crate::packing::unpack;
use sqlite::types::ValueRef;
use sqlite::{Alter, Connection, Error, Row};
use std::alloc::Global;

fn text_at(row: &Row, at: usize) -> Result<String, Error>
    ensures { IfOk result (λ text. (bytes : List ℕ) → column row.now at ≡ Text bytes → string_bytes text ≡ bytes) }
{
    row.get(at)
}

fn number_at(row: &Row, at: usize) -> Result<u32, Error>
    ensures { IfOk result (λ number. (n : ℕ) → column row.now at ≡ Int (pos n) → number ≡ n) }
{
    row.get(at)
}

fn id_at(row: &Row, at: usize) -> Result<u64, Error>
    ensures { IfOk result (λ id. (n : ℕ) → column row.now at ≡ Int (pos n) → id ≡ n) }
{
    row.get(at)
}

fn flag_at(row: &Row, at: usize) -> Result<bool, Error>
    ensures { IfOk result (λ is_set. (b : Bool) → column row.now at ≡ Int (flag b) → is_set ≡ b) }
{
    row.get(at)
}

fn bytes_at(row: &Row, at: usize) -> Result<Vec<u8>, Error>
    ensures { IfOk result (λ bytes. (wanted : List ℕ) → column row.now at ≡ Blob wanted → bytes.items ≡ wanted) }
{
    row.get(at)
}

fn record_in(row: &Row) -> Result<StoredRecord, Error>
    ensures { IfOk result (λ stored. (e : ℕ × Record) → row.now ≡ record_shown e → contents_of stored ≡ as_stands e) }
{
    let place = number_at(row, 0)?;
    let srcb = number_at(row, 1)?;
    let bytes = bytes_at(row, 2)?;
    Ok(StoredRecord { place, srcb, bytes })
}

fn file_in(row: &Row) -> Result<StoredFile, Error>
    ensures { IfOk result (λ stored. (e : ℕ × File) → row.now ≡ file_shown e → entry_of stored ≡ e) }
{
    let id = id_at(row, 0)?;
    let key = number_at(row, 2)?;
    let number = number_at(row, 5)?;
    let held = flag_at(row, 10)?;
    let records = number_at(row, 11)?;
    let blocks = number_at(row, 12)?;
    let came = number_at(row, 13)?;
    let customer = text_at(row, 1)?;
    let kind = text_at(row, 3)?;
    let job = text_at(row, 4)?;
    let owner_node = text_at(row, 6)?;
    let owner_user = text_at(row, 7)?;
    let to_node = text_at(row, 8)?;
    let to_user = text_at(row, 9)?;
    let file = FileRow {
        customer,
        key,
        kind,
        job,
        number,
        owner_node,
        owner_user,
        to_node,
        to_user,
        held,
        records,
        blocks,
        came,
    };
    Ok(StoredFile { id, file })
}

fn files_in(alloc: Global, rows: &[Row]) -> Result<Vec<StoredFile>, Error>
    ensures { IfOk result (λ stored. (files : List (ℕ × File)) → rows.now ≡ map file_shown files
        → map entry_of stored.items ≡ files) }
{
    let mut stored = Vec::new(alloc);
    for row in rows {
        stored.push(file_in(row)?)?;
    }
    Ok(stored)
}

/// The rows as they stand.
fn rows_in(alloc: Global, rows: &[Row]) -> Result<Vec<StoredRecord>, Error>
    ensures { IfOk result (λ stored. (records : List (ℕ × Record)) → rows.now ≡ map record_shown records
        → map contents_of stored.items ≡ map as_stands records) }
{
    let mut stored = Vec::new(alloc);
    for row in rows {
        stored.push(record_in(row)?)?;
    }
    Ok(stored)
}

/// The records of the rows.
fn records_in(alloc: Global, rows: &[Row]) -> Result<Vec<StoredRecord>, Error>
    ensures { IfOk result (λ stored. (records : List (ℕ × Record)) → rows.now ≡ map record_shown records
        → map contents_of stored.items ≡ contents_in records) }
{
    let mut stored = Vec::new(alloc);
    for row in rows {
        unpack(alloc, record_in(row)?, &mut stored)?;
    }
    Ok(stored)
}

fn rows_of_files<S: Alter>(conn: &mut Connection<S>) -> Result<Vec<Row>, Error>
    requires ready { IsReady (state S.Store conn.old) }
    ensures rows { HasCleanDisk (state S.Store conn.new) → IfOk result (λ rows. (spool : SpoolContents)
        → Holds spool (state S.Store conn.old).now.trees → rows.items ≡ map file_shown spool.files) }
    ensures same { HasCleanDisk (state S.Store conn.new) → OnOk result (Stays (state S.Store conn.old)
        (state S.Store conn.new)) }
    ensures crash { Survives (state S.Store conn.old) (state S.Store conn.new) (λ _. ⊥) }
{
    conn.query_all(
        "SELECT id, customer, key, kind, job, number, owner_node, owner_user, to_node, to_user, \
         held, records, blocks, came FROM files ORDER BY id",
        &[],
    )
}

fn rows_of_records<S: Alter>(
    conn: &mut Connection<S>,
    key: u32,
    first: u32,
    end: u32,
) -> Result<Vec<Row>, Error>
    requires ready { IsReady (state S.Store conn.old) }
    requires places { (first ≤ 2 ^ 23) × (end ≤ 2 ^ 23) }
    ensures rows { HasCleanDisk (state S.Store conn.new) → IfOk result (λ rows. (spool : SpoolContents)
        → Holds spool (state S.Store conn.old).now.trees → rows.items
        ≡ map record_shown (records_between key first end spool)) }
    ensures same { HasCleanDisk (state S.Store conn.new) → OnOk result (Stays (state S.Store conn.old)
        (state S.Store conn.new)) }
    ensures crash { Survives (state S.Store conn.old) (state S.Store conn.new) (λ _. ⊥) }
{
    let values = values_of_places(key, first, end);
    conn.query_all(
        "SELECT place, srcb, bytes FROM records WHERE id >= ?1 AND id < ?2 ORDER BY id",
        &values,
    )
}

/// All whole files, in the order of arrival.
pub fn files<S: Alter>(alloc: Global, conn: &mut Connection<S>) -> Result<Vec<StoredFile>, Error>
    requires ready { IsReady (state S.Store conn.old) }
    ensures files { HasCleanDisk (state S.Store conn.new) → IfOk result (λ stored. (spool : SpoolContents)
        → Holds spool (state S.Store conn.old).now.trees → map entry_of stored.items ≡ spool.files) }
    ensures same { HasCleanDisk (state S.Store conn.new) → OnOk result (Stays (state S.Store conn.old)
        (state S.Store conn.new)) }
    ensures crash { Survives (state S.Store conn.old) (state S.Store conn.new) (λ _. ⊥) }
{
    let rows = rows_of_files(conn)?;
    files_in(alloc, rows.as_slice())
}

/// The records of the file of this key in rows at places from `first` on and before `end`, in their
/// order.
pub fn records<S: Alter>(
    alloc: Global,
    conn: &mut Connection<S>,
    key: u32,
    first: u32,
    end: u32,
) -> Result<Vec<StoredRecord>, Error>
    requires ready { IsReady (state S.Store conn.old) }
    requires places { (first ≤ 2 ^ 23) × (end ≤ 2 ^ 23) }
    ensures records { HasCleanDisk (state S.Store conn.new) → IfOk result (λ stored. (spool : SpoolContents)
        → Holds spool (state S.Store conn.old).now.trees → map contents_of stored.items
        ≡ contents_in (records_between key first end spool)) }
    ensures same { HasCleanDisk (state S.Store conn.new) → OnOk result (Stays (state S.Store conn.old)
        (state S.Store conn.new)) }
    ensures crash { Survives (state S.Store conn.old) (state S.Store conn.new) (λ _. ⊥) }
{
    let rows = rows_of_records(conn, key, first, end)?;
    records_in(alloc, rows.as_slice())
}

/// Those rows as they stand.
pub fn rows<S: Alter>(
    alloc: Global,
    conn: &mut Connection<S>,
    key: u32,
    first: u32,
    end: u32,
) -> Result<Vec<StoredRecord>, Error>
    requires ready { IsReady (state S.Store conn.old) }
    requires places { (first ≤ 2 ^ 23) × (end ≤ 2 ^ 23) }
    ensures rows { HasCleanDisk (state S.Store conn.new) → IfOk result (λ stored. (spool : SpoolContents)
        → Holds spool (state S.Store conn.old).now.trees → map contents_of stored.items
        ≡ map as_stands (records_between key first end spool)) }
    ensures same { HasCleanDisk (state S.Store conn.new) → OnOk result (Stays (state S.Store conn.old)
        (state S.Store conn.new)) }
    ensures crash { Survives (state S.Store conn.old) (state S.Store conn.new) (λ _. ⊥) }
{
    let rows = rows_of_records(conn, key, first, end)?;
    rows_in(alloc, rows.as_slice())
}
