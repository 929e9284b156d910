//! Several records stand in a row of a spool file, and are read one after the other.

use crate::lending::Work;
use crate::spool_files::SpoolFiles;
use njh_spoolfile::{Pack, RecordRow, SEVERAL, Store, StoredRecord};
use sqlite::Alter;
use std::alloc::Global;
use std::rt::HostRuntime;
use std::test::Fail;

/// The number that the records stand under.
const KEY: u32 = 5;

/// The most bytes that a record has.
const LONGEST: [u8; 256] = [0x40; 256];

/// Adds a row of records from this place on.
fn add_row<S: Alter>(
    store: &mut Store<S>,
    place: u16,
    srcb: u16,
    bytes: &[u8],
) -> Result<(), Fail> {
    let kept = RecordRow {
        key: KEY,
        place: u32::from(place),
        srcb,
        bytes,
    };
    Ok(store.add_record(&kept)?)
}

/// Three records for one row: a short header, one without a byte, and the longest.
fn three() -> Pack {
    let mut pack = Pack::new();
    pack.push(0xE0, b"one".as_slice());
    pack.push(0x90, b"".as_slice());
    pack.push(0xD0, &LONGEST);
    pack
}

/// A header, three records in a row, and one alone.
fn add_rows<S: Alter>(store: &mut Store<S>) -> Result<(), Fail> {
    let pack = three();
    add_row(store, 0, 0xC0, b"head".as_slice())?;
    add_row(store, 1, SEVERAL, pack.bytes())?;
    add_row(store, 4, 0x80, b"last".as_slice())?;
    Ok(store.commit()?)
}

/// A row of three records of which the last byte is gone.
fn add_cut_row<S: Alter>(store: &mut Store<S>) -> Result<(), Fail> {
    let pack = three();
    match pack.bytes().split_last() {
        Some((_, cut)) => add_row(store, 0, SEVERAL, cut)?,
        None => return Err("a pack of three records is empty".into()),
    }
    Ok(store.commit()?)
}

/// Whether this is the record of this place, with this SRCB and these bytes.
fn is_record(stored: &StoredRecord, place: u32, srcb: u32, bytes: &[u8]) -> bool {
    stored.place == place && stored.srcb == srcb && stored.bytes.as_slice() == bytes
}

/// Whether the records are those of `add_rows`.
fn are_rows(records: &[StoredRecord]) -> bool {
    match records {
        [head, one, empty, longest, last] => {
            is_record(head, 0, 0xC0, b"head".as_slice())
                && is_record(one, 1, 0xE0, b"one".as_slice())
                && is_record(empty, 2, 0x90, b"".as_slice())
                && is_record(longest, 3, 0xD0, &LONGEST)
                && is_record(last, 4, 0x80, b"last".as_slice())
        }
        _ => false,
    }
}

/// Whether the records are those of `add_cut_row`: two, and what is left of the third as it stands.
fn are_cut(records: &[StoredRecord]) -> bool {
    match records {
        [one, empty, rest] => {
            is_record(one, 0, 0xE0, b"one".as_slice())
                && is_record(empty, 1, 0x90, b"".as_slice())
                && rest.place == 2
                && rest.srcb == u32::from(SEVERAL)
                && rest.bytes.len() == 258
        }
        _ => false,
    }
}

/// The records that stand there.
fn records_of<S: Alter>(alloc: Global, store: &mut Store<S>) -> Result<Vec<StoredRecord>, Fail> {
    Ok(store.records(alloc, KEY, 0, 1 << 23)?)
}

/// Whether the rows of `add_rows` are read as they were written.
struct ReadRows;

impl Work for ReadRows {
    type Told = bool;

    fn work<S: Alter>(&self, alloc: Global, store: &mut Store<S>) -> Result<bool, Fail> {
        add_rows(store)?;
        let records = records_of(alloc, store)?;
        Ok(are_rows(records.as_slice()))
    }
}

/// Whether a row that was cut is read as far as it goes.
struct ReadCutRow;

impl Work for ReadCutRow {
    type Told = bool;

    fn work<S: Alter>(&self, alloc: Global, store: &mut Store<S>) -> Result<bool, Fail> {
        add_cut_row(store)?;
        let records = records_of(alloc, store)?;
        Ok(are_cut(records.as_slice()))
    }
}

/// Sets the mark: whether it was there.
struct SetMark;

impl Work for SetMark {
    type Told = bool;

    fn work<S: Alter>(&self, _alloc: Global, store: &mut Store<S>) -> Result<bool, Fail> {
        Ok(store.set_mark()?)
    }
}

/// Takes the mark away, and sets it again: whether it was there then.
struct RenewMark;

impl Work for RenewMark {
    type Told = bool;

    fn work<S: Alter>(&self, _alloc: Global, store: &mut Store<S>) -> Result<bool, Fail> {
        store.clear_mark()?;
        Ok(store.set_mark()?)
    }
}

#[test]
fn the_mark_is_set_once_and_taken_away(rt: HostRuntime) -> Result<(), Fail> {
    let files = SpoolFiles::of(&rt, "mark")?;
    let is_there = files.work(&SetMark)?;
    let stays = files.work(&SetMark)?;
    if is_there || !stays || files.work(&RenewMark)? {
        return Err("the mark of a spool file is not what was set".into());
    }
    Ok(())
}

#[test]
fn records_of_a_row_are_read_in_order(rt: HostRuntime) -> Result<(), Fail> {
    let files = SpoolFiles::of(&rt, "records_of_a_row")?;
    match files.work(&ReadRows)? {
        true => Ok(()),
        false => Err("the records of a row are not read as they were written".into()),
    }
}

#[test]
fn a_row_that_was_cut_has_no_such_record(rt: HostRuntime) -> Result<(), Fail> {
    let files = SpoolFiles::of(&rt, "cut_row")?;
    match files.work(&ReadCutRow)? {
        true => Ok(()),
        false => Err("a row that was cut is not read as far as it goes".into()),
    }
}
