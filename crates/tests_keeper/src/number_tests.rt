//! Numbers of rows, and numbers that no file's records stand under, as a spool file is opened.

use crate::lending::Work;
use crate::opening_tests::OpenTwice;
use crate::playing::{play, play_on};
use crate::spool_files::SpoolFiles;
use njh_spoolfile::{GREATEST_ID, RecordRow, Store};
use sqlite::Alter;
use std::alloc::Global;
use std::rt::HostRuntime;
use std::test::Fail;

/// A file is kept.
const ONE_FILE: &str = r#"
a1: contact
a1: sign on as LYON block 1024
a1: file LYON.1 of ANNA to PAUL@METZ, lines from 2
# ACME has LYON.1 TO METZ PAUL OUT 5 RECORDS READY
"#;

/// Another comes after it, and the program is killed.
const ANOTHER: &str = r#"
a1: contact
a1: sign on as LYON block 1024
a1: file LYON.2 of ANNA to PAUL@METZ, lines from 2
# ACME has LYON.1 TO METZ PAUL OUT 5 RECORDS READY, LYON.2 TO METZ PAUL OUT 5 RECORDS READY
# kill
a1: contact
a1: sign on as LYON block 1024
# ACME has LYON.1 TO METZ PAUL OUT 5 RECORDS READY, LYON.2 TO METZ PAUL OUT 5 RECORDS READY
"#;

/// Adds records under a number of no file.
fn add_records<S: Alter>(store: &mut Store<S>, key: u32) -> Result<(), Fail> {
    for place in 0..3 {
        let kept = RecordRow {
            key,
            place,
            srcb: 0x80,
            bytes: b"left".as_slice(),
        };
        store.add_record(&kept)?;
    }
    Ok(store.commit()?)
}

/// Adds records under some numbers of no file.
struct AddRecords;

impl Work for AddRecords {
    type Told = ();

    fn work<S: Alter>(&self, _alloc: Global, store: &mut Store<S>) -> Result<(), Fail> {
        for key in 5..9 {
            add_records(store, key)?;
        }
        Ok(())
    }
}

/// Drops the records that stand under them, and says how many; all stay, as nothing is committed.
struct CountRecords;

impl Work for CountRecords {
    type Told = usize;

    fn work<S: Alter>(&self, _alloc: Global, store: &mut Store<S>) -> Result<usize, Fail> {
        let mut count: usize = 0;
        for key in 5..9 {
            count = count.saturating_add(store.drop_records(key, 0, 1 << 23)?);
        }
        Ok(count)
    }
}

#[test]
fn records_of_no_file_are_dropped(rt: HostRuntime) -> Result<(), Fail> {
    play(&rt, "records_of_no_file", ONE_FILE)?;
    let files = SpoolFiles::left_by(&rt, "records_of_no_file")?;
    files.work(&AddRecords)?;
    if files.work(&CountRecords)? != 12 {
        return Err("records that are dropped are not counted".into());
    }
    let opened = files.try_on(&OpenTwice(&files))?;
    if opened.first || !opened.second {
        return Err("a spool file with records of no file is not opened".into());
    }
    match files.work(&CountRecords)? {
        0 => Ok(()),
        _ => Err("records of no file are not dropped".into()),
    }
}

/// In how many rows the records of the first whole file stand.
struct RowsOfFirst;

impl Work for RowsOfFirst {
    type Told = usize;

    fn work<S: Alter>(&self, alloc: Global, store: &mut Store<S>) -> Result<usize, Fail> {
        let files = store.files(alloc)?;
        let rows = match files.first() {
            Some(first) => store.drop_records(first.file.key, 0, 1 << 23)?,
            None => 0,
        };
        drop(files);
        Ok(rows)
    }
}

#[test]
fn records_share_a_row(rt: HostRuntime) -> Result<(), Fail> {
    play(&rt, "rows_of_records", ONE_FILE)?;
    let files = SpoolFiles::left_by(&rt, "rows_of_records")?;
    // a job header, a data set header, and two lines with the trailer
    match files.work(&RowsOfFirst)? {
        1 => Ok(()),
        _ => Err("five records don't stand in one row".into()),
    }
}

/// Gives the row of the first whole file this number.
struct MoveFirst(u64);

impl Work for MoveFirst {
    type Told = ();

    fn work<S: Alter>(&self, alloc: Global, store: &mut Store<S>) -> Result<(), Fail> {
        let files = store.files(alloc)?;
        match files.first() {
            Some(first) => {
                store.drop_file(first.id)?;
                store.add_file(self.0, &first.file)?;
            }
            None => return Err("no file is kept".into()),
        }
        drop(files);
        Ok(store.commit()?)
    }
}

/// Adds a row of this number, with what the first whole file's has: whether it is refused.
struct AddFirstAt(u64);

impl Work for AddFirstAt {
    type Told = bool;

    fn work<S: Alter>(&self, alloc: Global, store: &mut Store<S>) -> Result<bool, Fail> {
        let files = store.files(alloc)?;
        let refused = match files.first() {
            Some(first) => store.add_file(self.0, &first.file).is_err(),
            None => false,
        };
        drop(files);
        Ok(refused)
    }
}

#[test]
fn rows_have_numbers_of_63_bits(rt: HostRuntime) -> Result<(), Fail> {
    play(&rt, "numbers_of_63_bits", ONE_FILE)?;
    let files = SpoolFiles::left_by(&rt, "numbers_of_63_bits")?;
    files.work(&MoveFirst(GREATEST_ID - 2))?;
    drop(files);
    play_on(&rt, "numbers_of_63_bits", ANOTHER)
}

#[test]
fn the_greatest_number_of_a_row_is_damage(rt: HostRuntime) -> Result<(), Fail> {
    play(&rt, "greatest_number", ONE_FILE)?;
    let files = SpoolFiles::left_by(&rt, "greatest_number")?;
    if !files.work(&AddFirstAt(GREATEST_ID + 1))? {
        return Err("a row has a number of 64 bits".into());
    }
    files.work(&MoveFirst(GREATEST_ID))?;
    let opened = files.try_on(&OpenTwice(&files))?;
    if opened.first && opened.second {
        Ok(())
    } else {
        Err("a spool file that has no number left is opened".into())
    }
}
