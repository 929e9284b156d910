//! Whole files that can't be put back are set aside, and come back once they can.

use crate::lending::{Trial, Work, kill};
use crate::playing::{play, play_on};
use crate::spool_files::SpoolFiles;
use njh_spoolfile::{Origin, Store};
use njh_turns::{Depot, DepotFault};
use sqlite::Alter;
use std::alloc::Global;
use std::fmt::Write as _;
use std::rt::HostRuntime;
use std::test::Fail;

/// Both customers have files, of one block each. Then ACME has room for the first of its own alone,
/// while BOLT goes on.
const NO_ROOM: &str = r#"
a1: contact
a1: sign on as LYON block 1024
b1: contact
b1: sign on as LYON block 1024
a1: file LYON.1 of ANNA to PAUL@METZ, lines from 2
b1: file LYON.1 of BERT to PAUL@METZ, lines from 2
a1: file LYON.2 of ANNA to PAUL@METZ, lines from 2
a1: file LYON.3 of ANNA to PAUL@METZ, lines from 2
# kill
# one block for ACME
# ACME has LYON.1 TO METZ PAUL OUT 5 RECORDS READY
# BOLT has LYON.1 TO METZ PAUL OUT 5 RECORDS READY
b1: contact
b1: sign on as LYON block 1024
b1: file LYON.2 of BERT to PAUL@METZ, lines from 2
# ACME has LYON.1 TO METZ PAUL OUT 5 RECORDS READY
# BOLT has LYON.1 TO METZ PAUL OUT 5 RECORDS READY, LYON.2 TO METZ PAUL OUT 5 RECORDS READY
"#;

/// ACME has room again.
const ROOM: &str = "
# ACME has LYON.1 TO METZ PAUL OUT 5 RECORDS READY, LYON.2 TO METZ PAUL OUT 5 RECORDS READY, \
LYON.3 TO METZ PAUL OUT 5 RECORDS READY
# BOLT has LYON.1 TO METZ PAUL OUT 5 RECORDS READY, LYON.2 TO METZ PAUL OUT 5 RECORDS READY
";

/// The customers' texts of the whole files that a spool file has, in their order, each with its
/// key.
const ASIDE: &str = "ACME 0, BOLT 1, !ACME 2, !ACME 3, BOLT 4";

/// The same, once all are back.
const BACK: &str = "ACME 0, BOLT 1, ACME 2, ACME 3, BOLT 4";

/// The customers' texts of the whole files of a spool file, each with its key.
struct Rows;

impl Work for Rows {
    type Told = String;

    fn work<S: Alter>(&self, alloc: Global, store: &mut Store<S>) -> Result<String, Fail> {
        let files = store.files(alloc)?;
        let mut rows = String::new(alloc);
        for stored in &files {
            if !rows.is_empty() {
                rows.push_str(", ")?;
            }
            write!(rows, "{} {}", stored.file.customer, stored.file.key)?;
        }
        drop(files);
        Ok(rows)
    }
}

/// Checks that these are the rows of the spool file as it was left.
fn check_rows(files: &SpoolFiles<'_>, wanted: &str) -> Result<(), Fail> {
    let rows = files.work(&Rows)?;
    if rows.as_str() != wanted {
        return Err(Fail::new(format_args!("{rows} stand there, and not {wanted}")));
    }
    Ok(())
}

#[test]
fn files_without_room_are_set_aside(rt: HostRuntime) -> Result<(), Fail> {
    play(&rt, "aside", NO_ROOM)?;
    let files = SpoolFiles::left_by(&rt, "aside")?;
    check_rows(&files, ASIDE)?;
    play_on(&rt, "aside", ROOM)?;
    check_rows(&files, BACK)
}

/// What a keeper tells of an opening: whether a file ended it, and how many it names.
#[derive(Drop)]
struct Opening<'a>(&'a SpoolFiles<'a>);

impl Trial for Opening<'_> {
    type Told = (bool, usize);

    fn run<S: Origin + Drop>(&self, store: Store<S>) -> Result<(bool, usize), Fail> {
        let mut keeper = self.0.keeper(store);
        let ended = match self.0.opening(&mut keeper) {
            Ok(Ok(hub)) => {
                drop(hub);
                Ok(false)
            }
            Ok(Err(fault)) => Ok(fault == DepotFault::Refused),
            Err(fail) => Err(fail),
        };
        let count = keeper.refused().len();
        kill(keeper.into_store());
        match ended {
            Ok(is_ended) => Ok((is_ended, count)),
            Err(fail) => Err(fail),
        }
    }
}

#[test]
fn a_strict_keeper_opens_nothing_beside_them(rt: HostRuntime) -> Result<(), Fail> {
    play(&rt, "strict", NO_ROOM)?;
    let mut files = SpoolFiles::left_by(&rt, "strict")?;
    files.take_room()?;
    if files.try_on(&Opening(&files))? != (false, 2) {
        return Err("a keeper doesn't name the two files that it sets aside".into());
    }
    files.be_strict();
    if files.try_on(&Opening(&files))? == (true, 1) {
        Ok(())
    } else {
        Err("a strict keeper opens beside files that it can't put back".into())
    }
}
