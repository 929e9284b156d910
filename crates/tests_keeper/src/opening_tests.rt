//! Spool files that are opened, or aren't.

use crate::lending::{Trial, Work, kill};
use crate::playing::play;
use crate::spool_files::SpoolFiles;
use njh_spoolfile::{Origin, Store};
use njh_turns::{Depot, DepotFault};
use sqlite::{Alter, Error, ErrorCode};
use std::alloc::Global;
use std::rt::HostRuntime;
use std::test::Fail;

/// A file is kept.
const ONE_FILE: &str = r#"
a1: contact
a1: sign on as LYON block 1024
a1: file LYON.1 of ANNA to PAUL@METZ, lines from 2
# ACME has LYON.1 TO METZ PAUL OUT 5 RECORDS READY
"#;

/// Whether a spool file failed since it is damaged.
fn is_damage(cause: Option<Error>) -> bool {
    match cause {
        Some(Error::SqliteFailure(ErrorCode::DatabaseCorrupt)) => true,
        _ => false,
    }
}

/// Adds the row of the first whole file once more, after it: two files' records have one number.
struct AddFirstAgain;

impl Work for AddFirstAgain {
    type Told = ();

    fn work<S: Alter>(&self, alloc: Global, store: &mut Store<S>) -> Result<(), Fail> {
        let files = store.files(alloc)?;
        match files.first() {
            Some(first) => store.add_file(first.id.saturating_add(1), &first.file)?,
            None => return Err("no file is kept".into()),
        }
        drop(files);
        Ok(store.commit()?)
    }
}

/// Whether a depot says that its device failed.
fn fails<D: Depot>(files: &SpoolFiles<'_>, depot: &mut D) -> Result<bool, Fail> {
    match files.opening(depot)? {
        Ok(hub) => {
            drop(hub);
            Ok(false)
        }
        Err(fault) => Ok(fault == DepotFault::Device),
    }
}

/// What came of two openings of a hub by one keeper.
#[derive(Clone, Copy)]
pub(crate) struct TwoOpenings {
    /// Whether the first fails.
    pub(crate) first: bool,
    /// Whether the second fails.
    pub(crate) second: bool,
    /// Why the spool file failed, if it did.
    pub(crate) cause: Option<Error>,
}

/// A keeper opens two hubs, one after the other.
#[derive(Drop)]
pub(crate) struct OpenTwice<'a>(pub(crate) &'a SpoolFiles<'a>);

impl Trial for OpenTwice<'_> {
    type Told = TwoOpenings;

    fn run<S: Origin + Drop>(&self, store: Store<S>) -> Result<TwoOpenings, Fail> {
        let mut keeper = self.0.keeper(store);
        let opened = match fails(self.0, &mut keeper) {
            Ok(first) => match fails(self.0, &mut keeper) {
                Ok(second) => Ok(TwoOpenings {
                    first,
                    second,
                    cause: keeper.cause(),
                }),
                Err(fail) => Err(fail),
            },
            Err(fail) => Err(fail),
        };
        kill(keeper.into_store());
        opened
    }
}

#[test]
fn a_keeper_opens_one_hub(rt: HostRuntime) -> Result<(), Fail> {
    play(&rt, "one_hub", ONE_FILE)?;
    let files = SpoolFiles::left_by(&rt, "one_hub")?;
    let opened = files.try_on(&OpenTwice(&files))?;
    if !opened.first && opened.second && opened.cause.is_none() {
        Ok(())
    } else {
        Err("a keeper opens a second hub, or none".into())
    }
}

#[test]
fn two_files_under_one_number_are_damage(rt: HostRuntime) -> Result<(), Fail> {
    play(&rt, "one_number", ONE_FILE)?;
    let files = SpoolFiles::left_by(&rt, "one_number")?;
    files.work(&AddFirstAgain)?;
    let opened = files.try_on(&OpenTwice(&files))?;
    if opened.first && opened.second && is_damage(opened.cause) {
        Ok(())
    } else {
        Err("a damaged spool file is opened".into())
    }
}

/// A second program opens a spool file that is open: whether it is refused.
#[derive(Drop)]
struct OpenBeside<'a>(&'a SpoolFiles<'a>);

impl Trial for OpenBeside<'_> {
    type Told = bool;

    fn run<S: Origin + Drop>(&self, store: Store<S>) -> Result<bool, Fail> {
        let is_refused = self.0.is_in_use();
        kill(store);
        is_refused
    }
}

#[test]
fn an_open_file_is_in_use(rt: HostRuntime) -> Result<(), Fail> {
    let files = SpoolFiles::of(&rt, "in_use")?;
    if files.try_on(&OpenBeside(&files))? {
        Ok(())
    } else {
        Err("a file that is open is opened again".into())
    }
}
