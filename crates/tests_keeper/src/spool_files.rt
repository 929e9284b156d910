//! The files of a test: a spool file with its log, and a copy of both as they are at some moment.

ghost use Rattle.std.specs.Prelude.{IfOk};
ghost use Rattle.njh_spoolfile.specs.Origin.{StandsAsFound};

use crate::lending::{Trial, Work, Worked, lend};
use crate::networks::{tables, with_little_room};
use njh_hub::Hub;
use njh_keeper::{OpenedHub, SpoolKeeper, open_from};
use njh_spoolfile::{OpenFault, Origin, Store};
use njh_table::Tables;
use njh_turns::{Depot, DepotFault};
use sqlite::{Alter, Error, ErrorCode, Unknown};
use std::alloc::Global;
use std::fs;
use std::rt::HostRuntime;
use std::test::Fail;

/// What a spool file is refused for that is open already.
const IN_USE: OpenFault = OpenFault::Database(Error::SqliteFailure(ErrorCode::DatabaseBusy));

/// Their names, and the machine that they are on.
#[derive(Drop)]
pub struct SpoolFiles<'a> {
    rt: &'a HostRuntime,
    kept: String,
    kept_log: String,
    left: String,
    left_log: String,
    tables: String,
    is_strict: bool,
}

impl<'a> SpoolFiles<'a> {
    /// Those of the test of this name. None of them is there.
    pub(crate) fn of(rt: &'a HostRuntime, name: &str) -> Result<SpoolFiles<'a>, Fail> {
        let files = SpoolFiles::left_by(rt, name)?;
        let _ = fs::remove_file(rt, files.kept.as_str());
        let _ = fs::remove_file(rt, files.kept_log.as_str());
        Ok(files)
    }

    /// Those of the test of this name, as it left them.
    pub(crate) fn left_by(rt: &'a HostRuntime, name: &str) -> Result<SpoolFiles<'a>, Fail> {
        let alloc = rt.alloc();
        Ok(SpoolFiles {
            rt,
            kept: format!(in alloc; "{name}.db")?,
            kept_log: format!(in alloc; "{name}.db-wal")?,
            left: format!(in alloc; "{name}_left.db")?,
            left_log: format!(in alloc; "{name}_left.db-wal")?,
            tables: tables(alloc, true)?,
            is_strict: false,
        })
    }

    /// From the next hub on there is a route to NICE, or there is none.
    pub(crate) fn give_routes(&mut self, has_nice: bool) -> Result<(), Fail> {
        self.tables = tables(self.rt.alloc(), has_nice)?;
        Ok(())
    }

    /// From the next hub on ACME has room for one block.
    pub(crate) fn take_room(&mut self) -> Result<(), Fail> {
        self.tables = with_little_room(self.rt.alloc())?;
        Ok(())
    }

    /// From the next hub on a whole file that can't be put back ends the opening.
    pub(crate) fn be_strict(&mut self) {
        self.is_strict = true;
    }

    /// Where memory comes from.
    pub(crate) fn allocator(&self) -> Global {
        self.rt.alloc()
    }

    /// Tries something with the spool file, which is opened or made.
    pub(crate) fn try_on<T: Trial>(&self, trial: &T) -> Result<T::Told, Fail> {
        lend(self.rt, self.kept.as_str(), Unknown, trial)?
    }

    /// Does some work on the spool file, which is opened or made.
    pub(crate) fn work<W: Work>(&self, work: &W) -> Result<W::Told, Fail> {
        let alloc = self.rt.alloc();
        self.try_on(&Worked { alloc, work })
    }

    /// Whether the spool file is refused as one that is open already.
    pub(crate) fn is_in_use(&self) -> Result<bool, Fail> {
        let alloc = self.rt.alloc();
        let work = Worked {
            alloc,
            work: &Nothing,
        };
        match lend(self.rt, self.kept.as_str(), Unknown, &work) {
            Ok(told) => {
                told?;
                Ok(false)
            }
            Err(fault) => Ok(fault == IN_USE),
        }
    }

    /// A keeper of a spool file that is open.
    pub(crate) fn keeper<S: Origin + Drop>(
        &self,
        store: Store<S>,
    ) -> SpoolKeeper<'a, HostRuntime, S>
        requires { StandsAsFound S.Store S.found store }
    {
        SpoolKeeper::new(self.rt, self.rt.alloc(), store, self.is_strict)
    }

    /// A hub of the tables that a depot opens.
    pub(crate) fn hub_of<D: Depot>(&self, keeper: &mut D) -> Result<Hub, Fail>
        ensures { IfOk result (λ hub. D.says.knows keeper.new hub) }
    {
        Ok(self.opening(keeper)??)
    }

    /// What a depot answers that is to open a hub of the tables.
    pub(crate) fn opening<D: Depot>(&self, depot: &mut D) -> Result<Result<Hub, DepotFault>, Fail>
        ensures { IfOk result (λ opened. IfOk opened (λ hub. D.says.knows depot.new hub)) }
    {
        let alloc = self.rt.alloc();
        let tables = Tables::read(alloc, self.tables.as_str())?;
        Ok(depot.open(alloc, tables))
    }

    /// The hub that is opened from the spool file where the program is killed now.
    pub(crate) fn hub_left(&self) -> Result<Hub, Fail> {
        let _ = fs::remove_file(self.rt, self.left.as_str());
        let _ = fs::remove_file(self.rt, self.left_log.as_str());
        fs::copy(self.rt, self.kept.as_str(), self.left.as_str())?;
        if fs::exists(self.rt, self.kept_log.as_str())? {
            fs::copy(self.rt, self.kept_log.as_str(), self.left_log.as_str())?;
        }
        let alloc = self.rt.alloc();
        let work = &HubOf(self.tables.as_str());
        lend(
            self.rt,
            self.left.as_str(),
            Unknown,
            &Worked { alloc, work },
        )?
    }
}

/// The hub of these tables is opened from a spool file.
#[derive(Drop)]
struct HubOf<'a>(&'a str);

impl Work for HubOf<'_> {
    type Told = Hub;

    fn work<S: Alter>(&self, alloc: Global, store: &mut Store<S>) -> Result<Hub, Fail> {
        let tables = Tables::read(alloc, self.0)?;
        let OpenedHub { hub, refused } = open_from(alloc, tables, store, false)?;
        drop(refused);
        Ok(hub)
    }
}

/// Nothing is done to a spool file.
struct Nothing;

impl Work for Nothing {
    type Told = ();

    fn work<S: Alter>(&self, _alloc: Global, _store: &mut Store<S>) -> Result<(), Fail> {
        Ok(())
    }
}
