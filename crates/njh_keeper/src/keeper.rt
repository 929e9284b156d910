//! The whole files of a hub's customers are kept in a spool file.

ghost use Rattle.std.specs.Prelude.{◌≡◌, ◌<◌, [], true, map, IsSome, OnOk};
ghost use Rattle.sqlite.specs.State.{HasCleanDisk, Survives};
ghost use Rattle.njh_spoolfile.specs.Origin.{StandsAsFound};
ghost use Rattle.njh_spoolfile.specs.Shelf.{shown};
ghost use Rattle.njh_spoolfile.specs.Steps.{Stays};
ghost use Rattle.njh_keeper.specs.Refusal.{refusal_of};

mod open_hub;
mod round;

use crate::aside::taken_up;
use crate::fault::RefusedFile;
use crate::laws::a_crash_leaves_what_was_committed;
use crate::names::{names_of, number_among};
use crate::own_files::OwnFiles;
use crate::writer::SpoolWriter;
use njh_ebcdic::Name;
use njh_hub::Hub;
use njh_spoolfile::{Origin, Store, StoredFile};
use njh_table::Tables;
use njh_turns::{Depot, DepotFault, KeepFault, Keeper};
use sqlite::Error;
use std::alloc::Global;
use std::fmt;
use std::marker::Model;
use std::rt::Clock;

/// Keeps the whole files of a hub's customers in a spool file: a depot for `serve`. It opens one
/// hub. After a failure each further call fails.
#[derive(Drop)]
pub struct SpoolKeeper<'a, R, S: Origin + Drop> {
    rt: &'a R,
    writer: SpoolWriter<S>,
    /// In the order of the tables.
    names: Vec<Name>,
    customers: Vec<OwnFiles>,
    /// Those that couldn't be put back when a hub was opened.
    refused: Vec<RefusedFile>,
    /// Whether one such file ends the opening.
    is_strict: bool,
    failures: u64,
    /// Why the first of them came, or why no hub was opened.
    cause: Option<Error>,
    /// From which customer on the next one is looked for of whom rows are dropped in a round.
    turn: usize,
    /// Whether no hub was opened yet.
    is_fresh: bool,
}

impl<'a, R, S: Origin + Drop> Model for SpoolKeeper<'a, R, S> {
    ghost use Rattle.std.specs.Prelude.{◌≡◌, ◌<◌, IsSome, map, true};
    ghost use Rattle.njh_spoolfile.specs.Origin.{StandsAsFound};
    ghost use Rattle.njh_keeper.specs.Refusal.{refusal_of};
    ghost use Rattle.njh_keeper.specs.Keeper.{Keeping, keeping_code};
    ghost use Rattle.njh_keeper.specs.code.Memory.{numbers_of, own_memory_of};

    ghost Value = { Keeping S };

    ghost coded = { keeping_code S.code };

    ghost view = { λ keeper. record {
      store = keeper.writer.store;
      failures = keeper.failures;
      names = keeper.names.items;
      is_changed = keeper.writer.is_changed;
      waiting = keeper.writer.waiting;
      numbers = numbers_of keeper.writer;
      customers = map own_memory_of keeper.customers.items;
      is_fresh = keeper.is_fresh;
      refused = map refusal_of keeper.refused.items;
      is_strict = keeper.is_strict;
    } };

    ghost invariant = { λ keeper. (keeper.is_fresh ≡ true → StandsAsFound S.Store S.found keeper.writer.store)
        × (0 < keeper.failures → IsSome keeper.cause) };
}

impl<'a, R: Clock, S: Origin + Drop> SpoolKeeper<'a, R, S> {
    /// Keeps files in a spool file that was just opened. Each row has the time by this clock. If it
    /// `is_strict`, a whole file that can't be put back ends the opening of a hub; else it is set
    /// aside, and its customer begins without it.
    pub fn new(rt: &'a R, alloc: Global, store: Store<S>, is_strict: bool) -> SpoolKeeper<'a, R, S>
        requires { StandsAsFound S.Store S.found store }
        ensures { (result.store ≡ store) × (result.failures ≡ 0) × (result.is_fresh ≡ true)
            × (result.refused ≡ []) × (result.is_strict ≡ is_strict) }
    {
        SpoolKeeper {
            rt,
            writer: SpoolWriter::new(alloc, store),
            names: Vec::new(alloc),
            customers: Vec::new(alloc),
            refused: Vec::new(alloc),
            is_strict,
            failures: 0,
            cause: None,
            turn: 0,
            is_fresh: true,
        }
    }
}

impl<'a, R: Clock, S: Origin + Drop> SpoolKeeper<'a, R, S> {
    /// The whole files that couldn't be put back when a hub was opened, in the order of arrival,
    /// each with why. They are set aside, or the first of them ended the opening.
    pub fn refused(&self) -> &[RefusedFile]
        ensures { map refusal_of result.now ≡ self.now.refused }
    {
        self.refused.as_slice()
    }

    /// Why keeping failed first, or why no hub was opened if the spool file failed then; none if
    /// neither was so.
    pub fn cause(&self) -> Option<Error>
        ensures { 0 < self.now.failures → IsSome result }
    {
        self.cause
    }

    /// How many whole files of the spool file are of customers that these tables don't have, those
    /// among them that were set aside. They stay there.
    pub fn strangers(&mut self, alloc: Global, tables: &Tables) -> Result<u32, Error>
        ensures same { self.new.failures ≡ self.old.failures }
        ensures stays { HasCleanDisk (shown S.Store self.new.store) → OnOk result (Stays (shown S.Store self.old.store)
            (shown S.Store self.new.store)) }
        ensures crash { Survives (shown S.Store self.old.store) (shown S.Store self.new.store) (λ _. ⊥) }
    {
        let names = names_of(alloc, tables)?;
        let files = match self.writer.store.files(alloc) {
            Ok(files) => files,
            Err(error) => {
                self.is_fresh = false;
                drop(names);
                return Err(error);
            }
        };
        let count = count_strangers(&names, &files);
        drop(names);
        drop(files);
        Ok(count)
    }

    /// The spool file. What isn't committed is dropped when it is closed.
    pub fn into_store(self) -> Store<S>
        ensures { result ≡ self.entry.store }
    {
        let SpoolKeeper {
            writer,
            names,
            customers,
            refused,
            ..
        } = self;
        drop(names);
        drop(customers);
        drop(refused);
        writer.into_store()
    }
}

impl<'a, R: Clock, S: Origin + Drop> Keeper for SpoolKeeper<'a, R, S> {
    ghost use Rattle.njh_keeper.specs.Keeper.{KnowsHub, MayLeaveOf};

    ghost says = { record {
      may_leave = MayLeaveOf S.Store S.found;
      knows = KnowsHub S.Store S.found;
      count = λ keeper. keeper.failures;
    } };

    fn failures(&self) -> u64 {
        self.failures
    }

    fn follow(&mut self, hub: &Hub, customer: u16) -> Result<(), KeepFault> {
        match self.follow_files(hub, customer) {
            Ok(()) => Ok(()),
            Err(error) => {
                self.fail(error);
                Err(KeepFault)
            }
        }
    }

    fn settle(&mut self) -> Result<(), KeepFault> {
        a_crash_leaves_what_was_committed::<S>();
        match self.sweep_in_turn() {
            Ok(()) => {}
            Err(error) => {
                self.fail(error);
                return Err(KeepFault);
            }
        }
        match self.settle_files() {
            Ok(()) => Ok(()),
            Err(error) => {
                self.fail(error);
                Err(KeepFault)
            }
        }
    }
}

impl<'a, R: Clock, S: Origin + Drop> Depot for SpoolKeeper<'a, R, S> {
    ghost use Rattle.njh_keeper.specs.Keeper.{AreSpared, IsOpenedFrom, IsSettledFrom};

    ghost opens = { λ before behind table parts. IsOpenedFrom S.Store before behind table parts
        × IsSettledFrom S.Store before behind table parts };

    ghost spares = { AreSpared S.Store S.found };

    fn open(&mut self, alloc: Global, tables: Tables) -> Result<Hub, DepotFault> {
        a_crash_leaves_what_was_committed::<S>();
        self.open_hub(alloc, tables)
    }

    fn came(&self, customer: u16, index: u32) -> Option<u64> {
        let own = self.customers.get(usize::from(customer))?;
        let seconds = own.came(index as usize)?;
        Some(u64::from(seconds))
    }

    fn tell<W: fmt::Write>(&self, number: usize, to: &mut W) -> Option<fmt::Result> {
        let refused = self.refused.get(number)?;
        Some(write!(to, "{refused}"))
    }
}

/// How many of these whole files are of customers without such a name.
fn count_strangers(names: &[Name], files: &[StoredFile]) -> u32 {
    let mut count = 0u32;
    for stored in files {
        if number_among(names, taken_up(stored.file.customer.as_str())).is_none() {
            count = count.saturating_add(1);
        }
    }
    count
}
