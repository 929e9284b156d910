//! A hub is opened from the spool file, and what it has is remembered.

ghost use Rattle.std.specs.Prelude.{◌≡◌, ◌≢◌, [], ◌∷◌, false, true, length, IfOk, IfErr, OnOk};
ghost use Rattle.std.specs.List.{AllByRecursion};
ghost use Rattle.sqlite.specs.State.{HasCleanDisk, Survives};
ghost use Rattle.njh_customer.specs.Growing.{HasShortRests};
ghost use Rattle.njh_turns.specs.declared.depot.DepotFault.TheVariants.{Refused};
ghost use Rattle.njh_spoolfile.specs.Kept.{SpoolContents, Holds};
ghost use Rattle.njh_spoolfile.specs.Origin.{StandsAsFound};
ghost use Rattle.njh_spoolfile.specs.Shelf.{shown};
ghost use Rattle.njh_spoolfile.specs.CommitState.{CommitState, Stands};
ghost use Rattle.njh_keeper.specs.SetAside.{IsFirstRefused};
ghost use Rattle.njh_keeper.specs.Keeper.{IsCommitted, IsOpenedFrom, IsSettledFrom, KnowsHub, KnowsNow, MayOpenTo};
ghost use Rattle.njh_keeper.specs.code.Opening.{AllAreFound, AllAreRead, MayBegin};
ghost use Rattle.njh_keeper.specs.code.Refusing.{Notes};
ghost use Rattle.njh_table.specs.Accepted.{AreDistinct};

use crate::beginning::begin;
use crate::fault::{OpeningFault, RefusedFile, depot_fault, first_cause};
use crate::keeper::SpoolKeeper;
use crate::names::names_of;
use crate::opening::{OpenedHub, open_from};
use crate::sound::see_sound;
use njh_ebcdic::Name;
use njh_hub::Hub;
use njh_spoolfile::Origin;
use njh_table::Tables;
use njh_turns::DepotFault;
use sqlite::Error;
use std::alloc::{AllocError, Global};
use std::rt::Clock;

impl<'a, R: Clock, S: Origin + Drop> SpoolKeeper<'a, R, S> {
    /// Notes why the spool file failed as a hub was opened, and answers what is told of it.
    fn fail_opening(&mut self, error: Error) -> DepotFault
        ensures told { result ≢ Refused }
        ensures same { self.new ≡ self.old }
    {
        self.cause = first_cause(self.cause, error);
        depot_fault(error)
    }

    /// Notes why no hub could be opened.
    fn refuse(&mut self, fault: OpeningFault) -> DepotFault
        ensures noted { Notes fault result self.new.refused }
        ensures others { self.new ≡ record self.old { refused = self.new.refused } }
    {
        match fault {
            OpeningFault::Memory => DepotFault::Memory,
            OpeningFault::Store(error) => self.fail_opening(error),
            OpeningFault::File(file) => {
                match alone(self.writer.alloc, file) {
                    Ok(refused) => {
                        self.refused = refused;
                        DepotFault::Refused
                    }
                    Err(_) => DepotFault::Memory,
                }
            }
        }
    }

    /// Remembers what is kept of the files of a hub that was opened from the spool file, for
    /// customers of its names. From then on the spool file has them as the hub has.
    fn remember(&mut self, hub: &Hub) -> Result<(), Error>
        ensures same { (self.new.failures ≡ self.old.failures) × (self.new.names ≡ self.old.names)
            × (self.new.is_fresh ≡ false) × (self.new.refused ≡ self.old.refused) }
        ensures settled { OnOk result ((self.new.is_changed ≡ false) × (self.new.waiting ≡ 0)) }
        ensures kept { HasCleanDisk (shown S.Store self.new.store) → OnOk result ((s : CommitState)
            → Stands s (shown S.Store self.old.store) → AreDistinct self.old.names
            → AllAreFound self.old.names hub.now → AllAreRead self.old.names hub.now s.now
            → length self.old.names ≡ length hub.now → IsCommitted S.Store self.new hub.now) }
        ensures known { HasCleanDisk (shown S.Store self.new.store) → OnOk result ((s : CommitState)
            → Stands s (shown S.Store self.old.store) → AreDistinct self.old.names
            → AllAreFound self.old.names hub.now → AllAreRead self.old.names hub.now s.now
            → length self.old.names ≡ length hub.now → AllByRecursion HasShortRests hub.now
            → KnowsNow S.Store self.new hub.now) }
        ensures crash { Survives (shown S.Store self.old.store) (shown S.Store self.new.store)
            (MayBegin self.old.names hub.now (shown S.Store self.old.store)) }
    {
        self.is_fresh = false;
        see_sound(hub, self.names.len())?;
        let customers = begin(&mut self.writer, hub, &self.names)?;
        self.customers = customers;
        Ok(())
    }

    /// Opens a hub of these tables from the spool file, and remembers what it has, and what is set
    /// aside. Once it did so, or failed, it opens no other.
    pub(super) fn open_hub(&mut self, alloc: Global, tables: Tables) -> Result<Hub, DepotFault>
        ensures opened { IfOk result (λ hub. IsOpenedFrom S.Store self.old self.new tables hub) }
        ensures settled { IfOk result (λ hub. IsSettledFrom S.Store self.old self.new tables hub) }
        ensures known { IfOk result (λ hub. KnowsHub S.Store S.found self.new hub) }
        ensures stood { OnOk result (StandsAsFound S.Store S.found self.old.store) }
        ensures clean { HasCleanDisk (shown S.Store self.new.store)
            → OnOk result (HasCleanDisk (shown S.Store self.old.store)) }
        ensures refused { HasCleanDisk (shown S.Store self.new.store) → IfErr result (λ fault. fault ≡ Refused
            → (spool : SpoolContents) → Holds spool (shown S.Store self.old.store).now.trees
            → IsFirstRefused tables spool self.new.refused) }
        ensures spared { IfErr result (λ fault. fault ≡ Refused → (self.old.is_strict ≡ true)
            × Survives (shown S.Store self.old.store) (shown S.Store self.new.store) (λ _. ⊥)) }
        ensures crash { Survives (shown S.Store self.old.store) (shown S.Store self.new.store)
            (MayOpenTo S.found (shown S.Store self.old.store)) }
    {
        if !self.is_fresh {
            drop(tables);
            return Err(DepotFault::Device);
        }
        self.is_fresh = false;
        let names = match names_of(alloc, &tables) {
            Ok(names) => names,
            Err(_) => {
                drop(tables);
                return Err(DepotFault::Memory);
            }
        };
        let hub = match open_from(alloc, tables, &mut self.writer.store, self.is_strict) {
            Ok(opened) => {
                let OpenedHub { hub, refused } = opened;
                self.refused = refused;
                hub
            }
            Err(fault) => {
                drop(names);
                return Err(self.refuse(fault));
            }
        };
        self.remember_hub(hub, names)
    }

    /// Gives the hub back after it is remembered.
    fn remember_hub(&mut self, hub: Hub, names: Vec<Name>) -> Result<Hub, DepotFault>
        ensures hub { IfOk result (λ remembered. remembered ≡ hub) }
        ensures names { OnOk result (self.new.names ≡ names.items) }
        ensures refused { self.new.refused ≡ self.old.refused }
        ensures told { IfErr result (λ fault. fault ≢ Refused) }
        ensures kept { HasCleanDisk (shown S.Store self.new.store) → OnOk result ((s : CommitState)
            → Stands s (shown S.Store self.old.store) → AreDistinct names.items → AllAreFound names.items hub
            → AllAreRead names.items hub s.now → length names.items ≡ length hub → IsCommitted S.Store self.new hub) }
        ensures known { HasCleanDisk (shown S.Store self.new.store) → OnOk result ((s : CommitState)
            → Stands s (shown S.Store self.old.store) → AreDistinct names.items → AllAreFound names.items hub
            → AllAreRead names.items hub s.now → length names.items ≡ length hub → AllByRecursion HasShortRests hub
            → KnowsNow S.Store self.new hub) }
        ensures crash { Survives (shown S.Store self.old.store) (shown S.Store self.new.store)
            (MayBegin names.items hub (shown S.Store self.old.store)) }
    {
        self.names = names;
        match self.remember(&hub) {
            Ok(()) => Ok(hub),
            Err(error) => {
                drop(hub);
                Err(self.fail_opening(error))
            }
        }
    }
}

/// A list of one.
fn alone(alloc: Global, file: RefusedFile) -> Result<Vec<RefusedFile>, AllocError>
    ensures { IfOk result (λ files. files.items ≡ file ∷ []) }
{
    let mut files = Vec::new(alloc);
    files.push(file)?;
    Ok(files)
}
