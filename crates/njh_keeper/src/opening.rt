//! A hub is opened from a spool file.

ghost use Rattle.std.specs.Prelude.{◌≡◌, ◌≤◌, ◌^◌, [], true, false, length, map, IfOk, IfErr, OnOk};
ghost use Rattle.sqlite.specs.State.{HasCleanDisk, Survives};
ghost use Rattle.njh_hub.specs.Parts.{entries_of};
ghost use Rattle.njh_hub.specs.WholeHub.{SameLines, part_at_open};
ghost use Rattle.njh_keeper.specs.Faults.{IsNoFile, Tells};
ghost use Rattle.njh_keeper.specs.Opened.{AllAreBack, hub_opened};
ghost use Rattle.njh_keeper.specs.Refusal.{refusal_of};
ghost use Rattle.njh_keeper.specs.SetAside.{all_refused, spool_tried};
ghost use Rattle.njh_keeper.specs.code.Opening.{entries};
ghost use Rattle.njh_keeper.specs.code.Restoring.{AreTried, KeepsCommit, StopsOn, wholes};
ghost use Rattle.njh_spoolfile.specs.Kept.{SpoolContents, Holds, entry_of, kept};
ghost use Rattle.njh_spoolfile.specs.CommitState.{CommitState, Stands};
ghost use Rattle.njh_spoolfile.specs.Shelf.{shown};
ghost use Rattle.njh_spoolfile.specs.Steps.{Stays};
ghost use Rattle.njh_table.specs.Accepted.{AreDistinct};

use crate::fault::{OpeningFault, RefusedFile};
use crate::names::names_of;
use crate::restoring::restore_all;
use njh_ebcdic::Name;
use njh_hub::Hub;
use njh_spoolfile::{Store, StoredFile};
use njh_table::Tables;
use sqlite::Alter;
use std::alloc::Global;

/// A hub that was opened from a spool file.
#[derive(Drop)]
pub struct OpenedHub {
    /// The hub.
    pub hub: Hub,
    /// The whole files that couldn't be put back and are set aside, in the order of arrival.
    pub refused: Vec<RefusedFile>,
}

/// The whole files of a spool file without their records, beside the names of the tables'
/// customers.
#[derive(Drop)]
struct Found {
    names: Vec<Name>,
    files: Vec<StoredFile>,
}

/// The whole files of a spool file without their records, and the names of the tables' customers.
fn find<S: Alter>(
    alloc: Global,
    tables: &Tables,
    store: &mut Store<S>,
) -> Result<Found, OpeningFault>
    ensures names { IfOk result (λ found. found.names.items ≡ map (λ c. c.name) tables.now.customers) }
    ensures distinct { AreDistinct (map (λ c. c.name) tables.now.customers) }
    ensures few { IfOk result (λ found. length found.names.items ≤ 2 ^ 16) }
    ensures files { HasCleanDisk (shown S.Store store.new) → IfOk result (λ found. (spool : SpoolContents)
        → Holds spool (shown S.Store store.old).now.trees → map entry_of found.files.items ≡ spool.files) }
    ensures told { IfErr result (λ fault. IsNoFile fault) }
    ensures same { HasCleanDisk (shown S.Store store.new) → OnOk result (Stays (shown S.Store store.old)
        (shown S.Store store.new)) }
    ensures crash { Survives (shown S.Store store.old) (shown S.Store store.new) (λ _. ⊥) }
{
    let names = names_of(alloc, tables)?;
    let files = store.files(alloc)?;
    Ok(Found { names, files })
}

/// Puts what was found back into a hub that was just opened.
fn fill<S: Alter>(
    alloc: Global,
    store: &mut Store<S>,
    mut hub: Hub,
    found: Found,
    is_strict: bool,
) -> Result<OpenedHub, OpeningFault>
    requires same { length hub ≡ length found.names.items }
    requires few { length found.names.items ≤ 2 ^ 16 }
    ensures ok { HasCleanDisk (shown S.Store store.new) → IfOk result (λ opened. (spool : SpoolContents)
        → Holds spool (shown S.Store store.old).now.trees → entries found.files.items ≡ spool.files
        → AreTried found.names.items hub opened.hub found.files.items [] (map refusal_of opened.refused.items) spool
        (shown S.Store store.new)) }
    ensures keeps { HasCleanDisk (shown S.Store store.new) → OnOk result (KeepsCommit (shown S.Store store.old)
        (shown S.Store store.new)) }
    ensures fault { HasCleanDisk (shown S.Store store.new) → IfErr result (λ fault. (spool : SpoolContents)
        → Holds spool (shown S.Store store.old).now.trees → entries found.files.items ≡ spool.files
        → StopsOn found.names.items hub (wholes spool found.files.items) fault) }
    ensures strict { is_strict ≡ true → IfOk result (λ opened. opened.refused.items ≡ []) }
    ensures lenient { is_strict ≡ false → IfErr result IsNoFile }
    ensures lines { IfOk result (λ opened. SameLines hub opened.hub) }
    ensures crash { Survives (shown S.Store store.old) (shown S.Store store.new) (λ _. ⊥) }
{
    let Found { names, files } = found;
    let tried = restore_all(alloc, store, &mut hub, &names, &files, is_strict);
    drop(files);
    drop(names);
    match tried {
        Ok(refused) => Ok(OpenedHub { hub, refused }),
        Err(fault) => {
            drop(hub);
            Err(fault)
        }
    }
}

/// Opens a hub of these tables from a spool file: each customer has its own whole files there, in
/// their order of arrival and with all their records. One that was Held is Held; any other is
/// Ready, or Held if its node has no route. All lines are down. Files of customers that the
/// tables don't have stay in the spool file alone, and so do those that can't be put back: they are
/// marked there, and told. What was set aside by an earlier opening is tried again. One file's
/// records are read at a time. Nothing is committed in the spool file.
///
/// If that is `is_strict`, `File` comes at the first file, in the order of arrival, that can't be
/// put back. `Memory` comes if there was none for the hub, for the list of files, or for what is
/// told.
pub fn open_from<S: Alter>(
    alloc: Global,
    tables: Tables,
    store: &mut Store<S>,
    is_strict: bool,
) -> Result<OpenedHub, OpeningFault>
    ensures hub { HasCleanDisk (shown S.Store store.new) → IfOk result (λ opened. (spool : SpoolContents)
        → Holds spool (shown S.Store store.old).now.trees
        → opened.hub ≡ hub_opened tables (spool_tried tables spool)) }
    ensures back { HasCleanDisk (shown S.Store store.new) → OnOk result ((spool : SpoolContents)
        → Holds spool (shown S.Store store.old).now.trees → AllAreBack tables (kept (spool_tried tables spool))) }
    ensures aside { HasCleanDisk (shown S.Store store.new) → IfOk result (λ opened. (spool : SpoolContents)
        → Holds spool (shown S.Store store.old).now.trees
        → map refusal_of opened.refused.items ≡ all_refused tables spool) }
    ensures now { HasCleanDisk (shown S.Store store.new) → OnOk result ((s : CommitState)
        → Stands s (shown S.Store store.old)
        → Stands (record s { now = spool_tried tables s.now }) (shown S.Store store.new)) }
    ensures refused { HasCleanDisk (shown S.Store store.new) → IfErr result (λ fault. (spool : SpoolContents)
        → Holds spool (shown S.Store store.old).now.trees → Tells tables spool fault) }
    ensures strict { is_strict ≡ true → IfOk result (λ opened. opened.refused.items ≡ []) }
    ensures lenient { is_strict ≡ false → IfErr result IsNoFile }
    ensures lines { IfOk result (λ opened. SameLines (map part_at_open (entries_of tables)) opened.hub) }
    ensures crash { Survives (shown S.Store store.old) (shown S.Store store.new) (λ _. ⊥) }
{
    let found = match find(alloc, &tables, store) {
        Ok(found) => found,
        Err(fault) => {
            drop(tables);
            return Err(fault);
        }
    };
    let hub = match Hub::open(alloc, tables) {
        Ok(hub) => hub,
        Err(_) => {
            drop(found);
            return Err(OpeningFault::Memory);
        }
    };
    fill(alloc, store, hub, found, is_strict)
}
