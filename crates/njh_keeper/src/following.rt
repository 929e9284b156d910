//! A customer's whole files are kept as a step left them: each one that is remembered has left and
//! is dropped, or is followed, and behind these are added those that came.

ghost use Rattle.std.specs.Prelude.{◌≡◌, ◌<◌, ◌≤◌, ◌-◌, ◌^◌, true, length, min, remove, set, take, ⊤, OnOk};
ghost use Rattle.njh_customer.specs.Surviving.{Survive};
ghost use Rattle.njh_hub.specs.WholeHub.{part};
ghost use Rattle.njh_spool.specs.CustomerSpool.{WholeFile, max_arrived};
ghost use Rattle.njh_spoolfile.specs.Shelf.{shown};
ghost use Rattle.sqlite.specs.State.{HasCleanDisk, Survives};
ghost use Rattle.njh_keeper.specs.code.Counting.{Grows, rows_of};
ghost use Rattle.njh_keeper.specs.code.Following.{AreFronts, GoOnIn, IsAt, IsQuiet, IsSought, IsStillAt};
ghost use Rattle.njh_keeper.specs.code.Following.{LeadsFiles, stage_of};
ghost use Rattle.njh_keeper.specs.code.Memory.{own_of};
ghost use Rattle.njh_keeper.specs.code.Walking.{AreNumbered};

use crate::adding::add_one;
use crate::own_files::{HubFile, OwnFiles};
use crate::rewriting::follow_one;
use crate::sweeping::sweep_later;
use crate::writer::{SpoolWriter, astray};
use njh_hub::Hub;
use sqlite::{Alter, Error};

/// Keeps a customer's whole files as a hub has them now: those that came are added, those that left
/// are taken out, and of each other one what changed is written anew.
///
/// The last files are the new ones, as many as became whole; each other one was there, and is known
/// by its number. One that isn't found is a fault.
pub(crate) fn follow<S: Alter + Drop>(
    writer: &mut SpoolWriter<S>,
    own: &mut OwnFiles,
    hub: &Hub,
    customer: u16,
) -> Result<(), Error>
    ensures led { AreNumbered (part customer hub.now).customer.spool.whole
        → HasCleanDisk (shown S.Store writer.new.store)
        → OnOk result (LeadsFiles (λ s files. GoOnIn own.old.arrived files (part customer hub.now).customer
        × AreFronts s (own_of own.old).partial (part customer hub.now).customer.spool.whole)
        (λ files now. now ≡ (part customer hub.now).customer.spool.whole)
        (stage_of S.Store writer.old own.old) (stage_of S.Store writer.new own.new)) }
    ensures grows { AreNumbered (part customer hub.now).customer.spool.whole
        → OnOk result (Grows writer.old own.old writer.new own.new) }
    ensures arrived { OnOk result (own.new.arrived ≡ (part customer hub.now).customer.spool.arrived) }
    ensures quiet { OnOk result (IsQuiet writer.old writer.new) }
    ensures crash { Survives (shown S.Store writer.old.store) (shown S.Store writer.new.store) (λ _. ⊥) }
{
    let count = hub.file_count(customer);
    let arrived = hub.arrived(customer);
    let old = count.saturating_sub(new_files(own.arrived, arrived));
    follow_old(writer, own, hub, customer, old)?;
    add_new(writer, own, hub, customer, old)?;
    own.arrived = arrived;
    Ok(())
}

/// Follows the first so many files of the hub, which were there, and takes out each other one.
fn follow_old<S: Alter + Drop>(
    writer: &mut SpoolWriter<S>,
    own: &mut OwnFiles,
    hub: &Hub,
    customer: u16,
    old: u32,
) -> Result<(), Error>
    requires { old ≤ length (part customer hub.now).customer.spool.whole }
    ensures led { AreNumbered (part customer hub.now).customer.spool.whole
        → HasCleanDisk (shown S.Store writer.new.store)
        → OnOk result (LeadsFiles
        (λ s files. Survive files (take old (part customer hub.now).customer.spool.whole) × AreNumbered files)
        (λ files now. now ≡ take old (part customer hub.now).customer.spool.whole)
        (stage_of S.Store writer.old own.old) (stage_of S.Store writer.new own.new)) }
    ensures grows { OnOk result (Grows writer.old own.old writer.new own.new) }
    ensures quiet { OnOk result (IsQuiet writer.old writer.new) }
    ensures crash { Survives (shown S.Store writer.old.store) (shown S.Store writer.new.store) (λ _. ⊥) }
{
    let mut index = 0;
    while (index as usize) < own.whole.len() {
        if is_there(own, hub, customer, index, old) {
            follow_at(writer, own, hub, customer, index)?;
            index += 1;
        } else {
            drop_at(writer, own, index as usize)?;
        }
    }
    if index < old {
        return Err(astray());
    }
    Ok(())
}

/// Whether the file that is remembered at this index is the hub's there, among the first so many.
fn is_there(own: &OwnFiles, hub: &Hub, customer: u16, index: u32, old: u32) -> bool
    requires within { index < length own.now.whole.items }
    requires were { old ≤ length (part customer hub.now).customer.spool.whole }
    ensures low { result ≡ true → index < old }
    ensures sought { IsSought (own_of own.now).whole (take old (part customer hub.now).customer.spool.whole) index
        result }
{
    let number = own.whole[index as usize].number;
    if index >= old {
        return false;
    }
    number == hub.number_at(customer, index)
}

/// Follows the file that is remembered at this index, and is the hub's there.
fn follow_at<S: Alter + Drop>(
    writer: &mut SpoolWriter<S>,
    own: &mut OwnFiles,
    hub: &Hub,
    customer: u16,
    index: u32,
) -> Result<(), Error>
    requires within { index < length own.old.whole.items }
    requires there { index < length (part customer hub.now).customer.spool.whole }
    ensures led { (f : WholeFile) → AreNumbered (part customer hub.now).customer.spool.whole
        → IsAt (part customer hub.now).customer.spool.whole index f → HasCleanDisk (shown S.Store writer.new.store)
        → OnOk result (LeadsFiles (λ s files. IsStillAt files index f) (λ files now. now ≡ set files index f)
        (stage_of S.Store writer.old own.old) (stage_of S.Store writer.new own.new)) }
    ensures long { length own.new.whole.items ≡ length own.old.whole.items }
    ensures grows { OnOk result (Grows writer.old own.old writer.new own.new) }
    ensures quiet { OnOk result (IsQuiet writer.old writer.new) }
    ensures crash { Survives (shown S.Store writer.old.store) (shown S.Store writer.new.store) (λ _. ⊥) }
{
    let number = hub.number_at(customer, index);
    let summary = hub.summary_at(customer, index);
    let file = HubFile { customer, number };
    follow_one(writer, own, index as usize, hub, &file, &summary)
}

/// Adds the files from this index on, which became whole.
fn add_new<S: Alter + Drop>(
    writer: &mut SpoolWriter<S>,
    own: &mut OwnFiles,
    hub: &Hub,
    customer: u16,
    old: u32,
) -> Result<(), Error>
    requires { old ≤ length (part customer hub.now).customer.spool.whole }
    ensures led { AreNumbered (part customer hub.now).customer.spool.whole
        → HasCleanDisk (shown S.Store writer.new.store)
        → OnOk result (LeadsFiles (λ s files. (files ≡ take old (part customer hub.now).customer.spool.whole)
        × AreFronts s (own_of own.old).partial (part customer hub.now).customer.spool.whole)
        (λ files now. now ≡ (part customer hub.now).customer.spool.whole)
        (stage_of S.Store writer.old own.old) (stage_of S.Store writer.new own.new)) }
    ensures grows { AreNumbered (part customer hub.now).customer.spool.whole
        → OnOk result (Grows writer.old own.old writer.new own.new) }
    ensures quiet { OnOk result (IsQuiet writer.old writer.new) }
    ensures crash { Survives (shown S.Store writer.old.store) (shown S.Store writer.new.store) (λ _. ⊥) }
{
    let count = hub.file_count(customer);
    for index in old..count {
        let summary = hub.summary_at(customer, index);
        let number = hub.number_at(customer, index);
        add_one(writer, own, hub, &HubFile { customer, number }, &summary)?;
    }
    Ok(())
}

/// How many files became whole between two counts; all there may be if it isn't known.
fn new_files(before: u64, now: u64) -> u32
    ensures all { now ≡ max_arrived → result ≡ 2 ^ 32 - 1 }
    ensures some { now < max_arrived → result ≡ min (now - before) (2 ^ 32 - 1) }
{
    if now == u64::MAX {
        return u32::MAX;
    }
    u32::try_from(now.saturating_sub(before)).unwrap_or(u32::MAX)
}

/// Takes out the file at a place. Its records are dropped step by step.
fn drop_at<S: Alter + Drop>(
    writer: &mut SpoolWriter<S>,
    own: &mut OwnFiles,
    place: usize,
) -> Result<(), Error>
    requires { place < length own.old.whole.items }
    ensures led { HasCleanDisk (shown S.Store writer.new.store)
        → OnOk result (LeadsFiles (λ _ _. ⊤) (λ files now. now ≡ remove files place)
        (stage_of S.Store writer.old own.old) (stage_of S.Store writer.new own.new)) }
    ensures rows { OnOk result ((rows_of own.new ≡ rows_of own.old) × (writer.new.waiting ≡ writer.old.waiting)) }
    ensures memory { own.new.whole.items ≡ remove own.old.whole.items place }
    ensures due { writer.new.is_changed ≡ true }
    ensures crash { Survives (shown S.Store writer.old.store) (shown S.Store writer.new.store) (λ _. ⊥) }
{
    let gone = own.whole.remove(place);
    writer.drop_file(gone.id)?;
    sweep_later(own, gone.key, gone.records)
}
