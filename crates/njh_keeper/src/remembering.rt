//! What is kept is remembered when a hub is opened from it.

ghost use Rattle.std.specs.Prelude.{◌≡◌, ℕ, ◌<◌, List, [], ◌∷◌, true, length, map, slice_index_or, string_bytes, IfOk};
ghost use Rattle.std.specs.Prelude.{OnOk};
ghost use Rattle.std.specs.List.{AllByRecursion};
ghost use Rattle.sqlite.specs.State.{HasCleanDisk, Survives};
ghost use Rattle.njh_hub.specs.WholeHub.{part};
ghost use Rattle.njh_keeper.specs.Opened.{is_name_of};
ghost use Rattle.njh_keeper.specs.code.Leading.{Leads};
ghost use Rattle.njh_keeper.specs.code.Memory.{own_of, whole_of};
ghost use Rattle.njh_keeper.specs.code.Remembered.{Remembers};
ghost use Rattle.njh_keeper.specs.code.Opening.{AllAreFound, AreFound, Reads, Remembering, RememberingAll, entries};
ghost use Rattle.njh_keeper.specs.code.Opening.{IsOwnOf, files_at, owned_of};
ghost use Rattle.njh_spool.specs.CustomerSpool.{WholeFile};
ghost use Rattle.njh_spoolfile.specs.Kept.{File, entry_of};
ghost use Rattle.njh_spoolfile.specs.Sent.{is_sent};
ghost use Rattle.njh_spoolfile.specs.Shelf.{shown};

use crate::adding::names_several;
use crate::own_files::{HubFile, KeptWhole, OwnFiles};
use crate::rewriting::change_row;
use crate::rows::{is_held, name_text, reads_as};
use crate::writer::{SpoolWriter, astray};
use njh_ebcdic::Name;
use njh_hub::Hub;
use njh_spoolfile::{StoredFile, is_sent};
use sqlite::{Alter, Error};
use std::alloc::{AllocError, Global};

/// Remembers the whole files of the customers of a hub that was opened from these files of a spool
/// file. The rows of those that are Held since their node has no route any more are written anew.
pub(crate) fn remember_all<S: Alter + Drop>(
    writer: &mut SpoolWriter<S>,
    hub: &Hub,
    names: &[Name],
    files: &[StoredFile],
) -> Result<Vec<OwnFiles>, Error>
    ensures names { IfOk result (λ owns. map (λ own. own.name) owns.items ≡ names.now) }
    ensures texts { IfOk result (λ owns. AllByRecursion
        (λ own. is_name_of (string_bytes own.text) own.name ≡ true) owns.items) }
    ensures led { AllAreFound names.now hub.now → HasCleanDisk (shown S.Store writer.new.store)
        → IfOk result (λ owns. Leads (RememberingAll names.now hub.now (entries files.now) (map own_of owns.items))
        (shown S.Store writer.old.store) (shown S.Store writer.new.store)) }
    ensures others { writer.new ≡ record writer.old { store = writer.new.store; is_changed = writer.new.is_changed } }
    ensures crash { Survives (shown S.Store writer.old.store) (shown S.Store writer.new.store) (λ _. ⊥) }
{
    let mut customers = Vec::with_capacity(writer.alloc, names.len())?;
    for place in 0..names.len() {
        let own = remember_customer(writer, hub, place, names[place], files)?;
        customers.push(own)?;
    }
    Ok(customers)
}

/// Remembers the whole files of a customer of this number and name.
fn remember_customer<S: Alter + Drop>(
    writer: &mut SpoolWriter<S>,
    hub: &Hub,
    place: usize,
    name: Name,
    files: &[StoredFile],
) -> Result<OwnFiles, Error>
    ensures own { IfOk result (λ own. IsOwnOf name (part place hub.now).customer.spool (own_of own)) }
    ensures text { IfOk result (λ own. is_name_of (string_bytes own.text) own.name ≡ true) }
    ensures led { AreFound (part place hub.now).customer.spool → HasCleanDisk (shown S.Store writer.new.store)
        → IfOk result (λ own. Leads (Remembering name (entries files.now) (files_at place hub.now) (own_of own))
        (shown S.Store writer.old.store) (shown S.Store writer.new.store)) }
    ensures others { writer.new ≡ record writer.old { store = writer.new.store; is_changed = writer.new.is_changed } }
    ensures crash { Survives (shown S.Store writer.old.store) (shown S.Store writer.new.store) (λ _. ⊥) }
{
    if place > usize::from(u16::MAX) {
        return Err(astray());
    }
    let customer = place as u16;
    let mut own = customer_named(writer.alloc, hub, customer, name)?;
    remember_files(writer, &mut own, hub, customer, files)?;
    Ok(own)
}

/// A customer of a hub, without its files.
fn customer_named(
    alloc: Global,
    hub: &Hub,
    customer: u16,
    name: Name,
) -> Result<OwnFiles, AllocError>
    ensures { IfOk result (λ own. (own.name ≡ name) × (is_name_of (string_bytes own.text) name ≡ true)
        × (own.arrived ≡ (part customer hub.now).customer.spool.arrived) × (own.whole.items ≡ [])
        × (own.partial.items ≡ []) × (own.sweeps.items ≡ [])) }
{
    let text = name_text(alloc, name)?;
    Ok(OwnFiles {
        name,
        text,
        arrived: hub.arrived(customer),
        whole: Vec::new(alloc),
        partial: Vec::new(alloc),
        sweeps: Vec::new(alloc),
    })
}

/// Remembers those of these whole files that are a customer's.
fn remember_files<S: Alter + Drop>(
    writer: &mut SpoolWriter<S>,
    own: &mut OwnFiles,
    hub: &Hub,
    customer: u16,
    files: &[StoredFile],
) -> Result<(), Error>
    ensures led { is_name_of (string_bytes own.old.text) own.old.name ≡ true
        → AreFound (part customer hub.now).customer.spool → HasCleanDisk (shown S.Store writer.new.store)
        → OnOk result (Leads (Reads own.old.name (part customer hub.now).customer.spool
        (map whole_of own.old.whole.items) (map whole_of own.new.whole.items)
        (owned_of own.old.name (entries files.now)) [])
        (shown S.Store writer.old.store) (shown S.Store writer.new.store)) }
    ensures writer { writer.new ≡ record writer.old { store = writer.new.store; is_changed = writer.new.is_changed } }
    ensures others { own.new ≡ record own.old { whole = own.new.whole } }
    ensures crash { Survives (shown S.Store writer.old.store) (shown S.Store writer.new.store) (λ _. ⊥) }
{
    for at in 0..files.len() {
        remember_if_own(writer, own, hub, customer, &files[at])?;
    }
    Ok(())
}

/// Remembers a whole file that was put back, if it is the customer's.
fn remember_if_own<S: Alter + Drop>(
    writer: &mut SpoolWriter<S>,
    own: &mut OwnFiles,
    hub: &Hub,
    customer: u16,
    stored: &StoredFile,
) -> Result<(), Error>
    ensures led { is_name_of (string_bytes own.old.text) own.old.name ≡ true
        → AreFound (part customer hub.now).customer.spool → HasCleanDisk (shown S.Store writer.new.store)
        → OnOk result ((left : List (ℕ × File)) → Leads (Reads own.old.name (part customer hub.now).customer.spool
        (map whole_of own.old.whole.items) (map whole_of own.new.whole.items)
        (owned_of own.old.name (entry_of stored.now ∷ left)) (owned_of own.old.name left))
        (shown S.Store writer.old.store) (shown S.Store writer.new.store)) }
    ensures writer { writer.new ≡ record writer.old { store = writer.new.store; is_changed = writer.new.is_changed } }
    ensures others { own.new ≡ record own.old { whole = own.new.whole } }
    ensures crash { Survives (shown S.Store writer.old.store) (shown S.Store writer.new.store) (λ _. ⊥) }
{
    if reads_as(stored.file.customer.as_str(), own.name) {
        return remember_one(writer, own, hub, customer, stored);
    }
    Ok(())
}

/// Remembers a whole file that was put back, after those that are remembered. Where the hub has it
/// Held and its row doesn't, or the other way, its row is written anew.
fn remember_one<S: Alter + Drop>(
    writer: &mut SpoolWriter<S>,
    own: &mut OwnFiles,
    hub: &Hub,
    customer: u16,
    stored: &StoredFile,
) -> Result<(), Error>
    ensures led { is_name_of (string_bytes own.old.text) own.old.name ≡ true
        → AreFound (part customer hub.now).customer.spool → HasCleanDisk (shown S.Store writer.new.store)
        → OnOk result ((left : List (ℕ × File)) → Leads (Reads own.old.name (part customer hub.now).customer.spool
        (map whole_of own.old.whole.items) (map whole_of own.new.whole.items) (entry_of stored.now ∷ left) left)
        (shown S.Store writer.old.store) (shown S.Store writer.new.store)) }
    ensures writer { writer.new ≡ record writer.old { store = writer.new.store; is_changed = writer.new.is_changed } }
    ensures others { own.new ≡ record own.old { whole = own.new.whole } }
    ensures crash { Survives (shown S.Store writer.old.store) (shown S.Store writer.new.store) (λ _. ⊥) }
{
    let index = own.whole.len();
    if index >= hub.file_count(customer) as usize {
        return Err(astray());
    }
    let index = index as u32;
    let kept = kept_at(hub, customer, index, stored);
    own.whole.push(kept)?;
    let summary = hub.summary_at(customer, index);
    if is_held(summary.state) == stored.file.held {
        return Ok(());
    }
    let file = HubFile {
        customer,
        number: kept.number,
    };
    change_row(writer, own, hub, &file, &kept, &summary)
}

/// What is remembered of the whole file of a customer that was put back from this row.
fn kept_at(hub: &Hub, customer: u16, index: u32, stored: &StoredFile) -> KeptWhole
    requires { index < length (part customer hub.now).customer.spool.whole }
    ensures id { (result.id ≡ stored.now.id) × (result.key ≡ stored.now.file.key) }
    ensures sent { is_sent (string_bytes stored.now.file.to_node) ≡ result.is_sent }
    ensures remembers { AreFound (part customer hub.now).customer.spool
        → (g : WholeFile) → g ≡ slice_index_or (part customer hub.now).customer.spool.whole index g
        → Remembers (whole_of result) g }
{
    let summary = hub.summary_at(customer, index);
    let number = hub.number_at(customer, index);
    let file = HubFile { customer, number };
    KeptWhole {
        id: stored.id,
        key: stored.file.key,
        number,
        records: summary.records,
        state: summary.state,
        destination: summary.destination,
        is_mixed: names_several(hub, &file, &summary),
        is_sent: is_sent(stored.file.to_node.as_str()),
        came: stored.file.came,
    }
}
