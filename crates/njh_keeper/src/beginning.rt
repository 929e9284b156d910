//! The memory of a keeper begins with a hub that was opened from its spool file.

ghost use Rattle.std.specs.Prelude.{◌≡◌, true, false, map, string_bytes, IfOk, OnOk};
ghost use Rattle.std.specs.List.{AllByRecursion};
ghost use Rattle.sqlite.specs.State.{HasCleanDisk, Survives};
ghost use Rattle.njh_keeper.specs.Opened.{is_name_of};
ghost use Rattle.njh_keeper.specs.code.Memory.{numbers_of, own_of};
ghost use Rattle.njh_keeper.specs.code.Opening.{Begins, MayBegin};
ghost use Rattle.njh_spoolfile.specs.Shelf.{shown};

use crate::numbers::check_numbers;
use crate::own_files::OwnFiles;
use crate::remembering::remember_all;
use crate::writer::SpoolWriter;
use njh_ebcdic::Name;
use njh_hub::Hub;
use sqlite::{Alter, Error};

/// Remembers the whole files of the customers of a hub that was opened from a spool file, and
/// commits them as the hub has them. Records under numbers of no file are dropped, as far as they
/// are looked for.
///
/// Two files whose records have one number are damage, and so is a file whose row or whose records
/// have the greatest number.
pub(crate) fn begin<S: Alter + Drop>(
    writer: &mut SpoolWriter<S>,
    hub: &Hub,
    names: &[Name],
) -> Result<Vec<OwnFiles>, Error>
    ensures begun { HasCleanDisk (shown S.Store writer.new.store) → IfOk result (λ owns. Begins names.now hub.now
        (map own_of owns.items) (numbers_of writer.new) (shown S.Store writer.old.store)
        (shown S.Store writer.new.store)) }
    ensures names { IfOk result (λ owns. map (λ own. own.name) owns.items ≡ names.now) }
    ensures texts { IfOk result (λ owns. AllByRecursion
        (λ own. is_name_of (string_bytes own.text) own.name ≡ true) owns.items) }
    ensures settled { OnOk result ((writer.new.is_changed ≡ false) × (writer.new.waiting ≡ 0)) }
    ensures crash { Survives (shown S.Store writer.old.store) (shown S.Store writer.new.store)
        (MayBegin names.now hub.now (shown S.Store writer.old.store)) }
{
    let files = writer.store.files(writer.alloc)?;
    check_numbers(writer.alloc, &files)?;
    let owns = remember_all(writer, hub, names, &files)?;
    writer.forget_numbers();
    writer.begin_numbers(&files)?;
    Ok(owns)
}
