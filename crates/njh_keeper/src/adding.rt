//! A file that became whole is added.

ghost use Rattle.std.specs.Prelude.{◌≡◌, ◌+◌, ◌++◌, ◌&&◌, [], ◌∷◌, true, false, nat_lt, not, length, IfOk, OnOk};
ghost use Rattle.njh_ebcdic.specs.Names.{is_name};
ghost use Rattle.njh_spool.specs.CustomerSpool.{WholeFile};
ghost use Rattle.njh_spoolfile.specs.Shelf.{shown};
ghost use Rattle.sqlite.specs.State.{HasCleanDisk, Survives};
ghost use Rattle.njh_keeper.specs.code.Counting.{Grows, rows_for, rows_of};
ghost use Rattle.njh_keeper.specs.code.Following.{AddsRow, AreFronts, IsHubFile, LeadsFiles, LeadsInHand, stage_of};
ghost use Rattle.njh_keeper.specs.code.Memory.{own_of};
ghost use Rattle.njh_keeper.specs.code.Remembered.{NameOneNode};

use crate::hub_records::{is_mixed, job_of, see_storable, write_rest};
use crate::own_files::{HubFile, KeptWhole, OwnFiles};
use crate::rows::{is_name, row_of};
use crate::writer::SpoolWriter;
use njh_hub::{FileSummaryView, Hub};
use njh_record::Kind;
use njh_spool::FileId;
use sqlite::{Alter, Error};

/// Adds a file that became whole. Records of it that were kept before stay.
pub(crate) fn add_one<S: Alter + Drop>(
    writer: &mut SpoolWriter<S>,
    own: &mut OwnFiles,
    hub: &Hub,
    file: &HubFile,
    summary: &FileSummaryView,
) -> Result<(), Error>
    ensures led { (g : WholeFile) → IsHubFile hub.now file.now summary.now g
        → HasCleanDisk (shown S.Store writer.new.store)
        → OnOk result (LeadsFiles (λ s files. AreFronts s (own_of own.old).partial (g ∷ []))
        (λ files now. now ≡ files ++ g ∷ [])
        (stage_of S.Store writer.old own.old) (stage_of S.Store writer.new own.new)) }
    ensures grows { (g : WholeFile) → IsHubFile hub.now file.now summary.now g
        → OnOk result (Grows writer.old own.old writer.new own.new) }
    ensures due { OnOk result (writer.new.is_changed ≡ true) }
    ensures crash { Survives (shown S.Store writer.old.store) (shown S.Store writer.new.store) (λ _. ⊥) }
{
    let place = place_for(writer, own, file.number, summary.records)?;
    see_storable(hub, file);
    write_rest(writer, hub, file, place.key, place.written)?;
    add_row(writer, own, hub, file, place, summary)
}

/// Where records of a file are to stand, and how many stand there already.
#[derive(Clone, Copy)]
struct RecordsPlace {
    key: u32,
    written: u32,
}

/// The place for a file of this number that has so many records: that of the file that wasn't
/// whole, or a new one.
fn place_for<S: Alter + Drop>(
    writer: &mut SpoolWriter<S>,
    own: &mut OwnFiles,
    number: FileId,
    records: u32,
) -> Result<RecordsPlace, Error>
    ensures led { (g : WholeFile) → number ≡ g.number → records ≡ length g.records
        → HasCleanDisk (shown S.Store writer.new.store)
        → IfOk result (λ place. LeadsInHand place.key place.written g
        (stage_of S.Store writer.old own.old) (stage_of S.Store writer.new own.new)) }
    ensures rows { IfOk result (λ place. rows_of own.new + rows_for place.written ≡ rows_of own.old) }
    ensures waits { OnOk result (writer.new.waiting ≡ writer.old.waiting) }
    ensures crash { Survives (shown S.Store writer.old.store) (shown S.Store writer.new.store) (λ _. ⊥) }
{
    match own.take_partial(number, records) {
        Some(partial) => Ok(RecordsPlace {
            key: partial.key,
            written: partial.written,
        }),
        None => Ok(RecordsPlace {
            key: writer.take_key()?,
            written: 0,
        }),
    }
}

/// Adds the row of a file whose records stand there. If some were written before it was whole, it may
/// have been sent elsewhere since.
fn add_row<S: Alter + Drop>(
    writer: &mut SpoolWriter<S>,
    own: &mut OwnFiles,
    hub: &Hub,
    file: &HubFile,
    place: RecordsPlace,
    summary: &FileSummaryView,
) -> Result<(), Error>
    ensures added { (g : WholeFile) → IsHubFile hub.now file.now summary.now g
        → HasCleanDisk (shown S.Store writer.new.store) → OnOk result (AddsRow place.key place.written summary.now g
        (stage_of S.Store writer.old own.old) (stage_of S.Store writer.new own.new)) }
    ensures rows { OnOk result ((rows_of own.new ≡ rows_of own.old + rows_for summary.now.records)
        × (writer.new.waiting ≡ writer.old.waiting)) }
    ensures due { OnOk result (writer.new.is_changed ≡ true) }
    ensures crash { Survives (shown S.Store writer.old.store) (shown S.Store writer.new.store) (λ _. ⊥) }
{
    let is_mixed = names_several(hub, file, summary);
    let kept = KeptWhole {
        id: writer.take_id()?,
        key: place.key,
        number: file.number,
        records: summary.records,
        state: summary.state,
        destination: summary.destination,
        is_mixed,
        is_sent: may_be_sent(place.written, is_mixed, summary),
        came: writer.now,
    };
    own.whole.push(kept)?;
    let row = row_of(
        writer.alloc,
        own.text.as_str(),
        &kept,
        summary,
        job_of(hub, file),
    )?;
    let added = writer.add_file(kept.id, &row);
    drop(row);
    added
}

/// Whether a file may have been sent elsewhere since so many of its records were written.
fn may_be_sent(written: u32, is_mixed: bool, summary: &FileSummaryView) -> bool
    ensures { result ≡ nat_lt 0 written && (not is_mixed && is_name summary.now.destination.node) }
{
    written > 0 && !is_mixed && is_name(&summary.destination.node)
}

/// Whether a file's headers name more than one node.
pub(crate) fn names_several(hub: &Hub, file: &HubFile, summary: &FileSummaryView) -> bool
    ensures one { (g : WholeFile) → IsHubFile hub.now file.now summary.now g → result ≡ false
        → NameOneNode g.kind g.records }
    ensures several { (g : WholeFile) → IsHubFile hub.now file.now summary.now g → result ≡ true
        → ¬ NameOneNode g.kind g.records }
{
    match summary.kind {
        Kind::In => false,
        Kind::Out => is_mixed(hub, file),
    }
}
