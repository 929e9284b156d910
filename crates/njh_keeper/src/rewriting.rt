//! What changed of a whole file that was kept before is written anew.

ghost use Rattle.std.specs.Prelude.{◌≡◌, ◌<◌, true, false, None, length, set, string_bytes, OnOk};
ghost use Rattle.njh_ebcdic.specs.Names.{is_name};
ghost use Rattle.njh_stream.specs.SpoolFiles.{records_in};
ghost use Rattle.njh_hub.specs.WholeHub.{part};
ghost use Rattle.njh_turns.specs.Keeping.{is_held};
ghost use Rattle.njh_spool.specs.CustomerSpool.{WholeFile};
ghost use Rattle.njh_spoolfile.specs.Shelf.{shown};
ghost use Rattle.sqlite.specs.State.{HasCleanDisk, Survives};
ghost use Rattle.njh_keeper.specs.code.Counting.{Grows};
ghost use Rattle.njh_keeper.specs.code.Following.{ChangesRow, IsHubFile, IsQuiet, IsStillAt, LeadsFiles, stage_of};
ghost use Rattle.njh_keeper.specs.code.Nodes.{AreOne, named_nodes};

use crate::hub_records::{is_mixed, job_of};
use crate::own_files::{HubFile, KeptWhole, OwnFiles};
use crate::rows::{is_held, is_name, row_of};
use crate::writer::SpoolWriter;
use njh_hub::{FileSummaryView, Hub};
use njh_spool::State;
use sqlite::{Alter, Error};

/// Writes anew what changed of a file that was there: its row, if it was sent elsewhere, or is Held
/// now and wasn't, or the other way.
pub(crate) fn follow_one<S: Alter + Drop>(
    writer: &mut SpoolWriter<S>,
    own: &mut OwnFiles,
    place: usize,
    hub: &Hub,
    file: &HubFile,
    summary: &FileSummaryView,
) -> Result<(), Error>
    requires { place < length own.old.whole.items }
    ensures led { (g : WholeFile) → IsHubFile hub.now file.now summary.now g
        → HasCleanDisk (shown S.Store writer.new.store)
        → OnOk result (LeadsFiles (λ s files. IsStillAt files place g) (λ files now. now ≡ set files place g)
        (stage_of S.Store writer.old own.old) (stage_of S.Store writer.new own.new)) }
    ensures long { length own.new.whole.items ≡ length own.old.whole.items }
    ensures grows { OnOk result (Grows writer.old own.old writer.new own.new) }
    ensures quiet { OnOk result (IsQuiet writer.old writer.new) }
    ensures crash { Survives (shown S.Store writer.old.store) (shown S.Store writer.new.store) (λ _. ⊥) }
{
    let kept = own.whole[place];
    let is_sent_on = is_rewritten(&kept, hub, file, summary);
    let now = kept_now(kept, is_sent_on, summary);
    if changes_row(is_sent_on, kept.state, now.state) {
        change_row(writer, own, hub, file, &now, summary)?;
    }
    own.whole[place] = now;
    Ok(())
}

/// What is remembered of a file that was there. The headers of one that was sent elsewhere name
/// that node alone, and its row says so.
fn kept_now(kept: KeptWhole, is_sent_on: bool, summary: &FileSummaryView) -> KeptWhole
    ensures sent_on { is_sent_on ≡ true → result ≡ record kept {
      state = summary.now.state;
      destination = summary.now.destination;
      is_mixed = false;
      is_sent = is_name summary.now.destination.node;
    } }
    ensures still { is_sent_on ≡ false → result ≡ record kept { state = summary.now.state } }
    ensures records { result.records ≡ kept.records }
{
    let state = summary.state;
    if !is_sent_on {
        return KeptWhole { state, ..kept };
    }
    KeptWhole {
        state,
        destination: summary.destination,
        is_mixed: false,
        is_sent: is_name(&summary.destination.node),
        ..kept
    }
}

/// Whether a file's row is another now: it was sent elsewhere, or is Held now and wasn't, or the
/// other way.
fn changes_row(is_sent_on: bool, before: State, now: State) -> bool
    ensures { result ≡ false → (is_sent_on ≡ false) × (is_held now ≡ is_held before) }
{
    is_sent_on || is_held(now) != is_held(before)
}

/// Puts a whole file's row as it is now in the place of the one that it had.
pub(crate) fn change_row<S: Alter + Drop>(
    writer: &mut SpoolWriter<S>,
    own: &OwnFiles,
    hub: &Hub,
    file: &HubFile,
    kept: &KeptWhole,
    summary: &FileSummaryView,
) -> Result<(), Error>
    ensures changed { HasCleanDisk (shown S.Store writer.new.store) → OnOk result (ChangesRow
        (string_bytes own.now.text) kept.now.id kept.now.key kept.now.is_sent summary.now
        (shown S.Store writer.old.store) (shown S.Store writer.new.store)) }
    ensures others { writer.new
        ≡ record writer.old { store = writer.new.store; is_changed = writer.new.is_changed } }
    ensures due { OnOk result (writer.new.is_changed ≡ true) }
    ensures crash { Survives (shown S.Store writer.old.store) (shown S.Store writer.new.store) (λ _. ⊥) }
{
    let row = row_of(
        writer.alloc,
        own.text.as_str(),
        kept,
        summary,
        job_of(hub, file),
    )?;
    let changed = writer.change_file(kept.id, &row);
    drop(row);
    changed
}

/// Whether a file was sent elsewhere: its destination is another, or its data set headers
/// named more than one node and don't any more.
fn is_rewritten(kept: &KeptWhole, hub: &Hub, file: &HubFile, summary: &FileSummaryView) -> bool
    ensures same { result ≡ false → kept.now.destination ≡ summary.now.destination }
    ensures several { result ≡ false → kept.now.is_mixed ≡ true
        → ¬ AreOne (named_nodes None (records_in file.now.number (part file.now.customer hub.now).customer.spool)) }
    ensures one { result ≡ true → kept.now.destination ≡ summary.now.destination
        → AreOne (named_nodes None (records_in file.now.number (part file.now.customer hub.now).customer.spool)) }
{
    // One that goes out may have been refused, sent elsewhere and asked for again in one step.
    kept.destination != summary.destination || kept.is_mixed && !is_mixed(hub, file)
}
