//! The records of a file are kept as they come, before it is whole.

ghost use Rattle.std.specs.Prelude.{◌≡◌, ◌<◌, ◌≤◌, ◌+◌, ◌-◌, ◌^◌, ◌⊎◌, ◌++◌, ◌∷◌, [], length, slice_get, IsSomeAnd};
ghost use Rattle.std.specs.Prelude.{OnOk};
ghost use Rattle.std.specs.List.{AllByRecursion};
ghost use Rattle.njh_hub.specs.Views.{IsPartialOn};
ghost use Rattle.njh_hub.specs.WholeHub.{part};
ghost use Rattle.njh_keeper.specs.code.Counting.{rows_of};
ghost use Rattle.njh_keeper.specs.code.Memory.{own_of};
ghost use Rattle.njh_keeper.specs.code.Partly.{AllClosed, AllUpToDate, AllSeen, KeepsPartly, KeepsPartlyNew};
ghost use Rattle.njh_keeper.specs.code.Partly.{KeepsStill};
ghost use Rattle.njh_spool.specs.CustomerSpool.{CustomerSpool, partial_records};
ghost use Rattle.njh_stream.specs.SpoolFiles.{records_in};
ghost use Rattle.njh_spoolfile.specs.Shelf.{shown};
ghost use Rattle.sqlite.specs.State.{Survives};

use crate::hub_records::write_rest;
use crate::own_files::{HubFile, KeptPartial, OwnFiles};
use crate::sweeping::{sweep, sweep_later};
use crate::writer::SpoolWriter;
use njh_hub::Hub;
use njh_spool::FileId;
use njh_stream::Receiver;
use njh_table::LineId;
use sqlite::{Alter, Error};

/// From how many records on a file's are kept before it is whole. A block brings fewer, since each
/// record takes at least three of its 4,096 bytes. So if the number of a file that was given up is
/// another file's after the same step, that one has fewer records than were seen.
const MANY: u32 = 1_366;

/// How many records wait at least before they are kept, so that a file isn't read from its
/// beginning at each step.
const PORTION: u32 = 256;

/// Keeps records of a customer's files that aren't whole. Those of files that were given up are
/// dropped step by step, as those of files that have left: at least as many now as this step wrote.
/// Before the step so many records waited for a commit.
pub(crate) fn keep_portions<S: Alter + Drop>(
    writer: &mut SpoolWriter<S>,
    own: &mut OwnFiles,
    hub: &Hub,
    customer: u16,
    before: u32,
) -> Result<(), Error>
    ensures kept { OnOk result (KeepsPartly S.Store (part customer hub.now).customer.spool writer.old own.old writer.new
        own.new) }
    ensures seen { AllClosed (own_of own.old) → OnOk result (AllUpToDate (part customer hub.now).customer.spool
        (own_of own.new)) }
    ensures bounded { writer.new.waiting < 2 ^ 32 - 1 → OnOk result ((own.new.sweeps.items ≡ [])
        ⊎ (rows_of own.new + writer.old.waiting ≤ rows_of own.old + before)) }
    ensures crash { Survives (shown S.Store writer.old.store) (shown S.Store writer.new.store) (λ _. ⊥) }
{
    keep_of_lines(writer, own, hub, customer)?;
    drop_given_up(own)?;
    let wrote = writer.waiting.saturating_sub(before);
    sweep(writer, own, wrote)
}

/// Keeps records of the files that the streams of a customer's lines are about.
fn keep_of_lines<S: Alter + Drop>(
    writer: &mut SpoolWriter<S>,
    own: &mut OwnFiles,
    hub: &Hub,
    customer: u16,
) -> Result<(), Error>
    ensures kept { OnOk result (KeepsPartly S.Store (part customer hub.now).customer.spool writer.old own.old writer.new
        own.new) }
    ensures crash { Survives (shown S.Store writer.old.store) (shown S.Store writer.new.store) (λ _. ⊥) }
{
    for number in 0..u16::MAX {
        let Ok(receivers) = hub.receivers(LineId { customer, number }) else {
            return Ok(());
        };
        keep_of_line(writer, own, hub, customer, receivers)?;
    }
    Ok(())
}

/// Keeps records of the files that a line's streams are about.
fn keep_of_line<S: Alter + Drop>(
    writer: &mut SpoolWriter<S>,
    own: &mut OwnFiles,
    hub: &Hub,
    customer: u16,
    receivers: &[Receiver],
) -> Result<(), Error>
    requires partial { AllByRecursion (IsPartialOn (part customer hub.now).customer.spool) receivers.now }
    ensures kept { OnOk result (KeepsPartly S.Store (part customer hub.now).customer.spool writer.old own.old writer.new
        own.new) }
    ensures crash { Survives (shown S.Store writer.old.store) (shown S.Store writer.new.store) (λ _. ⊥) }
{
    for receiver in receivers {
        if let Receiver::Open { file, .. } = *receiver {
            let number = file;
            keep_portion(writer, own, hub, &HubFile { customer, number })?;
        }
    }
    Ok(())
}

/// Keeps records of a file that isn't whole, if it has many and enough of them wait.
fn keep_portion<S: Alter + Drop>(
    writer: &mut SpoolWriter<S>,
    own: &mut OwnFiles,
    hub: &Hub,
    file: &HubFile,
) -> Result<(), Error>
    requires partial { records_in file.now.number (part file.now.customer hub.now).customer.spool
        ≡ partial_records file.now.number (part file.now.customer hub.now).customer.spool }
    ensures kept { OnOk result (KeepsPartly S.Store (part file.now.customer hub.now).customer.spool writer.old own.old
        writer.new own.new) }
    ensures crash { Survives (shown S.Store writer.old.store) (shown S.Store writer.new.store) (λ _. ⊥) }
{
    let count = hub.record_count(file.customer, file.number);
    if count < MANY {
        return Ok(());
    }
    match own.place_of(file.number, count) {
        Some(place) => go_on(writer, own, hub, file, place),
        None => {
            let key = writer.take_key()?;
            begin(writer, own, hub, file, key)
        }
    }
}

/// Keeps all records of a file of which none was kept, under this number.
fn begin<S: Alter + Drop>(
    writer: &mut SpoolWriter<S>,
    own: &mut OwnFiles,
    hub: &Hub,
    file: &HubFile,
    key: u32,
) -> Result<(), Error>
    requires partial { records_in file.now.number (part file.now.customer hub.now).customer.spool
        ≡ partial_records file.now.number (part file.now.customer hub.now).customer.spool }
    requires many { 1366 ≤ length (records_in file.now.number (part file.now.customer hub.now).customer.spool) }
    ensures kept { OnOk result (KeepsPartlyNew S.Store key (part file.now.customer hub.now).customer.spool writer.old
        own.old writer.new own.new) }
    ensures crash { Survives (shown S.Store writer.old.store) (shown S.Store writer.new.store) (λ _. ⊥) }
{
    let count = hub.record_count(file.customer, file.number);
    let partial = KeptPartial {
        number: file.number,
        key,
        seen: count,
        written: count,
        is_open: true,
    };
    write_rest(writer, hub, file, key, 0)?;
    remember(own, partial)
}

/// Remembers a file of which records are kept.
fn remember(own: &mut OwnFiles, partial: KeptPartial) -> Result<(), Error>
    ensures last { OnOk result (own.new.partial.items ≡ own.old.partial.items ++ partial ∷ []) }
    ensures others { own.new ≡ record own.old { partial = own.new.partial } }
{
    own.partial.push(partial)?;
    Ok(())
}

/// Keeps the records of a file that came since some were kept, if enough of them wait.
fn go_on<S: Alter + Drop>(
    writer: &mut SpoolWriter<S>,
    own: &mut OwnFiles,
    hub: &Hub,
    file: &HubFile,
    place: usize,
) -> Result<(), Error>
    requires partial { records_in file.now.number (part file.now.customer hub.now).customer.spool
        ≡ partial_records file.now.number (part file.now.customer hub.now).customer.spool }
    requires within { place < length own.old.partial.items }
    requires found { IsSomeAnd (slice_get own.old.partial.items place) (λ p. (p.number ≡ file.now.number)
        × (p.seen ≤ length (records_in file.now.number (part file.now.customer hub.now).customer.spool))) }
    requires many { 1366 ≤ length (records_in file.now.number (part file.now.customer hub.now).customer.spool) }
    ensures kept { OnOk result (KeepsPartly S.Store (part file.now.customer hub.now).customer.spool writer.old own.old
        writer.new own.new) }
    ensures crash { Survives (shown S.Store writer.old.store) (shown S.Store writer.new.store) (λ _. ⊥) }
{
    let partial = own.partial[place];
    let seen = hub.record_count(file.customer, file.number);
    if seen.saturating_sub(partial.written) < PORTION {
        own.partial[place] = KeptPartial {
            seen,
            is_open: true,
            ..partial
        };
        return Ok(());
    }
    write_rest(writer, hub, file, partial.key, partial.written)?;
    own.partial[place] = KeptPartial {
        seen,
        written: seen,
        is_open: true,
        ..partial
    };
    Ok(())
}

/// Has the records of files dropped that no stream is about any more.
fn drop_given_up(own: &mut OwnFiles) -> Result<(), Error>
    ensures kept { (now : CustomerSpool) → OnOk result (KeepsStill now own.old own.new) }
    ensures seen { (now : CustomerSpool) → AllSeen now (own_of own.old)
        → OnOk result (AllUpToDate now (own_of own.new)) }
{
    let mut place = 0;
    while place < own.partial.len() {
        if own.partial[place].is_open {
            own.partial[place].is_open = false;
            place += 1;
        } else {
            let gone = own.partial.remove(place);
            sweep_later(own, gone.key, gone.written)?;
        }
    }
    Ok(())
}
