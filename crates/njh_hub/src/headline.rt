//! The headline, on the calls themselves: hubs are opened and run, and a customer's files are asked
//! for.

ghost use Rattle.std.specs.Prelude.{◌≡◌, IfOk};
ghost use Rattle.njh_hub.specs.Outcome.{alone, entry_at, AgreeButForMarks, AreEqual, IsOutcome};
ghost use Rattle.njh_hub.specs.OwnEvents.{events_of};
ghost use Rattle.njh_hub.specs.Parts.{entries_of};

use crate::event::Event;
use crate::fault::Cause;
use crate::file_view::FileView;
use crate::hub::Hub;
use crate::sink::Sink;
use njh_table::Tables;
use std::alloc::Global;

/// Tables of a hub that is to be opened, the customer whose frames and files are asked for, by its
/// number, and the events of all.
#[derive(Drop)]
pub struct Trial<'a> {
    /// What the hub is opened with.
    pub tables: Tables,
    /// The customer's number in these tables, from 0 on.
    pub customer: u16,
    /// What comes on the lines of all customers, in order.
    pub events: &'a [Event],
}

/// Opens the hub of a trial, works off its events, and gives the customer's files.
///
/// Where all of that was done, the frames on the customer's lines and its files are those of the
/// customer alone on a hub of its own.
pub fn outcome<S: Sink>(
    alloc: Global,
    trial: Trial<'_>,
    sink: &mut S,
) -> Result<Vec<FileView>, Cause>
    ensures { IfOk result (λ files. IsOutcome S.took trial.entry.customer sink.old sink.new files.items
        (alone (entry_at trial.entry.customer (entries_of trial.entry.tables))
        (events_of trial.entry.customer trial.entry.events.now))) }
{
    let mut hub = match Hub::open(alloc, trial.tables) {
        Ok(hub) => hub,
        Err(fault) => return Err(Cause::Hub(fault)),
    };
    match hub.run(trial.events, sink) {
        Ok(()) => {}
        Err(fault) => return Err(fault.cause),
    }
    match hub.files(trial.customer) {
        Ok(files) => Ok(files),
        Err(fault) => Err(Cause::Hub(fault)),
    }
}

/// Two trials, of tables that agree on a customer and of events with the same events of it: the
/// frames on its lines are equal, and so are its files. Its number may differ between the two; all
/// other customers, and all their events, are free.
pub fn two_runs<S: Sink, Z: Sink>(
    alloc: Global,
    one: Trial<'_>,
    sink: &mut S,
    other: Trial<'_>,
    other_sink: &mut Z,
) -> Result<(Vec<FileView>, Vec<FileView>), Cause>
    ensures { AgreeButForMarks (entry_at one.entry.customer (entries_of one.entry.tables))
        (entry_at other.entry.customer (entries_of other.entry.tables)) →
        events_of one.entry.customer one.entry.events.now ≡ events_of other.entry.customer other.entry.events.now →
        IfOk result (λ files. AreEqual S.took Z.took one.entry.customer other.entry.customer sink.old sink.new
        other_sink.old other_sink.new files.0.items files.1.items) }
{
    let files = outcome(alloc, one, sink)?;
    let other_files = outcome(alloc, other, other_sink)?;
    Ok((files, other_files))
}
