//! The rows of a file's records: several records stand in one.

ghost use Rattle.std.specs.Prelude.{◌≡◌, ◌<◌, ◌≤◌, ◌+◌, ◌-◌, ◌^◌, [], List, length, true, OnOk};
ghost use Rattle.sqlite.specs.State.{HasCleanDisk, Survives};
ghost use Rattle.njh_record.specs.Stored.{Stored};
ghost use Rattle.njh_spoolfile.specs.Shelf.{shown};
ghost use Rattle.njh_keeper.specs.code.Counting.{CountsMore};
ghost use Rattle.njh_keeper.specs.code.Gathering.{Continues, Gathers, GoesForward, IsRecordAt};
ghost use Rattle.njh_keeper.specs.code.Leading.{Leads};

use crate::writer::SpoolWriter;
use njh_spoolfile::{Pack, RecordRow, SEVERAL};
use sqlite::{Alter, Error};

/// The records of a file that are gathered for its next row.
#[derive(Drop)]
pub(crate) struct NextRow {
    /// The number that the file's records stand under.
    key: u32,
    /// The place of the first.
    place: u32,
    /// How many there are.
    count: u32,
    /// The records.
    pack: Pack,
}

impl NextRow {
    /// One with no record. The first comes to this place.
    pub(crate) fn new(key: u32, place: u32) -> NextRow
        ensures { result ≡ record { key = key; place = place; count = 0; pack = [] } }
    {
        NextRow {
            key,
            place,
            count: 0,
            pack: Pack::new(),
        }
    }

    /// Adds the file's next record. It is written with its row.
    pub(crate) fn add<S: Alter + Drop>(
        &mut self,
        writer: &mut SpoolWriter<S>,
        srcb: u8,
        bytes: &[u8],
    ) -> Result<(), Error>
        requires place { self.old.place + self.old.count < 2 ^ 23 }
        requires short { length bytes.now ≤ 256 }
        ensures gathers { OnOk result ((all : List Stored) → Gathers all self.old
            → IsRecordAt all (self.old.place + self.old.count) (record { srcb = srcb; bytes = bytes.now })
            → Gathers all self.new) }
        ensures led { HasCleanDisk (shown S.Store writer.new.store) → OnOk result ((all : List Stored)
            → Gathers all self.old
            → IsRecordAt all (self.old.place + self.old.count) (record { srcb = srcb; bytes = bytes.now })
            → Leads (Continues self.old.key all self.old.place self.new.place) (shown S.Store writer.old.store)
            (shown S.Store writer.new.store)) }
        ensures next { OnOk result (self.new.place + self.new.count ≡ self.old.place + self.old.count + 1) }
        ensures forward { OnOk result (GoesForward self.old self.new writer.old writer.new) }
        ensures crash { Survives (shown S.Store writer.old.store) (shown S.Store writer.new.store) (λ _. ⊥) }
    {
        self.make_room(writer, bytes.len())?;
        self.pack.push(srcb, bytes);
        self.count += 1;
        Ok(())
    }

    /// Writes the row, if it has records.
    pub(crate) fn write<S: Alter + Drop>(&self, writer: &mut SpoolWriter<S>) -> Result<(), Error>
        requires places { self.now.count ≤ 2 ^ 23 - self.now.place }
        ensures led { HasCleanDisk (shown S.Store writer.new.store) → OnOk result ((all : List Stored)
            → Gathers all self.now
            → Leads (Continues self.now.key all self.now.place (self.now.place + self.now.count))
            (shown S.Store writer.old.store) (shown S.Store writer.new.store)) }
        ensures counted { OnOk result (CountsMore self.now.count writer.old writer.new) }
        ensures others { OnOk result (writer.new
            ≡ record writer.old { store = writer.new.store; waiting = writer.new.waiting }) }
        ensures crash { Survives (shown S.Store writer.old.store) (shown S.Store writer.new.store) (λ _. ⊥) }
    {
        if self.count == 0 {
            return Ok(());
        }
        let kept = RecordRow {
            key: self.key,
            place: self.place,
            srcb: SEVERAL,
            bytes: self.pack.bytes(),
        };
        writer.add_records(&kept, self.count)
    }

    /// Writes the row, and begins the one behind it.
    fn begin_next<S: Alter + Drop>(&mut self, writer: &mut SpoolWriter<S>) -> Result<(), Error>
        requires places { self.old.count ≤ 2 ^ 23 - self.old.place }
        ensures led { HasCleanDisk (shown S.Store writer.new.store) → OnOk result ((all : List Stored)
            → Gathers all self.old
            → Leads (Continues self.old.key all self.old.place self.new.place) (shown S.Store writer.old.store)
            (shown S.Store writer.new.store)) }
        ensures next { OnOk result (self.new
            ≡ record self.old { place = self.old.place + self.old.count; count = 0; pack = [] }) }
        ensures forward { OnOk result (GoesForward self.old self.new writer.old writer.new) }
        ensures crash { Survives (shown S.Store writer.old.store) (shown S.Store writer.new.store) (λ _. ⊥) }
    {
        self.write(writer)?;
        self.place += self.count;
        self.count = 0;
        self.pack.clear();
        Ok(())
    }

    /// Begins another row if this one has no room for a record of so many bytes.
    fn make_room<S: Alter + Drop>(
        &mut self,
        writer: &mut SpoolWriter<S>,
        len: usize,
    ) -> Result<(), Error>
        requires places { self.old.count ≤ 2 ^ 23 - self.old.place }
        requires short { len ≤ 256 }
        ensures gathers { OnOk result ((all : List Stored) → Gathers all self.old → Gathers all self.new) }
        ensures led { HasCleanDisk (shown S.Store writer.new.store) → OnOk result ((all : List Stored)
            → Gathers all self.old
            → Leads (Continues self.old.key all self.old.place self.new.place) (shown S.Store writer.old.store)
            (shown S.Store writer.new.store)) }
        ensures next { OnOk result (self.new.place + self.new.count ≡ self.old.place + self.old.count) }
        ensures room { OnOk result (length self.new.pack + 3 + len ≤ 4000) }
        ensures forward { OnOk result (GoesForward self.old self.new writer.old writer.new) }
        ensures crash { Survives (shown S.Store writer.old.store) (shown S.Store writer.new.store) (λ _. ⊥) }
    {
        if self.pack.has_room(len) {
            return Ok(());
        }
        self.begin_next(writer)
    }
}
