//! Writes into a spool file.

ghost use Rattle.std.specs.Prelude.{◌≡◌, ◌<◌, ◌≤◌, ◌+◌, ◌-◌, ◌^◌, ◌++◌, [], ◌∷◌, true, false, min, IfOk, OnOk, OnErr};
ghost use Rattle.std.specs.Prelude.{IsOk};
ghost use Rattle.sqlite.specs.State.{HasCleanDisk, Survives};
ghost use Rattle.njh_spoolfile.specs.Kept.{file_of, record_of, with_file, with_changed, with_record, without_file};
ghost use Rattle.njh_spoolfile.specs.Kept.{without_records};
ghost use Rattle.njh_spoolfile.specs.Shelf.{shown};
ghost use Rattle.njh_spoolfile.specs.Steps.{Changes, Commits};
ghost use Rattle.njh_keeper.specs.code.Writing.{IsTaken, is_due};

mod free_numbers;

use njh_spoolfile::{FileRow, GREATEST_ID, RecordRow, Store};
use sqlite::{Alter, Error, ErrorCode};
use std::alloc::Global;

/// A file has fewer records than this.
pub(crate) const PLACES: u32 = 1 << 23;

/// How many records written and rows dropped wait for a commit at most, if no whole file changes.
const WAITING: u32 = 4096;

/// A spool file, and what is next to be written there.
#[derive(Drop)]
pub(crate) struct SpoolWriter<S: Alter + Drop> {
    pub(crate) store: Store<S>,
    /// The number of the next whole file's row.
    pub(crate) next_id: u64,
    /// The first number that no file's records have stood under.
    pub(crate) next_key: u32,
    /// Numbers below it that no file's records stand under.
    pub(crate) free_keys: Vec<u32>,
    /// How many records were written, and how many rows dropped at most, since the last commit.
    pub(crate) waiting: u32,
    /// Whether whole files changed since then.
    is_changed: bool,
    /// The time of this step, in seconds since 1970.
    pub(crate) now: u32,
    pub(crate) alloc: Global,
}

/// There is no number for another file.
fn full() -> Error {
    Error::SqliteFailure(ErrorCode::DiskFull)
}

/// A file isn't where the last step left it, so nothing more can be kept.
pub(crate) fn astray() -> Error {
    Error::SqliteFailure(ErrorCode::DatabaseCorrupt)
}

impl<S: Alter + Drop> SpoolWriter<S> {
    /// Writes into a spool file that was just opened.
    pub(crate) fn new(alloc: Global, store: Store<S>) -> SpoolWriter<S>
        ensures { (result.store ≡ store) × (result.is_changed ≡ false) × (result.waiting ≡ 0) }
    {
        SpoolWriter {
            store,
            next_id: 1,
            next_key: 1,
            free_keys: Vec::new(alloc),
            waiting: 0,
            is_changed: false,
            now: 0,
            alloc,
        }
    }

    /// A number that a file's records may stand under; none does.
    pub(crate) fn take_key(&mut self) -> Result<u32, Error>
        ensures taken { IfOk result (λ key. IsTaken self.old.free_keys.items self.old.next_key key
            self.new.free_keys.items self.new.next_key) }
        ensures emptied { HasCleanDisk (shown S.Store self.new.store) → IfOk result (λ key. Changes
            (without_records key 0 (2 ^ 23)) (shown S.Store self.old.store) (shown S.Store self.new.store)) }
        ensures crash { Survives (shown S.Store self.old.store) (shown S.Store self.new.store) (λ _. ⊥) }
        ensures others { self.new ≡ record self.old {
          store = self.new.store;
          free_keys = self.new.free_keys;
          next_key = self.new.next_key;
        } }
    {
        let key = match self.free_keys.pop() {
            Some(key) => key,
            None => {
                if self.next_key >= u32::MAX {
                    return Err(full());
                }
                self.next_key += 1;
                self.next_key - 1
            }
        };
        self.store.drop_records(key, 0, PLACES)?;
        Ok(key)
    }

    /// The number of a row after all others.
    pub(crate) fn take_id(&mut self) -> Result<u64, Error>
        ensures taken { IfOk result (λ id. id ≡ self.old.next_id) }
        ensures low { IfOk result (λ id. id < 2 ^ 63 - 1) }
        ensures full { OnErr result (2 ^ 63 - 1 ≤ self.old.next_id) }
        ensures others { OnOk result (self.new ≡ record self.old { next_id = self.old.next_id + 1 }) }
        ensures same { OnErr result (self.new ≡ self.old) }
    {
        if self.next_id >= GREATEST_ID {
            return Err(full());
        }
        self.next_id += 1;
        Ok(self.next_id - 1)
    }

    /// Adds a row of so many records of a file.
    pub(crate) fn add_records(&mut self, kept: &RecordRow<'_>, count: u32) -> Result<(), Error>
        requires { kept.now.place < 2 ^ 23 }
        ensures changed { HasCleanDisk (shown S.Store self.new.store)
            → OnOk result (Changes (with_record (record_of kept.now)) (shown S.Store self.old.store)
            (shown S.Store self.new.store)) }
        ensures crash { Survives (shown S.Store self.old.store) (shown S.Store self.new.store) (λ _. ⊥) }
        ensures others { self.new ≡ record self.old {
          store = self.new.store;
          waiting = min (self.old.waiting + count) (2 ^ 32 - 1);
        } }
    {
        self.waiting = self.waiting.saturating_add(count);
        self.store.add_record(kept)
    }

    /// Adds a whole file, whose records are kept.
    pub(crate) fn add_file(&mut self, id: u64, row: &FileRow) -> Result<(), Error>
        ensures changed { HasCleanDisk (shown S.Store self.new.store)
            → OnOk result (Changes (with_file id (file_of row.now)) (shown S.Store self.old.store)
            (shown S.Store self.new.store)) }
        ensures crash { Survives (shown S.Store self.old.store) (shown S.Store self.new.store) (λ _. ⊥) }
        ensures others { self.new ≡ record self.old { store = self.new.store; is_changed = true } }
    {
        self.is_changed = true;
        self.store.add_file(id, row)
    }

    /// Puts a row in the place of a whole file's.
    pub(crate) fn change_file(&mut self, id: u64, row: &FileRow) -> Result<(), Error>
        ensures changed { HasCleanDisk (shown S.Store self.new.store)
            → OnOk result (Changes (with_changed id (file_of row.now)) (shown S.Store self.old.store)
            (shown S.Store self.new.store)) }
        ensures crash { Survives (shown S.Store self.old.store) (shown S.Store self.new.store) (λ _. ⊥) }
        ensures others { self.new ≡ record self.old { store = self.new.store; is_changed = true } }
    {
        self.is_changed = true;
        self.store.change_file(id, row)
    }

    /// Takes the whole file of this row out. Its records stay.
    pub(crate) fn drop_file(&mut self, id: u64) -> Result<(), Error>
        ensures changed { HasCleanDisk (shown S.Store self.new.store)
            → OnOk result (Changes (without_file id) (shown S.Store self.old.store) (shown S.Store self.new.store)) }
        ensures crash { Survives (shown S.Store self.old.store) (shown S.Store self.new.store) (λ _. ⊥) }
        ensures others { self.new ≡ record self.old { store = self.new.store; is_changed = true } }
    {
        self.is_changed = true;
        self.store.drop_file(id)
    }

    /// Drops the rows that stand under this number at places from `first` on and before `end`.
    pub(crate) fn drop_records(&mut self, key: u32, first: u32, end: u32) -> Result<(), Error>
        requires places { (first ≤ end) × (end ≤ 2 ^ 23) }
        ensures changed { HasCleanDisk (shown S.Store self.new.store)
            → OnOk result (Changes (without_records key first end) (shown S.Store self.old.store)
            (shown S.Store self.new.store)) }
        ensures crash { Survives (shown S.Store self.old.store) (shown S.Store self.new.store) (λ _. ⊥) }
        ensures others { self.new ≡ record self.old {
          store = self.new.store;
          waiting = min (self.old.waiting + (end - first)) (2 ^ 32 - 1);
        } }
    {
        self.waiting = self.waiting.saturating_add(end - first);
        self.store.drop_records(key, first, end)?;
        Ok(())
    }

    /// No file's records stand under this number any more.
    pub(crate) fn free_key(&mut self, key: u32) -> Result<(), Error>
        ensures freed { OnOk result (self.new.free_keys.items ≡ self.old.free_keys.items ++ key ∷ []) }
        ensures others { self.new ≡ record self.old { free_keys = self.new.free_keys } }
    {
        self.free_keys.push(key)?;
        Ok(())
    }

    /// Commits what waits, if whole files changed or much waits.
    pub(crate) fn settle(&mut self) -> Result<(), Error>
        ensures waits { is_due self.old.is_changed self.old.waiting ≡ false → IsOk result × (self.new ≡ self.old) }
        ensures kept { is_due self.old.is_changed self.old.waiting ≡ true
            → HasCleanDisk (shown S.Store self.new.store) → OnOk result (Commits (shown S.Store self.old.store)
            (shown S.Store self.new.store)) }
        ensures others { is_due self.old.is_changed self.old.waiting ≡ true → OnOk result (self.new ≡
            record self.old { store = self.new.store; waiting = 0; is_changed = false }) }
        ensures few { OnOk result (self.new.waiting < 4096) }
        ensures rest { self.new ≡ record self.old {
          store = self.new.store;
          waiting = self.new.waiting;
          is_changed = self.new.is_changed;
        } }
        ensures crash { Survives (shown S.Store self.old.store) (shown S.Store self.new.store) (λ trees. trees ≡
            (shown S.Store self.old.store).now.trees) }
    {
        if !self.is_changed && self.waiting < WAITING {
            return Ok(());
        }
        self.commit()
    }

    /// Commits what waits.
    fn commit(&mut self) -> Result<(), Error>
        ensures kept { HasCleanDisk (shown S.Store self.new.store) → OnOk result (Commits
            (shown S.Store self.old.store) (shown S.Store self.new.store)) }
        ensures done { OnOk result ((self.new.waiting ≡ 0) × (self.new.is_changed ≡ false)) }
        ensures others { self.new ≡ record self.old {
          store = self.new.store;
          waiting = self.new.waiting;
          is_changed = self.new.is_changed;
        } }
        ensures crash { Survives (shown S.Store self.old.store) (shown S.Store self.new.store) (λ trees. trees ≡
            (shown S.Store self.old.store).now.trees) }
    {
        self.store.commit()?;
        self.is_changed = false;
        self.waiting = 0;
        Ok(())
    }

    /// The spool file.
    pub(crate) fn into_store(self) -> Store<S>
        ensures { result ≡ self.store }
    {
        let SpoolWriter {
            store,
            free_keys,
            ..
        } = self;
        drop(free_keys);
        store
    }

    /// No number is free.
    pub(crate) fn forget_numbers(&mut self)
        ensures none { self.new.free_keys.items ≡ [] }
        ensures others { self.new ≡ record self.old { free_keys = self.new.free_keys } }
    {
        self.free_keys.clear();
    }
}
