//! Which numbers are next and which are free when a spool file was opened.

ghost use Rattle.std.specs.Prelude.{◌≡◌, ◌<◌, ◌+◌, ◌-◌, ◌^◌, ◌++◌, ℕ, false, min, replicate, IfOk, OnOk};
ghost use Rattle.sqlite.specs.State.{HasCleanDisk, Survives};
ghost use Rattle.njh_spoolfile.specs.Kept.{without_records};
ghost use Rattle.njh_spoolfile.specs.Shelf.{shown};
ghost use Rattle.njh_spoolfile.specs.CommitState.{CommitState, Stands};
ghost use Rattle.njh_keeper.specs.code.Writing.{AreBelow, Drops, HoldChanged, LackUnused, ShowsNow, below};
ghost use Rattle.njh_keeper.specs.code.Writing.{emptied_at, free_at, id_behind, is_marked, key_behind, marked_by};
ghost use Rattle.njh_keeper.specs.code.Writing.{shows_kept, unmarked, without_keys};

use crate::writer::{PLACES, SpoolWriter};
use njh_spoolfile::{GREATEST_ID, StoredFile};
use sqlite::{Alter, Error};
use std::alloc::{AllocError, Global};

/// Up to which number those are looked for that no file's records stand under, when a spool file is
/// opened.
const LOOKED_FOR: u32 = 200_000;

/// How many numbers after those of files are emptied then.
const MARGIN: u32 = 64;

impl<S: Alter + Drop> SpoolWriter<S> {
    /// Begins after the numbers of these files, which are all. What stands under numbers of no
    /// file is dropped, as far as it is looked for, with a commit each time that many rows were.
    pub(crate) fn begin_numbers(&mut self, files: &[StoredFile]) -> Result<(), Error>
        ensures begun { HasCleanDisk (shown S.Store self.new.store) → OnOk result ((s : CommitState)
            → Stands s (shown S.Store self.old.store) → Stands (shows_kept (without_keys (emptied_at files.now
            (key_behind self.old.next_key files.now))) s) (shown S.Store self.new.store)) }
        ensures numbers { OnOk result ((self.new.next_id ≡ id_behind self.old.next_id files.now)
            × (self.new.next_key ≡ key_behind self.old.next_key files.now)
            × (self.new.free_keys.items ≡ self.old.free_keys.items ++ free_at files.now self.new.next_key)
            × (self.new.waiting ≡ 0) × (self.new.is_changed ≡ false)) }
        ensures others { self.new.now ≡ self.old.now }
        ensures crash { Survives (shown S.Store self.old.store) (shown S.Store self.new.store)
            (LackUnused files.now (shown S.Store self.old.store)) }
    {
        self.go_behind(files);
        self.empty_others(files)?;
        self.commit()
    }

    /// The next numbers are after those of these files.
    fn go_behind(&mut self, files: &[StoredFile])
        ensures { self.new ≡ record self.old {
          next_id = id_behind self.old.next_id files.now;
          next_key = key_behind self.old.next_key files.now;
        } }
    {
        for stored in files {
            self.next_id = self.next_id.max(id_after(stored.id));
            self.next_key = self.next_key.max(stored.file.key.saturating_add(1));
        }
    }

    /// Drops what stands under numbers of none of these files, as far as it is looked for.
    fn empty_others(&mut self, files: &[StoredFile]) -> Result<(), Error>
        requires below { AreBelow files.now self.old.next_key }
        ensures emptied { HasCleanDisk (shown S.Store self.new.store) → OnOk result ((s : CommitState)
            → Stands s (shown S.Store self.old.store) → ShowsNow (without_keys (emptied_at files.now
            self.old.next_key)) s (shown S.Store self.new.store)) }
        ensures free { OnOk result (self.new.free_keys.items
            ≡ self.old.free_keys.items ++ free_at files.now self.old.next_key) }
        ensures others { self.new ≡ record self.old {
          store = self.new.store;
          free_keys = self.new.free_keys;
          waiting = self.new.waiting;
          is_changed = self.new.is_changed;
        } }
        ensures crash { Survives (shown S.Store self.old.store) (shown S.Store self.new.store)
            (LackUnused files.now (shown S.Store self.old.store)) }
    {
        if self.next_key > LOOKED_FOR {
            return Ok(());
        }
        let marks = marks_of(self.alloc, files)?;
        let emptied = self.empty_unmarked(&marks);
        drop(marks);
        emptied
    }

    /// Drops what stands under numbers without a mark, up to a few after those of files.
    fn empty_unmarked(&mut self, marks: &[bool]) -> Result<(), Error>
        ensures emptied { HasCleanDisk (shown S.Store self.new.store) → OnOk result ((s : CommitState)
            → Stands s (shown S.Store self.old.store) → ShowsNow (without_keys (unmarked marks.now
            (min (self.old.next_key + 64) (2 ^ 32 - 1)))) s (shown S.Store self.new.store)) }
        ensures free { OnOk result (self.new.free_keys.items
            ≡ self.old.free_keys.items ++ unmarked marks.now self.old.next_key) }
        ensures others { self.new ≡ record self.old {
          store = self.new.store;
          free_keys = self.new.free_keys;
          waiting = self.new.waiting;
          is_changed = self.new.is_changed;
        } }
        ensures crash { Survives (shown S.Store self.old.store) (shown S.Store self.new.store)
            (λ trees. (n : ℕ) × HoldChanged (without_keys (unmarked marks.now n)) (shown S.Store self.old.store)
            trees) }
    {
        for key in 0..self.next_key.saturating_add(MARGIN) {
            if !is_marked(marks, key) {
                self.empty_key(key)?;
            }
        }
        Ok(())
    }

    /// Drops what stands under a number of no file. One that was taken before is free again.
    fn empty_key(&mut self, key: u32) -> Result<(), Error>
        ensures emptied { HasCleanDisk (shown S.Store self.new.store) → OnOk result ((s : CommitState)
            → Stands s (shown S.Store self.old.store) → Drops (without_records key 0 (2 ^ 23)) self.old.waiting
            self.new.waiting s (shown S.Store self.new.store)) }
        ensures free { OnOk result (self.new.free_keys.items
            ≡ self.old.free_keys.items ++ below self.old.next_key key) }
        ensures crash { Survives (shown S.Store self.old.store) (shown S.Store self.new.store)
            (HoldChanged (without_records key 0 (2 ^ 23)) (shown S.Store self.old.store)) }
        ensures others { self.new ≡ record self.old {
          store = self.new.store;
          free_keys = self.new.free_keys;
          waiting = self.new.waiting;
          is_changed = self.new.is_changed;
        } }
    {
        self.drop_key(key)?;
        if key < self.next_key {
            self.free_keys.push(key)?;
        }
        Ok(())
    }

    /// Drops what stands under a number, and commits if many rows were dropped since the last
    /// commit.
    fn drop_key(&mut self, key: u32) -> Result<(), Error>
        ensures dropped { HasCleanDisk (shown S.Store self.new.store) → OnOk result ((s : CommitState)
            → Stands s (shown S.Store self.old.store) → Drops (without_records key 0 (2 ^ 23)) self.old.waiting
            self.new.waiting s (shown S.Store self.new.store)) }
        ensures few { OnOk result (self.new.waiting < 4096) }
        ensures crash { Survives (shown S.Store self.old.store) (shown S.Store self.new.store)
            (HoldChanged (without_records key 0 (2 ^ 23)) (shown S.Store self.old.store)) }
        ensures others { self.new ≡ record self.old {
          store = self.new.store;
          waiting = self.new.waiting;
          is_changed = self.new.is_changed;
        } }
    {
        let dropped = self.store.drop_records(key, 0, PLACES)?;
        self.waiting = with_dropped(self.waiting, dropped);
        self.settle()
    }
}

/// The number after this one of a row; after the greatest comes none.
fn id_after(id: u64) -> u64
    ensures { result ≡ min (id + 1) (2 ^ 63 - 1) }
{
    id.saturating_add(1).min(GREATEST_ID)
}

/// How much waits for a commit once so many rows more were dropped.
fn with_dropped(waiting: u32, dropped: usize) -> u32
    ensures { result ≡ min (waiting + dropped) (2 ^ 32 - 1) }
{
    waiting.saturating_add(u32::try_from(dropped).unwrap_or(u32::MAX))
}

/// Whether a number has a mark.
fn is_marked(marks: &[bool], key: u32) -> bool
    ensures { result ≡ is_marked marks.now key }
{
    (key as usize) < marks.len() && marks[key as usize]
}

/// A mark for each number that files' records stand under, of those that are looked for.
fn marks_of(alloc: Global, files: &[StoredFile]) -> Result<Vec<bool>, AllocError>
    ensures { IfOk result (λ marks. marks.items ≡ marked_by (replicate 200000 false) files.now) }
{
    let mut marks = vec![in alloc; false; LOOKED_FOR as usize]?;
    mark_keys(&mut marks, files);
    Ok(marks)
}

/// Marks the numbers that files' records stand under.
fn mark_keys(marks: &mut [bool], files: &[StoredFile])
    ensures { marks.new ≡ marked_by marks.old files.now }
{
    for stored in files {
        let key = stored.file.key as usize;
        if key < marks.len() {
            marks[key] = true;
        }
    }
}
