//! A spool that outlives the program.

ghost use Rattle.std.specs.Prelude.{◌≡◌, ◌<◌, ◌≤◌, ◌^◌, true, false, length, map, IfOk, IsTrue, OnOk, OnErr};
ghost use Rattle.std.specs.Prelude.{IfErr};
ghost use Rattle.sqlite.specs.State.{HasCleanDisk, Survives};
ghost use Rattle.sqlite.specs.Held.{state};
ghost use Rattle.sqlite.specs.Files.{file_state};
ghost use Rattle.sqlite.specs.State.{store_error};
ghost use Rattle.sqlite.specs.WalReads.{AreClean};
ghost use Rattle.sqlite_trees.specs.View.{IsClean};
ghost use Rattle.njh_spoolfile.specs.Kept.{SpoolContents, Holds, file_of, record_of, with_file, with_changed};
ghost use Rattle.njh_spoolfile.specs.Kept.{with_record};
ghost use Rattle.njh_spoolfile.specs.Kept.{without_file, without_records, as_stands, entry_of, contents_in};
ghost use Rattle.njh_spoolfile.specs.Kept.{contents_of, is_marked, records_between};
ghost use Rattle.njh_spoolfile.specs.Origin.{StandsAlone};
ghost use Rattle.njh_spoolfile.specs.Shelf.{shown, IsUsable};
ghost use Rattle.njh_spoolfile.specs.Steps.{Begins, Changes, Commits, IsWriting, Stays};
ghost use Rattle.njh_spoolfile.specs.Tables.{spool_schema};

use crate::kept::{FileRow, RecordRow, StoredFile, StoredRecord};
use crate::{reads, statements, versions};
use sqlite::{Alter, Connection, Error, ErrorCode, FileStore, Files};
use sqlite_disk::Disk;
use std::alloc::Global;
use std::marker::Model;

/// A spool file that is open. After a call that failed each further one fails: open the file again.
pub struct Store<S: Alter> {
    conn: Connection<S>,
    failed: bool,
}

impl<S: Alter> Model for Store<S> {
    ghost use Rattle.njh_spoolfile.specs.Shelf.{Shelf, shelf_code, IsSafe};

    ghost Value = { Shelf S };

    ghost coded = { shelf_code S.code };

    ghost view = { λ s. record { conn = s.conn; failed = s.failed } };

    ghost invariant = { λ s. IsSafe S.Store s.conn s.failed };
}

// It is written out, so that a caller does not prove again how each part is dropped.
impl<S: Alter + Drop> Drop for Store<S> {
    fn drop(self) {
        let Store { conn: _, failed: _ } = self;
    }
}

impl<S: Alter + Drop> Store<S> {
    /// Stops as a program that is killed does: what waited is gone, and the files aren't closed.
    pub fn stop(self) -> S
        ensures { IsClean (S.Store.view result) → IsTrue (S.Store.view self.conn.store).is_numbered }
    {
        self.into_conn().into_store()
    }
}

impl<D: Disk + Drop> Store<FileStore<D>> {
    /// Copies the log into the spool file and gives both back, to be dropped. What was committed is
    /// in the spool file without its log then; what waited is gone. After an `Err` what was
    /// committed is in the two together, as it was before.
    pub fn close(self) -> Result<Files<D>, Error>
        ensures alone { IfOk result (λ files. AreClean D.Disk files.log files.db → (spool : SpoolContents)
            → Holds spool (file_state self.conn).committed.trees → StandsAlone D.Disk files spool) }
        ensures fault { IfErr result (λ error. (cause : _) × (error ≡ store_error cause)) }
    {
        let Store { conn, failed: _ } = self;
        match conn.close_files() {
            Ok(files) => Ok(files),
            Err((error, store)) => {
                drop(store.close());
                Err(error)
            }
        }
    }
}

/// Begins a transaction where none is open.
fn begin<S: Alter>(conn: &mut Connection<S>) -> Result<(), Error>
    requires usable { HasCleanDisk (state S.Store conn.old) → IsUsable (state S.Store conn.old) }
    ensures begun { HasCleanDisk (state S.Store conn.new) → OnOk result (Begins (state S.Store conn.old)
        (state S.Store conn.new)) }
    ensures crash { Survives (state S.Store conn.old) (state S.Store conn.new) (λ _. ⊥) }
{
    if conn.is_autocommit() {
        statements::begin(conn)?;
    }
    Ok(())
}

/// Puts a row in the place of the one of this number.
fn replace_file<S: Alter>(conn: &mut Connection<S>, id: u64, file: &FileRow) -> Result<(), Error>
    requires ready { IsWriting spool_schema (state S.Store conn.old) }
    ensures changed { HasCleanDisk (state S.Store conn.new)
        → OnOk result (Changes (with_changed id (file_of file.now)) (state S.Store conn.old) (state S.Store conn.new)) }
    ensures crash { Survives (state S.Store conn.old) (state S.Store conn.new) (λ _. ⊥) }
{
    statements::delete_file(conn, id)?;
    statements::insert_file(conn, id, file)
}

fn commit<S: Alter>(conn: &mut Connection<S>) -> Result<(), Error>
    requires usable { HasCleanDisk (state S.Store conn.old) → IsUsable (state S.Store conn.old) }
    ensures kept { HasCleanDisk (state S.Store conn.new) → OnOk result (Commits (state S.Store conn.old)
        (state S.Store conn.new)) }
    ensures crash { Survives (state S.Store conn.old) (state S.Store conn.new) (λ trees. trees ≡
        (state S.Store conn.old).now.trees) }
{
    if conn.is_autocommit() {
        return Ok(());
    }
    statements::commit(conn)
}

fn closed() -> Error {
    Error::SqliteFailure(ErrorCode::Closed)
}

impl<S: Alter> Store<S> {
    /// A spool over a connection that has a spool's tables.
    pub(crate) fn over(conn: Connection<S>) -> Store<S>
        requires { HasCleanDisk (state S.Store conn) → IsUsable (state S.Store conn) }
        ensures { (result.conn ≡ conn) × (result.failed ≡ false) }
    {
        Store {
            conn,
            failed: false,
        }
    }

    /// The connection.
    pub(crate) fn into_conn(self) -> Connection<S>
        ensures { result ≡ self.conn }
    {
        let Store { conn, failed: _ } = self;
        conn
    }

    /// Before a change: begins a transaction where none is open.
    fn begin(&mut self) -> Result<(), Error>
        ensures begun { HasCleanDisk (shown S.Store self.new) → OnOk result (Begins (shown S.Store self.old)
            (shown S.Store self.new)) }
        ensures crash { Survives (shown S.Store self.old) (shown S.Store self.new) (λ _. ⊥) }
        ensures failed { OnErr result (self.new.failed ≡ true) }
        ensures works { OnOk result ((self.old.failed ≡ false) × (self.new.failed ≡ false)) }
    {
        if self.failed {
            return Err(closed());
        }
        let done = begin(&mut self.conn);
        self.failed = done.is_err();
        done
    }

    /// Adds a whole file under this number, in the order of arrival. There are none from 2^63 on.
    pub fn add_file(&mut self, id: u64, file: &FileRow) -> Result<(), Error>
        ensures changed { HasCleanDisk (shown S.Store self.new)
            → OnOk result (Changes (with_file id (file_of file.now)) (shown S.Store self.old)
            (shown S.Store self.new)) }
        ensures crash { Survives (shown S.Store self.old) (shown S.Store self.new) (λ _. ⊥) }
        ensures failed { OnErr result (self.new.failed ≡ true) }
        ensures works { OnOk result ((self.old.failed ≡ false) × (self.new.failed ≡ false)) }
    {
        self.begin()?;
        let done = statements::insert_file(&mut self.conn, id, file);
        self.failed = done.is_err();
        done
    }

    /// Puts a file in the place of the one of this number, as where it is held, released or sent
    /// elsewhere.
    pub fn change_file(&mut self, id: u64, file: &FileRow) -> Result<(), Error>
        ensures changed { HasCleanDisk (shown S.Store self.new)
            → OnOk result (Changes (with_changed id (file_of file.now)) (shown S.Store self.old)
            (shown S.Store self.new)) }
        ensures crash { Survives (shown S.Store self.old) (shown S.Store self.new) (λ _. ⊥) }
        ensures failed { OnErr result (self.new.failed ≡ true) }
        ensures works { OnOk result ((self.old.failed ≡ false) × (self.new.failed ≡ false)) }
    {
        self.begin()?;
        let done = replace_file(&mut self.conn, id, file);
        self.failed = done.is_err();
        done
    }

    /// Adds a row of records of a file, which needn't be whole yet.
    pub fn add_record(&mut self, kept: &RecordRow<'_>) -> Result<(), Error>
        requires place { kept.now.place < 2 ^ 23 }
        ensures changed { HasCleanDisk (shown S.Store self.new)
            → OnOk result (Changes (with_record (record_of kept.now)) (shown S.Store self.old)
            (shown S.Store self.new)) }
        ensures crash { Survives (shown S.Store self.old) (shown S.Store self.new) (λ _. ⊥) }
        ensures failed { OnErr result (self.new.failed ≡ true) }
        ensures works { OnOk result ((self.old.failed ≡ false) × (self.new.failed ≡ false)) }
    {
        self.begin()?;
        let done = statements::insert_record(&mut self.conn, kept);
        self.failed = done.is_err();
        done
    }

    /// Takes the whole file of this number out. Its records stay, and are dropped later.
    pub fn drop_file(&mut self, id: u64) -> Result<(), Error>
        ensures changed { HasCleanDisk (shown S.Store self.new)
            → OnOk result (Changes (without_file id) (shown S.Store self.old) (shown S.Store self.new)) }
        ensures crash { Survives (shown S.Store self.old) (shown S.Store self.new) (λ _. ⊥) }
        ensures failed { OnErr result (self.new.failed ≡ true) }
        ensures works { OnOk result ((self.old.failed ≡ false) × (self.new.failed ≡ false)) }
    {
        self.begin()?;
        let done = statements::delete_file(&mut self.conn, id);
        self.failed = done.is_err();
        done
    }

    /// Drops the rows of records of the file of this key at places from `first` on and before `end`,
    /// and says how many.
    pub fn drop_records(&mut self, key: u32, first: u32, end: u32) -> Result<usize, Error>
        requires places { (first ≤ 2 ^ 23) × (end ≤ 2 ^ 23) }
        ensures changed { HasCleanDisk (shown S.Store self.new)
            → OnOk result (Changes (without_records key first end) (shown S.Store self.old) (shown S.Store self.new)) }
        ensures counted { HasCleanDisk (shown S.Store self.new) → IfOk result (λ count. (spool : SpoolContents)
            → Holds spool (shown S.Store self.old).now.trees → count ≡ length (records_between key first end spool)) }
        ensures crash { Survives (shown S.Store self.old) (shown S.Store self.new) (λ _. ⊥) }
        ensures failed { OnErr result (self.new.failed ≡ true) }
        ensures works { OnOk result ((self.old.failed ≡ false) × (self.new.failed ≡ false)) }
    {
        self.begin()?;
        let done = statements::delete_records(&mut self.conn, key, first, end);
        self.failed = done.is_err();
        done
    }

    /// Whether the spool file has the mark that a log belongs to it.
    pub(crate) fn is_marked(&mut self) -> Result<bool, Error>
        ensures marked { HasCleanDisk (shown S.Store self.new) → IfOk result (λ marked. marked
            ≡ is_marked (shown S.Store self.old).now.trees) }
        ensures same { HasCleanDisk (shown S.Store self.new) → OnOk result (Stays (shown S.Store self.old)
            (shown S.Store self.new)) }
        ensures crash { Survives (shown S.Store self.old) (shown S.Store self.new) (λ _. ⊥) }
        ensures failed { OnErr result (self.new.failed ≡ true) }
        ensures works { OnOk result ((self.old.failed ≡ false) × (self.new.failed ≡ false)) }
    {
        if self.failed {
            return Err(closed());
        }
        let marked = versions::is_marked(&mut self.conn);
        self.failed = marked.is_err();
        marked
    }

    /// Sets that mark, which the spool file hasn't yet; it waits for the commit.
    pub(crate) fn mark(&mut self) -> Result<(), Error>
        ensures changed { HasCleanDisk (shown S.Store self.new) → OnOk result (Changes (λ spool. spool)
            (shown S.Store self.old) (shown S.Store self.new)) }
        ensures marked { HasCleanDisk (shown S.Store self.new) → OnOk result ((spool : SpoolContents)
            → Holds spool (shown S.Store self.old).now.trees → is_marked (shown S.Store self.new).now.trees ≡ true) }
        ensures crash { Survives (shown S.Store self.old) (shown S.Store self.new) (λ _. ⊥) }
        ensures failed { OnErr result (self.new.failed ≡ true) }
        ensures works { OnOk result ((self.old.failed ≡ false) × (self.new.failed ≡ false)) }
    {
        self.begin()?;
        let done = statements::insert_mark(&mut self.conn);
        self.failed = done.is_err();
        done
    }

    /// Takes that mark away, if the spool file has it; that waits for the commit.
    pub(crate) fn unmark(&mut self) -> Result<(), Error>
        ensures changed { HasCleanDisk (shown S.Store self.new) → OnOk result (Changes (λ spool. spool)
            (shown S.Store self.old) (shown S.Store self.new)) }
        ensures unmarked { HasCleanDisk (shown S.Store self.new) → OnOk result ((spool : SpoolContents)
            → Holds spool (shown S.Store self.old).now.trees → is_marked (shown S.Store self.new).now.trees ≡ false) }
        ensures crash { Survives (shown S.Store self.old) (shown S.Store self.new) (λ _. ⊥) }
        ensures failed { OnErr result (self.new.failed ≡ true) }
        ensures works { OnOk result ((self.old.failed ≡ false) × (self.new.failed ≡ false)) }
    {
        self.begin()?;
        let done = statements::delete_mark(&mut self.conn);
        self.failed = done.is_err();
        done
    }

    /// Keeps what waits. At `Ok` a crash leaves it, and at `Err` what was kept before, or it.
    pub fn commit(&mut self) -> Result<(), Error>
        ensures kept { HasCleanDisk (shown S.Store self.new) → OnOk result (Commits (shown S.Store self.old)
            (shown S.Store self.new)) }
        ensures crash { Survives (shown S.Store self.old) (shown S.Store self.new) (λ trees. trees ≡
            (shown S.Store self.old).now.trees) }
        ensures failed { OnErr result (self.new.failed ≡ true) }
        ensures works { OnOk result ((self.old.failed ≡ false) × (self.new.failed ≡ false)) }
    {
        if self.failed {
            return Err(closed());
        }
        let done = commit(&mut self.conn);
        self.failed = done.is_err();
        done
    }

    /// All whole files without their records, in the order of arrival.
    pub fn files(&mut self, alloc: Global) -> Result<Vec<StoredFile>, Error>
        ensures files { HasCleanDisk (shown S.Store self.new) → IfOk result (λ stored. (spool : SpoolContents)
            → Holds spool (shown S.Store self.old).now.trees → map entry_of stored.items ≡ spool.files) }
        ensures same { HasCleanDisk (shown S.Store self.new) → OnOk result (Stays (shown S.Store self.old)
            (shown S.Store self.new)) }
        ensures crash { Survives (shown S.Store self.old) (shown S.Store self.new) (λ _. ⊥) }
        ensures failed { OnErr result (self.new.failed ≡ true) }
        ensures works { OnOk result ((self.old.failed ≡ false) × (self.new.failed ≡ false)) }
    {
        if self.failed {
            return Err(closed());
        }
        let stored = reads::files(alloc, &mut self.conn);
        self.failed = stored.is_err();
        stored
    }

    /// The records of the file of this key in rows at places from `first` on and before `end`, in
    /// their order.
    pub fn records(
        &mut self,
        alloc: Global,
        key: u32,
        first: u32,
        end: u32,
    ) -> Result<Vec<StoredRecord>, Error>
        requires places { (first ≤ 2 ^ 23) × (end ≤ 2 ^ 23) }
        ensures records { HasCleanDisk (shown S.Store self.new) → IfOk result (λ stored. (spool : SpoolContents)
            → Holds spool (shown S.Store self.old).now.trees → map contents_of stored.items
            ≡ contents_in (records_between key first end spool)) }
        ensures same { HasCleanDisk (shown S.Store self.new) → OnOk result (Stays (shown S.Store self.old)
            (shown S.Store self.new)) }
        ensures crash { Survives (shown S.Store self.old) (shown S.Store self.new) (λ _. ⊥) }
        ensures failed { OnErr result (self.new.failed ≡ true) }
        ensures works { OnOk result ((self.old.failed ≡ false) × (self.new.failed ≡ false)) }
    {
        if self.failed {
            return Err(closed());
        }
        let stored = reads::records(alloc, &mut self.conn, key, first, end);
        self.failed = stored.is_err();
        stored
    }

    /// Those rows as they stand.
    pub(crate) fn rows(
        &mut self,
        alloc: Global,
        key: u32,
        first: u32,
        end: u32,
    ) -> Result<Vec<StoredRecord>, Error>
        requires places { (first ≤ 2 ^ 23) × (end ≤ 2 ^ 23) }
        ensures rows { HasCleanDisk (shown S.Store self.new) → IfOk result (λ stored. (spool : SpoolContents)
            → Holds spool (shown S.Store self.old).now.trees → map contents_of stored.items
            ≡ map as_stands (records_between key first end spool)) }
        ensures same { HasCleanDisk (shown S.Store self.new) → OnOk result (Stays (shown S.Store self.old)
            (shown S.Store self.new)) }
        ensures crash { Survives (shown S.Store self.old) (shown S.Store self.new) (λ _. ⊥) }
        ensures failed { OnErr result (self.new.failed ≡ true) }
        ensures works { OnOk result ((self.old.failed ≡ false) × (self.new.failed ≡ false)) }
    {
        if self.failed {
            return Err(closed());
        }
        let stored = reads::rows(alloc, &mut self.conn, key, first, end);
        self.failed = stored.is_err();
        stored
    }
}
