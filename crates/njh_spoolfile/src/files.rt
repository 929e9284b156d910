//! A spool file is opened on a disk.

ghost use Rattle.std.specs.Prelude.{◌≡◌, false, IfOk};
ghost use Rattle.sqlite.specs.State.{HasCleanDisk, IsLive, Opens};
ghost use Rattle.sqlite.specs.Held.{state};
ghost use Rattle.sqlite.specs.Files.{file_state, IsOpened};
ghost use Rattle.sqlite.specs.Start.{FindsIn};
ghost use Rattle.sqlite.specs.WalFiles.{image_at};
ghost use Rattle.sqlite.specs.Recovery.{Image};
ghost use Rattle.njh_spoolfile.specs.Reopened.{BecomesSpool, OpensFrom};
ghost use Rattle.njh_spoolfile.specs.Origin.{IsFoundIn};
ghost use Rattle.njh_spoolfile.specs.Kept.{SpoolContents};
ghost use Rattle.njh_spoolfile.specs.CommitState.{Stands};
ghost use Rattle.njh_spoolfile.specs.Shelf.{shown};
ghost use Rattle.njh_spoolfile.specs.Steps.{IsIdle};

use crate::opening::{OpenFault, prepare};
use crate::store::Store;
use sqlite::{Alter, Connection, Error, FileFrom, FileStore, Start};
use sqlite_disk::Disk;
use std::alloc::Global;
use std::rt::HostRuntime;

/// Connects to the database at the path, or makes it, with a sum on each page.
fn connect<S: Start>(
    rt: &HostRuntime,
    path: &str,
    start: S,
) -> Result<Connection<FileStore<FileFrom<S>>>, Error>
    ensures opened { IfOk result (λ conn. HasCleanDisk (file_state conn) → IsOpened conn) }
    ensures found { IfOk result (λ conn. HasCleanDisk (file_state conn)
        → FindsIn (image_at S.Start) (file_state conn)) }
{
    match Connection::open_from(rt, path, true, start) {
        Ok(conn) => Ok(conn),
        Err((error, _)) => Err(error),
    }
}

/// The spool of a database that was just opened.
fn spool_of<S: Alter + Drop>(alloc: Global, conn: Connection<S>) -> Result<Store<S>, OpenFault>
    requires fresh { HasCleanDisk (state S.Store conn) → Opens (state S.Store conn) }
    ensures becomes { IfOk result (λ store. BecomesSpool (state S.Store conn) (shown S.Store store)) }
    ensures works { IfOk result (λ store. store.failed ≡ false) }
{
    let mut conn = conn;
    prepare(alloc, &mut conn)?;
    let _schema = conn.schema();
    Ok(Store::over(conn))
}

/// The spool of a database that was opened, where it was. It names no type of a store, since each
/// call that does so and asks for `Alter` is proved at the price of all that the type's calls
/// promise.
fn opened<S: Alter + Drop>(
    alloc: Global,
    conn: Result<Connection<S>, Error>,
) -> Result<Store<S>, OpenFault>
    requires opened { IfOk conn (λ conn. HasCleanDisk (state S.Store conn)
        → Opens (state S.Store conn) × IsLive (state S.Store conn)) }
    ensures opened { (image : Image) → IfOk conn (λ conn. HasCleanDisk (state S.Store conn)
        → FindsIn image (state S.Store conn)) → IfOk result (λ store. HasCleanDisk (shown S.Store store)
        → OpensFrom image (shown S.Store store).now.trees) }
    ensures idle { IfOk result (λ store. HasCleanDisk (shown S.Store store) → IsIdle (shown S.Store store)) }
    ensures stands { (image : Image) → IfOk conn (λ conn. HasCleanDisk (state S.Store conn)
        → FindsIn image (state S.Store conn)) → IfOk result (λ store. HasCleanDisk (shown S.Store store)
        → (spool : SpoolContents) → IsFoundIn image spool
        → Stands (record { now = spool; kept = spool }) (shown S.Store store)) }
    ensures works { IfOk result (λ store. store.failed ≡ false) }
{
    let conn = conn?;
    spool_of(alloc, conn)
}

impl<S: Start> Store<FileStore<FileFrom<S>>> {
    /// Opens the spool file at the path, or makes it, with a sum on each page. `Database` says why
    /// the file can't be opened: `CannotOpen`, `DatabaseBusy` where another program has it,
    /// `NotADatabase` or `DatabaseCorrupt` where it is damaged.
    pub fn open(
        rt: &HostRuntime,
        path: &str,
        start: S,
    ) -> Result<Store<FileStore<FileFrom<S>>>, OpenFault>
        ensures opened { IfOk result (λ store. HasCleanDisk (file_state store.conn)
            → OpensFrom (image_at S.Start) (file_state store.conn).now.trees) }
        ensures idle { IfOk result (λ store. HasCleanDisk (file_state store.conn) → IsIdle (file_state store.conn)) }
        ensures stands { IfOk result (λ store. HasCleanDisk (file_state store.conn) → (spool : SpoolContents)
            → IsFoundIn (image_at S.Start) spool
            → Stands (record { now = spool; kept = spool }) (file_state store.conn)) }
        ensures works { IfOk result (λ store. store.failed ≡ false) }
    {
        opened(rt.alloc(), connect(rt, path, start))
    }
}
