//! What becomes of a database that is opened as a spool.

ghost use Rattle.std.specs.Prelude.{◌≡◌, ◌↔◌, ◌⊎◌, IsTrue, IfOk, IfErr, OnOk};
ghost use Rattle.sqlite.specs.State.{HasCleanDisk, IsLive, Opens, Survives};
ghost use Rattle.sqlite.specs.Held.{state};
ghost use Rattle.njh_spoolfile.specs.Kept.{HoldsAs, IsOf, SpoolContents};
ghost use Rattle.njh_spoolfile.specs.Tables.{spool_schema};
ghost use Rattle.njh_spoolfile.specs.Steps.{Becomes, IsIdle, Stays};
ghost use Rattle.njh_spoolfile.specs.declared.versions.Version.{Version};

use crate::making::{make, take_over};
use crate::tables::{is_empty, is_spool};
use crate::versions::{Version, version_of};
use sqlite::{Alter, Connection, Error};
use std::alloc::Global;

/// Why a file isn't opened as a spool.
#[derive(Clone, Copy, Debug, PartialEq, Eq)]
pub enum OpenFault {
    /// The database can't be opened or read, and why.
    Database(Error),
    /// It is a database with other tables than a spool's.
    NotASpool,
    /// It is a spool of another version.
    OtherVersion,
}

impl From<Error> for OpenFault {
    ghost use Rattle.std.specs.Prelude.{◌≡◌};
    ghost use Rattle.njh_spoolfile.specs.declared.opening.OpenFault.TheVariants.{Database};

    ghost from_gives = { λ error fault. fault ≡ Database error };

    fn from(error: Error) -> OpenFault {
        OpenFault::Database(error)
    }
}

fn test_tables<S: Alter>(alloc: Global, conn: &Connection<S>) -> Result<bool, Error>
    ensures live { IsLive (state S.Store conn.now) }
    ensures same { IfOk result (λ same. IsTrue same ↔ ((state S.Store conn.now).now.schema ≡ spool_schema)) }
{
    Ok(is_spool(alloc, conn.schema())?)
}

/// Refuses tables that aren't a spool's, and a spool of a version that isn't read here.
fn recognise<S: Alter>(alloc: Global, conn: &mut Connection<S>) -> Result<Version, OpenFault>
    requires fresh { HasCleanDisk (state S.Store conn.old) → Opens (state S.Store conn.old) }
    ensures ready { HasCleanDisk (state S.Store conn.new) → OnOk result (IsIdle (state S.Store conn.new)) }
    ensures same { HasCleanDisk (state S.Store conn.new) → OnOk result (Stays (state S.Store conn.old)
        (state S.Store conn.new)) }
    ensures version { HasCleanDisk (state S.Store conn.new) → IfOk result (λ version. IsOf version
        ((state S.Store conn.old).now.trees 0)) }
    ensures refused { HasCleanDisk (state S.Store conn.new) → IfErr result (λ fault. (fault ≡ OpenFault.NotASpool)
        ⊎ (fault ≡ OpenFault.OtherVersion) → (version : Version) (spool : SpoolContents)
        → ¬ HoldsAs version spool (state S.Store conn.old).now.trees) }
    ensures crash { Survives (state S.Store conn.old) (state S.Store conn.new) (λ _. ⊥) }
{
    if !test_tables(alloc, conn)? {
        return Err(OpenFault::NotASpool);
    }
    match version_of(conn)? {
        Some(version) => Ok(version),
        None => Err(OpenFault::OtherVersion),
    }
}

/// Makes the tables where the database has nothing yet, and else recognises a spool, and takes one
/// of an older version over.
pub(crate) fn prepare<S: Alter>(alloc: Global, conn: &mut Connection<S>) -> Result<(), OpenFault>
    requires fresh { HasCleanDisk (state S.Store conn.old) → Opens (state S.Store conn.old) }
    ensures ready { HasCleanDisk (state S.Store conn.new) → OnOk result (IsIdle (state S.Store conn.new)) }
    ensures outcome { HasCleanDisk (state S.Store conn.new) → OnOk result ((Stays (state S.Store conn.old)
        (state S.Store conn.new) × IsOf Version.Current ((state S.Store conn.old).now.trees 0))
        ⊎ Becomes (state S.Store conn.old) (state S.Store conn.new).now.trees) }
    ensures refused { HasCleanDisk (state S.Store conn.new) → IfErr result (λ fault. (fault ≡ OpenFault.NotASpool)
        ⊎ (fault ≡ OpenFault.OtherVersion) → (version : Version) (spool : SpoolContents)
        → ¬ HoldsAs version spool (state S.Store conn.old).now.trees) }
    ensures crash { Survives (state S.Store conn.old) (state S.Store conn.new) (Becomes (state S.Store conn.old)) }
{
    if is_empty(conn.schema()) {
        make(conn)?;
        return Ok(());
    }
    match recognise(alloc, conn)? {
        Version::Current => Ok(()),
        Version::Older => {
            take_over(conn)?;
            Ok(())
        }
    }
}
