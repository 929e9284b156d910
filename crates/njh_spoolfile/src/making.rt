//! The tables of a new spool.

ghost use Rattle.std.specs.Prelude.{◌≡◌, OnOk};
ghost use Rattle.sqlite.specs.State.{HasCleanDisk, Survives};
ghost use Rattle.sqlite.specs.Held.{state};
ghost use Rattle.njh_spoolfile.specs.Kept.{Holds, no_files};
ghost use Rattle.njh_spoolfile.specs.Tables.{no_tables, one_table, two_tables, spool_schema};
ghost use Rattle.njh_spoolfile.specs.Steps.{IsReady, IsWriting, IsIdle, Makes, MakesAll, Sets, SetsVersion};
ghost use Rattle.njh_spoolfile.specs.Steps.{StartsEmpty};

use crate::statements::{begin, commit};
use sqlite::{Alter, Connection, Error};

fn create_spool<S: Alter>(conn: &mut Connection<S>) -> Result<(), Error>
    requires ready { IsWriting no_tables (state S.Store conn.old) }
    ensures made { HasCleanDisk (state S.Store conn.new) → OnOk result (Makes one_table 0
        (state S.Store conn.old) (state S.Store conn.new)) }
    ensures crash { Survives (state S.Store conn.old) (state S.Store conn.new) (λ _. ⊥) }
{
    let _ = conn.execute(
        "CREATE TABLE spool (version INTEGER PRIMARY KEY) STRICT",
        &[],
    )?;
    Ok(())
}

fn create_files<S: Alter>(conn: &mut Connection<S>) -> Result<(), Error>
    requires ready { IsWriting one_table (state S.Store conn.old) }
    ensures made { HasCleanDisk (state S.Store conn.new) → OnOk result (Makes two_tables 1
        (state S.Store conn.old) (state S.Store conn.new)) }
    ensures crash { Survives (state S.Store conn.old) (state S.Store conn.new) (λ _. ⊥) }
{
    let _ = conn.execute(
        "CREATE TABLE files (id INTEGER PRIMARY KEY, customer TEXT NOT NULL, key INTEGER NOT NULL, \
         kind TEXT NOT NULL, job TEXT NOT NULL, number INTEGER NOT NULL, owner_node TEXT NOT NULL, \
         owner_user TEXT NOT NULL, to_node TEXT NOT NULL, to_user TEXT NOT NULL, \
         held INTEGER NOT NULL, records INTEGER NOT NULL, blocks INTEGER NOT NULL, \
         came INTEGER NOT NULL) STRICT",
        &[],
    )?;
    Ok(())
}

fn create_records<S: Alter>(conn: &mut Connection<S>) -> Result<(), Error>
    requires ready { IsWriting two_tables (state S.Store conn.old) }
    ensures made { HasCleanDisk (state S.Store conn.new) → OnOk result (Makes spool_schema 2
        (state S.Store conn.old) (state S.Store conn.new)) }
    ensures crash { Survives (state S.Store conn.old) (state S.Store conn.new) (λ _. ⊥) }
{
    let _ = conn.execute(
        "CREATE TABLE records (id INTEGER PRIMARY KEY, file INTEGER NOT NULL, \
         place INTEGER NOT NULL, srcb INTEGER NOT NULL, bytes BLOB NOT NULL) STRICT",
        &[],
    )?;
    Ok(())
}

fn add_version<S: Alter>(conn: &mut Connection<S>) -> Result<(), Error>
    requires ready { IsWriting spool_schema (state S.Store conn.old) }
    ensures added { HasCleanDisk (state S.Store conn.new) → OnOk result (Sets 3 (state S.Store conn.old)
        (state S.Store conn.new)) }
    ensures crash { Survives (state S.Store conn.old) (state S.Store conn.new) (λ _. ⊥) }
{
    let _ = conn.execute("INSERT INTO spool VALUES (3)", &[])?;
    Ok(())
}

fn create_tables<S: Alter>(conn: &mut Connection<S>) -> Result<(), Error>
    requires ready { IsWriting no_tables (state S.Store conn.old) }
    ensures made { HasCleanDisk (state S.Store conn.new) → OnOk result (MakesAll (state S.Store conn.old)
        (state S.Store conn.new)) }
    ensures crash { Survives (state S.Store conn.old) (state S.Store conn.new) (λ _. ⊥) }
{
    create_spool(conn)?;
    create_files(conn)?;
    create_records(conn)
}

fn create_all<S: Alter>(conn: &mut Connection<S>) -> Result<(), Error>
    requires ready { IsWriting no_tables (state S.Store conn.old) }
    ensures made { HasCleanDisk (state S.Store conn.new) → OnOk result (StartsEmpty (state S.Store conn.old)
        (state S.Store conn.new)) }
    ensures crash { Survives (state S.Store conn.old) (state S.Store conn.new) (λ _. ⊥) }
{
    create_tables(conn)?;
    add_version(conn)
}

/// Makes the tables of a spool that has no file, in one commit.
pub(crate) fn make<S: Alter>(conn: &mut Connection<S>) -> Result<(), Error>
    requires ready { HasCleanDisk (state S.Store conn.old) → (state S.Store conn.old).now.schema ≡ no_tables }
    ensures made { HasCleanDisk (state S.Store conn.new) → OnOk result (IsIdle (state S.Store conn.new)
        × Holds no_files (state S.Store conn.new).now.trees) }
    ensures crash { Survives (state S.Store conn.old) (state S.Store conn.new) (Holds no_files) }
{
    begin(conn)?;
    create_all(conn)?;
    commit(conn)
}

/// Takes a spool of an older version over, in one commit.
pub(crate) fn take_over<S: Alter>(conn: &mut Connection<S>) -> Result<(), Error>
    requires ready { IsReady (state S.Store conn.old) }
    ensures taken { HasCleanDisk (state S.Store conn.new) → OnOk result (IsIdle (state S.Store conn.new)
        × SetsVersion (state S.Store conn.old).now.trees (state S.Store conn.new).now.trees) }
    ensures crash { Survives (state S.Store conn.old) (state S.Store conn.new)
        (SetsVersion (state S.Store conn.old).now.trees) }
{
    begin(conn)?;
    add_version(conn)?;
    commit(conn)
}
