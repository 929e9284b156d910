//! The statements of a spool, one a function.

ghost use Rattle.std.specs.Prelude.{◌≡◌, ◌<◌, ◌≤◌, ◌^◌, true, false, length, IfOk, IsTrue, OnOk};
ghost use Rattle.sqlite.specs.State.{HasCleanDisk, Survives};
ghost use Rattle.sqlite.specs.Held.{Held, state};
ghost use Rattle.sqlite.specs.Tree.{Trees};
ghost use Rattle.njh_spoolfile.specs.Kept.{file_of, record_of, with_file, with_record, without_file, without_records};
ghost use Rattle.njh_spoolfile.specs.Kept.{SpoolContents, Holds, is_marked, records_between};
ghost use Rattle.njh_spoolfile.specs.Tables.{spool_schema};
ghost use Rattle.njh_spoolfile.specs.Steps.{IsWriting, Begins, Changes, Commits};

use crate::kept::{
    FileRow, RecordRow, check_id, values_of_file, values_of_number, values_of_places,
    values_of_record,
};
use sqlite::{Alter, Connection, Error};

/// Begins a transaction, so that what follows waits for the commit.
pub fn begin<S: Alter>(conn: &mut Connection<S>) -> Result<(), Error>
    ensures begun { HasCleanDisk (state S.Store conn.new) → OnOk result (Begins (state S.Store conn.old)
        (state S.Store conn.new)) }
    ensures crash { Survives (state S.Store conn.old) (state S.Store conn.new) (λ _. ⊥) }
{
    let _ = conn.execute("BEGIN", &[])?;
    Ok(())
}

/// Keeps what waits. At `Ok` a crash leaves it, and at `Err` what was kept before, or it.
pub fn commit<S: Alter>(conn: &mut Connection<S>) -> Result<(), Error>
    ensures kept { HasCleanDisk (state S.Store conn.new) → OnOk result (Commits (state S.Store conn.old)
        (state S.Store conn.new)) }
    ensures crash { Survives (state S.Store conn.old) (state S.Store conn.new) (λ trees. trees ≡
        (state S.Store conn.old).now.trees) }
{
    let _ = conn.execute("COMMIT", &[])?;
    Ok(())
}

/// Sets the mark that a log belongs to the spool file, which hasn't it.
pub fn insert_mark<S: Alter>(conn: &mut Connection<S>) -> Result<(), Error>
    requires ready { IsWriting spool_schema (state S.Store conn.old) }
    ensures added { HasCleanDisk (state S.Store conn.new) → OnOk result (Changes (λ spool. spool)
        (state S.Store conn.old) (state S.Store conn.new)) }
    ensures marked { HasCleanDisk (state S.Store conn.new) → OnOk result ((spool : SpoolContents)
        → Holds spool (state S.Store conn.old).now.trees → is_marked (state S.Store conn.new).now.trees ≡ true) }
    ensures crash { Survives (state S.Store conn.old) (state S.Store conn.new) (λ _. ⊥) }
{
    let _ = conn.execute("INSERT INTO spool VALUES (0)", &[])?;
    Ok(())
}

/// Takes the mark away.
pub fn delete_mark<S: Alter>(conn: &mut Connection<S>) -> Result<(), Error>
    requires ready { IsWriting spool_schema (state S.Store conn.old) }
    ensures dropped { HasCleanDisk (state S.Store conn.new) → OnOk result (Changes (λ spool. spool)
        (state S.Store conn.old) (state S.Store conn.new)) }
    ensures unmarked { HasCleanDisk (state S.Store conn.new) → OnOk result ((spool : SpoolContents)
        → Holds spool (state S.Store conn.old).now.trees → is_marked (state S.Store conn.new).now.trees ≡ false) }
    ensures crash { Survives (state S.Store conn.old) (state S.Store conn.new) (λ _. ⊥) }
{
    let _ = conn.execute("DELETE FROM spool WHERE version = ?1", &values_of_number(0))?;
    Ok(())
}

/// Adds a whole file under this number, in the order of arrival. There are none from 2^63 on.
pub fn insert_file<S: Alter>(conn: &mut Connection<S>, id: u64, file: &FileRow) -> Result<(), Error>
    requires ready { IsWriting spool_schema (state S.Store conn.old) }
    ensures added { HasCleanDisk (state S.Store conn.new)
        → OnOk result (Changes (with_file id (file_of file.now)) (state S.Store conn.old) (state S.Store conn.new)) }
    ensures crash { Survives (state S.Store conn.old) (state S.Store conn.new) (λ _. ⊥) }
{
    check_id(id)?;
    let values = values_of_file(id, file);
    let _ = conn.execute(
        "INSERT INTO files VALUES (?1, ?2, ?3, ?4, ?5, ?6, ?7, ?8, ?9, ?10, ?11, ?12, ?13, ?14)",
        &values,
    )?;
    Ok(())
}

/// Adds a record of a file, which needn't be whole yet.
pub fn insert_record<S: Alter>(conn: &mut Connection<S>, kept: &RecordRow<'_>) -> Result<(), Error>
    requires ready { IsWriting spool_schema (state S.Store conn.old) }
    requires place { kept.now.place < 2 ^ 23 }
    ensures added { HasCleanDisk (state S.Store conn.new)
        → OnOk result (Changes (with_record (record_of kept.now)) (state S.Store conn.old) (state S.Store conn.new)) }
    ensures crash { Survives (state S.Store conn.old) (state S.Store conn.new) (λ _. ⊥) }
{
    let values = values_of_record(kept);
    let _ = conn.execute("INSERT INTO records VALUES (?1, ?2, ?3, ?4, ?5)", &values)?;
    Ok(())
}

/// Takes the whole file of this number out. Its records stay, and are dropped later.
pub fn delete_file<S: Alter>(conn: &mut Connection<S>, id: u64) -> Result<(), Error>
    requires ready { IsWriting spool_schema (state S.Store conn.old) }
    ensures dropped { HasCleanDisk (state S.Store conn.new) → OnOk result (Changes (without_file id)
        (state S.Store conn.old) (state S.Store conn.new)) }
    ensures crash { Survives (state S.Store conn.old) (state S.Store conn.new) (λ _. ⊥) }
{
    check_id(id)?;
    let values = values_of_number(id);
    let _ = conn.execute("DELETE FROM files WHERE id = ?1", &values)?;
    Ok(())
}

/// Drops the records of the file of this key at places from `first` on and before `end`, and says
/// how many.
pub fn delete_records<S: Alter>(
    conn: &mut Connection<S>,
    key: u32,
    first: u32,
    end: u32,
) -> Result<usize, Error>
    requires ready { IsWriting spool_schema (state S.Store conn.old) }
    requires places { (first ≤ 2 ^ 23) × (end ≤ 2 ^ 23) }
    ensures dropped { HasCleanDisk (state S.Store conn.new)
        → OnOk result (Changes (without_records key first end) (state S.Store conn.old) (state S.Store conn.new)) }
    ensures counted { HasCleanDisk (state S.Store conn.new) → IfOk result (λ count. (spool : SpoolContents)
        → Holds spool (state S.Store conn.old).now.trees → count ≡ length (records_between key first end spool)) }
    ensures crash { Survives (state S.Store conn.old) (state S.Store conn.new) (λ _. ⊥) }
{
    let values = values_of_places(key, first, end);
    let count = conn.execute("DELETE FROM records WHERE id >= ?1 AND id < ?2", &values)?;
    Ok(count)
}

/// While the connection is open, a crash leaves what was last kept, and nothing else.
pub fn only_the_last_commit<S: Alter>()
    ensures { (conn : Held S) → IsTrue (state S.Store conn).is_open → (trees : Trees)
        → (state S.Store conn).may_leave trees → trees ≡ (state S.Store conn).committed.trees }
{}
