//! Which version a spool file is of, and whether a log belongs to it.

ghost use Rattle.std.specs.Prelude.{◌≡◌, not, IsPermutation, map, IfOk, OnOk};
ghost use Rattle.std.specs.List.{list_any};
ghost use Rattle.sqlite.specs.State.{HasCleanDisk, Survives};
ghost use Rattle.sqlite.specs.Tree.{rowid};
ghost use Rattle.sqlite.specs.Held.{state};
ghost use Rattle.njh_spoolfile.specs.Kept.{has_number, is_known, is_marked, is_number, version_in};
ghost use Rattle.njh_spoolfile.specs.Steps.{IsReady, Stays};

use sqlite::types::ValueRef;
use sqlite::{Alter, Connection, Error, Row};

/// A version whose spools are read here.
#[derive(Clone, Copy, Debug, PartialEq, Eq)]
pub enum Version {
    /// One before, whose rows read as they stand.
    Older,
    /// The one that is written here.
    Current,
}

/// The number of the row that says that a log belongs to the spool file.
const MARK: u8 = 0;

/// The number of the first version.
const OLDEST: u8 = 1;

/// The number of the version before.
const OLDER: u8 = 2;

/// The number of the version that is written here.
const CURRENT: u8 = 3;

fn rows_of_versions<S: Alter>(conn: &mut Connection<S>) -> Result<Vec<Row>, Error>
    requires ready { IsReady (state S.Store conn.old) }
    ensures rows { HasCleanDisk (state S.Store conn.new) → IfOk result (λ rows. IsPermutation
        (map rowid ((state S.Store conn.old).now.trees 0)) (map rowid rows.items)) }
    ensures same { HasCleanDisk (state S.Store conn.new) → OnOk result (Stays (state S.Store conn.old)
        (state S.Store conn.new)) }
    ensures crash { Survives (state S.Store conn.old) (state S.Store conn.new) (λ _. ⊥) }
{
    conn.query_all("SELECT version FROM spool", &[])
}

fn is_number(row: &Row, number: u8) -> bool
    ensures { result ≡ is_number number row.now }
{
    match row.get_ref(0) {
        Ok(ValueRef::Int(value)) => value == i64::from(number),
        _ => false,
    }
}

fn has_number(rows: &[Row], number: u8) -> bool
    ensures { result ≡ has_number number rows.now }
{
    rows.iter().any(|row| is_number(row, number))
}

fn is_known(row: &Row) -> bool
    ensures { result ≡ is_known row.now }
{
    is_number(row, MARK)
        || is_number(row, OLDEST)
        || is_number(row, OLDER)
        || is_number(row, CURRENT)
}

fn has_unknown(rows: &[Row]) -> bool
    ensures { result ≡ list_any (λ row. not (is_known row)) rows.now }
{
    rows.iter().any(|row| !is_known(row))
}

fn version_in(rows: &[Row]) -> Option<Version>
    ensures { result ≡ version_in rows.now }
{
    if has_unknown(rows) {
        None
    } else if has_number(rows, CURRENT) {
        Some(Version::Current)
    } else if has_number(rows, OLDEST) || has_number(rows, OLDER) {
        Some(Version::Older)
    } else {
        None
    }
}

/// Which version the spool is of, if it is one that is read here.
pub(crate) fn version_of<S: Alter>(conn: &mut Connection<S>) -> Result<Option<Version>, Error>
    requires ready { IsReady (state S.Store conn.old) }
    ensures version { HasCleanDisk (state S.Store conn.new) → IfOk result (λ found. found
        ≡ version_in ((state S.Store conn.old).now.trees 0)) }
    ensures same { HasCleanDisk (state S.Store conn.new) → OnOk result (Stays (state S.Store conn.old)
        (state S.Store conn.new)) }
    ensures crash { Survives (state S.Store conn.old) (state S.Store conn.new) (λ _. ⊥) }
{
    let rows = rows_of_versions(conn)?;
    Ok(version_in(rows.as_slice()))
}

/// Whether the spool file has the mark that a log belongs to it.
pub(crate) fn is_marked<S: Alter>(conn: &mut Connection<S>) -> Result<bool, Error>
    requires ready { IsReady (state S.Store conn.old) }
    ensures marked { HasCleanDisk (state S.Store conn.new) → IfOk result (λ marked. marked
        ≡ is_marked (state S.Store conn.old).now.trees) }
    ensures same { HasCleanDisk (state S.Store conn.new) → OnOk result (Stays (state S.Store conn.old)
        (state S.Store conn.new)) }
    ensures crash { Survives (state S.Store conn.old) (state S.Store conn.new) (λ _. ⊥) }
{
    let rows = rows_of_versions(conn)?;
    Ok(has_number(rows.as_slice(), MARK))
}
