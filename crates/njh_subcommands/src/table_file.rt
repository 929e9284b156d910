//! The tables that the program goes by.

ghost use Rattle.std.specs.Prelude.{◌≡◌, ◌≢◌, option_map, Some, IfOk, IfErr};
ghost use Rattle.njh_subcommands.specs.TableBytes.{tables_in, AreGiven, AreRefused, IsUnread};

use crate::failure::Failure;
use njh_io::{ReadFault, read_text};
use njh_table::{TableFault, Tables};
use std::alloc::Global;
use std::fs::File;
use std::rt::Files;

/// The most bytes of a table file, 16 MiB: ten times what the largest tables need.
const MAX_TABLE_BYTES: usize = 16_777_216;

/// The tables of a file, or the base tables if none is named.
///
/// No clause says which bytes a file holds, so of a file no more is known than that its tables are
/// those of some bytes. It is read to a bound; one that is longer is `TooMany`.
pub fn tables_of<R: Files + AllocGlobal>(rt: &R, file: Option<&str>) -> Result<Tables, Failure>
    ensures given { IfOk result (AreGiven (option_map (λ path. path.now) file.entry)) }
    ensures refused { IfErr result (AreRefused (option_map (λ path. path.now) file.entry)) }
{
    match file {
        Some(path) => Ok(tables_in(rt.alloc(), &table_bytes(rt, path)?)?),
        None => Ok(Tables::base(rt.alloc())?),
    }
}

/// The tables of a file, twice: its bytes are read once. Refusals are those of `tables_of`.
pub fn tables_twice<R: Files + AllocGlobal>(rt: &R, path: &str) -> Result<(Tables, Tables), Failure>
    ensures given { IfOk result (λ tables. AreGiven (Some path.now) tables.0) }
    ensures refused { IfErr result (AreRefused (Some path.now)) }
{
    let bytes = table_bytes(rt, path)?;
    let tables = tables_in(rt.alloc(), &bytes)?;
    let again = tables_in(rt.alloc(), &bytes)?;
    Ok((tables, again))
}

/// The bytes of a table file.
pub fn table_bytes<R: Files + AllocGlobal>(rt: &R, path: &str) -> Result<Vec<u8>, Failure>
    ensures { IfErr result IsUnread }
{
    let mut file = File::open(rt, path)?;
    match read_text(rt.alloc(), MAX_TABLE_BYTES, &mut file) {
        Ok(bytes) => Ok(bytes),
        Err(ReadFault::TooLong) => Err(Failure::Tables(TableFault::TooMany)),
        Err(ReadFault::Device) => Err(Failure::Device),
        Err(ReadFault::Memory) => Err(Failure::Memory),
    }
}

/// The tables of a file's bytes. A file that is no UTF-8 is no TOML.
pub fn tables_in(alloc: Global, bytes: &[u8]) -> Result<Tables, TableFault>
    ensures read { IfOk result (λ tables. tables_in bytes.now ≡ Ok tables) }
    ensures fault { IfErr result (λ fault. fault ≢ TableFault.Memory → tables_in bytes.now ≡ Err fault) }
{
    match str::from_utf8(bytes) {
        Ok(text) => Tables::read(alloc, text),
        Err(_) => Err(TableFault::BadToml),
    }
}
