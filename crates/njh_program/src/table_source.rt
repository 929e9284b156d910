//! The table file of a hub that runs: it is read again if it changed.

ghost use Rattle.std.specs.Prelude.{◌≡◌, ◌≤◌, vec_len, IfOk};
ghost use Rattle.njh_subcommands.specs.TableBytes.{AreGivenWithin, max_changed_bytes};

use crate::spool_paths::SpoolPaths;
use njh_check::fault_text;
use njh_io::{ReadFault, read_text};
use njh_presence::SpoolSeen;
use njh_revision::TableSource;
use njh_subcommands::tables_in;
use njh_table::{TableFault, Tables};
use std::alloc::{AllocError, Global};
use std::fs;
use std::fs::File;
use std::io::ErrorKind;
use std::rt::Files;
use std::time::SystemTime;
use thiserror::Error;

/// The most bytes of a table file that is read while a hub runs, 2 MB.
const MAX_CHANGED_BYTES: usize = 2_000_000;

/// Why a table file that changed gives no tables.
#[derive(Debug, Drop, Error)]
pub enum ChangeFault {
    /// It isn't there any more.
    #[error("not found")]
    Gone,
    /// It can't be read.
    #[error("not readable")]
    Unread,
    /// It is no regular file.
    #[error("no regular file")]
    NoFile,
    /// There was no memory for its bytes.
    #[error("no memory for it")]
    Memory,
    /// It has more bytes than are read while a hub runs.
    #[error("longer than 2000000 bytes")]
    TooLong,
    /// It is refused for this fault, of which there is no memory to say the place.
    #[error("{0}")]
    Tables(TableFault),
    /// It is refused for this fault at this place, as `check` tells them.
    #[error("{0}")]
    Found(String),
}

/// What tells one state of a file from another.
#[derive(Clone, Copy, PartialEq, Eq)]
struct Stamp {
    modified: Option<SystemTime>,
    length: u64,
}

/// The table file of a hub that runs.
#[derive(Drop)]
pub struct TableFileSource<'a, R: Files + AllocGlobal> {
    rt: &'a R,
    path: &'a str,
    /// Where the hub's files are kept, if they are.
    spool: Option<SpoolPaths<'a>>,
    stamp: Option<Stamp>,
}

impl<'a, R: Files + AllocGlobal> TableFileSource<'a, R> {
    /// The file as it is now. It is to be made before the tables are first read, so that no change
    /// is missed. The hub's files are kept in the file `spool`, which is open, if they are kept. Out
    /// of memory is the only refusal.
    pub(crate) fn new(
        rt: &'a R,
        path: &'a str,
        spool: Option<&'a str>,
    ) -> Result<TableFileSource<'a, R>, AllocError> {
        let spool = match spool {
            Some(file) => Some(SpoolPaths::new(rt, file)?),
            None => None,
        };
        Ok(TableFileSource {
            rt,
            path,
            spool,
            stamp: stamp_of(rt, path),
        })
    }
}

impl<R: Files + AllocGlobal> TableSource for TableFileSource<'_, R> {
    ghost use Rattle.std.specs.Prelude.{IfOk};
    ghost use Rattle.njh_subcommands.specs.TableBytes.{AreGivenWithin, max_changed_bytes};

    type Fault = ChangeFault;

    // The tables of what a file held, of no more than 2 MB of it.
    ghost gives = { λ _ read. IfOk read (AreGivenWithin max_changed_bytes) };

    fn seen(&self) -> Option<SpoolSeen> {
        match &self.spool {
            Some(paths) => Some(paths.seen(self.rt)),
            None => None,
        }
    }

    /// The tables of the file, or why it gives none, if it isn't as it was at the last look.
    ///
    /// Its time and its length are looked at, and no more than 2 MB of it are read.
    fn changed(&mut self) -> Option<Result<Tables, ChangeFault>> {
        let stamp = stamp_of(self.rt, self.path);
        if self.stamp == stamp {
            return None;
        }
        self.stamp = stamp;
        Some(regular_tables(self.rt, self.path))
    }

    /// The tables of the file, or why it gives none, whatever its time and its length. No more than 2
    /// MB of it are read.
    fn read(&mut self) -> Result<Tables, ChangeFault> {
        self.stamp = stamp_of(self.rt, self.path);
        regular_tables(self.rt, self.path)
    }

    /// The tables of another file, or why it gives none. No more than 2 MB of it are read.
    fn read_at(&self, name: &str) -> Result<Tables, ChangeFault> {
        regular_tables(self.rt, name)
    }
}

/// The tables of a file, if it is there and is a regular one: what else may stand there could hold
/// the hub up, as a pipe does.
fn regular_tables<R: Files + AllocGlobal>(rt: &R, path: &str) -> Result<Tables, ChangeFault>
    ensures { IfOk result (AreGivenWithin max_changed_bytes) }
{
    match fs::metadata(rt, path) {
        Ok(metadata) if metadata.is_file() => held_tables(rt, path),
        Ok(_) => Err(ChangeFault::NoFile),
        Err(_) => Err(ChangeFault::Gone),
    }
}

/// What tells the state of a file, if it is there.
fn stamp_of<R: Files>(rt: &R, path: &str) -> Option<Stamp> {
    let metadata = fs::metadata(rt, path).ok()?;
    Some(Stamp {
        modified: metadata.modified().ok(),
        length: metadata.len(),
    })
}

/// The tables that a file holds.
fn held_tables<R: Files + AllocGlobal>(rt: &R, path: &str) -> Result<Tables, ChangeFault>
    ensures { IfOk result (AreGivenWithin max_changed_bytes) }
{
    let bytes = changed_bytes(rt, path)?;
    match tables_in(rt.alloc(), &bytes) {
        Ok(tables) => Ok(tables),
        Err(fault) => Err(fault_in(rt.alloc(), &bytes, fault)),
    }
}

/// Why these bytes are refused, which have this fault.
fn fault_in(alloc: Global, bytes: &[u8], fault: TableFault) -> ChangeFault {
    let Ok(text) = str::from_utf8(bytes) else {
        return ChangeFault::Tables(fault);
    };
    match fault_text(alloc, text) {
        Ok(Some(found)) => ChangeFault::Found(found),
        _ => ChangeFault::Tables(fault),
    }
}

/// The bytes of a file that changed.
fn changed_bytes<R: Files + AllocGlobal>(rt: &R, path: &str) -> Result<Vec<u8>, ChangeFault>
    ensures { IfOk result (λ bytes. vec_len bytes ≤ max_changed_bytes) }
{
    let mut file = match File::open(rt, path) {
        Ok(file) => file,
        Err(error) if error.kind() == ErrorKind::OutOfMemory => return Err(ChangeFault::Memory),
        Err(_) => return Err(ChangeFault::Unread),
    };
    match read_text(rt.alloc(), MAX_CHANGED_BYTES, &mut file) {
        Ok(bytes) => Ok(bytes),
        Err(ReadFault::TooLong) => Err(ChangeFault::TooLong),
        Err(ReadFault::Device) => Err(ChangeFault::Unread),
        Err(ReadFault::Memory) => Err(ChangeFault::Memory),
    }
}
