//! Why no hub is opened from a spool file, and why keeping fails.

ghost use Rattle.std.specs.Prelude.{◌≡◌, ◌≢◌};
ghost use Rattle.njh_turns.specs.declared.depot.DepotFault.TheVariants.{Refused};
ghost use Rattle.njh_keeper.specs.Keeper.{first_cause};

use njh_hub::RestoreFault;
use njh_spoolfile::StoredFile;
use njh_turns::DepotFault;
use sqlite::ErrorCode;
use std::alloc::AllocError;
use std::fmt;
use thiserror::Error;

/// Why a whole file isn't put back.
#[derive(Clone, Copy, Debug, PartialEq, Eq, Error)]
pub enum FileFault {
    /// It isn't all there, or is no file of a hub: it has another number of records than it says, a
    /// record isn't at its place, has more than 256 bytes or an SRCB that is no byte, or the file's
    /// kind is neither SYSIN nor SYSOUT.
    #[error("O4 BadFile")]
    BadFile,
    /// Its customer has no room for it, or its headers don't read.
    #[error("{0}")]
    Refused(RestoreFault),
}

/// A whole file of a spool file that isn't put back, and why.
#[derive(Debug, Drop)]
pub struct RefusedFile {
    /// The file, without the mark of one that is set aside.
    pub file: StoredFile,
    /// Why it isn't put back.
    pub fault: FileFault,
}

/// A line of the log without its end: whose it is, its name, and why it is set aside.
impl fmt::Display for RefusedFile {
    fn fmt<W: fmt::Write>(&self, f: &mut fmt::Formatter<W>) -> fmt::Result {
        let row = &self.file.file;
        write!(
            f,
            "{}: {}.{} is set aside: {}",
            row.customer, row.owner_node, row.number, self.fault
        )
    }
}

/// Why no hub is opened from a spool file. Nothing was committed there.
#[derive(Debug, Drop)]
pub enum OpeningFault {
    /// There was no memory for the hub, or for the list of files.
    Memory,
    /// The spool file can't be read, and why.
    Store(sqlite::Error),
    /// A whole file can't be put back.
    File(RefusedFile),
}

impl From<AllocError> for OpeningFault {
    ghost use Rattle.std.specs.Prelude.{◌≡◌};
    ghost use Rattle.njh_keeper.specs.declared.fault.OpeningFault.TheVariants.{Memory};

    ghost from_gives = { λ _ fault. fault ≡ Memory };

    fn from(_error: AllocError) -> OpeningFault {
        OpeningFault::Memory
    }
}

impl From<sqlite::Error> for OpeningFault {
    ghost use Rattle.std.specs.Prelude.{◌≡◌};
    ghost use Rattle.njh_keeper.specs.declared.fault.OpeningFault.TheVariants.{Store};

    ghost from_gives = { λ error fault. fault ≡ Store error };

    fn from(error: sqlite::Error) -> OpeningFault {
        OpeningFault::Store(error)
    }
}

/// The first cause, now that there is another.
pub(crate) fn first_cause(
    known: Option<sqlite::Error>,
    error: sqlite::Error,
) -> Option<sqlite::Error>
    ensures { result ≡ first_cause known error }
{
    match known {
        Some(first) => Some(first),
        None => Some(error),
    }
}

/// Why no hub is opened, if the spool file fails.
pub(crate) fn depot_fault(error: sqlite::Error) -> DepotFault
    ensures { result ≢ Refused }
{
    match error {
        sqlite::Error::SqliteFailure(ErrorCode::OutOfMemory) => DepotFault::Memory,
        _ => DepotFault::Device,
    }
}
