//! Why nothing, or not all, is printed of a spool file or copied.

ghost use Rattle.njh_listing.specs.Faults.{IsOfSpool};

use njh_io::WriteFault;
use njh_spoolfile::OpenFault;
use sqlite::{Error, ErrorCode};
use std::alloc::{AllocError, AllocFailed};
use std::fmt;

/// Why nothing, or not all, is printed of a spool file or copied, or no hub is opened from it.
#[derive(Debug, Drop)]
pub enum FilesFault {
    /// The customer has no such file, or no file at all; with what follows the words "no file".
    NoFile(String),
    /// The customer has several such files, or none of them has the number; with which of the two,
    /// and a further line for each of them.
    Several(String),
    /// A whole file can't be put back into a hub; with why, and whose it is.
    Refused(String),
    /// Files aren't copied where the customer has some; with what says so.
    Taken(String),
    /// Another program has the spool file open.
    InUse,
    /// A new spool file is there already.
    AlreadyThere,
    /// The spool file has no numbers left for more files.
    Full,
    /// It is a database with other tables than a spool's.
    NotASpool,
    /// It is a spool of another version.
    OtherVersion,
    /// It is no database, or is damaged.
    Damaged,
    /// A folder of its path, or the file itself if it has to be there, isn't there.
    NotFound,
    /// This user may not open or make the file or its log, or set its mode.
    NotPermitted,
    /// The disk has no room, or this user may have no more of it.
    NoRoom,
    /// The file can't be opened or read for another reason, or a write failed. A beginning of what
    /// was to be written is written.
    Device,
    /// Memory was refused.
    Memory,
}

impl fmt::Display for FilesFault {
    /// One line without its end; for several files, and a wrong number, a further one for each.
    fn fmt<W: fmt::Write>(&self, f: &mut fmt::Formatter<W>) -> fmt::Result {
        match self {
            FilesFault::NoFile(name) => write!(f, "no file {name}"),
            FilesFault::Several(list) => f.write_str(list.as_str()),
            FilesFault::Refused(why) => f.write_str(why.as_str()),
            FilesFault::Taken(why) => f.write_str(why.as_str()),
            FilesFault::InUse => f.write_str("spool in use"),
            FilesFault::AlreadyThere => f.write_str("the new spool is there already"),
            FilesFault::Full => f.write_str("spool has no numbers left"),
            FilesFault::NotASpool => f.write_str("spool is another database"),
            FilesFault::OtherVersion => f.write_str("spool of another version"),
            FilesFault::Damaged => f.write_str("spool damaged, or no database"),
            FilesFault::NotFound
            | FilesFault::NotPermitted
            | FilesFault::NoRoom
            | FilesFault::Device => f.write_str("device"),
            FilesFault::Memory => f.write_str("U3 Memory"),
        }
    }
}

impl From<Error> for FilesFault {
    ghost from_gives = { λ _ fault. IsOfSpool fault };

    fn from(error: Error) -> FilesFault {
        match error {
            Error::SqliteFailure(ErrorCode::OutOfMemory) => FilesFault::Memory,
            Error::SqliteFailure(ErrorCode::DatabaseBusy) => FilesFault::InUse,
            Error::SqliteFailure(ErrorCode::DiskFull) => FilesFault::NoRoom,
            Error::SqliteFailure(ErrorCode::CannotOpen | ErrorCode::SystemIoFailure) =>
                FilesFault::Device,
            _ => FilesFault::Damaged,
        }
    }
}

impl From<OpenFault> for FilesFault {
    ghost from_gives = { λ _ fault. IsOfSpool fault };

    fn from(fault: OpenFault) -> FilesFault {
        match fault {
            OpenFault::Database(error) => FilesFault::from(error),
            OpenFault::NotASpool => FilesFault::NotASpool,
            OpenFault::OtherVersion => FilesFault::OtherVersion,
        }
    }
}

impl From<AllocError> for FilesFault {
    ghost from_gives = { λ _ fault. IsOfSpool fault };

    fn from(_error: AllocError) -> FilesFault {
        FilesFault::Memory
    }
}

impl<T: Drop> From<AllocFailed<T>> for FilesFault {
    ghost from_gives = { λ _ fault. IsOfSpool fault };

    fn from(_error: AllocFailed<T>) -> FilesFault {
        FilesFault::Memory
    }
}

impl From<WriteFault> for FilesFault {
    ghost from_gives = { λ _ fault. IsOfSpool fault };

    fn from(_fault: WriteFault) -> FilesFault {
        FilesFault::Device
    }
}
