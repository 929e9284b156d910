//! Copies a spool file that is only to be read, so that it and its folder stay as they are.

ghost use Rattle.std.specs.Prelude.{IfErr};
ghost use Rattle.njh_listing.specs.Faults.{IsOfSpool};

use crate::fault::FilesFault;
use os::RangeLock;
use std::fs::{DirBuilder, File, Permissions};
use std::hash::{BuildHasher, RandomState};
use std::io::ErrorKind;
use std::os::fd::AsRawFd;
use std::os::unix::fs::{DirBuilderExt, MetadataExt, PermissionsExt};
use std::rt::HostRuntime;
use std::{env, fs, io};

/// The mode of a folder of copies, and of a copy: whole files are their users' letters.
const FOLDER_MODE: u32 = 0o700;

const COPY_MODE: u32 = 0o600;

/// The first of the bytes by whose locks SQLite says that a database is in use, and their number.
const LOCKS: u64 = 1 << 30;

const LOCKS_LEN: u64 = 512;

/// What a failure of the file system is told as.
pub(crate) fn fault_of(error: io::Error) -> FilesFault
    ensures { IsOfSpool result }
{
    match error.kind() {
        ErrorKind::OutOfMemory => FilesFault::Memory,
        ErrorKind::NotFound | ErrorKind::NotADirectory => FilesFault::NotFound,
        ErrorKind::PermissionDenied | ErrorKind::ReadOnlyFilesystem => FilesFault::NotPermitted,
        ErrorKind::StorageFull | ErrorKind::QuotaExceeded => FilesFault::NoRoom,
        _ => FilesFault::Device,
    }
}

/// Whether a regular file is there: nobody waits for one to be opened, or to end.
fn is_file(rt: &HostRuntime, path: &str) -> bool {
    match fs::metadata(rt, path) {
        Ok(found) => found.is_file(),
        Err(_) => false,
    }
}

/// The path of a regular file where no link leads any more.
pub(crate) fn real_path(rt: &HostRuntime, path: &str) -> Result<String, FilesFault>
    ensures { IfErr result IsOfSpool }
{
    let found = match fs::canonicalize(rt, path) {
        Ok(found) => found,
        Err(error) => return Err(fault_of(error)),
    };
    if !is_file(rt, found.as_str()) {
        return Err(FilesFault::Device);
    }
    Ok(String::from_str(rt.alloc(), found.as_str())?)
}

/// Whether an open file has one name: another name of it has another log.
fn is_alone(file: &File) -> bool {
    match file.metadata() {
        Ok(found) => found.nlink() == 1,
        Err(_) => false,
    }
}

/// Opens a spool file to be read alone, and keeps others from writing it until it is dropped.
pub(crate) fn hold(rt: &HostRuntime, path: &str) -> Result<File, FilesFault>
    ensures { IfErr result IsOfSpool }
{
    let file = match File::open(rt, path) {
        Ok(file) => file,
        Err(error) => return Err(fault_of(error)),
    };
    if !is_alone(&file) {
        return Err(FilesFault::Device);
    }
    if os::try_lock_range(file.as_raw_fd(), RangeLock::Shared, LOCKS, LOCKS_LEN) == 0 {
        return Ok(file);
    }
    match io::Error::from_raw_os_error(os::errno()).kind() {
        ErrorKind::WouldBlock => Err(FilesFault::InUse),
        _ => Err(FilesFault::Device),
    }
}

/// The path of a folder that isn't there yet, among those for files that don't stay.
fn new_path(rt: &HostRuntime) -> Result<String, FilesFault>
    ensures { IfErr result IsOfSpool }
{
    let number = match RandomState::new(rt) {
        Ok(keys) => keys.hash_one(&0u8),
        Err(error) => return Err(fault_of(error)),
    };
    match env::temp_dir(rt) {
        Ok(folder) => {
            let folder = folder.as_str();
            Ok(format!(in rt.alloc(); "{folder}/njehub-{number}")?)
        }
        Err(error) => Err(fault_of(error)),
    }
}

/// Makes a folder that only this user may enter, and says where it is.
pub(crate) fn make_folder(rt: &HostRuntime) -> Result<String, FilesFault>
    ensures { IfErr result IsOfSpool }
{
    let path = new_path(rt)?;
    match DirBuilder::new()
        .mode(FOLDER_MODE)
        .create(rt, path.as_str())
    {
        Ok(()) => Ok(path),
        Err(error) => Err(fault_of(error)),
    }
}

/// Copies a file, if it is there.
fn copy_one(rt: &HostRuntime, from: &str, to: &str) -> Result<(), FilesFault>
    ensures { IfErr result IsOfSpool }
{
    match fs::copy(rt, from, to) {
        Ok(_) => {}
        Err(error) => {
            return match error.kind() {
                ErrorKind::NotFound => Ok(()),
                _ => Err(fault_of(error)),
            };
        }
    }
    match fs::set_permissions(rt, to, Permissions::from_mode(COPY_MODE)) {
        Ok(()) => Ok(()),
        Err(error) => Err(fault_of(error)),
    }
}

/// Copies what has this end to its name, if it is there.
fn copy_beside(rt: &HostRuntime, from: &str, to: &str, end: &str) -> Result<(), FilesFault>
    ensures { IfErr result IsOfSpool }
{
    let from = format!(in rt.alloc(); "{from}{end}")?;
    let to = format!(in rt.alloc(); "{to}{end}")?;
    copy_one(rt, from.as_str(), to.as_str())
}

/// Copies a spool file and its log, and a rollback journal, of which SQLite would say that it is
/// there.
pub(crate) fn copy_files(rt: &HostRuntime, from: &str, to: &str) -> Result<(), FilesFault>
    ensures { IfErr result IsOfSpool }
{
    copy_one(rt, from, to)?;
    copy_beside(rt, from, to, "-wal")?;
    copy_beside(rt, from, to, "-journal")
}

/// Removes a folder and the copies in it.
pub(crate) fn remove_folder(rt: &HostRuntime, folder: &str) -> Result<(), FilesFault>
    ensures { IfErr result IsOfSpool }
{
    match fs::remove_dir_all(rt, folder) {
        Ok(()) => Ok(()),
        Err(error) => Err(fault_of(error)),
    }
}
