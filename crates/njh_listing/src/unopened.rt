//! Why a spool file isn't opened, as far as the file system says it.

ghost use Rattle.std.specs.Prelude.{IfErr};
ghost use Rattle.njh_listing.specs.Faults.{IsOfSpool};

use crate::copying::{fault_of, real_path};
use crate::fault::FilesFault;
use std::fs;
use std::fs::OpenOptions;
use std::os::unix::fs::OpenOptionsExt;
use std::rt::HostRuntime;

/// The mode of a log that is made to see whether it may be made.
const MODE: u32 = 0o600;

/// The fault of a spool file that SQLite didn't open: where that doesn't say why, what the file
/// system says of the file and of its log. Nothing is written, and no file is left.
pub(crate) fn told_by_files(rt: &HostRuntime, path: &str, fault: FilesFault) -> FilesFault
    requires { IsOfSpool fault }
    ensures { IsOfSpool result }
{
    match fault {
        FilesFault::Device => match see_files(rt, path) {
            Ok(()) => FilesFault::Device,
            Err(fault) => fault,
        },
        fault => fault,
    }
}

/// Sees whether a spool file and its log may be written.
fn see_files(rt: &HostRuntime, path: &str) -> Result<(), FilesFault>
    ensures { IfErr result IsOfSpool }
{
    let file = real_path(rt, path)?;
    see_file(rt, file.as_str())?;
    let log = log_of(rt, file.as_str())?;
    match see_file(rt, log.as_str()) {
        Ok(()) => Ok(()),
        Err(FilesFault::NotFound) => see_place(rt, log.as_str()),
        Err(fault) => Err(fault),
    }
}

/// Sees whether a file may be written.
fn see_file(rt: &HostRuntime, path: &str) -> Result<(), FilesFault>
    ensures { IfErr result IsOfSpool }
{
    match OpenOptions::new().read(true).write(true).open(rt, path) {
        Ok(file) => {
            drop(file);
            Ok(())
        }
        Err(error) => Err(fault_of(error)),
    }
}

/// Sees whether a file may be made where none is.
fn see_place(rt: &HostRuntime, path: &str) -> Result<(), FilesFault>
    ensures { IfErr result IsOfSpool }
{
    let made = OpenOptions::new()
        .write(true)
        .create_new(true)
        .mode(MODE)
        .open(rt, path);
    match made {
        Ok(file) => {
            drop(file);
            remove(rt, path)
        }
        Err(error) => Err(fault_of(error)),
    }
}

/// Removes a file.
fn remove(rt: &HostRuntime, path: &str) -> Result<(), FilesFault>
    ensures { IfErr result IsOfSpool }
{
    match fs::remove_file(rt, path) {
        Ok(()) => Ok(()),
        Err(error) => Err(fault_of(error)),
    }
}

/// The path of a spool file's log.
pub(crate) fn log_of(rt: &HostRuntime, file: &str) -> Result<String, FilesFault>
    ensures { IfErr result IsOfSpool }
{
    Ok(format!(in rt.alloc(); "{file}-wal")?)
}
