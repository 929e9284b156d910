//! The spool file of a run, looked at beside what the program says of it.

use os::RangeLock;
use std::fs::{File, OpenOptions};
use std::io::ErrorKind;
use std::os::fd::AsRawFd;
use std::os::unix::fs::PermissionsExt;
use std::rt::Files;
use std::{fs, io};

/// The bytes by whose lock SQLite says that a database is in use, and their number.
const LOCKS: u64 = 1 << 30;

const LOCKS_LEN: u64 = 512;

/// The bits of a mode that say who may read and write.
const MODE_BITS: u32 = 0o777;

/// The spool file that the words of a command line name.
pub fn named_in<'a>(words: &[&'a str]) -> io::Result<&'a str> {
    for place in 1..words.len() {
        if words[place - 1] == "--spool" {
            return Ok(words[place]);
        }
    }
    Err(io::Error::from(ErrorKind::InvalidInput))
}

/// Says which modes a spool file and its log have.
pub fn say_modes<R: Files + Print + AllocGlobal>(
    rt: &R,
    name: &str,
    spool: &str,
) -> io::Result<()> {
    let log = format!(in rt.alloc(); "{spool}-wal")?;
    say_mode(rt, name, spool)?;
    say_mode(rt, name, log.as_str())
}

/// Says which mode a file has.
fn say_mode<R: Files + Print>(rt: &R, name: &str, file: &str) -> io::Result<()> {
    match fs::metadata(rt, file) {
        Ok(found) => {
            let mode = found.permissions().mode() & MODE_BITS;
            println!(rt; "{name}: {file} has the mode {mode:04o}")
        }
        Err(_) => println!(rt; "{name}: {file} isn't there"),
    }
}

/// A spool file that is in use until this is dropped, as if another program had it open.
pub fn hold<R: Files<File = File>>(rt: &R, spool: &str) -> io::Result<File> {
    let file = OpenOptions::new().read(true).write(true).open(rt, spool)?;
    if os::try_lock_range(file.as_raw_fd(), RangeLock::Exclusive, LOCKS, LOCKS_LEN) == 0 {
        return Ok(file);
    }
    Err(io::Error::from_raw_os_error(os::errno()))
}
