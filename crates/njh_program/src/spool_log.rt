//! What the log says of a spool file that isn't opened, or fails.

use njh_listing::FilesFault;
use njh_log::{Heading, Log};
use njh_sockets::utc_milliseconds;
use njh_subcommands::Failure;
use sqlite::Error;
use std::fmt;
use std::io::Write;
use std::rt::Clock;

/// Logs why a spool file isn't opened or read, if that is why nothing is served.
pub(crate) fn log_unopened<R: Clock, L: Write + Drop>(
    rt: &R,
    spool: &str,
    log: &mut Log<L>,
    failure: &Failure,
) {
    if let Failure::Files(fault) = failure {
        let why = why_unopened(fault);
        log.write(
            Heading::error(utc_milliseconds(rt)),
            &Unopened { spool, why },
        );
    }
}

/// Logs why a spool file failed, if it did.
pub(crate) fn log_cause<R: Clock, L: Write + Drop>(
    rt: &R,
    spool: &str,
    log: &mut Log<L>,
    cause: Option<Error>,
) {
    if let Some(error) = cause {
        log.write(
            Heading::error(utc_milliseconds(rt)),
            &Failed { spool, error },
        );
    }
}

/// Why a spool file isn't opened or read.
fn why_unopened(fault: &FilesFault) -> &'static str {
    match fault {
        FilesFault::NotFound => "its folder isn't there",
        FilesFault::NotPermitted => "not permitted",
        FilesFault::NoRoom => "disk full",
        FilesFault::InUse => "in use",
        FilesFault::NotASpool => "another database",
        FilesFault::OtherVersion => "of another version",
        FilesFault::Damaged => "damaged, or no database",
        FilesFault::Memory => "no memory for it",
        _ => "can't be opened or read",
    }
}

/// A spool file that isn't opened.
#[derive(Clone, Copy, Drop)]
struct Unopened<'a> {
    spool: &'a str,
    why: &'a str,
}

impl fmt::Display for Unopened<'_> {
    fn fmt<W: fmt::Write>(&self, f: &mut fmt::Formatter<W>) -> fmt::Result {
        write!(f, "spool file {}: {}", self.spool, self.why)
    }
}

/// A spool file that fails.
#[derive(Clone, Copy, Drop)]
struct Failed<'a> {
    spool: &'a str,
    error: Error,
}

impl fmt::Display for Failed<'_> {
    fn fmt<W: fmt::Write>(&self, f: &mut fmt::Formatter<W>) -> fmt::Result {
        write!(f, "spool file {}: {}", self.spool, self.error)
    }
}
