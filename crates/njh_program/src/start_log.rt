//! What the log says of a table file from which no lines are served.

use njh_check::fault_text;
use njh_log::{Heading, Log};
use njh_sockets::utc_milliseconds;
use njh_subcommands::{Failure, table_bytes};
use std::fmt;
use std::fs::File;
use std::io::{ErrorKind, Write};
use std::rt::{Clock, Files};

/// Logs why a table file gives no tables, if it gives none.
pub(crate) fn log_failure<F: Files + Clock + AllocGlobal, L: Write + Drop>(
    rt: &F,
    path: &str,
    log: &mut Log<L>,
    failure: &Failure,
) {
    log_fault(rt, path, log);
    if is_device(failure) {
        log.write(
            Heading::error(utc_milliseconds(rt)),
            &Unread {
                path,
                why: why_unread(rt, path),
            },
        );
    }
}

/// Logs the first fault of a table file and its place, if it has one.
fn log_fault<F: Files + Clock + AllocGlobal, L: Write + Drop>(
    rt: &F,
    path: &str,
    log: &mut Log<L>,
) {
    let Ok(bytes) = table_bytes(rt, path) else {
        return;
    };
    let Ok(text) = str::from_utf8(&bytes) else {
        return;
    };
    if let Ok(Some(fault)) = fault_text(rt.alloc(), text) {
        let why = fault.as_str();
        log.write(Heading::error(utc_milliseconds(rt)), &Unread { path, why });
    }
}

/// Whether a device failed.
fn is_device(failure: &Failure) -> bool {
    match failure {
        Failure::Device => true,
        _ => false,
    }
}

/// Why a file can't be read.
fn why_unread<F: Files>(rt: &F, path: &str) -> &'static str {
    match File::open(rt, path) {
        Ok(_) => "not readable",
        Err(error) => match error.kind() {
            ErrorKind::NotFound => "not found",
            ErrorKind::PermissionDenied => "not permitted",
            _ => "not readable",
        },
    }
}

/// A table file that can't be read, or has a fault.
#[derive(Clone, Copy, Drop)]
struct Unread<'a> {
    path: &'a str,
    why: &'a str,
}

impl fmt::Display for Unread<'_> {
    fn fmt<W: fmt::Write>(&self, f: &mut fmt::Formatter<W>) -> fmt::Result {
        write!(f, "table file {}: {}", self.path, self.why)
    }
}
