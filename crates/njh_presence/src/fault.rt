//! What is wrong at the paths of a spool file.

ghost use Rattle.std.specs.Prelude.{◌≡◌};
ghost use Rattle.njh_presence.specs.Presence.{no_faults};

use std::fmt;

/// What is wrong at a path at which a file was opened.
#[derive(Clone, Copy, Drop, PartialEq, Eq)]
pub enum PathFault {
    /// Nothing is there, or it can't be looked at.
    Gone,
    /// Another file is there.
    Other,
    /// The open file is there, and has been cut.
    Cut,
}

/// What is wrong at the paths of a spool file and of its log.
#[derive(Clone, Copy, Drop, PartialEq, Eq)]
pub struct SpoolFaults {
    /// At that of the spool file, if something is.
    pub file: Option<PathFault>,
    /// At that of its log, if something is.
    pub log: Option<PathFault>,
}

impl SpoolFaults {
    /// Nothing is wrong.
    pub fn none() -> SpoolFaults
        ensures { result ≡ no_faults }
    {
        SpoolFaults {
            file: None,
            log: None,
        }
    }
}

impl fmt::Display for PathFault {
    fn fmt<W: fmt::Write>(&self, f: &mut fmt::Formatter<W>) -> fmt::Result {
        f.write_str(match self {
            PathFault::Gone => "isn't there",
            PathFault::Other => "is another file",
            PathFault::Cut => "has been cut",
        })
    }
}

/// Shown as what is said of a spool file that was named.
impl fmt::Display for SpoolFaults {
    fn fmt<W: fmt::Write>(&self, f: &mut fmt::Formatter<W>) -> fmt::Result {
        match (self.file, self.log) {
            (None, None) => f.write_str("it and its log are there"),
            (Some(file), None) => write!(f, "it {file}"),
            (None, Some(log)) => write!(f, "its log {log}"),
            (Some(file), Some(log)) => write!(f, "it {file}, and its log {log}"),
        }
    }
}
