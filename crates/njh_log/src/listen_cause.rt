//! Why a line's socket could not be opened.

use std::fmt;

/// Why a line's socket could not be opened.
#[derive(Clone, Copy, Debug, PartialEq, Eq)]
pub enum ListenCause {
    /// Another line before it has the same port.
    SamePort,
    /// Another program listens on the port.
    PortInUse,
    /// The port may not be listened on.
    NotPermitted,
    /// The address where lines listen is none of this machine's.
    NotHere,
    /// There may be no more files open.
    TooManyFiles,
    /// The system refused for another reason.
    Device,
    /// There was no memory.
    Memory,
}

impl fmt::Display for ListenCause {
    fn fmt<W: fmt::Write>(&self, f: &mut fmt::Formatter<W>) -> fmt::Result {
        f.write_str(match self {
            ListenCause::SamePort => "the same port as another line's",
            ListenCause::PortInUse => "in use",
            ListenCause::NotPermitted => "not permitted",
            ListenCause::NotHere => "no address of this machine",
            ListenCause::TooManyFiles => "too many open files",
            ListenCause::Device => "refused by the system",
            ListenCause::Memory => "no memory",
        })
    }
}
