//! Why the program ends with another status than 0.

ghost use Rattle.std.specs.Prelude.{◌≡◌};
ghost use Rattle.std.specs.IoError.{error_kind};
ghost use Rattle.clap.specs.Words.{kind_of};
ghost use Rattle.njh_subcommands.specs.Status.{status_of, Becomes};

use clap::error::ErrorKind;
use njh_ctl::CtlFault;
use njh_encode::EncodeEnd;
use njh_hub::HubFault;
use njh_listing::FilesFault;
use njh_replay::ReplayFault;
use njh_table::TableFault;
use njh_trace::TraceFault;
use std::alloc::{AllocError, AllocFailed};
use std::{fmt, io};

/// What ended the program.
#[derive(Debug, Drop)]
pub enum Failure {
    /// The arguments are refused, or ask for help.
    Arguments(clap::Error),
    /// The table file is refused.
    Tables(TableFault),
    /// The replay ended early.
    Replay(ReplayFault),
    /// The trace wasn't said to its end.
    Trace(TraceFault),
    /// The lines in words weren't all encoded.
    Encode(EncodeEnd),
    /// A spool file wasn't printed or copied, or not all of what was asked for, or no hub was opened
    /// from it.
    Files(FilesFault),
    /// A command to the console of a hub that runs wasn't carried out, or not to its end.
    Control(CtlFault),
    /// A check found a fault, and said it on standard output.
    Found,
    /// A file or a stream failed outside a replay, or lines could not be served.
    Device,
    /// There was no memory, outside a replay.
    Memory,
}

impl Failure {
    /// The status to end with: 1 if the arguments, the tables, the script, the trace or a line
    /// in words are refused, a check found a fault, a spool file has no such file, several, one that
    /// can't be put back, or some where others are to be copied, or a hub refuses a command or
    /// doesn't do it; 2 if a file, a stream or memory fails; 3 if something is wrong with a hub.
    pub fn status(&self) -> u8
        ensures { result ≡ status_of self.now }
    {
        match self {
            Failure::Arguments(_) => 1,
            Failure::Tables(TableFault::Memory) => 2,
            Failure::Tables(_) => 1,
            Failure::Replay(ReplayFault::TooLong) => 1,
            Failure::Replay(ReplayFault::Script { .. }) => 1,
            Failure::Replay(ReplayFault::Device) => 2,
            Failure::Replay(ReplayFault::Hub(_)) => 2,
            Failure::Trace(TraceFault::TooLong) => 1,
            Failure::Trace(TraceFault::Device) => 2,
            Failure::Trace(TraceFault::Memory) => 2,
            Failure::Encode(EncodeEnd::BadLine(_)) => 1,
            Failure::Encode(EncodeEnd::Device) => 2,
            Failure::Encode(EncodeEnd::Memory) => 2,
            Failure::Files(FilesFault::NoFile(_)) => 1,
            Failure::Files(FilesFault::Several(_)) => 1,
            Failure::Files(FilesFault::Refused(_)) => 1,
            Failure::Files(FilesFault::Taken(_)) => 1,
            Failure::Files(_) => 2,
            Failure::Control(CtlFault::Refused(_)) => 1,
            Failure::Control(CtlFault::NotDone(_)) => 1,
            Failure::Control(CtlFault::BadName) => 1,
            Failure::Control(CtlFault::NoOrder) => 1,
            Failure::Control(CtlFault::NoLine) => 1,
            Failure::Control(CtlFault::NotALine) => 1,
            Failure::Control(CtlFault::TurnedDown) => 1,
            Failure::Control(CtlFault::Wrong) => 3,
            Failure::Control(_) => 2,
            Failure::Found => 1,
            Failure::Device => 2,
            Failure::Memory => 2,
        }
    }
}

impl fmt::Display for Failure {
    /// One line, but for the text of arguments that are refused; nothing of what a check found, and
    /// nothing where it was only asked whether something is wrong.
    fn fmt<W: fmt::Write>(&self, f: &mut fmt::Formatter<W>) -> fmt::Result {
        match self {
            Failure::Arguments(error) => write!(f, "{error}"),
            Failure::Tables(fault) => writeln!(f, "njehub: {fault}"),
            Failure::Replay(fault) => writeln!(f, "njehub: {fault}"),
            Failure::Trace(fault) => writeln!(f, "njehub: {fault}"),
            Failure::Encode(end) => writeln!(f, "njehub: {end}"),
            Failure::Files(fault) => writeln!(f, "njehub: {fault}"),
            Failure::Control(CtlFault::Wrong) => Ok(()),
            Failure::Control(fault) => writeln!(f, "njehub: {fault}"),
            Failure::Found => Ok(()),
            Failure::Device => writeln!(f, "njehub: {}", ReplayFault::Device),
            Failure::Memory => writeln!(f, "njehub: {}", HubFault::Memory),
        }
    }
}

impl From<clap::Error> for Failure {
    ghost use Rattle.clap.specs.declared.error.ErrorKind.TheVariants.{OutOfMemory};
    ghost use Rattle.njh_subcommands.specs.declared.failure.Failure.TheVariants.{Arguments};

    ghost from_gives = { λ error failure. Becomes (kind_of error) OutOfMemory (Arguments error) failure };

    fn from(error: clap::Error) -> Failure {
        match error.kind() {
            ErrorKind::OutOfMemory => Failure::Memory,
            _ => Failure::Arguments(error),
        }
    }
}

impl From<TableFault> for Failure {
    ghost use Rattle.njh_subcommands.specs.declared.failure.Failure.TheVariants.{Tables};

    ghost from_gives = { λ fault failure. failure ≡ Tables fault };

    fn from(fault: TableFault) -> Failure {
        Failure::Tables(fault)
    }
}

impl From<ReplayFault> for Failure {
    ghost use Rattle.njh_subcommands.specs.declared.failure.Failure.TheVariants.{Replay};

    ghost from_gives = { λ fault failure. failure ≡ Replay fault };

    fn from(fault: ReplayFault) -> Failure {
        Failure::Replay(fault)
    }
}

impl From<TraceFault> for Failure {
    ghost use Rattle.njh_subcommands.specs.declared.failure.Failure.TheVariants.{Trace};

    ghost from_gives = { λ fault failure. failure ≡ Trace fault };

    fn from(fault: TraceFault) -> Failure {
        Failure::Trace(fault)
    }
}

impl From<EncodeEnd> for Failure {
    ghost use Rattle.njh_subcommands.specs.declared.failure.Failure.TheVariants.{Encode};

    ghost from_gives = { λ end failure. failure ≡ Encode end };

    fn from(end: EncodeEnd) -> Failure {
        Failure::Encode(end)
    }
}

impl From<FilesFault> for Failure {
    ghost use Rattle.njh_subcommands.specs.declared.failure.Failure.TheVariants.{Files};

    ghost from_gives = { λ fault failure. failure ≡ Files fault };

    fn from(fault: FilesFault) -> Failure {
        Failure::Files(fault)
    }
}

impl From<AllocError> for Failure {
    ghost use Rattle.njh_subcommands.specs.declared.failure.Failure.TheVariants.{Memory};

    ghost from_gives = { λ _ failure. failure ≡ Memory };

    fn from(_error: AllocError) -> Failure {
        Failure::Memory
    }
}

impl<T: Drop> From<AllocFailed<T>> for Failure {
    ghost use Rattle.njh_subcommands.specs.declared.failure.Failure.TheVariants.{Memory};

    ghost from_gives = { λ _ failure. failure ≡ Memory };

    fn from(_error: AllocFailed<T>) -> Failure {
        Failure::Memory
    }
}

impl From<io::Error> for Failure {
    ghost use Rattle.std.specs.declared.io.ErrorKind.TheVariants.{OutOfMemory};
    ghost use Rattle.njh_subcommands.specs.declared.failure.Failure.TheVariants.{Device};

    ghost from_gives = { λ error failure. Becomes (error_kind error) OutOfMemory Device failure };

    fn from(error: io::Error) -> Failure {
        match error.kind() {
            io::ErrorKind::OutOfMemory => Failure::Memory,
            _ => Failure::Device,
        }
    }
}
