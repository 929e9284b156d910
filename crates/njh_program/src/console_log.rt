//! The operator's console is opened, and the log says why it isn't.

ghost use Rattle.std.specs.Prelude.{IfErr};
ghost use Rattle.njh_program.specs.ProgramOutcome.{IsOfDevices};

use njh_log::{Heading, Log};
use njh_sockets::{ConsoleFault, MioNetwork, utc_milliseconds};
use njh_subcommands::Failure;
use std::fmt;
use std::io::Write;
use std::net::Net;
use std::rt::{Clock, Files};

/// Opens the console at a path, if there is to be one. If that isn't possible the log says why.
pub(crate) fn open_console<R: Files + Net + Clock + AllocGlobal, L: Write + Drop>(
    rt: &R,
    network: &mut MioNetwork<'_, R>,
    console: Option<&str>,
    log: &mut Log<L>,
) -> Result<(), Failure>
    ensures { IfErr result IsOfDevices }
{
    let Some(path) = console else {
        return Ok(());
    };
    match network.open_console(path) {
        Ok(()) => Ok(()),
        Err(fault) => {
            log.write(
                Heading::error(utc_milliseconds(rt)),
                &Closed { path, fault },
            );
            Err(Failure::Device)
        }
    }
}

/// Why a console isn't open.
fn why_closed(fault: ConsoleFault) -> &'static str {
    match fault {
        ConsoleFault::OpenFolder => "its folder isn't there, or hasn't mode 0700",
        ConsoleFault::InUse => "in use",
        ConsoleFault::Device => "can't be opened",
    }
}

/// A console that isn't open.
#[derive(Clone, Copy, Drop)]
struct Closed<'a> {
    path: &'a str,
    fault: ConsoleFault,
}

impl fmt::Display for Closed<'_> {
    fn fmt<W: fmt::Write>(&self, f: &mut fmt::Formatter<W>) -> fmt::Result {
        write!(f, "console {}: {}", self.path, why_closed(self.fault))
    }
}
