//! The console that a command is for, and how it is reached.

ghost use Rattle.std.specs.Prelude.{IfErr};
ghost use Rattle.njh_ctl.specs.Faults.{IsPlain};

use njh_ctl::{CtlFault, Machine};
use njh_sockets::utc_milliseconds;
use std::env::VarError;
use std::io::ErrorKind;
use std::net::Net;
use std::os::unix::net::UnixStream;
use std::rt::{Clock, Env};
use std::time::Duration;
use std::{env, io};

/// Where the unit of systemd has the console.
const CONSOLE: &str = "/run/njehub/console";

/// For how many seconds a console may answer nothing. By then no order may be carried out any more
/// that it was asked for.
const SILENCE: u64 = 5;

/// The console at the path that is named, or else at that of the environment.
#[derive(Drop)]
pub(crate) struct ConsoleOf<'a, F: Net + Env + Clock + AllocGlobal> {
    pub(crate) rt: &'a F,
    pub(crate) console: Option<&'a str>,
}

impl<F: Net + Env + Clock + AllocGlobal> Machine<UnixStream> for ConsoleOf<'_, F> {
    fn connect(&self) -> Result<UnixStream, CtlFault> {
        stream_of(self.rt, self.console)
    }

    fn now(&self) -> u64 {
        u64::try_from(utc_milliseconds(self.rt)).unwrap_or(0) / 1000
    }
}

/// A stream to the console at the path that is named, or else to that of the environment.
fn stream_of<F: Net + Env + AllocGlobal>(
    rt: &F,
    console: Option<&str>,
) -> Result<UnixStream, CtlFault>
    ensures fault { IfErr result IsPlain }
{
    match console {
        Some(path) => stream_to(rt, path),
        None => {
            let path = usual_path(rt)?;
            stream_to(rt, path.as_str())
        }
    }
}

/// Where the console is if no path is named: where the environment says, if it does, or else where
/// the unit has it.
fn usual_path<F: Env + AllocGlobal>(rt: &F) -> Result<String, CtlFault>
    ensures fault { IfErr result IsPlain }
{
    match env::var(rt, "NJEHUB_CONSOLE") {
        Ok(path) if !path.is_empty() => Ok(path),
        Ok(_) | Err(VarError::NotPresent) => Ok(String::from_str(rt.alloc(), CONSOLE)?),
        Err(VarError::NotUnicode) => Err(CtlFault::NoConsole(String::from_str(
            rt.alloc(),
            "NJEHUB_CONSOLE is not UTF-8",
        )?)),
        Err(VarError::OutOfMemory) => Err(CtlFault::Memory),
    }
}

/// A stream to the console at a path, on which nothing waits for longer than a console may answer
/// nothing.
fn stream_to<F: Net + AllocGlobal>(rt: &F, path: &str) -> Result<UnixStream, CtlFault>
    ensures fault { IfErr result IsPlain }
{
    match connected(rt, path) {
        Ok(stream) => Ok(stream),
        Err(error) => {
            let why = why_unreached(error.kind());
            Err(CtlFault::NoConsole(format!(in rt.alloc(); "console {path}: {why}")?))
        }
    }
}

fn connected<F: Net>(rt: &F, path: &str) -> io::Result<UnixStream> {
    let stream = UnixStream::connect(rt, path)?;
    stream.set_read_timeout(Some(Duration::from_secs(SILENCE)))?;
    stream.set_write_timeout(Some(Duration::from_secs(SILENCE)))?;
    Ok(stream)
}

/// Why a console can't be reached.
fn why_unreached(kind: ErrorKind) -> &'static str {
    match kind {
        ErrorKind::NotFound => "not found",
        ErrorKind::PermissionDenied => "not permitted",
        ErrorKind::ConnectionRefused => "no hub has it open",
        _ => "can't be reached",
    }
}
