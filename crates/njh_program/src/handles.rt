//! Whether the program may have the handles that lines need.

ghost use Rattle.std.specs.Prelude.{◌≡◌, ◌-◌, ◌<◌, ◌≤◌, ◌↔◌, min, IfErr, IfOk, IsSome};
ghost use Rattle.njh_program.specs.ProgramOutcome.{IsOfDevices};
ghost use Rattle.njh_sites.specs.Handles.{handles_needed};

use njh_log::{Heading, Log};
use njh_sites::{Endpoint, endpoints_of, handles_needed};
use njh_sockets::utc_milliseconds;
use njh_subcommands::{Failure, table_bytes};
use njh_table::Tables;
use std::fmt;
use std::io::Write;
use std::rt::{Clock, Files};

/// The file in which the system says what a program may have.
const LIMITS: &str = "/proc/self/limits";

/// What its line begins with that has how many handles that is.
const HANDLES: &str = "Max open files";

/// In how many handles at most those wait who come to lines, those of all lines together.
const MOST_GUESTS: u64 = 64;

/// Refuses tables whose lines need more handles than the program may have, and logs that. Where the
/// system doesn't say how many these are, nothing is refused. Answers how many handles may be taken
/// by those who wait for a line: 64, or as many as are left.
pub(crate) fn refuse_few<F: Files + Clock + AllocGlobal, L: Write + Drop>(
    rt: &F,
    tables: &Tables,
    log: &mut Log<L>,
) -> Result<u64, Failure>
    ensures refused { IfErr result IsOfDevices }
    ensures few { IfOk result (λ guests. guests ≤ 64) }
{
    let Some(limit) = limit_of(rt) else {
        return Ok(MOST_GUESTS);
    };
    let endpoints = match endpoints_of(rt.alloc(), tables) {
        Ok(endpoints) => endpoints,
        Err(_) => return Err(Failure::Memory),
    };
    match few_of(limit, &endpoints) {
        Some(few) => {
            log.write(Heading::error(utc_milliseconds(rt)), &few);
            Err(Failure::Device)
        }
        None => Ok(guests_of(limit, handles_needed(&endpoints))),
    }
}

/// How many may wait for a line, by how many handles there may be and how many are needed.
fn guests_of(limit: u64, needed: u64) -> u64
    ensures { result ≡ min (limit - needed) 64 }
{
    limit.saturating_sub(needed).min(MOST_GUESTS)
}

/// How many handles the program may have, if the system says so.
fn limit_of<F: Files + AllocGlobal>(rt: &F) -> Option<u64> {
    let Ok(bytes) = table_bytes(rt, LIMITS) else {
        return None;
    };
    match str::from_utf8(&bytes) {
        Ok(limits) => limit_in(limits),
        Err(_) => None,
    }
}

/// How many handles these limits say.
fn limit_in(limits: &str) -> Option<u64> {
    for line in limits.lines() {
        if let Some(rest) = line.strip_prefix(HANDLES) {
            return first_number(rest);
        }
    }
    None
}

/// The first of these words, if it is a number.
fn first_number(words: &str) -> Option<u64> {
    let word = words.split_ascii_whitespace().next()?;
    word.parse::<u64>().ok()
}

/// What is told of lines that need more handles than there may be, if they do.
fn few_of(limit: u64, endpoints: &[Endpoint]) -> Option<Few>
    ensures { IsSome result ↔ (limit < handles_needed endpoints.now) }
{
    let needed = handles_needed(endpoints);
    if needed <= limit {
        return None;
    }
    Some(Few {
        limit,
        lines: endpoints.len(),
        needed,
    })
}

/// Lines that need more handles than there may be.
#[derive(Clone, Copy, Drop)]
struct Few {
    limit: u64,
    lines: usize,
    needed: u64,
}

impl fmt::Display for Few {
    fn fmt<W: fmt::Write>(&self, f: &mut fmt::Formatter<W>) -> fmt::Result {
        write!(
            f,
            "RLIMIT_NOFILE is {}, {} lines need {}: raise ulimit -n",
            self.limit, self.lines, self.needed
        )
    }
}
