//! Who runs the program, as somebody who gives orders to a hub.

ghost use Rattle.std.specs.Prelude.{◌<◌};

use njh_ctl::{CtlFault, Giver};
use njh_sockets::utc_milliseconds;
use std::env;
use std::random::RandomSource;
use std::rt::{Clock, Env};

/// How many bytes the name of who gives orders has at most.
const LONGEST: usize = 48;

/// What the name is if the environment has none.
const NOBODY: &str = "unknown";

/// Marks are below this.
const MARKS: u64 = 1_000_000_000_000;

/// Who runs the program. His orders are told from those of others by a mark that is drawn.
pub(crate) fn giver_of<F: Env + Clock + RandomSource + AllocGlobal>(
    rt: &F,
) -> Result<Giver, CtlFault> {
    let by = user_of(rt)?;
    Ok(Giver::new(rt.alloc(), by, mark_of(rt)))
}

/// The user who runs the program, as the environment has him.
fn user_of<F: Env + AllocGlobal>(rt: &F) -> Result<String, CtlFault> {
    if let Some(user) = named_by(rt, "USER") {
        return Ok(user);
    }
    if let Some(user) = named_by(rt, "LOGNAME") {
        return Ok(user);
    }
    Ok(String::from_str(rt.alloc(), NOBODY)?)
}

/// The name that a variable of the environment has, if it is one.
fn named_by<F: Env + AllocGlobal>(rt: &F, variable: &str) -> Option<String> {
    match env::var(rt, variable) {
        Ok(name) if !name.is_empty() && name.len() <= LONGEST => Some(name),
        Ok(_) | Err(_) => None,
    }
}

/// A mark that nobody else is likely to have.
fn mark_of<F: Clock + RandomSource>(rt: &F) -> u64
    ensures { result < 1000000000000 }
{
    let mut bytes = [0; 8];
    match rt.fill_bytes(&mut bytes) {
        Ok(()) => u64::from_le_bytes(bytes) % MARKS,
        Err(_) => u64::try_from(utc_milliseconds(rt)).unwrap_or(0) % MARKS,
    }
}
