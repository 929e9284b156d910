//! Runs over streams that fail, fall short or are interrupted at each of their calls in turn.

use crate::program::Program;
use crate::streams::{Calls, Mishap, Run};
use crate::trial::Trial;
use std::alloc::Global;
use std::io;

/// More calls than any of these runs takes.
const MANY: u64 = 10_000;

/// Each mishap, and its name.
const MISHAPS: [(Mishap, &str); 3] = [
    (Mishap::Fails, "fails"),
    (Mishap::FallsShort, "falls short"),
    (Mishap::IsInterrupted, "is interrupted"),
];

/// Says how a run ends where one read, or one write, goes amiss.
pub fn compare<R: Print + AllocGlobal, P: Program>(
    rt: &R,
    program: &P,
    trial: Trial<'_>,
) -> io::Result<()> {
    for (mishap, what) in MISHAPS {
        say(rt, program, trial, true, mishap, what)?;
    }
    for (mishap, what) in MISHAPS {
        say(rt, program, trial, false, mishap, what)?;
    }
    Ok(())
}

/// Says how a run ends where a read goes amiss so, or a write.
fn say<R: Print + AllocGlobal, P: Program>(
    rt: &R,
    program: &P,
    trial: Trial<'_>,
    is_read: bool,
    mishap: Mishap,
    what: &str,
) -> io::Result<()> {
    let name = trial.words.first().copied().unwrap_or("");
    let call = if is_read { "read" } else { "write" };
    match first_other(rt.alloc(), program, trial, is_read, mishap)? {
        None => println!(rt; "{name}: a {call} {what}: as it must"),
        Some(bad) => println!(rt; "{name}: a {call} {what}: otherwise at call {bad}"),
    }
}

/// The first call at which a mishap ends otherwise than it must, if there is one.
fn first_other<P: Program>(
    alloc: Global,
    program: &P,
    trial: Trial<'_>,
    is_read: bool,
    mishap: Mishap,
) -> io::Result<Option<u64>> {
    for bad in 1..MANY {
        match ends_so(alloc, program, trial, is_read, Calls::with(bad, mishap))? {
            End::Otherwise => return Ok(Some(bad)),
            End::AsItMust => {}
            End::Whole => return Ok(None),
        }
    }
    Ok(Some(MANY))
}

/// How a run ended in which a call was to go amiss.
#[derive(Clone, Copy)]
enum End {
    /// Otherwise than it must.
    Otherwise,
    /// As it must.
    AsItMust,
    /// As it must, and there were fewer calls than that.
    Whole,
}

/// How a run ends: it must with the whole output, or, where a call failed, as one whose device
/// fails, with a beginning of it.
fn ends_so<P: Program>(
    alloc: Global,
    program: &P,
    trial: Trial<'_>,
    is_read: bool,
    calls: Calls,
) -> io::Result<End> {
    let (reads, writes) = if is_read {
        (calls, Calls::with(0, calls.mishap))
    } else {
        (Calls::with(0, calls.mishap), calls)
    };
    let mut run = Run::new(alloc, trial.script, reads, writes);
    let status = program.run(trial.words, &mut run)?;
    Ok(end_of(trial, &run, status, is_read, calls))
}

/// How a run ended.
fn end_of(trial: Trial<'_>, run: &Run<'_>, status: u8, is_read: bool, calls: Calls) -> End {
    let had = if is_read {
        run.source.calls.had
    } else {
        run.drain.calls.had
    };
    let taken = run.drain.taken.as_slice();
    let is_right = if calls.fails() && calls.bad <= had {
        status == 2 && run.line.as_str() == "njehub: device\n" && trial.output.starts_with(taken)
    } else {
        status == 0 && taken == trial.output
    };
    if !is_right {
        End::Otherwise
    } else if had < calls.bad {
        End::Whole
    } else {
        End::AsItMust
    }
}
