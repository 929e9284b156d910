//! The stored runs: the program with each, and what it says.
//!
//! `NAME.script` is what it is given to read, and `NAME.out` what it prints, with the log without
//! its times and the line of its failure at the end; a file of tables is named by the arguments.
//! `NAME.words`, where it is there, is what `decode` prints of `NAME.out`.

use crate::program::Program;
use crate::registry::{self, Entry, entry_of};
use crate::streams::{Calls, Run};
use crate::texts::{first_difference, first_miscount};
use crate::trial::Trial;
use crate::{likeness, mishaps, plays, spool_file};
use std::alloc::Global;
use std::fs::File;
use std::net::{Net, TcpListener, TcpStream};
use std::rt::Files;
use std::{fs, io};

/// Says of each run whether it is as it is stored, and how many scripts `decode` and `encode` bring
/// back.
pub fn compare_all<
    R: Files<File = File> + Net<Listener = TcpListener, Stream = TcpStream> + Print + AllocGlobal,
    P: Program,
>(rt: &R, program: &P) -> io::Result<()> {
    let table = fs::read_to_string(rt, registry::FILE)?;
    let brought = compare_each(rt, program, table.as_str())?;
    println!(rt; "scripts that decode and encode bring back: {brought}")
}

/// Says of each run of the table whether it is as it is stored; answers how many scripts are
/// brought back.
fn compare_each<
    R: Files<File = File> + Net<Listener = TcpListener, Stream = TcpStream> + Print + AllocGlobal,
    P: Program,
>(rt: &R, program: &P, table: &str) -> io::Result<u32> {
    let mut brought = 0u32;
    for line in table.lines() {
        if let Some(entry) = entry_of(line)
            && compare(rt, program, entry)?
        {
            brought = brought.saturating_add(1);
        }
    }
    Ok(brought)
}

/// A stored file.
pub(crate) fn stored<R: Files + AllocGlobal>(
    rt: &R,
    name: &str,
    ending: &str,
) -> io::Result<Vec<u8>> {
    let file = format!(in rt.alloc(); "{name}.{ending}")?;
    fs::read(rt, file.as_str())
}

/// Says whether a run is as it is stored, and so with all that is asked of it; answers whether it
/// is a script that `decode` and `encode` bring back.
fn compare<
    R: Files<File = File> + Net<Listener = TcpListener, Stream = TcpStream> + Print + AllocGlobal,
    P: Program,
>(rt: &R, program: &P, entry: Entry<'_>) -> io::Result<bool> {
    let script = stored(rt, entry.name, "script")?;
    let output = stored(rt, entry.name, "out")?;
    let words = entry.words(rt.alloc())?;
    let trial = Trial {
        words: &words,
        script: &script,
        output: &output,
    };
    compare_trial(rt, program, entry, trial)
}

/// Says so of a run whose files are read.
fn compare_trial<
    R: Files<File = File> + Net<Listener = TcpListener, Stream = TcpStream> + Print + AllocGlobal,
    P: Program,
>(rt: &R, program: &P, entry: Entry<'_>, trial: Trial<'_>) -> io::Result<bool> {
    compare_asked(rt, program, entry, trial)?;
    compare_words(rt, program, entry.name, trial.output)?;
    if entry.asked("streams").is_some() {
        mishaps::compare(rt, program, trial)?;
    }
    if let Some(other) = entry.asked("like ") {
        compare_like(rt, entry.name, trial.output, other)?;
    }
    if entry.status == 0 && entry.with.starts_with("replay") {
        return is_brought(rt, program, entry.name, trial.script);
    }
    Ok(false)
}

/// Says whether a run is as it is stored, and what is asked of its peer and its spool file.
fn compare_asked<
    R: Files<File = File> + Net<Listener = TcpListener, Stream = TcpStream> + Print + AllocGlobal,
    P: Program,
>(rt: &R, program: &P, entry: Entry<'_>, trial: Trial<'_>) -> io::Result<()> {
    match entry.asked("peer ") {
        Some(played) => plays::compare_beside(rt, program, entry, trial, played)?,
        None => compare_alone(rt, program, entry, trial)?,
    }
    if entry.asked("modes").is_some() {
        spool_file::say_modes(rt, entry.name, spool_file::named_in(trial.words)?)?;
    }
    Ok(())
}

/// Says whether a run without a peer is as it is stored, and whether its spool file stays as it is,
/// if that is asked. It may be in use all the while.
fn compare_alone<R: Files<File = File> + Print + AllocGlobal, P: Program>(
    rt: &R,
    program: &P,
    entry: Entry<'_>,
    trial: Trial<'_>,
) -> io::Result<()> {
    let mut run = Run::new(rt.alloc(), trial.script, Calls::good(), Calls::good());
    if entry.asked("stays").is_none() {
        return compare_run(rt, program, entry, trial, &mut run);
    }
    let spool = spool_file::named_in(trial.words)?;
    let before = fs::read(rt, spool)?;
    let held = match entry.asked("in use") {
        Some(_) => Some(spool_file::hold(rt, spool)?),
        None => None,
    };
    compare_run(rt, program, entry, trial, &mut run)?;
    drop(held);
    let name = entry.name;
    if fs::read(rt, spool)? == before {
        println!(rt; "{name}: {spool} is as it was")
    } else {
        println!(rt; "{name}: {spool} isn't as it was")
    }
}

/// Says whether ACME's lines of what is stored of a run are those of another run.
fn compare_like<R: Files + Print + AllocGlobal>(
    rt: &R,
    name: &str,
    output: &[u8],
    other: &str,
) -> io::Result<()> {
    let stored = stored(rt, other, "out")?;
    likeness::compare(rt, name, output, &stored)
}

/// Says whether a run prints what is stored and ends with the status that is stored. The text for
/// arguments that are refused is that of `clap`, and isn't compared.
pub(crate) fn compare_run<R: Print + AllocGlobal, P: Program>(
    rt: &R,
    program: &P,
    entry: Entry<'_>,
    trial: Trial<'_>,
    run: &mut Run<'_>,
) -> io::Result<()> {
    let name = entry.name;
    if !entry.is_said_by(trial.script) {
        println!(rt; "{name}: about something else")?;
    }
    let status = program.run(trial.words, run)?;
    let told = run.told(rt.alloc())?;
    match other_line(entry, &told, trial.output) {
        Some(number) => println!(rt; "{name}: differs in line {number}, status {status}"),
        None if status != entry.status => println!(rt; "{name}: same, but status {status}"),
        None => println!(rt; "{name}: same, status {status}"),
    }
}

/// The number of the first line of a text that isn't as it is stored, as the run asks for it.
fn other_line(entry: Entry<'_>, told: &[u8], wanted: &[u8]) -> Option<u64> {
    if entry.asked("counts").is_some() {
        first_miscount(told, wanted)
    } else {
        first_difference(told, wanted)
    }
}

/// What the program makes of a text that it is given to read, by a subcommand.
fn made_of<P: Program>(
    alloc: Global,
    program: &P,
    words: &[&str],
    text: &[u8],
) -> io::Result<Vec<u8>> {
    let mut run = Run::new(alloc, text, Calls::good(), Calls::good());
    program.run(words, &mut run)?;
    Ok(run.told(alloc)?)
}

/// Says whether what is stored says what is stored of it in words, where that is.
fn compare_words<R: Files + Print + AllocGlobal, P: Program>(
    rt: &R,
    program: &P,
    name: &str,
    output: &[u8],
) -> io::Result<()> {
    let Ok(wanted) = stored(rt, name, "words") else {
        return Ok(());
    };
    let told = made_of(rt.alloc(), program, &["njehub", "decode"], output)?;
    match first_difference(&told, &wanted) {
        None => println!(rt; "{name}: same in words"),
        Some(number) => println!(rt; "{name}: differs in words in line {number}"),
    }
}

/// Whether `encode` makes a script of what `decode --hex` says of it; the end of the last line may
/// be new.
fn is_brought<R: Print + AllocGlobal, P: Program>(
    rt: &R,
    program: &P,
    name: &str,
    script: &[u8],
) -> io::Result<bool> {
    let told = made_of(rt.alloc(), program, &["njehub", "decode", "--hex"], script)?;
    let back = made_of(rt.alloc(), program, &["njehub", "encode"], &told)?;
    let text = back.as_slice();
    let brought = text == script || text.strip_suffix(b"\n") == Some(script);
    if !brought {
        println!(rt; "{name}: decode and encode make another script")?;
    }
    Ok(brought)
}
