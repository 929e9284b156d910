//! Lines of scripts, each a script of its own, and scripts of the greatest length.

use crate::trial::tables_of;
use njh_check::{CheckFault, check_script};
use njh_replay::{ReplayFault, replay};
use njh_table::Tables;
use std::alloc::Global;
use std::io;
use std::io::{ErrorKind, Read};

/// Says how many of a text's lines are said as they are to be: each is followed by what is said of
/// it.
pub(crate) fn say_each<R: Print + AllocGlobal>(rt: &R, tables: &str, text: &str) -> io::Result<()> {
    let tables = tables_of(rt.alloc(), tables)?;
    let said = say_lines(rt, &tables, text);
    drop(tables);
    said
}

fn say_lines<R: Print + AllocGlobal>(rt: &R, tables: &Tables, text: &str) -> io::Result<()> {
    let mut lines = text.lines();
    let mut same = 0u32;
    while let Some(line) = lines.next() {
        let Some(wanted) = lines.next() else {
            break;
        };
        if is_said(rt.alloc(), tables, line, wanted)? {
            same = same.saturating_add(1);
        } else {
            println!(rt; "{line}: something else is said")?;
        }
    }
    println!(rt; "lines: {same} are said")
}

/// Whether of a script of a line this is said.
fn is_said(alloc: Global, tables: &Tables, line: &str, wanted: &str) -> io::Result<bool> {
    let mut out = Vec::new(alloc);
    match check_script(alloc, tables, line.as_bytes(), &mut out) {
        Ok(_) => Ok(out.strip_suffix(b"\n") == Some(wanted.as_bytes())),
        Err(_) => Err(io::Error::from(ErrorKind::OutOfMemory)),
    }
}

/// Says what is printed of a check that doesn't come to its end.
pub(crate) fn say_faults<R: Print>(rt: &R) -> io::Result<()> {
    println!(rt; "a check: {}, {}", CheckFault::Device, CheckFault::Memory)
}

/// How many bytes a script may have.
const LIMIT: u64 = 1_048_576;

/// Says how replays of scripts end that are one character again and again: of the greatest length,
/// and longer.
pub(crate) fn try_lengths<R: Print + AllocGlobal>(rt: &R, tables: &str) -> io::Result<()> {
    for (what, character, count) in [
        ("a comment", b'#', LIMIT),
        ("blanks", b' ', LIMIT),
        ("a blank more", b' ', LIMIT + 1),
    ] {
        match end_of(rt.alloc(), tables_of(rt.alloc(), tables)?, character, count) {
            Ok(()) => println!(rt; "{what}: run")?,
            Err(fault) => println!(rt; "{what}: {fault}")?,
        }
    }
    Ok(())
}

fn end_of(alloc: Global, tables: Tables, character: u8, count: u64) -> Result<(), ReplayFault> {
    let mut out = Vec::new(alloc);
    replay(
        alloc,
        tables,
        &mut io::repeat(character).take(count),
        &mut out,
    )
}
