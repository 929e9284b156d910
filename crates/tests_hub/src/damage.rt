//! Damaged input on a hub.
//!
//! `NAME.script` has the steps, and `NAME.out` what they do. A step is a line of the program's own
//! scripts, or `CUT`, which is `BYTES` with a piece that is cut, or `SHOW`, which says how many
//! blocks the first customer's files take, partial ones too, and lists the whole ones. The table of
//! `README.md` says how many bytes the piece of a script's `CUT` has, 0 where there is none. A
//! script with a `CUT` is played on a new hub for each place after which the piece is cut. What all
//! these do is said once where the steps do the same after several places: `from N` begins what
//! they do from the place N on.

use crate::trial::{A1, A2, bytes_of, of_hub, open};
use njh_ebcdic::text_of;
use njh_hub::{FileView, Hub, HubFault};
use njh_table::LineId;
use std::alloc::{AllocError, Global};
use std::io;

/// The customer whose blocks and files are shown.
const ACME: u16 = 0;

/// The name of a script, and how many bytes its piece has, where a line of the table is one's.
pub(crate) fn script_of(line: &str) -> Option<(&str, usize)> {
    let cells = line.strip_prefix("| ")?;
    let (name, rest) = cells.split_once(" | ")?;
    let (count, _) = rest.split_once(" | ")?;
    Some((name, count.parse::<usize>().ok()?))
}

/// What a script does, cut after each place of its piece of so many bytes.
pub(crate) fn play_all(
    alloc: Global,
    tables: &str,
    script: &str,
    count: usize,
) -> io::Result<String> {
    let mut told = String::new(alloc);
    let mut before = String::new(alloc);
    for place in 0..=count {
        let mut done = String::new(alloc);
        play(alloc, tables, script, place, &mut done)?;
        if done != before {
            if count > 0 {
                told.push_str(format!(in alloc; "from {place}\n")?.as_str())?;
            }
            told.push_str(done.as_str())?;
        }
        before = done;
    }
    Ok(told)
}

/// What a script does on a new hub, where its piece is cut after this place.
fn play(
    alloc: Global,
    tables: &str,
    script: &str,
    place: usize,
    told: &mut String,
) -> io::Result<()> {
    let mut hub = open(alloc, tables)?;
    let played = take_steps(alloc, &mut hub, script, place, told);
    drop(hub);
    played
}

/// What the steps of a script do.
fn take_steps(
    alloc: Global,
    hub: &mut Hub,
    script: &str,
    place: usize,
    told: &mut String,
) -> io::Result<()> {
    for step in script.lines() {
        match step.split_once(' ') {
            None if step == "SHOW" => show(alloc, hub, told)?,
            Some((word, rest)) if word != "#" => take_event(alloc, hub, word, rest, place, told)?,
            _ => {}
        }
    }
    Ok(())
}

/// What an event does: the frame that is sent is told, after its line's name.
fn take_event(
    alloc: Global,
    hub: &mut Hub,
    word: &str,
    rest: &str,
    place: usize,
    told: &mut String,
) -> io::Result<()> {
    let (name, digits) = rest.split_once(' ').unwrap_or((rest, ""));
    let id = if name == "a2" { A2 } else { A1 };
    let piece = bytes_of(alloc, digits)?;
    let mut out = Vec::new(alloc);
    let answer = match word {
        "BYTES" => take_bytes(hub, id, &piece, &mut out),
        "CUT" => take_bytes(hub, id, beginning(&piece, place), &mut out),
        "LOST" => hub.lost(id, &mut out),
        _ => Ok(()),
    };
    match answer {
        Ok(()) => Ok(tell_frame(alloc, name, &out, told)?),
        Err(fault) => Err(of_hub(fault)),
    }
}

/// A step by bytes, of which one frame at most is answered.
fn take_bytes(hub: &mut Hub, id: LineId, piece: &[u8], out: &mut Vec<u8>) -> Result<(), HubFault> {
    match hub.take(id, piece, out) {
        Ok(_) => Ok(()),
        Err(fault) => Err(fault),
    }
}

/// So many of the first bytes, or all.
fn beginning(piece: &[u8], count: usize) -> &[u8] {
    &piece[..count.min(piece.len())]
}

/// Tells a frame that was sent, if one was.
fn tell_frame(
    alloc: Global,
    name: &str,
    frame: &[u8],
    told: &mut String,
) -> Result<(), AllocError> {
    if frame.is_empty() {
        return Ok(());
    }
    let digits = hex::encode(alloc, frame)?;
    told.push_str(format!(in alloc; "{name} {digits}\n")?.as_str())
}

/// Tells how many blocks the first customer's files take, and its whole files.
fn show(alloc: Global, hub: &Hub, told: &mut String) -> io::Result<()> {
    match (hub.used(ACME), hub.files(ACME)) {
        (Ok(used), Ok(files)) => {
            told.push_str(format!(in alloc; "blocks: {used}\n")?.as_str())?;
            Ok(tell_files(&files, told)?)
        }
        (Err(fault), _) | (_, Err(fault)) => Err(of_hub(fault)),
    }
}

/// Tells what is said of each file.
fn tell_files(files: &[FileView], told: &mut String) -> Result<(), AllocError> {
    for file in files {
        for byte in &file.line() {
            told.push(text_of(*byte))?;
        }
        told.push('\n')?;
    }
    Ok(())
}
