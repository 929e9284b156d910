//! Runs beside which a peer plays what is stored of a line.

use crate::peer::Peer;
use crate::program::Program;
use crate::registry::Entry;
use crate::runs::{compare_run, stored};
use crate::streams::Run;
use crate::trial::Trial;
use std::alloc::Global;
use std::io::ErrorKind;
use std::net::{Net, TcpListener, TcpStream};
use std::rt::Files;
use std::{fs, io};

/// The file of tables that a run is given, in which the peer has its port.
const TABLES: &str = "peer.toml";

/// What `NAME.toml` has in place of the peer's port.
const PORT: &str = "PORT";

/// What a peer plays of a line.
#[derive(Drop)]
struct Part {
    /// All that it sends.
    sends: Vec<u8>,
    /// What it must be sent first.
    hears: Vec<u8>,
}

/// Says of a run whether it is as it is stored, if a peer plays beside it, and whether the peer was
/// sent what is stored. `played` names a line and a run, as `a1 of OTHER`.
pub fn compare_beside<
    R: Files + Net<Listener = TcpListener, Stream = TcpStream> + Print + AllocGlobal,
    P: Program,
>(rt: &R, program: &P, entry: Entry<'_>, trial: Trial<'_>, played: &str) -> io::Result<()> {
    let Some((line, other)) = played.split_once(" of ") else {
        return Err(io::Error::from(ErrorKind::InvalidInput));
    };
    let part = stored_part(rt, line, other)?;
    let heard = heard_beside(rt, program, entry, trial, &part.sends)?;
    let name = entry.name;
    let count = part.hears.len();
    if heard.starts_with(&part.hears) {
        println!(rt; "{name}: its peer was sent the {count} bytes of {other}")
    } else {
        println!(rt; "{name}: its peer wasn't sent the {count} bytes of {other}")
    }
}

/// What is stored of a line of a run: what the script says and what the output says.
fn stored_part<R: Files + AllocGlobal>(rt: &R, line: &str, run: &str) -> io::Result<Part> {
    let said = format!(in rt.alloc(); "BYTES {line} ")?;
    let sends = bytes_behind(rt.alloc(), &stored(rt, run, "script")?, said.as_str())?;
    let said = format!(in rt.alloc(); "{line} ")?;
    let hears = bytes_behind(rt.alloc(), &stored(rt, run, "out")?, said.as_str())?;
    Ok(Part { sends, hears })
}

/// The bytes that the lines of a text say in hex behind this.
fn bytes_behind(alloc: Global, text: &[u8], beginning: &str) -> io::Result<Vec<u8>> {
    let mut bytes = Vec::new(alloc);
    for line in text.split(|byte| *byte == b'\n') {
        if let Some(digits) = line.strip_prefix(beginning.as_bytes()) {
            add_bytes(alloc, &mut bytes, digits)?;
        }
    }
    Ok(bytes)
}

/// Adds the bytes that are said in hex.
fn add_bytes(alloc: Global, bytes: &mut Vec<u8>, digits: &[u8]) -> io::Result<()> {
    match hex::decode(alloc, digits) {
        Ok(more) => Ok(bytes.extend_from_slice(&more)?),
        Err(_) => Err(io::Error::from(ErrorKind::InvalidData)),
    }
}

/// Tries a run beside a peer that sends this, and answers what the peer was sent.
fn heard_beside<
    R: Files + Net<Listener = TcpListener, Stream = TcpStream> + Print + AllocGlobal,
    P: Program,
>(rt: &R, program: &P, entry: Entry<'_>, trial: Trial<'_>, sends: &[u8]) -> io::Result<Vec<u8>> {
    let peer = Peer::new(rt, sends)?;
    write_tables(rt, entry.name, peer.port()?)?;
    let mut run = Run::beside(rt.alloc(), trial.script, peer);
    compare_run(rt, program, entry, trial, &mut run)?;
    Ok(run.heard(rt.alloc())?)
}

/// Writes the tables of a run, with the peer's port.
fn write_tables<R: Files + AllocGlobal>(rt: &R, name: &str, port: u16) -> io::Result<()> {
    let file = format!(in rt.alloc(); "{name}.toml")?;
    let port = format!(in rt.alloc(); "{port}")?;
    let tables = fs::read_to_string(rt, file.as_str())?;
    let tables = tables.as_str().replace(rt.alloc(), PORT, port.as_str())?;
    fs::write(rt, TABLES, tables.as_str())
}
