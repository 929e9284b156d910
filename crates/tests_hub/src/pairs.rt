//! Two runs of which one has another customer: ACME is sent the same, and has the same files.

use crate::steps::{CONTACT, FILE, REQUEST, SIGN_ON};
use crate::trial::{A1, B1, bytes_of, tables_of};
use njh_hub::{Event, Piece, Sink, SinkFault, Trial, two_runs};
use njh_table::LineId;
use std::alloc::{AllocError, Global};
use std::io;
use std::io::ErrorKind;

/// The number of ACME in both tables.
const ACME: u16 = 0;

/// Keeps the frames on ACME's lines, each after its line's number.
#[derive(Drop)]
struct Kept {
    bytes: Vec<u8>,
    failures: u64,
}

impl Sink for Kept {
    ghost use Rattle.std.specs.Prelude.{⊤};

    // What it takes is of no matter here.
    ghost took = { λ before after pairs. ⊤ };

    ghost refused = { λ before after pair. ⊤ };

    ghost count = { λ sink. sink.failures };

    ghost none = { λ s. tt };

    ghost more = { λ a b c xs ys first then. tt };

    fn failures(&self) -> u64 {
        self.failures
    }

    fn send(&mut self, id: LineId, frame: &[u8]) -> Result<(), SinkFault> {
        if id.customer != ACME {
            return Ok(());
        }
        match put_frame(&mut self.bytes, id.number, frame) {
            Ok(()) => Ok(()),
            Err(_) => {
                self.failures = self.failures.saturating_add(1);
                Err(SinkFault)
            }
        }
    }
}

fn put_frame(bytes: &mut Vec<u8>, number: u16, frame: &[u8]) -> Result<(), AllocError> {
    bytes.extend_from_slice(&number.to_be_bytes())?;
    bytes.extend_from_slice(frame)
}

/// A file comes to ACME on a1; with BOLT the same comes on b1, each piece before ACME's.
fn events_of(alloc: Global, with_bolt: bool) -> Result<Vec<Event>, AllocError> {
    let mut events = Vec::new(alloc);
    for digits in [CONTACT, SIGN_ON, REQUEST, FILE] {
        if with_bolt {
            events.push(Event::Bytes(B1, Piece::of(alloc, &bytes_of(alloc, digits)?)?))?;
        }
        events.push(Event::Bytes(A1, Piece::of(alloc, &bytes_of(alloc, digits)?)?))?;
    }
    Ok(events)
}

/// Runs a hub of both customers and one of ACME alone, and says what ACME has in each.
pub(crate) fn compare<R: Print + AllocGlobal>(rt: &R, both: &str, alone: &str) -> io::Result<()> {
    let alloc = rt.alloc();
    let all = events_of(alloc, true)?;
    let own = events_of(alloc, false)?;
    let mut one = nothing(alloc);
    let mut other = nothing(alloc);
    let counts = run_both(alloc, [both, alone], [&all, &own], &mut one, &mut other)?;
    say(rt, counts, &one.bytes, &other.bytes)
}

fn nothing(alloc: Global) -> Kept {
    Kept {
        bytes: Vec::new(alloc),
        failures: 0,
    }
}

/// How many files ACME has in each run.
fn run_both(
    alloc: Global,
    tables: [&str; 2],
    events: [&[Event]; 2],
    kept: &mut Kept,
    other_kept: &mut Kept,
) -> io::Result<(usize, usize)> {
    let [first, second] = tables;
    let first = tables_of(alloc, first)?;
    let second = tables_of(alloc, second)?;
    let [all, own] = events;
    let one = Trial {
        tables: first,
        customer: ACME,
        events: all,
    };
    let other = Trial {
        tables: second,
        customer: ACME,
        events: own,
    };
    match two_runs(alloc, one, kept, other, other_kept) {
        Ok((files, other_files)) => Ok((files.len(), other_files.len())),
        Err(_) => Err(io::Error::from(ErrorKind::OutOfMemory)),
    }
}

fn say<R: Print>(rt: &R, files: (usize, usize), one: &[u8], other: &[u8]) -> io::Result<()> {
    let verdict = if one == other { "the same" } else { "others" };
    println!(rt;
        "two runs: {} bytes on ACME's lines, {verdict} without BOLT; files: {}, {}",
        one.len(),
        files.0,
        files.1
    )
}
