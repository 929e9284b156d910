//! Single steps of a hub, a sink that refuses, and the printed names of the faults.

use crate::trial::{A1, NOWHERE, bytes_of};
use njh_hub::{Cause, Event, FileView, Hub, HubFault, Piece, RunFault, Sink, SinkFault};
use njh_table::LineId;
use std::alloc::{AllocError, Global};
use std::io;

/// ENQ, in hex as all frames here.
pub const CONTACT: &str = "012d";

/// SYN, ENQ, and ENQ again.
const CONTACTS: &str = "32012d012d";

/// The sign-on of LYON.
pub const SIGN_ON: &str =
    "1002a08fcff0c929d3e8d6d540404040010000000000000400404040404040404040404040404040400000000000001026";

/// LIST of ANNA at LYON.
pub const LIST: &str =
    "1002808fcf9a80caa0770004c2e4d9c5c1e482c500c1d5d5c184c4d3e8d6d584c500d3c9e2e300001026";

/// A request for SYSOUT 1.
pub const REQUEST: &str = "1002808fcf909900001026";

/// Job 42 of ANNA at LYON to PAUL at METZ: job header, data set header, HELLO, trailer, end of
/// file.
pub const FILE: &str = concat!(
    "1002818fcf",
    "99c0c20064a300c160a300c12ab200ccd7c1e8d9d6d3d340c1d5d5c184b800c4d3e8d6d584c4c1d5d5c184c4d4c5e3e98c00",
    "99e0c20018a300c7140000d4c5e3e984c4d7c1e4d38400",
    "9980c605c8c5d3d3d600",
    "99d0c40004000000",
    "99800000",
    "1026"
);

/// Takes so many frames, and refuses every other.
#[derive(Drop)]
struct Refusing {
    left: u64,
    failures: u64,
}

impl Sink for Refusing {
    ghost use Rattle.std.specs.Prelude.{⊤};

    // Which frames it takes is of no matter here.
    ghost took = { λ before after pairs. ⊤ };

    ghost refused = { λ before after pair. ⊤ };

    ghost count = { λ sink. sink.failures };

    ghost none = { λ s. tt };

    ghost more = { λ a b c xs ys first then. tt };

    fn failures(&self) -> u64 {
        self.failures
    }

    fn send(&mut self, _id: LineId, _frame: &[u8]) -> Result<(), SinkFault> {
        if self.left == 0 {
            self.failures = self.failures.saturating_add(1);
            return Err(SinkFault);
        }
        self.left -= 1;
        Ok(())
    }
}

/// Says what a step on the first line answers, and the frame that it sends.
fn show<R: Print + AllocGlobal>(
    rt: &R,
    step: &str,
    answer: Result<usize, HubFault>,
    out: &[u8],
) -> io::Result<()> {
    let frame = hex::encode(rt.alloc(), out)?;
    match answer {
        Ok(taken) => println!(rt; "{step}: {taken} [{frame}]")?,
        Err(fault) => println!(rt; "{step}: {fault}")?,
    }
    Ok(())
}

/// A step by bytes of the first line.
fn take_bytes<R: Print + AllocGlobal>(rt: &R, hub: &mut Hub, digits: &str) -> io::Result<()> {
    let piece = bytes_of(rt.alloc(), digits)?;
    let mut out = Vec::new(rt.alloc());
    let answer = hub.take(A1, &piece, &mut out);
    show(rt, "take", answer, &out)
}

/// A step by a signal of a line: a tick, a garbled text, or the line's loss.
fn take_signal<R: Print + AllocGlobal>(
    rt: &R,
    hub: &mut Hub,
    step: &str,
    id: LineId,
) -> io::Result<()> {
    let mut out = Vec::new(rt.alloc());
    let answer = match step {
        "tick" => hub.tick(id, &mut out),
        "garbled" => hub.garbled(id, &mut out),
        _ => hub.lost(id, &mut out),
    };
    show(rt, step, answer.map(|_| 0), &out)
}

/// Each step answers where there is memory, and takes the bytes of one frame that is answered.
pub(crate) fn take<R: Print + AllocGlobal>(rt: &R, hub: &mut Hub) -> io::Result<()> {
    for digits in [CONTACTS, "", SIGN_ON] {
        take_bytes(rt, hub, digits)?;
    }
    take_signal(rt, hub, "tick", A1)?;
    take_signal(rt, hub, "garbled", A1)?;
    take_signal(rt, hub, "tick", NOWHERE)?;
    take_signal(rt, hub, "lost", A1)
}

/// A step asks for memory where `out` has no room for the longest frame, of 8,196 bytes, and
/// nowhere else.
pub(crate) fn fit<R: Print + AllocGlobal>(rt: &R, hub: &mut Hub) -> io::Result<()> {
    for room in [8_195, 8_196] {
        take_within(rt, hub, room)?;
    }
    Ok(())
}

/// Says whether a step makes its `out` larger, where that has so much room.
fn take_within<R: Print + AllocGlobal>(rt: &R, hub: &mut Hub, room: usize) -> io::Result<()> {
    let contact = bytes_of(rt.alloc(), CONTACT)?;
    let mut out = Vec::with_capacity(rt.alloc(), room)?;
    let before = out.capacity();
    let answer = hub.take(A1, &contact, &mut out);
    if out.capacity() == before {
        println!(rt; "room for {room}: it stays so")?;
    } else {
        println!(rt; "room for {room}: more is taken")?;
    }
    show(rt, "take", answer, &out)
}

/// Says how many files a customer has.
fn count_files<R: Print>(rt: &R, hub: &Hub, customer: u16) -> io::Result<()> {
    match hub.files(customer) {
        Ok(files) => println!(rt; "files: {}", files.len())?,
        Err(fault) => println!(rt; "files: {fault}")?,
    }
    Ok(())
}

/// What is said of each of a customer's files, and its records.
fn show_files<R: Print + AllocGlobal>(rt: &R, hub: &Hub, customer: u16) -> io::Result<()> {
    match hub.files(customer) {
        Ok(files) => {
            for file in files.iter() {
                show_file(rt, file)?;
            }
        }
        Err(fault) => println!(rt; "files: {fault}")?,
    }
    Ok(())
}

fn show_file<R: Print + AllocGlobal>(rt: &R, file: &FileView) -> io::Result<()> {
    let line = hex::encode(rt.alloc(), &file.line())?;
    println!(rt; "file: {line}")?;
    for record in file.records() {
        let bytes = hex::encode(rt.alloc(), record.bytes())?;
        println!(rt; "record: {:02x} {bytes}", record.srcb())?;
    }
    Ok(())
}

/// A file comes in: its customer has it, with its records, and the other has none.
pub(crate) fn keep<R: Print + AllocGlobal>(rt: &R, hub: &mut Hub) -> io::Result<()> {
    for digits in [CONTACT, SIGN_ON, REQUEST, FILE] {
        take_bytes(rt, hub, digits)?;
    }
    for customer in 0..3 {
        show_files(rt, hub, customer)?;
    }
    Ok(())
}

/// The event that a line has these bytes.
fn bytes_came(alloc: Global, digits: &str) -> Result<Event, AllocError> {
    Ok(Event::Bytes(A1, Piece::of(alloc, &bytes_of(alloc, digits)?)?))
}

/// A sink refuses the second frame: the run says so, with that step counted, and the hub goes on
/// after it.
pub(crate) fn refuse<R: Print + AllocGlobal>(rt: &R, hub: &mut Hub) -> io::Result<()> {
    count_files(rt, hub, 0)?;
    count_files(rt, hub, 2)?;
    run_refused(rt, hub)?;
    take_bytes(rt, hub, LIST)
}

fn run_refused<R: Print + AllocGlobal>(rt: &R, hub: &mut Hub) -> io::Result<()> {
    let mut events = Vec::new(rt.alloc());
    for digits in [CONTACT, SIGN_ON, LIST] {
        events.push(bytes_came(rt.alloc(), digits)?)?;
    }
    let mut sink = Refusing {
        left: 1,
        failures: 0,
    };
    let ended = hub.run(&events, &mut sink);
    say_end(rt, ended, sink.failures)
}

/// Says where a run stopped.
fn say_end<R: Print>(rt: &R, ended: Result<(), RunFault>, failures: u64) -> io::Result<()> {
    match ended {
        Ok(()) => println!(rt; "run: done")?,
        Err(
            RunFault {
                events,
                bytes,
                cause: Cause::Sink,
            },
        ) => println!(rt;
            "run: the sink after {events} events and {bytes} bytes, {failures} failures"
        )?,
        Err(
            RunFault {
                cause: Cause::Hub(fault),
                ..
            },
        ) => println!(rt; "run: {fault}")?,
    }
    Ok(())
}
