//! Turns over wires in memory.

use crate::memory_keeper::MemoryKeeper;
use crate::memory_wire::MemoryWire;
use crate::serving::{TOLD, serve};
use njh_turns::Wire;
use std::alloc::Global;
use std::process::Abort;
use std::test::Fail;

/// The steps of a wire, how many turns there are, and the frames that are sent. A closed line has
/// no session and no half of a frame: only a new contact is answered. After a contact a tick is
/// answered by NAK. The tenth quiet in a row is one, and then the count begins anew. A pending
/// answer is no event, and leaves the count as it is; that nobody is there is no event, and ends
/// the row.
static STEPS: [(&str, u32, &[u8]); 8] = [
    (
        "contact half closed sign-on contact",
        5,
        b"\x10\x70\x10\x70",
    ),
    ("contact", 10, b"\x10\x70"),
    ("contact", 11, b"\x10\x70\x3d"),
    ("contact", 20, b"\x10\x70\x3d"),
    ("contact", 21, b"\x10\x70\x3d\x3d"),
    ("contact quiet pending quiet pending", 12, b"\x10\x70"),
    ("contact quiet pending quiet pending", 13, b"\x10\x70\x3d"),
    ("contact quiet absent", 12, b"\x10\x70"),
];

/// The frames on a1, of a wire with these steps, over so many turns.
fn check<R: Abort>(
    rt: &R,
    alloc: Global,
    steps: &'static str,
    turns: u32,
    frames: &[u8],
) -> Result<(), Fail> {
    let mut wires = [MemoryWire::new(steps, 0), MemoryWire::new("", 0)];
    serve(rt, alloc, &mut MemoryKeeper::new(0, 0), &mut wires, turns)??;
    assert_eq!(rt; wires[0].sent(), frames, "{steps} {turns}");
    Ok(())
}

#[test]
fn frames_of_steps(rt: HostRuntime) -> Result<(), Fail> {
    check(&rt, rt.alloc(), "all", 1, &TOLD)?;
    check(&rt, rt.alloc(), "contact sign-on list", 3, &TOLD)?;
    for (steps, turns, frames) in &STEPS {
        check(&rt, rt.alloc(), steps, *turns, frames)?;
    }
    Ok(())
}

/// A read or a write of a wire fails: it is counted once, and the other wire sends what it sends
/// without that.
fn fail<R: Abort>(rt: &R, alloc: Global, wire: MemoryWire) -> Result<(), Fail> {
    let mut wires = [wire, MemoryWire::new("contact sign-on list", 0)];
    serve(rt, alloc, &mut MemoryKeeper::new(0, 0), &mut wires, 5)??;
    assert_eq!(rt; wires[0].failures(), 1);
    assert_eq!(rt; wires[1].sent(), TOLD.as_slice());
    Ok(())
}

#[test]
fn what_fails_on_a_wire_stays_there(rt: HostRuntime) -> Result<(), Fail> {
    let alloc = rt.alloc();
    fail(&rt, alloc, MemoryWire::new("fails sign-on list", 0))?;
    fail(&rt, alloc, MemoryWire::new("contact fails list", 0))?;
    fail(&rt, alloc, MemoryWire::new("contact sign-on list", 1))?;
    fail(&rt, alloc, MemoryWire::new("contact sign-on list", 2))
}
