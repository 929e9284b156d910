//! A hub with two lines, served over wires in memory.

ghost use Rattle.std.specs.Prelude.{◌≡◌};

use crate::memory_attendant::MemoryAttendant;
use crate::memory_keeper::MemoryKeeper;
use crate::memory_wire::MemoryWire;
use njh_hub::{Hub, HubFault};
use njh_table::{LineId, Tables};
use njh_turns::{KeepFault, Rounds, TurnsFault, attend, serve_turns};
use std::alloc::Global;
use std::process::Abort;
use std::test::Fail;

/// Two customers, each with a line to LYON; the first has one to OSLO too.
const TABLES: &str = r#"
capacity = 200
[[customer]]
name = "ACME"
hub = "BUREAU"
quota = 100
files = 8
line = [
    { name = "a1", node = "LYON", role = "answer", block = 1024, streams = 4 },
    { name = "a2", node = "OSLO", role = "answer", block = 1024, streams = 4 },
]
route = [{ node = "LYON", line = "a1" }, { node = "OSLO", line = "a2" }]
[[customer]]
name = "BOLT"
hub = "BUREAU"
quota = 100
files = 8
line = [{ name = "b1", node = "LYON", role = "answer", block = 1024, streams = 4 }]
route = [{ node = "LYON", line = "b1" }]
"#;

/// Their lines to LYON.
pub const LINES: [LineId; 2] = [
    LineId {
        customer: 0,
        number: 0,
    },
    LineId {
        customer: 1,
        number: 0,
    },
];

/// ACK0, the sign-on of the hub, and that there are no files.
pub static TOLD: [u8; 103] =
    *b"\x10\x70\x10\x02\xa0\x8f\xcf\xf0\xd1\x29\xc2\xe4\xd9\xc5\xc1\xe4\x40\x40\x01\x00\x00\x00\x00\x00\
    \x00\x04\x00\x40\x40\x40\x40\x40\x40\x40\x40\x40\x40\x40\x40\x40\x40\x40\x40\x00\x00\x00\x00\x00\
    \x00\x10\x26\x10\x02\x80\x8f\xcf\x9a\x80\xc8\x20\x77\x00\x0e\xd3\xe8\xd6\xd5\x84\xc5\x00\xc1\xd5\
    \xd5\xc1\x84\xc6\xc2\xe4\xd9\xc5\xc1\xe4\x82\xcf\x00\xd5\xd1\xc8\xf0\xf0\xf2\x40\xf0\x40\xc6\xc9\
    \xd3\xc5\xe2\x00\x00\x10\x26";

/// A hub of these tables.
pub(crate) fn opened(alloc: Global) -> Result<Hub, Fail> {
    let tables = Tables::read(alloc, TABLES)?;
    Ok(Hub::open(alloc, tables)?)
}

/// So many turns of wires of both lines, on a hub that is opened for them. Answers what the turns
/// answer.
pub(crate) fn serve<R: Abort>(
    rt: &R,
    alloc: Global,
    keeper: &mut MemoryKeeper,
    wires: &mut [MemoryWire; 2],
    turns: u32,
) -> Result<Result<(), TurnsFault>, Fail> {
    let mut hub = opened(alloc)?;
    Ok(serve_on(rt, alloc, &mut hub, keeper, wires, turns))
}

fn serve_on<R: Abort>(
    rt: &R,
    alloc: Global,
    hub: &mut Hub,
    keeper: &mut MemoryKeeper,
    wires: &mut [MemoryWire; 2],
    turns: u32,
) -> Result<(), TurnsFault> {
    assert!(rt; hub.is_line(LINES[0]));
    assert!(rt; hub.is_line(LINES[1]));
    serve_turns(alloc, hub, keeper, wires, &LINES, turns)
}

/// A service of wires of both lines, on a hub that is opened for them: so many rounds, and then so
/// many more. Answers what the service answers.
pub(crate) fn attend_twice<R: Abort>(
    rt: &R,
    alloc: Global,
    keeper: &mut MemoryKeeper,
    wires: &mut [MemoryWire; 2],
    attendant: &mut MemoryAttendant,
    rounds: [u64; 2],
) -> Result<Result<(), KeepFault>, Fail> {
    let mut hub = opened(alloc)?;
    Ok(attend_on(rt, alloc, &mut hub, keeper, wires, attendant, rounds)?)
}

fn attend_on<R: Abort>(
    rt: &R,
    alloc: Global,
    hub: &mut Hub,
    keeper: &mut MemoryKeeper,
    wires: &mut [MemoryWire; 2],
    attendant: &mut MemoryAttendant,
    [first, then]: [u64; 2],
) -> Result<Result<(), KeepFault>, HubFault> {
    assert!(rt; hub.is_line(LINES[0]));
    assert!(rt; hub.is_line(LINES[1]));
    let mut rounds = Rounds::new(alloc, &LINES)?;
    if let Err(fault) = attend(hub, keeper, wires, &mut rounds, attendant, first) {
        return Ok(Err(fault));
    }
    Ok(attend(hub, keeper, wires, &mut rounds, attendant, then))
}
