//! Rounds in which each line that rests is prompted.

use crate::memory_attendant::MemoryAttendant;
use crate::memory_keeper::MemoryKeeper;
use crate::memory_wire::MemoryWire;
use crate::serving::{TOLD, opened};
use njh_hub::{Hub, HubFault};
use njh_table::LineId;
use njh_turns::{KeepFault, Rounds, attend};
use std::alloc::Global;
use std::process::Abort;
use std::test::Fail;

/// The line to OSLO, and then that to LYON.
const FROM_OSLO: [LineId; 2] = [
    LineId {
        customer: 0,
        number: 1,
    },
    LineId {
        customer: 0,
        number: 0,
    },
];

/// What LYON is told until it rests: ACK0, and the sign-on of the hub.
const SIGNED_ON: usize = 51;

/// ACK0, where a tick finds nothing to send.
const ACK0: &[u8] = b"\x10\x70";

/// The message of OSLO to LYON, in a block of the hub.
const MESSAGE: &[u8] =
    b"\x10\x02\x80\x8f\xcf\x9a\x80\xc8\xa0\x77\x00\x04\xd3\xe8\xd6\xd5\x84\xc5\x00\xc1\
    \xd5\xd5\xc1\x84\xc4\xd6\xe2\xd3\xd6\x84\xc5\x00\xd3\xc9\xe2\xe3\x00\x00\x10\x26";

/// The steps of OSLO's wire and of LYON's, which is visited after it; how many rounds there are;
/// and what LYON is told after the sign-on. After its ACK0 the line rests, in the fourth round:
/// what came of OSLO in that very round goes out in it. The ACK0 of a tick gives the turn away, and
/// then the line isn't prompted. Nor is it before the sign-on.
static ROUNDS: [(&str, &str, u64, &[u8]); 3] = [
    ("", "contact sign-on ack0", 3, b""),
    ("wait wait wait oslo", "contact sign-on ack0", 4, MESSAGE),
    ("", "contact sign-on ack0", 12, ACK0),
];

/// LYON asks for LIST while its line rests, at once or in two halves: bytes go before a prompt, and
/// while half a frame is there, which a tick would drop, the line isn't prompted.
static ASKS: [(&str, u64); 2] = [
    ("contact sign-on ack0 list", 4),
    ("contact sign-on ack0 begun wait wait end", 7),
];

/// Rounds of wires of these lines, on a hub that is opened for them.
fn attend_on<R: Abort>(
    rt: &R,
    alloc: Global,
    hub: &mut Hub,
    wires: &mut [MemoryWire; 2],
    attendant: &mut MemoryAttendant,
    rounds: u64,
) -> Result<Result<(), KeepFault>, HubFault> {
    assert!(rt; hub.is_line(FROM_OSLO[0]));
    assert!(rt; hub.is_line(FROM_OSLO[1]));
    let mut lines = Rounds::new(alloc, &FROM_OSLO)?;
    let keeper = &mut MemoryKeeper::new(0, 0);
    Ok(attend(hub, keeper, wires, &mut lines, attendant, rounds))
}

/// What LYON is told after the sign-on, in so many rounds.
fn check<R: Abort>(
    rt: &R,
    alloc: Global,
    wires: &mut [MemoryWire; 2],
    attendant: &mut MemoryAttendant,
    rounds: u64,
    told: Option<&[u8]>,
) -> Result<(), Fail> {
    let mut hub = opened(alloc)?;
    attend_on(rt, alloc, &mut hub, wires, attendant, rounds)??;
    let sent = wires[1].sent();
    assert_eq!(rt; sent.get(..SIGNED_ON), TOLD.get(..SIGNED_ON), "{rounds}");
    assert_eq!(rt; sent.get(SIGNED_ON..), told, "{rounds}");
    Ok(())
}

#[test]
fn lines_that_rest_are_prompted(rt: HostRuntime) -> Result<(), Fail> {
    let attendant = &mut MemoryAttendant::prompting();
    for (oslo, lyon, rounds, told) in &ROUNDS {
        let wires = &mut [MemoryWire::new(*oslo, 0), MemoryWire::new(*lyon, 0)];
        check(&rt, rt.alloc(), wires, attendant, *rounds, Some(*told))?;
    }
    for (lyon, rounds) in &ASKS {
        let wires = &mut [MemoryWire::new("", 0), MemoryWire::new(*lyon, 0)];
        let told = TOLD.get(SIGNED_ON..);
        check(&rt, rt.alloc(), wires, attendant, *rounds, told)?;
    }
    Ok(())
}

/// Without a prompt the message waits for the tenth quiet.
#[test]
fn others_wait_for_a_tick(rt: HostRuntime) -> Result<(), Fail> {
    let attendant = &mut MemoryAttendant::new(None);
    for (rounds, told) in [(12, &MESSAGE[..0]), (13, MESSAGE)] {
        let wires = &mut [
            MemoryWire::new("wait wait wait oslo", 0),
            MemoryWire::new("contact sign-on ack0", 0),
        ];
        check(&rt, rt.alloc(), wires, attendant, rounds, Some(told))?;
    }
    Ok(())
}
