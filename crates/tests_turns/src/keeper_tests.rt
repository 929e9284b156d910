//! Turns over wires in memory, with a keeper in memory that fails.

use crate::memory_attendant::MemoryAttendant;
use crate::memory_keeper::MemoryKeeper;
use crate::memory_wire::MemoryWire;
use crate::service_tests::{list_for, metz_by};
use crate::serving::{LINES, TOLD, attend_twice, serve};
use njh_turns::{KeepFault, TurnsFault};
use std::alloc::Global;
use std::process::Abort;
use std::test::Fail;

/// A peer makes contact, LYON signs on, and ANNA asks for LIST, each in one read.
const STEPS: &str = "contact sign-on list";

/// The step at which a keeper fails, and the settling; how many bytes of what LYON is told are
/// written on a1 in five turns, and how often each of both wires is read. The keeper follows each
/// step, in the order of the turns, before the step's frame is written: contact on both wires, the
/// sign-on on both, LIST on a1. It settles once a round, after the turns of both wires. If it
/// fails the frame of that step isn't written, and no wire is read after it.
const FAILURES: [([u32; 2], usize, [u32; 2]); 10] = [
    ([1, 0], 0, [1, 0]),
    ([2, 0], 2, [1, 1]),
    ([3, 0], 2, [2, 1]),
    ([4, 0], 51, [2, 2]),
    ([5, 0], 51, [3, 2]),
    ([0, 1], 2, [1, 1]),
    ([0, 2], 51, [2, 2]),
    ([0, 5], 103, [5, 5]),
    ([0, 0], 103, [5, 5]),
    ([0, 6], 103, [5, 5]),
];

/// Five turns with a keeper that fails, or doesn't.
fn fail_at<R: Abort>(
    rt: &R,
    alloc: Global,
    [step, settling]: [u32; 2],
    sent: usize,
    reads: [u32; 2],
) -> Result<(), Fail> {
    let mut keeper = MemoryKeeper::new(step, settling);
    let mut wires = [MemoryWire::new(STEPS, 0), MemoryWire::new(STEPS, 0)];
    let answered = serve(rt, alloc, &mut keeper, &mut wires, 5)?;
    let fails = step != 0 || (settling != 0 && settling != 6);
    let wanted = if fails {
        Err(TurnsFault::Keeper(KeepFault))
    } else {
        Ok(())
    };
    assert_eq!(rt; answered, wanted, "{step} {settling}");
    assert_eq!(rt;
        Some(wires[0].sent()),
        TOLD.get(..sent),
        "{step} {settling}"
    );
    assert_eq!(rt;
        [wires[0].reads(), wires[1].reads()],
        reads,
        "{step} {settling}"
    );
    Ok(())
}

#[test]
fn nothing_is_done_unkept(rt: HostRuntime) -> Result<(), Fail> {
    for (at, sent, reads) in &FAILURES {
        fail_at(&rt, rt.alloc(), *at, *sent, *reads)?;
    }
    Ok(())
}

/// Where it fails to settle the attendant doesn't come after the round, so what was written isn't
/// let out.
#[test]
fn nothing_is_let_out_unsettled(rt: HostRuntime) -> Result<(), Fail> {
    let mut keeper = MemoryKeeper::new(0, 1);
    let mut wires = [MemoryWire::new(STEPS, 0), MemoryWire::new(STEPS, 0)];
    let mut attendant = MemoryAttendant::new(None);
    let rounds = [1, 0];
    let answered = attend_twice(
        &rt,
        rt.alloc(),
        &mut keeper,
        &mut wires,
        &mut attendant,
        rounds,
    )?;
    assert_eq!(rt; answered, Err(KeepFault));
    assert_eq!(rt; wires[0].writes(), 1);
    assert_eq!(rt; [attendant.before, attendant.after], [1, 0]);
    assert_eq!(rt; keeper.settlings, 1);
    Ok(())
}

/// Something is given, and a keeper fails after that: how often it followed and settled. No wire is
/// read, and the attendant isn't told.
fn keeping_fails<R: Abort>(
    rt: &R,
    alloc: Global,
    mut attendant: MemoryAttendant,
    keeper: &mut MemoryKeeper,
    calls: [u32; 2],
) -> Result<(), Fail> {
    let mut wires = [MemoryWire::new(STEPS, 0), MemoryWire::new(STEPS, 0)];
    let answered = attend_twice(rt, alloc, keeper, &mut wires, &mut attendant, [1, 0])?;
    assert_eq!(rt; answered, Err(KeepFault));
    assert_eq!(rt; [keeper.steps, keeper.settlings], calls);
    assert_eq!(rt; wires[0].reads(), 0);
    assert_eq!(rt; [attendant.given, attendant.done], [0, 0]);
    Ok(())
}

#[test]
fn routes_are_kept(rt: HostRuntime) -> Result<(), Fail> {
    let alloc = rt.alloc();
    for (step, settling, calls) in [(1, 0, [1, 0]), (0, 1, [1, 1])] {
        let attendant = MemoryAttendant::new(Some(metz_by(alloc, LINES[0])?));
        let mut keeper = MemoryKeeper::new(step, settling);
        keeping_fails(&rt, alloc, attendant, &mut keeper, calls)?;
    }
    Ok(())
}

#[test]
fn orders_are_kept(rt: HostRuntime) -> Result<(), Fail> {
    let alloc = rt.alloc();
    for (step, settling, calls) in [(1, 0, [1, 0]), (0, 1, [1, 1])] {
        let attendant = MemoryAttendant::ordering(list_for(alloc, 1)?);
        let mut keeper = MemoryKeeper::new(step, settling);
        keeping_fails(&rt, alloc, attendant, &mut keeper, calls)?;
        assert_eq!(rt; keeper.customer, 1);
    }
    Ok(())
}
