//! Who is given a line, and what others are answered.

use crate::hearing::bytes_of;
use njh_ebcdic::Name;
use njh_open::{Asker, CallOutcome, Caller, Vacancy, Verdict, open_of};
use std::alloc::Global;
use std::process::Abort;
use std::test::Fail;

const OPEN: &str = "D6D7C5D540404040 D3E8D6D540404040 00000000 C2E4D9C5C1E44040 00000000 00";

const ACK: &str = "C1C3D24040404040 C2E4D9C5C1E44040 00000000 D3E8D6D540404040 00000000 00";

const NAK: &str = "D5C1D24040404040 C2E4D9C5C1E44040 00000000 D3E8D6D540404040 00000000";

/// Who sends these bytes to LYON's line at BUREAU becomes this, and is answered so.
fn check(
    rt: &impl Abort,
    alloc: Global,
    digits: &str,
    vacancy: Vacancy,
    told: (Verdict, &str),
) -> Result<(), Fail> {
    let bytes = bytes_of(alloc, digits)?;
    let mut asker = Asker::new(5);
    let (node, hub) = (Name::of_text("LYON")?, Name::of_text("BUREAU")?);
    let mut rest = bytes.as_slice();
    for _ in 0..33 {
        assert!(rt; asker.verdict(&node, &hub, vacancy).is_none());
        let (byte, after) = rest.split_at(rest.len().min(1));
        asker.take(byte);
        rest = after;
    }
    let (verdict, answer) = asker.verdict(&node, &hub, vacancy).ok_or("not whole")?;
    assert!(rt; verdict == told.0);
    assert!(rt; answer.write().as_slice() == bytes_of(alloc, told.1)?.as_slice());
    assert!(rt; asker.take(&[0]) == 0);
    Ok(())
}

#[test]
fn askers(rt: HostRuntime) -> Result<(), Fail> {
    let alloc = rt.alloc();
    let nak = |reason: u8| format!(in alloc; "{NAK} {reason:02}");
    check(&rt, alloc, OPEN, Vacancy::Free, (Verdict::Connected, ACK))?;
    let second = nak(2)?;
    check(
        &rt,
        alloc,
        OPEN,
        Vacancy::Taken,
        (Verdict::Second, second.as_str()),
    )?;
    let stopped = nak(4)?;
    check(
        &rt,
        alloc,
        OPEN,
        Vacancy::Stopped,
        (Verdict::WhileStopped, stopped.as_str()),
    )?;
    let none = nak(1)?;
    check(
        &rt,
        alloc,
        "C1C3D24040404040 D3E8D6D540404040 00000000 C2E4D9C5C1E44040 00000000 00",
        Vacancy::Free,
        (Verdict::NoOpen, none.as_str()),
    )
}

#[test]
fn other_names(rt: HostRuntime) -> Result<(), Fail> {
    let alloc = rt.alloc();
    let (lyon, paris) = (Name::of_text("LYON")?, Name::of_text("PARIS")?);
    let rows = [
        (
            "D6D7C5D540404040 D7C1D9C9E2404040 00000000 C2E4D9C5C1E44040 00000000 00",
            open_of(&paris, &Name::of_text("BUREAU")?),
            "D5C1D24040404040 C2E4D9C5C1E44040 00000000 D7C1D9C9E2404040 00000000 01",
        ),
        (
            "D6D7C5D540404040 D3E8D6D540404040 00000000 D7C1D9C9E2404040 00000000 00",
            open_of(&lyon, &paris),
            "D5C1D24040404040 D7C1D9C9E2404040 00000000 D3E8D6D540404040 00000000 01",
        ),
    ];
    for (digits, open, answer) in rows {
        if let njh_tcp::ControlRecord::Open(hosts) = open {
            let verdict = Verdict::OtherNames(hosts);
            check(&rt, alloc, digits, Vacancy::Free, (verdict, answer))?;
        }
    }
    Ok(())
}

/// What becomes of an OPEN to which these bytes come, and then so much time passes.
fn outcome(alloc: Global, digits: &str, passed: u64) -> Result<CallOutcome, Fail> {
    let bytes = bytes_of(alloc, digits)?;
    let mut caller = Caller::new(1_000);
    caller.take(&bytes);
    Ok(caller.outcome(1_000 + passed.min(1_000_000)))
}

#[test]
fn callers(rt: HostRuntime) -> Result<(), Fail> {
    let alloc = rt.alloc();
    assert!(rt; outcome(alloc, ACK, 0)? == CallOutcome::Acknowledged);
    assert!(rt; outcome(alloc, OPEN, 0)? == CallOutcome::NoAnswer);
    assert!(rt; outcome(alloc, "C1C3D2", 9_999)? == CallOutcome::Waits);
    assert!(rt; outcome(alloc, "C1C3D2", 10_000)? == CallOutcome::NoAnswer);
    let rows = [
        (1, "NAK 1 (it knows no link with these names)"),
        (2, "NAK 2 (the link is active)"),
        (3, "NAK 3 (both ends open)"),
        (4, "NAK 4 (not now)"),
        (9, "NAK 9"),
    ];
    for (reason, words) in rows {
        let digits = format!(in alloc; "{NAK} {reason:02}")?;
        match outcome(alloc, digits.as_str(), 0)? {
            CallOutcome::Refused(why) => {
                let said = why.to_string(alloc)?;
                assert_eq!(rt; said.as_str(), words);
            }
            other => assert!(rt; false, "{other:?}"),
        }
    }
    Ok(())
}
