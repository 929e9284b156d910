//! Control records.

use crate::hearing::bytes_of;
use njh_ebcdic::Name;
use njh_tcp::{BOTH_OPEN, CONTROL_RECORD, ControlRecord, Hosts, LINK_ACTIVE, NO_LINK, NOT_NOW};
use std::alloc::Global;
use std::process::Abort;
use std::test::Fail;

/// A record and its bytes in digits: it is written as these, and read from them.
fn check(rt: &impl Abort, alloc: Global, record: ControlRecord, digits: &str) -> Result<(), Fail> {
    let bytes = bytes_of(alloc, digits)?;
    assert!(rt; record.write().as_slice() == bytes.as_slice(), "{digits}");
    check_read(rt, alloc, digits, Some(record))
}

fn check_read(
    rt: &impl Abort,
    alloc: Global,
    digits: &str,
    record: Option<ControlRecord>,
) -> Result<(), Fail> {
    let bytes = bytes_of(alloc, digits)?;
    assert_eq!(rt; bytes.len(), CONTROL_RECORD);
    assert!(rt; ControlRecord::read(&bytes) == record, "{digits}");
    Ok(())
}

#[test]
fn controls(rt: HostRuntime) -> Result<(), Fail> {
    let alloc = rt.alloc();
    let (lyon, bureau) = (Name::of_text("LYON")?, Name::of_text("BUREAU")?);
    let asked = Hosts::new(&lyon, &bureau);
    check(
        &rt,
        alloc,
        ControlRecord::Open(asked),
        "D6D7C5D540404040 D3E8D6D540404040 00000000 C2E4D9C5C1E44040 00000000 00",
    )?;
    check(
        &rt,
        alloc,
        ControlRecord::Ack(asked.exchanged()),
        "C1C3D24040404040 C2E4D9C5C1E44040 00000000 D3E8D6D540404040 00000000 00",
    )?;
    check(
        &rt,
        alloc,
        ControlRecord::Nak(asked.exchanged(), NO_LINK),
        "D5C1D24040404040 C2E4D9C5C1E44040 00000000 D3E8D6D540404040 00000000 01",
    )?;
    assert!(rt; LINK_ACTIVE == 2 && BOTH_OPEN == 3 && NOT_NOW == 4);
    assert!(rt; asked.are(&lyon, &bureau) && !asked.are(&bureau, &lyon));
    assert!(rt; !asked.are(&lyon, &lyon) && !asked.are(&bureau, &bureau));
    Ok(())
}

/// Addresses, and what stands behind an OPEN's names; and what is no control record.
#[test]
fn others(rt: HostRuntime) -> Result<(), Fail> {
    let alloc = rt.alloc();
    let asked = Hosts::new(&Name::of_text("LYON")?, &Name::of_text("BUREAU")?);
    let marked = "D6D7C5D540404040 D3E8D6D540404040 0A000001 C2E4D9C5C1E44040 FFFFFFFF 07";
    check_read(&rt, alloc, marked, Some(ControlRecord::Open(asked)))?;
    let strange = [
        "D6D7C5D540404000 D3E8D6D540404040 00000000 C2E4D9C5C1E44040 00000000 00",
        "C3D3D6E2C5404040 D3E8D6D540404040 00000000 C2E4D9C5C1E44040 00000000 00",
        "4F50454E20202020 4C594F4E20202020 00000000 4255524541552020 00000000 00",
    ];
    for digits in strange {
        check_read(&rt, alloc, digits, None)?;
    }
    Ok(())
}
