//! What is given of TTBs, in any pieces: the bytes of a line.

use crate::hearing::{bytes_of, check, hear};
use njh_tcp::{Contact, TtbReader};
use std::test::Fail;

/// The contact, and the answer to it.
#[test]
fn contacts(rt: HostRuntime) -> Result<(), Fail> {
    let alloc = rt.alloc();
    let call = "00000012 00000000 00000002 012D 00000000";
    let answer = "00000012 00000000 00000002 1070 00000000";
    check(&rt, alloc, Contact::Called, call, "012D", "")?;
    check(&rt, alloc, Contact::Calling, call, "", "a TTR 01 2D")?;
    check(&rt, alloc, Contact::Over, call, "", "a TTR 01 2D")?;
    check(&rt, alloc, Contact::Calling, answer, "1070", "")?;
    check(&rt, alloc, Contact::Called, answer, "", "")?;
    check(&rt, alloc, Contact::Over, answer, "", "")
}

#[test]
fn texts(rt: HostRuntime) -> Result<(), Fail> {
    let alloc = rt.alloc();
    // A 10 in a text.
    let one = "00000015 00000000 00000005 1002C110C2 00000000";
    check(&rt, alloc, Contact::Over, one, "1002C11010C21026", "")?;
    // Two TTRs in a TTB, and what isn't looked at.
    let two = "0000001A 00000000 00000003 1002C1 00000003 1002C2 00000000";
    check(
        &rt,
        alloc,
        Contact::Called,
        two,
        "1002C11026 1002C21026",
        "",
    )?;
    let marked = "FFFF0013 FFFFFFFF FFFF0003 1002C1 FFFF0000";
    check(&rt, alloc, Contact::Over, marked, "1002C11026", "")?;
    // A TTB without TTRs, and then one with a keep-alive between two texts.
    let kept = "0000000C 00000000 00000000 \
        00000020 00000000 00000003 1002C1 00000002 1070 00000003 1002C2 00000000";
    check(
        &rt,
        alloc,
        Contact::Calling,
        kept,
        "1002C11026 1002C21026",
        "",
    )?;
    // A call before a text is given, and one after it isn't.
    let late = "00000012 00000000 00000002 012D 00000000 \
        00000013 00000000 00000003 1002C1 00000000 \
        00000012 00000000 00000002 012D 00000000";
    check(
        &rt,
        alloc,
        Contact::Called,
        late,
        "012D 1002C11026",
        "a TTR 01 2D",
    )
}

#[test]
fn refusals(rt: HostRuntime) -> Result<(), Fail> {
    let alloc = rt.alloc();
    // Behind each of them stands what would be a text.
    let rows = [
        ("0000000B 00000000", "a TTB of 11 bytes"),
        ("FFFF0001 00000000", "a TTB of 1 byte"),
        (
            "00000024 00000000 00000000",
            "a TTB's end with 24 bytes left",
        ),
        (
            "0000FFFF 00000000 00000000",
            "a TTB's end with 65,523 bytes left",
        ),
        ("00001016 00000000 00001006", "a TTR of 4,102 bytes"),
        ("00001013 00000000 00001003", "a TTR of 4,099 bytes"),
        (
            "00000014 00000000 00000005",
            "a TTR of 5 bytes with 4 bytes left",
        ),
        (
            "0000000E 00000000 00000003",
            "a TTR of 3 bytes with 0 bytes left",
        ),
        ("00000011 00000000 00000001 3D", "a TTR 3D"),
        ("00000011 00000000 00000001 37", "a TTR 37"),
        ("00000012 00000000 00000002 1002", "a TTR 10 02"),
        ("00000013 00000000 00000003 012D00", "a TTR 01 2D .."),
        ("00000014 00000000 00000004 C1C2C3C4", "a TTR C1 C2 .."),
    ];
    for (digits, fault) in rows {
        let mut all = String::from_str(alloc, digits)?;
        all.push_str(" 00000013 00000000 00000003 1002C1 00000000")?;
        check(&rt, alloc, Contact::Called, all.as_str(), "", fault)?;
    }
    Ok(())
}

/// A contact that ends since a text goes out, and another connection.
#[test]
fn contacts_end(rt: HostRuntime) -> Result<(), Fail> {
    let alloc = rt.alloc();
    let answer = bytes_of(alloc, "00000012 00000000 00000002 1070 00000000")?;
    assert_eq!(rt; answer.len(), 18);
    let mut reader = TtbReader::new(alloc, Contact::Calling)?;
    let mut line = Vec::new(alloc);
    hear(&mut reader, &answer, 5, &mut line)?;
    assert!(rt; line.as_slice() == [0x10, 0x70].as_slice());
    reader.end_contact();
    hear(&mut reader, &answer, 5, &mut line)?;
    assert!(rt; line.len() == 2 && reader.fault().is_none());
    hear(&mut reader, &answer[..9], 5, &mut line)?;
    reader.reset(Contact::Calling);
    hear(&mut reader, &answer, 5, &mut line)?;
    assert!(rt; line.as_slice() == [0x10, 0x70, 0x10, 0x70].as_slice());
    Ok(())
}
