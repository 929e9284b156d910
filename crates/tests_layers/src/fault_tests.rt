//! What is printed of faults and of a name.

use njh_block::BlockFault;
use njh_ebcdic::{Name, NameFault};
use njh_encode::{EncodeEnd, EncodeFault, Reason};
use njh_header::HeaderFault;
use njh_nmr::NmrFault;
use njh_record::RecordFault;
use njh_spool::SpoolFault;
use njh_table::TableFault;
use njh_trace::TraceFault;
use std::alloc::Global;
use std::fmt::Display;
use std::process::Abort;
use std::test::Fail;

fn check_printed(rt: &impl Abort, alloc: Global, fault: &impl Display, text: &str) {
    let printed = fault.to_string(alloc).expect(rt, "memory for a text");
    assert_eq!(rt; printed.as_str(), text);
}

#[test]
fn printed(rt: HostRuntime) -> Result<(), Fail> {
    let alloc = rt.alloc();
    check_printed(&rt, alloc, &Name::of_text("LYON")?, "LYON");
    check_printed(&rt, alloc, &NameFault::Empty, "E1 Empty");
    check_printed(&rt, alloc, &NameFault::TooLong, "E2 TooLong");
    check_printed(&rt, alloc, &NameFault::BadCharacter, "E3 BadCharacter");
    check_printed(&rt, alloc, &RecordFault::BadScb, "C1 BadScb");
    check_printed(&rt, alloc, &RecordFault::Truncated, "C2 Truncated");
    check_printed(
        &rt,
        alloc,
        &RecordFault::TooLong { used: 19 },
        "C3 TooLong { used: 19 }",
    );
    check_printed(&rt, alloc, &BlockFault::TooShort, "B1 TooShort");
    check_printed(&rt, alloc, &BlockFault::BadBcb, "B2 BadBcb");
    check_printed(&rt, alloc, &BlockFault::BadFcs, "B3 BadFcs");
    check_printed(&rt, alloc, &BlockFault::BadRcb, "B4 BadRcb");
    check_printed(&rt, alloc, &BlockFault::BadRecord, "B5 BadRecord");
    check_printed(&rt, alloc, &HeaderFault::TooShort, "H1 TooShort");
    check_printed(
        &rt,
        alloc,
        &HeaderFault::NoGeneralSection,
        "H2 NoGeneralSection",
    );
    check_printed(&rt, alloc, &HeaderFault::BadName, "H3 BadName");
    check_printed(
        &rt,
        alloc,
        &HeaderFault::SectionOverrun,
        "H4 SectionOverrun",
    );
    check_printed(&rt, alloc, &NmrFault::TooShort, "N1 TooShort");
    check_printed(&rt, alloc, &NmrFault::BadLength, "N2 BadLength");
    check_printed(&rt, alloc, &NmrFault::BadName, "N3 BadName");
    check_printed(&rt, alloc, &SpoolFault::QuotaFull, "S1 QuotaFull");
    check_printed(&rt, alloc, &SpoolFault::TooManyFiles, "S2 TooManyFiles");
    check_printed(&rt, alloc, &SpoolFault::NoSuchFile, "S3 NoSuchFile");
    check_printed(&rt, alloc, &SpoolFault::Memory, "S4 Memory");
    check_printed(&rt, alloc, &TableFault::Memory, "K9 Memory");
    Ok(())
}

/// A bad line, and why it is bad.
fn bad_line(line: u64, reason: Reason) -> EncodeEnd {
    EncodeEnd::BadLine(EncodeFault { line, reason })
}

#[test]
fn printed_of_texts_in_words(rt: HostRuntime) {
    let alloc = rt.alloc();
    check_printed(&rt, alloc, &TraceFault::TooLong, "trace line too long");
    check_printed(&rt, alloc, &TraceFault::Device, "device");
    check_printed(&rt, alloc, &TraceFault::Memory, "U3 Memory");
    check_printed(&rt, alloc, &EncodeEnd::Device, "device");
    check_printed(&rt, alloc, &EncodeEnd::Memory, "U3 Memory");
    let long = bad_line(1, Reason::TooLong);
    check_printed(&rt, alloc, &long, "line 1: too long a text");
    let long_line = bad_line(7, Reason::LongLine);
    check_printed(&rt, alloc, &long_line, "line 7: too long a line");
    let no_text = bad_line(3, Reason::NoText);
    check_printed(&rt, alloc, &no_text, "line 3: no text in UTF-8");
}
