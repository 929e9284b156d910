//! TTBs that are written.

use crate::hearing::{bytes_of, hear};
use njh_bisync::LONGEST_FRAME;
use njh_tcp::{Contact, LONGEST_TTB, TcpFrame, TtbReader, put_ttb};
use std::test::Fail;

#[test]
fn written(rt: HostRuntime) -> Result<(), Fail> {
    let alloc = rt.alloc();
    let mut out = Vec::new(alloc);
    put_ttb(TcpFrame::Enquiry, &mut out)?;
    put_ttb(TcpFrame::Ack0, &mut out)?;
    put_ttb(TcpFrame::Text(&[0xc1, 0x10, 0xc2]), &mut out)?;
    let bytes = bytes_of(
        alloc,
        "00000012 00000000 00000002 012D 00000000 \
        00000012 00000000 00000002 1070 00000000 \
        00000015 00000000 00000005 1002C110C2 00000000",
    )?;
    assert!(rt; out.as_slice() == bytes.as_slice());
    Ok(())
}

/// The longest text, of 10 alone: no byte is doubled in the TTB, and each is on the line.
#[test]
fn longest(rt: HostRuntime) -> Result<(), Fail> {
    let alloc = rt.alloc();
    let text = vec![in alloc; 0x10; 4096]?;
    let mut out = Vec::new(alloc);
    put_ttb(TcpFrame::Text(&text), &mut out)?;
    assert!(rt; out.len() == LONGEST_TTB && LONGEST_TTB == 4114);
    let mut reader = TtbReader::new(alloc, Contact::Over)?;
    let mut line = Vec::new(alloc);
    hear(&mut reader, &out, 1000, &mut line)?;
    assert!(rt; line.len() == LONGEST_FRAME && reader.fault().is_none());
    Ok(())
}
