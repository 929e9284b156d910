//! A reader that hears bytes in pieces, and what is compared with what it gives.

use njh_tcp::{Contact, TtbFault, TtbReader, put_line_bytes};
use std::alloc::{AllocError, Global};
use std::process::Abort;
use std::test::Fail;

/// The bytes that digits stand for, with blanks between them.
pub fn bytes_of(alloc: Global, digits: &str) -> Result<Vec<u8>, Fail> {
    let mut text = String::new(alloc);
    for word in digits.split_whitespace() {
        text.push_str(word)?;
    }
    Ok(hex::decode(alloc, text.as_str())?)
}

/// Feeds a piece until it is used. What is given goes to a line, as bytes.
fn hear_piece(reader: &mut TtbReader, piece: &[u8], line: &mut Vec<u8>) -> Result<(), AllocError> {
    let mut rest = piece;
    for _ in piece {
        let (taken, told) = reader.feed(rest);
        if let Some(Ok(frame)) = told {
            put_line_bytes(frame, line)?;
        }
        rest = &rest[taken..];
    }
    Ok(())
}

/// Feeds bytes in pieces of so many.
pub fn hear(
    reader: &mut TtbReader,
    bytes: &[u8],
    size: usize,
    line: &mut Vec<u8>,
) -> Result<(), AllocError> {
    for piece in bytes.chunks(size.max(1)) {
        hear_piece(reader, piece, line)?;
    }
    Ok(())
}

/// The text of what is wrong, or none.
fn text_of(alloc: Global, fault: Option<TtbFault>) -> Result<String, Fail> {
    match fault {
        Some(fault) => Ok(fault.to_string(alloc)?),
        None => Ok(String::new(alloc)),
    }
}

/// Bytes that come at a contact, in pieces of so many; what the line is given, and what is wrong.
fn check_pieces(
    rt: &impl Abort,
    alloc: Global,
    contact: Contact,
    bytes: &[u8],
    size: usize,
    line: &[u8],
    fault: &str,
) -> Result<(), Fail> {
    let mut reader = TtbReader::new(alloc, contact)?;
    let mut given = Vec::new(alloc);
    hear(&mut reader, bytes, size, &mut given)?;
    assert!(rt; given.as_slice() == line, "{bytes:?} in pieces of {size}");
    let text = text_of(alloc, reader.fault())?;
    assert_eq!(rt; text.as_str(), fault, "in pieces of {size}");
    Ok(())
}

/// The same in any pieces, all in digits.
pub fn check(
    rt: &impl Abort,
    alloc: Global,
    contact: Contact,
    digits: &str,
    line: &str,
    fault: &str,
) -> Result<(), Fail> {
    let bytes = bytes_of(alloc, digits)?;
    let given = bytes_of(alloc, line)?;
    for size in [1, 2, 3, 7, 64] {
        check_pieces(rt, alloc, contact, &bytes, size, &given, fault)?;
    }
    Ok(())
}
