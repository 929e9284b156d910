//! The code page by its rows, and names of texts.

use njh_ebcdic::{Name, NameFault, byte_of, text_of};
use std::process::Abort;

/// A row of the code page: the byte of its first character, and those that follow it.
fn check_row(rt: &impl Abort, first: u8, characters: &str) {
    let mut byte = first;
    for character in characters.chars() {
        assert!(rt; text_of(byte) == character, "{byte:02x}");
        assert!(rt; byte_of(character) == Some(byte), "{byte:02x}");
        byte = byte.wrapping_add(1);
    }
}

#[test]
fn each_row_both_ways(rt: HostRuntime) {
    check_row(&rt, 0x40, " ");
    check_row(&rt, 0xc1, "ABCDEFGHI");
    check_row(&rt, 0xd1, "JKLMNOPQR");
    check_row(&rt, 0xe2, "STUVWXYZ");
    check_row(&rt, 0x81, "abcdefghi");
    check_row(&rt, 0x91, "jklmnopqr");
    check_row(&rt, 0xa2, "stuvwxyz");
    check_row(&rt, 0xf0, "0123456789");
    check_row(&rt, 0x4b, ".");
    check_row(&rt, 0x4d, "(");
    check_row(&rt, 0x5b, "$*)");
    check_row(&rt, 0x60, "-/");
    check_row(&rt, 0x6b, ",");
    check_row(&rt, 0x7a, ":#@");
    assert!(rt; text_of(0xc0) == '?' && byte_of('?').is_none() && byte_of('{').is_none());
}

fn check_name(rt: &impl Abort, text: &str, read: Result<&[u8; 8], NameFault>) {
    match Name::of_text(text) {
        Ok(name) => assert!(rt; read == Ok(&name.bytes()), "{text}"),
        Err(fault) => assert!(rt; read == Err(fault), "{text}"),
    }
}

#[test]
fn names_of_texts(rt: HostRuntime) {
    check_name(&rt, "LYON", Ok(b"\xd3\xe8\xd6\xd5\x40\x40\x40\x40"));
    check_name(&rt, "PAYROLL9", Ok(b"\xd7\xc1\xe8\xd9\xd6\xd3\xd3\xf9"));
    check_name(&rt, "$#@0ISZ", Ok(b"\x5b\x7b\x7c\xf0\xc9\xe2\xe9\x40"));
    check_name(&rt, "", Err(NameFault::Empty));
    check_name(&rt, "ABCDEFGHI", Err(NameFault::TooLong));
    check_name(&rt, "ABCDEFGH!", Err(NameFault::TooLong));
    check_name(&rt, "lyon", Err(NameFault::BadCharacter));
    check_name(&rt, "LY ON", Err(NameFault::BadCharacter));
}
