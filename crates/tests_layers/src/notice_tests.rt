//! What users are told of their files, byte by byte.

use njh_ebcdic::Name;
use njh_header::FileName;
use njh_texts::{MessageText, no_files_for, node_unknown, routed_back, spool_full};
use std::process::Abort;
use std::test::Fail;

fn check_notice(rt: &impl Abort, text: &MessageText, bytes: &[u8]) {
    assert!(rt; text.as_slice() == bytes, "{text:?}");
}

#[test]
fn notices(rt: HostRuntime) -> Result<(), Fail> {
    let node = Name::of_text("LYON")?;
    let name = FileName { node, number: 42 };
    let unknown =
        b"\xd5\xd1\xc8\xf0\xf2\xf0\x40\xd5\xd6\xc4\xc5\x40\xd7\xc1\xd9\xc9\xe2\x40\xe4\xd5\xd2\xd5\xd6\xe6\xd5";
    check_notice(&rt, &node_unknown(Name::of_text("PARIS")?), unknown);
    let full =
        b"\xd5\xd1\xc8\xf0\xf2\xf1\x40\xe2\xd7\xd6\xd6\xd3\x40\xc6\xe4\xd3\xd3\x40\xd3\xe8\xd6\xd5\x4b\xf4\xf2";
    check_notice(&rt, &spool_full(name), full);
    let none =
        b"\xd5\xd1\xc8\xf0\xf2\xf2\x40\xd5\xd6\x40\xc6\xc9\xd3\xc5\xe2\x40\xc6\xd6\xd9\x40\xc2\xe4\xd9\xc5\xc1\xe4";
    check_notice(&rt, &no_files_for(Name::of_text("BUREAU")?), none);
    let back =
        b"\xd5\xd1\xc8\xf0\xf2\xf3\x40\xd3\xe8\xd6\xd5\x4b\xf4\xf2\x40\xd9\xd6\xe4\xe3\xc5\xc4\x40\xc2\xc1\xc3\xd2";
    check_notice(&rt, &routed_back(name), back);
    Ok(())
}
