//! Spellings of records, byte by byte.

use arrayvec::ArrayVec;
use njh_record::{add_spelling, spelled_len, spelling_bounds};
use std::process::Abort;

fn check_spelling(rt: &impl Abort, contents: &[u8], spelling: &[u8]) {
    assert!(rt; contents.len() <= 256);
    spelling_bounds();
    let mut out = ArrayVec::<u8, 262>::new();
    add_spelling(contents, &mut out);
    assert!(rt; out.as_slice() == spelling && spelled_len(contents) == spelling.len());
}

#[test]
fn spellings_of_records(rt: HostRuntime) {
    let words = b"\x40\x40\x40\x40\x40\xc1\xc1\xc1\xc1\xe7\xe8";
    check_spelling(&rt, words, b"\x85\xa4\xc1\xc2\xe7\xe8\x00");
    check_spelling(&rt, &[0x40; 32], b"\x9f\xc1\x40\x00");
    check_spelling(&rt, b"", b"\x00");
}
