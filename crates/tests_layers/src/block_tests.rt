//! A text of the protocol's worked examples, written.

use njh_block::{Bcb, BlockWriter, Fcs, Out, Stream};
use njh_header::srcb;
use std::process::Abort;

// Three records of streams, and the ends of their files.
const THREE_STREAMS: &[u8] = b"\x83\x8F\xCF\
    \xA9\xD0\xC4\x00\x04\x00\x00\x00\xB9\xD0\xC4\x00\x04\x00\x00\x00\xC9\xD0\xC4\x00\x04\x00\x00\x00\
    \xA9\x80\x00\xB9\x80\x00\xC9\x80\x00\x00";

const TRAILER: &[u8] = b"\x00\x04\x00\x00";

/// Adds a record of the stream at a place.
fn add(rt: &impl Abort, writer: &mut BlockWriter, place: u8, srcb: u8, bytes: &[u8]) {
    assert!(rt; place < Stream::COUNT && bytes.len() <= 256);
    let record = Out::Data {
        rcb: Stream::at(place).rcb(),
        srcb,
        bytes,
    };
    assert!(rt; writer.fits(&record));
    writer.add(record);
}

#[test]
fn text_of_three_streams(rt: HostRuntime) {
    let mut writer = BlockWriter::new(4096, Bcb::normal(9), Fcs::streams_suspended());
    add(&rt, &mut writer, 0, 0x80, b"\xC1\xC2\xC3");
    writer.restart(1024, Bcb::normal(3), Fcs::nothing_suspended());
    assert!(rt; writer.is_empty());
    for place in 5..Stream::COUNT {
        add(&rt, &mut writer, place, srcb::JOB_TRAILER, TRAILER);
    }
    for place in 5..Stream::COUNT {
        add(&rt, &mut writer, place, 0x80, b"");
    }
    assert!(rt; !writer.is_empty() && writer.text() == THREE_STREAMS);
    assert!(rt; writer.finish().as_slice() == THREE_STREAMS);
}
