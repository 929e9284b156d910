//! Frames of written bytes, and what is written of frames.

use njh_bisync::{Control, Deframer, Frame, LONGEST_FRAME, LONGEST_TEXT, put_control, put_text};
use std::alloc::{AllocError, Global};
use std::process::Abort;
use std::test::Fail;

/// What a byte ends: the letter of a frame, and the data of a text.
fn take(
    deframer: &mut Deframer,
    byte: u8,
    letters: &mut Vec<u8>,
    held: &mut Vec<u8>,
) -> Result<(), AllocError> {
    if let (_, Some(frame)) = deframer.feed(&[byte]) {
        letters.push(letter(&frame))?;
        if let Frame::Text(text) = frame {
            held.extend_from_slice(text)?;
        }
    }
    Ok(())
}

fn take_all(
    deframer: &mut Deframer,
    bytes: &[u8],
    letters: &mut Vec<u8>,
    held: &mut Vec<u8>,
) -> Result<(), AllocError> {
    for byte in bytes {
        take(deframer, *byte, letters, held)?;
    }
    Ok(())
}

/// Bytes of a line. Each frame that they end is a letter, and the data of the texts come one
/// after the other.
fn check_frames(
    rt: &impl Abort,
    alloc: Global,
    bytes: &[u8],
    frames: &[u8],
    texts: &[u8],
) -> Result<(), Fail> {
    let mut deframer = Deframer::new(alloc)?;
    let mut letters = Vec::new(alloc);
    let mut held = Vec::new(alloc);
    take_all(&mut deframer, bytes, &mut letters, &mut held)?;
    assert!(rt;
        letters.as_slice() == frames && held.as_slice() == texts,
        "{bytes:?}"
    );
    Ok(())
}

fn letter(frame: &Frame<'_>) -> u8 {
    match frame {
        Frame::Enquiry => b'E',
        Frame::Ack0 => b'A',
        Frame::Nak => b'N',
        Frame::Eot => b'O',
        Frame::Text(_) => b'T',
        Frame::Spoiled => b'S',
    }
}

/// Control frames and texts, whole and spoiled, and what is none.
static FRAMES: [u8; 49] = *b"\x01\x2d\x10\x70\x3d\x37\
    \x32\x32\x00\x3d\x37\
    \x01\x10\x02\xc1\x10\x26\
    \x10\x02\x01\x2d\x3d\x10\x03\
    \x10\x02\xc1\x10\x2d\x3d\
    \x10\x02\xc1\x10\xc2\xc3\x10\x26\
    \x10\x02\x10\xc1\x10\x03\x10\x02\xc2\x10\x26";

#[test]
fn frames_of_bytes(rt: HostRuntime) -> Result<(), Fail> {
    assert!(rt; LONGEST_TEXT == 4096 && LONGEST_FRAME == 8196);
    check_frames(
        &rt,
        rt.alloc(),
        &FRAMES,
        b"EANONOTSNSST",
        b"\x01\x2d\x3d\xc2",
    )
}

fn write_four(out: &mut Vec<u8>) -> Result<(), AllocError> {
    put_text(&[0x00, 0x10, 0x26, 0x3D], out)?;
    put_control(Control::Enquiry, out)?;
    put_control(Control::Ack0, out)?;
    put_control(Control::Nak, out)
}

#[test]
fn frames_are_written(rt: HostRuntime) -> Result<(), Fail> {
    let mut out = vec![in rt.alloc(); 0xFF]?;
    write_four(&mut out)?;
    let bytes = b"\xff\x10\x02\x00\x10\x10\x26\x3d\x10\x26\x01\x2d\x10\x70\x3d";
    assert!(rt; out.as_slice() == bytes.as_slice());
    Ok(())
}
