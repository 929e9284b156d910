//! What is seen of a hub while a file comes in and goes out, of a file that is refused, and of a
//! line whose peer falls silent.

use crate::steps::{CONTACT, FILE, REQUEST, SIGN_ON};
use crate::trial::{A1, A2, NOWHERE, bytes_of, of_hub};
use njh_ebcdic::text_of;
use njh_hub::{FileSummaryView, Hub, SessionView};
use njh_spool::FileId;
use njh_stream::{Notice, Receiver};
use njh_table::LineId;
use std::alloc::{AllocError, Global};
use std::io;

/// The sign-on of METZ.
const METZ: &str =
    "1002a08fcff0c929d4c5e3e940404040010000000000000400404040404040404040404040404040400000000000001026";

/// METZ acknowledges, lets SYSOUT 1 come, and has all of it.
const ACK0: &str = "1070";

const PERMISSION: &str = "1002808fcfa09900001026";

const COMPLETION: &str = "1002818fcfc09900001026";

/// LYON sends a file for PARIS, which nobody has, and then the rest of it; then it asks for
/// another.
const FOR_PARIS: &str = concat!(
    "1002818fcf99c0c20064a300c160a300c12ab200ccd7c1e8d9d6d3d340c1d5d5c184b800c4d3e8d6d584c4c1d5d5c184c4d4c5e3e98c00",
    "99e0c20018a300c8140000d7c1d9c9e283c4d7c1e4d38400001026"
);

const REST: &str = "1002828fcf9980c605c8c5d3d3d60099d0c40004000000998000001026";

const ANOTHER: &str = "1002838fcf909900001026";

/// A step by bytes of a line, and then what is seen of the line.
fn take<R: Print + AllocGlobal>(rt: &R, hub: &mut Hub, id: LineId, digits: &str) -> io::Result<()> {
    let piece = bytes_of(rt.alloc(), digits)?;
    let mut out = Vec::new(rt.alloc());
    match hub.take(id, &piece, &mut out) {
        Ok(_) => show_line(rt, hub, id),
        Err(fault) => Err(of_hub(fault)),
    }
}

/// A tick of a line, and then what is seen of the line.
fn tick<R: Print + AllocGlobal>(rt: &R, hub: &mut Hub, id: LineId) -> io::Result<()> {
    let mut out = Vec::new(rt.alloc());
    match hub.tick(id, &mut out) {
        Ok(()) => show_line(rt, hub, id),
        Err(fault) => Err(of_hub(fault)),
    }
}

/// What is seen of a line: its session, and SYSOUT 1 to the hub and from it.
fn show_line<R: Print>(rt: &R, hub: &Hub, id: LineId) -> io::Result<()> {
    let given_up = hub.has_given_up(id);
    match hub.session(id) {
        Ok(SessionView { phase, tries, .. }) => println!(rt;
            "look: {phase:?}, {tries} tries, given up: {given_up}"
        )?,
        Err(fault) => println!(rt; "look: {fault}, given up: {given_up}")?,
    }
    match hub.receivers(id) {
        Ok(receivers) => println!(rt; "in: {:?}", receivers[4])?,
        Err(fault) => println!(rt; "in: {fault}")?,
    }
    match hub.senders(id) {
        Ok(senders) => println!(rt; "out: {:?}", senders[4])?,
        Err(fault) => println!(rt; "out: {fault}")?,
    }
    Ok(())
}

/// The file that comes on SYSOUT 1 of a line.
fn file_coming(hub: &Hub, id: LineId) -> Option<FileId> {
    match hub.receivers(id) {
        Ok(receivers) => match receivers[4] {
            Receiver::Open { file, .. } => Some(file),
            Receiver::Idle | Receiver::Draining => None,
        },
        Err(_) => None,
    }
}

/// What is seen of ACME's file of a number.
fn show_file<R: Print>(rt: &R, hub: &Hub, file: FileId) -> io::Result<()> {
    match hub.file_summary(0, file) {
        Some(
            FileSummaryView {
                kind,
                state,
                records,
                blocks,
                ..
            },
        ) => println!(rt; "file: {kind:?} {state:?} {records} records {blocks} blocks")?,
        None => println!(rt; "file: none")?,
    }
    Ok(())
}

/// A file comes on a1.
fn come<R: Print + AllocGlobal>(rt: &R, hub: &mut Hub) -> io::Result<()> {
    show_line(rt, hub, A1)?;
    for digits in [CONTACT, SIGN_ON, REQUEST] {
        take(rt, hub, A1, digits)?;
    }
    Ok(())
}

/// The file is whole, and goes on a2.
fn go<R: Print + AllocGlobal>(rt: &R, hub: &mut Hub, file: FileId) -> io::Result<()> {
    show_file(rt, hub, file)?;
    take(rt, hub, A1, FILE)?;
    show_file(rt, hub, file)?;
    for digits in [CONTACT, METZ, ACK0, PERMISSION] {
        take(rt, hub, A2, digits)?;
    }
    show_file(rt, hub, file)?;
    take(rt, hub, A2, COMPLETION)?;
    show_file(rt, hub, file)
}

/// LYON answers no more.
fn fall_silent<R: Print + AllocGlobal>(rt: &R, hub: &mut Hub) -> io::Result<()> {
    for _ in 0..6 {
        tick(rt, hub, A1)?;
    }
    show_line(rt, hub, A2)?;
    show_line(rt, hub, NOWHERE)
}

/// Says a customer's quota.
fn show_quota<R: Print>(rt: &R, hub: &Hub, customer: u16) -> io::Result<()> {
    match hub.quota(customer) {
        Ok(blocks) => println!(rt; "quota: {blocks}")?,
        Err(fault) => println!(rt; "quota: {fault}")?,
    }
    Ok(())
}

/// The notice of the file that was refused last on SYSOUT 1 of a1, if there is one.
fn show_refusal<R: Print + AllocGlobal>(rt: &R, hub: &Hub) -> io::Result<()> {
    let notices = match hub.notices(A1) {
        Ok(notices) => notices,
        Err(fault) => return Err(of_hub(fault)),
    };
    match notices[4].as_ref() {
        Some(notice) => show_notice(rt, notice),
        None => println!(rt; "no file refused"),
    }
}

fn show_notice<R: Print + AllocGlobal>(rt: &R, notice: &Notice) -> io::Result<()> {
    let user = characters(rt.alloc(), &notice.user)?;
    let text = characters(rt.alloc(), &notice.text)?;
    println!(rt; "file refused: {} {user} was told: {text}", notice.node)
}

/// Bytes as characters.
pub(crate) fn characters(alloc: Global, bytes: &[u8]) -> Result<String, AllocError> {
    let mut text = String::new(alloc);
    for byte in bytes {
        text.push(text_of(*byte))?;
    }
    Ok(text)
}

/// A file is refused, and its notice stays until another file comes.
pub(crate) fn refuse<R: Print + AllocGlobal>(rt: &R, hub: &mut Hub) -> io::Result<()> {
    for digits in [CONTACT, SIGN_ON, REQUEST, FOR_PARIS, REST, ANOTHER] {
        let piece = bytes_of(rt.alloc(), digits)?;
        let mut out = Vec::new(rt.alloc());
        match hub.take(A1, &piece, &mut out) {
            Ok(_) => show_refusal(rt, hub)?,
            Err(fault) => return Err(of_hub(fault)),
        }
    }
    Ok(())
}

/// A line from Down to Up, a file in and out, and a line whose tries are used up.
pub(crate) fn look<R: Print + AllocGlobal>(rt: &R, hub: &mut Hub) -> io::Result<()> {
    come(rt, hub)?;
    match file_coming(hub, A1) {
        Some(file) => go(rt, hub, file)?,
        None => println!(rt; "in: nothing")?,
    }
    fall_silent(rt, hub)?;
    show_quota(rt, hub, 0)?;
    show_quota(rt, hub, 2)
}
