//! What a link gives a line and takes of it.

use crate::hearing::bytes_of;
use crate::linked::Linked;
use njh_tcp::Contact;
use std::alloc::Global;
use std::process::Abort;
use std::test::Fail;

/// What happens on a link: bytes come, the line writes bytes, or it is given an Ack0 if it is owed
/// one.
#[derive(Clone, Copy)]
enum Happens<'a> {
    Comes(&'a str),
    Writes(&'a str),
    Owes(bool),
}

/// What happens, one after another; what the line was given then, and what went out.
fn check(
    rt: &impl Abort,
    alloc: Global,
    contact: Contact,
    story: &[Happens<'_>],
    told: (&str, &str),
) -> Result<Linked, Fail> {
    let mut linked = Linked::new(alloc, contact)?;
    for happens in story {
        match happens {
            Happens::Comes(digits) => linked.hear(&bytes_of(alloc, digits)?)?,
            Happens::Writes(digits) => linked.write(&bytes_of(alloc, digits)?)?,
            Happens::Owes(due) => {
                assert!(rt; linked.link.is_due() == *due);
                assert!(rt; linked.link.acknowledge() == *due);
                linked.give_all()?;
            }
        }
    }
    let (line, out) = (bytes_of(alloc, told.0)?, bytes_of(alloc, told.1)?);
    assert!(rt; linked.line.as_slice() == line.as_slice());
    assert!(rt; linked.out.as_slice() == out.as_slice());
    Ok(linked)
}

const CALL: &str = "00000012 00000000 00000002 012D 00000000";

const ACK0: &str = "00000012 00000000 00000002 1070 00000000";

/// The end that was dialled: a contact and its answer, a sign-on and a block each way.
#[test]
fn called(rt: HostRuntime) -> Result<(), Fail> {
    let story = [
        Happens::Owes(false),
        Happens::Comes(CALL),
        Happens::Writes("1070"),
        Happens::Owes(false),
        Happens::Comes("00000014 00000000 00000004 1002A010 00000000"),
        Happens::Writes("1002A010101026"),
        Happens::Owes(true),
        Happens::Owes(false),
        Happens::Writes("1070"),
        Happens::Owes(true),
        Happens::Comes("00000013 00000000 00000003 100281 00000000"),
        Happens::Writes("1002811026"),
        Happens::Comes("00000013 00000000 00000003 100282 00000000"),
        Happens::Owes(false),
    ];
    let told = (
        "012D 1002A010101026 1070 1070 1002811026 1002821026",
        "00000012 00000000 00000002 1070 00000000 \
        00000014 00000000 00000004 1002A010 00000000 \
        00000013 00000000 00000003 100281 00000000",
    );
    let linked = check(&rt, rt.alloc(), Contact::Called, &story, told)?;
    assert!(rt; linked.link.fault().is_none());
    Ok(())
}

/// The end that dialled: one call, its answer, and what isn't sent.
#[test]
fn calling(rt: HostRuntime) -> Result<(), Fail> {
    let story = [
        Happens::Writes("012D"),
        Happens::Writes("012D"),
        Happens::Comes(ACK0),
        Happens::Writes("1002A01026"),
        Happens::Writes("3D"),
        Happens::Comes(ACK0),
        Happens::Writes("1002A01026"),
        Happens::Owes(true),
        Happens::Writes("1002801026 1002811026"),
    ];
    let told = (
        "1070 1070",
        "00000012 00000000 00000002 012D 00000000 \
        00000013 00000000 00000003 1002A0 00000000 \
        00000013 00000000 00000003 100280 00000000 \
        00000013 00000000 00000003 100281 00000000",
    );
    let linked = check(&rt, rt.alloc(), Contact::Calling, &story, told)?;
    assert!(rt; linked.link.fault().is_none());
    Ok(())
}

/// A link on which texts came and went ends for this.
fn check_end(
    rt: &impl Abort,
    alloc: Global,
    story: &[Happens<'_>],
    given: &str,
    why: &str,
) -> Result<(), Fail> {
    let linked = check(rt, alloc, Contact::Over, story, (given, ""))?;
    let fault = linked.link.fault().ok_or("no fault")?.to_string(alloc)?;
    assert_eq!(rt; fault.as_str(), why);
    Ok(())
}

const TEXT: &str = "00000013 00000000 00000003 100281 00000000";

/// A NAK to a text.
#[test]
fn bad_block(rt: HostRuntime) -> Result<(), Fail> {
    let story = [Happens::Comes(TEXT), Happens::Writes("3D")];
    check_end(
        &rt,
        rt.alloc(),
        &story,
        "1002811026",
        "a block that doesn't read",
    )
}

/// A NAK to the second of two texts, the first of which is answered late.
#[test]
fn bad_block_behind_another(rt: HostRuntime) -> Result<(), Fail> {
    let story = [
        Happens::Comes(TEXT),
        Happens::Comes(TEXT),
        Happens::Writes("1070"),
        Happens::Writes("3D"),
    ];
    check_end(
        &rt,
        rt.alloc(),
        &story,
        "1002811026 1002811026",
        "a block that doesn't read",
    )
}

/// A NAK of a tick, once the text was answered.
#[test]
fn nak_of_a_tick(rt: HostRuntime) -> Result<(), Fail> {
    let story = [
        Happens::Comes(TEXT),
        Happens::Writes("1070"),
        Happens::Writes("3D"),
    ];
    let linked = check(&rt, rt.alloc(), Contact::Over, &story, ("1002811026", ""))?;
    assert!(rt; linked.link.fault().is_none());
    Ok(())
}

/// A TTR that is none.
#[test]
fn strange_ttr(rt: HostRuntime) -> Result<(), Fail> {
    let story = [
        Happens::Comes(TEXT),
        Happens::Comes("00000011 00000000 00000001 37"),
    ];
    check_end(&rt, rt.alloc(), &story, "1002811026", "a TTR 37")
}

/// What the line doesn't write.
#[test]
fn said(rt: HostRuntime) -> Result<(), Fail> {
    let alloc = rt.alloc();
    let mut linked = Linked::new(alloc, Contact::Called)?;
    assert!(rt; linked.link.is_sent());
    linked.link.keep_alive();
    linked.send()?;
    assert!(rt; linked.link.is_sent());
    linked.link.sign_off();
    linked.send()?;
    let out = bytes_of(
        alloc,
        "00000012 00000000 00000002 1070 00000000 \
        00000018 00000000 00000008 1002A08FCFF0C200 00000000",
    )?;
    assert!(rt; linked.out.as_slice() == out.as_slice());
    Ok(())
}
