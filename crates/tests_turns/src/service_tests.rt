//! A service over wires in memory, with an attendant in memory.

use crate::memory_attendant::{MemoryAttendant, Pause};
use crate::memory_keeper::MemoryKeeper;
use crate::memory_wire::MemoryWire;
use crate::serving::{LINES, TOLD, attend_twice};
use njh_ebcdic::Name;
use njh_header::User;
use njh_hub::{GivenOrder, GivenRoutes, HubFault, OrderText};
use njh_table::{GivenRoute, LineId, TableFault};
use njh_turns::{NewOrder, NewRoutes};
use std::alloc::Global;
use std::process::Abort;
use std::test::Fail;

/// What a contact is answered, and a tick after it.
const ACK0: &[u8] = b"\x10\x70";

const ACK0_AND_NAK: &[u8] = b"\x10\x70\x3d";

/// A route to METZ on a line, for the first customer.
pub(crate) fn metz_by(alloc: Global, id: LineId) -> Result<NewRoutes, Fail> {
    let node = Name::of_text("METZ")?;
    let entry = GivenRoute {
        node,
        line: id,
        second: None,
    };
    let routes = GivenRoutes::of(alloc, &[entry])?;
    Ok(NewRoutes {
        customer: 0,
        routes,
    })
}

/// LIST, and the reply to it where there are no files.
const LIST: &[u8] = b"\xd3\xc9\xe2\xe3";

const NO_FILES: &[u8] = b"\xd5\xd1\xc8\xf0\xf0\xf2\x40\xf0\x40\xc6\xc9\xd3\xc5\xe2";

/// ANNA at a node.
fn anna_at(node: &str) -> Result<User, Fail> {
    let node = Name::of_text(node)?;
    let user = *b"\xc1\xd5\xd5\xc1\x40\x40\x40\x40";
    Ok(User { node, user })
}

/// LIST, in the name of ANNA in LYON.
pub(crate) fn list_for(alloc: Global, customer: u16) -> Result<NewOrder, Fail> {
    let text = OrderText::of(alloc, LIST)?;
    let order = GivenOrder::Command(anna_at("LYON")?, text);
    Ok(NewOrder { customer, order })
}

/// A message to ANNA at a node, for the first customer: what LIST is answered.
fn message_to(alloc: Global, node: &str) -> Result<NewOrder, Fail> {
    let customer = 0;
    let text = OrderText::of(alloc, NO_FILES)?;
    let order = GivenOrder::Message(anna_at(node)?, text);
    Ok(NewOrder { customer, order })
}

/// Two wires on which contact is made, and then nothing comes.
fn quiet_wires() -> [MemoryWire; 2] {
    [
        MemoryWire::new("contact", 0),
        MemoryWire::new("contact quiet quiet pending", 0),
    ]
}

/// A service of the quiet wires: so many rounds, then so many more; what is sent on each of them,
/// and how often it is read.
fn attend_quiet<R: Abort>(
    rt: &R,
    alloc: Global,
    attendant: &mut MemoryAttendant,
    rounds: [u64; 2],
    sent: [&[u8]; 2],
    reads: [u32; 2],
) -> Result<(), Fail> {
    let mut wires = quiet_wires();
    let keeper = &mut MemoryKeeper::new(0, 0);
    attend_twice(rt, alloc, keeper, &mut wires, attendant, rounds)??;
    assert_eq!(rt; [wires[0].sent(), wires[1].sent()], sent);
    assert_eq!(rt; [wires[0].reads(), wires[1].reads()], reads);
    Ok(())
}

/// The tenth quiet is a tick, whatever call of the service it falls in; after a contact it is
/// answered by NAK.
#[test]
fn quiets_outlive_a_call(rt: HostRuntime) -> Result<(), Fail> {
    let mut attendant = MemoryAttendant::new(None);
    let alloc = rt.alloc();
    attend_quiet(
        &rt,
        alloc,
        &mut attendant,
        [6, 5],
        [ACK0_AND_NAK, ACK0],
        [11, 11],
    )?;
    attend_quiet(
        &rt,
        alloc,
        &mut attendant,
        [6, 6],
        [ACK0_AND_NAK, ACK0_AND_NAK],
        [12, 12],
    )?;
    assert_eq!(rt; [attendant.before, attendant.after], [23, 23]);
    Ok(())
}

/// A service with an attendant that brings a route to METZ on a line: how often it is told that
/// routes were given, and the refusal that it is told.
fn bring<R: Abort>(
    rt: &R,
    alloc: Global,
    id: LineId,
    given: u32,
    refused: Option<HubFault>,
) -> Result<(), Fail> {
    let mut attendant = MemoryAttendant::new(Some(metz_by(alloc, id)?));
    attend_quiet(rt, alloc, &mut attendant, [2, 1], [ACK0, ACK0], [3, 3])?;
    assert_eq!(rt; attendant.given, given);
    assert_eq!(rt; attendant.refused, refused);
    Ok(())
}

/// Routes are given before the first round; those on a line of another customer are refused. Each
/// is told to the attendant.
#[test]
fn routes_are_given_once(rt: HostRuntime) -> Result<(), Fail> {
    let cause = TableFault::UnknownLine;
    bring(&rt, rt.alloc(), LINES[0], 1, None)?;
    bring(
        &rt,
        rt.alloc(),
        LINES[1],
        0,
        Some(HubFault::BadRoutes { cause }),
    )
}

/// A service with an attendant that brings an order: how often it is told that it was done, the
/// refusal that it is told, and the replies.
fn order<R: Abort>(
    rt: &R,
    alloc: Global,
    new: NewOrder,
    done: u32,
    not_done: Option<HubFault>,
    replies: &[u8],
) -> Result<(), Fail> {
    let mut attendant = MemoryAttendant::ordering(new);
    attend_quiet(rt, alloc, &mut attendant, [2, 1], [ACK0, ACK0], [3, 3])?;
    assert_eq!(rt; attendant.done, done);
    assert_eq!(rt; attendant.not_done, not_done);
    assert_eq!(rt; attendant.replies.as_slice(), replies);
    Ok(())
}

/// An order is done before the first round, and the attendant is told the replies. It is refused
/// for a customer that there is none of, and a message where no line leads to its node.
#[test]
fn orders_are_done_once(rt: HostRuntime) -> Result<(), Fail> {
    let alloc = rt.alloc();
    order(&rt, alloc, list_for(alloc, 0)?, 1, None, NO_FILES)?;
    order(&rt, alloc, list_for(alloc, 1)?, 1, None, NO_FILES)?;
    let unknown = Some(HubFault::UnknownCustomer);
    order(&rt, alloc, list_for(alloc, 2)?, 0, unknown, b"")?;
    order(&rt, alloc, message_to(alloc, "LYON")?, 1, None, b"")?;
    let no_route = Some(HubFault::NoRoute);
    order(&rt, alloc, message_to(alloc, "METZ")?, 0, no_route, b"")
}

/// A message that is ordered goes out on its customer's line to LYON, as the reply to LIST does.
/// The other customer's line to LYON is told nothing.
#[test]
fn orders_show_to_their_customer_alone(rt: HostRuntime) -> Result<(), Fail> {
    let alloc = rt.alloc();
    let steps = "contact sign-on ack0";
    let mut wires = [MemoryWire::new(steps, 0), MemoryWire::new(steps, 0)];
    let mut attendant = MemoryAttendant::ordering(message_to(alloc, "LYON")?);
    let keeper = &mut MemoryKeeper::new(0, 0);
    attend_twice(&rt, alloc, keeper, &mut wires, &mut attendant, [2, 1])??;
    assert_eq!(rt; wires[0].sent(), TOLD.as_slice());
    assert_eq!(rt; Some(wires[1].sent()), TOLD.get(..51));
    Ok(())
}

/// A service in which the first wire has a pause.
fn pause<R: Abort>(
    rt: &R,
    alloc: Global,
    [from, to]: [u32; 2],
    rounds: [u64; 2],
    sent: [&[u8]; 2],
    reads: [u32; 2],
) -> Result<(), Fail> {
    let place = 0;
    let mut attendant = MemoryAttendant::with_pause(Pause { place, from, to });
    attend_quiet(rt, alloc, &mut attendant, rounds, sent, reads)
}

/// The first wire is passed over in five rounds, after two quiets: these count, those five rounds
/// don't. Its tenth quiet is in round 16; that of the other wire, which is pending once, is in
/// round 12.
#[test]
fn quiets_outlive_a_pause(rt: HostRuntime) -> Result<(), Fail> {
    let both = [ACK0_AND_NAK, ACK0_AND_NAK];
    pause(
        &rt,
        rt.alloc(),
        [4, 9],
        [8, 7],
        [ACK0, ACK0_AND_NAK],
        [10, 15],
    )?;
    pause(&rt, rt.alloc(), [4, 9], [8, 8], both, [11, 16])
}

/// What came on a wire that is passed over waits there until it is due; the other wire is read in
/// each round.
#[test]
fn bytes_wait_while_a_wire_is_passed_over(rt: HostRuntime) -> Result<(), Fail> {
    pause(&rt, rt.alloc(), [1, 4], [2, 1], [b"", ACK0], [0, 3])?;
    pause(&rt, rt.alloc(), [1, 4], [2, 2], [ACK0, ACK0], [1, 4])
}

/// The attendant ends the service after five rounds, whatever call of it that falls in: of those
/// that were asked for, the others aren't taken.
#[test]
fn service_ends_when_it_is_told_to(rt: HostRuntime) -> Result<(), Fail> {
    let alloc = rt.alloc();
    let both = [ACK0, ACK0];
    for rounds in [[5, 0], [9, 9], [2, 9], [2, 3]] {
        let mut attendant = MemoryAttendant::ending(5);
        attend_quiet(&rt, alloc, &mut attendant, rounds, both, [5, 5])?;
        assert_eq!(rt; [attendant.before, attendant.after], [5, 5]);
    }
    Ok(())
}

/// Each step is told with the place of its wire and its frame, three in one read; and so is the
/// loss of a line whose frame can't be written.
#[test]
fn each_step_is_told(rt: HostRuntime) -> Result<(), Fail> {
    let mut attendant = MemoryAttendant::new(None);
    let mut wires = [
        MemoryWire::new("pending all", 0),
        MemoryWire::new("pending contact", 1),
    ];
    let keeper = &mut MemoryKeeper::new(0, 0);
    attend_twice(&rt, rt.alloc(), keeper, &mut wires, &mut attendant, [1, 1])??;
    assert_eq!(rt; attendant.steps.as_slice(), [0, 0, 0, 1, 1].as_slice());
    let frames = attendant.frames.as_slice();
    assert_eq!(rt; frames.get(..TOLD.len()), Some(TOLD.as_slice()));
    assert_eq!(rt; frames.get(TOLD.len()..), Some(ACK0));
    Ok(())
}
