//! Orders that a hub refuses, and some that it takes, by the call.

use crate::looks::characters;
use crate::steps::{CONTACT, LIST, SIGN_ON};
use crate::trial::{A1, A2, NOWHERE, bytes_of, of_hub};
use njh_command::Replies;
use njh_ebcdic::Name;
use njh_header::User;
use njh_hub::{GivenOrder, Hub, HubFault, MessageCounts, OrderText};
use njh_replay::{OrderKind, order_text};
use njh_table::LineId;
use std::alloc::Global;
use std::io;

/// A user at a node.
fn user_at(node: &str, user: &str) -> io::Result<User> {
    match (Name::of_text(node), Name::of_text(user)) {
        (Ok(node), Ok(user)) => Ok(User {
            node,
            user: user.bytes(),
        }),
        _ => Err(of_hub(HubFault::UnknownCustomer)),
    }
}

/// An order of a kind, for this user.
fn order_of(alloc: Global, kind: OrderKind, who: User, text: &str) -> io::Result<GivenOrder> {
    let bytes = match order_text(text) {
        Ok(bytes) => bytes,
        Err(_) => return Err(of_hub(HubFault::UnknownCustomer)),
    };
    let text = OrderText::of(alloc, &bytes)?;
    match kind {
        OrderKind::Command => Ok(GivenOrder::Command(who, text)),
        OrderKind::Message => Ok(GivenOrder::Message(who, text)),
    }
}

/// Says what a customer's order is answered.
fn give<R: Print + AllocGlobal>(
    rt: &R,
    hub: &mut Hub,
    customer: u16,
    order: &GivenOrder,
) -> io::Result<()> {
    let mut replies = Replies::new();
    match hub.order(customer, order, &mut replies) {
        Ok(()) => println!(rt; "order: {} replies", replies.texts().len())?,
        Err(fault) => println!(rt; "order: {fault}")?,
    }
    for reply in replies.texts() {
        println!(rt; "  {}", characters(rt.alloc(), reply)?)?;
    }
    Ok(())
}

/// Says which orders are refused, and what others are answered.
pub(crate) fn give_each<R: Print + AllocGlobal>(rt: &R, hub: &mut Hub) -> io::Result<()> {
    let anna = user_at("LYON", "ANNA")?;
    let jean = user_at("PARIS", "JEAN")?;
    for (customer, kind, who, text) in [
        (9u16, OrderKind::Command, anna, "LIST"),
        (0, OrderKind::Command, anna, "LIST"),
        (0, OrderKind::Command, anna, "CANCEL LYON.42"),
        (0, OrderKind::Command, jean, "HELLO"),
        (9, OrderKind::Message, anna, "HELLO"),
        (0, OrderKind::Message, jean, "HELLO"),
        (1, OrderKind::Message, jean, "HELLO"),
    ] {
        let order = order_of(rt.alloc(), kind, who, text)?;
        give(rt, hub, customer, &order)?;
    }
    Ok(())
}

/// How many messages wait on ACME's line to LYON, and what an order that goes by it is answered.
fn tell<R: Print + AllocGlobal>(rt: &R, hub: &mut Hub, order: &GivenOrder) -> io::Result<()> {
    match hub.message_count(A1) {
        Ok(count) => println!(rt; "queue: {count} messages")?,
        Err(fault) => println!(rt; "queue: {fault}")?,
    }
    give(rt, hub, 0, order)
}

/// Gives an order so many times, and says how many of them are taken.
fn give_times<R: Print>(rt: &R, hub: &mut Hub, order: &GivenOrder, times: u64) -> io::Result<()> {
    let mut replies = Replies::new();
    let mut taken = 0u64;
    for _ in 0..times {
        if hub.order(0, order, &mut replies).is_ok() {
            taken = taken.saturating_add(1);
        }
    }
    println!(rt; "queue: {taken} of {times} taken")
}

/// Bytes come from LYON.
fn take(alloc: Global, hub: &mut Hub, digits: &str) -> io::Result<()> {
    let piece = bytes_of(alloc, digits)?;
    let mut out = Vec::new(alloc);
    match hub.take(A1, &piece, &mut out) {
        Ok(_) => Ok(()),
        Err(fault) => Err(of_hub(fault)),
    }
}

/// LYON comes, and is sent the first block of the messages that wait.
fn send_block(alloc: Global, hub: &mut Hub) -> io::Result<()> {
    for digits in [CONTACT, SIGN_ON, "1070"] {
        take(alloc, hub, digits)?;
    }
    Ok(())
}

/// Says which message waits on a line at an index.
fn show_message<R: Print + AllocGlobal>(
    rt: &R,
    hub: &Hub,
    id: LineId,
    index: usize,
) -> io::Result<()> {
    match hub.message(id, index) {
        Some(message) => println!(rt; "waits: {}", characters(rt.alloc(), message)?)?,
        None => println!(rt; "waits: none")?,
    }
    Ok(())
}

/// Says how many messages came and went on a line.
fn show_counts<R: Print>(rt: &R, hub: &Hub, id: LineId) -> io::Result<()> {
    let MessageCounts {
        came,
        sent,
        dropped,
    } = hub.message_counts(id);
    println!(rt; "counts: {came} came, {sent} sent, {dropped} dropped")
}

/// LYON's user commands LIST while 64 messages wait for LYON: the reply is dropped, and a block of
/// the messages goes.
fn drop_reply<R: Print + AllocGlobal>(rt: &R, hub: &mut Hub) -> io::Result<()> {
    take(rt.alloc(), hub, LIST)?;
    for id in [A1, A2, NOWHERE] {
        show_counts(rt, hub, id)?;
        show_message(rt, hub, id, 0)?;
    }
    show_message(rt, hub, A1, 35)
}

/// 63 messages for LYON and one more wait, and all that follow are refused. A command needs no
/// room, nor does a message that goes by the other line. Once some went out there is room. What the
/// hub itself says is dropped while there is none.
pub(crate) fn fill<R: Print + AllocGlobal>(rt: &R, hub: &mut Hub) -> io::Result<()> {
    let anna = user_at("LYON", "ANNA")?;
    let paul = user_at("METZ", "PAUL")?;
    let message = order_of(rt.alloc(), OrderKind::Message, anna, "HELLO")?;
    let command = order_of(rt.alloc(), OrderKind::Command, anna, "LIST")?;
    let other = order_of(rt.alloc(), OrderKind::Message, paul, "HELLO")?;
    give_times(rt, hub, &message, 63)?;
    tell(rt, hub, &message)?;
    tell(rt, hub, &message)?;
    tell(rt, hub, &command)?;
    tell(rt, hub, &other)?;
    give_times(rt, hub, &message, 6)?;
    send_block(rt.alloc(), hub)?;
    tell(rt, hub, &message)?;
    give_times(rt, hub, &message, 64)?;
    tell(rt, hub, &message)?;
    drop_reply(rt, hub)
}
