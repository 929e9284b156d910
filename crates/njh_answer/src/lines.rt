//! A customer's lines.

ghost use Rattle.std.specs.Prelude.{◌≡◌, ◌^◌, ◌≤◌, ◌<◌, find, length, map, IfOk, option_map};
ghost use Rattle.serde_json.specs.Data.{array, null};
ghost use Rattle.serde_json.specs.View.{items_of, view};
ghost use Rattle.njh_hub.specs.WholeHub.{part};
ghost use Rattle.njh_spool.specs.CustomerSpool.{whole_numbered};
ghost use Rattle.njh_table.specs.TableFile.{customer_at};
ghost use Rattle.njh_answer.specs.Lines.{going_data, is_of_line, line_data, line_told, line_where};
ghost use Rattle.njh_answer.specs.Lines.{lines_data, lines_told_from, messages_where, name_where};
ghost use Rattle.njh_answer.specs.Lines.{phase_text, protocol_text};
ghost use Rattle.njh_answer.specs.Queues.{queue_where};
ghost use Rattle.njh_answer.specs.Lines.{receiver_data, receivers_where, role_text, sender_data, senders_where};
ghost use Rattle.njh_answer.specs.Lines.{served_data, session_data, session_where, turn_text};

use crate::answering::Views;
use crate::fields::{file_name_text, name_text};
use crate::page::Page;
use crate::queue::queue_value;
use crate::served::served_value;
use crate::views::LineView;
use njh_hub::{Hub, SessionView};
use njh_line::Phase;
use njh_spool::FileId;
use njh_stream::{Receiver, Sender};
use njh_table::{LineId, NamedLine, Protocol, Role, Tables};
use serde_json::{Value, json};
use std::alloc::{AllocError, Global};

/// How many lines an answer has at most: with 64 addresses that were refused and 64 messages that
/// wait a line has some 13,500 bytes, and an answer of the console 65,536.
const LINES: usize = 4;

/// A line's session.
fn session_value(alloc: Global, session: &SessionView) -> Result<Value, AllocError>
    ensures { IfOk result (λ value. view value ≡ session_data session.now) }
{
    json!(in alloc; {
        "phase": phase_text(session.phase),
        "refusals": session.refusals,
        "tries": session.tries,
        "turn": turn_text(session)
    })
}

fn phase_text(phase: Phase) -> &'static str
    ensures { result.now ≡ phase_text phase }
{
    match phase {
        Phase::Down => "down",
        Phase::Calling => "calling",
        Phase::Answered => "answered",
        Phase::SentI => "signing on",
        Phase::Up => "up",
    }
}

/// Who is to send next; nobody if the session isn't up.
fn turn_text(session: &SessionView) -> &'static str
    ensures { result.now ≡ turn_text session.now.phase session.now.has_turn }
{
    match session.phase {
        Phase::Up => if session.has_turn { "hub" } else { "peer" },
        _ => "nobody",
    }
}

fn role_text(role: Role) -> &'static str
    ensures { result.now ≡ role_text role }
{
    match role {
        Role::Call => "calls",
        Role::Answer => "answers",
    }
}

fn protocol_text(protocol: Protocol) -> &'static str
    ensures { result.now ≡ protocol_text protocol }
{
    match protocol {
        Protocol::Bisync => "bisync",
        Protocol::Tcp => "tcp",
    }
}

/// What comes on a stream, if something does.
fn receiver_value(
    alloc: Global,
    hub: &Hub,
    customer: u16,
    receiver: Receiver,
) -> Result<Value, AllocError>
    ensures { IfOk result (λ value. view value ≡ receiver_data (part customer hub.now).customer.spool receiver) }
{
    match receiver {
        Receiver::Idle => Ok(Value::Null),
        Receiver::Open { file, .. } =>
            json!(in alloc; {"records": hub.record_count(customer, file)}),
        Receiver::Draining => json!(in alloc; {"state": "passed over"}),
    }
}

/// What goes out on a stream, if something does.
fn sender_value(
    alloc: Global,
    hub: &Hub,
    customer: u16,
    sender: Sender,
) -> Result<Value, AllocError>
    ensures { IfOk result (λ value. view value ≡ sender_data (part customer hub.now).customer.spool sender) }
{
    match sender {
        Sender::Idle => Ok(Value::Null),
        Sender::Requested(file) => Going::of(file, 0, "asked for").value(alloc, hub, customer),
        Sender::Sending(file, next) => Going::of(file, next, "sending").value(alloc, hub, customer),
        Sender::EofSent(file) => {
            let records = hub.record_count(customer, file);
            Going::of(file, records, "sent").value(alloc, hub, customer)
        }
        Sender::Aborting => json!(in alloc; {"state": "given up"}),
    }
}

/// A file that goes out: how many of its records went, and how far it is.
#[derive(Drop)]
struct Going<'a> {
    file: FileId,
    sent: u32,
    state: &'a str,
}

impl<'a> Going<'a> {
    fn of(file: FileId, sent: u32, state: &'a str) -> Going<'a>
        ensures file { result.file ≡ file }
        ensures sent { result.sent ≡ sent }
        ensures state { result.state.now ≡ state.now }
    {
        Going { file, sent, state }
    }

    /// What is told of it, among a customer's files.
    fn value(&self, alloc: Global, hub: &Hub, customer: u16) -> Result<Value, AllocError>
        ensures { IfOk result (λ value. view value
            ≡ going_data (part customer hub.now).customer.spool self.now.file self.now.sent self.now.state.now) }
    {
        let name = going_name(alloc, hub, customer, self.file)?;
        let records = hub.record_count(customer, self.file);
        json!(in alloc; {"name": name, "records": records, "sent": self.sent, "state": self.state})
    }
}

/// The name of a file that goes out; null once it has left.
fn going_name(alloc: Global, hub: &Hub, customer: u16, file: FileId) -> Result<Value, AllocError>
    ensures { IfOk result (λ value. view value
        ≡ name_where (whole_numbered file (part customer hub.now).customer.spool)) }
{
    match hub.file_summary(customer, file) {
        Some(file) => Ok(Value::String(file_name_text(alloc, file.name)?)),
        None => Ok(Value::Null),
    }
}

/// What comes on each of a line's streams to the hub; no stream where the hub has no such line.
#[tactic(auto, using(crate::proofs::Telling::line_here, crate::proofs::Telling::line_nowhere))]
fn receivers_of(alloc: Global, hub: &Hub, id: LineId) -> Result<Vec<Value>, AllocError>
    ensures { IfOk result (λ values. map view values.items ≡ receivers_where
        (part id.customer hub.now).customer.spool (line_where id.number (part id.customer hub.now))) }
{
    match hub.receivers(id) {
        Ok(receivers) => receiver_values(alloc, hub, id.customer, receivers),
        Err(_) => Ok(Vec::new(alloc)),
    }
}

fn receiver_values(
    alloc: Global,
    hub: &Hub,
    customer: u16,
    receivers: &[Receiver],
) -> Result<Vec<Value>, AllocError>
    ensures { IfOk result (λ values. map view values.items
        ≡ map (receiver_data (part customer hub.now).customer.spool) receivers.now) }
{
    let mut values = Vec::new(alloc);
    for receiver in receivers {
        values.push(receiver_value(alloc, hub, customer, *receiver)?)?;
    }
    Ok(values)
}

/// What comes on each of a line's streams to the hub, as a list.
fn receivers_told(alloc: Global, hub: &Hub, id: LineId) -> Result<Value, AllocError>
    ensures { IfOk result (λ value. view value ≡ array (items_of (receivers_where
        (part id.customer hub.now).customer.spool (line_where id.number (part id.customer hub.now))))) }
{
    Ok(Value::Array(receivers_of(alloc, hub, id)?))
}

/// What goes out on each of a line's streams from the hub; no stream where the hub has no such line.
#[tactic(auto, using(crate::proofs::Telling::line_here, crate::proofs::Telling::line_nowhere))]
fn senders_of(alloc: Global, hub: &Hub, id: LineId) -> Result<Vec<Value>, AllocError>
    ensures { IfOk result (λ values. map view values.items ≡ senders_where
        (part id.customer hub.now).customer.spool (line_where id.number (part id.customer hub.now))) }
{
    match hub.senders(id) {
        Ok(senders) => sender_values(alloc, hub, id.customer, senders),
        Err(_) => Ok(Vec::new(alloc)),
    }
}

fn sender_values(
    alloc: Global,
    hub: &Hub,
    customer: u16,
    senders: &[Sender],
) -> Result<Vec<Value>, AllocError>
    ensures { IfOk result (λ values. map view values.items
        ≡ map (sender_data (part customer hub.now).customer.spool) senders.now) }
{
    let mut values = Vec::new(alloc);
    for sender in senders {
        values.push(sender_value(alloc, hub, customer, *sender)?)?;
    }
    Ok(values)
}

/// What goes out on each of a line's streams from the hub, as a list.
fn senders_told(alloc: Global, hub: &Hub, id: LineId) -> Result<Value, AllocError>
    ensures { IfOk result (λ value. view value ≡ array (items_of (senders_where
        (part id.customer hub.now).customer.spool (line_where id.number (part id.customer hub.now))))) }
{
    Ok(Value::Array(senders_of(alloc, hub, id)?))
}

/// A line's session, by the hub; null where it has no such line.
#[tactic(auto, using(crate::proofs::Telling::line_here, crate::proofs::Telling::line_nowhere))]
fn session_of(alloc: Global, hub: &Hub, id: LineId) -> Result<Value, AllocError>
    ensures { IfOk result (λ value. view value
        ≡ session_where (line_where id.number (part id.customer hub.now))) }
{
    match hub.session(id) {
        Ok(session) => session_value(alloc, &session),
        Err(_) => Ok(nothing()),
    }
}

/// How many nodal messages wait to go out on a line; null where the hub has no such line.
#[tactic(auto, using(crate::proofs::Telling::line_here, crate::proofs::Telling::line_nowhere))]
fn messages_of(hub: &Hub, id: LineId) -> Value
    ensures { view result ≡ messages_where (line_where id.number (part id.customer hub.now)) }
{
    match hub.message_count(id) {
        Ok(count) => Value::from(count as u64),
        Err(_) => nothing(),
    }
}

/// JSON's null.
pub(crate) fn nothing() -> Value
    ensures { view result ≡ null }
{
    Value::Null
}

/// What the service knows of a line, if it serves it.
fn served_as(lines: &[LineView], id: LineId) -> Option<&LineView>
    ensures { option_map (λ s. s.now) result ≡ find (is_of_line id) lines.now }
{
    lines.iter().find(|line| is_of_line(*line, id))
}

fn is_of_line(line: &LineView, id: LineId) -> bool
    ensures { result ≡ is_of_line id line.now }
{
    line.line.customer == id.customer && line.line.number == id.number
}

/// How a line is served, if it is.
fn served_told(alloc: Global, lines: &[LineView], id: LineId) -> Result<Value, AllocError>
    ensures { IfOk result (λ value. view value ≡ served_data (find (is_of_line id) lines.now)) }
{
    served_value(alloc, served_as(lines, id))
}

/// The nodal messages that wait on a line.
fn queue_told(alloc: Global, hub: &Hub, id: LineId, lines: &[LineView]) -> Result<Value, AllocError>
    ensures { IfOk result (λ value. view value ≡ queue_where (find (is_of_line id) lines.now)
        (line_where id.number (part id.customer hub.now))) }
{
    queue_value(alloc, hub, id, served_as(lines, id))
}

/// A line, by what the tables say of it.
fn line_value(
    alloc: Global,
    hub: &Hub,
    id: LineId,
    named: &NamedLine,
    lines: &[LineView],
) -> Result<Value, AllocError>
    ensures { IfOk result (λ value. view value
        ≡ line_data named.now (part id.customer hub.now).customer.spool
        (line_where id.number (part id.customer hub.now)) (find (is_of_line id) lines.now)) }
{
    let from_hub = senders_told(alloc, hub, id)?;
    let messages = messages_of(hub, id);
    let node = name_text(alloc, named.node())?;
    let queue = queue_told(alloc, hub, id, lines)?;
    let served = served_told(alloc, lines, id)?;
    let session = session_of(alloc, hub, id)?;
    let to_hub = receivers_told(alloc, hub, id)?;
    json!(in alloc; {
        "from_hub": from_hub,
        "messages": messages,
        "name": named.name(),
        "node": node,
        "protocol": protocol_text(named.protocol()),
        "queue": queue,
        "role": role_text(named.role()),
        "served": served,
        "session": session,
        "to_hub": to_hub
    })
}

/// The line of a number, of a customer's lines by its tables.
fn told_line(
    alloc: Global,
    hub: &Hub,
    id: LineId,
    named: &[NamedLine],
    lines: &[LineView],
) -> Result<Value, AllocError>
    requires { id.number < length named.now }
    ensures { IfOk result (λ value. view value
        ≡ line_told named.now id.customer (part id.customer hub.now) lines.now id.number) }
{
    line_value(alloc, hub, id, &named[usize::from(id.number)], lines)
}

/// The lines of a page.
fn line_values(
    alloc: Global,
    views: &Views<'_>,
    named: &[NamedLine],
    customer: u16,
    page: Page,
) -> Result<Vec<Value>, AllocError>
    requires ordered { page.first ≤ page.end }
    requires within { page.end ≤ length named.now }
    requires few { length named.now < 2 ^ 16 }
    ensures { IfOk result (λ values. map view values.items
        ≡ lines_told_from named.now customer (part customer views.now.hub.now) views.now.lines.now page) }
{
    let mut values = Vec::new(alloc);
    for number in page.first..page.end {
        let id = LineId {
            customer,
            number: number as u16,
        };
        values.push(told_line(alloc, views.hub, id, named, views.lines)?)?;
    }
    Ok(values)
}

/// A customer's lines by the tables: fewer than 65,536.
pub(crate) fn lines_at(tables: &Tables, place: usize) -> &[NamedLine]
    requires { place < length tables.now.customers }
    ensures lines { result.now ≡ (customer_at tables.now place).lines }
    ensures few { length result.now < 2 ^ 16 }
{
    let customers = tables.customers();
    customers[place].lines()
}

/// A customer's lines from a place on, at most so many as one answer has, and the place to go on
/// from. Out of memory is the only refusal.
pub(crate) fn lines_value(
    alloc: Global,
    views: &Views<'_>,
    customer: u16,
    from: u64,
) -> Result<Value, AllocError>
    requires { customer < length views.now.tables.now.customers }
    ensures { IfOk result (λ value. view value ≡ lines_data (customer_at views.now.tables.now customer) customer
        (part customer views.now.hub.now) views.now.lines.now from) }
{
    let named = lines_at(views.tables, usize::from(customer));
    let page = Page::of(from, LINES, named.len());
    let name = name_text(alloc, views.tables.customer(customer).name())?;
    let told = Value::Array(line_values(alloc, views, named, customer, page)?);
    let next = page.next(0, named.len());
    json!(in alloc; {"customer": name, "lines": told, "next": next})
}
