//! What was ordered, and what came of it.

ghost use Rattle.std.specs.Prelude.{◌≡◌, ◌∷◌, [], find, map, option_map, string_bytes, IfOk};
ghost use Rattle.serde_json.specs.Data.{string};
ghost use Rattle.serde_json.specs.View.{view};
ghost use Rattle.njh_answer.specs.Orders.{whose_data, done_data, is_called, is_named, is_numbered, order_by};
ghost use Rattle.njh_answer.specs.Orders.{outcome_told, reply_data, reply_text, text_data, told_by, viewed};

use crate::fields::name_text;
use crate::ticket::Ticket;
use circular_buffer::HeapCircularBuffer;
use njh_customer::OrderText;
use njh_ebcdic::{Name, text_of};
use njh_request::{OrderKey, OrderName, RequestRefusal};
use serde_json::{Value, json};
use std::alloc::{AllocError, Global};

/// What came of an order.
#[derive(Drop)]
pub enum Outcome {
    /// It was carried out, and has these replies.
    Done(Vec<OrderText>),
    /// It was carried out, and there was no memory to keep its replies.
    NotKept,
    /// Tables were read for it, and this is what they bring, a sentence each.
    Read(Vec<String>),
    /// It was to read tables, which have this fault, or can't be read.
    Unread(String),
    /// It was a message to a node to which no line leads.
    NoWay,
    /// It was a message, and the queue of the line to its node was full.
    QueueFull,
    /// It wasn't carried out, since it was too late for that.
    TooLate,
    /// It wasn't carried out, since who gave it had gone.
    GiverGone,
}

/// An order that was taken, and what came of it.
#[derive(Drop)]
pub struct OrderRecord {
    /// The order.
    pub ticket: Ticket,
    /// What came of it.
    pub outcome: Outcome,
}

/// What came of the order of a number or a name, if it is remembered: its replies.
pub(crate) fn outcome_value(
    alloc: Global,
    orders: &HeapCircularBuffer<OrderRecord>,
    key: OrderKey,
) -> Result<Result<Value, RequestRefusal>, AllocError>
    ensures { IfOk result (λ told. viewed told ≡ outcome_told key (order_by key orders.now.items)) }
{
    match order_by(orders, &key) {
        Some(order) => told_value(alloc, order),
        None => Ok(Err(RequestRefusal::NoOrder(key))),
    }
}

/// The first order of a number or a name.
fn order_by<'a>(
    orders: &'a HeapCircularBuffer<OrderRecord>,
    key: &OrderKey,
) -> Option<&'a OrderRecord>
    ensures { option_map (λ order. order.now) result ≡ order_by key.now orders.now.items }
{
    match key {
        OrderKey::Number(number) => order_numbered(orders, *number),
        OrderKey::Name(name) => order_called(orders, name),
    }
}

fn order_numbered(orders: &HeapCircularBuffer<OrderRecord>, number: u64) -> Option<&OrderRecord>
    ensures { option_map (λ order. order.now) result ≡ find (is_numbered number) orders.now.items }
{
    orders.iter().find(|order| order.ticket.number == number)
}

/// The first order of a name.
pub(crate) fn order_called<'a>(
    orders: &'a HeapCircularBuffer<OrderRecord>,
    name: &OrderName,
) -> Option<&'a OrderRecord>
    ensures { option_map (λ order. order.now) result ≡ find (is_called name.now) orders.now.items }
{
    orders
        .iter()
        .find(|order| is_named(name, &order.ticket.terms.name))
}

fn is_named(name: &OrderName, other: &Option<OrderName>) -> bool
    ensures { result ≡ is_named name.now other.now }
{
    match other {
        None => false,
        Some(other) => *name == *other,
    }
}

/// What came of an order.
fn told_value(
    alloc: Global,
    order: &OrderRecord,
) -> Result<Result<Value, RequestRefusal>, AllocError>
    ensures { IfOk result (λ told. viewed told ≡ told_by order.now.ticket order.now.outcome) }
{
    match &order.outcome {
        Outcome::Done(replies) => {
            let replies = reply_values(alloc, replies)?;
            Ok(Ok(done_value(alloc, &order.ticket, replies)?))
        }
        Outcome::Read(texts) => {
            let replies = text_values(alloc, texts)?;
            Ok(Ok(done_value(alloc, &order.ticket, replies)?))
        }
        Outcome::Unread(fault) => {
            let replies = one_text(alloc, fault.as_str())?;
            Ok(Ok(done_value(alloc, &order.ticket, replies)?))
        }
        Outcome::NotKept => Ok(Err(RequestRefusal::NotKept)),
        Outcome::NoWay => Ok(Err(RequestRefusal::NoWay)),
        Outcome::QueueFull => Ok(Err(RequestRefusal::QueueFull)),
        Outcome::TooLate => Ok(Err(RequestRefusal::TooLate)),
        Outcome::GiverGone => Ok(Err(RequestRefusal::GiverGone)),
    }
}

/// An order that was carried out.
fn done_value(alloc: Global, ticket: &Ticket, replies: Vec<Value>) -> Result<Value, AllocError>
    ensures { IfOk result (λ value. view value ≡ done_data ticket.now (map view replies.items)) }
{
    let customer = whose_value(alloc, ticket.customer)?;
    let number = ticket.number;
    let replies = Value::Array(replies);
    json!(in alloc; {"customer": customer, "order": number, "replies": replies})
}

/// A sentence alone.
fn one_text(alloc: Global, text: &str) -> Result<Vec<Value>, AllocError>
    ensures { IfOk result (λ values. map view values.items ≡ string text.now ∷ []) }
{
    let mut values = Vec::new(alloc);
    let copy = String::from_str(alloc, text)?;
    values.push(Value::String(copy))?;
    Ok(values)
}

/// For which customer it was, if it was for one.
fn whose_value(alloc: Global, customer: Option<Name>) -> Result<Value, AllocError>
    ensures { IfOk result (λ value. view value ≡ whose_data customer) }
{
    match customer {
        Some(name) => Ok(Value::String(name_text(alloc, name)?)),
        None => Ok(Value::Null),
    }
}

fn reply_values(alloc: Global, replies: &[OrderText]) -> Result<Vec<Value>, AllocError>
    ensures { IfOk result (λ values. map view values.items ≡ map reply_data replies.now) }
{
    let mut values = Vec::new(alloc);
    for reply in replies {
        values.push(Value::String(reply_text(alloc, reply.bytes())?))?;
    }
    Ok(values)
}

fn text_values(alloc: Global, texts: &[String]) -> Result<Vec<Value>, AllocError>
    ensures { IfOk result (λ values. map view values.items ≡ map text_data texts.now) }
{
    let mut values = Vec::new(alloc);
    for text in texts {
        let copy = String::from_str(alloc, text.as_str())?;
        values.push(Value::String(copy))?;
    }
    Ok(values)
}

/// A reply, as it is read.
fn reply_text(alloc: Global, reply: &[u8]) -> Result<String, AllocError>
    ensures { IfOk result (λ text. string_bytes text ≡ reply_text reply.now) }
{
    reply.iter().map(|byte| text_of(*byte)).collect(alloc)
}
