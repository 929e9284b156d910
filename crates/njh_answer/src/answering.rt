//! What is answered to a request, and what it orders.

ghost use Rattle.std.specs.Prelude.{◌≡◌, IfOk};
ghost use Rattle.serde_json.specs.View.{view};
ghost use Rattle.njh_request.specs.Named.{IsOrderOf, IsRequestOf};
ghost use Rattle.njh_answer.specs.Answers.{again_told, answer_of, order_told, ordered, refusal_data, refuses, shows};
ghost use Rattle.njh_answer.specs.Answers.{shows_or_refuses, takes, takes_data, takes_work, told_of, with_since};
ghost use Rattle.njh_answer.specs.Orders.{viewed};

use crate::customers::customers_value;
use crate::files::files_value;
use crate::lines::lines_value;
use crate::orders::{OrderRecord, order_called, outcome_value};
use crate::status::status_value;
use crate::ticket::{Ticket, is_late, ticket_of};
use crate::views::{LineView, ServiceView};
use crate::work::{Work, work_for};
use circular_buffer::HeapCircularBuffer;
use njh_arrivals::Arrivals;
use njh_hub::Hub;
use njh_request::{
    Order, OrderName, Request, RequestRefusal, Terms, are_same_terms, is_same_order,
};
use njh_table::Tables;
use serde_json::{Value, json};
use std::alloc::{AllocError, Global};

/// What a request orders. Those that only ask order nothing.
#[derive(Drop)]
pub enum Deed {
    /// Nothing.
    Nothing,
    /// Nothing: the request was refused so.
    Refused(RequestRefusal),
    /// That this is done, as it was given.
    Order(Ticket, Work),
}

/// What is answered: a status of HTTP and JSON, and what is to be done.
#[derive(Drop)]
pub struct RequestAnswer {
    /// The status.
    pub status: u16,
    /// The body.
    pub value: Value,
    /// What the request orders.
    pub deed: Deed,
}

/// What there is to be told of.
#[derive(Clone, Copy, Drop)]
pub struct Views<'a> {
    /// The hub.
    pub hub: &'a Hub,
    /// Its tables.
    pub tables: &'a Tables,
    /// What the service knows of itself.
    pub service: &'a ServiceView,
    /// What it knows of the lines that it serves.
    pub lines: &'a [LineView],
    /// When it saw files come.
    pub arrivals: &'a Arrivals,
    /// The orders that are remembered.
    pub orders: &'a HeapCircularBuffer<OrderRecord>,
    /// The number of the next order.
    pub next: u64,
}

/// What is answered to a request. Out of memory is the only failure.
pub fn answer_request(
    alloc: Global,
    request: Request,
    views: &Views<'_>,
) -> Result<RequestAnswer, AllocError>
    requires { IsRequestOf views.now.tables.now request }
    ensures { IfOk result (λ answer. told_of answer ≡ answer_of request views.now.hub.now views.now.tables.now
        views.now.service.now views.now.lines.now views.now.arrivals.now views.now.orders.now.items views.now.next) }
{
    let since = views.service.since;
    match request {
        Request::Status => {
            let value = status_value(alloc, views.hub, views.tables, views.service)?;
            shows(alloc, since, value)
        }
        Request::Customers(from) => {
            let value = customers_value(alloc, views, from)?;
            shows(alloc, since, value)
        }
        Request::Lines(customer, from) => {
            let value = lines_value(alloc, views, customer, from)?;
            shows(alloc, since, value)
        }
        Request::Files(customer, from) => {
            let value = files_value(alloc, views, customer, from)?;
            shows(alloc, since, value)
        }
        Request::Outcome(key) => {
            let told = outcome_value(alloc, views.orders, key)?;
            shows_or_refuses(alloc, since, told)
        }
        Request::Order(terms, order) => ordered(alloc, views, terms, order),
    }
}

/// Something is told, and nothing ordered.
fn shows(alloc: Global, since: u64, value: Value) -> Result<RequestAnswer, AllocError>
    ensures { IfOk result (λ answer. told_of answer ≡ shows since (view value)) }
{
    let value = with_since(alloc, since, value)?;
    Ok(RequestAnswer {
        status: 200,
        value,
        deed: Deed::Nothing,
    })
}

/// An object with since when the service runs. Out of memory is the only refusal.
fn with_since(alloc: Global, since: u64, value: Value) -> Result<Value, AllocError>
    ensures { IfOk result (λ told. view told ≡ with_since since (view value)) }
{
    match value {
        Value::Object(mut members) => {
            let key = String::from_str(alloc, "since")?;
            members.insert(key, Value::from(since))?;
            Ok(Value::Object(members))
        }
        other => Ok(other),
    }
}

/// Something is told, or why it isn't.
fn shows_or_refuses(
    alloc: Global,
    since: u64,
    told: Result<Value, RequestRefusal>,
) -> Result<RequestAnswer, AllocError>
    ensures { IfOk result (λ answer. told_of answer ≡ shows_or_refuses since (viewed told)) }
{
    match told {
        Ok(value) => shows(alloc, since, value),
        Err(refusal) => refuses(alloc, since, refusal),
    }
}

/// Why nothing is done.
pub fn refuses(
    alloc: Global,
    since: u64,
    refusal: RequestRefusal,
) -> Result<RequestAnswer, AllocError>
    ensures { IfOk result (λ answer. told_of answer ≡ refuses since refusal) }
{
    let value = refusal_value(alloc, since, &refusal)?;
    Ok(RequestAnswer {
        status: refusal.status(),
        value,
        deed: Deed::Refused(refusal),
    })
}

fn refusal_value(alloc: Global, since: u64, refusal: &RequestRefusal) -> Result<Value, AllocError>
    ensures { IfOk result (λ value. view value ≡ refusal_data since refusal.now) }
{
    let sentence = format!(in alloc; "{refusal}")?;
    json!(in alloc; {"error": sentence, "since": since})
}

/// An order under a name that is remembered isn't taken again. Another may be.
fn ordered(
    alloc: Global,
    views: &Views<'_>,
    terms: Terms,
    order: Order,
) -> Result<RequestAnswer, AllocError>
    requires { IsOrderOf views.now.tables.now order }
    ensures { IfOk result (λ answer. told_of answer ≡ ordered terms.name views.now.orders.now.items
        views.now.service.now terms order (order_told views.now.hub.now views.now.tables.now
        views.now.service.now views.now.next terms order)) }
{
    let Some(name) = &terms.name else {
        return order_told(alloc, views, terms, order);
    };
    match order_called(views.orders, name) {
        None => order_told(alloc, views, terms, order),
        Some(known) => {
            let since = views.service.since;
            again_told(alloc, since, *name, &known.ticket, &terms, &order)
        }
    }
}

/// The same order again, on the same terms, is answered as it was; another one is refused.
fn again_told(
    alloc: Global,
    since: u64,
    name: OrderName,
    ticket: &Ticket,
    terms: &Terms,
    order: &Order,
) -> Result<RequestAnswer, AllocError>
    ensures { IfOk result (λ answer. told_of answer
        ≡ again_told since name ticket.now terms.now order.now) }
{
    if is_same_order(&ticket.order, order) && are_same_terms(&ticket.terms, terms) {
        takes(alloc, since, ticket.number, Deed::Nothing)
    } else {
        refuses(alloc, since, RequestRefusal::NameTaken(name))
    }
}

/// An order is taken, if it isn't too late, and there is something to be done for it.
fn order_told(
    alloc: Global,
    views: &Views<'_>,
    terms: Terms,
    order: Order,
) -> Result<RequestAnswer, AllocError>
    requires { IsOrderOf views.now.tables.now order }
    ensures { IfOk result (λ answer. told_of answer ≡ order_told views.now.hub.now views.now.tables.now
        views.now.service.now views.now.next terms order) }
{
    let since = views.service.since;
    if is_late(views.service.clock, &terms) {
        return refuses(alloc, since, RequestRefusal::TooLate);
    }
    let work = work_for(alloc, views.hub, &order)?;
    let ticket = ticket_of(views.next, views.tables, terms, order);
    takes_work(alloc, since, ticket, work)
}

fn takes_work(
    alloc: Global,
    since: u64,
    ticket: Ticket,
    work: Result<Work, RequestRefusal>,
) -> Result<RequestAnswer, AllocError>
    ensures { IfOk result (λ answer. told_of answer ≡ takes_work since ticket work) }
{
    match work {
        Ok(work) => {
            let number = ticket.number;
            takes(alloc, since, number, Deed::Order(ticket, work))
        }
        Err(refusal) => refuses(alloc, since, refusal),
    }
}

/// An order is taken under a number, or was.
fn takes(alloc: Global, since: u64, number: u64, deed: Deed) -> Result<RequestAnswer, AllocError>
    ensures { IfOk result (λ answer. told_of answer ≡ takes since number deed) }
{
    let value = takes_value(alloc, since, number)?;
    Ok(RequestAnswer {
        status: 202,
        value,
        deed,
    })
}

fn takes_value(alloc: Global, since: u64, number: u64) -> Result<Value, AllocError>
    ensures { IfOk result (λ value. view value ≡ takes_data since number) }
{
    json!(in alloc; {"order": number, "since": since})
}
