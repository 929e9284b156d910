//! What requests ask for: of each line, a method, a path and a body, what is read, or the status and
//! the sentence of the refusal.

use crate::asked::{request_of, tables_of};
use njh_header::User;
use njh_hub::OrderText;
use njh_request::{EndMoment, LineWish, Order, OrderKey, Request, RequestRefusal, Terms};
use njh_table::Tables;
use std::alloc::{AllocError, Global};
use std::io;

/// Three customers: ACME with the lines a1 and a2, BOLT with b1, DOCK#1 with d1.
const TABLES: &str = r#"
capacity = 300
[[customer]]
name = "ACME"
hub = "BUREAU"
quota = 100
files = 8
[[customer.line]]
name = "a1"
node = "LYON"
role = "answer"
block = 1024
streams = 4
[[customer.line]]
name = "a2"
node = "METZ"
role = "answer"
block = 1024
streams = 4
[[customer.route]]
node = "LYON"
line = "a1"
[[customer]]
name = "BOLT"
hub = "BUREAU"
quota = 100
files = 8
[[customer.line]]
name = "b1"
node = "LYON"
role = "answer"
block = 1024
streams = 4
[[customer]]
name = "DOCK#1"
hub = "BUREAU"
quota = 100
files = 8
[[customer.line]]
name = "d1"
node = "LYON"
role = "answer"
block = 1024
streams = 4
"#;

fn moment_text(moment: EndMoment) -> &'static str {
    match moment {
        EndMoment::AtOnce => "at once",
        EndMoment::WhenIdle => "when idle",
    }
}

/// A user, by the bytes of its fields.
fn user_text(alloc: Global, user: User) -> Result<String, AllocError> {
    let node = user.node;
    let field = hex::encode(alloc, user.user.as_slice())?;
    let field = field.as_str();
    format!(in alloc; "{node} {field}")
}

/// What is asked for, in words.
fn request_text(alloc: Global, request: &Request) -> Result<String, AllocError> {
    match request {
        Request::Status => String::from_str(alloc, "status"),
        Request::Customers(from) => format!(in alloc; "customers from {from}"),
        Request::Lines(customer, from) => format!(in alloc; "lines of {customer} from {from}"),
        Request::Files(customer, from) => format!(in alloc; "files of {customer} from {from}"),
        Request::Outcome(key) => match key {
            OrderKey::Number(number) => format!(in alloc; "order {number}"),
            OrderKey::Name(name) => format!(in alloc; "order called {name}"),
        },
        Request::Order(terms, order) => {
            let order = ordered_text(alloc, order)?;
            let terms = terms_text(alloc, terms)?;
            let (order, terms) = (order.as_str(), terms.as_str());
            format!(in alloc; "{order}{terms}")
        }
    }
}

/// The terms, in words; nothing if there are none.
fn terms_text(alloc: Global, terms: &Terms) -> Result<String, AllocError> {
    let mut text = String::new(alloc);
    if let Some(name) = &terms.name {
        text.push_str(format!(in alloc; ", as {name}")?.as_str())?;
    }
    if let Some(until) = terms.until {
        text.push_str(format!(in alloc; ", until {until}")?.as_str())?;
    }
    if let Some(by) = &terms.by {
        text.push_str(format!(in alloc; ", by {by}")?.as_str())?;
    }
    Ok(text)
}

/// What is ordered, in words.
fn ordered_text(alloc: Global, order: &Order) -> Result<String, AllocError> {
    match order {
        Order::Command(customer, owner, text) => {
            let owner = match owner {
                Some(owner) => user_text(alloc, *owner)?,
                None => String::from_str(alloc, "nobody")?,
            };
            order_text(alloc, *customer, owner.as_str(), text)
        }
        Order::Message(customer, whom, text) => {
            let whom = user_text(alloc, *whom)?;
            order_text(alloc, *customer, whom.as_str(), text)
        }
        Order::Line(line, wish) => {
            let (customer, number) = (line.customer, line.number);
            let wish = match wish {
                LineWish::Started => "started",
                LineWish::Stopped(moment) => moment_text(*moment),
            };
            format!(in alloc; "line {number} of {customer}: {wish}")
        }
        Order::Stop(moment) => {
            let moment = moment_text(*moment);
            format!(in alloc; "stop {moment}")
        }
        Order::Reload => format!(in alloc; "reload"),
        Order::Diff(path) => {
            let path = path.text();
            format!(in alloc; "diff {path}")
        }
    }
}

fn order_text(
    alloc: Global,
    customer: u16,
    user: &str,
    text: &OrderText,
) -> Result<String, AllocError> {
    let bytes = hex::encode(alloc, text.bytes())?;
    let bytes = bytes.as_str();
    format!(in alloc; "of {customer}, {user}: {bytes}")
}

fn refusal_text(alloc: Global, refusal: RequestRefusal) -> Result<String, AllocError> {
    let status = refusal.status();
    format!(in alloc; "{status} {refusal}")
}

/// What a line asks for.
fn told(alloc: Global, tables: &Tables, line: &str) -> Result<String, AllocError> {
    match request_of(alloc, tables, line)? {
        Ok(request) => request_text(alloc, &request),
        Err(refusal) => refusal_text(alloc, refusal),
    }
}

/// The refusals that no request has by itself.
const LATER: [RequestRefusal; 11] = [
    RequestRefusal::NotACommand,
    RequestRefusal::NoOwner,
    RequestRefusal::NoOrder(OrderKey::Number(7)),
    RequestRefusal::TooLate,
    RequestRefusal::GiverGone,
    RequestRefusal::NoWay,
    RequestRefusal::QueueFull,
    RequestRefusal::SeveralOwners,
    RequestRefusal::Busy,
    RequestRefusal::NotKept,
    RequestRefusal::TooLong,
];

/// Tries each line, and says those.
pub(crate) fn try_each<R: Print + AllocGlobal>(rt: &R, lines: &str) -> io::Result<()> {
    let tables = tables_of(rt.alloc(), TABLES)?;
    for line in lines.lines() {
        let told = told(rt.alloc(), &tables, line)?;
        println!(rt; "{line}\n  {told}")?;
    }
    say_later(rt)
}

fn say_later<R: Print + AllocGlobal>(rt: &R) -> io::Result<()> {
    for refusal in LATER {
        let told = refusal_text(rt.alloc(), refusal)?;
        println!(rt; "  {told}")?;
    }
    Ok(())
}
