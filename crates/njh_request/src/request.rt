//! What a request asks for.

ghost use Rattle.std.specs.Prelude.{◌≡◌, option_map, IfOk, Ok};
ghost use Rattle.json.specs.Json.{document};
ghost use Rattle.json.specs.Value.{value_view};
ghost use Rattle.njh_request.specs.Named.{IsReadOf};
ghost use Rattle.njh_request.specs.Requests.{asked, asked_where, body_asks, by_method, customers_from, files_from};
ghost use Rattle.njh_request.specs.Requests.{lines_from, object_asks, on_terms, read_where, request_of, without_place};
ghost use Rattle.njh_request.specs.declared.methods.Methods.TheVariants as methods;

use crate::methods::Methods;
use crate::numbers::place_in;
use crate::order::{Order, ordered_of};
use crate::order_key::OrderKey;
use crate::refusal::RequestRefusal;
use crate::resource::Resource;
use crate::terms::{Terms, terms_in};
use json::{Scratch, Value};
use njh_table::Tables;
use std::alloc::{AllocError, Global};
use std::str;

/// When something ends.
#[derive(Clone, Copy, Debug, PartialEq, Eq)]
pub enum EndMoment {
    /// At once.
    AtOnce,
    /// Once no file is on the streams.
    WhenIdle,
}

/// How a line is to be.
#[derive(Clone, Copy, Debug, PartialEq, Eq)]
pub enum LineWish {
    /// It has connections, as its tables say.
    Started,
    /// Its connection ends then, and it lets none in.
    Stopped(EndMoment),
}

/// How a line is served.
#[derive(Clone, Copy, Debug, PartialEq, Eq)]
pub enum LineState {
    /// It has connections, as its tables say.
    Started,
    /// It is stopped once no file is on its streams.
    Draining,
    /// Its connection ended, and it lets none in.
    Stopped,
}

/// What is asked for. Customers are given by their numbers.
#[derive(Drop)]
pub enum Request {
    /// How the hub is.
    Status,
    /// The customers, from a place on.
    Customers(u64),
    /// A customer's lines, from a place on.
    Lines(u16, u64),
    /// A customer's files, from a place on.
    Files(u16, u64),
    /// What came of the order of this number or name.
    Outcome(OrderKey),
    /// That this is done, on these terms.
    Order(Terms, Order),
}

impl Request {
    /// What a method, a path, what stands behind it, and a body ask for. Out of memory is the only
    /// failure.
    pub fn read(
        alloc: Global,
        tables: &Tables,
        method: &str,
        path: &str,
        query: Option<&str>,
        body: &[u8],
    ) -> Result<Result<Request, RequestRefusal>, AllocError>
        ensures read { IfOk result (λ read. read
            ≡ request_of tables.now method.now path.now (option_map (λ q. q.now) query.entry) body.now) }
        ensures there { IfOk result (IsReadOf tables.now) }
    {
        let named = Resource::at(alloc, tables, path)?;
        asked_where(alloc, named, method, query, body)
    }
}

/// What is asked of what a path names, if it names something that is there.
fn asked_where(
    alloc: Global,
    named: Result<Resource, RequestRefusal>,
    method: &str,
    query: Option<&str>,
    body: &[u8],
) -> Result<Result<Request, RequestRefusal>, AllocError>
    ensures { IfOk result (λ read. read
        ≡ asked_where named method.now (option_map (λ q. q.now) query.entry) body.now) }
{
    match named {
        Ok(resource) => asked(alloc, resource, method, query, body),
        Err(why) => Ok(Err(why)),
    }
}

/// What is asked of a resource.
fn asked(
    alloc: Global,
    resource: Resource,
    method: &str,
    query: Option<&str>,
    body: &[u8],
) -> Result<Result<Request, RequestRefusal>, AllocError>
    ensures { IfOk result (λ read. read
        ≡ asked resource method.now (option_map (λ q. q.now) query.entry) body.now) }
{
    match resource {
        Resource::Status => Ok(by_get(method, without_place(query, Request::Status))),
        Resource::Customers => Ok(by_get(method, customers_from(place_in(query)))),
        Resource::Lines(customer) => Ok(by_get(method, lines_from(customer, place_in(query)))),
        Resource::Files(customer) => Ok(by_get(method, files_from(customer, place_in(query)))),
        Resource::Outcome(key) => Ok(by_get(method, without_place(query, Request::Outcome(key)))),
        Resource::Orders(_)
        | Resource::Messages(_)
        | Resource::Stop
        | Resource::Reload
        | Resource::Diff => by_body(alloc, resource, Methods::Post, method, query, body),
        Resource::Line(_) => by_body(alloc, resource, Methods::Put, method, query, body),
    }
}

/// What is read, if it is asked by GET or HEAD.
fn by_get(method: &str, read: Result<Request, RequestRefusal>) -> Result<Request, RequestRefusal>
    ensures { result ≡ by_method methods.Get method.now read }
{
    if Methods::Get.are(method) {
        read
    } else {
        Err(RequestRefusal::BadMethod(Methods::Get))
    }
}

/// What is asked, if nothing stands behind the path.
fn without_place(query: Option<&str>, request: Request) -> Result<Request, RequestRefusal>
    ensures { result ≡ without_place (option_map (λ q. q.now) query.entry) (Ok request) }
{
    match query {
        None => Ok(request),
        Some(_) => Err(RequestRefusal::NoPlace),
    }
}

fn customers_from(from: Option<u64>) -> Result<Request, RequestRefusal>
    ensures { result ≡ customers_from from }
{
    match from {
        Some(from) => Ok(Request::Customers(from)),
        None => Err(RequestRefusal::BadPlace),
    }
}

fn lines_from(customer: u16, from: Option<u64>) -> Result<Request, RequestRefusal>
    ensures { result ≡ lines_from customer from }
{
    match from {
        Some(from) => Ok(Request::Lines(customer, from)),
        None => Err(RequestRefusal::BadPlace),
    }
}

fn files_from(customer: u16, from: Option<u64>) -> Result<Request, RequestRefusal>
    ensures { result ≡ files_from customer from }
{
    match from {
        Some(from) => Ok(Request::Files(customer, from)),
        None => Err(RequestRefusal::BadPlace),
    }
}

/// What a body asks of a resource, if it comes by these methods, and nothing stands behind the path.
fn by_body(
    alloc: Global,
    resource: Resource,
    wanted: Methods,
    method: &str,
    query: Option<&str>,
    body: &[u8],
) -> Result<Result<Request, RequestRefusal>, AllocError>
    ensures { IfOk result (λ read. read ≡ by_method wanted method.now
        (without_place (option_map (λ q. q.now) query.entry) (body_asks (object_asks resource) body.now))) }
{
    if !wanted.are(method) {
        return Ok(Err(RequestRefusal::BadMethod(wanted)));
    }
    match query {
        None => body_asks(alloc, resource, body),
        Some(_) => Ok(Err(RequestRefusal::NoPlace)),
    }
}

/// What a body asks of a resource.
fn body_asks(
    alloc: Global,
    resource: Resource,
    body: &[u8],
) -> Result<Result<Request, RequestRefusal>, AllocError>
    ensures { IfOk result (λ read. read ≡ body_asks (object_asks resource) body.now) }
{
    match str::from_utf8(body) {
        Ok(text) => text_asks(alloc, resource, text),
        Err(_) => Ok(Err(RequestRefusal::NotJson)),
    }
}

/// What a text asks of a resource.
fn text_asks(
    alloc: Global,
    resource: Resource,
    text: &str,
) -> Result<Result<Request, RequestRefusal>, AllocError>
    ensures { IfOk result (λ read. read ≡ read_where (object_asks resource) (document text.now)) }
{
    let mut scratch = Scratch::new(alloc);
    match Value::parse(alloc, text, &mut scratch) {
        Ok(value) => object_asks(alloc, resource, &value),
        Err(json::Error::OutOfMemory) => Err(AllocError),
        Err(_) => Ok(Err(RequestRefusal::NotJson)),
    }
}

/// What an object asks of a resource.
fn object_asks(
    alloc: Global,
    resource: Resource,
    value: &Value<'_>,
) -> Result<Result<Request, RequestRefusal>, AllocError>
    ensures { IfOk result (λ read. read ≡ object_asks resource (value_view value.now)) }
{
    let order = ordered_of(alloc, resource, value)?;
    Ok(on_terms(order, terms_in(value)))
}

fn on_terms(
    order: Result<Order, RequestRefusal>,
    terms: Result<Terms, RequestRefusal>,
) -> Result<Request, RequestRefusal>
    ensures { result ≡ on_terms order terms }
{
    match (order, terms) {
        (Err(why), _) => Err(why),
        (Ok(_), Err(why)) => Err(why),
        (Ok(order), Ok(terms)) => Ok(Request::Order(terms, order)),
    }
}
