//! What a path names.

ghost use Rattle.std.specs.Prelude.{◌≡◌, ◌<◌, ◌==◌, ◌∷◌, length, position, bytes_eq, IfOk, IfSome, Ok};
ghost use Rattle.std.specs.Option.{option_map};
ghost use Rattle.njh_table.specs.TableFile.{TableFile, line_named};
ghost use Rattle.njh_request.specs.Named.{HasCustomer, IsNamedOf};
ghost use Rattle.njh_request.specs.Paths.{customer_named, customer_of_name, key_of, line_by};
ghost use Rattle.njh_request.specs.Paths.{parts_of, resource_alone, resource_below, resource_named, resource_of};
ghost use Rattle.njh_request.specs.Paths.{resource_of_customer, resource_of_version};
ghost use Rattle.njh_request.specs.Paths.{resource_at, resource_of_plain, resource_of_words};

use crate::order_key::OrderKey;
use crate::parts::first_part;
use crate::quote::Quote;
use crate::refusal::RequestRefusal;
use njh_ebcdic::Name;
use njh_table::{LineId, NamedCustomer, Tables};
use percent_encoding::percent_decode;
use std::alloc::{AllocError, Global};
use std::str;

/// What may be asked for.
#[derive(Clone, Copy, Debug, PartialEq, Eq)]
pub enum Resource {
    /// How the hub is: `/v1/status`.
    Status,
    /// All customers: `/v1/customers`.
    Customers,
    /// A customer's lines: `/v1/customers/NAME/lines`.
    Lines(u16),
    /// A customer's files: `/v1/customers/NAME/files`.
    Files(u16),
    /// What is ordered for a customer: `/v1/customers/NAME/orders`.
    Orders(u16),
    /// What the hub says to a customer's users: `/v1/customers/NAME/messages`.
    Messages(u16),
    /// What came of an order: `/v1/orders/NUMBER` or `/v1/orders/NAME`.
    Outcome(OrderKey),
    /// A line's state: `/v1/lines/NAME`.
    Line(LineId),
    /// The end of the service: `/v1/stop`.
    Stop,
    /// The table file, read now: `/v1/reload`.
    Reload,
    /// A table file beside what the hub has: `/v1/diff`.
    Diff,
}

impl Resource {
    /// What a path names as a request writes it, with escapes as `%23` for `#`; or who or what isn't
    /// there. Out of memory is the only failure.
    pub fn at(
        alloc: Global,
        tables: &Tables,
        path: &str,
    ) -> Result<Result<Resource, RequestRefusal>, AllocError>
        ensures named { IfOk result (λ named. named ≡ resource_at tables.now path.now) }
        ensures there { IfOk result (IsNamedOf tables.now) }
    {
        let mut plain = Vec::new(alloc);
        percent_decode(path.as_bytes()).append_to(&mut plain)?;
        match of_plain(tables, &plain) {
            Some(named) => Ok(named),
            None => Ok(Err(RequestRefusal::NoResource(Quote::of(path)))),
        }
    }

    /// What a path without escapes names, if it names something that may be there.
    pub fn of(tables: &Tables, path: &str) -> Option<Result<Resource, RequestRefusal>>
        ensures named { result ≡ resource_of tables.now path.now }
        ensures there { IfSome result (IsNamedOf tables.now) }
    {
        let (front, behind) = first_part(path);
        if front != "" {
            return None;
        }
        of_version(tables, behind?)
    }
}

/// What bytes name, if they are a text and it names something.
fn of_plain(tables: &Tables, bytes: &[u8]) -> Option<Result<Resource, RequestRefusal>>
    ensures named { result ≡ resource_of_plain tables.now bytes.now }
    ensures there { IfSome result (IsNamedOf tables.now) }
{
    match str::from_utf8(bytes) {
        Ok(path) => Resource::of(tables, path),
        Err(_) => None,
    }
}

/// What the parts of a path behind its first stroke name.
fn of_version(tables: &Tables, path: &str) -> Option<Result<Resource, RequestRefusal>>
    ensures named { result ≡ resource_of_version tables.now (parts_of path.now) }
    ensures there { IfSome result (IsNamedOf tables.now) }
{
    let (version, behind) = first_part(path);
    if version != "v1" {
        return None;
    }
    of_words(tables, behind?)
}

/// What words name.
fn of_words(tables: &Tables, path: &str) -> Option<Result<Resource, RequestRefusal>>
    ensures named { result ≡ resource_of_words tables.now (parts_of path.now) }
    ensures there { IfSome result (IsNamedOf tables.now) }
{
    match first_part(path) {
        (word, None) => alone(word),
        (word, Some(behind)) => behind_word(tables, word, behind),
    }
}

/// What a word and those behind it name.
fn behind_word(tables: &Tables, word: &str, path: &str) -> Option<Result<Resource, RequestRefusal>>
    ensures named { result ≡ resource_of_words tables.now (word.now ∷ parts_of path.now) }
    ensures there { IfSome result (IsNamedOf tables.now) }
{
    match first_part(path) {
        (name, None) => named(tables, word, name),
        (name, Some(behind)) => behind_name(tables, word, name, behind),
    }
}

/// What a word, a name and those behind it name.
fn behind_name(
    tables: &Tables,
    word: &str,
    name: &str,
    path: &str,
) -> Option<Result<Resource, RequestRefusal>>
    ensures named { result ≡ resource_of_words tables.now (word.now ∷ name.now ∷ parts_of path.now) }
    ensures there { IfSome result (IsNamedOf tables.now) }
{
    match first_part(path) {
        (part, None) => below(tables, word, name, part),
        (_, Some(_)) => None,
    }
}

/// What a word alone names.
fn alone(word: &str) -> Option<Result<Resource, RequestRefusal>>
    ensures named { result ≡ resource_alone word.now }
    ensures there { (tables : TableFile) → IfSome result (IsNamedOf tables) }
{
    if word == "status" {
        Some(Ok(Resource::Status))
    } else if word == "customers" {
        Some(Ok(Resource::Customers))
    } else if word == "stop" {
        Some(Ok(Resource::Stop))
    } else if word == "reload" {
        Some(Ok(Resource::Reload))
    } else if word == "diff" {
        Some(Ok(Resource::Diff))
    } else {
        None
    }
}

/// What a word and a name are.
fn named(tables: &Tables, word: &str, name: &str) -> Option<Result<Resource, RequestRefusal>>
    ensures named { result ≡ resource_named tables.now word.now name.now }
    ensures there { IfSome result (IsNamedOf tables.now) }
{
    if word == "orders" {
        outcome_of(name)
    } else if word == "lines" {
        Some(line_of(tables, name))
    } else {
        None
    }
}

/// The outcome of the order of a number or a name.
fn outcome_of(key: &str) -> Option<Result<Resource, RequestRefusal>>
    ensures named { result ≡ option_map (λ k. Ok (Resource.Outcome k)) (key_of key.now) }
    ensures there { (tables : TableFile) → IfSome result (IsNamedOf tables) }
{
    let key = OrderKey::of(key)?;
    Some(Ok(Resource::Outcome(key)))
}

/// The line of a name.
fn line_of(tables: &Tables, name: &str) -> Result<Resource, RequestRefusal>
    ensures named { result ≡ line_by name.now (line_named tables.now name.now) }
    ensures there { IsNamedOf tables.now result }
{
    match tables.line_owner(name) {
        Some(line) => Ok(Resource::Line(line)),
        None => Err(RequestRefusal::NoLine(Quote::of(name))),
    }
}

/// What a word, a customer's name and a part of it are.
fn below(
    tables: &Tables,
    word: &str,
    name: &str,
    part: &str,
) -> Option<Result<Resource, RequestRefusal>>
    ensures named { result ≡ resource_below tables.now word.now name.now part.now }
    ensures there { IfSome result (IsNamedOf tables.now) }
{
    if word != "customers" {
        return None;
    }
    match customer_named(tables, name) {
        Some(customer) => of_customer(part, customer),
        None => Some(Err(RequestRefusal::NoCustomer(Quote::of(name)))),
    }
}

/// What of a customer a word names.
fn of_customer(part: &str, customer: u16) -> Option<Result<Resource, RequestRefusal>>
    ensures named { result ≡ resource_of_customer part.now customer }
    ensures there { (tables : TableFile) → HasCustomer tables customer → IfSome result (IsNamedOf tables) }
{
    if part == "lines" {
        Some(Ok(Resource::Lines(customer)))
    } else if part == "files" {
        Some(Ok(Resource::Files(customer)))
    } else if part == "orders" {
        Some(Ok(Resource::Orders(customer)))
    } else if part == "messages" {
        Some(Ok(Resource::Messages(customer)))
    } else {
        None
    }
}

/// The number of the customer that a word names.
fn customer_named(tables: &Tables, word: &str) -> Option<u16>
    ensures number { result ≡ customer_named tables.now word.now }
    ensures there { IfSome result (HasCustomer tables.now) }
{
    match Name::of_text(word) {
        Ok(name) => customer_of_name(tables, name),
        Err(_) => None,
    }
}

/// The number of the customer of a name.
fn customer_of_name(tables: &Tables, name: Name) -> Option<u16>
    ensures number { result ≡ customer_of_name tables.now name }
    ensures there { IfSome result (HasCustomer tables.now) }
{
    let place = place_of(tables.customers(), name)?;
    Some(place as u16)
}

/// The place of the first customer of a name.
fn place_of(customers: &[NamedCustomer], name: Name) -> Option<usize>
    ensures place { result ≡ position (λ c. bytes_eq name c.name) customers.now }
    ensures within { IfSome result (λ place. place < length customers.now) }
{
    customers
        .iter()
        .position(|customer| is_named(customer, name))
}

fn is_named(customer: &NamedCustomer, name: Name) -> bool
    ensures { result ≡ bytes_eq name customer.now.name }
{
    name == customer.name()
}
