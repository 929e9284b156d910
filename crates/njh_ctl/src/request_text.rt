//! What is asked, as a request of HTTP.

ghost use Rattle.std.specs.Prelude.{◌≡◌, true, codes, is_some, option_map, string_bytes, IfOk};
ghost use Rattle.std.specs.List.{list_all};
ghost use Rattle.std.specs.Str.{is_utf8};
ghost use Rattle.percent_encoding.specs.Percent.{percent_decode};
ghost use Rattle.njh_table.specs.TableFile.{TableFile};
ghost use Rattle.njh_ebcdic.specs.Names.{within};
ghost use Rattle.njh_request.specs.OrderNames.{order_name_of};
ghost use Rattle.njh_request.specs.Paths.{is_number};
ghost use Rattle.njh_request.specs.Requests.{request_of};
ghost use Rattle.njh_ctl.specs.Exchanges.{Puts, request_view, text_of};
ghost use Rattle.njh_ctl.specs.Questions.{customer_path, from_text, is_askable, is_key, is_orderable, is_path_byte};
ghost use Rattle.njh_ctl.specs.Questions.{is_word, line_path, meant, order_path, outcome_path, path_of, query_of};

use crate::bodies::body_of;
use crate::order::Order;
use crate::question::Question;
use njh_request::OrderName;
use percent_encoding::{AsciiSet, NON_ALPHANUMERIC, ascii_set, utf8_percent_encode};
use std::alloc::{AllocError, Global};

/// A request of HTTP.
#[derive(Drop)]
pub struct RequestText {
    /// The method.
    pub method: &'static str,
    /// The path.
    pub path: String,
    /// What stands behind the path and a question mark, if anything does.
    pub query: Option<String>,
    /// The body, which may be nothing.
    pub body: Vec<u8>,
}

impl RequestText {
    /// What is asked, as the console reads it. Out of memory is the only refusal.
    pub fn of(alloc: Global, question: &Question<'_>) -> Result<RequestText, AllocError>
        requires { is_askable question.now ≡ true }
        ensures meant { IfOk result (λ r. (tables : TableFile) → request_of tables r.method.now (string_bytes r.path)
            (option_map string_bytes r.query) r.body.items ≡ meant tables question.now) }
        ensures puts { IfOk result (λ r. Puts (text_of question.now) (request_view r)) }
    {
        let plain = path_of(alloc, question)?;
        let path = escaped(alloc, plain.as_str())?;
        let query = query_of(alloc, question)?;
        let body = body_of(alloc, question)?;
        Ok(RequestText {
            method: question.method(),
            path,
            query,
            body,
        })
    }
}

/// Whether what is asked can be written so: its names have no stroke, its numbers at most 18 digits,
/// and orders are called by a number or a name.
pub(crate) fn is_askable(question: &Question<'_>) -> bool
    ensures { result ≡ is_askable question.now }
{
    match *question {
        Question::Status => true,
        Question::Customers(from) => from < TOO_LARGE,
        Question::Lines(customer, from) => is_word(customer) && from < TOO_LARGE,
        Question::Files(customer, from) => is_word(customer) && from < TOO_LARGE,
        Question::Outcome(key) => is_word(key) && is_key(key),
        Question::Order(order, terms) => is_orderable(&order) && terms.until < TOO_LARGE,
    }
}

/// Whether the names of what is ordered have no stroke.
pub(crate) fn is_orderable(order: &Order<'_>) -> bool
    ensures { result ≡ is_orderable order.now }
{
    match *order {
        Order::Change(_, files) => is_word(files.customer),
        Order::Tell(customer, _, _) => is_word(customer),
        Order::Stop(line, _) => is_word(line),
        Order::Start(line) => is_word(line),
        Order::Shutdown(_) | Order::Reload | Order::Diff(_) => true,
    }
}

/// Whether a text is a number or a name of an order.
#[tactic(auto, using(crate::proofs::KeyLaws::key_of_number, crate::proofs::KeyLaws::key_of_name))]
pub(crate) fn is_key(text: &str) -> bool
    ensures { result ≡ is_key text.now }
{
    if is_number(text.as_bytes()) {
        return true;
    }
    is_name(text)
}

fn is_name(text: &str) -> bool
    ensures { result ≡ is_some (order_name_of text.now) }
{
    match OrderName::of(text) {
        Some(_) => true,
        None => false,
    }
}

/// The most digits of a number.
const DIGITS: usize = 18;

fn is_number(text: &[u8]) -> bool
    ensures { result ≡ is_number text.now }
{
    !text.is_empty() && text.len() <= DIGITS && are_digits(text)
}

fn are_digits(text: &[u8]) -> bool
    ensures { result ≡ list_all (within 48 57) text.now }
{
    text.iter().all(|byte| matches!(*byte, b'0'..=b'9'))
}

/// The first number with more than 18 digits.
const TOO_LARGE: u64 = 1_000_000_000_000_000_000;

/// Whether a name can be a word of a path.
fn is_word(name: &str) -> bool
    ensures { result ≡ is_word name.now }
{
    name.as_bytes().iter().all(|byte| is_path_byte(*byte))
}

fn is_path_byte(byte: u8) -> bool
    ensures { result ≡ is_path_byte byte }
{
    byte != b'/'
}

/// What is written by escapes in a path: all but letters, digits, strokes, -, $ and @ (RFC 3986,
/// 2.1).
const ESCAPED: AsciiSet = ascii_set!(
    NON_ALPHANUMERIC
        .remove(b'/')
        .remove(b'-')
        .remove(b'$')
        .remove(b'@')
);

/// A path with its escapes.
fn escaped(alloc: Global, path: &str) -> Result<String, AllocError>
    ensures plain { IfOk result (λ text. percent_decode (string_bytes text) ≡ path.now) }
    ensures text { is_utf8 path.now ≡ true }
{
    let mut text = String::new(alloc);
    utf8_percent_encode(path, ESCAPED).append_to(&mut text)?;
    Ok(text)
}

/// The path of what is asked, without escapes.
fn path_of(alloc: Global, question: &Question<'_>) -> Result<String, AllocError>
    ensures { IfOk result (λ path. string_bytes path ≡ path_of question.now) }
{
    match *question {
        Question::Status => String::from_str(alloc, "/v1/status"),
        Question::Customers(_) => String::from_str(alloc, "/v1/customers"),
        Question::Lines(customer, _) => customer_path(alloc, customer, "lines"),
        Question::Files(customer, _) => customer_path(alloc, customer, "files"),
        Question::Outcome(key) => outcome_path(alloc, key),
        Question::Order(order, _) => order_path(alloc, &order),
    }
}

/// The path of what is ordered, without escapes.
fn order_path(alloc: Global, order: &Order<'_>) -> Result<String, AllocError>
    ensures { IfOk result (λ path. string_bytes path ≡ order_path order.now) }
{
    match *order {
        Order::Change(_, files) => customer_path(alloc, files.customer, "orders"),
        Order::Tell(customer, _, _) => customer_path(alloc, customer, "messages"),
        Order::Stop(line, _) => line_path(alloc, line),
        Order::Start(line) => line_path(alloc, line),
        Order::Shutdown(_) => String::from_str(alloc, "/v1/stop"),
        Order::Reload => String::from_str(alloc, "/v1/reload"),
        Order::Diff(_) => String::from_str(alloc, "/v1/diff"),
    }
}

fn customer_path(alloc: Global, customer: &str, part: &str) -> Result<String, AllocError>
    ensures { IfOk result (λ path. string_bytes path ≡ customer_path customer.now part.now) }
{
    format!(in alloc; "/v1/customers/{customer}/{part}")
}

fn outcome_path(alloc: Global, key: &str) -> Result<String, AllocError>
    ensures { IfOk result (λ path. string_bytes path ≡ outcome_path key.now) }
{
    format!(in alloc; "/v1/orders/{key}")
}

fn line_path(alloc: Global, line: &str) -> Result<String, AllocError>
    ensures { IfOk result (λ path. string_bytes path ≡ line_path line.now) }
{
    format!(in alloc; "/v1/lines/{line}")
}

/// The place to go on from, where something is asked from a place on.
fn query_of(alloc: Global, question: &Question<'_>) -> Result<Option<String>, AllocError>
    ensures { IfOk result (λ query. option_map string_bytes query ≡ query_of question.now) }
{
    match *question {
        Question::Customers(from) => Ok(Some(from_text(alloc, from)?)),
        Question::Lines(_, from) => Ok(Some(from_text(alloc, from)?)),
        Question::Files(_, from) => Ok(Some(from_text(alloc, from)?)),
        Question::Status | Question::Outcome(_) | Question::Order(_, _) => Ok(None),
    }
}

fn from_text(alloc: Global, from: u64) -> Result<String, AllocError>
    ensures { IfOk result (λ text. string_bytes text ≡ from_text from) }
{
    format!(in alloc; "from={from}")
}
