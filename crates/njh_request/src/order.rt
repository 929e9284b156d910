//! What is ordered.

ghost use Rattle.std.specs.Prelude.{◌≡◌, IfOk};
ghost use Rattle.json.specs.Value.{value_view};
ghost use Rattle.njh_request.specs.Bodies.{state_in, waits_in};
ghost use Rattle.njh_request.specs.Orders.{command_by, command_in, line_in, line_wished, line_with, message_by};
ghost use Rattle.njh_request.specs.Orders.{diff_by, diff_in, message_in, moment_by, ordered_of, reload_in, stop_by};
ghost use Rattle.njh_request.specs.Orders.{stop_in, wish_of_text};

use crate::bodies::{odd_in, owner_in, path_in, state_in, text_in, waits_in, whom_in};
use crate::file_path::FilePath;
use crate::member::{Form, Member};
use crate::methods::Methods;
use crate::refusal::RequestRefusal;
use crate::request::{EndMoment, LineWish};
use crate::resource::Resource;
use json::Value;
use njh_customer::OrderText;
use njh_header::User;
use njh_table::LineId;
use std::alloc::{AllocError, Global};

/// What is ordered. Customers are given by their numbers.
#[derive(Drop)]
pub enum Order {
    /// That a command is carried out for a customer, in this user's name, or in that of the owner of
    /// the files that it names.
    Command(u16, Option<User>, OrderText),
    /// That a user of a customer's is told this.
    Message(u16, User, OrderText),
    /// That a line is so.
    Line(LineId, LineWish),
    /// That the service ends.
    Stop(EndMoment),
    /// That the table file is read, whatever its time.
    Reload,
    /// That the table file of this name is compared with what the hub has.
    Diff(FilePath),
}

/// What an object orders of a resource.
pub(crate) fn ordered_of(
    alloc: Global,
    resource: Resource,
    value: &Value<'_>,
) -> Result<Result<Order, RequestRefusal>, AllocError>
    ensures { IfOk result (λ read. read ≡ ordered_of resource (value_view value.now)) }
{
    match resource {
        Resource::Orders(customer) => command_in(alloc, customer, value),
        Resource::Messages(customer) => message_in(alloc, customer, value),
        Resource::Line(line) => Ok(line_in(line, value)),
        Resource::Stop => Ok(stop_in(value)),
        Resource::Reload => Ok(reload_in(value)),
        Resource::Diff => diff_in(alloc, value),
        _ => Ok(Err(RequestRefusal::BadMethod(Methods::Get))),
    }
}

/// The command that an object is.
fn command_in(
    alloc: Global,
    customer: u16,
    value: &Value<'_>,
) -> Result<Result<Order, RequestRefusal>, AllocError>
    ensures { IfOk result (λ read. read ≡ command_in customer (value_view value.now)) }
{
    if let Some(why) = odd_in(value, Form::Order, RequestRefusal::NotJson) {
        return Ok(Err(why));
    }
    let text = text_in(alloc, value, Member::Command)?;
    let owner = owner_in(alloc, value)?;
    Ok(command_by(customer, text, owner))
}

fn command_by(
    customer: u16,
    text: Result<OrderText, RequestRefusal>,
    owner: Result<Option<User>, RequestRefusal>,
) -> Result<Order, RequestRefusal>
    ensures { result ≡ command_by customer text owner }
{
    match (text, owner) {
        (Err(why), _) => Err(why),
        (Ok(_), Err(why)) => Err(why),
        (Ok(text), Ok(owner)) => Ok(Order::Command(customer, owner, text)),
    }
}

/// The message that an object is.
fn message_in(
    alloc: Global,
    customer: u16,
    value: &Value<'_>,
) -> Result<Result<Order, RequestRefusal>, AllocError>
    ensures { IfOk result (λ read. read ≡ message_in customer (value_view value.now)) }
{
    if let Some(why) = odd_in(value, Form::Message, RequestRefusal::NotJson) {
        return Ok(Err(why));
    }
    let whom = whom_in(alloc, value)?;
    let text = text_in(alloc, value, Member::Text)?;
    Ok(message_by(customer, whom, text))
}

fn message_by(
    customer: u16,
    whom: Result<User, RequestRefusal>,
    text: Result<OrderText, RequestRefusal>,
) -> Result<Order, RequestRefusal>
    ensures { result ≡ message_by customer whom text }
{
    match (whom, text) {
        (Err(why), _) => Err(why),
        (Ok(_), Err(why)) => Err(why),
        (Ok(whom), Ok(text)) => Ok(Order::Message(customer, whom, text)),
    }
}

/// How a line is to be, as an object says it.
fn line_in(line: LineId, value: &Value<'_>) -> Result<Order, RequestRefusal>
    ensures { result ≡ line_in line (value_view value.now) }
{
    match odd_in(value, Form::Line, RequestRefusal::NotJson) {
        Some(why) => Err(why),
        None => line_with(line, value),
    }
}

/// The same, where each member of the object is one of a line's and comes once.
fn line_with(line: LineId, value: &Value<'_>) -> Result<Order, RequestRefusal>
    ensures { result ≡ line_with line (state_in (value_view value.now)) (waits_in (value_view value.now)) }
{
    match state_in(value) {
        Ok(text) => match waits_in(value) {
            Ok(waits) => line_wished(line, wish_of_text(text, moment_by(waits))),
            Err(why) => Err(why),
        },
        Err(why) => Err(why),
    }
}

fn line_wished(line: LineId, wish: Option<LineWish>) -> Result<Order, RequestRefusal>
    ensures { result ≡ line_wished line wish }
{
    match wish {
        Some(wish) => Ok(Order::Line(line, wish)),
        None => Err(RequestRefusal::BadMember(Member::State)),
    }
}

fn wish_of_text(text: &str, moment: EndMoment) -> Option<LineWish>
    ensures { result ≡ wish_of_text text.now moment }
{
    if text == "started" {
        Some(LineWish::Started)
    } else if text == "stopped" {
        Some(LineWish::Stopped(moment))
    } else {
        None
    }
}

/// The end of the service, as an object says it.
fn stop_in(value: &Value<'_>) -> Result<Order, RequestRefusal>
    ensures { result ≡ stop_in (value_view value.now) }
{
    match odd_in(value, Form::Stop, RequestRefusal::NotJson) {
        Some(why) => Err(why),
        None => stop_by(waits_in(value)),
    }
}

fn stop_by(waits: Result<bool, RequestRefusal>) -> Result<Order, RequestRefusal>
    ensures { result ≡ stop_by waits }
{
    match waits {
        Ok(waits) => Ok(Order::Stop(moment_by(waits))),
        Err(why) => Err(why),
    }
}

/// That the table file is read, as an object says it.
fn reload_in(value: &Value<'_>) -> Result<Order, RequestRefusal>
    ensures { result ≡ reload_in (value_view value.now) }
{
    match odd_in(value, Form::Reload, RequestRefusal::NotJson) {
        Some(why) => Err(why),
        None => Ok(Order::Reload),
    }
}

/// That a table file is compared, as an object says it.
fn diff_in(alloc: Global, value: &Value<'_>) -> Result<Result<Order, RequestRefusal>, AllocError>
    ensures { IfOk result (λ read. read ≡ diff_in (value_view value.now)) }
{
    if let Some(why) = odd_in(value, Form::Diff, RequestRefusal::NotJson) {
        return Ok(Err(why));
    }
    let path = path_in(alloc, value)?;
    Ok(diff_by(path))
}

fn diff_by(path: Result<FilePath, RequestRefusal>) -> Result<Order, RequestRefusal>
    ensures { result ≡ diff_by path }
{
    match path {
        Ok(path) => Ok(Order::Diff(path)),
        Err(why) => Err(why),
    }
}

fn moment_by(waits: bool) -> EndMoment
    ensures { result ≡ moment_by waits }
{
    if waits {
        EndMoment::WhenIdle
    } else {
        EndMoment::AtOnce
    }
}
