//! A customer's files.

ghost use Rattle.std.specs.Prelude.{◌≡◌, ◌≤◌, ◌<◌, ◌^◌, length, map, option_map, IfOk};
ghost use Rattle.serde_json.specs.View.{view};
ghost use Rattle.njh_command.specs.Files.{file_at};
ghost use Rattle.njh_hub.specs.WholeHub.{part};
ghost use Rattle.njh_table.specs.Entries.{route_of};
ghost use Rattle.njh_table.specs.TableFile.{customer_at};
ghost use Rattle.njh_arrivals.specs.Arrivals.{seen_of};
ghost use Rattle.njh_answer.specs.Files.{file_data, file_entry, files_data, kind_text, line_by_route, line_to};
ghost use Rattle.njh_answer.specs.Files.{state_text, text_data};
ghost use Rattle.njh_answer.specs.Pages.{told};

use crate::answering::Views;
use crate::fields::{file_name_text, name_text, user_value};
use crate::page::Page;
use crate::served::moment_value;
use njh_ebcdic::{FIELD, Name};
use njh_hub::{FileSummaryView, Hub};
use njh_record::Kind;
use njh_spool::State;
use njh_table::{NamedLine, Route};
use serde_json::{Value, json};
use std::alloc::{AllocError, Global};

/// How many files an answer has at most.
const FILES: usize = 128;

/// A customer's whole files in their order of arrival from a place on, at most so many as one answer
/// has, and the place to go on from. Out of memory is the only refusal.
pub(crate) fn files_value(
    alloc: Global,
    views: &Views<'_>,
    customer: u16,
    from: u64,
) -> Result<Value, AllocError>
    requires { customer < length views.now.tables.now.customers }
    ensures { IfOk result (λ value. view value ≡ files_data (customer_at views.now.tables.now customer)
        (part customer views.now.hub.now) (seen_of customer views.now.arrivals.now) from) }
{
    let named = views.tables.customer(customer);
    let count = views.hub.file_count(customer) as usize;
    let left = views.hub.arrived(customer).saturating_sub(count as u64);
    let page = Page::of(from.saturating_sub(left), FILES, count);
    let name = name_text(alloc, named.name())?;
    let files = file_values(alloc, views, named.lines(), customer, page)?;
    let files = Value::Array(files);
    let next = page.next(left, count);
    json!(in alloc; {"customer": name, "files": files, "next": next})
}

/// The files of a page, with the lines that their customer has by the tables.
fn file_values(
    alloc: Global,
    views: &Views<'_>,
    lines: &[NamedLine],
    customer: u16,
    page: Page,
) -> Result<Vec<Value>, AllocError>
    requires ordered { page.first ≤ page.end }
    requires within { page.end ≤ length (part customer views.now.hub.now).customer.spool.whole }
    requires few { page.end < 2 ^ 32 }
    ensures { IfOk result (λ values. map view values.items
        ≡ map (file_entry lines.now (part customer views.now.hub.now).customer.entry
        (seen_of customer views.now.arrivals.now))
        (told page (part customer views.now.hub.now).customer.spool.whole)) }
{
    let mut values = Vec::new(alloc);
    for index in page.first..page.end {
        values.push(told_file(alloc, views, lines, customer, index as u32)?)?;
    }
    Ok(values)
}

/// The file at an index in the order of arrival.
fn told_file(
    alloc: Global,
    views: &Views<'_>,
    lines: &[NamedLine],
    customer: u16,
    index: u32,
) -> Result<Value, AllocError>
    requires { index < length (part customer views.now.hub.now).customer.spool.whole }
    ensures { IfOk result (λ value. view value
        ≡ file_entry lines.now (part customer views.now.hub.now).customer.entry
        (seen_of customer views.now.arrivals.now)
        (file_at index (part customer views.now.hub.now).customer.spool)) }
{
    let number = views.hub.number_at(customer, index);
    let file = views.hub.summary_at(customer, index);
    let came = views.arrivals.moment(customer, number);
    let line = line_to(views.hub, lines, customer, &file.destination.node);
    file_value(alloc, &file, came, line)
}

/// The line of these by which a node's files of a customer go now, if one leads there.
fn line_to<'a>(
    hub: &Hub,
    lines: &'a [NamedLine],
    customer: u16,
    node: &[u8; FIELD],
) -> Option<&'a str>
    ensures { option_map (λ line. line.now) result
        ≡ line_to lines.now (part customer hub.now).customer.entry node.now }
{
    match Name::of_field(node) {
        Ok(node) => line_by_name(hub, lines, customer, node),
        Err(_) => None,
    }
}

/// The same of a node of this name; none where the hub has no such customer.
#[tactic(auto, using(crate::proofs::Telling::not_there, crate::proofs::Telling::no_line_there))]
fn line_by_name<'a>(hub: &Hub, lines: &'a [NamedLine], customer: u16, node: Name) -> Option<&'a str>
    ensures { option_map (λ line. line.now) result
        ≡ line_by_route lines.now (route_of (part customer hub.now).customer.entry node) }
{
    match hub.route(customer, node) {
        Ok(route) => line_by_route(lines, route),
        Err(_) => None,
    }
}

/// The line of these that a route is, if it is one.
fn line_by_route(lines: &[NamedLine], route: Route) -> Option<&str>
    ensures { option_map (λ line. line.now) result ≡ line_by_route lines.now route }
{
    match route {
        Route::Here => None,
        Route::Line(number) => match lines.get(usize::from(number)) {
            Some(line) => Some(line.name()),
            None => None,
        },
        Route::Unknown => None,
    }
}

/// A file, when it came, and the line by which it goes.
fn file_value(
    alloc: Global,
    file: &FileSummaryView,
    came: Option<u64>,
    line: Option<&str>,
) -> Result<Value, AllocError>
    ensures { IfOk result (λ value. view value
        ≡ file_data file.now came (option_map (λ line. line.now) line.entry)) }
{
    let name = file_name_text(alloc, file.name)?;
    let owner = user_value(alloc, &file.owner.node.bytes(), &file.owner.user)?;
    let destination = user_value(alloc, &file.destination.node, &file.destination.user)?;
    let line = text_value(alloc, line)?;
    json!(in alloc; {
        "blocks": file.blocks,
        "came": moment_value(came),
        "destination": destination,
        "kind": kind_text(file.kind),
        "line": line,
        "name": name,
        "owner": owner,
        "records": file.records,
        "state": state_text(file.state)
    })
}

/// A text, if there is one.
fn text_value(alloc: Global, text: Option<&str>) -> Result<Value, AllocError>
    ensures { IfOk result (λ value. view value ≡ text_data (option_map (λ text. text.now) text.entry)) }
{
    match text {
        Some(text) => Ok(Value::String(String::from_str(alloc, text)?)),
        None => Ok(Value::Null),
    }
}

fn kind_text(kind: Kind) -> &'static str
    ensures { result.now ≡ kind_text kind }
{
    match kind {
        Kind::In => "IN",
        Kind::Out => "OUT",
    }
}

fn state_text(state: State) -> &'static str
    ensures { result.now ≡ state_text state }
{
    match state {
        State::Ready => "READY",
        State::Held => "HELD",
        State::Refused => "REFUSED",
        State::Sending => "SENDING",
    }
}
