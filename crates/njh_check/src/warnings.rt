//! What is told of tables that are right and may yet be a mistake: of their keys, and of lines.

ghost use Rattle.std.specs.Prelude.{◌≡◌, ◌++◌, ◌==◌, find, flat_map, length, option_map, IfOk, OnOk, string_bytes};
ghost use Rattle.toml.specs.View.{table_view};
ghost use Rattle.njh_check.specs.Warnings.{call_warning, first_on, is_call, line_place, line_warnings, lines_warnings};
ghost use Rattle.njh_check.specs.Warnings.{port_warning, shared_words, warning, warnings_of};

use crate::report::{has_password, put};
use crate::unknown_keys::put_file;
use njh_table::{NamedCustomer, NamedLine, Role, Tables};
use std::alloc::{AllocError, Global};
use toml::Table;

/// A line of the report: where, and what.
#[tactic(auto, unfolding(crate::specs::Warnings::warning))]
pub(crate) fn warning(alloc: Global, place: &str, what: &str) -> Result<String, AllocError>
    ensures { IfOk result (λ words. string_bytes words ≡ warning place.now what.now) }
{
    format!(in alloc; "warning: {place}: {what}\n")
}

/// The place that a line is, by its name.
fn line_place(alloc: Global, line: &NamedLine) -> Result<String, AllocError>
    ensures { IfOk result (λ words. string_bytes words ≡ line_place line.now) }
{
    let name = line.name();
    format!(in alloc; "line {name}")
}

fn is_call(role: Role) -> bool
    ensures { result ≡ is_call role }
{
    match role {
        Role::Call => true,
        Role::Answer => false,
    }
}

/// Of a line that calls whoever connects to its port.
#[tactic(auto, unfolding(crate::specs::Warnings::call_warning))]
fn call_warning(alloc: Global, line: &NamedLine) -> Result<String, AllocError>
    ensures { IfOk result (λ words. string_bytes words ≡ call_warning line.now) }
{
    if is_call(line.role()) && line.port() != 0 && has_password(line) {
        let place = line_place(alloc, line)?;
        warning(
            alloc,
            place.as_str(),
            "whoever connects to its port is sent the password",
        )
    } else {
        Ok(String::new(alloc))
    }
}

/// The first line of a customer that has a port.
fn first_of(lines: &[NamedLine], port: u16) -> Option<&NamedLine>
    ensures { option_map (λ l. l.now) result ≡ find (λ l. l.port == port) lines.now }
{
    lines.iter().find(|line| line.port() == port)
}

/// The first line that has a port.
fn first_on(customers: &[NamedCustomer], port: u16) -> Option<&NamedLine>
    ensures { option_map (λ l. l.now) result ≡ first_on port customers.now }
{
    for customer in customers {
        match first_of(customer.lines(), port) {
            Some(line) => return Some(line),
            None => {}
        }
    }
    None
}

/// Of a line, by the first that has its port.
#[tactic(auto, unfolding(crate::specs::Warnings::shared_words))]
fn shared_words(
    alloc: Global,
    line: &NamedLine,
    first: Option<&NamedLine>,
) -> Result<String, AllocError>
    ensures { IfOk result (λ words. string_bytes words
        ≡ shared_words line.now (option_map (λ l. l.now) first.entry)) }
{
    match first {
        None => Ok(String::new(alloc)),
        Some(first) => words_of_two(alloc, line, first),
    }
}

#[tactic(auto, unfolding(crate::specs::Warnings::shared_words))]
fn words_of_two(alloc: Global, line: &NamedLine, first: &NamedLine) -> Result<String, AllocError>
    ensures { IfOk result (λ words. string_bytes words ≡ shared_words line.now (Some first.now)) }
{
    let name = first.name();
    if name == line.name() {
        return Ok(String::new(alloc));
    }
    let place = line_place(alloc, line)?;
    let port = line.port();
    let what = format!(in alloc; "port {port} is line {name}'s too, and serve refuses that")?;
    warning(alloc, place.as_str(), what.as_str())
}

/// Of a line whose port is an earlier line's.
#[tactic(auto, unfolding(crate::specs::Warnings::port_warning))]
fn port_warning(
    alloc: Global,
    customers: &[NamedCustomer],
    line: &NamedLine,
) -> Result<String, AllocError>
    ensures { IfOk result (λ words. string_bytes words ≡ port_warning customers.now line.now) }
{
    let port = line.port();
    if port == 0 {
        return Ok(String::new(alloc));
    }
    shared_words(alloc, line, first_on(customers, port))
}

/// Of a line.
#[tactic(auto, unfolding(crate::specs::Warnings::line_warnings))]
fn put_line(
    alloc: Global,
    report: &mut Vec<u8>,
    customers: &[NamedCustomer],
    line: &NamedLine,
) -> Result<(), AllocError>
    ensures { OnOk result (report.new.items ≡ report.old.items ++ line_warnings customers.now line.now) }
{
    let of_call = call_warning(alloc, line)?;
    put(report, of_call.as_str())?;
    let of_port = port_warning(alloc, customers, line)?;
    put(report, of_port.as_str())
}

/// Of the lines of a customer.
fn put_lines(
    alloc: Global,
    report: &mut Vec<u8>,
    customers: &[NamedCustomer],
    lines: &[NamedLine],
) -> Result<(), AllocError>
    ensures { OnOk result (report.new.items
        ≡ report.old.items ++ flat_map (line_warnings customers.now) lines.now) }
{
    for line in lines {
        put_line(alloc, report, customers, line)?;
    }
    Ok(())
}

/// Of the lines of all customers.
#[tactic(auto, unfolding(crate::specs::Warnings::lines_warnings))]
fn put_all_lines(
    alloc: Global,
    report: &mut Vec<u8>,
    customers: &[NamedCustomer],
) -> Result<(), AllocError>
    ensures { OnOk result (report.new.items
        ≡ report.old.items ++ lines_warnings customers.now customers.now) }
{
    for customer in customers {
        put_lines(alloc, report, customers, customer.lines())?;
    }
    Ok(())
}

/// All that is told of tables and their document, in the order of the file: of keys, and then of
/// lines.
#[tactic(auto, unfolding(crate::specs::Warnings::warnings_of))]
pub(crate) fn put_warnings(
    alloc: Global,
    report: &mut Vec<u8>,
    document: &Table,
    tables: &Tables,
) -> Result<(), AllocError>
    ensures { OnOk result (report.new.items
        ≡ report.old.items ++ warnings_of (table_view document.now) tables.now) }
{
    put_file(alloc, report, document, tables)?;
    put_all_lines(alloc, report, tables.customers())
}
