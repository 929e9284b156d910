//! The keys of a table file that nobody knows.

ghost use Rattle.std.specs.Prelude.{◌≡◌, ◌++◌, ◌<◌, length, option_map, IfOk, OnOk, string_bytes};
ghost use Rattle.toml.specs.View.{table_view};
ghost use Rattle.njh_check.specs.Warnings.{below, customer_warnings, file_warnings, is_known, key_warning};
ghost use Rattle.njh_check.specs.Warnings.{keys_warnings, known_keys, part_warnings, unknown_words};
ghost use Rattle.njh_table.specs.declared.places.Part.TheVariants as parts;

use crate::elements::part_keys;
use crate::line::part_words;
use crate::report::put;
use crate::warnings::warning;
use crate::words::is_shown;
use njh_table::{Key, NamedCustomer, Part, Tables};
use std::alloc::{AllocError, Global};
use toml::Table;

/// The keys that a part of the file may have.
#[tactic(auto, unfolding(crate::specs::Warnings::known_keys))]
fn known_keys(part: Part) -> &'static [Key]
    ensures { result.now ≡ known_keys part }
{
    match part {
        Part::File => &[Key::Capacity, Key::Customer],
        Part::Customer(_) => &[
            Key::Name,
            Key::Hub,
            Key::Quota,
            Key::Files,
            Key::Line,
            Key::Route,
        ],
        Part::Line(_, _) => &[
            Key::Name,
            Key::Node,
            Key::Role,
            Key::Block,
            Key::Streams,
            Key::Password,
            Key::Port,
            Key::Connect,
            Key::From,
            Key::Protocol,
        ],
        Part::Route(_, _) => &[Key::Node, Key::Line, Key::Second],
    }
}

fn is_known(part: Part, name: &str) -> bool
    ensures { result ≡ is_known part name.now }
{
    known_keys(part).iter().any(|key| key.name() == name)
}

#[tactic(auto, unfolding(crate::specs::Warnings::unknown_words))]
fn unknown_words(alloc: Global, name: &str) -> Result<String, AllocError>
    ensures { IfOk result (λ words. string_bytes words ≡ unknown_words name.now) }
{
    if is_shown(name) {
        format!(in alloc; "unknown key \"{name}\"")
    } else {
        String::from_str(
            alloc,
            "unknown key, which is long or has other characters than ASCII's",
        )
    }
}

/// Of a key of the part that is this place.
#[tactic(auto, unfolding(crate::specs::Warnings::key_warning))]
fn key_warning(alloc: Global, part: Part, place: &str, name: &str) -> Result<String, AllocError>
    ensures { IfOk result (λ words. string_bytes words ≡ key_warning part place.now name.now) }
{
    if is_known(part, name) {
        return Ok(String::new(alloc));
    }
    let what = unknown_words(alloc, name)?;
    warning(alloc, place, what.as_str())
}

/// Of the keys of a part.
#[tactic(auto, unfolding(crate::specs::Warnings::keys_warnings))]
fn put_keys(
    alloc: Global,
    report: &mut Vec<u8>,
    part: Part,
    place: &str,
    keys: &Table,
) -> Result<(), AllocError>
    ensures { OnOk result (report.new.items
        ≡ report.old.items ++ keys_warnings part place.now (table_view keys.now)) }
{
    for (name, _value) in keys.iter() {
        let text = key_warning(alloc, part, place, name.as_str())?;
        put(report, text.as_str())?;
    }
    Ok(())
}

/// Of the keys of a part, if it is there.
#[tactic(auto, unfolding(crate::specs::Warnings::part_warnings))]
fn put_part(
    alloc: Global,
    report: &mut Vec<u8>,
    document: &Table,
    part: Part,
) -> Result<(), AllocError>
    ensures { OnOk result (report.new.items
        ≡ report.old.items ++ part_warnings (table_view document.now) part) }
{
    match part_keys(document, part) {
        Some(keys) => {
            let place = part_words(alloc, document, part)?;
            put_keys(alloc, report, part, place.as_str(), keys)
        }
        None => Ok(()),
    }
}

/// Of the lines of the customer of a number.
fn put_lines(
    alloc: Global,
    report: &mut Vec<u8>,
    document: &Table,
    number: usize,
    customer: &NamedCustomer,
) -> Result<(), AllocError>
    ensures { OnOk result (report.new.items ≡ report.old.items
        ++ below (λ n. part_warnings (table_view document.now) (parts.Line number n)) (length customer.now.lines)) }
{
    for line in 0..customer.lines().len() {
        put_part(alloc, report, document, Part::Line(number, line))?;
    }
    Ok(())
}

/// And of its routes.
fn put_routes(
    alloc: Global,
    report: &mut Vec<u8>,
    document: &Table,
    number: usize,
    customer: &NamedCustomer,
) -> Result<(), AllocError>
    ensures { OnOk result (report.new.items ≡ report.old.items
        ++ below (λ n. part_warnings (table_view document.now) (parts.Route number n)) (length customer.now.routes)) }
{
    for route in 0..customer.routes() {
        put_part(alloc, report, document, Part::Route(number, route))?;
    }
    Ok(())
}

/// Of a customer, its lines and its routes.
#[tactic(auto, unfolding(crate::specs::Warnings::customer_warnings))]
fn put_customer(
    alloc: Global,
    report: &mut Vec<u8>,
    document: &Table,
    number: usize,
    customer: &NamedCustomer,
) -> Result<(), AllocError>
    ensures { OnOk result (report.new.items
        ≡ report.old.items ++ customer_warnings (table_view document.now) number customer.now) }
{
    put_part(alloc, report, document, Part::Customer(number))?;
    put_lines(alloc, report, document, number, customer)?;
    put_routes(alloc, report, document, number, customer)
}

/// Of the file and its customers.
#[tactic(auto, unfolding(crate::specs::Warnings::file_warnings))]
pub(crate) fn put_file(
    alloc: Global,
    report: &mut Vec<u8>,
    document: &Table,
    tables: &Tables,
) -> Result<(), AllocError>
    ensures { OnOk result (report.new.items
        ≡ report.old.items ++ file_warnings (table_view document.now) tables.now) }
{
    put_part(alloc, report, document, Part::File)?;
    let customers = tables.customers();
    for number in 0..customers.len() {
        put_customer(alloc, report, document, number, &customers[number])?;
    }
    Ok(())
}
