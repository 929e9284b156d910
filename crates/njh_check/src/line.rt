//! The text of a fault with its place.

ghost use Rattle.std.specs.Prelude.{◌≡◌, ◌++◌, IfOk, codes, option_map, string_bytes};
ghost use Rattle.toml.specs.View.{table_view};
ghost use Rattle.njh_check.specs.FaultTexts.{customer_words, fault_name, fault_words, key_words, part_words, text_at};
ghost use Rattle.njh_check.specs.FaultTexts.{toml_words};
ghost use Rattle.njh_check.specs.Words.{◌+++◌};

use crate::elements::value_at;
use crate::reasons::reason_words;
use crate::words::numbered;
use njh_table::{Key, Part, PlacedFault, TableFault};
use std::alloc::{AllocError, Global};
use toml::Table;

/// The number and the name of a fault.
#[tactic(auto, unfolding(crate::specs::FaultTexts::fault_name))]
pub(crate) fn fault_name(fault: TableFault) -> &'static str
    ensures { result.now ≡ fault_name fault }
{
    match fault {
        TableFault::BadToml => "K1 BadToml",
        TableFault::MissingKey => "K2 MissingKey",
        TableFault::BadValue => "K3 BadValue",
        TableFault::DoubleLine => "K4 DoubleLine",
        TableFault::DoubleNode => "K5 DoubleNode",
        TableFault::UnknownLine => "K6 UnknownLine",
        TableFault::QuotaOver => "K7 QuotaOver",
        TableFault::TooMany => "K8 TooMany",
        TableFault::Memory => "K9 Memory",
    }
}

/// The text at a key of a part, if there is one.
#[tactic(auto, unfolding(crate::specs::FaultTexts::text_at))]
fn text_at(document: &Table, part: Part, key: Key) -> Option<&str>
    ensures { option_map (λ t. t.now) result ≡ text_at part key (table_view document.now) }
{
    value_at(document, part, Some(key))?.as_str()
}

#[tactic(auto, unfolding(crate::specs::FaultTexts::customer_words))]
fn customer_words(alloc: Global, document: &Table, customer: usize) -> Result<String, AllocError>
    ensures { IfOk result (λ words. string_bytes words ≡ customer_words customer (table_view document.now)) }
{
    let name = text_at(document, Part::Customer(customer), Key::Name);
    numbered(alloc, "customer", customer, name)
}

/// A part of the file, by its numbers from 1 on and its names.
#[tactic(auto, unfolding(crate::specs::FaultTexts::part_words))]
pub(crate) fn part_words(alloc: Global, document: &Table, part: Part) -> Result<String, AllocError>
    ensures { IfOk result (λ words. string_bytes words ≡ part_words part (table_view document.now)) }
{
    match part {
        Part::File => String::from_str(alloc, "the file"),
        Part::Customer(customer) => customer_words(alloc, document, customer),
        Part::Line(customer, line) => {
            let line = numbered(alloc, "line", line, text_at(document, part, Key::Name))?;
            with_customer(alloc, document, customer, line.as_str())
        }
        Part::Route(customer, route) => {
            let route = numbered(alloc, "route", route, text_at(document, part, Key::Node))?;
            with_customer(alloc, document, customer, route.as_str())
        }
    }
}

/// A part of a customer, after the customer.
fn with_customer(
    alloc: Global,
    document: &Table,
    customer: usize,
    words: &str,
) -> Result<String, AllocError>
    ensures { IfOk result (λ told. string_bytes told
        ≡ customer_words customer (table_view document.now) +++ codes ", " +++ words.now) }
{
    let customer = customer_words(alloc, document, customer)?;
    format!(in alloc; "{customer}, {words}")
}

/// The key; one that is missing is told with the reason.
#[tactic(auto, unfolding(crate::specs::FaultTexts::key_words))]
fn key_words(alloc: Global, fault: TableFault, key: Option<Key>) -> Result<String, AllocError>
    ensures { IfOk result (λ words. string_bytes words ≡ key_words fault key) }
{
    if fault == TableFault::MissingKey {
        return Ok(String::new(alloc));
    }
    match key {
        None => Ok(String::new(alloc)),
        Some(key) => {
            let name = key.name();
            format!(in alloc; ", {name}")
        }
    }
}

/// The text of a fault of a document, without an end of the line.
#[tactic(auto, unfolding(crate::specs::FaultTexts::fault_words))]
pub(crate) fn fault_words(
    alloc: Global,
    document: &Table,
    placed: PlacedFault,
) -> Result<String, AllocError>
    ensures { IfOk result (λ words. string_bytes words ≡ fault_words (table_view document.now) placed) }
{
    let fault = fault_name(placed.fault);
    let part = part_words(alloc, document, placed.part)?;
    let key = key_words(alloc, placed.fault, placed.key)?;
    let value = value_at(document, placed.part, placed.key);
    let reason = reason_words(alloc, document, placed, value)?;
    format!(in alloc; "{fault}: {part}{key}: {reason}")
}

/// The text of a fault of a text that is no TOML, which shows in a line of this number.
#[tactic(auto, unfolding(crate::specs::FaultTexts::toml_words))]
pub(crate) fn toml_words(alloc: Global, line: usize) -> Result<String, AllocError>
    ensures { IfOk result (λ words. string_bytes words ≡ toml_words line) }
{
    format!(in alloc; "K1 BadToml: line {line}: no TOML")
}
