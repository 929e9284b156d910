//! What is wrong at a place of a table file.

ghost use Rattle.std.specs.Prelude.{◌≡◌, ◌++◌, IfOk, codes, option_map, string_bytes};
ghost use Rattle.toml.specs.View.{items_view, table_view, view};
ghost use Rattle.njh_table.specs.Keys.{number};
ghost use Rattle.njh_table.specs.Limits.{max_quota};
ghost use Rattle.njh_check.specs.Reasons.{bad_value_words, is_name_again, is_name_value, line_words, missing_words};
ghost use Rattle.njh_check.specs.Reasons.{most_words, name_words, over_words, quota_in, quotas_in, quotas_of};
ghost use Rattle.njh_check.specs.Reasons.{reason_words, told_words, wanted_words};
ghost use Rattle.njh_check.specs.Words.{◌+++◌, found_words};

use crate::elements::find;
use crate::words::found_words;
use njh_ebcdic::Name;
use njh_table::{Key, MAX_QUOTA, Part, PlacedFault, TableFault};
use std::alloc::{AllocError, Global};
use toml::{Table, Value};

/// What a name of a part may be.
#[tactic(auto, unfolding(crate::specs::Reasons::name_words))]
fn name_words(part: Part) -> &'static str
    ensures { result.now ≡ name_words part }
{
    match part {
        Part::File => "a name",
        Part::Customer(_) => "a name: 1 to 8 of A to Z, 0 to 9, $, # and @",
        Part::Line(_, _) => "1 to 8 letters and digits",
        Part::Route(_, _) => "a name",
    }
}

/// What the key `line` of a part may be.
#[tactic(auto, unfolding(crate::specs::Reasons::line_words))]
fn line_words(part: Part) -> &'static str
    ensures { result.now ≡ line_words part }
{
    match part {
        Part::File => "a list",
        Part::Customer(_) => "a list of lines",
        Part::Line(_, _) => "a list",
        Part::Route(_, _) => "a line's name",
    }
}

/// What may be at a key.
#[tactic(auto, unfolding(crate::specs::Reasons::wanted_words))]
fn wanted_words(part: Part, key: Key) -> &'static str
    ensures { result.now ≡ wanted_words part key }
{
    match key {
        Key::Capacity => "1 to 4194240",
        Key::Customer => "a list of customers",
        Key::Name => name_words(part),
        Key::Hub => "a name: 1 to 8 of A to Z, 0 to 9, $, # and @",
        Key::Quota => "1 to 65535",
        Key::Files => "1 to 1024",
        Key::Line => line_words(part),
        Key::Route => "a list of routes",
        Key::Node => "a name: 1 to 8 of A to Z, 0 to 9, $, # and @",
        Key::Role => "\"call\" or \"answer\"",
        Key::Block => "300 to 4096",
        Key::Streams => "1 to 4",
        Key::Password => "empty or a name: 1 to 8 of A to Z, 0 to 9, $, # and @",
        Key::Port => "0 to 65535",
        Key::Connect => "an IP address and a port, on a line without a port of its own",
        Key::From => {
            "1 to 16 addresses or networks without bits behind the mask, on a line with a port"
        }
        Key::Protocol => {
            "\"bisync\", or \"tcp\" on a line that answers with a port or calls with connect"
        }
        Key::Second => "the name of another line",
    }
}

/// How many of a part there may be.
#[tactic(auto, unfolding(crate::specs::Reasons::most_words))]
fn most_words(part: Part) -> &'static str
    ensures { result.now ≡ most_words part }
{
    match part {
        Part::File => "the file is too long",
        Part::Customer(_) => "at most 64 customers",
        Part::Line(_, _) => "at most 256 lines on the whole hub",
        Part::Route(_, _) => "at most 512 routes",
    }
}

/// Whether a value is a name.
#[tactic(auto, unfolding(crate::specs::Reasons::is_name_value))]
fn is_name_value(value: Option<&Value>) -> bool
    ensures { result ≡ is_name_value (option_map (λ v. view v.now) value.entry) }
{
    let Some(value) = value else {
        return false;
    };
    match value.as_str() {
        Some(text) => Name::of_text(text).is_ok(),
        None => false,
    }
}

/// Whether it is a customer's name that has nothing wrong but that it is an earlier one's.
#[tactic(auto, unfolding(crate::specs::Reasons::is_name_again))]
fn is_name_again(part: Part, key: Key, value: Option<&Value>) -> bool
    ensures { result ≡ is_name_again part key (option_map (λ v. view v.now) value.entry) }
{
    match (part, key) {
        (Part::Customer(_), Key::Name) => is_name_value(value),
        _ => false,
    }
}

/// A value that a key can't have.
#[tactic(auto, unfolding(crate::specs::Reasons::bad_value_words))]
fn bad_value_words(
    alloc: Global,
    part: Part,
    key: Option<Key>,
    value: Option<&Value>,
) -> Result<String, AllocError>
    ensures { IfOk result (λ words. string_bytes words
        ≡ bad_value_words part key (option_map (λ v. view v.now) value.entry)) }
{
    let Some(key) = key else {
        return told_of(alloc, value, " isn't a table");
    };
    if is_name_again(part, key, value) {
        return told_of(alloc, value, " is an earlier customer's name");
    }
    unwanted_words(alloc, key, value, wanted_words(part, key))
}

/// A value at a key, but a password isn't told.
#[tactic(auto, unfolding(crate::specs::Reasons::told_words))]
fn told_words(alloc: Global, key: Key, value: Option<&Value>) -> Result<String, AllocError>
    ensures { IfOk result (λ words. string_bytes words
        ≡ told_words key (option_map (λ v. view v.now) value.entry)) }
{
    match key {
        Key::Password => String::from_str(alloc, "it"),
        _ => found_words(alloc, value),
    }
}

/// A value at a key, and what is wanted in its place.
fn unwanted_words(
    alloc: Global,
    key: Key,
    value: Option<&Value>,
    wanted: &str,
) -> Result<String, AllocError>
    ensures { IfOk result (λ words. string_bytes words
        ≡ told_words key (option_map (λ v. view v.now) value.entry) +++ codes " isn't " +++ wanted.now) }
{
    let told = told_words(alloc, key, value)?;
    format!(in alloc; "{told} isn't {wanted}")
}

/// A key that isn't there, or is an empty list.
#[tactic(auto, unfolding(crate::specs::Reasons::missing_words))]
fn missing_words(
    alloc: Global,
    key: Option<Key>,
    value: Option<&Value>,
) -> Result<String, AllocError>
    ensures { IfOk result (λ words. string_bytes words
        ≡ missing_words key (option_map (λ v. view v.now) value.entry)) }
{
    let Some(key) = key else {
        return String::from_str(alloc, "no key");
    };
    let name = key.name();
    match value {
        None => format!(in alloc; "no key {name}"),
        Some(_) => format!(in alloc; "the list {name} is empty"),
    }
}

/// The quota of a customer, or none.
#[tactic(auto, unfolding(crate::specs::Reasons::quota_in))]
fn quota_in(customer: &Value) -> Option<u32>
    ensures { result ≡ quota_in (view customer.now) }
{
    number_in(find(customer.as_table()?, Key::Quota)?)
}

/// A number of at most the greatest quota.
fn number_in(value: &Value) -> Option<u32>
    ensures { result ≡ number 0 max_quota (view value.now) }
{
    let number = u32::try_from(value.as_integer()?).ok()?;
    (number <= MAX_QUOTA).then_some(number)
}

/// The quotas of customers, added.
fn quotas_of(customers: &[Value]) -> u128
    ensures { result ≡ quotas_of (items_view customers.now) }
{
    let mut sum = 0;
    for customer in customers {
        sum += u128::from(quota_in(customer).unwrap_or(0));
    }
    sum
}

/// The quotas of a document's customers, added.
#[tactic(auto, unfolding(crate::specs::Reasons::quotas_in))]
fn quotas_in(document: &Table) -> u128
    ensures { result ≡ quotas_in (table_view document.now) }
{
    let Some(value) = find(document, Key::Customer) else {
        return 0;
    };
    match value.as_array() {
        Some(customers) => quotas_of(customers.as_slice()),
        None => 0,
    }
}

/// A capacity that is less than the quotas' sum.
#[tactic(auto, unfolding(crate::specs::Reasons::over_words))]
fn over_words(alloc: Global, sum: u128) -> Result<String, AllocError>
    ensures { IfOk result (λ words. string_bytes words ≡ over_words sum) }
{
    format!(in alloc; " is less than the quotas, which add to {sum}")
}

/// A value that a fault is told of, and how.
fn told_of(alloc: Global, value: Option<&Value>, how: &str) -> Result<String, AllocError>
    ensures { IfOk result (λ words. string_bytes words
        ≡ found_words (option_map (λ v. view v.now) value.entry) ++ how.now) }
{
    let found = found_words(alloc, value)?;
    format!(in alloc; "{found}{how}")
}

/// A capacity, and the sum of the quotas that it is less than.
fn quota_over_words(
    alloc: Global,
    document: &Table,
    value: Option<&Value>,
) -> Result<String, AllocError>
    ensures { IfOk result (λ words. string_bytes words
        ≡ found_words (option_map (λ v. view v.now) value.entry) ++ over_words (quotas_in (table_view document.now))) }
{
    let over = over_words(alloc, quotas_in(document))?;
    told_of(alloc, value, over.as_str())
}

/// What is wrong, by the fault, its place and what is there.
#[tactic(auto, unfolding(crate::specs::Reasons::reason_words))]
pub(crate) fn reason_words(
    alloc: Global,
    document: &Table,
    placed: PlacedFault,
    value: Option<&Value>,
) -> Result<String, AllocError>
    ensures { IfOk result (λ words. string_bytes words ≡ reason_words placed.fault (table_view document.now)
        placed.part placed.key (option_map (λ v. view v.now) value.entry)) }
{
    match placed.fault {
        TableFault::BadToml => String::from_str(alloc, "no TOML"),
        TableFault::MissingKey => missing_words(alloc, placed.key, value),
        TableFault::BadValue => bad_value_words(alloc, placed.part, placed.key, value),
        TableFault::DoubleLine => told_of(alloc, value, " is an earlier line's name"),
        TableFault::DoubleNode => {
            told_of(
                alloc,
                value,
                " has a route already, or is the hub's own name",
            )
        }
        TableFault::UnknownLine => told_of(alloc, value, " is no line of this customer"),
        TableFault::QuotaOver => quota_over_words(alloc, document, value),
        TableFault::TooMany => String::from_str(alloc, most_words(placed.part)),
        TableFault::Memory => String::from_str(alloc, "memory was refused"),
    }
}
