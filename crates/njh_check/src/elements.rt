//! What is at a place of a table file.

ghost use Rattle.std.specs.Prelude.{◌≡◌, option_map};
ghost use Rattle.toml.specs.Data.{get_member, get_item};
ghost use Rattle.toml.specs.View.{items_view, table_view, view};
ghost use Rattle.njh_table.specs.Places.{key_name};
ghost use Rattle.njh_check.specs.Elements.{element, element_keys, part_keys, part_value, value_at};

use njh_table::{Key, Part};
use toml::{Table, Value};

/// The value of a key.
pub(crate) fn find(keys: &Table, key: Key) -> Option<&Value>
    ensures { option_map (λ v. view v.now) result ≡ get_member (key_name key) (table_view keys.now) }
{
    keys.get(key.name())
}

/// The value of a number in a list.
fn value_of_number(values: &[Value], number: usize) -> Option<&Value>
    ensures { option_map (λ v. view v.now) result ≡ get_item number (items_view values.now) }
{
    if number < values.len() {
        return Some(&values[number]);
    }
    None
}

/// The element of a number in the list at a key, if there is one.
#[tactic(auto, unfolding(crate::specs::Elements::element))]
fn element(keys: &Table, key: Key, number: usize) -> Option<&Value>
    ensures { option_map (λ v. view v.now) result ≡ element number key (table_view keys.now) }
{
    let list = find(keys, key)?.as_array()?;
    value_of_number(list.as_slice(), number)
}

/// And its keys.
#[tactic(auto, unfolding(crate::specs::Elements::element_keys))]
fn element_keys(keys: &Table, key: Key, number: usize) -> Option<&Table>
    ensures { option_map (λ t. table_view t.now) result ≡ element_keys number key (table_view keys.now) }
{
    element(keys, key, number)?.as_table()
}

/// A part of the file as a value; the file itself is none.
#[tactic(auto, unfolding(crate::specs::Elements::part_value))]
fn part_value(document: &Table, part: Part) -> Option<&Value>
    ensures { option_map (λ v. view v.now) result ≡ part_value part (table_view document.now) }
{
    match part {
        Part::File => None,
        Part::Customer(customer) => element(document, Key::Customer, customer),
        Part::Line(customer, line) => {
            let keys = element_keys(document, Key::Customer, customer)?;
            element(keys, Key::Line, line)
        }
        Part::Route(customer, route) => {
            let keys = element_keys(document, Key::Customer, customer)?;
            element(keys, Key::Route, route)
        }
    }
}

/// The keys of a part of the file.
#[tactic(auto, unfolding(crate::specs::Elements::part_keys))]
pub(crate) fn part_keys(document: &Table, part: Part) -> Option<&Table>
    ensures { option_map (λ t. table_view t.now) result ≡ part_keys part (table_view document.now) }
{
    match part {
        Part::File => Some(document),
        Part::Customer(customer) => element_keys(document, Key::Customer, customer),
        Part::Line(customer, line) => {
            let keys = element_keys(document, Key::Customer, customer)?;
            element_keys(keys, Key::Line, line)
        }
        Part::Route(customer, route) => {
            let keys = element_keys(document, Key::Customer, customer)?;
            element_keys(keys, Key::Route, route)
        }
    }
}

/// The value of a part's key, or the part as a value.
#[tactic(auto, unfolding(crate::specs::Elements::value_at))]
pub(crate) fn value_at(document: &Table, part: Part, key: Option<Key>) -> Option<&Value>
    ensures { option_map (λ v. view v.now) result ≡ value_at part key (table_view document.now) }
{
    match key {
        None => part_value(document, part),
        Some(key) => find(part_keys(document, part)?, key),
    }
}
