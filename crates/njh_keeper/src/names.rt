//! The customers of the tables by their names.

ghost use Rattle.std.specs.Prelude.{◌≡◌, ◌≤◌, ◌^◌, length, map, IfOk};
ghost use Rattle.njh_keeper.specs.Opened.{number_of};
ghost use Rattle.njh_table.specs.Accepted.{IsAccepted};

use njh_ebcdic::Name;
use njh_table::Tables;
use std::alloc::{AllocError, Global};

/// The names of the tables' customers, in their order.
pub(crate) fn names_of(alloc: Global, tables: &Tables) -> Result<Vec<Name>, AllocError>
    ensures each { IfOk result (λ names. names.items ≡ map (λ c. c.name) tables.now.customers) }
    ensures accepted { IsAccepted tables.now }
{
    let mut names = Vec::with_capacity(alloc, tables.customers().len())?;
    for customer in tables.customers() {
        names.push(customer.name())?;
    }
    Ok(names)
}

/// The number of the customer whose name a text is.
pub(crate) fn number_of(names: &[Name], text: &str) -> Option<u16>
    requires { length names.now ≤ 2 ^ 16 }
    ensures { result ≡ number_of names.now text.now }
{
    let Ok(name) = Name::of_text(text) else {
        return None;
    };
    for (number, known) in names.iter().enumerate() {
        if name == *known {
            return Some(number as u16);
        }
    }
    None
}

/// The same, for any number of customers; none if there are more than a hub has.
pub(crate) fn number_among(names: &[Name], text: &str) -> Option<u16> {
    if names.len() > usize::from(u16::MAX) {
        return None;
    }
    number_of(names, text)
}
