//! The names of the lines, by their numbers.

ghost use Rattle.std.specs.Prelude.{◌≡◌, IfOk, map, string_bytes};
ghost use Rattle.std.specs.Option.{option_map};
ghost use Rattle.njh_replay.specs.LineNames.{name_at, names_in, names_of};

use njh_table::{LineId, NamedCustomer, Tables};
use std::alloc::{AllocError, Global};
use std::marker::Model;

/// The names of all lines, which stay at hand when the hub has taken the tables.
#[derive(Drop)]
pub struct LineNames {
    customers: Vec<Vec<String>>,
}

impl Model for LineNames {
    ghost use Rattle.std.specs.Prelude.{List, ℕ, map, string_bytes};

    ghost Value = { List (List (List ℕ)) };

    ghost view = { λ names. map (λ lines. map string_bytes lines.items) names.customers.items };
}

impl LineNames {
    /// The names that the tables have. Out of memory is the only refusal.
    pub fn of(alloc: Global, tables: &Tables) -> Result<LineNames, AllocError>
        ensures { IfOk result (λ names. names ≡ names_of tables.now) }
    {
        let mut customers = Vec::new(alloc);
        for customer in tables.customers() {
            customers.push(names_in(alloc, customer)?)?;
        }
        Ok(LineNames { customers })
    }

    /// The name of a line, if there is such a line.
    pub fn get(&self, id: LineId) -> Option<&str>
        ensures { option_map (λ name. name.now) result ≡ name_at self.now id }
    {
        let lines = self.customers.get(usize::from(id.customer))?;
        let name = lines.get(usize::from(id.number))?;
        Some(name.as_str())
    }
}

/// The names of a customer's lines, in their order.
fn names_in(alloc: Global, customer: &NamedCustomer) -> Result<Vec<String>, AllocError>
    ensures { IfOk result (λ names. map string_bytes names.items ≡ names_in customer.now) }
{
    let mut names = Vec::new(alloc);
    for line in customer.lines() {
        names.push(String::from_str(alloc, line.name())?)?;
    }
    Ok(names)
}
