//! The tables of a hub.

use crate::customer::NamedCustomer;
use crate::line::NamedLine;
use crate::owners::Owners;
use crate::{LineId, Route};
use njh_ebcdic::Name;
use std::marker::Model;

/// The customers of a hub, with their lines and routes, as a table file gives them.
#[derive(Drop)]
pub struct Tables {
    pub(crate) capacity: u32,
    pub(crate) customers: Vec<NamedCustomer>,
    pub(crate) owners: Owners,
}

impl Model for Tables {
    ghost use Rattle.std.specs.Prelude.{◌≡◌};
    ghost use Rattle.njh_table.specs.Accepted.{IsAccepted};
    ghost use Rattle.njh_table.specs.TableFile.{TableFile, owners_from};

    ghost Value = { TableFile };

    ghost view = { λ t. record { capacity = t.capacity; customers = t.customers.items } };

    ghost invariant = { λ t. IsAccepted (record { capacity = t.capacity; customers = t.customers.items })
        × (t.owners ≡ owners_from 0 t.customers.items) };
}

impl Tables {
    ghost use Rattle.std.specs.Prelude.{◌≡◌, ◌<◌, ◌↔◌, length, IsTrue, IfSome};
    ghost use Rattle.njh_table.specs.Accepted.{IsAccepted};
    ghost use Rattle.njh_table.specs.declared.LineId.{LineId};
    ghost use Rattle.njh_table.specs.Entries.{route_of};
    ghost use Rattle.njh_table.specs.TableFile.{customer_at, entry_of, table_line, line_named, HasLine};

    /// How many blocks the spool has.
    pub fn capacity(&self) -> u32
        ensures { result ≡ self.now.capacity }
    {
        self.capacity
    }

    /// The customers, in the order of the file.
    pub fn customers(&self) -> &[NamedCustomer]
        ensures all { result.now ≡ self.now.customers }
        ensures accepted { IsAccepted self.now }
    {
        self.customers.as_slice()
    }

    /// A customer by its number.
    pub fn customer(&self, customer: u16) -> &NamedCustomer
        requires { customer < length self.now.customers }
        ensures { result.now ≡ customer_at self.now customer }
    {
        &self.customers[usize::from(customer)]
    }

    /// Whether there is such a line.
    pub fn has_line(&self, id: LineId) -> bool
        ensures { IsTrue result ↔ HasLine self.now id }
    {
        match self.customers.get(usize::from(id.customer)) {
            Some(customer) => usize::from(id.number) < customer.lines().len(),
            None => false,
        }
    }

    /// A line by its customer and its number.
    pub fn line(&self, id: LineId) -> &NamedLine
        requires { HasLine self.now id }
        ensures { result.now ≡ table_line self.now id }
    {
        &self.customer(id.customer).lines()[usize::from(id.number)]
    }

    /// The line of a name, which stands once on the whole hub.
    pub fn line_owner(&self, name: &str) -> Option<LineId>
        ensures owner { result ≡ line_named self.now name.now }
        ensures found { IfSome result (λ line. HasLine self.now line × ((table_line self.now line).name ≡ name.now)) }
        ensures only { (id : LineId) → HasLine self.now id → (table_line self.now id).name ≡ name.now
            → result ≡ Some id }
    {
        self.owners.get(name)
    }

    /// Where a node's files and messages go, by its customer's own entry.
    pub fn route(&self, customer: u16, node: Name) -> Route
        requires { customer < length self.now.customers }
        ensures { result ≡ route_of (entry_of (customer_at self.now customer)) node }
    {
        self.customer(customer).route(node)
    }
}
