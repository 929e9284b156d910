//! The walk over a table file, one element after the other, to its first fault.

ghost use Rattle.std.specs.Prelude.{◌≡◌, ◌≤◌, length, sum_by, nat_lt};
ghost use Rattle.toml.specs.View.{table_view};
ghost use Rattle.njh_table.specs.Limits.{max_customers};
ghost use Rattle.njh_table.specs.Walk.{Walks, walk_in};

mod customers;
mod lines;
mod routes;

use crate::customer::NamedCustomer;
use crate::fault::TableFault;
use crate::keys::{list_at, number_at};
use crate::limits::MAX_CAPACITY;
use crate::owners::Owners;
use crate::places::{Key, Part, PlacedFault};
use crate::tables::Tables;
use crate::walk::customers::customers_in;
use std::alloc::Global;
use toml::Table;

fn quotas_of(customers: &[NamedCustomer]) -> u64
    requires { length customers.now ≤ max_customers }
    ensures { result ≡ sum_by (λ c. c.quota) customers.now }
{
    customers
        .iter()
        .map(|customer| u64::from(customer.quota()))
        .sum()
}

/// Whether the customers' quotas add to more than the capacity.
fn quotas_exceed(customers: &[NamedCustomer], capacity: u32) -> bool
    requires { length customers.now ≤ max_customers }
    ensures { result ≡ nat_lt capacity (sum_by (λ c. c.quota) customers.now) }
{
    quotas_of(customers) > u64::from(capacity)
}

/// The tables that a document gives, or its first fault with its place.
#[tactic(auto, using(crate::proofs::Loops::is_empty_view), unfolding(crate::specs::Walk::walk_in))]
pub(crate) fn walk_in(alloc: Global, keys: &Table) -> Result<Tables, PlacedFault>
    ensures { Walks (λ t. t) result (walk_in (table_view keys.now)) }
{
    let part = Part::File;
    let capacity = number_at(keys, part, Key::Capacity, 1, MAX_CAPACITY)?;
    let values = list_at(keys, part, Key::Customer)?;
    if values.is_empty() {
        return Err(part.fault_at(Key::Customer, TableFault::MissingKey));
    }
    let mut owners = Owners::new(alloc);
    let customers = customers_in(alloc, values, &mut owners)?;
    if quotas_exceed(&customers, capacity) {
        return Err(part.fault_at(Key::Capacity, TableFault::QuotaOver));
    }
    Ok(Tables {
        capacity,
        customers,
        owners,
    })
}
