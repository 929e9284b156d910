//! The walk over the customers.

ghost use Rattle.std.specs.Prelude.{◌≡◌, ◌<◌, ◌≤◌, ◌++◌, [], ◌∷◌, length, vec_len, bytes_eq, IfOk, OnOk};
ghost use Rattle.std.specs.List.{list_any};
ghost use Rattle.std.specs.Result.{result_map_both};
ghost use Rattle.toml.specs.View.{view, items_view, table_view};
ghost use Rattle.njh_table.specs.Limits.{max_customers};
ghost use Rattle.njh_table.specs.TableFile.{owners_from};
ghost use Rattle.njh_table.specs.Walk.{Walks, customer_keys, next_customer, customers_onto};

use crate::customer::NamedCustomer;
use crate::fault::TableFault;
use crate::keys::{keys_in, list_or_empty_at, name_at, number_at};
use crate::limits::{MAX_CUSTOMERS, MAX_FILES, MAX_QUOTA};
use crate::owners::Owners;
use crate::places::{Key, Part, PlacedFault};
use crate::walk::lines::lines_in;
use crate::walk::routes::routes_in;
use njh_ebcdic::Name;
use std::alloc::Global;
use toml::{Table, Value};

/// The keys of a customer, its lists aside.
#[derive(Clone, Copy)]
struct CustomerKeys {
    name: Name,
    hub: Name,
    quota: u32,
    files: u32,
}

fn is_named(customer: &NamedCustomer, name: Name) -> bool
    ensures { result ≡ bytes_eq customer.now.name name }
{
    customer.name() == name
}

fn has_customer(customers: &[NamedCustomer], name: Name) -> bool
    ensures { result ≡ list_any (λ c. bytes_eq c.name name) customers.now }
{
    customers.iter().any(|customer| is_named(customer, name))
}

#[tactic(auto, unfolding(crate::specs::Walk::customer_keys))]
fn customer_keys(
    part: Part,
    keys: &Table,
    earlier: &[NamedCustomer],
) -> Result<CustomerKeys, PlacedFault>
    ensures { result_map_both (λ c. record { name = c.name; hub = c.hub; quota = c.quota; files = c.files })
        (λ f. f) result
        ≡ customer_keys part earlier.now (table_view keys.now) }
{
    let name = name_at(keys, part, Key::Name)?;
    if has_customer(earlier, name) {
        return Err(part.fault_at(Key::Name, TableFault::BadValue));
    }
    let hub = name_at(keys, part, Key::Hub)?;
    let quota = number_at(keys, part, Key::Quota, 1, MAX_QUOTA)?;
    let files = number_at(keys, part, Key::Files, 1, MAX_FILES)?;
    Ok(CustomerKeys {
        name,
        hub,
        quota,
        files,
    })
}

/// The next customer, whose lines become the hub's.
#[tactic(auto, unfolding(crate::specs::Walk::next_customer))]
fn next_customer(
    alloc: Global,
    value: &Value,
    earlier: &[NamedCustomer],
    owners: &mut Owners,
) -> Result<NamedCustomer, PlacedFault>
    requires { owners.old ≡ owners_from 0 earlier.now }
    ensures walk { Walks (λ c. c) result (next_customer earlier.now (view value.now)) }
    ensures owners { IfOk result (λ c. owners.new ≡ owners_from 0 (earlier.now ++ c ∷ [])) }
    ensures room { OnOk result (length earlier.now < max_customers) }
{
    let part = Part::Customer(earlier.len());
    if earlier.len() >= MAX_CUSTOMERS {
        return Err(part.fault(TableFault::TooMany));
    }
    let keys = keys_in(value, part)?;
    let own = customer_keys(part, keys, earlier)?;
    let line_values = list_or_empty_at(keys, part, Key::Line)?;
    let route_values = list_or_empty_at(keys, part, Key::Route)?;
    let number = earlier.len() as u16;
    let lines = lines_in(alloc, line_values, number, owners)?;
    let routes = routes_in(alloc, route_values, number, own.hub, owners)?;
    Ok(NamedCustomer {
        name: own.name,
        hub: own.hub,
        quota: own.quota,
        files: own.files,
        lines,
        routes,
    })
}

pub(super) fn customers_in(
    alloc: Global,
    values: &[Value],
    owners: &mut Owners,
) -> Result<Vec<NamedCustomer>, PlacedFault>
    requires { owners.old ≡ [] }
    ensures walk { Walks (λ v. v.items) result (customers_onto [] (items_view values.now)) }
    ensures owners { IfOk result (λ v. owners.new ≡ owners_from 0 v.items) }
    ensures few { IfOk result (λ v. vec_len v ≤ max_customers) }
{
    let mut customers = Vec::new(alloc);
    for value in values {
        let customer = next_customer(alloc, value, &customers, owners)?;
        customers.push(customer)?;
    }
    Ok(customers)
}
