//! The routes of a customer of tables, as a hub is given them.

ghost use Rattle.std.specs.Prelude.{◌≡◌, ◌<◌, false, length, slice_get, Some, IfOk};
ghost use Rattle.njh_table.specs.TableFile.{customer_at, route_entry};
ghost use Rattle.njh_revision.specs.Revisions.{given_route, given_routes};

use njh_ebcdic::Name;
use njh_hub::GivenRoutes;
use njh_table::{GivenRoute, LineId, NamedCustomer, RouteLines, Tables};
use std::alloc::{AllocError, Global};

/// The routes of a customer, all of them and in their order, each by the customer's own lines. Out
/// of memory is the only refusal.
pub fn routes_of(alloc: Global, tables: &Tables, customer: u16) -> Result<GivenRoutes, AllocError>
    requires { customer < length tables.now.customers }
    ensures { IfOk result (λ routes. routes ≡ given_routes customer (customer_at tables.now customer).routes) }
{
    let routes = each_route(alloc, customer, tables.customer(customer))?;
    GivenRoutes::of(alloc, &routes)
}

/// The routes of the customer of a number.
fn each_route(
    alloc: Global,
    number: u16,
    customer: &NamedCustomer,
) -> Result<Vec<GivenRoute>, AllocError>
    ensures { IfOk result (λ routes. routes.items ≡ given_routes number customer.now.routes) }
{
    let mut routes = Vec::new(alloc);
    for place in 0..customer.routes() {
        routes.push(route_at(number, customer, place))?;
    }
    Ok(routes)
}

/// A route of the customer of a number.
fn route_at(number: u16, customer: &NamedCustomer, place: usize) -> GivenRoute
    requires { place < length customer.now.routes }
    ensures { slice_get (given_routes number customer.now.routes) place ≡ Some result }
{
    let (node, lines) = customer.route_at(place);
    given_route(number, node, lines)
}

/// A route by lines of the customer of a number.
fn given_route(number: u16, node: Name, lines: RouteLines) -> GivenRoute
    ensures { result ≡ given_route number (route_entry (node, lines)) }
{
    GivenRoute {
        node,
        line: own_line(number, lines.line),
        second: lines.second.map(|line| own_line(number, line)),
    }
}

/// A line of the customer of a number.
fn own_line(number: u16, line: u16) -> LineId
    ensures { result ≡ record { customer = number; number = line } }
{
    LineId {
        customer: number,
        number: line,
    }
}

/// Whether a customer has other routes, or the same in another order, in new tables.
pub(crate) fn have_other_routes(customer: &NamedCustomer, new: &NamedCustomer) -> bool
    ensures { result ≡ false → new.now.routes ≡ customer.now.routes }
{
    if new.routes() != customer.routes() {
        return true;
    }
    for place in 0..customer.routes() {
        if is_other_route(customer, new, place) {
            return true;
        }
    }
    false
}

/// Whether the route of a place is another.
fn is_other_route(customer: &NamedCustomer, new: &NamedCustomer, place: usize) -> bool
    requires here { place < length customer.now.routes }
    requires there { place < length new.now.routes }
    ensures { result ≡ false → slice_get new.now.routes place ≡ slice_get customer.now.routes place }
{
    let (node, lines) = customer.route_at(place);
    let (new_node, new_lines) = new.route_at(place);
    new_node != node || new_lines != lines
}
