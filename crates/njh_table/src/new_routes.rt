//! New routes for a customer, while the hub runs.

ghost use Rattle.std.specs.Prelude.{◌≡◌, ◌<◌, [], ◌∷◌, length, map, slice_index_or, slice_set, vec_len, Ok, Err};
ghost use Rattle.std.specs.Prelude.{IfOk, OnErr};
ghost use Rattle.njh_table.specs.Accepted.{AreDistinct};
ghost use Rattle.njh_table.specs.NewRoutes.{checked_from, given_lines, is_own, may_be_second, other_second, own_number};
ghost use Rattle.njh_table.specs.NewRoutes.{own_route, new_routes_of, repeats, route_checked};
ghost use Rattle.njh_table.specs.TableFile.{no_customer, route_entry};
ghost use Rattle.njh_table.specs.declared.nodes.TheConstants.{MAX_NODES};

use crate::LineId;
use crate::customer::NamedCustomer;
use crate::fault::TableFault;
use crate::limits::MAX_ROUTES;
use crate::nodes::Nodes;
use crate::routes::{RouteLines, Routes};
use crate::tables::Tables;
use njh_ebcdic::Name;

/// A route that a customer is given: a node, and the lines that lead to it.
#[derive(Clone, Copy, Debug, PartialEq, Eq)]
pub struct GivenRoute {
    /// The node.
    pub node: Name,
    /// The line, which has to be the customer's own.
    pub line: LineId,
    /// Another line of the customer's own, if there is one.
    pub second: Option<LineId>,
}

impl Tables {
    ghost use Rattle.std.specs.Prelude.{OnOk};
    ghost use Rattle.njh_table.specs.NewRoutes.{routes_checked, with_routes};
    ghost use Rattle.njh_table.specs.TableFile.{customer_at, entry_of};

    /// Whether a customer may have these routes in place of its own. `TooMany` comes where there
    /// are more than 512; then, from the left and at each route in this order, `BadValue` where its
    /// second line is its line, `DoubleNode` where an earlier one has its node or that is the hub's
    /// own name, and `UnknownLine` where its line, and then where its second line, isn't the
    /// customer's. Takes no memory.
    pub fn check_routes(&self, customer: u16, routes: &[GivenRoute]) -> Result<(), TableFault>
        requires { customer < length self.now.customers }
        ensures { result ≡ routes_checked (entry_of (customer_at self.now customer))
            (new_routes_of customer routes.now) }
    {
        if routes.len() > MAX_ROUTES {
            return Err(TableFault::TooMany);
        }
        check_each(customer, self.customer(customer), routes)
    }

    /// Gives a customer these routes in place of its own. Want of memory is the only refusal, and
    /// then nothing has changed.
    pub fn set_routes(&mut self, customer: u16, routes: &[GivenRoute]) -> Result<(), TableFault>
        requires known { customer < length self.old.customers }
        requires checked { routes_checked (entry_of (customer_at self.old customer)) (new_routes_of customer routes.now)
            ≡ Ok tt }
        ensures routes { OnOk result (self.new ≡ with_routes customer (new_routes_of customer routes.now) self.old) }
        ensures memory { OnErr result ((result ≡ Err TableFault.Memory) × (self.new ≡ self.old)) }
    {
        let new = self.customer(customer).routes.replaced_by(routes)?;
        give_routes(&mut self.customers, customer, new);
        Ok(())
    }
}

impl Routes {
    /// These routes alone.
    fn replaced_by(&self, routes: &[GivenRoute]) -> Result<Routes, TableFault>
        requires { AreDistinct (map (λ r. r.node) routes.now) }
        ensures routes { IfOk result (λ new. new ≡ map (λ r. route_entry (r.node, given_lines r)) routes.now) }
        ensures memory { OnErr result (result ≡ Err TableFault.Memory) }
    {
        let mut new = self.emptied();
        for route in routes {
            new.insert(route.node, given_lines(route))?;
        }
        Ok(new)
    }
}

/// The lines of a route by their numbers, whoever's they are.
fn given_lines(route: &GivenRoute) -> RouteLines
    ensures { result ≡ given_lines route.now }
{
    RouteLines {
        line: route.line.number,
        second: route.second.map(|second| second.number),
    }
}

/// A customer has these routes, and nothing else of it changes.
fn give_routes(customers: &mut Vec<NamedCustomer>, customer: u16, routes: Routes)
    requires { customer < vec_len customers.old }
    ensures { customers.new.items
        ≡ slice_set customers.old.items customer
        (record (slice_index_or customers.old.items customer no_customer) { routes = routes }) }
{
    customers[usize::from(customer)].set_routes(routes);
}

impl NamedCustomer {
    fn set_routes(&mut self, routes: Routes)
        ensures { self.new ≡ record self.old { routes = routes } }
    {
        self.routes = routes;
    }
}

/// The first fault of a customer's new routes, from the left.
fn check_each(
    number: u16,
    customer: &NamedCustomer,
    routes: &[GivenRoute],
) -> Result<(), TableFault>
    requires { length routes.now < MAX_NODES }
    ensures { result ≡ checked_from (length customer.now.lines) (customer.now.hub ∷ [])
        (new_routes_of number routes.now) }
{
    let mut taken = Nodes::new();
    taken.insert(customer.hub());
    for route in routes {
        check_one(number, customer, &taken, *route)?;
        taken.insert(route.node);
    }
    Ok(())
}

/// The fault of a new route, where these nodes can't have another.
#[tactic(auto, unfolding(crate::specs::NewRoutes::route_checked))]
fn check_one(
    number: u16,
    customer: &NamedCustomer,
    taken: &Nodes,
    route: GivenRoute,
) -> Result<(), TableFault>
    ensures { result ≡ route_checked (length customer.now.lines) taken.now (own_route number route) }
{
    if repeats(route.line, route.second) {
        return Err(TableFault::BadValue);
    }
    if taken.contains(route.node) {
        return Err(TableFault::DoubleNode);
    }
    if !is_own(number, customer, route.line) {
        return Err(TableFault::UnknownLine);
    }
    if !may_be_second(number, customer, route.second) {
        return Err(TableFault::UnknownLine);
    }
    Ok(())
}

/// Whether a route's second line is its line.
fn repeats(id: LineId, second: Option<LineId>) -> bool
    ensures { result ≡ repeats id second }
{
    match second {
        Some(second) => id == second,
        None => false,
    }
}

/// Whether a line is one of a customer's own.
fn is_own(number: u16, customer: &NamedCustomer, id: LineId) -> bool
    ensures { result ≡ is_own (length customer.now.lines) (own_number number id) }
{
    id.customer == number && usize::from(id.number) < customer.lines().len()
}

/// Whether there is no second line, or it is one of a customer's own.
fn may_be_second(number: u16, customer: &NamedCustomer, second: Option<LineId>) -> bool
    ensures { result ≡ may_be_second (length customer.now.lines) (other_second number second) }
{
    match second {
        Some(second) => is_own(number, customer, second),
        None => true,
    }
}
