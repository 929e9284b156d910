//! The walk over a customer's routes.

ghost use Rattle.std.specs.Prelude.{◌≡◌, [], None, IfOk, option_map};
ghost use Rattle.std.specs.Result.{result_map_both};
ghost use Rattle.toml.specs.View.{view, items_view};
ghost use Rattle.njh_table.specs.Entries.{lines_to};
ghost use Rattle.njh_table.specs.TableFile.{own_line, route_entry};
ghost use Rattle.njh_table.specs.Walk.{Walks, is_routed, number_of_second, route_by, next_route, routes_onto};

use crate::fault::TableFault;
use crate::keys::{keys_in, name_at, second_at, text_at};
use crate::limits::MAX_ROUTES;
use crate::owners::Owners;
use crate::places::{Key, Part, PlacedFault};
use crate::routes::{RouteLines, Routes};
use njh_ebcdic::Name;
use std::alloc::Global;
use toml::Value;

/// A route as a table file names it: its node, and its lines by their names.
#[derive(Clone, Copy)]
struct NamedRoute<'a> {
    node: Name,
    line: &'a str,
    second: Option<&'a str>,
}

/// The names that routes of a customer go by: its hub's node, and its own lines among all lines.
#[derive(Drop)]
struct OwnNames<'a> {
    customer: u16,
    hub: Name,
    owners: &'a Owners,
}

impl OwnNames<'_> {
    /// The number of the customer's line of this name.
    fn line(&self, name: &str) -> Option<u16>
        ensures { result ≡ own_line self.now.owners.now self.now.customer name.now }
    {
        self.owners.own_line(self.customer, name)
    }
}

/// Whether the customer's hub and its routes so far say where a node goes.
fn is_routed(hub: Name, routes: &Routes, node: Name) -> bool
    ensures { result ≡ is_routed hub routes.now node }
{
    if hub == node {
        return true;
    }
    routes.get(node).is_some()
}

/// The number of a second line of a customer, if a name is given.
fn number_of_second(
    part: Part,
    second: Option<&str>,
    own: &OwnNames<'_>,
) -> Result<Option<u16>, PlacedFault>
    ensures { result ≡ number_of_second part (own_line own.now.owners.now own.now.customer)
        (option_map (λ s. s.now) second.entry) }
{
    let Some(name) = second else {
        return Ok(None);
    };
    match own.line(name) {
        Some(number) => Ok(Some(number)),
        None => Err(part.fault_at(Key::Second, TableFault::UnknownLine)),
    }
}

/// A route of a customer by its own lines: the node and the lines' numbers.
#[tactic(auto, unfolding(crate::specs::Walk::route_by))]
fn route_by(
    part: Part,
    named: NamedRoute<'_>,
    own: &OwnNames<'_>,
    routes: &Routes,
) -> Result<(Name, RouteLines), PlacedFault>
    ensures walk { result_map_both route_entry (λ f. f) result
        ≡ route_by part own.now.hub (own_line own.now.owners.now own.now.customer) routes.now named.entry.node
        named.entry.line.now (option_map (λ s. s.now) named.entry.second) }
    ensures new { IfOk result (λ r. lines_to routes.now r.0 ≡ None) }
{
    let NamedRoute { node, line, second } = named;
    if is_routed(own.hub, routes, node) {
        return Err(part.fault_at(Key::Node, TableFault::DoubleNode));
    }
    let Some(line) = own.line(line) else {
        return Err(part.fault_at(Key::Line, TableFault::UnknownLine));
    };
    let second = number_of_second(part, second, own)?;
    Ok((node, RouteLines { line, second }))
}

/// The node of the next route and its lines' numbers.
#[tactic(auto, unfolding(crate::specs::Walk::next_route))]
fn next_route(
    part: Part,
    value: &Value,
    own: &OwnNames<'_>,
    routes: &Routes,
) -> Result<(Name, RouteLines), PlacedFault>
    ensures walk { result_map_both route_entry (λ f. f) result
        ≡ next_route part own.now.hub (own_line own.now.owners.now own.now.customer) routes.now (view value.now) }
    ensures new { IfOk result (λ r. lines_to routes.now r.0 ≡ None) }
{
    if routes.len() >= MAX_ROUTES {
        return Err(part.fault(TableFault::TooMany));
    }
    let keys = keys_in(value, part)?;
    let node = name_at(keys, part, Key::Node)?;
    let line = text_at(keys, part, Key::Line)?;
    let second = second_at(keys, part, Key::Second, line)?;
    let named = NamedRoute { node, line, second };
    route_by(part, named, own, routes)
}

pub(super) fn routes_in(
    alloc: Global,
    values: &[Value],
    customer: u16,
    hub: Name,
    owners: &Owners,
) -> Result<Routes, PlacedFault>
    ensures { Walks (λ r. r) result
        (routes_onto customer hub (own_line owners.now customer) [] (items_view values.now)) }
{
    let own = OwnNames {
        customer,
        hub,
        owners,
    };
    let mut routes = Routes::new(alloc);
    for value in values {
        let part = Part::Route(customer as usize, routes.len());
        let (node, lines) = next_route(part, value, &own, &routes)?;
        routes.insert(node, lines)?;
    }
    Ok(routes)
}
