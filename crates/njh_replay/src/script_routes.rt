//! The line of a script that gives a customer routes.

ghost use Rattle.std.specs.Prelude.{◌≡◌, ◌<◌, ◌==◌, ◌∷◌, length, option_map, position, bytes_eq, IfOk, IfSome};
ghost use Rattle.std.specs.List.{slice_split};
ghost use Rattle.njh_replay.specs.FirstParts.{parts_behind};
ghost use Rattle.njh_replay.specs.Script.{words_of};
ghost use Rattle.njh_replay.specs.ScriptRoutes.{customer_named, parts_of_pair, routes_for, route_of_pair, route_by};
ghost use Rattle.njh_replay.specs.ScriptRoutes.{route_by_lines, event_of_routes, routes_of_pairs, second_by};
ghost use Rattle.njh_replay.specs.ScriptRoutes.{IsNamedIn};

use njh_ebcdic::Name;
use njh_hub::{Event, GivenRoutes};
use njh_table::{GivenRoute, LineId, NamedCustomer, Tables};
use std::alloc::{AllocError, Global};

/// The event of the words after `ROUTES`, if they have one: a customer's name and then a pair for
/// each route, which the customer may have all together. Out of memory is the only refusal.
pub fn event_of_routes(
    alloc: Global,
    tables: &Tables,
    words: &str,
) -> Result<Option<Event>, AllocError>
    ensures event { IfOk result (λ event. event ≡ event_of_routes tables.now (words_of words.now)) }
    ensures named { IfOk result (λ event. IfSome event (IsNamedIn tables.now)) }
{
    let (name, pairs) = first_part(words, ' ');
    let Some(customer) = customer_named(tables, name) else {
        return Ok(None);
    };
    match routes_of_pairs(alloc, tables, pairs)? {
        Some(routes) => routes_for(alloc, tables, customer, &routes),
        None => Ok(None),
    }
}

/// The event that a customer is given routes, if it may have them.
fn routes_for(
    alloc: Global,
    tables: &Tables,
    customer: u16,
    routes: &[GivenRoute],
) -> Result<Option<Event>, AllocError>
    requires { customer < length tables.now.customers }
    ensures event { IfOk result (λ event. event ≡ routes_for tables.now customer routes.now) }
    ensures named { IfOk result (λ event. IfSome event (IsNamedIn tables.now)) }
{
    match tables.check_routes(customer, routes) {
        Ok(()) => Ok(Some(Event::Routes(customer, GivenRoutes::of(alloc, routes)?))),
        Err(_) => Ok(None),
    }
}

/// The number of the customer that a word names.
pub fn customer_named(tables: &Tables, word: &str) -> Option<u16>
    ensures number { result ≡ customer_named tables.now word.now }
    ensures known { IfSome result (λ customer. customer < length tables.now.customers) }
{
    let name = Name::of_text(word).ok()?;
    let place = place_of(tables.customers(), name)?;
    Some(place as u16)
}

/// The place of the first customer of a name.
fn place_of(customers: &[NamedCustomer], name: Name) -> Option<usize>
    ensures place { result ≡ position (λ c. bytes_eq name c.name) customers.now }
    ensures within { IfSome result (λ place. place < length customers.now) }
{
    customers
        .iter()
        .position(|customer| is_named(customer, name))
}

fn is_named(customer: &NamedCustomer, name: Name) -> bool
    ensures { result ≡ bytes_eq name customer.now.name }
{
    name == customer.name()
}

/// The routes of pairs, if each is one.
pub fn routes_of_pairs(
    alloc: Global,
    tables: &Tables,
    pairs: Option<&str>,
) -> Result<Option<Vec<GivenRoute>>, AllocError>
    ensures { IfOk result (λ routes. option_map (λ r. r.items) routes
        ≡ routes_of_pairs tables.now (parts_behind 32 pairs.entry)) }
{
    let mut routes = Vec::new(alloc);
    let mut left = pairs;
    while let Some(text) = left {
        let (pair, behind) = first_part(text, ' ');
        match route_of_pair(tables, pair) {
            Some(route) => routes.push(route)?,
            None => return Ok(None),
        }
        left = behind;
    }
    Ok(Some(routes))
}

/// The route of a pair: a node, a colon and the name of a line, and another colon and the name of a
/// second line if it has one.
fn route_of_pair(tables: &Tables, pair: &str) -> Option<GivenRoute>
    ensures { result ≡ route_of_pair tables.now pair.now }
{
    let (node, lines) = first_part(pair, ':');
    route_by_lines(tables, node, lines?)
}

/// The route of a node and of the names of its lines: one, or two with a colon between them.
fn route_by_lines(tables: &Tables, node: &str, lines: &str) -> Option<GivenRoute>
    ensures { result ≡ route_by_lines tables.now node.now (parts_of_pair lines.now) }
{
    let (line, behind) = first_part(lines, ':');
    let Some(behind) = behind else {
        return route_by(tables, node, line, None);
    };
    match first_part(behind, ':') {
        (second, None) => route_by(tables, node, line, Some(second)),
        (_, Some(_)) => None,
    }
}

/// The route of a node and the names of its lines, whoever's lines these are.
fn route_by(tables: &Tables, node: &str, line: &str, second: Option<&str>) -> Option<GivenRoute>
    ensures { result ≡ route_by tables.now node.now line.now (option_map (λ name. name.now) second.entry) }
{
    let node = Name::of_text(node).ok()?;
    let id = tables.line_owner(line)?;
    let second = second_by(tables, second)?;
    Some(GivenRoute {
        node,
        line: id,
        second,
    })
}

/// The second line of a route by its name, whoever's it is; none if no name is given.
fn second_by(tables: &Tables, second: Option<&str>) -> Option<Option<LineId>>
    ensures { result ≡ second_by tables.now (option_map (λ name. name.now) second.entry) }
{
    match second {
        None => Some(None),
        Some(name) => {
            let id = tables.line_owner(name)?;
            Some(Some(id))
        }
    }
}

/// What comes before the first separator in a text, or all; and what comes after that separator.
pub fn first_part(text: &str, separator: char) -> (&str, Option<&str>)
    requires { separator < 128 }
    ensures parts { slice_split (λ b. b == separator) text.now ≡ result.0.now ∷ parts_behind separator result.1 }
    ensures shorter { IfSome result.1 (λ behind. length behind.now < length text.now) }
{
    match text.split_once(separator) {
        Some((part, behind)) => (part, Some(behind)),
        None => (text, None),
    }
}
