//! What tables that were read bring a hub that runs, in sentences.

ghost use Rattle.std.specs.Prelude.{◌≡◌, ◌<◌, ◌≤◌, length, IfOk, OnOk};
ghost use Rattle.njh_revision.specs.News.{HasAllAt, HasAllOf};

use crate::difference::{Difference, customer_key, line_key, of_line, size_difference};
use crate::known::Known;
use crate::route_states::{RouteState, state_in};
use njh_table::{NamedCustomer, Tables};
use std::alloc::{AllocError, Global};

/// A sentence for each customer that is given routes by tables that were read, and for each of which
/// more differs what that is: the first of its own keys, and of each of its lines. If the capacity or
/// the number of customers differs nobody is given routes, and that alone is told. Nothing is told
/// only if the hub has all that they say, but for from where peers may connect. Out of memory is the
/// only refusal.
pub(crate) fn news_of(
    alloc: Global,
    known: &Known,
    route_states: &[RouteState],
    read: &Tables,
) -> Result<Vec<String>, AllocError>
    ensures { IfOk result (λ texts. length texts.items ≡ 0 → HasAllOf known.now read.now) }
{
    match size_difference(&known.opened, read) {
        Some(difference) => size_news(alloc, &difference),
        None => customers_news(alloc, known, route_states, read),
    }
}

/// That the capacity or the number of customers differs.
fn size_news(alloc: Global, difference: &Difference) -> Result<Vec<String>, AllocError>
    ensures { IfOk result (λ texts. 0 < length texts.items) }
{
    let text = format!(in alloc; "{difference}; the file waits for a restart")?;
    let mut texts = Vec::new(alloc);
    texts.push(text)?;
    Ok(texts)
}

/// What as many customers are brought.
fn customers_news(
    alloc: Global,
    known: &Known,
    route_states: &[RouteState],
    read: &Tables,
) -> Result<Vec<String>, AllocError>
    requires capacity { read.now.capacity ≡ known.now.opened.capacity }
    requires many { length read.now.customers ≡ length known.now.opened.customers }
    ensures { IfOk result (λ texts. length texts.items ≡ 0 → HasAllOf known.now read.now) }
{
    let mut texts = Vec::new(alloc);
    for place in 0..known.opened.customers().len() {
        let state = state_at(route_states, place);
        add_customer(alloc, known, state, read, place, &mut texts)?;
    }
    Ok(texts)
}

/// Whether the customer of a place has its routes.
fn state_at(route_states: &[RouteState], place: usize) -> RouteState {
    match route_states.get(place) {
        Some(state) => *state,
        None => RouteState::Apart,
    }
}

/// Adds what a customer is brought.
fn add_customer(
    alloc: Global,
    known: &Known,
    state: RouteState,
    read: &Tables,
    place: usize,
    texts: &mut Vec<String>,
) -> Result<(), AllocError>
    requires here { place < length known.now.opened.customers }
    requires there { place < length read.now.customers }
    ensures more { OnOk result (length texts.old.items ≤ length texts.new.items) }
    ensures silent { OnOk result (length texts.new.items ≡ 0 → HasAllAt place known.now read.now) }
{
    let own = &known.opened.customers()[place];
    match state_in(state, place, known, read) {
        RouteState::Has => Ok(()),
        RouteState::Waits => add_routes(alloc, own, texts),
        RouteState::Lacks | RouteState::Apart => {
            add_differences(alloc, own, &read.customers()[place], texts)
        }
    }
}

/// Adds that a customer is given routes.
fn add_routes(
    alloc: Global,
    customer: &NamedCustomer,
    texts: &mut Vec<String>,
) -> Result<(), AllocError>
    ensures { OnOk result (length texts.old.items < length texts.new.items) }
{
    let name = customer.name();
    texts.push(format!(in alloc; "{name}: new routes")?)?;
    Ok(())
}

/// Adds that more than routes differs of a customer, and what that is.
fn add_differences(
    alloc: Global,
    customer: &NamedCustomer,
    other: &NamedCustomer,
    texts: &mut Vec<String>,
) -> Result<(), AllocError>
    ensures { OnOk result (length texts.old.items < length texts.new.items) }
{
    let name = customer.name();
    texts.push(format!(in alloc; "{name}: its entry waits for a restart")?)?;
    if let Some(key) = customer_key(customer, other) {
        add_difference(alloc, &Difference::Customer(name, key), texts)?;
    }
    add_lines(alloc, customer, other, texts)
}

/// Adds what differs of the lines that both have.
fn add_lines(
    alloc: Global,
    customer: &NamedCustomer,
    other: &NamedCustomer,
    texts: &mut Vec<String>,
) -> Result<(), AllocError>
    ensures { OnOk result (length texts.old.items ≤ length texts.new.items) }
{
    let (lines, others) = (customer.lines(), other.lines());
    for place in 0..lines.len().min(others.len()) {
        if let Some(key) = line_key(&lines[place], &others[place]) {
            let difference = of_line(customer.name(), &lines[place], key);
            add_difference(alloc, &difference, texts)?;
        }
    }
    Ok(())
}

/// Adds what differs.
fn add_difference(
    alloc: Global,
    difference: &Difference,
    texts: &mut Vec<String>,
) -> Result<(), AllocError>
    ensures { OnOk result (length texts.old.items < length texts.new.items) }
{
    texts.push(format!(in alloc; "{difference}")?)?;
    Ok(())
}
