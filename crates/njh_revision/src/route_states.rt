//! Which customers have the routes of the tables that were last taken.

ghost use Rattle.std.specs.Prelude.{◌≡◌, ◌<◌, false, length};
ghost use Rattle.njh_revision.specs.Giving.{state_after, state_given, HaveRoutes, IsFirstWaiting};
ghost use Rattle.njh_revision.specs.Revisions.{AgreesAt, HasRoutesOf};
ghost use Rattle.njh_revision.specs.declared.route_states.RouteState.TheVariants.{Has};

use crate::customer_routes::have_other_routes;
use crate::difference::customer_difference;
use crate::known::Known;
use njh_table::Tables;

/// Whether a customer has the routes of the tables that were last taken.
#[derive(Clone, Copy, Debug, Drop, PartialEq, Eq)]
pub(crate) enum RouteState {
    /// It has them.
    Has,
    /// It is to be given them.
    Waits,
    /// They could not be given.
    Lacks,
    /// More than its routes differs from what the hub has. It keeps those that it has.
    Apart,
}

/// Whether the entry of a customer isn't what it was when the hub was opened, its routes aside.
pub(crate) fn is_apart(customer: u16, opened: &Tables, tables: &Tables) -> bool
    ensures there { result ≡ false → customer < length tables.now.customers }
    ensures agrees { result ≡ false → AgreesAt customer opened.now tables.now }
{
    let place = usize::from(customer);
    if place >= opened.customers().len() || place >= tables.customers().len() {
        return true;
    }
    customer_difference(opened.customer(customer), tables.customer(customer)).is_some()
}

/// The first customer from a place on that waits for routes.
pub(crate) fn first_waiting(route_states: &[RouteState], from: usize) -> Option<usize>
    ensures { IsFirstWaiting route_states.now from result }
{
    for place in from..route_states.len() {
        if route_states[place] == RouteState::Waits {
            return Some(place);
        }
    }
    None
}

/// How a customer is once there are new tables, in which it is apart or isn't, and in which its
/// routes differ or don't.
fn state_after(state: RouteState, apart: bool, differs: bool) -> RouteState
    ensures { result ≡ state_after state apart differs }
{
    if apart {
        RouteState::Apart
    } else if state != RouteState::Has || differs {
        RouteState::Waits
    } else {
        RouteState::Has
    }
}

/// How a customer is once its routes were given, or couldn't be.
pub(crate) fn state_given(given: bool) -> RouteState
    ensures { result ≡ state_given given }
{
    if given {
        RouteState::Has
    } else {
        RouteState::Lacks
    }
}

/// Whether new tables have routes for a customer that it is to be given.
pub(crate) fn will_wait(route_states: &[RouteState], known: &Known, tables: &Tables) -> bool {
    for place in 0..route_states.len() {
        if state_in(route_states[place], place, known, tables) == RouteState::Waits {
            return true;
        }
    }
    false
}

/// Marks each customer that is to be given its routes of new tables.
pub(crate) fn mark(route_states: &mut [RouteState], known: &Known, tables: &Tables)
    ensures { HaveRoutes known.now.last tables.now route_states.old route_states.new }
{
    for place in 0..route_states.len() {
        route_states[place] = state_in(route_states[place], place, known, tables);
    }
}

/// How the customer of a place is in new tables: if it has its routes these are what it was given.
pub(crate) fn state_in(
    state: RouteState,
    place: usize,
    known: &Known,
    tables: &Tables,
) -> RouteState
    ensures routes { result ≡ Has → (state ≡ Has) × HasRoutesOf place known.now.last tables.now }
    ensures agrees { result ≡ Has → AgreesAt place known.now.opened tables.now }
{
    let Ok(customer) = u16::try_from(place) else {
        return RouteState::Apart;
    };
    let apart = is_apart(customer, &known.opened, tables);
    state_after(state, apart, differ_at(place, known.last(), tables))
}

/// Whether the customer of a place has other routes in new tables.
fn differ_at(place: usize, tables: &Tables, new: &Tables) -> bool
    ensures { result ≡ false → HasRoutesOf place tables.now new.now }
{
    match (tables.customers().get(place), new.customers().get(place)) {
        (Some(customer), Some(other)) => have_other_routes(customer, other),
        _ => true,
    }
}
