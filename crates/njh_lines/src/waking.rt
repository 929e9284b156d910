//! Lines to which other lines of their customers gave something to send.

ghost use Rattle.std.specs.Prelude.{◌≡◌, ◌≢◌, ◌↔◌, ℕ, ◌<◌, ◌≤◌, length};
ghost use Rattle.std.specs.Prelude.{◌&&◌, slice_get, IsTrue};
ghost use Rattle.njh_hub.specs.Resting.{HasNext};
ghost use Rattle.njh_sight.specs.Prompting.{may_prompt};
ghost use Rattle.njh_lines.specs.Attention.{watch_at, AreCalled};
ghost use Rattle.njh_lines.specs.Resting.{AreServedBy, AreWoken, IsLinesMoment, IsServedBy, WaitsForFirst};
ghost use Rattle.njh_lines.specs.Watching.{IsToBeWoken};

use crate::attention::call_group;
use crate::exchange::Exchange;
use njh_hub::Hub;
use njh_sight::{CUSTOMERS, Row, Traffic};
use njh_table::LineId;
use njh_wire::Network;
use std::io::Write;

/// Of each customer on whose lines something came, or that was given routes, has those lines
/// looked at in the next round that rest and have something to send. A customer of many lines
/// and files waits a while between two such looks, so that others don't wait for them.
pub(crate) fn wake<N: Network + Drop, L: Write + Drop>(exchange: &mut Exchange<N, L>, hub: &Hub)
    ensures lines { exchange.new.lines ≡ exchange.old.lines }
    ensures noted { exchange.new.noted ≡ exchange.old.noted }
    ensures now { exchange.new.now ≡ exchange.old.now }
    ensures calls { AreWoken exchange.old hub.now exchange.new.watches }
    ensures waits { IsLinesMoment exchange.old exchange.old.next → WaitsForFirst exchange.new }
    ensures woken { AreServedBy exchange.old hub.now 64 exchange.new.watches }
{
    for customer in 0..CUSTOMERS {
        wake_customer(exchange, customer, hub);
    }
    exchange.next = exchange.next.min(exchange.surroundings.customers.moment());
}

/// Has those lines of this customer looked at in the next round that rest and have something to
/// send, if one of its lines may by now.
fn wake_customer<N: Network + Drop, L: Write + Drop>(
    exchange: &mut Exchange<N, L>,
    customer: usize,
    hub: &Hub,
)
    ensures lines { exchange.new.lines ≡ exchange.old.lines }
    ensures noted { exchange.new.noted ≡ exchange.old.noted }
    ensures now { exchange.new.now ≡ exchange.old.now }
    ensures calls { AreWoken exchange.old hub.now exchange.new.watches }
    ensures waits { IsLinesMoment exchange.old exchange.old.next → IsLinesMoment exchange.new exchange.new.next }
    ensures woken { IsServedBy exchange.old hub.now customer exchange.new.watches }
    ensures others { (other : ℕ) → other ≢ customer →
        slice_get exchange.new.customers other ≡ slice_get exchange.old.customers other }
{
    let now = exchange.surroundings.now;
    let Some(row) = exchange.surroundings.customers.wanted(customer, now) else {
        return;
    };
    let files = hub.file_count(row.customer);
    exchange.surroundings.customers.look(customer, now, files);
    let held = wake_row(exchange, row, hub);
    exchange.surroundings.customers.look_again(customer, held);
}

/// Has those lines of a customer looked at in the next round that rest and have something to
/// send. Answers when one may be asked again that may not be asked now; `u64::MAX` if there is
/// none.
fn wake_row<N: Network + Drop, L: Write + Drop>(
    exchange: &mut Exchange<N, L>,
    row: Row,
    hub: &Hub,
) -> u64
    ensures lines { exchange.new.lines ≡ exchange.old.lines }
    ensures noted { exchange.new.noted ≡ exchange.old.noted }
    ensures customers { exchange.new.customers ≡ exchange.old.customers }
    ensures now { exchange.new.now ≡ exchange.old.now }
    ensures calls { AreWoken exchange.old hub.now exchange.new.watches }
    ensures waits { IsLinesMoment exchange.old exchange.old.next → IsLinesMoment exchange.new exchange.new.next }
    ensures woken { (place : ℕ) → row.first ≤ place → place < row.end →
        IsToBeWoken exchange.old place row.customer hub.now →
        (watch_at exchange.new.watches place).moment ≤ exchange.old.now }
{
    let mut held = u64::MAX;
    for place in row.first..row.end {
        wake_at(exchange, place, row.customer, hub);
        held = held.min(held_until(exchange, place));
    }
    held
}

/// Has the line at this place looked at in the next round, if it is this customer's, rests and has
/// something to send.
fn wake_at<N: Network + Drop, L: Write + Drop>(
    exchange: &mut Exchange<N, L>,
    place: usize,
    customer: u16,
    hub: &Hub,
)
    ensures lines { exchange.new.lines ≡ exchange.old.lines }
    ensures noted { exchange.new.noted ≡ exchange.old.noted }
    ensures now { exchange.new.now ≡ exchange.old.now }
    ensures customers { exchange.new.customers ≡ exchange.old.customers }
    ensures calls { AreWoken exchange.old hub.now exchange.new.watches }
    ensures waits { IsLinesMoment exchange.old exchange.old.next → IsLinesMoment exchange.new exchange.new.next }
    ensures woken { IsToBeWoken exchange.old place customer hub.now →
        (watch_at exchange.new.watches place).moment ≤ exchange.old.now }
{
    if is_wanted(exchange, place, customer, hub) {
        call(exchange, place);
    }
}

/// Until when the line at this place isn't asked for what it has to send.
fn held_until<N: Network + Drop, L: Write + Drop>(exchange: &Exchange<N, L>, place: usize) -> u64 {
    match exchange.posts.get(place) {
        Some(post) => post.traffic.held_until(exchange.surroundings.now),
        None => u64::MAX,
    }
}

/// Whether the line at this place is one of this customer's that rests and has something to
/// send.
fn is_wanted<N: Network + Drop, L: Write + Drop>(
    exchange: &Exchange<N, L>,
    place: usize,
    customer: u16,
    hub: &Hub,
) -> bool
    ensures { IsTrue result ↔ IsToBeWoken exchange.now place customer hub.now }
{
    let Some(post) = exchange.posts.get(place) else {
        return false;
    };
    wakes(
        &post.traffic,
        hub,
        post.line,
        customer,
        exchange.surroundings.now,
    )
}

/// Whether a line is this customer's, and is to be visited at once.
fn wakes(traffic: &Traffic, hub: &Hub, line: LineId, customer: u16, now: u64) -> bool
    ensures { IsTrue result ↔ ((line.customer ≡ customer)
        × (IsTrue (traffic.now.seen.rests && may_prompt traffic.now now) × HasNext hub.now line)) }
{
    line.customer == customer && traffic.wakes(hub, line, now)
}

/// A line is looked at in the next round, which doesn't wait.
pub(crate) fn call<N: Network + Drop, L: Write + Drop>(exchange: &mut Exchange<N, L>, place: usize)
    ensures lines { exchange.new.lines ≡ exchange.old.lines }
    ensures noted { exchange.new.noted ≡ exchange.old.noted }
    ensures now { exchange.new.now ≡ exchange.old.now }
    ensures customers { exchange.new.customers ≡ exchange.old.customers }
    ensures calls { AreCalled exchange.old.now exchange.old.watches exchange.new.watches }
    ensures others { (other : ℕ) → other ≢ place →
        watch_at exchange.new.watches other ≡ watch_at exchange.old.watches other }
    ensures waits { IsLinesMoment exchange.old exchange.old.next → IsLinesMoment exchange.new exchange.new.next }
    ensures called { place < length exchange.old.lines →
        (watch_at exchange.new.watches place).moment ≤ exchange.old.now }
{
    let now = exchange.surroundings.now;
    if exchange.watches.len() <= place {
        return;
    }
    exchange.watches[place].call(now);
    call_group(&mut exchange.groups, place, now);
    exchange.next = exchange.next.min(now);
}
