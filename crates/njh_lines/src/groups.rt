//! Groups of lines: one in which nothing is ready or due costs a round one look.

ghost use Rattle.std.specs.Prelude.{◌≡◌, ℕ, ◌+◌, ◌*◌, ◌<◌, ◌≤◌, ◌↔◌, length, min, IsTrue};
ghost use Rattle.njh_turns.specs.Service.{AreStill};
ghost use Rattle.njh_wire.specs.Tally.{IsTallied};
ghost use Rattle.njh_lines.specs.Attention.{mark_at, watch_at, IsAnyMarked, IsInGroup};
ghost use Rattle.njh_lines.specs.Resting.{HaveRested, IsMomentIn};
ghost use Rattle.njh_lines.specs.Watching.{HasBegun, HaveBegun};
ghost use Rattle.njh_lines.specs.Wires.{AreHeld, AreMadeSo, IsDone};

use crate::attention::{AT_ONCE, Watch, first_moment, is_any_due, is_any_marked, places_of};
use crate::exchange::Exchange;
use njh_hub::Hub;
use njh_wire::{LineWire, Network};
use std::io::Write;

/// Looks at each line of which something is ready, or whose moment came.
pub(crate) fn begin_groups<N: Network + Drop, L: Write + Drop>(
    exchange: &mut Exchange<N, L>,
    wires: &mut [LineWire<N::Connection>],
)
    ensures still { AreStill IsTallied (λ wire. wire.failures) wires.old wires.new }
    ensures lines { exchange.new.lines ≡ exchange.old.lines }
    ensures now { exchange.new.now ≡ exchange.old.now }
    ensures customers { exchange.new.customers ≡ exchange.old.customers }
    ensures begun { (place : ℕ) → place < min (length exchange.old.lines) (length wires.old) →
        HasBegun exchange.old.now (mark_at exchange.old.ready place) (mark_at exchange.new.ready place)
        (watch_at exchange.old.watches place) (watch_at exchange.new.watches place) }
    ensures held { AreHeld 0 (length wires.old) exchange.old.lines exchange.new.watches wires.old wires.new }
{
    for group in 0..exchange.groups.len() {
        begin_group(exchange, group, wires);
    }
}

/// Looks at the lines of a group, if something of one is ready or the moment of one came.
fn begin_group<N: Network + Drop, L: Write + Drop>(
    exchange: &mut Exchange<N, L>,
    group: usize,
    wires: &mut [LineWire<N::Connection>],
)
    ensures still { AreStill IsTallied (λ wire. wire.failures) wires.old wires.new }
    ensures lines { exchange.new.lines ≡ exchange.old.lines }
    ensures now { exchange.new.now ≡ exchange.old.now }
    ensures customers { exchange.new.customers ≡ exchange.old.customers }
    ensures begun { HaveBegun exchange.old.now (min (16 * group) (length wires.old))
        (min (16 * group + 16) (length wires.old)) exchange.old.ready exchange.new.ready exchange.old.watches
        exchange.new.watches }
    ensures held { AreHeld (16 * group) (16 * group + 16) exchange.old.lines exchange.new.watches wires.old wires.new }
{
    if !wakes(exchange, group) {
        return;
    }
    let (first, end) = places_of(group, wires.len());
    for place in first..end {
        exchange.begin(place, &mut wires[place]);
    }
}

/// Ends a group's round, if one of its lines was looked at. Answers when one wants to be next.
pub(crate) fn end_group<N: Network + Drop, L: Write + Drop>(
    exchange: &mut Exchange<N, L>,
    group: usize,
    hub: &Hub,
    wires: &mut [LineWire<N::Connection>],
) -> u64
    ensures still { AreStill IsTallied (λ wire. wire.failures) wires.old wires.new }
    ensures lines { exchange.new.lines ≡ exchange.old.lines }
    ensures now { exchange.new.now ≡ exchange.old.now }
    ensures first { (place : ℕ) → IsInGroup place group → place < length exchange.new.lines →
        result ≤ (watch_at exchange.new.watches place).moment }
    ensures wanted { IsMomentIn group exchange.new result }
    ensures rested { HaveRested (16 * group) (16 * group + 16) exchange.old exchange.new wires.new }
    ensures done { AreMadeSo (λ place s new. IsDone N.Connection.moved exchange.old hub.now place s new)
        (length exchange.old.lines) (16 * group) (16 * group + 16) exchange.old.watches wires.old wires.new }
{
    let watch = watch_of(exchange, group);
    if !watch.is_due {
        return watch.moment;
    }
    let (first, end) = places_of(group, wires.len());
    for place in first..end {
        exchange.end(place, hub, &mut wires[place]);
    }
    rest_group(exchange, group)
}

/// Whether the lines of a group are gone through: something of one is ready, the moment of one
/// came, or one is looked at from before.
fn wakes<N: Network + Drop, L: Write + Drop>(exchange: &Exchange<N, L>, group: usize) -> bool
    ensures idle { ¬ IsTrue result → (place : ℕ) → IsInGroup place group → HasBegun exchange.now.now
        (mark_at exchange.now.ready place) (mark_at exchange.now.ready place) (watch_at exchange.now.watches place)
        (watch_at exchange.now.watches place) }
    ensures none { ¬ IsTrue result → (place : ℕ) → IsInGroup place group → place < length exchange.now.lines →
        ¬ IsTrue (watch_at exchange.now.watches place).is_due }
{
    let is_ready = is_ready(exchange, group);
    if exchange.groups.len() <= group {
        return true;
    }
    exchange.groups[group].wakes(is_ready, exchange.surroundings.now)
}

/// Whether something of a group's lines is ready.
fn is_ready<N: Network + Drop, L: Write + Drop>(exchange: &Exchange<N, L>, group: usize) -> bool
    ensures { IsTrue result ↔ IsAnyMarked exchange.now.ready (16 * group) (16 * group + 16) }
{
    let (first, end) = places_of(group, exchange.ready.len());
    is_any_marked(&exchange.ready, first, end)
}

/// When a group is looked at.
fn watch_of<N: Network + Drop, L: Write + Drop>(exchange: &Exchange<N, L>, group: usize) -> Watch
    ensures first { (place : ℕ) → IsInGroup place group → place < length exchange.now.lines →
        result.moment ≤ (watch_at exchange.now.watches place).moment }
    ensures due { (place : ℕ) → IsInGroup place group → place < length exchange.now.lines →
        IsTrue (watch_at exchange.now.watches place).is_due → IsTrue result.is_due }
    ensures wanted { ¬ IsTrue result.is_due → IsMomentIn group exchange.now result.moment }
{
    if exchange.groups.len() <= group {
        return AT_ONCE;
    }
    exchange.groups[group]
}

/// A group is looked at next when the first of its lines wants to be. Answers when.
fn rest_group<N: Network + Drop, L: Write + Drop>(
    exchange: &mut Exchange<N, L>,
    group: usize,
) -> u64
    ensures same { exchange.new ≡ exchange.old }
    ensures first { (place : ℕ) → IsInGroup place group → place < length exchange.new.lines →
        result ≤ (watch_at exchange.new.watches place).moment }
    ensures wanted { IsMomentIn group exchange.new result }
{
    let (first, end) = places_of(group, exchange.watches.len());
    let moment = first_moment(&exchange.watches, first, end);
    let is_due = is_any_due(&exchange.watches, first, end);
    if group < exchange.groups.len() {
        exchange.groups[group] = Watch { moment, is_due };
    }
    moment
}
