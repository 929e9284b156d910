//! What the console tells of.

ghost use Rattle.std.specs.Prelude.{◌≡◌};

use circular_buffer::HeapCircularBuffer;
use njh_answer::{LineView, OrderRecord, ServiceView, Views};
use njh_arrivals::Arrivals;
use njh_hub::Hub;
use njh_table::Tables;
use std::marker::Model;

/// The hub, and what its service knows, at a moment.
#[derive(Drop)]
pub struct Situation<'a> {
    hub: &'a Hub,
    tables: &'a Tables,
    service: &'a ServiceView,
    lines: &'a [LineView],
    arrivals: &'a Arrivals,
}

impl<'a> Model for Situation<'a> {
    ghost use Rattle.njh_console.specs.Scenes.{Scene};

    ghost Value = { Scene };

    ghost view = { λ situation. record {
      parts = situation.hub.now;
      tables = situation.tables.now;
      service = situation.service.now;
      lines = situation.lines.now;
      arrivals = situation.arrivals.now;
    } };
}

impl<'a> Situation<'a> {
    /// The hub, its tables, what the service knows of itself, what it knows of its lines, and when
    /// it saw files come.
    pub fn new(
        hub: &'a Hub,
        tables: &'a Tables,
        service: &'a ServiceView,
        lines: &'a [LineView],
        arrivals: &'a Arrivals,
    ) -> Situation<'a>
        ensures parts { result.parts ≡ hub.now }
        ensures tables { result.tables ≡ tables.now }
        ensures service { result.service ≡ service.now }
        ensures lines { result.lines ≡ lines.now }
        ensures arrivals { result.arrivals ≡ arrivals.now }
    {
        Situation {
            hub,
            tables,
            service,
            lines,
            arrivals,
        }
    }

    /// The tables.
    pub(crate) fn tables(&self) -> &Tables
        ensures { result.now ≡ self.now.tables }
    {
        self.tables
    }

    /// Since when the service runs.
    pub(crate) fn since(&self) -> u64
        ensures { result ≡ self.now.service.since }
    {
        self.service.since
    }

    /// The same, with the orders that are remembered and the number of the next one.
    pub(crate) fn with_orders(
        &self,
        orders: &'a HeapCircularBuffer<OrderRecord>,
        next: u64,
    ) -> Views<'a>
        ensures parts { result.hub.now ≡ self.now.parts }
        ensures tables { result.tables.now ≡ self.now.tables }
        ensures service { result.service.now ≡ self.now.service }
        ensures lines { result.lines.now ≡ self.now.lines }
        ensures arrivals { result.arrivals.now ≡ self.now.arrivals }
        ensures orders { result.orders.now.items ≡ orders.now.items }
        ensures next { result.next ≡ next }
    {
        Views {
            hub: self.hub,
            tables: self.tables,
            service: self.service,
            lines: self.lines,
            arrivals: self.arrivals,
            orders,
            next,
        }
    }
}
