//! The attendant's part in the rounds of a service.

ghost use Rattle.std.specs.Prelude.{◌≡◌};

use crate::bureau::Bureau;
use crate::revising::{revise, tell_routes};
use njh_command::Replies;
use njh_hub::{Hub, HubFault};
use njh_revision::TableSource;
use njh_turns::{Attendant, NewOrder, NewRoutes};
use njh_wire::{LineWire, Network};
use std::io::Write;

impl<N: Network + Drop, L: Write + Drop, S: TableSource + Drop> Attendant<LineWire<N::Connection>>
    for Bureau<N, L, S> {
    ghost use Rattle.std.specs.Prelude.{IsTrue};
    ghost use Rattle.njh_console.specs.Orders.{order_due};
    ghost use Rattle.njh_lines.specs.Attention.{watch_at};
    ghost use Rattle.njh_lines.specs.Watching.{HasNoted, IsToBePrompted};
    ghost use Rattle.njh_service.specs.Bureaus.{AwaitsAnswer, IsClosed, IsOpenedBy};

    // It noted the session of the line at a place as the step left it, and the frame that it sent.
    ghost saw = { λ bureau place parts frame. HasNoted bureau.exchange place parts frame };

    // An order that it brought is the one that its console gave.
    ghost stands = { λ bureau stage. AwaitsAnswer stage bureau.console.orders };

    // It ended what the operator ended.
    ghost ended = { λ bureau. IsTrue bureau.is_over };

    // Wires of lines that are looked at are visited.
    ghost visits = { λ bureau place. IsTrue (watch_at bureau.exchange.watches place).is_due };

    // As its exchange prompts.
    ghost wants = { λ bureau place parts. IsToBePrompted bureau.exchange place parts };

    // The order that waits at its console, if it isn't too late for it.
    ghost order = { λ bureau. order_due bureau.clock bureau.console.orders };

    ghost opens = { λ old wires new new_wires. IsOpenedBy old wires new new_wires };

    ghost closes = { λ old wires parts new new_wires. IsClosed S.Fault S.gives parts old new };

    /// The operator may end it.
    fn is_over(&self) -> bool {
        self.is_over()
    }

    fn before(&mut self, wires: &mut [LineWire<N::Connection>]) {
        self.begin_round(wires);
    }

    fn new_routes(&mut self) -> Option<NewRoutes> {
        revise(&mut self.revision, &mut self.exchange)
    }

    fn routes_given(&mut self, _hub: &Hub, new: &NewRoutes, answer: Result<(), HubFault>) {
        tell_routes(&mut self.revision, &mut self.exchange, new.customer, answer);
    }

    /// What the operator ordered in the round before: the order that waits.
    #[tactic(auto, using(crate::proofs::BureauLaws::awaits_what_was_given))]
    fn new_order(&mut self) -> Option<NewOrder> {
        self.new_order()
    }

    fn order_done(
        &mut self,
        _hub: &Hub,
        new: &NewOrder,
        answer: Result<(), HubFault>,
        replies: &Replies,
    ) {
        self.order_done(new, answer, replies);
    }

    fn is_due(&self, place: usize) -> bool {
        self.exchange.is_due(place)
    }

    fn prompts(&self, place: usize, hub: &Hub) -> bool {
        self.exchange.prompts(place, hub)
    }

    fn stepped(&mut self, place: usize, hub: &Hub, frame: &[u8]) {
        self.exchange.follow(place, hub, frame);
    }

    fn after(&mut self, hub: &Hub, wires: &mut [LineWire<N::Connection>]) {
        self.close_round(hub, wires);
    }
}
