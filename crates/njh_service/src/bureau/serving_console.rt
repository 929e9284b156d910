//! The operator's console is served: one request at most is answered, and what was asked of the
//! service itself is done.

ghost use Rattle.std.specs.Prelude.{◌≡◌, map, IfOk, None, Some};
ghost use Rattle.njh_console.specs.Orders.{NoneIsOpen};
ghost use Rattle.njh_service.specs.Bureaus.{lines_told, stop_after, view_told};
ghost use Rattle.njh_service.specs.Bureaus.{IsActing, IsAsked, IsConsoleServed, IsObeyed};

use super::seconds_of;
use crate::bureau::Bureau;
use crate::line_clock::LineClock;
use crate::operator::{tell_astray, tell_giver, tell_refusal};
use crate::presence::spool_fault;
use crate::troubles::{Troubles, add_customers, add_intended, add_lines, add_own};
use crate::viewing::line_views;
use njh_answer::{LineView, ServiceView, Trouble};
use njh_console::{Act, Asked, Situation};
use njh_hub::Hub;
use njh_log::{LogEvent, Place};
use njh_presence::SpoolSeen;
use njh_request::EndMoment;
use njh_revision::TableSource;
use njh_wire::{LineWire, Network};
use std::alloc::AllocError;
use std::io::Write;

impl<N: Network + Drop, L: Write + Drop, S: TableSource + Drop> Bureau<N, L, S> {
    /// Answers at most one request of a visitor, writes to each visitor, reads tables or does itself
    /// what was asked of the service, and lets those go who leave.
    pub(crate) fn serve_console(&mut self, hub: &Hub, wires: &[LineWire<N::Connection>])
        requires { NoneIsOpen self.old.console.orders }
        ensures served { IsConsoleServed S.Fault S.gives hub.now self.old self.new }
        ensures given { self.new.console.orders.given ≡ None }
        ensures over { self.new.is_over ≡ self.old.is_over }
    {
        let now = self.exchange.now();
        let asked = self.answer(hub, wires);
        self.console.send();
        let left = self.read_tables(asked);
        let act = self.act(left);
        self.obey(act);
        let astray = self.console.let_go(now);
        tell_astray(&mut self.exchange, astray);
    }

    /// What the service is to do itself of what was asked. The log tells how a request was refused,
    /// and who gave an order.
    fn act(&mut self, asked: Asked) -> Option<Act>
        ensures acted { IsActing asked self.old self.new result }
        ensures exchange { self.new.exchange ≡ self.old.exchange }
        ensures stop { self.new.stop ≡ self.old.stop }
        ensures given { self.new.console.orders.given ≡ self.old.console.orders.given }
        ensures tables { self.new.tables ≡ self.old.tables }
        ensures presence { self.new.presence ≡ self.old.presence }
        ensures over { self.new.is_over ≡ self.old.is_over }
    {
        match asked {
            Asked::Nothing => None,
            Asked::Refused(why) => {
                tell_refusal(&mut self.exchange, why);
                None
            }
            Asked::Given(number, terms) => {
                tell_giver(&mut self.exchange, number, terms);
                None
            }
            Asked::Act(ticket, act) => {
                tell_giver(&mut self.exchange, ticket.number, ticket.terms);
                self.console.act(self.clock, ticket, act)
            }
            Asked::Tables(_) => None,
        }
    }

    /// Answers at most one request of a visitor, if there is one, and memory for what is to be told.
    fn answer(&mut self, hub: &Hub, wires: &[LineWire<N::Connection>]) -> Asked
        requires { NoneIsOpen self.old.console.orders }
        ensures same { IsObeyed None self.old self.new }
        ensures asked { IsAsked hub.now self.old self.new.console result }
        ensures clock { self.new.clock ≡ self.old.clock }
        ensures given { self.new.console.orders.given ≡ None }
        ensures tables { self.new.tables ≡ self.old.tables }
        ensures presence { self.new.presence ≡ self.old.presence }
        ensures over { self.new.is_over ≡ self.old.is_over }
    {
        if !self.console.has_request() {
            return Asked::Nothing;
        }
        match line_views(
            self.alloc,
            &mut self.exchange,
            self.revision.tables(),
            hub,
            wires,
        ) {
            Ok(lines) => self.answer_with(hub, wires, &lines),
            Err(_) => Asked::Nothing,
        }
    }

    /// Answers at most one request of a visitor, by these lines, if there is memory for what is to
    /// be told of the service.
    fn answer_with(
        &mut self,
        hub: &Hub,
        wires: &[LineWire<N::Connection>],
        lines: &[LineView],
    ) -> Asked
        requires told { map view_told lines.now
            ≡ lines_told self.old.exchange.lines self.old.exchange.steps self.old.exchange.tallies }
        requires none { NoneIsOpen self.old.console.orders }
        ensures same { IsObeyed None self.old self.new }
        ensures asked { IsAsked hub.now self.old self.new.console result }
        ensures clock { self.new.clock ≡ self.old.clock }
        ensures given { self.new.console.orders.given ≡ None }
        ensures tables { self.new.tables ≡ self.old.tables }
        ensures presence { self.new.presence ≡ self.old.presence }
        ensures over { self.new.is_over ≡ self.old.is_over }
    {
        match self.service_view(hub, wires) {
            Ok(service) => self.answer_by(hub, &service, lines),
            Err(_) => Asked::Nothing,
        }
    }

    /// What is told of the service, and that it is to end if that was ordered. Out of memory is the
    /// only refusal.
    fn service_view(
        &self,
        hub: &Hub,
        wires: &[LineWire<N::Connection>],
    ) -> Result<ServiceView, AllocError>
        ensures { IfOk result (λ view. view.clock ≡ self.now.clock) }
    {
        let alloc = self.alloc;
        let version = self.version;
        let version = format!(in alloc; "{version}")?;
        let troubles = self.troubles(hub, wires)?;
        let intended = self.intended()?;
        let seen = self.revision.seen();
        Ok(ServiceView {
            version,
            since: seconds_of(self.since),
            clock: self.clock,
            file_bytes: bytes_of(seen),
            log_bytes: log_bytes_of(seen),
            troubles,
            intended,
        })
    }

    /// What is wrong now. Out of memory is the only refusal.
    fn troubles(
        &self,
        hub: &Hub,
        wires: &[LineWire<N::Connection>],
    ) -> Result<Vec<Trouble>, AllocError> {
        let mut found = Troubles::new(self.alloc, self.line_clock());
        if let Some(event) = spool_fault(&self.presence) {
            found.add("", event, self.wrong.spool)?;
        }
        add_own(
            &self.revision,
            &self.wrong,
            self.exchange.dropped(),
            &mut found,
        )?;
        add_customers(&self.exchange, &self.revision, &self.wrong, hub, &mut found)?;
        add_lines(&self.exchange, hub, wires, &mut found)?;
        found.told()
    }

    /// What isn't as the table file has it, since the operator wants it so. Out of memory is the
    /// only refusal.
    fn intended(&self) -> Result<Vec<Trouble>, AllocError> {
        let mut found = Troubles::new(self.alloc, self.line_clock());
        if let Some(moment) = self.stop {
            let event = LogEvent::ServiceEnds(moment);
            found.add("", event, Some(self.stop_since))?;
        }
        add_intended(&self.exchange, &mut found)?;
        found.told()
    }

    /// The service's clock as the round began, beside that of the world.
    fn line_clock(&self) -> LineClock {
        LineClock {
            now: self.exchange.now(),
            utc: self.utc,
        }
    }

    /// Answers at most one request of a visitor.
    fn answer_by(&mut self, hub: &Hub, service: &ServiceView, lines: &[LineView]) -> Asked
        requires told { map view_told lines.now
            ≡ lines_told self.old.exchange.lines self.old.exchange.steps self.old.exchange.tallies }
        requires clock { service.now.clock ≡ self.old.clock }
        requires none { NoneIsOpen self.old.console.orders }
        ensures same { IsObeyed None self.old self.new }
        ensures asked { IsAsked hub.now self.old self.new.console result }
        ensures clock { self.new.clock ≡ self.old.clock }
        ensures given { self.new.console.orders.given ≡ None }
        ensures tables { self.new.tables ≡ self.old.tables }
        ensures presence { self.new.presence ≡ self.old.presence }
        ensures over { self.new.is_over ≡ self.old.is_over }
    {
        let Some(tables) = self.revision.tables() else {
            return Asked::Nothing;
        };
        let now = self.exchange.now();
        let arrivals = self.exchange.arrivals();
        let situation = Situation::new(hub, tables, service, lines, arrivals);
        self.console.serve(now, &situation)
    }

    /// Does what was ordered of the service itself.
    fn obey(&mut self, act: Option<Act>)
        ensures obeyed { IsObeyed act self.old self.new }
        ensures console { self.new.console ≡ self.old.console }
        ensures tables { self.new.tables ≡ self.old.tables }
        ensures presence { self.new.presence ≡ self.old.presence }
        ensures over { self.new.is_over ≡ self.old.is_over }
    {
        match act {
            None => {}
            Some(Act::Line(id, wish)) => {
                self.drains = true;
                self.exchange.wish(id, wish);
            }
            Some(Act::Stop(moment)) => {
                self.exchange
                    .tell(Place::Hub, LogEvent::ServiceEnds(moment));
                self.stop = Some(stop_after(self.stop, moment));
                self.stop_since = self.clock;
            }
        }
    }
}

/// How many bytes the spool file has, if there is one.
fn bytes_of(seen: Option<SpoolSeen>) -> Option<u64> {
    Some(seen?.file?.size)
}

/// How many bytes its log has, if there is one.
fn log_bytes_of(seen: Option<SpoolSeen>) -> Option<u64> {
    Some(seen?.log?.size)
}

/// When the service is to end, once this was ordered.
fn stop_after(stop: Option<EndMoment>, moment: EndMoment) -> EndMoment
    ensures { Some result ≡ stop_after stop moment }
{
    match stop {
        Some(EndMoment::AtOnce) => EndMoment::AtOnce,
        _ => moment,
    }
}
