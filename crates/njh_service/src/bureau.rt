//! The attendant of a service: its lines, and the operator's console.

ghost use Rattle.std.specs.Prelude.{◌≡◌, ◌++◌, ◌↔◌, is_ok, map, All, IfOk, IsTrue, None};
ghost use Rattle.njh_turns.specs.Service.{AreStill};
ghost use Rattle.njh_wire.specs.Tally.{IsTallied};
ghost use Rattle.njh_table.specs.TableFile.{HasLine};
ghost use Rattle.njh_console.specs.Orders.{order_due, with_order_given, IsOrderDone, NoneIsOpen};
ghost use Rattle.njh_sites.specs.Endpoints.{endpoints_of};
ghost use Rattle.njh_sites.specs.Opened.{IsApart};
ghost use Rattle.njh_sight.specs.Waking.{marked, IsRowMade};
ghost use Rattle.njh_lines.specs.LineStates.{line_settled, AreMade};
ghost use Rattle.njh_lines.specs.Watching.{served_on};
ghost use Rattle.njh_service.specs.Bureaus.{IsClosed, IsOpenedBy, IsOver};

mod serving_console;

use crate::fault::ServeFault;
use crate::open_lines::open_lines;
use crate::opened::tell_opened;
use crate::presence::{look_at_spool, presence_of};
use crate::ready::{Version, tell_ready, version_of};
use crate::revising::tell_unrouted;
use crate::wrong_since::WrongSince;
use njh_command::Replies;
use njh_console::Console;
use njh_hub::{Hub, HubFault};
use njh_lines::Exchange;
use njh_log::Log;
use njh_presence::Presence;
use njh_request::EndMoment;
use njh_revision::{Revision, TableSource};
use njh_sites::{Endpoint, Listening};
use njh_table::Tables;
use njh_turns::{Depot, NewOrder};
use njh_wire::{LineWire, Network};
use std::alloc::Global;
use std::io::Write;
use std::marker::Model;

/// How many visitors of the console are let in in a round at most.
const LET_IN: usize = 256;

/// What is done between the turns of a service's lines: what its exchange does with them, and what
/// the operator asks of it at the console.
#[derive(Drop)]
pub struct Bureau<N: Network + Drop, L: Write + Drop, S: TableSource + Drop> {
    pub(crate) alloc: Global,
    /// The version of the program, as the log tells it.
    version: Version,
    pub(crate) exchange: Exchange<N, L>,
    /// The tables, and where new ones come from.
    pub(crate) revision: Revision<S>,
    /// What is known of the spool file, if the hub's files are kept.
    presence: Option<Presence>,
    pub(crate) console: Console<N::Visitor>,
    /// Somebody may wait to be let in there.
    is_awaited: bool,
    /// The second that it was as the round began, since the beginning of 1970.
    pub(crate) clock: u64,
    /// The same in milliseconds.
    utc: u64,
    /// Whether a line may be one that is to be stopped once no file is on its streams.
    drains: bool,
    /// When the service is to end, if that was ordered.
    stop: Option<EndMoment>,
    /// Whether it ends now.
    is_over: bool,
    /// Since when it is to, in seconds since the beginning of 1970.
    stop_since: u64,
    /// What is wrong with the hub itself, since when.
    wrong: WrongSince,
    /// Since when there is a service, in milliseconds since the beginning of 1970.
    since: i64,
}

impl<N: Network + Drop, L: Write + Drop, S: TableSource + Drop> Model for Bureau<N, L, S> {
    ghost use Rattle.std.specs.Prelude.{◌≡◌, false};
    ghost use Rattle.njh_service.specs.Bureaus.{Attended};
    ghost use Rattle.njh_lines.specs.LineStates.{NoneDrains};

    ghost Value = { Attended N.Visitor };

    ghost view = { λ bureau. record {
      exchange = bureau.exchange;
      tables = bureau.revision;
      presence = bureau.presence;
      console = bureau.console;
      clock = bureau.clock;
      drains = bureau.drains;
      stop = bureau.stop;
      is_over = bureau.is_over;
    } };

    ghost invariant = { λ bureau. bureau.drains ≡ false → NoneDrains bureau.exchange.lines };
}

impl<N: Network + Drop, L: Write + Drop, S: TableSource + Drop> Bureau<N, L, S> {
    /// One of this version of the program, of these lines and tables, and this console. Nobody has
    /// ordered anything of it.
    pub fn new(
        alloc: Global,
        version: &str,
        mut exchange: Exchange<N, L>,
        revision: Revision<S>,
        console: Console<N::Visitor>,
    ) -> Bureau<N, L, S>
        ensures exchange { result.exchange ≡ exchange }
        ensures tables { result.tables ≡ revision }
        ensures console { result.console ≡ console }
        ensures stop { result.stop ≡ None }
    {
        let since = exchange.utc();
        let presence = presence_of(revision.seen());
        Bureau {
            alloc,
            version: version_of(version),
            exchange,
            revision,
            presence,
            console,
            is_awaited: false,
            clock: seconds_of(since),
            utc: milliseconds_of(since),
            drains: true,
            stop: None,
            is_over: false,
            stop_since: 0,
            wrong: WrongSince::nothing(seconds_of(since)),
            since,
        }
    }

    /// Its log, where it attends no more.
    pub(crate) fn into_log(self) -> Log<L> {
        let Bureau { exchange, .. } = self;
        exchange.into_log()
    }

    /// Opens the sockets of the lines of tables, as `open_lines` does.
    pub(crate) fn open_lines(
        &mut self,
        alloc: Global,
        tables: &Tables,
        listening: Listening,
        needed: bool,
    ) -> Result<Vec<Endpoint>, ServeFault>
        ensures all { IfOk result (λ endpoints. endpoints.items ≡ endpoints_of tables.now) }
        ensures known { IfOk result (λ endpoints. All (λ endpoint. HasLine tables.now endpoint.line) endpoints.items) }
        ensures apart { IfOk result (λ endpoints. IsApart endpoints.items) }
        ensures served { IfOk result (λ endpoints. self.new.exchange.lines
            ≡ self.old.exchange.lines ++ map (served_on tables.now listening.address) endpoints.items) }
    {
        self.drains = true;
        open_lines(&mut self.exchange, alloc, tables, listening, needed)
    }

    /// Knows of each file that a depot opened a hub with when it came, as far as the depot does.
    pub(crate) fn know_arrivals<D: Depot>(&mut self, depot: &D, hub: &Hub)
        ensures { self.new ≡ record self.old {
          exchange = record self.old.exchange { arrivals = self.new.exchange.arrivals };
        } }
    {
        self.exchange.know_arrivals(depot, hub);
    }

    /// Tells all that an operator is to know of what a depot opened.
    pub(crate) fn tell_opened<D: Depot>(&mut self, depot: &D)
        ensures { self.new ≡ self.old }
    {
        self.wrong.aside = tell_opened(&mut self.exchange, depot);
    }

    /// Tells that so many lines of a hub of so many customers are served.
    pub(crate) fn tell_ready(&mut self, customers: usize, lines: usize, hub: &Hub)
        ensures { self.new ≡ self.old }
    {
        tell_ready(&mut self.exchange, self.version, customers, lines, hub);
    }

    /// Whether the service ends now.
    pub(crate) fn is_over(&self) -> bool
        ensures { result ≡ self.now.is_over }
    {
        self.is_over
    }

    /// Waits until a line is ready or due, or the console has something to do, and looks at each
    /// that is. Visitors are let in, and what they sent is read.
    pub(crate) fn begin_round(&mut self, wires: &mut [LineWire<N::Connection>])
        ensures still { AreStill IsTallied (λ wire. wire.failures) wires.old wires.new }
        ensures opened { IsOpenedBy self.old wires.old self.new wires.new }
    {
        let until = self.moment();
        self.exchange.begin_round(until, wires);
        self.utc = milliseconds_of(self.exchange.utc());
        self.clock = self.utc / 1000;
        self.receive();
    }

    /// When the console, the end of the service, or a customer that waits for its routes wants a
    /// round.
    fn moment(&self) -> u64 {
        let now = self.exchange.now();
        match self.stop {
            Some(EndMoment::AtOnce) => now,
            _ if self.is_awaited || self.revision.is_awaited() => now,
            _ => self.console.moment(now),
        }
    }

    /// Lets in who waits, 256 at most, while there is room, and reads what each visitor sent.
    fn receive(&mut self)
        ensures exchange { self.new.exchange ≡ self.old.exchange }
        ensures tables { self.new.tables ≡ self.old.tables }
        ensures orders { self.new.console.orders ≡ self.old.console.orders }
        ensures stop { self.new.stop ≡ self.old.stop }
    {
        self.is_awaited = self.revision.tables().is_some();
        for _ in 0..LET_IN {
            if !self.let_in() {
                break;
            }
        }
        self.console.receive();
    }

    /// Lets a visitor in who waits, if there is room and there are tables to tell of. Answers whether
    /// one came in.
    fn let_in(&mut self) -> bool
        ensures exchange { self.new.exchange ≡ self.old.exchange }
        ensures tables { self.new.tables ≡ self.old.tables }
        ensures orders { self.new.console.orders ≡ self.old.console.orders }
        ensures stop { self.new.stop ≡ self.old.stop }
    {
        if !self.is_awaited || !self.console.has_room() {
            return false;
        }
        match self.exchange.visitor() {
            Some(visitor) => {
                self.console.admit(visitor, self.exchange.now());
                true
            }
            None => {
                self.is_awaited = false;
                false
            }
        }
    }

    /// Tells and notes what came of an order. By it the lines of the customer may have something to
    /// send.
    pub(crate) fn order_done(
        &mut self,
        new: &NewOrder,
        answer: Result<(), HubFault>,
        replies: &Replies,
    )
        ensures exchange { self.new.exchange ≡ record self.old.exchange { customers = self.new.exchange.customers } }
        ensures marks { IsTrue (is_ok answer) →
            IsRowMade new.now.customer marked self.old.exchange.customers self.new.exchange.customers }
        ensures none { ¬ IsTrue (is_ok answer) → self.new.exchange.customers ≡ self.old.exchange.customers }
        ensures tables { self.new.tables ≡ self.old.tables }
        ensures done { IsOrderDone answer replies.now self.old.console.orders self.new.console.orders }
        ensures given { self.new.console.orders.given ≡ None }
        ensures waiting { self.new.console.orders.waiting ≡ self.old.console.orders.waiting }
        ensures stop { self.new.stop ≡ self.old.stop }
    {
        self.exchange.note_order(new, answer, replies);
        self.console.order_done(answer, replies);
    }

    /// Comes after a round: tells which files have no route, and what is wrong with the spool file,
    /// ends the round, and serves the console.
    pub(crate) fn close_round(&mut self, hub: &Hub, wires: &mut [LineWire<N::Connection>])
        requires { NoneIsOpen self.old.console.orders }
        ensures still { AreStill IsTallied (λ wire. wire.failures) wires.old wires.new }
        ensures closed { IsClosed S.Fault S.gives hub.now self.old self.new }
    {
        tell_unrouted(&mut self.revision, &mut self.exchange, hub);
        look_at_spool(&mut self.presence, &self.revision, &mut self.exchange);
        self.exchange.note_queues(hub);
        let dropped = self.exchange.dropped();
        self.wrong
            .note(&self.revision, &self.presence, dropped, self.clock);
        self.end_round(hub, wires);
        self.serve_console(hub, wires);
    }

    /// Ends a round as `Exchange::end_round` does. Lines that are to be stopped once no file is on
    /// their streams are stopped if none is, and so the service ends if it is to.
    pub(crate) fn end_round(&mut self, hub: &Hub, wires: &mut [LineWire<N::Connection>])
        ensures still { AreStill IsTallied (λ wire. wire.failures) wires.old wires.new }
        ensures lines { AreMade (line_settled hub.now) self.old.exchange.lines self.new.exchange.lines }
        ensures over { IsTrue self.new.is_over ↔ IsOver self.old.stop hub.now self.new.exchange.lines }
        ensures presence { self.new.presence ≡ self.old.presence }
        ensures console { self.new.console ≡ self.old.console }
        ensures stop { self.new.stop ≡ self.old.stop }
    {
        self.exchange.end_round(hub, wires);
        self.settle(hub);
        self.is_over = self.ends(hub);
    }

    /// Lines that are to be stopped once no file is on their streams are stopped if none is.
    fn settle(&mut self, hub: &Hub)
        ensures lines { AreMade (line_settled hub.now) self.old.exchange.lines self.new.exchange.lines }
        ensures presence { self.new.presence ≡ self.old.presence }
        ensures console { self.new.console ≡ self.old.console }
        ensures stop { self.new.stop ≡ self.old.stop }
    {
        if !self.drains {
            return;
        }
        self.drains = self.exchange.settle(hub);
    }

    /// Whether the service ends after a round.
    fn ends(&self, hub: &Hub) -> bool
        ensures { IsTrue result ↔ IsOver self.now.stop hub.now self.now.exchange.lines }
    {
        match self.stop {
            None => false,
            Some(EndMoment::AtOnce) => true,
            Some(EndMoment::WhenIdle) => self.exchange.are_free(hub),
        }
    }

    /// The order that waits at the console, in this second, if it isn't too late for it.
    pub(crate) fn new_order(&mut self) -> Option<NewOrder>
        ensures order { result ≡ order_due self.old.clock self.old.console.orders }
        ensures orders { self.new.console.orders ≡ with_order_given self.old.clock self.old.console.orders }
    {
        self.console.order(self.clock)
    }
}

/// So many milliseconds, none if they are fewer.
fn milliseconds_of(milliseconds: i64) -> u64 {
    u64::try_from(milliseconds).unwrap_or(0)
}

/// The second of so many milliseconds.
fn seconds_of(milliseconds: i64) -> u64 {
    u64::try_from(milliseconds / 1000).unwrap_or(0)
}
