//! What is done with the lines of a service between their turns.

ghost use Rattle.std.specs.Prelude.{◌≡◌, ◌+◌, ◌<◌, ◌↔◌, ◌∷◌, ◌++◌, [], length, map, false};
ghost use Rattle.std.specs.Prelude.{is_ok, IfOk, IsTrue, OnErr, OnOk, Some};
ghost use Rattle.njh_request.specs.declared.request.LineState.TheVariants.{Started};
ghost use Rattle.njh_arrivals.specs.Arrivals.{none_seen};
ghost use Rattle.njh_sites.specs.Opened.{site_on, site_opened, IsApart};
ghost use Rattle.njh_sight.specs.Waking.{marked, with_line, IsRowMade};
ghost use Rattle.njh_lines.specs.Attention.{at_once};
ghost use Rattle.njh_lines.specs.LineStates.{line_settled, line_wished, with_from, AreFree, AreMade, IsMadeAt};
ghost use Rattle.njh_lines.specs.LineStates.{NoneDrains};
ghost use Rattle.njh_lines.specs.Watching.{served_line};
ghost use Rattle.njh_lines.specs.declared.attention.Watch.{Watch};

use crate::allowing::take_from;
use crate::attention::{AT_ONCE, NOTHING, Watch, add_to_groups};
use crate::entrance::Entrance;
use crate::line_state::is_draining;
use crate::post::Post;
use crate::queues::note_queues;
use crate::states::{settle_at, wish_at};
use crate::surroundings::Surroundings;
use crate::telling::{note_kept, tell_order};
use njh_arrivals::Arrivals;
use njh_command::Replies;
use njh_hub::{Hub, HubFault};
use njh_log::{EventKind, LimitedLog, Log, LogEvent, Place, Severity};
use njh_request::LineWish;
use njh_sight::{Customers, Label, LineNames, Queue, is_free};
use njh_sites::{Door, Endpoint, ListenFault, Listening, Site, open};
use njh_table::{AddressRanges, LineId, Tables};
use njh_turns::{Depot, NewOrder};
use njh_wire::{Network, Readiness};
use std::alloc::{AllocError, Global};
use std::fmt;
use std::io::Write;
use std::marker::Model;
use std::net::SocketAddr;

/// How often it is looked which messages wait on lines, in milliseconds.
const QUEUES: u64 = 1_000;

/// What is done between the turns of a service's lines: it waits for the network, accepts, dials,
/// ends connections, lets out what waits, and writes the log.
#[derive(Drop)]
pub struct Exchange<N: Network + Drop, L: Write + Drop> {
    pub(crate) surroundings: Surroundings<N, L>,
    pub(crate) posts: Vec<Post<N::Listener, N::Connection>>,
    pub(crate) ready: Vec<Readiness>,
    pub(crate) watches: Vec<Watch>,
    /// When a line of each group wants to be looked at first.
    pub(crate) groups: Vec<Watch>,
    /// When the first line wants to be looked at next.
    pub(crate) next: u64,
    /// When files came.
    pub(crate) arrivals: Arrivals,
    /// Since when messages wait on the lines, as far as it was noted.
    queues: Vec<Queue>,
    /// When it is looked next which do.
    queues_again: u64,
}

impl<N: Network + Drop, L: Write + Drop> Model for Exchange<N, L> {
    ghost use Rattle.std.specs.Prelude.{length, map};
    ghost use Rattle.njh_lines.specs.Watching.{noted_of, served_line, AreGrouped, Watched};

    ghost Value = { Watched };

    ghost view = { λ exchange. record {
      lines = map (served_line N.address_of) exchange.posts.items;
      noted = map (λ post. noted_of post) exchange.posts.items;
      steps = map (λ post. post.steps) exchange.posts.items;
      tallies = map (λ post. post.streams.tally) exchange.posts.items;
      refusals = map (λ post. post.label.refusals) exchange.posts.items;
      ready = exchange.ready.items;
      watches = exchange.watches.items;
      customers = exchange.surroundings.customers;
      next = exchange.next;
      now = exchange.surroundings.now;
      arrivals = exchange.arrivals;
    } };

    ghost invariant = { λ exchange. AreGrouped (length exchange.posts.items) exchange.ready.items exchange.watches.items
        exchange.groups.items exchange.next };
}

impl<N: Network + Drop, L: Write + Drop> Exchange<N, L> {
    /// One on this network and with this log, which serves no line yet. In the anterooms of its
    /// lines so many wait at most, all together.
    pub fn new(alloc: Global, network: N, log: Log<L>, most_guests: u64) -> Exchange<N, L>
        ensures { result.lines ≡ [] }
    {
        Exchange {
            surroundings: Surroundings {
                network,
                log: LimitedLog::new(alloc, log),
                now: 0,
                customers: Customers::none(),
                commands: 0,
                guests: 0,
                most_guests,
                alloc,
            },
            posts: Vec::new(alloc),
            ready: Vec::new(alloc),
            watches: Vec::new(alloc),
            groups: Vec::new(alloc),
            next: 0,
            arrivals: Arrivals::empty(alloc),
            queues: Vec::new(alloc),
            queues_again: 0,
        }
    }

    /// Its log, where it attends no more.
    pub fn into_log(self) -> Log<L> {
        let Exchange { surroundings, .. } = self;
        surroundings.into_log()
    }

    /// The lines that are served.
    pub fn posts(&self) -> &[Post<N::Listener, N::Connection>]
        ensures lines { map (served_line N.address_of) result.now ≡ self.now.lines }
        ensures steps { map (λ post. post.steps) result.now ≡ self.now.steps }
        ensures tallies { map (λ post. post.streams.tally) result.now ≡ self.now.tallies }
    {
        &self.posts
    }

    /// Since when messages wait on the lines, by their places, as far as it was noted.
    pub fn queues(&self) -> &[Queue] {
        &self.queues
    }

    /// When files came.
    pub fn arrivals(&self) -> &Arrivals
        ensures { result.now ≡ self.now.arrivals }
    {
        &self.arrivals
    }

    /// The time on the service's clock, as the last round began.
    pub fn now(&self) -> u64
        ensures { result ≡ self.now.now }
    {
        self.surroundings.now
    }

    /// Milliseconds since the beginning of 1970.
    pub fn utc(&mut self) -> i64
        ensures { self.new ≡ self.old }
    {
        self.surroundings.network.utc()
    }

    /// A visitor of the console that waits to be let in.
    pub fn visitor(&mut self) -> Option<N::Visitor>
        ensures { self.new ≡ self.old }
    {
        self.surroundings.network.visitor()
    }

    /// Opens the sockets of lines, as `njh_sites::open` does.
    pub fn open(
        &mut self,
        alloc: Global,
        listening: Listening,
        endpoints: &[Endpoint],
    ) -> Result<Vec<Site<Door<N::Listener>, SocketAddr>>, ListenFault>
        ensures same { self.new ≡ self.old }
        ensures opened { IfOk result (λ sites. map (site_opened N.address_of) sites.items
            ≡ map (λ endpoint. site_on listening.address endpoint.site) endpoints.now) }
        ensures apart { OnOk result (IsApart endpoints.now) }
    {
        let now = self.surroundings.network.now();
        open(
            alloc,
            &mut self.surroundings.network,
            listening,
            now,
            endpoints,
        )
    }

    /// Tells what happened somewhere.
    pub fn tell(&mut self, place: Place, event: LogEvent)
        ensures { self.new ≡ self.old }
    {
        self.surroundings.tell_at(place, event);
    }

    /// Tells of an event of a kind by this text.
    pub fn tell_text<T: fmt::Display>(
        &mut self,
        kind: EventKind,
        severity: Severity,
        place: Place,
        text: &T,
    )
        ensures { self.new ≡ self.old }
    {
        self.surroundings.tell_text(kind, severity, place, text);
    }

    /// Writes a line of the log, with the time, however many there are.
    pub fn write<T: fmt::Display>(&mut self, severity: Severity, place: Place, text: &T)
        ensures { self.new ≡ self.old }
    {
        self.surroundings.write(severity, place, text);
    }

    /// How many lines of the log were dropped, of which no line told yet.
    pub fn dropped(&self) -> u64 {
        self.surroundings.log.log.dropped()
    }

    /// What is kept of each customer.
    pub fn customers(&self) -> &Customers
        ensures { result.now ≡ self.now.customers }
    {
        &self.surroundings.customers
    }

    /// Something came, or didn't, that may give the lines of this customer something to send.
    pub fn mark_if(&mut self, customer: u16, has_come: bool)
        ensures marks { IsTrue has_come → IsRowMade customer marked self.old.customers self.new.customers }
        ensures none { ¬ IsTrue has_come → self.new.customers ≡ self.old.customers }
        ensures same { self.new ≡ record self.old { customers = self.new.customers } }
    {
        self.surroundings.customers.mark_if(customer, has_come);
    }

    /// Knows the customers of tables by their names, which the log has, and of none of them when a
    /// file came. Out of memory is the only refusal.
    pub fn know_customers(&mut self, alloc: Global, tables: &Tables) -> Result<(), AllocError>
        ensures lines { self.new.lines ≡ self.old.lines }
        ensures none { OnOk result (self.new.arrivals ≡ none_seen (length tables.now.customers)) }
    {
        self.surroundings.customers.know(tables);
        self.surroundings.log.limit(alloc)?;
        self.arrivals = Arrivals::none(alloc, tables.customers().len())?;
        Ok(())
    }

    /// Counts the files of each customer, so that those which are there haven't come since.
    pub fn count_files(&mut self, hub: &Hub)
        ensures { self.new ≡ self.old }
    {
        self.surroundings.customers.count_all(hub);
    }

    /// Knows of each file that a depot opened a hub with when it came, as far as the depot does.
    pub fn know_arrivals<D: Depot>(&mut self, depot: &D, hub: &Hub)
        ensures { self.new ≡ record self.old { arrivals = self.new.arrivals } }
    {
        note_kept(&mut self.arrivals, depot, hub);
    }

    /// Tells what came of an order. By it the lines of the customer may have something to send.
    pub fn note_order(&mut self, new: &NewOrder, answer: Result<(), HubFault>, replies: &Replies)
        ensures marks { IsTrue (is_ok answer) →
            IsRowMade new.now.customer marked self.old.customers self.new.customers }
        ensures none { ¬ IsTrue (is_ok answer) → self.new.customers ≡ self.old.customers }
        ensures same { self.new ≡ record self.old { customers = self.new.customers } }
    {
        self.surroundings
            .customers
            .mark_if(new.customer, answer.is_ok());
        tell_order(&mut self.surroundings, new, answer, replies);
    }

    /// Serves a further line, which takes connections from there. Out of memory is the only refusal.
    pub fn add(
        &mut self,
        id: LineId,
        names: &LineNames<'_>,
        from: &AddressRanges,
        site: Site<Door<N::Listener>, SocketAddr>,
    ) -> Result<(), AllocError>
        ensures added { OnOk result (self.new.lines ≡ self.old.lines ++ record {
          id = id;
          site = site_opened N.address_of site;
          from = from.now;
          state = Started;
        } ∷ []) }
        ensures watched { OnOk result (self.new.watches ≡ self.old.watches ++ at_once ∷ []) }
        ensures row { OnOk result (IsRowMade id.customer (with_line id.customer (length self.old.lines))
            self.old.customers self.new.customers) }
        ensures err { OnErr result (self.new ≡ self.old) }
    {
        let label = Label::of(names);
        let entrance = Entrance::new(self.surroundings.alloc, from)?;
        self.posts.reserve(1)?;
        self.ready.reserve(1)?;
        self.watches.reserve(1)?;
        add_to_groups(&mut self.groups, self.posts.len())?;
        self.surroundings
            .customers
            .add(id.customer, self.posts.len());
        self.ready.push_reserved(NOTHING);
        self.watches.push_reserved(AT_ONCE);
        self.posts
            .push_reserved(Post::new(id, label, site, entrance));
        self.next = 0;
        Ok(())
    }

    /// The peer of the line at this place may connect from there from now on.
    pub fn take_from(&mut self, place: usize, from: &AddressRanges)
        ensures lines { IsMadeAt place (with_from from.now) self.old.lines self.new.lines }
        ensures same { self.new ≡ record self.old { lines = self.new.lines } }
    {
        let Some(post) = self.posts.get_mut(place) else {
            return;
        };
        take_from(&mut self.surroundings, post, from);
    }

    /// The operator wants the line of this id to be served so.
    pub fn wish(&mut self, id: LineId, wish: LineWish)
        ensures { AreMade (line_wished id wish) self.old.lines self.new.lines }
    {
        for place in 0..self.posts.len() {
            wish_at(self, place, id, wish);
        }
    }

    /// Lines that are to be stopped once no file is on their streams are stopped if none is.
    /// Answers whether one is still to be.
    pub fn settle(&mut self, hub: &Hub) -> bool
        ensures settled { AreMade (line_settled hub.now) self.old.lines self.new.lines }
        ensures drains { result ≡ false → NoneDrains self.new.lines }
    {
        let mut drains = false;
        for place in 0..self.posts.len() {
            let state = settle_at(self, place, hub);
            drains = drains | is_draining(state);
        }
        drains
    }

    /// Once a second notes which messages wait on each line, and didn't before.
    pub fn note_queues(&mut self, hub: &Hub)
        ensures { self.new ≡ self.old }
    {
        let now = self.surroundings.now;
        if now < self.queues_again {
            return;
        }
        self.queues_again = now.saturating_add(QUEUES);
        note_queues(&mut self.queues, &self.posts, hub, now);
    }

    /// Whether no file is on the streams of any line.
    pub fn are_free(&self, hub: &Hub) -> bool
        ensures { IsTrue result ↔ AreFree hub.now self.now.lines }
    {
        for place in 0..self.posts.len() {
            if !is_free(self.posts[place].line, hub) {
                return false;
            }
        }
        true
    }
}
