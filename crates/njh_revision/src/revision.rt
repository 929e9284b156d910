//! New tables for a hub that runs.

ghost use Rattle.std.specs.Prelude.{◌≡◌, ◌⊎◌, is_some, length, option_and_then, option_map, Some, None, IfSome, IfOk};
ghost use Rattle.njh_revision.specs.Giving.{IsPassedOver};
ghost use Rattle.njh_revision.specs.News.{HasAllOf, IsOutcomeOf};
ghost use Rattle.njh_revision.specs.Origins.{from_known, from_read, read_in};
ghost use Rattle.njh_revision.specs.Revisions.{opened_tables, AreKept, IsGiven};

use crate::customer_routes::routes_of;
use crate::difference::{customers_difference, size_difference};
use crate::known::Known;
use crate::news::news_of;
use crate::origins::from_read;
use crate::outcome::{SourceOutcome, fault_in};
use crate::route_changes::RouteChanges;
use crate::route_states::{RouteState, first_waiting, is_apart, mark, state_given, will_wait};
use crate::table_source::{NoSource, TableSource};
use njh_ebcdic::Name;
use njh_hub::{FileSummaryView, GivenRoutes, Hub};
use njh_log::LineText;
use njh_presence::SpoolSeen;
use njh_spool::State;
use njh_table::{AddressRanges, LineId, NamedCustomer, Route, Tables};
use njh_turns::NewRoutes;
use std::alloc::{AllocError, Global};
use std::marker::Model;

/// How often the source is looked at, in milliseconds.
const SECOND: u64 = 1_000;

/// The tables of a hub that runs, and their source. From new tables each customer is given its
/// routes whose entry is that of the hub in all else, one customer after the other. Tables in which
/// there is no such customer with other routes are passed over.
#[derive(Drop)]
pub struct Revision<S: TableSource + Drop> {
    alloc: Global,
    source: S,
    known: Option<Known>,
    /// Of each customer, whether it has its routes.
    route_states: Vec<RouteState>,
    /// The customers before this one don't wait.
    next: usize,
    /// When the source is looked at next.
    moment: u64,
    /// What the log told of tables that weren't taken when the source was looked at last.
    fault: Option<LineText>,
    /// The customer that was given new routes of late, if one was.
    rerouted: Option<u16>,
}

impl<S: TableSource + Drop> Model for Revision<S> {
    ghost use Rattle.std.specs.Prelude.{Option};
    ghost use Rattle.njh_revision.specs.Revisions.{KnownTables};

    ghost Value = { Option KnownTables };

    ghost view = { λ r. r.known };
}

impl Revision<NoSource> {
    /// No new tables, ever.
    pub fn none(alloc: Global) -> Revision<NoSource>
        ensures { result ≡ None }
    {
        Revision {
            alloc,
            source: NoSource,
            known: None,
            route_states: Vec::new(alloc),
            next: 0,
            moment: 0,
            fault: None,
            rerouted: None,
        }
    }
}

impl<S: TableSource + Drop> Revision<S> {
    /// The tables that a hub was opened with, and where new ones come from. Out of memory is the
    /// only refusal.
    pub fn new(alloc: Global, tables: Tables, source: S) -> Result<Revision<S>, AllocError>
        ensures { IfOk result (λ revision. revision ≡ Some (record { opened = tables; last = tables })) }
    {
        let mut route_states = Vec::new(alloc);
        for _customer in tables.customers() {
            route_states.push(RouteState::Has)?;
        }
        Ok(Revision {
            alloc,
            source,
            known: Some(Known::new(tables)),
            route_states,
            next: 0,
            moment: 0,
            fault: None,
            rerouted: None,
        })
    }

    /// The tables that the hub was opened with.
    pub fn tables(&self) -> Option<&Tables>
        ensures { option_map (λ tables. tables.now) result ≡ opened_tables self.now }
    {
        match &self.known {
            Some(known) => Some(&known.opened),
            None => None,
        }
    }

    /// What stands at the paths of the spool file and of its log, if the hub's files are kept.
    pub fn seen(&self) -> Option<SpoolSeen> {
        self.source.seen()
    }

    /// What the log told of tables that weren't taken when the source was looked at last; nothing if
    /// they were.
    pub fn fault(&self) -> Option<&LineText> {
        self.fault.as_ref()
    }

    /// What the tables that were just taken bring the customers, by those that were taken before, if
    /// any were.
    pub fn changes<'a>(&'a self, before: &'a Option<Tables>) -> Option<RouteChanges<'a>>
        ensures { is_some result ≡ is_some self.now }
    {
        match &self.known {
            Some(known) => Some(RouteChanges::of(known, before)),
            None => None,
        }
    }

    /// Looks at the source, once a second on this clock, and takes its tables if a customer can be
    /// given other routes by them, or if nothing differs but from where peers may connect.
    pub fn look(&mut self, now: u64) -> Option<SourceOutcome<S::Fault>>
        ensures { AreKept self.old self.new }
    {
        if now < self.moment {
            return None;
        }
        self.moment = now.saturating_add(SECOND);
        let read = self.source.changed()?;
        self.take_read(read)
    }

    /// Reads the source, whether it changed or not.
    pub fn read(&mut self) -> Result<Tables, S::Fault>
        ensures gives { S.gives None result }
        ensures kept { self.new ≡ self.old }
    {
        self.source.read()
    }

    /// Reads the file of this name in the source's place.
    pub fn read_at(&self, name: &str) -> Result<Tables, S::Fault>
        ensures { S.gives (Some name.now) result }
    {
        self.source.read_at(name)
    }

    /// What tables that were read bring, a sentence each: of each customer that is given routes, and
    /// of each that keeps its own since more differs, with what that is. None are there only if the
    /// hub has all that the tables say, but for from where peers may connect. Out of memory is the
    /// only refusal.
    pub fn news(&self, read: &Tables) -> Result<Vec<String>, AllocError>
        ensures { IfOk result (λ texts. length texts.items ≡ 0 → IfSome self.now (λ known. HasAllOf known read.now)) }
    {
        match &self.known {
            Some(known) => news_of(self.alloc, known, &self.route_states, read),
            None => Ok(Vec::new(self.alloc)),
        }
    }

    /// Takes the tables that were read, if a customer can be given other routes by them, or if
    /// nothing differs but from where peers may connect.
    pub fn take_read(&mut self, read: Result<Tables, S::Fault>) -> Option<SourceOutcome<S::Fault>>
        ensures kept { AreKept self.old self.new }
        ensures outcome { IfSome result (λ outcome. IsOutcomeOf read outcome self.new) }
        ensures none { result ≡ None → self.new ≡ None }
    {
        let outcome = match read {
            Ok(tables) => self.take(tables)?,
            Err(fault) => SourceOutcome::Refused(fault),
        };
        self.fault = fault_in(&outcome);
        Some(outcome)
    }

    /// From where the peer of a line may connect, by tables that were read. Nothing if they don't
    /// have this line with its name, its customer and its port.
    pub fn from_of<'a>(&self, read: &'a Tables, line: LineId) -> Option<&'a AddressRanges>
        ensures { option_map (λ from. from.now) result
            ≡ option_and_then (λ known. from_read known.opened read.now line) self.now }
    {
        let known = self.known.as_ref()?;
        from_read(&known.opened, read, line)
    }

    /// Takes new tables, if a customer can be given other routes by them or nothing differs but from
    /// where peers may connect. Else they are answered with what differs.
    fn take(&mut self, tables: Tables) -> Option<SourceOutcome<S::Fault>>
        ensures kept { AreKept self.old self.new }
        ensures taken { IfSome self.old (λ old.
            IsPassedOver result ⊎ (self.new ≡ Some (record old { last = tables }))) }
        ensures passed { IsPassedOver result → self.new ≡ self.old }
        ensures read { IfSome result (λ outcome. IfSome self.new (λ new. read_in new outcome ≡ Some tables)) }
        ensures none { result ≡ None → self.new ≡ None }
    {
        let known = self.known.as_mut()?;
        match size_difference(&known.opened, &tables) {
            Some(difference) => return Some(SourceOutcome::Differs(difference, tables)),
            None => {}
        }
        let differ = will_wait(&self.route_states, known, &tables);
        if !differ {
            match customers_difference(known.opened.customers(), tables.customers()) {
                Some(difference) => return Some(SourceOutcome::Differs(difference, tables)),
                None => {}
            }
        }
        mark(&mut self.route_states, known, &tables);
        self.next = 0;
        let before = known.take(tables);
        if differ {
            Some(SourceOutcome::Taken(before))
        } else {
            Some(SourceOutcome::Same)
        }
    }

    /// The routes of the next customer that waits for some. If there is no memory for them, the
    /// customer's number.
    pub fn next_routes(&mut self) -> Option<Result<NewRoutes, u16>>
        ensures routes { IfSome result (λ given. IfOk given (λ new.
            IfSome self.new (IsGiven new.customer new.routes))) }
        ensures kept { self.new ≡ self.old }
    {
        let customer = self.next_customer()?;
        let Some(answer) = routes_in(self.alloc, &self.known, customer) else {
            self.set_state(customer, RouteState::Apart);
            return None;
        };
        match answer {
            Ok(routes) => Some(Ok(NewRoutes { customer, routes })),
            Err(_) => Some(Err(customer)),
        }
    }

    /// Whether a customer may wait for routes.
    pub fn is_awaited(&self) -> bool {
        first_waiting(&self.route_states, self.next).is_some()
    }

    /// From where the peer of a line may connect, by the tables that were read at the last look,
    /// whether they were taken or not. Nothing if none were, or if they don't have this line with its
    /// name, its customer and its port: then it may from where it might before.
    pub fn from_read<'a>(
        &'a self,
        outcome: &'a SourceOutcome<S::Fault>,
        line: LineId,
    ) -> Option<&'a AddressRanges>
        ensures { option_map (λ from. from.now) result ≡ from_known self.now outcome.now line }
    {
        let known = self.known.as_ref()?;
        from_read(&known.opened, read_in(known, outcome)?, line)
    }

    /// The next customer that waits for routes.
    fn next_customer(&mut self) -> Option<u16>
        ensures { self.new ≡ self.old }
    {
        let Some(place) = first_waiting(&self.route_states, self.next) else {
            self.next = self.route_states.len();
            return None;
        };
        self.next = place;
        u16::try_from(place).ok()
    }

    /// The name of the customer that was given new routes since this was asked last, if one was, and
    /// how many of its whole files are held whose nodes have no route by the tables that were last
    /// taken.
    pub fn unrouted(&mut self, hub: &Hub) -> Option<(Name, u32)>
        ensures { self.new ≡ self.old }
    {
        let customer = self.rerouted?;
        self.rerouted = None;
        let known = self.known.as_ref()?;
        let entry = known.last().customers().get(usize::from(customer))?;
        Some((entry.name(), unrouted_files(customer, entry, hub)))
    }

    /// Why a customer hasn't the routes of the tables that were last taken, if it can't have them.
    pub fn why_behind(&self, customer: u16) -> Option<&'static str> {
        match self.route_states.get(usize::from(customer))? {
            RouteState::Has => None,
            RouteState::Waits => None,
            RouteState::Lacks => Some("its new routes were refused"),
            RouteState::Apart => {
                Some("more than its routes differs in the table file; its routes stay")
            }
        }
    }

    /// Notes whether a customer has its routes now. Answers its name.
    pub fn note_routes(&mut self, customer: u16, given: bool) -> Option<Name>
        ensures { self.new ≡ self.old }
    {
        self.set_state(customer, state_given(given));
        let entry = self.tables()?.customers().get(usize::from(customer))?;
        let name = entry.name();
        self.rerouted = Some(customer);
        Some(name)
    }

    /// Notes how a customer is.
    fn set_state(&mut self, customer: u16, state: RouteState)
        ensures { self.new ≡ self.old }
    {
        match self.route_states.get_mut(usize::from(customer)) {
            Some(kept) => *kept = state,
            None => {}
        }
    }
}

/// The tables that were read at a look, if some were.
fn read_in<'a, F: Drop>(known: &'a Known, outcome: &'a SourceOutcome<F>) -> Option<&'a Tables>
    ensures { option_map (λ tables. tables.now) result ≡ read_in known.now outcome.now }
{
    match outcome {
        SourceOutcome::Refused(_) => None,
        SourceOutcome::Differs(_, tables) => Some(tables),
        SourceOutcome::Same | SourceOutcome::Taken(_) => Some(known.last()),
    }
}

/// How many whole files of a customer are held whose nodes have no route by its entry.
fn unrouted_files(customer: u16, entry: &NamedCustomer, hub: &Hub) -> u32 {
    let mut files = 0u32;
    for index in 0..hub.file_count(customer) {
        if is_unrouted(&hub.summary_at(customer, index), entry) {
            files = files.saturating_add(1);
        }
    }
    files
}

/// Whether a file is held and its node has no route by its customer's entry.
fn is_unrouted(file: &FileSummaryView, entry: &NamedCustomer) -> bool {
    if file.state != State::Held {
        return false;
    }
    match Name::of_field(&file.destination.node) {
        Ok(node) => entry.route(node) == Route::Unknown,
        Err(_) => false,
    }
}

/// The routes of a customer by the tables that were taken last, if its entry there is that of the
/// hub in all else.
fn routes_in(
    alloc: Global,
    known: &Option<Known>,
    customer: u16,
) -> Option<Result<GivenRoutes, AllocError>>
    ensures { IfSome result (λ given. IfOk given (λ routes. IfSome known.now (IsGiven customer routes))) }
{
    let known = known.as_ref()?;
    if is_apart(customer, &known.opened, known.last()) {
        return None;
    }
    Some(routes_of(alloc, known.last(), customer))
}
