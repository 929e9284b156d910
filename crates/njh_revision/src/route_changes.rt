//! What new tables bring customers, route by route.

use crate::difference::{Difference, customer_difference};
use crate::known::Known;
use arrayvec::ArrayString;
use njh_ebcdic::Name;
use njh_log::{LogEvent, RouteNews};
use njh_table::{NamedCustomer, Route, RouteLines, Tables};
use std::fmt;

/// How many bytes the name of a line has at most.
const NAME: usize = 8;

/// How many routes of a customer are told one by one, at most, and one more.
const MOST: u64 = 17;

/// How many routes of a customer are looked at, at most, to find those that stand elsewhere now.
const LOOKS: usize = 1_000_000;

/// What new tables bring.
#[derive(Clone, Copy, Drop)]
pub enum RouteChange {
    /// A customer isn't given its routes, since this differs too.
    Stays(Difference),
    /// To the customer of this name, another route.
    Differs(Name, LogEvent),
}

/// Which routes of the customers differ in the tables that were just taken from those that were
/// taken before, if any were, and which customers aren't given theirs: customer by customer.
#[derive(Drop)]
pub struct RouteChanges<'a> {
    known: &'a Known,
    before: &'a Tables,
    /// The customer that is compared.
    customer: usize,
    /// What of it is compared next.
    stage: Stage,
    search: Search,
}

/// What of a customer is compared next.
#[derive(Clone, Copy, Drop)]
enum Stage {
    /// Its entry, its routes aside.
    Entry,
    /// Its new routes, from this place on.
    New(usize),
    /// Those that it had, from this place on.
    Old(usize),
    /// Whether further ones differ.
    Rest,
    /// Nothing more.
    End,
}

impl<'a> RouteChanges<'a> {
    /// Those of tables that were just taken.
    pub(crate) fn of(known: &'a Known, before: &'a Option<Tables>) -> RouteChanges<'a> {
        RouteChanges {
            known,
            before: match before {
                Some(tables) => tables,
                None => &known.opened,
            },
            customer: 0,
            stage: Stage::Entry,
            search: Search::begun(),
        }
    }

    /// The next, if there is one more.
    pub fn next_change(&mut self) -> Option<RouteChange> {
        let known = self.known;
        for customer in self.customer..known.opened.customers().len() {
            self.customer = customer;
            if let Some(change) = self.next_of(customer) {
                return Some(change);
            }
            self.stage = Stage::Entry;
        }
        self.customer = usize::MAX;
        None
    }

    /// The next of a customer: other routes than those before, or that it isn't given its own since
    /// more than these differs from what it was opened with. Of one that wasn't given those before
    /// no route is told.
    fn next_of(&mut self, customer: usize) -> Option<RouteChange> {
        let known = self.known;
        let opened = known.opened.customers().get(customer)?;
        let old = self.before.customers().get(customer)?;
        let new = known.last().customers().get(customer)?;
        if let Stage::Entry = self.stage {
            self.stage = Stage::End;
            if let Some(difference) = customer_difference(opened, new) {
                return Some(RouteChange::Stays(difference));
            }
            if customer_difference(opened, old).is_none() {
                self.search = Search::begun();
                self.stage = Stage::New(0);
            }
        }
        self.next_route(old, new)
    }

    /// The next route of a customer that differs from its new ones.
    fn next_route(&mut self, old: &NamedCustomer, new: &NamedCustomer) -> Option<RouteChange> {
        if let Stage::New(from) = self.stage {
            if let Some(change) = self.next_new(old, new, from) {
                return Some(change);
            }
            self.stage = Stage::Old(0);
        }
        if let Stage::Old(from) = self.stage {
            if let Some(change) = self.next_gone(old, new, from) {
                return Some(change);
            }
            self.stage = Stage::Rest;
        }
        let is_rest = matches!(self.stage, Stage::Rest);
        self.stage = Stage::End;
        if is_rest && self.search.left == 0 {
            return Some(RouteChange::Differs(new.name(), LogEvent::MoreRoutes));
        }
        None
    }

    /// The next of a customer's new routes that it didn't have, from a place on.
    fn next_new(
        &mut self,
        old: &NamedCustomer,
        new: &NamedCustomer,
        from: usize,
    ) -> Option<RouteChange> {
        for place in from..new.routes() {
            let (node, lines) = new.route_at(place);
            if self.search.lines_of(old, node) != Some(lines) && self.search.may_tell() {
                self.stage = Stage::New(place.saturating_add(1));
                return Some(change_of(new, node, Some(lines)));
            }
        }
        None
    }

    /// The next of those that it had whose node has none now, from a place on.
    fn next_gone(
        &mut self,
        old: &NamedCustomer,
        new: &NamedCustomer,
        from: usize,
    ) -> Option<RouteChange> {
        for place in from..old.routes() {
            let (node, _) = old.route_at(place);
            if new.route(node) == Route::Unknown && self.search.may_tell() {
                self.stage = Stage::Old(place.saturating_add(1));
                return Some(change_of(new, node, None));
            }
        }
        None
    }
}

/// That these lines of a customer lead to a node now.
fn change_of(customer: &NamedCustomer, node: Name, lines: Option<RouteLines>) -> RouteChange {
    let news = route_news(customer, node, lines);
    RouteChange::Differs(customer.name(), LogEvent::Route(news))
}

/// How far the routes of a customer were compared.
#[derive(Clone, Copy, Drop)]
struct Search {
    /// The place behind the last route that was found.
    next: usize,
    /// How many routes may still be looked at to find one that stands elsewhere.
    looks: usize,
    /// How many more may be told, and one.
    left: u64,
}

impl Search {
    /// Nothing was compared yet.
    fn begun() -> Search {
        Search {
            next: 0,
            looks: LOOKS,
            left: MOST,
        }
    }

    /// Whether one more may be told. It counts as told then.
    fn may_tell(&mut self) -> bool {
        self.left = self.left.saturating_sub(1);
        self.left > 0
    }

    /// The lines of a node's route, if the customer has one. It mostly stands behind the one that
    /// was found before; if it doesn't, and no more may be looked at, it counts as another.
    fn lines_of(&mut self, customer: &NamedCustomer, node: Name) -> Option<RouteLines> {
        match lines_at(customer, node, self.next) {
            Some(lines) => {
                self.next = self.next.saturating_add(1);
                Some(lines)
            }
            None => self.search(customer, node),
        }
    }

    /// The lines of a node's route that stands elsewhere.
    fn search(&mut self, customer: &NamedCustomer, node: Name) -> Option<RouteLines> {
        if customer.route(node) == Route::Unknown || self.looks < customer.routes() {
            return None;
        }
        self.looks = self.looks.saturating_sub(customer.routes());
        for place in 0..customer.routes() {
            if let Some(lines) = lines_at(customer, node, place) {
                self.next = place.saturating_add(1);
                return Some(lines);
            }
        }
        None
    }
}

/// The lines of the route at a place, if there is one and it is this node's.
fn lines_at(customer: &NamedCustomer, node: Name, place: usize) -> Option<RouteLines> {
    if place >= customer.routes() {
        return None;
    }
    let (found, lines) = customer.route_at(place);
    if found == node { Some(lines) } else { None }
}

/// What is told of a node's route by these lines of a customer.
fn route_news(customer: &NamedCustomer, node: Name, lines: Option<RouteLines>) -> RouteNews {
    match lines {
        Some(lines) => RouteNews {
            node,
            line: line_name(customer, lines.line),
            second: match lines.second {
                Some(second) => line_name(customer, second),
                None => None,
            },
        },
        None => RouteNews {
            node,
            line: None,
            second: None,
        },
    }
}

/// The name of a customer's line, if it has one of this number.
fn line_name(customer: &NamedCustomer, line: u16) -> Option<ArrayString<NAME>> {
    let entry = customer.lines().get(usize::from(line))?;
    let mut name = ArrayString::new();
    let _whole = name.try_push_str(entry.name()).is_ok();
    Some(name)
}

impl fmt::Display for RouteChange {
    fn fmt<W: fmt::Write>(&self, f: &mut fmt::Formatter<W>) -> fmt::Result {
        match self {
            RouteChange::Stays(difference) => write!(
                f,
                "table file: {difference}; its routes stay"
            ),
            RouteChange::Differs(_, event) => write!(f, "{event}"),
        }
    }
}
