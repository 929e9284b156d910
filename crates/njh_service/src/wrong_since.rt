//! What is wrong with the hub itself, since when.

use njh_presence::Presence;
use njh_revision::{Revision, TableSource};
use njh_sight::CUSTOMERS;

/// What is wrong with the hub itself, by the second since the beginning of 1970 in which it was seen
/// first.
#[derive(Drop)]
pub(crate) struct WrongSince {
    /// How many files that were kept couldn't be put back at the start.
    pub(crate) aside: usize,
    /// The second of the start.
    pub(crate) started: u64,
    /// The table file has a fault.
    pub(crate) table: Option<u64>,
    /// Something is wrong at the paths of the spool file.
    pub(crate) spool: Option<u64>,
    /// Lines of the log were dropped.
    pub(crate) log: Option<u64>,
    /// A customer hasn't the routes of the table file, by its number.
    routes: [Option<u64>; CUSTOMERS],
}

impl WrongSince {
    /// Nothing is wrong at the start, which is in this second.
    pub(crate) fn nothing(started: u64) -> WrongSince {
        WrongSince {
            aside: 0,
            started,
            table: None,
            spool: None,
            log: None,
            routes: [None; CUSTOMERS],
        }
    }

    /// Notes in this second what is wrong, with so many lines of the log that were dropped.
    pub(crate) fn note<S: TableSource + Drop>(
        &mut self,
        revision: &Revision<S>,
        presence: &Option<Presence>,
        dropped: u64,
        now: u64,
    ) {
        self.table = since(self.table, revision.fault().is_some(), now);
        self.spool = since(self.spool, is_astray(presence), now);
        self.log = since(self.log, dropped > 0, now);
        for customer in 0..CUSTOMERS {
            let is_behind = revision.why_behind(customer as u16).is_some();
            self.routes[customer] = since(self.routes[customer], is_behind, now);
        }
    }

    /// Since when a customer hasn't the routes of the table file, if it hasn't.
    pub(crate) fn routes(&self, customer: u16) -> Option<u64> {
        match self.routes.get(usize::from(customer)) {
            Some(since) => *since,
            None => None,
        }
    }
}

/// Since when something is so: since it was before, or since now.
fn since(before: Option<u64>, is_so: bool, now: u64) -> Option<u64> {
    match before {
        _ if !is_so => None,
        Some(since) => Some(since),
        None => Some(now),
    }
}

/// Whether something is wrong at the paths of the spool file, if the hub's files are kept.
fn is_astray(presence: &Option<Presence>) -> bool {
    match presence {
        Some(presence) => presence.wrong().is_some(),
        None => false,
    }
}
