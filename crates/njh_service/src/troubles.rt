//! What is wrong now, how grave it is, and since when.

use crate::line_clock::LineClock;
use crate::wrong_since::WrongSince;
use njh_answer::Trouble;
use njh_hub::Hub;
use njh_lines::{Exchange, Post, intended_on, wrong_on};
use njh_log::{LogEvent, Severity, severity_of};
use njh_revision::{Revision, TableSource};
use njh_sight::{CUSTOMERS, near_after, session_of};
use njh_wire::{Connection, LineWire, Network};
use std::alloc::{AllocError, Global};
use std::io::Write;

/// How many things that are wrong are told at most: an answer of the console has 65,536 bytes.
const MOST: usize = 240;

/// What is wrong now, or what the operator wants so, as it is collected.
#[derive(Drop)]
pub(crate) struct Troubles {
    alloc: Global,
    /// The moment at which it is collected.
    clock: LineClock,
    /// What is collected.
    pub(crate) all: Vec<Trouble>,
    /// How many more there are.
    more: usize,
}

impl Troubles {
    /// Nothing yet, by this clock.
    pub(crate) fn new(alloc: Global, clock: LineClock) -> Troubles {
        Troubles {
            alloc,
            clock,
            all: Vec::new(alloc),
            more: 0,
        }
    }

    /// One more, of an event somewhere.
    pub(crate) fn add(
        &mut self,
        place: &str,
        event: LogEvent,
        since: Option<u64>,
    ) -> Result<(), AllocError> {
        let alloc = self.alloc;
        let text = format!(in alloc; "{place}{event}")?;
        self.add_text(text, severity_of(&event), since)
    }

    /// One more, with this text.
    pub(crate) fn add_text(
        &mut self,
        text: String,
        severity: Severity,
        since: Option<u64>,
    ) -> Result<(), AllocError> {
        if self.all.len() >= MOST {
            self.more = self.more.saturating_add(1);
            return Ok(());
        }
        let alloc = self.alloc;
        let severity = format!(in alloc; "{severity}")?;
        self.all.push(Trouble {
            text,
            severity,
            since,
        })?;
        Ok(())
    }

    /// What was collected; behind it how many more there are, if there are more.
    pub(crate) fn told(self) -> Result<Vec<Trouble>, AllocError> {
        let Troubles {
            alloc,
            mut all,
            more,
            ..
        } = self;
        if more > 0 {
            let text = format!(in alloc; "and {more} more")?;
            let severity = String::from_str(alloc, "warning")?;
            all.push(Trouble {
                text,
                severity,
                since: None,
            })?;
        }
        Ok(all)
    }
}

/// Adds what is wrong with the service itself: with the table file, with files that couldn't be put
/// back at the start, with the log, of which so many lines were dropped.
pub(crate) fn add_own<S: TableSource + Drop>(
    revision: &Revision<S>,
    wrong: &WrongSince,
    dropped: u64,
    troubles: &mut Troubles,
) -> Result<(), AllocError> {
    let alloc = troubles.alloc;
    if let Some(fault) = revision.fault() {
        let text = format!(in alloc; "{fault}")?;
        troubles.add_text(text, Severity::Error, wrong.table)?;
    }
    add_losses(wrong, dropped, troubles)
}

/// Adds that so many files couldn't be put back, and that so many lines of the log were dropped.
fn add_losses(wrong: &WrongSince, dropped: u64, troubles: &mut Troubles) -> Result<(), AllocError> {
    let alloc = troubles.alloc;
    let files = wrong.aside;
    if files > 0 {
        let text = format!(in alloc; "spool file: {files} files are set aside")?;
        troubles.add_text(text, Severity::Warning, Some(wrong.started))?;
    }
    if dropped > 0 {
        let text = format!(in alloc; "log: {dropped} lines were dropped")?;
        troubles.add_text(text, Severity::Warning, wrong.log)?;
    }
    Ok(())
}

/// Adds what is wrong with the customers: with their files, and with their routes.
pub(crate) fn add_customers<N: Network + Drop, L: Write + Drop, S: TableSource + Drop>(
    exchange: &Exchange<N, L>,
    revision: &Revision<S>,
    wrong: &WrongSince,
    hub: &Hub,
    troubles: &mut Troubles,
) -> Result<(), AllocError> {
    for customer in 0..CUSTOMERS as u16 {
        add_customer(exchange, hub, customer, troubles)?;
        add_routes(exchange, revision, wrong, customer, troubles)?;
    }
    Ok(())
}

/// Adds that a customer, if there is one of this number, hasn't the routes of the table file.
fn add_routes<N: Network + Drop, L: Write + Drop, S: TableSource + Drop>(
    exchange: &Exchange<N, L>,
    revision: &Revision<S>,
    wrong: &WrongSince,
    customer: u16,
    troubles: &mut Troubles,
) -> Result<(), AllocError> {
    let alloc = troubles.alloc;
    let Some(name) = exchange.customers().name(customer) else {
        return Ok(());
    };
    if let Some(why) = revision.why_behind(customer) {
        let text = format!(in alloc; "{name}: {why}")?;
        troubles.add_text(text, Severity::Warning, wrong.routes(customer))?;
    }
    Ok(())
}

/// Adds what is wrong with a customer, if there is one of this number: it is near its quota, or
/// near the number of files that it may have.
fn add_customer<N: Network + Drop, L: Write + Drop>(
    exchange: &Exchange<N, L>,
    hub: &Hub,
    customer: u16,
    troubles: &mut Troubles,
) -> Result<(), AllocError> {
    let alloc = troubles.alloc;
    let clock = troubles.clock;
    let customers = exchange.customers();
    let Some(name) = customers.name(customer) else {
        return Ok(());
    };
    let place = format!(in alloc; "{name}: ")?;
    let number = usize::from(customer);
    if let Some(event) = near_quota(hub, customer) {
        let since = seconds_of(clock, customers.near_since(number));
        troubles.add(place.as_str(), event, since)?;
    }
    let most = customers.most_files(customer);
    if let Some(event) = near_files(hub.file_count(customer), most) {
        let since = seconds_of(clock, customers.near_files_since(number));
        troubles.add(place.as_str(), event, since)?;
    }
    Ok(())
}

/// The second of a moment, if there is one.
fn seconds_of(clock: LineClock, moment: Option<u64>) -> Option<u64> {
    match moment {
        Some(moment) => Some(clock.seconds_at(moment)),
        None => None,
    }
}

/// Adds what is wrong with the lines.
pub(crate) fn add_lines<N: Network + Drop, L: Write + Drop>(
    exchange: &Exchange<N, L>,
    hub: &Hub,
    wires: &[LineWire<N::Connection>],
    troubles: &mut Troubles,
) -> Result<(), AllocError> {
    let posts = exchange.posts();
    for place in 0..posts.len() {
        let is_connected = is_connected_at(wires, place);
        add_line(&posts[place], hub, is_connected, troubles)?;
    }
    Ok(())
}

/// Adds what is wrong with a line, if something is.
fn add_line<Li: Drop, C: Drop>(
    post: &Post<Li, C>,
    hub: &Hub,
    is_connected: bool,
    troubles: &mut Troubles,
) -> Result<(), AllocError> {
    let clock = troubles.clock;
    let session = session_of(hub, post.line);
    if let Some(event) = wrong_on(post, &session, is_connected, clock.now) {
        let place = line_place(troubles.alloc, post)?;
        let since = clock.seconds_at(post.label.down_since);
        troubles.add(place.as_str(), event, Some(since))?;
    }
    Ok(())
}

/// What stands before what is told of a line.
fn line_place<Li: Drop, C: Drop>(alloc: Global, post: &Post<Li, C>) -> Result<String, AllocError> {
    let customer = post.label.customer;
    let line = post.label.line.as_str();
    format!(in alloc; "{customer} {line}: ")
}

/// What is wrong with a line, if something is, since no session is up on it.
pub(crate) fn line_trouble<Li: Drop, C: Drop>(
    alloc: Global,
    hub: &Hub,
    post: &Post<Li, C>,
    is_connected: bool,
    clock: LineClock,
) -> Result<Option<Trouble>, AllocError> {
    let session = session_of(hub, post.line);
    let Some(event) = wrong_on(post, &session, is_connected, clock.now) else {
        return Ok(None);
    };
    let severity = severity_of(&event);
    let text = format!(in alloc; "{event}")?;
    let severity = format!(in alloc; "{severity}")?;
    let since = Some(clock.seconds_at(post.label.down_since));
    Ok(Some(Trouble {
        text,
        severity,
        since,
    }))
}

/// What the operator wants of lines that aren't started.
pub(crate) fn add_intended<N: Network + Drop, L: Write + Drop>(
    exchange: &Exchange<N, L>,
    intended: &mut Troubles,
) -> Result<(), AllocError> {
    for post in exchange.posts() {
        if let Some(event) = intended_on(post.state) {
            let place = line_place(intended.alloc, post)?;
            let since = intended.clock.seconds_at(post.state_since);
            intended.add(place.as_str(), event, Some(since))?;
        }
    }
    Ok(())
}

/// Whether somebody is connected on the wire at a place.
pub(crate) fn is_connected_at<C: Connection + Drop>(wires: &[LineWire<C>], place: usize) -> bool {
    match wires.get(place) {
        Some(wire) => wire.is_connected(),
        None => false,
    }
}

/// What is told of a customer whose files take nine tenths of its quota.
fn near_quota(hub: &Hub, customer: u16) -> Option<LogEvent> {
    let (Ok(used), Ok(quota)) = (hub.used(customer), hub.quota(customer)) else {
        return None;
    };
    if near_after(false, used, quota) {
        Some(LogEvent::NearQuota(used, quota))
    } else {
        None
    }
}

/// What is told of a customer that has nine tenths of the files that it may have; 0 if it isn't
/// known how many those are.
fn near_files(files: u32, most: u32) -> Option<LogEvent> {
    if most > 0 && near_after(false, files, most) {
        Some(LogEvent::NearFiles(files, most))
    } else {
        None
    }
}
