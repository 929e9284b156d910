//! The table file is read now, or another is compared with what the hub has, as the operator orders.

ghost use Rattle.std.specs.Prelude.{◌≡◌, ◌≤◌, length, IfOk, IfSome, None, OnOk, Some};
ghost use Rattle.njh_answer.specs.Tickets.{is_late};
ghost use Rattle.njh_console.specs.Orders.{lapsed};
ghost use Rattle.njh_console.specs.Seats.{is_last_gone};
ghost use Rattle.njh_revision.specs.News.{HasAllOf};
ghost use Rattle.njh_revision.specs.Revisions.{AreKept};
ghost use Rattle.njh_service.specs.Bureaus.{IsNoted, IsRead, IsReadFor, IsReading};
ghost use Rattle.njh_service.specs.Rereading.{IsCompared, IsReloaded, IsTakenAs, IsToldOf};

use crate::bureau::Bureau;
use crate::operator::tell_giver;
use crate::revising::take_outcome;
use njh_answer::{Outcome, Ticket};
use njh_console::Asked;
use njh_lines::{Exchange, Post};
use njh_request::Order;
use njh_revision::{Revision, TableSource};
use njh_table::{AddressRanges, Tables};
use njh_wire::Network;
use std::alloc::{AllocError, Global};
use std::fmt;
use std::io::Write;

impl<N: Network + Drop, L: Write + Drop, S: TableSource + Drop> Bureau<N, L, S> {
    /// Reads tables, if that was asked. All else is left.
    pub(crate) fn read_tables(&mut self, asked: Asked) -> Asked
        ensures read { IsReading S.Fault S.gives asked self.old self.new result }
        ensures given { self.new.console.orders.given ≡ self.old.console.orders.given }
        ensures presence { self.new.presence ≡ self.old.presence }
        ensures over { self.new.is_over ≡ self.old.is_over }
    {
        match asked {
            Asked::Nothing => Asked::Nothing,
            Asked::Refused(why) => Asked::Refused(why),
            Asked::Given(number, terms) => Asked::Given(number, terms),
            Asked::Act(ticket, act) => Asked::Act(ticket, act),
            Asked::Tables(ticket) => {
                tell_giver(&mut self.exchange, ticket.number, ticket.terms);
                self.read_for(ticket);
                Asked::Nothing
            }
        }
    }

    /// Reads tables for an order, unless who gave it has gone or it is too late. What came of that is
    /// remembered.
    fn read_for(&mut self, ticket: Ticket)
        ensures read { IsReadFor S.Fault S.gives ticket
            (lapsed (is_last_gone self.old.console.seats) (is_late self.old.clock ticket.terms)) self.old self.new }
        ensures given { self.new.console.orders.given ≡ self.old.console.orders.given }
        ensures presence { self.new.presence ≡ self.old.presence }
        ensures over { self.new.is_over ≡ self.old.is_over }
    {
        match self.console.lapse(self.clock, &ticket) {
            Some(lapse) => self.note(ticket, lapse),
            None => self.read_noted(ticket),
        }
    }

    /// Reads tables for an order, and remembers what came of that.
    fn read_noted(&mut self, ticket: Ticket)
        ensures read { IsReadFor S.Fault S.gives ticket None self.old self.new }
        ensures given { self.new.console.orders.given ≡ self.old.console.orders.given }
        ensures presence { self.new.presence ≡ self.old.presence }
        ensures over { self.new.is_over ≡ self.old.is_over }
    {
        let told = self.tables_read(&ticket.order);
        self.note(ticket, told);
    }

    /// Remembers what came of an order.
    fn note(&mut self, ticket: Ticket, told: Outcome)
        ensures noted { IsNoted ticket told self.old self.new }
        ensures given { self.new.console.orders.given ≡ self.old.console.orders.given }
        ensures presence { self.new.presence ≡ self.old.presence }
        ensures over { self.new.is_over ≡ self.old.is_over }
    {
        self.console.note(ticket, told);
    }

    /// What is told of the tables that are read for an order.
    fn tables_read(&mut self, order: &Order) -> Outcome
        ensures read { IsRead S.Fault S.gives order.now self.old self.new result }
        ensures console { self.new.console ≡ self.old.console }
        ensures presence { self.new.presence ≡ self.old.presence }
        ensures over { self.new.is_over ≡ self.old.is_over }
    {
        match order {
            Order::Reload => reload(self.alloc, &mut self.revision, &mut self.exchange),
            Order::Diff(path) => {
                compare(self.alloc, &self.revision, &self.exchange, path.text())
            }
            _ => Outcome::NotKept,
        }
    }
}

/// Reads the table file, whatever its time, and takes what it says as a look does. What is told of
/// that.
fn reload<N: Network + Drop, L: Write + Drop, S: TableSource + Drop>(
    alloc: Global,
    revision: &mut Revision<S>,
    exchange: &mut Exchange<N, L>,
) -> Outcome
    ensures same { exchange.new ≡ record exchange.old { lines = exchange.new.lines } }
    ensures kept { AreKept revision.old revision.new }
    ensures read { IsReloaded S.Fault (S.gives None) revision.old revision.new exchange.old.lines exchange.new.lines
        result }
{
    let read = revision.read();
    let told = told_of(alloc, revision, exchange, &read);
    take_read(revision, exchange, read);
    told
}

/// Takes what was read of the table file.
fn take_read<N: Network + Drop, L: Write + Drop, S: TableSource + Drop>(
    revision: &mut Revision<S>,
    exchange: &mut Exchange<N, L>,
    read: Result<Tables, S::Fault>,
)
    ensures same { exchange.new ≡ record exchange.old { lines = exchange.new.lines } }
    ensures kept { AreKept revision.old revision.new }
    ensures taken { IsTakenAs read revision.new exchange.old.lines exchange.new.lines }
{
    if let Some(outcome) = revision.take_read(read) {
        take_outcome(revision, exchange, &outcome);
    }
}

/// What is told of the table file of this name, beside what the hub has. Nothing changes.
fn compare<N: Network + Drop, L: Write + Drop, S: TableSource + Drop>(
    alloc: Global,
    revision: &Revision<S>,
    exchange: &Exchange<N, L>,
    name: &str,
) -> Outcome
    ensures { IsCompared S.Fault (S.gives (Some name.now)) revision.now result }
{
    let read = revision.read_at(name);
    told_of(alloc, revision, exchange, &read)
}

/// What is told of tables that were read, or of the fault in their place.
fn told_of<N: Network + Drop, L: Write + Drop, S: TableSource + Drop>(
    alloc: Global,
    revision: &Revision<S>,
    exchange: &Exchange<N, L>,
    read: &Result<Tables, S::Fault>,
) -> Outcome
    ensures { IsToldOf revision.now read.now result }
{
    match read {
        Ok(tables) => match texts_of(alloc, revision, exchange, tables) {
            Ok(texts) => Outcome::Read(texts),
            Err(_) => Outcome::NotKept,
        },
        Err(fault) => match fault_text(alloc, fault) {
            Ok(text) => Outcome::Unread(text),
            Err(_) => Outcome::NotKept,
        },
    }
}

/// The sentence of a fault. Out of memory is the only refusal.
fn fault_text<F: fmt::Display>(alloc: Global, fault: &F) -> Result<String, AllocError> {
    format!(in alloc; "table file: {fault}; nothing changes")
}

/// A sentence for each that tables which were read bring. Out of memory is the only refusal.
fn texts_of<N: Network + Drop, L: Write + Drop, S: TableSource + Drop>(
    alloc: Global,
    revision: &Revision<S>,
    exchange: &Exchange<N, L>,
    tables: &Tables,
) -> Result<Vec<String>, AllocError>
    ensures { IfOk result (λ texts. length texts.items ≡ 0 → IfSome revision.now (λ known. HasAllOf known tables.now)) }
{
    let mut texts = revision.news(tables)?;
    add_each_from(alloc, revision, exchange.posts(), tables, &mut texts)?;
    Ok(texts)
}

/// Adds each line whose peer may connect from elsewhere by tables that were read.
fn add_each_from<Li: Drop, C: Drop, S: TableSource + Drop>(
    alloc: Global,
    revision: &Revision<S>,
    posts: &[Post<Li, C>],
    tables: &Tables,
    texts: &mut Vec<String>,
) -> Result<(), AllocError>
    ensures { OnOk result (length texts.old.items ≤ length texts.new.items) }
{
    for place in 0..posts.len() {
        add_from(alloc, revision, &posts[place], tables, texts)?;
    }
    Ok(())
}

/// Adds a line, if its peer may connect from elsewhere by tables that were read.
fn add_from<Li: Drop, C: Drop, S: TableSource + Drop>(
    alloc: Global,
    revision: &Revision<S>,
    post: &Post<Li, C>,
    tables: &Tables,
    texts: &mut Vec<String>,
) -> Result<(), AllocError>
    ensures { OnOk result (length texts.old.items ≤ length texts.new.items) }
{
    if is_from_as_read(&post.entrance.from, revision.from_of(tables, post.line)) {
        return Ok(());
    }
    let customer = post.label.customer;
    let line = post.label.line.as_str();
    texts.push(format!(in alloc; "{customer} {line}: its from changes")?)?;
    Ok(())
}

/// Whether a peer may connect from where tables say that were read, if they say it.
fn is_from_as_read(from: &AddressRanges, read: Option<&AddressRanges>) -> bool {
    match read {
        Some(read) => from.is_same(read),
        None => true,
    }
}
