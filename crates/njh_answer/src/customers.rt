//! The customers.

ghost use Rattle.std.specs.Prelude.{◌≡◌, ◌-◌, ◌^◌, ◌≤◌, ◌<◌, length, map, IfOk};
ghost use Rattle.serde_json.specs.View.{view};
ghost use Rattle.njh_hub.specs.WholeHub.{part};
ghost use Rattle.njh_spool.specs.CustomerSpool.{used_blocks};
ghost use Rattle.njh_table.specs.TableFile.{customer_at};
ghost use Rattle.njh_arrivals.specs.Arrivals.{seen_of};
ghost use Rattle.njh_answer.specs.Customers.{counted, customer_told, customers_data, customers_told_from, oldest_of};
ghost use Rattle.njh_answer.specs.Customers.{tally_data, tally_of, tally_with};

use crate::answering::Views;
use crate::counts::{turned_of, turned_value};
use crate::fields::name_text;
use crate::page::Page;
use crate::served::moment_value;
use njh_arrivals::Arrivals;
use njh_hub::Hub;
use njh_spool::State;
use njh_table::Tables;
use serde_json::{Value, json};
use std::alloc::{AllocError, Global};

/// How many customers an answer has at most.
const CUSTOMERS: usize = 16;

/// How many files of a customer's are in each state.
#[derive(Clone, Copy, Drop)]
pub(crate) struct Tally {
    pub(crate) ready: u32,
    pub(crate) held: u32,
    pub(crate) refused: u32,
    pub(crate) sending: u32,
}

/// The customers from a place on, at most so many as one answer has, and the place to go on from.
/// Out of memory is the only refusal.
pub(crate) fn customers_value(
    alloc: Global,
    views: &Views<'_>,
    from: u64,
) -> Result<Value, AllocError>
    ensures { IfOk result (λ value. view value ≡ customers_data views.now.tables.now views.now.hub.now
        views.now.arrivals.now views.now.lines.now from) }
{
    let count = views.tables.customers().len();
    let page = Page::of(from, CUSTOMERS, count);
    let customers = Value::Array(customer_values(alloc, views, page)?);
    let next = page.next(0, count);
    json!(in alloc; {"customers": customers, "next": next})
}

/// The customers of a page.
fn customer_values(alloc: Global, views: &Views<'_>, page: Page) -> Result<Vec<Value>, AllocError>
    requires ordered { page.first ≤ page.end }
    requires within { page.end ≤ length views.now.tables.now.customers }
    ensures { IfOk result (λ values. map view values.items ≡ customers_told_from views.now.tables.now views.now.hub.now
        views.now.arrivals.now views.now.lines.now page) }
{
    let mut values = Vec::new(alloc);
    for customer in page.first..page.end {
        values.push(customer_value(alloc, views, customer)?)?;
    }
    Ok(values)
}

/// A customer.
#[tactic(auto, using(crate::proofs::TableBounds::few_customers))]
fn customer_value(alloc: Global, views: &Views<'_>, place: usize) -> Result<Value, AllocError>
    requires known { place < length views.now.tables.now.customers }
    ensures { IfOk result (λ value. view value ≡ customer_told views.now.tables.now views.now.hub.now
        views.now.arrivals.now views.now.lines.now place) }
{
    let hub = views.hub;
    let named = &views.tables.customers()[place];
    let customer = place as u16;
    let name = name_text(alloc, named.name())?;
    let files = tally_value(alloc, tally_of(hub, customer))?;
    let turned_away = turned_value(alloc, turned_of(views.lines, customer))?;
    json!(in alloc; {
        "arrived": hub.arrived(customer),
        "blocks": used_by(hub, customer),
        "files": files,
        "most_files": named.files(),
        "name": name,
        "oldest": moment_value(oldest_of(hub, views.arrivals, customer)),
        "quota": quota_of(hub, customer),
        "turned_away": turned_away
    })
}

/// How many files are in each state, as it is told.
fn tally_value(alloc: Global, tally: Tally) -> Result<Value, AllocError>
    ensures { IfOk result (λ value. view value ≡ tally_data tally) }
{
    json!(in alloc; {
        "held": tally.held,
        "ready": tally.ready,
        "refused": tally.refused,
        "sending": tally.sending
    })
}

/// When the file of a customer came that is there longest, if there is one and that was seen.
#[tactic(auto, using(crate::proofs::Telling::oldest_first, crate::proofs::Telling::oldest_none))]
fn oldest_of(hub: &Hub, arrivals: &Arrivals, customer: u16) -> Option<u64>
    ensures { result ≡ oldest_of (part customer hub.now).customer.spool.whole (seen_of customer arrivals.now) }
{
    if hub.file_count(customer) == 0 {
        return None;
    }
    arrivals.moment(customer, hub.number_at(customer, 0))
}

/// How many blocks a customer's files take; 0 where the hub has no such customer.
#[tactic(auto, using(crate::proofs::Telling::not_there))]
pub(crate) fn used_by(hub: &Hub, customer: u16) -> u32
    ensures { result ≡ used_blocks (part customer hub.now).customer.spool }
{
    hub.used(customer).unwrap_or(0)
}

/// How many blocks they may take; 0 where the hub has no such customer.
#[tactic(auto, using(crate::proofs::Telling::not_there))]
pub(crate) fn quota_of(hub: &Hub, customer: u16) -> u32
    ensures { result ≡ (part customer hub.now).customer.entry.quota }
{
    hub.quota(customer).unwrap_or(0)
}

/// How many files are in each state.
#[tactic(auto, using(crate::proofs::Telling::tally_more))]
fn tally_of(hub: &Hub, customer: u16) -> Tally
    ensures { result ≡ tally_of (part customer hub.now).customer.spool.whole }
{
    let mut tally = Tally {
        ready: 0,
        held: 0,
        refused: 0,
        sending: 0,
    };
    for index in 0..hub.file_count(customer) {
        tally.add(hub.summary_at(customer, index).state);
    }
    tally
}

impl Tally {
    fn add(&mut self, state: State)
        requires few { counted self.old < 2 ^ 32 - 1 }
        ensures { self.new ≡ tally_with state self.old }
    {
        match state {
            State::Ready => self.ready += 1,
            State::Held => self.held += 1,
            State::Refused => self.refused += 1,
            State::Sending => self.sending += 1,
        }
    }
}
