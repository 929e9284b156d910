//! The hub as a whole, and what the service knows of itself.

ghost use Rattle.std.specs.Prelude.{◌≡◌, ◌<◌, length, map, IfOk};
ghost use Rattle.serde_json.specs.View.{view};
ghost use Rattle.njh_line.specs.Laws.{is_up};
ghost use Rattle.njh_hub.specs.WholeHub.{part};
ghost use Rattle.njh_answer.specs.Lines.{line_where};
ghost use Rattle.njh_answer.specs.Status.{blocks_data, capacity_data, files_of, is_line_up, lines_counted, lines_of};
ghost use Rattle.njh_answer.specs.Status.{most_of, quota_of, status_data, sum_of, sums_data, up_of, up_to, used_of};
ghost use Rattle.njh_answer.specs.Status.{with_troubles};

use crate::customers::{quota_of, used_by};
use crate::lines::lines_at;
use crate::members::with_member;
use crate::served::moment_value;
use crate::troubles::{texts_value, troubles_value};
use crate::views::ServiceView;
use njh_hub::Hub;
use njh_line::Phase;
use njh_table::{LineId, Tables};
use serde_json::{Value, json};
use std::alloc::{AllocError, Global};

/// What the service knows of itself, and sums over the hub. Out of memory is the only refusal.
pub(crate) fn status_value(
    alloc: Global,
    hub: &Hub,
    tables: &Tables,
    service: &ServiceView,
) -> Result<Value, AllocError>
    ensures { IfOk result (λ value. view value ≡ status_data tables.now hub.now service.now) }
{
    let value = sums_value(alloc, hub, tables, service)?;
    let value = with_troubles(alloc, service, value)?;
    let capacity = capacity_value(alloc, hub, tables)?;
    let value = with_member(alloc, "capacity", capacity, value)?;
    let log_bytes = moment_value(service.log_bytes);
    let value = with_member(alloc, "log_bytes", log_bytes, value)?;
    with_member(alloc, "now", Value::from(service.clock), value)
}

/// The sums over the hub, what the service is, and what is wrong, in words.
fn sums_value(
    alloc: Global,
    hub: &Hub,
    tables: &Tables,
    service: &ServiceView,
) -> Result<Value, AllocError>
    ensures { IfOk result (λ value. view value ≡ sums_data tables.now hub.now service.now) }
{
    let blocks = blocks_value(alloc, hub, tables)?;
    let faults = texts_value(alloc, &service.troubles)?;
    let lines = lines_value(alloc, hub, tables)?;
    json!(in alloc; {
        "blocks": blocks,
        "customers": customer_count(tables),
        "faults": faults,
        "file_bytes": moment_value(service.file_bytes),
        "files": files_of_all(hub, tables),
        "lines": lines,
        "since": service.since,
        "version": service.version.as_str()
    })
}

/// The same with what is wrong, since when and how grave it is, and what the operator wants so.
fn with_troubles(alloc: Global, service: &ServiceView, value: Value) -> Result<Value, AllocError>
    ensures { IfOk result (λ told. view told ≡ with_troubles service.now (view value)) }
{
    let wrong = troubles_value(alloc, &service.troubles)?;
    let value = with_member(alloc, "wrong", wrong, value)?;
    let intended = troubles_value(alloc, &service.intended)?;
    with_member(alloc, "intended", intended, value)
}

/// The blocks and the files that all customers may have.
fn capacity_value(alloc: Global, hub: &Hub, tables: &Tables) -> Result<Value, AllocError>
    ensures { IfOk result (λ value. view value ≡ capacity_data tables.now hub.now) }
{
    let blocks = quota_of_all(hub, tables);
    let files = most_of_all(tables);
    json!(in alloc; {"blocks": blocks, "files": files})
}

/// The blocks that all files take, and those that they may still take.
fn blocks_value(alloc: Global, hub: &Hub, tables: &Tables) -> Result<Value, AllocError>
    ensures { IfOk result (λ value. view value ≡ blocks_data tables.now hub.now) }
{
    let used = used_of_all(hub, tables);
    let left = quota_of_all(hub, tables).saturating_sub(used);
    json!(in alloc; {"left": left, "used": used})
}

/// How many lines there are, and how many are up.
fn lines_value(alloc: Global, hub: &Hub, tables: &Tables) -> Result<Value, AllocError>
    ensures { IfOk result (λ value. view value ≡ lines_counted tables.now hub.now) }
{
    let all = lines_of_all(tables);
    let up = up_of_all(hub, tables);
    json!(in alloc; {"all": all, "up": up})
}

/// The lines of all customers.
#[tactic(auto, using(crate::proofs::Summing::sum_more))]
fn lines_of_all(tables: &Tables) -> u64
    ensures { result ≡ sum_of (lines_of tables.now) tables.now }
{
    let mut sum = 0;
    for customer in 0..customer_count(tables) {
        sum += u64::from(line_count(tables, customer));
    }
    sum
}

/// The lines of all customers that are up.
#[tactic(auto, using(crate::proofs::Summing::sum_more))]
fn up_of_all(hub: &Hub, tables: &Tables) -> u64
    ensures { result ≡ sum_of (up_of tables.now hub.now) tables.now }
{
    let mut sum = 0;
    for customer in 0..customer_count(tables) {
        sum += u64::from(lines_up(hub, customer, line_count(tables, customer)));
    }
    sum
}

/// How many of a customer's first lines, so many, are up.
#[tactic(auto, using(crate::proofs::Summing::up_more))]
fn lines_up(hub: &Hub, customer: u16, count: u16) -> u16
    ensures { result ≡ up_to (part customer hub.now) count }
{
    let mut up = 0;
    for number in 0..count {
        if is_line_up(hub, LineId { customer, number }) {
            up += 1;
        }
    }
    up
}

/// Whether a line is up.
#[tactic(auto, using(crate::proofs::Telling::line_here, crate::proofs::Telling::line_nowhere))]
fn is_line_up(hub: &Hub, id: LineId) -> bool
    ensures { result ≡ is_line_up (line_where id.number (part id.customer hub.now)) }
{
    match hub.session(id) {
        Ok(session) => is_up(session.phase),
        Err(_) => false,
    }
}

fn is_up(phase: Phase) -> bool
    ensures { result ≡ is_up phase }
{
    matches!(phase, Phase::Up)
}

/// The files of all customers.
#[tactic(auto, using(crate::proofs::Summing::sum_more))]
fn files_of_all(hub: &Hub, tables: &Tables) -> u64
    ensures { result ≡ sum_of (files_of hub.now) tables.now }
{
    let mut sum = 0;
    for customer in 0..customer_count(tables) {
        sum += u64::from(hub.file_count(customer));
    }
    sum
}

/// The blocks that they take.
#[tactic(auto, using(crate::proofs::Summing::sum_more))]
fn used_of_all(hub: &Hub, tables: &Tables) -> u64
    ensures { result ≡ sum_of (used_of hub.now) tables.now }
{
    let mut sum = 0;
    for customer in 0..customer_count(tables) {
        sum += u64::from(used_by(hub, customer));
    }
    sum
}

/// The blocks that they may take.
#[tactic(auto, using(crate::proofs::Summing::sum_more))]
fn quota_of_all(hub: &Hub, tables: &Tables) -> u64
    ensures { result ≡ sum_of (quota_of hub.now) tables.now }
{
    let mut sum = 0;
    for customer in 0..customer_count(tables) {
        sum += u64::from(quota_of(hub, customer));
    }
    sum
}

/// The files that all customers may have.
#[tactic(auto, using(crate::proofs::Summing::sum_more))]
fn most_of_all(tables: &Tables) -> u64
    ensures { result ≡ sum_of (most_of tables.now) tables.now }
{
    let mut sum = 0;
    for customer in 0..customer_count(tables) {
        sum += u64::from(most_of(tables, customer));
    }
    sum
}

/// How many files a customer may have.
fn most_of(tables: &Tables, customer: u16) -> u32
    requires { customer < length tables.now.customers }
    ensures { result ≡ most_of tables.now customer }
{
    tables.customer(customer).files()
}

/// How many customers there are.
#[tactic(auto, using(crate::proofs::TableBounds::few_customers))]
fn customer_count(tables: &Tables) -> u16
    ensures { result ≡ length tables.now.customers }
{
    tables.customers().len() as u16
}

/// How many lines a customer has.
fn line_count(tables: &Tables, customer: u16) -> u16
    requires { customer < length tables.now.customers }
    ensures { result ≡ lines_of tables.now customer }
{
    lines_at(tables, usize::from(customer)).len() as u16
}
