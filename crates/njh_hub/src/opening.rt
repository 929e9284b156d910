//! What a hub keeps of its tables, just opened: these without marks, a spool under its customers'
//! quotas, and their lines.

ghost use Rattle.std.specs.Prelude.{◌≡◌, ℕ, ◌<◌, length, map, IfOk, OnErr, Err};
ghost use Rattle.njh_customer.specs.Part.{part_at_open, part_with};
ghost use Rattle.njh_hub.specs.Parts.{empty_files, lines_at, quota_in};
ghost use Rattle.njh_table.specs.Accepted.{IsAccepted};
ghost use Rattle.njh_table.specs.Marks.{entry_unmarked, without_marks};
ghost use Rattle.njh_table.specs.TableFile.{customer_at, entry_of};

use crate::fault::HubFault;
use njh_customer::Lines;
use njh_spool::{Quota, Spool};
use njh_table::{NamedCustomer, Tables};
use std::alloc::{AllocError, Global};

/// The tables with no line marked as up.
pub(crate) fn all_down(tables: Tables) -> Tables
    ensures { result ≡ without_marks tables }
{
    let mut tables = tables;
    tables.set_all_down();
    tables
}

/// A spool without files, under the quotas of the tables' customers. Want of memory is the only
/// refusal.
pub(crate) fn open_spool(alloc: Global, tables: &Tables) -> Result<Spool, HubFault>
    ensures empty { IfOk result (λ spool. spool ≡ map empty_files tables.now.customers) }
    ensures memory { OnErr result (result ≡ Err HubFault.Memory) }
{
    let quotas = quotas_of(alloc, tables)?;
    match Spool::open(alloc, quotas.as_slice()) {
        Ok(spool) => Ok(spool),
        Err(_) => Err(HubFault::Memory),
    }
}

/// The quotas of the tables' customers, in their order.
fn quotas_of(alloc: Global, tables: &Tables) -> Result<Vec<Quota>, AllocError>
    ensures each { IfOk result (λ quotas. quotas.items ≡ map quota_in tables.now.customers) }
    ensures accepted { IsAccepted tables.now }
{
    let mut quotas = Vec::with_capacity(alloc, tables.customers().len())?;
    for customer in tables.customers() {
        quotas.push(quota_of(customer))?;
    }
    Ok(quotas)
}

/// A customer's quota.
fn quota_of(customer: &NamedCustomer) -> Quota
    ensures { result ≡ quota_in customer.now }
{
    Quota {
        blocks: customer.quota(),
        files: customer.files(),
    }
}

/// The lines of each customer of the tables, each down, with no stream about a file. Want of memory
/// is the only refusal.
pub(crate) fn open_lines(alloc: Global, tables: &Tables) -> Result<Vec<Lines>, AllocError>
    ensures count { IfOk result (λ lines. length lines.items ≡ length tables.now.customers) }
    ensures opened { IfOk result (λ lines. (c : ℕ) → c < length tables.now.customers →
        part_with (entry_unmarked (entry_of (customer_at tables.now c))) (empty_files (customer_at tables.now c))
        (lines_at c lines.items)
        ≡ part_at_open (entry_of (customer_at tables.now c))) }
    ensures accepted { IsAccepted tables.now }
{
    let mut lines = Vec::with_capacity(alloc, tables.customers().len())?;
    for customer in tables.customers() {
        lines.push(Lines::open(alloc, customer)?)?;
    }
    Ok(lines)
}
