//! The spool of all customers.

mod partial;
mod reads;
mod srcbs;
mod whole;

ghost use Rattle.std.specs.Prelude.{◌≡◌, ℕ, ◌+◌, ◌*◌, ◌<◌, ◌≤◌, length, map, IfOk, IsOkUnless, IsSomeAnd, All, Some};
ghost use Rattle.std.specs.Prelude.{option_map, slice_get, sum_by};
ghost use Rattle.njh_spool.specs.CustomerSpool.{empty_spool, used_blocks};
ghost use Rattle.njh_spool.specs.Headers.{summary};
ghost use Rattle.njh_spool.specs.Quotas.{IsWithinLimits};
ghost use Rattle.njh_spool.specs.Spools.{spool_at, files_numbered, HasShortRecords, IsSound};
ghost use Rattle.njh_table.specs.Limits.{max_capacity, max_customers};

use crate::SpoolFault;
use crate::customer_files::{CustomerFiles, open_all};
use crate::file_headers::FileSummary;
use crate::file_id::FileId;
use crate::file_slots::FileSlots;
use crate::quota::Quota;
use crate::slot_places::slot_at;
use crate::store::BlockStore;
use njh_table::MAX_FILES;
use std::alloc::Global;
use std::marker::Model;

/// Each customer's files, under its quota. Customers are told by their number, from 0 on.
#[derive(Drop)]
pub struct Spool {
    store: BlockStore,
    slots: FileSlots,
    customers: Vec<CustomerFiles>,
}

impl Model for Spool {
    ghost use Rattle.std.specs.Prelude.{List};
    ghost use Rattle.njh_spool.specs.CustomerSpool.{CustomerSpool};
    ghost use Rattle.njh_spool.specs.code.Slots.{contents, spools_of, IsKept};

    ghost Value = { List CustomerSpool };

    ghost view = { λ s. spools_of s.customers.items (contents s.slots s.store.chains) };

    ghost invariant = { λ s. IsKept s.store s.slots s.customers.items };
}

/// The blocks that quotas add to.
fn blocks_of_all(quotas: &[Quota]) -> u32
    requires few { length quotas.now ≤ max_customers }
    requires limits { All IsWithinLimits quotas.now }
    ensures sum { result ≡ sum_by (λ q. q.blocks) quotas.now }
    ensures most { result ≤ max_capacity }
{
    let mut blocks = 0;
    for quota in quotas {
        blocks += quota.blocks;
    }
    blocks
}

impl Spool {
    /// A spool without files, with these quotas in the customers' order. It takes all the memory
    /// that it ever has.
    pub fn open(alloc: Global, quotas: &[Quota]) -> Result<Self, SpoolFault>
        requires some { 0 < length quotas.now }
        requires few { length quotas.now ≤ max_customers }
        requires limits { All IsWithinLimits quotas.now }
        ensures ok { IfOk result (λ spool. spool ≡ map (λ q. empty_spool q.blocks q.files) quotas.now) }
        ensures memory { IsOkUnless result SpoolFault.Memory }
    {
        let slot_count = MAX_FILES * quotas.len() as u32;
        let store = BlockStore::open(alloc, blocks_of_all(quotas), slot_count)?;
        let slots = FileSlots::open(alloc, quotas.len() as u32)?;
        let customers = open_all(alloc, quotas)?;
        Ok(Spool {
            store,
            slots,
            customers,
        })
    }

    /// How many customers there are.
    pub fn customers(&self) -> u16
        ensures { result ≡ length self.now }
    {
        self.customers.len() as u16
    }

    /// How many blocks a customer's files take, partial ones too.
    pub fn used(&self, customer: u16) -> u32
        requires { customer < length self.now }
        ensures { result ≡ used_blocks (spool_at customer self.now) }
    {
        self.customers[usize::from(customer)].used
    }

    /// How many whole files a customer has.
    pub fn files(&self, customer: u16) -> u32
        requires { customer < length self.now }
        ensures { result ≡ length (spool_at customer self.now).whole }
    {
        self.customers[usize::from(customer)].whole.len() as u32
    }

    /// How many files of a customer have become whole so far, those that have left again too. The
    /// count stays at the greatest `u64`.
    pub fn arrived(&self, customer: u16) -> u64
        requires { customer < length self.now }
        ensures { result ≡ (spool_at customer self.now).arrived }
    {
        self.customers[usize::from(customer)].arrived
    }

    /// A customer's whole file, by its index in order of arrival. No other file of the customer has
    /// its number, as `quota_holds` says.
    pub fn file_at(&self, customer: u16, index: u32) -> FileId
        requires range { customer < length self.now }
        requires index_range { index < length (spool_at customer self.now).whole }
        ensures number { IsSomeAnd (slice_get (spool_at customer self.now).whole index) (λ f. result ≡ f.number) }
        ensures sound { IsSound (spool_at customer self.now) }
    {
        FileId::of(
            self.customers[usize::from(customer)]
                .whole
                .at(index as usize),
        )
    }

    /// What is known of a customer's whole file without a look at its records, by its index in
    /// order of arrival.
    pub fn summary_at(&self, customer: u16, index: u32) -> FileSummary
        requires range { customer < length self.now }
        requires index_range { index < length (spool_at customer self.now).whole }
        ensures { option_map summary (slice_get (spool_at customer self.now).whole index) ≡ Some result }
    {
        let id = self.file_at(customer, index);
        slot_at(&self.slots, customer, id).summary(id)
    }

    /// What holds of a customer's files after every call: their blocks are within its quota, they
    /// are no more than its limit, and no two of them have one number.
    pub fn quota_holds(&self, customer: u16)
        requires { customer < length self.now }
        ensures blocks { used_blocks (spool_at customer self.now) ≤ (spool_at customer self.now).quota }
        ensures files { length (spool_at customer self.now).whole + length (spool_at customer self.now).partial
            ≤ (spool_at customer self.now).limit }
        ensures numbers { (n : ℕ) → files_numbered n (spool_at customer self.now) ≤ 1 }
        ensures sound { IsSound (spool_at customer self.now) }
    {
        let _store = &self.store;
    }

    /// What holds of the records of a customer's whole files after every call: each is of 256 bytes
    /// at most.
    pub fn records_are_short(&self, customer: u16)
        requires { customer < length self.now }
        ensures { All HasShortRecords (spool_at customer self.now).whole }
    {
        let _store = &self.store;
    }
}
