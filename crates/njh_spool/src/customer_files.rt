//! What a customer may use of the spool, and uses, and which of its slots have a file.

ghost use Rattle.std.specs.Prelude.{◌≡◌, [], map, IfOk};

use crate::number_list::Numbers;
use crate::quota::Quota;
use std::alloc::{AllocError, Global};

/// In whole blocks, and in files.
#[derive(Drop)]
pub struct CustomerFiles {
    pub quota: u32,
    pub limit: u32,
    pub used: u32,
    /// How many files have become whole so far. It stays at the greatest `u64`.
    pub arrived: u64,
    /// In order of arrival.
    pub whole: Numbers,
    /// In the order in which they began.
    pub partial: Numbers,
}

impl CustomerFiles {
    pub fn open(alloc: Global, quota: &Quota) -> Result<Self, AllocError>
        ensures { IfOk result (λ files. files
            ≡ record {
              quota = quota.now.blocks;
              limit = quota.now.files;
              used = 0;
              arrived = 0;
              whole = [];
              partial = [];
            }) }
    {
        Ok(CustomerFiles {
            quota: quota.blocks,
            limit: quota.files,
            used: 0,
            arrived: 0,
            whole: Numbers::new(alloc)?,
            partial: Numbers::new(alloc)?,
        })
    }
}

/// Customers without files, in the order of their quotas.
pub fn open_all(alloc: Global, quotas: &[Quota]) -> Result<Vec<CustomerFiles>, AllocError>
    ensures { IfOk result (λ customers. customers.items
        ≡ map (λ q. record { quota = q.blocks; limit = q.files; used = 0; arrived = 0; whole = []; partial = [] })
        quotas.now) }
{
    let mut customers = Vec::with_capacity(alloc, quotas.len())?;
    for quota in quotas {
        customers.push_reserved(CustomerFiles::open(alloc, quota)?);
    }
    Ok(customers)
}
