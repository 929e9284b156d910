//! Where a chain begins and ends.

ghost use Rattle.std.specs.Prelude.{◌≡◌, replicate, IfOk};

use std::alloc::{AllocError, Global};

/// The keys of a chain's first and last block, where it has any, and how many bytes it has.
#[derive(Clone, Copy)]
pub struct ChainEnds {
    pub head: u32,
    pub last: u32,
    pub len: u32,
}

/// So many empty chains.
pub fn empty_chains(alloc: Global, count: u32) -> Result<Vec<ChainEnds>, AllocError>
    ensures { IfOk result (λ chains. chains.items ≡ replicate count (record { head = 0; last = 0; len = 0 })) }
{
    let mut chains = Vec::with_capacity(alloc, count as usize)?;
    for _done in 0..count {
        chains.push_reserved(ChainEnds {
            head: 0,
            last: 0,
            len: 0,
        });
    }
    Ok(chains)
}
