//! A law of the store.

ghost use Rattle.std.specs.Prelude.{◌≡◌, ℕ, ◌*◌, List, length, All};
ghost use Rattle.slab.specs.Slab.{Slab, ContainsKey};
ghost use Rattle.njh_table.specs.Limits.{max_files};
ghost use Rattle.njh_spool.specs.code.BlocksOfFiles.{LiesInOneFile};
ghost use Rattle.njh_spool.specs.code.Chains.{blocks_for};
ghost use Rattle.njh_spool.specs.code.ChainedBlocks.{keys_of, LiesInOne, IsChained};
ghost use Rattle.njh_spool.specs.declared.store.spool_block.SpoolBlock.{SpoolBlock};
ghost use Rattle.njh_spool.specs.declared.store.chain_ends.ChainEnds.{ChainEnds};

/// In every store each block that isn't vacant lies once in exactly one chain, and a chain has as
/// many blocks as its string needs. Where the chains are those of customers' numbers, that is one
/// file of one customer.
pub fn each_block_lies_once()
    ensures one { (blocks : Slab SpoolBlock) (chains : List ChainEnds) (capacity : ℕ) → IsChained blocks chains capacity
        → (key : ℕ) → ContainsKey blocks key → LiesInOne blocks chains key }
    ensures file { (blocks : Slab SpoolBlock) (chains : List ChainEnds) (capacity customers : ℕ)
        → IsChained blocks chains capacity → length chains ≡ max_files * customers
        → (key : ℕ) → ContainsKey blocks key → LiesInOneFile blocks chains customers key }
    ensures sized { (blocks : Slab SpoolBlock) (chains : List ChainEnds) (capacity : ℕ)
        → IsChained blocks chains capacity → All (λ ends. length (keys_of blocks ends) ≡ blocks_for ends.len) chains }
{}
