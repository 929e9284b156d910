//! A chain grows at its end, and is given back from its first block on.

ghost use Rattle.std.specs.Prelude.{◌≡◌, ◌+◌, ◌*◌, ◌<◌, ◌≤◌, ◌++◌, length, drop};
ghost use Rattle.njh_spool.specs.code.Chains.{Grows, chain_at, with_chain, with_bytes, blocks_of, blocks_used};

use crate::store::BlockStore;
use crate::store::chain_ends::ChainEnds;
use crate::store::spool_block::{BLOCK_DATA, SpoolBlock, link, put};

impl BlockStore {
    /// How many bytes more go into the last block of a chain.
    pub(super) fn room_in_last(&self, chain: u32) -> usize
        requires { chain < length self.now.chains }
        ensures { length (chain_at chain self.now).bytes + result ≡ 252 * blocks_of (chain_at chain self.now).bytes }
    {
        let len = self.chains[chain as usize].len as usize;
        BLOCK_DATA * len.div_ceil(BLOCK_DATA) - len
    }

    /// Appends what the last block has room for.
    pub(super) fn fill_last(&mut self, chain: u32, bytes: &[u8])
        requires chain { chain < length self.old.chains }
        requires room { length (chain_at chain self.old).bytes + length bytes.now ≤ 252 * blocks_of
            (chain_at chain self.old).bytes }
        ensures { self.new ≡ with_bytes chain ((chain_at chain self.old).bytes ++ bytes.now) self.old }
    {
        if !bytes.is_empty() {
            self.extend_last(chain, bytes);
        }
    }

    /// Appends at least a byte to a string whose last block has room for it.
    pub(super) fn extend_last(&mut self, chain: u32, bytes: &[u8])
        requires chain { chain < length self.old.chains }
        requires some { 0 < length bytes.now }
        requires room { length (chain_at chain self.old).bytes + length bytes.now ≤ 252 * blocks_of
            (chain_at chain self.old).bytes }
        ensures { self.new ≡ with_bytes chain ((chain_at chain self.old).bytes ++ bytes.now) self.old }
    {
        let old = self.chains[chain as usize];
        put(
            &mut self.blocks,
            old.last,
            old.len as usize % BLOCK_DATA,
            bytes,
        );
        self.chains[chain as usize] = ChainEnds {
            head: old.head,
            last: old.last,
            len: old.len + bytes.len() as u32,
        };
    }

    /// Appends a block's bytes to an empty string.
    pub(super) fn add_first(&mut self, chain: u32, bytes: &[u8])
        requires chain { chain < length self.old.chains }
        requires some { 0 < length bytes.now }
        requires short { length bytes.now ≤ 252 }
        requires empty { length (chain_at chain self.old).bytes ≡ 0 }
        requires room { blocks_used self.old < self.old.capacity }
        ensures { Grows chain bytes.now self.old self.new }
    {
        let key = self.blocks.insert_reserved(SpoolBlock::of(bytes)) as u32;
        self.chains[chain as usize] = ChainEnds {
            head: key,
            last: key,
            len: bytes.len() as u32,
        };
    }

    /// Appends a block's bytes to a string that fills its last block.
    pub(super) fn add_next(&mut self, chain: u32, bytes: &[u8])
        requires chain { chain < length self.old.chains }
        requires some { 0 < length bytes.now }
        requires short { length bytes.now ≤ 252 }
        requires more { 0 < length (chain_at chain self.old).bytes }
        requires filled { length (chain_at chain self.old).bytes ≡ 252 * blocks_of (chain_at chain self.old).bytes }
        requires room { blocks_used self.old < self.old.capacity }
        ensures { Grows chain bytes.now self.old self.new }
    {
        let old = self.chains[chain as usize];
        let key = self.blocks.insert_reserved(SpoolBlock::of(bytes)) as u32;
        link(&mut self.blocks, old.last, key);
        self.chains[chain as usize] = ChainEnds {
            head: old.head,
            last: key,
            len: old.len + bytes.len() as u32,
        };
    }

    /// Appends a block's bytes to a string that fills its blocks.
    pub(super) fn add_block(&mut self, chain: u32, bytes: &[u8])
        requires chain { chain < length self.old.chains }
        requires some { 0 < length bytes.now }
        requires short { length bytes.now ≤ 252 }
        requires filled { length (chain_at chain self.old).bytes ≡ 252 * blocks_of (chain_at chain self.old).bytes }
        requires room { blocks_used self.old < self.old.capacity }
        ensures { Grows chain bytes.now self.old self.new }
    {
        if self.len(chain) == 0 {
            self.add_first(chain, bytes);
        } else {
            self.add_next(chain, bytes);
        }
    }

    /// Gives back a chain's first block.
    pub(super) fn remove_first(&mut self, chain: u32)
        requires chain { chain < length self.old.chains }
        requires some { 0 < length (chain_at chain self.old).bytes }
        ensures { self.new ≡ with_chain chain (record {
          keys = drop 1 (chain_at chain self.old).keys;
          bytes = drop 252 (chain_at chain self.old).bytes;
        }) self.old }
    {
        let old = self.chains[chain as usize];
        let first = self.blocks.remove(old.head as usize);
        self.chains[chain as usize] = ChainEnds {
            head: first.next,
            last: old.last,
            len: old.len.saturating_sub(BLOCK_DATA as u32),
        };
    }
}
