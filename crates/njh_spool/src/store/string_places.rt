//! Places of a string: the blocks where they lie.

ghost use Rattle.std.specs.Prelude.{◌≡◌, ◌+◌, ◌*◌, ◌<◌, ◌≤◌, ◌++◌, length, slice_get, Some};
ghost use Rattle.njh_record.specs.Bytes.{field, with_field};
ghost use Rattle.njh_spool.specs.code.Chains.{chain_at, with_bytes, IsBlockOf, IsNear};

use crate::store::BlockStore;
use crate::store::chain_block::{ChainBlock, FIRST_BLOCK};
use crate::store::spool_block::{BLOCK_DATA, put};
use njh_record::Record;

impl BlockStore {
    /// The key of a chain's block.
    pub(super) fn key_of(&self, chain: u32, block: ChainBlock) -> u32
        requires chain { chain < length self.now.chains }
        requires block { IsBlockOf (chain_at chain self.now).keys block }
        requires within { 252 * block.index < length (chain_at chain self.now).bytes }
        ensures { slice_get (chain_at chain self.now).keys block.index ≡ Some result }
    {
        if block.index == 0 {
            self.chains[chain as usize].head
        } else {
            block.key
        }
    }

    /// The block after another.
    pub(super) fn next(&self, chain: u32, block: ChainBlock) -> ChainBlock
        requires chain { chain < length self.now.chains }
        requires block { IsBlockOf (chain_at chain self.now).keys block }
        requires within { 252 * block.index + 252 < length (chain_at chain self.now).bytes }
        ensures block { IsBlockOf (chain_at chain self.now).keys result }
        ensures index { result.index ≡ block.index + 1 }
    {
        let key = self.key_of(chain, block);
        let next = self.blocks[key as usize].next;
        ChainBlock {
            index: block.index + 1,
            key: next,
        }
    }

    /// A block where a place lies or that ends there, looked for from a block on, where this isn't
    /// behind it.
    pub(super) fn seek(&self, chain: u32, from: ChainBlock, place: usize) -> ChainBlock
        requires chain { chain < length self.now.chains }
        requires block { IsBlockOf (chain_at chain self.now).keys from }
        requires within { place ≤ length (chain_at chain self.now).bytes }
        ensures block { IsBlockOf (chain_at chain self.now).keys result }
        ensures near { IsNear result place }
    {
        let mut block = if from.index as usize * BLOCK_DATA <= place {
            from
        } else {
            FIRST_BLOCK
        };
        while (block.index as usize + 1) * BLOCK_DATA < place {
            block = self.next(chain, block);
        }
        block
    }

    /// The block where a place lies: a block near it, or the next one.
    pub(super) fn reach(&self, chain: u32, block: ChainBlock, place: usize) -> ChainBlock
        requires chain { chain < length self.now.chains }
        requires block { IsBlockOf (chain_at chain self.now).keys block }
        requires near { IsNear block place }
        requires within { place < length (chain_at chain self.now).bytes }
        ensures block { IsBlockOf (chain_at chain self.now).keys result }
        ensures begins { 252 * result.index ≤ place }
        ensures ends { place < 252 * result.index + 252 }
    {
        if (block.index as usize + 1) * BLOCK_DATA == place {
            self.next(chain, block)
        } else {
            block
        }
    }

    /// Appends bytes that lie in one block to `into`.
    pub(super) fn copy_part(
        &self,
        chain: u32,
        block: ChainBlock,
        place: usize,
        n: usize,
        into: &mut Record,
    )
        requires chain { chain < length self.now.chains }
        requires block { IsBlockOf (chain_at chain self.now).keys block }
        requires begins { 252 * block.index ≤ place }
        requires ends { place + n ≤ 252 * block.index + 252 }
        requires within { place + n ≤ length (chain_at chain self.now).bytes }
        requires some { 0 < n }
        requires short { length into.old.items + n ≤ 256 }
        ensures { into.new.items ≡ into.old.items ++ field place n (chain_at chain self.now).bytes }
    {
        let key = self.key_of(chain, block);
        let at = place - block.index as usize * BLOCK_DATA;
        let bytes = &self.blocks[key as usize].bytes;
        into.try_extend_from_slice(&bytes[at..at + n]).unwrap();
    }

    /// Writes over bytes that lie in one block.
    pub(super) fn put_part(&mut self, chain: u32, block: ChainBlock, place: usize, bytes: &[u8])
        requires chain { chain < length self.old.chains }
        requires block { IsBlockOf (chain_at chain self.old).keys block }
        requires begins { 252 * block.index ≤ place }
        requires ends { place + length bytes.now ≤ 252 * block.index + 252 }
        requires within { place + length bytes.now ≤ length (chain_at chain self.old).bytes }
        requires some { 0 < length bytes.now }
        ensures { self.new ≡ with_bytes chain (with_field place bytes.now (chain_at chain self.old).bytes) self.old }
    {
        let key = self.key_of(chain, block);
        let at = place - block.index as usize * BLOCK_DATA;
        put(&mut self.blocks, key, at, bytes);
    }

    /// Writes over bytes from the end of a block on, if any are given.
    pub(super) fn put_rest(&mut self, chain: u32, block: ChainBlock, place: usize, bytes: &[u8])
        requires chain { chain < length self.old.chains }
        requires block { IsBlockOf (chain_at chain self.old).keys block }
        requires begins { 0 < length bytes.now → place ≡ 252 * block.index + 252 }
        requires short { length bytes.now ≤ 252 }
        requires within { place + length bytes.now ≤ length (chain_at chain self.old).bytes }
        ensures { self.new ≡ with_bytes chain (with_field place bytes.now (chain_at chain self.old).bytes) self.old }
    {
        if !bytes.is_empty() {
            let after = self.next(chain, block);
            self.put_part(chain, after, place, bytes);
        }
    }
}
