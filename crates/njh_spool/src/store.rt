//! Byte strings in chained blocks of one slab, a string for each chain.
//!
//! All memory is taken by `open`.

mod appending;
pub mod chain_block;
pub mod chain_ends;
mod laws;
pub mod spool_block;
mod string_places;

ghost use Rattle.std.specs.Prelude.{◌≡◌, ◌+◌, ◌<◌, ◌≤◌, ◌++◌, length, replicate, IfOk};
ghost use Rattle.njh_record.specs.Bytes.{field, with_field};
ghost use Rattle.njh_spool.specs.code.Chains.{empty_chain, chain_at, with_chain, with_bytes, blocks_for};
ghost use Rattle.njh_spool.specs.code.Chains.{blocks_used, Grows, IsBlockOf, IsNear};
ghost use Rattle.njh_table.specs.Limits.{max_capacity};

use chain_block::{ChainBlock, FIRST_BLOCK};
use chain_ends::{ChainEnds, empty_chains};
pub use laws::each_block_lies_once;
use njh_record::Record;
use slab::Slab;
use spool_block::{BLOCK_DATA, SpoolBlock};
use std::alloc::{AllocError, Global};
use std::marker::Model;

/// The strings of all chains.
#[derive(Drop)]
pub struct BlockStore {
    blocks: Slab<SpoolBlock>,
    chains: Vec<ChainEnds>,
    capacity: u32,
}

impl Model for BlockStore {
    ghost use Rattle.njh_spool.specs.code.Chains.{StoreValue};
    ghost use Rattle.njh_spool.specs.code.ChainedBlocks.{chains_of, IsChained};

    ghost Value = { StoreValue };

    ghost view = { λ s. record { capacity = s.capacity; chains = chains_of s.blocks s.chains.items } };

    ghost invariant = { λ s. IsChained s.blocks s.chains.items s.capacity };
}

impl BlockStore {
    /// A store of so many blocks and chains, with an empty string in each chain.
    pub fn open(alloc: Global, capacity: u32, chains: u32) -> Result<Self, AllocError>
        requires { capacity ≤ max_capacity }
        ensures { IfOk result (λ store. store ≡ record { capacity = capacity; chains = replicate chains empty_chain }) }
    {
        let blocks = Slab::with_capacity(alloc, capacity as usize)?;
        if blocks.capacity() > u32::MAX as usize {
            return Err(AllocError);
        }
        let chains = empty_chains(alloc, chains)?;
        Ok(BlockStore {
            blocks,
            chains,
            capacity,
        })
    }

    /// How many bytes a chain's string has.
    pub fn len(&self, chain: u32) -> u32
        requires { chain < length self.now.chains }
        ensures bytes { result ≡ length (chain_at chain self.now).bytes }
        ensures blocks { length (chain_at chain self.now).keys ≡ blocks_for result }
    {
        self.chains[chain as usize].len
    }

    /// A chain's last block, from which the end of its string is found; the first where it has none.
    pub fn last_block(&self, chain: u32) -> ChainBlock
        requires { chain < length self.now.chains }
        ensures block { IsBlockOf (chain_at chain self.now).keys result }
        ensures near { IsNear result (length (chain_at chain self.now).bytes) }
    {
        let ends = self.chains[chain as usize];
        if ends.len == 0 {
            return FIRST_BLOCK;
        }
        ChainBlock {
            index: ends.len.div_ceil(BLOCK_DATA as u32) - 1,
            key: ends.last,
        }
    }

    /// Appends to a chain's string.
    pub fn append(&mut self, chain: u32, bytes: &[u8])
        requires chain { chain < length self.old.chains }
        requires room { blocks_used (with_bytes chain
            ((chain_at chain self.old).bytes ++ bytes.now) self.old) ≤ self.old.capacity }
        ensures { Grows chain bytes.now self.old self.new }
    {
        let room = self.room_in_last(chain);
        let (first, mut left) = bytes.split_at(room.min(bytes.len()));
        self.fill_last(chain, first);
        while !left.is_empty() {
            let (part, after) = left.split_at(BLOCK_DATA.min(left.len()));
            self.add_block(chain, part);
            left = after;
        }
    }

    /// Appends two runs of bytes to a chain's string, one after the other.
    pub fn append_both(&mut self, chain: u32, first: &[u8], second: &[u8])
        requires chain { chain < length self.old.chains }
        requires room { blocks_used (with_bytes chain
            ((chain_at chain self.old).bytes ++ (first.now ++ second.now)) self.old) ≤ self.old.capacity }
        ensures { Grows chain (first.now ++ second.now) self.old self.new }
    {
        self.append(chain, first);
        self.append(chain, second);
    }

    /// Empties a chain's string, and gives its blocks back.
    pub fn clear(&mut self, chain: u32)
        requires { chain < length self.old.chains }
        ensures { self.new ≡ with_chain chain empty_chain self.old }
    {
        while self.len(chain) > 0 {
            self.remove_first(chain);
        }
    }

    /// Writes eight bytes over those from a place on of a chain's string, looked for from a block
    /// on.
    pub fn overwrite(&mut self, chain: u32, from: ChainBlock, place: u32, bytes: [u8; 8])
        requires chain { chain < length self.old.chains }
        requires block { IsBlockOf (chain_at chain self.old).keys from }
        requires within { place + 8 ≤ length (chain_at chain self.old).bytes }
        ensures { self.new ≡ with_bytes chain (with_field place bytes (chain_at chain self.old).bytes) self.old }
    {
        let place = place as usize;
        let near = self.seek(chain, from, place);
        let block = self.reach(chain, near, place);
        let room = (block.index as usize + 1) * BLOCK_DATA - place;
        let (first, second) = bytes.split_at(room.min(bytes.len()));
        self.put_part(chain, block, place, first);
        self.put_rest(chain, block, place + first.len(), second);
    }

    /// Puts `n` bytes from a place on of a chain's string into `into`. They are looked for from a
    /// block on, where it isn't behind them, and else from the first block on. Gives a block to
    /// read on from.
    pub fn read(
        &self,
        chain: u32,
        from: ChainBlock,
        place: u32,
        n: usize,
        into: &mut Record,
    ) -> ChainBlock
        requires chain { chain < length self.now.chains }
        requires block { IsBlockOf (chain_at chain self.now).keys from }
        requires short { n ≤ 256 }
        requires within { place + n ≤ length (chain_at chain self.now).bytes }
        ensures bytes { into.new.items ≡ field place n (chain_at chain self.now).bytes }
        ensures block { IsBlockOf (chain_at chain self.now).keys result }
        ensures near { IsNear result (place + n) }
    {
        let place = place as usize;
        let mut block = self.seek(chain, from, place);
        into.clear();
        while into.len() < n {
            let at = place + into.len();
            block = self.reach(chain, block, at);
            let room = (block.index as usize + 1) * BLOCK_DATA - at;
            self.copy_part(chain, block, at, room.min(n - into.len()), into);
        }
        block
    }
}
