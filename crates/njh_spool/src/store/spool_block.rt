//! Blocks of the store.

ghost use Rattle.std.specs.Prelude.{◌≡◌, ◌+◌, ◌-◌, ◌≤◌, ◌++◌, length, replicate};
ghost use Rattle.slab.specs.Slab.{ContainsKey, with_value};
ghost use Rattle.njh_record.specs.Bytes.{with_field};
ghost use Rattle.njh_spool.specs.code.ChainedBlocks.{next_at, data_at};

use slab::Slab;

/// The data bytes of a block.
pub const BLOCK_DATA: usize = 252;

/// A block's data, and the key of the next block of its chain, where there is one.
#[derive(Clone, Copy)]
pub struct SpoolBlock {
    pub bytes: [u8; BLOCK_DATA],
    pub next: u32,
}

impl SpoolBlock {
    /// A block that begins with these bytes.
    pub fn of(bytes: &[u8]) -> Self
        requires { length bytes.now ≤ 252 }
        ensures { result ≡ record { bytes = bytes.now ++ replicate (252 - length bytes.now) 0; next = 0 } }
    {
        let mut data = [0; BLOCK_DATA];
        data[..bytes.len()].copy_from_slice(bytes);
        SpoolBlock {
            bytes: data,
            next: 0,
        }
    }
}

/// Links a block to another.
pub fn link(blocks: &mut Slab<SpoolBlock>, key: u32, next: u32)
    requires { ContainsKey blocks.old key }
    ensures { blocks.new ≡ with_value blocks.old key (record { bytes = data_at blocks.old key; next = next }) }
{
    blocks[key as usize].next = next;
}

/// Writes bytes at a place of a block.
pub fn put(blocks: &mut Slab<SpoolBlock>, key: u32, place: usize, bytes: &[u8])
    requires block { ContainsKey blocks.old key }
    requires within { place + length bytes.now ≤ 252 }
    ensures { blocks.new ≡ with_value blocks.old key
        (record { bytes = with_field place bytes.now (data_at blocks.old key); next = next_at blocks.old key }) }
{
    blocks[key as usize].bytes[place..place + bytes.len()].copy_from_slice(bytes);
}
