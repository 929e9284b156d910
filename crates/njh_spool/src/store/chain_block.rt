//! Where a block of a chain lies.

/// A block of a chain by its index, from 0 on, and its key. The first block is found without its
/// key.
#[derive(Clone, Copy)]
pub struct ChainBlock {
    pub index: u32,
    pub key: u32,
}

/// The first block of any chain.
pub const FIRST_BLOCK: ChainBlock = ChainBlock { index: 0, key: 0 };
