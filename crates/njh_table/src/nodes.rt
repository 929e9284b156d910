//! Nodes of a customer's network, each found in a few steps, without taking memory.

ghost use Rattle.std.specs.Prelude.{◌≡◌, ◌<◌, ◌++◌, [], ◌∷◌, ℕ, length, bytes_eq, slice_index};
ghost use Rattle.std.specs.List.{list_any};
ghost use Rattle.njh_table.specs.code.Buckets.{bucket_at, bucket_of, end_of, IsIndexed};
ghost use Rattle.njh_table.specs.declared.nodes.TheConstants.{BUCKETS, MAX_NODES};

use crate::limits::MAX_ROUTES;
use arrayvec::ArrayVec;
use njh_ebcdic::Name;
use std::marker::Model;

/// How many nodes there are at most: one for each route, and the hub's own.
pub const MAX_NODES: usize = MAX_ROUTES + 1;

/// How many buckets there are: a prime, so that each of a name's eight bytes counts.
pub const BUCKETS: usize = 997;

/// The names of nodes, in the order in which they came. Each is in a bucket by its bytes, and the
/// names in a bucket are linked, from the last to the first.
#[derive(Drop)]
pub(crate) struct Nodes {
    names: ArrayVec<[u8; 8], MAX_NODES>,
    /// For each name, how many names there are up to the last before it in its bucket; 0 where it
    /// is the first.
    before: ArrayVec<u16, MAX_NODES>,
    /// For each bucket, how many names there are up to the last in it; 0 where none is.
    ends: [u16; BUCKETS],
}

impl Model for Nodes {
    ghost use Rattle.std.specs.Prelude.{ℕ, List};
    ghost use Rattle.njh_table.specs.code.Buckets.{IsIndexed};

    ghost Value = { List (List ℕ) };

    ghost view = { λ n. n.names.items };

    ghost invariant = { λ n. IsIndexed n.names.items n.before.items n.ends };
}

impl Nodes {
    /// No nodes.
    pub(crate) fn new() -> Nodes
        ensures { result ≡ [] }
    {
        Nodes {
            names: ArrayVec::new(),
            before: ArrayVec::new(),
            ends: no_ends(),
        }
    }

    /// Whether a node is one of them. It is compared with those of its bucket alone.
    pub(crate) fn contains(&self, node: Name) -> bool
        ensures { result ≡ list_any (bytes_eq node) self.now }
    {
        let name = node.bytes();
        let end = self.ends[bucket_of(&name)];
        is_among(&self.names, &self.before, end, &name)
    }

    /// Adds a node behind the others.
    pub(crate) fn insert(&mut self, node: Name)
        requires { length self.old < MAX_NODES }
        ensures { self.new ≡ self.old ++ node ∷ [] }
    {
        let name = node.bytes();
        let bucket = bucket_of(&name);
        self.before.push(self.ends[bucket]);
        self.names.push(name);
        self.ends[bucket] = self.names.len() as u16;
    }
}

/// No name is in a bucket.
fn no_ends() -> [u16; BUCKETS]
    ensures { (bucket : ℕ) → bucket < BUCKETS → slice_index result bucket ≡ 0 }
{
    [0; BUCKETS]
}

/// The bucket of a name.
#[tactic(auto, unfolding(crate::specs::code::Buckets::bucket_of))]
fn bucket_of(name: &[u8; 8]) -> usize
    ensures bucket { result ≡ bucket_of name.now }
    ensures within { result < BUCKETS }
{
    (u64::from_be_bytes(*name) % BUCKETS as u64) as usize
}

/// Whether a name is among others, of which `end` go up to the last in its bucket.
fn is_among(names: &[[u8; 8]], before: &[u16], end: u16, name: &[u8; 8]) -> bool
    requires count { length before.now ≡ length names.now }
    requires before { (k : ℕ) → k < length names.now →
        slice_index before.now k ≡ end_of names.now (bucket_at names.now k) k }
    requires end { end ≡ end_of names.now (bucket_of name.now) (length names.now) }
    ensures { result ≡ list_any (bytes_eq name.now) names.now }
{
    let mut count = usize::from(end);
    while count > 0 {
        if *name == names[count - 1] {
            return true;
        }
        count = usize::from(before[count - 1]);
    }
    false
}
