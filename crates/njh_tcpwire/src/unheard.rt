//! Bytes that came on a connection and weren't heard yet.

ghost use Rattle.std.specs.Prelude.{◌≡◌, ◌<◌, ◌≤◌, ◌↔◌, [], ◌++◌, length, drop, take, IsTrue, IfOk};

use std::alloc::{AllocError, Global};
use std::marker::Model;

/// How many bytes are read at once.
pub(crate) const READ: usize = 4_096;

/// Bytes that came, in room for one read that was taken at the beginning.
#[derive(Drop)]
pub(crate) struct Unheard {
    bytes: Vec<u8>,
}

impl Model for Unheard {
    ghost use Rattle.std.specs.Prelude.{List, ℕ, ◌≤◌, vec_capacity};

    ghost Value = { List ℕ };

    ghost view = { λ unheard. unheard.bytes.items };

    ghost invariant = { λ unheard. 4096 ≤ vec_capacity unheard.bytes };
}

impl Unheard {
    /// No bytes.
    pub(crate) fn new(alloc: Global) -> Result<Unheard, AllocError>
        ensures { IfOk result (λ unheard. unheard ≡ []) }
    {
        Ok(Unheard {
            bytes: Vec::with_capacity(alloc, READ)?,
        })
    }

    /// Keeps what a read gave.
    pub(crate) fn keep(&mut self, bytes: &[u8])
        requires empty { self.old ≡ [] }
        requires few { length bytes.now ≤ READ }
        ensures { self.new ≡ bytes.now }
    {
        self.bytes.extend_from_slice(bytes).unwrap();
    }

    /// Drops bytes from the front.
    pub(crate) fn remove_front(&mut self, count: usize)
        requires { count ≤ length self.old }
        ensures { self.new ≡ drop count self.old }
    {
        self.bytes.drain(..count);
    }

    /// The bytes.
    pub(crate) fn as_slice(&self) -> &[u8]
        ensures { result.now ≡ self.now }
    {
        &self.bytes
    }

    /// Whether there are none.
    pub(crate) fn is_empty(&self) -> bool
        ensures { IsTrue result ↔ (self.now ≡ []) }
    {
        self.bytes.is_empty()
    }
}
