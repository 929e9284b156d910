//! Bytes that wait to go out.

ghost use Rattle.std.specs.Prelude.{◌≡◌, ◌+◌, ◌≤◌, [], ◌++◌, length, drop, IsTrue, ◌↔◌, IfOk};
ghost use Rattle.std.specs.Bool.{OnTrue, OnFalse};
ghost use Rattle.njh_bisync.specs.Limits.{longest_frame};

use njh_bisync::LONGEST_FRAME;
use std::alloc::{AllocError, Global};
use std::marker::Model;

/// How many bytes may wait on a wire.
pub const ROOM: usize = 65_536;

/// Bytes that wait to go out, in room that was taken at the beginning.
#[derive(Drop)]
pub(crate) struct Outbox {
    bytes: Vec<u8>,
}

impl Model for Outbox {
    ghost use Rattle.std.specs.Prelude.{List, ℕ, ◌≤◌, length, vec_capacity};

    ghost Value = { List ℕ };

    ghost view = { λ a. a.bytes.items };

    ghost invariant = { (λ a. (65536 ≤ vec_capacity a.bytes) × (length a.bytes.items ≤ 65536)) };
}

impl Outbox {
    /// No bytes wait. Out of memory is the only refusal.
    pub(crate) fn new(alloc: Global) -> Result<Outbox, AllocError>
        ensures { IfOk result (λ outbox. outbox ≡ []) }
    {
        Ok(Outbox {
            bytes: Vec::with_capacity(alloc, ROOM)?,
        })
    }

    /// Adds bytes, if there is room for all of them, and answers whether there was.
    pub(crate) fn add(&mut self, bytes: &[u8]) -> bool
        ensures fits { IsTrue result ↔ (length self.old + length bytes.now ≤ ROOM) }
        ensures added { OnTrue result (self.new ≡ self.old ++ bytes.now) }
        ensures full { OnFalse result (self.new ≡ self.old) }
    {
        if bytes.len() > ROOM - self.bytes.len() {
            return false;
        }
        match self.bytes.extend_from_slice(bytes) {
            Ok(()) => true,
            Err(_) => unreachable!(),
        }
    }

    /// Drops bytes from the front.
    pub(crate) fn remove_front(&mut self, count: usize)
        requires { count ≤ length self.old }
        ensures { self.new ≡ drop count self.old }
    {
        self.bytes.drain(..count);
    }

    /// Has the bytes of another one, which has none then. Its own are dropped.
    pub(crate) fn take_all(&mut self, other: &mut Outbox)
        ensures taken { self.new ≡ other.old }
        ensures left { other.new ≡ [] }
    {
        std::mem::swap(self, other);
        other.clear();
    }

    /// Drops all bytes.
    pub(crate) fn clear(&mut self)
        ensures { self.new ≡ [] }
    {
        self.bytes.clear();
    }

    /// The bytes.
    pub(crate) fn as_slice(&self) -> &[u8]
        ensures { result.now ≡ self.now }
    {
        &self.bytes
    }

    /// Whether the longest frame has room besides.
    pub(crate) fn has_room(&self) -> bool
        ensures { IsTrue result ↔ (length self.now + longest_frame ≤ ROOM) }
    {
        self.bytes.len() + LONGEST_FRAME <= ROOM
    }

    /// Whether none wait.
    pub(crate) fn is_empty(&self) -> bool
        ensures { IsTrue result ↔ (self.now ≡ []) }
    {
        self.bytes.is_empty()
    }
}
