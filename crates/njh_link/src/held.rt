//! Bytes of one frame or TTB that are on their way.

ghost use Rattle.std.specs.Prelude.{◌≡◌, ◌≤◌, [], ◌++◌, length, drop, take, min, IsTrue, ◌↔◌, IfOk};
ghost use Rattle.njh_tcp.specs.Carried.{IsShort};
ghost use Rattle.njh_tcp.specs.LentFrames.{carried_of};
ghost use Rattle.njh_tcp.specs.Written.{line_bytes, ttb_bytes};

use njh_bisync::LONGEST_FRAME;
use njh_tcp::{TcpFrame, put_line_bytes, put_ttb};
use std::alloc::{AllocError, Global};
use std::marker::Model;

/// Bytes that are on their way, in room for one frame that was taken at the beginning.
#[derive(Debug, Drop)]
pub struct Held {
    bytes: Vec<u8>,
}

impl Model for Held {
    ghost use Rattle.std.specs.Prelude.{List, ℕ, ◌≤◌, vec_capacity};

    ghost Value = { List ℕ };

    ghost view = { λ held. held.bytes.items };

    ghost invariant = { λ held. 8196 ≤ vec_capacity held.bytes };
}

impl Held {
    /// No bytes.
    pub fn new(alloc: Global) -> Result<Held, AllocError>
        ensures { IfOk result (λ held. held ≡ []) }
    {
        Ok(Held {
            bytes: Vec::with_capacity(alloc, LONGEST_FRAME)?,
        })
    }

    /// A frame, as it is on a bisync line.
    pub fn put_line_bytes(&mut self, frame: TcpFrame<'_>)
        requires empty { self.old ≡ [] }
        requires short { IsShort (carried_of frame) }
        ensures { self.new ≡ self.old ++ line_bytes (carried_of frame.entry) }
    {
        put_line_bytes(frame, &mut self.bytes).unwrap();
    }

    /// A TTB that carries a frame.
    pub fn put_ttb(&mut self, frame: TcpFrame<'_>)
        requires empty { self.old ≡ [] }
        requires short { IsShort (carried_of frame) }
        ensures { self.new ≡ self.old ++ ttb_bytes (carried_of frame.entry) }
    {
        put_ttb(frame, &mut self.bytes).unwrap();
    }

    /// Moves bytes from the front to the front of a buffer, as many as it has room for.
    pub fn move_to(&mut self, into: &mut [u8]) -> usize
        ensures count { result ≡ min (length into.old) (length self.old) }
        ensures moved { take result into.new ≡ take result self.old }
        ensures left { self.new ≡ drop result self.old }
    {
        let count = into.len().min(self.bytes.len());
        let (front, _) = into.split_at_mut(count);
        front.copy_from_slice(&self.bytes[..count]);
        self.remove_front(count);
        count
    }

    /// Drops bytes from the front.
    pub fn remove_front(&mut self, count: usize)
        requires { count ≤ length self.old }
        ensures { self.new ≡ drop count self.old }
    {
        self.bytes.drain(..count);
    }

    /// The bytes.
    pub fn as_slice(&self) -> &[u8]
        ensures { result.now ≡ self.now }
    {
        &self.bytes
    }

    /// Whether there are none.
    pub fn is_empty(&self) -> bool
        ensures { IsTrue result ↔ (self.now ≡ []) }
    {
        self.bytes.is_empty()
    }
}
