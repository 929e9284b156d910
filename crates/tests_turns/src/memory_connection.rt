//! Connections in memory.

ghost use Rattle.std.specs.Prelude.{◌≤◌, length, IfOk};
ghost use Rattle.njh_wire.specs.Moved.{IsReceived};

use njh_table::Role;
use njh_wire::{Connection, ConnectionFault, ConnectionRead, Saying};
use std::alloc::{AllocError, Global};
use std::cell::Cell;

/// The byte that a connection answers in the place of its peer.
const ANSWER: u8 = 0x70;

/// The other end of a connection. The bytes that it takes count up from 0, modulo 256, so that one
/// that is lost or comes too early shows. Those that it gives count up too.
#[derive(Drop)]
pub struct Peer {
    /// How many bytes are there to read, and whether then the end is.
    pub coming: Cell<usize>,
    pub ended: Cell<bool>,
    /// Whether every call fails once nothing is there to read.
    pub broken: Cell<bool>,
    /// Whether the connection owes its line an answer in its place.
    pub owed: Cell<bool>,
    /// What its connection was told to say last, and whether that sends no more.
    pub said: Cell<Option<Saying>>,
    pub shut: Cell<bool>,
    /// How many bytes it still takes, how many it took, and in how many calls.
    pub room: Cell<usize>,
    pub taken: Cell<usize>,
    pub sends: Cell<usize>,
    /// Whether a byte was another than the next.
    pub mixed: Cell<bool>,
    /// The next byte that it gives. At first it is one with which no frame ends.
    pub given: Cell<u8>,
    expected: Cell<u8>,
}

impl Peer {
    /// One that takes as many bytes as come.
    pub(crate) fn new() -> Peer {
        Peer {
            coming: Cell::new(0),
            ended: Cell::new(false),
            broken: Cell::new(false),
            owed: Cell::new(false),
            said: Cell::new(None),
            shut: Cell::new(false),
            room: Cell::new(1_000_000),
            taken: Cell::new(0),
            sends: Cell::new(0),
            mixed: Cell::new(false),
            given: Cell::new(128),
            expected: Cell::new(0),
        }
    }

    /// The next byte that it gives.
    fn give(&self) -> u8 {
        let byte = self.given.get();
        self.given.set(byte.wrapping_add(1));
        byte
    }

    /// Takes a byte.
    fn take(&self, byte: u8) {
        if byte != self.expected.get() {
            self.mixed.set(true);
        }
        self.expected.set(byte.wrapping_add(1));
    }
}

/// A connection with a peer.
#[derive(Drop)]
pub struct MemoryConnection<'a> {
    /// The other end.
    pub peer: &'a Peer,
    /// The place of its line.
    pub place: usize,
}

impl<'a> MemoryConnection<'a> {
    /// Puts bytes that are there into a buffer, and answers how many.
    fn fill(&self, into: &mut [u8]) -> usize
        ensures { result ≤ length into.new }
    {
        let count = self.peer.coming.get().min(into.len());
        for byte in into[..count].iter_mut() {
            *byte = self.peer.give();
        }
        self.peer
            .coming
            .set(self.peer.coming.get().saturating_sub(count));
        count
    }
}

impl<'a> Connection for MemoryConnection<'a> {
    ghost use Rattle.std.specs.Prelude.{⊤};

    // What moves is compared when a test runs.
    ghost moved = { λ before after came went. ⊤ };

    ghost stops = { λ connection stop. ⊤ };

    ghost place_of = { λ connection. connection.place };

    ghost none = { λ s. tt };

    ghost more = { λ a b c came next_came went next_went first then. tt };

    fn place(&self) -> usize {
        self.place
    }

    fn receive(&mut self, into: &mut [u8]) -> Result<ConnectionRead, ConnectionFault> {
        let count = self.fill(into);
        if count > 0 {
            return Ok(ConnectionRead::Bytes(count));
        }
        if self.peer.broken.get() {
            return Err(ConnectionFault);
        }
        if self.peer.ended.get() {
            return Ok(ConnectionRead::Ended);
        }
        Ok(ConnectionRead::Nothing)
    }

    fn send(&mut self, bytes: &[u8]) -> Result<usize, ConnectionFault> {
        if self.peer.broken.get() {
            return Err(ConnectionFault);
        }
        let count = self.peer.room.get().min(bytes.len());
        for byte in &bytes[..count] {
            self.peer.take(*byte);
        }
        self.peer
            .room
            .set(self.peer.room.get().saturating_sub(count));
        self.peer
            .taken
            .set(self.peer.taken.get().saturating_add(count));
        self.peer.sends.set(self.peer.sends.get().saturating_add(1));
        Ok(count)
    }

    fn acknowledge(&mut self, into: &mut [u8]) -> usize {
        if into.is_empty() || !self.peer.owed.get() {
            return 0;
        }
        self.peer.owed.set(false);
        into[0] = ANSWER;
        1
    }

    fn by_tcp(self, _alloc: Global, _role: Role) -> Result<MemoryConnection<'a>, AllocError> {
        Ok(self)
    }

    fn say(&mut self, saying: Saying) {
        self.peer.said.set(Some(saying));
    }

    fn shut(&mut self) -> bool {
        self.peer.shut.set(true);
        true
    }
}
