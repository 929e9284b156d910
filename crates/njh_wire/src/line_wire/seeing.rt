//! What is seen of a wire of a line.

ghost use Rattle.std.specs.Prelude.{◌≡◌, ◌-◌, ◌<◌, ◌↔◌, ◌⊎◌, length, IsSome, IsTrue};

use super::LineWire;
use crate::connection::Connection;
use crate::last_bytes::LastBytes;

impl<C: Connection + Drop> LineWire<C> {
    /// Whether somebody is connected.
    pub fn is_connected(&self) -> bool
        ensures { IsTrue result ↔ (IsSome self.now.connection ⊎ IsSome self.now.next) }
    {
        self.connection.is_some() || self.next.is_some()
    }

    /// Whether bytes wait to go out.
    pub fn waits_to_send(&self) -> bool
        ensures { IsTrue result ↔ (0 < length self.now.waiting) }
    {
        !self.waiting.is_empty()
    }

    /// When its silence began, or its last quiet or prompt came, in milliseconds.
    pub fn begun(&self) -> u64
        ensures { result ≡ self.now.begun }
    {
        self.silence.begun
    }

    /// The last two bytes that came.
    pub fn last_bytes(&self) -> LastBytes
        ensures { result ≡ self.now.last_bytes }
    {
        self.silence.last_bytes
    }

    /// How many bytes its reads answered, on all its connections.
    pub fn came(&self) -> u64
        ensures { result ≡ self.now.came }
    {
        self.counts.came
    }

    /// How many bytes of frames it took to send, on all its connections.
    pub fn went(&self) -> u64
        ensures { result ≡ self.now.went }
    {
        self.counts.went
    }

    /// For how many milliseconds nothing came on its connection.
    pub fn silent_for(&self) -> u64
        ensures { result ≡ self.now.clock - self.now.heard }
    {
        self.marks.clock.saturating_sub(self.silence.heard)
    }
}
