//! How a wire of a line writes a frame, and lets out what waits.

ghost use Rattle.std.specs.Prelude.{◌≡◌, ◌+◌, ◌<◌, ◌≤◌, [], length, IsTrue, ◌↔◌, IsSome};
ghost use Rattle.njh_wire.specs.Standing.{keeping};
ghost use Rattle.njh_wire.specs.Readings.{IsFlushed, IsWritten};
ghost use Rattle.njh_wire.specs.ByTcp.{IsFlushedByTcp};

use super::LineWire;
use crate::calls::send_on;
use crate::connection::Connection;
use crate::end::{ConnectionEnd, Parting};
use crate::outbox::ROOM;
use njh_table::Protocol;

impl<C: Connection + Drop> LineWire<C> {
    /// Writes a frame, which waits until it is let out. Answers whether it could.
    pub(super) fn put(&mut self, frame: &[u8]) -> bool
        ensures written { IsTrue result → IsWritten self.old frame.now self.new }
        ensures unwritten { ¬ IsTrue result → self.new ≡ self.old }
        ensures succeeds { IsSome self.old.connection →
            length self.old.waiting + length frame.now ≤ ROOM → IsTrue result }
    {
        self.connection.is_some() && self.keep(frame)
    }

    /// Has a frame wait and counts its bytes, if there is room for it. Answers whether there was.
    fn keep(&mut self, frame: &[u8]) -> bool
        ensures fits { IsTrue result ↔ (length self.old.waiting + length frame.now ≤ ROOM) }
        ensures kept { IsTrue result → self.new ≡ keeping frame.now self.old }
        ensures unkept { ¬ IsTrue result → self.new ≡ self.old }
    {
        let since = if self.waiting.is_empty() {
            self.marks.clock
        } else {
            self.patience.since
        };
        if !self.waiting.add(frame) {
            return false;
        }
        self.patience.since = since;
        self.counts.went = self.counts.went.saturating_add(frame.len() as u64);
        true
    }

    /// Sends on what waits, as far as it goes now. Where that fails the connection is dropped, and
    /// the next read answers a fault.
    pub fn flush(&mut self)
        ensures idle { self.old.waiting ≡ [] → self.new ≡ self.old }
        ensures flushed { self.old.protocol ≡ Protocol.Bisync →
            0 < length self.old.waiting → IsFlushed C.moved self.old self.new }
        ensures flushed_by_tcp { self.old.protocol ≡ Protocol.Tcp →
            0 < length self.old.waiting → IsFlushedByTcp C.moved self.old self.new }
    {
        if self.waiting.is_empty() {
            return;
        }
        match self.patience.protocol {
            Protocol::Bisync => self.flush_bisync(),
            Protocol::Tcp => self.flush_by_tcp(),
        }
    }

    /// Sends on what waits on a bisync line.
    fn flush_bisync(&mut self)
        ensures { IsFlushed C.moved self.old self.new }
    {
        match send_on(&mut self.connection, self.waiting.as_slice()) {
            Ok(went) => self.waiting.remove_front(went),
            Err(_) => self.part(Parting::Failed, ConnectionEnd::Failed),
        }
    }
}
