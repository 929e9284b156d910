//! When the next read of a wire of a line is to be made.

ghost use Rattle.std.specs.Prelude.{◌≡◌, ◌+◌, ◌<◌, [], length, min, IsTrue, ◌↔◌, ◌⊎◌, None, IsSome};
ghost use Rattle.njh_wire.specs.ByTcp.{tcp_stall, IsReadyByTcp};
ghost use Rattle.njh_wire.specs.Readings.{IsOpen};
ghost use Rattle.njh_wire.specs.Standing.{due};

use super::{LineWire, STALL_TIME, TCP_STALL_TIME};
use crate::connection::Connection;
use njh_table::Protocol;

impl<C: Connection + Drop> LineWire<C> {
    /// Whether the next read is to be made now, whatever the time: something may be there to read,
    /// or an end is to be told.
    pub fn is_ready(&self) -> bool
        ensures bisync { self.now.protocol ≡ Protocol.Bisync →
            (IsTrue result ↔ ((self.now.waiting ≡ []) × (IsSome self.now.parting ⊎ IsOpen self.now))) }
        ensures tcp { self.now.protocol ≡ Protocol.Tcp → (IsTrue result ↔ IsReadyByTcp self.now) }
    {
        match self.patience.protocol {
            Protocol::Bisync => self.is_ready_bisync(),
            Protocol::Tcp => self.is_ready_by_tcp(),
        }
    }

    /// Whether it is so on a bisync line.
    fn is_ready_bisync(&self) -> bool
        ensures { IsTrue result ↔ ((self.now.waiting ≡ []) × (IsSome self.now.parting ⊎ IsOpen self.now)) }
    {
        self.waiting.is_empty() && (self.ending.parting.is_some() || self.is_open())
    }

    /// When its next read can answer something other than `Pending` though nothing came, in
    /// milliseconds: at its next quiet, or when bytes will have waited for a second; on a line over
    /// TCP/IP when nothing went out of them for thirty. `u64::MAX` where nobody is connected.
    pub fn deadline(&self) -> u64
        ensures waits { self.now.protocol ≡ Protocol.Bisync →
            0 < length self.now.waiting → result ≡ min (self.now.since + 1000) u64.MAX }
        ensures waits_by_tcp { self.now.protocol ≡ Protocol.Tcp →
            0 < length self.now.waiting → result ≡ min (self.now.since + tcp_stall) u64.MAX }
        ensures quiet { self.now.waiting ≡ [] → IsSome self.now.connection → result ≡ due self.now }
        ensures absent { self.now.waiting ≡ [] → self.now.connection ≡ None → result ≡ u64.MAX }
    {
        if !self.waiting.is_empty() {
            return match self.patience.protocol {
                Protocol::Bisync => self.patience.since.saturating_add(STALL_TIME),
                Protocol::Tcp => self.patience.since.saturating_add(TCP_STALL_TIME),
            };
        }
        if self.connection.is_some() {
            self.silence.begun.saturating_add(self.silence.quiet)
        } else {
            u64::MAX
        }
    }
}
