//! What a wire of a line over TCP/IP has its peer told that the line doesn't write.

ghost use Rattle.std.specs.Prelude.{◌≡◌, ℕ, ◌+◌, min, None};
ghost use Rattle.njh_wire.specs.Leaving.{alive_at, IsSaid};

use super::LineWire;
use crate::calls::say_on;
use crate::connection::{Connection, Saying};
use crate::end::{ConnectionEnd, Parting};
use njh_table::Protocol;

/// For how many milliseconds nothing was sent on a line over TCP/IP when it says that it is there.
const ALIVE_TIME: u64 = 60_000;

impl<C: Connection + Drop> LineWire<C> {
    /// Has the peer told this, if somebody is connected, and sends on what is to go out with it.
    /// Where that fails the connection is dropped, and the next read answers a fault.
    pub fn say(&mut self, saying: Saying)
        ensures { IsSaid C.moved C.said saying self.old self.new }
    {
        if self.connection.is_none() {
            return;
        }
        if say_on(&mut self.connection, saying) {
            self.patience.sent = self.marks.clock;
        } else {
            self.part(Parting::Failed, ConnectionEnd::Failed);
        }
    }

    /// When its peer is to be told that this end is there, in milliseconds: on a line over TCP/IP a
    /// minute after something was sent. `u64::MAX` where nobody is connected.
    pub fn alive_at(&self) -> u64
        ensures { result ≡ alive_at self.now }
    {
        match self.patience.protocol {
            Protocol::Bisync => u64::MAX,
            Protocol::Tcp => {
                if self.connection.is_none() {
                    return u64::MAX;
                }
                self.patience.sent.saturating_add(ALIVE_TIME)
            }
        }
    }
}
