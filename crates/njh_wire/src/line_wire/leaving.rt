//! How whoever is connected is ended from here, and leaves.

ghost use Rattle.std.specs.Prelude.{◌≡◌, ◌+◌, min, IsSome, None};
ghost use Rattle.njh_wire.specs.Leaving.{leaves_at, Leaves};
ghost use Rattle.njh_wire.specs.Standing.{ended_here, leave_after, nobody_leaves};

use super::LineWire;
use crate::connection::Connection;
use crate::departure::{is_over, let_go_on};
use crate::end::{ConnectionEnd, Parting};
use njh_table::Protocol;

/// For how many milliseconds a connection that was ended from here may last.
const LEAVE_TIME: u64 = 1_000;

/// After how many milliseconds it is looked at again.
const AGAIN: u64 = 10;

impl<C: Connection + Drop> LineWire<C> {
    /// Ends the connection from here, and the next read is to tell.
    pub(super) fn end_here(&mut self, end: ConnectionEnd)
        ensures { self.new ≡ ended_here end self.old }
    {
        self.take_leave();
        self.part(Parting::Closed, end);
    }

    /// Over TCP/IP has the connection leave, with what waits.
    fn take_leave(&mut self)
        ensures leave { self.new.leave ≡ leave_after self.old }
        ensures same { self.new ≡ record self.old {
          connection = self.new.connection;
          waiting = self.new.waiting;
          leave = self.new.leave;
        } }
    {
        match self.patience.protocol {
            Protocol::Bisync => {}
            Protocol::Tcp => {
                self.leaving = self.connection.take();
                let until = self.marks.clock.saturating_add(LEAVE_TIME);
                self.farewell.begin(&mut self.waiting, until);
            }
        }
    }

    /// Lets who leaves go on: sends what waits for it as far as it goes now, and then no more; drops
    /// what comes; and ends it once it sends no more, or its second is over.
    pub fn let_leave(&mut self)
        ensures nobody { self.old.leave.who ≡ None → self.new ≡ self.old }
        ensures leaves { IsSome self.old.leave.who → Leaves C.moved C.stops self.old self.new }
    {
        if self.leaving.is_none() {
            return;
        }
        let stop = let_go_on(&mut self.leaving, &mut self.farewell);
        if is_over(stop) || self.marks.clock >= self.farewell.until {
            self.forget();
        }
    }

    /// Nobody leaves any more.
    fn forget(&mut self)
        ensures { self.new ≡ record self.old { leave = nobody_leaves } }
    {
        self.leaving = None;
        self.farewell.clear();
    }

    /// When who leaves is to be let go on though nothing tells it, in milliseconds. `u64::MAX` where
    /// nobody leaves.
    pub fn leaves_at(&self) -> u64
        ensures { result ≡ leaves_at self.now }
    {
        if self.leaving.is_none() {
            return u64::MAX;
        }
        let again = self.marks.clock.saturating_add(AGAIN);
        again.min(self.farewell.until)
    }
}
