//! The wire of a line, over connections that never wait.

ghost use Rattle.std.specs.Prelude.{◌≡◌, ◌+◌, ◌-◌, ◌<◌, ◌≤◌, [], ◌∷◌, length, min, IsTrue, ◌↔◌, ◌⊎◌, ⊤, true, None};
ghost use Rattle.std.specs.Prelude.{IsOk, IsSome, OnOk, OnErr, IfOk, Ok};
ghost use Rattle.njh_hub.specs.Sent.{IsCounted};
ghost use Rattle.njh_turns.specs.Wires.{Sent, Unsent, answer_acts, heard_of, IsReading};
ghost use Rattle.njh_wire.specs.declared.end.ConnectionEnd.TheVariants.{Failed};
ghost use Rattle.njh_wire.specs.Standing.{first_standing, with_connection, without_connection, with_failure, given_up};
ghost use Rattle.njh_wire.specs.Standing.{after_displacement, after_admission, after_close};
ghost use Rattle.std.specs.Option.{option_map};
ghost use Rattle.njh_wire.specs.Places.{IsAt, IsOwn};
ghost use Rattle.njh_wire.specs.OneFrame.{IsStrangersReading};
ghost use Rattle.njh_wire.specs.Readings.{IsOpen, IsWait, IsRead, IsWritten};
ghost use Rattle.njh_wire.specs.ByTcp.{IsReadByTcp, IsWaitByTcp};
ghost use Rattle.njh_wire.specs.Withheld.{IsWithheld};

mod by_tcp;
mod leaving;
mod moments;
mod reading;
mod saying;
mod seeing;
mod writing;

use crate::connection::Connection;
use crate::counts::Counts;
use crate::end::{ConnectionEnd, Parting};
use crate::ending::Ending;
use crate::farewell::Farewell;
use crate::last_bytes::LastBytes;
use crate::marks::Marks;
use crate::outbox::{Outbox, ROOM};
use crate::patience::Patience;
use crate::silence::Silence;
use njh_hub::QUIET_TIME;
use njh_table::Protocol;
use njh_turns::{Reading, Wire, WireFault};
use std::alloc::{AllocError, Global};
use std::marker::Model;

/// For how many milliseconds bytes may wait to go out on a bisync line.
pub const STALL_TIME: u64 = 1000;

/// For how many milliseconds nothing may go out of what waits on a line over TCP/IP.
pub const TCP_STALL_TIME: u64 = 30_000;

/// The wire of a line over connections that never wait, of which it has one at a time.
///
/// It looks at no clock: who serves it sets its time and marks it when its connection has something
/// to read.
#[derive(Drop)]
pub struct LineWire<C: Connection + Drop> {
    place: usize,
    connection: Option<C>,
    next: Option<C>,
    leaving: Option<C>,
    waiting: Outbox,
    farewell: Farewell,
    patience: Patience,
    marks: Marks,
    silence: Silence,
    ending: Ending,
    counts: Counts,
}

impl<C: Connection + Drop> Model for LineWire<C> {
    ghost use Rattle.std.specs.Option.{option_map};
    ghost use Rattle.njh_wire.specs.Places.{IsAt};
    ghost use Rattle.njh_wire.specs.Standing.{Standing};

    ghost Value = { Standing C };

    ghost view = { λ wire. record {
      place = wire.place;
      protocol = wire.patience.protocol;
      connection = wire.connection;
      next = wire.next;
      parting = wire.ending.parting;
      waiting = wire.waiting;
      since = wire.patience.since;
      sent = wire.patience.sent;
      leave = record {
        who = wire.leaving;
        rest = wire.farewell.waiting;
        until = wire.farewell.until;
        shut = wire.farewell.is_shut;
      };
      readable = wire.marks.readable;
      up = wire.marks.up;
      clock = wire.marks.clock;
      begun = wire.silence.begun;
      quiet = wire.silence.quiet;
      heard = wire.silence.heard;
      last_bytes = wire.silence.last_bytes;
      end = wire.ending.end;
      failures = wire.counts.failures;
      came = wire.counts.came;
      went = wire.counts.went;
    } };

    ghost invariant = { λ wire. IsAt wire.place (option_map C.place_of wire.connection)
        × IsAt wire.place (option_map C.place_of wire.next)
        × IsAt wire.place (option_map C.place_of wire.leaving) };
}

impl<C: Connection + Drop> LineWire<C> {
    /// The wire of the line at this place. Nobody is connected on it. Takes the room for bytes that
    /// wait, and no memory later; out of memory is the only refusal.
    pub fn new(alloc: Global, place: usize) -> Result<Self, AllocError>
        ensures { IfOk result (λ wire. wire ≡ first_standing place) }
    {
        Ok(LineWire {
            place,
            connection: None,
            next: None,
            leaving: None,
            waiting: Outbox::new(alloc)?,
            farewell: Farewell::new(alloc)?,
            patience: Patience {
                protocol: Protocol::Bisync,
                since: 0,
                sent: 0,
            },
            marks: Marks {
                readable: false,
                up: false,
                clock: 0,
            },
            silence: Silence {
                begun: 0,
                quiet: QUIET_TIME,
                heard: 0,
                last_bytes: LastBytes { before: 0, last: 0 },
            },
            ending: Ending {
                parting: None,
                end: None,
            },
            counts: Counts {
                failures: 0,
                came: 0,
                went: 0,
            },
        })
    }

    /// The place of its line among those that are served. Each connection that it has is of that
    /// line.
    pub fn place(&self) -> usize
        ensures place { result ≡ self.now.place }
        ensures own { IsOwn C.place_of self.now }
    {
        self.place
    }

    /// Sets the time, in milliseconds.
    pub fn set_clock(&mut self, now: u64)
        ensures { self.new ≡ record self.old { clock = now } }
    {
        self.marks.clock = now;
    }

    /// Sets by which rules it waits: those of its line's protocol. At first they are those of a bisync
    /// line.
    pub fn set_protocol(&mut self, protocol: Protocol)
        ensures { self.new ≡ record self.old { protocol = protocol } }
    {
        self.patience.protocol = protocol;
    }

    /// By which rules it waits: those of its line's protocol.
    pub fn protocol(&self) -> Protocol
        ensures { result ≡ self.now.protocol }
    {
        self.patience.protocol
    }

    /// Sets how many milliseconds without a byte are a quiet, from the silence on that has begun.
    /// At first they are 100.
    pub fn set_quiet(&mut self, milliseconds: u64)
        ensures { self.new ≡ record self.old { quiet = milliseconds } }
    {
        self.silence.quiet = milliseconds;
    }

    /// Whether a session is up on its connection. At first, and on each new connection, none is.
    /// Where none is a read ends with the first byte that may end a frame.
    pub fn set_up(&mut self, is_up: bool)
        ensures { self.new ≡ record self.old { up = is_up } }
    {
        self.marks.up = is_up;
    }

    /// Something may be there to read.
    pub fn mark_readable(&mut self)
        ensures { self.new ≡ record self.old { readable = true } }
    {
        self.marks.readable = true;
    }

    /// Why its last connection ended, once.
    pub fn take_end(&mut self) -> Option<ConnectionEnd>
        ensures end { result ≡ self.old.end }
        ensures taken { self.new ≡ record self.old { end = None } }
    {
        self.ending.end.take()
    }

    /// Takes a connection of its own line. Where there is one it is ended, the next read answers
    /// that it is closed, and then the new one is read.
    pub fn connect(&mut self, connection: C)
        requires { C.place_of connection ≡ self.old.place }
        ensures { self.new ≡ after_admission connection (after_displacement self.old) }
    {
        if self.connection.is_some() {
            self.end_here(ConnectionEnd::Replaced);
        }
        match self.ending.parting {
            Some(_) => self.next = Some(connection),
            None => self.resume(Some(connection)),
        }
    }

    /// Ends the connection. The next read answers that it is closed. On a bisync line it is dropped
    /// with what waits; over TCP/IP it leaves.
    pub fn close(&mut self)
        ensures { self.new ≡ after_close self.old }
    {
        if self.connection.is_some() {
            self.end_here(ConnectionEnd::Closed);
        }
        self.next = None;
    }

    /// A connection, or none, is there anew.
    fn resume(&mut self, connection: Option<C>)
        requires { IsAt self.old.place (option_map C.place_of connection) }
        ensures { self.new ≡ with_connection connection self.old }
    {
        self.connection = connection;
        self.next = None;
        self.ending.parting = None;
        self.waiting.clear();
        self.marks.readable = true;
        self.marks.up = false;
        self.silence.begun = self.marks.clock;
        self.silence.heard = self.marks.clock;
        self.patience.sent = self.marks.clock;
    }

    /// The connection is dropped with what waits, and the next read is to tell.
    fn part(&mut self, parting: Parting, end: ConnectionEnd)
        ensures { self.new ≡ without_connection parting end self.old }
    {
        self.connection = None;
        self.waiting.clear();
        self.ending.parting = Some(parting);
        self.ending.end = Some(end);
    }

    /// Takes the next connection, if there is one.
    fn advance(&mut self)
        ensures { self.new ≡ with_connection self.old.next self.old }
    {
        let next = self.next.take();
        self.resume(next);
    }

    /// Counts a failure.
    fn fail(&mut self)
        ensures stands { self.new ≡ with_failure self.old }
        ensures counts { self.old.failures ≤ self.new.failures }
        ensures counted { IsCounted self.old.failures self.new.failures }
    {
        self.counts.failures = self.counts.failures.saturating_add(1);
    }

    /// Whether something may be there to read and no end is to be told.
    fn is_open(&self) -> bool
        ensures { IsTrue result ↔ IsOpen self.now }
    {
        self.connection.is_some() && self.marks.readable && self.ending.parting.is_none()
    }

    /// Gives the connection up.
    fn give_up(&mut self, end: ConnectionEnd)
        ensures stands { self.new ≡ given_up end self.old }
        ensures counts { self.old.failures ≤ self.new.failures }
        ensures counted { IsCounted self.old.failures self.new.failures }
    {
        self.part(Parting::Failed, end);
        self.fail();
        self.advance();
    }
}

impl<C: Connection + Drop> Wire for LineWire<C> {
    ghost use Rattle.std.specs.Prelude.{refl};
    ghost use Rattle.njh_wire.specs.Tally.{IsTallied};
    ghost use Rattle.njh_wire.specs.code.TallyLaws.{tallied_then};
    ghost use Rattle.njh_wire.specs.code.WithheldLaws.{withheld_then};
    ghost use Rattle.njh_wire.specs.Withheld.{IsWithheld, nothing};

    // Of what passed it says how many bytes; which they are is in the clauses of `read` and `write`.
    ghost says = { record {
      passed = λ before after acts. IsTallied before after acts;
      withheld = λ before after. IsWithheld C.moved before after;
      count = λ wire. wire.failures;
    } };

    ghost none = { λ s. refl };

    ghost more = { λ a b c xs ys first then. tallied_then a b c xs ys first then };

    ghost withheld_none = { λ s. nothing s };

    ghost withheld_more = { λ a b c first then. withheld_then C.moved first then };

    fn failures(&self) -> u64 {
        self.counts.failures
    }

    fn read(&mut self, into: &mut [u8], is_prompted: bool) -> Result<Reading, WireFault>
        requires { 0 < length into.old }
        ensures answered { IsTallied self.old self.new (answer_acts (heard_of result into.new)) }
        ensures prompted { result ≡ Ok Reading.Prompted → IsTrue is_prompted }
        ensures withheld { IsWithheld C.moved self.old self.new }
        ensures waits { self.old.protocol ≡ Protocol.Bisync →
            0 < length self.old.waiting → IsWait self.old result self.new }
        ensures reads { self.old.protocol ≡ Protocol.Bisync → self.old.waiting ≡ [] →
            IsRead C.moved C.stops self.old is_prompted result into.new self.new }
        ensures waits_by_tcp { self.old.protocol ≡ Protocol.Tcp → 0 < length self.old.waiting →
            IsWaitByTcp C.moved C.stops self.old result into.new self.new }
        ensures reads_by_tcp { self.old.protocol ≡ Protocol.Tcp → self.old.waiting ≡ [] →
            IsReadByTcp C.moved C.stops self.old is_prompted result into.new self.new }
        ensures strange { ¬ IsTrue self.old.up → IfOk result (IsStrangersReading into.new) }
        ensures within { IfOk result (IsReading (length into.new)) }
        ensures counts { self.old.failures ≤ self.new.failures }
        ensures counted { OnErr result (IsCounted self.old.failures self.new.failures) }
    {
        match self.patience.protocol {
            Protocol::Bisync => self.read_bisync(into, is_prompted),
            Protocol::Tcp => self.read_by_tcp(into, is_prompted),
        }
    }

    fn write(&mut self, frame: &[u8]) -> Result<(), WireFault>
        ensures ok { OnOk result (IsTallied self.old self.new (Sent frame.now ∷ [])) }
        ensures err { OnErr result (IsTallied self.old self.new (Unsent frame.now ∷ [])) }
        ensures withheld { IsWithheld C.moved self.old self.new }
        ensures written { OnOk result (IsWritten self.old frame.now self.new) }
        ensures failed { OnErr result (self.new ≡ given_up Failed self.old) }
        ensures succeeds { IsSome self.old.connection →
            length self.old.waiting + length frame.now ≤ ROOM → IsOk result }
        ensures counts { self.old.failures ≤ self.new.failures }
        ensures counted { OnErr result (IsCounted self.old.failures self.new.failures) }
    {
        if self.put(frame) {
            return Ok(());
        }
        self.give_up(ConnectionEnd::Failed);
        Err(WireFault)
    }
}
