//! How a connection over TCP/IP is read.

ghost use Rattle.std.specs.Prelude.{◌≡◌, ◌≢◌, ◌<◌, ◌≤◌, ℕ, List, [], false, length, take, IsTrue, IfOk, Ok, Some};
ghost use Rattle.njh_link.specs.Links.{link_fault};
ghost use Rattle.njh_link.specs.declared.fault.LinkFault.{LinkFault};
ghost use Rattle.njh_wire.specs.Moved.{IsReceived, bytes_given};
ghost use Rattle.njh_wire.specs.OneFrame.{IsStrange};
ghost use Rattle.njh_tcpwire.specs.Moves.{IsOfAnswer, IsOfRead, Moves};

use super::TcpConnection;
use crate::unheard::READ;
use njh_wire::{Connection, ConnectionFault, ConnectionRead, Stop};

/// How many bytes an Ack0 has as it is on a bisync line.
const ACK0: usize = 2;

impl<C: Connection + Drop> TcpConnection<C> {
    /// Reads the other connection once, if all that came was heard, and says why no more came.
    fn refill(&mut self) -> Stop
        ensures moved { Moves IsOfRead C.moved self.old self.new [] [] }
        ensures link { self.new.link ≡ self.old.link }
        ensures plain { (fault : LinkFault) → result ≢ Stop.Refused fault }
        ensures place { C.place_of self.new.inner ≡ C.place_of self.old.inner }
    {
        if !self.side.unheard.is_empty() {
            return Stop::Paused;
        }
        self.side.more = true;
        let mut buffer = [0; READ];
        match self.inner.receive(&mut buffer) {
            Ok(ConnectionRead::Bytes(count)) => {
                self.side.unheard.keep(&buffer[..count]);
                Stop::Paused
            }
            Ok(ConnectionRead::Nothing) => {
                self.side.more = false;
                Stop::Dry
            }
            Ok(ConnectionRead::Paused) => Stop::Paused,
            Ok(ConnectionRead::Ended) => Stop::Ended,
            // The other connection only carries bytes.
            Ok(ConnectionRead::Refused(_)) => Stop::Failed,
            Err(_) => Stop::Failed,
        }
    }

    /// Hears as much of what came as ends one frame, or all.
    fn hear(&mut self)
        requires { self.old.link.giving ≡ [] }
        ensures moved { Moves IsOfRead C.moved self.old self.new [] [] }
        ensures place { C.place_of self.new.inner ≡ C.place_of self.old.inner }
    {
        let taken = self.side.link.hear(self.side.unheard.as_slice());
        self.side.unheard.remove_front(taken);
    }

    /// Hears what came, so that a frame is to be given if one ends in it, and says why else none is.
    fn listen(&mut self) -> Stop
        ensures moved { Moves IsOfRead C.moved self.old self.new [] [] }
        ensures refused { (fault : LinkFault) → result ≡ Stop.Refused fault → link_fault self.old.link ≡ Some fault }
        ensures place { C.place_of self.new.inner ≡ C.place_of self.old.inner }
    {
        if !self.side.link.is_given() {
            return Stop::Paused;
        }
        if let Some(fault) = self.side.link.fault() {
            return Stop::Refused(fault);
        }
        let stop = self.refill();
        self.hear();
        stop
    }

    /// Gives bytes of the frame that is to be given, if one is.
    fn give(&mut self, into: &mut [u8]) -> usize
        ensures moved { Moves IsOfRead C.moved self.old self.new (take result into.new) [] }
        ensures within { result ≤ length into.new }
        ensures pauses { 0 < result → result < length into.new → IsTrue self.new.paused }
        ensures place { C.place_of self.new.inner ≡ C.place_of self.old.inner }
    {
        let count = self.side.link.give(into);
        self.side.paused = count > 0 && count < into.len();
        count
    }

    /// Gives bytes of the frame that is to be given, or of the first that ends in what came; and says
    /// why else none is.
    fn listen_and_give(&mut self, into: &mut [u8]) -> (usize, Stop)
        ensures moved { Moves IsOfRead C.moved self.old self.new (take result.0 into.new) [] }
        ensures within { result.0 ≤ length into.new }
        ensures pauses { 0 < result.0 → result.0 < length into.new → IsTrue self.new.paused }
        ensures refused { (fault : LinkFault) → result.1 ≡ Stop.Refused fault → link_fault self.old.link ≡ Some fault }
        ensures place { C.place_of self.new.inner ≡ C.place_of self.old.inner }
    {
        let stop = self.listen();
        let count = self.give(into);
        (count, stop)
    }

    /// Nothing more is given to the read that was given a frame's end.
    fn resume(&mut self)
        ensures moved { Moves IsOfRead C.moved self.old self.new [] [] }
        ensures place { C.place_of self.new.inner ≡ C.place_of self.old.inner }
    {
        self.side.paused = false;
    }

    /// What a read does.
    pub(super) fn read(&mut self, into: &mut [u8]) -> Result<ConnectionRead, ConnectionFault>
        ensures moved { Moves IsOfRead C.moved self.old self.new (bytes_given result into.new) [] }
        ensures within { IfOk result (IsReceived (length into.new)) }
        ensures paused { IsTrue self.old.paused → result ≡ Ok ConnectionRead.Paused }
        ensures pauses { (count : ℕ) → result ≡ Ok (ConnectionRead.Bytes count) → count < length into.new →
            IsTrue self.new.paused }
        ensures refused { (fault : LinkFault) → result ≡ Ok (ConnectionRead.Refused fault) →
            link_fault self.old.link ≡ Some fault }
        ensures place { C.place_of self.new.inner ≡ C.place_of self.old.inner }
    {
        if self.side.paused {
            self.resume();
            return Ok(ConnectionRead::Paused);
        }
        let (count, stop) = self.listen_and_give(into);
        read_of(count, stop)
    }

    /// Gives the Ack0 that the line is owed, if it is and nothing of the peer is there to be given.
    pub(super) fn answer(&mut self, into: &mut [u8]) -> usize
        ensures moved { Moves IsOfAnswer C.moved self.old self.new (take result into.new) [] }
        ensures within { result ≤ length into.new }
        ensures strange { IsStrange (take result into.new) }
        ensures none { result ≡ 0 → self.new ≡ self.old }
        ensures silent { 0 < result → (self.old.more ≡ false) × (self.old.unheard ≡ []) }
        ensures place { C.place_of self.new.inner ≡ C.place_of self.old.inner }
    {
        if into.len() < ACK0 || self.side.more || !self.side.unheard.is_empty() {
            return 0;
        }
        if !self.side.link.acknowledge() {
            return 0;
        }
        self.side.link.give(into)
    }
}

/// What a read answers that gave so many bytes, or none for this.
fn read_of(count: usize, stop: Stop) -> Result<ConnectionRead, ConnectionFault>
    ensures given { (buffer : List ℕ) → bytes_given result buffer ≡ take count buffer }
    ensures within { (room : ℕ) → count ≤ room → IfOk result (IsReceived room) }
    ensures bytes { (many : ℕ) → result ≡ Ok (ConnectionRead.Bytes many) → (many ≡ count) × (0 < count) }
    ensures refused { (fault : LinkFault) → result ≡ Ok (ConnectionRead.Refused fault) → stop ≡ Stop.Refused fault }
{
    if count > 0 {
        return Ok(ConnectionRead::Bytes(count));
    }
    match stop {
        Stop::Full | Stop::Paused => Ok(ConnectionRead::Paused),
        Stop::Dry => Ok(ConnectionRead::Nothing),
        Stop::Ended => Ok(ConnectionRead::Ended),
        Stop::Refused(fault) => Ok(ConnectionRead::Refused(fault)),
        Stop::Failed => Err(ConnectionFault),
    }
}
