//! What a wire of a bisync line answers at a read.

ghost use Rattle.std.specs.Prelude.{◌≡◌, ◌<◌, ◌≤◌, [], length, take, IfOk, IsTrue, Ok, OnErr};
ghost use Rattle.njh_hub.specs.Sent.{IsCounted};
ghost use Rattle.njh_turns.specs.Wires.{answer_acts, heard_of, IsReading};
ghost use Rattle.njh_wire.specs.OneFrame.{IsStrange, IsStrangersReading};
ghost use Rattle.njh_wire.specs.Standing.{after_stop, last_bytes_after, hearing};
ghost use Rattle.njh_wire.specs.Readings.{IsSilence, IsAnswer, IsOpen, IsWait, IsRead, Receives};
ghost use Rattle.njh_wire.specs.Tally.{IsTallied};
ghost use Rattle.njh_wire.specs.Withheld.{IsWithheld};

use super::{LineWire, STALL_TIME};
use crate::calls::receive_on;
use crate::connection::Connection;
use crate::end::{ConnectionEnd, Parting, Stop};
use crate::last_bytes::LastBytes;
use njh_turns::{Reading, WireFault};

impl<C: Connection + Drop> LineWire<C> {
    /// What the wire of a bisync line answers at a read.
    pub(super) fn read_bisync(
        &mut self,
        into: &mut [u8],
        is_prompted: bool,
    ) -> Result<Reading, WireFault>
        requires { 0 < length into.old }
        ensures answered { IsTallied self.old self.new (answer_acts (heard_of result into.new)) }
        ensures prompted { result ≡ Ok Reading.Prompted → IsTrue is_prompted }
        ensures withheld { IsWithheld C.moved self.old self.new }
        ensures waits { 0 < length self.old.waiting → IsWait self.old result self.new }
        ensures reads { self.old.waiting ≡ [] →
            IsRead C.moved C.stops self.old is_prompted result into.new self.new }
        ensures strange { ¬ IsTrue self.old.up → IfOk result (IsStrangersReading into.new) }
        ensures within { IfOk result (IsReading (length into.new)) }
        ensures counts { self.old.failures ≤ self.new.failures }
        ensures counted { OnErr result (IsCounted self.old.failures self.new.failures) }
    {
        if !self.waiting.is_empty() {
            return self.wait_to_send();
        }
        self.read_open(into, is_prompted)
    }

    /// What it answers while bytes wait to go out.
    fn wait_to_send(&mut self) -> Result<Reading, WireFault>
        ensures answer { IsWait self.old result self.new }
        ensures counts { self.old.failures ≤ self.new.failures }
        ensures counted { OnErr result (IsCounted self.old.failures self.new.failures) }
    {
        if self.marks.clock.saturating_sub(self.patience.since) < STALL_TIME {
            return Ok(Reading::Pending);
        }
        self.give_up(ConnectionEnd::Stalled);
        Err(WireFault)
    }

    /// What it answers while nothing waits to go out.
    fn read_open(&mut self, into: &mut [u8], is_prompted: bool) -> Result<Reading, WireFault>
        requires { 0 < length into.old }
        ensures read { IsRead C.moved C.stops self.old is_prompted result into.new self.new }
        ensures strange { ¬ IsTrue self.old.up → IfOk result (IsStrangersReading into.new) }
        ensures within { IfOk result (IsReading (length into.new)) }
        ensures counts { self.old.failures ≤ self.new.failures }
        ensures counted { OnErr result (IsCounted self.old.failures self.new.failures) }
    {
        if self.is_open() {
            let count = self.receive(into);
            if count > 0 {
                self.hear(&into[..count]);
                return Ok(Reading::Bytes(count));
            }
        }
        self.answer(is_prompted)
    }

    /// What it answers where nothing came of reading.
    pub(super) fn answer(&mut self, is_prompted: bool) -> Result<Reading, WireFault>
        ensures answer { IsAnswer self.old is_prompted result self.new }
        ensures counts { self.old.failures ≤ self.new.failures }
        ensures counted { OnErr result (IsCounted self.old.failures self.new.failures) }
    {
        match self.ending.parting {
            Some(Parting::Closed) => {
                self.advance();
                Ok(Reading::Closed)
            }
            Some(Parting::Failed) => {
                self.fail();
                self.advance();
                Err(WireFault)
            }
            None => Ok(self.silence(is_prompted)),
        }
    }

    /// What it answers where nothing came.
    fn silence(&mut self, is_prompted: bool) -> Reading
        ensures answer { IsSilence self.old is_prompted result self.new }
    {
        if self.connection.is_none() {
            return Reading::Absent;
        }
        if is_prompted {
            self.silence.begun = self.marks.clock;
            return Reading::Prompted;
        }
        if self.marks.clock < self.silence.begun.saturating_add(self.silence.quiet) {
            return Reading::Pending;
        }
        self.silence.begun = self.marks.clock;
        Reading::Quiet
    }

    /// Reads the connection, and answers how many bytes came.
    pub(super) fn receive(&mut self, into: &mut [u8]) -> usize
        requires open { IsOpen self.old }
        requires room { 0 < length into.old }
        ensures received { Receives C.moved C.stops self.old (take result into.new) self.new }
        ensures strange { ¬ IsTrue self.old.up → IsStrange (take result into.new) }
        ensures within { result ≤ length into.new }
    {
        let (count, stop) = receive_on(&mut self.connection, self.marks.up, into);
        self.stop(stop);
        count
    }

    /// Keeps why no more bytes came.
    fn stop(&mut self, stop: Stop)
        ensures stands { self.new ≡ after_stop stop self.old }
    {
        match stop {
            Stop::Full | Stop::Paused => {}
            Stop::Dry => self.marks.readable = false,
            Stop::Ended => {
                self.ending.parting = Some(Parting::Closed);
                self.ending.end = Some(ConnectionEnd::Ended);
            }
            Stop::Failed => {
                self.ending.parting = Some(Parting::Failed);
                self.ending.end = Some(ConnectionEnd::Failed);
            }
            Stop::Refused(fault) => {
                self.ending.parting = Some(Parting::Failed);
                self.ending.end = Some(ConnectionEnd::Refused(fault));
            }
        }
    }

    /// These bytes came now, and count.
    pub(super) fn hear(&mut self, bytes: &[u8])
        requires { 0 < length bytes.now }
        ensures { self.new ≡ hearing bytes.now self.old }
    {
        self.silence.begun = self.marks.clock;
        self.silence.heard = self.marks.clock;
        self.silence.last_bytes = last_bytes_after(bytes, self.silence.last_bytes);
        self.counts.came = self.counts.came.saturating_add(bytes.len() as u64);
    }
}

/// The last two bytes, once these came after the others.
fn last_bytes_after(bytes: &[u8], earlier: LastBytes) -> LastBytes
    requires { 0 < length bytes.now }
    ensures { result ≡ last_bytes_after bytes.now earlier }
{
    let count = bytes.len();
    let before = if count == 1 {
        earlier.last
    } else {
        bytes[count - 2]
    };
    LastBytes {
        before,
        last: bytes[count - 1],
    }
}
