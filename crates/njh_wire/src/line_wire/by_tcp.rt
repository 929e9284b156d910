//! What a wire of a line over TCP/IP does otherwise than that of a bisync line.

ghost use Rattle.std.specs.Prelude.{◌≡◌, ◌<◌, ◌≤◌, ◌↔◌, [], length, take, IfOk, IsTrue, None, Ok, OnErr, Some};
ghost use Rattle.njh_hub.specs.Sent.{IsCounted};
ghost use Rattle.njh_turns.specs.Wires.{answer_acts, heard_of, IsReading};
ghost use Rattle.njh_wire.specs.OneFrame.{IsStrange, IsStrangersReading};
ghost use Rattle.njh_wire.specs.Standing.{hearing, plus_bytes};
ghost use Rattle.njh_wire.specs.Readings.{GivesNone, IsOpen, Receives};
ghost use Rattle.njh_wire.specs.ByTcp.{sent_by_tcp, IsFlushedByTcp, IsReadByTcp, IsReadyByTcp, IsWaitByTcp};
ghost use Rattle.njh_wire.specs.Tally.{IsTallied};
ghost use Rattle.njh_wire.specs.Withheld.{IsWithheld};

use super::{LineWire, TCP_STALL_TIME};
use crate::calls::{acknowledge_on, send_on};
use crate::connection::Connection;
use crate::end::{ConnectionEnd, Parting};
use njh_turns::{Reading, WireFault};

/// How many bytes an ACK0 has, as which a line answers where it has nothing to say. Of no more the
/// peer may have heard nothing.
const ACK0: usize = 2;

impl<C: Connection + Drop> LineWire<C> {
    ghost use Rattle.njh_wire.specs.Standing.{Standing};

    /// What it answers at a read.
    pub(super) fn read_by_tcp(
        &mut self,
        into: &mut [u8],
        is_prompted: bool,
    ) -> Result<Reading, WireFault>
        requires { 0 < length into.old }
        ensures answered { IsTallied self.old self.new (answer_acts (heard_of result into.new)) }
        ensures prompted { result ≡ Ok Reading.Prompted → IsTrue is_prompted }
        ensures withheld { IsWithheld C.moved self.old self.new }
        ensures waits { 0 < length self.old.waiting →
            IsWaitByTcp C.moved C.stops self.old result into.new self.new }
        ensures reads { self.old.waiting ≡ [] →
            IsReadByTcp C.moved C.stops self.old is_prompted result into.new self.new }
        ensures strange { ¬ IsTrue self.old.up → IfOk result (IsStrangersReading into.new) }
        ensures within { IfOk result (IsReading (length into.new)) }
        ensures counts { self.old.failures ≤ self.new.failures }
        ensures counted { OnErr result (IsCounted self.old.failures self.new.failures) }
    {
        if !self.waiting.is_empty() {
            return self.wait_by_tcp(into);
        }
        self.read_or_acknowledge(into, is_prompted)
    }

    /// What it answers while bytes wait to go out.
    fn wait_by_tcp(&mut self, into: &mut [u8]) -> Result<Reading, WireFault>
        requires { 0 < length into.old }
        ensures answer { IsWaitByTcp C.moved C.stops self.old result into.new self.new }
        ensures strange { ¬ IsTrue self.old.up → IfOk result (IsStrangersReading into.new) }
        ensures within { IfOk result (IsReading (length into.new)) }
        ensures counts { self.old.failures ≤ self.new.failures }
        ensures counted { OnErr result (IsCounted self.old.failures self.new.failures) }
    {
        if self.marks.clock.saturating_sub(self.patience.since) >= TCP_STALL_TIME {
            self.give_up(ConnectionEnd::Stalled);
            return Err(WireFault);
        }
        if !self.waiting.has_room() {
            return Ok(Reading::Pending);
        }
        let more = self.receive_open(into);
        if more > 0 {
            return Ok(Reading::Bytes(more));
        }
        Ok(Reading::Pending)
    }

    /// What it answers while nothing waits to go out.
    fn read_or_acknowledge(
        &mut self,
        into: &mut [u8],
        is_prompted: bool,
    ) -> Result<Reading, WireFault>
        requires { 0 < length into.old }
        ensures read { IsReadByTcp C.moved C.stops self.old is_prompted result into.new self.new }
        ensures strange { ¬ IsTrue self.old.up → IfOk result (IsStrangersReading into.new) }
        ensures within { IfOk result (IsReading (length into.new)) }
        ensures counts { self.old.failures ≤ self.new.failures }
        ensures counted { OnErr result (IsCounted self.old.failures self.new.failures) }
    {
        let count = self.receive_open(into);
        if count > 0 {
            return Ok(Reading::Bytes(count));
        }
        let own = self.acknowledge(into);
        if own > 0 {
            return Ok(Reading::Bytes(own));
        }
        self.answer(is_prompted)
    }

    /// Reads the connection, if something may be there to read, and answers how many bytes came.
    fn receive_open(&mut self, into: &mut [u8]) -> usize
        requires { 0 < length into.old }
        ensures received { 0 < result → IsOpen self.old × ((middle : Standing C)
            × Receives C.moved C.stops self.old (take result into.new) middle
            × (self.new ≡ hearing (take result into.new) middle)) }
        ensures none { result ≡ 0 → GivesNone C.moved C.stops self.old self.new }
        ensures strange { ¬ IsTrue self.old.up → IsStrange (take result into.new) }
        ensures within { result ≤ length into.new }
        ensures up { self.new.up ≡ self.old.up }
        ensures failures { self.new.failures ≡ self.old.failures }
    {
        if !self.is_open() {
            return 0;
        }
        let count = self.receive(into);
        if count > 0 {
            self.hear(&into[..count]);
        }
        count
    }

    /// Has the connection answer in the place of its peer, unless it ended, and answers how many
    /// bytes that has.
    fn acknowledge(&mut self, into: &mut [u8]) -> usize
        ensures answers { 0 < result → (self.old.parting ≡ None) × ((before after : C)
            × (self.old.connection ≡ Some before) × C.moved before after (take result into.new) []
            × (self.new ≡ record self.old {
              connection = Some after;
              came = plus_bytes self.old.came (take result into.new);
            })) }
        ensures none { result ≡ 0 → self.new ≡ self.old }
        ensures strange { IsStrange (take result into.new) }
        ensures within { result ≤ length into.new }
    {
        if self.ending.parting.is_some() {
            return 0;
        }
        let count = acknowledge_on(&mut self.connection, into);
        if count > 0 {
            self.counts.came = self.counts.came.saturating_add(count as u64);
        }
        count
    }

    /// Sends on what waits, as far as it goes now.
    pub(super) fn flush_by_tcp(&mut self)
        ensures { IsFlushedByTcp C.moved self.old self.new }
    {
        match send_on(&mut self.connection, self.waiting.as_slice()) {
            Ok(count) => {
                self.waiting.remove_front(count);
                self.note_sent(count);
            }
            Err(_) => self.part(Parting::Failed, ConnectionEnd::Failed),
        }
    }

    /// So many bytes went out.
    fn note_sent(&mut self, count: usize)
        ensures { self.new ≡ sent_by_tcp count self.old }
    {
        if count > 0 {
            self.patience.since = self.marks.clock;
        }
        if count > ACK0 {
            self.patience.sent = self.marks.clock;
        }
        if self.waiting.is_empty() {
            self.marks.readable = true;
        }
    }

    /// Whether the next read is to be made now.
    pub(super) fn is_ready_by_tcp(&self) -> bool
        ensures { IsTrue result ↔ IsReadyByTcp self.now }
    {
        if self.waiting.is_empty() && self.ending.parting.is_some() {
            return true;
        }
        self.waiting.has_room() && self.is_open()
    }
}
