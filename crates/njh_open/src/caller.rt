//! Who dialled, until the answer to the OPEN is whole.
ghost use Rattle.std.specs.Prelude.{◌≡◌, ◌-◌, ◌≤◌, [], ◌++◌, length, min, take};
ghost use Rattle.njh_tcp.specs.declared.control.ControlRecord.TheVariants.{Open};
ghost use Rattle.njh_open.specs.Calls.{answered};
ghost use Rattle.njh_open.specs.Waits.{late_at};

use crate::asker::PATIENCE;
use crate::reason::NakReason;
use njh_ebcdic::Name;
use njh_tcp::{ControlReader, ControlRecord, Hosts};
use std::marker::Model;

/// What became of an OPEN that was sent.
#[derive(Clone, Copy, Debug, PartialEq, Eq)]
pub enum CallOutcome {
    /// Its answer isn't whole.
    Waits,
    /// The line has the connection.
    Acknowledged,
    /// The peer answered NAK.
    Refused(NakReason),
    /// Another record came, or nothing in ten seconds: the peer doesn't speak NJE.
    NoAnswer,
}

/// A connection that was dialled, whose OPEN went out, and what has come of the answer.
#[derive(Debug, Drop)]
pub struct Caller {
    reader: ControlReader,
    since: u64,
}

impl Model for Caller {
    ghost use Rattle.njh_open.specs.Waits.{Wait};

    ghost Value = { Wait };

    ghost view = { λ caller. record { came = caller.reader; since = caller.since } };
}

impl Caller {
    ghost use Rattle.njh_open.specs.Calls.{call_outcome};

    /// Its OPEN goes out now, by the clock in milliseconds.
    pub fn new(now: u64) -> Caller
        ensures { result ≡ record { came = []; since = now } }
    {
        Caller {
            reader: ControlReader::new(),
            since: now,
        }
    }

    /// How many bytes the answer still lacks.
    pub fn lacks(&self) -> usize
        ensures { result ≡ 33 - length self.now.came }
    {
        self.reader.lacks()
    }

    /// Takes as many bytes as the answer still lacks, and answers how many.
    pub fn take(&mut self, piece: &[u8]) -> usize
        ensures taken { result ≡ min (length piece.now) (33 - length self.old.came) }
        ensures came { self.new ≡ record self.old { came = self.old.came ++ take result piece.now } }
        ensures few { length self.new.came ≤ 33 }
    {
        self.reader.feed(piece)
    }

    /// When it is waited for no more.
    pub fn deadline(&self) -> u64
        ensures { result ≡ late_at self.now }
    {
        self.since.saturating_add(PATIENCE)
    }

    /// What became of it at this moment.
    pub fn outcome(&self, now: u64) -> CallOutcome
        ensures { result ≡ call_outcome self.now now }
    {
        if self.reader.is_whole() {
            return answered(self.reader.control());
        }
        if self.deadline() <= now {
            CallOutcome::NoAnswer
        } else {
            CallOutcome::Waits
        }
    }
}

/// What an answer says, whatever names it has.
fn answered(control: Option<ControlRecord>) -> CallOutcome
    ensures { result ≡ answered control }
{
    match control {
        Some(ControlRecord::Ack(_)) => CallOutcome::Acknowledged,
        Some(ControlRecord::Nak(_, reason)) => CallOutcome::Refused(NakReason(reason)),
        Some(ControlRecord::Open(_)) | None => CallOutcome::NoAnswer,
    }
}

/// The OPEN that goes out to a node of which the hub asks for the link.
pub fn open_of(hub: &Name, node: &Name) -> ControlRecord
    ensures { result ≡ Open (record { from = hub.now; to = node.now }) }
{
    ControlRecord::Open(Hosts::new(hub, node))
}
