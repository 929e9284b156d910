//! Who asks for a line, until the OPEN is whole.
ghost use Rattle.std.specs.Prelude.{◌≡◌, ◌-◌, ◌≤◌, ◌↔◌, [], ◌++◌, length, min, take, IsTrue, IfSome, IfNone};
ghost use Rattle.njh_tcp.specs.Controls.{hosts_in};
ghost use Rattle.njh_open.specs.Verdicts.{IsVerdict, answer_to};
ghost use Rattle.njh_open.specs.Waits.{late_at};

use crate::verdict::{Vacancy, Verdict, answer_to, verdict_on};
use njh_ebcdic::Name;
use njh_tcp::{ControlReader, ControlRecord};
use std::marker::Model;

/// For how many milliseconds a control record is waited for.
pub(crate) const PATIENCE: u64 = 10_000;

/// Who came to a line's port, and what has come of its OPEN.
#[derive(Debug, Drop)]
pub struct Asker {
    reader: ControlReader,
    since: u64,
}

impl Model for Asker {
    ghost use Rattle.njh_open.specs.Waits.{Wait};

    ghost Value = { Wait };

    ghost view = { λ asker. record { came = asker.reader; since = asker.since } };
}

impl Asker {
    /// It came now, by the clock in milliseconds.
    pub fn new(now: u64) -> Asker
        ensures { result ≡ record { came = []; since = now } }
    {
        Asker {
            reader: ControlReader::new(),
            since: now,
        }
    }

    /// How many bytes the OPEN still lacks.
    pub fn lacks(&self) -> usize
        ensures { result ≡ 33 - length self.now.came }
    {
        self.reader.lacks()
    }

    /// Takes as many bytes as the OPEN still lacks, and answers how many.
    pub fn take(&mut self, piece: &[u8]) -> usize
        ensures taken { result ≡ min (length piece.now) (33 - length self.old.came) }
        ensures came { self.new ≡ record self.old { came = self.old.came ++ take result piece.now } }
        ensures few { length self.new.came ≤ 33 }
    {
        self.reader.feed(piece)
    }

    /// When it is waited for no more.
    pub fn deadline(&self) -> u64
        ensures { result ≡ late_at self.now }
    {
        self.since.saturating_add(PATIENCE)
    }

    /// What becomes of it and what it is answered, once 33 bytes came.
    pub fn verdict(
        &self,
        node: &Name,
        hub: &Name,
        vacancy: Vacancy,
    ) -> Option<(Verdict, ControlRecord)>
        ensures whole { IfSome result (λ told. (length self.now.came ≡ 33)
            × IsVerdict node.now hub.now vacancy self.now.came told.0
            × (told.1 ≡ answer_to told.0 (hosts_in self.now.came))) }
        ensures more { IfNone result (¬ (length self.now.came ≡ 33)) }
    {
        if !self.reader.is_whole() {
            return None;
        }
        let verdict = verdict_on(self.reader.control(), node, hub, vacancy);
        Some((verdict, answer_to(verdict, &self.reader.hosts())))
    }
}
