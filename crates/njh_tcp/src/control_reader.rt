//! A control record that comes in pieces.
ghost use Rattle.std.specs.Prelude.{◌≡◌, ◌-◌, ◌≤◌, ◌↔◌, [], ◌++◌, length, min, take, IsTrue};
ghost use Rattle.njh_tcp.specs.Controls.{control_in, hosts_in};

use crate::control::{CONTROL_RECORD, ControlRecord, Hosts, hosts_in};
use arrayvec::ArrayVec;
use std::marker::Model;

/// What has come of the 33 bytes of a control record. It takes none of those behind.
#[derive(Debug, Drop)]
pub struct ControlReader {
    held: ArrayVec<u8, CONTROL_RECORD>,
}

impl Model for ControlReader {
    ghost use Rattle.std.specs.Prelude.{ℕ, List};

    ghost Value = { List ℕ };

    ghost view = { λ reader. reader.held.items };
}

impl ControlReader {
    /// Nothing has come.
    pub fn new() -> ControlReader
        ensures { result ≡ [] }
    {
        ControlReader {
            held: ArrayVec::new(),
        }
    }

    /// Takes as many bytes as the record still lacks, and answers how many.
    pub fn feed(&mut self, piece: &[u8]) -> usize
        ensures taken { result ≡ min (length piece.now) (33 - length self.old) }
        ensures held { self.new ≡ self.old ++ take result piece.now }
        ensures few { length self.new ≤ 33 }
    {
        let count = piece.len().min(CONTROL_RECORD - self.held.len());
        self.held.try_extend_from_slice(&piece[..count]).unwrap();
        count
    }

    /// How many bytes the record still lacks.
    pub fn lacks(&self) -> usize
        ensures { result ≡ 33 - length self.now }
    {
        CONTROL_RECORD - self.held.len()
    }

    /// Whether all of it has come.
    pub fn is_whole(&self) -> bool
        ensures { IsTrue result ↔ (length self.now ≡ 33) }
    {
        self.held.len() == CONTROL_RECORD
    }

    /// The names that stand in it, whatever it is.
    pub fn hosts(&self) -> Hosts
        requires { length self.now ≡ 33 }
        ensures { result ≡ hosts_in self.now }
    {
        hosts_in(self.held.as_slice())
    }

    /// What it is, if a control record.
    pub fn control(&self) -> Option<ControlRecord>
        requires { length self.now ≡ 33 }
        ensures { result ≡ control_in self.now }
    {
        ControlRecord::read(self.held.as_slice())
    }
}
