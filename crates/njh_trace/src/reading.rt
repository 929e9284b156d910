//! A trace that comes in pieces.

ghost use Rattle.std.specs.Prelude.{◌≡◌, ◌≢◌, ℕ, ◌<◌, ◌∷◌, ◌++◌, [], List, length, true, false, IfOk, IfSome};
ghost use Rattle.std.specs.Prelude.{MatchOption, OnOk, OnErr, Err};
ghost use Rattle.std.specs.List.{list_any};
ghost use Rattle.njh_io.specs.Lines.{is_first_long, is_long_line, lines_from, lines_of};
ghost use Rattle.njh_trace.specs.Trace.{line_told, sources_behind};
ghost use Rattle.njh_trace.specs.code.Reading.{told_behind, Takes};

use crate::fault::TraceFault;
use crate::sources::Sources;
use njh_io::{LineReader, ReadFault};
use std::alloc::Global;
use std::marker::Model;

/// How far a trace was read: the sources so far, and what has come of a line.
#[derive(Drop)]
pub(crate) struct Reading {
    sources: Sources,
    front: LineReader,
}

impl Model for Reading {
    ghost use Rattle.njh_trace.specs.code.Reading.{Progress};

    ghost Value = { Progress };

    ghost view = { λ r. record { sources = r.sources; front = r.front } };
}

impl Reading {
    /// Nothing came yet.
    pub(crate) fn new(alloc: Global) -> Reading
        ensures { result ≡ record { sources = []; front = [] } }
    {
        Reading {
            sources: Sources::new(alloc),
            front: LineReader::new(alloc),
        }
    }

    /// Takes a piece, and appends what each line says that ends in it.
    pub(crate) fn take(
        &mut self,
        piece: &[u8],
        hex: bool,
        lines: &mut Vec<u8>,
    ) -> Result<(), TraceFault>
        ensures taken { OnOk result ((told : List ℕ) × (lines.new.items ≡ lines.old.items ++ told)
            × Takes hex self.old piece.now told self.new) }
        ensures long { result ≡ Err TraceFault.TooLong → (more : List ℕ)
            → list_any is_long_line (lines_from self.old.front (piece.now ++ more)) ≡ true }
        ensures no_device { result ≢ Err TraceFault.Device }
    {
        let mut left = piece;
        while let Some(behind) = self.read(left)? {
            self.end_line(hex, lines)?;
            left = behind;
        }
        Ok(())
    }

    /// Appends what the last line says, if it has no end of its own.
    pub(crate) fn end(&mut self, hex: bool, lines: &mut Vec<u8>) -> Result<(), TraceFault>
        ensures told { OnOk result (lines.new.items ≡ lines.old.items ++ told_behind hex self.old []) }
        ensures short { OnOk result (list_any is_long_line (lines_from self.old.front []) ≡ false) }
        ensures memory { OnErr result (result ≡ Err TraceFault.Memory) }
    {
        let line = self.front.line();
        if !line.is_empty() {
            self.sources.take_line(line, hex, lines)?;
        }
        Ok(())
    }

    /// Takes a piece up to the end of a line, and answers what comes after that; or keeps all of
    /// it.
    fn read<'p>(&mut self, piece: &'p [u8]) -> Result<Option<&'p [u8]>, TraceFault>
        ensures lines { IfOk result (λ behind. (more : List ℕ) → MatchOption behind
            (lines_from self.old.front (piece.now ++ more) ≡ lines_from self.new.front more)
            (λ behind. lines_from self.old.front (piece.now ++ more)
            ≡ self.new.front ∷ lines_of (behind.now ++ more))) }
        ensures sources { OnOk result (self.new.sources ≡ self.old.sources) }
        ensures shorter { IfOk result (λ behind. IfSome behind (λ behind. length behind.now < length piece.now)) }
        ensures long { result ≡ Err TraceFault.TooLong
            → (more : List ℕ) → is_first_long (lines_from self.old.front (piece.now ++ more)) ≡ true }
        ensures no_device { result ≢ Err TraceFault.Device }
    {
        match self.front.take(piece) {
            Ok(behind) => Ok(behind),
            Err(ReadFault::TooLong) => Err(TraceFault::TooLong),
            Err(ReadFault::Memory) => Err(TraceFault::Memory),
            Err(ReadFault::Device) => Err(TraceFault::Device),
        }
    }

    /// Appends what the line says that has come, and begins the next.
    fn end_line(&mut self, hex: bool, lines: &mut Vec<u8>) -> Result<(), TraceFault>
        ensures told { OnOk result (lines.new.items
            ≡ lines.old.items ++ line_told hex self.old.sources self.old.front) }
        ensures ended { OnOk result (self.new
            ≡ record { sources = sources_behind self.old.sources self.old.front; front = [] }) }
        ensures short { is_long_line self.old.front ≡ false }
        ensures memory { OnErr result (result ≡ Err TraceFault.Memory) }
    {
        self.sources.take_line(self.front.line(), hex, lines)?;
        self.front.clear();
        Ok(())
    }
}
