//! Frames out of TTBs that come in pieces.
ghost use Rattle.std.specs.Prelude.{◌≡◌, ℕ, ◌<◌, ◌≤◌, List, length, option_map, IfOk, IfSome};
ghost use Rattle.std.specs.Borrow.{sem};
ghost use Rattle.std.specs.Io.BufRead.{Rests};
ghost use Rattle.njh_tcp.specs.Hearing.{Outcome};
ghost use Rattle.njh_tcp.specs.Reading.{Reads, TakesFirst, afresh, contact_over, fault_in};
ghost use Rattle.njh_tcp.specs.ByteSteps.{feed_outcome, GoesOn};
ghost use Rattle.njh_tcp.specs.declared.contact.Contact.{Contact};

use crate::contact::Contact;
use crate::fault::TtbFault;
use crate::frame::TcpFrame;
use crate::scanner::Scanner;
use std::alloc::{AllocError, Global};
use std::marker::Model;

/// Finds the frames in the bytes of a connection, in whatever pieces they come (NJE over TCP/IP).
///
/// A clause sees the rest of the bytes so far: the part of a TTB that is coming and what may be
/// taken of a contact, or what was wrong.
#[derive(Debug, Drop)]
pub struct TtbReader {
    scanner: Scanner,
}

impl Model for TtbReader {
    ghost use Rattle.njh_tcp.specs.Reading.{Rest};
    ghost use Rattle.njh_tcp.specs.code.Scans.{rest_in};

    ghost Value = { Rest };

    ghost view = { λ reader. rest_in reader.scanner };
}

impl TtbReader {
    ghost use Rattle.njh_tcp.specs.LentFrames.{IsShortOutcome, outcome_of};
    ghost use Rattle.njh_tcp.specs.contracts.reader.TtbReader.{the_row};

    /// Reserves the 4,098 bytes of the longest TTR. No other call takes memory.
    pub fn new(alloc: Global, contact: Contact) -> Result<TtbReader, AllocError>
        ensures { IfOk result (λ reader. reader ≡ afresh contact) }
    {
        Ok(TtbReader {
            scanner: Scanner::new(alloc, contact)?,
        })
    }

    /// Takes the bytes up to and including the end of the first TTR that is given or refused, or of
    /// the head in which something is wrong, or else the whole piece.
    ///
    /// It answers how many bytes that is, and the frame, whose text is lent until the next call, or
    /// what is wrong. After that it takes each piece whole, and gives nothing.
    pub fn feed(&mut self, piece: &[u8]) -> (usize, Option<Result<TcpFrame<'_>, TtbFault>>)
        ensures taken { result.0 ≡ (feed_outcome self.old piece.now).taken }
        ensures outcome { option_map outcome_of result.1 ≡ (feed_outcome self.old piece.now).outcome }
        ensures* rest { sem 𝓛
            (Rests the_row self.entry (λ new. new ≡ (feed_outcome self.old piece.now).rest)) }

        // Whatever bytes led to this rest, this is what is given of them next by the grammar.
        ensures first { (contact : Contact) (seen : List ℕ) (outcomes : List Outcome)
            → Reads contact seen outcomes self.old
            → TakesFirst contact seen outcomes piece.now result.0 (option_map outcome_of result.1)
            (feed_outcome self.old piece.now).rest }

        // A loop over what is left of a piece comes to the same, and ends.
        ensures goes_on { GoesOn self.old piece.now result.0 (option_map outcome_of result.1)
            (feed_outcome self.old piece.now).rest }
        ensures progress { (result.0 ≤ length piece.now) × (0 < length piece.now → 0 < result.0) }
        ensures short { IfSome result.1 IsShortOutcome }
    {
        let (taken, ended) = self.scanner.scan(piece);
        match ended {
            Some(ended) => (taken, Some(self.scanner.frame(ended))),
            None => (taken, None),
        }
    }

    /// What was wrong, if anything was.
    pub fn fault(&self) -> Option<TtbFault>
        ensures { result ≡ fault_in self.now }
    {
        self.scanner.fault()
    }

    /// A text goes out: from now on no contact is taken, as after a text that came.
    pub fn end_contact(&mut self)
        ensures { self.new ≡ contact_over self.old }
    {
        self.scanner.end_contact();
    }

    /// Begins as a new one does, for another connection.
    pub fn reset(&mut self, contact: Contact)
        ensures { self.new ≡ afresh contact }
    {
        self.scanner.reset(contact);
    }
}
