//! The lines of a text, also of one that comes in pieces.

ghost use Rattle.std.specs.Prelude.{◌≡◌, ◌≢◌, ℕ, ◌<◌, ◌≤◌, ◌∷◌, ◌++◌, [], List, length, true, IfOk, IfSome};
ghost use Rattle.std.specs.Prelude.{MatchOption};
ghost use Rattle.std.specs.Prelude.{OnErr, OnOk, Err};
ghost use Rattle.njh_io.specs.Lines.{is_first_long, lines_from, lines_of};

use crate::fault::ReadFault;
use memchr::memchr;
use std::alloc::Global;
use std::marker::Model;

/// How many bytes a line has at most that comes in pieces.
pub const MAX_LINE_BYTES: usize = 1_048_576;

/// The first line of a text, and what comes after its end; nothing if the text has no line.
pub fn next_line(text: &[u8]) -> Option<(&[u8], &[u8])>
    ensures lines { MatchOption result (lines_of text.now ≡ [])
        (λ parts. lines_of text.now ≡ parts.0.now ∷ lines_of parts.1.now) }
    ensures shorter { IfSome result (λ parts. length parts.1.now < length text.now) }
{
    if text.is_empty() {
        return None;
    }
    match ended_line(text) {
        Some((line, behind)) => Some((line, behind)),
        None => Some((text, &[])),
    }
}

/// The first line that ends in a text, and what comes after its end; nothing if none ends.
fn ended_line(text: &[u8]) -> Option<(&[u8], &[u8])>
    ensures lines { (front more : List ℕ) → MatchOption result
        (lines_from front (text.now ++ more) ≡ lines_from (front ++ text.now) more)
        (λ parts. lines_from front (text.now ++ more) ≡ (front ++ parts.0.now) ∷ lines_of (parts.1.now ++ more)) }
    ensures shorter { IfSome result (λ parts. length parts.1.now < length text.now) }
{
    match memchr(b'\n', text) {
        None => None,
        Some(place) => {
            let (line, end) = text.split_at(place);
            let (_, behind) = end.split_at(1);
            Some((line, behind))
        }
    }
}

/// What has come of a line, of a text that comes in pieces: 1,048,576 bytes at most.
#[derive(Drop)]
pub struct LineReader {
    front: Vec<u8>,
}

impl Model for LineReader {
    ghost use Rattle.std.specs.Prelude.{◌≤◌, ℕ, List, length};

    ghost Value = { List ℕ };

    ghost view = { λ r. r.front.items };

    ghost invariant = { λ r. length r.front.items ≤ 1048576 };
}

impl LineReader {
    /// Nothing came yet.
    pub fn new(alloc: Global) -> LineReader
        ensures { result ≡ [] }
    {
        LineReader {
            front: Vec::new(alloc),
        }
    }

    /// Takes a piece up to the first end of a line, and answers what comes after that: then the
    /// line is whole. If no line ends in it the piece is kept.
    pub fn take<'p>(&mut self, piece: &'p [u8]) -> Result<Option<&'p [u8]>, ReadFault>
        ensures lines { IfOk result (λ behind. (more : List ℕ) → MatchOption behind
            (lines_from self.old (piece.now ++ more) ≡ lines_from self.new more)
            (λ behind. lines_from self.old (piece.now ++ more) ≡ self.new ∷ lines_of (behind.now ++ more))) }
        ensures shorter { IfOk result (λ behind. IfSome behind (λ behind. length behind.now < length piece.now)) }
        ensures long { result ≡ Err ReadFault.TooLong
            → (more : List ℕ) → is_first_long (lines_from self.old (piece.now ++ more)) ≡ true }
        ensures no_device { result ≢ Err ReadFault.Device }
    {
        match ended_line(piece) {
            None => {
                self.keep(piece)?;
                Ok(None)
            }
            Some((end, behind)) => {
                self.keep(end)?;
                Ok(Some(behind))
            }
        }
    }

    /// What has come of the line.
    pub fn line(&self) -> &[u8]
        ensures line { result.now ≡ self.now }
        ensures few { length result.now ≤ 1048576 }
    {
        &self.front
    }

    /// The next line begins.
    pub fn clear(&mut self)
        ensures { self.new ≡ [] }
    {
        self.front.clear();
    }

    /// Keeps a part of a line.
    fn keep(&mut self, part: &[u8]) -> Result<(), ReadFault>
        ensures kept { OnOk result (self.new ≡ self.old ++ part.now) }
        ensures long { result ≡ Err ReadFault.TooLong → 1048576 < length (self.old ++ part.now) }
        ensures no_device { result ≢ Err ReadFault.Device }
    {
        if MAX_LINE_BYTES - self.front.len() < part.len() {
            return Err(ReadFault::TooLong);
        }
        self.front.extend_from_slice(part)?;
        Ok(())
    }
}
