//! Frames out of pieces.
ghost use Rattle.std.specs.Prelude.{◌≡◌, ℕ, ◌<◌, ◌≤◌, List, length, option_map, IfOk, IfSome};
ghost use Rattle.std.specs.Borrow.{sem};
ghost use Rattle.std.specs.Io.BufRead.{Rests};
ghost use Rattle.njh_bisync.specs.Frames.{Received, IsShort};
ghost use Rattle.njh_bisync.specs.Reading.{Nothing, Reads, TakesFirst, has_begun};
ghost use Rattle.njh_bisync.specs.ByteSteps.{feed_outcome, frames_after, rest_after, GoesOn};

use crate::frame::Frame;
use crate::scanner::Scanner;
use std::alloc::{AllocError, Global};
use std::marker::Model;

/// Finds the frames in the bytes of a line, in whatever pieces they come (IBM GA27-3004,
/// transparent text).
///
/// A clause sees the rest of the bytes so far: what is no whole unit yet, as far as it matters for
/// what follows.
#[derive(Debug, Drop)]
pub struct Deframer {
    scanner: Scanner,
}

impl Model for Deframer {
    ghost use Rattle.njh_bisync.specs.Reading.{Rest};
    ghost use Rattle.njh_bisync.specs.code.Scanner.{rest_in};

    ghost Value = { Rest };

    ghost view = { λ deframer. rest_in deframer.scanner };
}

impl Deframer {
    ghost use Rattle.njh_bisync.specs.LentFrames.{received_of};
    ghost use Rattle.njh_bisync.specs.contracts.deframer.Deframer.{the_row};

    /// Reserves the 4,096 bytes of the longest text. No other call takes memory.
    pub fn new(alloc: Global) -> Result<Deframer, AllocError>
        ensures { IfOk result (λ deframer. deframer ≡ Nothing) }
    {
        Ok(Deframer {
            scanner: Scanner::new(alloc)?,
        })
    }

    /// Takes the bytes up to and including the end of the first frame, or the whole piece if no
    /// frame ends in it.
    ///
    /// It answers how many bytes that is, and the frame, whose text is lent until the next call.
    pub fn feed(&mut self, piece: &[u8]) -> (usize, Option<Frame<'_>>)
        ensures taken { result.0 ≡ (feed_outcome self.old piece.now).taken }
        ensures frame { option_map received_of result.1 ≡ (feed_outcome self.old piece.now).frame }
        ensures* rest { sem 𝓛
            (Rests the_row self.entry (λ new. new ≡ (feed_outcome self.old piece.now).rest)) }

        // Whatever bytes led to this rest, this is their next frame by the grammar.
        ensures first { (seen : List ℕ) (frames : List Received) → Reads seen frames self.old
            → TakesFirst seen frames piece.now result.0 (option_map received_of result.1)
            (feed_outcome self.old piece.now).rest }

        // A loop over what is left of a piece comes to the same frames and the same rest, and ends.
        ensures goes_on { GoesOn self.old piece.now result.0 (option_map received_of result.1)
            (feed_outcome self.old piece.now).rest }
        ensures progress { (result.0 ≤ length piece.now) × (0 < length piece.now → 0 < result.0) }
        ensures short { IfSome result.1 (λ frame. IsShort (received_of frame)) }
    {
        let (taken, ended) = self.scanner.scan(piece);
        match ended {
            Some(ended) => (taken, Some(self.scanner.frame(ended))),
            None => (taken, None),
        }
    }

    /// Whether a frame has begun to come that isn't whole yet: bytes were taken that belong to no
    /// whole unit.
    pub fn has_begun(&self) -> bool
        ensures { result ≡ has_begun self.now }
    {
        self.scanner.has_begun()
    }

    /// Drops a frame that isn't whole.
    pub fn reset(&mut self)
        ensures rest { self.new ≡ Nothing }

        // The frames after it are those of the bytes after it alone.
        ensures afresh { (bytes : List ℕ)
            → Reads bytes (frames_after self.new bytes) (rest_after self.new bytes) }
    {
        self.scanner.reset();
    }
}
