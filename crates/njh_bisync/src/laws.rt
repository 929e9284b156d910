//! Laws of the frame grammar, each the contract of a function that does nothing.
ghost use Rattle.std.specs.Prelude.{◌≡◌, ◌≢◌, ℕ, ◌<◌, ◌≤◌, false, All, List, [], ◌∷◌, ◌++◌, length, Option, Some, None};
ghost use Rattle.njh_bisync.specs.Frames.{Received, Text, LineUnit, Partial, Splits};
ghost use Rattle.njh_bisync.specs.Limits.{longest_frame, longest_text};
ghost use Rattle.njh_bisync.specs.Reading.{Rest, Nothing, InText, Reads};
ghost use Rattle.njh_bisync.specs.ByteSteps.{ahead, feed_outcome, frames_after, rest_after, GoesOn};
ghost use Rattle.njh_bisync.specs.code.PlainBytes.{kept_all};
ghost use Rattle.njh_bisync.specs.Written.{text_bytes, control_bytes, control_frame};
ghost use Rattle.njh_bisync.specs.declared.frame.Control.{Control};

use crate::frame::{LONGEST_FRAME, LONGEST_TEXT};

/// Bytes are units and then a rest, in exactly one way.
pub fn one_splitting()
    ensures some { (bytes : List ℕ)
        → (units : List LineUnit) × (rest : Partial) × Splits bytes units rest }
    ensures only { (bytes : List ℕ) (units others : List LineUnit) (rest other : Partial)
        → Splits bytes units rest → Splits bytes others other → (units ≡ others) × (rest ≡ other) }
{}

/// The frames of bytes, and what of their rest matters, by the grammar and by the turns of single
/// bytes: they are the same.
pub fn one_reading()
    ensures some { (bytes : List ℕ)
        → Reads bytes (frames_after Nothing bytes) (rest_after Nothing bytes) }
    ensures only { (bytes : List ℕ) (frames : List Received) (rest : Rest)
        → Reads bytes frames rest
        → (frames ≡ frames_after Nothing bytes) × (rest ≡ rest_after Nothing bytes) }
{}

/// The frames of bytes and more bytes are those of the first, then those that the others give after
/// the rest of the first.
pub fn frames_of_both()
    ensures reads { (front back : List ℕ) (frames : List Received) (rest : Rest)
        → Reads front frames rest
        → Reads (front ++ back) (frames ++ frames_after rest back) (rest_after rest back) }
    ensures frames { (rest : Rest) (front back : List ℕ)
        → frames_after rest (front ++ back)
        ≡ frames_after rest front ++ frames_after (rest_after rest front) back }
    ensures left { (rest : Rest) (front back : List ℕ)
        → rest_after rest (front ++ back) ≡ rest_after (rest_after rest front) back }
{}

/// What is taken of a piece, and of two that come one after the other.
pub fn fed_in_parts()
    ensures goes_on { (rest : Rest) (piece : List ℕ)
        → GoesOn rest piece (feed_outcome rest piece).taken (feed_outcome rest piece).frame
        (feed_outcome rest piece).rest }
    ensures all { (rest : Rest) (piece : List ℕ) → (feed_outcome rest piece).frame ≡ None
        → ((feed_outcome rest piece).taken ≡ length piece) × ((feed_outcome rest piece).rest ≡ rest_after rest piece)
        × (frames_after rest piece ≡ []) }
    ensures on { (rest : Rest) (front back : List ℕ) → (feed_outcome rest front).frame ≡ None
        → feed_outcome rest (front ++ back) ≡ ahead (length front) (feed_outcome (feed_outcome rest front).rest back) }
    ensures ended { (rest : Rest) (front back : List ℕ) (frame : Received)
        → (feed_outcome rest front).frame ≡ Some frame → feed_outcome rest (front ++ back) ≡ feed_outcome rest front }
{}

/// In a text bytes other than DLE are taken together as they are one by one.
pub fn data_taken_together()
    ensures { (held : Option (List ℕ)) (run more : List ℕ) → 0 < length run → All (λ byte. byte ≢ 0x10) run
        → feed_outcome (InText held false) (run ++ more)
        ≡ ahead (length run) (feed_outcome (InText (kept_all held run) false) more) }
{}

/// The longest text and the longest frame have as many bytes as the definitions say.
pub fn longest_are_as_defined()
    ensures text { LONGEST_TEXT ≡ longest_text }
    ensures frame { LONGEST_FRAME ≡ longest_frame }
{}

/// A text that was written is read back as that text and nothing else, whatever follows.
pub fn text_reads_back()
    ensures fed { (held more : List ℕ) → length held ≤ longest_text
        → feed_outcome Nothing (text_bytes held ++ more)
        ≡ record { taken = length (text_bytes held); frame = Some (Text held); rest = Nothing } }
    ensures reads { (held : List ℕ) → length held ≤ longest_text
        → Reads (text_bytes held) (Text held ∷ []) Nothing }
{}

/// So is a control frame.
pub fn control_reads_back()
    ensures fed { (control : Control) (more : List ℕ)
        → feed_outcome Nothing (control_bytes control ++ more)
        ≡ record {
          taken = length (control_bytes control);
          frame = Some (control_frame control);
          rest = Nothing;
        } }
    ensures reads { (control : Control)
        → Reads (control_bytes control) (control_frame control ∷ []) Nothing }
{}
