//! One byte after another through the frame grammar.
ghost use Rattle.std.specs.Prelude.{◌≡◌, ◌+◌, ◌++◌, ◌<◌, ◌≤◌, ◌∷◌, [], true, false, drop, take, length, IfOk};
ghost use Rattle.std.specs.Prelude.{option_map, vec_len, vec_capacity};
ghost use Rattle.njh_bisync.specs.ByteSteps.{rest_step, feed_outcome, kept_with};
ghost use Rattle.njh_bisync.specs.code.PlainBytes.{fed_on, kept_all, plain_len};
ghost use Rattle.njh_bisync.specs.Frames.{text_or_spoiled, IsShort};
ghost use Rattle.njh_bisync.specs.Limits.{longest_text};
ghost use Rattle.njh_bisync.specs.Reading.{Nothing, InText, has_begun};

use crate::frame::{Frame, LONGEST_TEXT};
use crate::line_byte::{ACK_0, DLE, ENQ, EOT, ETB, ETX, NAK, SOH, STX, SYN};
use crate::plain::plain_len;
use std::alloc::{AllocError, Global};

/// How many bytes are kept one by one.
const FEW: usize = 8;

/// Where in the grammar the bytes so far end.
#[derive(Clone, Copy, Debug)]
pub enum Place {
    /// Behind a whole unit.
    Between,
    /// Behind SOH.
    Soh,
    /// Behind DLE outside a text.
    Dle,
    /// Within a text, after a whole unit.
    Inside,
    /// Within a text, after DLE.
    InsideDle,
}

/// The frame that a byte ended. The data of a text is still in the scanner.
#[derive(Clone, Copy)]
pub enum Ended {
    /// SOH ENQ.
    Enquiry,
    /// DLE and 70.
    Ack0,
    /// NAK.
    Nak,
    /// EOT.
    Eot,
    /// A text, whose data are held.
    Text,
    /// A text that is to be disregarded.
    Spoiled,
}

/// What has come of a frame. `held` has the data of the text, with a capacity that was reserved
/// once.
#[derive(Debug, Drop)]
pub struct Scanner {
    place: Place,
    spoiled: bool,
    held: Vec<u8>,
    ghost short: { vec_len held ≤ longest_text },
    ghost room: { longest_text ≤ vec_capacity held },
}

impl Scanner {
    ghost use Rattle.njh_bisync.specs.LentFrames.{received_of};
    ghost use Rattle.njh_bisync.specs.code.Scanner.{good_data, rest_in, frame_in};

    /// Behind a whole unit, with room for the longest text.
    pub fn new(alloc: Global) -> Result<Scanner, AllocError>
        ensures { IfOk result (λ scanner. rest_in scanner ≡ Nothing) }
    {
        Ok(Scanner {
            place: Place::Between,
            spoiled: false,
            held: Vec::with_capacity(alloc, LONGEST_TEXT)?,
        })
    }

    /// Takes bytes up to the end of the first frame, or all: how many, and the frame.
    pub fn scan(&mut self, piece: &[u8]) -> (usize, Option<Ended>)
        ensures taken { result.0 ≡ (feed_outcome (rest_in self.old) piece.now).taken }
        ensures frame { option_map (frame_in self.new.held.items) result.1
            ≡ (feed_outcome (rest_in self.old) piece.now).frame }
        ensures rest { rest_in self.new ≡ (feed_outcome (rest_in self.old) piece.now).rest }
    {
        let mut taken = 0;
        while taken < piece.len() {
            let (count, ended) = self.take_some(&piece[taken..]);
            taken += count;
            if let Some(ended) = ended {
                return (taken, Some(ended));
            }
        }
        (taken, None)
    }

    /// The frame that the last byte ended.
    pub fn frame(&self, ended: Ended) -> Frame<'_>
        ensures frame { received_of result ≡ frame_in self.now.held.items ended }
        ensures short { IsShort (received_of result) }
    {
        match ended {
            Ended::Enquiry => Frame::Enquiry,
            Ended::Ack0 => Frame::Ack0,
            Ended::Nak => Frame::Nak,
            Ended::Eot => Frame::Eot,
            Ended::Text => Frame::Text(self.held.as_slice()),
            Ended::Spoiled => Frame::Spoiled,
        }
    }

    /// Whether a frame has begun to come.
    pub fn has_begun(&self) -> bool
        ensures { result ≡ has_begun (rest_in self.now) }
    {
        match self.place {
            Place::Between => false,
            Place::Soh | Place::Dle | Place::Inside | Place::InsideDle => true,
        }
    }

    /// Drops a frame that isn't whole.
    pub fn reset(&mut self)
        ensures { rest_in self.new ≡ Nothing }
    {
        self.place = Place::Between;
    }

    /// Takes one byte, or the two that begin a text, or in a text all that come before the next
    /// DLE, or that DLE and the byte after it: how many, and the frame that they end.
    fn take_some(&mut self, bytes: &[u8]) -> (usize, Option<Ended>)
        requires { 0 < length bytes.now }
        ensures some { 0 < result.0 }
        ensures within { result.0 ≤ length bytes.now }
        ensures goes_on { feed_outcome (rest_in self.old) bytes.now
            ≡ fed_on result.0 (option_map (frame_in self.new.held.items) result.1) (rest_in self.new) bytes.now }
    {
        match self.place {
            Place::Between => self.take_first(bytes),
            Place::Inside => self.take_inside(bytes),
            Place::Soh | Place::Dle | Place::InsideDle => (1, self.take(bytes[0])),
        }
    }

    /// Outside a text: takes the two bytes that begin one, or one byte.
    fn take_first(&mut self, bytes: &[u8]) -> (usize, Option<Ended>)
        requires place { self.old.place ≡ Place.Between }
        requires some { 0 < length bytes.now }
        ensures some { 0 < result.0 }
        ensures within { result.0 ≤ length bytes.now }
        ensures goes_on { feed_outcome (rest_in self.old) bytes.now
            ≡ fed_on result.0 (option_map (frame_in self.new.held.items) result.1) (rest_in self.new) bytes.now }
    {
        if begins_text(bytes) {
            return (2, self.begin_text());
        }
        (1, self.take(bytes[0]))
    }

    /// In a text: takes all bytes that come before the next DLE, or that DLE and the byte after
    /// it.
    fn take_inside(&mut self, bytes: &[u8]) -> (usize, Option<Ended>)
        requires place { self.old.place ≡ Place.Inside }
        requires some { 0 < length bytes.now }
        ensures some { 0 < result.0 }
        ensures within { result.0 ≤ length bytes.now }
        ensures goes_on { feed_outcome (rest_in self.old) bytes.now
            ≡ fed_on result.0 (option_map (frame_in self.new.held.items) result.1) (rest_in self.new) bytes.now }
    {
        if bytes[0] != DLE {
            return (self.take_run(bytes), None);
        }
        match bytes.get(1) {
            Some(byte) => (2, self.take_control(*byte)),
            None => (1, self.go_on(Place::InsideDle)),
        }
    }

    /// Takes all bytes of a text that come before the next DLE: how many.
    fn take_run(&mut self, bytes: &[u8]) -> usize
        requires { self.old.place ≡ Place.Inside }
        ensures count { result ≡ plain_len bytes.now }
        ensures within { result ≤ length bytes.now }
        ensures rest { rest_in self.new
            ≡ InText (kept_all (good_data self.old.spoiled self.old.held.items)
            (take (plain_len bytes.now) bytes.now)) false }
    {
        let count = plain_len(bytes);
        self.keep_all(&bytes[..count]);
        count
    }

    /// Takes one byte; if it ends a frame, that frame.
    #[tactic(auto, unfolding(crate::specs::ByteSteps::rest_step))]
    fn take(&mut self, byte: u8) -> Option<Ended>
        ensures frame { option_map (frame_in self.new.held.items) result
            ≡ (rest_step (rest_in self.old) byte).frame }
        ensures rest { rest_in self.new ≡ (rest_step (rest_in self.old) byte).rest }
    {
        match (self.place, byte) {
            (Place::Between, SOH) => self.go_on(Place::Soh),
            (Place::Between, DLE) => self.go_on(Place::Dle),
            (Place::Between, NAK) => self.end(Ended::Nak),
            (Place::Between, EOT) => self.end(Ended::Eot),
            (Place::Soh, ENQ) => self.end(Ended::Enquiry),
            (Place::Dle, ACK_0) => self.end(Ended::Ack0),
            (Place::Dle, STX) => self.begin_text(),
            (Place::Between | Place::Soh | Place::Dle, _) => self.go_on(Place::Between),
            (Place::Inside, DLE) => self.go_on(Place::InsideDle),
            (Place::Inside, _) => self.keep(byte),
            (Place::InsideDle, _) => self.take_control(byte),
        }
    }

    /// Takes the byte after a DLE in a text; if it ends a frame, that frame.
    #[tactic(auto, unfolding(crate::specs::ByteSteps::rest_step))]
    fn take_control(&mut self, byte: u8) -> Option<Ended>
        ensures frame { option_map (frame_in self.new.held.items) result
            ≡ (rest_step (InText (good_data self.old.spoiled self.old.held.items) true) byte).frame }
        ensures rest { rest_in self.new
            ≡ (rest_step (InText (good_data self.old.spoiled self.old.held.items) true) byte).rest }
    {
        match byte {
            DLE => self.keep(byte),
            SYN => self.go_on(Place::Inside),
            ETB | ETX => self.end_text(),
            ENQ => self.end(Ended::Spoiled),
            _ => self.spoil(),
        }
    }

    fn go_on(&mut self, place: Place) -> Option<Ended>
        ensures none { result ≡ None }
        ensures place { self.new.place ≡ place }
        ensures spoiled { self.new.spoiled ≡ self.old.spoiled }
        ensures held { self.new.held.items ≡ self.old.held.items }
    {
        self.place = place;
        None
    }

    fn end(&mut self, ended: Ended) -> Option<Ended>
        ensures ended { result ≡ Some ended }
        ensures place { self.new.place ≡ Place.Between }
        ensures held { self.new.held.items ≡ self.old.held.items }
    {
        self.place = Place::Between;
        Some(ended)
    }

    fn begin_text(&mut self) -> Option<Ended>
        ensures none { result ≡ None }
        ensures rest { rest_in self.new ≡ InText (Some []) false }
    {
        self.place = Place::Inside;
        self.spoiled = false;
        self.held.clear();
        None
    }

    /// Spoils the text if it has no room for the byte.
    fn keep(&mut self, byte: u8) -> Option<Ended>
        ensures none { result ≡ None }
        ensures rest { rest_in self.new
            ≡ InText (kept_with (good_data self.old.spoiled self.old.held.items) byte) false }
    {
        if self.held.len() == LONGEST_TEXT {
            return self.spoil();
        }
        self.place = Place::Inside;
        self.held.push_reserved(byte);
        None
    }

    /// Spoils the text if it has no room for the bytes.
    fn keep_all(&mut self, bytes: &[u8])
        requires { self.old.place ≡ Place.Inside }
        ensures rest { rest_in self.new
            ≡ InText (kept_all (good_data self.old.spoiled self.old.held.items) bytes.now) false }
    {
        if LONGEST_TEXT - self.held.len() < bytes.len() {
            self.spoiled = true;
            return;
        }
        if bytes.len() <= FEW {
            self.push_all(bytes);
        } else {
            self.held.extend_from_slice(bytes).unwrap();
        }
    }

    /// Keeps bytes one by one, in room that is there.
    fn push_all(&mut self, bytes: &[u8])
        requires { vec_len self.old.held + length bytes.now ≤ longest_text }
        ensures place { self.new.place ≡ self.old.place }
        ensures spoiled { self.new.spoiled ≡ self.old.spoiled }
        ensures held { self.new.held.items ≡ self.old.held.items ++ bytes.now }
    {
        for byte in bytes {
            self.held.push_reserved(*byte);
        }
    }

    fn spoil(&mut self) -> Option<Ended>
        ensures none { result ≡ None }
        ensures rest { rest_in self.new ≡ InText None false }
    {
        self.place = Place::Inside;
        self.spoiled = true;
        None
    }

    fn end_text(&mut self) -> Option<Ended>
        ensures frame { option_map (frame_in self.new.held.items) result
            ≡ Some (text_or_spoiled (good_data self.old.spoiled self.old.held.items)) }
        ensures place { self.new.place ≡ Place.Between }
    {
        if self.spoiled {
            self.end(Ended::Spoiled)
        } else {
            self.end(Ended::Text)
        }
    }
}

/// Whether a text begins here.
fn begins_text(bytes: &[u8]) -> bool
    ensures { result ≡ true → bytes.now ≡ 0x10 ∷ 0x02 ∷ drop 2 bytes.now }
{
    let Some((first, after)) = bytes.split_first() else {
        return false;
    };
    let Some((second, _)) = after.split_first() else {
        return false;
    };
    *first == DLE && *second == STX
}
