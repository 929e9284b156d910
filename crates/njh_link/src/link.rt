//! A link: what comes of a connection, and what goes out on it.
ghost use Rattle.std.specs.Prelude.{◌≡◌, ◌<◌, ◌≤◌, ◌↔◌, [], ◌++◌, length, drop, take, min, option_map, IfOk, IfSome, IsTrue};
ghost use Rattle.std.specs.Bool.{OnTrue, OnFalse};
ghost use Rattle.njh_bisync.specs.ByteSteps as line_steps;
ghost use Rattle.njh_bisync.specs.Frames as line;
ghost use Rattle.njh_bisync.specs.LentFrames.{received_of};
ghost use Rattle.njh_tcp.specs.ByteSteps.{feed_outcome};
ghost use Rattle.njh_tcp.specs.LentFrames.{IsShortOutcome, outcome_of};
ghost use Rattle.njh_link.specs.Links.{bytes_out};
ghost use Rattle.njh_link.specs.Talks.{breaks, let_out, talk_written};
ghost use Rattle.njh_link.specs.code.Steps.{bytes_heard, talk_heard};

use crate::fault::LinkFault;
use crate::held::Held;
use crate::talk::Talk;
use njh_bisync::{Deframer, Frame};
use njh_tcp::{Contact, TcpFrame, TtbFault, TtbReader};
use std::alloc::{AllocError, Global};
use std::marker::Model;

/// BCB, FCS and the record that signs off (IBM SC23-0070, sign-off).
const SIGN_OFF: [u8; 6] = [0xa0, 0x8f, 0xcf, 0xf0, 0xc2, 0x00];

/// The link of a line to its peer, over one connection, which has begun with an OPEN that was
/// acknowledged.
///
/// A clause sees the states of both ways, the bytes on their way, and what was said.
#[derive(Drop)]
pub struct Link {
    reader: TtbReader,
    giving: Held,
    deframer: Deframer,
    waiting: Held,
    talk: Talk,
    broken: bool,
}

impl Model for Link {
    ghost use Rattle.njh_link.specs.Links.{LinkState};

    ghost Value = { LinkState };

    ghost view = { λ link. record {
      coming = link.reader;
      giving = link.giving;
      written = link.deframer;
      waiting = link.waiting;
      talk = link.talk;
      broken = link.broken;
    } };
}

impl Link {
    ghost use Rattle.njh_link.specs.Links.{IsDue, after_came, after_written, first_state};
    ghost use Rattle.njh_link.specs.Links.{keep_alive, link_fault, sign_off, with_ack0, with_said};

    /// Nothing has come and nothing was written. Takes all the memory that it needs.
    pub fn new(alloc: Global, contact: Contact) -> Result<Link, AllocError>
        ensures { IfOk result (λ link. link ≡ first_state contact) }
    {
        Ok(Link {
            reader: TtbReader::new(alloc, contact)?,
            giving: Held::new(alloc)?,
            deframer: Deframer::new(alloc)?,
            waiting: Held::new(alloc)?,
            talk: Talk::new(),
            broken: false,
        })
    }

    /// Takes bytes that came, up to and including the end of the first TTR that is given or refused,
    /// or else all, and answers how many. A frame before has to be given first.
    pub fn hear(&mut self, piece: &[u8]) -> usize
        requires { self.old.giving ≡ [] }
        ensures taken { result ≡ (feed_outcome self.old.coming piece.now).taken }
        ensures heard { self.new ≡ after_came (take result piece.now) self.old }
        ensures progress { (result ≤ length piece.now) × (0 < length piece.now → 0 < result) }
    {
        let (taken, told) = self.reader.feed(piece);
        keep(told, &mut self.giving, &mut self.talk);
        taken
    }

    /// Whether all was given of the frame that came.
    pub fn is_given(&self) -> bool
        ensures { IsTrue result ↔ (self.now.giving ≡ []) }
    {
        self.giving.is_empty()
    }

    /// Gives bytes of a frame at the front of a buffer, as many as it has room for, and answers how
    /// many.
    pub fn give(&mut self, into: &mut [u8]) -> usize
        ensures count { result ≡ min (length into.old) (length self.old.giving) }
        ensures given { take result into.new ≡ take result self.old.giving }
        ensures left { self.new ≡ record self.old { giving = drop result self.old.giving } }
    {
        self.giving.move_to(into)
    }

    /// Has the Ack0 given that the line is owed, if that can be now: no byte may wait to go out.
    /// Answers whether it is.
    pub fn acknowledge(&mut self) -> bool
        ensures due { IsTrue result ↔ IsDue self.old }
        ensures given { OnTrue result (self.new ≡ with_ack0 self.old) }
        ensures none { OnFalse result (self.new ≡ self.old) }
    {
        if !self.is_due() {
            return false;
        }
        self.giving.put_line_bytes(TcpFrame::Ack0);
        self.talk.acknowledge();
        true
    }

    /// Whether an Ack0 can be given that the line is owed.
    pub fn is_due(&self) -> bool
        ensures { IsTrue result ↔ IsDue self.now }
    {
        self.talk.owed && self.giving.is_empty() && self.waiting.is_empty()
    }

    /// Takes bytes that the line writes, up to and including the end of the first frame, or else
    /// all, and answers how many. What goes out of it waits. What waited has to go out first.
    pub fn write(&mut self, bytes: &[u8]) -> usize
        requires { self.old.waiting ≡ [] }
        ensures taken { result ≡ (line_steps.feed_outcome self.old.written bytes.now).taken }
        ensures written { self.new ≡ after_written (take result bytes.now) self.old }
        ensures progress { (result ≤ length bytes.now) × (0 < length bytes.now → 0 < result) }
    {
        let (taken, frame) = self.deframer.feed(bytes);
        if let Some(frame) = frame {
            let breaks = act(frame, &mut self.talk, &mut self.waiting);
            self.broken |= breaks;
            if self.talk.bcb.is_some() {
                self.reader.end_contact();
            }
        }
        taken
    }

    /// The bytes of TTBs that are to go out.
    pub fn waiting(&self) -> &[u8]
        ensures { result.now ≡ self.now.waiting }
    {
        self.waiting.as_slice()
    }

    /// Whether all TTBs went out.
    pub fn is_sent(&self) -> bool
        ensures { IsTrue result ↔ (self.now.waiting ≡ []) }
    {
        self.waiting.is_empty()
    }

    /// So many bytes of TTBs went out.
    pub fn sent(&mut self, count: usize)
        requires { count ≤ length self.old.waiting }
        ensures { self.new ≡ record self.old { waiting = drop count self.old.waiting } }
    {
        self.waiting.remove_front(count);
    }

    /// Says that this end is there. What waited has to go out first.
    pub fn keep_alive(&mut self)
        requires { self.old.waiting ≡ [] }
        ensures { self.new ≡ with_said keep_alive self.old }
    {
        self.waiting.put_ttb(TcpFrame::Ack0);
    }

    /// Signs off: to a peer whose sign-on doesn't fit. What waited has to go out first.
    pub fn sign_off(&mut self)
        requires { self.old.waiting ≡ [] }
        ensures { self.new ≡ with_said sign_off self.old }
    {
        self.waiting.put_ttb(TcpFrame::Text(&SIGN_OFF));
    }

    /// Why it can't go on, if it can't. What was to be given before can be given still.
    pub fn fault(&self) -> Option<LinkFault>
        ensures { result ≡ link_fault self.now }
    {
        if self.broken {
            return Some(LinkFault::BadBlock);
        }
        self.reader.fault().map(LinkFault::Refused)
    }
}

/// Keeps a frame that came to be given, if one did.
fn keep(told: Option<Result<TcpFrame<'_>, TtbFault>>, giving: &mut Held, talk: &mut Talk)
    requires empty { giving.old ≡ [] }
    requires short { IfSome told IsShortOutcome }
    ensures giving { giving.new ≡ giving.old ++ bytes_heard (option_map outcome_of told.entry) }
    ensures talk { talk.new ≡ talk_heard (option_map outcome_of told.entry) talk.old }
{
    if let Some(Ok(frame)) = told {
        giving.put_line_bytes(frame);
        talk.give(frame);
    }
}

/// What a frame does that the line writes. Answers whether it ends the link.
fn act(frame: Frame<'_>, talk: &mut Talk, waiting: &mut Held) -> bool
    requires empty { waiting.old ≡ [] }
    requires short { line.IsShort (received_of frame) }
    ensures breaks { result ≡ breaks talk.old (received_of frame.entry) }
    ensures waiting { waiting.new ≡ waiting.old ++ bytes_out (let_out talk.old (received_of frame.entry)) }
    ensures talk { talk.new ≡ talk_written (received_of frame.entry) talk.old }
{
    if let Some(out) = talk.let_out(frame) {
        waiting.put_ttb(out);
    }
    let is_broken = talk.breaks(frame);
    talk.write(frame);
    is_broken
}
