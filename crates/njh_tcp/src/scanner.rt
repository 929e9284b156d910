//! One part after another through the TTBs.

ghost use Rattle.std.specs.Prelude.{◌≡◌, ◌+◌, ◌++◌, ◌<◌, ◌≤◌, [], true, drop, take, length, IfOk, IsTrue};
ghost use Rattle.std.specs.Prelude.{option_map, vec_len, vec_capacity, Some};
ghost use Rattle.njh_bisync.specs.Limits.{longest_text};
ghost use Rattle.njh_tcp.specs.Blocks.{Whole};
ghost use Rattle.njh_tcp.specs.ByteSteps.{feed_outcome, heard_in, rest_step};
ghost use Rattle.njh_tcp.specs.Carried.{IsShort};
ghost use Rattle.njh_tcp.specs.Hearing.{Hears, heard_of};
ghost use Rattle.njh_tcp.specs.Limits.{longest_ttr};
ghost use Rattle.njh_tcp.specs.Reading.{afresh, contact_over, fault_in};
ghost use Rattle.njh_tcp.specs.code.Room.{has_room};

use crate::contact::Contact;
use crate::ended::{Ended, hear};
use crate::fault::TtbFault;
use crate::frame::TcpFrame;
use crate::heads::{TTB_HEAD, TTR_HEAD, length_in};
use crate::place::{LONGEST_TTR, Place, place_in_ttb, place_in_ttr};
use arrayvec::ArrayVec;
use std::alloc::{AllocError, Global};

/// How many bytes are kept one by one.
const FEW: usize = 8;

/// The part of a TTB that is coming, or why none is, and what has come of it. `head` has a part of a head, and `held` the data of a TTR, with a
/// capacity that was reserved once.
#[derive(Debug, Drop)]
pub struct Scanner {
    place: Result<Place, TtbFault>,
    contact: Contact,
    head: ArrayVec<u8, TTB_HEAD>,
    held: Vec<u8>,
    ghost fits: { IsTrue (has_room place head.items held.items) },
    ghost short: { vec_len held ≤ longest_ttr },
    ghost room: { longest_ttr ≤ vec_capacity held },
}

impl Scanner {
    ghost use Rattle.njh_tcp.specs.LentFrames.{carried_of, outcome_of};
    ghost use Rattle.njh_tcp.specs.code.Scans.{rest_in};
    ghost use Rattle.njh_tcp.specs.code.Scanner.{fed_on, hearing_on, heard_rest, outcome_in, step_to};

    /// Nothing has come, and there is room for the longest TTR.
    pub fn new(alloc: Global, contact: Contact) -> Result<Scanner, AllocError>
        ensures { IfOk result (λ scanner. rest_in scanner ≡ afresh contact) }
    {
        Ok(Scanner {
            place: Ok(Place::Head),
            contact,
            head: ArrayVec::new(),
            held: Vec::with_capacity(alloc, LONGEST_TTR)?,
        })
    }

    /// Takes bytes up to the end of what is given or refused first, or all: how many, and what.
    pub fn scan(&mut self, piece: &[u8]) -> (usize, Option<Ended>)
        ensures taken { result.0 ≡ (feed_outcome (rest_in self.old) piece.now).taken }
        ensures outcome { option_map (outcome_in self.new.held.items) result.1
            ≡ (feed_outcome (rest_in self.old) piece.now).outcome }
        ensures rest { rest_in self.new ≡ (feed_outcome (rest_in self.old) piece.now).rest }
    {
        let mut taken = 0;
        while taken < piece.len() {
            let (count, ended) = self.take_some(&piece[taken..]);
            taken += count;
            if let Some(ended) = ended {
                return (taken, Some(ended));
            }
        }
        (taken, None)
    }

    /// What the last byte ended.
    pub fn frame(&self, ended: Ended) -> Result<TcpFrame<'_>, TtbFault>
        ensures outcome { outcome_of result ≡ outcome_in self.now.held.items ended }
        ensures short { IfOk result (λ frame. IsShort (carried_of frame)) }
    {
        match ended {
            Ended::Enquiry => Ok(TcpFrame::Enquiry),
            Ended::Ack0 => Ok(TcpFrame::Ack0),
            Ended::Text => Ok(TcpFrame::Text(self.text())),
            Ended::Wrong(fault) => Err(fault),
        }
    }

    /// The data that are held, without DLE STX.
    fn text(&self) -> &[u8]
        ensures text { result.now ≡ drop 2 self.now.held.items }
        ensures short { length result.now ≤ longest_text }
    {
        match self.held.as_slice() {
            [_, _, text @ ..] => text,
            _ => &[],
        }
    }

    /// Why nothing comes any more.
    pub fn fault(&self) -> Option<TtbFault>
        ensures { result ≡ fault_in (rest_in self.now) }
    {
        self.place.err()
    }

    /// A text came or went: no contact is taken any more.
    pub fn end_contact(&mut self)
        ensures { rest_in self.new ≡ contact_over (rest_in self.old) }
    {
        self.contact = Contact::Over;
    }

    /// Begins as a new one does.
    pub fn reset(&mut self, contact: Contact)
        ensures { rest_in self.new ≡ afresh contact }
    {
        self.head.clear();
        self.place = Ok(Place::Head);
        self.contact = contact;
    }

    /// Takes one byte of a head, or all that is there of the data of a TTR, or all where nothing
    /// comes: how many, and what they end.
    fn take_some(&mut self, bytes: &[u8]) -> (usize, Option<Ended>)
        requires { 0 < length bytes.now }
        ensures some { 0 < result.0 }
        ensures within { result.0 ≤ length bytes.now }
        ensures goes_on { feed_outcome (rest_in self.old) bytes.now
            ≡ fed_on result.0 (option_map (outcome_in self.new.held.items) result.1) (rest_in self.new) bytes.now }
    {
        match self.place {
            Ok(Place::Head) => (1, self.take_head(bytes[0])),
            Ok(Place::TtrHead(behind)) => (1, self.take_ttr_head(behind, bytes[0])),
            Ok(Place::Ttr(behind, size)) => self.take_data(behind, size, bytes),
            Err(_) => (bytes.len(), None),
        }
    }

    /// Takes a byte of the head of a TTB.
    #[tactic(auto, unfolding(crate::specs::ByteSteps::rest_step, crate::specs::ByteSteps::part_step))]
    fn take_head(&mut self, byte: u8) -> Option<Ended>
        requires { self.old.place ≡ Ok Place.Head }
        ensures outcome { option_map (outcome_in self.new.held.items) result
            ≡ (rest_step (rest_in self.old) byte).outcome }
        ensures rest { rest_in self.new ≡ (rest_step (rest_in self.old) byte).rest }
    {
        self.head.push(byte);
        if self.head.len() < TTB_HEAD {
            return None;
        }
        let next = place_in_ttb(length_in(self.head.as_slice()));
        self.head.clear();
        self.go_to(next)
    }

    /// Takes a byte of the head of a TTR that has so many bytes of the TTB behind it.
    #[tactic(auto, unfolding(crate::specs::ByteSteps::rest_step, crate::specs::ByteSteps::part_step))]
    fn take_ttr_head(&mut self, behind: usize, byte: u8) -> Option<Ended>
        requires { self.old.place ≡ Ok (Place.TtrHead behind) }
        ensures outcome { option_map (outcome_in self.new.held.items) result
            ≡ (rest_step (rest_in self.old) byte).outcome }
        ensures rest { rest_in self.new ≡ (rest_step (rest_in self.old) byte).rest }
    {
        self.head.push(byte);
        if self.head.len() < TTR_HEAD {
            return None;
        }
        let next = place_in_ttr(behind, length_in(self.head.as_slice()));
        self.head.clear();
        self.go_to(next)
    }

    /// Goes on behind a whole head.
    fn go_to(&mut self, next: Result<Place, TtbFault>) -> Option<Ended>
        requires room { IsTrue (has_room next [] []) }
        requires head { self.old.head.items ≡ [] }
        ensures outcome { option_map (outcome_in self.new.held.items) result
            ≡ (heard_in self.old.contact (step_to next).item (step_to next).part).outcome }
        ensures rest { rest_in self.new ≡ (heard_in self.old.contact (step_to next).item (step_to next).part).rest }
    {
        self.held.clear();
        self.place = next;
        match next {
            Ok(_) => None,
            Err(fault) => Some(Ended::Wrong(fault)),
        }
    }

    /// Takes all that is there of the data of a TTR.
    fn take_data(&mut self, behind: usize, size: usize, bytes: &[u8]) -> (usize, Option<Ended>)
        requires place { self.old.place ≡ Ok (Place.Ttr behind size) }
        requires some { 0 < length bytes.now }
        ensures some { 0 < result.0 }
        ensures within { result.0 ≤ length bytes.now }
        ensures goes_on { feed_outcome (rest_in self.old) bytes.now
            ≡ fed_on result.0 (option_map (outcome_in self.new.held.items) result.1) (rest_in self.new) bytes.now }
    {
        let count = bytes.len().min(size - self.held.len());
        append(&mut self.held, &bytes[..count]);
        if self.held.len() < size {
            return (count, None);
        }
        self.place = Ok(Place::TtrHead(behind - TTR_HEAD));
        (count, self.hear())
    }

    /// Gives the data of a TTR that are held, or not.
    fn hear(&mut self) -> Option<Ended>
        ensures outcome { option_map (outcome_in self.new.held.items) result
            ≡ (heard_of (Hears self.old.contact) (Whole self.old.held.items)).outcome }
        ensures hearing { hearing_on self.old.contact result
            ≡ (heard_of (Hears self.old.contact) (Whole self.old.held.items)).hearing }
        ensures rest { rest_in self.new ≡ heard_rest (hearing_on self.old.contact result) (rest_in self.old) }
    {
        let ended = hear(self.contact, self.held.as_slice());
        match ended {
            Some(Ended::Text) => self.contact = Contact::Over,
            Some(Ended::Wrong(fault)) => self.place = Err(fault),
            _ => {}
        }
        ended
    }
}

/// Keeps bytes, in room that is there.
fn append(held: &mut Vec<u8>, bytes: &[u8])
    requires { vec_len held.old + length bytes.now ≤ vec_capacity held.old }
    ensures items { held.new.items ≡ held.old.items ++ bytes.now }
    ensures capacity { vec_capacity held.old ≤ vec_capacity held.new }
{
    if bytes.len() <= FEW {
        for byte in bytes {
            held.push_reserved(*byte);
        }
    } else {
        held.extend_from_slice(bytes).unwrap();
    }
}
