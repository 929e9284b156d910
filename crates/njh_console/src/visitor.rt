//! Who visits the console.

ghost use Rattle.std.specs.Prelude.{◌≡◌, ◌↔◌, ◌+◌, false, min, IsFalse, IsTrue};
ghost use Rattle.http_server.specs.Exchange.{Calls};
ghost use Rattle.http_server.specs.History.{IsQuiet, IsServed, WantsRead};
ghost use Rattle.njh_console.specs.Seats.{answered_at, config, is_astray, is_bad_request, is_done, is_open, leaves};
ghost use Rattle.njh_console.specs.Seats.{may_ask, new_seat, IsAsking, IsHeldUp, IsReadFrom, IsSentTo, IsThereAs};

use crate::talk::Talk;
use http_server::{Reason, Refusal, Service, State};
use std::alloc::Global;
use std::hash::RandomState;
use std::io::{ErrorKind, Read, Write};
use std::marker::Model;

/// How many visitors there are at most.
pub const SEATS: usize = 4;

/// For how many milliseconds a visitor may be there without a whole request.
pub const PATIENCE: u64 = 2_000;

/// A visitor. Moments are milliseconds on the service's clock.
#[derive(Drop)]
pub(crate) struct Visitor<V: Drop> {
    talk: Talk,
    socket: V,
    /// When it came in, or was answered last.
    since: u64,
    /// A request of its was answered.
    was_served: bool,
    /// Its socket may have more to read: the last read gave something.
    is_unread: bool,
    /// Its socket failed.
    has_failed: bool,
}

impl<V: Drop> Model for Visitor<V> {
    ghost use Rattle.njh_console.specs.Seats.{Seat};

    ghost Value = { Seat V };

    ghost view = { λ visitor. record {
      socket = visitor.socket;
      history = visitor.talk.history;
      unseen = visitor.talk.unseen;
      since = visitor.since;
      served = visitor.was_served;
      failed = visitor.has_failed;
    } };
}

impl<V: Read + Write + Drop> Visitor<V> {
    /// One who comes in at this moment.
    pub(crate) fn new(alloc: Global, keys: RandomState, socket: V, now: u64) -> Visitor<V>
        ensures { result ≡ new_seat socket now }
    {
        Visitor {
            talk: Talk::new(alloc, keys),
            socket,
            since: now,
            was_served: false,
            is_unread: true,
            has_failed: false,
        }
    }

    /// Whether something came or went since it was looked at last. If not, no request waits.
    pub(crate) fn is_unseen(&self) -> bool
        ensures { IsFalse result → ¬ (IsAsking self.now.history) }
    {
        self.talk.is_unseen()
    }

    /// Whether it may have a whole request that waits for an answer.
    pub(crate) fn may_ask(&self) -> bool
        ensures asks { result ≡ may_ask self.now }
        ensures asking { IsFalse result → ¬ (IsAsking self.now.history) }
    {
        self.talk.is_unseen() && !self.talk.wants_write()
    }

    /// Whether a request of its was answered.
    pub(crate) fn was_served(&self) -> bool
        ensures { result ≡ self.now.served }
    {
        self.was_served
    }

    /// Whether more is to be read.
    pub(crate) fn wants_read(&self) -> bool
        ensures { IsTrue result ↔ WantsRead config self.now.history }
    {
        self.talk.wants_read()
    }

    /// Reads once, if it may send something now.
    pub(crate) fn receive(&mut self)
        ensures { IsReadFrom V.remaining self.old self.new }
    {
        self.is_unread = false;
        if !self.talk.wants_read() {
            return;
        }
        match self.talk.read_from(&mut self.socket) {
            Ok(count) => self.is_unread = count > 0,
            Err(error) => self.has_failed = self.has_failed || !is_wait(error.kind()),
        }
    }

    /// Answers what came whole.
    pub(crate) fn answer<D: Service>(&mut self, desk: &mut D)
        ensures calls { Calls D.answers desk.old desk.new self.old.history.calls self.new.history.calls }
        ensures asked { IsAsking self.old.history → self.new.history.calls ≡ self.old.history.calls
            → IsHeldUp self.new.history }
        ensures served { ∥ IsServed config self.new.history ∥₁ }
        ensures quiet { IsQuiet self.old.history self.new.history }
        ensures socket { self.new.socket ≡ self.old.socket }
        ensures seen { self.new.unseen ≡ false }
        ensures there { IsThereAs self.old self.new }
        ensures failed { self.new.failed ≡ self.old.failed }
    {
        self.talk.answer(desk);
    }

    /// Notes that it was answered at this moment.
    pub(crate) fn note_answer(&mut self, now: u64)
        ensures { self.new ≡ answered_at now self.old }
    {
        self.since = now;
        self.was_served = true;
    }

    /// Writes once, if something waits to go out.
    pub(crate) fn send(&mut self)
        ensures { IsSentTo self.old self.new }
    {
        if !self.talk.wants_write() {
            return;
        }
        match self.talk.write_to(&mut self.socket) {
            Ok(_) => {}
            Err(error) => self.has_failed = self.has_failed || !is_wait(error.kind()),
        }
    }

    /// Whether its socket failed.
    pub(crate) fn has_failed(&self) -> bool
        ensures { result ≡ self.now.failed }
    {
        self.has_failed
    }

    /// Whether it leaves: it is done, its socket failed, or it is there without a whole request for
    /// too long.
    pub(crate) fn leaves(&self, now: u64) -> bool
        ensures { result ≡ leaves now self.now }
    {
        self.is_done() || self.has_failed || (!self.may_ask() && self.end_of_patience() <= now)
    }

    /// Whether its connection was closed since what came is no request of HTTP that is read here.
    pub(crate) fn is_astray(&self) -> bool
        ensures { result ≡ is_astray self.now.history.state }
    {
        match self.talk.state() {
            State::Closing(Reason::Refused(why)) => is_bad_request(why),
            _ => false,
        }
    }

    /// Whether HTTP has nothing more to do there.
    fn is_done(&self) -> bool
        ensures { result ≡ is_done self.now.history }
    {
        !is_open(self.talk.state()) && !self.talk.wants_write()
    }

    /// When it is let go if no whole request comes.
    fn end_of_patience(&self) -> u64
        ensures { result ≡ min (self.now.since + 2000) 18446744073709551615 }
    {
        self.since.saturating_add(PATIENCE)
    }

    /// When it wants to be looked at next.
    pub(crate) fn moment(&self, now: u64) -> u64 {
        if self.is_unread {
            now
        } else {
            self.end_of_patience()
        }
    }
}

fn is_open(state: State) -> bool
    ensures { result ≡ is_open state }
{
    match state {
        State::Open => true,
        _ => false,
    }
}

/// Whether what came was at fault, and not what was to be answered.
fn is_bad_request(why: Refusal) -> bool
    ensures { result ≡ is_bad_request why }
{
    match why {
        Refusal::InvalidResponse(_) => false,
        _ => true,
    }
}

/// The call would have waited; a later one may do more.
fn is_wait(kind: ErrorKind) -> bool {
    match kind {
        ErrorKind::WouldBlock | ErrorKind::Interrupted => true,
        _ => false,
    }
}
