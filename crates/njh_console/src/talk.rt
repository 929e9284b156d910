//! A visitor's connection.

ghost use Rattle.std.specs.Prelude.{◌≡◌, ◌↔◌, ◌<◌, ◌||◌, ℕ, List, false, length, nat_lt, take, true, IfOk, IsFalse};
ghost use Rattle.std.specs.Prelude.{IsTrue, OnErr};
ghost use Rattle.std.specs.Io.KnownBytes.{Appends, Consumes, Keeps};
ghost use Rattle.http_server.specs.Exchange.{Calls};
ghost use Rattle.http_server.specs.History.{after_read, after_sent, IsQuiet, IsServed, WantsRead};
ghost use Rattle.njh_console.specs.Seats.{config, IsAsking, IsHeldUp};
ghost use Rattle.njh_console.specs.code.Talks.{new_talk};

use http_server::{Config, Connection, Service, State};
use http1::Limits;
use std::alloc::Global;
use std::hash::RandomState;
use std::io;
use std::io::{Read, Write};
use std::marker::Model;

/// A request has at most so many bytes of head and of body. While an answer waits to go out no
/// request is read: so one is answered a round.
const CONFIG: Config = Config {
    limits: Limits {
        max_head_len: 4_096,
        max_extensions_len: 64,
        max_trailers_len: 64,
    },
    max_body_len: 4_096,
    max_pending: 0,
    read_size: 4_096,
};

/// A connection, and whether something came or went since it was looked at.
#[derive(Drop)]
pub(crate) struct Talk {
    connection: Connection,
    /// Something came or went since it was looked at last.
    is_unseen: bool,
}

impl Model for Talk {
    ghost use Rattle.std.specs.Prelude.{◌≡◌, false};
    ghost use Rattle.http_server.specs.Connection.{config_of, history};
    ghost use Rattle.njh_console.specs.Seats.{config, IsAsking};
    ghost use Rattle.njh_console.specs.code.Talks.{TalkState};

    ghost Value = { TalkState };

    ghost view = { λ talk. record { history = history talk.connection; unseen = talk.is_unseen } };

    ghost invariant = { λ talk. (config_of talk.connection ≡ config)
        × (talk.is_unseen ≡ false → ¬ (IsAsking (history talk.connection))) };
}

impl Talk {
    /// Nothing has come yet.
    pub(crate) fn new(alloc: Global, keys: RandomState) -> Talk
        ensures { result ≡ new_talk }
    {
        Talk {
            connection: Connection::new(alloc, keys, CONFIG),
            is_unseen: false,
        }
    }

    /// Whether something came or went since it was looked at last. If not, no request waits.
    pub(crate) fn is_unseen(&self) -> bool
        ensures unseen { result ≡ self.now.unseen }
        ensures asking { IsFalse result → ¬ (IsAsking self.now.history) }
    {
        self.is_unseen
    }

    /// Whether more is to be read.
    pub(crate) fn wants_read(&self) -> bool
        ensures { IsTrue result ↔ WantsRead config self.now.history }
    {
        self.connection.wants_read()
    }

    /// Whether something waits to go out.
    pub(crate) fn wants_write(&self) -> bool
        ensures { IsTrue result ↔ (0 < length self.now.history.pending) }
    {
        self.connection.wants_write()
    }

    /// Where it stands.
    pub(crate) fn state(&self) -> State
        ensures { result ≡ self.now.history.state }
    {
        self.connection.state()
    }

    /// Reads once.
    pub(crate) fn read_from<R: Read>(&mut self, socket: &mut R) -> io::Result<usize>
        ensures ok { IfOk result (λ n. (more : List ℕ) × (length more ≡ n)
            × Consumes (R.remaining socket.old) (R.remaining socket.new) more
            × (self.new ≡ record { history = after_read self.old.history more; unseen = true })) }
        ensures err { OnErr result ((self.new ≡ self.old) × Keeps (R.remaining socket.old) (R.remaining socket.new)) }
    {
        let count = self.connection.read_from(socket)?;
        self.is_unseen = true;
        Ok(count)
    }

    /// Answers what came whole.
    pub(crate) fn answer<D: Service>(&mut self, desk: &mut D)
        ensures calls { Calls D.answers desk.old desk.new self.old.history.calls self.new.history.calls }
        ensures asked { IsAsking self.old.history → self.new.history.calls ≡ self.old.history.calls
            → IsHeldUp self.new.history }
        ensures served { ∥ IsServed config self.new.history ∥₁ }
        ensures quiet { IsQuiet self.old.history self.new.history }
        ensures seen { self.new.unseen ≡ false }
    {
        if !self.is_unseen {
            return;
        }
        self.is_unseen = false;
        self.connection.advance(desk);
    }

    /// Writes once.
    pub(crate) fn write_to<W: Write>(&mut self, socket: &mut W) -> io::Result<usize>
        ensures ok { IfOk result (λ n. (self.new.history ≡ after_sent self.old.history n)
            × Appends (W.contents socket.old) (W.contents socket.new) (take n self.old.history.pending)) }
        ensures unseen { IfOk result (λ n. self.new.unseen ≡ (self.old.unseen || nat_lt 0 n)) }
        ensures err { OnErr result ((self.new ≡ self.old) × Keeps (W.contents socket.old) (W.contents socket.new)) }
    {
        let count = self.connection.write_to(socket)?;
        self.is_unseen = self.is_unseen || count > 0;
        Ok(count)
    }
}
