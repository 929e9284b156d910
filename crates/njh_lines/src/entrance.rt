//! Who comes to a line: who has it, or had it last, and who waits for it.

ghost use Rattle.std.specs.Prelude.{◌≡◌, IfOk};
ghost use Rattle.njh_lines.specs.Entrances.{away_at, first_entrance, given_to, in_session, parted};

use crate::opens::Opens;
use crate::turned_away::TurnedAway;
use njh_anteroom::Anteroom;
use njh_table::AddressRanges;
use std::alloc::{AllocError, Global};
use std::net::SocketAddr;

/// Who comes to a line.
#[derive(Drop)]
pub struct Entrance<C: Drop> {
    /// From where it takes connections.
    pub from: AddressRanges,
    /// Who waits to be given the line, and what is remembered of addresses.
    pub anteroom: Anteroom<C>,
    /// The address of the peer that has the line, or had it last.
    pub peer: Option<SocketAddr>,
    /// Connections to it that were closed as they came, since it takes none from there.
    pub not_allowed: TurnedAway,
    /// Connections to it that were closed as they came, since so many waited already.
    pub turned_away: TurnedAway,
    /// Who asked for it and wasn't given it, over TCP/IP.
    pub opens: Opens,
}

impl<C: Drop> Entrance<C> {
    /// Nobody came yet of those who may, from there. Out of memory is the only refusal.
    pub(crate) fn new(alloc: Global, from: &AddressRanges) -> Result<Entrance<C>, AllocError>
        ensures { IfOk result (λ entrance. entrance ≡ first_entrance from.now) }
    {
        Ok(Entrance {
            anteroom: Anteroom::new(alloc)?,
            from: from.copy(),
            peer: None,
            not_allowed: TurnedAway::none(),
            turned_away: TurnedAway::none(),
            opens: Opens::none(),
        })
    }

    /// When some who were closed are to be told of; the last moment of all if there were none.
    pub(crate) fn away_moment(&self) -> u64
        ensures { result ≡ away_at self.now }
    {
        self.not_allowed.moment().min(self.turned_away.moment())
    }

    /// The line is given to a peer.
    pub(crate) fn give(&mut self, address: SocketAddr)
        ensures { self.new ≡ given_to address self.old }
    {
        self.peer = Some(address);
    }

    /// A session came up on the connection of the peer that has the line.
    pub(crate) fn note_session(&mut self)
        ensures noted { self.new ≡ in_session self.old }
        ensures from { self.new.from ≡ self.old.from }
    {
        if let Some(address) = self.peer {
            self.anteroom.session(address.ip());
        }
    }

    /// The peer's connection ended, or is ended since a sign-on was refused on it. If there was no
    /// session on it, or a refusal, that is remembered of its address.
    pub(crate) fn part(&mut self, had_session: bool, was_refused: bool, now: u64)
        ensures noted { self.new ≡ parted had_session was_refused now self.old }
        ensures from { self.new.from ≡ self.old.from }
    {
        if had_session && !was_refused {
            return;
        }
        if let Some(address) = self.peer {
            self.anteroom
                .end_without_session(address.ip(), was_refused, now);
        }
    }
}
