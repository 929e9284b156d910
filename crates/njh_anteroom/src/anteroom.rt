//! The anteroom of a line that listens.

ghost use Rattle.std.specs.Prelude.{◌≡◌, ◌≢◌, ◌<◌, ◌≤◌, All, IfOk, IfSome, IsSome, length, slice_get, true};
ghost use Rattle.std.specs.Net.Socket.{socket_ip};
ghost use Rattle.njh_table.specs.Ranges.{number_of};
ghost use Rattle.njh_anteroom.specs.Next.{displacement, entry_of, first_moment, guest_at, next_place, rank_in};
ghost use Rattle.njh_anteroom.specs.Next.{without_place};
ghost use Rattle.njh_anteroom.specs.Remembered.{ended, rank_of, with_session, IsMemory};
ghost use Rattle.njh_anteroom.specs.Remembered.{refusals_of};
ghost use Rattle.njh_anteroom.specs.Rooms.{empty_room};
ghost use Rattle.njh_anteroom.specs.Waiting.{number_in, seated, HasPlace, IsQueue};
ghost use Rattle.njh_anteroom.specs.code.Seats.{Fits, IsFree};

use crate::entry::Entry;
use crate::guest::Guest;
use crate::memory::Memory;
use crate::queue::Queue;
use crate::remembered::Remembered;
use std::alloc::{AllocError, Global};
use std::marker::Model;
use std::net::{IpAddr, SocketAddr};

/// The anteroom of a line that listens. At most eight connections wait, in the order in which they
/// came; of up to 64 addresses it is remembered what came of their connections. By that an address
/// is known, if a session was up on a connection of it, or new; or, whatever was before, blemished,
/// if a sign-on was refused in the last minute or its pause still runs. All its memory is taken at
/// once.
#[derive(Drop)]
pub struct Anteroom<C: Drop> {
    queue: Queue<C>,
    memory: Memory,
}

impl<C: Drop> Model for Anteroom<C> {
    ghost use Rattle.njh_anteroom.specs.Rooms.{Room};

    ghost Value = { Room C };

    ghost view = { λ room. record { waiting = room.queue; remembered = room.memory } };
}

impl<C: Drop> Anteroom<C> {
    ghost use Rattle.std.specs.Prelude.{[], ◌∷◌, ◌++◌, remove};

    /// Nobody waits, and nothing is remembered. Out of memory is the only refusal.
    pub fn new(alloc: Global) -> Result<Anteroom<C>, AllocError>
        ensures { IfOk result (λ room. room ≡ empty_room) }
    {
        Ok(Anteroom {
            queue: Queue::new(alloc)?,
            memory: Memory::new(alloc)?,
        })
    }

    /// Who waits, in the order in which they came.
    pub fn waiting(&self) -> &[Guest<C>]
        ensures waiting { result.now ≡ self.now.waiting }
        ensures queue { IsQueue self.now.waiting }
    {
        self.queue.all()
    }

    /// What is remembered of addresses, what was noted last behind all else.
    pub fn remembered(&self) -> &[Remembered]
        ensures remembered { result.now ≡ self.now.remembered }
        ensures memory { IsMemory self.now.remembered }
    {
        self.memory.all()
    }

    /// How many sign-ons from an address were refused, as far as that is remembered.
    pub fn refusals_of(&self, address: IpAddr) -> u64
        ensures { result ≡ refusals_of address self.now.remembered }
    {
        self.memory.refusals_of(address)
    }

    /// A connection comes from an address. Answers what becomes of it: `may_grow` says whether one
    /// more may be kept.
    pub fn come(&mut self, connection: C, address: SocketAddr, now: u64, may_grow: bool) -> Entry
        ensures entry { result
            ≡ entry_of (number_of (socket_ip address)) now may_grow self.old.remembered self.old.waiting }
        ensures waiting { self.new.waiting
            ≡ seated result (record { connection = connection; address = address; since = now }) self.old.waiting }
        ensures remembered { self.new.remembered ≡ self.old.remembered }

        // Nobody is turned away while there is room, or while one of a greater rank waits.
        ensures room { may_grow ≡ true → length self.old.waiting < 8 → result ≢ Entry.TurnedAway }
        ensures welcome { result ≡ Entry.TurnedAway → All (λ guest. rank_in now self.old.remembered guest
            ≤ rank_of now self.old.remembered (number_of (socket_ip address))) self.old.waiting }
    {
        let guest = Guest {
            connection,
            address,
            since: now,
        };
        let entry = self.entry_of(guest.number(), now, may_grow);
        self.queue.seat(entry, guest);
        entry
    }

    /// What becomes of a connection from the address with this number.
    fn entry_of(&self, number: u128, now: u64, may_grow: bool) -> Entry
        ensures entry { result ≡ entry_of number now may_grow self.now.remembered self.now.waiting }
        ensures fits { Fits result number self.now.waiting }
    {
        match self.queue.place_of(number) {
            Some(place) => Entry::Renewed(place),
            None => {
                if may_grow && self.queue.has_room() {
                    Entry::Added
                } else {
                    self.displacement(number, now)
                }
            }
        }
    }

    /// Whether one from the address with this number takes the place of another.
    fn displacement(&self, number: u128, now: u64) -> Entry
        ensures entry { result
            ≡ displacement (rank_of now self.now.remembered number) now self.now.remembered self.now.waiting }
        ensures fits { IsFree number self.now.waiting → Fits result number self.now.waiting }
    {
        if self.queue.greatest_rank(&self.memory, now) <= self.memory.rank(number, now) {
            return Entry::TurnedAway;
        }
        match self.queue.last_of_greatest(&self.memory, now) {
            Some(place) => Entry::Displaced(place),
            None => Entry::TurnedAway,
        }
    }

    /// Takes out whom the line is to be given: the first who is known; if there is none, the first who
    /// is new; if there is none either, the first whose pause is over.
    pub fn next(&mut self, now: u64) -> Option<Guest<C>>
        ensures guest { result ≡ guest_at (next_place now self.old.remembered self.old.waiting) self.old.waiting }
        ensures waiting { self.new.waiting
            ≡ without_place (next_place now self.old.remembered self.old.waiting) self.old.waiting }
        ensures remembered { self.new.remembered ≡ self.old.remembered }

        // Nobody of a lesser rank waits than who is given the line, and nobody waits beyond the first moment.
        ensures first { IfSome result (λ one. All (λ guest. rank_in now self.old.remembered one
            ≤ rank_in now self.old.remembered guest) self.old.waiting) }
        ensures due { IsSome result → first_moment self.old.remembered self.old.waiting ≤ now }
        ensures in_time { first_moment self.old.remembered self.old.waiting ≤ now → now < 18446744073709551615
            → IsSome result }
    {
        match self.queue.next_place(&self.memory, now) {
            Some(place) => Some(self.queue.take(place)),
            None => None,
        }
    }

    /// The first moment at which `next` takes one out, if nothing else happens; `u64::MAX` if nobody
    /// waits.
    pub fn next_at(&self) -> u64
        ensures { result ≡ first_moment self.now.remembered self.now.waiting }
    {
        self.queue.first_moment(&self.memory)
    }

    /// Takes out who waits before all others, and may wait again.
    pub fn take_first(&mut self) -> Option<Guest<C>>
        ensures guest { result ≡ slice_get self.old.waiting 0 }
        ensures waiting { self.new.waiting ≡ remove self.old.waiting 0 }
        ensures remembered { self.new.remembered ≡ self.old.remembered }
        ensures returns { IfSome result (λ guest. HasPlace (number_in guest) self.new.waiting) }
    {
        self.queue.take_first()
    }

    /// One that was taken out waits again, behind all others.
    pub fn put_last(&mut self, guest: Guest<C>)
        requires { HasPlace (number_in guest) self.old.waiting }
        ensures waiting { self.new.waiting ≡ self.old.waiting ++ guest ∷ [] }
        ensures remembered { self.new.remembered ≡ self.old.remembered }
    {
        self.queue.add(guest);
    }

    /// A connection of an address ended without a session, or since its sign-on was refused.
    pub fn end_without_session(&mut self, address: IpAddr, was_refused: bool, now: u64)
        ensures remembered { self.new.remembered ≡ ended address was_refused now self.old.remembered }
        ensures waiting { self.new.waiting ≡ self.old.waiting }
    {
        self.memory.end(address, was_refused, now);
    }

    /// A session came up on a connection of an address: that is known from now on, and its next pause
    /// is the shortest again.
    pub fn session(&mut self, address: IpAddr)
        ensures remembered { self.new.remembered ≡ with_session address self.old.remembered }
        ensures waiting { self.new.waiting ≡ self.old.waiting }
    {
        self.memory.session(address);
    }

    /// Drops all who wait.
    pub fn close_all(&mut self)
        ensures waiting { self.new.waiting ≡ [] }
        ensures remembered { self.new.remembered ≡ self.old.remembered }
    {
        self.queue.clear();
    }
}
