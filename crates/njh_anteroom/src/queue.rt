//! Who waits, in the order in which they came.

ghost use Rattle.std.specs.Prelude.{◌≡◌, ◌<◌, length, nat_lt, slice_get, IfOk, IfSome};
ghost use Rattle.njh_anteroom.specs.Next.{first_moment, greatest_rank, last_of_greatest, next_place};
ghost use Rattle.njh_anteroom.specs.Waiting.{number_in, place_of, seated, HasPlace, IsQueue};
ghost use Rattle.njh_anteroom.specs.code.Seats.{Fits, IsFree};

use crate::address::is_loopback;
use crate::entry::Entry;
use crate::guest::Guest;
use crate::memory::Memory;
use crate::order::{first_moment, greatest_rank, last_of_rank, next_place, place_from};
use std::alloc::{AllocError, Global};
use std::marker::Model;

/// How many wait at most.
const PLACES: usize = 8;

/// Who waits, in the order in which they came. Room for all is reserved.
#[derive(Drop)]
pub(crate) struct Queue<C: Drop> {
    guests: Vec<Guest<C>>,
}

impl<C: Drop> Model for Queue<C> {
    ghost use Rattle.std.specs.Prelude.{◌≤◌, List};
    ghost use Rattle.std.specs.Vec.{vec_capacity};
    ghost use Rattle.njh_anteroom.specs.declared.guest.Guest.{Guest};
    ghost use Rattle.njh_anteroom.specs.Waiting.{IsQueue};

    ghost Value = { List (Guest C) };

    ghost view = { λ queue. queue.guests.items };

    ghost invariant = { λ queue. IsQueue queue.guests.items × (8 ≤ vec_capacity queue.guests) };
}

impl<C: Drop> Queue<C> {
    ghost use Rattle.std.specs.Prelude.{[], ◌∷◌, ◌++◌, remove, slice_set};

    /// Nobody waits.
    pub(crate) fn new(alloc: Global) -> Result<Queue<C>, AllocError>
        ensures { IfOk result (λ queue. queue ≡ []) }
    {
        Ok(Queue {
            guests: Vec::with_capacity(alloc, PLACES)?,
        })
    }

    /// Who waits.
    pub(crate) fn all(&self) -> &[Guest<C>]
        ensures all { result.now ≡ self.now }
        ensures queue { IsQueue self.now }
    {
        &self.guests
    }

    /// Whether one more may wait.
    pub(crate) fn has_room(&self) -> bool
        ensures { result ≡ nat_lt (length self.now) 8 }
    {
        self.guests.len() < PLACES
    }

    /// Where a connection of the address with this number waits already. Each of loopback has a
    /// place of its own.
    pub(crate) fn place_of(&self, number: u128) -> Option<usize>
        ensures place { result ≡ place_of number self.now }
        ensures fits { IfSome result (λ place. Fits (Entry.Renewed place) number self.now) }
        ensures free { result ≡ None → IsFree number self.now }
    {
        if is_loopback(number) {
            None
        } else {
            place_from(&self.guests, number)
        }
    }

    /// The greatest rank of those who wait; 0 if nobody does.
    pub(crate) fn greatest_rank(&self, memory: &Memory, now: u64) -> u8
        ensures { result ≡ greatest_rank now memory.now self.now }
    {
        greatest_rank(&self.guests, memory, now)
    }

    /// Where the last stands who has it.
    pub(crate) fn last_of_greatest(&self, memory: &Memory, now: u64) -> Option<usize>
        ensures last { result ≡ last_of_greatest now memory.now self.now }
        ensures within { IfSome result (λ place. place < length self.now) }
    {
        let greatest = self.greatest_rank(memory, now);
        last_of_rank(&self.guests, memory, now, greatest)
    }

    /// Where who is next stands: the first who is known; if there is none, the first who is new; if
    /// there is none either, the first whose pause is over.
    pub(crate) fn next_place(&self, memory: &Memory, now: u64) -> Option<usize>
        ensures place { result ≡ next_place now memory.now self.now }
        ensures within { IfSome result (λ place. place < length self.now) }
    {
        next_place(&self.guests, memory, now)
    }

    /// When the first may be given the line, if nothing else happens.
    pub(crate) fn first_moment(&self, memory: &Memory) -> u64
        ensures { result ≡ first_moment memory.now self.now }
    {
        first_moment(&self.guests, memory)
    }

    /// One more comes.
    pub(crate) fn seat(&mut self, entry: Entry, guest: Guest<C>)
        requires { Fits entry (number_in guest) self.old }
        ensures { self.new ≡ seated entry guest self.old }
    {
        match entry {
            Entry::Renewed(place) => self.renew(place, guest),
            Entry::Added => self.add(guest),
            Entry::Displaced(place) => {
                drop(self.take(place));
                self.add(guest);
            }
            Entry::TurnedAway => {}
        }
    }

    /// One takes the place of the older connection of its address, which is dropped.
    fn renew(&mut self, place: usize, guest: Guest<C>)
        requires { Fits (Entry.Renewed place) (number_in guest) self.old }
        ensures { self.new ≡ slice_set self.old place guest }
    {
        self.guests[place] = guest;
    }

    /// One waits behind all others.
    pub(crate) fn add(&mut self, guest: Guest<C>)
        requires { Fits Entry.Added (number_in guest) self.old }
        ensures { self.new ≡ self.old ++ guest ∷ [] }
    {
        self.guests.push_reserved(guest);
    }

    /// Takes out who stands at a place.
    pub(crate) fn take(&mut self, place: usize) -> Guest<C>
        requires { place < length self.old }
        ensures guest { slice_get self.old place ≡ Some result }
        ensures rest { self.new ≡ remove self.old place }
        ensures room { length self.new < 8 }
    {
        self.guests.remove(place)
    }

    /// Takes out who came first, and may wait again.
    pub(crate) fn take_first(&mut self) -> Option<Guest<C>>
        ensures guest { result ≡ slice_get self.old 0 }
        ensures rest { self.new ≡ remove self.old 0 }
        ensures returns { IfSome result (λ guest. HasPlace (number_in guest) self.new) }
    {
        if self.guests.is_empty() {
            return None;
        }
        Some(self.take(0))
    }

    /// All are dropped.
    pub(crate) fn clear(&mut self)
        ensures { self.new ≡ [] }
    {
        self.guests.clear();
    }
}
