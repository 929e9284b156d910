//! What is remembered of addresses.

ghost use Rattle.std.specs.Prelude.{◌≡◌, ◌<◌, false, length, not, position, IfOk, IfSome};
ghost use Rattle.njh_table.specs.Ranges.{number_of};
ghost use Rattle.njh_anteroom.specs.Addresses.{is_loopback};
ghost use Rattle.njh_anteroom.specs.Remembered.{ended, first_to_go, noted, rank_of, remembered_of, remembered_or_new};
ghost use Rattle.njh_anteroom.specs.Remembered.{refusals_of, until_of, with_room, with_session, without, IsMemory};

use crate::address::is_loopback;
use crate::remembered::{NEW, Remembered};
use njh_table::number_of;
use std::alloc::{AllocError, Global};
use std::marker::Model;
use std::net::IpAddr;

/// How many addresses are remembered at most.
const ROOM: usize = 64;

/// What is remembered of addresses, in the order in which it was noted. Room for all is reserved.
#[derive(Drop)]
pub(crate) struct Memory {
    seen: Vec<Remembered>,
}

impl Model for Memory {
    ghost use Rattle.std.specs.Prelude.{◌≤◌, List};
    ghost use Rattle.std.specs.Vec.{vec_capacity};
    ghost use Rattle.njh_anteroom.specs.declared.remembered.Remembered.{Remembered};
    ghost use Rattle.njh_anteroom.specs.Remembered.{IsMemory};

    ghost Value = { List Remembered };

    ghost view = { λ memory. memory.seen.items };

    ghost invariant = { λ memory. IsMemory memory.seen.items × (64 ≤ vec_capacity memory.seen) };
}

impl Memory {
    ghost use Rattle.std.specs.Prelude.{[]};

    /// Nothing is remembered.
    pub(crate) fn new(alloc: Global) -> Result<Memory, AllocError>
        ensures { IfOk result (λ memory. memory ≡ []) }
    {
        Ok(Memory {
            seen: Vec::with_capacity(alloc, ROOM)?,
        })
    }

    /// What is remembered, what was noted last behind all else.
    pub(crate) fn all(&self) -> &[Remembered]
        ensures all { result.now ≡ self.now }
        ensures memory { IsMemory self.now }
    {
        &self.seen
    }

    /// How many sign-ons from an address were refused, as far as that is remembered.
    pub(crate) fn refusals_of(&self, address: IpAddr) -> u64
        ensures { result ≡ refusals_of address self.now }
    {
        match self.find(number_of(address)) {
            Some(found) => found.refusals,
            None => 0,
        }
    }

    /// What is remembered of the address with this number.
    fn find(&self, number: u128) -> Option<Remembered>
        ensures found { result ≡ remembered_of number self.now }
        ensures no_loopback { IfSome result (λ r. is_loopback (number_of r.address) ≡ false) }
    {
        found(&self.seen, number)
    }

    /// The rank of the address with this number. One of which nothing is remembered is new.
    pub(crate) fn rank(&self, number: u128, now: u64) -> u8
        ensures { result ≡ rank_of now self.now number }
    {
        match self.find(number) {
            Some(remembered) => remembered.rank(now),
            None => NEW,
        }
    }

    /// Until when the pause of the address with this number runs.
    pub(crate) fn until(&self, number: u128) -> u64
        ensures { result ≡ until_of self.now number }
    {
        match self.find(number) {
            Some(remembered) => remembered.until,
            None => 0,
        }
    }

    /// A connection of an address ended without a session. Nothing is remembered of loopback.
    pub(crate) fn end(&mut self, address: IpAddr, was_refused: bool, now: u64)
        ensures { self.new ≡ ended address was_refused now self.old }
    {
        if is_loopback(number_of(address)) {
            return;
        }
        let before = self.find_or_new(address);
        self.note(before.after_end(was_refused, now));
    }

    /// What is remembered of an address, or nothing yet.
    fn find_or_new(&self, address: IpAddr) -> Remembered
        ensures found { result ≡ remembered_or_new address (remembered_of (number_of address) self.now) }
        ensures no_loopback { is_loopback (number_of address) ≡ false
            → is_loopback (number_of result.address) ≡ false }
    {
        match self.find(number_of(address)) {
            Some(remembered) => remembered,
            None => Remembered::new(address),
        }
    }

    /// A session came up on a connection of an address. Nothing is remembered of loopback.
    pub(crate) fn session(&mut self, address: IpAddr)
        ensures { self.new ≡ with_session address self.old }
    {
        if is_loopback(number_of(address)) {
            return;
        }
        let before = self.find_or_new(address);
        self.note(before.after_session());
    }

    /// Notes what is remembered of an address from now on.
    fn note(&mut self, remembered: Remembered)
        requires { is_loopback (number_of remembered.address) ≡ false }
        ensures { self.new ≡ noted remembered self.old }
    {
        self.forget(number_of(remembered.address));
        self.make_room();
        self.seen.push_reserved(remembered);
    }

    /// Lets go what was remembered of the address with this number.
    fn forget(&mut self, number: u128)
        ensures { self.new ≡ without number self.old }
    {
        self.seen.retain(|remembered| !remembered.is_of(number));
    }

    /// Lets go the first to go if there is no room for one more.
    fn make_room(&mut self)
        ensures room { length self.new < 64 }
        ensures rest { self.new ≡ with_room self.old }
    {
        if self.seen.len() >= ROOM {
            let place = first_to_go(&self.seen);
            self.seen.remove(place);
        }
    }
}

/// Where the one stands that was noted longest ago among those without a session; among all if each
/// had one.
fn first_to_go(all: &[Remembered]) -> usize
    ensures place { result ≡ first_to_go all.now }
    ensures within { 0 < length all.now → result < length all.now }
{
    first_without_session(all).unwrap_or(0)
}

/// Where the first stands of which no session is known.
fn first_without_session(all: &[Remembered]) -> Option<usize>
    ensures place { result ≡ position (λ r. not r.had_session) all.now }
    ensures within { IfSome result (λ place. place < length all.now) }
{
    all.iter().position(|remembered| !remembered.had_session)
}

/// What is remembered of the address with this number.
fn found(all: &[Remembered], number: u128) -> Option<Remembered>
    ensures { result ≡ remembered_of number all.now }
{
    for remembered in all {
        if remembered.is_of(number) {
            return Some(*remembered);
        }
    }
    None
}
