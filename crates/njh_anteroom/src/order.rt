//! Looking for one of those who wait.

ghost use Rattle.std.specs.Prelude.{◌≡◌, ◌<◌, length, position, IfSome};
ghost use Rattle.njh_anteroom.specs.Next.{first_moment, greatest_rank, has_paused, has_rank, last_place, next_place};
ghost use Rattle.njh_anteroom.specs.Waiting.{is_from};

use crate::guest::Guest;
use crate::memory::Memory;
use crate::remembered::{KNOWN, NEW};

/// Where the first stands who came from the address with this number.
pub(crate) fn place_from<C: Drop>(guests: &[Guest<C>], number: u128) -> Option<usize>
    ensures { result ≡ position (is_from number) guests.now }
{
    guests.iter().position(|guest| guest.number() == number)
}

/// Where who is next stands: the first who is known; if there is none, the first who is new; if
/// there is none either, the first whose pause is over.
pub(crate) fn next_place<C: Drop>(guests: &[Guest<C>], memory: &Memory, now: u64) -> Option<usize>
    ensures place { result ≡ next_place now memory.now guests.now }
    ensures within { IfSome result (λ place. place < length guests.now) }
{
    first_of_rank(guests, memory, now, KNOWN)
        .or(first_of_rank(guests, memory, now, NEW))
        .or(first_paused(guests, memory, now))
}

/// Where the first of a rank stands.
fn first_of_rank<C: Drop>(guests: &[Guest<C>], memory: &Memory, now: u64, rank: u8) -> Option<usize>
    ensures place { result ≡ position (has_rank rank now memory.now) guests.now }
    ensures within { IfSome result (λ place. place < length guests.now) }
{
    guests
        .iter()
        .position(|guest| memory.rank(guest.number(), now) == rank)
}

/// Where the first stands whose pause is over.
fn first_paused<C: Drop>(guests: &[Guest<C>], memory: &Memory, now: u64) -> Option<usize>
    ensures place { result ≡ position (has_paused now memory.now) guests.now }
    ensures within { IfSome result (λ place. place < length guests.now) }
{
    guests
        .iter()
        .position(|guest| memory.until(guest.number()) <= now)
}

/// The greatest rank; 0 if nobody waits.
pub(crate) fn greatest_rank<C: Drop>(guests: &[Guest<C>], memory: &Memory, now: u64) -> u8
    ensures { result ≡ greatest_rank now memory.now guests.now }
{
    let mut greatest = 0;
    for guest in guests {
        greatest = greatest.max(memory.rank(guest.number(), now));
    }
    greatest
}

/// Where the last of a rank stands.
pub(crate) fn last_of_rank<C: Drop>(
    guests: &[Guest<C>],
    memory: &Memory,
    now: u64,
    rank: u8,
) -> Option<usize>
    ensures last { result ≡ last_place (has_rank rank now memory.now) guests.now }
    ensures within { IfSome result (λ place. place < length guests.now) }
{
    let mut last = None;
    for place in 0..guests.len() {
        if memory.rank(guests[place].number(), now) == rank {
            last = Some(place);
        }
    }
    last
}

/// The least end of a pause.
pub(crate) fn first_moment<C: Drop>(guests: &[Guest<C>], memory: &Memory) -> u64
    ensures { result ≡ first_moment memory.now guests.now }
{
    let mut least = u64::MAX;
    for guest in guests {
        least = least.min(memory.until(guest.number()));
    }
    least
}
