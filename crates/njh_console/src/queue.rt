//! The visitors, one after another.

ghost use Rattle.std.specs.Prelude.{◌≡◌, ◌<◌, ◌≤◌, length, not, position, vec_capacity, IfSome, IsFalse, IsTrue};
ghost use Rattle.njh_console.specs.Seats.{gone_astray, has_room, is_last_gone, may_ask, place_given_up, with_room};
ghost use Rattle.njh_console.specs.Seats.{AreReadFrom, AreSentTo};
ghost use Rattle.njh_console.specs.code.Looking.{AreLookedAt, IsMoved};

use crate::desk::Desk;
use crate::visitor::{SEATS, Visitor};
use std::io::{Read, Write};

/// Whether one more can have a seat: one is free, or somebody gives his up.
pub(crate) fn has_room<V: Read + Write + Drop>(seats: &[Visitor<V>]) -> bool
    ensures { result ≡ has_room seats.now }
{
    seats.len() < SEATS || place_given_up(seats).is_some()
}

/// Has somebody give up his seat, if no other is free.
pub(crate) fn make_room<V: Read + Write + Drop>(seats: &mut Vec<Visitor<V>>)
    requires room { IsTrue (has_room seats.old.items) }
    requires few { length seats.old.items ≤ 4 }
    ensures seats { seats.new.items ≡ with_room seats.old.items }
    ensures free { length seats.new.items < 4 }
    ensures capacity { vec_capacity seats.new ≡ vec_capacity seats.old }
{
    if seats.len() < SEATS {
        return;
    }
    if let Some(place) = place_given_up(seats) {
        let visitor = seats.remove(place);
        drop(visitor);
    }
}

/// Where he sits who gives up his seat for another.
fn place_given_up<V: Read + Write + Drop>(seats: &[Visitor<V>]) -> Option<usize>
    ensures place { result ≡ place_given_up seats.now }
    ensures within { IfSome result (λ place. place < length seats.now) }
{
    first_unasking(seats).or(first_served(seats))
}

/// Where the first sits who doesn't ask.
fn first_unasking<V: Read + Write + Drop>(seats: &[Visitor<V>]) -> Option<usize>
    ensures place { result ≡ position (λ seat. not (may_ask seat)) seats.now }
    ensures within { IfSome result (λ place. place < length seats.now) }
{
    seats.iter().position(|visitor| !visitor.may_ask())
}

/// Where the first sits who was answered before.
fn first_served<V: Read + Write + Drop>(seats: &[Visitor<V>]) -> Option<usize>
    ensures place { result ≡ position (λ seat. seat.served) seats.now }
    ensures within { IfSome result (λ place. place < length seats.now) }
{
    seats.iter().position(|visitor| visitor.was_served())
}

/// Reads once from each visitor.
pub(crate) fn receive_all<V: Read + Write + Drop>(seats: &mut Vec<Visitor<V>>)
    ensures read { AreReadFrom V.remaining seats.old.items seats.new.items }
    ensures capacity { vec_capacity seats.new ≡ vec_capacity seats.old }
{
    for place in 0..seats.len() {
        seats[place].receive();
    }
}

/// Writes once to each visitor.
pub(crate) fn send_all<V: Read + Write + Drop>(seats: &mut Vec<Visitor<V>>)
    ensures sent { AreSentTo seats.old.items seats.new.items }
    ensures capacity { vec_capacity seats.new ≡ vec_capacity seats.old }
{
    for place in 0..seats.len() {
        seats[place].send();
    }
}

/// Looks at the visitors one after another, until one is answered at this moment, who goes behind
/// all the others.
pub(crate) fn answer_first<V: Read + Write + Drop>(
    seats: &mut Vec<Visitor<V>>,
    desk: &mut Desk<'_>,
    now: u64,
)
    requires { IsFalse desk.old.done }
    ensures looked { AreLookedAt now desk.old desk.new seats.old.items seats.new.items }
    ensures many { length seats.new.items ≡ length seats.old.items }
    ensures capacity { vec_capacity seats.new ≡ vec_capacity seats.old }
{
    for place in 0..seats.len() {
        seats[place].answer(desk);
        if desk.is_done() {
            move_to_end(seats, place, now);
            return;
        }
    }
}

/// Who stands at a place was answered at this moment, and goes behind all the others.
fn move_to_end<V: Read + Write + Drop>(seats: &mut Vec<Visitor<V>>, place: usize, now: u64)
    requires { place < length seats.old.items }
    ensures seats { IsMoved place now seats.old.items seats.new.items }
    ensures many { length seats.new.items ≡ length seats.old.items }
    ensures capacity { vec_capacity seats.new ≡ vec_capacity seats.old }
{
    let mut visitor = seats.remove(place);
    visitor.note_answer(now);
    seats.push_reserved(visitor);
}

/// How many of those who leave had sent what is no request of HTTP.
pub(crate) fn count_astray<V: Read + Write + Drop>(seats: &[Visitor<V>], now: u64) -> usize
    ensures { result ≡ length (gone_astray now seats.now) }
{
    let mut count = 0;
    for visitor in seats {
        if visitor.leaves(now) && visitor.is_astray() {
            count += 1;
        }
    }
    count
}

/// Whether the socket of who was answered last failed.
pub(crate) fn is_last_gone<V: Read + Write + Drop>(seats: &[Visitor<V>]) -> bool
    ensures { result ≡ is_last_gone seats.now }
{
    match seats.last() {
        Some(visitor) => visitor.has_failed(),
        None => false,
    }
}
