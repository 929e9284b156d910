//! The console.

ghost use Rattle.std.specs.Prelude.{◌≡◌, ◌↔◌, ◌≤◌, ◌⊎◌, [], All, length, vec_capacity, IsFalse, IsTrue, IfOk, IsSome};
ghost use Rattle.std.specs.Prelude.{None};
ghost use Rattle.njh_answer.specs.Tickets.{is_late};
ghost use Rattle.njh_console.specs.Acts.{asked_of, orders_after};
ghost use Rattle.njh_console.specs.Consoles.{AreHeard, AreServed, IsActDone, IsRoundServed};
ghost use Rattle.njh_console.specs.Orders.{act_done, lapsed, no_orders, order_due, with_order_given, with_outcome};
ghost use Rattle.njh_console.specs.Orders.{IsOrderDone, NoneIsOpen};
ghost use Rattle.njh_console.specs.Seats.{gone_astray, has_room, is_last_gone, staying, AreReadFrom, HasCome};
ghost use Rattle.njh_console.specs.Seats.{IsAsking};

use crate::act::{Act, Asked};
use crate::desk::Desk;
use crate::keys::KnownKeys;
use crate::order_book::{OrderBook, lapsed};
use crate::queue::{
    answer_first, count_astray, has_room, is_last_gone, make_room, receive_all, send_all,
};
use crate::situation::Situation;
use crate::visitor::{SEATS, Visitor};
use njh_answer::{Deed, Outcome, Ticket, is_late};
use njh_command::Replies;
use njh_hub::HubFault;
use njh_turns::NewOrder;
use std::alloc::Global;
use std::hash::RandomState;
use std::io;
use std::io::{Read, Write};
use std::marker::Model;

/// The visitors, and the orders.
#[derive(Drop)]
pub struct Console<V: Read + Write + Drop> {
    alloc: Global,
    keys: RandomState,
    /// The visitors, the first of whom is looked at next.
    seats: Vec<Visitor<V>>,
    book: OrderBook,
}

impl<V: Read + Write + Drop> Model for Console<V> {
    ghost use Rattle.std.specs.Prelude.{◌≤◌, length, vec_capacity};
    ghost use Rattle.njh_console.specs.Consoles.{ConsoleState};

    ghost Value = { ConsoleState V };

    ghost view = { λ console. record { seats = console.seats.items; orders = console.book } };

    ghost invariant = { λ console. (length console.seats.items ≤ 4) × (4 ≤ vec_capacity console.seats) };
}

impl<V: Read + Write + Drop> Console<V> {
    /// Nobody visits it, and nothing was ordered. Out of memory is the only refusal.
    pub fn new(alloc: Global) -> io::Result<Console<V>>
        ensures seats { IfOk result (λ console. console.seats ≡ []) }
        ensures orders { IfOk result (λ console. console.orders ≡ no_orders) }
    {
        Ok(Console {
            alloc,
            keys: RandomState::new(&KnownKeys)?,
            seats: Vec::with_capacity(alloc, SEATS)?,
            book: OrderBook::new(alloc)?,
        })
    }

    /// Whether one more can be let in: a seat is free, or somebody gives his up.
    pub fn has_room(&self) -> bool
        ensures { result ≡ has_room self.now.seats }
    {
        has_room(&self.seats)
    }

    /// Reads once what a visitor sent, and lets him in, unless he sends nothing more. If no seat is
    /// free, he gets that of the first who doesn't ask, or else of the first who was answered before.
    pub fn admit(&mut self, visitor: V, now: u64)
        requires { IsTrue (has_room self.old.seats) }
        ensures seats { HasCome V.remaining now visitor self.old.seats self.new.seats }
        ensures orders { self.new.orders ≡ self.old.orders }
    {
        let mut visitor = Visitor::new(self.alloc, self.keys, visitor, now);
        visitor.receive();
        if !visitor.wants_read() {
            return;
        }
        make_room(&mut self.seats);
        self.seats.push_reserved(visitor);
    }

    /// Reads once from each visitor.
    pub fn receive(&mut self)
        ensures seats { AreReadFrom V.remaining self.old.seats self.new.seats }
        ensures orders { self.new.orders ≡ self.old.orders }
    {
        receive_all(&mut self.seats);
    }

    /// Whether a request may have come that wasn't answered.
    pub fn has_request(&self) -> bool
        ensures { IsFalse result → All (λ seat. ¬ (IsAsking seat.history)) self.now.seats }
    {
        self.seats.iter().any(|visitor| visitor.is_unseen())
    }

    /// Answers a request at this moment, if one came, and takes what it orders; what is left to the
    /// service. Then there is room for one more.
    pub fn serve(&mut self, now: u64, situation: &Situation<'_>) -> Asked
        requires { NoneIsOpen self.old.orders }
        ensures served { IsRoundServed situation.now now self.old self.new result }
        ensures given { self.new.orders.given ≡ None }
        ensures room { IsTrue (has_room self.new.seats) }
    {
        let deed = self.answer(now, situation);
        self.take(deed)
    }

    /// Takes what was ordered; what is left to the service.
    fn take(&mut self, deed: Deed) -> Asked
        ensures orders { self.new.orders ≡ orders_after deed self.old.orders }
        ensures seats { self.new.seats ≡ self.old.seats }
        ensures asked { result ≡ asked_of deed }
        ensures given { self.new.orders.given ≡ self.old.orders.given }
    {
        match deed {
            Deed::Nothing => Asked::Nothing,
            Deed::Refused(why) => Asked::Refused(why),
            Deed::Order(ticket, work) => self.book.take(ticket, work),
        }
    }

    /// Answers the first visitor whose request can be answered. What is ordered.
    fn answer(&mut self, now: u64, situation: &Situation<'_>) -> Deed
        ensures seats { AreServed situation.now now self.old.orders self.old.seats self.new.seats result }
        ensures orders { self.new.orders ≡ self.old.orders }
    {
        let mut desk = Desk::new(self.alloc, situation, &self.book);
        answer_first(&mut self.seats, &mut desk, now);
        desk.into_taken()
    }

    /// Writes once to each visitor. What was ordered of the hub in this round isn't carried out if who
    /// ordered it has gone.
    pub fn send(&mut self)
        ensures heard { AreHeard self.old self.new }
        ensures given { self.new.orders.given ≡ self.old.orders.given }
    {
        send_all(&mut self.seats);
        if is_last_gone(&self.seats) {
            self.book.give_up();
        }
    }

    /// What the service is to do itself, of what was ordered in this round, if who ordered it hasn't
    /// gone, and it isn't too late in this second. It is remembered as done then, and is to be done.
    pub fn act(&mut self, now: u64, ticket: Ticket, act: Act) -> Option<Act>
        ensures act { result ≡ act_done (is_last_gone self.old.seats) (is_late now ticket.terms) act }
        ensures done { IsActDone now ticket self.old self.new }
        ensures given { self.new.orders.given ≡ self.old.orders.given }
    {
        let is_gone = is_last_gone(&self.seats);
        let is_late = is_late(now, &ticket.terms);
        self.book.act(is_gone, is_late, ticket, act)
    }

    /// What comes of an order for which tables are to be read in this second, if they aren't: who gave
    /// it in this round has gone, or it is too late.
    pub fn lapse(&self, now: u64, ticket: &Ticket) -> Option<Outcome>
        ensures { result ≡ lapsed (is_last_gone self.now.seats) (is_late now ticket.now.terms) }
    {
        lapsed(is_last_gone(&self.seats), is_late(now, &ticket.terms))
    }

    /// Remembers what came of an order for which tables were to be read.
    pub fn note(&mut self, ticket: Ticket, outcome: Outcome)
        ensures orders { self.new.orders ≡ with_outcome ticket outcome self.old.orders }
        ensures seats { self.new.seats ≡ self.old.seats }
    {
        self.book.remember(ticket, outcome);
    }

    /// Lets go those who are done, whose sockets failed, or who are there without a whole request for
    /// two seconds. How many of them had sent what is no request of HTTP.
    pub fn let_go(&mut self, now: u64) -> usize
        ensures seats { self.new.seats ≡ staying now self.old.seats }
        ensures astray { result ≡ length (gone_astray now self.old.seats) }
        ensures orders { self.new.orders ≡ self.old.orders }
    {
        let astray = count_astray(&self.seats, now);
        self.seats.retain(|visitor| !visitor.leaves(now));
        astray
    }

    /// The order that waits, to be given to the hub in this second. It is given once, if it isn't too
    /// late for it.
    pub fn order(&mut self, now: u64) -> Option<NewOrder>
        ensures order { result ≡ order_due now self.old.orders }
        ensures orders { self.new.orders ≡ with_order_given now self.old.orders }
        ensures seats { self.new.seats ≡ self.old.seats }
    {
        self.book.order(now)
    }

    /// Notes what came of the order that was given.
    pub fn order_done(&mut self, answer: Result<(), HubFault>, replies: &Replies)
        ensures done { IsOrderDone answer replies.now self.old.orders self.new.orders }
        ensures given { self.new.orders.given ≡ None }
        ensures waiting { self.new.orders.waiting ≡ self.old.orders.waiting }
        ensures seats { self.new.seats ≡ self.old.seats }
    {
        self.book.order_done(answer, replies);
    }

    /// When it wants to be looked at next: now, if an order or a request waits.
    pub fn moment(&self, now: u64) -> u64
        ensures order { IsSome self.now.orders.waiting → result ≡ now }
        ensures request { ¬ (All (λ seat. ¬ (IsAsking seat.history)) self.now.seats) → result ≡ now }
    {
        if self.book.has_order() || self.has_request() {
            return now;
        }
        let mut first = u64::MAX;
        for visitor in &self.seats {
            first = first.min(visitor.moment(now));
        }
        first
    }
}
