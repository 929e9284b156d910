//! The orders that were taken.

ghost use Rattle.std.specs.Prelude.{◌≡◌, ◌↔◌, map, IfOk, IsTrue, IsSome, None};
ghost use Rattle.njh_console.specs.Acts.{asked_for};
ghost use Rattle.njh_console.specs.Orders.{act_done, given_up, lapsed, no_orders, order_due, waiting_for, with_order};
ghost use Rattle.njh_console.specs.Orders.{with_order_given, with_outcome, IsActed, IsActOutcome, IsOrderDone};
ghost use Rattle.njh_console.specs.Orders.{IsOutcomeOf};

use crate::act::{Act, Asked};
use circular_buffer::HeapCircularBuffer;
use njh_answer::{OrderRecord, Outcome, Ticket, Work, is_late};
use njh_command::Replies;
use njh_customer::OrderText;
use njh_hub::HubFault;
use njh_texts::MessageText;
use njh_turns::NewOrder;
use std::alloc::{AllocError, Global};
use std::marker::Model;

/// How many orders are remembered.
pub const REMEMBERED: usize = 64;

/// An order that the hub is to be given.
#[derive(Drop)]
pub struct WaitingOrder {
    /// As it was taken.
    pub ticket: Ticket,
    /// What the hub is given.
    pub order: NewOrder,
}

/// The last orders, the one that waits, and the one that was given in this round.
#[derive(Drop)]
pub(crate) struct OrderBook {
    alloc: Global,
    records: HeapCircularBuffer<OrderRecord>,
    next: u64,
    waiting: Option<WaitingOrder>,
    given: Option<Ticket>,
}

impl Model for OrderBook {
    ghost use Rattle.std.specs.Prelude.{◌≡◌};
    ghost use Rattle.njh_console.specs.Orders.{TakenOrders};

    ghost Value = { TakenOrders };

    ghost view = { λ book. record {
      records = book.records.items;
      next = book.next;
      waiting = book.waiting;
      given = book.given;
    } };

    ghost invariant = { λ book. book.records.capacity ≡ 64 };
}

impl OrderBook {
    /// No orders yet; the first has the number 1. Out of memory is the only refusal.
    pub(crate) fn new(alloc: Global) -> Result<OrderBook, AllocError>
        ensures { IfOk result (λ book. book ≡ no_orders) }
    {
        Ok(OrderBook {
            alloc,
            records: HeapCircularBuffer::with_capacity(alloc, REMEMBERED)?,
            next: 1,
            waiting: None,
            given: None,
        })
    }

    /// The orders that are remembered.
    pub(crate) fn records(&self) -> &HeapCircularBuffer<OrderRecord>
        ensures { result.now.items ≡ self.now.records }
    {
        &self.records
    }

    /// The number of the next order.
    pub(crate) fn next(&self) -> u64
        ensures { result ≡ self.now.next }
    {
        self.next
    }

    /// Whether an order was taken that wasn't carried out.
    pub(crate) fn has_order(&self) -> bool
        ensures { IsTrue result ↔ IsSome self.now.waiting }
    {
        self.waiting.is_some()
    }

    /// Takes an order under the next number. What is left to the service of it is the answer.
    pub(crate) fn take(&mut self, ticket: Ticket, work: Work) -> Asked
        ensures orders { self.new ≡ with_order ticket work self.old }
        ensures asked { result ≡ asked_for ticket work }
    {
        self.next = self.next.saturating_add(1);
        match work {
            Work::Customer(customer, order) => {
                let order = NewOrder { customer, order };
                let given = Asked::Given(ticket.number, ticket.terms);
                self.waiting = Some(WaitingOrder { ticket, order });
                given
            }
            Work::Line(line, wish) => Asked::Act(ticket, Act::Line(line, wish)),
            Work::Stop(moment) => Asked::Act(ticket, Act::Stop(moment)),
            Work::Tables => Asked::Tables(ticket),
        }
    }

    /// Remembers what came of an order; the oldest is forgotten where there are too many.
    pub(crate) fn remember(&mut self, ticket: Ticket, outcome: Outcome)
        ensures { self.new ≡ with_outcome ticket outcome self.old }
    {
        let _oldest = self.records.push_back(OrderRecord { ticket, outcome });
    }

    /// The order that waits isn't carried out, since who gave it has gone.
    pub(crate) fn give_up(&mut self)
        ensures { self.new ≡ given_up self.old }
    {
        if let Some(waiting) = self.waiting.take() {
            self.remember(waiting.ticket, Outcome::GiverGone);
        }
    }

    /// The order that waits, once, in this second; none if it is too late for it.
    pub(crate) fn order(&mut self, now: u64) -> Option<NewOrder>
        ensures order { result ≡ order_due now self.old }
        ensures given { self.new ≡ with_order_given now self.old }
    {
        self.given = None;
        let WaitingOrder { ticket, order } = self.waiting.take()?;
        if is_late(now, &ticket.terms) {
            self.remember(ticket, Outcome::TooLate);
            return None;
        }
        self.given = Some(ticket);
        Some(order)
    }

    /// Notes what came of the order that was given.
    pub(crate) fn order_done(&mut self, answer: Result<(), HubFault>, replies: &Replies)
        ensures done { IsOrderDone answer replies.now self.old self.new }
        ensures given { self.new.given ≡ None }
        ensures waiting { self.new.waiting ≡ self.old.waiting }
    {
        if let Some(ticket) = self.given.take() {
            let outcome = outcome_of(self.alloc, answer, replies);
            self.remember(ticket, outcome);
        }
    }

    /// What the service is to do itself, if who ordered it hasn't gone and it isn't too late: it is
    /// remembered as done then.
    pub(crate) fn act(
        &mut self,
        is_gone: bool,
        is_late: bool,
        ticket: Ticket,
        act: Act,
    ) -> Option<Act>
        ensures act { result ≡ act_done is_gone is_late act }
        ensures acted { IsActed is_gone is_late ticket self.old self.new }
    {
        let outcome = act_outcome(self.alloc, is_gone, is_late);
        self.remember(ticket, outcome);
        if is_gone || is_late { None } else { Some(act) }
    }
}

/// What comes of an order for which the service was to read tables, if they aren't read: who gave it
/// has gone, or it is too late.
pub(crate) fn lapsed(is_gone: bool, is_late: bool) -> Option<Outcome>
    ensures { result ≡ lapsed is_gone is_late }
{
    match (is_gone, is_late) {
        (true, _) => Some(Outcome::GiverGone),
        (false, true) => Some(Outcome::TooLate),
        (false, false) => None,
    }
}

/// What comes of what the service does itself.
fn act_outcome(alloc: Global, is_gone: bool, is_late: bool) -> Outcome
    ensures { IsActOutcome is_gone is_late result }
{
    match (is_gone, is_late) {
        (true, _) => Outcome::GiverGone,
        (false, true) => Outcome::TooLate,
        (false, false) => Outcome::Done(Vec::new(alloc)),
    }
}

/// What came of an order that was answered so.
fn outcome_of(alloc: Global, answer: Result<(), HubFault>, replies: &Replies) -> Outcome
    ensures { IsOutcomeOf answer replies.now result }
{
    match answer {
        Ok(()) => match texts_of(alloc, replies.texts()) {
            Ok(texts) => Outcome::Done(texts),
            Err(_) => Outcome::NotKept,
        },
        Err(HubFault::QueueFull) => Outcome::QueueFull,
        Err(_) => Outcome::NoWay,
    }
}

/// Copies of texts. Out of memory is the only refusal.
fn texts_of(alloc: Global, texts: &[MessageText]) -> Result<Vec<OrderText>, AllocError>
    ensures { IfOk result (λ copies. copies.items ≡ map (λ t. t.items) texts.now) }
{
    let mut copies = Vec::new(alloc);
    for text in texts {
        copies.push(OrderText::of(alloc, text.as_slice())?)?;
    }
    Ok(copies)
}
