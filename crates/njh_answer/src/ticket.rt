//! An order as it is taken.

ghost use Rattle.std.specs.Prelude.{◌≡◌};
ghost use Rattle.njh_request.specs.Named.{IsOrderOf};
ghost use Rattle.njh_answer.specs.Tickets.{customer_of, is_late, is_past, ticket_of};

use njh_ebcdic::Name;
use njh_request::{Order, Terms};
use njh_table::Tables;

/// An order that was taken, as it was given.
#[derive(Drop)]
pub struct Ticket {
    /// Its number.
    pub number: u64,
    /// The name of the customer for whom it is, if it is for one.
    pub customer: Option<Name>,
    /// On which terms it was given.
    pub terms: Terms,
    /// What was ordered.
    pub order: Order,
}

/// The ticket of an order of this number.
pub(crate) fn ticket_of(number: u64, tables: &Tables, terms: Terms, order: Order) -> Ticket
    requires { IsOrderOf tables.now order }
    ensures { result ≡ ticket_of number tables.now terms order }
{
    let customer = customer_of(tables, &order);
    Ticket {
        number,
        customer,
        terms,
        order,
    }
}

/// The name of the customer for whom something is ordered.
fn customer_of(tables: &Tables, order: &Order) -> Option<Name>
    requires { IsOrderOf tables.now order.now }
    ensures { result ≡ customer_of tables.now order.now }
{
    match order {
        Order::Command(customer, _, _) => Some(tables.customer(*customer).name()),
        Order::Message(customer, _, _) => Some(tables.customer(*customer).name()),
        Order::Line(_, _) | Order::Stop(_) | Order::Reload | Order::Diff(_) => None,
    }
}

/// Whether the last second in which something may be carried out is over.
pub fn is_late(now: u64, terms: &Terms) -> bool
    ensures { result ≡ is_late now terms.now }
{
    is_past(now, terms.until)
}

fn is_past(now: u64, until: Option<u64>) -> bool
    ensures { result ≡ is_past now until }
{
    match until {
        None => false,
        Some(until) => until < now,
    }
}
