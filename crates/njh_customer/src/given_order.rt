//! What the bureau's operator orders for a customer.

ghost use Rattle.std.specs.Prelude.{◌≡◌, ◌≤◌, ◌<◌, length, IfOk};
ghost use Rattle.njh_table.specs.TableFile.{customer_at, entry_of};
ghost use Rattle.njh_customer.specs.Orders.{has_way, leads_to_line};

use njh_header::User;
use njh_nmr::LONGEST_MESSAGE;
use njh_table::{Route, Tables};
use std::alloc::{AllocError, Global};
use std::marker::Model;

/// The text of an order, in EBCDIC: at most 148 bytes, as in a nodal message. A caller sees them as
/// a list.
#[derive(Drop)]
pub struct OrderText {
    bytes: Vec<u8>,
}

impl Model for OrderText {
    ghost use Rattle.std.specs.Prelude.{◌≤◌, List, ℕ, length};

    ghost Value = { List ℕ };

    ghost view = { λ text. text.bytes.items };

    ghost invariant = { λ text. length text.bytes.items ≤ 148 };
}

impl OrderText {
    /// A copy of the bytes. Out of memory is the only refusal.
    pub fn of(alloc: Global, bytes: &[u8]) -> Result<OrderText, AllocError>
        requires { length bytes.now ≤ LONGEST_MESSAGE }
        ensures { IfOk result (λ text. text ≡ bytes.now) }
    {
        Ok(OrderText {
            bytes: Vec::from_slice(alloc, bytes)?,
        })
    }

    /// The bytes.
    pub fn bytes(&self) -> &[u8]
        ensures same { result.now ≡ self.now }
        ensures few { length result.now ≤ LONGEST_MESSAGE }
    {
        self.bytes.as_slice()
    }
}

/// An order for a customer.
#[derive(Drop)]
pub enum GivenOrder {
    /// A command in the name of this user, to this user's files alone.
    Command(User, OrderText),
    /// A message from the hub to this user.
    Message(User, OrderText),
}

impl GivenOrder {
    /// Whether there is a way for it: for a message a line that its node goes by. A command needs
    /// none.
    pub fn has_way(&self, customer: u16, tables: &Tables) -> bool
        requires { customer < length tables.now.customers }
        ensures { result ≡ has_way (entry_of (customer_at tables.now customer)) self.now }
    {
        match self {
            GivenOrder::Command(..) => true,
            GivenOrder::Message(whom, _) => leads_to_line(tables.route(customer, whom.node)),
        }
    }
}

/// Whether a route is a line.
fn leads_to_line(route: Route) -> bool
    ensures { result ≡ leads_to_line route }
{
    match route {
        Route::Line(_) => true,
        Route::Here | Route::Unknown => false,
    }
}
