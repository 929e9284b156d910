//! By what an order is asked for.

ghost use Rattle.std.specs.Prelude.{◌≡◌, None};
ghost use Rattle.njh_request.specs.Paths.{key_by, key_of};

use crate::numbers::number_in;
use crate::order_name::OrderName;
use std::fmt;

/// The number or the name of an order.
#[derive(Clone, Copy, Debug, PartialEq, Eq)]
pub enum OrderKey {
    /// The number, which the hub gave it.
    Number(u64),
    /// The name, which who ordered it gave it.
    Name(OrderName),
}

impl OrderKey {
    /// The number or the name that a text is.
    pub(crate) fn of(text: &str) -> Option<OrderKey>
        ensures { result ≡ key_of text.now }
    {
        match number_in(text.as_bytes()) {
            Some(number) => Some(OrderKey::Number(number)),
            None => named(OrderName::of(text)),
        }
    }
}

fn named(name: Option<OrderName>) -> Option<OrderKey>
    ensures { result ≡ key_by None name }
{
    match name {
        Some(name) => Some(OrderKey::Name(name)),
        None => None,
    }
}

impl fmt::Display for OrderKey {
    ghost use Rattle.std.specs.Prelude.{Some};
    ghost use Rattle.njh_request.specs.Refusals.{key_text};

    ghost output = { λ key. Some (key_text key) };

    fn fmt<W: fmt::Write>(&self, f: &mut fmt::Formatter<W>) -> fmt::Result {
        match self {
            OrderKey::Number(number) => write!(f, "{number}"),
            OrderKey::Name(name) => write!(f, "{name}"),
        }
    }
}
