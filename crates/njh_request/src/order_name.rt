//! Names of orders.

ghost use Rattle.std.specs.Prelude.{◌≡◌};
ghost use Rattle.std.specs.List.{list_all};
ghost use Rattle.njh_request.specs.OrderNames.{begins_with_letter, is_letter, is_name_byte, is_order_name};
ghost use Rattle.njh_request.specs.OrderNames.{order_name_of};

use crate::quote::Quote;
use std::fmt;
use std::marker::Model;

/// How many bytes a name has at most.
const LONGEST: usize = 32;

/// The name under which an order is remembered: 1 to 32 letters, digits, `-`, `.` and `_`, and the
/// first is a letter. So no number is a name.
#[derive(Clone, Copy, Debug, PartialEq, Eq)]
pub struct OrderName {
    text: Quote,
}

impl Model for OrderName {
    ghost use Rattle.std.specs.Prelude.{List, ℕ};

    ghost Value = { List ℕ };

    ghost view = { λ name. name.text };

    ghost inverse = { λ text. record { text = text } };
}

impl OrderName {
    /// The name that a text is.
    pub fn of(text: &str) -> Option<OrderName>
        ensures { result ≡ order_name_of text.now }
    {
        if !is_order_name(text.as_bytes()) {
            return None;
        }
        Some(OrderName {
            text: Quote::of(text),
        })
    }
}

impl fmt::Display for OrderName {
    ghost use Rattle.std.specs.Prelude.{Some};
    ghost use Rattle.njh_request.specs.Quotes.{shown_quote};

    ghost output = { λ name. Some (shown_quote name) };

    fn fmt<W: fmt::Write>(&self, f: &mut fmt::Formatter<W>) -> fmt::Result {
        let text = self.text;
        write!(f, "{text}")
    }
}

fn is_order_name(text: &[u8]) -> bool
    ensures { result ≡ is_order_name text.now }
{
    begins_with_letter(text) && text.len() <= LONGEST && are_name_bytes(text)
}

fn begins_with_letter(text: &[u8]) -> bool
    ensures { result ≡ begins_with_letter text.now }
{
    match text {
        [first, ..] => is_letter(*first),
        [] => false,
    }
}

fn are_name_bytes(text: &[u8]) -> bool
    ensures { result ≡ list_all is_name_byte text.now }
{
    text.iter().all(|byte| is_name_byte(*byte))
}

fn is_name_byte(byte: u8) -> bool
    ensures { result ≡ is_name_byte byte }
{
    is_letter(byte) || matches!(byte, b'0'..=b'9') || matches!(byte, b'-' | b'.' | b'_')
}

fn is_letter(byte: u8) -> bool
    ensures { result ≡ is_letter byte }
{
    matches!(byte, b'A'..=b'Z') || matches!(byte, b'a'..=b'z')
}
