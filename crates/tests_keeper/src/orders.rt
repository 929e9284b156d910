//! Orders in words, as the bureau's operator gives them.

use crate::networks::customer_of;
use njh_ebcdic::{BLANK, Name, byte_of};
use njh_header::User;
use njh_hub::{GivenOrder, OrderText};
use std::alloc::Global;
use std::test::Fail;

/// The most bytes that the text of an order has.
const LONGEST: usize = 148;

/// An order, and for which customer it is.
#[derive(Drop)]
pub(crate) struct Ordered {
    pub customer: u16,
    pub order: GivenOrder,
}

/// The order on a line as `order ACME LYON.ANNA HOLD LYON.1`, a command in the name of that user, or
/// `tell ACME METZ.PAUL GOOD MORNING`; none on another line.
pub(crate) fn order_on(alloc: Global, line: &str) -> Result<Option<Ordered>, Fail> {
    let (word, rest) = line.split_once(" ").unwrap_or((line, ""));
    if word != "order" && word != "tell" {
        return Ok(None);
    }
    let (name, rest) = rest.split_once(" ").ok_or("an order without a user")?;
    let customer = customer_of(name).ok_or("an order for no customer")?;
    let (whom, text) = rest.split_once(" ").ok_or("an order without a text")?;
    let whom = user_of(whom)?;
    let text = text_of(alloc, text)?;
    let order = match word {
        "order" => GivenOrder::Command(whom, text),
        _ => GivenOrder::Message(whom, text),
    };
    Ok(Some(Ordered { customer, order }))
}

/// The user that is written as NODE.USER.
fn user_of(word: &str) -> Result<User, Fail> {
    let (node, user) = word.split_once(".").ok_or("a user without a node")?;
    Ok(User {
        node: Name::of_text(node)?,
        user: Name::of_text(user)?.bytes(),
    })
}

/// The text of an order in EBCDIC; what has no byte is a blank.
fn text_of(alloc: Global, words: &str) -> Result<OrderText, Fail> {
    let mut bytes = Vec::new(alloc);
    for character in words.chars() {
        bytes.push(byte_of(character).unwrap_or(BLANK))?;
    }
    if bytes.len() > LONGEST {
        return Err("an order of more than 148 characters".into());
    }
    Ok(OrderText::of(alloc, &bytes)?)
}
