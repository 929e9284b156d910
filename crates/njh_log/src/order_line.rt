//! What the log tells of an order.

use crate::file_line::write_user;
use njh_command::Replies;
use njh_ebcdic::text_of;
use njh_header::User;
use njh_hub::{GivenOrder, HubFault};
use njh_request::{OrderName, Terms};
use std::fmt;

/// An order that was given for a customer, and what came of it: in whose name it was given or whom
/// it is for, its words, and its first reply, or why it was refused.
#[derive(Drop)]
pub struct OrderLine<'a> {
    /// The order.
    pub order: &'a GivenOrder,
    /// Why it was refused, if it was.
    pub answer: Result<(), HubFault>,
    /// The replies to it.
    pub replies: &'a Replies,
}

impl fmt::Display for OrderLine<'_> {
    fn fmt<W: fmt::Write>(&self, f: &mut fmt::Formatter<W>) -> fmt::Result {
        match self.order {
            GivenOrder::Command(owner, text) => {
                f.write_str("order in the name of ")?;
                write_words(f, owner, text.bytes())?;
            }
            GivenOrder::Message(whom, text) => {
                f.write_str("message to ")?;
                write_words(f, whom, text.bytes())?;
            }
        }
        match self.answer {
            Ok(()) => write_first(f, self.replies),
            Err(fault) => write!(f, ": refused: {fault}"),
        }
    }
}

/// Writes who gave the order of this number, as the order's own terms say.
pub(crate) fn write_giver<W: fmt::Write>(
    f: &mut fmt::Formatter<W>,
    number: u64,
    terms: &Terms,
) -> fmt::Result {
    write!(f, "order {number}")?;
    write_name(f, &terms.name)?;
    match &terms.by {
        Some(by) => write!(f, " is given by {by}"),
        None => f.write_str(" is given"),
    }
}

/// Writes the name of an order, if it has one.
fn write_name<W: fmt::Write>(f: &mut fmt::Formatter<W>, name: &Option<OrderName>) -> fmt::Result {
    match name {
        Some(name) => write!(f, " ({name})"),
        None => Ok(()),
    }
}

/// Writes a user, and the words of an order or a command.
pub(crate) fn write_words<W: fmt::Write>(
    f: &mut fmt::Formatter<W>,
    user: &User,
    text: &[u8],
) -> fmt::Result {
    write!(f, "{}", user.node)?;
    write_user(f, &user.user)?;
    f.write_str(": ")?;
    write_text(f, text)
}

/// Writes the first reply to an order, if it has one, and how many it has.
fn write_first<W: fmt::Write>(f: &mut fmt::Formatter<W>, replies: &Replies) -> fmt::Result {
    let texts = replies.texts();
    match texts.first() {
        Some(first) => write_reply(f, first, texts.len()),
        None => Ok(()),
    }
}

/// Writes the first of so many replies.
pub(crate) fn write_reply<W: fmt::Write>(
    f: &mut fmt::Formatter<W>,
    first: &[u8],
    replies: usize,
) -> fmt::Result {
    f.write_str(": ")?;
    write_text(f, first)?;
    if replies > 1 {
        write!(f, ", the first of {replies} replies")?;
    }
    Ok(())
}

/// Writes the characters of a text in EBCDIC.
fn write_text<W: fmt::Write>(f: &mut fmt::Formatter<W>, text: &[u8]) -> fmt::Result {
    for byte in text {
        f.write_char(text_of(*byte))?;
    }
    Ok(())
}
