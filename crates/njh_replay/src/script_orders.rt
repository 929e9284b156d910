//! The lines of a script that give a customer an order.

ghost use Rattle.std.specs.Prelude.{◌≡◌, ◌≤◌, Ok, Err, length, map, MatchResult, IfOk, IfSome};
ghost use Rattle.std.specs.List.{list_all};
ghost use Rattle.std.specs.Str.{chars};
ghost use Rattle.njh_ebcdic.specs.CodePage.{page_byte};
ghost use Rattle.njh_replay.specs.FirstParts.{parts_behind};
ghost use Rattle.njh_replay.specs.Script.{words_of};
ghost use Rattle.njh_replay.specs.ScriptOrders.{event_of_order, is_there, order_as, order_kind, order_of_words};
ghost use Rattle.njh_replay.specs.ScriptOrders.{order_text, text_of_words, user_by, user_named};
ghost use Rattle.njh_replay.specs.ScriptRoutes.{IsNamedIn};

use crate::script_routes::{customer_named, first_part};
use arrayvec::ArrayVec;
use njh_ebcdic::{Name, page_byte};
use njh_header::User;
use njh_hub::{Event, GivenOrder, OrderText};
use njh_nmr::LONGEST_MESSAGE;
use njh_table::Tables;
use std::alloc::{AllocError, Global};

/// What a line gives a customer.
#[derive(Clone, Copy, Debug, PartialEq, Eq)]
pub enum OrderKind {
    /// A command in the name of a user.
    Command,
    /// A message to a user.
    Message,
}

/// What is wrong with the text of an order.
#[derive(Clone, Copy, Debug, PartialEq, Eq)]
pub enum TextFault {
    /// There is none.
    Empty,
    /// It has more than 148 characters.
    TooLong,
    /// A character has no byte in EBCDIC (IBM code page 37).
    NoCharacter,
}

/// The bytes of an order's text, in EBCDIC.
pub type OrderBytes = ArrayVec<u8, LONGEST_MESSAGE>;

/// What a word gives, if it is `ORDER` or `TELL`.
pub fn order_kind(word: &str) -> Option<OrderKind>
    ensures { result ≡ order_kind word.now }
{
    match word {
        "ORDER" => Some(OrderKind::Command),
        "TELL" => Some(OrderKind::Message),
        _ => None,
    }
}

/// The event of the words after `ORDER` or `TELL`, if they have one: a customer's name, a user and
/// a text. Out of memory is the only refusal.
pub(crate) fn event_of_order(
    alloc: Global,
    tables: &Tables,
    kind: OrderKind,
    words: &str,
) -> Result<Option<Event>, AllocError>
    ensures event { IfOk result (λ event. event ≡ event_of_order tables.now kind (words_of words.now)) }
    ensures named { IfOk result (λ event. IfSome event (IsNamedIn tables.now)) }
{
    let (name, behind) = first_part(words, ' ');
    let Some(customer) = customer_named(tables, name) else {
        return Ok(None);
    };
    match order_of_words(alloc, kind, behind)? {
        Some(order) => Ok(Some(Event::Order(customer, order))),
        None => Ok(None),
    }
}

/// The order of the words after a customer's name, if they are a user and a text.
fn order_of_words(
    alloc: Global,
    kind: OrderKind,
    words: Option<&str>,
) -> Result<Option<GivenOrder>, AllocError>
    ensures { IfOk result (λ order. order ≡ order_of_words kind (parts_behind 32 words.entry)) }
{
    let Some(words) = words else {
        return Ok(None);
    };
    let (user, behind) = first_part(words, ' ');
    let Some(who) = user_named(user) else {
        return Ok(None);
    };
    match order_text(text_behind(behind)) {
        Ok(bytes) => Ok(Some(order_as(kind, who, OrderText::of(alloc, &bytes)?))),
        Err(_) => Ok(None),
    }
}

/// The order of a kind, by its user and its text.
fn order_as(kind: OrderKind, who: User, text: OrderText) -> GivenOrder
    ensures { result ≡ order_as kind who text }
{
    match kind {
        OrderKind::Command => GivenOrder::Command(who, text),
        OrderKind::Message => GivenOrder::Message(who, text),
    }
}

/// What comes after a user, which is nothing if no blank does.
pub fn text_behind(behind: Option<&str>) -> &str
    ensures { result.now ≡ text_of_words (parts_behind 32 behind.entry) }
{
    match behind {
        Some(text) => text,
        None => "",
    }
}

/// The user that a word names: a node, a full stop and the user there.
fn user_named(word: &str) -> Option<User>
    ensures { result ≡ user_named word.now }
{
    let (node, behind) = first_part(word, '.');
    let Some(behind) = behind else {
        return None;
    };
    match first_part(behind, '.') {
        (user, None) => user_by(node, user),
        (_, Some(_)) => None,
    }
}

/// The user of two names, the node's first.
fn user_by(node: &str, user: &str) -> Option<User>
    ensures { result ≡ user_by node.now user.now }
{
    let node = Name::of_text(node).ok()?;
    let user = Name::of_text(user).ok()?;
    Some(User {
        node,
        user: user.bytes(),
    })
}

/// A text in EBCDIC, capitals and small letters as they are, or the first thing that is wrong with
/// it.
pub fn order_text(text: &str) -> Result<OrderBytes, TextFault>
    ensures bytes { MatchResult result (λ bytes. order_text text.now ≡ Ok bytes.items)
        (λ fault. order_text text.now ≡ Err fault) }
    ensures few { IfOk result (λ bytes. length bytes.items ≤ LONGEST_MESSAGE) }
{
    let count = count_characters(text);
    if count == 0 {
        return Err(TextFault::Empty);
    }
    if count > LONGEST_MESSAGE {
        return Err(TextFault::TooLong);
    }
    let bytes = bytes_of(text);
    if !are_there(&bytes) {
        return Err(TextFault::NoCharacter);
    }
    Ok(bytes)
}

fn count_characters(text: &str) -> usize
    ensures { result ≡ length (chars text.now) }
{
    text.chars().count()
}

/// Whether none of the bytes is 0.
fn are_there(bytes: &[u8]) -> bool
    ensures { result ≡ list_all is_there bytes.now }
{
    bytes.iter().all(|byte| *byte != 0)
}

/// The byte of each character, or 0.
fn bytes_of(text: &str) -> OrderBytes
    requires { length (chars text.now) ≤ LONGEST_MESSAGE }
    ensures { result.items ≡ map page_byte (chars text.now) }
{
    let mut bytes = ArrayVec::new();
    for character in text.chars() {
        bytes.push(page_byte(character));
    }
    bytes
}
