//! What the check of a script says.

ghost use Rattle.std.specs.Prelude.{◌≡◌, ◌++◌, ◌∷◌, [], length, option_map, IfOk, OnOk};
ghost use Rattle.std.specs.Fmt.{decimal};
ghost use Rattle.njh_check.specs.ScriptChecks.{bad_words, label, right_words, shown_byte, shown_word};
ghost use Rattle.njh_check.specs.ScriptChecks.{text_fault_words, told_words, why_words};
ghost use Rattle.njh_check.specs.ScriptReasons.{told};

use crate::line::fault_name;
use crate::script_reason::{BadLine, ScriptReason};
use njh_replay::TextFault;
use std::alloc::{AllocError, Global};

/// What is said of a script without a bad line, by the number of its events.
#[tactic(auto, unfolding(crate::specs::ScriptChecks::right_words))]
pub(crate) fn right_words(alloc: Global, events: usize) -> Result<Vec<u8>, AllocError>
    ensures { IfOk result (λ words. words.items ≡ right_words events) }
{
    let mut words = Vec::new(alloc);
    put_words(&mut words, "script: ")?;
    put_number(&mut words, events)?;
    if events == 1 {
        put_words(&mut words, " event, no bad line\n")?;
    } else {
        put_words(&mut words, " events, no bad line\n")?;
    }
    Ok(words)
}

/// What is said of a bad line, by its number, counted from 1.
#[tactic(auto, unfolding(crate::specs::ScriptChecks::bad_words))]
pub(crate) fn bad_words(
    alloc: Global,
    number: u32,
    reason: Option<BadLine<'_>>,
) -> Result<Vec<u8>, AllocError>
    ensures { IfOk result (λ words. words.items ≡ bad_words number (option_map told reason.entry)) }
{
    let mut words = Vec::new(alloc);
    put_words(&mut words, "line ")?;
    put_number(&mut words, number as usize)?;
    put_words(&mut words, ": ")?;
    put_reason(&mut words, reason)?;
    put(&mut words, b"\n")?;
    Ok(words)
}

/// Appends why a line is bad, with the word that is.
fn put_reason(words: &mut Vec<u8>, reason: Option<BadLine<'_>>) -> Result<(), AllocError>
    ensures { OnOk result (words.new.items ≡ words.old.items ++ told_words (option_map told reason.entry)) }
{
    match reason {
        None => Ok(()),
        Some(bad) => {
            put_why(words, bad.why)?;
            put_shown(words, bad.word.as_bytes())
        }
    }
}

/// Appends why a line is bad, but for the word that is.
fn put_why(words: &mut Vec<u8>, why: ScriptReason) -> Result<(), AllocError>
    ensures { OnOk result (words.new.items ≡ words.old.items ++ why_words why) }
{
    match why {
        ScriptReason::NotText => put_words(words, "not UTF-8"),
        ScriptReason::NoEvent => put_words(words, "no event "),
        ScriptReason::NoName => put_words(words, "no line is named"),
        ScriptReason::NoLine => put_words(words, "no line "),
        ScriptReason::MoreWords => put_words(words, "more words than the event has"),
        ScriptReason::NoBytes => put_words(words, "no bytes"),
        ScriptReason::OddDigits => put_words(words, "an odd number of hex digits"),
        ScriptReason::BadDigit { index } => {
            put_words(words, "no hex digit behind the first ")?;
            put_number(words, index)
        }
        ScriptReason::NoCustomerName => put_words(words, "no customer is named"),
        ScriptReason::NoCustomer => put_words(words, "no customer "),
        ScriptReason::NoColon => put_words(words, "no colon in "),
        ScriptReason::BadNode => put_words(words, "no node's name is "),
        ScriptReason::MoreLines => put_words(words, "more than two lines in "),
        ScriptReason::NoUserName => put_words(words, "no user is named"),
        ScriptReason::NoUser => put_words(words, "no node and user in "),
        ScriptReason::BadUser => put_words(words, "no user's name is "),
        ScriptReason::Text { fault } => put_text_fault(words, fault),
        ScriptReason::Routes { fault } => {
            put_words(words, "routes: ")?;
            put_words(words, fault_name(fault))
        }
    }
}

/// Appends what is wrong with the text of an order.
fn put_text_fault(words: &mut Vec<u8>, fault: TextFault) -> Result<(), AllocError>
    ensures { OnOk result (words.new.items ≡ words.old.items ++ text_fault_words fault) }
{
    match fault {
        TextFault::Empty => put_words(words, "no text"),
        TextFault::TooLong => put_words(words, "more than 148 characters"),
        TextFault::NoCharacter => put_words(words, "a character that EBCDIC lacks"),
    }
}

/// Appends a word, with `?` for each byte that would move a terminal.
fn put_shown(words: &mut Vec<u8>, word: &[u8]) -> Result<(), AllocError>
    ensures { OnOk result (words.new.items ≡ words.old.items ++ shown_word word.now) }
{
    for byte in word {
        words.push(shown_byte(*byte))?;
    }
    Ok(())
}

fn shown_byte(byte: u8) -> u8
    ensures { result ≡ shown_byte byte }
{
    if byte < 32 { b'?' } else { byte }
}

/// Appends a number in decimal digits.
fn put_number(words: &mut Vec<u8>, number: usize) -> Result<(), AllocError>
    ensures { OnOk result (words.new.items ≡ words.old.items ++ decimal number) }
{
    let digits = number.to_string(*words.allocator())?;
    put(words, digits.as_bytes())
}

/// Appends words.
#[tactic(auto, unfolding(crate::specs::ScriptChecks::label))]
fn put_words(words: &mut Vec<u8>, more: &str) -> Result<(), AllocError>
    ensures { OnOk result (words.new.items ≡ words.old.items ++ label more.now) }
{
    put(words, more.as_bytes())
}

/// Appends bytes.
fn put(words: &mut Vec<u8>, more: &[u8]) -> Result<(), AllocError>
    ensures { OnOk result (words.new.items ≡ words.old.items ++ more.now) }
{
    words.extend_from_slice(more)
}
