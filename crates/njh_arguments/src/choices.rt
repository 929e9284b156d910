//! Which files are chosen, by the texts of options.

ghost use Rattle.std.specs.Prelude.{◌≡◌, ◌<◌, IfSome, option_map};
ghost use Rattle.njh_arguments.specs.Choices.{age_by, age_of_text, choice_by, choice_view, kind_by, kind_of_text};
ghost use Rattle.njh_arguments.specs.Choices.{number_of_digits, owner_by, owner_of_text, state_by, state_of_text};
ghost use Rattle.njh_arguments.specs.Choices.{given_of, longer_number, seconds_of_unit, viewed_owner};

use crate::console_command::{Choice, FileKind, FileState, Owner};
use crate::console_words::CommandOptions;

/// The files that options choose; none where one of their texts is none.
pub(crate) fn choice_by<'a>(given: CommandOptions<'a>) -> Option<Choice<'a>>
    ensures { option_map choice_view result ≡ choice_by (given_of given.entry) }
{
    let owner = owner_by(given.owner)?;
    let state = state_by(given.state)?;
    let kind = kind_by(given.kind)?;
    let age = age_by(given.older)?;
    Some(Choice {
        owner,
        node: given.node,
        state,
        kind,
        age,
    })
}

/// The owner who is named, if one is; none where what is named is no user.
pub(crate) fn owner_by<'a>(text: Option<&'a str>) -> Option<Option<Owner<'a>>>
    ensures { option_map viewed_owner result ≡ owner_by (option_map (λ t. t.now) text.entry) }
{
    match text {
        None => Some(None),
        Some(text) => match owner_of_text(text) {
            Some(owner) => Some(Some(owner)),
            None => None,
        },
    }
}

/// The user that a text with a dot is.
fn owner_of_text<'a>(text: &'a str) -> Option<Owner<'a>>
    ensures { viewed_owner result ≡ owner_of_text text.now }
{
    match text.split_once('.') {
        Some((node, user)) => Some(Owner { node, user }),
        None => None,
    }
}

/// The state that is named, if one is; none where what is named is no state.
fn state_by(text: Option<&str>) -> Option<Option<FileState>>
    ensures { result ≡ state_by (option_map (λ t. t.now) text.entry) }
{
    match text {
        None => Some(None),
        Some(text) => match state_of_text(text) {
            Some(state) => Some(Some(state)),
            None => None,
        },
    }
}

/// The state that a text is.
fn state_of_text(text: &str) -> Option<FileState>
    ensures { result ≡ state_of_text text.now }
{
    if text == "ready" {
        Some(FileState::Ready)
    } else if text == "held" {
        Some(FileState::Held)
    } else if text == "refused" {
        Some(FileState::Refused)
    } else if text == "sending" {
        Some(FileState::Sending)
    } else {
        None
    }
}

/// The kind that is named, if one is; none where what is named is no kind.
fn kind_by(text: Option<&str>) -> Option<Option<FileKind>>
    ensures { result ≡ kind_by (option_map (λ t. t.now) text.entry) }
{
    match text {
        None => Some(None),
        Some(text) => match kind_of_text(text) {
            Some(kind) => Some(Some(kind)),
            None => None,
        },
    }
}

/// The kind that a text is.
fn kind_of_text(text: &str) -> Option<FileKind>
    ensures { result ≡ kind_of_text text.now }
{
    if text == "in" {
        Some(FileKind::In)
    } else if text == "out" {
        Some(FileKind::Out)
    } else {
        None
    }
}

/// The seconds that are named, if they are; none where what is named is no time.
fn age_by(text: Option<&str>) -> Option<Option<u64>>
    ensures { result ≡ age_by (option_map (λ t. t.now) text.entry) }
{
    match text {
        None => Some(None),
        Some(text) => match age_of_text(text.as_bytes()) {
            Some(age) => Some(Some(age)),
            None => None,
        },
    }
}

/// The seconds that a number with a unit is, as 7d.
fn age_of_text(text: &[u8]) -> Option<u64>
    ensures { result ≡ age_of_text text.now }
{
    if text.is_empty() {
        return None;
    }
    let last = text.len() - 1;
    let number = number_of_digits(&text[..last])?;
    let seconds = seconds_of_unit(text[last])?;
    Some(number * seconds)
}

/// How many seconds a unit has.
fn seconds_of_unit(unit: u8) -> Option<u64>
    ensures value { result ≡ seconds_of_unit unit }
    ensures few { IfSome result (λ seconds. seconds < 100000) }
{
    match unit {
        b's' => Some(1),
        b'm' => Some(60),
        b'h' => Some(3_600),
        b'd' => Some(86_400),
        _ => None,
    }
}

/// The number that digits write, if it is below a million.
fn number_of_digits(digits: &[u8]) -> Option<u64>
    ensures value { result ≡ number_of_digits digits.now }
    ensures few { IfSome result (λ number. number < 1000000) }
{
    if digits.is_empty() {
        return None;
    }
    let mut number = 0;
    for digit in digits {
        match longer_number(number, *digit) {
            Some(longer) => number = longer,
            None => return None,
        }
    }
    Some(number)
}

/// A number with one more digit, if it is one and the number stays below a million.
fn longer_number(number: u64, digit: u8) -> Option<u64>
    ensures value { result ≡ longer_number number digit }
    ensures few { IfSome result (λ number. number < 1000000) }
{
    if number < 100_000 && digit.is_ascii_digit() {
        Some(10 * number + u64::from(digit - b'0'))
    } else {
        None
    }
}
