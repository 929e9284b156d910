//! Why a line of a script has no event.

ghost use Rattle.std.specs.Prelude.{◌≡◌, ℕ, List, [], Some, None, option_map, if◌then◌else◌, IfOk, IsSome};
ghost use Rattle.njh_table.specs.TableFile.{TableFile};
ghost use Rattle.hex.specs.Hex.{decode_of};
ghost use Rattle.njh_check.specs.ScriptReasons.{is_event, reason_behind, reason_of, reason_of_bytes};
ghost use Rattle.njh_check.specs.ScriptReasons.{reason_of_other, reason_of_words, reason_on_line, told};
ghost use Rattle.njh_replay.specs.Script.{script_event, words_of};
ghost use Rattle.njh_check.specs.declared.script_reason.ScriptReason.TheVariants.{MoreWords};
ghost use Rattle.njh_replay.specs.FirstParts.{parts_behind};

use crate::order_reasons::reason_of_order;
use crate::route_reasons::reason_of_routes;
use crate::script_reason::{BadLine, ScriptReason};
use hex::FromHexError;
use njh_replay::{first_part, order_kind};
use njh_table::Tables;
use std::alloc::{AllocError, Global};

/// What is wrong with a line that isn't skipped, if anything is. Out of memory is the only refusal.
#[tactic(auto, unfolding(crate::specs::ScriptReasons::reason_of))]
pub(crate) fn reason_of<'a>(
    alloc: Global,
    tables: &Tables,
    line: &'a [u8],
) -> Result<Option<BadLine<'a>>, AllocError>
    ensures { IfOk result (λ bad. option_map told bad ≡ reason_of tables.now line.now) }
{
    match str::from_utf8(line) {
        Ok(line) => reason_of_text(alloc, tables, line),
        Err(_) => Ok(Some(alone(ScriptReason::NotText))),
    }
}

/// The same of a line that is text.
fn reason_of_text<'a>(
    alloc: Global,
    tables: &Tables,
    line: &'a str,
) -> Result<Option<BadLine<'a>>, AllocError>
    ensures { IfOk result (λ bad. option_map told bad ≡ reason_of_words tables.now (words_of line.now)) }
{
    let (word, behind) = first_part(line, ' ');
    if word == "ROUTES" {
        return reason_of_routes(alloc, tables, behind);
    }
    match order_kind(word) {
        Some(_) => Ok(reason_of_order(tables, behind)),
        None => reason_of_other(alloc, tables, word, behind),
    }
}

/// The same of a line that gives no routes and no order.
fn reason_of_other<'a>(
    alloc: Global,
    tables: &Tables,
    word: &'a str,
    behind: Option<&'a str>,
) -> Result<Option<BadLine<'a>>, AllocError>
    ensures { IfOk result (λ bad. option_map told bad
        ≡ reason_of_other tables.now word.now (parts_behind 32 behind.entry)) }
{
    if !is_event(word) {
        return Ok(Some(BadLine {
            why: ScriptReason::NoEvent,
            word,
        }));
    }
    reason_on_line(alloc, tables, word, behind)
}

/// Whether a word is that of an event on a line.
fn is_event(word: &str) -> bool
    ensures { result ≡ is_event word.now }
{
    word == "TICK" || word == "GARBLED" || word == "LOST" || word == "BYTES"
}

/// What is wrong with what comes after an event's word.
fn reason_on_line<'a>(
    alloc: Global,
    tables: &Tables,
    word: &str,
    behind: Option<&'a str>,
) -> Result<Option<BadLine<'a>>, AllocError>
    ensures { IfOk result (λ bad. option_map told bad
        ≡ reason_on_line tables.now word.now (parts_behind 32 behind.entry)) }
{
    let Some(rest) = behind else {
        return Ok(Some(alone(ScriptReason::NoName)));
    };
    let (name, behind_name) = first_part(rest, ' ');
    match tables.line_owner(name) {
        Some(_) => reason_behind(alloc, word, behind_name),
        None => Ok(Some(BadLine {
            why: ScriptReason::NoLine,
            word: name,
        })),
    }
}

/// What is wrong with what comes after a line's name.
fn reason_behind<'a>(
    alloc: Global,
    word: &str,
    behind: Option<&'a str>,
) -> Result<Option<BadLine<'a>>, AllocError>
    ensures { IfOk result (λ bad. option_map told bad ≡ reason_behind word.now (parts_behind 32 behind.entry)) }
{
    let takes_bytes = word == "BYTES";
    let Some(rest) = behind else {
        return Ok(reason_where(takes_bytes, ScriptReason::NoBytes));
    };
    match first_part(rest, ' ') {
        (digits, None) => reason_of_last(alloc, takes_bytes, digits),
        (_, Some(_)) => Ok(Some(alone(ScriptReason::MoreWords))),
    }
}

/// What is wrong with the one word after a line's name, by whether the event takes bytes.
fn reason_of_last<'a>(
    alloc: Global,
    takes_bytes: bool,
    digits: &str,
) -> Result<Option<BadLine<'a>>, AllocError>
    ensures { IfOk result (λ bad. option_map told bad
        ≡ (if takes_bytes then reason_of_bytes (decode_of digits.now) else Some (MoreWords, []))) }
{
    match takes_bytes {
        true => reason_of_digits(alloc, digits),
        false => Ok(Some(alone(ScriptReason::MoreWords))),
    }
}

/// What is wrong with hex digits.
fn reason_of_digits<'a>(alloc: Global, digits: &str) -> Result<Option<BadLine<'a>>, AllocError>
    ensures { IfOk result (λ bad. option_map told bad ≡ reason_of_bytes (decode_of digits.now)) }
{
    match hex::decode(alloc, digits.as_bytes()) {
        Ok(bytes) => Ok(reason_where(bytes.is_empty(), ScriptReason::NoBytes)),
        Err(FromHexError::OutOfMemory) => Err(AllocError),
        Err(FromHexError::InvalidHexCharacter { index, .. }) => {
            Ok(Some(alone(ScriptReason::BadDigit { index })))
        }
        Err(FromHexError::OddLength) => Ok(Some(alone(ScriptReason::OddDigits))),
        Err(FromHexError::InvalidStringLength) => Ok(Some(alone(ScriptReason::OddDigits))),
    }
}

/// A reason if something is so.
fn reason_where<'a>(is_so: bool, why: ScriptReason) -> Option<BadLine<'a>>
    ensures { option_map told result ≡ (if is_so then Some (why, []) else None) }
{
    match is_so {
        true => Some(alone(why)),
        false => None,
    }
}

/// A reason that is about no word alone.
pub(crate) fn alone<'a>(why: ScriptReason) -> BadLine<'a>
    ensures { told result ≡ (why, []) }
{
    BadLine { why, word: "" }
}

/// A line that isn't skipped and has no event has a reason.
#[tactic(auto, unfolding(crate::specs::Script::script_event, crate::specs::ScriptReasons::reason_of))]
pub fn bad_lines_have_reasons()
    ensures { (tables : TableFile) (line : List ℕ) → script_event tables line ≡ None → IsSome (reason_of tables line) }
{}
