//! Values of a table file in words.

ghost use Rattle.std.specs.Prelude.{◌≡◌, ◌+◌, IfOk, option_map, string_bytes};
ghost use Rattle.std.specs.List.{list_all};
ghost use Rattle.toml.specs.View.{view};
ghost use Rattle.njh_ebcdic.specs.Names.{within};
ghost use Rattle.njh_check.specs.Words.{found_words, is_shown, kind_words, label_words, number_or_kind_words, numbered};
ghost use Rattle.njh_check.specs.Words.{text_words, value_words};

use std::alloc::{AllocError, Global};
use toml::Value;

/// How many bytes a text has at most that is shown.
const LONGEST: usize = 64;

/// Whether a text is shown as it is.
#[tactic(auto, unfolding(crate::specs::Words::is_shown))]
pub(crate) fn is_shown(text: &str) -> bool
    ensures { result ≡ is_shown text.now }
{
    text.len() <= LONGEST && are_seen(text.as_bytes())
}

fn are_seen(text: &[u8]) -> bool
    ensures { result ≡ list_all (within 32 126) text.now }
{
    text.iter().all(|c| is_seen(*c))
}

fn is_seen(c: u8) -> bool
    ensures { result ≡ within 32 126 c }
{
    (32..=126).contains(&c)
}

#[tactic(auto, unfolding(crate::specs::Words::text_words))]
fn text_words(alloc: Global, text: &str) -> Result<String, AllocError>
    ensures { IfOk result (λ words. string_bytes words ≡ text_words text.now) }
{
    if is_shown(text) {
        format!(in alloc; "\"{text}\"")
    } else {
        String::from_str(
            alloc,
            "a text that is long or has other characters than ASCII's",
        )
    }
}

#[tactic(auto, unfolding(crate::specs::Words::kind_words))]
fn kind_words(value: &Value) -> &'static str
    ensures { result.now ≡ kind_words (view value.now) }
{
    if value.as_array().is_some() {
        "a list"
    } else if value.as_table().is_some() {
        "a table"
    } else {
        "a value of another type"
    }
}

#[tactic(auto, unfolding(crate::specs::Words::number_or_kind_words))]
fn number_or_kind_words(alloc: Global, value: &Value) -> Result<String, AllocError>
    ensures { IfOk result (λ words. string_bytes words ≡ number_or_kind_words (view value.now)) }
{
    match value.as_integer() {
        Some(number) => format!(in alloc; "{number}"),
        None => String::from_str(alloc, kind_words(value)),
    }
}

#[tactic(auto, unfolding(crate::specs::Words::value_words))]
fn value_words(alloc: Global, value: &Value) -> Result<String, AllocError>
    ensures { IfOk result (λ words. string_bytes words ≡ value_words (view value.now)) }
{
    match value.as_str() {
        Some(text) => text_words(alloc, text),
        None => number_or_kind_words(alloc, value),
    }
}

/// A value in words, if there is one.
#[tactic(auto, unfolding(crate::specs::Words::found_words))]
pub(crate) fn found_words(alloc: Global, value: Option<&Value>) -> Result<String, AllocError>
    ensures { IfOk result (λ words. string_bytes words ≡ found_words (option_map (λ v. view v.now) value.entry)) }
{
    match value {
        Some(value) => value_words(alloc, value),
        None => String::from_str(alloc, "nothing"),
    }
}

/// A name in brackets, if there is one that is shown.
#[tactic(auto, unfolding(crate::specs::Words::label_words))]
fn label_words(alloc: Global, name: Option<&str>) -> Result<String, AllocError>
    ensures { IfOk result (λ words. string_bytes words ≡ label_words (option_map (λ n. n.now) name.entry)) }
{
    match name {
        Some(name) if is_shown(name) => format!(in alloc; " ({name})"),
        _ => Ok(String::new(alloc)),
    }
}

/// A number from 0 on as people count, from 1 on.
fn from_one(number: usize) -> u128
    ensures { result ≡ number + 1 }
{
    number as u128 + 1
}

/// A word with a number and a name.
#[tactic(auto, unfolding(crate::specs::Words::numbered))]
pub(crate) fn numbered(
    alloc: Global,
    word: &str,
    number: usize,
    name: Option<&str>,
) -> Result<String, AllocError>
    ensures { IfOk result (λ words. string_bytes words
        ≡ numbered word.now number (option_map (λ n. n.now) name.entry)) }
{
    let label = label_words(alloc, name)?;
    let number = from_one(number);
    format!(in alloc; "{word} {number}{label}")
}
