//! Texts in EBCDIC.

ghost use Rattle.std.specs.Prelude.{◌≡◌, length, IfOk};
ghost use Rattle.std.specs.List.{list_all};
ghost use Rattle.std.specs.Str.{chars};
ghost use Rattle.njh_ebcdic.specs.Characters.{bytes_or_blanks};
ghost use Rattle.njh_request.specs.Fields.{has_byte, have_bytes, text_of_characters};

use njh_customer::OrderText;
use njh_ebcdic::{BLANK, byte_of};
use std::alloc::{AllocError, Global};

/// The text of an order, of these characters; none if there are none or too many, or if one has no
/// byte. Out of memory is the only refusal.
pub(crate) fn text_of(alloc: Global, characters: &str) -> Result<Option<OrderText>, AllocError>
    ensures { IfOk result (λ text. text ≡ text_of_characters characters.now) }
{
    if characters.is_empty() || !have_bytes(characters, MOST) {
        return Ok(None);
    }
    let bytes = bytes_of(alloc, characters)?;
    Ok(Some(OrderText::of(alloc, &bytes)?))
}

/// How many bytes a text has at most.
const MOST: usize = 148;

/// Whether each character has a byte, and there are so many at most.
pub(crate) fn have_bytes(characters: &str, most: usize) -> bool
    ensures { result ≡ have_bytes most (chars characters.now) }
{
    count_of(characters) <= most && all_have_bytes(characters)
}

fn count_of(characters: &str) -> usize
    ensures { result ≡ length (chars characters.now) }
{
    characters.chars().count()
}

fn all_have_bytes(characters: &str) -> bool
    ensures { result ≡ list_all has_byte (chars characters.now) }
{
    characters
        .chars()
        .all(|character| byte_of(character).is_some())
}

/// The bytes of characters, and a blank for each that has none. Out of memory is the only refusal.
pub(crate) fn bytes_of(alloc: Global, characters: &str) -> Result<Vec<u8>, AllocError>
    ensures { IfOk result (λ bytes. bytes.items ≡ bytes_or_blanks (chars characters.now)) }
{
    characters
        .chars()
        .map(|character| byte_of(character).unwrap_or(BLANK))
        .collect(alloc)
}
