//! The characters of EBCDIC, and their bytes.

ghost use Rattle.std.specs.Prelude.{◌≡◌, IsTrue};
ghost use Rattle.njh_ebcdic.specs.Characters.{byte_of_character, is_plain, printed_character};
ghost use Rattle.njh_ebcdic.specs.CodePage.{is_written};
ghost use Rattle.njh_ebcdic.specs.Names.{ebcdic_byte, upper};

use crate::code_page::{place_of, seen_character};
use crate::fields::BLANK;

/// What is shown of a byte that has no character.
const NONE: char = '?';

/// How far a capital's byte is above that of its lower-case letter.
const CASE: u8 = 0x40;

/// The character of a byte, or `?` if it has none.
pub fn text_of(byte: u8) -> char
    ensures { result ≡ printed_character byte }
{
    let character = char::from(seen_character(byte));
    if is_written(character) {
        character
    } else {
        NONE
    }
}

/// The byte of a character, of those that have one here.
pub fn byte_of(character: char) -> Option<u8>
    ensures { result ≡ byte_of_character character }
{
    match character {
        // Names are made of these, so they are found without a look through the page.
        'A'..='Z' | '0'..='9' => Some(plain_byte(character as u8)),
        _ => paged_byte(character),
    }
}

/// The same, by a look through the code page.
fn paged_byte(character: char) -> Option<u8>
    ensures { result ≡ byte_of_character character }
{
    if !is_written(character) {
        return None;
    }
    let place = place_of(character)?;
    Some(place as u8)
}

/// The byte of a capital letter, a digit, a full stop or a blank of ASCII: a character of the hub's
/// own words.
pub fn plain_byte(character: u8) -> u8
    requires { IsTrue (is_plain character) }
    ensures { result ≡ ebcdic_byte character }
{
    // The letters from A to I follow one another, those from J to R, those from S to Z, and the
    // digits.
    match character {
        b'A'..=b'I' => character - b'A' + 0xc1,
        b'J'..=b'R' => character - b'J' + 0xd1,
        b'S'..=b'Z' => character - b'S' + 0xe2,
        b'0'..=b'9' => character - b'0' + 0xf0,
        b'.' => 0x4b,
        _ => BLANK,
    }
}

/// Whether a character has a byte here.
fn is_written(character: char) -> bool
    ensures { result ≡ is_written character }
{
    matches!(
        character,
        'a'..='z' | 'A'..='Z' | '0'..='9' | '#'..='$' | '('..='*' | ','..='.' | ' ' | '/' | ':' | '@'
    )
}

/// The capital of a lower-case letter, and any other byte as it is.
pub fn fold_upper(byte: u8) -> u8
    ensures { result ≡ upper byte }
{
    match byte {
        0x81..=0x89 | 0x91..=0x99 | 0xa2..=0xa9 => byte + CASE,
        _ => byte,
    }
}
