//! The bytes of characters.

ghost use Rattle.std.specs.Prelude.{◌≡◌, ◌≤◌, Ok, Err, length, map, IfOk};
ghost use Rattle.std.specs.Prelude.{MatchResult};
ghost use Rattle.njh_ebcdic.specs.CodePage.{page_byte};
ghost use Rattle.std.specs.List.{list_all};
ghost use Rattle.std.specs.Str.{chars};
ghost use Rattle.njh_encode.specs.Characters.{bytes_of_text, is_there};

use crate::fault::Reason;
use arrayvec::ArrayVec;
use njh_ebcdic::page_byte;
use njh_record::Record;

/// The bytes of a text of at most so many characters.
#[tactic(auto, unfolding(crate::specs::Characters::bytes_of_text))]
pub(crate) fn bytes_of_text(limit: usize, text: &str) -> Result<Record, Reason>
    requires { limit ≤ 256 }
    ensures bytes { MatchResult result (λ bytes. bytes_of_text limit text.now ≡ Ok bytes.items)
        (λ reason. bytes_of_text limit text.now ≡ Err reason) }
    ensures few { IfOk result (λ bytes. length bytes.items ≤ limit) }
{
    if count_characters(text) > limit {
        return Err(Reason::TooLong);
    }
    let bytes = bytes_of(text);
    if !are_there(&bytes) {
        return Err(Reason::NoCharacter);
    }
    Ok(bytes)
}

fn count_characters(text: &str) -> usize
    ensures { result ≡ length (chars text.now) }
{
    text.chars().count()
}

/// Whether none of the bytes is 0.
fn are_there(bytes: &[u8]) -> bool
    ensures { result ≡ list_all is_there bytes.now }
{
    bytes.iter().all(|byte| *byte != 0)
}

/// The byte of each character, or 0.
fn bytes_of(text: &str) -> Record
    requires { length (chars text.now) ≤ 256 }
    ensures { result.items ≡ map page_byte (chars text.now) }
{
    let mut bytes = ArrayVec::new();
    for character in text.chars() {
        bytes.push(page_byte(character));
    }
    bytes
}
