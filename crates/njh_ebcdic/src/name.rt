//! Names of nodes and users.

ghost use Rattle.std.specs.Prelude.{◌≡◌, length};
ghost use Rattle.std.specs.Str.{chars};

use crate::characters::{byte_of, text_of};
use crate::fields::{BLANK, FIELD, are_name_bytes, pad, trim_blanks};
use std::fmt;
use std::marker::Model;
use thiserror::Error;

/// Why a text or a field is no name.
#[derive(Clone, Copy, Debug, PartialEq, Eq, Error)]
pub enum NameFault {
    /// There are no characters, or blanks alone.
    #[error("E1 Empty")]
    Empty,
    /// There are more than eight characters.
    #[error("E2 TooLong")]
    TooLong,
    /// A character is none of a name.
    #[error("E3 BadCharacter")]
    BadCharacter,
}

/// Eight bytes of EBCDIC: 1 to 8 of A to Z, 0 to 9, `$`, `#`, `@`, and blanks after them.
#[derive(Clone, Copy, Debug, PartialEq, Eq, PartialOrd, Ord, Hash)]
pub struct Name {
    bytes: [u8; FIELD],
}

impl Model for Name {
    ghost use Rattle.std.specs.Prelude.{ℕ, List, IsTrue};
    ghost use Rattle.njh_ebcdic.specs.Names.{is_name};

    ghost Value = { List ℕ };

    ghost view = { λ n. n.bytes };

    ghost invariant = { λ n. IsTrue (is_name n.bytes) };

    ghost inverse = { λ bytes. record { bytes = bytes } };
}

impl Name {
    ghost use Rattle.std.specs.Prelude.{◌≡◌, ◌<◌, ◌≤◌, IsTrue, length, is_ok};
    ghost use Rattle.njh_ebcdic.specs.Names.{is_name, without_end_blanks};
    ghost use Rattle.njh_ebcdic.specs.Reading.{name_of_field, name_of_text, name_of_word};

    /// The name that a field of eight bytes holds. `Empty` if the field is blank, else
    /// `BadCharacter` if a byte before its last blanks is none of a name, a blank too.
    pub fn of_field(field: &[u8; 8]) -> Result<Name, NameFault>
        ensures read { result ≡ name_of_field field.now }
        ensures named { is_ok result ≡ is_name field.now }
    {
        Name::of_bytes(field)
    }

    /// `of_field` for a field that lies in a longer record.
    pub fn of_bytes(field: &[u8]) -> Result<Name, NameFault>
        requires { length field.now ≡ 8 }
        ensures read { result ≡ name_of_field field.now }
        ensures named { is_ok result ≡ is_name field.now }
    {
        let name = trim_blanks(field);
        if name.is_empty() {
            return Err(NameFault::Empty);
        }
        if !are_name_bytes(name) {
            return Err(NameFault::BadCharacter);
        }
        Ok(Name { bytes: pad(field) })
    }

    /// The name that a word of 1 to 8 bytes is. `Empty` comes before `TooLong`, and `TooLong`
    /// before `BadCharacter`; a blank is no character of a name.
    pub fn of_word(word: &[u8]) -> Result<Name, NameFault>
        ensures { result ≡ name_of_word word.now }
    {
        if word.is_empty() {
            return Err(NameFault::Empty);
        }
        if word.len() > FIELD {
            return Err(NameFault::TooLong);
        }
        if !are_name_bytes(word) {
            return Err(NameFault::BadCharacter);
        }
        Ok(Name { bytes: pad(word) })
    }

    /// The name that a text of 1 to 8 characters is, with the faults of `of_word`.
    pub fn of_text(text: &str) -> Result<Name, NameFault>
        ensures { result ≡ name_of_text text.now }
    {
        let count = count_characters(text);
        if count > FIELD {
            return Err(NameFault::TooLong);
        }
        let mut word = [BLANK; FIELD];
        for (place, character) in text.chars().enumerate() {
            word[place] = byte_of(character).unwrap_or(BLANK);
        }
        Name::of_word(&word[..count])
    }

    /// The eight bytes.
    pub fn bytes(&self) -> [u8; 8]
        ensures same { result ≡ self.now }
        ensures name { IsTrue (is_name result) }
    {
        self.bytes
    }

    /// The bytes before the blanks, 1 to 8 of them.
    pub fn trimmed(&self) -> &[u8]
        ensures value { result.now ≡ without_end_blanks self.now }
        ensures some { 0 < length result.now }
        ensures few { length result.now ≤ 8 }
    {
        trim_blanks(&self.bytes)
    }
}

/// The characters of the name, without the blanks after them.
impl fmt::Display for Name {
    ghost use Rattle.std.specs.Prelude.{Some};
    ghost use Rattle.njh_ebcdic.specs.Names.{without_end_blanks};
    ghost use Rattle.njh_ebcdic.specs.Characters.{shown_text};

    ghost output = { λ name. Some (shown_text (without_end_blanks name)) };

    fn fmt<W: fmt::Write>(&self, f: &mut fmt::Formatter<W>) -> fmt::Result {
        for byte in self.trimmed() {
            f.write_char(text_of(*byte))?;
        }
        Ok(())
    }
}

fn count_characters(text: &str) -> usize
    ensures { result ≡ length (chars text.now) }
{
    text.chars().count()
}
