//! What a refusal says of a request's own text.

ghost use Rattle.std.specs.Prelude.{◌≡◌, ◌<◌, ◌≤◌, ◌==◌, length, position, take, IfSome};
ghost use Rattle.std.specs.List.{before_first, position_or_len};
ghost use Rattle.njh_request.specs.Quotes.{quote_field, quote_of, shown_byte};

use std::fmt;
use std::marker::Model;

/// How many bytes of a text are told.
pub(crate) const QUOTE: usize = 48;

/// What is shown of a byte that can't be seen.
const UNSEEN: char = '?';

/// The first 48 bytes of a text, and zeros after it. It is shown up to its first zero: as a
/// character of ASCII that is seen, or else as `?`, each byte.
#[derive(Clone, Copy, Debug, PartialEq, Eq)]
pub struct Quote {
    bytes: [u8; QUOTE],
}

impl Model for Quote {
    ghost use Rattle.std.specs.Prelude.{List, ℕ};

    ghost Value = { List ℕ };

    ghost view = { λ quote. quote.bytes };

    ghost inverse = { λ bytes. record { bytes = bytes } };
}

impl Quote {
    /// Of a text.
    pub fn of(text: &str) -> Quote
        ensures { result ≡ quote_of text.now }
    {
        Quote {
            bytes: field_of(text.as_bytes()),
        }
    }

    /// The bytes before the first zero.
    fn text(&self) -> &[u8]
        ensures { result.now ≡ before_first (λ b. b == 0) self.now }
    {
        let (text, _) = self.bytes.split_at(end_of(&self.bytes));
        text
    }
}

impl fmt::Display for Quote {
    ghost use Rattle.std.specs.Prelude.{Some};
    ghost use Rattle.njh_request.specs.Quotes.{shown_quote};

    ghost output = { λ quote. Some (shown_quote quote) };

    #[tactic(auto, unfolding(crate::specs::Quotes::shown_quote))]
    fn fmt<W: fmt::Write>(&self, f: &mut fmt::Formatter<W>) -> fmt::Result {
        for byte in self.text() {
            f.write_char(shown(*byte))?;
        }
        Ok(())
    }
}

/// Where the first zero is, or else the end.
fn end_of(bytes: &[u8]) -> usize
    ensures end { result ≡ position_or_len (λ b. b == 0) bytes.now }
    ensures within { result ≤ length bytes.now }
{
    match zero_in(bytes) {
        Some(place) => place,
        None => bytes.len(),
    }
}

fn zero_in(bytes: &[u8]) -> Option<usize>
    ensures place { result ≡ position (λ b. b == 0) bytes.now }
    ensures within { IfSome result (λ place. place < length bytes.now) }
{
    bytes.iter().position(|byte| *byte == 0)
}

/// The first bytes of a text.
fn field_of(text: &[u8]) -> [u8; QUOTE]
    ensures { result ≡ quote_field (take 48 text.now) }
{
    let mut field = [0; QUOTE];
    let count = text.len().min(QUOTE);
    field[..count].copy_from_slice(&text[..count]);
    field
}

/// The character of a byte, if it can be seen.
fn shown(byte: u8) -> char
    ensures { result ≡ shown_byte byte }
{
    match byte {
        b'!'..=b'~' => char::from(byte),
        _ => UNSEEN,
    }
}
