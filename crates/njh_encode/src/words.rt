//! The words of a line.

ghost use Rattle.std.specs.Prelude.{◌≡◌, ◌<◌, ◌≤◌, length, true, codes};
ghost use Rattle.std.specs.List.{list_all};
ghost use Rattle.njh_ebcdic.specs.Names.{within};
ghost use Rattle.njh_encode.specs.Words.{are_digits, back, behind, decimal_value, front, is_letter_or_digit, is_name};
ghost use Rattle.njh_encode.specs.Words.{line_in, name_in, named, number_in, stream_at, stream_in, first_word};

use njh_block::Stream;
use njh_ebcdic::Name;

/// How many bytes a name of a line has at most.
pub(crate) const LINE_NAME: usize = 8;

/// What comes before the first of a mark, or all if there is none, and what comes after it,
/// or nothing.
#[tactic(auto, unfolding(crate::specs::Words::front, crate::specs::Words::back))]
pub(crate) fn parted(text: &str, mark: char) -> (&str, &str)
    requires { mark < 128 }
    ensures front { result.0.now ≡ front mark text.now }
    ensures back { result.1.now ≡ back mark text.now }
{
    match text.split_once(mark) {
        Some(parts) => parts,
        None => (text, ""),
    }
}

/// The first word, and what comes after its blank.
pub(crate) fn next_word(text: &str) -> (&str, &str)
    ensures word { result.0.now ≡ first_word text.now }
    ensures behind { result.1.now ≡ behind text.now }
{
    parted(text, ' ')
}

/// The number that a word is.
#[tactic(auto, unfolding(crate::specs::Words::number_in))]
pub(crate) fn number_of(word: &str) -> Option<u16>
    ensures { result ≡ number_in word.now }
{
    let digits = word.as_bytes();
    if !are_digits(digits) {
        return None;
    }
    u16::try_from(value_of(digits)).ok()
}

fn are_digits(digits: &[u8]) -> bool
    ensures { result ≡ are_digits digits.now }
{
    !digits.is_empty() && digits.len() <= 5 && each_is_digit(digits)
}

fn each_is_digit(digits: &[u8]) -> bool
    ensures { result ≡ list_all (within 48 57) digits.now }
{
    digits.iter().all(|byte| matches!(*byte, b'0'..=b'9'))
}

/// The number that at most five digits say.
fn value_of(digits: &[u8]) -> u32
    requires { are_digits digits.now ≡ true }
    ensures { result ≡ decimal_value digits.now }
{
    let mut value = 0;
    for digit in digits {
        value = 10 * value + u32::from(*digit - b'0');
    }
    value
}

/// The name that a word is.
#[tactic(auto, unfolding(crate::specs::Words::name_in))]
pub(crate) fn name_of(word: &str) -> Option<Name>
    ensures { result ≡ name_in word.now }
{
    Name::of_text(word).ok()
}

/// Whether a word can be the name of a line in a trace.
#[tactic(auto, unfolding(crate::specs::Words::is_name))]
pub(crate) fn is_name(word: &str) -> bool
    ensures { result ≡ is_name word.now }
{
    !word.is_empty() && are_letters_and_digits(word.as_bytes())
}

/// The field of the name of a line that a word is.
#[tactic(auto, unfolding(crate::specs::Words::line_in))]
pub(crate) fn line_of(word: &str) -> Option<[u8; LINE_NAME]>
    ensures { result ≡ line_in word.now }
{
    let name = word.as_bytes();
    if name.is_empty() || name.len() > LINE_NAME || !are_letters_and_digits(name) {
        return None;
    }
    let mut field = [0; LINE_NAME];
    field[..name.len()].copy_from_slice(name);
    Some(field)
}

fn are_letters_and_digits(name: &[u8]) -> bool
    ensures { result ≡ list_all is_letter_or_digit name.now }
{
    name.iter().all(|byte| is_letter_or_digit(*byte))
}

fn is_letter_or_digit(byte: u8) -> bool
    ensures { result ≡ is_letter_or_digit byte }
{
    matches!(byte, b'0'..=b'9' | b'A'..=b'Z' | b'a'..=b'z')
}

/// The stream that two words are.
#[tactic(auto, unfolding(crate::specs::Words::stream_in))]
pub(crate) fn stream_of(words: &str) -> Option<Stream>
    ensures { result ≡ stream_in words.now }
{
    let (kind, number) = next_word(words);
    stream_at(kind, number_of(number)?)
}

/// The stream of a kind and a number.
#[tactic(auto, unfolding(crate::specs::Words::stream_at))]
fn stream_at(kind: &str, number: u16) -> Option<Stream>
    ensures { result ≡ stream_at kind.now number }
{
    if number == 0 || number > 4 {
        return None;
    }
    match kind {
        "SYSIN" => Some(Stream::at(number as u8 - 1)),
        "SYSOUT" => Some(Stream::at(number as u8 + 3)),
        _ => None,
    }
}
