//! The words of a message.

ghost use Rattle.std.specs.Prelude.{◌≡◌, ◌≤◌, ◌==◌, ◌∷◌, [], true, length, map, position, MatchOption, IsTrue};
ghost use Rattle.std.specs.List.{list_all, position_or_len};
ghost use Rattle.njh_ebcdic.specs.Characters.{is_plain};
ghost use Rattle.njh_ebcdic.specs.Names.{upper, within};
ghost use Rattle.njh_texts.specs.Decimals.{decimal_value};
ghost use Rattle.njh_command.specs.Words.{is_blank, is_full_stop, name_in, name_of_parts, node_in, number_in, says};
ghost use Rattle.njh_command.specs.Words.{words};

use arrayvec::ArrayVec;
use njh_ebcdic::{BLANK, FIELD, Name, fold_upper};
use njh_header::FileName;
use njh_texts::{MessageText, push_ascii};

/// What stands between the node and the number of a file's name.
const FULL_STOP: u8 = 0x4b;

/// The digit 0. The others follow it.
const ZERO: u8 = 0xf0;

const NINE: u8 = 0xf9;

/// The most digits of a number in a name.
const MAX_DIGITS: usize = 5;

/// Where a byte stands first.
fn place_of(bytes: &[u8], sought: u8) -> Option<usize>
    ensures { result ≡ position (λ b. b == sought) bytes.now }
{
    bytes.iter().position(|byte| *byte == sought)
}

/// How many bytes stand before the first of a value, or all.
fn count_before(bytes: &[u8], sought: u8) -> usize
    ensures place { result ≡ position_or_len (λ b. b == sought) bytes.now }
    ensures within { result ≤ length bytes.now }
{
    match place_of(bytes, sought) {
        Some(place) => place,
        None => bytes.len(),
    }
}

/// The bytes behind the blanks in front.
fn after_blanks(bytes: &[u8]) -> &[u8]
    ensures words { words result.now ≡ words bytes.now }
    ensures front { position_or_len is_blank result.now ≡ 0 → result.now ≡ [] }
{
    let mut rest = bytes;
    while let [BLANK, after @ ..] = rest {
        rest = after;
    }
    rest
}

/// The first word of a message, as it stands there, and what stands behind it.
pub(crate) fn next_word(message: &[u8]) -> Option<(&[u8], &[u8])>
    ensures { MatchOption result (words message.now ≡ [])
        (λ found. words message.now ≡ map upper found.0.now ∷ words found.1.now) }
{
    let rest = after_blanks(message);
    let end = count_before(rest, BLANK);
    if end == 0 {
        None
    } else {
        Some(rest.split_at(end))
    }
}

/// Whether a word is one of the hub's, in capitals or not.
pub(crate) fn says(word: &[u8], text: &str) -> bool
    requires known { IsTrue (list_all is_plain text.now) }
    requires few { length text.now ≤ 8 }
    ensures { result ≡ says text.now (map upper word.now) }
{
    if word.len() != text.len() {
        return false;
    }
    let mut verb = MessageText::new();
    push_ascii(&mut verb, text);
    let folded = capitals::<FIELD>(word);
    folded.as_slice() == verb.as_slice()
}

/// The capitals of a word.
fn capitals<const N: usize>(word: &[u8]) -> ArrayVec<u8, N>
    requires { length word.now ≤ N }
    ensures { result.items ≡ map upper word.now }
{
    let mut folded = ArrayVec::new();
    for byte in word {
        folded.push(fold_upper(*byte));
    }
    folded
}

/// The node that a word is.
pub(crate) fn read_node(word: &[u8]) -> Option<Name>
    ensures { result ≡ node_in (map upper word.now) }
{
    if word.len() > FIELD {
        return None;
    }
    let folded = capitals::<FIELD>(word);
    Name::of_word(&folded).ok()
}

/// The file's name that a word is.
pub(crate) fn read_name(word: &[u8]) -> Option<FileName>
    ensures { result ≡ name_in (map upper word.now) }
{
    let end = count_before(word, FULL_STOP);
    if end == word.len() {
        return None;
    }
    let (node, _) = word.split_at(end);
    let (_, number) = word.split_at(end + 1);
    if count_before(number, FULL_STOP) < number.len() {
        return None;
    }
    name_of_parts(node, number)
}

/// The file's name that a node and a number are.
fn name_of_parts(node: &[u8], number: &[u8]) -> Option<FileName>
    ensures { result ≡ name_of_parts (map upper node.now ∷ map upper number.now ∷ []) }
{
    let node = read_node(node)?;
    let number = read_number(number)?;
    Some(FileName { node, number })
}

/// The number that a word is.
fn read_number(word: &[u8]) -> Option<u16>
    ensures { result ≡ number_in (map upper word.now) }
{
    if word.len() > MAX_DIGITS {
        return None;
    }
    let folded = capitals::<MAX_DIGITS>(word);
    number_of(&folded)
}

/// The number that some digits are.
fn number_of(word: &[u8]) -> Option<u16>
    requires { length word.now ≤ 5 }
    ensures { result ≡ number_in word.now }
{
    if word.is_empty() || !are_digits(word) {
        return None;
    }
    u16::try_from(value_of(word)).ok()
}

fn are_digits(word: &[u8]) -> bool
    ensures { result ≡ list_all (within 0xf0 0xf9) word.now }
{
    word.iter().all(|byte| matches!(*byte, ZERO..=NINE))
}

/// The number that at most five digits say.
fn value_of(digits: &[u8]) -> u32
    requires few { length digits.now ≤ 5 }
    requires digits { list_all (within 0xf0 0xf9) digits.now ≡ true }
    ensures { result ≡ decimal_value digits.now }
{
    let mut value = 0;
    for digit in digits {
        value = 10 * value + u32::from(*digit - ZERO);
    }
    value
}
