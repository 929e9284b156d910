//! What a line of words says of a file that a peer sends.

ghost use Rattle.std.specs.Prelude.{◌≡◌};
ghost use Rattle.std.specs.Option.{option_map};
ghost use Rattle.njh_encode.specs.Posted.{is_of_file, letter_in, posting_from, posting_in, posting_to};

use crate::statements::{behind_two, named};
use crate::words::{line_of, name_of, next_word, number_of, parted};
use njh_ebcdic::Name;

/// What the words of a file say: `LYON.42 of ANNA to PAUL@METZ`.
#[derive(Clone, Copy, Debug)]
pub(crate) struct Posting {
    /// The node that it comes from.
    pub origin: Name,
    /// Its number there.
    pub number: u16,
    /// Whose it is.
    pub owner: Name,
    /// Who gets it.
    pub receiver: Name,
    /// At which node.
    pub destination: Name,
}

/// Whether a line says a file, whatever comes after that word.
#[tactic(auto, unfolding(crate::specs::Posted::is_of_file))]
pub(crate) fn is_of_file(line: &str) -> bool
    ensures { result ≡ is_of_file line.now }
{
    let (name, rest) = parted(line, ':');
    let (blank, text) = next_word(rest);
    let (word, _) = next_word(text);
    line_of(name).is_some() && blank.is_empty() && word == "file"
}

/// The name of the text whose lines are a file's: it comes after `lines from`.
#[tactic(auto, unfolding(crate::specs::Posted::letter_in))]
pub(crate) fn letter_of(text: &str) -> Option<&str>
    ensures { option_map (λ name. name.now) result ≡ letter_in text.now }
{
    let (_, tail) = parted(text, ',');
    let (blank, words) = next_word(tail);
    let (lines, words) = next_word(words);
    let (from, name) = next_word(words);
    if !blank.is_empty() || lines != "lines" || from != "from" || name.is_empty() {
        return None;
    }
    Some(name)
}

/// What the words of a file say before their comma.
#[tactic(auto, unfolding(crate::specs::Posted::posting_in))]
pub(crate) fn posting_of(text: &str) -> Option<Posting>
    ensures { result ≡ posting_in text.now }
{
    let (ends, _) = parted(text, ',');
    let (file, rest) = next_word(ends);
    let (node, number) = parted(file, '.');
    let origin = name_of(node)?;
    let number = number_of(number)?;
    posting_from(origin, number, rest)
}

/// The same, after the file's name.
#[tactic(auto, unfolding(crate::specs::Posted::posting_from))]
fn posting_from(origin: Name, number: u16, text: &str) -> Option<Posting>
    ensures { result ≡ posting_from origin number text.now }
{
    let owner = named("of", text)?;
    posting_to(origin, number, owner, behind_two(text))
}

/// The same, after its owner.
#[tactic(auto, unfolding(crate::specs::Posted::posting_to))]
fn posting_to(origin: Name, number: u16, owner: Name, text: &str) -> Option<Posting>
    ensures { result ≡ posting_to origin number owner text.now }
{
    let (word, rest) = next_word(text);
    if word != "to" {
        return None;
    }
    let (receiver, destination) = parted(rest, '@');
    let receiver = name_of(receiver)?;
    let destination = name_of(destination)?;
    Some(Posting {
        origin,
        number,
        owner,
        receiver,
        destination,
    })
}
