//! Lines of a trace that tell of a line of the hub, but give no bytes.

ghost use Rattle.std.specs.Prelude.{◌≡◌, ◌∷◌, bytes_eq, option_map};
ghost use Rattle.njh_trace.specs.Pieces.{is_signal, signalled, signalled_of_words, words_of};

use crate::parts::parted;

/// The name of the line of the hub of which a line of the trace tells a tick, a garbled block or a
/// loss.
#[tactic(auto, unfolding(crate::specs::Pieces::signalled))]
pub(crate) fn signalled(line: &[u8]) -> Option<&[u8]>
    ensures { option_map (λ name. name.now) result ≡ signalled line.now }
{
    match parted(line, b' ') {
        None => None,
        Some((word, name)) => signalled_by(word, name),
    }
}

/// The same of a line of a word and more words.
fn signalled_by<'a>(word: &[u8], name: &'a [u8]) -> Option<&'a [u8]>
    ensures { option_map (λ name. name.now) result ≡ signalled_of_words (word.now ∷ words_of name.now) }
{
    match parted(name, b' ') {
        None => is_signal(word).then_some(name),
        Some(_) => None,
    }
}

/// Whether a word tells of a line of the hub, but gives no bytes.
pub(crate) fn is_signal(word: &[u8]) -> bool
    ensures { result ≡ is_signal word.now }
{
    is_word(word, "TICK") || is_word(word, "GARBLED") || is_word(word, "LOST")
}

/// Whether a word is this one.
pub(crate) fn is_word(word: &[u8], text: &str) -> bool
    ensures { result ≡ bytes_eq word.now text.now }
{
    word == text.as_bytes()
}
