//! The bytes that a line of a trace gives.

ghost use Rattle.std.specs.Prelude.{◌≡◌, ◌∷◌, ◌++◌, [], IfOk};
ghost use Rattle.std.specs.List.{list_all};
ghost use Rattle.njh_trace.specs.Pieces.{is_letter_or_digit, is_name, is_script_word, is_signal, piece_in};
ghost use Rattle.njh_trace.specs.Pieces.{piece_of_digits, piece_of_words, words_of};

use crate::parts::parted;
use crate::signals::{is_signal, is_word};
use hex::FromHexError;
use std::alloc::{AllocError, Global};
use std::marker::Model;

/// Bytes of a source.
#[derive(Drop)]
pub(crate) struct Piece {
    mark: Vec<u8>,
    bytes: Vec<u8>,
}

impl Model for Piece {
    ghost use Rattle.njh_trace.specs.Pieces.{PieceView};

    ghost Value = { PieceView };

    ghost view = { λ piece. record { mark = piece.mark.items; bytes = piece.bytes.items } };
}

impl Piece {
    /// What comes before the words of each of their frames.
    pub(crate) fn mark(&self) -> &[u8]
        ensures { result.now ≡ self.now.mark }
    {
        &self.mark
    }

    /// The bytes.
    pub(crate) fn bytes(&self) -> &[u8]
        ensures { result.now ≡ self.now.bytes }
    {
        &self.bytes
    }
}

/// The bytes that a line gives, if it gives any. Want of memory is the only refusal.
#[tactic(auto, unfolding(crate::specs::Pieces::piece_in))]
pub(crate) fn piece_in(alloc: Global, line: &[u8]) -> Result<Option<Piece>, AllocError>
    ensures { IfOk result (λ piece. piece ≡ piece_in line.now) }
{
    match parted(line, b' ') {
        None => piece_of_digits(alloc, b"", b"", line),
        Some((word, rest)) => piece_of_more(alloc, word, rest),
    }
}

/// The bytes of a line of a word and more words.
fn piece_of_more(alloc: Global, word: &[u8], rest: &[u8]) -> Result<Option<Piece>, AllocError>
    ensures { IfOk result (λ piece. piece ≡ piece_of_words (word.now ∷ words_of rest.now)) }
{
    match parted(rest, b' ') {
        None => piece_out(alloc, word, rest),
        Some((name, digits)) => piece_of_script(alloc, word, name, digits),
    }
}

/// The bytes of the name of a line of the hub and digits.
fn piece_out(alloc: Global, name: &[u8], digits: &[u8]) -> Result<Option<Piece>, AllocError>
    ensures { IfOk result (λ piece. piece ≡ piece_of_words (name.now ∷ digits.now ∷ [])) }
{
    if is_name(name) && !is_script_word(name) {
        piece_of_digits(alloc, name, b" out: ", digits)
    } else {
        Ok(None)
    }
}

/// The bytes of a line of two words and more.
fn piece_of_script(
    alloc: Global,
    word: &[u8],
    name: &[u8],
    rest: &[u8],
) -> Result<Option<Piece>, AllocError>
    ensures { IfOk result (λ piece. piece ≡ piece_of_words (word.now ∷ name.now ∷ words_of rest.now)) }
{
    match parted(rest, b' ') {
        None => piece_into(alloc, word, name, rest),
        Some(_) => Ok(None),
    }
}

/// The bytes of a word, the name of a line of the hub and digits.
fn piece_into(
    alloc: Global,
    word: &[u8],
    name: &[u8],
    digits: &[u8],
) -> Result<Option<Piece>, AllocError>
    ensures { IfOk result (λ piece. piece ≡ piece_of_words (word.now ∷ name.now ∷ digits.now ∷ [])) }
{
    if is_word(word, "BYTES") && is_name(name) {
        piece_of_digits(alloc, name, b" in: ", digits)
    } else {
        Ok(None)
    }
}

/// The bytes that hex digits spell, if they spell any, under a mark of two parts.
#[tactic(auto, unfolding(crate::specs::Pieces::piece_of_digits))]
fn piece_of_digits(
    alloc: Global,
    name: &[u8],
    direction: &[u8],
    digits: &[u8],
) -> Result<Option<Piece>, AllocError>
    ensures { IfOk result (λ piece. piece ≡ piece_of_digits (name.now ++ direction.now) digits.now) }
{
    match hex::decode(alloc, digits) {
        Ok(bytes) if bytes.is_empty() => Ok(None),
        Ok(bytes) => {
            let mut mark = Vec::from_slice(alloc, name)?;
            mark.extend_from_slice(direction)?;
            Ok(Some(Piece { mark, bytes }))
        }
        Err(FromHexError::OutOfMemory) => Err(AllocError),
        Err(_) => Ok(None),
    }
}

/// Whether a word begins a line of a script.
fn is_script_word(word: &[u8]) -> bool
    ensures { result ≡ is_script_word word.now }
{
    is_signal(word) || is_word(word, "BYTES") || is_word(word, "ROUTES")
}

/// Whether a word may be the name of a line of the hub.
fn is_name(word: &[u8]) -> bool
    ensures { result ≡ is_name word.now }
{
    !word.is_empty() && are_letters_or_digits(word)
}

fn are_letters_or_digits(word: &[u8]) -> bool
    ensures { result ≡ list_all is_letter_or_digit word.now }
{
    word.iter().all(|c| is_letter_or_digit(*c))
}

fn is_letter_or_digit(c: u8) -> bool
    ensures { result ≡ is_letter_or_digit c }
{
    matches!(c, b'0'..=b'9' | b'A'..=b'Z' | b'a'..=b'z')
}
