//! A text in words that comes in pieces.

ghost use Rattle.std.specs.Prelude.{◌≡◌, ◌≢◌, ℕ, ◌≤◌, ◌<◌, ◌∷◌, ◌++◌, [], List, length, true, Err, IfOk, IfSome};
ghost use Rattle.std.specs.Prelude.{MatchOption, None, OnOk, Some};
ghost use Rattle.njh_io.specs.Lines.{is_first_long, lines_from, lines_of};
ghost use Rattle.njh_encode.specs.Scripts.{AreAnswered, Texts, bytes_taken, file_taken, outcome_in_text, words_taken};
ghost use Rattle.njh_encode.specs.Encoded.{IsAppended};
ghost use Rattle.njh_encode.specs.code.Reading.{BecomesBehind, EndsBad, IsBadLine, Takes, TakesLine};

use crate::encoder::Encoder;
use crate::fault::{EncodeEnd, EncodeFault, Reason};
use crate::letters::Letters;
use crate::posting::{is_of_file, letter_of, posting_of};
use crate::statements::behind_two;
use crate::words::{line_of, parted};
use njh_io::{LineReader, ReadFault};
use std::alloc::Global;
use std::marker::Model;
use std::str;

/// How far a text was read: what is kept of each line of the hub, the number of the next line of
/// the text, and what has come of it.
#[derive(Drop)]
pub(crate) struct Reading {
    encoder: Encoder,
    number: u64,
    front: LineReader,
}

impl Model for Reading {
    ghost use Rattle.njh_encode.specs.code.Reading.{Progress};

    ghost Value = { Progress };

    ghost view = { λ r. record { states = r.encoder; number = r.number; front = r.front } };
}

impl Reading {
    /// Nothing came yet.
    pub(crate) fn new(alloc: Global) -> Reading
        ensures { result ≡ record { states = []; number = 1; front = [] } }
    {
        Reading {
            encoder: Encoder::new(alloc),
            number: 1,
            front: LineReader::new(alloc),
        }
    }

    /// Takes a piece, and appends what each line becomes that ends in it, up to a bad one.
    pub(crate) fn take<L: Letters>(
        &mut self,
        piece: &[u8],
        letters: &L,
        script: &mut Vec<u8>,
    ) -> Result<(), EncodeEnd>
        ensures taken { OnOk result ((lines : List ℕ) × (script.new.items ≡ script.old.items ++ lines)
            × Takes (L.texts letters.now) self.old piece.now lines self.new) }
        ensures bad { (fault : EncodeFault) → result ≡ Err (EncodeEnd.BadLine fault)
            → (lines : List ℕ) × (script.new.items ≡ script.old.items ++ lines)
            × EndsBad (L.texts letters.now) self.old piece.now (record { script = lines; bad = Some fault }) }
    {
        let mut left = piece;
        while let Some(behind) = self.read(left)? {
            self.take_front(letters, script)?;
            left = behind;
        }
        Ok(())
    }

    /// Appends what the last line becomes, if it has no end of its own.
    pub(crate) fn end<L: Letters>(
        &mut self,
        letters: &L,
        script: &mut Vec<u8>,
    ) -> Result<(), EncodeEnd>
        ensures taken { OnOk result ((lines : List ℕ) × (script.new.items ≡ script.old.items ++ lines)
            × BecomesBehind (L.texts letters.now) self.old [] (record { script = lines; bad = None })) }
        ensures bad { (fault : EncodeFault) → result ≡ Err (EncodeEnd.BadLine fault)
            → (script.new.items ≡ script.old.items)
            × BecomesBehind (L.texts letters.now) self.old [] (record { script = []; bad = Some fault }) }
    {
        if self.front.line().is_empty() {
            Ok(())
        } else {
            self.take_front(letters, script)
        }
    }

    /// Takes a piece up to the end of a line, and answers what comes after that; or keeps all of
    /// it.
    fn read<'p>(&mut self, piece: &'p [u8]) -> Result<Option<&'p [u8]>, EncodeEnd>
        ensures lines { IfOk result (λ behind. (more : List ℕ) → MatchOption behind
            (lines_from self.old.front (piece.now ++ more) ≡ lines_from self.new.front more)
            (λ behind. lines_from self.old.front (piece.now ++ more)
            ≡ self.new.front ∷ lines_of (behind.now ++ more))) }
        ensures states { OnOk result (self.new.states ≡ self.old.states) }
        ensures number { OnOk result (self.new.number ≡ self.old.number) }
        ensures shorter { IfOk result (λ behind. IfSome behind (λ behind. length behind.now < length piece.now)) }
        ensures bad { (fault : EncodeFault) → result ≡ Err (EncodeEnd.BadLine fault)
            → (fault ≡ record { line = self.old.number; reason = Reason.LongLine })
            × ((more : List ℕ) → is_first_long (lines_from self.old.front (piece.now ++ more)) ≡ true) }
    {
        match self.front.take(piece) {
            Ok(behind) => Ok(behind),
            Err(ReadFault::TooLong) => Err(end_at(self.number, Reason::LongLine)),
            Err(ReadFault::Memory) => Err(EncodeEnd::Memory),
            Err(ReadFault::Device) => Err(EncodeEnd::Device),
        }
    }

    /// Takes the line that has come, appends what it becomes, and counts it.
    fn take_front<L: Letters>(&mut self, letters: &L, script: &mut Vec<u8>) -> Result<(), EncodeEnd>
        ensures taken { OnOk result ((lines : List ℕ) × (script.new.items ≡ script.old.items ++ lines)
            × TakesLine (L.texts letters.now) self.old self.old.front lines self.new) }
        ensures cleared { OnOk result (self.new.front ≡ []) }
        ensures bad { (fault : EncodeFault) → result ≡ Err (EncodeEnd.BadLine fault)
            → (script.new.items ≡ script.old.items)
            × IsBadLine (L.texts letters.now) self.old self.old.front (record { script = []; bad = Some fault }) }
    {
        match take_short(&mut self.encoder, self.front.line(), letters, script) {
            Ok(()) => {}
            Err(reason) => return Err(end_at(self.number, reason)),
        }
        match self.number.checked_add(1) {
            Some(number) => self.number = number,
            None => return Err(EncodeEnd::Device),
        }
        self.front.clear();
        Ok(())
    }
}

/// Appends what a line becomes that isn't too long.
fn take_short<L: Letters>(
    encoder: &mut Encoder,
    line: &[u8],
    letters: &L,
    script: &mut Vec<u8>,
) -> Result<(), Reason>
    requires { length line.now ≤ 1048576 }
    ensures { (texts : Texts) × AreAnswered (L.texts letters.now) texts
        × IsAppended result (outcome_in_text texts encoder.old line.now) encoder.old encoder.new script.old.items
        script.new.items }
{
    take_bytes(encoder, line, letters, script)
}

/// Appends what the bytes of a line become.
fn take_bytes<L: Letters>(
    encoder: &mut Encoder,
    line: &[u8],
    letters: &L,
    script: &mut Vec<u8>,
) -> Result<(), Reason>
    ensures { (texts : Texts) × AreAnswered (L.texts letters.now) texts
        × IsAppended result (bytes_taken texts encoder.old line.now) encoder.old encoder.new script.old.items
        script.new.items }
{
    match str::from_utf8(line) {
        Ok(words) => take_words(encoder, words, letters, script),
        Err(_) => Err(Reason::NoText),
    }
}

/// Appends what a line of words becomes.
#[tactic(auto, unfolding(crate::specs::Scripts::words_taken))]
fn take_words<L: Letters>(
    encoder: &mut Encoder,
    line: &str,
    letters: &L,
    script: &mut Vec<u8>,
) -> Result<(), Reason>
    ensures { (texts : Texts) × AreAnswered (L.texts letters.now) texts
        × IsAppended result (words_taken texts encoder.old line.now) encoder.old encoder.new script.old.items
        script.new.items }
{
    if is_of_file(line) {
        take_file(encoder, line, letters, script)
    } else {
        encoder.take_line(line, script)
    }
}

/// Appends what a line that says a file becomes.
#[tactic(auto, unfolding(crate::specs::Scripts::file_taken))]
fn take_file<L: Letters>(
    encoder: &mut Encoder,
    line: &str,
    letters: &L,
    script: &mut Vec<u8>,
) -> Result<(), Reason>
    ensures { (texts : Texts) × AreAnswered (L.texts letters.now) texts
        × IsAppended result (file_taken texts encoder.old line.now) encoder.old encoder.new script.old.items
        script.new.items }
{
    let (name, rest) = parted(line, ':');
    let file = behind_two(rest);
    let Some(field) = line_of(name) else {
        return Err(Reason::NoLine);
    };
    let Some(posting) = posting_of(file) else {
        return Err(Reason::NoFile);
    };
    let Some(letter) = letter_of(file) else {
        return Err(Reason::NoFile);
    };
    match letters.read(*script.allocator(), letter) {
        Ok(text) => encoder.take_file(field, name, &posting, &text, script),
        Err(fault) => Err(fault.reason()),
    }
}

/// What ends a script at a line that has this number, for this reason.
fn end_at(line: u64, reason: Reason) -> EncodeEnd
    ensures { (fault : EncodeFault) → result ≡ EncodeEnd.BadLine fault
        → (fault ≡ record { line = line; reason = reason }) × (reason ≢ Reason.Memory) }
{
    match reason {
        Reason::Memory => EncodeEnd::Memory,
        reason => EncodeEnd::BadLine(EncodeFault { line, reason }),
    }
}
