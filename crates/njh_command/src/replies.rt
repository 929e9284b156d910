//! What is said to the sender of a command.

ghost use Rattle.std.specs.Prelude.{◌≡◌, ◌+◌, ◌<◌, ◌≤◌, ◌∷◌, ◌++◌, [], length, map, take};
ghost use Rattle.njh_command.specs.Commands.{first_replies};
ghost use Rattle.njh_texts.specs.Texts.{listing_line};

use arrayvec::ArrayVec;
use njh_spool::FileSummary;
use njh_texts::{MessageText, put_file_line};
use std::marker::Model;

/// The most replies to one command; those behind them aren't said.
pub const MAX_REPLIES: usize = 64;

/// The replies to a command, in order: messages in EBCDIC. They are at most 64, and take no memory.
#[derive(Debug, Drop)]
pub struct Replies {
    /// The replies, and behind them texts of earlier commands, in whose places later ones come:
    /// none is cleared for a command.
    texts: ArrayVec<MessageText, MAX_REPLIES>,
    /// How many replies there are.
    count: usize,
}

impl Model for Replies {
    ghost use Rattle.std.specs.Prelude.{◌≤◌, ℕ, List, length, map, take};

    ghost Value = { List (List ℕ) };

    ghost view = { λ r. map (λ t. t.items) (take r.count r.texts.items) };

    ghost invariant = { λ r. (r.count ≤ length r.texts.items) × (length r.texts.items ≤ 64) };
}

impl Replies {
    /// No replies yet. They take ten thousand bytes, so a caller makes room for them once, and
    /// lends it to each command.
    pub fn new() -> Self
        ensures { result ≡ [] }
    {
        Replies {
            texts: ArrayVec::new(),
            count: 0,
        }
    }

    /// None, in the place of those that there were.
    pub fn clear(&mut self)
        ensures { self.new ≡ [] }
    {
        self.count = 0;
    }

    /// One reply, in the place of those that there were.
    pub(crate) fn put_one(&mut self, text: MessageText)
        ensures { self.new ≡ text.items ∷ [] }
    {
        self.clear();
        self.add(text);
    }

    /// Two replies, in the place of those that there were.
    pub(crate) fn put_two(&mut self, first: MessageText, second: MessageText)
        ensures { self.new ≡ first.items ∷ second.items ∷ [] }
    {
        self.clear();
        self.add(first);
        self.add(second);
    }

    /// One reply more, where there is room.
    pub(crate) fn add(&mut self, text: MessageText)
        ensures { self.new ≡ first_replies (self.old ++ text.items ∷ []) }
    {
        if self.count < MAX_REPLIES {
            put_at(&mut self.texts, self.count, text);
            self.count += 1;
        }
    }

    /// One reply more, that tells of a file, where there is room. Its text is written in its place.
    pub(crate) fn add_file(&mut self, file: &FileSummary)
        ensures { self.new
            ≡ first_replies (self.old ++ listing_line file.now.headers.name file.now.headers.destination file.now.kind
            file.now.records file.now.state ∷ []) }
    {
        if self.count < MAX_REPLIES {
            put_file_at(&mut self.texts, self.count, file);
            self.count += 1;
        }
    }

    /// The replies.
    pub fn texts(&self) -> &[MessageText]
        ensures { map (λ t. t.items) result.now ≡ self.now }
    {
        &self.texts[..self.count]
    }
}

/// Puts a text behind the first ones, in the place of what may stand there.
#[tactic(auto, using(crate::proofs::ReplyLaws::replaced, crate::proofs::ReplyLaws::pushed))]
fn put_at(texts: &mut ArrayVec<MessageText, MAX_REPLIES>, count: usize, text: MessageText)
    requires within { count ≤ length texts.old.items }
    requires room { count < 64 }
    ensures front { take (count + 1) texts.new.items ≡ take count texts.old.items ++ text ∷ [] }
    ensures more { count + 1 ≤ length texts.new.items }
    ensures most { length texts.new.items ≤ 64 }
{
    if count < texts.len() {
        texts[count] = text;
    } else {
        texts.push(text);
    }
}

/// Writes what tells of a file behind the first texts, in the place of what may stand there.
#[tactic(auto, using(crate::proofs::ReplyLaws::written))]
fn put_file_at(texts: &mut ArrayVec<MessageText, MAX_REPLIES>, count: usize, file: &FileSummary)
    requires within { count ≤ length texts.old.items }
    requires room { count < 64 }
    ensures front { map (λ t. t.items) (take (count + 1) texts.new.items)
        ≡ map (λ t. t.items) (take count texts.old.items)
        ++ listing_line file.now.headers.name file.now.headers.destination file.now.kind
        file.now.records file.now.state ∷ [] }
    ensures more { count + 1 ≤ length texts.new.items }
    ensures most { length texts.new.items ≤ 64 }
{
    make_place(texts, count);
    put_file_line(&mut texts[count], file);
}

/// Puts an empty text behind the first texts, where there is none.
#[tactic(auto, using(crate::proofs::ReplyLaws::place_made))]
fn make_place(texts: &mut ArrayVec<MessageText, MAX_REPLIES>, count: usize)
    requires within { count ≤ length texts.old.items }
    requires room { count < 64 }
    ensures front { take count texts.new.items ≡ take count texts.old.items }
    ensures more { count < length texts.new.items }
    ensures most { length texts.new.items ≤ 64 }
{
    if count == texts.len() {
        texts.push(MessageText::new());
    }
}
