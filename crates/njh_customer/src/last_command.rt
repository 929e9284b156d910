//! The last command of a user that was carried out, for a log. No step depends on it.

use arrayvec::ArrayVec;
use njh_command::Replies;
use njh_ebcdic::{FIELD, Name};
use njh_header::User;
use std::marker::Model;

/// How many bytes a command or a reply has at most.
const WORDS: usize = 148;

/// The last command that a user of any customer gave on a line, and how many there were. Nothing is
/// said of it in a clause: it is what a log shows to people.
#[derive(Drop)]
pub struct LastCommand {
    count: u64,
    who: Option<User>,
    words: ArrayVec<u8, WORDS>,
    reply: ArrayVec<u8, WORDS>,
    replies: usize,
}

impl Model for LastCommand {
    ghost use Rattle.std.specs.Prelude.{⊤};

    ghost Value = { ⊤ };

    ghost view = { λ last. tt };
}

impl LastCommand {
    /// None was given yet.
    pub(crate) fn none() -> LastCommand {
        LastCommand {
            count: 0,
            who: None,
            words: ArrayVec::new(),
            reply: ArrayVec::new(),
            replies: 0,
        }
    }

    /// This user's command was carried out, with these replies.
    pub(crate) fn note(&mut self, node: Name, user: [u8; FIELD], words: &[u8], replies: &Replies) {
        let texts = replies.texts();
        self.count = self.count.saturating_add(1);
        self.who = Some(User { node, user });
        copy(words, &mut self.words);
        match texts.first() {
            Some(first) => copy(first, &mut self.reply),
            None => self.reply.clear(),
        }
        self.replies = texts.len();
    }

    /// How many commands were carried out since the hub was opened; the count stays at the greatest
    /// `u64`.
    pub fn count(&self) -> u64 {
        self.count
    }

    /// Who gave it, if there was one.
    pub fn who(&self) -> Option<User> {
        self.who
    }

    /// Its words, in EBCDIC: 148 bytes at most.
    pub fn words(&self) -> &[u8] {
        &self.words
    }

    /// The first reply to it, in EBCDIC; empty if there was none.
    pub fn reply(&self) -> &[u8] {
        &self.reply
    }

    /// How many replies there were.
    pub fn replies(&self) -> usize {
        self.replies
    }
}

/// Puts as many bytes as have room in the place of what was there.
fn copy(from: &[u8], to: &mut ArrayVec<u8, WORDS>) {
    to.clear();
    let count = from.len().min(WORDS);
    let _whole = to.try_extend_from_slice(&from[..count]).is_ok();
}
