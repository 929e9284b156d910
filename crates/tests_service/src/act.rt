//! What peers, visitors and the operator do in a case, and when.

use njh_presence::{Seen, SpoolSeen};

/// What becomes of a dial.
#[derive(Clone, Copy, PartialEq, Eq)]
pub enum Answer {
    /// It is refused at once.
    Unreachable,
    /// It is refused when it is looked at.
    Refused,
    /// Nothing.
    Nothing,
    /// It is made.
    Made,
}

/// What becomes of listening on a port.
#[derive(Clone, Copy, PartialEq, Eq)]
pub enum Ports {
    /// It is listened on.
    Free,
    /// Another program listens there.
    InUse,
    /// It may not be listened on.
    NotPermitted,
}

/// Something that is done.
#[derive(Clone, Copy)]
pub enum Deed {
    /// A peer connects to this port of the hub.
    Connects(u16),
    /// It sends the act's bytes. What was not read of those before is gone.
    Sends,
    /// It takes so many bytes more, and then none.
    Takes(usize),
    /// It sends no more.
    Ends,
    /// It is gone: every call on its connection fails.
    Resets,
    /// It takes no more for good: every send on its connection fails. Nothing is ready by that.
    Deafens,
    /// From now on this becomes of dials to it.
    Answers(Answer),
    /// From now on the log's writer takes so many bytes of a line.
    LogTakes(usize),
    /// From now on this becomes of listening.
    Listening(Ports),
    /// Somebody visits the console and sends the act's bytes.
    Visits,
    /// From now on the act's bytes are the table file.
    Changes,
    /// From now on this stands at the paths of the spool file and of its log.
    Stands(SpoolSeen),
}

/// An act of a case.
#[derive(Drop)]
pub struct Act {
    /// When, in milliseconds since the beginning.
    pub at: u64,
    /// It isn't seen by the wait that sees the act before it, but by the next one.
    pub is_apart: bool,
    /// Which peer's it is, from 0 on.
    pub peer: usize,
    /// What is done.
    pub deed: Deed,
    /// What is sent by it, or stands in the table file.
    pub bytes: Vec<u8>,
}

/// An answer of a peer to a dial, by its word.
fn answer_of(word: &str) -> Option<Answer> {
    match word {
        "unreachable" => Some(Answer::Unreachable),
        "refused" => Some(Answer::Refused),
        "nothing" => Some(Answer::Nothing),
        "made" => Some(Answer::Made),
        _ => None,
    }
}

/// What becomes of listening, by its word.
fn ports_of(word: &str) -> Option<Ports> {
    match word {
        "free" => Some(Ports::Free),
        "in_use" => Some(Ports::InUse),
        "not_permitted" => Some(Ports::NotPermitted),
        _ => None,
    }
}

/// What stands at the paths of the spool file and of its log, by its words.
fn stands_in(words: &str) -> Option<SpoolSeen> {
    let (file, log) = words.split_once(' ')?;
    Some(SpoolSeen {
        file: seen_in(file)?,
        log: seen_in(log)?,
    })
}

/// What stands at a path: nothing, by the word `none`, or a file, as `DEVICE:INODE:SIZE`.
fn seen_in(word: &str) -> Option<Option<Seen>> {
    if word == "none" {
        return Some(None);
    }
    let (device, rest) = word.split_once(':')?;
    let (inode, size) = rest.split_once(':')?;
    Some(Some(Seen {
        device: device.parse::<u64>().ok()?,
        inode: inode.parse::<u64>().ok()?,
        size: size.parse::<u64>().ok()?,
    }))
}

/// A deed, by its word and what stands behind that.
pub(crate) fn deed_of(word: &str, rest: &str) -> Option<Deed> {
    match word {
        "connects" => Some(Deed::Connects(rest.parse::<u16>().ok()?)),
        "sends" => Some(Deed::Sends),
        "takes" => Some(Deed::Takes(rest.parse::<usize>().ok()?)),
        "ends" => Some(Deed::Ends),
        "resets" => Some(Deed::Resets),
        "deafens" => Some(Deed::Deafens),
        "answers" => Some(Deed::Answers(answer_of(rest)?)),
        "log" => Some(Deed::LogTakes(rest.parse::<usize>().ok()?)),
        "ports" => Some(Deed::Listening(ports_of(rest)?)),
        "visits" => Some(Deed::Visits),
        "table" => Some(Deed::Changes),
        "spool" => Some(Deed::Stands(stands_in(rest)?)),
        _ => None,
    }
}

/// The moments at which a row stands: one, or those of `FIRST..LAST/STEP`.
#[derive(Clone, Copy)]
pub struct Moments {
    /// The first.
    pub first: u64,
    /// The last, if there are several.
    pub last: u64,
    /// From one to the next, in milliseconds.
    pub step: u64,
}

impl Moments {
    /// How many moments they are.
    pub(crate) fn count(self) -> u64 {
        match self.last.saturating_sub(self.first).checked_div(self.step) {
            Some(steps) => steps.saturating_add(1),
            None => 1,
        }
    }

    /// One of them, from 0 on.
    pub(crate) fn at(self, number: u64) -> u64 {
        self.first.saturating_add(self.step.saturating_mul(number))
    }
}

/// Moments, if a word spells some.
pub(crate) fn moments_of(word: &str) -> Option<Moments> {
    let Some((first, rest)) = word.split_once("..") else {
        let first = word.parse::<u64>().ok()?;
        return Some(Moments {
            first,
            last: first,
            step: 0,
        });
    };
    let (last, step) = rest.split_once('/')?;
    Some(Moments {
        first: first.parse::<u64>().ok()?,
        last: last.parse::<u64>().ok()?,
        step: step.parse::<u64>().ok()?,
    })
}
