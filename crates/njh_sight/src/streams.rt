//! What the streams of a line were about when it was last looked at.

ghost use Rattle.std.specs.Prelude.{◌≡◌, ℕ, ◌<◌, ◌↔◌, ◌&&◌, not, false, None, get_or, length, replicate, IsTrue};
ghost use Rattle.std.specs.Prelude.{IfSome};
ghost use Rattle.njh_sight.specs.Telling.{coming_at, ended_at, going_at};
ghost use Rattle.njh_sight.specs.Tally.{answers_counted, no_tally};
ghost use Rattle.njh_sight.specs.code.Streams.{first_gone, is_gone, near_after};

use crate::tally::{Answering, FileRefusal, Tally};
use njh_log::FileLine;
use njh_spool::FileId;
use njh_stream::{Receiver, Sender};

/// How many streams a line has each way: SYSIN 1 to 4, SYSOUT 1 to 4.
pub const STREAMS: usize = 8;

/// What a line's streams were about, and what was counted of that.
#[derive(Clone, Copy, Drop)]
pub struct Streams {
    /// The files that came in.
    pub coming: [Option<FileId>; STREAMS],
    /// The files that went out.
    pub going: [Option<FileId>; STREAMS],
    /// Of each that went out: whether its end was sent.
    pub ended: [bool; STREAMS],
    /// Of each that went out: what is told of it.
    pub lines: [Option<FileLine>; STREAMS],
    /// What was counted of the line's files and commands.
    pub tally: Tally,
}

impl Streams {
    /// Streams about nothing.
    pub fn idle() -> Streams
        ensures { result ≡ record {
          coming = replicate 8 None;
          going = replicate 8 None;
          ended = replicate 8 false;
          lines = replicate 8 None;
          tally = no_tally;
        } }
    {
        Streams {
            coming: [None; STREAMS],
            going: [None; STREAMS],
            ended: [false; STREAMS],
            lines: [None; STREAMS],
            tally: Tally::none(),
        }
    }

    /// A block went out that didn't before, on a line with so many streams of each kind: counts the
    /// requests for files that it refuses, for want of room if this is why there is none.
    pub fn note_block(&mut self, frame: &[u8], streams: u8, why: FileRefusal)
        ensures { self.new ≡ record self.old {
          tally =
              answers_counted 32 frame.now self.old.coming (record { streams = streams; why = why }) self.old.tally;
        } }
    {
        let known = Answering { streams, why };
        self.tally.note_block(frame, &self.coming, known);
    }
}

/// The place of the first stream that was about a file and isn't about it any more.
pub fn first_gone(was: &[Option<FileId>], now: &[Option<FileId>]) -> Option<usize>
    ensures place { result ≡ first_gone was.now now.now }
    ensures within { IfSome result (λ place. place < length was.now) }
{
    was.iter()
        .zip(now.iter())
        .position(|(was, now)| is_gone(*was, *now))
}

/// Whether a stream was about a file and isn't about it any more.
fn is_gone(was: Option<FileId>, now: Option<FileId>) -> bool
    ensures { result ≡ is_gone (was, now) }
{
    match was {
        Some(was) => match now {
            Some(now) => was != now,
            None => true,
        },
        None => false,
    }
}

/// The files that come in on a line's streams.
pub fn files_coming(receivers: &[Receiver]) -> [Option<FileId>; STREAMS]
    ensures { (place : ℕ) → place < 8 → get_or result place None ≡ coming_at receivers.now place }
{
    let mut files = [None; STREAMS];
    for place in 0..STREAMS {
        files[place] = coming_at(receivers, place);
    }
    files
}

/// The file that comes in on the stream of a place.
pub(crate) fn coming_at(receivers: &[Receiver], place: usize) -> Option<FileId>
    ensures { result ≡ coming_at receivers.now place }
{
    match receivers.get(place) {
        Some(Receiver::Open { file, .. }) => Some(*file),
        Some(_) => None,
        None => None,
    }
}

/// The files that go out on a line's streams.
pub fn files_going(senders: &[Sender]) -> [Option<FileId>; STREAMS]
    ensures { (place : ℕ) → place < 8 → get_or result place None ≡ going_at senders.now place }
{
    let mut files = [None; STREAMS];
    for place in 0..STREAMS {
        files[place] = going_at(senders, place);
    }
    files
}

/// The file that goes out on the stream of a place.
fn going_at(senders: &[Sender], place: usize) -> Option<FileId>
    ensures { result ≡ going_at senders.now place }
{
    match senders.get(place) {
        Some(sender) => sender.file(),
        None => None,
    }
}

/// On which of a line's streams the end of a file was sent, and the peer hasn't said yet that it
/// has it.
pub fn ended(senders: &[Sender]) -> [bool; STREAMS] {
    let mut ended = [false; STREAMS];
    for place in 0..STREAMS {
        ended[place] = ended_at(senders, place);
    }
    ended
}

/// Whether the end of a file was sent on the stream of a place.
fn ended_at(senders: &[Sender], place: usize) -> bool
    ensures { result ≡ ended_at senders.now place }
{
    match senders.get(place) {
        Some(Sender::EofSent(_)) => true,
        Some(_) => false,
        None => false,
    }
}

/// Notes whether a customer counts as near its quota. Answers whether it has come near it since.
pub fn has_come_near(near: &mut bool, used: u32, quota: u32) -> bool
    ensures noted { near.new ≡ near_after near.old used quota }
    ensures told { result ≡ (not near.old && near_after near.old used quota) }
{
    let was = *near;
    *near = near_after(was, used, quota);
    !was && *near
}

/// Whether a customer counts as near its quota, which it begins to be at nine tenths of it and
/// ceases to be below eight.
pub fn near_after(was: bool, used: u32, quota: u32) -> bool
    ensures { result ≡ near_after was used quota }
{
    let tenths = if was { 8 } else { 9 };
    tenths * u64::from(quota) <= 10 * u64::from(used)
}
