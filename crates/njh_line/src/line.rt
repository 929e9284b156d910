//! A line.

ghost use Rattle.std.specs.Prelude.{◌≡◌, ◌≤◌, length, vec_capacity};

use crate::config::Config;
use crate::counts::COUNTS;
use crate::ending::SessionEnd;
use crate::input::Input;
use crate::message_counts::MessageCounts;
use crate::sent::Sent;
use crate::session::Session;
use crate::table::accepted;
use crate::verdict::Verdict;
use circular_buffer::HeapCircularBuffer;
use njh_bisync::LONGEST_FRAME;
use njh_block::Answer;
use njh_record::Record;
use std::alloc::{AllocError, Global};
use std::marker::Model;

/// How many answers may wait.
const ANSWERS: usize = 32;

/// How many nodal messages may wait.
const MESSAGES: usize = 64;

/// A line: its session, the last frame that it sent, NAKs aside, and what waits to be sent. All its
/// memory is reserved by `new`.
#[derive(Drop)]
pub struct Line {
    config: Config,
    session: Session,
    last: Vec<u8>,
    answers: HeapCircularBuffer<Answer>,
    messages: HeapCircularBuffer<Record>,
    /// For the line's operator. No contract sees it.
    counts: MessageCounts,
}

impl Model for Line {
    ghost use Rattle.std.specs.Prelude.{◌≡◌, ◌≤◌, length, map, vec_capacity};
    ghost use Rattle.njh_bisync.specs.Limits.{longest_frame};
    ghost use Rattle.njh_line.specs.Sessions.{IsSession, IsConfig};
    ghost use Rattle.njh_line.specs.Lines.{LineState, max_answers, max_messages};

    ghost Value = { LineState };

    ghost view = { λ line. record {
      config = line.config;
      session = line.session;
      last = line.last.items;
      answers = line.answers.items;
      messages = map (λ m. m.items) line.messages.items;
    } };

    ghost invariant = { λ line.
        (line.answers.capacity ≡ max_answers) × (line.messages.capacity ≡ max_messages)
        × (longest_frame ≤ vec_capacity line.last) × (length line.last.items ≤ longest_frame)
        × IsSession line.session × IsConfig line.config };
}

impl Line {
    ghost use Rattle.std.specs.Prelude.{◌≡◌, ◌+◌, ◌≤◌, IfOk, length, option_map, slice_get};
    ghost use Rattle.njh_bisync.specs.Limits.{longest_frame};
    ghost use Rattle.njh_line.specs.Sessions.{IsConfig, IsSession};
    ghost use Rattle.njh_line.specs.LineTable.{table_outcome, input_value};
    ghost use Rattle.njh_line.specs.Lines.{IsShort, after_end, after_input, after_sending, fresh_line, sent_value};
    ghost use Rattle.njh_line.specs.Lines.{has_message_room};
    ghost use Rattle.njh_line.specs.Lines.{with_answer, with_message, without_answer, without_answers, without_message};

    /// A line that is down, with room for all that may wait and for the longest frame. Want of
    /// memory is the only refusal, and no other call takes any.
    pub fn new(alloc: Global, config: Config) -> Result<Line, AllocError>
        requires { IsConfig config }
        ensures { IfOk result (λ line. line ≡ fresh_line config) }
    {
        Ok(Line {
            config,
            session: Session::fresh(),
            last: Vec::with_capacity(alloc, LONGEST_FRAME)?,
            answers: HeapCircularBuffer::with_capacity(alloc, ANSWERS)?,
            messages: HeapCircularBuffer::with_capacity(alloc, MESSAGES)?,
            counts: MessageCounts::none(),
        })
    }

    /// Decides by the line table what an input does. The hub then does what the verdict says, and
    /// tells by `sent` what it sent.
    pub fn accept(&mut self, input: &Input<'_>) -> Verdict
        ensures verdict { result ≡ (table_outcome self.old.config (input_value input.now) self.old.session).verdict }
        ensures line { self.new ≡ after_input (input_value input.now) self.old }
    {
        let outcome = accepted(&self.config, self.session, input);
        self.session = outcome.session;
        outcome.verdict
    }

    /// A record of a block ends the session so.
    pub fn end(&mut self, end: SessionEnd)
        ensures { self.new ≡ after_end end self.old }
    {
        self.session = self.session.ended(end);
    }

    /// Keeps what was sent: the turn, the hub's own count and function control sequence, and a
    /// frame byte for byte, since it may be sent again.
    pub fn sent(&mut self, sent: &Sent<'_>)
        requires { IsShort (sent_value sent.now) }
        ensures { self.new ≡ after_sending (sent_value sent.now) self.old }
    {
        match sent {
            Sent::Nothing => self.session.has_turn = true,
            Sent::Nak | Sent::Again => self.session.has_turn = false,
            Sent::Frame(frame) => {
                keep(&mut self.last, frame);
                self.session.has_turn = false;
            }
            Sent::Block { frame, fcs } => {
                keep(&mut self.last, frame);
                self.session.has_turn = false;
                self.session.own_fcs = *fcs;
                self.session.next_count = (self.session.next_count + 1) % COUNTS;
            }
        }
    }

    /// What the line was told.
    pub fn config(&self) -> Config
        ensures same { result ≡ self.now.config }
        ensures known { IsConfig result }
    {
        self.config
    }

    /// Its session.
    pub fn session(&self) -> Session
        ensures same { result ≡ self.now.session }
        ensures known { IsSession result }
    {
        self.session
    }

    /// The last transmission: the last frame that was sent and was no NAK; none at first.
    pub fn last(&self) -> &[u8]
        ensures same { result.now ≡ self.now.last }
        ensures short { length result.now ≤ longest_frame }
    {
        &self.last
    }

    /// Lets an answer wait behind the others, where fewer than 32 wait. Otherwise it is dropped.
    pub fn push_answer(&mut self, answer: Answer)
        ensures { self.new ≡ with_answer answer self.old }
    {
        let _has_room = self.answers.try_push_back(answer).is_ok();
    }

    /// The answer that waits longest.
    pub fn front_answer(&self) -> Option<Answer>
        ensures { result ≡ slice_get self.now.answers 0 }
    {
        self.answers.front().copied()
    }

    /// Takes the answer that waits longest.
    pub fn pop_answer(&mut self) -> Option<Answer>
        ensures front { result ≡ slice_get self.old.answers 0 }
        ensures line { self.new ≡ without_answer self.old }
    {
        self.answers.pop_front()
    }

    /// Drops all answers.
    pub fn clear_answers(&mut self)
        ensures { self.new ≡ without_answers self.old }
    {
        self.answers.clear();
    }

    /// Lets a nodal message wait behind the others, where fewer than 64 wait. Otherwise it is
    /// dropped, and counted.
    pub fn push_message(&mut self, message: Record)
        ensures { self.new ≡ with_message message.items self.old }
    {
        if self.messages.try_push_back(message).is_err() {
            self.counts.dropped = self.counts.dropped.saturating_add(1);
        }
    }

    /// Whether there is room for a nodal message: fewer than 64 wait.
    pub fn has_message_room(&self) -> bool
        ensures { result ≡ has_message_room self.now }
    {
        self.message_count() < MESSAGES
    }

    /// A message that waits, by its index from the one that waits longest; none past the last.
    pub fn message(&self, index: usize) -> Option<&Record>
        ensures { option_map (λ m. m.now.items) result ≡ slice_get self.now.messages index }
    {
        self.messages.get(index)
    }

    /// How many nodal messages wait.
    pub fn message_count(&self) -> usize
        ensures { result ≡ length self.now.messages }
    {
        self.messages.len()
    }

    /// Takes the message that waits longest away, where there is one: it went to the peer.
    pub fn pop_message(&mut self)
        ensures { self.new ≡ without_message self.old }
    {
        let waiting = self.messages.len();
        if waiting > 0 {
            self.messages.truncate_front(waiting - 1);
            self.counts.sent = self.counts.sent.saturating_add(1);
        }
    }

    /// Counts a nodal message that came from the peer. Nothing else changes.
    pub fn count_message(&mut self)
        ensures { self.new ≡ self.old }
    {
        self.counts.came = self.counts.came.saturating_add(1);
    }

    /// How many nodal messages came, went and were dropped, for the line's operator.
    pub fn message_counts(&self) -> MessageCounts {
        self.counts
    }
}

/// Puts a frame in place of the last one, in room that is there. Most frames are ACK0, of two
/// bytes.
fn keep(last: &mut Vec<u8>, frame: &[u8])
    requires { length frame.now ≤ vec_capacity last.old }
    ensures kept { last.new.items ≡ frame.now }
    ensures room { vec_capacity last.old ≤ vec_capacity last.new }
{
    last.clear();
    match frame {
        [first, second] => {
            last.push_reserved(*first);
            last.push_reserved(*second);
        }
        _ => last.extend_from_slice(frame).unwrap(),
    }
}
