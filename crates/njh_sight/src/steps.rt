//! What is noted of a line at each step on it, and counted.

ghost use Rattle.std.specs.Prelude.{◌≡◌};
ghost use Rattle.njh_sight.specs.Steps.{byte_at, count_after, is_nak, is_new_bcb, is_new_block, is_repeat, is_text};
ghost use Rattle.njh_sight.specs.Steps.{no_steps, sent_frame, steps_after};

use crate::ending::is_up;
use njh_hub::SessionView;

/// NAK (IBM GA27-3004).
const NAK: u8 = 0x3D;

/// DLE, the first byte of a text.
const DLE: u8 = 0x10;

/// STX, the second one.
const STX: u8 = 0x02;

/// What the hub sent at a step.
#[derive(Clone, Copy, Debug, Drop, PartialEq, Eq)]
pub enum SentFrame {
    /// No frame.
    Nothing,
    /// A NAK.
    Nak,
    /// A text.
    Text,
    /// Another frame.
    Other,
}

/// What was noted of a line at the last step on it, and counted over all.
#[derive(Clone, Copy, Drop)]
pub struct Steps {
    /// Whether its session was up then.
    pub is_up: bool,
    /// The count of the hub's next block then, modulo 16.
    pub next_count: u8,
    /// The BCB of the last block of the peer's that was acted on in the session then, those whose
    /// count isn't checked aside.
    pub last_bcb: Option<u8>,
    /// What the hub sent.
    pub sent: SentFrame,
    /// How many NAKs the hub sent; the count stays at the greatest `u64`.
    pub naks: u64,
    /// How many blocks it sent again; likewise.
    pub repeats: u64,
    /// How many blocks of the peer's were acted on; likewise.
    pub blocks_in: u64,
    /// How many blocks the hub sent, those aside that it sent again; likewise.
    pub blocks_out: u64,
}

impl Steps {
    /// Those of a line on which there was none.
    pub fn none() -> Steps
        ensures { result ≡ no_steps }
    {
        Steps {
            is_up: false,
            next_count: 0,
            last_bcb: None,
            sent: SentFrame::Nothing,
            naks: 0,
            repeats: 0,
            blocks_in: 0,
            blocks_out: 0,
        }
    }

    /// A step left the session so, and the hub sent this frame, which is empty if it sent none.
    /// Answers whether it is a block that wasn't sent before.
    pub fn note(&mut self, session: &SessionView, frame: &[u8]) -> bool
        ensures noted { self.new ≡ steps_after self.old session.now frame.now }
        ensures block { result ≡ is_new_block self.old session.now (sent_frame frame.now) }
    {
        let sent = sent_frame(frame);
        let is_repeat = self.is_repeat(session, sent);
        let is_new = is_text(sent) && !is_repeat;
        *self = Steps {
            is_up: is_up(session.phase),
            next_count: session.next_count,
            last_bcb: session.last_bcb,
            sent,
            naks: count_after(self.naks, is_nak(sent)),
            repeats: count_after(self.repeats, is_repeat),
            blocks_in: count_after(self.blocks_in, is_new_bcb(self.last_bcb, session.last_bcb)),
            blocks_out: count_after(self.blocks_out, is_new),
        };
        is_new
    }

    /// Whether a block was sent again.
    fn is_repeat(&self, session: &SessionView, sent: SentFrame) -> bool
        ensures { result ≡ is_repeat self.now session.now sent }
    {
        is_text(sent)
            && ((self.is_up && is_up(session.phase)) && self.next_count == session.next_count)
    }
}

/// Whether a further block was acted on: a session begins with no BCB.
fn is_new_bcb(last: Option<u8>, bcb: Option<u8>) -> bool
    ensures { result ≡ is_new_bcb last bcb }
{
    match (last, bcb) {
        (None, None) => false,
        (Some(_), None) => false,
        (None, Some(_)) => true,
        (Some(last), Some(bcb)) => last != bcb,
    }
}

/// One more, where there is one.
fn count_after(count: u64, more: bool) -> u64
    ensures { result ≡ count_after count more }
{
    count.saturating_add(u64::from(more))
}

/// What a frame is that the hub sent.
fn sent_frame(frame: &[u8]) -> SentFrame
    ensures { result ≡ sent_frame frame.now }
{
    if frame.len() == 0 {
        SentFrame::Nothing
    } else if frame.len() == 1 && byte_at(frame, 0) == NAK {
        SentFrame::Nak
    } else if byte_at(frame, 0) == DLE && byte_at(frame, 1) == STX {
        SentFrame::Text
    } else {
        SentFrame::Other
    }
}

/// The byte of a frame at a place; 0 behind its end.
pub(crate) fn byte_at(frame: &[u8], place: usize) -> u8
    ensures { result ≡ byte_at frame.now place }
{
    match frame.get(place) {
        Some(byte) => *byte,
        None => 0,
    }
}

fn is_nak(sent: SentFrame) -> bool
    ensures { result ≡ is_nak sent }
{
    matches!(sent, SentFrame::Nak)
}

fn is_text(sent: SentFrame) -> bool
    ensures { result ≡ is_text sent }
{
    matches!(sent, SentFrame::Text)
}
