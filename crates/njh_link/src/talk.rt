//! What a line and its peer have said, and what becomes of a frame that the line writes.

ghost use Rattle.std.specs.Prelude.{◌≡◌, IfSome, option_map};
ghost use Rattle.njh_bisync.specs.LentFrames.{received_of};
ghost use Rattle.njh_tcp.specs.Carried.{IsShort};
ghost use Rattle.njh_tcp.specs.LentFrames.{carried_of};
ghost use Rattle.njh_bisync.specs.Frames as line;

use njh_bisync::Frame;
use njh_tcp::TcpFrame;

/// What was said on a link, as far as it matters for what is said next.
#[derive(Clone, Copy, Debug, PartialEq, Eq)]
pub struct Talk {
    /// Whether the line was given a call that it hasn't answered.
    pub enquired: bool,
    /// How many texts it was given that it hasn't answered: each frame that it writes answers one.
    pub unanswered: u64,
    /// Whether a call went out.
    pub called: bool,
    /// The BCB of the text that the line wrote last.
    pub bcb: Option<u8>,
    /// Whether the line is owed an Ack0.
    pub owed: bool,
}

impl Talk {
    ghost use Rattle.njh_link.specs.Talks.{breaks, first_talk, is_bcb, let_out};
    ghost use Rattle.njh_link.specs.Talks.{talk_acknowledged, talk_given, talk_written};

    /// Nothing was said.
    pub fn new() -> Talk
        ensures { result ≡ first_talk }
    {
        Talk {
            enquired: false,
            unanswered: 0,
            called: false,
            bcb: None,
            owed: false,
        }
    }

    /// The line is given a frame.
    pub fn give(&mut self, frame: TcpFrame<'_>)
        ensures { self.new ≡ talk_given (carried_of frame.entry) self.old }
    {
        match frame {
            TcpFrame::Text(_) => {
                self.unanswered = self.unanswered.saturating_add(1);
                self.owed = false;
            }
            TcpFrame::Enquiry => self.enquired = true,
            TcpFrame::Ack0 => {}
        }
    }

    /// The line is given the Ack0 that it is owed.
    pub fn acknowledge(&mut self)
        ensures { self.new ≡ talk_acknowledged self.old }
    {
        self.owed = false;
    }

    /// What goes out of a frame that the line writes, if anything.
    pub fn let_out<'a>(&self, frame: Frame<'a>) -> Option<TcpFrame<'a>>
        requires { line.IsShort (received_of frame) }
        ensures out { option_map carried_of result ≡ let_out self.now (received_of frame.entry) }
        ensures short { IfSome result (λ out. IsShort (carried_of out)) }
    {
        match frame {
            Frame::Text(text) => self.let_out_text(text),
            Frame::Enquiry if !self.called => Some(TcpFrame::Enquiry),
            Frame::Ack0 if self.enquired => Some(TcpFrame::Ack0),
            Frame::Enquiry | Frame::Ack0 | Frame::Nak | Frame::Eot | Frame::Spoiled => None,
        }
    }

    /// A text goes out, unless it is the one before once more.
    fn let_out_text<'a>(&self, text: &'a [u8]) -> Option<TcpFrame<'a>>
        ensures { option_map carried_of result ≡ let_out self.now (line.Text text.entry.now) }
    {
        match text {
            [bcb, ..] if self.bcb != Some(*bcb) => Some(TcpFrame::Text(text)),
            _ => None,
        }
    }

    /// Whether a frame that the line writes ends the link.
    pub fn breaks(&self, frame: Frame<'_>) -> bool
        ensures { result ≡ breaks self.now (received_of frame.entry) }
    {
        match frame {
            Frame::Nak => self.unanswered > 0,
            Frame::Enquiry | Frame::Ack0 | Frame::Eot | Frame::Text(_) | Frame::Spoiled => false,
        }
    }

    /// The line wrote a frame.
    pub fn write(&mut self, frame: Frame<'_>)
        ensures { self.new ≡ talk_written (received_of frame.entry) self.old }
    {
        match frame {
            Frame::Text(text) => {
                self.bcb = text.first().copied();
                self.owed = true;
            }
            Frame::Enquiry => self.called = true,
            Frame::Ack0 if !self.enquired => self.owed = true,
            Frame::Ack0 | Frame::Nak | Frame::Eot | Frame::Spoiled => {}
        }
        self.enquired = false;
        self.unanswered = self.unanswered.saturating_sub(1);
    }
}
