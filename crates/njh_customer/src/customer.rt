//! What a frame or a signal on one of a customer's lines does. The frame that answers it is put
//! into `out`, which is empty then if none does.

ghost use Rattle.std.specs.Prelude.{◌≡◌, ◌<◌, ◌&&◌, length, not};
ghost use Rattle.std.specs.Option.{option_map};
ghost use Rattle.njh_customer.specs.Feeding.{acted_on};
ghost use Rattle.njh_bisync.specs.LentFrames.{received_of};
ghost use Rattle.njh_line.specs.LineTable.{input_value};
ghost use Rattle.njh_table.specs.TableFile.{HasLine, customer_at, entry_of};
ghost use Rattle.njh_customer.specs.Alone as alone;
ghost use Rattle.njh_customer.specs.CustomerSteps.{KeepsOtherEntries};

use crate::customer_lines::CustomerLines;
use crate::frame_buffer::FrameBuffer;
use crate::shared::Shared;
use crate::signal::Signal;
use njh_bisync::Frame;
use njh_block::Block;
use njh_line::{Input, SessionEnd, Verdict};
use njh_table::{LineId, Tables};

impl Shared {
    ghost use Rattle.njh_customer.specs.Acting.{acted_where};
    ghost use Rattle.njh_customer.specs.CustomerSteps.{ChangesMarksBy, IsReady, IsThere, LeavesReadyBy};
    ghost use Rattle.njh_customer.specs.CustomerSteps.{RecordsActBy, StepSendsBy, customer_of};

    /// A frame comes on a line, if one is whole. The line is ready for more.
    #[tactic(auto, unfolding(crate::specs::Alone::after_frame))]
    pub(crate) fn take_frame(
        &mut self,
        id: LineId,
        frame: Option<Frame<'_>>,
        lines: &mut CustomerLines,
        out: &mut FrameBuffer,
    )
        requires ready { IsReady id self.old lines.old }
        ensures { LeavesReadyBy id self.old lines.old self.new lines.new out.new
            (acted_on id.number (option_map received_of frame.entry)) }
    {
        match frame {
            None => out.clear(),
            Some(Frame::Enquiry) => self.take_input(id, &Input::Enquiry, lines, out),
            Some(Frame::Ack0) => self.take_input(id, &Input::Ack0, lines, out),
            Some(Frame::Nak) => self.take_input(id, &Input::Nak, lines, out),
            Some(Frame::Eot) => self.take_input(id, &Input::Eot, lines, out),
            Some(Frame::Spoiled) => self.take_input(id, &Input::Spoiled, lines, out),
            Some(Frame::Text(text)) => match Block::read(text) {
                Ok(read) => self.take_block(id, read, lines, out),
                Err(_) => self.take_input(id, &Input::Bad, lines, out),
            },
        }
    }

    /// A signal comes on a line. The line is ready for more.
    #[tactic(auto, unfolding(crate::specs::Alone::after_signal))]
    pub(crate) fn take_signal(
        &mut self,
        id: LineId,
        signal: Signal,
        lines: &mut CustomerLines,
        out: &mut FrameBuffer,
    )
        requires ready { IsReady id self.old lines.old }
        ensures { LeavesReadyBy id self.old lines.old self.new lines.new out.new
            (alone.after_signal id.number signal) }
    {
        // Lent out of an `Option`: the borrow checker's proof of a lent `Input` must have met that
        // type.
        let input = Some(signal_input(signal));
        if let Some(input) = &input {
            self.take_input(id, input, lines, out);
        }
    }

    /// What comes to a line but a good block.
    fn take_input(
        &mut self,
        id: LineId,
        input: &Input<'_>,
        lines: &mut CustomerLines,
        out: &mut FrameBuffer,
    )
        requires ready { IsReady id self.old lines.old }
        ensures { LeavesReadyBy id self.old lines.old self.new lines.new out.new
            (alone.after_line_input id.number (input_value input.now)) }
    {
        let verdict = self.accept(id, input, lines);
        self.carry_out(id, verdict, lines, out);
    }

    /// A good block comes on a line: its records act if the line table says so, and then it is
    /// answered.
    fn take_block(
        &mut self,
        id: LineId,
        read: Block<'_>,
        lines: &mut CustomerLines,
        out: &mut FrameBuffer,
    )
        requires ready { IsReady id self.old lines.old }
        ensures { LeavesReadyBy id self.old lines.old self.new lines.new out.new
            (alone.after_block id.number read.entry) }
    {
        let input = Input::Block {
            bcb: read.bcb(),
            fcs: read.fcs(),
            first: read.first_general(),
        };
        let verdict = self.accept(id, &input, lines);
        match self.act_where(verdict.acts, id, read, lines) {
            Some(end) => {
                self.end_session(id, end, lines);
                out.clear();
            }
            None => self.carry_out(id, verdict, lines, out),
        }
    }

    /// The line table judges what comes to a line. A line that goes up by it counts as up from then
    /// on.
    fn accept(&mut self, id: LineId, input: &Input<'_>, lines: &mut CustomerLines) -> Verdict
        requires ready { IsReady id self.old lines.old }
        ensures verdict { result
            ≡ alone.verdict_on id.number (input_value input.now) (customer_of id.customer self.old lines.old) }
        ensures after { ChangesMarksBy id self.old lines.old self.new lines.new
            (alone.accepted_on id.number (input_value input.now)) }
        ensures ready { IsReady id self.new lines.new }
    {
        let was_up = lines.is_up(id.number);
        let verdict = lines.line_mut(id.number).accept(input);
        let is_up = lines.is_up(id.number);
        raise(id, goes_up(was_up, is_up), &mut self.tables);
        verdict
    }

    /// The records of a block act if they may. Tells the end that one made of the session.
    fn act_where(
        &mut self,
        acts: bool,
        id: LineId,
        read: Block<'_>,
        lines: &mut CustomerLines,
    ) -> Option<SessionEnd>
        requires ready { IsReady id self.old lines.old }
        ensures { RecordsActBy id self.old lines.old self.new lines.new result
            (acted_where acts id.number read.entry.items) }
    {
        if acts && !read.is_empty() {
            self.all_act(id, read, lines)
        } else {
            None
        }
    }

    /// Sends what a verdict asks for, and then ends the session if it says so.
    fn carry_out(
        &mut self,
        id: LineId,
        verdict: Verdict,
        lines: &mut CustomerLines,
        out: &mut FrameBuffer,
    )
        requires ready { IsReady id self.old lines.old }
        ensures { StepSendsBy id self.old lines.old self.new lines.new out.new
            (alone.carried_out id.number verdict) }
    {
        lines.send_reply(id, verdict.reply, self, out);
        if verdict.ended {
            self.close_session(id, lines);
        }
    }

    /// A record ended the session so.
    fn end_session(&mut self, id: LineId, end: SessionEnd, lines: &mut CustomerLines)
        requires ready { IsReady id self.old lines.old }
        ensures { ChangesMarksBy id self.old lines.old self.new lines.new
            (alone.session_ended end id.number) }
    {
        lines.line_mut(id.number).end(end);
        self.close_session(id, lines);
    }

    /// The end of a line's session, and after it the line counts as not up.
    fn close_session(&mut self, id: LineId, lines: &mut CustomerLines)
        requires there { IsThere id self.old lines.old }
        ensures { ChangesMarksBy id self.old lines.old self.new lines.new
            (alone.session_over id.number) }
    {
        lines.end_session(id, self);
        self.tables.set_up(id, false);
    }
}

/// A signal, as it comes to its line.
fn signal_input(signal: Signal) -> Input<'static>
    ensures { input_value result ≡ alone.signal_input signal }
{
    match signal {
        Signal::Tick => Input::Tick,
        Signal::Garbled => Input::Garbled,
        Signal::Lost => Input::Lost,
    }
}

/// Whether a line goes up that was up, or not, and is so now.
fn goes_up(was_up: bool, is_up: bool) -> bool
    ensures { result ≡ (is_up && not was_up) }
{
    is_up && !was_up
}

/// Marks a line that goes up.
fn raise(id: LineId, goes_up: bool, tables: &mut Tables)
    requires known { id.customer < length tables.old.customers }
    requires line { HasLine tables.old id }
    ensures entry { entry_of (customer_at tables.new id.customer)
        ≡ alone.with_raised_line goes_up id.number (entry_of (customer_at tables.old id.customer)) }
    ensures entries { KeepsOtherEntries id.customer tables.old tables.new }
{
    if goes_up {
        tables.set_up(id, true);
    }
}
