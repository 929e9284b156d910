//! A customer's lines, and what waits on them.

ghost use Rattle.std.specs.Prelude.{◌≡◌, ◌<◌, ◌≤◌, ◌++◌, ◌∷◌, [], IfOk, length, map};
ghost use Rattle.njh_block.specs.Blocks.{stream_of};
ghost use Rattle.njh_block.specs.declared.answer.Answer.{Answer as WaitingAnswer};
ghost use Rattle.njh_nmr.specs.Nodal.{notice_record};
ghost use Rattle.njh_table.specs.TableFile.{entry_of};
ghost use Rattle.njh_command.specs.Commands.{without_file};
ghost use Rattle.njh_customer.specs.Acting.{without_sending, with_senders_by};
ghost use Rattle.njh_customer.specs.Alone.{replied_to, session_closed};
ghost use Rattle.njh_line.specs.Laws.{is_up};
ghost use Rattle.njh_line.specs.Lines.{has_message_room};
ghost use Rattle.njh_customer.specs.CustomerSteps.{ChangesFiles, ChangesFilesBy, IsReady, IsThere};
ghost use Rattle.njh_customer.specs.CustomerSteps.{customer_of};
ghost use Rattle.njh_customer.specs.Customer.{line_at, with_notice, on_line};
ghost use Rattle.njh_customer.specs.Waiting.{all_said, with_answer_on, goes, with_notice_to, with_message_to};
ghost use Rattle.njh_customer.specs.Waiting.{with_waiting};
ghost use Rattle.njh_customer.specs.Orders.{has_room_by};

use crate::customer_line::CustomerLine;
use crate::frame_buffer::FrameBuffer;
use crate::shared::Shared;
use njh_block::{Answer, Rcb, Stream};
use njh_command::{Replies, Senders};
use njh_ebcdic::{FIELD, Name};
use njh_line::LineReply;
use njh_nmr::{LONGEST_MESSAGE, Nmr};
use njh_record::Record;
use njh_spool::FileId;
use njh_stream::{Notice, Receiver};
use njh_table::{LineId, NamedCustomer, Route};
use std::alloc::{AllocError, Global};
use std::marker::Model;

/// The lines of one customer, each with its streams.
#[derive(Drop)]
pub(crate) struct CustomerLines {
    lines: Vec<CustomerLine>,
}

impl Model for CustomerLines {
    ghost use Rattle.std.specs.Prelude.{List};
    ghost use Rattle.njh_customer.specs.Customer as customer;

    ghost Value = { List customer.CustomerLine };

    ghost view = { λ x. x.lines.items };
}

impl CustomerLines {
    ghost use Rattle.std.specs.Prelude.{slice_set};
    ghost use Rattle.std.specs.Borrow.{Lends, sem};
    ghost use Rattle.njh_customer.specs.contracts.customer_line.CustomerLine.{the_row as line_row};
    ghost use Rattle.njh_customer.specs.contracts.customer_lines.CustomerLines.{the_row};

    /// No line yet.
    pub(crate) fn new(alloc: Global) -> Self
        ensures { result ≡ [] }
    {
        CustomerLines {
            lines: Vec::new(alloc),
        }
    }

    /// Adds a line after the others. Want of memory is the only refusal.
    pub(crate) fn push(&mut self, line: CustomerLine) -> Result<(), AllocError>
        ensures { IfOk result (λ done. self.new ≡ self.old ++ line ∷ []) }
    {
        self.lines.push(line)?;
        Ok(())
    }

    /// How many lines there are.
    pub(crate) fn len(&self) -> usize
        ensures { result ≡ length self.now }
    {
        self.lines.len()
    }

    /// A line by its number.
    pub(crate) fn line(&self, line: u16) -> &CustomerLine
        requires { line < length self.now }
        ensures { result.now ≡ line_at line self.now }
    {
        &self.lines[usize::from(line)]
    }

    /// A line by its number, to be changed.
    pub(crate) fn line_mut(&mut self, line: u16) -> &mut CustomerLine
        requires { line < length self.old }
        ensures* written { sem 𝓛 (Lends the_row line_row self.entry result (slice_set self.old line)) }
        ensures value { result.now ≡ line_at line self.old }
    {
        &mut self.lines[usize::from(line)]
    }

    /// Whether a line's state is up.
    pub(crate) fn is_up(&self, line: u16) -> bool
        requires { line < length self.now }
        ensures { result ≡ is_up (line_at line self.now).state.session.phase }
    {
        self.lines[usize::from(line)].is_up()
    }

    /// The stream of a line that an RCB names.
    pub(crate) fn stream(&self, line: u16, rcb: Rcb) -> Option<Stream>
        requires { line < length self.now }
        ensures { result ≡ stream_of (line_at line self.now).streams rcb.byte }
    {
        rcb.stream(self.lines[usize::from(line)].streams())
    }

    /// Sends what a verdict asks for.
    pub(crate) fn send_reply(
        &mut self,
        id: LineId,
        reply: LineReply,
        shared: &mut Shared,
        out: &mut FrameBuffer,
    )
        requires ready { IsReady id shared.old self.old }
        ensures after { ChangesFiles id.customer shared.old shared.new self.new
            (replied_to id.number reply (customer_of id.customer shared.old self.old)).after }
        ensures frame { out.new ≡ (replied_to id.number reply (customer_of id.customer shared.old self.old)).frame }
    {
        self.lines[usize::from(id.number)].send_reply(id, reply, shared, out);
    }

    /// The end of a line's session, by the marks as they are: what becomes of its streams' files,
    /// and its answers are gone.
    pub(crate) fn end_session(&mut self, id: LineId, shared: &mut Shared)
        requires there { IsThere id shared.old self.old }
        ensures { ChangesFilesBy id shared.old self.old shared.new self.new (session_closed id.number) }
    {
        self.lines[usize::from(id.number)].end_session(id, &shared.tables, &mut shared.spool);
    }

    /// Lets an answer to the peer of a line wait, if there is one.
    pub(crate) fn push_answer(&mut self, line: u16, answer: Option<Answer>)
        requires { line < length self.old }
        ensures { self.new ≡ with_answer_on line answer self.old }
    {
        if let Some(answer) = answer {
            self.lines[usize::from(line)].push_answer(answer);
        }
    }

    /// Lets a nodal message wait on a line, if the line is there.
    pub(crate) fn push_message(&mut self, line: u16, message: Record)
        ensures { self.new ≡ with_waiting line message.items self.old }
    {
        if usize::from(line) < self.lines.len() {
            self.lines[usize::from(line)].push_message(message);
        }
    }

    /// Counts a nodal message that came on a line. Nothing else changes.
    pub(crate) fn count_message(&mut self, line: u16)
        requires { line < length self.old }
        ensures { self.new ≡ self.old }
    {
        self.lines[usize::from(line)].count_message();
    }

    /// Whether the line that a route is has room for a nodal message. One that goes by no line needs
    /// none.
    pub(crate) fn has_room_by(&self, route: Route) -> bool
        ensures { result ≡ has_room_by route self.now }
    {
        match route {
            Route::Line(line) => self.has_message_room(line),
            Route::Here | Route::Unknown => true,
        }
    }

    /// Whether a line has room for a nodal message. One that isn't there counts as having some.
    fn has_message_room(&self, line: u16) -> bool
        ensures { result ≡ has_message_room (line_at line self.now).state }
    {
        if usize::from(line) >= self.lines.len() {
            return true;
        }
        self.lines[usize::from(line)].has_message_room()
    }

    /// A nodal message goes by a route, and is dropped if that is no line.
    fn send(&mut self, route: Route, message: Record)
        ensures { self.new ≡ goes route message.items self.old }
    {
        match route {
            Route::Line(line) => self.push_message(line, message),
            Route::Here | Route::Unknown => {}
        }
    }

    /// The hub says something to a user at a node.
    pub(crate) fn say(
        &mut self,
        customer: &NamedCustomer,
        node: Name,
        user: [u8; FIELD],
        text: &[u8],
    )
        requires { length text.now ≤ LONGEST_MESSAGE }
        ensures { self.new ≡ with_message_to (entry_of customer.now)
            (record { node = node; user = user }) text.now self.old }
    {
        self.say_by(customer.route(node), customer.hub(), node, user, text);
    }

    /// The hub says something to a user at a node, by the node's route.
    fn say_by(&mut self, route: Route, hub: Name, node: Name, user: [u8; FIELD], text: &[u8])
        requires { length text.now ≤ LONGEST_MESSAGE }
        ensures { self.new ≡ goes route (notice_record hub (record { node = node; user = user }) text.now) self.old }
    {
        let mut record = Record::new();
        Nmr::write_notice(hub, node, user, text, &mut record);
        self.send(route, record);
    }

    /// The hub replies to a user's command.
    pub(crate) fn say_all(
        &mut self,
        customer: &NamedCustomer,
        node: Name,
        user: [u8; FIELD],
        replies: &Replies,
    )
        ensures { self.new ≡ all_said (entry_of customer.now)
            (record { node = node; user = user }) replies.now self.old }
    {
        let route = customer.route(node);
        let hub = customer.hub();
        for text in replies.texts() {
            self.say_by(route, hub, node, user, text);
        }
    }

    /// Keeps what the owner of a file that came on a stream of a line was told, if the line is
    /// there.
    pub(crate) fn note(
        &mut self,
        line: u16,
        stream: Stream,
        receiver: Receiver,
        notice: Option<Notice>,
    )
        ensures { self.new ≡ on_line line (with_notice stream receiver notice) self.old }
    {
        if usize::from(line) < self.lines.len() {
            self.lines[usize::from(line)].note(stream, receiver, notice);
        }
    }

    /// The owner of a file is told, if there is something to say.
    pub(crate) fn notify(&mut self, customer: &NamedCustomer, notice: &Option<Notice>)
        ensures { self.new ≡ with_notice_to (entry_of customer.now) notice.now self.old }
    {
        if let Some(notice) = notice {
            self.say(customer, notice.node, notice.user, &notice.text);
        }
    }
}

impl Senders for CustomerLines {
    ghost use Rattle.std.specs.Prelude.{map};
    ghost use Rattle.njh_customer.specs.Acting.{with_senders_by};

    ghost each = { λ lines f. map (with_senders_by f) lines };

    fn abort(&mut self, file: FileId) {
        for line in 0..self.lines.len() {
            self.lines[line].give_up(file);
        }
    }
}
