//! A line with its streams.

ghost use Rattle.std.specs.Prelude.{◌≡◌, ◌≤◌, ◌<◌, IfOk, length, slice_get, slice_set};
ghost use Rattle.std.specs.Option.{option_map};
ghost use Rattle.njh_line.specs.Sessions.{IsConfig};
ghost use Rattle.njh_line.specs.LineTable.{table_outcome, input_value};
ghost use Rattle.njh_line.specs.Laws as laws;
ghost use Rattle.njh_line.specs.Lines as lines;
ghost use Rattle.njh_command.specs.Commands.{without_file};
ghost use Rattle.njh_customer.specs.Acting.{with_senders_by};
ghost use Rattle.njh_customer.specs.Alone.{with_idle_streams, spool_over};
ghost use Rattle.njh_spool.specs.Spools.{spool_at};
ghost use Rattle.njh_sched.specs.Tight.{own_fcs};
ghost use Rattle.njh_table.specs.TableFile.{customer_at, entry_of};
ghost use Rattle.njh_customer.specs.Having.{has_next};
ghost use Rattle.njh_customer.specs.Sending.{sending_of_next, sending_of_reply};
ghost use Rattle.njh_customer.specs.Customer.{idle_line, in_state, with_notice, receiver_at, with_receiver, sender_at};
ghost use Rattle.njh_customer.specs.Customer.{with_sender};
ghost use Rattle.njh_customer.specs.CustomerSteps.{LineSends};

use crate::frame_buffer::FrameBuffer;
use crate::sending::{
    begin_block, send_again, send_control, send_opening, send_sequence, send_written, tells_nothing,
};
use crate::shared::Shared;
use njh_block::{Answer, Fcs, Stream};
use njh_command::give_up;
use njh_line::{
    Config, Input, Line, LineReply, MessageCounts, Phase, Session, SessionEnd, Verdict,
};
use njh_record::Record;
use njh_sched::{Outgoing, fill, has_next, own_fcs};
use njh_spool::{FileId, Spool};
use njh_stream::{Notice, Receiver, Sender, end_receivers, end_senders, retry_refused};
use njh_table::{LineId, Tables};
use std::alloc::{AllocError, Global};
use std::marker::Model;

/// A line of a customer, with its streams.
#[derive(Drop)]
pub(crate) struct CustomerLine {
    /// Its session, and what waits to be sent.
    line: Line,
    /// How many streams of each kind the peer may use.
    streams: u8,
    /// The streams to the hub: SYSIN 1 to 4, SYSOUT 1 to 4.
    receivers: [Receiver; 8],
    /// On each of these, what the owner of the file that was refused last was told: none after
    /// another file opens.
    notices: [Option<Notice>; 8],
    /// The streams from the hub.
    senders: [Sender; 8],
    /// The stream last served.
    served: Stream,
}

impl Model for CustomerLine {
    ghost use Rattle.std.specs.Prelude.{◌≤◌};
    ghost use Rattle.njh_customer.specs.Customer as customer;

    ghost Value = { customer.CustomerLine };

    ghost view = { λ x. record {
      state = x.line;
      streams = x.streams;
      receivers = x.receivers;
      notices = x.notices;
      senders = x.senders;
      served = x.served;
    } };

    ghost invariant = { λ x. x.streams ≤ 4 };
}

impl CustomerLine {
    /// A line that is down, none of whose streams is about a file. Want of memory is the only
    /// refusal.
    pub(crate) fn new(alloc: Global, config: Config, streams: u8) -> Result<Self, AllocError>
        requires config { IsConfig config }
        requires streams { streams ≤ 4 }
        ensures { IfOk result (λ x. x ≡ idle_line config streams) }
    {
        Ok(CustomerLine {
            line: Line::new(alloc, config)?,
            streams,
            receivers: [Receiver::Idle; 8],
            notices: [None, None, None, None, None, None, None, None],
            senders: [Sender::Idle; 8],
            served: Stream::at(7),
        })
    }

    /// How many streams of each kind the peer may use.
    pub(crate) fn streams(&self) -> u8
        ensures value { result ≡ self.now.streams }
        ensures few { result ≤ 4 }
    {
        self.streams
    }

    /// What a stream to the hub is about.
    pub(crate) fn receiver(&self, stream: Stream) -> Receiver
        ensures { result ≡ receiver_at stream self.now }
    {
        self.receivers[usize::from(stream.place())]
    }

    /// Says what a stream to the hub is about.
    pub(crate) fn set_receiver(&mut self, stream: Stream, receiver: Receiver)
        ensures { self.new ≡ with_receiver stream receiver self.old }
    {
        self.receivers[usize::from(stream.place())] = receiver;
    }

    /// Keeps what the owner of a file that came on a stream was told, up to the next file that
    /// opens there.
    pub(crate) fn note(&mut self, stream: Stream, receiver: Receiver, notice: Option<Notice>)
        ensures { self.new ≡ with_notice stream receiver notice self.old }
    {
        match notice {
            Some(notice) => self.notices[usize::from(stream.place())] = Some(notice),
            None => match receiver {
                Receiver::Open { .. } => self.notices[usize::from(stream.place())] = None,
                Receiver::Idle | Receiver::Draining => {}
            },
        }
    }

    /// What a stream from the hub is about.
    pub(crate) fn sender(&self, stream: Stream) -> Sender
        ensures { result ≡ sender_at stream self.now }
    {
        self.senders[usize::from(stream.place())]
    }

    /// Says what a stream from the hub is about.
    pub(crate) fn set_sender(&mut self, stream: Stream, sender: Sender)
        ensures { self.new ≡ with_sender stream sender self.old }
    {
        self.senders[usize::from(stream.place())] = sender;
    }

    /// Each stream that is about a file gives it up.
    pub(crate) fn give_up(&mut self, file: FileId)
        ensures { self.new ≡ with_senders_by (without_file file) self.old }
    {
        give_up(&mut self.senders, file);
    }

    /// What it was told once.
    pub(crate) fn config(&self) -> Config
        ensures { result ≡ self.now.state.config }
    {
        self.line.config()
    }

    /// Its session.
    pub(crate) fn session(&self) -> Session
        ensures { result ≡ self.now.state.session }
    {
        self.line.session()
    }

    /// What each of its streams to the hub is about.
    pub(crate) fn receivers(&self) -> &[Receiver]
        ensures same { result.now ≡ self.now.receivers }
        ensures eight { length result.now ≡ 8 }
    {
        &self.receivers
    }

    /// On each of its streams to the hub, what the owner of the file that was refused last was
    /// told.
    pub(crate) fn notices(&self) -> &[Option<Notice>]
        ensures same { result.now ≡ self.now.notices }
        ensures eight { length result.now ≡ 8 }
    {
        &self.notices
    }

    /// What each of its streams from the hub is about.
    pub(crate) fn senders(&self) -> &[Sender]
        ensures same { result.now ≡ self.now.senders }
        ensures eight { length result.now ≡ 8 }
    {
        &self.senders
    }

    /// How many nodal messages wait to go out.
    pub(crate) fn message_count(&self) -> usize
        ensures { result ≡ length self.now.state.messages }
    {
        self.line.message_count()
    }

    /// A nodal message that waits to go out, by its index from the one that waits longest.
    pub(crate) fn message(&self, index: usize) -> Option<&Record>
        ensures { option_map (λ m. m.now.items) result ≡ slice_get self.now.state.messages index }
    {
        self.line.message(index)
    }

    /// How many nodal messages came, went and were dropped.
    pub(crate) fn message_counts(&self) -> MessageCounts {
        self.line.message_counts()
    }

    /// Counts a nodal message that came.
    pub(crate) fn count_message(&mut self)
        ensures { self.new ≡ self.old }
    {
        self.line.count_message();
    }

    /// Whether there is room for a nodal message.
    pub(crate) fn has_message_room(&self) -> bool
        ensures { result ≡ lines.has_message_room self.now.state }
    {
        self.line.has_message_room()
    }

    /// Whether its state is up.
    pub(crate) fn is_up(&self) -> bool
        ensures { result ≡ laws.is_up self.now.state.session.phase }
    {
        self.line.session().phase == Phase::Up
    }

    /// Decides by the line table what an input does.
    pub(crate) fn accept(&mut self, input: &Input<'_>) -> Verdict
        ensures verdict { result ≡ (table_outcome self.old.state.config
            (input_value input.now) self.old.state.session).verdict }
        ensures line { self.new ≡ in_state (lines.after_input (input_value input.now)) self.old }
    {
        self.line.accept(input)
    }

    /// A record of a block ends the session so.
    pub(crate) fn end(&mut self, end: SessionEnd)
        ensures { self.new ≡ in_state (lines.after_end end) self.old }
    {
        self.line.end(end);
    }

    /// Lets an answer wait.
    pub(crate) fn push_answer(&mut self, answer: Answer)
        ensures { self.new ≡ in_state (lines.with_answer answer) self.old }
    {
        self.line.push_answer(answer);
    }

    /// Lets a nodal message wait.
    pub(crate) fn push_message(&mut self, message: Record)
        ensures { self.new ≡ in_state (lines.with_message message.items) self.old }
    {
        self.line.push_message(message);
    }

    /// Sends what a verdict asks for.
    pub(crate) fn send_reply(
        &mut self,
        id: LineId,
        reply: LineReply,
        shared: &mut Shared,
        out: &mut FrameBuffer,
    )
        requires known { id.customer < length shared.old.tables.customers }
        requires spooled { id.customer < length shared.old.spool }
        requires quota { (customer_at shared.old.tables id.customer).quota
            ≡ (spool_at id.customer shared.old.spool).quota }
        ensures { LineSends id.customer shared.old shared.new self.new out.new
            (sending_of_reply (entry_of (customer_at shared.old.tables id.customer)) id.number reply
            (spool_at id.customer shared.old.spool) self.old) }
    {
        match reply {
            LineReply::Nothing => out.clear(),
            LineReply::Control(control) => send_control(&mut self.line, control, out),
            LineReply::Again => send_again(&mut self.line, out),
            LineReply::SignOn(kind) => send_opening(&mut self.line, kind, &mut shared.block, out),
            LineReply::Sequence { expected } => {
                let fcs = own_fcs(id.customer, &shared.spool, &shared.tables);
                send_sequence(&mut self.line, expected, fcs, &mut shared.block, out);
            }
            LineReply::Next { or_ack0 } => {
                let fcs = own_fcs(id.customer, &shared.spool, &shared.tables);
                self.send_next(id, or_ack0, fcs, shared, out);
            }
        }
    }

    /// Sends the next block under a function control sequence, or what there is in its place.
    fn send_next(
        &mut self,
        id: LineId,
        or_ack0: bool,
        fcs: Fcs,
        shared: &mut Shared,
        out: &mut FrameBuffer,
    )
        requires known { id.customer < length shared.old.tables.customers }
        requires spooled { id.customer < length shared.old.spool }
        requires own { fcs ≡ own_fcs (spool_at id.customer shared.old.spool) }
        ensures { LineSends id.customer shared.old shared.new self.new out.new
            (sending_of_next (entry_of (customer_at shared.old.tables id.customer)) id.number or_ack0
            (spool_at id.customer shared.old.spool) self.old) }
    {
        begin_block(&self.line, fcs, &mut shared.block);
        fill(
            self,
            id,
            &mut shared.spool,
            &shared.tables,
            &mut shared.block,
        );
        send_written(&mut self.line, or_ack0, &shared.block, fcs, out);
    }

    /// Whether its next block would be sent, were it asked for now: it has a record, or it tells a
    /// new function control sequence. Nothing is changed.
    pub(crate) fn has_next(&self, id: LineId, shared: &Shared) -> bool
        requires known { id.customer < length shared.now.tables.customers }
        requires spooled { id.customer < length shared.now.spool }
        requires quota { (customer_at shared.now.tables id.customer).quota
            ≡ (spool_at id.customer shared.now.spool).quota }
        ensures { result ≡ has_next (entry_of (customer_at shared.now.tables id.customer)) id.number
            (spool_at id.customer shared.now.spool) self.now }
    {
        let fcs = own_fcs(id.customer, &shared.spool, &shared.tables);
        if !tells_nothing(&self.line, fcs) {
            return true;
        }
        has_next(self, id, &shared.spool, &shared.tables)
    }

    /// The end of a session: the files that were being sent may go again, and so may those that
    /// were refused and go by this line; the files that came in are gone, and so are the answers;
    /// SYSOUT 4 counts as served last.
    pub(crate) fn end_session(&mut self, id: LineId, tables: &Tables, spool: &mut Spool)
        requires known { id.customer < length tables.now.customers }
        requires spooled { id.customer < length spool.old }
        ensures line { self.new ≡ with_idle_streams self.old }
        ensures spool { spool.new ≡ slice_set spool.old id.customer
            (spool_over (entry_of (customer_at tables.now id.customer)) id.number self.old
            (spool_at id.customer spool.old)) }
    {
        end_senders(&mut self.senders, id.customer, spool);
        retry_refused(tables.customer(id.customer), id.number, id.customer, spool);
        end_receivers(&mut self.receivers, id.customer, spool);
        self.line.clear_answers();
        self.served = Stream::at(7);
    }
}

impl Outgoing for CustomerLine {
    ghost use Rattle.njh_customer.specs.Sending.{without_queues, outlet_of};

    ghost outlet = { outlet_of };

    ghost rest = { without_queues };

    fn streams(&self) -> u8 {
        self.streams
    }

    fn peer_fcs(&self) -> Fcs {
        self.line.session().peer_fcs
    }

    fn front_answer(&self) -> Option<Answer> {
        self.line.front_answer()
    }

    fn pop_answer(&mut self) {
        self.line.pop_answer();
    }

    fn front_message(&self) -> Option<&Record> {
        self.line.message(0)
    }

    fn pop_message(&mut self) {
        self.line.pop_message();
    }

    fn sender(&self, stream: Stream) -> Sender {
        self.senders[usize::from(stream.place())]
    }

    fn set_sender(&mut self, stream: Stream, sender: Sender) {
        self.senders[usize::from(stream.place())] = sender;
    }

    fn served(&self) -> Stream {
        self.served
    }

    fn set_served(&mut self, stream: Stream) {
        self.served = stream;
    }
}
