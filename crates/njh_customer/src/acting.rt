//! What the records of a block do, one after the other.

ghost use Rattle.std.specs.Prelude.{◌≡◌, ◌<◌, ◌≤◌, ℕ, List, length};
ghost use Rattle.njh_block.specs.Blocks.{control_byte, stream_number};
ghost use Rattle.njh_texts.specs.Texts.{node_unknown};
ghost use Rattle.njh_nmr.specs.Nodal.{cut_after_message, record_of, sender_of};
ghost use Rattle.njh_block.specs.ItemViews.{given_item};
ghost use Rattle.njh_stream.specs.Arrivals.{IsShort, arrival_of};
ghost use Rattle.njh_table.specs.TableFile.{entry_of};
ghost use Rattle.njh_customer.specs.Acting as acting;
ghost use Rattle.njh_customer.specs.Waiting.{with_message_to, with_waiting};

use crate::customer_lines::CustomerLines;
use crate::shared::Shared;
use njh_block::{Answer, Block, ControlRcb, Item, Rcb, Stream};
use njh_command::{Originator, obey};
use njh_header::User;
use njh_line::SessionEnd;
use njh_nmr::Nmr;
use njh_record::Record;
use njh_stream::Arrival;
use njh_table::{LineId, NamedCustomer, Route};
use njh_texts::node_unknown;

impl Shared {
    ghost use Rattle.njh_customer.specs.CustomerSteps.{ChangesFilesBy, IsReady, RecordsActBy};

    /// The records of a block act in their order, up to one that ends the session. Tells that end.
    pub(crate) fn all_act(
        &mut self,
        id: LineId,
        block: Block<'_>,
        lines: &mut CustomerLines,
    ) -> Option<SessionEnd>
        requires ready { IsReady id self.old lines.old }
        ensures { RecordsActBy id self.old lines.old self.new lines.new result
            (acting.all_acted id.number block.entry.items) }
    {
        let mut block = block;
        let mut record = Record::new();
        while let Some(item) = block.next(&mut record) {
            match SessionEnd::of_record(&item) {
                Some(end) => return Some(end),
                None => self.act(id, item, &record, lines),
            }
        }
        None
    }

    /// A record that ends no session acts.
    fn act(&mut self, id: LineId, item: Item<'_>, bytes: &[u8], lines: &mut CustomerLines)
        requires ready { IsReady id self.old lines.old }
        requires short { length bytes.now ≤ 256 }
        ensures { ChangesFilesBy id self.old lines.old self.new lines.new
            (acting.after_record id.number (given_item bytes.now item.entry)) }
    {
        match item {
            Item::Data { rcb, srcb } => {
                if rcb == Rcb::MESSAGE {
                    self.take_message(id, bytes, lines);
                } else {
                    let stream = lines.stream(id.number, rcb);
                    self.arrive(id, stream, Arrival::Record { srcb, bytes }, lines);
                }
            }
            Item::Abort { rcb, .. } => {
                let stream = lines.stream(id.number, rcb);
                self.arrive(id, stream, Arrival::Abort, lines);
            }
            Item::Long { rcb, .. } => {
                let stream = lines.stream(id.number, rcb);
                self.arrive(id, stream, Arrival::TooLong, lines);
            }
            Item::Control { rcb, srcb } => {
                self.take_control(id, rcb, Rcb { byte: srcb }, lines);
            }
            Item::General { .. } => {}
        }
    }

    /// An arrival on a stream of a line, if the RCB names one.
    fn arrive(
        &mut self,
        id: LineId,
        stream: Option<Stream>,
        arrival: Arrival<'_>,
        lines: &mut CustomerLines,
    )
        requires ready { IsReady id self.old lines.old }
        requires short { IsShort (arrival_of arrival) }
        ensures { ChangesFilesBy id self.old lines.old self.new lines.new
            (acting.after_stream_record id.number stream (arrival_of arrival.entry)) }
    {
        if let Some(stream) = stream {
            let mut receiver = lines.line(id.number).receiver(stream);
            let step = receiver.step(arrival, stream, id, &self.tables, &mut self.spool);
            lines.line_mut(id.number).set_receiver(stream, receiver);
            lines.push_answer(id.number, step.answer);
            lines.notify(self.tables.customer(id.customer), &step.notice);
            lines.note(id.number, stream, receiver, step.notice);
        }
    }

    /// A control record that the peer sends: a request, or the answer to one of the hub's.
    fn take_control(&mut self, id: LineId, rcb: ControlRcb, named: Rcb, lines: &mut CustomerLines)
        requires ready { IsReady id self.old lines.old }
        ensures { ChangesFilesBy id self.old lines.old self.new lines.new
            (acting.after_control_record id.number (control_byte rcb) named.byte) }
    {
        let stream = lines.stream(id.number, named);
        match rcb {
            ControlRcb::Request => self.take_request(id, named, stream, lines),
            ControlRcb::Permission
            | ControlRcb::Refusal
            | ControlRcb::Completion
            | ControlRcb::Ready
            | ControlRcb::SequenceError => {
                if let Some(stream) = stream {
                    self.take_answer(id, rcb, stream, lines);
                }
            }
        }
    }

    /// A request; one for a stream that the line doesn't have is refused.
    fn take_request(
        &mut self,
        id: LineId,
        named: Rcb,
        stream: Option<Stream>,
        lines: &mut CustomerLines,
    )
        requires ready { IsReady id self.old lines.old }
        ensures { ChangesFilesBy id self.old lines.old self.new lines.new
            (acting.after_stream_request id.number named.byte stream) }
    {
        match stream {
            Some(_) => self.arrive(id, stream, Arrival::Request, lines),
            None => lines.push_answer(id.number, refusal_of(named)),
        }
    }

    /// The peer's answer to a stream from the hub: permission, refusal, completion, or what isn't
    /// one.
    fn take_answer(
        &mut self,
        id: LineId,
        rcb: ControlRcb,
        stream: Stream,
        lines: &mut CustomerLines,
    )
        requires ready { IsReady id self.old lines.old }
        ensures { ChangesFilesBy id self.old lines.old self.new lines.new
            (acting.after_peer_answer id.number (control_byte rcb) stream) }
    {
        let mut sender = lines.line(id.number).sender(stream);
        match rcb {
            ControlRcb::Permission => {
                sender.granted();
                lines.line_mut(id.number).set_sender(stream, sender);
            }
            ControlRcb::Refusal => {
                sender.refused(id.customer, &mut self.spool);
                lines.line_mut(id.number).set_sender(stream, sender);
            }
            ControlRcb::Completion => {
                sender.completed(id.customer, &mut self.spool);
                lines.line_mut(id.number).set_sender(stream, sender);
            }
            ControlRcb::Request | ControlRcb::Ready | ControlRcb::SequenceError => {}
        }
    }

    /// A nodal message: it is for the hub, goes on to another line, or has a node that nobody has.
    fn take_message(&mut self, id: LineId, bytes: &[u8], lines: &mut CustomerLines)
        requires ready { IsReady id self.old lines.old }
        ensures { ChangesFilesBy id self.old lines.old self.new lines.new
            (acting.after_message id.number bytes.now) }
    {
        match Nmr::read(bytes) {
            Ok(message) => {
                lines.count_message(id.number);
                let route = self.tables.route(id.customer, message.to());
                self.route_message(id, &message, route, lines);
            }
            Err(_) => {}
        }
    }

    /// A nodal message by the route of its node.
    fn route_message(&mut self, id: LineId, message: &Nmr, route: Route, lines: &mut CustomerLines)
        requires ready { IsReady id self.old lines.old }
        ensures { (bytes : List ℕ) → record_of message.now ≡ cut_after_message bytes →
            ChangesFilesBy id self.old lines.old self.new lines.new
            (acting.message_routed id.number message.now bytes route) }
    {
        match route {
            Route::Here => {
                if message.is_user_command() {
                    self.command(id, message, lines);
                }
            }
            Route::Line(other) => {
                if other != id.number {
                    pass_on(other, message, lines);
                }
            }
            Route::Unknown => {
                if message.is_user_command() {
                    tell_unknown(self.tables.customer(id.customer), message, lines);
                }
            }
        }
    }

    /// A command of a user to the hub: the user is replied to.
    fn command(&mut self, id: LineId, message: &Nmr, lines: &mut CustomerLines)
        requires ready { IsReady id self.old lines.old }
        ensures { ChangesFilesBy id self.old lines.old self.new lines.new
            (acting.after_user_command message.now) }
    {
        let node = message.origin();
        let user = message.user();
        let from = Originator {
            who: User { node, user },
            customer: id.customer,
        };
        obey(
            message.message(),
            from,
            &self.tables,
            &mut self.spool,
            lines,
            &mut self.replies,
        );
        lines.say_all(self.tables.customer(id.customer), node, user, &self.replies);
        self.last_command
            .note(node, user, message.message(), &self.replies);
    }
}

/// The refusal of a request for a stream that the line doesn't have: none if the RCB is no
/// stream's.
fn refusal_of(named: Rcb) -> Option<Answer>
    ensures { result ≡ acting.refusal_of named.byte (stream_number named.byte) }
{
    match named.stream_number() {
        Some(_) => Some(Answer {
            rcb: ControlRcb::Refusal,
            stream: named,
        }),
        None => None,
    }
}

/// A nodal message waits on another line, as it came.
fn pass_on(other: u16, message: &Nmr, lines: &mut CustomerLines)
    ensures { lines.new ≡ with_waiting other (record_of message.now) lines.old }
{
    let mut record = Record::new();
    message.write(&mut record);
    lines.push_message(other, record);
}

/// The sender of a command is told that nobody has its node.
fn tell_unknown(customer: &NamedCustomer, message: &Nmr, lines: &mut CustomerLines)
    ensures { lines.new
        ≡ with_message_to (entry_of customer.now) (sender_of message.now)
        (node_unknown message.now.to) lines.old }
{
    let text = node_unknown(message.to());
    lines.say(customer, message.origin(), message.user(), &text);
}
