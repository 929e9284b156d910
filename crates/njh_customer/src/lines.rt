//! A customer's lines, with what has come of the next frame on each.

ghost use Rattle.std.specs.Prelude.{◌≡◌, ◌<◌, ◌≤◌, length, map, slice_get, slice_set, IfOk};
ghost use Rattle.std.specs.Option.{option_map};
ghost use Rattle.njh_bisync.specs.ByteSteps.{feed_outcome};
ghost use Rattle.njh_bisync.specs.Reading.{has_begun};
ghost use Rattle.njh_spool.specs.CustomerSpool.{empty_spool};
ghost use Rattle.njh_table.specs.Marks.{entry_unmarked};
ghost use Rattle.njh_spool.specs.Spools.{spool_at};
ghost use Rattle.njh_table.specs.TableFile.{customer_at, entry_of, password_bytes};
ghost use Rattle.njh_customer.specs.Customer.{config_of, line_at, password_in};
ghost use Rattle.njh_customer.specs.Feeding.{acted_on};
ghost use Rattle.njh_customer.specs.CustomerSteps.{IsReady, LeavesReadyBy, PartLeavesReady};
ghost use Rattle.njh_customer.specs.CustomerSteps.{part_of};
ghost use Rattle.njh_customer.specs.Part.{rest_at};
ghost use Rattle.njh_customer.specs.Having.{has_next};
ghost use Rattle.njh_customer.specs.Orders.{has_room, part_after_order, replies_to};

use crate::customer_line::CustomerLine;
use crate::customer_lines::CustomerLines;
use crate::frame_buffer::FrameBuffer;
use crate::given_order::GivenOrder;
use crate::shared::Shared;
use crate::signal::Signal;
use njh_bisync::Deframer;
use njh_command::Replies;
use njh_ebcdic::Name;
use njh_line::{Config, MessageCounts, Session};
use njh_record::Record;
use njh_spool::Spool;
use njh_stream::{Notice, Receiver, Sender};
use njh_table::{LineId, NamedCustomer, Role, Tables};
use std::alloc::{AllocError, Global};
use std::marker::Model;

/// The lines of one customer, each with what has come of its next frame.
///
/// The deframers are a field beside the lines, so that a text may stay lent from one while its
/// records act on any line.
#[derive(Drop)]
pub struct Lines {
    deframers: Vec<Deframer>,
    lines: CustomerLines,
}

impl Model for Lines {
    ghost use Rattle.std.specs.Prelude.{◌≡◌, length};
    ghost use Rattle.njh_customer.specs.Part as part;

    ghost Value = { part.Lines };

    ghost view = { λ x. record { rests = x.deframers.items; lines = x.lines } };

    ghost invariant = { λ x. length x.deframers.items ≡ length x.lines };
}

impl Lines {
    ghost use Rattle.std.specs.Prelude.{All};
    ghost use Rattle.njh_table.specs.Accepted.{IsLine};
    ghost use Rattle.njh_customer.specs.Part.{part_at_open, part_with, part_after_bytes, part_after_signal};

    /// The lines of a customer's entry, each down, with no stream about a file. Want of memory is
    /// the only refusal.
    pub fn open(alloc: Global, customer: &NamedCustomer) -> Result<Lines, AllocError>
        requires { All IsLine customer.now.lines }
        ensures { IfOk result (λ lines.
            part_with (entry_unmarked (entry_of customer.now)) (empty_spool customer.now.quota customer.now.files) lines
            ≡ part_at_open (entry_of customer.now)) }
    {
        let mut deframers = Vec::new(alloc);
        let mut lines = CustomerLines::new(alloc);
        for line in customer.lines() {
            deframers.push(Deframer::new(alloc)?)?;
            lines.push(CustomerLine::new(alloc, config_of(customer, line), line.streams())?)?;
        }
        Ok(Lines { deframers, lines })
    }

    /// How many lines there are.
    pub fn len(&self) -> usize
        ensures lines { result ≡ length self.now.lines }
        ensures rests { result ≡ length self.now.rests }
    {
        self.lines.len()
    }

    /// A line's session.
    pub fn session(&self, line: u16) -> Session
        requires { line < length self.now.lines }
        ensures { result ≡ (line_at line self.now.lines).state.session }
    {
        self.lines.line(line).session()
    }

    /// How many nodal messages wait to go out on a line.
    pub fn message_count(&self, line: u16) -> usize
        requires { line < length self.now.lines }
        ensures { result ≡ length (line_at line self.now.lines).state.messages }
    {
        self.lines.line(line).message_count()
    }

    /// A nodal message that waits to go out on a line, by its index from the one that waits
    /// longest, 0; none past the last.
    pub fn message(&self, line: u16, index: usize) -> Option<&Record>
        requires { line < length self.now.lines }
        ensures { option_map (λ m. m.now.items) result ≡ slice_get (line_at line self.now.lines).state.messages index }
    {
        self.lines.line(line).message(index)
    }

    /// How many nodal messages came on a line, went on it and were dropped, for its operator. No
    /// step depends on it.
    pub fn message_counts(&self, line: u16) -> MessageCounts
        requires { line < length self.now.lines }
    {
        self.lines.line(line).message_counts()
    }

    /// Whether the hub calls or answers on a line.
    pub fn role(&self, line: u16) -> Role
        requires { line < length self.now.lines }
        ensures { result ≡ (line_at line self.now.lines).state.config.role }
    {
        self.lines.line(line).config().role
    }

    /// Whether a frame has begun to come on a line that isn't whole yet.
    pub fn has_begun(&self, line: u16) -> bool
        requires { line < length self.now.lines }
        ensures { result ≡ has_begun (rest_at line self.now.rests) }
    {
        self.deframers[usize::from(line)].has_begun()
    }

    /// Whether a line's next block would be sent, were it asked for now. Nothing is changed.
    pub fn has_next(&self, id: LineId, shared: &Shared) -> bool
        requires ready { IsReady id shared.now self.now.lines }
        ensures { result ≡ has_next (entry_of (customer_at shared.now.tables id.customer)) id.number
            (spool_at id.customer shared.now.spool) (line_at id.number self.now.lines) }
    {
        self.lines.line(id.number).has_next(id, shared)
    }

    /// What each of a line's streams to the hub is about: SYSIN 1 to 4, SYSOUT 1 to 4.
    pub fn receivers(&self, line: u16) -> &[Receiver]
        requires { line < length self.now.lines }
        ensures same { result.now ≡ (line_at line self.now.lines).receivers }
        ensures eight { length result.now ≡ 8 }
    {
        self.lines.line(line).receivers()
    }

    /// On each of a line's streams to the hub, what the owner of the file that was refused last was
    /// told, up to the next file there.
    pub fn notices(&self, line: u16) -> &[Option<Notice>]
        requires { line < length self.now.lines }
        ensures same { result.now ≡ (line_at line self.now.lines).notices }
        ensures eight { length result.now ≡ 8 }
    {
        self.lines.line(line).notices()
    }

    /// What each of a line's streams from the hub is about, in the same order.
    pub fn senders(&self, line: u16) -> &[Sender]
        requires { line < length self.now.lines }
        ensures same { result.now ≡ (line_at line self.now.lines).senders }
        ensures eight { length result.now ≡ 8 }
    {
        self.lines.line(line).senders()
    }

    /// One step by bytes of a line: those up to the end of the first frame that is answered, or
    /// all. Says how many. The frame that is sent is put into `out`, which is empty then if none
    /// is. Nothing depends on what room `shared` has.
    pub fn take_bytes(
        &mut self,
        id: LineId,
        piece: &[u8],
        shared: &mut Shared,
        out: &mut FrameBuffer,
    ) -> usize
        requires ready { IsReady id shared.old self.old.lines }
        ensures taken { result
            ≡ (part_after_bytes (part_of id.customer shared.old self.old) id.number piece.now).taken }
        ensures progress { 0 < length piece.now → 0 < result }
        ensures few { result ≤ length piece.now }
        ensures step { let t = part_after_bytes (part_of id.customer shared.old self.old) id.number piece.now in
            PartLeavesReady id shared.old self.old shared.new self.new out.new t.after t.frame }
    {
        out.clear();
        let mut left = piece;
        let mut taken = 0;
        while !left.is_empty() && out.is_empty() {
            let used = self.take_frame(id, left, shared, out);
            taken += used;
            let (_, after) = left.split_at(used);
            left = after;
        }
        taken
    }

    /// Takes the bytes up to the end of the first frame, or all of them, and the frame acts.
    #[tactic(auto, using(crate::proofs::PieceLaws::fed_within, crate::proofs::PieceLaws::fed_some))]
    fn take_frame(
        &mut self,
        id: LineId,
        piece: &[u8],
        shared: &mut Shared,
        out: &mut FrameBuffer,
    ) -> usize
        requires ready { IsReady id shared.old self.old.lines }
        ensures taken { result ≡ (feed_outcome (rest_at id.number self.old.rests) piece.now).taken }
        ensures within { result ≤ length piece.now }
        ensures progress { 0 < length piece.now → 0 < result }
        ensures rest { rest_at id.number self.new.rests
            ≡ (feed_outcome (rest_at id.number self.old.rests) piece.now).rest }
        ensures rests { self.new.rests ≡ slice_set self.old.rests id.number (rest_at id.number self.new.rests) }
        ensures step { LeavesReadyBy id shared.old self.old.lines shared.new self.new.lines out.new
            (acted_on id.number (feed_outcome (rest_at id.number self.old.rests) piece.now).frame) }
    {
        let (taken, frame) = self.deframers[usize::from(id.number)].feed(piece);
        shared.take_frame(id, frame, &mut self.lines, out);
        taken
    }

    /// One step by a signal on a line: a frame that isn't whole is dropped first. The frame that is
    /// sent is put into `out`, which is empty then if none is.
    pub fn take_signal(
        &mut self,
        id: LineId,
        signal: Signal,
        shared: &mut Shared,
        out: &mut FrameBuffer,
    )
        requires ready { IsReady id shared.old self.old.lines }
        ensures { let t = part_after_signal (part_of id.customer shared.old self.old) id.number signal in
            PartLeavesReady id shared.old self.old shared.new self.new out.new t.after t.frame }
    {
        self.deframers[usize::from(id.number)].reset();
        shared.take_signal(id, signal, &mut self.lines, out);
    }

    /// Whether there is room for an order: for a message, in the queue of the line that its node
    /// goes by. A command needs none.
    pub fn has_room(&self, customer: u16, order: &GivenOrder, tables: &Tables) -> bool
        requires { customer < length tables.now.customers }
        ensures { result ≡ has_room (entry_of (customer_at tables.now customer)) self.now.lines order.now }
    {
        match order {
            GivenOrder::Command(..) => true,
            GivenOrder::Message(whom, _) => {
                self.lines.has_room_by(tables.route(customer, whom.node))
            }
        }
    }

    /// Does what is ordered for the customer. In `replies` are then the replies to a command, in
    /// the place of what it held; none after a message. No frame goes out, and no memory is taken.
    pub fn order(
        &mut self,
        customer: u16,
        order: &GivenOrder,
        tables: &Tables,
        spool: &mut Spool,
        replies: &mut Replies,
    )
        requires known { customer < length tables.now.customers }
        requires spooled { customer < length spool.old }
        ensures part { part_with (entry_of (customer_at tables.now customer)) (spool_at customer spool.new) self.new
            ≡ part_after_order order.now
            (part_with (entry_of (customer_at tables.now customer)) (spool_at customer spool.old) self.old) }
        ensures others { spool.new ≡ slice_set spool.old customer (spool_at customer spool.new) }
        ensures replies { replies.new ≡ replies_to order.now
            (part_with (entry_of (customer_at tables.now customer)) (spool_at customer spool.old)
            self.old).customer }
    {
        self.lines.order(customer, order, tables, spool, replies);
    }
}

/// What a line is told by the table.
#[tactic(auto, using(crate::proofs::OpenLaws::password_in_name))]
fn config_of(customer: &NamedCustomer, line: &njh_table::NamedLine) -> Config
    ensures { result ≡ config_of (entry_of customer.now) line.now.entry }
{
    Config {
        hub: customer.hub(),
        node: line.node(),
        role: line.role(),
        block: line.block(),
        password: whole_name(line.password()),
    }
}

/// A password is a name, so it isn't empty.
#[tactic(auto, using(crate::proofs::OpenLaws::password_in_name))]
fn whole_name(password: Option<Name>) -> Option<Name>
    ensures same { result ≡ password }
    ensures some { password_in (password_bytes password) ≡ password }
{
    match password {
        None => None,
        Some(name) => {
            prove!(!name.bytes().is_empty());
            Some(name)
        }
    }
}
