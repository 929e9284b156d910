//! The records of the streams, in turn.

ghost use Rattle.std.specs.Prelude.{◌≡◌, ◌<◌, Bool, IsTrue, length, Some};
ghost use Rattle.njh_spool.specs.CustomerSpool.{WholeFile};
ghost use Rattle.njh_spool.specs.Spools.{spool_at};
ghost use Rattle.njh_stream.specs.Sending.{next_of};
ghost use Rattle.njh_sched.specs.NextBlock.{turns, may_send, next_served, sender_at, serving, after_candidate};
ghost use Rattle.njh_sched.specs.NextBlock.{after_sources, filling};
ghost use Rattle.njh_sched.specs.code.Filling.{room_of, filling_where};

use crate::outgoing::Outgoing;
use crate::own_stream::OwnStream;
use crate::record_room::{PLAIN, add_where_room};
use njh_block::{BlockWriter, Out, Stream};
use njh_record::Record;
use njh_spool::Spool;
use njh_stream::Sender;

/// Whether a stream sends a file, and the peer lets it.
fn may_send<L: Outgoing>(stream: Stream, line: &L) -> bool
    ensures { result ≡ may_send (L.outlet line.now) stream }
{
    matches!(line.sender(stream), Sender::Sending(_, _)) && line.peer_fcs().is_on(stream)
}

/// The stream whose turn it is.
pub fn next_served<L: Outgoing>(line: &L) -> Option<Stream>
    ensures { result ≡ next_served (L.outlet line.now) }
{
    let served = line.served().place();
    for step in 0..Stream::COUNT {
        let stream = Stream::at((served + 1 + step) % Stream::COUNT);
        if may_send(stream, line) {
            return Some(stream);
        }
    }
    None
}

impl OwnStream {
    /// Adds the stream's next record, or its end of file, where it has room. Else the stream stays
    /// where it is.
    fn add_turn<L: Outgoing>(
        self,
        line: &mut L,
        spool: &mut Spool,
        record: &mut Record,
        writer: &mut BlockWriter,
    ) -> bool
        requires { self.customer < length spool.old }
        ensures candidate { after_candidate
            (Some (serving (L.outlet line.old) (spool_at self.customer spool.old) self.stream
            (next_of (sender_at self.stream (L.outlet line.old)) (spool_at self.customer spool.old))))
            (filling writer.old (L.outlet line.old) (spool_at self.customer spool.old))
            ≡ filling_where result writer.new (L.outlet line.new) (spool_at self.customer spool.old) }
        ensures spool { spool.new ≡ spool.old }
        ensures room { IsTrue result → room_of writer.new < room_of writer.old }
        ensures rest { L.rest line.new ≡ L.rest line.old }
    {
        let OwnStream { stream, customer } = self;
        let mut sender = line.sender(stream);
        let srcb = sender.next(customer, spool, record).unwrap_or(PLAIN);
        let out = Out::Data {
            rcb: stream.rcb(),
            srcb,
            bytes: record,
        };
        let has_room = add_where_room(out, writer);
        if has_room {
            line.set_sender(stream, sender);
            line.set_served(stream);
        }
        has_room
    }
}

/// Adds records and ends of file of the streams in turn, until one has no room, and says whether
/// all had.
fn add_all_turns<L: Outgoing>(
    line: &mut L,
    customer: u16,
    spool: &mut Spool,
    writer: &mut BlockWriter,
) -> bool
    requires { customer < length spool.old }
    ensures source { (goes : WholeFile → Bool) → after_sources goes (turns writer.old.limit)
        (filling writer.old (L.outlet line.old) (spool_at customer spool.old))
        ≡ filling_where result writer.new (L.outlet line.new) (spool_at customer spool.old) }
    ensures spool { spool.new ≡ spool.old }
    ensures rest { L.rest line.new ≡ L.rest line.old }
{
    let _some_room = writer.text();
    let mut record = Record::new();
    while let Some(stream) = next_served(line) {
        let own = OwnStream { stream, customer };
        if !own.add_turn(line, spool, &mut record, writer) {
            return false;
        }
    }
    true
}

/// As `add_all_turns`, which makes room for a record, where a stream may send one.
pub fn add_turns<L: Outgoing>(
    line: &mut L,
    customer: u16,
    spool: &mut Spool,
    writer: &mut BlockWriter,
) -> bool
    requires { customer < length spool.old }
    ensures source { (goes : WholeFile → Bool) → after_sources goes (turns writer.old.limit)
        (filling writer.old (L.outlet line.old) (spool_at customer spool.old))
        ≡ filling_where result writer.new (L.outlet line.new) (spool_at customer spool.old) }
    ensures spool { spool.new ≡ spool.old }
    ensures rest { L.rest line.new ≡ L.rest line.old }
{
    match next_served(line) {
        Some(_) => add_all_turns(line, customer, spool, writer),
        None => true,
    }
}
