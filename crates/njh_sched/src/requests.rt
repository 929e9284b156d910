//! Streams that ask for a file.

ghost use Rattle.std.specs.Prelude.{◌≡◌, ◌<◌, IsTrue, length, slice_set, Some};
ghost use Rattle.njh_spool.specs.CustomerSpool.{with_state};
ghost use Rattle.njh_spool.specs.Spools.{spool_at};
ghost use Rattle.njh_stream.specs.Sending.{goes_by};
ghost use Rattle.njh_table.specs.TableFile.{entry_of};
ghost use Rattle.njh_sched.specs.NextBlock.{StreamRequest, after_candidate, after_source, after_sources, asking};
ghost use Rattle.njh_sched.specs.NextBlock.{filling, may_ask, requests};
ghost use Rattle.njh_sched.specs.code.Filling.{filling_where};
ghost use Rattle.njh_sched.specs.code.FileCursor.{GoesOn, IsOver, files_of, goes_of};

use crate::cursor::Cursor;
use crate::outgoing::Outgoing;
use crate::own_stream::OwnStream;
use crate::record_room::add_where_room;
use njh_block::{BlockWriter, ControlRcb, Out, Stream};
use njh_spool::{FileId, Spool, State};
use njh_stream::Sender;
use njh_table::{LineId, NamedCustomer};

/// Whether the line has a stream, and it is idle.
pub fn may_ask<L: Outgoing>(stream: Stream, line: &L) -> bool
    ensures { result ≡ may_ask (L.outlet line.now) stream }
{
    stream.number() < line.streams() && matches!(line.sender(stream), Sender::Idle)
}

impl OwnStream {
    /// The stream asks for a file, where the request has room.
    fn ask<L: Outgoing>(
        self,
        file: FileId,
        line: &mut L,
        spool: &mut Spool,
        writer: &mut BlockWriter,
    ) -> bool
        requires { self.customer < length spool.old }
        ensures candidate { after_candidate
            (Some (asking (L.outlet line.old) (spool_at self.customer spool.old) self.stream file))
            (filling writer.old (L.outlet line.old) (spool_at self.customer spool.old))
            ≡ filling_where result writer.new (L.outlet line.new) (spool_at self.customer spool.new) }
        ensures spool { spool.new ≡ slice_set spool.old self.customer (spool_at self.customer spool.new) }
        ensures state { IsTrue result
            → spool_at self.customer spool.new ≡ with_state file State.Sending (spool_at self.customer spool.old) }
        ensures rest { L.rest line.new ≡ L.rest line.old }
    {
        let OwnStream { stream, customer } = self;
        let out = Out::Control {
            rcb: ControlRcb::Request,
            srcb: stream.rcb().byte,
        };
        let has_room = add_where_room(out, writer);
        if has_room {
            spool.set_state(customer, file, State::Sending).ok();
            line.set_sender(stream, Sender::Requested(file));
        }
        has_room
    }
}

/// A stream asks for its customer's oldest file that is Ready, of its kind, and goes by the line,
/// where the line has the stream, it is idle, there is such a file and the request has room.
fn add_request<L: Outgoing>(
    stream: Stream,
    cursor: &mut Cursor<'_>,
    line: &mut L,
    spool: &mut Spool,
    writer: &mut BlockWriter,
) -> bool
    requires { IsOver cursor.old spool.old }
    ensures source { after_source (goes_of cursor.old) (StreamRequest stream)
        (filling writer.old (L.outlet line.old) (files_of cursor.old spool.old))
        ≡ filling_where result writer.new (L.outlet line.new) (files_of cursor.old spool.new) }
    ensures spool { spool.new ≡ slice_set spool.old cursor.old.id.customer (files_of cursor.old spool.new) }
    ensures cursor { IsTrue result → GoesOn cursor.old cursor.new spool.new }
    ensures rest { L.rest line.new ≡ L.rest line.old }
{
    if !may_ask(stream, line) {
        return true;
    }
    match cursor.oldest(stream.kind(), spool) {
        Some(file) => {
            let customer = cursor.id().customer;
            OwnStream { stream, customer }.ask(file, line, spool, writer)
        }
        None => true,
    }
}

/// Adds the streams' requests, until one has no room, and says whether all had. It passes each file
/// once at most for all streams, and looks at none where no stream is idle. Where the customer has
/// no files no stream is looked at.
pub fn add_requests<L: Outgoing>(
    id: LineId,
    entry: &NamedCustomer,
    line: &mut L,
    spool: &mut Spool,
    writer: &mut BlockWriter,
) -> bool
    requires { id.customer < length spool.old }
    ensures source { after_sources (goes_by (entry_of entry.now) id.number) requests
        (filling writer.old (L.outlet line.old) (spool_at id.customer spool.old))
        ≡ filling_where result writer.new (L.outlet line.new) (spool_at id.customer spool.new) }
    ensures spool { spool.new ≡ slice_set spool.old id.customer (spool_at id.customer spool.new) }
    ensures rest { L.rest line.new ≡ L.rest line.old }
{
    if spool.files(id.customer) == 0 {
        return true;
    }
    let mut cursor = Cursor::new(id, entry);
    for place in 0..Stream::COUNT {
        if !add_request(Stream::at(place), &mut cursor, line, spool, writer) {
            return false;
        }
    }
    true
}
