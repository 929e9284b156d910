//! Whether a line's next block would have a record, were it filled now.

ghost use Rattle.std.specs.Prelude.{◌≡◌, ◌<◌, ◌≤◌, ◌||◌, [], length, slice_get, IfSome};
ghost use Rattle.njh_block.specs.Writing.{Writing};
ghost use Rattle.njh_spool.specs.Spools.{spool_at};
ghost use Rattle.njh_stream.specs.Sending.{goes_by};
ghost use Rattle.njh_table.specs.TableFile.{customer_at, entry_of};
ghost use Rattle.njh_sched.specs.NextBlock.{filled_block, filling};
ghost use Rattle.njh_sched.specs.Having.{has_items, has_record};
ghost use Rattle.njh_sched.specs.code.FileCursor.{GoesOn, IsOver, files_of, goes_of};
ghost use Rattle.njh_sched.specs.code.Having.{has_abort, has_file_for, has_message, has_queued, has_request};
ghost use Rattle.njh_sched.specs.code.Having.{is_aborting};

use crate::cursor::Cursor;
use crate::outgoing::Outgoing;
use crate::records::next_served;
use crate::requests::may_ask;
use njh_block::Stream;
use njh_spool::Spool;
use njh_stream::Sender;
use njh_table::{LineId, NamedCustomer, Tables};

/// Whether a stream's file is to be given up, by what the stream is about.
fn is_aborting(sender: Sender) -> bool
    ensures { result ≡ is_aborting sender }
{
    match sender {
        Sender::Aborting => true,
        Sender::Idle | Sender::Requested(_) | Sender::Sending(_, _) | Sender::EofSent(_) => false,
    }
}

/// Whether a stream's file is to be given up.
fn has_abort<L: Outgoing>(line: &L) -> bool
    ensures { result ≡ has_abort (L.outlet line.now) }
{
    for place in 0..Stream::COUNT {
        if is_aborting(line.sender(Stream::at(place))) {
            return true;
        }
    }
    false
}

/// Whether a nodal message waits, and the peer lets it.
fn has_message<L: Outgoing>(line: &L) -> bool
    ensures { result ≡ has_message (L.outlet line.now) }
{
    line.peer_fcs().messages_on() && line.front_message().is_some()
}

/// Whether there is something to send for which no file is looked at.
fn has_queued<L: Outgoing>(line: &L) -> bool
    ensures { result ≡ has_queued (L.outlet line.now) }
{
    line.front_answer().is_some()
        || has_abort(line)
        || has_message(line)
        || next_served(line).is_some()
}

/// Whether a stream may ask for a file, and there is one.
fn has_file_for<L: Outgoing>(
    stream: Stream,
    cursor: &mut Cursor<'_>,
    line: &L,
    spool: &Spool,
) -> bool
    requires { IsOver cursor.old spool.now }
    ensures has { result
        ≡ has_file_for (goes_of cursor.old) (L.outlet line.now) (files_of cursor.old spool.now) stream }
    ensures cursor { GoesOn cursor.old cursor.new spool.now }
{
    if !may_ask(stream, line) {
        return false;
    }
    cursor.oldest(stream.kind(), spool).is_some()
}

/// Whether a stream may ask for a file. It passes each file once at most for all streams of its
/// kind, and looks at none where no stream is idle.
fn has_request<L: Outgoing>(id: LineId, entry: &NamedCustomer, line: &L, spool: &Spool) -> bool
    requires { id.customer < length spool.now }
    ensures { result ≡ has_request (goes_by (entry_of entry.now) id.number) (L.outlet line.now)
        (spool_at id.customer spool.now) }
{
    if spool.files(id.customer) == 0 {
        return false;
    }
    let mut cursor = Cursor::new(id, entry);
    for place in 0..Stream::COUNT {
        if has_file_for(Stream::at(place), &mut cursor, line, spool) {
            return true;
        }
    }
    false
}

/// Whether there is something to send, where the peer doesn't suspend all.
fn has_some<L: Outgoing>(id: LineId, entry: &NamedCustomer, line: &L, spool: &Spool) -> bool
    requires { id.customer < length spool.now }
    ensures { result ≡ (has_queued (L.outlet line.now) || has_request (goes_by (entry_of entry.now) id.number)
        (L.outlet line.now) (spool_at id.customer spool.now)) }
{
    has_queued(line) || has_request(id, entry, line, spool)
}

/// Whether there is something to send.
fn has_record<L: Outgoing>(id: LineId, entry: &NamedCustomer, line: &L, spool: &Spool) -> bool
    requires { id.customer < length spool.now }
    ensures { result ≡ has_record (goes_by (entry_of entry.now) id.number) (L.outlet line.now)
        (spool_at id.customer spool.now) }
{
    if line.peer_fcs().all_suspended() {
        return false;
    }
    has_some(id, entry, line, spool)
}

/// A nodal message that waits is no longer than a record may be.
fn front_is_short<L: Outgoing>(line: &L)
    ensures { IfSome (slice_get (L.outlet line.now).messages 0) (λ m. length m ≤ 256) }
{
    if let Some(message) = line.front_message() {
        prove!(message.len() <= message.capacity());
    }
}

/// Whether a line's next block would have a record, were it filled now: what `fill` adds to a block
/// without one is nothing exactly where this is false. It changes nothing and takes no memory.
pub fn has_next<L: Outgoing>(line: &L, id: LineId, spool: &Spool, tables: &Tables) -> bool
    requires range { id.customer < length spool.now }
    requires known { id.customer < length tables.now.customers }
    ensures record { result ≡ has_record (goes_by (entry_of (customer_at tables.now id.customer)) id.number)
        (L.outlet line.now) (spool_at id.customer spool.now) }
    ensures block { (w : Writing) → w.items ≡ [] → 300 ≤ w.limit
        → has_items (filled_block (goes_by (entry_of (customer_at tables.now id.customer)) id.number)
        (filling w (L.outlet line.now) (spool_at id.customer spool.now))).block.items ≡ result }
{
    front_is_short(line);
    spool.records_are_short(id.customer);
    has_record(id, tables.customer(id.customer), line, spool)
}
