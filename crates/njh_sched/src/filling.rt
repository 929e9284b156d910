//! The next block.

ghost use Rattle.std.specs.Prelude.{◌≡◌, ◌<◌, length, slice_set};
ghost use Rattle.njh_spool.specs.Spools.{spool_at};
ghost use Rattle.njh_stream.specs.Sending.{goes_by};
ghost use Rattle.njh_table.specs.TableFile.{customer_at, entry_of};
ghost use Rattle.njh_sched.specs.NextBlock.{sources, after_sources, filled_block, filling};
ghost use Rattle.njh_sched.specs.code.Filling.{filling_where};

use crate::aborts::add_aborts;
use crate::outgoing::Outgoing;
use crate::queues::{add_answers, add_messages};
use crate::records::add_turns;
use crate::requests::add_requests;
use njh_block::BlockWriter;
use njh_spool::Spool;
use njh_table::{LineId, NamedCustomer, Tables};

/// Adds from each source in its order, until a record has no room, and says whether all had.
fn add_all<L: Outgoing>(
    line: &mut L,
    id: LineId,
    entry: &NamedCustomer,
    spool: &mut Spool,
    writer: &mut BlockWriter,
) -> bool
    requires { id.customer < length spool.old }
    ensures source { after_sources (goes_by (entry_of entry.now) id.number)
        (sources writer.old.limit (L.outlet line.old))
        (filling writer.old (L.outlet line.old) (spool_at id.customer spool.old))
        ≡ filling_where result writer.new (L.outlet line.new) (spool_at id.customer spool.new) }
    ensures spool { spool.new ≡ slice_set spool.old id.customer (spool_at id.customer spool.new) }
    ensures rest { L.rest line.new ≡ L.rest line.old }
{
    if !add_answers(line, writer) {
        return false;
    }
    if !add_aborts(line, writer) {
        return false;
    }
    if !add_requests(id, entry, line, spool, writer) {
        return false;
    }
    if !add_messages(line, writer) {
        return false;
    }
    add_turns(line, id.customer, spool, writer)
}

/// Fills a line's next block: the answers that wait; the
/// streams' aborts; for each idle stream a request for the oldest file that is Ready, of its kind,
/// and goes by the line; the nodal messages, where the peer lets them; and records and ends of file
/// of the streams that the peer lets send, in turn. The first that has no room waits for another
/// block with all behind it. Nothing is added where the peer suspends all.
#[tactic(auto, unfolding(crate::specs::NextBlock::filled_block))]
pub fn fill<L: Outgoing>(
    line: &mut L,
    id: LineId,
    spool: &mut Spool,
    tables: &Tables,
    writer: &mut BlockWriter,
)
    requires range { id.customer < length spool.old }
    requires known { id.customer < length tables.now.customers }
    ensures block { writer.new ≡ (filled_block (goes_by (entry_of (customer_at tables.now id.customer)) id.number)
        (filling writer.old (L.outlet line.old) (spool_at id.customer spool.old))).block }
    ensures outlet { L.outlet line.new
        ≡ (filled_block (goes_by (entry_of (customer_at tables.now id.customer)) id.number)
        (filling writer.old (L.outlet line.old) (spool_at id.customer spool.old))).outlet }
    ensures spool { spool.new ≡ slice_set spool.old id.customer
        (filled_block (goes_by (entry_of (customer_at tables.now id.customer)) id.number)
        (filling writer.old (L.outlet line.old) (spool_at id.customer spool.old))).spool }
    // what isn't of its outlet stays
    ensures rest { L.rest line.new ≡ L.rest line.old }
{
    if !line.peer_fcs().all_suspended() {
        add_all(line, id, tables.customer(id.customer), spool, writer);
    }
}
