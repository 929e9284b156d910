//! Streams whose file is given up.

ghost use Rattle.std.specs.Prelude.{◌≡◌, Bool};
ghost use Rattle.njh_spool.specs.CustomerSpool.{CustomerSpool, WholeFile};
ghost use Rattle.njh_sched.specs.NextBlock.{StreamAbort, aborts, after_source, after_sources, filling};
ghost use Rattle.njh_sched.specs.code.Filling.{filling_where};

use crate::outgoing::Outgoing;
use crate::record_room::{PLAIN, add_where_room};
use njh_block::{BlockWriter, Out, Stream};
use njh_stream::Sender;

/// Adds a stream's abort, where it has one to send and it has room.
#[tactic(auto, unfolding(crate::specs::NextBlock::after_source))]
fn add_abort<L: Outgoing>(stream: Stream, line: &mut L, writer: &mut BlockWriter) -> bool
    ensures source { (goes : WholeFile → Bool) (s : CustomerSpool)
        → after_source goes (StreamAbort stream) (filling writer.old (L.outlet line.old) s)
        ≡ filling_where result writer.new (L.outlet line.new) s }
    ensures rest { L.rest line.new ≡ L.rest line.old }
{
    match line.sender(stream) {
        Sender::Aborting => {
            let out = Out::Abort {
                rcb: stream.rcb(),
                srcb: PLAIN,
            };
            let has_room = add_where_room(out, writer);
            if has_room {
                line.set_sender(stream, Sender::Idle);
            }
            has_room
        }
        Sender::Idle | Sender::Requested(_) | Sender::Sending(_, _) | Sender::EofSent(_) => true,
    }
}

/// Adds the streams' aborts, until one has no room, and says whether all had.
pub fn add_aborts<L: Outgoing>(line: &mut L, writer: &mut BlockWriter) -> bool
    ensures source { (goes : WholeFile → Bool) (s : CustomerSpool)
        → after_sources goes aborts (filling writer.old (L.outlet line.old) s)
        ≡ filling_where result writer.new (L.outlet line.new) s }
    ensures rest { L.rest line.new ≡ L.rest line.old }
{
    for place in 0..Stream::COUNT {
        if !add_abort(Stream::at(place), line, writer) {
            return false;
        }
    }
    true
}
