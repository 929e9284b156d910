//! The answers and the nodal messages that wait.

ghost use Rattle.std.specs.Prelude.{◌≡◌, ◌≤◌, IsTrue, length, slice_get, Some, Bool, true};
ghost use Rattle.njh_spool.specs.CustomerSpool.{CustomerSpool, WholeFile};
ghost use Rattle.njh_sched.specs.NextBlock.{Outlet, WaitingAnswer, WaitingMessage, waiting_answers, messages_where};
ghost use Rattle.njh_sched.specs.NextBlock.{waiting_messages, without_answer, after_source, after_sources, filling};
ghost use Rattle.njh_sched.specs.code.Filling.{message_gone_where, filling_where};

use crate::outgoing::Outgoing;
use crate::record_room::{PLAIN, add_where_room};
use njh_block::{Answer, BlockWriter, Out, Rcb};

/// Adds the answer that waits longest, where it has room.
#[tactic(auto, unfolding(crate::specs::NextBlock::after_source))]
fn add_answer<L: Outgoing>(line: &mut L, answer: Answer, writer: &mut BlockWriter) -> bool
    requires { slice_get (L.outlet line.old).answers 0 ≡ Some answer }
    ensures source { (goes : WholeFile → Bool) (s : CustomerSpool)
        → after_source goes WaitingAnswer (filling writer.old (L.outlet line.old) s)
        ≡ filling_where result writer.new (L.outlet line.new) s }
    ensures outlet { IsTrue result → L.outlet line.new ≡ without_answer (L.outlet line.old) }
    ensures rest { L.rest line.new ≡ L.rest line.old }
{
    let has_room = add_where_room(answer.record(), writer);
    if has_room {
        line.pop_answer();
    }
    has_room
}

/// Adds the answers that wait, until one has no room, and says whether all had.
pub fn add_answers<L: Outgoing>(line: &mut L, writer: &mut BlockWriter) -> bool
    ensures source { (goes : WholeFile → Bool) (s : CustomerSpool)
        → after_sources goes (waiting_answers (L.outlet line.old)) (filling writer.old (L.outlet line.old) s)
        ≡ filling_where result writer.new (L.outlet line.new) s }
    ensures rest { L.rest line.new ≡ L.rest line.old }
{
    while let Some(answer) = line.front_answer() {
        if !add_answer(line, answer, writer) {
            return false;
        }
    }
    true
}

/// Adds a nodal message, where it has room.
#[tactic(auto, unfolding(crate::specs::NextBlock::after_source))]
fn add_message(message: &[u8], writer: &mut BlockWriter) -> bool
    requires { length message.now ≤ 256 }
    ensures { (goes : WholeFile → Bool) (o : Outlet) (s : CustomerSpool) → slice_get o.messages 0 ≡ Some message.now
        → after_source goes WaitingMessage (filling writer.old o s)
        ≡ filling_where result writer.new (message_gone_where result o) s }
{
    let out = Out::Data {
        rcb: Rcb::MESSAGE,
        srcb: PLAIN,
        bytes: message,
    };
    add_where_room(out, writer)
}

/// Adds the nodal messages that wait, until one has no room, and says whether all had.
fn add_all_messages<L: Outgoing>(line: &mut L, writer: &mut BlockWriter) -> bool
    ensures source { (goes : WholeFile → Bool) (s : CustomerSpool)
        → after_sources goes (messages_where true (L.outlet line.old).messages)
        (filling writer.old (L.outlet line.old) s)
        ≡ filling_where result writer.new (L.outlet line.new) s }
    ensures rest { L.rest line.new ≡ L.rest line.old }
{
    while let Some(message) = line.front_message() {
        if !add_message(message, writer) {
            return false;
        }
        line.pop_message();
    }
    true
}

/// Adds the nodal messages that wait, where the peer lets them, until one has no room, and says
/// whether all had.
pub fn add_messages<L: Outgoing>(line: &mut L, writer: &mut BlockWriter) -> bool
    ensures source { (goes : WholeFile → Bool) (s : CustomerSpool)
        → after_sources goes (waiting_messages (L.outlet line.old)) (filling writer.old (L.outlet line.old) s)
        ≡ filling_where result writer.new (L.outlet line.new) s }
    ensures rest { L.rest line.new ≡ L.rest line.old }
{
    if line.peer_fcs().messages_on() {
        add_all_messages(line, writer)
    } else {
        true
    }
}
