//! Laws of what the next block holds. Each function does nothing: its contract is the law.

ghost use Rattle.std.specs.Prelude.{◌≡◌, ℕ, ◌<◌, ◌≤◌, Bool, true, false, List, length};
ghost use Rattle.njh_block.specs.Blocks.{all_suspended, rcb_of};
ghost use Rattle.njh_spool.specs.CustomerSpool.{WholeFile};
ghost use Rattle.njh_sched.specs.NextBlock.{Filling, Source, after_source, after_sources, filled_block, sends_file};
ghost use Rattle.njh_sched.specs.NextBlock.{sender_at, sources};
ghost use Rattle.njh_sched.specs.Laws.{Does, EachDoes, records_under};
ghost use Rattle.njh_sched.specs.Fronts.{LongestFrontsFill};
ghost use Rattle.njh_sched.specs.Having.{FirstHasRoom};
ghost use Rattle.njh_sched.specs.Carrying.{Carries, file_records};

use njh_stream::Sender;

/// Where the peer suspends all, nothing is added and nothing moves.
#[tactic(auto, unfolding(crate::specs::NextBlock::filled_block))]
pub fn nothing_where_all_is_suspended()
    ensures { (goes : WholeFile → Bool) (x : Filling) → all_suspended x.outlet.peer_fcs ≡ true
        → filled_block goes x ≡ x }
{}

/// What each source of a block does to a stream, one after the other. A stream that isn't sending,
/// or that the peer suspends, has no record added under its RCB; one that is sending has the file's
/// record at its place, and its place moves by that; where there is no such record it has the end
/// of file. A stream asks for a file only where it was idle. Nothing else moves a stream.
pub fn sources_move_streams_so()
    ensures one { (goes : WholeFile → Bool) (k : ℕ) (source : Source) (x : Filling) → k < 8
        → k < length x.outlet.senders
        → Does goes k x (after_source goes source x) }
    ensures each { (goes : WholeFile → Bool) (k : ℕ) (sources : List Source) (x : Filling) → k < 8
        → k < length x.outlet.senders
        → EachDoes goes k sources x }
{}

/// A block is filled by its sources one after the other, where the peer doesn't suspend all.
#[tactic(auto, unfolding(crate::specs::NextBlock::filled_block))]
pub fn sources_fill_the_block()
    ensures { (goes : WholeFile → Bool) (x : Filling) → all_suspended x.outlet.peer_fcs ≡ false
        → filled_block goes x ≡ after_sources goes (sources x.block.limit x.outlet) x }
{}

/// What goes into a block is the longest front that has room of all that may come from the sources,
/// in their order: each of it has room behind those before it, and with the next one the block
/// wouldn't fit.
pub fn longest_fronts_fill()
    ensures { LongestFrontsFill }
{}

/// A block that had no record has one once it is filled exactly where there is one to come: it has
/// room for whatever comes first.
pub fn first_has_room()
    ensures { FirstHasRoom }
{}

/// What a block carries under a stream's RCB. Of a stream that sends a file: the file's records
/// from the place before the block to the place after it, each once and in order, and the end of
/// file only behind the last one. Of any other stream nothing.
pub fn blocks_carry_files_in_order()
    ensures carried { (goes : WholeFile → Bool) (k n p : ℕ) (x : Filling) → k < 8 → k < length x.outlet.senders
        → sender_at k x.outlet ≡ Sender.Sending n p
        → Carries k n p (file_records n x.spool) (records_under (rcb_of k) x.block.items) (filled_block goes x) }
    ensures quiet { (goes : WholeFile → Bool) (k : ℕ) (x : Filling) → k < 8 → k < length x.outlet.senders
        → sends_file (sender_at k x.outlet) ≡ false
        → records_under (rcb_of k) (filled_block goes x).block.items ≡ records_under (rcb_of k) x.block.items }
{}
