//! Laws of the definitions. Each function does nothing: its contract is the law.

ghost use Rattle.std.specs.Prelude.{◌≡◌, ℕ, ◌<◌, true, ◌&&◌, List, [], length, map};
ghost use Rattle.njh_block.specs.Codes.{kind_of};
ghost use Rattle.njh_record.specs.declared.Kind.{Kind};
ghost use Rattle.njh_table.specs.Entries.{CustomerEntry};
ghost use Rattle.njh_spool.specs.CustomerSpool.{CustomerSpool, without_partial, has_block, has_file_room, next_number};
ghost use Rattle.njh_stream.specs.Following.{Moment, coming_at, outcome_of_moments, following_from, IsUntouched};
ghost use Rattle.njh_stream.specs.Outcomes.{AFile, Becomes, Ending, TransmissionOutcome, records_of};
ghost use Rattle.njh_stream.specs.Receiving.{Arrival, Request, received_arrival, received_request, without_all_open};
ghost use Rattle.njh_stream.specs.Receiving.{without_open};
ghost use Rattle.njh_stream.specs.Streams.{stream_at, streams_at, with_stream, without_streams};
ghost use Rattle.njh_stream.specs.code.Agreement.{Agrees, AreTied};
ghost use Rattle.njh_stream.specs.WholeFiles.{HaveHeaders};
ghost use Rattle.njh_stream.specs.Transmissions.{ComingRecord};
ghost use Rattle.njh_header.specs.WholeFiles.{HasHeaders};
ghost use Rattle.njh_record.specs.Stored.{Stored};

use crate::receiver::{Progress, Receiver};

/// Of the records that came and how it ended, a transmission becomes one thing and no other.
pub fn one_outcome()
    ensures some { (entry : CustomerEntry) (l : ℕ) (kind : Kind) (cs : List ComingRecord) (ending : Ending)
        → (outcome : TransmissionOutcome) × Becomes entry l kind cs ending outcome }
    ensures one { (entry : CustomerEntry) (l : ℕ) (kind : Kind) (cs : List ComingRecord) (ending : Ending)
        (a b : TransmissionOutcome)
        → Becomes entry l kind cs ending a → Becomes entry l kind cs ending b → a ≡ b }
{}

/// A transmission that becomes a file has headers that read: they say its name, its owner and its
/// destination.
pub fn files_have_headers()
    ensures come { (entry : CustomerEntry) (l : ℕ) (kind : Kind) (cs : List ComingRecord) (ending : Ending)
        (records : List Stored) → Becomes entry l kind cs ending (AFile records) → HasHeaders kind records }
{}

/// What comes on a stream leaves a customer's whole files with headers that read.
pub fn whole_files_have_headers()
    ensures { (entry : CustomerEntry) (l : ℕ) (kind : Kind) (receiver : Receiver) (a : Arrival) (s : CustomerSpool)
        → Agrees kind receiver s → HaveHeaders s.whole
        → HaveHeaders (received_arrival entry l kind receiver a s).spool.whole }
{}

/// A stream that is followed from a permitted request on, arrival by arrival, answers, tells and
/// leaves what the whole list of its records becomes, however they are spread over blocks and
/// whatever the customer's other streams do between.
pub fn streams_end_so()
    ensures ends { (entry : CustomerEntry) (l : ℕ) (kind : Kind) (s last : CustomerSpool) (ms : List Moment)
        (ending : Ending) (srcb : ℕ)
        (outcome : TransmissionOutcome) → (has_file_room s && has_block s) ≡ true
        → IsUntouched entry l kind last (received_request kind s).receiver (received_request kind s).spool ms
        → Becomes entry l kind (map (coming_at (next_number s)) ms) ending outcome
        → outcome_of_moments entry l kind ending srcb last (received_request kind s).receiver ms
        ≡ following_from outcome (next_number s) kind (records_of (map (coming_at (next_number s)) ms)) last }
    ensures dropped { (entry : CustomerEntry) (l : ℕ) (kind : Kind) (n : ℕ) (progress : Progress) (a : Arrival)
        (s : CustomerSpool)
        → (received_arrival entry l kind (Receiver.Open n progress) a s).receiver ≡ Receiver.Draining
        → (received_arrival entry l kind (Receiver.Open n progress) a s).spool ≡ without_partial n s }
    ensures cut { (entry : CustomerEntry) (l : ℕ) (kind : Kind) (receiver : Receiver) (s : CustomerSpool)
        → received_arrival entry l kind receiver Request s ≡ received_request kind (without_open receiver s) }
{}

/// A customer's streams and its partial files stay tied: each open stream keeps what its file says,
/// no two have the same file, and none is without a stream. So it is where nothing comes, and so it
/// stays through every arrival on any stream, the end of any line's session, and all that touches
/// no partial file.
pub fn streams_stay_tied()
    ensures at_rest { (lines : List (List Receiver)) (s : CustomerSpool)
        → ((l k : ℕ) → stream_at l k lines ≡ Receiver.Idle)
        → s.partial ≡ [] → AreTied lines s }
    ensures arrival { (entry : CustomerEntry) (l k : ℕ) (a : Arrival) (lines : List (List Receiver)) (s : CustomerSpool)
        → l < length lines → k < length (streams_at l lines) → AreTied lines s
        → AreTied (with_stream l k (received_arrival entry l (kind_of k) (stream_at l k lines) a s).receiver lines)
        (received_arrival entry l (kind_of k) (stream_at l k lines) a s).spool }
    ensures ended { (l : ℕ) (lines : List (List Receiver)) (s : CustomerSpool) → l < length lines → AreTied lines s
        → AreTied (without_streams l lines) (without_all_open (streams_at l lines) s) }
    ensures untouched { (lines : List (List Receiver)) (s t : CustomerSpool) → t.partial ≡ s.partial → AreTied lines s
        → AreTied lines t }
{}
