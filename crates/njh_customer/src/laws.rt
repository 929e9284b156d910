//! Laws of the definitions: what holds of all runs of a customer by itself, whoever computes them.

ghost use Rattle.std.specs.Prelude.{◌≤◌, All};
ghost use Rattle.njh_table.specs.Entries.{CustomerEntry};
ghost use Rattle.njh_customer.specs.Customer.{fresh_customer};
ghost use Rattle.njh_customer.specs.code.Coherence.{IsCoherent};
ghost use Rattle.njh_customer.specs.Disregarding.{BadBlocksAreDisregarded, GarbledIsDisregarded, SpoiledIsDisregarded};
ghost use Rattle.njh_customer.specs.Growing.{EventsKeepShortRests, FilesGrowFurther, ManyRecordsGoOn};
ghost use Rattle.njh_customer.specs.Growing.{OpenedHasShortRests, OrdersGrowFiles, PartialsAreNumbered};
ghost use Rattle.njh_customer.specs.Growing.{ReroutesKeepCounts};
ghost use Rattle.njh_customer.specs.Growing.{RoutesGrowFiles, SignalsGrowFiles, TakesGrowFiles, TakesKeepShortRests};
ghost use Rattle.njh_customer.specs.Laws.{CutsAreLike, FirstBytesSendFirst, NoBytesDoNothing, StepsFollowBytes};
ghost use Rattle.njh_customer.specs.Laws.{EventsKeepEntries, EventsKeepFaults, EventsKeepLines, MarksAreRight};
ghost use Rattle.njh_customer.specs.Laws.{TakesKeepEntries, TicksSendNext};
ghost use Rattle.njh_customer.specs.MovingLaws.{EventsMoveSo, FilesLeaveSo, FilesLeaveSoBetween, FramesDoSo};
ghost use Rattle.njh_customer.specs.MovingLaws.{IdleStreamsTakeFiles, OrdersDoSo, RecordsChangeSo, RoutesDoSo};
ghost use Rattle.njh_customer.specs.MovingLaws.{SignalsDoSo};
ghost use Rattle.njh_customer.specs.MovingLaws.{StreamsMoveSo, TakesMoveSo};
ghost use Rattle.njh_customer.specs.InOrder.{LossesLeaveFiles, StaysInOrder};
ghost use Rattle.njh_customer.specs.Surviving.{EventsKeepFiles, FilesGoOnFurther, FilesSurvive, FirstFilesSurvive};
ghost use Rattle.njh_customer.specs.Surviving.{RunsKeepFiles, SurvivorsAreNumbered, TakesKeepFiles};

/// It doesn't matter how the bytes of a line are cut into pieces.
#[tactic(auto, using(crate::proofs::PieceLaws::cuts_are_like))]
pub fn cuts_are_like()
    ensures { CutsAreLike }
{}

/// A piece without bytes changes nothing and sends nothing.
#[tactic(auto, using(crate::proofs::PieceLaws::no_bytes_do_nothing))]
pub fn no_bytes_do_nothing()
    ensures { NoBytesDoNothing }
{}

/// A run over the bytes of a line may be done in steps.
#[tactic(auto, using(crate::proofs::PieceLaws::steps_follow_bytes))]
pub fn steps_follow_bytes()
    ensures { StepsFollowBytes }
{}

/// The frames that the first bytes of a piece send come first of those that the piece sends.
#[tactic(auto, using(crate::proofs::PieceLaws::first_bytes_send_first))]
pub fn first_bytes_send_first()
    ensures { FirstBytesSendFirst }
{}

/// An event changes a customer's routes and the marks of its lines alone in what the tables say of
/// it, so the same routes may be given to it before the event and after it; and it has as many
/// lines. A step by bytes changes the marks alone.
#[tactic(auto, using(crate::proofs::EventMoves::entries_kept))]
pub fn events_keep_entries()
    ensures entry { EventsKeepEntries }
    ensures takes { TakesKeepEntries }
    ensures faults { EventsKeepFaults }
    ensures lines { EventsKeepLines }
{}

/// The lines that are marked as up are those that are up, when a customer is opened and whatever
/// comes to it.
#[tactic(auto, using(crate::proofs::MarkLaws::marks_right))]
pub fn marks_are_right()
    ensures { MarksAreRight }
{}

/// A tick on a line whose session is up and has the turn sends its next block, where that would be
/// sent, else ACK0. `Lines::has_next` tells which.
#[tactic(auto, using(crate::proofs::TickLaws::ticks_send_next))]
pub fn ticks_send_next()
    ensures { TicksSendNext }
{}

/// A customer that was just opened is coherent.
pub fn opened_is_coherent()
    ensures { (entry : CustomerEntry) → All (λ line. line.streams ≤ 4) entry.lines → IsCoherent (fresh_customer entry) }
{}

/// A customer's streams, files and lines agree with each other, when it is opened, whatever comes
/// to it, by routes that it is given, and if a whole file is put back: no two files have one
/// number, and they stay within the customer's quota and limit; those that are being sent are those
/// that a stream from the hub is about, each on one stream; a line that isn't up has no stream
/// about a file and no answer that waits; a partial file comes on a stream; each line is set up as
/// the entry says.
#[tactic(auto, using(crate::proofs::OrderLaws::stays_in_order))]
pub fn customers_stay_in_order()
    ensures { StaysInOrder }
{}

/// A customer that loses the sessions of all its lines has all its whole files, in their order and
/// with their records, Held if they were Held, and none that is being sent. It has no other
/// file, no line is up, no stream is about a file, no answer waits, and nothing has come of a
/// frame.
pub fn lost_lines_leave_files()
    ensures { LossesLeaveFiles }
{}

/// What each frame and each signal does to the customer's whole files and to its streams from the
/// hub: its records act, a frame goes out, and the session goes on or ends. A new block carries,
/// under each stream's RCB, the stream's file from its place before the block to its place after
/// it, each record once and in order, and the end of file only after the last. Any other frame
/// moves nothing, the last transmission that goes out again among them. New routes move no line and
/// send nothing; an order sends nothing either.
#[tactic(auto, using(crate::proofs::EventMoves::steps_do_so))]
pub fn frames_do_so()
    ensures frames { FramesDoSo }
    ensures signals { SignalsDoSo }
    ensures routes { RoutesDoSo }
    ensures orders { OrdersDoSo }
{}

/// An event, and a step by bytes, move the customer's whole files and its streams from the hub by a
/// few kinds of moves and no others. New routes move no stream, and of the files those alone that
/// are Ready or Refused and whose node has no route by them: these are Held. An order moves what
/// the command moves that it is, and nothing if it is none.
#[tactic(auto, using(crate::proofs::EventMoves::moves_of_events))]
pub fn events_move_so()
    ensures events { EventsMoveSo }
    ensures takes { TakesMoveSo }
{}

/// A whole file leaves the spool only by the command CANCEL of its owner by its name, on a line or
/// by an order, or by C0 to the stream that has sent its end of file; by new routes none does.
pub fn files_leave_so()
    ensures one { FilesLeaveSo }
    ensures between { FilesLeaveSoBetween }
{}

/// Which whole files are new: after all that comes, the files are some of those that were there, in
/// their order and each of its number, of its kind and with its records but for what REROUTE wrote,
/// and after them others, at most as many as were counted (`arrived`). So all but the last, as
/// many as the count went on by, were there, and the number of each says which it was. The count
/// mustn't be at its greatest.
pub fn files_survive()
    ensures moves { FilesSurvive }
    ensures events { EventsKeepFiles }
    ensures takes { TakesKeepFiles }
    ensures runs { RunsKeepFiles }
    ensures further { FilesGoOnFurther }
    ensures first { FirstFilesSurvive }
    ensures numbers { SurvivorsAreNumbered }
{}

/// What becomes of a customer's files whose end hasn't come, in a step by bytes of a line, by a
/// signal, by new routes and by an order. A file that becomes whole, and a file that is partial
/// afterwards, goes on from a partial file of its number and its kind: it has that one's records,
/// and after them at most as many as the step brought; or it has no more than these. So a file with
/// more has that partial file's records, but for what REROUTE wrote after it was whole. The records
/// of one block at most act in a step, of which fewer than 1,366 have data; by a signal, by new
/// routes and by an order none comes. What has come of a line's next frame must be of no more than
/// the 4,096 bytes of a text, and it is, whatever came since the customer was opened. Which partial
/// file it was says its number. A file that was given up just isn't there.
#[tactic(auto, using(crate::proofs::StepsGrow::growing))]
pub fn files_grow()
    ensures takes { TakesGrowFiles }
    ensures signals { SignalsGrowFiles }
    ensures routes { RoutesGrowFiles }
    ensures orders { OrdersGrowFiles }
    ensures further { FilesGrowFurther }
    ensures opened { OpenedHasShortRests }
    ensures events { EventsKeepShortRests }
    ensures steps { TakesKeepShortRests }
    ensures rerouted { ReroutesKeepCounts }
    ensures many { ManyRecordsGoOn }
    ensures numbers { PartialsAreNumbered }
{}

/// How a stream from the hub moves. It takes a file only if it is idle. A0 makes it send the
/// file it asked for, from place 0 on. From then on its place moves only by the file's record at it
/// going out in a new block, by one; and if there is no record at it the end of file goes out,
/// and that alone makes it wait for C0. By new routes none moves, and by an order those alone whose
/// file CANCEL removes.
#[tactic(auto, using(crate::proofs::StreamMoveLaws::moves_of_streams))]
pub fn streams_move_so()
    ensures each { StreamsMoveSo }
    ensures taken { IdleStreamsTakeFiles }
{}

/// A whole file's records change by the command REROUTE of its owner by its name alone, on a line
/// or by an order, in the eight bytes of a destination's node, and not while it is being sent. New
/// routes change of a file at most its state, from Ready or Refused to Held.
#[tactic(auto, using(crate::proofs::RecordsChange::records_change))]
pub fn records_change_so()
    ensures { RecordsChangeSo }
{}

/// A text that is spoiled or is no block, and a block whose check failed, change no file, no stream
/// and nothing that waits, on no line; but if five tries were made before, the line's session
/// ends.
pub fn bad_texts_change_nothing()
    ensures spoiled { SpoiledIsDisregarded }
    ensures bad { BadBlocksAreDisregarded }
    ensures garbled { GarbledIsDisregarded }
{}
