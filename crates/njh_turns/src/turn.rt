//! One turn of a wire.

ghost use Rattle.std.specs.Prelude.{◌≡◌, ℕ, ◌<◌, ◌≤◌, [], ◌∷◌, length, List, Option, Some, OnOk, OnErr};
ghost use Rattle.std.specs.Prelude.{IfOk, IsTrue};
ghost use Rattle.njh_turns.specs.Service.{in_round};
ghost use Rattle.std.specs.Vec.{vec_capacity};
ghost use Rattle.njh_bisync.specs.Limits.{longest_frame};
ghost use Rattle.njh_customer.specs.Part.{part_after_bytes, part_after_signal};
ghost use Rattle.njh_hub.specs.declared.event.Event.TheVariants.{Bytes, Lost};
ghost use Rattle.njh_hub.specs.OwnEvents.{event_by};
ghost use Rattle.njh_hub.specs.Resting.{IsResting};
ghost use Rattle.njh_hub.specs.Sent.{IsCounted};
ghost use Rattle.njh_hub.specs.declared.event.Event.{Event};
ghost use Rattle.njh_hub.specs.WholeHub.{Part, part, HasLine, SameLines};
ghost use Rattle.njh_turns.specs.Breaks.{Break, BrokenTurn, EventBreaks, TurnBreaks};
ghost use Rattle.njh_turns.specs.Keeping.{Follows, LeadsHub, LeavesNoMore};
ghost use Rattle.njh_turns.specs.Turns.{Turn, IsTurn, IsHeard, wire_event, quiet_after};
ghost use Rattle.njh_turns.specs.Wires.{IsDone, Unsent, IsReading, heard_of, frame_acts, IsTaken, hub_wire};

use crate::attendant::Attendant;
use crate::keeper::{KeepFault, Keeper};
use crate::wire::Wire;
use crate::wire_reading::{Reading, WireFault};
use njh_bisync::LONGEST_FRAME;
use njh_customer::Signal;
use njh_hub::{Hub, HubFault};
use njh_table::LineId;
use std::alloc::Global;
use std::marker::Model;

/// How many bytes are asked for at once.
const READ_SIZE: usize = 4096;

/// How many quiets in a row are no tick.
const QUIETS: u8 = 9;

/// What turns are taken in: the bytes that a read fills, and the room of the longest frame. It
/// serves one turn after the other, of any wires, and says nothing of any.
#[derive(Drop)]
pub struct TurnRoom {
    buffer: Vec<u8>,
    out: Vec<u8>,
}

impl Model for TurnRoom {
    ghost use Rattle.std.specs.Prelude.{⊤, ◌<◌, ◌≤◌, length};
    ghost use Rattle.std.specs.Vec.{vec_capacity};
    ghost use Rattle.njh_bisync.specs.Limits.{longest_frame};

    ghost Value = { ⊤ };

    ghost view = { λ room. tt };

    ghost invariant = { λ room. (0 < length room.buffer.items) × (longest_frame ≤ vec_capacity room.out) };
}

/// A line, and the place of its wire among those that have turns.
#[derive(Clone, Copy)]
pub struct WirePlace {
    /// The line.
    pub line: LineId,
    /// The place, from 0 on.
    pub place: usize,
}

/// A visit of a line's wire, which is read once.
#[derive(Clone, Copy)]
pub struct Visit {
    /// The line, and the place of the wire.
    pub at: WirePlace,
    /// How many quiets in a row came before.
    pub quiet: u8,
    /// Whether the line, which rests then, is asked for what it has to send.
    pub is_prompted: bool,
}

/// What a read answered, and the buffer that it was given: bytes that came stand at its front. So
/// many quiets in a row came before.
#[derive(Clone, Copy)]
struct ReadAnswer<'a> {
    at: WirePlace,
    reading: Result<Reading, WireFault>,
    buffer: &'a [u8],
    quiet: u8,
}

/// Bytes that came on a wire.
#[derive(Clone, Copy)]
struct PieceAt<'a> {
    at: WirePlace,
    piece: &'a [u8],
}

/// A signal on the line of a wire.
#[derive(Clone, Copy)]
struct LineSignal {
    at: WirePlace,
    signal: Signal,
}

impl WirePlace {
    /// A signal on its line.
    fn signal(self, signal: Signal) -> LineSignal
        ensures { result ≡ record { at = self; signal = signal } }
    {
        LineSignal { at: self, signal }
    }
}

impl TurnRoom {
    /// Room that every turn finds enough. Want of memory is the only refusal.
    pub fn new(alloc: Global) -> Result<TurnRoom, HubFault>
        ensures { OnErr result (result ≡ Err HubFault.Memory) }
    {
        Ok(TurnRoom {
            buffer: vec![in alloc; 0u8; READ_SIZE]?,
            out: Vec::with_capacity(alloc, LONGEST_FRAME)?,
        })
    }
}

/// One turn of a wire of a line: reads it once, hands the hub what came of that, and writes each
/// frame that the hub sends, once the keeper has taken in what the step made of the customer's
/// files. No byte goes out: what is written waits until it is kept.
///
/// Bytes that came are handed over until they are used. Each tenth quiet in a row is a tick, and so
/// is what a wire that was prompted answers for want of bytes. The answer is how many quiets in a
/// row there are now: as many as before where the wire's answer is pending. A wire that is closed
/// or can't be read loses its line. So does one that can't be written, and what was left of the
/// bytes is dropped. Takes no memory, and clears none.
///
/// Where the keeper fails the frame of that step isn't written, and nothing is done after it; the
/// attendant isn't told of that step.
pub fn wire_turn<W: Wire, K: Keeper, A: Attendant<W>>(
    visit: Visit,
    hub: &mut Hub,
    keeper: &mut K,
    attendant: &mut A,
    wire: &mut W,
    room: &mut TurnRoom,
) -> Result<u8, KeepFault>
    requires known { HasLine hub.old visit.at.line }
    requires follows { K.says.knows keeper.old hub.old }
    requires few { visit.quiet < 10 }
    requires resting { IsTrue visit.is_prompted → IsResting hub.old visit.at.line }
    requires asked { A.stands attendant.old in_round }
    ensures turn { IfOk result (λ quiets. (turn : Turn)
        × IsTurn W.says visit.at.line visit.quiet (hub_wire hub.old wire.old) turn (hub_wire hub.new wire.new)
        × (quiets ≡ quiet_after visit.quiet turn.heard)) }
    ensures breaks { OnErr result ((turn : BrokenTurn)
        × TurnBreaks W.says visit.at.line visit.quiet (hub_wire hub.old wire.old) turn (hub_wire hub.new wire.new)) }
    ensures follows { Follows K.says keeper.old result hub.new keeper.new }
    ensures asked { A.stands attendant.new in_round }
    ensures withheld { W.says.withheld wire.old wire.new }
    ensures few { IfOk result (λ quiets. quiets < 10) }
    ensures lines { SameLines hub.old hub.new }
{
    let buffer = room.buffer.as_mut_slice();
    let reading = wire.read(buffer, visit.is_prompted);
    let answer = ReadAnswer {
        at: visit.at,
        reading,
        buffer,
        quiet: visit.quiet,
    };
    let quiets = quiets_behind(answer);
    act_on(answer, hub, keeper, attendant, wire, &mut room.out)?;
    Ok(quiets)
}

/// The quiets in a row behind an answer.
fn quiets_behind(answer: ReadAnswer<'_>) -> u8
    requires few { answer.quiet < 10 }
    ensures quiets { result ≡ quiet_after answer.entry.quiet
        (heard_of answer.entry.reading answer.entry.buffer.now) }
    ensures few { result < 10 }
{
    match answer.reading {
        Ok(Reading::Quiet) => {
            if answer.quiet < QUIETS {
                answer.quiet + 1
            } else {
                0
            }
        }
        Ok(Reading::Pending) => answer.quiet,
        Ok(Reading::Prompted) => 0,
        Ok(Reading::Bytes(_)) => 0,
        Ok(Reading::Closed) => 0,
        Ok(Reading::Absent) => 0,
        Err(_) => 0,
    }
}

/// Hands the hub what a read answered.
fn act_on<W: Wire, K: Keeper, A: Attendant<W>>(
    answer: ReadAnswer<'_>,
    hub: &mut Hub,
    keeper: &mut K,
    attendant: &mut A,
    wire: &mut W,
    out: &mut Vec<u8>,
) -> Result<(), KeepFault>
    requires within { IfOk answer.reading (IsReading (length answer.buffer.now)) }
    requires known { HasLine hub.old answer.at.line }
    requires follows { K.says.knows keeper.old hub.old }
    requires few { answer.quiet < 10 }
    requires room { longest_frame ≤ vec_capacity out.old }
    requires asked { A.stands attendant.old in_round }
    ensures heard { let heard = heard_of answer.entry.reading answer.entry.buffer.now in
        OnOk result ((cut : Option ℕ) × IsHeard W.says (hub_wire hub.old wire.old)
        (wire_event answer.entry.at.line answer.entry.quiet heard) cut (hub_wire hub.new wire.new)) }
    ensures breaks { let heard = heard_of answer.entry.reading answer.entry.buffer.now in
        OnErr result ((event : Event) × (wire_event answer.entry.at.line answer.entry.quiet heard ≡ Some event)
        × (break : Break) × EventBreaks W.says (hub_wire hub.old wire.old) event break (hub_wire hub.new wire.new)) }
    ensures follows { Follows K.says keeper.old result hub.new keeper.new }
    ensures asked { A.stands attendant.new in_round }
    ensures withheld { W.says.withheld wire.old wire.new }
    ensures lines { SameLines hub.old hub.new }
    ensures room { longest_frame ≤ vec_capacity out.new }
{
    let at = answer.at;
    match answer.reading {
        Ok(Reading::Bytes(count)) => {
            let piece = &answer.buffer[..count];
            pass_bytes(PieceAt { at, piece }, hub, keeper, attendant, wire, out)
        }
        Ok(Reading::Quiet) => {
            if answer.quiet < QUIETS {
                return Ok(());
            }
            pass_signal(at.signal(Signal::Tick), hub, keeper, attendant, wire, out)
        }
        Ok(Reading::Pending) => Ok(()),
        Ok(Reading::Prompted) => {
            pass_signal(at.signal(Signal::Tick), hub, keeper, attendant, wire, out)
        }
        Ok(Reading::Closed) => {
            pass_signal(at.signal(Signal::Lost), hub, keeper, attendant, wire, out)
        }
        Ok(Reading::Absent) => Ok(()),
        Err(_) => pass_signal(at.signal(Signal::Lost), hub, keeper, attendant, wire, out),
    }
}

/// Hands the hub bytes of a line and writes each frame that it sends, once the keeper has followed
/// the step. Where a write fails the line is lost.
fn pass_bytes<W: Wire, K: Keeper, A: Attendant<W>>(
    arrival: PieceAt<'_>,
    hub: &mut Hub,
    keeper: &mut K,
    attendant: &mut A,
    wire: &mut W,
    out: &mut Vec<u8>,
) -> Result<(), KeepFault>
    requires known { HasLine hub.old arrival.at.line }
    requires follows { K.says.knows keeper.old hub.old }
    requires room { longest_frame ≤ vec_capacity out.old }
    requires asked { A.stands attendant.old in_round }
    ensures seen { OnOk result (0 < length arrival.entry.piece.now →
        A.saw attendant.new arrival.entry.at.place hub.new out.new.items) }
    ensures done { let event = Bytes arrival.entry.at.line arrival.entry.piece.now in OnOk result ((cut : Option ℕ)
        × IsDone W.says (hub_wire hub.old wire.old) event cut (hub_wire hub.new wire.new)) }
    ensures breaks { let event = Bytes arrival.entry.at.line arrival.entry.piece.now in OnErr result ((break : Break)
        × EventBreaks W.says (hub_wire hub.old wire.old) event break (hub_wire hub.new wire.new)) }
    ensures follows { Follows K.says keeper.old result hub.new keeper.new }
    ensures asked { A.stands attendant.new in_round }
    ensures withheld { W.says.withheld wire.old wire.new }
    ensures lines { SameLines hub.old hub.new }
    ensures room { longest_frame ≤ vec_capacity out.new }
{
    let PieceAt { at, piece } = arrival;
    let mut taken = 0;
    while taken < piece.len() {
        let (_, left) = piece.split_at(taken);
        let used = take_bytes(hub, at.line, left, out);
        follow(at, hub, keeper, attendant, out)?;
        taken += used;
        match send(wire, out) {
            Ok(()) => {}
            Err(_) => return lose(at, hub, keeper, attendant, out),
        }
    }
    Ok(())
}

/// Hands the hub a signal on a line and writes the frame that it sends, once the keeper has
/// followed the step. Where the write fails the line is lost.
fn pass_signal<W: Wire, K: Keeper, A: Attendant<W>>(
    given: LineSignal,
    hub: &mut Hub,
    keeper: &mut K,
    attendant: &mut A,
    wire: &mut W,
    out: &mut Vec<u8>,
) -> Result<(), KeepFault>
    requires known { HasLine hub.old given.at.line }
    requires follows { K.says.knows keeper.old hub.old }
    requires room { longest_frame ≤ vec_capacity out.old }
    requires asked { A.stands attendant.old in_round }
    ensures seen { OnOk result (A.saw attendant.new given.at.place hub.new out.new.items) }
    ensures done { let event = event_by given.signal given.at.line in OnOk result ((cut : Option ℕ)
        × IsDone W.says (hub_wire hub.old wire.old) event cut (hub_wire hub.new wire.new)) }
    ensures breaks { let event = event_by given.signal given.at.line in OnErr result ((break : Break)
        × EventBreaks W.says (hub_wire hub.old wire.old) event break (hub_wire hub.new wire.new)) }
    ensures follows { Follows K.says keeper.old result hub.new keeper.new }
    ensures asked { A.stands attendant.new in_round }
    ensures withheld { W.says.withheld wire.old wire.new }
    ensures lines { SameLines hub.old hub.new }
    ensures room { longest_frame ≤ vec_capacity out.new }
{
    let LineSignal { at, signal } = given;
    take_signal(hub, at.line, signal, out);
    follow(at, hub, keeper, attendant, out)?;
    match send(wire, out) {
        Ok(()) => Ok(()),
        Err(_) => lose(at, hub, keeper, attendant, out),
    }
}

/// The loss of a line, which the keeper follows. It sends no frame.
fn lose<W: Wire, K: Keeper, A: Attendant<W>>(
    at: WirePlace,
    hub: &mut Hub,
    keeper: &mut K,
    attendant: &mut A,
    out: &mut Vec<u8>,
) -> Result<(), KeepFault>
    requires known { HasLine hub.old at.line }
    requires follows { K.says.knows keeper.old hub.old }
    requires room { longest_frame ≤ vec_capacity out.old }
    requires asked { A.stands attendant.old in_round }
    ensures step { let t = part_after_signal (part at.line.customer hub.old) at.line.number Signal.Lost in
        IsTaken hub.old at.line t.after t.frame hub.new out.new }
    ensures follows { Follows K.says keeper.old result hub.new keeper.new }
    ensures seen { OnOk result (A.saw attendant.new at.place hub.new out.new.items) }
    ensures asked { A.stands attendant.new in_round }
{
    take_signal(hub, at.line, Signal::Lost, out);
    follow(at, hub, keeper, attendant, out)
}

/// The keeper follows a step on a line, which sent this frame, and then the attendant is told of
/// it.
fn follow<W: Wire, K: Keeper, A: Attendant<W>>(
    at: WirePlace,
    hub: &Hub,
    keeper: &mut K,
    attendant: &mut A,
    frame: &[u8],
) -> Result<(), KeepFault>
    requires led { (before : List Part) × K.says.knows keeper.old before × LeadsHub at.line.customer before hub.now }
    requires asked { A.stands attendant.old in_round }
    ensures known { OnOk result (K.says.knows keeper.new hub.now) }
    ensures leaves { LeavesNoMore K.says keeper.old keeper.new }
    ensures faultless { OnOk result (K.says.count keeper.new ≡ K.says.count keeper.old) }
    ensures counts { K.says.count keeper.old ≤ K.says.count keeper.new }
    ensures counted { OnErr result (IsCounted (K.says.count keeper.old) (K.says.count keeper.new)) }
    ensures seen { OnOk result (A.saw attendant.new at.place hub.now frame.now) }
    ensures untold { OnErr result (attendant.new ≡ attendant.old) }
    ensures asked { A.stands attendant.new in_round }
{
    keeper.follow(hub, at.line.customer)?;
    attendant.stepped(at.place, hub, frame);
    Ok(())
}

/// A step by bytes, in the room that `out` has.
fn take_bytes(hub: &mut Hub, id: LineId, piece: &[u8], out: &mut Vec<u8>) -> usize
    requires known { HasLine hub.old id }
    requires room { longest_frame ≤ vec_capacity out.old }
    ensures taken { result ≡ (part_after_bytes (part id.customer hub.old) id.number piece.now).taken }
    ensures progress { 0 < length piece.now → 0 < result }
    ensures within { result ≤ length piece.now }
    ensures rests { id.number < length (part id.customer hub.old).rests }
    ensures step { let t = part_after_bytes (part id.customer hub.old) id.number piece.now in
        IsTaken hub.old id t.after t.frame hub.new out.new }
{
    out.clear();
    hub.take(id, piece, out).unwrap()
}

/// A step by a signal, in the room that `out` has.
fn take_signal(hub: &mut Hub, id: LineId, signal: Signal, out: &mut Vec<u8>)
    requires known { HasLine hub.old id }
    requires room { longest_frame ≤ vec_capacity out.old }
    ensures { let t = part_after_signal (part id.customer hub.old) id.number signal in
        IsTaken hub.old id t.after t.frame hub.new out.new }
{
    out.clear();
    hub.signal(id, signal, out).unwrap();
}

/// Writes the frame of a step, where one was sent.
fn send<W: Wire>(wire: &mut W, frame: &[u8]) -> Result<(), WireFault>
    ensures ok { OnOk result (W.says.passed wire.old wire.new (frame_acts frame.now)) }
    ensures err { OnErr result (W.says.passed wire.old wire.new (Unsent frame.now ∷ []) × (0 < length frame.now)) }
    ensures withheld { W.says.withheld wire.old wire.new }
    ensures counts { W.says.count wire.old ≤ W.says.count wire.new }
    ensures counted { OnErr result (IsCounted (W.says.count wire.old) (W.says.count wire.new)) }
{
    if frame.is_empty() {
        return Ok(());
    }
    wire.write(frame)
}
