//! Rounds of turns: each wire of some lines has one in each.

ghost use Rattle.std.specs.Prelude.{◌≡◌, ◌<◌, ◌↔◌, List, length, slice_index_or, slice_set, All, IsTrue};
ghost use Rattle.std.specs.Prelude.{IfOk, OnOk, OnErr, Err};
ghost use Rattle.njh_hub.specs.Resting.{IsResting};
ghost use Rattle.njh_hub.specs.WholeHub.{HasLine, SameLines};
ghost use Rattle.njh_turns.specs.Breaks.{AreWithheld, BrokenTurn, RoundBreaks, RoundStops, TurnBreaks};
ghost use Rattle.njh_turns.specs.Keeping.{Follows, IsSettled, Keeps};
ghost use Rattle.njh_turns.specs.Service.{in_round};
ghost use Rattle.njh_turns.specs.Turns.{Turn, IsRound, IsTurn, no_line_id, no_quiets, quiet_after, moment, hub_wires};
ghost use Rattle.njh_turns.specs.Wires.{hub_wire};

use crate::attendant::Attendant;
use crate::keeper::{KeepFault, Keeper};
use crate::turn::{TurnRoom, Visit, WirePlace, wire_turn};
use crate::wire::Wire;
use njh_hub::{Hub, HubFault};
use njh_table::LineId;
use std::alloc::Global;
use std::marker::Model;

/// Lines that have wires, how many quiets in a row came on each, and the room of their turns.
#[derive(Drop)]
pub struct Rounds {
    lines: Vec<LineId>,
    quiets: Vec<u8>,
    room: TurnRoom,
}

impl Model for Rounds {
    ghost use Rattle.std.specs.Prelude.{◌≡◌, ◌<◌, length, All};
    ghost use Rattle.njh_turns.specs.Turns.{LineQuiets};

    ghost Value = { LineQuiets };

    ghost view = { λ rounds. record { lines = rounds.lines.items; quiets = rounds.quiets.items } };

    ghost invariant = { λ rounds. (length rounds.quiets.items ≡ length rounds.lines.items) ×
        All (λ quiet. quiet < 10) rounds.quiets.items };
}

impl Rounds {
    /// Rounds of the wires of these lines, on which no quiet came yet. Want of memory is the only
    /// refusal.
    pub fn new(alloc: Global, lines: &[LineId]) -> Result<Rounds, HubFault>
        ensures lines { IfOk result (λ rounds. rounds.lines ≡ lines.now) }
        ensures calm { IfOk result (λ rounds. rounds.quiets ≡ no_quiets lines.now) }
        ensures memory { OnErr result (result ≡ Err HubFault.Memory) }
    {
        Ok(Rounds {
            lines: Vec::from_slice(alloc, lines)?,
            quiets: vec![in alloc; 0u8; lines.len()]?,
            room: TurnRoom::new(alloc)?,
        })
    }

    /// The lines, in the order of their turns.
    pub fn lines(&self) -> &[LineId]
        ensures { result.now ≡ self.now.lines }
    {
        self.lines.as_slice()
    }

    /// One turn of each wire, in the order of the lines, and then what the turns made of the files
    /// is kept; up to a fault of the keeper. Only those wires are visited that are due: any other
    /// has the turn of an answer `Pending`. No byte goes out. Takes no memory.
    pub fn take_due<W: Wire, K: Keeper, A: Attendant<W>>(
        &mut self,
        hub: &mut Hub,
        keeper: &mut K,
        wires: &mut [W],
        attendant: &mut A,
    ) -> Result<(), KeepFault>
        requires same { length wires.old ≡ length self.old.lines }
        requires known { All (HasLine hub.old) self.old.lines }
        requires settled { IsSettled K.says keeper.old hub.old }
        requires asked { A.stands attendant.old in_round }
        ensures round { let before = moment hub.old self.old.quiets wires.old in
            let after = moment hub.new self.new.quiets wires.new in
            OnOk result ((round : List Turn) × (length round ≡ length self.old.lines)
            × IsRound W.says self.old.lines before round after) }
        ensures asked { A.stands attendant.new in_round }
        ensures breaks { OnErr result (RoundBreaks W.says (K.says.may_leave keeper.new) self.old.lines
            (moment hub.old self.old.quiets wires.old) (hub_wires hub.new wires.new)) }
        ensures keeps { Keeps K.says keeper.old result hub.new keeper.new }
        ensures same { self.new.lines ≡ self.old.lines }
        ensures lines { SameLines hub.old hub.new }
    {
        self.visit(hub, keeper, wires, attendant)?;
        keeper.settle()
    }

    /// One turn of each wire that is due, in the order of the lines.
    fn visit<W: Wire, K: Keeper, A: Attendant<W>>(
        &mut self,
        hub: &mut Hub,
        keeper: &mut K,
        wires: &mut [W],
        attendant: &mut A,
    ) -> Result<(), KeepFault>
        requires same { length wires.old ≡ length self.old.lines }
        requires known { All (HasLine hub.old) self.old.lines }
        requires follows { K.says.knows keeper.old hub.old }
        requires asked { A.stands attendant.old in_round }
        ensures round { let before = moment hub.old self.old.quiets wires.old in
            let after = moment hub.new self.new.quiets wires.new in
            OnOk result ((round : List Turn) × (length round ≡ length self.old.lines)
            × IsRound W.says self.old.lines before round after) }
        ensures asked { A.stands attendant.new in_round }
        ensures stops { OnErr result (RoundStops W.says self.old.lines
            (moment hub.old self.old.quiets wires.old) (hub_wires hub.new wires.new)) }
        ensures follows { Follows K.says keeper.old result hub.new keeper.new }
        ensures withheld { AreWithheld W.says wires.old wires.new }
        ensures same { self.new.lines ≡ self.old.lines }
        ensures lines { SameLines hub.old hub.new }
    {
        for i in 0..self.lines.len() {
            if !attendant.is_due(i) {
                continue;
            }
            self.take_turn(i, hub, keeper, &mut wires[i], attendant)?;
        }
        Ok(())
    }

    /// The turn of the wire of the line at this place, which is prompted where the line rests and
    /// the attendant wants it.
    fn take_turn<W: Wire, K: Keeper, A: Attendant<W>>(
        &mut self,
        place: usize,
        hub: &mut Hub,
        keeper: &mut K,
        wire: &mut W,
        attendant: &mut A,
    ) -> Result<(), KeepFault>
        requires within { place < length self.old.lines }
        requires known { HasLine hub.old (slice_index_or self.old.lines place no_line_id) }
        requires follows { K.says.knows keeper.old hub.old }
        requires asked { A.stands attendant.old in_round }
        ensures turn { let id = slice_index_or self.old.lines place no_line_id in
            let quiet = slice_index_or self.old.quiets place 0 in
            OnOk result ((turn : Turn)
            × IsTurn W.says id quiet (hub_wire hub.old wire.old) turn (hub_wire hub.new wire.new)
            × (self.new.quiets ≡ slice_set self.old.quiets place (quiet_after quiet turn.heard))) }
        ensures asked { A.stands attendant.new in_round }
        ensures breaks { let id = slice_index_or self.old.lines place no_line_id in
            let quiet = slice_index_or self.old.quiets place 0 in
            OnErr result ((turn : BrokenTurn)
            × TurnBreaks W.says id quiet (hub_wire hub.old wire.old) turn (hub_wire hub.new wire.new)) }
        ensures follows { Follows K.says keeper.old result hub.new keeper.new }
        ensures withheld { W.says.withheld wire.old wire.new }
        ensures same { self.new.lines ≡ self.old.lines }
        ensures lines { SameLines hub.old hub.new }
    {
        let visit = self.visit_at(place, hub, attendant);
        self.quiets[place] = wire_turn(visit, hub, keeper, attendant, wire, &mut self.room)?;
        Ok(())
    }

    /// The visit of the wire at this place. It is prompted if its line rests and the attendant wants
    /// it.
    fn visit_at<W: Wire, A: Attendant<W>>(&self, place: usize, hub: &Hub, attendant: &A) -> Visit
        requires within { place < length self.now.lines }
        requires known { HasLine hub.now (slice_index_or self.now.lines place no_line_id) }
        ensures line { result.at.line ≡ slice_index_or self.now.lines place no_line_id }
        ensures place { result.at.place ≡ place }
        ensures quiet { result.quiet ≡ slice_index_or self.now.quiets place 0 }
        ensures prompted { IsTrue result.is_prompted ↔ IsResting hub.now result.at.line
            × A.wants attendant.now place hub.now }
    {
        let line = self.lines[place];
        Visit {
            at: WirePlace { line, place },
            quiet: self.quiets[place],
            is_prompted: prompts(attendant, place, hub, line),
        }
    }
}

/// Whether the wire of the line at this place is prompted: the line rests, and the attendant wants
/// it.
fn prompts<W: Wire, A: Attendant<W>>(attendant: &A, place: usize, hub: &Hub, line: LineId) -> bool
    ensures { IsTrue result ↔ IsResting hub.now line × A.wants attendant.now place hub.now }
{
    hub.is_resting(line) && attendant.prompts(place, hub)
}
