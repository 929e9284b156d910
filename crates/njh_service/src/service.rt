//! A hub, the depot that opened it, the wires of its lines that are served, and who attends them.

ghost use Rattle.std.specs.Prelude.{◌≡◌, length, All, IfErr, IfOk, OnOk, OnErr, Err};
ghost use Rattle.njh_hub.specs.WholeHub.{HasLine};
ghost use Rattle.njh_turns.specs.Keeping.{IsSettled, Keeps};
ghost use Rattle.njh_turns.specs.Service.{Rests};
ghost use Rattle.njh_turns.specs.Turns.{no_quiets};
ghost use Rattle.njh_sites.specs.Endpoints.{lines_of};
ghost use Rattle.njh_service.specs.Serving.{HasServed, IsBrokenOff, turn_count};

use njh_hub::{Hub, HubFault};
use njh_sites::Endpoint;
use njh_table::LineId;
use njh_turns::{Attendant, KeepFault, Keeper, Rounds, Wire, attend};
use std::alloc::{AllocError, Global};
use std::marker::Model;

/// A hub, the depot that keeps its customers' whole files, the wires of those of its lines that are
/// served, and their attendant.
#[derive(Drop)]
pub struct Service<W: Drop, A: Drop, D: Drop> {
    hub: Hub,
    depot: D,
    wires: Vec<W>,
    rounds: Rounds,
    attendant: A,
}

impl<W: Drop, A: Drop, D: Drop> Model for Service<W, A, D> {
    ghost use Rattle.std.specs.Prelude.{◌≡◌, length, All};
    ghost use Rattle.njh_hub.specs.WholeHub.{HasLine as HubHasLine};
    ghost use Rattle.njh_service.specs.Serving.{Served};

    ghost Value = { Served W A D };

    ghost view = { λ s. record {
      hub = s.hub;
      depot = s.depot;
      lines = s.rounds.lines;
      quiets = s.rounds.quiets;
      wires = s.wires.items;
      attendant = s.attendant;
    } };

    ghost invariant = { λ s. (length s.wires.items ≡ length s.rounds.lines) × All (HubHasLine s.hub) s.rounds.lines };
}

impl<W: Wire + Drop, A: Attendant<W> + Drop, D: Keeper + Drop> Service<W, A, D> {
    /// So many turns of each line, or turns without an end if no number is given: as many as can
    /// be counted. What becomes of the customers' whole files in a round is kept by the depot
    /// before a byte of that round goes out. `Err` if the depot fails: nothing is read or written
    /// after that, and nothing can be run again, since what the hub has isn't settled then.
    pub fn run(&mut self, turns: Option<u32>) -> Result<(), KeepFault>
        requires settled { IsSettled D.says self.old.depot self.old.hub }
        requires rests { A.stands self.old.attendant Rests }
        ensures served { OnOk result (HasServed W.says A.steers A.ended (turn_count turns) self.old self.new) }
        ensures rests { OnOk result (A.stands self.new.attendant Rests) }
        ensures breaks { OnErr result (IsBrokenOff W.says (D.says.may_leave self.new.depot) A.steers (turn_count turns)
            self.old self.new) }
        ensures keeps { Keeps D.says self.old.depot result self.new.hub self.new.depot }
    {
        let turns = turn_count(turns);
        attend(
            &mut self.hub,
            &mut self.depot,
            &mut self.wires,
            &mut self.rounds,
            &mut self.attendant,
            turns,
        )
    }
}

/// How many turns there are.
fn turn_count(turns: Option<u32>) -> u64
    ensures { result ≡ turn_count turns }
{
    match turns {
        Some(turns) => u64::from(turns),
        None => u64::MAX,
    }
}

impl<W: Drop, A: Drop, D: Drop> Service<W, A, D> {
    /// This hub with its depot, of which these lines are served, each on its own wire. Want of
    /// memory is the only refusal; the depot and the attendant are given back then.
    pub fn new(
        alloc: Global,
        hub: Hub,
        depot: D,
        endpoints: &[Endpoint],
        wires: Vec<W>,
        attendant: A,
    ) -> Result<Service<W, A, D>, (HubFault, D, A)>
        requires same { length wires.items ≡ length endpoints.now }
        requires known { All (λ endpoint. HasLine hub endpoint.line) endpoints.now }
        ensures hub { IfOk result (λ service. service.hub ≡ hub) }
        ensures depot { IfOk result (λ service. service.depot ≡ depot) }
        ensures lines { IfOk result (λ service. service.lines ≡ lines_of endpoints.now) }
        ensures calm { IfOk result (λ service. service.quiets ≡ no_quiets (lines_of endpoints.now)) }
        ensures wires { IfOk result (λ service. service.wires ≡ wires.items) }
        ensures attendant { IfOk result (λ service. service.attendant ≡ attendant) }
        ensures memory { IfErr result (λ refused. (refused.0 ≡ HubFault.Memory) × (refused.1 ≡ depot)
            × (refused.2 ≡ attendant)) }
    {
        match rounds_of(alloc, endpoints) {
            Ok(rounds) => Ok(Service {
                hub,
                depot,
                wires,
                rounds,
                attendant,
            }),
            Err(fault) => Err((fault, depot, attendant)),
        }
    }

    /// The hub.
    pub fn hub(&self) -> &Hub
        ensures { result.now ≡ self.now.hub }
    {
        &self.hub
    }

    /// The lines that are served, in the order of their turns.
    pub fn lines(&self) -> &[LineId]
        ensures { result.now ≡ self.now.lines }
    {
        self.rounds.lines()
    }

    /// The depot and the attendant, where nothing more is to be served.
    pub fn into_parts(self) -> (D, A)
        ensures { result.0 ≡ self.depot }
    {
        let Service {
            depot,
            attendant,
            ..
        } = self;
        (depot, attendant)
    }
}

/// Rounds of the lines of endpoints, on which no quiet came yet. Want of memory is the only
/// refusal.
fn rounds_of(alloc: Global, endpoints: &[Endpoint]) -> Result<Rounds, HubFault>
    ensures lines { IfOk result (λ rounds. rounds.lines ≡ lines_of endpoints.now) }
    ensures calm { IfOk result (λ rounds. rounds.quiets ≡ no_quiets (lines_of endpoints.now)) }
    ensures memory { OnErr result (result ≡ Err HubFault.Memory) }
{
    let lines = lines_of(alloc, endpoints)?;
    Rounds::new(alloc, &lines)
}

/// The lines of endpoints.
fn lines_of(alloc: Global, endpoints: &[Endpoint]) -> Result<Vec<LineId>, AllocError>
    ensures { IfOk result (λ lines. lines.items ≡ lines_of endpoints.now) }
{
    let mut lines = Vec::new(alloc);
    for endpoint in endpoints {
        lines.push(endpoint.line)?;
    }
    Ok(lines)
}
