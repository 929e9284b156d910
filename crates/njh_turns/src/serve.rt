//! Turns of all wires of a hub.

ghost use Rattle.std.specs.Prelude.{◌≡◌, ◌≢◌, length, OnOk, IfErr, Err, All};
ghost use Rattle.njh_hub.specs.Sent.{IsCounted};
ghost use Rattle.njh_hub.specs.WholeHub.{HasLine, SameLines};
ghost use Rattle.njh_turns.specs.Breaks.{TurnsBreak};
ghost use Rattle.njh_turns.specs.Keeping.{IsSettled};
ghost use Rattle.njh_turns.specs.Turns.{IsServed, hub_wires};

use crate::attendant::{Attendant, NewOrder, NewRoutes};
use crate::fault::TurnsFault;
use crate::keeper::Keeper;
use crate::rounds::Rounds;
use crate::service::attend;
use crate::wire::Wire;
use njh_command::Replies;
use njh_hub::{Hub, HubFault};
use njh_table::LineId;
use std::alloc::Global;

/// So many turns of the wires of a hub's lines: in each, one wire after the other is read once, and
/// what comes of that is done.
///
/// What fails on a wire loses its own line and no other; the wire is read again in the next turn.
/// `Memory` comes where there is no room for a turn, or for a line and a count a wire, before the
/// first read. Where the keeper fails nothing is done after that.
pub fn serve_turns<W: Wire, K: Keeper>(
    alloc: Global,
    hub: &mut Hub,
    keeper: &mut K,
    wires: &mut [W],
    lines: &[LineId],
    turns: u32,
) -> Result<(), TurnsFault>
    requires same { length wires.old ≡ length lines.now }
    requires known { All (HasLine hub.old) lines.now }
    requires settled { IsSettled K.says keeper.old hub.old }
    ensures served { OnOk result (IsServed W.says lines.now turns
        (hub_wires hub.old wires.old) (hub_wires hub.new wires.new)) }
    ensures settled { OnOk result (IsSettled K.says keeper.new hub.new) }
    ensures faultless { OnOk result (K.says.count keeper.new ≡ K.says.count keeper.old) }
    ensures lines { SameLines hub.old hub.new }
    ensures memory { result ≡ Err TurnsFault.Memory → (hub.new ≡ hub.old) × (wires.new ≡ wires.old)
        × (keeper.new ≡ keeper.old) }
    ensures breaks { IfErr result (λ fault. fault ≢ TurnsFault.Memory
        → IsCounted (K.says.count keeper.old) (K.says.count keeper.new)
        × TurnsBreak W.says (K.says.may_leave keeper.new) lines.now turns
        (hub_wires hub.old wires.old) (hub_wires hub.new wires.new)) }
{
    let mut rounds = match Rounds::new(alloc, lines) {
        Ok(rounds) => rounds,
        Err(_) => return Err(TurnsFault::Memory),
    };
    let turns = u64::from(turns);
    match attend(hub, keeper, wires, &mut rounds, &mut EveryWire, turns) {
        Ok(()) => Ok(()),
        Err(fault) => Err(TurnsFault::Keeper(fault)),
    }
}

/// Calls every wire due, prompts none, brings no routes and no orders, never ends the service, and
/// does nothing else.
#[derive(Drop)]
struct EveryWire;

impl<W: Wire> Attendant<W> for EveryWire {
    ghost use Rattle.std.specs.Prelude.{⊤, None};

    ghost steers = { ⊥ };

    ghost ended = { λ attendant. ⊥ };

    ghost visits = { λ attendant place. ⊤ };

    ghost wants = { λ attendant place parts. ⊥ };

    ghost order = { λ attendant. None };

    fn is_over(&self) -> bool {
        false
    }

    fn before(&mut self, _wires: &mut [W]) {}

    fn new_routes(&mut self) -> Option<NewRoutes> {
        None
    }

    fn routes_given(&mut self, _hub: &Hub, _new: &NewRoutes, _answer: Result<(), HubFault>) {}

    fn new_order(&mut self) -> Option<NewOrder> {
        None
    }

    fn order_done(
        &mut self,
        _hub: &Hub,
        _new: &NewOrder,
        _answer: Result<(), HubFault>,
        _replies: &Replies,
    ) {}

    fn is_due(&self, _place: usize) -> bool {
        true
    }

    fn prompts(&self, _place: usize, _hub: &Hub) -> bool {
        false
    }

    fn stepped(&mut self, _place: usize, _hub: &Hub, _frame: &[u8]) {}

    fn after(&mut self, _hub: &Hub, _wires: &mut [W]) {}
}
