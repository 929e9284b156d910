//! A service: rounds of turns, with an attendant between them.

ghost use Rattle.std.specs.Prelude.{◌≡◌, ◌<◌, [], List, length, Option, Some, None, IsSome, OnOk, OnErr, IfOk, All};
ghost use Rattle.njh_hub.specs.declared.event.Event.{Event};
ghost use Rattle.njh_hub.specs.WholeHub.{HasLine, Part, SameLines};
ghost use Rattle.njh_turns.specs.Breaks.{GivenBreak, ServiceBreaks};
ghost use Rattle.njh_turns.specs.Keeping.{IsSettled, Keeps, LeadsHub, LeavesEither};
ghost use Rattle.njh_turns.specs.Service.{AreRoutesAnswered, IsAnswered, IsAttended, WasGiven};
ghost use Rattle.njh_turns.specs.Service.{in_round, order_event, ordered, routes_event};
ghost use Rattle.njh_turns.specs.Service.{AskedOrder, AskedRoutes, Begins, Rests};
ghost use Rattle.njh_turns.specs.Turns.{moment, hub_wires};

use crate::attendant::{Attendant, NewOrder, NewRoutes};
use crate::keeper::{KeepFault, Keeper};
use crate::rounds::Rounds;
use crate::wire::Wire;
use njh_command::Replies;
use njh_hub::{Hub, HubFault};

/// So many rounds of a hub's wires, in each of which those are visited that the attendant calls
/// due. Before each the attendant comes, and customers are given what it brings, at most new routes
/// of one and an order for one; after each it comes again. Before each it may end the service: then
/// there were fewer rounds.
///
/// What `Hub::set_routes` or `Hub::order` refuses changes nothing. The attendant is told what came
/// of all that it brought. What fails on a wire loses its own line and no other. Where the keeper
/// fails nothing is done after that, and the attendant isn't told.
pub fn attend<W: Wire, K: Keeper, A: Attendant<W>>(
    hub: &mut Hub,
    keeper: &mut K,
    wires: &mut [W],
    rounds: &mut Rounds,
    attendant: &mut A,
    turns: u64,
) -> Result<(), KeepFault>
    requires same { length wires.old ≡ length rounds.old.lines }
    requires known { All (HasLine hub.old) rounds.old.lines }
    requires settled { IsSettled K.says keeper.old hub.old }
    requires rests { A.stands attendant.old Rests }
    ensures attended { OnOk result (IsAttended W.says A.steers (A.ended attendant.new) rounds.old.lines turns
        (moment hub.old rounds.old.quiets wires.old) (moment hub.new rounds.new.quiets wires.new)) }
    ensures breaks { OnErr result (ServiceBreaks W.says (K.says.may_leave keeper.new) A.steers rounds.old.lines turns
        (moment hub.old rounds.old.quiets wires.old) (hub_wires hub.new wires.new)) }
    ensures rests { OnOk result (A.stands attendant.new Rests) }
    ensures keeps { Keeps K.says keeper.old result hub.new keeper.new }
    ensures same { rounds.new.lines ≡ rounds.old.lines }
    ensures lines { SameLines hub.old hub.new }
{
    for turn in 0..turns {
        if attendant.is_over() {
            return Ok(());
        }
        attendant.before(wires);
        give_routes(hub, keeper, attendant)?;
        give_order(hub, keeper, attendant)?;
        rounds.take_due(hub, keeper, wires, attendant)?;
        attendant.after(hub, wires);
    }
    Ok(())
}

/// Gives a customer new routes, where the attendant brings some, and keeps what they make of its
/// files.
fn give_routes<W: Wire, K: Keeper, A: Attendant<W>>(
    hub: &mut Hub,
    keeper: &mut K,
    attendant: &mut A,
) -> Result<(), KeepFault>
    requires settled { IsSettled K.says keeper.old hub.old }
    requires asked { A.stands attendant.old Begins }
    ensures given { OnOk result ((given : Option Event) × WasGiven hub.old given hub.new × (IsSome given → A.steers)) }
    ensures breaks { OnErr result (A.steers × (event : Event)
        × GivenBreak (K.says.may_leave keeper.new) hub.old event hub.new) }
    ensures heard { OnOk result (A.stands attendant.new (AskedRoutes None)) }
    ensures unheard { OnErr result ((event : Event) × A.stands attendant.new (AskedRoutes (Some event))) }
    ensures keeps { Keeps K.says keeper.old result hub.new keeper.new }
    ensures lines { SameLines hub.old hub.new }
{
    match attendant.new_routes() {
        Some(new) => give(hub, keeper, attendant, &new),
        None => Ok(()),
    }
}

/// Gives a customer these routes, keeps what they make of its files, and tells the attendant what
/// came of the routes.
fn give<W: Wire, K: Keeper, A: Attendant<W>>(
    hub: &mut Hub,
    keeper: &mut K,
    attendant: &mut A,
    new: &NewRoutes,
) -> Result<(), KeepFault>
    requires settled { IsSettled K.says keeper.old hub.old }
    requires asked { A.stands attendant.old (AskedRoutes (Some (routes_event new.now))) }
    ensures given { OnOk result ((given : Option Event) × WasGiven hub.old given hub.new) }
    ensures breaks { OnErr result ((event : Event) × GivenBreak (K.says.may_leave keeper.new) hub.old event hub.new) }
    ensures heard { OnOk result (A.stands attendant.new (AskedRoutes None)) }
    ensures unheard { OnErr result (A.stands attendant.new (AskedRoutes (Some (routes_event new.now)))) }
    ensures keeps { Keeps K.says keeper.old result hub.new keeper.new }
    ensures lines { SameLines hub.old hub.new }
{
    let answer = set_kept(hub, keeper, new)?;
    attendant.routes_given(hub, new, answer);
    Ok(())
}

/// Gives a customer these routes, and keeps what they make of its files. Answers what came of the
/// routes.
fn set_kept<K: Keeper>(
    hub: &mut Hub,
    keeper: &mut K,
    new: &NewRoutes,
) -> Result<Result<(), HubFault>, KeepFault>
    requires settled { IsSettled K.says keeper.old hub.old }
    ensures given { OnOk result ((given : Option Event) × WasGiven hub.old given hub.new) }
    ensures breaks { OnErr result ((event : Event) × GivenBreak (K.says.may_leave keeper.new) hub.old event hub.new) }
    ensures answered { IfOk result (λ answer. AreRoutesAnswered hub.old new.now answer hub.new) }
    ensures keeps { Keeps K.says keeper.old result hub.new keeper.new }
    ensures lines { SameLines hub.old hub.new }
{
    match hub.set_routes(new.customer, new.routes.routes()) {
        Ok(()) => {}
        Err(fault) => return Ok(Err(fault)),
    }
    keep(hub, keeper, new.customer)?;
    Ok(Ok(()))
}

/// Does what is ordered for a customer, where the attendant brings an order, and keeps what it
/// makes of the customer's files.
fn give_order<W: Wire, K: Keeper, A: Attendant<W>>(
    hub: &mut Hub,
    keeper: &mut K,
    attendant: &mut A,
) -> Result<(), KeepFault>
    requires settled { IsSettled K.says keeper.old hub.old }
    requires asked { A.stands attendant.old (AskedRoutes None) }
    ensures given { OnOk result ((given : Option Event) × WasGiven hub.old given hub.new × (IsSome given → A.steers)) }
    ensures breaks { OnErr result (A.steers × (event : Event)
        × GivenBreak (K.says.may_leave keeper.new) hub.old event hub.new) }
    ensures heard { OnOk result (A.stands attendant.new in_round) }
    ensures unheard { OnErr result ((event : Event) × A.stands attendant.new (AskedOrder (Some event))) }
    ensures keeps { Keeps K.says keeper.old result hub.new keeper.new }
    ensures lines { SameLines hub.old hub.new }
{
    match attendant.new_order() {
        Some(new) => carry_out(hub, keeper, attendant, &new),
        None => Ok(()),
    }
}

/// Does what is ordered for a customer, keeps what that makes of its files, and tells the attendant
/// what came of the order.
fn carry_out<W: Wire, K: Keeper, A: Attendant<W>>(
    hub: &mut Hub,
    keeper: &mut K,
    attendant: &mut A,
    new: &NewOrder,
) -> Result<(), KeepFault>
    requires settled { IsSettled K.says keeper.old hub.old }
    requires asked { A.stands attendant.old (AskedOrder (Some (order_event new.now))) }
    ensures given { OnOk result ((given : Option Event) × WasGiven hub.old given hub.new) }
    ensures breaks { OnErr result ((event : Event) × GivenBreak (K.says.may_leave keeper.new) hub.old event hub.new) }
    ensures heard { OnOk result (A.stands attendant.new in_round) }
    ensures unheard { OnErr result (A.stands attendant.new (AskedOrder (Some (order_event new.now)))) }
    ensures keeps { Keeps K.says keeper.old result hub.new keeper.new }
    ensures lines { SameLines hub.old hub.new }
{
    let mut replies = Replies::new();
    let answer = order_kept(hub, keeper, new, &mut replies)?;
    attendant.order_done(hub, new, answer, &replies);
    Ok(())
}

/// Does what is ordered for a customer, and keeps what that makes of its files. Answers what came
/// of the order, and in `replies`, of which there are none before, the replies to it.
fn order_kept<K: Keeper>(
    hub: &mut Hub,
    keeper: &mut K,
    new: &NewOrder,
    replies: &mut Replies,
) -> Result<Result<(), HubFault>, KeepFault>
    requires settled { IsSettled K.says keeper.old hub.old }
    requires none { replies.old ≡ [] }
    ensures given { OnOk result ((given : Option Event) × WasGiven hub.old given hub.new) }
    ensures breaks { OnErr result ((event : Event) × GivenBreak (K.says.may_leave keeper.new) hub.old event hub.new) }
    ensures answered { IfOk result (λ answer. IsAnswered hub.old (ordered new.now) answer replies.new hub.new) }
    ensures keeps { Keeps K.says keeper.old result hub.new keeper.new }
    ensures lines { SameLines hub.old hub.new }
{
    match hub.order(new.customer, &new.order, replies) {
        Ok(()) => {}
        Err(fault) => return Ok(Err(fault)),
    }
    keep(hub, keeper, new.customer)?;
    Ok(Ok(()))
}

/// Keeps what new routes of a customer, or an order for it, made of its files.
fn keep<K: Keeper>(hub: &Hub, keeper: &mut K, customer: u16) -> Result<(), KeepFault>
    requires led { (before : List Part) × IsSettled K.says keeper.old before × LeadsHub customer before hub.now }
    ensures left { (before : List Part) → IsSettled K.says keeper.old before → LeadsHub customer before hub.now →
        OnErr result (LeavesEither (K.says.may_leave keeper.new) before hub.now) }
    ensures keeps { Keeps K.says keeper.old result hub.now keeper.new }
{
    keeper.follow(hub, customer)?;
    keeper.settle()
}
