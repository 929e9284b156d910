//! Who stands beside the rounds of a service.

ghost use Rattle.std.specs.Prelude.{◌↔◌, List, Some, None, IsSome, IsTrue, option_map};
ghost use Rattle.njh_hub.specs.WholeHub.{Part};
ghost use Rattle.njh_turns.specs.Service.{in_round, order_event, ordered, routes_event, AreRoutesAnswered};
ghost use Rattle.njh_turns.specs.Service.{AreStill, IsAnswered, AskedOrder, AskedRoutes, Begins, Rests};

use crate::wire::Wire;
use njh_command::Replies;
use njh_hub::{GivenOrder, GivenRoutes, Hub, HubFault};

/// A customer, and the routes that it is to have from now on, in place of its own.
#[derive(Drop)]
pub struct NewRoutes {
    /// The customer's number.
    pub customer: u16,
    /// Its routes.
    pub routes: GivenRoutes,
}

/// A customer, and what is ordered for it.
#[derive(Drop)]
pub struct NewOrder {
    /// The customer's number.
    pub customer: u16,
    /// The order.
    pub order: GivenOrder,
}

/// Sees to the wires before and after each round of a service, says which of them are visited in
/// it, brings new routes and orders, and says when the service is over. Nothing is read or written
/// by it: it may let out what was written. The hub is told of the routes and the orders alone.
///
/// In each round it is asked whether the service is over, comes before the wires, is asked for
/// routes and for an order, hears what came of each before it is asked on, and comes again after
/// the wires. What it says of its stage is handed on from call to call, so none can be left out.
pub trait Attendant<W: Wire> {
    ghost use Rattle.std.specs.Prelude.{◌≡◌, ⊤, ℕ, Option};
    ghost use Rattle.njh_turns.specs.Service.{Stage};
    ghost use Rattle.njh_turns.specs.declared.attendant.NewOrder.{NewOrder};

    /// It may bring new routes and orders. One that says nothing of it may.
    ghost steers: { Type 0 } = { ⊤ };

    /// How far it came in a round, and which routes or which order it waits for an answer to, if any.
    /// One that says nothing of it may be at any stage.
    ghost stands: { Self → Stage → Type 0 } = { λ attendant stage. ⊤ };

    /// It has ended the service: no further round begins.
    ghost ended: { Self → Type 0 };

    /// The wire at this place is to be visited in this round.
    ghost visits: { Self → ℕ → Type 0 };

    /// The line at this place, if it rests in a hub of these parts, is to be asked for what it has to
    /// send.
    ghost wants: { Self → ℕ → List Part → Type 0 };

    /// The order that it has to bring, if any.
    ghost order: { Self → Option NewOrder };

    /// What it did before a round, to itself and to the wires, from how they were to how they are.
    /// One that says nothing of it may do anything.
    ghost opens: { Self → List W → Self → List W → Type 0 } = { λ old wires new new_wires. ⊤ };

    /// What it did after a round with a hub of these parts. One that says nothing of it may do
    /// anything.
    ghost closes: { Self → List W → List Part → Self → List W → Type 0 } = { λ old wires parts new new_wires. ⊤ };

    /// What it noted of the step that it was told of last: the place of its wire, the hub after it,
    /// and the frame that it sent. One that says nothing of it may have noted anything.
    ghost saw: { Self → ℕ → List Part → List ℕ → Type 0 } = { λ attendant place parts frame. ⊤ };

    /// Whether the service ends now. It is asked before each round, and first.
    fn is_over(&self) -> bool
        ensures { IsTrue result ↔ ended self.now };

    /// Comes before each round, as the wait for what the wires have.
    fn before(&mut self, wires: &mut [W])
        requires goes_on { ¬ ended self.old }
        requires rests { stands self.old Rests }
        ensures still { AreStill W.says.passed W.says.count wires.old wires.new }
        ensures begins { stands self.new Begins }
        ensures opened { opens self.old wires.old self.new wires.new };

    /// New routes, where a customer is to have some. It is asked once before each round.
    fn new_routes(&mut self) -> Option<NewRoutes>
        requires begins { stands self.old Begins }
        ensures brought { IsSome result → steers }
        ensures asked { stands self.new (AskedRoutes (option_map routes_event result)) };

    /// What came of the routes that it brought: the customer has them, or why `Hub::set_routes`
    /// refused them. What the routes made of the customer's files is kept then.
    fn routes_given(&mut self, hub: &Hub, new: &NewRoutes, answer: Result<(), HubFault>)
        requires asked { stands self.old (AskedRoutes (Some (routes_event new.now))) }
        requires answered { (before : List Part) × AreRoutesAnswered before new.now answer hub.now }
        ensures heard { stands self.new (AskedRoutes None) };

    /// An order, where there is one for a customer. It is asked once before each round.
    fn new_order(&mut self) -> Option<NewOrder>
        requires asked { stands self.old (AskedRoutes None) }
        ensures brought { IsSome result → steers }
        ensures asked { stands self.new (AskedOrder (option_map order_event result)) }
        ensures order { result ≡ order self.old };

    /// What came of the order that it brought: the replies to it, or why `Hub::order` refused it.
    /// What the order made of the customer's files is kept then.
    fn order_done(
        &mut self,
        hub: &Hub,
        new: &NewOrder,
        answer: Result<(), HubFault>,
        replies: &Replies,
    )
        requires asked { stands self.old (AskedOrder (Some (order_event new.now))) }
        requires answered { (before : List Part) × IsAnswered before (ordered new.now) answer replies.now hub.now }
        ensures heard { stands self.new in_round };

    /// Whether the wire at this place is visited in this round. One that isn't has the turn of an
    /// answer `Pending`: no event, and its count of quiets stays.
    fn is_due(&self, place: usize) -> bool
        ensures { IsTrue result ↔ visits self.now place };

    /// Whether the line at this place, which rests, is asked for what it has to send. Asked just
    /// before its wire is read.
    fn prompts(&self, place: usize, hub: &Hub) -> bool
        ensures { IsTrue result ↔ wants self.now place hub.now };

    /// Comes after each step on the line at this place, once the keeper has followed it: the hub is
    /// as the step left it. The frame that the step sent is empty where it sent none.
    fn stepped(&mut self, place: usize, hub: &Hub, frame: &[u8])
        requires asked { stands self.old in_round }
        ensures saw { saw self.new place hub.now frame.now }
        ensures asked { stands self.new in_round };

    /// Comes after each round.
    fn after(&mut self, hub: &Hub, wires: &mut [W])
        requires asked { stands self.old in_round }
        ensures still { AreStill W.says.passed W.says.count wires.old wires.new }
        ensures rests { stands self.new Rests }
        ensures closed { closes self.old wires.old hub.now self.new wires.new };
}
