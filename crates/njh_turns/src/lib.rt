//! Turns of wires: what comes on the wires of a hub's lines is told to the hub, what it sends is
//! written there, and what becomes of customers' files is kept before it goes out.
#![tactic(auto)]

mod attendant;
mod depot;
mod fault;
mod keeper;
mod rounds;
mod serve;
mod service;
mod turn;
mod wire;
mod wire_laws;
mod wire_reading;

pub use attendant::{Attendant, NewOrder, NewRoutes};
pub use depot::{Depot, DepotFault};
pub use fault::TurnsFault;
pub use keeper::{KeepFault, Keeper, KeepsNothing, kept_is_own};
pub use rounds::Rounds;
pub use serve::serve_turns;
pub use service::attend;
pub use turn::{TurnRoom, Visit, WirePlace, wire_turn};
pub use wire::Wire;
pub use wire_laws::{own_service_decides, own_wires_decide};
pub use wire_reading::{Reading, WireFault};
