//! What a table file that changed brings: each customer is given the routes of its entry, if this is
//! that of the hub in all else; and from where the peer of a line may connect holds at once.
#![tactic(auto)]

mod customer_routes;
mod difference;
mod known;
mod news;
mod origins;
mod outcome;
mod revision;
mod route_changes;
mod route_states;
mod table_source;

pub use customer_routes::routes_of;
pub use difference::{CustomerKey, Difference, LineKey};
pub use outcome::SourceOutcome;
pub use revision::Revision;
pub use route_changes::{RouteChange, RouteChanges};
pub use table_source::{NoSource, TableSource};
