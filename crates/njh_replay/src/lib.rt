//! Replays a script of events through a hub, and prints the frames that the hub sends, with the
//! replies to orders among them, and then the files that it holds.
#![tactic(auto)]

mod answers;
mod fault;
mod files;
mod line;
mod line_names;
mod line_starts;
mod print;
mod printer;
mod replaying;
mod script;
mod script_orders;
mod script_routes;

pub use fault::ReplayFault;
pub use replaying::replay;
pub use script::{MAX_SCRIPT_BYTES, events_of};
pub use script_orders::{OrderBytes, OrderKind, TextFault, order_kind, order_text, text_behind};
pub use script_routes::{customer_named, first_part, routes_of_pairs};
