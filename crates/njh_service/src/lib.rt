//! Serves the lines of tables on a network. A service is a hub, the wires of its lines, and their
//! attendant: who has its exchange look at the lines, brings new routes, and answers the operator.
#![tactic(auto)]

mod attending;
mod bureau;
mod fault;
mod line_clock;
mod open_lines;
mod opened;
mod operator;
mod presence;
mod ready;
mod rereading;
mod revising;
mod service;
mod serving;
mod troubles;
mod viewing;
mod wrong_since;

pub use bureau::Bureau;
pub use fault::ServeFault;
pub use service::Service;
pub use serving::{serve, service_on};
