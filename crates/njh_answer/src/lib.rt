//! What the operator's console answers: JSON, as the hub's value and the service say it.
#![tactic(auto)]

mod addresses;
mod answering;
mod counts;
mod customers;
mod fields;
mod files;
mod laws;
mod lines;
mod members;
mod orders;
mod owners;
mod page;
mod queue;
mod served;
mod status;
mod ticket;
mod troubles;
mod views;
mod work;

pub use answering::{Deed, RequestAnswer, Views, answer_request, refuses};
pub use laws::{
    answers_are_of_the_customer, no_file_is_passed_over, owners_own_all, pages_tell_all,
};
pub use orders::{OrderRecord, Outcome};
pub use ticket::{Ticket, is_late};
pub use views::{BothWays, LineCounts, LineView, Refused, ServiceView, Trouble, TurnedAway};
pub use work::Work;
