//! What an operator's command asks of the console of a hub that runs, and what is told of its answers.
#![tactic(auto)]

mod answers;
mod asker;
mod bodies;
mod choosing;
mod counts;
mod ending;
mod entries;
mod fault;
mod figures;
mod giver;
mod kept;
mod machine;
mod many;
mod names;
mod operator;
mod order;
mod orders;
mod parted_list;
mod question;
mod replies;
mod reply;
mod request_text;
mod session;
mod shown;
mod shown_lines;
mod shown_messages;
mod talk;
mod teller;

pub use ending::Ending;
pub use fault::CtlFault;
pub use giver::Giver;
pub use machine::Machine;
pub use operator::Operator;
pub use order::{Files, Order, Terms};
pub use question::Question;
pub use request_text::RequestText;
