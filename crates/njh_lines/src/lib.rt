//! A line is looked at no later than its moment; its site and its session decide its connection.
#![tactic(auto)]

mod allowing;
mod asking;
mod attention;
mod connecting;
mod dialling;
mod doors;
mod entrance;
mod exchange;
mod groups;
mod line_state;
mod opens;
mod post;
mod queues;
mod rounds;
mod sessions;
mod states;
mod stopping;
mod surroundings;
mod telling;
mod turned_away;
mod visiting;
mod waking;
mod wires;
mod wrong;

pub use entrance::Entrance;
pub use exchange::Exchange;
pub use opens::Opens;
pub use post::Post;
pub use turned_away::TurnedAway;
pub use wrong::{intended_on, wrong_on};
