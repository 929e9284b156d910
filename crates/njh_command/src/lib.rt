//! Commands in nodal messages (IBM SC23-0070, "Nodal message record"): what a user may say to the
//! hub, and what becomes of the user's files.
#![tactic(auto)]

mod cancelling;
mod changing;
mod choice;
mod command;
mod files;
mod laws;
mod listing;
mod replies;
mod rerouting;
mod running;
mod senders;
mod words;

pub use command::{BadCommand, Command};
pub use files::number_of;
pub use laws::{commands_keep_headers, commands_move_files_so, reroutes_name_nodes};
pub use replies::{MAX_REPLIES, Replies};
pub use running::{Originator, obey, run};
pub use senders::{Senders, give_up};
