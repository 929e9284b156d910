//! What stands at the paths of a spool file and of its log is what is open; or this is told of it,
//! at once and then each minute.
#![tactic(auto)]

mod fault;
mod opened;
mod presence;
mod seen;

pub use fault::{PathFault, SpoolFaults};
pub use opened::Opened;
pub use presence::{Presence, PresenceNews};
pub use seen::{Seen, SpoolSeen};
