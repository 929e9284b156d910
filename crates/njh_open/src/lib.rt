//! Who has which line over TCP/IP: an OPEN, and what it is answered (NJE over TCP/IP).
//!
//! Whoever comes to a line's port is an `Asker`, and has ten seconds for the 33 bytes of an OPEN. It
//! gets the line only where the OPEN names the line's node and the hub; each other is answered NAK,
//! with its own names, so it learns none. Who dials is a `Caller`: it sends an OPEN, and the line has
//! the connection once that is acknowledged.
//!
//! Nothing here knows sockets. No more bytes are taken than a control record has, so that those
//! behind it are left for the line.
#![tactic(auto)]

mod asker;
mod caller;
mod laws;
mod reason;
mod verdict;

pub use asker::Asker;
pub use caller::{CallOutcome, Caller, open_of};
pub use laws::{a_line_is_named, no_name_is_told};
pub use reason::NakReason;
pub use verdict::{Vacancy, Verdict};
