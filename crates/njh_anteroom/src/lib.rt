//! The anteroom of a line that listens: the connections that wait to be given the line, and what is
//! remembered of the addresses from which some came. It knows no network and no clock: a connection
//! is whatever can be dropped, and a moment is a number of milliseconds.
#![tactic(auto)]

mod address;
mod anteroom;
mod entry;
mod guest;
mod memory;
mod order;
mod queue;
mod remembered;

pub use anteroom::Anteroom;
pub use entry::Entry;
pub use guest::Guest;
pub use remembered::Remembered;
