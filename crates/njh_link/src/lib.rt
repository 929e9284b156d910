//! A connection over TCP/IP, between a line and its peer (NJE over TCP/IP).
//!
//! The line's session and its frames are those of a bisync line. A `Link` turns what comes into the
//! bytes of such a line, frame by frame, and what the line writes into TTBs. Bytes that came are
//! heard, at most one frame at a call, and then given. What the line writes is taken, at most one
//! TTB at a call, and that goes out before more is taken.
//!
//! TCP promises that a block comes, so nobody says so: what the line writes as ACK0 or once more is
//! dropped, and it is given an Ack0 in the place of its peer's. What can't be mended ends the link:
//! its fault says why.
//!
//! Nothing here knows time or sockets. That is the part of who uses it.
#![tactic(auto)]

mod fault;
mod held;
mod laws;
mod link;
mod talk;

pub use fault::LinkFault;
pub use laws::{ack0_is_owed, texts_come_in_order, what_goes_out, what_is_given};
pub use link::Link;
