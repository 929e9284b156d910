//! What a trace says in words. A trace is the record of what went over the lines of a hub: a
//! script, which gives what comes in, the frames that a replay printed, or bare hexadecimal digits.
//!
//!     a1 in: ENQ
//!     a1 out: block 0, on: SYSIN 1 SYSOUT 1 messages
//!       request SYSOUT 1
//!     TICK a1
#![tactic(auto)]

mod fault;
mod frames;
mod parts;
mod pieces;
mod reading;
mod sent;
mod signals;
mod sources;
mod tracing;

pub use fault::TraceFault;
pub use sent::sent_one_by_one;
pub use sources::Sources;
pub use tracing::decode_trace;
