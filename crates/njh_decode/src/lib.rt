//! What the bytes of a line say, in words: a line of text for each frame, and for each record of
//! its block.
//!
//! A block that asks for SYSOUT 1 and ends its job file on SYSIN 1 is told so:
//!
//!     block 0, on: SYSIN 1 SYSOUT 1 messages
//!       request SYSOUT 1
//!       SYSIN 1 end of file
#![tactic(auto)]

mod characters;
mod decoding;
mod faults;
mod frames;
mod heads;
mod places;
mod records;
mod sign_ons;
mod words;

pub use decoding::decode;
pub use frames::put_frame;
