//! NJE over TCP/IP: TTBs and the TTRs in them, and the control records that come before.
//!
//! First each end sends a control record. A `ControlReader` takes the 33 bytes of the peer's, in any
//! pieces, and none behind them. `Hosts::are` says whether an OPEN has the two names that it should
//! have; the answer has the same names, exchanged.
//!
//! Then TTBs come and go. What comes is fed to the connection's `TtbReader`, piece by piece, and each
//! piece until it is used. One call gives one frame at most, and `put_line_bytes` writes it as it is
//! on a bisync line: at most `LONGEST_FRAME` bytes of njh_bisync, for the line's own deframer. A
//! keep-alive is absorbed. What is wrong ends the connection, and its text says why. What the line
//! writes is taken apart by a deframer, and `put_ttb` writes each of its frames that is let out; once
//! one of them is a text, `end_contact` says so.
//!
//! Nothing here knows time, or which frames are let out. That is the part of who uses it.
#![tactic(auto)]

mod contact;
mod control;
mod control_reader;
mod ended;
mod fault;
mod frame;
mod heads;
mod laws;
mod place;
mod reader;
mod scanner;
mod ttr_byte;
mod write;

pub use contact::Contact;
pub use control::{BOTH_OPEN, CONTROL_RECORD, ControlRecord, Hosts, LINK_ACTIVE, NO_LINK, NOT_NOW};
pub use control_reader::ControlReader;
pub use fault::{TtbFault, TtrStart};
pub use frame::TcpFrame;
pub use laws::{
    a_refusal_is_last, any_cutting, control_record_reads_back, line_reads_the_same, one_reading,
    one_splitting, texts_are_those_that_came, ttb_reads_back,
};
pub use reader::TtbReader;
pub use write::{LONGEST_TTB, put_line_bytes, put_ttb};
