//! What a line of words says.

use arrayvec::ArrayVec;
use njh_bisync::Control;
use njh_block::{ControlRcb, Stream};
use njh_ebcdic::Name;
use njh_header::SignOn;
use njh_nmr::LONGEST_MESSAGE;
use std::marker::Model;

/// The ends of a nodal message.
#[derive(Clone, Copy, Debug)]
pub(crate) struct Ends {
    /// The node that it goes to.
    pub to: Name,
    /// The sender of a command, the receiver of a message.
    pub user: Name,
    /// The node that it comes from.
    pub origin: Name,
}

/// A nodal message.
#[derive(Debug, Drop)]
pub(crate) struct Message {
    /// Its flag: 20 of a message, A0 of a command.
    pub flag: u8,
    /// Its ends.
    pub ends: Ends,
    /// Its bytes.
    pub text: ArrayVec<u8, LONGEST_MESSAGE>,
}

impl Model for Message {
    ghost use Rattle.njh_nmr.specs.Nodal.{Nodal};
    ghost use Rattle.njh_encode.specs.Messages.{message_between};

    ghost Value = { Nodal };

    ghost view = { λ m. message_between m.flag m.ends m.text.items };
}

/// What a line of words says.
#[derive(Debug, Drop)]
pub(crate) enum Statement {
    /// A frame that is no text.
    Control(Control),
    /// EOT.
    End,
    /// A tick of the clock.
    Tick,
    /// A block check failed.
    Garbled,
    /// The line is lost.
    Lost,
    /// A request for a stream, or an answer.
    Request(ControlRcb, Stream),
    /// A sign-on, by its SRCB.
    SignOn(u8, SignOn),
    /// A sign-off.
    SignOff,
    /// A nodal message.
    Message(Message),
}
