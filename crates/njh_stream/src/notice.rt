//! What the owner of a file is told.

use njh_ebcdic::{FIELD, Name};
use njh_texts::MessageText;
use std::marker::Model;

/// A message of the hub for the owner of a file.
#[derive(Debug, Drop)]
pub struct Notice {
    /// The owner's node.
    pub node: Name,
    /// The owner there, by the eight bytes of the field.
    pub user: [u8; FIELD],
    /// The message, in EBCDIC.
    pub text: MessageText,
}

impl Model for Notice {
    ghost use Rattle.njh_stream.specs.Receiving as receiving;

    ghost Value = { receiving.Notice };

    ghost view = { λ n. record { whom = record { node = n.node; user = n.user }; text = n.text.items } };
}
