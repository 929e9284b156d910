//! Whom headers name.

use njh_ebcdic::Name;
use std::marker::Model;

/// A user at a node.
#[derive(Clone, Copy, Debug, PartialEq, Eq)]
pub struct User {
    /// The node.
    pub node: Name,
    /// The field of the user there, blanks if there is none.
    pub user: [u8; 8],
}

impl Model for User {
    ghost use Rattle.njh_ebcdic.specs.Users as users;

    ghost Value = { users.User };

    ghost view = { λ u. record { node = u.node; user = u.user } };

    ghost inverse = { λ u. record { node = u.node; user = u.user } };
}

/// Where a file goes.
#[derive(Clone, Copy, Debug, PartialEq, Eq)]
pub struct Destination {
    /// The field of the node, which needn't be a name.
    pub node: [u8; 8],
    /// The field of the user there, blanks if there is none.
    pub user: [u8; 8],
}

impl Model for Destination {
    ghost use Rattle.njh_ebcdic.specs.Users as users;

    ghost Value = { users.User };

    ghost view = { λ u. record { node = u.node; user = u.user } };

    ghost inverse = { λ u. record { node = u.node; user = u.user } };
}
