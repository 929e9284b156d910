//! Names of files.

use njh_ebcdic::Name;
use std::marker::Model;

/// What a file is called.
#[derive(Clone, Copy, Debug, PartialEq, Eq)]
pub struct FileName {
    /// Its origin node.
    pub node: Name,
    /// Its original job number.
    pub number: u16,
}

impl Model for FileName {
    ghost use Rattle.njh_header.specs.FileNames as names;

    ghost Value = { names.FileName };

    ghost view = { λ name. record { node = name.node; number = name.number } };

    ghost inverse = { λ name. record { node = name.node; number = name.number } };
}
