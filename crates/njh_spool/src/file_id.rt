//! A customer's file.

ghost use Rattle.std.specs.Prelude.{◌≡◌};

use std::marker::Model;

/// A file's number, which tells the files of one customer apart.
#[derive(Clone, Copy, Debug, PartialEq, Eq)]
pub struct FileId {
    number: u16,
}

impl Model for FileId {
    ghost use Rattle.std.specs.Prelude.{ℕ};

    ghost Value = { ℕ };

    ghost view = { λ id. id.number };

    ghost inverse = { λ number. record { number = number } };
}

impl FileId {
    pub(crate) fn of(number: u16) -> Self
        ensures { result ≡ number }
    {
        FileId { number }
    }

    pub(crate) fn number(self) -> u16
        ensures { result ≡ self }
    {
        self.number
    }
}
