//! What the log tells of a file.

ghost use Rattle.std.specs.Prelude.{◌≡◌};

use njh_ebcdic::text_of;
use njh_header::{Destination, FileName, User};
use njh_hub::FileSummaryView;
use std::fmt;

/// A blank in EBCDIC.
const BLANK: u8 = 0x40;

/// What is told of a file.
#[derive(Clone, Copy, Drop)]
pub struct FileLine {
    /// What it is called.
    pub name: FileName,
    /// Whose it is.
    pub owner: User,
    /// Where it goes.
    pub destination: Destination,
    /// How many records it has.
    pub records: u32,
    /// How many blocks it takes.
    pub blocks: u32,
}

impl fmt::Display for FileLine {
    fn fmt<W: fmt::Write>(&self, f: &mut fmt::Formatter<W>) -> fmt::Result {
        self.write_name(f)?;
        self.write_owner(f)?;
        self.write_destination(f)?;
        write!(f, ", {} records, {} blocks", self.records, self.blocks)
    }
}

impl FileLine {
    ghost use Rattle.njh_log.specs.FileLines.{line_of};

    /// What is told of this file.
    pub fn of(file: &FileSummaryView) -> FileLine
        ensures { result ≡ line_of file.now }
    {
        FileLine {
            name: file.name,
            owner: file.owner,
            destination: file.destination,
            records: file.records,
            blocks: file.blocks,
        }
    }

    /// Writes what it is called.
    fn write_name<W: fmt::Write>(&self, f: &mut fmt::Formatter<W>) -> fmt::Result {
        write!(f, "{}.{}", self.name.node, self.name.number)
    }

    /// Writes whose it is.
    fn write_owner<W: fmt::Write>(&self, f: &mut fmt::Formatter<W>) -> fmt::Result {
        f.write_str(" of ")?;
        write!(f, "{}", self.owner.node)?;
        write_user(f, &self.owner.user)
    }

    /// Writes where it goes.
    fn write_destination<W: fmt::Write>(&self, f: &mut fmt::Formatter<W>) -> fmt::Result {
        f.write_str(" for ")?;
        write_field(f, &self.destination.node)?;
        write_user(f, &self.destination.user)
    }
}

/// Writes a user after the node, if there is one.
pub(crate) fn write_user<W: fmt::Write>(f: &mut fmt::Formatter<W>, user: &[u8]) -> fmt::Result {
    match user.first() {
        Some(&BLANK) => Ok(()),
        _ => {
            f.write_str(".")?;
            write_field(f, user)
        }
    }
}

/// Writes the characters of a field, up to its first blank.
pub(crate) fn write_field<W: fmt::Write>(f: &mut fmt::Formatter<W>, field: &[u8]) -> fmt::Result {
    for byte in field {
        if *byte == BLANK {
            return Ok(());
        }
        f.write_char(text_of(*byte))?;
    }
    Ok(())
}
