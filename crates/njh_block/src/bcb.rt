//! Block control bytes.

ghost use Rattle.std.specs.Prelude.{◌≡◌, ℕ, ◌+◌, ◌/◌, ◌%◌, ◌<◌, IsTrue, cond};
ghost use Rattle.njh_block.specs.Blocks.{is_bcb};
ghost use Rattle.njh_block.specs.Codes.{numbering_bits};

use std::marker::Model;

/// What a block's count does at its receiver.
#[derive(Clone, Copy, Debug, PartialEq, Eq)]
pub enum Numbering {
    /// It is checked.
    Normal,
    /// It isn't looked at.
    Unchecked,
    /// It sets the count that is expected.
    Setting,
}

/// A block control byte, bits 1 NNN CCCC: how the block is numbered, and its count modulo 16 (IBM
/// SC23-0070, "Multileaving"). A contract sees it as the byte.
#[derive(Clone, Copy, Debug, PartialEq, Eq)]
pub struct Bcb {
    byte: u8,
}

impl Model for Bcb {
    ghost Value = { ℕ };

    ghost view = { λ b. b.byte };

    ghost invariant = { λ b. IsTrue (is_bcb b.byte) };

    ghost inverse = { λ n. record { byte = n } };
}

/// NNN is 000.
const NORMAL: u8 = 0x80;

/// NNN is 010.
const SETTING: u8 = 0xa0;

/// NNN is 011, and from here on nothing is assigned.
const UNASSIGNED: u8 = 0xb0;

/// How many counts there are.
const COUNTS: u8 = 16;

impl Bcb {
    /// The byte as a block control byte, if it is one: NNN is 000, 001 or 010.
    pub fn read(byte: u8) -> Option<Self>
        ensures { result ≡ cond (is_bcb byte) (Some byte) None }
    {
        if (NORMAL..UNASSIGNED).contains(&byte) {
            Some(Bcb { byte })
        } else {
            None
        }
    }

    /// That of a block whose count is checked.
    pub fn normal(count: u8) -> Self
        requires { count < 16 }
        ensures { result ≡ 0x80 + count }
    {
        Bcb {
            byte: NORMAL + count,
        }
    }

    /// That of a block that sets the count.
    pub fn setting(count: u8) -> Self
        requires { count < 16 }
        ensures { result ≡ 0xa0 + count }
    {
        Bcb {
            byte: SETTING + count,
        }
    }

    /// The byte.
    pub fn byte(self) -> u8
        ensures value { result ≡ self }
        ensures valid { IsTrue (is_bcb result) }
    {
        self.byte
    }

    /// What its count does.
    pub fn numbering(self) -> Numbering
        ensures { numbering_bits result ≡ self / 16 % 8 }
    {
        match self.byte / COUNTS % 8 {
            0 => Numbering::Normal,
            1 => Numbering::Unchecked,
            _ => Numbering::Setting,
        }
    }

    /// The block's count, modulo 16.
    pub fn count(self) -> u8
        ensures value { result ≡ self % 16 }
        ensures bound { result < 16 }
    {
        self.byte % COUNTS
    }
}
