//! Streams of a line.

ghost use Rattle.std.specs.Prelude.{◌≡◌, ℕ, ◌+◌, ◌%◌, ◌<◌};
ghost use Rattle.njh_block.specs.Blocks.{form_of, stream_bit, rcb_of, stream_of};
ghost use Rattle.njh_block.specs.Codes.{kind_of};

use crate::rcb::{FIRST_OF_STREAMS, Form, Rcb, STEP, SYSIN, SYSOUT};
use njh_record::Kind;
use std::marker::Model;

/// A stream of a line: SYSIN 1 to 4 or SYSOUT 1 to 4. A contract sees it as its place: 0 to 3 are
/// SYSIN, 4 to 7 SYSOUT.
#[derive(Clone, Copy, Debug, PartialEq, Eq)]
pub struct Stream {
    place: u8,
}

impl Model for Stream {
    ghost Value = { ℕ };

    ghost view = { λ s. s.place };

    ghost invariant = { λ s. s.place < 8 };

    ghost inverse = { λ n. record { place = n } };
}

impl Stream {
    /// How many streams of each kind a line has at most.
    pub const OF_A_KIND: u8 = 4;

    /// How many streams a line has at most.
    pub const COUNT: u8 = 8;

    /// SYSIN 1 to 4, counted from 0.
    pub fn sysin(number: u8) -> Self
        requires { number < 4 }
        ensures { result ≡ number }
    {
        Stream { place: number }
    }

    /// SYSOUT 1 to 4, counted from 0.
    pub fn sysout(number: u8) -> Self
        requires { number < 4 }
        ensures { result ≡ number + 4 }
    {
        Stream {
            place: number + Self::OF_A_KIND,
        }
    }

    /// The stream at a place.
    pub fn at(place: u8) -> Self
        requires { place < 8 }
        ensures { result ≡ place }
    {
        Stream { place }
    }

    /// Its place among the eight of a line.
    pub fn place(self) -> u8
        ensures value { result ≡ self }
        ensures bound { result < 8 }
    {
        self.place
    }

    /// What its files are.
    pub fn kind(self) -> Kind
        ensures { result ≡ kind_of self }
    {
        if self.place < Self::OF_A_KIND {
            Kind::In
        } else {
            Kind::Out
        }
    }

    /// Its number among those of its kind, counted from 0.
    pub fn number(self) -> u8
        ensures { result ≡ self % 4 }
    {
        self.place % Self::OF_A_KIND
    }

    /// The RCB of its records.
    pub fn rcb(self) -> Rcb
        ensures value { result.byte ≡ rcb_of self }
        ensures form { form_of result.byte ≡ Form.Spelled }
        ensures names { stream_of 4 result.byte ≡ Some self }
    {
        let kind = match self.kind() {
            Kind::In => SYSIN,
            Kind::Out => SYSOUT,
        };
        Rcb {
            byte: FIRST_OF_STREAMS + STEP * self.number() + kind,
        }
    }

    /// Its bit in its byte of a function control sequence.
    pub(crate) fn bit(self) -> u8
        ensures { result ≡ stream_bit self }
    {
        match self.number() {
            0 => 8,
            1 => 4,
            2 => 2,
            _ => 1,
        }
    }
}
