//! Function control sequences.

ghost use Rattle.std.specs.Prelude.{◌≡◌, ℕ, IsTrue, nat_lt, cond};
ghost use Rattle.njh_block.specs.Blocks.{is_fcs, all_suspended, messages_on, is_on};

use crate::stream::Stream;
use njh_record::Kind;
use std::marker::Model;

/// A function control sequence, bits 1 S RR ABCD and 1 T RR WXYZ: which streams may go on (IBM
/// SC23-0070, "Multileaving"). S suspends all, T lets nodal messages go on, A to D and W to Z let
/// SYSIN 1 to 4 and SYSOUT 1 to 4 go on. A contract sees it as the two bytes.
#[derive(Clone, Copy, Debug, PartialEq, Eq)]
pub struct Fcs {
    first: u8,
    second: u8,
}

impl Model for Fcs {
    ghost Value = { ℕ × ℕ };

    ghost view = { λ f. (f.first, f.second) };

    ghost invariant = { λ f. IsTrue (is_fcs (f.first, f.second)) };

    ghost inverse = { λ p. record { first = p.0; second = p.1 } };
}

/// The bit 1 that either byte begins with.
const MARK: u8 = 0x80;

/// S of the first byte.
const ALL_SUSPENDED: u8 = 0x40;

/// T of the second byte.
const MESSAGES: u8 = 0x40;

/// ABCD of the first byte, WXYZ of the second.
const STREAMS: u8 = 0x0f;

impl Fcs {
    /// The bytes as a function control sequence, if both begin with a bit 1.
    pub fn read(first: u8, second: u8) -> Option<Self>
        ensures { result ≡ cond (is_fcs (first, second)) (Some (first, second)) None }
    {
        if first >= MARK && second >= MARK {
            Some(Fcs { first, second })
        } else {
            None
        }
    }

    /// Nothing is suspended.
    pub fn nothing_suspended() -> Self
        ensures { result ≡ (0x8f, 0xcf) }
    {
        Fcs {
            first: MARK | STREAMS,
            second: MARK | MESSAGES | STREAMS,
        }
    }

    /// All streams are suspended, and nodal messages go on.
    pub fn streams_suspended() -> Self
        ensures { result ≡ (0x80, 0xc0) }
    {
        Fcs {
            first: MARK,
            second: MARK | MESSAGES,
        }
    }

    /// The two bytes.
    pub fn bytes(self) -> (u8, u8)
        ensures value { result ≡ self }
        ensures valid { IsTrue (is_fcs result) }
    {
        (self.first, self.second)
    }

    /// Whether all streams are suspended.
    pub fn all_suspended(self) -> bool
        ensures { result ≡ all_suspended self }
    {
        self.first & ALL_SUSPENDED != 0
    }

    /// Whether nodal messages go on.
    pub fn messages_on(self) -> bool
        ensures { result ≡ messages_on self }
    {
        self.second & MESSAGES != 0
    }

    /// Whether a stream goes on.
    pub fn is_on(self, stream: Stream) -> bool
        ensures { result ≡ is_on self stream }
    {
        self.byte_with(stream) & stream.bit() != 0
    }

    fn byte_with(self, stream: Stream) -> u8
        ensures { result ≡ cond (nat_lt stream 4) self.0 self.1 }
    {
        match stream.kind() {
            Kind::In => self.first,
            Kind::Out => self.second,
        }
    }
}
