//! Sign-ons.

use crate::fault::HeaderFault;
use crate::field::{read_name, read_number};
use crate::places::sign_on;
use arrayvec::ArrayVec;
use byteorder::{BigEndian, ByteOrder};
use njh_ebcdic::{BLANK, FIELD, Name};
use njh_record::{field_at, put_bytes};
use std::marker::Model;

/// A field of blanks.
const BLANKS: [u8; FIELD] = [BLANK; FIELD];

/// The length that is written: that of the whole record, with RCB and SRCB.
const LENGTH_OF_ALL: u8 = 41;

/// What comes after the node.
const QUALIFIER: u8 = 0x01;

/// Event sequence (4) and resistance (2).
const SEQUENCE_AND_RESISTANCE: [u8; 6] = [0; 6];

/// Flag (1) and features (4).
const FLAG_AND_FEATURES: [u8; 5] = [0; 5];

/// What a sign-on says (IBM SC23-0070, "I and J control records"), from its length byte on.
#[derive(Clone, Copy, Debug, PartialEq, Eq)]
pub struct SignOn {
    /// The node that its sender is.
    pub node: Name,
    /// The size of the longest text that its sender takes.
    pub block: u16,
    /// The line's password with blanks after it, all blanks if there is none.
    pub password: [u8; 8],
}

impl Model for SignOn {
    ghost use Rattle.njh_header.specs.SignOns as sign_ons;

    ghost Value = { sign_ons.SignOn };

    ghost view = { λ s. record { node = s.node; block = s.block; password = s.password } };

    ghost inverse = { λ s. record { node = s.node; block = s.block; password = s.password } };
}

impl SignOn {
    ghost use Rattle.std.specs.Prelude.{◌≡◌, List, ℕ, Ok, ◌++◌};
    ghost use Rattle.njh_header.specs.SignOns.{sign_on, sign_on_bytes};

    /// The sign-on at the front of some bytes. The length byte isn't read; a password that isn't
    /// whole counts as blanks.
    pub fn read(bytes: &[u8]) -> Result<SignOn, HeaderFault>
        ensures { result ≡ sign_on bytes.now }
    {
        if bytes.len() < sign_on::SIZE {
            return Err(HeaderFault::TooShort);
        }
        let node = read_name(bytes, sign_on::NODE)?;
        let password = if bytes.len() < sign_on::PASSWORD + BLANKS.len() {
            BLANKS
        } else {
            field_at(bytes, sign_on::PASSWORD)
        };
        Ok(SignOn {
            node,
            block: read_number(bytes, sign_on::BLOCK),
            password,
        })
    }

    /// Writes the sign-on from its length byte on, in place of what `out` held.
    pub fn write(&self, out: &mut ArrayVec<u8, 41>)
        ensures written { out.new.items ≡ sign_on_bytes self.now }

        // What is written reads back, whatever follows it.
        ensures reads_back { (rest : List ℕ) → sign_on (out.new.items ++ rest) ≡ Ok self.now }
    {
        let mut block = [0; 2];
        BigEndian::write_u16(&mut block, self.block);
        out.clear();
        out.push(LENGTH_OF_ALL);
        put_bytes(out, &self.node.bytes());
        out.push(QUALIFIER);
        put_bytes(out, &SEQUENCE_AND_RESISTANCE);
        put_bytes(out, &block);
        put_bytes(out, &self.password);
        put_bytes(out, &BLANKS);
        put_bytes(out, &FLAG_AND_FEATURES);
    }
}
