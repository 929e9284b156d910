//! What comes to the hub.

ghost use Rattle.std.specs.Prelude.{◌≡◌, ◌≤◌, ◌<◌, take, IfOk};

use crate::given_routes::GivenRoutes;
use njh_customer::GivenOrder;
use njh_table::LineId;
use std::alloc::{AllocError, Global};
use std::marker::Model;

/// How many bytes of a piece lie in the piece itself; more are in a vector.
pub const SHORT_PIECE: usize = 23;

/// Some bytes of a line, of any number; a caller sees them as a list.
#[derive(Drop)]
pub struct Piece {
    short: [u8; SHORT_PIECE],
    len: u8,
    long: Vec<u8>,
}

impl Model for Piece {
    ghost use Rattle.std.specs.Prelude.{◌≡◌, ◌≤◌, ◌⊎◌, ◌++◌, [], take, List, ℕ};
    ghost use Rattle.njh_hub.specs.declared.event.TheConstants.{SHORT_PIECE};

    ghost Value = { List ℕ };

    ghost view = { λ p. take p.len p.short ++ p.long.items };

    ghost invariant = { λ p. (p.len ≤ SHORT_PIECE) × ((p.len ≡ 0) ⊎ (p.long.items ≡ [])) };
}

impl Piece {
    /// A copy of the bytes. Out of memory is the only refusal.
    pub fn of(alloc: Global, bytes: &[u8]) -> Result<Piece, AllocError>
        ensures { IfOk result (λ piece. piece ≡ bytes.now) }
    {
        if bytes.len() > SHORT_PIECE {
            return Ok(Piece::of_vec(Vec::from_slice(alloc, bytes)?));
        }
        let mut short = [0; SHORT_PIECE];
        short[..bytes.len()].copy_from_slice(bytes);
        Ok(Piece {
            short,
            len: bytes.len() as u8,
            long: Vec::new(alloc),
        })
    }

    /// So many bytes from the front of some, at least one. No memory is taken.
    pub fn of_short(alloc: Global, short: [u8; SHORT_PIECE], len: usize) -> Piece
        requires within { len ≤ SHORT_PIECE }
        requires some { 0 < len }
        ensures { result ≡ take len short }
    {
        Piece {
            short,
            len: len as u8,
            long: Vec::new(alloc),
        }
    }

    /// These very bytes.
    pub fn of_vec(bytes: Vec<u8>) -> Piece
        ensures { result ≡ bytes.items }
    {
        Piece {
            short: [0; SHORT_PIECE],
            len: 0,
            long: bytes,
        }
    }

    /// The bytes.
    pub fn bytes(&self) -> &[u8]
        ensures { result.now ≡ self.now }
    {
        if self.len == 0 {
            self.long.as_slice()
        } else {
            &self.short[..usize::from(self.len)]
        }
    }
}

/// What comes to the hub: on one line, or for one customer.
#[derive(Drop)]
pub enum Event {
    /// Some bytes.
    Bytes(LineId, Piece),
    /// A tick of the clock.
    Tick(LineId),
    /// The adapter's word that a block check failed.
    Garbled(LineId),
    /// The line is lost.
    Lost(LineId),
    /// New routes for the customer of this number, in place of all that it has.
    Routes(u16, GivenRoutes),
    /// An order for the customer of this number.
    Order(u16, GivenOrder),
}
