//! The numbers of some files of one customer, in order.

ghost use Rattle.std.specs.Prelude.{◌≡◌, IfOk, ◌==◌, ◌<◌, [], ◌∷◌, ◌++◌, not, filter, length, slice_index};
ghost use Rattle.njh_table.specs.Limits.{max_files};

use njh_table::MAX_FILES;
use std::alloc::{AllocError, Global};
use std::marker::Model;

/// Room for as many numbers as a customer may have files.
const ROOM: usize = MAX_FILES as usize;

/// At most as many as a customer may have files.
#[derive(Drop)]
pub struct Numbers {
    numbers: Vec<u16>,
}

impl Model for Numbers {
    ghost use Rattle.std.specs.Prelude.{◌≡◌, List, ℕ};
    ghost use Rattle.std.specs.Vec.{vec_capacity};
    ghost use Rattle.njh_table.specs.Limits.{max_files};

    ghost Value = { List ℕ };

    ghost view = { λ n. n.numbers.items };

    ghost invariant = { λ n. vec_capacity n.numbers ≡ max_files };
}

impl Numbers {
    /// None yet, with room for as many as there may be. Want of memory is the only refusal.
    pub fn new(alloc: Global) -> Result<Self, AllocError>
        ensures { IfOk result (λ numbers. numbers ≡ []) }
    {
        Ok(Numbers {
            numbers: Vec::with_capacity(alloc, ROOM)?,
        })
    }

    pub fn len(&self) -> usize
        ensures { result ≡ length self.now }
    {
        self.numbers.len()
    }

    pub fn at(&self, index: usize) -> u16
        requires { index < length self.now }
        ensures { result ≡ slice_index self.now index }
    {
        self.numbers[index]
    }

    /// Puts a number last.
    pub fn push(&mut self, number: u16)
        requires { length self.old < max_files }
        ensures { self.new ≡ self.old ++ number ∷ [] }
    {
        self.numbers.push_reserved(number);
    }

    /// Takes a number away.
    pub fn remove(&mut self, number: u16)
        ensures { self.new ≡ filter (λ m. not (m == number)) self.old }
    {
        self.numbers.retain(|other| *other != number);
    }
}
