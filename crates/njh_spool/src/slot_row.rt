//! The slots of one customer's files.

ghost use Rattle.std.specs.Prelude.{◌≡◌, ◌<◌, ◌++◌, ◌∷◌, [], length, replicate, slice_index_or, slice_set, IfOk};
ghost use Rattle.std.specs.Vec.{vec_len, vec_capacity};
ghost use Rattle.njh_spool.specs.code.Slots.{free_slot};
ghost use Rattle.njh_spool.specs.code.SlotRows.{row_of};

use crate::file_headers::{FileHeaders, KeptHeaders};
use crate::file_slot::{FileSlot, KeptPlaces, Stage};
use njh_record::Kind;
use std::alloc::{AllocError, Global};
use std::marker::Model;

/// A slot for each number that a file may have. Room for them all is reserved; a slot is written
/// when its number or one behind it is first used.
#[derive(Drop)]
pub struct SlotRow {
    /// Those that are written.
    slots: Vec<FileSlot>,
    /// What each other one is: a slot in which no file is.
    unused: FileSlot,
}

impl Model for SlotRow {
    ghost use Rattle.std.specs.Prelude.{◌≡◌, List};
    ghost use Rattle.std.specs.Vec.{vec_capacity};
    ghost use Rattle.njh_spool.specs.declared.file_slot.FileSlot.{FileSlot};
    ghost use Rattle.njh_spool.specs.code.Slots.{free_slot};
    ghost use Rattle.njh_spool.specs.code.SlotRows.{row_of};

    ghost Value = { List FileSlot };

    ghost view = { λ r. row_of r.slots.items (vec_capacity r.slots) };

    ghost invariant = { λ r. r.unused ≡ free_slot };
}

/// Puts a slot in which no file is behind the others.
fn push_free(slots: &mut Vec<FileSlot>)
    requires { vec_len slots.old < vec_capacity slots.old }
    ensures slots { slots.new.items ≡ slots.old.items ++ free_slot ∷ [] }
    ensures room { vec_capacity slots.new ≡ vec_capacity slots.old }
{
    // Field by field, since the check does not follow the options of a slot that a function made
    // into the list.
    slots.push_reserved(FileSlot {
        stage: Stage::Free,
        kind: Kind::In,
        count: 0,
        headers_end: 0,
        places: KeptPlaces::FIRST,
        headers: KeptHeaders {
            said: FileHeaders {
                name: None,
                owner: None,
                destination: None,
            },
            count: 0,
        },
    });
}

/// Writes the slots up to a number's, those that aren't written yet.
fn reach(slots: &mut Vec<FileSlot>, number: u16)
    requires { number < vec_capacity slots.old }
    ensures same { row_of slots.new.items (vec_capacity slots.new) ≡ row_of slots.old.items (vec_capacity slots.old) }
    ensures there { number < length slots.new.items }
{
    while slots.len() <= usize::from(number) {
        push_free(slots);
    }
}

impl SlotRow {
    /// So many slots in which no file is. It takes all the memory that they ever have.
    pub fn new(alloc: Global, count: u32) -> Result<Self, AllocError>
        ensures { IfOk result (λ row. row ≡ replicate count free_slot) }
    {
        Ok(SlotRow {
            slots: Vec::with_capacity(alloc, count as usize)?,
            unused: FileSlot::empty(Stage::Free, Kind::In),
        })
    }

    /// The slot of a number, a free one where the row has none.
    pub fn at(&self, number: u16) -> &FileSlot
        ensures { result.now ≡ slice_index_or self.now number free_slot }
    {
        match self.slots.get(usize::from(number)) {
            Some(slot) => slot,
            None => &self.unused,
        }
    }

    /// Puts a slot in a number's place.
    pub fn set(&mut self, number: u16, slot: FileSlot)
        requires { number < length self.old }
        ensures { self.new ≡ slice_set self.old number slot }
    {
        reach(&mut self.slots, number);
        self.slots[usize::from(number)] = slot;
    }
}
