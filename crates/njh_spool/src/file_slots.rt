//! The slots of all files, by customer and number.

ghost use Rattle.std.specs.Prelude.{◌≡◌, ◌+◌, ◌*◌, ◌<◌, ◌≤◌, length, replicate, slice_set, IfOk};
ghost use Rattle.njh_spool.specs.code.Slots.{slot_of, place_of, free_slot};
ghost use Rattle.njh_table.specs.Limits.{max_files};

use crate::file_id::FileId;
use crate::file_slot::FileSlot;
use crate::slot_row::SlotRow;
use njh_table::MAX_FILES;
use std::alloc::{AllocError, Global};
use std::marker::Model;

/// A slot for each number that a file of each customer may have, all in a row.
#[derive(Drop)]
pub struct FileSlots {
    /// Of each customer.
    rows: Vec<SlotRow>,
}

impl Model for FileSlots {
    ghost use Rattle.std.specs.Prelude.{List, All};
    ghost use Rattle.njh_spool.specs.declared.file_slot.FileSlot.{FileSlot};
    ghost use Rattle.njh_spool.specs.code.SlotRows.{slots_in, IsWholeRow};

    ghost Value = { List FileSlot };

    ghost view = { λ s. slots_in s.rows.items };

    ghost invariant = { λ s. All IsWholeRow s.rows.items };
}

impl FileSlots {
    /// Slots in which no file is, for so many customers. It takes all the memory that they ever
    /// have.
    pub fn open(alloc: Global, customers: u32) -> Result<Self, AllocError>
        ensures { IfOk result (λ slots. slots ≡ replicate (max_files * customers) free_slot) }
    {
        let mut rows = Vec::with_capacity(alloc, customers as usize)?;
        for _done in 0..customers {
            rows.push_reserved(SlotRow::new(alloc, MAX_FILES)?);
        }
        Ok(FileSlots { rows })
    }

    /// The slot of a customer's file, a free one where the number can be no file's.
    pub fn at(&self, customer: u16, id: FileId) -> &FileSlot
        requires { max_files * customer + max_files ≤ length self.now }
        ensures { result.now ≡ slot_of self.now customer id }
    {
        self.rows[usize::from(customer)].at(id.number())
    }

    /// Puts a slot in the place of a customer's file.
    pub fn set(&mut self, customer: u16, id: FileId, slot: FileSlot)
        requires all { max_files * customer + max_files ≤ length self.old }
        requires number { id < max_files }
        ensures { self.new ≡ slice_set self.old (place_of customer id) slot }
    {
        self.rows[usize::from(customer)].set(id.number(), slot);
    }
}
