//! The slots of the files, by customer and number.

ghost use Rattle.std.specs.Prelude.{◌≡◌, ℕ, ◌+◌, ◌*◌, ◌<◌, ◌≤◌, true, false, length};
ghost use Rattle.njh_spool.specs.code.Slots.{slot_of, place_of, is_free};
ghost use Rattle.njh_table.specs.Limits.{max_files};

use crate::file_id::FileId;
use crate::file_slot::FileSlot;
use crate::file_slots::FileSlots;
use njh_table::MAX_FILES;

/// Where a customer's slot is among all.
pub fn place(customer: u16, id: FileId) -> u32
    ensures { result ≡ place_of customer id }
{
    MAX_FILES * u32::from(customer) + u32::from(id.number())
}

/// The slot of a customer's file, a free one where the number can be no file's.
pub fn slot_at(slots: &FileSlots, customer: u16, id: FileId) -> FileSlot
    requires { max_files * customer + max_files ≤ length slots.now }
    ensures { result ≡ slot_of slots.now customer id }
{
    *slots.at(customer, id)
}

/// The least number whose slot has no file.
pub fn free_number(slots: &FileSlots, customer: u16, limit: u32) -> u16
    requires all { max_files * customer + max_files ≤ length slots.now }
    requires few { limit ≤ max_files }
    requires some { (n : ℕ) × (n < limit) × (is_free (slot_of slots.now customer n).stage ≡ true) }
    ensures free { is_free (slot_of slots.now customer result).stage ≡ true }
    ensures least { (n : ℕ) → n < result → is_free (slot_of slots.now customer n).stage ≡ false }
    ensures below { result < limit }
{
    for number in 0..limit as u16 {
        if slots.at(customer, FileId::of(number)).is_free() {
            return number;
        }
    }
    unreachable!()
}
