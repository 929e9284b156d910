//! The records of a file, one after another.

ghost use Rattle.std.specs.Prelude.{◌≡◌, ◌<◌, ◌≤◌, ◌⊎◌, ℕ, length, drop, slice_get, None, Some};
ghost use Rattle.std.specs.List.{AllByRecursion, list_any};
ghost use Rattle.std.specs.Option.{option_map, ForSome};
ghost use Rattle.njh_spool.specs.Headers.{is_header};
ghost use Rattle.njh_spool.specs.Spools.{IsStorable};
ghost use Rattle.njh_spool.specs.code.Chains.{chain_at};
ghost use Rattle.njh_spool.specs.code.Packing.{unpacked_records};
ghost use Rattle.njh_spool.specs.code.Slots.{IsFile, IsPlace};

use crate::file_slot::{FileSlot, RecordPlace, is_header};
use crate::record_places::{pass_record, read_record};
use crate::store::BlockStore;
use njh_record::Record;
use std::marker::Model;

/// Reads a file's records from the first to the last, at the cost of their bytes. A contract sees
/// the records that are left.
#[derive(Drop)]
pub struct RecordReader<'a> {
    store: &'a BlockStore,
    /// Where the file's string is in the store.
    at: u32,
    slot: FileSlot,
    next: RecordPlace,
}

impl<'a> Model for RecordReader<'a> {
    ghost use Rattle.std.specs.Prelude.{List};
    ghost use Rattle.njh_record.specs.Stored.{Stored};
    ghost use Rattle.njh_spool.specs.code.Chains.{chain_at};
    ghost use Rattle.njh_spool.specs.code.RecordReader.{records_from, IsReading};

    ghost Value = { List Stored };

    ghost view = { λ r. records_from r.slot (chain_at r.at r.store.now) r.next };

    ghost invariant = { λ r. IsReading r.store.now r.at r.slot r.next };
}

impl<'a> RecordReader<'a> {
    /// All records of a file.
    pub(crate) fn of(store: &'a BlockStore, at: u32, slot: FileSlot) -> Self
        requires range { at < length store.now.chains }
        requires file { IsFile slot (chain_at at store.now) }
        ensures { result ≡ unpacked_records slot.count (chain_at at store.now).bytes }
    {
        RecordReader::starting_at(store, at, slot, RecordPlace::FIRST)
    }

    /// The records of a file from the one on that begins at a place.
    pub(crate) fn starting_at(
        store: &'a BlockStore,
        at: u32,
        slot: FileSlot,
        next: RecordPlace,
    ) -> Self
        requires range { at < length store.now.chains }
        requires file { IsFile slot (chain_at at store.now) }
        requires place { IsPlace (unpacked_records slot.count (chain_at at store.now).bytes)
            (chain_at at store.now).keys next }
        ensures { result ≡ drop next.record_index (unpacked_records slot.count (chain_at at store.now).bytes) }
    {
        RecordReader {
            store,
            at,
            slot,
            next,
        }
    }

    /// What holds of the records that are left: the SRCB of each is a byte, and each is of 256 bytes
    /// at most.
    pub fn records_are_storable(&self)
        ensures { AllByRecursion IsStorable self.now }
    {
        let _slot = &self.slot;
    }

    /// Whether a job header or a data set header, or a continuation of one, is among the records
    /// that are left. It reads none of them.
    pub fn has_headers(&self) -> bool
        ensures { result ≡ list_any is_header self.now }
    {
        self.next.record_index < self.slot.headers_end
    }

    /// Puts the next record's bytes into `into` and gives its SRCB. Where none is left it gives
    /// none, and `into` stays.
    pub fn next(&mut self, into: &mut Record) -> Option<u8>
        ensures first { option_map (λ srcb. record { srcb = srcb; bytes = into.new.items }) result
            ≡ slice_get self.old 0 }
        ensures rest { self.new ≡ drop 1 self.old }
        ensures none { result ≡ None → into.new ≡ into.old }
    {
        if self.next.record_index >= self.slot.count {
            return None;
        }
        let (srcb, next) = read_record(self.store, self.at, &self.slot, self.next, into);
        self.next = next;
        Some(srcb)
    }

    /// As `next`, but of a record that is neither a job header nor a data set header it gives the
    /// SRCB alone and goes past its bytes; then `into` has any.
    pub fn next_header(&mut self, into: &mut Record) -> Option<u8>
        ensures srcb { option_map (λ r. r.srcb) (slice_get self.old 0) ≡ result }
        ensures header { (srcb : ℕ) → (srcb ≡ 0xc0) ⊎ (srcb ≡ 0xe0) → result ≡ Some srcb
            → slice_get self.old 0 ≡ Some (record { srcb = srcb; bytes = into.new.items }) }
        ensures short { ForSome (slice_get self.old 0) (λ r. length r.bytes ≤ 256) }
        ensures rest { self.new ≡ drop 1 self.old }
    {
        if self.next.record_index >= self.slot.count {
            return None;
        }
        let (srcb, behind) = pass_record(self.store, self.at, &self.slot, self.next);
        if is_header(srcb) {
            read_record(self.store, self.at, &self.slot, self.next, into);
        }
        self.next = behind;
        Some(srcb)
    }
}
