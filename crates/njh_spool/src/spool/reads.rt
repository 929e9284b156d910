//! What is read of any file, whole or partial.

ghost use Rattle.std.specs.Prelude.{◌≡◌, ◌<◌, drop, length, IfOk, IsOk, OnErr, MatchOption, Some};
ghost use Rattle.std.specs.Option.{option_map, ForSome};
ghost use Rattle.njh_spool.specs.Spools.{spool_at, or_no_file, kind_numbered, records_numbered, record_numbered};

use crate::SpoolFault;
use crate::file_id::FileId;
use crate::file_slot::KeptPlaces;
use crate::record_places::{place_of_record, read_record};
use crate::record_reader::RecordReader;
use crate::slot_places::{place, slot_at};
use crate::spool::Spool;
use njh_record::{Kind, Record};

impl Spool {
    /// S3 where the number is no file's.
    pub fn kind(&self, customer: u16, id: FileId) -> Result<Kind, SpoolFault>
        requires { customer < length self.now }
        ensures { result ≡ or_no_file (kind_numbered id (spool_at customer self.now)) }
    {
        let slot = slot_at(&self.slots, customer, id);
        if slot.is_free() {
            return Err(SpoolFault::NoSuchFile);
        }
        Ok(slot.kind)
    }

    /// How many records a file has. S3 where the number is no file's.
    pub fn records(&self, customer: u16, id: FileId) -> Result<u32, SpoolFault>
        requires { customer < length self.now }
        ensures { result ≡ or_no_file (option_map (λ records. length records)
            (records_numbered id (spool_at customer self.now))) }
    {
        let slot = slot_at(&self.slots, customer, id);
        if slot.is_free() {
            return Err(SpoolFault::NoSuchFile);
        }
        Ok(slot.count)
    }

    /// The records of a file, whole or partial, from the first on. S3 where the number is no
    /// file's.
    pub fn read_all(&self, customer: u16, id: FileId) -> Result<RecordReader<'_>, SpoolFault>
        requires { customer < length self.now }
        ensures { result ≡ or_no_file (records_numbered id (spool_at customer self.now)) }
    {
        let slot = slot_at(&self.slots, customer, id);
        if slot.is_free() {
            return Err(SpoolFault::NoSuchFile);
        }
        Ok(RecordReader::of(&self.store, place(customer, id), slot))
    }

    /// The records of a file, whole or partial, from the n-th on. Of a partial file the records that
    /// came last cost no walk over those before. S3 where the number is no file's.
    pub fn read_from(
        &self,
        customer: u16,
        id: FileId,
        n: u32,
    ) -> Result<RecordReader<'_>, SpoolFault>
        requires range { customer < length self.now }
        requires within { ForSome (records_numbered id (spool_at customer self.now)) (λ records. n < length records) }
        ensures { result ≡ or_no_file (option_map (λ records. drop n records)
            (records_numbered id (spool_at customer self.now))) }
    {
        let slot = slot_at(&self.slots, customer, id);
        if slot.is_free() {
            return Err(SpoolFault::NoSuchFile);
        }
        let at = place(customer, id);
        let begins = place_of_record(&self.store, at, &slot, n);
        Ok(RecordReader::starting_at(&self.store, at, slot, begins))
    }

    /// Puts the n-th record's bytes into `into` and gives its SRCB. S3 where the number is no
    /// file's.
    pub fn record_at(
        &self,
        customer: u16,
        id: FileId,
        n: u32,
        into: &mut Record,
    ) -> Result<u8, SpoolFault>
        requires range { customer < length self.now }
        requires within { ForSome (records_numbered id (spool_at customer self.now)) (λ records. n < length records) }
        ensures fault { MatchOption (records_numbered id (spool_at customer self.now))
            (result ≡ Err SpoolFault.NoSuchFile) (λ _. IsOk result) }
        ensures ok { IfOk result (λ srcb. record_numbered id n (spool_at customer self.now)
            ≡ Some (record { srcb = srcb; bytes = into.new.items })) }
        ensures err { OnErr result (into.new ≡ into.old) }
    {
        let slot = slot_at(&self.slots, customer, id);
        if slot.is_free() {
            return Err(SpoolFault::NoSuchFile);
        }
        let at = place(customer, id);
        let begins = place_of_record(&self.store, at, &slot, n);
        let (srcb, _) = read_record(&self.store, at, &slot, begins, into);
        Ok(srcb)
    }

    /// As `record_at`, and keeps in the file's slot where the record begins and where the one
    /// behind it does: reading it again, as where it had no room in a block, or the one behind it
    /// costs no walk over the file, so reading a file from its first record to its last costs the
    /// file's bytes. S3 where the number is no file's.
    pub fn read_on(
        &mut self,
        customer: u16,
        id: FileId,
        n: u32,
        into: &mut Record,
    ) -> Result<u8, SpoolFault>
        requires range { customer < length self.old }
        requires within { ForSome (records_numbered id (spool_at customer self.old)) (λ records. n < length records) }
        ensures fault { MatchOption (records_numbered id (spool_at customer self.old))
            (result ≡ Err SpoolFault.NoSuchFile) (λ _. IsOk result) }
        ensures ok { IfOk result (λ srcb. record_numbered id n (spool_at customer self.old)
            ≡ Some (record { srcb = srcb; bytes = into.new.items })) }
        ensures same { self.new ≡ self.old }
        ensures err { OnErr result (into.new ≡ into.old) }
    {
        let mut slot = slot_at(&self.slots, customer, id);
        if slot.is_free() {
            return Err(SpoolFault::NoSuchFile);
        }
        let at = place(customer, id);
        let begins = place_of_record(&self.store, at, &slot, n);
        let (srcb, behind) = read_record(&self.store, at, &slot, begins, into);
        slot.places = KeptPlaces {
            last: begins,
            next: behind,
        };
        self.slots.set(customer, id, slot);
        Ok(srcb)
    }
}
