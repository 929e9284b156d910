//! Files that come in: a file begins, takes records, and is finished or given up.

ghost use Rattle.std.specs.Prelude.{◌≡◌, ◌<◌, ◌≤◌, ◌^◌, length, MatchOption, IfOk, OnOk, OnErr, IsOk, slice_set};
ghost use Rattle.std.specs.Option.{option_map};
ghost use Rattle.njh_spool.specs.CustomerSpool.{next_number, with_new_partial, with_appended, with_finished};
ghost use Rattle.njh_spool.specs.CustomerSpool.{without_partial, partial_numbered};
ghost use Rattle.njh_spool.specs.code.Chains.{blocks_for};
ghost use Rattle.njh_spool.specs.Spools.{spool_at, begin_fault, append_fault, or_no_file};

use crate::file_headers::read_headers;
use crate::file_id::FileId;
use crate::file_slot::{FileSlot, KeptPlaces, Stage};
use crate::record_places::{RECORD_HEAD, head_of, place_of_end};
use crate::slot_places::{free_number, place, slot_at};
use crate::spool::Spool;
use crate::store::spool_block::BLOCK_DATA;
use crate::{SpoolFault, State};
use njh_record::Kind;

/// After how many records more of a partial file it is kept where it ends. With the two places that
/// are kept its last 2,048 records at least are found at the cost of these and as many more.
const KEPT_EACH: u32 = 2_048;

/// How many blocks so many bytes take.
pub(super) fn blocks_for(size: u32) -> u32
    requires { size < 2 ^ 31 }
    ensures { result ≡ blocks_for size }
{
    size.div_ceil(BLOCK_DATA as u32)
}

impl Spool {
    /// A new partial file without records, of the least number that no file of the customer has.
    ///
    /// S2 where the customer's files, whole and partial, are as many as it may have; else S1 where
    /// it has no block left.
    pub fn begin(&mut self, customer: u16, kind: Kind) -> Result<FileId, SpoolFault>
        requires { customer < length self.old }
        ensures fault { MatchOption (begin_fault (spool_at customer self.old))
            (IsOk result) (λ fault. result ≡ Err fault) }
        ensures number { IfOk result (λ id. id ≡ next_number (spool_at customer self.old)) }
        ensures ok { OnOk result (self.new
            ≡ slice_set self.old customer (with_new_partial kind (spool_at customer self.old))) }
        ensures err { OnErr result (self.new ≡ self.old) }
    {
        let own = &mut self.customers[usize::from(customer)];
        if own.whole.len() + own.partial.len() >= own.limit as usize {
            return Err(SpoolFault::TooManyFiles);
        }
        if own.used >= own.quota {
            return Err(SpoolFault::QuotaFull);
        }
        let number = free_number(&self.slots, customer, own.limit);
        own.partial.push(number);
        let id = FileId::of(number);
        self.slots
            .set(customer, id, FileSlot::empty(Stage::Partial, kind));
        Ok(id)
    }

    /// Puts a record last in a partial file.
    ///
    /// S3 where the number is no partial file's; else S1 where the customer's files would take more
    /// blocks than its quota.
    pub fn append(
        &mut self,
        customer: u16,
        id: FileId,
        srcb: u8,
        bytes: &[u8],
    ) -> Result<(), SpoolFault>
        requires range { customer < length self.old }
        requires short { length bytes.now ≤ 256 }
        ensures fault { MatchOption (append_fault id (record { srcb = srcb; bytes = bytes.now })
            (spool_at customer self.old))
            (IsOk result) (λ fault. result ≡ Err fault) }
        ensures ok { OnOk result (self.new
            ≡ slice_set self.old customer (with_appended id (record { srcb = srcb; bytes = bytes.now })
            (spool_at customer self.old))) }
        ensures err { OnErr result (self.new ≡ self.old) }
    {
        if self.append_last(customer, id, srcb, bytes)? {
            self.keep_end(customer, id);
        }
        Ok(())
    }

    /// As `append`, but nothing is kept of where the file ends. Says whether that is to be kept now.
    fn append_last(
        &mut self,
        customer: u16,
        id: FileId,
        srcb: u8,
        bytes: &[u8],
    ) -> Result<bool, SpoolFault>
        requires range { customer < length self.old }
        requires short { length bytes.now ≤ 256 }
        ensures fault { MatchOption (append_fault id (record { srcb = srcb; bytes = bytes.now })
            (spool_at customer self.old))
            (IsOk result) (λ fault. result ≡ Err fault) }
        ensures ok { OnOk result (self.new
            ≡ slice_set self.old customer (with_appended id (record { srcb = srcb; bytes = bytes.now })
            (spool_at customer self.old))) }
        ensures err { OnErr result (self.new ≡ self.old) }
    {
        let mut slot = slot_at(&self.slots, customer, id);
        if !slot.is_partial() {
            return Err(SpoolFault::NoSuchFile);
        }
        let at = place(customer, id);
        let own = &mut self.customers[usize::from(customer)];
        let size = self.store.len(at);
        let longer = size + (RECORD_HEAD + bytes.len()) as u32;
        let used = own.used - blocks_for(size) + blocks_for(longer);
        if used > own.quota {
            return Err(SpoolFault::QuotaFull);
        }
        own.used = used;
        self.store.append_both(at, &head_of(srcb, bytes), bytes);
        slot.add_record(srcb);
        self.slots.set(customer, id, slot);
        Ok(slot.count % KEPT_EACH == 0)
    }

    /// Keeps in a file's slot where the file ends, so that the records that came last are found
    /// without a walk over those before.
    fn keep_end(&mut self, customer: u16, id: FileId)
        requires { customer < length self.old }
        ensures { self.new ≡ self.old }
    {
        let mut slot = slot_at(&self.slots, customer, id);
        if slot.is_free() {
            return;
        }
        let at = place(customer, id);
        slot.places = KeptPlaces {
            last: slot.places.next,
            next: place_of_end(&self.store, at, &slot),
        };
        self.slots.set(customer, id, slot);
    }

    /// A partial file becomes the customer's last whole file, Ready, and counts as arrived.
    ///
    /// S3 where the number is no partial file's.
    pub fn finish(&mut self, customer: u16, id: FileId) -> Result<(), SpoolFault>
        requires { customer < length self.old }
        ensures answer { result ≡ or_no_file (option_map (λ _. tt) (partial_numbered id (spool_at customer self.old))) }
        ensures after { self.new ≡ slice_set self.old customer (with_finished id (spool_at customer self.old)) }
        ensures err { OnErr result (self.new ≡ self.old) }
    {
        let mut slot = slot_at(&self.slots, customer, id);
        if !slot.is_partial() {
            return Err(SpoolFault::NoSuchFile);
        }
        let at = place(customer, id);
        slot.headers = read_headers(&self.store, at, &slot);
        let number = id.number();
        let own = &mut self.customers[usize::from(customer)];
        own.partial.remove(number);
        own.whole.push(number);
        own.arrived = own.arrived.saturating_add(1);
        slot.stage = Stage::Whole(State::Ready);
        self.slots.set(customer, id, slot);
        Ok(())
    }

    /// Drops a partial file.
    ///
    /// S3 where the number is no partial file's.
    pub fn abandon(&mut self, customer: u16, id: FileId) -> Result<(), SpoolFault>
        requires { customer < length self.old }
        ensures answer { result ≡ or_no_file (option_map (λ _. tt) (partial_numbered id (spool_at customer self.old))) }
        ensures after { self.new ≡ slice_set self.old customer (without_partial id (spool_at customer self.old)) }
        ensures err { OnErr result (self.new ≡ self.old) }
    {
        if !slot_at(&self.slots, customer, id).is_partial() {
            return Err(SpoolFault::NoSuchFile);
        }
        let at = place(customer, id);
        let own = &mut self.customers[usize::from(customer)];
        own.used -= blocks_for(self.store.len(at));
        own.partial.remove(id.number());
        self.store.clear(at);
        self.slots
            .set(customer, id, FileSlot::empty(Stage::Free, Kind::In));
        Ok(())
    }
}
