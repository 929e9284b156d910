//! Files that wait or go out: their state, their removal, eight bytes written anew.

ghost use Rattle.std.specs.Prelude.{◌≡◌, ◌+◌, ◌<◌, ◌≤◌, length, OnErr, IsSomeAnd, slice_get, slice_set};
ghost use Rattle.std.specs.Option.{option_map, ForSome};
ghost use Rattle.njh_spool.specs.CustomerSpool.{cost, whole_numbered, with_state, without_whole, with_rewritten_bytes};
ghost use Rattle.njh_spool.specs.Headers.{headers_of, summary};
ghost use Rattle.njh_spool.specs.Spools.{spool_at, or_no_file};

use crate::file_headers::{FileHeaders, FileSummary, headers_behind};
use crate::file_id::FileId;
use crate::file_slot::{FileSlot, Stage};
use crate::record_places::{RECORD_HEAD, place_of_record};
use crate::slot_places::{place, slot_at};
use crate::spool::Spool;
use crate::spool::partial::blocks_for;
use crate::{SpoolFault, State};
use njh_record::Kind;

impl Spool {
    /// S3 where the number is no whole file's.
    pub fn set_state(&mut self, customer: u16, id: FileId, state: State) -> Result<(), SpoolFault>
        requires { customer < length self.old }
        ensures answer { result ≡ or_no_file (option_map (λ _. tt) (whole_numbered id (spool_at customer self.old))) }
        ensures after { self.new ≡ slice_set self.old customer (with_state id state (spool_at customer self.old)) }
        ensures err { OnErr result (self.new ≡ self.old) }
    {
        let mut slot = slot_at(&self.slots, customer, id);
        if !slot.is_whole() {
            return Err(SpoolFault::NoSuchFile);
        }
        slot.stage = Stage::Whole(state);
        self.slots.set(customer, id, slot);
        Ok(())
    }

    /// S3 where the number is no whole file's.
    pub fn state(&self, customer: u16, id: FileId) -> Result<State, SpoolFault>
        requires { customer < length self.now }
        ensures { result ≡ or_no_file (option_map (λ f. f.state) (whole_numbered id (spool_at customer self.now))) }
    {
        match slot_at(&self.slots, customer, id).stage {
            Stage::Whole(state) => Ok(state),
            Stage::Partial => Err(SpoolFault::NoSuchFile),
            Stage::Free => Err(SpoolFault::NoSuchFile),
        }
    }

    /// What the headers of a whole file say of it, without a look at its records. S3 where the
    /// number is no whole file's.
    pub fn headers(&self, customer: u16, id: FileId) -> Result<FileHeaders, SpoolFault>
        requires { customer < length self.now }
        ensures { result ≡ or_no_file (option_map (λ f. headers_of f.kind f.records)
            (whole_numbered id (spool_at customer self.now))) }
    {
        Ok(self.summary(customer, id)?.headers)
    }

    /// What is known of a whole file without a look at its records. S3 where the number is no whole
    /// file's.
    pub fn summary(&self, customer: u16, id: FileId) -> Result<FileSummary, SpoolFault>
        requires { customer < length self.now }
        ensures { result ≡ or_no_file (option_map summary (whole_numbered id (spool_at customer self.now))) }
    {
        let slot = slot_at(&self.slots, customer, id);
        if !slot.is_whole() {
            return Err(SpoolFault::NoSuchFile);
        }
        Ok(slot.summary(id))
    }

    /// How many blocks a whole file takes, without a look at its records. S3 where the number is no
    /// whole file's.
    pub fn blocks(&self, customer: u16, id: FileId) -> Result<u32, SpoolFault>
        requires { customer < length self.now }
        ensures { result ≡ or_no_file (option_map (λ f. cost f.records)
            (whole_numbered id (spool_at customer self.now))) }
    {
        if !slot_at(&self.slots, customer, id).is_whole() {
            return Err(SpoolFault::NoSuchFile);
        }
        Ok(blocks_for(self.store.len(place(customer, id))))
    }

    /// S3 where the number is no whole file's.
    pub fn remove(&mut self, customer: u16, id: FileId) -> Result<(), SpoolFault>
        requires { customer < length self.old }
        ensures answer { result ≡ or_no_file (option_map (λ _. tt) (whole_numbered id (spool_at customer self.old))) }
        ensures after { self.new ≡ slice_set self.old customer (without_whole id (spool_at customer self.old)) }
        ensures err { OnErr result (self.new ≡ self.old) }
    {
        if !slot_at(&self.slots, customer, id).is_whole() {
            return Err(SpoolFault::NoSuchFile);
        }
        let at = place(customer, id);
        let own = &mut self.customers[usize::from(customer)];
        own.used -= blocks_for(self.store.len(at));
        own.whole.remove(id.number());
        self.store.clear(at);
        self.slots
            .set(customer, id, FileSlot::empty(Stage::Free, Kind::In));
        Ok(())
    }

    /// Writes eight bytes over those from a place on of the n-th record. Where that is one of the
    /// file's headers, what they say is read again.
    ///
    /// S3 where the number is no whole file's.
    pub fn rewrite(
        &mut self,
        customer: u16,
        id: FileId,
        n: u32,
        place: usize,
        bytes: [u8; 8],
    ) -> Result<(), SpoolFault>
        requires range { customer < length self.old }
        requires within { ForSome (whole_numbered id (spool_at customer self.old))
            (λ f. IsSomeAnd (slice_get f.records n) (λ r. place + 8 ≤ length r.bytes)) }
        ensures answer { result ≡ or_no_file (option_map (λ _. tt) (whole_numbered id (spool_at customer self.old))) }
        ensures after { self.new
            ≡ slice_set self.old customer (with_rewritten_bytes id n place bytes (spool_at customer self.old)) }
        ensures err { OnErr result (self.new ≡ self.old) }
    {
        let mut slot = slot_at(&self.slots, customer, id);
        if !slot.is_whole() {
            return Err(SpoolFault::NoSuchFile);
        }
        let at = crate::slot_places::place(customer, id);
        let begins = place_of_record(&self.store, at, &slot, n);
        let from = begins.place + (RECORD_HEAD + place) as u32;
        self.store.overwrite(at, begins.block, from, bytes);
        slot.headers = headers_behind(&self.store, at, &slot, n);
        self.slots.set(customer, id, slot);
        Ok(())
    }
}
