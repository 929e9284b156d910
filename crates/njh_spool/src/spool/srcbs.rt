//! What is read of a file's records without their bytes.

ghost use Rattle.std.specs.Prelude.{◌≡◌, ◌<◌, length};
ghost use Rattle.std.specs.Option.{option_map, ForSome};
ghost use Rattle.njh_spool.specs.Spools.{spool_at, or_no_file, records_numbered, record_numbered};

use crate::SpoolFault;
use crate::file_id::FileId;
use crate::file_slot::KeptPlaces;
use crate::record_places::{pass_record, place_of_record};
use crate::slot_places::{place, slot_at};
use crate::spool::Spool;

impl Spool {
    /// The SRCB of the n-th record. As `read_on` it keeps in the file's slot where the record and
    /// the one behind it begin, but it goes past the record's bytes. S3 where the number is no
    /// file's.
    pub fn srcb_on(&mut self, customer: u16, id: FileId, n: u32) -> Result<u8, SpoolFault>
        requires range { customer < length self.old }
        requires within { ForSome (records_numbered id (spool_at customer self.old)) (λ records. n < length records) }
        ensures srcb { result ≡ or_no_file (option_map (λ r. r.srcb)
            (record_numbered id n (spool_at customer self.old))) }
        ensures same { self.new ≡ self.old }
    {
        let mut slot = slot_at(&self.slots, customer, id);
        if slot.is_free() {
            return Err(SpoolFault::NoSuchFile);
        }
        let at = place(customer, id);
        let begins = place_of_record(&self.store, at, &slot, n);
        let (srcb, behind) = pass_record(&self.store, at, &slot, begins);
        slot.places = KeptPlaces {
            last: begins,
            next: behind,
        };
        self.slots.set(customer, id, slot);
        Ok(srcb)
    }
}
