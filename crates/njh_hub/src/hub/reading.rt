//! What a keeper reads of a customer's files.

ghost use Rattle.std.specs.Prelude.{◌≡◌, ◌<◌, drop, length, option_map};
ghost use Rattle.njh_command.specs.Files.{file_at};
ghost use Rattle.njh_spool.specs.Spools.{records_numbered};
ghost use Rattle.njh_stream.specs.SpoolFiles.{records_in};
ghost use Rattle.njh_hub.specs.WholeHub.{part};

use crate::hub::Hub;
use njh_command::number_of;
use njh_spool::{FileId, RecordReader};

impl Hub {
    /// The number of a customer's whole file, by its index in order of arrival, from 0 on.
    pub fn number_at(&self, customer: u16, index: u32) -> FileId
        requires { index < length (part customer self.now).customer.spool.whole }
        ensures { result ≡ (file_at index (part customer self.now).customer.spool).number }
    {
        number_of(&self.shared.spool, customer, index)
    }

    /// The records of a customer's file of a number, whole or partial, from the first on; none
    /// where it has no file of that number, or the hub has no such customer.
    pub fn read_file(&self, customer: u16, file: FileId) -> Option<RecordReader<'_>>
        ensures { result ≡ records_numbered file (part customer self.now).customer.spool }
    {
        if usize::from(customer) >= self.lines.len() {
            return None;
        }
        match self.shared.spool.read_all(customer, file) {
            Ok(reader) => Some(reader),
            Err(_) => None,
        }
    }

    /// The records of a customer's file of a number, whole or partial, from the n-th on. Of a partial
    /// file the records that came last cost no walk over those before.
    pub fn read_file_from(&self, customer: u16, file: FileId, n: u32) -> Option<RecordReader<'_>>
        requires { n < length (records_in file (part customer self.now).customer.spool) }
        ensures { result ≡ option_map (λ records. drop n records)
            (records_numbered file (part customer self.now).customer.spool) }
    {
        if usize::from(customer) >= self.lines.len() {
            return None;
        }
        match self.shared.spool.read_from(customer, file, n) {
            Ok(reader) => Some(reader),
            Err(_) => None,
        }
    }

    /// How many records a customer's file of a number has, whole or partial; 0 where it has no file
    /// of that number, or the hub has no such customer.
    pub fn record_count(&self, customer: u16, file: FileId) -> u32
        ensures { result ≡ length (records_in file (part customer self.now).customer.spool) }
    {
        if usize::from(customer) >= self.lines.len() {
            return 0;
        }
        match self.shared.spool.records(customer, file) {
            Ok(count) => count,
            Err(_) => 0,
        }
    }
}
