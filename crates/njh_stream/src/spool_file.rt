//! Files of the spool, as their headers are read.

ghost use Rattle.std.specs.Prelude.{◌≡◌, ◌<◌, length, slice_get, Some};
ghost use Rattle.njh_spool.specs.Spools.{spool_at};
ghost use Rattle.njh_stream.specs.SpoolFiles.{records_in};

use njh_header::FileRecords;
use njh_record::Record;
use njh_spool::{FileId, Spool};
use std::marker::Model;

/// A customer's file, whole or partial, as the list of its records. A number that names no file has
/// none.
#[derive(Drop)]
pub struct SpoolFile<'a> {
    spool: &'a Spool,
    customer: u16,
    file: FileId,
}

impl<'a> Model for SpoolFile<'a> {
    ghost use Rattle.std.specs.Prelude.{◌<◌, List, length};
    ghost use Rattle.njh_record.specs.Stored.{Stored};
    ghost use Rattle.njh_spool.specs.Spools.{spool_at};
    ghost use Rattle.njh_stream.specs.SpoolFiles.{records_in};

    ghost Value = { List Stored };

    ghost view = { λ f. records_in f.file (spool_at f.customer f.spool.now) };

    ghost invariant = { λ f. f.customer < length f.spool.now };
}

impl<'a> SpoolFile<'a> {
    /// The file of a number.
    pub fn of(spool: &'a Spool, customer: u16, file: FileId) -> Self
        requires { customer < length spool.now }
        ensures { result ≡ records_in file (spool_at customer spool.now) }
    {
        SpoolFile {
            spool,
            customer,
            file,
        }
    }
}

impl<'a> FileRecords for SpoolFile<'a> {
    ghost records = { λ f. f };

    fn count(&self) -> u32 {
        match self.spool.records(self.customer, self.file) {
            Ok(count) => count,
            Err(_) => 0,
        }
    }

    fn copy_to(&self, n: u32, into: &mut Record) -> u8 {
        match self.spool.record_at(self.customer, self.file, n, into) {
            Ok(srcb) => srcb,
            Err(_) => 0,
        }
    }
}
