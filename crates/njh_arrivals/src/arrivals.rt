//! When files came, as far as it was seen.

ghost use Rattle.std.specs.Prelude.{◌≡◌, ◌<◌, length, IfOk};
ghost use Rattle.njh_table.specs.Limits.{max_files};
ghost use Rattle.njh_arrivals.specs.Arrivals.{is_of, moment_in, moment_of, none_seen, noted, with_arrival, with_room};
ghost use Rattle.njh_arrivals.specs.Arrivals.{without};

use njh_spool::FileId;
use njh_table::MAX_FILES;
use std::alloc::{AllocError, Global};
use std::marker::Model;

/// Room for as many arrivals as a customer may have files.
const ROOM: usize = MAX_FILES as usize;

/// A file came.
#[derive(Clone, Copy, Drop)]
pub(crate) struct FileArrival {
    /// Its number.
    pub(crate) file: FileId,
    /// When it came, in seconds since the beginning of 1970.
    pub(crate) moment: u64,
}

/// The last arrivals of a customer's files, of each file one, in their order. Room for them all is
/// reserved.
#[derive(Drop)]
struct ArrivalRow {
    seen: Vec<FileArrival>,
}

impl Model for ArrivalRow {
    ghost use Rattle.std.specs.Prelude.{◌≡◌, List};
    ghost use Rattle.std.specs.Vec.{vec_capacity};
    ghost use Rattle.njh_table.specs.Limits.{max_files};
    ghost use Rattle.njh_arrivals.specs.declared.arrivals.FileArrival.{FileArrival};

    ghost Value = { List FileArrival };

    ghost view = { λ row. row.seen.items };

    ghost invariant = { λ row. vec_capacity row.seen ≡ max_files };
}

impl ArrivalRow {
    ghost use Rattle.std.specs.Prelude.{[]};

    /// Nothing was seen yet.
    fn new(alloc: Global) -> Result<ArrivalRow, AllocError>
        ensures { IfOk result (λ row. row ≡ []) }
    {
        Ok(ArrivalRow {
            seen: Vec::with_capacity(alloc, ROOM)?,
        })
    }

    /// A file came.
    fn note(&mut self, file: FileId, moment: u64)
        ensures { self.new ≡ with_arrival file moment self.old }
    {
        self.forget(file);
        self.make_room();
        self.seen.push_reserved(FileArrival { file, moment });
    }

    /// Lets go what was noted of a file.
    fn forget(&mut self, file: FileId)
        ensures { self.new ≡ without file self.old }
    {
        self.seen.retain(|arrival| !is_of(arrival, file));
    }

    /// Lets the first arrival go if there is no room for one more.
    fn make_room(&mut self)
        ensures room { length self.new < max_files }
        ensures rest { self.new ≡ with_room self.old }
    {
        if self.seen.len() >= ROOM {
            self.seen.remove(0);
        }
    }

    /// When a file came, if that was seen.
    fn moment(&self, file: FileId) -> Option<u64>
        ensures { result ≡ moment_in file self.now }
    {
        match self.seen.iter().find(|arrival| is_of(*arrival, file)) {
            Some(arrival) => Some(arrival.moment),
            None => None,
        }
    }
}

fn is_of(arrival: &FileArrival, file: FileId) -> bool
    ensures { result ≡ is_of file arrival.now }
{
    arrival.file == file
}

/// When files came, as far as it was seen: of each customer the last arrivals, of each file one, at
/// most as many as a customer may have files.
#[derive(Drop)]
pub struct Arrivals {
    rows: Vec<ArrivalRow>,
}

impl Model for Arrivals {
    ghost use Rattle.njh_arrivals.specs.Arrivals.{Seen};

    ghost Value = { Seen };

    ghost view = { λ arrivals. arrivals.rows.items };
}

impl Arrivals {
    ghost use Rattle.std.specs.Prelude.{[]};

    /// Of so many customers nothing was seen yet. It takes all the memory that it ever has; out of
    /// memory is the only refusal.
    pub fn none(alloc: Global, customers: usize) -> Result<Arrivals, AllocError>
        ensures { IfOk result (λ arrivals. arrivals ≡ none_seen customers) }
    {
        let mut rows = Vec::with_capacity(alloc, customers)?;
        for _done in 0..customers {
            rows.push_reserved(ArrivalRow::new(alloc)?);
        }
        Ok(Arrivals { rows })
    }

    /// Of no customer.
    pub fn empty(alloc: Global) -> Arrivals
        ensures { result ≡ [] }
    {
        Arrivals {
            rows: Vec::new(alloc),
        }
    }

    /// A customer's file came at a moment, in seconds since the beginning of 1970. Of a customer
    /// that there isn't nothing is noted.
    pub fn note(&mut self, customer: u16, file: FileId, moment: u64)
        ensures { self.new ≡ noted customer file moment self.old }
    {
        let place = usize::from(customer);
        if place < self.rows.len() {
            self.rows[place].note(file, moment);
        }
    }

    /// When a customer's file came, if that was seen.
    pub fn moment(&self, customer: u16, file: FileId) -> Option<u64>
        ensures { result ≡ moment_of customer file self.now }
    {
        match self.rows.get(usize::from(customer)) {
            Some(row) => row.moment(file),
            None => None,
        }
    }
}
