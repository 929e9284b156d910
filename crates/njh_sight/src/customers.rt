//! What the attendant keeps of each customer.

ghost use Rattle.std.specs.Prelude.{◌≡◌, None, Some, replicate, slice_get, IfSome, IsTrue};
ghost use Rattle.njh_sight.specs.Telling.{came_between};
ghost use Rattle.njh_sight.specs.Waking.{is_wanted, look_moment, looked, looked_again, marked, pause_for, with_line};
ghost use Rattle.njh_sight.specs.Waking.{no_row, IsFirstLook, IsRowMade};
ghost use Rattle.njh_sight.specs.declared.customers.Row.{Row};

use crate::streams::has_come_near;
use njh_ebcdic::Name;
use njh_hub::Hub;
use njh_table::Tables;
use std::marker::Model;

/// How many customers a hub has at most.
pub const CUSTOMERS: usize = 64;

/// How many files a look at a line without any counts for.
const LINE: u64 = 16;

/// How many files are looked at in a millisecond that a customer's lines may be looked at in.
const FILES: u64 = 12_500;

/// What is kept of each customer, by its number.
#[derive(Drop)]
pub struct Customers {
    /// Whether it was told that it is near its quota.
    near: [bool; CUSTOMERS],
    /// Whether it was told that it is near the number of files that it may have.
    near_files: [bool; CUSTOMERS],
    /// Since when it is near its quota, if it is, on the service's clock.
    near_since: [u64; CUSTOMERS],
    /// Since when it is near that number, if it is.
    near_files_since: [u64; CUSTOMERS],
    /// How many files it may have, whole and coming in; 0 if that isn't known.
    most_files: [u32; CUSTOMERS],
    /// What it is called, if that is known.
    names: [Option<Name>; CUSTOMERS],
    /// How many whole files it had after the step that was followed last, and how many had come.
    files: [FileCount; CUSTOMERS],
    /// Where its lines are.
    rows: [Row; CUSTOMERS],
}

impl Model for Customers {
    ghost use Rattle.std.specs.Prelude.{◌≡◌, List, length};
    ghost use Rattle.njh_sight.specs.declared.customers.Row.{Row};

    ghost Value = { List Row };

    ghost view = { λ customers. customers.rows };

    ghost invariant = { λ customers. length customers.rows ≡ 64 };
}

/// How many whole files a customer has, and how many have come so far.
#[derive(Clone, Copy, Drop)]
struct FileCount {
    there: u32,
    arrived: u64,
}

impl FileCount {
    /// Of a customer of whom no file is known.
    const NONE: FileCount = FileCount {
        there: 0,
        arrived: 0,
    };

    /// Those of a customer of a hub.
    fn of(hub: &Hub, customer: u16) -> FileCount {
        FileCount {
            there: hub.file_count(customer),
            arrived: hub.arrived(customer),
        }
    }

    /// What came between this count and a later one.
    fn came_until(self, now: FileCount) -> Came
        ensures { result ≡ came_between self now }
    {
        let files = now.arrived.saturating_sub(self.arrived);
        let there = u64::from(self.there).saturating_add(files);
        Came {
            files: files.min(u64::from(now.there)) as u32,
            are_there: there == u64::from(now.there),
        }
    }
}

/// How many files of a customer came since its files were counted last.
#[derive(Clone, Copy, Debug, Drop, PartialEq, Eq)]
pub struct Came {
    /// So many, as far as there are that many.
    pub files: u32,
    /// Whether as many more are there, so that none left.
    pub are_there: bool,
}

/// A customer, where its lines are among those that are served, beside each other, and when they
/// are looked at because one of them may have something to send.
#[derive(Clone, Copy, Drop)]
pub struct Row {
    /// The customer.
    pub customer: u16,
    /// The place of its first line.
    pub first: usize,
    /// The place after its last one; `first` or 0 if it has none.
    pub end: usize,
    /// Whether something came since that may give one of them something to send.
    pub has_moved: bool,
    /// From when on they may be looked at again, on the service's clock.
    pub again: u64,
}

impl Row {
    /// One of no lines.
    const NONE: Row = Row {
        customer: 0,
        first: 0,
        end: 0,
        has_moved: false,
        again: 0,
    };

    /// The customer's next line is at this place.
    fn add(&mut self, customer: u16, place: usize)
        ensures { self.new ≡ with_line customer place self.old }
    {
        if self.end == 0 {
            self.customer = customer;
            self.first = place;
        }
        self.end = place.saturating_add(1);
    }

    /// Something came that may give one of the lines something to send.
    fn mark(&mut self)
        ensures { self.new ≡ marked self.old }
    {
        self.has_moved = true;
    }

    /// Whether the lines are to be looked at now.
    fn is_wanted(&self, now: u64) -> bool
        ensures { result ≡ is_wanted self.now now }
    {
        self.has_moved && self.again <= now
    }

    /// The lines are looked at now, and the customer has so many whole files.
    fn look(&mut self, now: u64, files: u32)
        ensures { self.new ≡ looked self.old now files }
    {
        let lines = self.end.saturating_sub(self.first);
        self.has_moved = false;
        self.again = now.saturating_add(pause_for(lines as u64, files));
    }

    /// The lines are looked at again at this moment too; `u64::MAX` if nothing asks for that.
    fn look_again(&mut self, moment: u64)
        ensures { self.new ≡ looked_again self.old moment }
    {
        if moment != u64::MAX {
            self.has_moved = true;
            self.again = if self.again < moment {
                moment
            } else {
                self.again
            };
        }
    }

    /// When the lines are to be looked at; `u64::MAX` if nothing came.
    fn moment(&self) -> u64
        ensures { result ≡ look_moment self.now }
    {
        if self.has_moved { self.again } else { u64::MAX }
    }
}

/// For how many milliseconds so many lines of a customer with so many files aren't looked at again:
/// so that all looks at them take an eighth of the time at most, by what one costs.
fn pause_for(lines: u64, files: u32) -> u64
    ensures { result ≡ pause_for lines files }
{
    lines.saturating_mul(LINE + u64::from(files)) / FILES
}

impl Customers {
    /// Of customers of whom no line is served.
    pub fn none() -> Customers
        ensures { result ≡ replicate 64 no_row }
    {
        Customers {
            near: [false; CUSTOMERS],
            near_files: [false; CUSTOMERS],
            near_since: [0; CUSTOMERS],
            near_files_since: [0; CUSTOMERS],
            most_files: [0; CUSTOMERS],
            names: [None; CUSTOMERS],
            files: [FileCount::NONE; CUSTOMERS],
            rows: [Row::NONE; CUSTOMERS],
        }
    }

    /// The customers are those of these tables.
    pub fn know(&mut self, tables: &Tables)
        ensures { self.new ≡ self.old }
    {
        let customers = tables.customers();
        for place in 0..CUSTOMERS {
            if let Some(customer) = customers.get(place) {
                self.most_files[place] = customer.files();
                self.names[place] = Some(customer.name());
            }
        }
    }

    /// Counts the files of each customer, so that those which are there haven't come since.
    pub fn count_all(&mut self, hub: &Hub)
        ensures { self.new ≡ self.old }
    {
        for customer in 0..CUSTOMERS {
            let _there = self.count_files(customer as u16, hub);
        }
    }

    /// Counts a customer's files. Answers how many came since they were counted last.
    pub fn count_files(&mut self, customer: u16, hub: &Hub) -> Came
        ensures { self.new ≡ self.old }
    {
        let now = FileCount::of(hub, customer);
        match self.files.get_mut(usize::from(customer)) {
            Some(files) => {
                let came = files.came_until(now);
                *files = now;
                came
            }
            None => Came {
                files: 0,
                are_there: true,
            },
        }
    }

    /// What a customer is called.
    pub fn name(&self, customer: u16) -> Option<Name> {
        *self.names.get(usize::from(customer))?
    }

    /// How many files a customer may have, whole and coming in; 0 if that isn't known.
    pub fn most_files(&self, customer: u16) -> u32 {
        match self.most_files.get(usize::from(customer)) {
            Some(most) => *most,
            None => 0,
        }
    }

    /// Whether a customer that uses so many blocks of its quota has come near it now.
    pub fn has_come_near_quota(&mut self, customer: u16, used: u32, quota: u32, now: u64) -> bool
        ensures { self.new ≡ self.old }
    {
        let customer = usize::from(customer);
        if customer >= CUSTOMERS {
            return false;
        }
        let has_come = has_come_near(&mut self.near[customer], used, quota);
        if has_come {
            self.near_since[customer] = now;
        }
        has_come
    }

    /// Since when a customer is near its quota, if that was seen.
    pub fn near_since(&self, customer: usize) -> Option<u64> {
        if customer < CUSTOMERS && self.near[customer] {
            Some(self.near_since[customer])
        } else {
            None
        }
    }

    /// Since when it is near the number of files that it may have, if that was seen.
    pub fn near_files_since(&self, customer: usize) -> Option<u64> {
        if customer < CUSTOMERS && self.near_files[customer] {
            Some(self.near_files_since[customer])
        } else {
            None
        }
    }

    /// Whether a customer that has so many whole files has come near the number that it may have now.
    /// Answers that number if so.
    pub fn has_come_near_files(&mut self, customer: usize, files: u32, now: u64) -> Option<u32>
        ensures { self.new ≡ self.old }
    {
        if customer >= CUSTOMERS {
            return None;
        }
        let most = self.most_files[customer];
        if most > 0 && has_come_near(&mut self.near_files[customer], files, most) {
            self.near_files_since[customer] = now;
            Some(most)
        } else {
            None
        }
    }

    /// A customer's next line is at this place.
    pub fn add(&mut self, customer: u16, place: usize)
        ensures { IsRowMade customer (with_line customer place) self.old self.new }
    {
        let own = usize::from(customer);
        if own < CUSTOMERS {
            self.rows[own].add(customer, place);
        }
    }

    /// Marks a customer if something came that may give one of its lines something to send.
    pub fn mark_if(&mut self, customer: u16, has_come: bool)
        ensures marks { IsTrue has_come → IsRowMade customer marked self.old self.new }
        ensures same { ¬ IsTrue has_come → self.new ≡ self.old }
    {
        if has_come {
            self.mark(customer);
        }
    }

    /// Something came that may give one of this customer's lines something to send.
    pub fn mark(&mut self, customer: u16)
        ensures { IsRowMade customer marked self.old self.new }
    {
        let own = usize::from(customer);
        if own < CUSTOMERS {
            self.rows[own].mark();
        }
    }

    /// A customer's lines, if they are to be looked at now.
    pub fn wanted(&self, customer: usize, now: u64) -> Option<Row>
        ensures found { IfSome result (λ row. (slice_get self.now customer ≡ Some row) × IsTrue (is_wanted row now)) }
        ensures none { result ≡ None → (row : Row) → slice_get self.now customer ≡ Some row →
            ¬ IsTrue (is_wanted row now) }
    {
        match self.rows.get(customer) {
            Some(row) if row.is_wanted(now) => Some(*row),
            _ => None,
        }
    }

    /// A customer's lines are looked at now, and it has so many whole files.
    pub fn look(&mut self, customer: usize, now: u64, files: u32)
        ensures { IsRowMade customer (λ row. looked row now files) self.old self.new }
    {
        if customer < CUSTOMERS {
            self.rows[customer].look(now, files);
        }
    }

    /// A customer's lines are looked at again at this moment too; `u64::MAX` if nothing asks for
    /// that.
    pub fn look_again(&mut self, customer: usize, moment: u64)
        ensures { IsRowMade customer (λ row. looked_again row moment) self.old self.new }
    {
        if customer < CUSTOMERS {
            self.rows[customer].look_again(moment);
        }
    }

    /// When the lines of some customer are to be looked at; `u64::MAX` if nothing came.
    pub fn moment(&self) -> u64
        ensures { IsFirstLook self.now result }
    {
        let mut moment = u64::MAX;
        for row in &self.rows {
            moment = moment.min(row.moment());
        }
        moment
    }
}
