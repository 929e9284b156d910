//! A customer's whole files, by their places in order of arrival.
//!
//! A place is below the number of the customer's whole files: the caller's condition.

ghost use Rattle.std.specs.Prelude.{◌≡◌, ◌+◌, ◌<◌, ◌≤◌, ℕ, length, slice_set, slice_get, slice_index_or, Some};
ghost use Rattle.std.specs.Prelude.{IsSomeAnd};
ghost use Rattle.njh_record.specs.Bytes.{with_field};
ghost use Rattle.njh_spool.specs.CustomerSpool.{WholeFile, whole_numbered, on_file, without_whole, at_index};
ghost use Rattle.njh_spool.specs.CustomerSpool.{rewritten_record};
ghost use Rattle.njh_spool.specs.Spools.{spool_at};
ghost use Rattle.njh_command.specs.Commands as commands;
ghost use Rattle.njh_command.specs.Files.{file_at, stored_at, with_file, with_records, without_at};

use njh_record::{Kind, Record};
use njh_spool::{FileId, Spool, State};

/// The number of the file at a place, which is no other file's.
pub fn number_of(spool: &Spool, customer: u16, index: u32) -> FileId
    requires range { customer < length spool.now }
    requires within { index < length (spool_at customer spool.now).whole }
    ensures number { result ≡ (file_at index (spool_at customer spool.now)).number }
    ensures found { whole_numbered result (spool_at customer spool.now)
        ≡ Some (file_at index (spool_at customer spool.now)) }
    ensures alone { (f : WholeFile → WholeFile) → on_file result f (spool_at customer spool.now)
        ≡ with_file index (f (file_at index (spool_at customer spool.now))) (spool_at customer spool.now) }
    ensures removed { without_whole result (spool_at customer spool.now)
        ≡ without_at index (spool_at customer spool.now) }
{
    spool.file_at(customer, index)
}

pub(crate) fn kind_of(spool: &Spool, customer: u16, index: u32) -> Kind
    requires range { customer < length spool.now }
    requires within { index < length (spool_at customer spool.now).whole }
    ensures { result ≡ (file_at index (spool_at customer spool.now)).kind }
{
    let file = number_of(spool, customer, index);
    spool.kind(customer, file).unwrap_or(Kind::In)
}

pub(crate) fn state_of(spool: &Spool, customer: u16, index: u32) -> State
    requires range { customer < length spool.now }
    requires within { index < length (spool_at customer spool.now).whole }
    ensures { result ≡ (file_at index (spool_at customer spool.now)).state }
{
    let file = number_of(spool, customer, index);
    spool.state(customer, file).unwrap_or(State::Ready)
}

/// How many records the file has.
pub(crate) fn count_records(spool: &Spool, customer: u16, index: u32) -> u32
    requires range { customer < length spool.now }
    requires within { index < length (spool_at customer spool.now).whole }
    ensures { result ≡ length (file_at index (spool_at customer spool.now)).records }
{
    let file = number_of(spool, customer, index);
    spool.records(customer, file).unwrap_or(0)
}

/// A record of a whole file, by the file's place and its own, each from 0 on.
#[derive(Clone, Copy)]
pub(crate) struct RecordAt {
    pub(crate) customer: u16,
    pub(crate) index: u32,
    pub(crate) n: u32,
}

impl RecordAt {
    /// Puts its bytes in place of what `into` held, and gives its SRCB. The next record is read on
    /// from there.
    pub(crate) fn read(self, spool: &mut Spool, into: &mut Record) -> u8
        requires range { self.customer < length spool.old }
        requires within { self.index < length (spool_at self.customer spool.old).whole }
        requires known { self.n < length (file_at self.index (spool_at self.customer spool.old)).records }
        ensures record { slice_get (file_at self.index (spool_at self.customer spool.old)).records self.n
            ≡ Some (record { srcb = result; bytes = into.new.items }) }
        ensures same { spool.new ≡ spool.old }
    {
        let file = number_of(spool, self.customer, self.index);
        spool
            .read_on(self.customer, file, self.n, into)
            .unwrap_or(0)
    }

    /// Its SRCB. The next record is read on from there.
    pub(crate) fn read_srcb(self, spool: &mut Spool) -> u8
        requires range { self.customer < length spool.old }
        requires within { self.index < length (spool_at self.customer spool.old).whole }
        requires known { self.n < length (file_at self.index (spool_at self.customer spool.old)).records }
        ensures srcb { result
            ≡ (stored_at self.n (file_at self.index (spool_at self.customer spool.old)).records).srcb }
        ensures same { spool.new ≡ spool.old }
    {
        let file = number_of(spool, self.customer, self.index);
        spool.srcb_on(self.customer, file, self.n).unwrap_or(0)
    }

    /// Writes eight bytes over its own from a place on.
    pub(crate) fn rewrite(self, spool: &mut Spool, place: usize, bytes: [u8; 8])
        requires range { self.customer < length spool.old }
        requires within { self.index < length (spool_at self.customer spool.old).whole }
        requires field { IsSomeAnd (slice_get (file_at self.index (spool_at self.customer spool.old)).records self.n)
            (λ r. place + 8 ≤ length r.bytes) }
        ensures { spool.new ≡ slice_set spool.old self.customer (with_file self.index (with_records
            (at_index self.n (rewritten_record place bytes)
            (file_at self.index (spool_at self.customer spool.old)).records)
            (file_at self.index (spool_at self.customer spool.old))) (spool_at self.customer spool.old)) }
    {
        let file = number_of(spool, self.customer, self.index);
        spool
            .rewrite(self.customer, file, self.n, place, bytes)
            .ok();
    }
}

pub(crate) fn set_state(spool: &mut Spool, customer: u16, index: u32, state: State)
    requires range { customer < length spool.old }
    requires within { index < length (spool_at customer spool.old).whole }
    ensures { spool.new ≡ slice_set spool.old customer
        (with_file index (commands.file_in_state state (file_at index (spool_at customer spool.old)))
        (spool_at customer spool.old)) }
{
    let file = number_of(spool, customer, index);
    spool.set_state(customer, file, state).ok();
}

/// Removes the file, and gives the number that it had.
pub(crate) fn remove(spool: &mut Spool, customer: u16, index: u32) -> FileId
    requires range { customer < length spool.old }
    requires within { index < length (spool_at customer spool.old).whole }
    ensures number { result ≡ (file_at index (spool_at customer spool.old)).number }
    ensures spool { spool.new ≡ slice_set spool.old customer (without_at index (spool_at customer spool.old)) }
{
    let file = number_of(spool, customer, index);
    spool.remove(customer, file).ok();
    file
}
