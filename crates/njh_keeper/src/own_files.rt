//! What a keeper remembers of a customer's files.

ghost use Rattle.std.specs.Prelude.{◌≡◌, ℕ, ◌<◌, ◌≤◌, length, take, get_or, remove, slice_get, None, IfSome, IsSomeAnd};
ghost use Rattle.std.specs.Prelude.{option_map};
ghost use Rattle.std.specs.List.{AllByRecursion};
ghost use Rattle.njh_keeper.specs.code.Partly.{IsAnother};

use njh_ebcdic::Name;
use njh_header::Destination;
use njh_spool::{FileId, State};

/// A whole file that is kept.
#[derive(Clone, Copy)]
pub(crate) struct KeptWhole {
    /// The number of its row, which says where it stands in the order of arrival.
    pub(crate) id: u64,
    /// The number that its records stand under.
    pub(crate) key: u32,
    /// Its number in the hub.
    pub(crate) number: FileId,
    /// How many records it has.
    pub(crate) records: u32,
    /// What it waited for after the last step.
    pub(crate) state: State,
    /// Where it went after the last step.
    pub(crate) destination: Destination,
    /// Whether its data set headers name more than one node.
    pub(crate) is_mixed: bool,
    /// Whether its row says that it was sent to its node.
    pub(crate) is_sent: bool,
    /// When it became whole, in seconds since 1970.
    pub(crate) came: u32,
}

/// A file that isn't whole, some of whose records are kept.
#[derive(Clone, Copy)]
pub(crate) struct KeptPartial {
    /// Its number in the hub.
    pub(crate) number: FileId,
    /// The number that its records stand under.
    pub(crate) key: u32,
    /// How many records it had after the last step.
    pub(crate) seen: u32,
    /// How many of them are kept.
    pub(crate) written: u32,
    /// Whether a stream is still about it.
    pub(crate) is_open: bool,
}

/// Records of a file that has left, which are still to be dropped: those at places from `next` on
/// and before `end`.
#[derive(Clone, Copy)]
pub(crate) struct Sweep {
    /// The number that they stand under.
    pub(crate) key: u32,
    /// The place of the first.
    pub(crate) next: u32,
    /// The place after the last.
    pub(crate) end: u32,
}

/// The files of a customer.
#[derive(Drop)]
pub(crate) struct OwnFiles {
    /// The customer's name.
    pub(crate) name: Name,
    /// It as each row has it: a text that reads as this very name.
    pub(crate) text: String,
    /// How many files had become whole after the last step.
    pub(crate) arrived: u64,
    /// Those that are whole, in order of arrival.
    pub(crate) whole: Vec<KeptWhole>,
    /// Those that aren't, of which records are kept.
    pub(crate) partial: Vec<KeptPartial>,
    /// Those that have left, whose records are still to be dropped.
    pub(crate) sweeps: Vec<Sweep>,
}

/// A file of a hub.
#[derive(Clone, Copy)]
pub(crate) struct HubFile {
    /// Whose it is.
    pub(crate) customer: u16,
    /// Its number there.
    pub(crate) number: FileId,
}

impl OwnFiles {
    /// When the whole file at an index in the order of arrival became whole, in seconds since 1970.
    pub(crate) fn came(&self, index: usize) -> Option<u32>
        ensures { result ≡ option_map (λ f. f.came) (slice_get self.now.whole.items index) }
    {
        match self.whole.get(index) {
            Some(file) => Some(file.came),
            None => None,
        }
    }

    /// The first place where a file of this number is remembered that wasn't whole, and can be the
    /// one with so many records now.
    pub(crate) fn place_of(&self, number: FileId, records: u32) -> Option<usize>
        ensures within { IfSome result (λ place. place < length self.now.partial.items) }
        ensures found { IfSome result (λ place. IsSomeAnd (slice_get self.now.partial.items place) (λ p.
            (p.number ≡ number) × (p.seen ≤ records))) }
        ensures first { IfSome result (λ place. AllByRecursion (IsAnother number records)
            (take place self.now.partial.items)) }
        ensures none { result ≡ None → AllByRecursion (IsAnother number records) self.now.partial.items }
    {
        for place in 0..self.partial.len() {
            if self.partial[place].number == number && self.partial[place].seen <= records {
                return Some(place);
            }
        }
        None
    }

    /// The file of this number that wasn't whole, if it can be the one with so many records now.
    /// It is remembered no more.
    pub(crate) fn take_partial(&mut self, number: FileId, records: u32) -> Option<KeptPartial>
        ensures taken { IfSome result (λ p. (place : ℕ) × (place < length self.old.partial.items)
            × (p ≡ get_or self.old.partial.items place p)
            × (self.new.partial.items ≡ remove self.old.partial.items place)
            × (p.number ≡ number) × (p.seen ≤ records)) }
        ensures none { result ≡ None → (self.new ≡ self.old)
            × AllByRecursion (IsAnother number records) self.old.partial.items }
        ensures others { self.new ≡ record self.old { partial = self.new.partial } }
    {
        let place = self.place_of(number, records)?;
        Some(self.partial.remove(place))
    }
}
