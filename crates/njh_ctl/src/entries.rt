//! The files of a customer by name and owner, of an answer.

ghost use Rattle.std.specs.Prelude.{◌≡◌, ◌≤◌, IfErr, IfOk, OnOk, length, map};
ghost use Rattle.std.specs.List.{list_any};
ghost use Rattle.serde_json.specs.View.{view};
ghost use Rattle.njh_ctl.specs.Asked.{AddsEach, AddsOne};
ghost use Rattle.njh_ctl.specs.Chosen.{file_view, wanted_by};
ghost use Rattle.njh_ctl.specs.Faults.{IsPlain};
ghost use Rattle.njh_ctl.specs.Many.{IsEntry, entry_view, is_chosen_same, is_passed_over, is_same, named_entry};
ghost use Rattle.njh_ctl.specs.Many.{share_at, share_of, stands_first};

use crate::choosing::{FileFacts, Filter, facts_of, is_chosen};
use crate::fault::CtlFault;
use serde_json::Value;
use std::alloc::{AllocError, Global};

/// A file's name and owner, and whether it is chosen.
#[derive(Drop)]
pub(crate) struct Entry {
    pub(crate) name: String,
    /// The owner's node.
    pub(crate) node: String,
    /// The owner at his node.
    pub(crate) user: String,
    pub(crate) is_chosen: bool,
}

/// How many files of a name and an owner there are, and how many of them are chosen.
#[derive(Clone, Copy)]
pub(crate) struct Share {
    pub(crate) all: usize,
    pub(crate) chosen: usize,
}

impl Share {
    /// Whether some aren't chosen.
    pub(crate) fn is_passed_over(self) -> bool
        ensures { result ≡ is_passed_over self }
    {
        self.chosen < self.all
    }
}

impl Entry {
    /// Whether another file has its name and its owner.
    fn is_same(&self, other: &Entry) -> bool
        ensures { result ≡ is_same (entry_view self.now) (entry_view other.now) }
    {
        self.name.as_str() == other.name.as_str()
            && self.node.as_str() == other.node.as_str()
            && self.user.as_str() == other.user.as_str()
    }

    /// Whether another file is chosen that has its name and its owner.
    fn is_chosen_same(&self, other: &Entry) -> bool
        ensures { result ≡ is_chosen_same (entry_view self.now) (entry_view other.now) }
    {
        other.is_chosen && self.is_same(other)
    }

    /// Whether it is the first that is chosen of its name and owner, behind those before.
    fn stands_first(&self, before: &[Entry]) -> bool
        ensures { result ≡ stands_first (map entry_view before.now) (entry_view self.now) }
    {
        self.is_chosen && !self.is_among(before)
    }

    /// Whether one of these is chosen that has its name and its owner.
    fn is_among(&self, before: &[Entry]) -> bool
        ensures { result ≡ list_any (λ e. is_chosen_same (entry_view self.now) (entry_view e)) before.now }
    {
        before.iter().any(|other| self.is_chosen_same(other))
    }

    /// How many files of its name and owner there are among these.
    #[tactic(auto, using(crate::proofs::EntryLaws::count_by_map))]
    fn share_of(&self, entries: &[Entry]) -> Share
        ensures { result ≡ share_of (map entry_view entries.now) (entry_view self.now) }
    {
        let all = entries.iter().filter(|other| self.is_same(*other)).count();
        let chosen = entries
            .iter()
            .filter(|other| self.is_chosen_same(*other))
            .count();
        Share { all, chosen }
    }

    /// How many there are, if it stands for all of them: it is the first of those that are chosen.
    pub(crate) fn share_at(&self, entries: &[Entry], at: usize) -> Option<Share>
        requires { at ≤ length entries.now }
        ensures { result ≡ share_at (map entry_view entries.now) at (entry_view self.now) }
    {
        if self.stands_first(&entries[..at]) {
            Some(self.share_of(entries))
        } else {
            None
        }
    }
}

/// Adds an entry for each of the files.
pub(crate) fn add_entries(
    alloc: Global,
    files: &[Value],
    filter: Filter<'_>,
    entries: &mut Vec<Entry>,
) -> Result<(), CtlFault>
    ensures done { OnOk result (AddsEach (IsEntry (wanted_by filter.entry)) (map view files.now)
        (map entry_view entries.old.items) (map entry_view entries.new.items)) }
    ensures fault { IfErr result IsPlain }
{
    for file in files {
        add_entry(alloc, file, filter, entries)?;
    }
    Ok(())
}

/// Adds the entry of a file.
fn add_entry(
    alloc: Global,
    file: &Value,
    filter: Filter<'_>,
    entries: &mut Vec<Entry>,
) -> Result<(), CtlFault>
    ensures done { OnOk result (AddsOne (IsEntry (wanted_by filter.entry)) (view file.now)
        (map entry_view entries.old.items) (map entry_view entries.new.items)) }
    ensures fault { IfErr result IsPlain }
{
    let facts = facts_of(file)?;
    let entry = entry_of(alloc, facts, is_chosen(filter, facts))?;
    entries.push(entry)?;
    Ok(())
}

/// The entry of a file.
fn entry_of(alloc: Global, facts: FileFacts<'_>, is_chosen: bool) -> Result<Entry, AllocError>
    ensures { IfOk result (λ entry. entry_view entry ≡ named_entry (file_view facts.entry) is_chosen) }
{
    let name = String::from_str(alloc, facts.name)?;
    let node = String::from_str(alloc, facts.owner.node)?;
    let user = String::from_str(alloc, facts.owner.user)?;
    Ok(Entry {
        name,
        node,
        user,
        is_chosen,
    })
}
