//! HOLD, RELEASE and REROUTE: what changes the files that aren't being sent.

ghost use Rattle.std.specs.Prelude.{◌≡◌, ◌<◌, length, slice_set};
ghost use Rattle.njh_spool.specs.Spools.{spool_at};
ghost use Rattle.njh_command.specs.code.Changes.{change_by, change_text, is_chosen, file_class_of};
ghost use Rattle.njh_command.specs.Commands.{change_replies, with_changes, changed_file, count, is_busy, may_change};
ghost use Rattle.njh_command.specs.Files.{file_at, with_file};

use crate::choice::{Choice, is_chosen};
use crate::files::{set_state, state_of};
use crate::replies::Replies;
use crate::rerouting::reroute;
use njh_ebcdic::Name;
use njh_header::FileName;
use njh_spool::{Spool, State};
use njh_texts::{MessageText, being_sent, held, not_found, released, rerouted_to};

/// What becomes of the files.
#[derive(Clone, Copy, Debug, PartialEq, Eq)]
pub(crate) enum Change {
    /// They are Held.
    Hold,
    /// They are Ready.
    Release,
    /// They go to this node.
    Reroute(Name),
}

/// What a file is to a change.
#[derive(Clone, Copy, Debug, PartialEq, Eq)]
pub(crate) enum FileClass {
    /// It isn't one of the files.
    Other,
    /// It is one, and is being sent.
    Busy,
    /// It is one, and isn't being sent.
    Idle,
}

/// How many files were changed, and how many were left since they are being sent.
#[derive(Clone, Copy, Debug, PartialEq, Eq)]
pub(crate) struct Counts {
    pub(crate) idle: u32,
    pub(crate) busy: u32,
}

/// Changes the files, and says how many.
pub(crate) fn change_files(
    change: &Change,
    choice: &Choice,
    spool: &mut Spool,
    replies: &mut Replies,
)
    requires { choice.now.customer < length spool.old }
    ensures replies { replies.new ≡ change_replies (change_text change.now choice.now.name) choice.now.name
        (count (may_change (is_chosen choice.now)) (spool_at choice.now.customer spool.old))
        (count (is_busy (is_chosen choice.now)) (spool_at choice.now.customer spool.old)) }
    ensures spool { spool.new ≡ slice_set spool.old choice.now.customer
        (with_changes (is_chosen choice.now) (change_by change.now) (spool_at choice.now.customer spool.old)) }
{
    let counts = change_each(change, choice, spool);
    reply_to(change, choice.name, counts, replies);
}

/// What is said where so many files were changed and left.
fn reply_to(change: &Change, name: FileName, counts: Counts, replies: &mut Replies)
    ensures { replies.new ≡ change_replies (change_text change.now name) name counts.idle counts.busy }
{
    match (counts.idle, counts.busy) {
        (0, 0) => replies.put_one(not_found(name)),
        (0, _) => replies.put_one(being_sent(name)),
        (idle, 0) => replies.put_one(done(change, name, idle)),
        (idle, _) => replies.put_two(done(change, name, idle), being_sent(name)),
    }
}

/// What is said of so many files that were changed.
fn done(change: &Change, name: FileName, count: u32) -> MessageText
    ensures { result.items ≡ change_text change.now name count }
{
    match change {
        Change::Hold => held(name, count),
        Change::Release => released(name, count),
        Change::Reroute(node) => rerouted_to(name, *node, count),
    }
}

/// Changes the files in order.
fn change_each(change: &Change, choice: &Choice, spool: &mut Spool) -> Counts
    requires { choice.now.customer < length spool.old }
    ensures idle { result.idle ≡ count (may_change (is_chosen choice.now)) (spool_at choice.now.customer spool.old) }
    ensures busy { result.busy ≡ count (is_busy (is_chosen choice.now)) (spool_at choice.now.customer spool.old) }
    ensures spool { spool.new ≡ slice_set spool.old choice.now.customer
        (with_changes (is_chosen choice.now) (change_by change.now) (spool_at choice.now.customer spool.old)) }
{
    let mut idle = 0;
    let mut busy = 0;
    for index in 0..spool.files(choice.customer) {
        match change_at(change, choice, spool, index) {
            FileClass::Other => {}
            FileClass::Busy => busy += 1,
            FileClass::Idle => idle += 1,
        }
    }
    Counts { idle, busy }
}

/// Changes the file at a place, where it is one of them and isn't being sent.
fn change_at(change: &Change, choice: &Choice, spool: &mut Spool, index: u32) -> FileClass
    requires range { choice.now.customer < length spool.old }
    requires within { index < length (spool_at choice.now.customer spool.old).whole }
    ensures standing { result
        ≡ file_class_of (is_chosen choice.now) (file_at index (spool_at choice.now.customer spool.old)) }
    ensures spool { spool.new ≡ slice_set spool.old choice.now.customer (with_file index
        (changed_file (is_chosen choice.now) (change_by change.now)
        (file_at index (spool_at choice.now.customer spool.old)))
        (spool_at choice.now.customer spool.old)) }
{
    let standing = judge(choice, spool, index);
    match standing {
        FileClass::Idle => change_one(change, spool, choice.customer, index),
        FileClass::Other | FileClass::Busy => {}
    }
    standing
}

/// What the file at a place is to a change.
pub(crate) fn judge(choice: &Choice, spool: &Spool, index: u32) -> FileClass
    requires range { choice.now.customer < length spool.now }
    requires within { index < length (spool_at choice.now.customer spool.now).whole }
    ensures { result ≡ file_class_of (is_chosen choice.now) (file_at index (spool_at choice.now.customer spool.now)) }
{
    if !is_chosen(choice, spool, index) {
        return FileClass::Other;
    }
    match state_of(spool, choice.customer, index) {
        State::Sending => FileClass::Busy,
        State::Ready | State::Held | State::Refused => FileClass::Idle,
    }
}

/// Changes the file at a place.
fn change_one(change: &Change, spool: &mut Spool, customer: u16, index: u32)
    requires range { customer < length spool.old }
    requires within { index < length (spool_at customer spool.old).whole }
    ensures { spool.new ≡ slice_set spool.old customer
        (with_file index (change_by change.now (file_at index (spool_at customer spool.old)))
        (spool_at customer spool.old)) }
{
    match change {
        Change::Hold => set_state(spool, customer, index, State::Held),
        Change::Release => set_state(spool, customer, index, State::Ready),
        Change::Reroute(node) => reroute(*node, spool, customer, index),
    }
}
