//! CANCEL: files leave the spool, those too that are being sent.

ghost use Rattle.std.specs.Prelude.{◌≡◌, ◌<◌, fold, length, slice_set};
ghost use Rattle.njh_spool.specs.Spools.{spool_at};
ghost use Rattle.njh_command.specs.code.Changes.{is_chosen, numbers_where, without_where};
ghost use Rattle.njh_command.specs.Commands.{cancelling, count, is_busy, spool_after, without_file};
ghost use Rattle.njh_command.specs.Files.{file_at};

use crate::changing::{FileClass, judge};
use crate::choice::Choice;
use crate::files::remove;
use crate::replies::Replies;
use crate::senders::Senders;
use njh_spool::Spool;
use njh_texts::{cancelled, not_found};

/// Removes the files, and says how many. The streams of those that are being sent give them up, in
/// order.
pub(crate) fn cancel_files<S: Senders>(
    choice: &Choice,
    spool: &mut Spool,
    senders: &mut S,
    replies: &mut Replies,
)
    requires { choice.now.customer < length spool.old }
    ensures replies { replies.new
        ≡ (cancelling (is_chosen choice.now) choice.now.name (spool_at choice.now.customer spool.old)).replies }
    ensures spool { spool.new ≡ slice_set spool.old choice.now.customer
        (spool_after (cancelling (is_chosen choice.now) choice.now.name (spool_at choice.now.customer spool.old))
        (spool_at choice.now.customer spool.old)) }
    ensures senders { senders.new ≡ fold (λ x n. S.each x (without_file n)) senders.old
        (cancelling (is_chosen choice.now) choice.now.name (spool_at choice.now.customer spool.old)).cancelled }
{
    match cancel_each(choice, spool, senders) {
        0 => replies.put_one(not_found(choice.name)),
        count => replies.put_one(cancelled(choice.name, count)),
    }
}

/// Removes the files in order, and gives how many.
fn cancel_each<S: Senders>(choice: &Choice, spool: &mut Spool, senders: &mut S) -> u32
    requires { choice.now.customer < length spool.old }
    ensures count { result ≡ count (is_chosen choice.now) (spool_at choice.now.customer spool.old) }
    ensures spool { spool.new ≡ slice_set spool.old choice.now.customer
        (spool_after (cancelling (is_chosen choice.now) choice.now.name (spool_at choice.now.customer spool.old))
        (spool_at choice.now.customer spool.old)) }
    ensures senders { senders.new ≡ fold (λ x n. S.each x (without_file n)) senders.old
        (cancelling (is_chosen choice.now) choice.now.name (spool_at choice.now.customer spool.old)).cancelled }
{
    // A file that is removed leaves its place to the one behind it.
    let mut index = 0;
    let mut count = 0;
    for _ in 0..spool.files(choice.customer) {
        if cancel_at(choice, spool, index, senders) {
            count += 1;
        } else {
            index += 1;
        }
    }
    count
}

/// Removes the file at a place, where it is one of them, and says whether it was.
fn cancel_at<S: Senders>(choice: &Choice, spool: &mut Spool, index: u32, senders: &mut S) -> bool
    requires range { choice.now.customer < length spool.old }
    requires within { index < length (spool_at choice.now.customer spool.old).whole }
    ensures removed { result ≡ is_chosen choice.now (file_at index (spool_at choice.now.customer spool.old)) }
    ensures spool { spool.new ≡ slice_set spool.old choice.now.customer
        (without_where (is_chosen choice.now (file_at index (spool_at choice.now.customer spool.old))) index
        (spool_at choice.now.customer spool.old)) }
    ensures senders { senders.new ≡ fold (λ x n. S.each x (without_file n)) senders.old
        (numbers_where (is_busy (is_chosen choice.now) (file_at index (spool_at choice.now.customer spool.old)))
        (file_at index (spool_at choice.now.customer spool.old))) }
{
    match judge(choice, spool, index) {
        FileClass::Other => false,
        FileClass::Idle => {
            remove(spool, choice.customer, index);
            true
        }
        FileClass::Busy => {
            let file = remove(spool, choice.customer, index);
            senders.abort(file);
            true
        }
    }
}
