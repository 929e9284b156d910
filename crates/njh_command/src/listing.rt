//! LIST.

ghost use Rattle.std.specs.Prelude.{◌≡◌, ◌<◌, ◌++◌, ◌∷◌, [], cond, length};
ghost use Rattle.njh_spool.specs.Spools.{spool_at};
ghost use Rattle.njh_command.specs.Commands.{first_replies, listing, is_owned};
ghost use Rattle.njh_command.specs.Files.{file_at};
ghost use Rattle.njh_texts.specs.Texts.{file_line};

use crate::choice::is_owner;
use crate::replies::Replies;
use njh_header::User;
use njh_spool::Spool;
use njh_texts::files_line;

/// Tells of each of a user's files, and then of how many they are.
pub(crate) fn list_files(who: User, spool: &Spool, customer: u16, replies: &mut Replies)
    requires { customer < length spool.now }
    ensures { replies.new ≡ first_replies (listing who (spool_at customer spool.now)) }
{
    replies.clear();
    let mut count = 0;
    for index in 0..spool.files(customer) {
        if list_file(who, spool, customer, index, replies) {
            count += 1;
        }
    }
    replies.add(files_line(count));
}

/// Tells of the file at a place, where it is the user's own, and says whether it is.
fn list_file(who: User, spool: &Spool, customer: u16, index: u32, replies: &mut Replies) -> bool
    requires range { customer < length spool.now }
    requires within { index < length (spool_at customer spool.now).whole }
    ensures own { result ≡ is_owned who (file_at index (spool_at customer spool.now)) }
    ensures replies { replies.new ≡ cond (is_owned who (file_at index (spool_at customer spool.now)))
        (first_replies (replies.old ++ file_line (file_at index (spool_at customer spool.now)) ∷ [])) replies.old }
{
    let file = spool.summary_at(customer, index);
    let is_own = is_owner(who, &file.headers);
    if is_own {
        replies.add_file(&file);
    }
    is_own
}
