//! Which files a command is for.

ghost use Rattle.std.specs.Prelude.{◌≡◌, ◌<◌, length};
ghost use Rattle.njh_spool.specs.Spools.{spool_at};
ghost use Rattle.njh_command.specs.Commands.{is_called, is_owner};
ghost use Rattle.njh_command.specs.code.Changes.{is_chosen};
ghost use Rattle.njh_command.specs.Files.{file_at};

use njh_header::{FileName, User};
use njh_spool::{FileHeaders, Spool};

/// A user's own files of a name, of those of a customer.
#[derive(Clone, Copy, Debug, PartialEq, Eq)]
pub(crate) struct Choice {
    /// The user who says the command.
    pub(crate) who: User,
    /// The files' name.
    pub(crate) name: FileName,
    /// The customer on whose line the command came.
    pub(crate) customer: u16,
}

/// Whether the file at a place is one of them, by what its headers say.
pub(crate) fn is_chosen(choice: &Choice, spool: &Spool, index: u32) -> bool
    requires range { choice.now.customer < length spool.now }
    requires within { index < length (spool_at choice.now.customer spool.now).whole }
    ensures { result ≡ is_chosen choice.now (file_at index (spool_at choice.now.customer spool.now)) }
{
    let headers = spool.summary_at(choice.customer, index).headers;
    is_called(choice.name, &headers) && is_owner(choice.who, &headers)
}

/// Whether a user is the owner by a file's headers.
pub(crate) fn is_owner(who: User, headers: &FileHeaders) -> bool
    ensures { result ≡ is_owner who headers.now.owner }
{
    match headers.owner {
        Some(owner) => who.node == owner.node && who.user == owner.user,
        None => false,
    }
}

/// Whether a file is called so by its headers.
fn is_called(name: FileName, headers: &FileHeaders) -> bool
    ensures { result ≡ is_called name headers.now.name }
{
    match headers.name {
        Some(other) => name.number == other.number && name.node == other.node,
        None => false,
    }
}
