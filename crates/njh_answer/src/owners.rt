//! In whose name a command is carried out.

ghost use Rattle.std.specs.Prelude.{◌≡◌};
ghost use Rattle.njh_hub.specs.WholeHub.{part};
ghost use Rattle.njh_answer.specs.Owners.{file_of, is_file_called, is_same_user, owner_by, owner_for};
ghost use Rattle.njh_answer.specs.Owners.{owner_of_command};
ghost use Rattle.njh_answer.specs.Owners.{owner_of_files};

use njh_command::Command;
use njh_customer::OrderText;
use njh_header::{FileName, User};
use njh_hub::Hub;
use njh_request::RequestRefusal;

/// In whose name a command is carried out: in that of the user who is given, or else of the owner of
/// the files that it names, if they have one owner.
pub(crate) fn owner_for(
    hub: &Hub,
    customer: u16,
    owner: Option<User>,
    text: &OrderText,
) -> Result<User, RequestRefusal>
    ensures { result ≡ owner_for owner text.now (part customer hub.now).customer.spool.whole }
{
    match Command::read(text.bytes()) {
        Ok(command) => owner_of_command(hub, customer, owner, command),
        Err(_) => Err(RequestRefusal::NotACommand),
    }
}

fn owner_of_command(
    hub: &Hub,
    customer: u16,
    owner: Option<User>,
    command: Command,
) -> Result<User, RequestRefusal>
    ensures { result ≡ owner_of_command owner command (part customer hub.now).customer.spool.whole }
{
    match owner {
        Some(owner) => Ok(owner),
        None => match file_of(command) {
            Some(name) => owner_of_files(hub, customer, name),
            None => Err(RequestRefusal::NoOwner),
        },
    }
}

/// The file that a command names.
fn file_of(command: Command) -> Option<FileName>
    ensures { result ≡ file_of command }
{
    match command {
        Command::List => None,
        Command::Hold(name) => Some(name),
        Command::Release(name) => Some(name),
        Command::Cancel(name) => Some(name),
        Command::Reroute(name, _) => Some(name),
    }
}

/// The owner of the files of a name, if they have one owner.
#[tactic(auto, using(crate::proofs::Telling::owner_more))]
fn owner_of_files(hub: &Hub, customer: u16, name: FileName) -> Result<User, RequestRefusal>
    ensures { result ≡ owner_of_files name (part customer hub.now).customer.spool.whole }
{
    let mut owner = Err(RequestRefusal::NoFile(name));
    for index in 0..hub.file_count(customer) {
        let file = hub.summary_at(customer, index);
        if is_file_called(name, file.name) {
            owner = owner_by(owner, file.owner);
        }
    }
    owner
}

/// The owner of files and of one more.
fn owner_by(owner: Result<User, RequestRefusal>, next: User) -> Result<User, RequestRefusal>
    ensures { result ≡ owner_by owner next }
{
    match owner {
        Err(RequestRefusal::NoFile(_)) => Ok(next),
        Ok(first) if is_same_user(first, next) => Ok(first),
        _ => Err(RequestRefusal::SeveralOwners),
    }
}

fn is_same_user(user: User, other: User) -> bool
    ensures { result ≡ is_same_user user other }
{
    user.node == other.node && user.user == other.user
}

fn is_file_called(name: FileName, other: FileName) -> bool
    ensures { result ≡ is_file_called name other }
{
    name.node == other.node && name.number == other.number
}
