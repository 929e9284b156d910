//! Commands.

use crate::words::{next_word, read_name, read_node, says};
use njh_ebcdic::Name;
use njh_header::FileName;
use thiserror::Error;

/// What a user may say to the hub. A command is for the user's own files alone; names of files
/// aren't unique, and it is for each file of the name.
#[derive(Clone, Copy, Debug, PartialEq, Eq)]
pub enum Command {
    /// Tell of each file.
    List,
    /// Keep the files of this name back.
    Hold(FileName),
    /// Let the files of this name go.
    Release(FileName),
    /// Remove the files of this name, those too that are being sent.
    Cancel(FileName),
    /// Send the files of this name to the user there at another node.
    Reroute(FileName, Name),
}

/// The message is no command: its first word is none of the hub's, it has a word too many or too
/// few, or a word isn't a file's name or a node where one has to stand.
#[derive(Clone, Copy, Debug, PartialEq, Eq, Error)]
#[error("NJH011 BAD COMMAND")]
pub struct BadCommand;

impl Command {
    ghost use Rattle.std.specs.Prelude.{◌≡◌};
    ghost use Rattle.std.specs.Result.{result_ok};
    ghost use Rattle.njh_command.specs.Words.{command_of};

    /// The command that a message is: LIST, HOLD name, RELEASE name, CANCEL name or REROUTE name
    /// node, in capitals or not, with blanks between the words and round them. A name is a node, a
    /// full stop and 1 to 5 digits of value at most 65,535.
    pub fn read(message: &[u8]) -> Result<Command, BadCommand>
        ensures { result_ok result ≡ command_of message.now }
    {
        match read_words(message) {
            Some(command) => Ok(command),
            None => Err(BadCommand),
        }
    }
}

ghost use Rattle.std.specs.Prelude.{◌≡◌, ◌∷◌, [], map};
ghost use Rattle.njh_ebcdic.specs.Names.{upper};
ghost use Rattle.njh_command.specs.Words.{command_of, command_in, file_command, reroute_command, words};

/// The command of all words of a message.
fn read_words(message: &[u8]) -> Option<Command>
    ensures { result ≡ command_of message.now }
{
    let (verb, rest) = next_word(message)?;
    read_operands(verb, rest)
}

/// The command of a verb and the words behind it.
fn read_operands(verb: &[u8], rest: &[u8]) -> Option<Command>
    ensures { result ≡ command_in (map upper verb.now ∷ words rest.now) }
{
    match next_word(rest) {
        Some((name, rest)) => read_behind_name(verb, name, rest),
        None => list_command(verb),
    }
}

/// The command of a verb, a word and the words behind them.
fn read_behind_name(verb: &[u8], name: &[u8], rest: &[u8]) -> Option<Command>
    ensures { result ≡ command_in (map upper verb.now ∷ map upper name.now ∷ words rest.now) }
{
    match next_word(rest) {
        Some((node, rest)) => read_behind_node(verb, name, node, rest),
        None => file_command(verb, read_name(name)?),
    }
}

/// The command of a verb, two words and the words behind them.
fn read_behind_node(verb: &[u8], name: &[u8], node: &[u8], rest: &[u8]) -> Option<Command>
    ensures { result ≡ command_in (map upper verb.now ∷ map upper name.now ∷ map upper node.now ∷ words rest.now) }
{
    match next_word(rest) {
        Some(_) => None,
        None => reroute_command(verb, read_name(name)?, read_node(node)?),
    }
}

fn list_command(verb: &[u8]) -> Option<Command>
    ensures { result ≡ command_in (map upper verb.now ∷ []) }
{
    if says(verb, "LIST") {
        Some(Command::List)
    } else {
        None
    }
}

/// The command of a verb and a file's name.
fn file_command(verb: &[u8], name: FileName) -> Option<Command>
    ensures { result ≡ file_command (map upper verb.now) name }
{
    if says(verb, "HOLD") {
        Some(Command::Hold(name))
    } else if says(verb, "RELEASE") {
        Some(Command::Release(name))
    } else if says(verb, "CANCEL") {
        Some(Command::Cancel(name))
    } else {
        None
    }
}

/// The command of a verb, a file's name and a node.
fn reroute_command(verb: &[u8], name: FileName, node: Name) -> Option<Command>
    ensures { result ≡ reroute_command (map upper verb.now) name node }
{
    if says(verb, "REROUTE") {
        Some(Command::Reroute(name, node))
    } else {
        None
    }
}
