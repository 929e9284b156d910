//! What the hub says, a function a text, in the order of their numbers.

ghost use Rattle.std.specs.Prelude.{◌≡◌};
ghost use Rattle.njh_texts.specs.Texts as texts;

use crate::files::FileFacts;
use crate::pieces::{MessageText, push_ascii, push_digits, push_file_name, push_trimmed};
use njh_ebcdic::Name;
use njh_header::FileName;
use njh_spool::FileSummary;

/// NJH001: a file by its name, destination, kind, number of records and state, in the place of what
/// was there.
pub fn put_file_line(text: &mut MessageText, file: &FileSummary)
    ensures { text.new.items
        ≡ texts.listing_line file.now.headers.name file.now.headers.destination file.now.kind file.now.records
        file.now.state }
{
    *text = MessageText::new();
    push_ascii(text, "NJH001 ");
    let facts = FileFacts {
        name: file.headers.name,
        destination: file.headers.destination,
        kind: file.kind,
        records: file.records,
        state: file.state,
    };
    facts.push_onto(text);
}

/// NJH002: so many files.
pub fn files_line(count: u32) -> MessageText
    ensures { result.items ≡ texts.files_line count }
{
    let mut text = MessageText::new();
    push_ascii(&mut text, "NJH002 ");
    push_digits(&mut text, count);
    push_ascii(&mut text, " FILES");
    text
}

/// NJH003: so many files of a name are held.
pub fn held(name: FileName, count: u32) -> MessageText
    ensures { result.items ≡ texts.held_text name count }
{
    let mut text = MessageText::new();
    push_ascii(&mut text, "NJH003 ");
    push_file_name(&mut text, name);
    push_ascii(&mut text, " HELD ");
    push_digits(&mut text, count);
    text
}

/// NJH004: so many files of a name are released.
pub fn released(name: FileName, count: u32) -> MessageText
    ensures { result.items ≡ texts.released_text name count }
{
    let mut text = MessageText::new();
    push_ascii(&mut text, "NJH004 ");
    push_file_name(&mut text, name);
    push_ascii(&mut text, " RELEASED ");
    push_digits(&mut text, count);
    text
}

/// NJH005: so many files of a name are cancelled.
pub fn cancelled(name: FileName, count: u32) -> MessageText
    ensures { result.items ≡ texts.cancelled_text name count }
{
    let mut text = MessageText::new();
    push_ascii(&mut text, "NJH005 ");
    push_file_name(&mut text, name);
    push_ascii(&mut text, " CANCELLED ");
    push_digits(&mut text, count);
    text
}

/// NJH006: so many files of a name go to another node.
pub fn rerouted_to(name: FileName, node: Name, count: u32) -> MessageText
    ensures { result.items ≡ texts.rerouted_to name node count }
{
    let mut text = MessageText::new();
    push_ascii(&mut text, "NJH006 ");
    push_file_name(&mut text, name);
    push_ascii(&mut text, " REROUTED TO ");
    push_trimmed(&mut text, &node.bytes());
    push_ascii(&mut text, " ");
    push_digits(&mut text, count);
    text
}

/// NJH010: the sender has no file of a name.
pub fn not_found(name: FileName) -> MessageText
    ensures { result.items ≡ texts.not_found name }
{
    let mut text = MessageText::new();
    push_ascii(&mut text, "NJH010 ");
    push_file_name(&mut text, name);
    push_ascii(&mut text, " NOT FOUND");
    text
}

/// NJH011: what was said is no command.
pub fn bad_command() -> MessageText
    ensures { result.items ≡ texts.bad_command }
{
    let mut text = MessageText::new();
    push_ascii(&mut text, "NJH011 BAD COMMAND");
    text
}

/// NJH012: a file of a name was left as it is, for it is being sent.
pub fn being_sent(name: FileName) -> MessageText
    ensures { result.items ≡ texts.being_sent_text name }
{
    let mut text = MessageText::new();
    push_ascii(&mut text, "NJH012 ");
    push_file_name(&mut text, name);
    push_ascii(&mut text, " IS BEING SENT");
    text
}

/// NJH020: a node that no route leads to.
pub fn node_unknown(node: Name) -> MessageText
    ensures { result.items ≡ texts.node_unknown node }
{
    let mut text = MessageText::new();
    push_ascii(&mut text, "NJH020 NODE ");
    push_trimmed(&mut text, &node.bytes());
    push_ascii(&mut text, " UNKNOWN");
    text
}

/// NJH021: a file that the quota had no room for.
pub fn spool_full(name: FileName) -> MessageText
    ensures { result.items ≡ texts.spool_full name }
{
    let mut text = MessageText::new();
    push_ascii(&mut text, "NJH021 SPOOL FULL ");
    push_file_name(&mut text, name);
    text
}

/// NJH022: a file for the hub itself.
pub fn no_files_for(hub: Name) -> MessageText
    ensures { result.items ≡ texts.no_files_for hub }
{
    let mut text = MessageText::new();
    push_ascii(&mut text, "NJH022 NO FILES FOR ");
    push_trimmed(&mut text, &hub.bytes());
    text
}

/// NJH023: a file whose route is the line that it came on.
pub fn routed_back(name: FileName) -> MessageText
    ensures { result.items ≡ texts.routed_back name }
{
    let mut text = MessageText::new();
    push_ascii(&mut text, "NJH023 ");
    push_file_name(&mut text, name);
    push_ascii(&mut text, " ROUTED BACK");
    text
}
