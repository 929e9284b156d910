//! What is said of a file.

ghost use Rattle.std.specs.Prelude.{◌≡◌, ◌+◌, ◌≤◌, ◌++◌, length};
ghost use Rattle.njh_ebcdic.specs.Names.{without_end_blanks};
ghost use Rattle.njh_texts.specs.Texts as texts;

use crate::pieces::{MessageText, push_ascii, push_digits, push_file_name, push_trimmed};
use njh_ebcdic::{BLANK, FIELD};
use njh_header::{Destination, FileName};
use njh_nmr::LONGEST_MESSAGE;
use njh_record::Kind;
use njh_spool::State;

/// What is said of a file.
#[derive(Clone, Copy)]
pub(crate) struct FileFacts {
    pub name: Option<FileName>,
    pub destination: Option<Destination>,
    pub kind: Kind,
    pub records: u32,
    pub state: State,
}

impl FileFacts {
    /// Appends what NJH001 says behind its number.
    #[tactic(auto, unfolding(crate::specs::Texts::file_text))]
    pub(crate) fn push_onto(self, text: &mut MessageText)
        requires { length text.old.items + 72 ≤ LONGEST_MESSAGE }
        ensures text { text.new.items
            ≡ text.old.items ++ texts.file_text self.name self.destination self.kind self.records self.state }
        ensures few { length text.new.items ≤ length text.old.items + 72 }
    {
        push_name(text, self.name);
        push_ascii(text, " TO ");
        push_destination(text, self.destination);
        push_ascii(text, " ");
        push_kind(text, self.kind);
        push_ascii(text, " ");
        push_digits(text, self.records);
        push_ascii(text, " RECORDS ");
        push_state(text, self.state);
    }
}

/// What NJH001 says of a file, behind its number: its name, destination, kind, number of records
/// and state. It leaves out a name or a destination that there isn't.
#[tactic(auto, unfolding(crate::specs::Texts::file_text))]
pub fn file_text(
    name: Option<FileName>,
    destination: Option<Destination>,
    kind: Kind,
    records: u32,
    state: State,
) -> MessageText
    ensures text { result.items ≡ texts.file_text name destination kind records state }
    ensures few { length result.items ≤ 72 }
{
    let mut text = MessageText::new();
    let file = FileFacts {
        name,
        destination,
        kind,
        records,
        state,
    };
    file.push_onto(&mut text);
    text
}

/// Appends a file's name.
fn push_name(text: &mut MessageText, name: Option<FileName>)
    requires { length text.old.items + 19 ≤ LONGEST_MESSAGE }
    ensures text { text.new.items ≡ text.old.items ++ texts.name_text name }
    ensures few { length text.new.items ≤ length text.old.items + 19 }
{
    if let Some(name) = name {
        push_file_name(text, name);
    }
}

/// Appends a destination: the node, and the user where it isn't blank.
fn push_destination(text: &mut MessageText, destination: Option<Destination>)
    requires { length text.old.items + 17 ≤ LONGEST_MESSAGE }
    ensures text { text.new.items ≡ text.old.items ++ texts.destination_text destination }
    ensures few { length text.new.items ≤ length text.old.items + 17 }
{
    if let Some(place) = destination {
        push_trimmed(text, &place.node);
        push_user(text, &place.user);
    }
}

/// Appends a blank and a user, where the user isn't blank.
fn push_user(text: &mut MessageText, user: &[u8; 8])
    requires { length text.old.items + 9 ≤ LONGEST_MESSAGE }
    ensures text { text.new.items ≡ text.old.items ++ texts.user_text (without_end_blanks user.now) }
    ensures few { length text.new.items ≤ length text.old.items + 9 }
{
    if *user != [BLANK; FIELD] {
        text.push(BLANK);
        push_trimmed(text, user);
    }
}

/// Appends what kind of file it is.
fn push_kind(text: &mut MessageText, kind: Kind)
    requires { length text.old.items + 3 ≤ LONGEST_MESSAGE }
    ensures text { text.new.items ≡ text.old.items ++ texts.kind_text kind }
    ensures few { length text.new.items ≤ length text.old.items + 3 }
{
    match kind {
        Kind::In => push_ascii(text, "IN"),
        Kind::Out => push_ascii(text, "OUT"),
    }
}

/// Appends a file's state.
fn push_state(text: &mut MessageText, state: State)
    requires { length text.old.items + 8 ≤ LONGEST_MESSAGE }
    ensures text { text.new.items ≡ text.old.items ++ texts.state_text state }
    ensures few { length text.new.items ≤ length text.old.items + 8 }
{
    match state {
        State::Ready => push_ascii(text, "READY"),
        State::Held => push_ascii(text, "HELD"),
        State::Refused => push_ascii(text, "REFUSED"),
        State::Sending => push_ascii(text, "SENDING"),
    }
}
