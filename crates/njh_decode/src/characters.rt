//! Fields and names as characters.

ghost use Rattle.std.specs.Prelude.{◌≡◌, ◌++◌, OnOk};
ghost use Rattle.njh_decode.specs.Words.{field_words, label, user_words};

use crate::words::put_words;
use njh_ebcdic::{Name, put_characters, trim_blanks};
use std::alloc::AllocError;

/// Appends a field without the blanks after it.
#[tactic(auto, unfolding(crate::specs::Words::field_words))]
pub(crate) fn put_field(line: &mut Vec<u8>, field: &[u8]) -> Result<(), AllocError>
    ensures { OnOk result (line.new.items ≡ line.old.items ++ field_words field.now) }
{
    put_characters(line, trim_blanks(field))
}

/// Appends words, and a field without the blanks after it.
pub(crate) fn put_labelled(line: &mut Vec<u8>, words: &str, field: &[u8]) -> Result<(), AllocError>
    ensures { OnOk result (line.new.items ≡ line.old.items ++ label words.now ++ field_words field.now) }
{
    put_words(line, words)?;
    put_field(line, field)
}

/// Appends words and a name.
pub(crate) fn put_named(line: &mut Vec<u8>, words: &str, name: Name) -> Result<(), AllocError>
    ensures { OnOk result (line.new.items ≡ line.old.items ++ label words.now ++ field_words name) }
{
    put_labelled(line, words, &name.bytes())
}

/// Appends words, and a node and a user there.
pub(crate) fn put_user(
    line: &mut Vec<u8>,
    words: &str,
    node: &[u8],
    user: &[u8],
) -> Result<(), AllocError>
    ensures { OnOk result (line.new.items ≡ line.old.items ++ label words.now ++ user_words node.now user.now) }
{
    put_words(line, words)?;
    put_node_and_user(line, node, user)
}

/// Appends a node and a user there, each by its field.
#[tactic(auto, unfolding(crate::specs::Words::user_words))]
fn put_node_and_user(line: &mut Vec<u8>, node: &[u8], user: &[u8]) -> Result<(), AllocError>
    ensures { OnOk result (line.new.items ≡ line.old.items ++ user_words node.now user.now) }
{
    put_field(line, node)?;
    put_words(line, " ")?;
    put_field(line, user)
}

/// Appends words, and a user at a node.
pub(crate) fn put_named_user(
    line: &mut Vec<u8>,
    words: &str,
    node: Name,
    user: &[u8],
) -> Result<(), AllocError>
    ensures { OnOk result (line.new.items ≡ line.old.items ++ label words.now ++ user_words node user.now) }
{
    put_user(line, words, &node.bytes(), user)
}
