//! Names and users' fields in an answer.

ghost use Rattle.std.specs.Prelude.{◌≡◌, string_bytes, IfOk};
ghost use Rattle.serde_json.specs.View.{view};
ghost use Rattle.njh_answer.specs.Fields.{field_text, file_name_text, hex_text, name_text, user_data};

use njh_ebcdic::{FIELD, Name, NameFault, trim_blanks};
use njh_header::FileName;
use serde_json::{Value, json};
use std::alloc::{AllocError, Global};

/// The characters of a name.
pub(crate) fn name_text(alloc: Global, name: Name) -> Result<String, AllocError>
    ensures { IfOk result (λ text. string_bytes text ≡ name_text name) }
{
    format!(in alloc; "{name}")
}

/// A file's name: node, full stop, number.
#[tactic(auto, unfolding(crate::specs::Fields::file_name_text))]
pub(crate) fn file_name_text(alloc: Global, name: FileName) -> Result<String, AllocError>
    ensures { IfOk result (λ text. string_bytes text ≡ file_name_text name) }
{
    let node = name.node;
    let number = name.number;
    format!(in alloc; "{node}.{number}")
}

/// The name that a field has, or its bytes in hex if it has none; nothing if it is blank.
pub(crate) fn field_text(alloc: Global, field: &[u8; FIELD]) -> Result<String, AllocError>
    ensures { IfOk result (λ text. string_bytes text ≡ field_text field.now) }
{
    match Name::of_field(field) {
        Ok(name) => name_text(alloc, name),
        Err(NameFault::Empty) => String::from_str(alloc, ""),
        Err(_) => hex_text(alloc, trim_blanks(field)),
    }
}

/// Bytes in hex, between `X'` and `'`.
#[tactic(auto, unfolding(crate::specs::Fields::hex_text))]
fn hex_text(alloc: Global, bytes: &[u8]) -> Result<String, AllocError>
    ensures { IfOk result (λ text. string_bytes text ≡ hex_text bytes.now) }
{
    let digits = hex::encode(alloc, bytes)?;
    let digits = digits.as_str();
    format!(in alloc; "X'{digits}'")
}

/// A user at a node, or a file's destination.
pub(crate) fn user_value(
    alloc: Global,
    node: &[u8; FIELD],
    user: &[u8; FIELD],
) -> Result<Value, AllocError>
    ensures { IfOk result (λ value. view value ≡ user_data node.now user.now) }
{
    let node = field_text(alloc, node)?;
    let user = field_text(alloc, user)?;
    json!(in alloc; {"node": node, "user": user})
}
