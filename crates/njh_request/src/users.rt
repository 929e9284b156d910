//! Users in a request.

ghost use Rattle.std.specs.Prelude.{◌≡◌, IfOk};
ghost use Rattle.std.specs.Option.{option_copied};
ghost use Rattle.json.specs.Value.{value_view};
ghost use Rattle.njh_request.specs.Bodies.{field_in, node_in, node_of, user_by, user_of};
ghost use Rattle.njh_request.specs.Fields.{digits_quoted, field_of_bytes, field_of_hex, field_of_text, is_quoted};

use crate::bodies::odd_in;
use crate::member::{Form, Member};
use crate::refusal::RequestRefusal;
use crate::text::{bytes_of, have_bytes};
use hex::FromHexError;
use json::Value;
use njh_ebcdic::{BLANK, FIELD, Name, pad};
use njh_header::User;
use std::alloc::{AllocError, Global};

/// The user that a member is: a node, and the user there if there is one. Out of memory is the only
/// failure.
pub(crate) fn user_of(
    alloc: Global,
    value: &Value<'_>,
    member: Member,
) -> Result<Result<User, RequestRefusal>, AllocError>
    ensures { IfOk result (λ user. user ≡ user_of member (value_view value.now)) }
{
    match odd_in(value, Form::User, RequestRefusal::BadMember(member)) {
        Some(why) => Ok(Err(why)),
        None => plain_user(alloc, value),
    }
}

/// The user that an object names.
fn plain_user(alloc: Global, value: &Value<'_>) -> Result<Result<User, RequestRefusal>, AllocError>
    ensures { IfOk result (λ user. user ≡ user_by (node_in (value_view value.now)) (field_in (value_view value.now))) }
{
    match node_in(value) {
        Ok(node) => match field_in(alloc, value)? {
            Ok(user) => Ok(Ok(User { node, user })),
            Err(why) => Ok(Err(why)),
        },
        Err(why) => Ok(Err(why)),
    }
}

/// The node that an object names.
fn node_in(value: &Value<'_>) -> Result<Name, RequestRefusal>
    ensures { result ≡ node_in (value_view value.now) }
{
    let Some(node) = value.get(Member::Node.name()) else {
        return Err(RequestRefusal::MissingMember(Member::Node));
    };
    match node_of(node) {
        Some(node) => Ok(node),
        None => Err(RequestRefusal::BadMember(Member::Node)),
    }
}

fn node_of(value: &Value<'_>) -> Option<Name>
    ensures { result ≡ node_of (value_view value.now) }
{
    let text = value.as_str()?;
    Name::of_text(text).ok()
}

/// The field of the user that an object names; blanks if it names none.
fn field_in(
    alloc: Global,
    value: &Value<'_>,
) -> Result<Result<[u8; FIELD], RequestRefusal>, AllocError>
    ensures { IfOk result (λ field. field ≡ field_in (value_view value.now)) }
{
    let Some(user) = value.get(Member::User.name()) else {
        return Ok(Ok([BLANK; FIELD]));
    };
    let Some(text) = user.as_str() else {
        return Ok(Err(RequestRefusal::BadMember(Member::User)));
    };
    match field_of_text(alloc, text)? {
        Some(field) => Ok(Ok(field)),
        None => Ok(Err(RequestRefusal::BadMember(Member::User))),
    }
}

/// The field that a text is: its characters, or its bytes in hex.
fn field_of_text(alloc: Global, text: &str) -> Result<Option<[u8; FIELD]>, AllocError>
    ensures { IfOk result (λ field. field ≡ field_of_text text.now) }
{
    if !have_bytes(text, FIELD) {
        return field_of_hex(alloc, text);
    }
    let bytes = bytes_of(alloc, text)?;
    Ok(field_of_bytes(&bytes))
}

/// The field of at most 8 bytes.
fn field_of_bytes(bytes: &[u8]) -> Option<[u8; FIELD]>
    ensures { result ≡ field_of_bytes bytes.now }
{
    if bytes.len() > FIELD {
        None
    } else {
        Some(pad(bytes))
    }
}

/// The field that a text in hex is.
fn field_of_hex(alloc: Global, text: &str) -> Result<Option<[u8; FIELD]>, AllocError>
    ensures { IfOk result (λ field. field ≡ field_of_hex text.now) }
{
    let Some(digits) = digits_quoted(text.as_bytes()) else {
        return Ok(None);
    };
    match hex::decode(alloc, digits) {
        Ok(bytes) => Ok(field_of_bytes(&bytes)),
        Err(FromHexError::OutOfMemory) => Err(AllocError),
        Err(_) => Ok(None),
    }
}

/// What stands between `X'` and `'`.
fn digits_quoted(text: &[u8]) -> Option<&[u8]>
    ensures { option_copied result ≡ digits_quoted text.now }
{
    if !is_quoted(text) {
        return None;
    }
    let (front, _) = text.split_at(text.len() - 1);
    let (_, digits) = front.split_at(2);
    Some(digits)
}

fn is_quoted(text: &[u8]) -> bool
    ensures { result ≡ is_quoted text.now }
{
    if text.len() < 3 {
        return false;
    }
    let (front, _) = text.split_at(2);
    let (_, end) = text.split_at(text.len() - 1);
    front == b"X'".as_slice() && end == b"'".as_slice()
}
