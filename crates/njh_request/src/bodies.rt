//! What a request's body holds.

ghost use Rattle.std.specs.Prelude.{◌≡◌, [], IfOk};
ghost use Rattle.std.specs.Result.{result_map_both};
ghost use Rattle.json.specs.Strict.{keys};
ghost use Rattle.json.specs.Value.{members_view, value_view};
ghost use Rattle.njh_request.specs.Bodies.{owner_in, path_in, state_in, text_in, waits_in, whom_in};
ghost use Rattle.njh_request.specs.Members.{key_fault, odd_from, odd_in, stands_in};

use crate::file_path::FilePath;
use crate::member::{Form, Member};
use crate::quote::Quote;
use crate::refusal::RequestRefusal;
use crate::text::text_of;
use crate::users::user_of;
use json::Value;
use njh_customer::OrderText;
use njh_header::User;
use std::alloc::{AllocError, Global};

/// What is wrong with what is to be an object of this form: it is none, which is told so; or its
/// first member that isn't one of the form's, or that stood before.
pub(crate) fn odd_in(
    value: &Value<'_>,
    form: Form,
    otherwise: RequestRefusal,
) -> Option<RequestRefusal>
    ensures { result ≡ odd_in otherwise form (value_view value.now) }
{
    match value {
        Value::Object(members) => odd_key(members, form),
        _ => Some(otherwise),
    }
}

/// What is wrong with the first key that has a fault.
fn odd_key(members: &[(&str, Value<'_>)], form: Form) -> Option<RequestRefusal>
    ensures { result ≡ odd_from form [] (keys (members_view members.now)) }
{
    for (place, member) in members.iter().enumerate() {
        let (before, _) = members.split_at(place);
        match key_fault(before, form, member.0) {
            Some(why) => return Some(why),
            None => {}
        }
    }
    None
}

/// What is wrong with a key behind other members.
fn key_fault(before: &[(&str, Value<'_>)], form: Form, key: &str) -> Option<RequestRefusal>
    ensures { result ≡ key_fault form (keys (members_view before.now)) key.now }
{
    match Member::of(key) {
        Some(member) if form.takes(member) => {
            if stands_in(before, key) {
                Some(RequestRefusal::RepeatedMember(member))
            } else {
                None
            }
        }
        _ => Some(RequestRefusal::UnknownMember(Quote::of(key))),
    }
}

/// Whether a key is one of these members'.
fn stands_in(before: &[(&str, Value<'_>)], key: &str) -> bool
    ensures { result ≡ stands_in key.now (keys (members_view before.now)) }
{
    for member in before {
        if member.0 == key {
            return true;
        }
    }
    false
}

/// The text that a member has to be, in EBCDIC. Out of memory is the only failure.
pub(crate) fn text_in(
    alloc: Global,
    value: &Value<'_>,
    member: Member,
) -> Result<Result<OrderText, RequestRefusal>, AllocError>
    ensures { IfOk result (λ text. text ≡ text_in member (value_view value.now)) }
{
    let Some(found) = value.get(member.name()) else {
        return Ok(Err(RequestRefusal::MissingMember(member)));
    };
    let Some(text) = found.as_str() else {
        return Ok(Err(RequestRefusal::BadMember(member)));
    };
    match text_of(alloc, text)? {
        Some(text) => Ok(Ok(text)),
        None => Ok(Err(RequestRefusal::BadMember(member))),
    }
}

/// The file that is compared. Out of memory is the only failure.
pub(crate) fn path_in(
    alloc: Global,
    value: &Value<'_>,
) -> Result<Result<FilePath, RequestRefusal>, AllocError>
    ensures { IfOk result (λ path. path ≡ path_in (value_view value.now)) }
{
    let Some(found) = value.get(Member::File.name()) else {
        return Ok(Err(RequestRefusal::MissingMember(Member::File)));
    };
    let Some(text) = found.as_str() else {
        return Ok(Err(RequestRefusal::BadMember(Member::File)));
    };
    match FilePath::of(alloc, text)? {
        Some(path) => Ok(Ok(path)),
        None => Ok(Err(RequestRefusal::BadMember(Member::File))),
    }
}

/// The user in whose name something is ordered, if one is named. Out of memory is the only failure.
pub(crate) fn owner_in(
    alloc: Global,
    value: &Value<'_>,
) -> Result<Result<Option<User>, RequestRefusal>, AllocError>
    ensures { IfOk result (λ owner. owner ≡ owner_in (value_view value.now)) }
{
    match value.get(Member::Owner.name()) {
        None => Ok(Ok(None)),
        Some(owner) => match user_of(alloc, owner, Member::Owner)? {
            Ok(user) => Ok(Ok(Some(user))),
            Err(why) => Ok(Err(why)),
        },
    }
}

/// The user who is told something. Out of memory is the only failure.
pub(crate) fn whom_in(
    alloc: Global,
    value: &Value<'_>,
) -> Result<Result<User, RequestRefusal>, AllocError>
    ensures { IfOk result (λ user. user ≡ whom_in (value_view value.now)) }
{
    match value.get(Member::To.name()) {
        Some(user) => user_of(alloc, user, Member::To),
        None => Ok(Err(RequestRefusal::MissingMember(Member::To))),
    }
}

/// Whether something is to wait until nothing is on the streams.
pub(crate) fn waits_in(value: &Value<'_>) -> Result<bool, RequestRefusal>
    ensures { result ≡ waits_in (value_view value.now) }
{
    match value.get(Member::WhenIdle.name()) {
        None => Ok(false),
        Some(flag) => match flag.as_bool() {
            Some(waits) => Ok(waits),
            None => Err(RequestRefusal::BadMember(Member::WhenIdle)),
        },
    }
}

/// How a line is to be, as it stands.
pub(crate) fn state_in<'a>(value: &Value<'a>) -> Result<&'a str, RequestRefusal>
    ensures { result_map_both (λ text. text.now) (λ why. why) result ≡ state_in (value_view value.now) }
{
    match value.get(Member::State.name()) {
        None => Err(RequestRefusal::MissingMember(Member::State)),
        Some(state) => match state.as_str() {
            Some(text) => Ok(text),
            None => Err(RequestRefusal::BadMember(Member::State)),
        },
    }
}
