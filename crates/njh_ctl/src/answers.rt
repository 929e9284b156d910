//! What an answer holds.

ghost use Rattle.std.specs.Prelude.{◌≡◌, Some, None, IfErr, IfOk};
ghost use Rattle.serde_json.specs.Find.{get};
ghost use Rattle.serde_json.specs.Read.{read};
ghost use Rattle.serde_json.specs.View.{items_view, view};
ghost use Rattle.njh_ctl.specs.Answers.{IsNoValue, count_in, json_in, list_in, next_by, next_in, string_in};

use crate::fault::CtlFault;
use serde_json::Value;
use std::alloc::Global;
use std::str;

/// The JSON that a body is.
pub(crate) fn value_in(alloc: Global, body: &[u8]) -> Result<Value, CtlFault>
    ensures understood { IfOk result (λ value. json_in body.now ≡ Some (view value)) }
    ensures refused { IfErr result (IsNoValue (json_in body.now)) }
{
    match str::from_utf8(body) {
        Ok(text) => value_of_text(alloc, text),
        Err(_) => Err(CtlFault::NotUnderstood),
    }
}

/// The JSON that a text is.
fn value_of_text(alloc: Global, text: &str) -> Result<Value, CtlFault>
    ensures understood { IfOk result (λ value. read text.now ≡ Some (view value)) }
    ensures refused { IfErr result (IsNoValue (read text.now)) }
{
    match Value::from_str(alloc, text) {
        Ok(value) => Ok(value),
        Err(error) => {
            if error.is_memory() {
                Err(CtlFault::Memory)
            } else {
                Err(CtlFault::NotUnderstood)
            }
        }
    }
}

/// The text that a member is.
pub(crate) fn text_in<'a>(value: &'a Value, key: &str) -> Result<&'a str, CtlFault>
    ensures understood { IfOk result (λ text. string_in key.now (view value.now) ≡ Some text.now) }
    ensures refused { IfErr result (λ fault. (fault ≡ CtlFault.NotUnderstood)
        × (string_in key.now (view value.now) ≡ None)) }
{
    match value.get(key).and_then(Value::as_str) {
        Some(text) => Ok(text),
        None => Err(CtlFault::NotUnderstood),
    }
}

/// The number that a member is.
pub(crate) fn count_in(value: &Value, key: &str) -> Result<u64, CtlFault>
    ensures understood { IfOk result (λ count. count_in key.now (view value.now) ≡ Some count) }
    ensures refused { IfErr result (λ fault. (fault ≡ CtlFault.NotUnderstood)
        × (count_in key.now (view value.now) ≡ None)) }
{
    match value.get(key).and_then(Value::as_u64) {
        Some(count) => Ok(count),
        None => Err(CtlFault::NotUnderstood),
    }
}

/// The place to go on from, if there is more; null if there isn't.
pub(crate) fn next_in(value: &Value) -> Result<Option<u64>, CtlFault>
    ensures understood { IfOk result (λ next. next_in (view value.now) ≡ Some next) }
    ensures refused { IfErr result (λ fault. (fault ≡ CtlFault.NotUnderstood) × (next_in (view value.now) ≡ None)) }
{
    match value.get("next") {
        Some(next) => next_by(next),
        None => Err(CtlFault::NotUnderstood),
    }
}

fn next_by(next: &Value) -> Result<Option<u64>, CtlFault>
    ensures understood { IfOk result (λ place. next_by (view next.now) ≡ Some place) }
    ensures refused { IfErr result (λ fault. (fault ≡ CtlFault.NotUnderstood) × (next_by (view next.now) ≡ None)) }
{
    if next.is_null() {
        return Ok(None);
    }
    match next.as_u64() {
        Some(place) => Ok(Some(place)),
        None => Err(CtlFault::NotUnderstood),
    }
}

/// The values of a list.
pub(crate) fn list_in<'a>(value: &'a Value, key: &str) -> Result<&'a [Value], CtlFault>
    ensures understood { IfOk result (λ values. list_in key.now (view value.now) ≡ Some (items_view values.now)) }
    ensures refused { IfErr result (λ fault. (fault ≡ CtlFault.NotUnderstood)
        × (list_in key.now (view value.now) ≡ None)) }
{
    match value.get(key).and_then(Value::as_array) {
        Some(values) => Ok(values.as_slice()),
        None => Err(CtlFault::NotUnderstood),
    }
}

/// A member, which has to be there.
pub(crate) fn member<'a>(value: &'a Value, key: &str) -> Result<&'a Value, CtlFault>
    ensures found { IfOk result (λ found. get key.now (view value.now) ≡ Some (view found.now)) }
    ensures fault { IfErr result (λ fault. (fault ≡ CtlFault.NotUnderstood) × (get key.now (view value.now) ≡ None)) }
{
    match value.get(key) {
        Some(member) => Ok(member),
        None => Err(CtlFault::NotUnderstood),
    }
}
