//! What is wrong, since when, and how grave it is.

ghost use Rattle.std.specs.Prelude.{◌≡◌, IfOk, map};
ghost use Rattle.serde_json.specs.Data.{array};
ghost use Rattle.serde_json.specs.View.{items_of, view};
ghost use Rattle.njh_answer.specs.Troubles.{moment_number, text_data, trouble_data};

use crate::served::moment_value;
use crate::views::Trouble;
use serde_json::{Value, json};
use std::alloc::{AllocError, Global};

/// Something that is wrong.
pub(crate) fn trouble_value(alloc: Global, trouble: &Trouble) -> Result<Value, AllocError>
    ensures { IfOk result (λ value. view value ≡ trouble_data trouble.now) }
{
    json!(in alloc; {
        "severity": trouble.severity.as_str(),
        "since": moment_value(trouble.since),
        "text": trouble.text.as_str()
    })
}

/// What is wrong, as a list.
pub(crate) fn troubles_value(alloc: Global, troubles: &[Trouble]) -> Result<Value, AllocError>
    ensures { IfOk result (λ value. view value ≡ array (items_of (map trouble_data troubles.now))) }
{
    Ok(Value::Array(trouble_values(alloc, troubles)?))
}

fn trouble_values(alloc: Global, troubles: &[Trouble]) -> Result<Vec<Value>, AllocError>
    ensures { IfOk result (λ values. map view values.items ≡ map trouble_data troubles.now) }
{
    let mut values = Vec::new(alloc);
    for trouble in troubles {
        values.push(trouble_value(alloc, trouble)?)?;
    }
    Ok(values)
}

/// What is wrong, a sentence each.
pub(crate) fn texts_value(alloc: Global, troubles: &[Trouble]) -> Result<Value, AllocError>
    ensures { IfOk result (λ value. view value ≡ array (items_of (map text_data troubles.now))) }
{
    Ok(Value::Array(text_values(alloc, troubles)?))
}

fn text_values(alloc: Global, troubles: &[Trouble]) -> Result<Vec<Value>, AllocError>
    ensures { IfOk result (λ values. map view values.items ≡ map text_data troubles.now) }
{
    let mut values = Vec::new(alloc);
    for trouble in troubles {
        let text = String::from_str(alloc, trouble.text.as_str())?;
        values.push(Value::String(text))?;
    }
    Ok(values)
}

/// Moments, as a list.
pub(crate) fn moments_value(alloc: Global, moments: &[u64]) -> Result<Value, AllocError>
    ensures { IfOk result (λ value. view value ≡ array (items_of (map moment_number moments.now))) }
{
    Ok(Value::Array(moment_values(alloc, moments)?))
}

fn moment_values(alloc: Global, moments: &[u64]) -> Result<Vec<Value>, AllocError>
    ensures { IfOk result (λ values. map view values.items ≡ map moment_number moments.now) }
{
    let mut values = Vec::new(alloc);
    for moment in moments {
        values.push(Value::from(*moment))?;
    }
    Ok(values)
}
