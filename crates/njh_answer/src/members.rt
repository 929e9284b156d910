//! An object with a member more.

ghost use Rattle.std.specs.Prelude.{◌≡◌, IfOk};
ghost use Rattle.serde_json.specs.View.{view};
ghost use Rattle.njh_answer.specs.Members.{with_member};

use serde_json::Value;
use std::alloc::{AllocError, Global};

/// An object with a member more. Out of memory is the only refusal.
pub(crate) fn with_member(
    alloc: Global,
    name: &str,
    own: Value,
    value: Value,
) -> Result<Value, AllocError>
    ensures { IfOk result (λ told. view told ≡ with_member name.now (view own) (view value)) }
{
    match value {
        Value::Object(mut members) => {
            let key = String::from_str(alloc, name)?;
            members.insert(key, own)?;
            Ok(Value::Object(members))
        }
        other => Ok(other),
    }
}
