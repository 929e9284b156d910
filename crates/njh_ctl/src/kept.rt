//! The items of a part that are looked for.

ghost use Rattle.std.specs.Prelude.{◌≡◌, [], IfErr, IfOk, OnOk, map, string_bytes};
ghost use Rattle.serde_json.specs.View.{view};
ghost use Rattle.njh_ctl.specs.Faults.{IsPlain};
ghost use Rattle.njh_ctl.specs.Lists.{IsTextOf, Keeps, KeepsOne, list_view, with_items};

use crate::fault::CtlFault;
use crate::parted_list::PartedList;
use serde_json::{Value, put};
use std::alloc::Global;

/// The items that are looked for.
pub(crate) fn kept_of(
    alloc: Global,
    list: PartedList<'_>,
    items: &[Value],
) -> Result<Vec<Value>, CtlFault>
    ensures kept { IfOk result (λ kept. Keeps (list_view list.entry) (map view items.now) (map view kept.items)) }
    ensures fault { IfErr result IsPlain }
{
    let mut kept = Vec::new(alloc);
    add_kept(list, items, &mut kept)?;
    Ok(kept)
}

fn add_kept(list: PartedList<'_>, items: &[Value], kept: &mut Vec<Value>) -> Result<(), CtlFault>
    requires { kept.old.items ≡ [] }
    ensures kept { OnOk result (Keeps (list_view list.entry) (map view items.now) (map view kept.new.items)) }
    ensures fault { IfErr result IsPlain }
{
    for item in items {
        keep(list, item, kept)?;
    }
    Ok(())
}

/// Keeps an item if it is looked for.
fn keep(list: PartedList<'_>, item: &Value, kept: &mut Vec<Value>) -> Result<(), CtlFault>
    ensures kept { OnOk result (KeepsOne (list_view list.entry) (view item.now) (map view kept.old.items)
        (map view kept.new.items)) }
    ensures fault { IfErr result IsPlain }
{
    if list.looks_for(item)? {
        kept.push(item.clone()?)?;
    }
    Ok(())
}

/// A part as text, with these items in the place of its own.
pub(crate) fn part_text(
    alloc: Global,
    part: Value,
    key: &str,
    kept: Vec<Value>,
) -> Result<String, CtlFault>
    ensures text { IfOk result (λ text. IsTextOf (with_items key.now (map view kept.items) (view part))
        (string_bytes text)) }
    ensures fault { IfErr result IsPlain }
{
    match part {
        Value::Object(mut members) => {
            put(&mut members, alloc, key, Value::Array(kept))?;
            Ok(Value::Object(members).to_string(alloc)?)
        }
        _ => Err(CtlFault::NotUnderstood),
    }
}
