//! The names of customers, of an answer.

ghost use Rattle.std.specs.Prelude.{◌≡◌, IfErr, OnOk, bytes_eq, map, string_bytes};
ghost use Rattle.std.specs.List.{list_any};
ghost use Rattle.serde_json.specs.View.{view};
ghost use Rattle.njh_ctl.specs.Asked.{AddsEach, AddsOne, IsName};
ghost use Rattle.njh_ctl.specs.Faults.{IsPlain};

use crate::answers::text_in;
use crate::fault::CtlFault;
use serde_json::Value;
use std::alloc::Global;

/// Adds the names of customers.
pub(crate) fn add_names(
    alloc: Global,
    customers: &[Value],
    names: &mut Vec<String>,
) -> Result<(), CtlFault>
    ensures done { OnOk result (AddsEach IsName (map view customers.now) (map string_bytes names.old.items)
        (map string_bytes names.new.items)) }
    ensures fault { IfErr result IsPlain }
{
    for customer in customers {
        add_name(alloc, customer, names)?;
    }
    Ok(())
}

/// Adds the name of a customer.
fn add_name(alloc: Global, customer: &Value, names: &mut Vec<String>) -> Result<(), CtlFault>
    ensures done { OnOk result (AddsOne IsName (view customer.now) (map string_bytes names.old.items)
        (map string_bytes names.new.items)) }
    ensures fault { IfErr result IsPlain }
{
    let name = text_in(customer, "name")?;
    names.push(String::from_str(alloc, name)?)?;
    Ok(())
}

/// Whether one of the names is this.
pub(crate) fn has_name(names: &[String], name: &str) -> bool
    ensures { result ≡ list_any (λ n. bytes_eq n name.now) (map string_bytes names.now) }
{
    is_among(names, name)
}

fn is_among(names: &[String], name: &str) -> bool
    ensures { result ≡ list_any (λ n. bytes_eq (string_bytes n) name.now) names.now }
{
    names.iter().any(|one| one.as_str() == name)
}
