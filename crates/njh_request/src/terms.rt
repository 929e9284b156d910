//! On which terms something is ordered.

ghost use Rattle.std.specs.Prelude.{◌≡◌};
ghost use Rattle.json.specs.Value.{value_view};
ghost use Rattle.njh_request.specs.Terms.{by_in, giver_of, giver_where, moment_of, name_in, name_of_order};
ghost use Rattle.njh_request.specs.Terms.{terms_by, terms_in, until_in};

use crate::member::Member;
use crate::numbers::number_in;
use crate::order_name::OrderName;
use crate::quote::{QUOTE, Quote};
use crate::refusal::RequestRefusal;
use json::Value;

/// On which terms something is ordered.
#[derive(Clone, Copy, Debug, PartialEq, Eq)]
pub struct Terms {
    /// The name under which it is remembered, beside its number.
    pub name: Option<OrderName>,
    /// The last second in which it may be carried out, since the beginning of 1970.
    pub until: Option<u64>,
    /// Who orders it, as the request says it.
    pub by: Option<Quote>,
}

/// The terms that an object names.
pub(crate) fn terms_in(value: &Value<'_>) -> Result<Terms, RequestRefusal>
    ensures { result ≡ terms_in (value_view value.now) }
{
    terms_by(name_in(value), until_in(value), by_in(value))
}

fn terms_by(
    name: Result<Option<OrderName>, RequestRefusal>,
    until: Result<Option<u64>, RequestRefusal>,
    by: Result<Option<Quote>, RequestRefusal>,
) -> Result<Terms, RequestRefusal>
    ensures { result ≡ terms_by name until by }
{
    match (name, until, by) {
        (Err(why), _, _) => Err(why),
        (Ok(_), Err(why), _) => Err(why),
        (Ok(_), Ok(_), Err(why)) => Err(why),
        (Ok(name), Ok(until), Ok(by)) => Ok(Terms { name, until, by }),
    }
}

/// The name of an order, if one is given.
fn name_in(value: &Value<'_>) -> Result<Option<OrderName>, RequestRefusal>
    ensures { result ≡ name_in (value_view value.now) }
{
    let Some(name) = value.get(Member::Name.name()) else {
        return Ok(None);
    };
    match name_of_order(name) {
        Some(name) => Ok(Some(name)),
        None => Err(RequestRefusal::BadMember(Member::Name)),
    }
}

fn name_of_order(value: &Value<'_>) -> Option<OrderName>
    ensures { result ≡ name_of_order (value_view value.now) }
{
    OrderName::of(value.as_str()?)
}

/// The last second in which something may be carried out, if one is given.
fn until_in(value: &Value<'_>) -> Result<Option<u64>, RequestRefusal>
    ensures { result ≡ until_in (value_view value.now) }
{
    let Some(until) = value.get(Member::Until.name()) else {
        return Ok(None);
    };
    match moment_of(until) {
        Some(until) => Ok(Some(until)),
        None => Err(RequestRefusal::BadMember(Member::Until)),
    }
}

fn moment_of(value: &Value<'_>) -> Option<u64>
    ensures { result ≡ moment_of (value_view value.now) }
{
    number_in(value.as_number()?.as_bytes())
}

/// Who orders something, if that is said.
fn by_in(value: &Value<'_>) -> Result<Option<Quote>, RequestRefusal>
    ensures { result ≡ by_in (value_view value.now) }
{
    let Some(by) = value.get(Member::By.name()) else {
        return Ok(None);
    };
    match giver_of(by) {
        Some(by) => Ok(Some(by)),
        None => Err(RequestRefusal::BadMember(Member::By)),
    }
}

fn giver_of(value: &Value<'_>) -> Option<Quote>
    ensures { result ≡ giver_of (value_view value.now) }
{
    giver_where(value.as_str()?)
}

fn giver_where(text: &str) -> Option<Quote>
    ensures { result ≡ giver_where text.now }
{
    if text.is_empty() || text.len() > QUOTE {
        return None;
    }
    Some(Quote::of(text))
}
