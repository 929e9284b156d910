//! How a command ends, by an answer.

ghost use Rattle.std.specs.Prelude.{◌≡◌, IfErr, IfOk, map, take};
ghost use Rattle.std.specs.List.{list_any};
ghost use Rattle.serde_json.specs.View.{view};
ghost use Rattle.njh_ctl.specs.Faults.{IsPlain};
ghost use Rattle.njh_ctl.specs.Orders.{EndsBy, IsWrongBy, is_refusal_number, is_turned_down};

use crate::answers::list_in;
use crate::ending::Ending;
use crate::fault::CtlFault;
use serde_json::Value;

/// How an order ends, by the replies of its outcome.
pub(crate) fn ending_of(value: &Value) -> Result<Ending, CtlFault>
    ensures done { IfOk result (EndsBy (view value.now)) }
    ensures fault { IfErr result IsPlain }
{
    let replies = list_in(value, "replies")?;
    if has_turned_down(replies) {
        Ok(Ending::TurnedDown)
    } else {
        Ok(Ending::Done)
    }
}

/// Whether something is wrong with the hub.
pub(crate) fn wrong_by(value: &Value) -> Result<Ending, CtlFault>
    ensures done { IfOk result (IsWrongBy (view value.now)) }
    ensures fault { IfErr result IsPlain }
{
    let faults = list_in(value, "faults")?;
    if faults.is_empty() {
        Ok(Ending::Done)
    } else {
        Ok(Ending::Wrong)
    }
}

fn has_turned_down(replies: &[Value]) -> bool
    ensures { result ≡ list_any is_turned_down (map view replies.now) }
{
    any_turned_down(replies)
}

fn any_turned_down(replies: &[Value]) -> bool
    ensures { result ≡ list_any (λ reply. is_turned_down (view reply)) replies.now }
{
    replies.iter().any(|reply| is_turned_down(reply))
}

/// Whether a reply says that nothing was done, or not all.
fn is_turned_down(reply: &Value) -> bool
    ensures { result ≡ is_turned_down (view reply.now) }
{
    match reply.as_str() {
        Some(reply) => begins_with_refusal(reply),
        None => false,
    }
}

fn begins_with_refusal(reply: &str) -> bool
    ensures { result ≡ is_refusal_number (take 6 reply.now) }
{
    reply.starts_with("NJH010")
        || reply.starts_with("NJH012")
        || reply.starts_with("NJH020")
        || reply.starts_with("NJH022")
        || reply.starts_with("table ")
}
