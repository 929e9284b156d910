//! What an answer says, or why it refuses.

ghost use Rattle.std.specs.Prelude.{◌≡◌, ◌==◌, false, IfErr, IfOk};
ghost use Rattle.serde_json.specs.View.{view};
ghost use Rattle.njh_ctl.specs.Asked.{IsRefusalIn, IsUnderstood, refusal_view};
ghost use Rattle.njh_ctl.specs.Exchanges.{reply_view};
ghost use Rattle.njh_ctl.specs.Faults.{IsFaultOf, IsNoRefusal, UntoldOf, began_before, is_another};
ghost use Rattle.njh_ctl.specs.declared.ending.Given.TheVariants as given;

use crate::answers::{text_in, value_in};
use crate::ending::Given;
use crate::fault::CtlFault;
use crate::session::ReplyText;
use serde_json::Value;
use std::alloc::Global;

/// The first status of a refusal.
const REFUSED: u16 = 300;

/// The status of what isn't there.
const NOT_FOUND: u16 = 404;

/// The status of an outcome that can't be told.
const UNTOLD: u16 = 500;

/// What an answer says.
#[derive(Drop)]
pub(crate) enum Heard {
    Value(Value),
    /// It refuses.
    Refused(Refusal),
}

/// A refusal of a console.
#[derive(Drop)]
pub(crate) struct Refusal {
    pub(crate) status: u16,
    /// Since when its service runs, if it says so.
    pub(crate) since: Option<u64>,
    /// Why it refuses.
    pub(crate) sentence: String,
}

impl Refusal {
    /// Whether an outcome is refused since it can't be told.
    pub(crate) fn is_untold(&self) -> bool
        ensures { result ≡ (self.now.status == 500) }
    {
        self.status == UNTOLD
    }

    /// Whether it may be of another service than the one that ran at this moment, in seconds since
    /// 1970: what is asked for isn't there, and it isn't known that the service is older.
    pub(crate) fn is_another(&self, moment: u64) -> bool
        ensures { result ≡ is_another moment (refusal_view self.now) }
    {
        self.status == NOT_FOUND && !began_before(self.since, moment)
    }

    /// Why it refuses.
    pub(crate) fn into_sentence(self) -> String
        ensures { result ≡ self.sentence }
    {
        let Refusal {
            status: _,
            since: _,
            sentence,
        } = self;
        sentence
    }
}

fn began_before(since: Option<u64>, moment: u64) -> bool
    ensures { result ≡ began_before moment since }
{
    match since {
        Some(since) => since < moment,
        None => false,
    }
}

/// What an answer says.
pub(crate) fn understood(alloc: Global, reply: &ReplyText) -> Result<Heard, CtlFault>
    ensures done { IfOk result (IsUnderstood (reply_view reply.now)) }
    ensures fault { IfErr result (IsFaultOf (reply_view reply.now)) }
{
    let value = value_in(alloc, reply.body.as_slice())?;
    if reply.status < REFUSED {
        return Ok(Heard::Value(value));
    }
    let refusal = refusal_in(alloc, reply.status, &value)?;
    Ok(Heard::Refused(refusal))
}

/// What a refused outcome says of an order: it isn't carried out, unless it only can't be told.
pub(crate) fn undone_by(refusal: Refusal) -> Result<Given, CtlFault>
    ensures done { IfOk result (λ g. (g ≡ given.Refused refusal) × ((refusal.status == 500) ≡ false)) }
    ensures fault { IfErr result (UntoldOf refusal) }
{
    if refusal.is_untold() {
        Err(CtlFault::Untold(refusal.into_sentence()))
    } else {
        Ok(Given::Refused(refusal))
    }
}

/// Why something is refused.
fn refusal_in(alloc: Global, status: u16, value: &Value) -> Result<Refusal, CtlFault>
    ensures done { IfOk result (λ refusal. IsRefusalIn status (view value.now) (refusal_view refusal)) }
    ensures fault { IfErr result (IsNoRefusal (view value.now)) }
{
    let sentence = text_in(value, "error")?;
    let since = value.get("since").and_then(Value::as_u64);
    let sentence = String::from_str(alloc, sentence)?;
    Ok(Refusal {
        status,
        since,
        sentence,
    })
}
