//! How a line is served, and who comes to it.

ghost use Rattle.std.specs.Prelude.{◌≡◌, IfOk, Some, option_map};
ghost use Rattle.serde_json.specs.View.{view};
ghost use Rattle.njh_answer.specs.Lines.{callers_data, served_data, stands_data, state_text, with_counts};
ghost use Rattle.njh_answer.specs.Lines.{with_figures, with_stands};
ghost use Rattle.njh_answer.specs.Troubles.{moment_data, trouble_where};

use crate::addresses::{peer_value, refused_value, waiting_value};
use crate::counts::counts_value;
use crate::members::with_member;
use crate::troubles::{moments_value, trouble_value};
use crate::views::LineView;
use njh_request::LineState;
use serde_json::{Value, json};
use std::alloc::{AllocError, Global};

/// How a line is served; null if it isn't.
pub(crate) fn served_value(alloc: Global, served: Option<&LineView>) -> Result<Value, AllocError>
    ensures { IfOk result (λ value. view value ≡ served_data (option_map (λ s. s.now) served.entry)) }
{
    match served {
        Some(served) => view_value(alloc, served),
        None => Ok(Value::Null),
    }
}

/// What the service knows of a line.
fn view_value(alloc: Global, served: &LineView) -> Result<Value, AllocError>
    ensures { IfOk result (λ value. view value ≡ served_data (Some served.now)) }
{
    let value = callers_value(alloc, served)?;
    with_figures(alloc, served, value)
}

/// How a line is served, how its sessions were, and who comes to it.
fn callers_value(alloc: Global, served: &LineView) -> Result<Value, AllocError>
    ensures { IfOk result (λ value. view value ≡ callers_data served.now) }
{
    let peer = peer_value(alloc, served.peer)?;
    let refused = refused_value(alloc, &served.refused)?;
    let waiting = waiting_value(alloc, &served.waiting)?;
    json!(in alloc; {
        "connected": moment_value(served.connected),
        "last_end": served.last_end.as_str(),
        "naks": served.naks,
        "peer": peer,
        "refused": refused,
        "repeats": served.repeats,
        "site": served.site.as_str(),
        "state": state_text(served.state),
        "up": moment_value(served.up),
        "waiting": waiting
    })
}

/// The same with what was counted on it, since when it is as it is, and what is wrong with it.
fn with_figures(alloc: Global, served: &LineView, value: Value) -> Result<Value, AllocError>
    ensures { IfOk result (λ told. view told ≡ with_figures served.now (view value)) }
{
    let value = with_counts(alloc, served, value)?;
    let down = moment_value(served.down);
    let value = with_member(alloc, "down", down, value)?;
    let since = Value::from(served.state_since);
    with_member(alloc, "state_since", since, value)
}

fn with_counts(alloc: Global, served: &LineView, value: Value) -> Result<Value, AllocError>
    ensures { IfOk result (λ told. view told ≡ with_counts served.now (view value)) }
{
    let value = with_stands(alloc, served, value)?;
    let counts = counts_value(alloc, &served.counts)?;
    with_member(alloc, "counts", counts, value)
}

fn with_stands(alloc: Global, served: &LineView, value: Value) -> Result<Value, AllocError>
    ensures { IfOk result (λ told. view told ≡ with_stands served.now (view value)) }
{
    let wrong = wrong_value(alloc, served)?;
    let value = with_member(alloc, "wrong", wrong, value)?;
    let stands = stands_value(alloc, served)?;
    with_member(alloc, "stands", stands, value)
}

/// What is wrong with it, if something is.
fn wrong_value(alloc: Global, served: &LineView) -> Result<Value, AllocError>
    ensures { IfOk result (λ value. view value ≡ trouble_where served.now.wrong) }
{
    match &served.wrong {
        Some(trouble) => trouble_value(alloc, trouble),
        None => Ok(Value::Null),
    }
}

/// Since when each of a line's streams stands as it stands.
fn stands_value(alloc: Global, served: &LineView) -> Result<Value, AllocError>
    ensures { IfOk result (λ value. view value ≡ stands_data served.now) }
{
    let from_hub = moments_value(alloc, &served.going_since)?;
    let to_hub = moments_value(alloc, &served.coming_since)?;
    json!(in alloc; {"from_hub": from_hub, "to_hub": to_hub})
}

fn state_text(state: LineState) -> &'static str
    ensures { result.now ≡ state_text state }
{
    match state {
        LineState::Started => "started",
        LineState::Draining => "draining",
        LineState::Stopped => "stopped",
    }
}

/// A moment, if there is one.
pub(crate) fn moment_value(moment: Option<u64>) -> Value
    ensures { view result ≡ moment_data moment }
{
    match moment {
        Some(moment) => Value::from(moment),
        None => Value::Null,
    }
}
